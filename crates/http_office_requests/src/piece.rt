//! What stands at the front of a stream, and where it ends.
ghost use Rattle.std.specs.Prelude.{◌≡◌, ◌+◌, ◌<◌, ◌≤◌, None, true, false, length, take, map, slice_index, All};
ghost use Rattle.httparse.specs.Spans.{IsHeaderWithin, header_bytes};
ghost use Rattle.http_office_requests.specs.Piece.{IsHeadText, IsPartial, framing_in, head_len, is_empty_line};
ghost use Rattle.http_office_requests.specs.Piece.{values_of as named_values};
ghost use Rattle.http_office_requests.specs.FoundPiece.{AreValues, FramesBy, IsFramed, IsNext, IsFramingProgress, IsWholeHead};

use edl::LIST_LIMIT;
use httparse::Status;
use httparse::spans::{EMPTY_HEADER_SPAN, HeaderSpan, Span, parse_request};
use timecode::decimal_number;

/// The most bytes of a head, with the empty line that ends it.
const HEAD_LIMIT: usize = 8192;

/// The most bytes of a body, which may be a list.
pub const BODY_LIMIT: u64 = LIST_LIMIT as u64;

/// The most header fields of a head.
const FIELD_LIMIT: usize = 32;

/// The status of an answer that is the message's own, and no channel's.
#[derive(Clone, Copy)]
pub enum HttpError {
    /// 400
    BadMessage,
    /// 404
    NotFound,
    /// 413
    TooLarge,
    /// 501
    NotImplemented,
}

/// A whole message at the front of the bytes.
#[derive(Clone, Copy)]
pub struct MessageSpans {
    pub method: Span,
    pub path: Span,
    /// Where the body begins.
    pub body: usize,
    /// Where the message ends.
    pub len: usize,
}

/// A whole head that is accepted, at the front of the bytes.
#[derive(Clone, Copy)]
pub struct WholeHead {
    pub method: Span,
    pub path: Span,
    /// Where the head ends.
    pub end: usize,
    /// The length of the body that follows it.
    pub content: usize,
}

/// What is known of bytes that are no whole piece yet, so that a later look, when more have come, goes on from there.
#[derive(Clone, Copy)]
pub enum FramingProgress {
    /// No head ends in so many bytes.
    NoEnd(usize),
    /// The head is whole, and its body is awaited.
    Head(WholeHead),
}

impl FramingProgress {
    /// What is known of bytes that nobody has looked at.
    pub const NOTHING: FramingProgress = FramingProgress::NoEnd(0);
}

/// What stands at the front of the bytes.
#[derive(Clone, Copy)]
pub enum FoundPiece {
    /// No whole piece yet.
    Partial(FramingProgress),
    Message(MessageSpans),
    /// So many bytes that end the connection.
    Last(usize, HttpError),
}

/// What follows a head.
#[derive(Clone, Copy)]
enum Framed {
    /// The method, the path, and so many bytes of body.
    Body(Span, Span, usize),
    Ends(HttpError),
}

/// The values of the fields of one name.
#[derive(Clone, Copy)]
enum Values<'a> {
    Nothing,
    One(&'a [u8]),
    Several,
}

// Whether an empty line ends at the fourth byte from here.
fn is_empty_line_at(bytes: &[u8], at: usize) -> bool
    requires { at + 3 < length bytes.now }
    ensures { result ≡ is_empty_line (slice_index bytes.now at) (slice_index bytes.now (at + 1))
        (slice_index bytes.now (at + 2)) (slice_index bytes.now (at + 3)) }
{
    bytes[at] == 13 && bytes[at + 1] == 10 && bytes[at + 2] == 13 && bytes[at + 3] == 10
}

/// How long the head is, if it ends. No head ends in the first bytes, as many as were searched before.
fn head_end(bytes: &[u8], searched: usize) -> Option<usize>
    requires within { searched ≤ length bytes.now }
    requires searched { head_len (take searched bytes.now) ≡ None }
    ensures { result ≡ head_len bytes.now }
{
    let mut at = searched.saturating_sub(3);
    while at + 3 < bytes.len() {
        if is_empty_line_at(bytes, at) {
            return Some(at + 4);
        }
        at += 1;
    }
    None
}

// The values of the fields of this name.
fn values_of<'a>(head: &'a [u8], fields: &[HeaderSpan], name: &[u8]) -> Values<'a>
    requires { All (IsHeaderWithin (length head.now)) fields.now }
    ensures { AreValues (named_values name.now (map (header_bytes head.now) fields.now)) result }
{
    let mut found = Values::Nothing;
    for field in fields {
        if field.name.of(head).eq_ignore_ascii_case(name) {
            if let Values::One(_) = found {
                return Values::Several;
            }
            found = Values::One(field.value.of(head));
        }
    }
    found
}

// What follows a head of these fields.
fn framing_by_fields(head: &[u8], fields: &[HeaderSpan], method: Span, path: Span) -> Framed
    requires { All (IsHeaderWithin (length head.now)) fields.now }
    ensures { FramesBy method path (framing_in (map (header_bytes head.now) fields.now)) result }
{
    let len = match values_of(head, fields, b"content-length") {
        Values::Nothing => Some(0),
        Values::One(text) => decimal_number(text, 10),
        Values::Several => None,
    };
    let Some(len) = len else {
        return Framed::Ends(HttpError::BadMessage);
    };
    let Values::Nothing = values_of(head, fields, b"transfer-encoding") else {
        return Framed::Ends(HttpError::NotImplemented);
    };
    if len > BODY_LIMIT {
        return Framed::Ends(HttpError::TooLarge);
    }
    Framed::Body(method, path, len as usize)
}

// What follows this head.
fn framing_of_head(head: &[u8]) -> Framed
    ensures { IsFramed head.now result }
{
    let mut headers = [EMPTY_HEADER_SPAN; FIELD_LIMIT];
    match parse_request(head, &mut headers) {
        Ok(Status::Complete(spans)) if spans.len == head.len() => {
            framing_by_fields(head, &headers[..spans.headers], spans.method, spans.path)
        }
        _ => Framed::Ends(HttpError::BadMessage),
    }
}

// Whether the body of this head isn't all there.
fn lacks_body(bytes: &[u8], head: &WholeHead) -> bool
    requires { IsWholeHead bytes.now head.now }
    ensures lacks { result ≡ true → IsPartial bytes.now }
    ensures whole { result ≡ false → head.now.end + head.now.content ≤ length bytes.now }
{
    bytes.len() - head.end < head.content
}

/// Whether it is plain from what is known of the bytes that no piece of them is whole.
pub fn is_plainly_partial(bytes: &[u8], seen: &FramingProgress) -> bool
    requires { IsFramingProgress bytes.now seen.now }
    ensures { result ≡ true → IsPartial bytes.now }
{
    match seen {
        FramingProgress::NoEnd(_) => false,
        FramingProgress::Head(head) => lacks_body(bytes, head),
    }
}

// What stands at the front of the bytes, which have this head.
fn with_body(bytes: &[u8], head: WholeHead) -> FoundPiece
    requires { IsWholeHead bytes.now head }
    ensures { IsNext bytes.now result }
{
    if lacks_body(bytes, &head) {
        return FoundPiece::Partial(FramingProgress::Head(head));
    }
    FoundPiece::Message(MessageSpans {
        method: head.method,
        path: head.path,
        body: head.end,
        len: head.end + head.content,
    })
}

// What stands at the front of the bytes, of which the first n are a head.
fn after_head(bytes: &[u8], n: usize) -> FoundPiece
    requires within { n ≤ length bytes.now }
    requires head { IsHeadText (take n bytes.now) }
    ensures { IsNext bytes.now result }
{
    match framing_of_head(&bytes[..n]) {
        Framed::Ends(status) => FoundPiece::Last(n, status),
        Framed::Body(method, path, content) => {
            let head = WholeHead {
                method,
                path,
                end: n,
                content,
            };
            with_body(bytes, head)
        }
    }
}

// What stands at the front of the bytes, in the first of which no head ends.
fn find_head(bytes: &[u8], searched: usize) -> FoundPiece
    requires { IsFramingProgress bytes.now (FramingProgress.NoEnd searched) }
    ensures { IsNext bytes.now result }
{
    let window = &bytes[..bytes.len().min(HEAD_LIMIT)];
    match head_end(window, searched) {
        Some(n) => after_head(bytes, n),
        None => {
            if window.len() < HEAD_LIMIT {
                return FoundPiece::Partial(FramingProgress::NoEnd(bytes.len()));
            }
            FoundPiece::Last(HEAD_LIMIT, HttpError::BadMessage)
        }
    }
}

/// What stands at the front of the bytes, of which so much is known. The head is searched for from where the last
/// search ended, it is read once, and the bytes of the body are only counted.
pub fn next_piece(bytes: &[u8], seen: FramingProgress) -> FoundPiece
    requires { IsFramingProgress bytes.now seen }
    ensures { IsNext bytes.now result }
{
    match seen {
        FramingProgress::NoEnd(searched) => find_head(bytes, searched),
        FramingProgress::Head(head) => with_body(bytes, head),
    }
}
