//! A stream of messages: each whole one is answered before the next read.
ghost use Rattle.std.specs.Prelude.{◌≡◌, ◌<◌, ◌≤◌, length, drop, OnOk, OnErr};
ghost use Rattle.std.specs.Io.KnownBytes.{Appends};
ghost use Rattle.http_office_requests.specs.Found.{OfPiece};
ghost use Rattle.http_office_requests.specs.FoundPiece.{IsNext, IsFramingProgress};
ghost use Rattle.http_office.specs.Serving.{Serves};
ghost use Rattle.report_texts.specs.Output.{AppendsPart};
ghost use Rattle.http_office.specs.Turn.{ActsOn, AnswersWhole, ReadsMore, TakesTurn};

use crate::messages::answer_piece;
use channel_view_model::RowStore;
use http_office_requests::{FoundPiece, FramingProgress, Routes, is_plainly_partial, next_piece};
use report_texts::{WriteFault, send};
use std::alloc::Global;
use std::io::{Read, Write};

/// How many reads are made of a stream at most.
const MAX_READS: u32 = 1_048_576;

/// How many bytes are asked of the input at once.
const READ_SIZE: usize = 32_768;

/// How a stream ended.
#[derive(Clone, Copy, Debug, PartialEq, Eq)]
pub enum End {
    /// The input ended between messages.
    Closed,
    /// The input ended within a message, of which nothing was done.
    CutShort,
    /// An answer that ends the connection was written.
    Refused,
    /// The last of the reads was made that a stream has. Nothing was done of what is left.
    TurnsSpent,
}

/// What broke a stream off.
#[derive(Clone, Copy, Debug, PartialEq, Eq)]
pub enum ServeFault {
    /// A read failed. Nothing was done of what is left.
    Read,
    /// A write failed, or took no bytes. The message whose answer it was has been acted on.
    Write,
    /// Memory ran out, before anything was done of a further message.
    Memory,
}

#[derive(Clone, Copy)]
enum ReadOutcome {
    More,
    End,
}

#[derive(Clone, Copy)]
enum Turn {
    /// No whole piece is there.
    Waits(FramingProgress),
    /// A message of so many bytes was answered.
    Answered(usize),
    /// What ended the connection was answered.
    Ended,
}

// Makes one read, and puts what came behind what is pending.
fn read_more<R: Read>(
    input: &mut R,
    buffer: &mut [u8],
    pending: &mut Vec<u8>,
) -> Result<ReadOutcome, ServeFault>
    requires { 0 < length buffer.old }
    ensures { ReadsMore (R.remaining input.old) (R.remaining input.new) pending.old.items pending.new.items result }
{
    match input.read(buffer) {
        Ok(0) => Ok(ReadOutcome::End),
        Ok(count) => match pending.extend_from_slice(&buffer[..count]) {
            Ok(()) => Ok(ReadOutcome::More),
            Err(_) => Err(ServeFault::Memory),
        },
        Err(_) => Err(ServeFault::Read),
    }
}

// Acts on the piece that was found at the front of the bytes, and then writes its answer.
fn act<S: RowStore, W: Write>(
    alloc: Global,
    routes: &Routes,
    store: &mut S,
    bytes: &[u8],
    next: &FoundPiece,
    output: &mut W,
) -> Result<(), WriteFault>
    requires { IsNext bytes.now next.now }
    ensures ok { OnOk result (OfPiece bytes.now next.now (ActsOn Appends S.is_clean S.stands_for S.may_leave
        S.leaves_sets store.old store.new (W.contents output.old) (W.contents output.new))) }
    ensures err { OnErr result (OfPiece bytes.now next.now (ActsOn AppendsPart S.is_clean S.stands_for S.may_leave
        S.leaves_sets store.old store.new (W.contents output.old) (W.contents output.new))) }
{
    let answer = answer_piece(alloc, routes, store, bytes, next);
    send(output, answer.bytes())
}

// Answers the piece at the front of the bytes, if a whole one is there.
fn answer_front<S: RowStore, W: Write>(
    alloc: Global,
    routes: &Routes,
    store: &mut S,
    bytes: &[u8],
    seen: FramingProgress,
    output: &mut W,
) -> Result<Turn, ServeFault>
    requires { IsFramingProgress bytes.now seen }
    ensures { TakesTurn S.is_clean S.stands_for S.may_leave S.leaves_sets store.old store.new
        (W.contents output.old) (W.contents output.new) bytes.now result }
{
    let next = next_piece(bytes, seen);
    if let FoundPiece::Partial(seen) = next {
        return Ok(Turn::Waits(seen));
    }
    if act(alloc, routes, store, bytes, &next, output).is_err() {
        return Err(ServeFault::Write);
    }
    match next {
        FoundPiece::Partial(seen) => Ok(Turn::Waits(seen)),
        FoundPiece::Message(m) => Ok(Turn::Answered(m.len)),
        FoundPiece::Last(_, _) => Ok(Turn::Ended),
    }
}

// Takes the first n bytes out.
fn remove_front(pending: &mut Vec<u8>, n: usize)
    requires { n ≤ length pending.old.items }
    ensures { pending.new.items ≡ drop n pending.old.items }
{
    if n == 0 {
        return;
    }
    let left = pending.len() - n;
    pending.copy_within(n.., 0);
    pending.truncate(left);
}

// Answers each whole piece of what is pending, and takes them out. What is known of what is left, or `None` where the
// connection has ended.
fn answer_whole<S: RowStore, W: Write>(
    alloc: Global,
    routes: &Routes,
    store: &mut S,
    pending: &mut Vec<u8>,
    seen: FramingProgress,
    output: &mut W,
) -> Result<Option<FramingProgress>, ServeFault>
    requires { IsFramingProgress pending.old.items seen }
    ensures { AnswersWhole S.is_clean S.stands_for S.may_leave S.leaves_sets store.old store.new
        (W.contents output.old) (W.contents output.new) pending.old.items pending.new.items result }
{
    let mut at = 0;
    let mut seen = seen;
    let left = loop {
        match answer_front(alloc, routes, store, &pending[at..], seen, output)? {
            Turn::Waits(left) => break left,
            Turn::Answered(n) => {
                at += n;
                seen = FramingProgress::NOTHING;
            }
            Turn::Ended => return Ok(None),
        }
    };
    remove_front(pending, at);
    Ok(Some(left))
}

// Answers message after message of a stream, with room for one read.
fn serve_with<S: RowStore, R: Read, W: Write>(
    alloc: Global,
    routes: &Routes,
    buffer: &mut [u8],
    store: &mut S,
    input: &mut R,
    output: &mut W,
) -> Result<End, ServeFault>
    requires { 0 < length buffer.old }
    ensures { Serves S.is_clean S.stands_for S.may_leave S.leaves_sets store.old store.new (R.remaining input.old)
        (R.remaining input.new) (W.contents output.old) (W.contents output.new) result }
{
    let mut pending = Vec::new(alloc);
    let mut seen = FramingProgress::NOTHING;
    for _ in 0..MAX_READS {
        match read_more(input, buffer, &mut pending)? {
            ReadOutcome::More => {}
            ReadOutcome::End if pending.is_empty() => return Ok(End::Closed),
            ReadOutcome::End => return Ok(End::CutShort),
        }
        if is_plainly_partial(&pending, &seen) {
            continue;
        }
        match answer_whole(alloc, routes, store, &mut pending, seen, output)? {
            Some(left) => seen = left,
            None => return Ok(End::Refused),
        }
    }
    Ok(End::TurnsSpent)
}

/// Answers message after message: after each read every whole one, so that none waits for bytes that come behind it.
///
/// The stream ends with its input, with a message whose answer ends the connection, or after 1,048,576 reads. It is
/// held in memory only as far as it isn't answered. A read or a write that is interrupted has failed.
pub fn serve<S: RowStore, R: Read, W: Write>(
    alloc: Global,
    store: &mut S,
    input: &mut R,
    output: &mut W,
) -> Result<End, ServeFault>
    // The pieces that were answered are those with which what was read begins, and how it came in reads doesn't matter
    // (`laws::one_cut`).
    ensures { Serves S.is_clean S.stands_for S.may_leave S.leaves_sets store.old store.new (R.remaining input.old)
        (R.remaining input.new) (W.contents output.old) (W.contents output.new) result }
{
    let Ok(routes) = Routes::new(alloc) else {
        return Err(ServeFault::Memory);
    };
    let Ok(mut buffer) = vec![in alloc; 0; READ_SIZE] else {
        return Err(ServeFault::Memory);
    };
    serve_with(alloc, &routes, &mut buffer, store, input, output)
}
