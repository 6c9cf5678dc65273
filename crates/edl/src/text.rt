// A text as lines, and a line as fields.
ghost use Rattle.std.specs.Prelude.{◌≡◌, ◌≤◌, ◌<◌, take, drop, length, MatchOption, IsUtf8, position, not};
ghost use Rattle.std.specs.List.{before_first, after_first, prefix_len, position_or_len};
ghost use Rattle.edl.specs.Text.{after_mark, without_cr, after_blanks, before_blanks, line_text, is_line_end};
ghost use Rattle.edl.specs.Text.{is_blank, begins_event, fields_of};
ghost use Rattle.edl.specs.Texts.{texts_of};

/// The text without the byte order mark at its start.
pub(crate) fn after_mark(text: &[u8]) -> &[u8]
    ensures { result.now ≡ after_mark text.now }
{
    text.strip_prefix(b"\xef\xbb\xbf").unwrap_or(text)
}

// Where the first LF stands.
fn line_end(text: &[u8]) -> Option<usize>
    ensures { result ≡ position is_line_end text.now }
{
    text.iter().position(|byte| *byte == b'\n')
}

/// The first line with no line end, and what follows its line end.
pub(crate) fn split_line(text: &[u8]) -> (&[u8], &[u8])
    ensures line { result.0.now ≡ before_first is_line_end text.now }
    ensures rest { result.1.now ≡ after_first is_line_end text.now }
{
    match line_end(text) {
        Some(end) => (&text[..end], &text[end + 1..]),
        None => (text, &[]),
    }
}

fn is_blank(byte: u8) -> bool
    ensures { result ≡ is_blank byte }
{
    byte == b' ' || byte == b'\t'
}

fn without_cr(line: &[u8]) -> &[u8]
    ensures { result.now ≡ without_cr line.now }
{
    line.strip_suffix(b"\r").unwrap_or(line)
}

// Where the first byte that is no blank stands.
fn first_non_blank(bytes: &[u8]) -> Option<usize>
    ensures { result ≡ position (λ byte. not (is_blank byte)) bytes.now }
{
    bytes.iter().position(|byte| !is_blank(*byte))
}

// How many blanks the bytes begin with.
fn blanks_in_front(bytes: &[u8]) -> usize
    ensures count { result ≡ prefix_len is_blank bytes.now }
    ensures fits { result ≤ length bytes.now }
{
    first_non_blank(bytes).unwrap_or(bytes.len())
}

/// The bytes without the blanks at their end.
fn before_blanks(bytes: &[u8]) -> &[u8]
    ensures { result.now ≡ before_blanks bytes.now }
{
    let mut end = bytes.len();
    while end > 0 && is_blank(bytes[end - 1]) {
        end -= 1;
    }
    &bytes[..end]
}

/// What the line says: without its CR, and without blanks at its ends.
#[tactic(auto, unfolding(crate::specs::Text::line_text))]
pub(crate) fn line_text(line: &[u8]) -> &[u8]
    ensures { result.now ≡ line_text line.now }
{
    let line = without_cr(line);
    before_blanks(&line[blanks_in_front(line)..])
}

/// Whether the line is an event's: its first byte is a digit.
pub(crate) fn begins_event(line: &[u8]) -> bool
    ensures { result ≡ begins_event line.now }
{
    line.first().is_some_and(|byte| byte.is_ascii_digit())
}

/// The text without the blanks at its start.
pub(crate) fn after_blanks(text: &str) -> &str
    ensures { result.now ≡ after_blanks text.now }
{
    text.split_at(blanks_in_front(text.as_bytes())).1
}

// Where the first blank stands.
fn first_blank(text: &[u8]) -> Option<usize>
    ensures { result ≡ position is_blank text.now }
{
    text.iter().position(|byte| is_blank(*byte))
}

/// What stands before the first blank, and what stands from the next field on.
fn split_field(text: &str) -> (&str, &str)
    ensures field { result.0.now ≡ before_first is_blank text.now }
    ensures rest { result.1.now ≡ after_blanks (drop (position_or_len is_blank text.now) text.now) }
    ensures text { IsUtf8 result.1.now }
{
    let end = first_blank(text.as_bytes()).unwrap_or(text.len());
    let (field, rest) = text.split_at(end);
    (field, after_blanks(rest))
}

/// The fields of a line, of which there are ten at most.
#[derive(Clone, Copy)]
pub struct Fields<'a> {
    pub items: [&'a str; 10],
    pub count: usize,
}

/// The fields of a line that doesn't begin with a blank; none where there are more than ten.
pub(crate) fn fields_of<'a>(line: &'a str) -> Option<Fields<'a>>
    ensures { MatchOption result (10 < length (fields_of line.now))
        (λ fields. (fields.count ≤ 10) × (texts_of (take fields.count fields.items) ≡ fields_of line.now)) }
{
    let mut items = [""; 10];
    let mut count = 0;
    let mut rest = after_blanks(line);
    while !rest.is_empty() {
        if count == 10 {
            return None;
        }
        let (field, after) = split_field(rest);
        items[count] = field;
        count += 1;
        rest = after;
    }
    Some(Fields { items, count })
}
