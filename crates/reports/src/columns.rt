//! Fields that stand in columns of a line.
ghost use Rattle.std.specs.Prelude.{◌≡◌, ◌≤◌, ◌+◌, ◌++◌, length};
ghost use Rattle.timecode.specs.Decimal.{in_digits};
ghost use Rattle.report_texts.specs.Fields.{left_in, right_in, number_in};

use itoa::{Buffer, Integer};
use report_texts::{LineBuffer, push, push_copies};

/// A text at the left of so many places.
pub(crate) fn push_left(line: &mut LineBuffer, width: usize, text: &[u8])
    requires { length line.old.items + width + length text.now ≤ 256 }
    ensures items { line.new.items ≡ line.old.items ++ left_in width text.now }
    ensures len { length line.new.items ≤ length line.old.items + width + length text.now }
{
    push(line, text);
    push_copies(line, width.saturating_sub(text.len()), b' ');
}

// A text at their right.
fn push_right(line: &mut LineBuffer, width: usize, text: &[u8])
    requires { length line.old.items + width + length text.now ≤ 256 }
    ensures items { line.new.items ≡ line.old.items ++ right_in width text.now }
    ensures len { length line.new.items ≤ length line.old.items + width + length text.now }
{
    push_copies(line, width.saturating_sub(text.len()), b' ');
    push(line, text);
}

/// A number at the right of so many places.
pub(crate) fn push_number(line: &mut LineBuffer, width: usize, number: u32)
    requires { length line.old.items + width + 10 ≤ 256 }
    ensures items { line.new.items ≡ line.old.items ++ number_in width number }
    ensures len { length line.new.items ≤ length line.old.items + width + 10 }
{
    let mut digits = Buffer::new();
    push_right(line, width, digits.format(number).as_bytes());
}

/// A count at the right of so many places.
pub(crate) fn push_count<I: Integer>(line: &mut LineBuffer, width: usize, count: I)
    requires { length line.old.items + width + I.MAX_STR_LEN ≤ 256 }
    ensures items { line.new.items ≡ line.old.items ++ right_in width (I.text count) }
    ensures len { length line.new.items ≤ length line.old.items + width + I.MAX_STR_LEN }
{
    let mut digits = Buffer::new();
    push_right(line, width, digits.format(count).as_bytes());
}

/// A number in at least so many digits.
pub(crate) fn push_digits(line: &mut LineBuffer, width: usize, number: u32)
    requires { length line.old.items + width + 10 ≤ 256 }
    ensures items { line.new.items ≡ line.old.items ++ in_digits width number }
    ensures len { length line.new.items ≤ length line.old.items + width + 10 }
{
    let mut buffer = Buffer::new();
    let digits = buffer.format(number).as_bytes();
    push_copies(line, width.saturating_sub(digits.len()), b'0');
    push(line, digits);
}
