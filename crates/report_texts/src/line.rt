//! A line that is made in memory, so that it is written at once.
ghost use Rattle.std.specs.Prelude.{◌≡◌, ◌≤◌, ◌+◌, ◌++◌, length, replicate};

use arrayvec::ArrayVec;
use itoa::{Buffer, Integer};

/// A line while it is made, with room for 256 bytes: more than any line of a table has.
pub type LineBuffer = ArrayVec<u8, 256>;

/// A text behind the line, which has room for it.
pub fn push(line: &mut LineBuffer, text: &[u8])
    requires { length line.old.items + length text.now ≤ 256 }
    ensures items { line.new.items ≡ line.old.items ++ text.now }
    ensures len { length line.new.items ≡ length line.old.items + length text.now }
{
    let _fits = line.try_extend_from_slice(text);
}

/// So many copies of a byte behind the line, which has room for them.
pub fn push_copies(line: &mut LineBuffer, count: usize, byte: u8)
    requires { length line.old.items + count ≤ 256 }
    ensures items { line.new.items ≡ line.old.items ++ replicate count byte }
    ensures len { length line.new.items ≡ length line.old.items + count }
{
    for _pushed in 0..count {
        line.push(byte);
    }
}

/// A whole number behind the line in decimal. The line has room for the longest of the number's type.
pub fn push_decimal<I: Integer>(line: &mut LineBuffer, number: I)
    requires { length line.old.items + I.MAX_STR_LEN ≤ 256 }
    ensures items { line.new.items ≡ line.old.items ++ I.text number }
    ensures len { length line.new.items ≤ length line.old.items + I.MAX_STR_LEN }
{
    let mut digits = Buffer::new();
    push(line, digits.format(number).as_bytes());
}
