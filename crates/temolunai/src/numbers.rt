// What C passes and gets as numbers.
ghost use Rattle.std.specs.Prelude.{◌≡◌};
ghost use Rattle.temolunai.specs.Numbers.{rate_numbered, number_of_rate};

use timecode::Rate;

/// A call did what it is for.
pub const DONE: u32 = 0;
/// A label isn't of the form.
pub const LABEL_FORM: u32 = 1;
/// A frame isn't of the day.
pub const FRAME_RANGE: u32 = 5;
/// The rate is none of 24, 25, 30 and 29, which is drop-frame.
pub const NO_SUCH_RATE: u32 = 6;
/// An output is too small.
pub const NO_ROOM: u32 = 7;
/// There is no such range of frames.
pub const NO_RANGE: u32 = 8;
/// An instance number isn't below 2^24.
pub const INSTANCE_RANGE: u32 = 9;

/// A list has 2^32 bytes or more.
pub const TOO_LONG: u32 = 10;
/// An event can't be written.
pub const NOT_WRITABLE: u32 = 31;
/// Bytes aren't UTF-8, or a place lies beyond them.
pub const NO_TEXT: u32 = 32;
/// Memory ran out.
pub const UNAVAILABLE: u32 = 100;
/// The duration of an event that has none.
pub const NO_DURATION: u32 = 0xffff_ffff;

/// The rate of this number.
pub fn rate_numbered(number: u32) -> Option<Rate>
    ensures { result ≡ rate_numbered number }
{
    match number {
        24 => Some(Rate::F24),
        25 => Some(Rate::F25),
        30 => Some(Rate::F30),
        29 => Some(Rate::Df30),
        _ => None,
    }
}

/// The number of a rate, or 0.
pub fn number_of_rate(rate: Option<Rate>) -> u32
    ensures { result ≡ number_of_rate rate }
{
    match rate {
        Some(Rate::F24) => 24,
        Some(Rate::F25) => 25,
        Some(Rate::F30) => 30,
        Some(Rate::Df30) => 29,
        None => 0,
    }
}
