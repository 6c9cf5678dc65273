//! What the clip of an offer names.
ghost use Rattle.std.specs.Prelude.{◌≡◌, ◌<◌, ◌^◌, IfSome};
ghost use Rattle.grant_core.specs.ClipRef.{clip_ref, seven_digits};

use timecode::decimal_number;

/// What a text names that is to be a clip.
#[derive(Clone, Copy, PartialEq, Eq)]
pub enum ClipRef {
    /// `C` and 7 digits: an own clip, by its number.
    Own(u32),
    /// `L` and 7 digits: a lent clip.
    Lent,
    /// Any other text.
    Unknown,
}

impl ClipRef {
    /// What this text names.
    pub fn read(text: &[u8]) -> ClipRef
        ensures { result ≡ clip_ref text.now }
    {
        match text.split_first() {
            Some((b'C', digits)) => match seven_digits(digits) {
                Some(number) => ClipRef::Own(number),
                None => ClipRef::Unknown,
            },
            Some((b'L', digits)) => match seven_digits(digits) {
                Some(_) => ClipRef::Lent,
                None => ClipRef::Unknown,
            },
            _ => ClipRef::Unknown,
        }
    }
}

/// The number that just 7 digits write, below 10,000,000; `None` of any other text.
pub fn seven_digits(text: &[u8]) -> Option<u32>
    ensures value { result ≡ seven_digits text.now }
    ensures below { IfSome result (λ n. n < 10 ^ 7) }
{
    if text.len() != 7 {
        return None;
    }
    let number = decimal_number(text, 7)?;
    Some(number as u32)
}
