//! Labels of frames.
ghost use Rattle.std.specs.Prelude.{◌≡◌, Some, IsUtf8};
ghost use Rattle.timecode.specs.Label.{label_text};

use crate::rates::Rate;
use std::fmt;

/// The label of a frame: its time address (SMPTE ST 12-1), and the rate that it is counted at.
///
/// A label that `to_timecode` gives is in the ranges said below. Others can be made: their numbers are
/// written as far as two digits go, and are whatever their maker put in. [`Label::frame`] tells which those are.
#[derive(Clone, Copy, PartialEq, Eq, PartialOrd, Ord, Hash, Debug)]
pub struct Label {
    /// 0 to 23.
    pub hours: u8,
    /// 0 to 59.
    pub minutes: u8,
    /// 0 to 59.
    pub seconds: u8,
    /// From 0, below the counting rate.
    pub frames: u8,
    /// The rate that the label is counted at.
    pub rate: Rate,
}

impl Label {
    /// The text of the label, `HH:MM:SS:FF`; at drop-frame `;` stands before the frames, and is the only one.
    pub fn bytes(&self) -> [u8; 11]
        ensures text { result ≡ label_text self.now }
        ensures utf8 { IsUtf8 result }
    {
        let last_mark = if self.rate.is_drop_frame() {
            b';'
        } else {
            b':'
        };
        [
            b'0' + self.hours / 10,
            b'0' + self.hours % 10,
            b':',
            b'0' + self.minutes / 10,
            b'0' + self.minutes % 10,
            b':',
            b'0' + self.seconds / 10,
            b'0' + self.seconds % 10,
            last_mark,
            b'0' + self.frames / 10,
            b'0' + self.frames % 10,
        ]
    }
}

/// The label's text.
impl fmt::Display for Label {
    ghost output = { λ label. Some (label_text label) };

    fn fmt<W: fmt::Write>(&self, f: &mut fmt::Formatter<W>) -> fmt::Result {
        let bytes = self.bytes();
        let text = std::str::from_utf8(&bytes).unwrap();
        f.write_str(text)
    }
}
