//! What is refused, and why.
ghost use Rattle.std.specs.Prelude.{◌≡◌, Some, codes};
ghost use Rattle.timecode.specs.Fault.{fault_number, fault_name, fault_text, unavailable};

use std::alloc::{AllocError, AllocFailed};
use std::error::Error;
use std::fmt;

/// Why a label's text, or a frame number, is refused.
#[derive(Clone, Copy, PartialEq, Eq, PartialOrd, Ord, Hash, Debug)]
pub enum TcFault {
    /// 1: not eleven bytes of the form `HH:MM:SS:FF`, with `:` or `;` between.
    LabelForm,
    /// 2: hours over 23, minutes or seconds over 59, or frames not below the counting rate.
    LabelRange,
    /// 3: `;` at a rate that leaves no labels out.
    DropMark,
    /// 4: a label that drop-frame counting drops.
    DroppedLabel,
    /// 5: a frame number not below the frames of a day.
    FrameRange,
}

impl TcFault {
    /// Its number, 1 to 5.
    pub fn number(self) -> u16
        ensures { result ≡ fault_number self }
    {
        match self {
            TcFault::LabelForm => 1,
            TcFault::LabelRange => 2,
            TcFault::DropMark => 3,
            TcFault::DroppedLabel => 4,
            TcFault::FrameRange => 5,
        }
    }

    /// Its name, as `DroppedLabel`.
    pub fn name(self) -> &'static str
        ensures { result.now ≡ fault_name self }
    {
        match self {
            TcFault::LabelForm => "LabelForm",
            TcFault::LabelRange => "LabelRange",
            TcFault::DropMark => "DropMark",
            TcFault::DroppedLabel => "DroppedLabel",
            TcFault::FrameRange => "FrameRange",
        }
    }
}

/// Its number and its name, as `4 DroppedLabel`.
impl fmt::Display for TcFault {
    ghost output = { λ fault. Some (fault_text fault) };

    fn fmt<W: fmt::Write>(&self, f: &mut fmt::Formatter<W>) -> fmt::Result {
        let number = self.number();
        let name = self.name();
        write!(f, "{number} {name}")
    }
}

impl Error for TcFault {}

/// A call was refused for want of memory, or of room in a store, and changed nothing.
#[derive(Clone, Copy, PartialEq, Eq, Debug)]
pub struct Unavailable;

impl fmt::Display for Unavailable {
    ghost output = { λ _. Some (codes "100 Unavailable") };

    fn fmt<W: fmt::Write>(&self, f: &mut fmt::Formatter<W>) -> fmt::Result {
        f.write_str("100 Unavailable")
    }
}

impl Error for Unavailable {}

impl From<AllocError> for Unavailable {
    ghost from_gives = { λ _ e. e ≡ unavailable };

    fn from(_error: AllocError) -> Unavailable {
        Unavailable
    }
}

impl<T: Drop> From<AllocFailed<T>> for Unavailable {
    ghost from_gives = { λ _ e. e ≡ unavailable };

    fn from(_error: AllocFailed<T>) -> Unavailable {
        Unavailable
    }
}
