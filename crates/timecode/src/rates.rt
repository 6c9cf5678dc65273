//! The counting rates.
ghost use Rattle.std.specs.Prelude.{◌≡◌, ◌≢◌, Some, IfSome, IfNone, codes, ok_or};
ghost use Rattle.timecode.specs.declared.rates.Rate.{Rate};
ghost use Rattle.timecode.specs.Rate.{nominal_frames, is_drop_frame, rate_text, rate_of_text, unknown_rate};

use std::error::Error;
use std::fmt;
use std::str::FromStr;

/// How time addresses are counted.
#[derive(Clone, Copy, PartialEq, Eq, PartialOrd, Ord, Hash, Debug)]
pub enum Rate {
    /// 24 frames a second.
    F24,
    /// 25 frames a second.
    F25,
    /// 30 frames a second.
    F30,
    /// Drop-frame counting at 30000/1001 frames a second.
    Df30,
}

impl Rate {
    /// Each rate once.
    pub const ALL: [Rate; 4] = [Rate::F24, Rate::F25, Rate::F30, Rate::Df30];

    /// The rate that `24`, `25`, `30` or `df` names, and no other text.
    pub fn from_text(text: &[u8]) -> Option<Rate>
        ensures value { result ≡ rate_of_text text.now }
        ensures found { IfSome result (λ rate. rate_text rate ≡ text.now) }
        ensures none { IfNone result ((rate : Rate) → rate_text rate ≢ text.now) }
    {
        match text {
            b"24" => Some(Rate::F24),
            b"25" => Some(Rate::F25),
            b"30" => Some(Rate::F30),
            b"df" => Some(Rate::Df30),
            _ => None,
        }
    }

    /// How many frames are counted in a second: 24, 25 or 30, and 30 at drop-frame too (SMPTE ST 12-1).
    pub fn nominal_frames_per_second(self) -> u8
        ensures { result ≡ nominal_frames self }
    {
        match self {
            Rate::F24 => 24,
            Rate::F25 => 25,
            Rate::F30 | Rate::Df30 => 30,
        }
    }

    /// Whether labels are dropped, as at drop-frame (SMPTE ST 12-1). No frames are.
    pub fn is_drop_frame(self) -> bool
        ensures { result ≡ is_drop_frame self }
    {
        matches!(self, Rate::Df30)
    }

    /// Its text, by which it is named: `24`, `25`, `30` or `df`.
    pub fn text(self) -> &'static str
        ensures { result.now ≡ rate_text self }
    {
        match self {
            Rate::F24 => "24",
            Rate::F25 => "25",
            Rate::F30 => "30",
            Rate::Df30 => "df",
        }
    }
}

impl fmt::Display for Rate {
    ghost output = { λ rate. Some (rate_text rate) };

    fn fmt<W: fmt::Write>(&self, f: &mut fmt::Formatter<W>) -> fmt::Result {
        f.write_str(self.text())
    }
}

/// A text that names no rate.
#[derive(Clone, Copy, PartialEq, Eq, Debug)]
pub struct UnknownRate;

impl fmt::Display for UnknownRate {
    ghost output = { λ _. Some (codes "a rate is 24, 25, 30 or df") };

    fn fmt<W: fmt::Write>(&self, f: &mut fmt::Formatter<W>) -> fmt::Result {
        f.write_str("a rate is 24, 25, 30 or df")
    }
}

impl Error for UnknownRate {}

/// Reads what `Display` writes, as `Rate::from_text`.
impl FromStr for Rate {
    type Err = UnknownRate;

    ghost from_str_gives = { λ text read. read ≡ ok_or (rate_of_text text) unknown_rate };

    fn from_str(text: &str) -> Result<Rate, UnknownRate> {
        Rate::from_text(text.as_bytes()).ok_or(UnknownRate)
    }
}
