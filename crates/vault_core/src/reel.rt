//! The reels of clips.
use std::fmt;

/// The reel of a clip in edit lists and tables, as it prints: `C` and the clip's number in 7 digits.
#[derive(Clone, Copy, PartialEq, Eq)]
pub struct ClipReel {
    /// The clip's number, from 1.
    pub number: u32,
}

impl fmt::Display for ClipReel {
    ghost use Rattle.std.specs.Prelude.{Some};
    ghost use Rattle.vault_core.specs.Reel.{clip_reel};

    ghost output = { λ reel. Some (clip_reel reel.number) };

    fn fmt<W: fmt::Write>(&self, f: &mut fmt::Formatter<W>) -> fmt::Result {
        let number = self.number;
        write!(f, "C{number:07}")
    }
}
