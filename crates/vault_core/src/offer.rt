//! Offers: clips that are lent to other channels.
ghost use Rattle.std.specs.Prelude.{◌≡◌};
ghost use Rattle.vault_core.specs.Window.{is_in};

use crate::clip::Title;
use crate::window::Window;
use timecode::Rate;
use umid::Umid;

/// The most offers of a channel, withdrawn ones included.
pub const MAX_OFFERS: usize = 9999;

/// An offer of a clip to another channel, the grantee: a copy of what the clip was as it was offered. To the grantee it
/// is a lent clip.
#[derive(Clone, Copy, PartialEq, Eq)]
pub struct Offer {
    /// Counted in the owner's channel from 1.
    pub n: u16,
    /// The channel that it is offered to, 1 to 999, which needn't be in the plan.
    pub grantee: u16,
    /// The number of the owner's clip.
    pub clip: u32,
    pub title: Title,
    /// The clip's UMID, with the grantee for its instance number.
    pub umid: Umid,
    /// The owner's rate, at which the frames are counted.
    pub rate: Rate,
    /// The clip's first frame on its tape.
    pub src_first: u32,
    /// Its length in frames, 1 or more.
    pub frames: u32,
    /// The days in which it may be shown, or none where it may in any.
    pub window: Option<Window>,
    /// Whether it is withdrawn. It is never open again.
    pub withdrawn: bool,
}

impl Offer {
    /// Whether its window, if it has one, has the day of this number.
    pub fn lends_in(&self, day: u32) -> bool
        ensures { result ≡ is_in self.now.window day }
    {
        match self.window {
            Some(window) => window.has(day),
            None => true,
        }
    }
}
