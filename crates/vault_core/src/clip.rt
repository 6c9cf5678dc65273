//! Clips and their titles.
ghost use Rattle.std.specs.Prelude.{◌≡◌, ◌≤◌, ◌-◌, ◌==◌, ◌&&◌, true, length, IsTrue, Some, None};
ghost use Rattle.std.specs.Prelude.{if◌then◌else◌};
ghost use Rattle.std.specs.List.{list_all};
ghost use Rattle.vault_core.specs.Title.{is_title as is_title_text, is_title_byte};
ghost use Rattle.vault_core.specs.Clip.{has_umid, is_clip_range, umid_bytes};

use channel_plan::{PlanRow, ShortText};
use std::marker::Model;
use timecode::day_frames;
use umid::Umid;

/// The most clips of a channel, retired ones included.
pub const MAX_CLIPS: usize = 20_000;

/// A clip of a channel: a stretch of a tape.
#[derive(Clone, Copy, PartialEq, Eq)]
pub struct Clip {
    /// Counted in its channel from 1.
    pub n: u32,
    /// The number of the tape that it is on.
    pub tape: u16,
    pub title: Title,
    pub umid: Umid,
    /// Its first frame on the tape.
    pub src_first: u32,
    /// Its length in frames, 1 or more.
    pub frames: u32,
    /// Whether it is retired. It is never active again.
    pub retired: bool,
}

impl Clip {
    /// Whether it has this UMID.
    pub fn has_umid(&self, umid: Umid) -> bool
        ensures { result ≡ has_umid umid self.now }
    {
        self.umid_bytes() == umid.to_bytes()
    }

    // The bytes of its UMID.
    #[tactic(auto, unfolding(crate::specs::Clip::umid_bytes))]
    pub(crate) fn umid_bytes(&self) -> [u8; 32]
        ensures { result ≡ umid_bytes self.now }
    {
        self.umid.to_bytes()
    }
}

/// The title of a clip: 1 to 60 bytes from the blank to `~`, with no blank at either end.
#[derive(Clone, Copy, PartialEq, Eq)]
pub struct Title {
    text: ShortText<60>,
}

impl Model for Title {
    ghost use Rattle.std.specs.Prelude.{◌≡◌, true, ℕ, List};
    ghost use Rattle.vault_core.specs.Title.{is_title};

    ghost Value = { List ℕ };

    ghost view = { λ t. t.text };

    ghost invariant = { λ t. is_title t.text ≡ true };

    ghost inverse = { λ text. record { text = text } };
}

impl Title {
    /// The title that this text is, if it is one.
    pub fn read(text: &[u8]) -> Option<Title>
        ensures { result ≡ (if is_title_text text.now then Some text.now else None) }
    {
        if is_title(text) {
            let text = ShortText::of(text)?;
            Some(Title { text })
        } else {
            None
        }
    }

    /// A law: a title is one.
    pub fn keeps_the_form(&self)
        ensures { is_title_text self.now ≡ true }
    {
        let _text = self.text;
    }

    /// Its text.
    pub fn as_bytes(&self) -> &[u8]
        ensures { result.now ≡ self.now }
    {
        self.text.as_bytes()
    }
}

// Whether a text is a title.
#[tactic(auto, unfolding(crate::specs::Title::is_title))]
fn is_title(text: &[u8]) -> bool
    ensures value { result ≡ is_title_text text.now }
    ensures fits { IsTrue result → length text.now ≤ 60 }
{
    !text.is_empty()
        && text.len() <= 60
        && has_title_bytes(text)
        && text[0] != b' '
        && text[text.len() - 1] != b' '
}

fn has_title_bytes(text: &[u8]) -> bool
    ensures { result ≡ list_all is_title_byte text.now }
{
    text.iter().all(|b| *b >= b' ' && *b <= b'~')
}

/// Whether a clip of this channel may have these frames: one or more, none behind the day's last.
pub(crate) fn is_range(plan: &PlanRow, source_first: u32, frames: u32) -> bool
    ensures { result ≡ is_clip_range plan.now source_first frames }
{
    frames > 0 && u64::from(source_first) + u64::from(frames) <= u64::from(day_frames(plan.rate))
}
