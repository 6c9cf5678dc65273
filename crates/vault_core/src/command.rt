//! Commands on a channel's tapes and clips: what each asks of the rows, and the row that it puts.
ghost use Rattle.std.specs.Prelude.{◌≡◌};
ghost use Rattle.vault_core.specs.Questions.{IsConsistent};
ghost use Rattle.vault_core.specs.Own.{OwnSeen};
ghost use Rattle.vault_core.specs.Asked.{AreTapeAnswers, AreClipAnswers};
ghost use Rattle.vault_core.specs.Asked.{tapes_asked, tapes_asked_for_clips, clips_asked};
ghost use Rattle.vault_core.specs.Command.{tape_decided, tape_is_put, clip_decided, clip_is_put};

use crate::asked_clips::{ClipsAsked, ClipsFound};
use crate::asked_tapes::{TapesAsked, TapesFound};
use crate::clip::Clip;
use crate::tape::Tape;
use crate::text::RawText;
use channel_plan::{PlanRow, Refusal};

/// How a command puts a row.
#[derive(Clone, Copy, PartialEq, Eq)]
pub enum Put {
    /// As one more, with the next number.
    Added,
    /// In the place of the one with its number.
    Changed,
}

/// A command on a channel's tapes.
#[derive(Drop)]
pub enum TapeCommand {
    /// Put a new tape into a slot.
    Add { barcode: RawText, slot: u32 },
    /// Take the tape with this number out of its slot.
    Pull { tape: u32 },
    /// Put the tape with this number, which is out, into a slot.
    Shelve { tape: u32, slot: u32 },
}

impl TapeCommand {
    /// What it asks of its channel's tapes.
    pub fn asks(&self) -> TapesAsked
        ensures { result ≡ tapes_asked self.now }
    {
        match self {
            TapeCommand::Add { barcode, slot } => TapesAsked::for_tape(barcode.as_bytes(), *slot),
            TapeCommand::Pull { tape } => TapesAsked::for_pull(*tape),
            TapeCommand::Shelve { tape, slot } => TapesAsked::for_shelve(*tape, *slot),
        }
    }

    /// How it puts its row.
    pub fn is_put(&self) -> Put
        ensures { result ≡ tape_is_put self.now }
    {
        match self {
            TapeCommand::Add { .. } => Put::Added,
            TapeCommand::Pull { .. } | TapeCommand::Shelve { .. } => Put::Changed,
        }
    }

    /// The tape as it leaves it, or its first refusal. It is the same for all rows that answer what it asks so.
    pub fn decided(&self, plan: &PlanRow, tapes: &TapesFound) -> Result<Tape, Refusal>
        ensures { (own : OwnSeen) → own.plan ≡ plan.now → IsConsistent own.tapes →
            AreTapeAnswers (tapes_asked self.now) own.tapes tapes.now → result ≡ tape_decided own self.now }
    {
        match self {
            TapeCommand::Add { barcode, slot } => tapes.tape_for(plan, barcode.as_bytes(), *slot),
            TapeCommand::Pull { .. } => tapes.pulled(),
            TapeCommand::Shelve { slot, .. } => tapes.shelved(plan, *slot),
        }
    }
}

/// A command on a channel's clips.
#[derive(Drop)]
pub enum ClipCommand {
    /// Add a clip on the tape with this number. `source_in` is the label of its first source frame, `umid` are
    /// hexadecimal digits, `frames` is its length.
    Add {
        tape: u32,
        title: RawText,
        umid: RawText,
        source_in: RawText,
        frames: u32,
    },
    /// Retire the clip with this number.
    Retire {
        clip: u32,
    },
}

impl ClipCommand {
    /// What it asks of its channel's tapes.
    pub fn asks_of_tapes(&self) -> TapesAsked
        ensures { result ≡ tapes_asked_for_clips self.now }
    {
        match self {
            ClipCommand::Add { tape, .. } => TapesAsked::for_clip(*tape),
            ClipCommand::Retire { .. } => TapesAsked::nothing(),
        }
    }

    /// What it asks of its channel's clips.
    pub fn asks(&self) -> ClipsAsked
        ensures { result ≡ clips_asked self.now }
    {
        match self {
            ClipCommand::Add { umid, .. } => ClipsAsked::for_texts(umid.as_str()),
            ClipCommand::Retire { clip } => ClipsAsked::for_retire(*clip),
        }
    }

    /// How it puts its row.
    pub fn is_put(&self) -> Put
        ensures { result ≡ clip_is_put self.now }
    {
        match self {
            ClipCommand::Add { .. } => Put::Added,
            ClipCommand::Retire { .. } => Put::Changed,
        }
    }

    /// The clip as it leaves it, or its first refusal. It is the same for all rows that answer what it asks so.
    pub fn decided(
        &self,
        plan: &PlanRow,
        tapes: &TapesFound,
        clips: &ClipsFound,
    ) -> Result<Clip, Refusal>
        ensures { (own : OwnSeen) → own.plan ≡ plan.now → IsConsistent own.clips →
            AreTapeAnswers (tapes_asked_for_clips self.now) own.tapes tapes.now →
            AreClipAnswers (clips_asked self.now) own.clips clips.now → result ≡ clip_decided own self.now }
    {
        match self {
            ClipCommand::Add {
                title,
                umid,
                source_in,
                frames,
                ..
            } => clips.clip_of_texts(
                tapes,
                plan,
                title.as_bytes(),
                umid.as_str(),
                source_in.as_bytes(),
                *frames,
            ),
            ClipCommand::Retire { .. } => clips.retired(),
        }
    }
}
