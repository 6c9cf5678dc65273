//! Commands, replies, changes and outcomes.
use crate::day_command::{DayCommand, DayNumber, Upload};
use crate::revision::{ItemRefusal, Revised};
use crate::table::{Table, TableText};
use asrun_match::DayAsRun;
use channel_plan::{PlanRow, Refusal};
use grant_core::OfferCommand;
use playlist_core::DayChange;
use playlist_edl::Imported;
use vault_core::{Clip, ClipCommand, Offer, Put, Tape, TapeCommand};

/// A command on a channel's own rows: it puts a row of this kind.
#[derive(Drop)]
pub enum VaultCommand {
    Tape(TapeCommand),
    Clip(ClipCommand),
    Offer(OfferCommand),
}

/// A command on what was aired of one broadcast day.
#[derive(Drop)]
pub enum AiringCommand {
    /// Take the batch with this number, as-run rows as CSV without a header.
    TakeBatch { number: u32, rows: Upload },
    /// Write the match table. It changes nothing.
    WriteMatch,
}

/// A command of one channel.
#[derive(Drop)]
pub enum Command {
    /// On its own rows.
    Vault(VaultCommand),
    /// On one of its broadcast days.
    Day(DayNumber, DayCommand),
    /// On what was aired of one of them.
    Airing(DayNumber, AiringCommand),
    /// Tell its row of the plan. It changes nothing.
    PlanRow,
    /// Write a table of what it sees. It changes nothing.
    Table(Table),
}

impl Command {
    ghost use Rattle.std.specs.Prelude.{◌≡◌};
    ghost use Rattle.channel_view_model.specs.Need.{asks_a_part};

    /// Whether it is decided by a part of the rows. A table asks for all rows of a kind.
    pub fn asks_a_part(&self) -> bool
        ensures { result ≡ asks_a_part self.now }
    {
        match self {
            Command::Vault(_) | Command::Day(_, _) | Command::Airing(_, _) | Command::PlanRow =>
                true,
            Command::Table(_) => false,
        }
    }
}

/// What a command is answered.
#[derive(Debug, PartialEq, Eq, Drop)]
pub enum Reply {
    /// The number of a tape.
    Tape(u16),
    /// The number of a clip.
    Clip(u32),
    /// The number of an offer.
    Offer(u16),
    /// The number of a day.
    Day(u32),
    /// The number of an item.
    Item(u16),
    /// How many events of a list became items, and how many were skipped.
    Items(Imported),
    /// How many items a revision put in and took out.
    Revised(Revised),
    /// The number of a batch, and its frames.
    Batch { number: u32, frames: u32 },
    /// The channel's row of the plan.
    PlanRow(PlanRow),
    Table(TableText),
    Refused(Refusal),
    /// One of a list was refused.
    ItemRefused(ItemRefusal),
}

/// A change of a channel's own rows: this row stands among those of its kind, in the place of the one with its number, or
/// as one more.
#[derive(PartialEq, Eq, Drop)]
pub enum VaultChange {
    Tape(Tape),
    Clip(Clip),
    Offer(Offer),
}

/// What a command does to its channel's rows.
#[derive(Drop)]
pub enum Change {
    Nothing,
    /// A row is put so.
    Vault(Put, VaultChange),
    /// A day stands so, and this differs from how it stood.
    Day(DayChange),
    /// This was aired of a day.
    Airing(DayAsRun),
}

/// What became of a request.
#[derive(Debug, PartialEq, Eq, Drop)]
pub enum Outcome {
    Replied(Reply),
    /// The channel isn't in the plan. Nothing was changed.
    NoChannel,
    /// Want of memory, or a statement of the store that failed. Nothing was changed.
    Unavailable,
}
