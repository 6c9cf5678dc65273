//! Stores of the rows of all channels.
ghost use Rattle.std.specs.Prelude.{◌≡◌, ◌⊎◌, is_some, IfOk, OnOk, OnErr, IsOk};
ghost use Rattle.std.specs.Option.{option_map};
ghost use Rattle.std.specs.Io.KnownBytes.{Appends};
ghost use Rattle.report_texts.specs.Output.{AppendsPart};
ghost use Rattle.channel_view_model.specs.Centre.{Centre, view_of, changed, IsChangeOf};
ghost use Rattle.channel_view_model.specs.Counts.{counts_seen};
ghost use Rattle.channel_view_model.specs.Need.{IsFetched};
ghost use Rattle.channel_view_model.specs.Rules.{KeepsRules};
ghost use Rattle.channel_view_model.specs.TableText.{text_at};
ghost use Rattle.channel_view_model.specs.Store.{WhileClean};

use crate::command::Change;
use crate::need::Need;
use crate::part::Part;
use crate::table::{Table, TableFault};
use crate::view::View;
use report_texts::DayCounts;
use std::io::Write;
use timecode::Unavailable;

/// A store of one set of rows of all channels.
///
/// Its clauses say what holds while the store is clean, for each set that it stands for. A store that a fault of the
/// disk has shut shows nothing: it stands for every set, and answers nothing but `Unavailable`. So whatever opens a
/// store says which set it stands for. Where a call is answered, the set keeps the integrity rules (`rules`).
pub trait RowStore {
    /// The store stands for this set.
    ghost stands_for: { Self → Centre → Type 0 };

    /// Up to now nobody else wrote it, and it gave back what was written.
    ghost is_clean: { Self → Type 0 };

    /// What a stop of the program now may leave.
    ghost may_leave: { Self → Centre → Type 0 };

    /// All that it may leave holds a set which keeps the rules.
    ghost leaves_sets: { Self → Type 0 };

    /// What the channel sees, or `None` where it isn't in the plan.
    fn load(&mut self, channel: u16) -> Result<Option<View>, Unavailable>
        ensures clean { is_clean self.new → is_clean self.old }
        ensures view { WhileClean (is_clean self.new) (stands_for self.old)
            (λ rows. IfOk result (λ v. v ≡ view_of channel rows)) }
        ensures rules { WhileClean (is_clean self.new) (stands_for self.old) (λ rows. OnOk result (KeepsRules rows)) }
        ensures same { WhileClean (is_clean self.new) (stands_for self.old) (λ rows. stands_for self.new rows) }
        ensures stop { is_clean self.new → (left : Centre) → may_leave self.new left → may_leave self.old left }
        ensures sets { leaves_sets self.old → leaves_sets self.new };

    /// Just the part of what the channel sees that a command needs, or `None` where it isn't in the plan.
    fn fetch(&mut self, channel: u16, need: &Need<'_>) -> Result<Option<Part>, Unavailable>
        ensures clean { is_clean self.new → is_clean self.old }
        ensures part { WhileClean (is_clean self.new) (stands_for self.old)
            (λ rows. IfOk result (IsFetched need.now (view_of channel rows))) }
        ensures rules { WhileClean (is_clean self.new) (stands_for self.old) (λ rows. OnOk result (KeepsRules rows)) }
        ensures same { WhileClean (is_clean self.new) (stands_for self.old) (λ rows. stands_for self.new rows) }
        ensures stop { is_clean self.new → (left : Centre) → may_leave self.new left → may_leave self.old left }
        ensures sets { leaves_sets self.old → leaves_sets self.new };

    /// Writes a table of the channel, row by row, and says whether the channel is in the plan. Where it isn't, nothing
    /// is written; at a fault it is a beginning of the table.
    fn write_table<W: Write>(
        &mut self,
        channel: u16,
        table: Table,
        output: &mut W,
    ) -> Result<bool, TableFault>
        ensures clean { is_clean self.new → is_clean self.old }
        ensures there { WhileClean (is_clean self.new) (stands_for self.old)
            (λ rows. IfOk result (λ b. b ≡ is_some (view_of channel rows))) }
        ensures ok { WhileClean (is_clean self.new) (stands_for self.old)
            (λ rows. OnOk result (Appends (W.contents output.old) (W.contents output.new)
            (text_at table (view_of channel rows)))) }
        ensures err { WhileClean (is_clean self.new) (stands_for self.old)
            (λ rows. OnErr result (AppendsPart (W.contents output.old) (W.contents output.new)
            (text_at table (view_of channel rows)))) }
        ensures rules { WhileClean (is_clean self.new) (stands_for self.old) (λ rows. OnOk result (KeepsRules rows)) }
        ensures same { WhileClean (is_clean self.new) (stands_for self.old) (λ rows. stands_for self.new rows) }
        ensures stop { is_clean self.new → (left : Centre) → may_leave self.new left → may_leave self.old left }
        ensures sets { leaves_sets self.old → leaves_sets self.new };

    /// Makes a change that a command of the channel has on the set as it stands, or, refused, none. The empty change
    /// is never refused.
    fn commit(&mut self, channel: u16, change: &Change) -> Result<(), Unavailable>
        ensures clean { is_clean self.new → is_clean self.old }
        ensures ok { WhileClean (is_clean self.new) (stands_for self.old)
            (λ rows. IsChangeOf channel change.now rows →
            OnOk result (stands_for self.new (changed channel change.now rows))) }
        ensures err { WhileClean (is_clean self.new) (stands_for self.old)
            (λ rows. OnErr result (stands_for self.new rows)) }
        ensures empty { change.now ≡ Change.Nothing → IsOk result }
        // A stop leaves what it could leave before, or the change whole; once it is acknowledged, this alone.
        ensures stop { WhileClean (is_clean self.new) (stands_for self.old)
            (λ rows. IsChangeOf channel change.now rows → (left : Centre) → may_leave self.new left →
            may_leave self.old left ⊎ (left ≡ changed channel change.now rows)) }
        ensures stop_ok { WhileClean (is_clean self.new) (stands_for self.old)
            (λ rows. IsChangeOf channel change.now rows → OnOk result ((left : Centre) → may_leave self.new left →
            (left ≡ changed channel change.now rows) ⊎ ((change.now ≡ Change.Nothing) × may_leave self.old left))) }
        // Done or refused, all that a stop may leave holds a set, where it did before.
        ensures sets { WhileClean (is_clean self.new) (stands_for self.old)
            (λ rows. IsChangeOf channel change.now rows → leaves_sets self.old → leaves_sets self.new) };
}

/// A store that tells of each of a channel's days what the days table does, without writing it.
pub trait CountsDays: RowStore {
    /// What the days table tells of each day of the channel, by number, or `None` where the channel isn't in the plan.
    fn day_counts(&mut self, channel: u16) -> Result<Option<Vec<DayCounts>>, Unavailable>
        ensures clean { Self.is_clean self.new → Self.is_clean self.old }
        ensures counts { WhileClean (Self.is_clean self.new) (Self.stands_for self.old) (λ rows. IfOk result
            (λ counts. option_map (λ c. c.items) counts ≡ option_map counts_seen (view_of channel rows))) }
        ensures rules { WhileClean (Self.is_clean self.new) (Self.stands_for self.old)
            (λ rows. OnOk result (KeepsRules rows)) }
        ensures same { WhileClean (Self.is_clean self.new) (Self.stands_for self.old)
            (λ rows. Self.stands_for self.new rows) }
        ensures stop { Self.is_clean self.new → (left : Centre) → Self.may_leave self.new left →
            Self.may_leave self.old left }
        ensures sets { Self.leaves_sets self.old → Self.leaves_sets self.new };
}
