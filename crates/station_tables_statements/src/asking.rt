//! What is asked of a centre's tables: the rows that a text finds, and all rows of a table, at once or channel by channel.
ghost use Rattle.std.specs.Prelude.{◌≡◌, ◌==◌, ℕ, IfOk, IfErr, IfSome, IfNone, OnOk};
ghost use Rattle.sqlite_value.specs.Order.{Row as Shown};
ghost use Rattle.sqlite.specs.State.{State, HasCleanDisk};
ghost use Rattle.sqlite.specs.Values.{bound};
ghost use Rattle.station_tables_records.specs.MadeDays.{Rise};
ghost use Rattle.station_tables_records.specs.Table.{IsShortage, HoldsRows, HoldsFitting};
ghost use Rattle.station_tables_records.specs.Inside.{inside, Reads};
ghost use Rattle.station_tables_records.specs.Asking.{IsReading, Answers};
ghost use Rattle.station_tables_statements.specs.Calls.{HasKnownSchema, WhileKnownTables};
ghost use Rattle.station_tables_statements.specs.ByChannel.{is_channel, ShowsChannel, count_row};

use sqlite::types::ValueRef;
use sqlite::{Alter, Error, Row, Transaction};
use station_tables_records::{StoredRow, ask};
use std::alloc::Global;
use timecode::Unavailable;

/// The rows that a text of SELECT finds with these values for its parameters, in their order. The text only reads. It
/// fails where memory or the store does, and where a row doesn't read.
pub fn find_rows<T: StoredRow, S: Alter>(
    alloc: Global,
    tx: &mut Transaction<'_, S>,
    text: &str,
    values: &[ValueRef<'_>],
) -> Result<Vec<T>, Unavailable>
    requires reading { IsReading text.now }
    ensures reads { Reads S.Store tx.old tx.new result }
    ensures rise { IfOk result (λ rows. Rise T.table.cmp rows.items) }
    ensures rows { HasCleanDisk (inside S.Store tx.new) → IfOk result (λ rows.
        Answers T.table text.now (bound values.now) (inside S.Store tx.old) (inside S.Store tx.new) rows.items) }
{
    match ask(alloc, tx, text, values) {
        Ok(Some(rows)) => Ok(rows),
        _ => Err(Unavailable),
    }
}

/// A table of a centre, by what its rows stand for.
pub trait StoredTable: StoredRow {
    /// Which databases have it: those of either version, but for a table that came later.
    ghost is_there: { State → Type 0 } = { HasKnownSchema };

    /// Which are known not to have it.
    ghost is_missing: { State → Type 0 } = { λ _. ⊥ };

    /// All rows of the table, by their keys, or `None` where they don't read. It fails with the error of the
    /// statement: on tables of a centre, that memory, the disk or a limit stopped it.
    fn ask_all<S: Alter>(
        alloc: Global,
        tx: &mut Transaction<'_, S>,
    ) -> Result<Option<Vec<Self>>, Error>
        ensures reads { Reads S.Store tx.old tx.new result }
        ensures rise { IfOk result (λ o. IfSome o (λ rows. Rise Self.table.cmp rows.items)) }
        ensures rows { is_there (inside S.Store tx.old) → HasCleanDisk (inside S.Store tx.new) →
            IfOk result (λ o. IfSome o (λ rows. HoldsRows Self.table rows.items (inside S.Store tx.old).now.trees)) }
        ensures none { is_there (inside S.Store tx.old) → HasCleanDisk (inside S.Store tx.new) →
            IfOk result (λ o. IfNone o
            (HoldsFitting Self.table Self.fits (inside S.Store tx.old).now.trees → ⊥)) }
        ensures short { is_there (inside S.Store tx.old) → HasCleanDisk (inside S.Store tx.new) →
            IfErr result IsShortage }
        ensures missing { is_missing (inside S.Store tx.old) → HasCleanDisk (inside S.Store tx.new) →
            OnOk result ⊥ };
}

/// A table whose rows are read channel by channel.
pub trait ChannelTable: StoredRow {
    /// The channel of what a row stands for.
    ghost channel_of: { Self → ℕ };

    /// The rows of a channel, by their keys, each with its rowid first.
    fn query_channel<S: Alter>(tx: &mut Transaction<'_, S>, channel: u16) -> Result<Vec<Row>, Error>
        ensures reads { Reads S.Store tx.old tx.new result }
        ensures shown { WhileKnownTables S.Store tx.old tx.new (IfOk result (λ rows.
            ShowsChannel Self.table channel rows.items (inside S.Store tx.old).now.trees)) }
        ensures short { WhileKnownTables S.Store tx.old tx.new (IfErr result IsShortage) };

    /// A row with the number of rows.
    fn query_count<S: Alter>(tx: &mut Transaction<'_, S>) -> Result<Vec<Row>, Error>
        ensures reads { Reads S.Store tx.old tx.new result }
        ensures shown { WhileKnownTables S.Store tx.old tx.new (IfOk result (λ rows.
            rows.items ≡ count_row ((inside S.Store tx.old).now.trees Self.table.base.tree))) }
        ensures short { WhileKnownTables S.Store tx.old tx.new (IfErr result IsShortage) };

    /// The column that a text with a channel asks for is the channel's.
    ghost by_channel: { (c : ℕ) (r : Shown) → Self.table.IsRow r →
        is_channel c r ≡ (channel_of (Self.table.of r) == c) };
}
