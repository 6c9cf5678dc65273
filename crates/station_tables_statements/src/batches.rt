//! The rows of as-run batches: what is asked of them and written, each by a text of its own, inside a transaction.
ghost use Rattle.std.specs.Prelude.{◌≡◌, ◌==◌, [], IfOk, filter};
ghost use Rattle.sqlite_keyed.specs.Lists.{insert_sorted};
ghost use Rattle.sqlite.specs.Values.{bound};
ghost use Rattle.station_tables_records.specs.MadeDays.{Rise};
ghost use Rattle.station_tables_records.specs.Inside.{inside, Reads, Writes};
ghost use Rattle.station_tables_records.specs.TablePairs.{on_batches};
ghost use Rattle.station_tables_records.specs.MadeAirings.{batch_cmp, is_batch_of};
ghost use Rattle.station_tables_records.specs.BatchRows.{batch_row};
ghost use Rattle.station_tables_statements.specs.AiredCalls.{airings_in, WhileCleanAirings, MakesAirings};
ghost use Rattle.station_tables_statements.specs.AiredCalls.{LacksBatchNow};

use crate::asked::of_day;
use crate::asking::{StoredTable, find_rows};
use crate::columns::table_text;
use sqlite::types::ValueRef;
use sqlite::{Alter, Error, Transaction};
use station_tables_records::{BatchRow, ask, long_number, of_channel, short_number};
use std::alloc::Global;
use timecode::Unavailable;

// The texts that name the columns of `batch`.
macro_rules! batch_text {
    ($text:ident $($rest:literal)?) => {
        table_text!($text "batch" "ch, day, n" "?1, ?2, ?3" $($rest)?)
    };
}

// The columns of a batch.
fn batch_values(channel: u16, batch: BatchRow) -> [ValueRef<'static>; 3]
    ensures { bound result ≡ batch_row (channel, batch) }
{
    [
        short_number(channel),
        long_number(batch.day),
        long_number(batch.number),
    ]
}

/// By channel, day and number: of each the rowid, the channel, the day's number, and its own.
impl StoredTable for (u16, BatchRow) {
    fn ask_all<S: Alter>(
        alloc: Global,
        tx: &mut Transaction<'_, S>,
    ) -> Result<Option<Vec<(u16, BatchRow)>>, Error> {
        ask(alloc, tx, batch_text!(SELECT "ORDER BY ch, day, n"), &[])
    }
}

/// The rows of a day's batches, by number. It fails where memory or the store does, and where a row doesn't read.
pub fn load_batch_rows<S: Alter>(
    alloc: Global,
    tx: &mut Transaction<'_, S>,
    channel: u16,
    day: u32,
) -> Result<Vec<(u16, BatchRow)>, Unavailable>
    ensures reads { Reads S.Store tx.old tx.new result }
    ensures rise { IfOk result (λ batches. Rise batch_cmp batches.items) }
    ensures batches { WhileCleanAirings S.Store tx.old tx.new (IfOk result (λ batches.
        batches.items ≡ filter (is_batch_of channel day) (airings_in (inside S.Store tx.old)).batches)) }
{
    find_rows(
        alloc,
        tx,
        batch_text!(SELECT "WHERE ch = ?1 AND day = ?2 ORDER BY ch, day, n"),
        &of_day(channel, day),
    )
}

/// The rows of a channel's batches, by day and number. It fails as [`load_batch_rows`] does.
pub fn load_channel_batches<S: Alter>(
    alloc: Global,
    tx: &mut Transaction<'_, S>,
    channel: u16,
) -> Result<Vec<(u16, BatchRow)>, Unavailable>
    ensures reads { Reads S.Store tx.old tx.new result }
    ensures rise { IfOk result (λ batches. Rise batch_cmp batches.items) }
    ensures batches { WhileCleanAirings S.Store tx.old tx.new (IfOk result (λ batches.
        batches.items ≡ filter (λ b. b.0 == channel) (airings_in (inside S.Store tx.old)).batches)) }
{
    find_rows(
        alloc,
        tx,
        batch_text!(SELECT "WHERE ch = ?1 ORDER BY ch, day, n"),
        &of_channel(channel),
    )
}

/// Adds a batch of a channel's day, 1 to 99,999, whose number is new in it. It answers as `execute` does, a count of
/// which no clause speaks or the error of the statement, and commits nothing.
pub fn insert_batch<S: Alter>(
    tx: &mut Transaction<'_, S>,
    channel: u16,
    batch: BatchRow,
) -> Result<usize, Error>
    ensures writes { Writes S.Store tx.old tx.new result }
    ensures makes { LacksBatchNow channel batch.day batch.number (inside S.Store tx.old) →
        MakesAirings (on_batches (insert_sorted batch_cmp (channel, batch))) S.Store tx.old tx.new result }
{
    tx.execute(batch_text!(INSERT), &batch_values(channel, batch))
}
