//! A batch of what was aired, with its lines, written into the tables.
ghost use Rattle.std.specs.Prelude.{◌≡◌, ◌+◌, IfOk, OnOk};
ghost use Rattle.station_tables_records.specs.Inside.{inside, Writes};
ghost use Rattle.station_tables_records.proofs.AiredTurns.{with_lines, AreNewLines};
ghost use Rattle.station_tables_records.specs.TablePairs.{on_lines};
ghost use Rattle.station_tables_statements.specs.AiredCalls.{airings_in, ComesNextNow, ThenMakes};
ghost use Rattle.station_tables_statements.specs.AiredCalls.{WhileCleanAirings, AddsBatch, GetsBatchNow, PutsAiring};

use asrun_match::{AiredRow, DayAsRun};
use sqlite::{Alter, Error, ErrorCode, Transaction};
use station_tables_records::BatchRow;
use station_tables_statements::{insert_batch, insert_line};
use timecode::Unavailable;

// The number of the line behind this one.
fn line_behind(line: u32) -> Result<u32, Error>
    ensures { IfOk result (λ next. next ≡ line + 1) }
{
    match line.checked_add(1) {
        Some(next) => Ok(next),
        None => Err(Error::SqliteFailure(ErrorCode::TooBig)),
    }
}

// Adds rows as the lines 1, 2 and so on of a batch that has none.
fn insert_lines<S: Alter>(
    tx: &mut Transaction<'_, S>,
    channel: u16,
    day: u32,
    batch: u32,
    rows: &[AiredRow],
) -> Result<(), Error>
    ensures writes { Writes S.Store tx.old tx.new result }
    ensures makes { AreNewLines channel day batch 1 rows.now (airings_in (inside S.Store tx.old)).lines →
        ThenMakes (on_lines (with_lines channel day batch 1 rows.now)) S.Store tx.old tx.new result }
{
    let mut line = 0;
    for row in rows {
        line = line_behind(line)?;
        insert_line(tx, channel, day, batch, line, row)?;
    }
    Ok(())
}

// Adds a batch of a channel's day, whose number is the next one of the day, with these rows as its lines 1, 2 and so
// on. It fails with the error of the statement that failed, and with `TooBig` where there are more rows than a number
// of 32 bits counts. It commits nothing: after an error the caller rolls back.
fn add_batch<S: Alter>(
    tx: &mut Transaction<'_, S>,
    channel: u16,
    batch: BatchRow,
    rows: &[AiredRow],
) -> Result<(), Error>
    ensures writes { Writes S.Store tx.old tx.new result }
    ensures adds { ComesNextNow channel batch.day batch.number (inside S.Store tx.old) →
        WhileCleanAirings S.Store tx.old tx.new (OnOk result
        (AddsBatch channel batch.day batch.number rows.now (inside S.Store tx.old) (inside S.Store tx.new))) }
{
    insert_batch(tx, channel, batch)?;
    insert_lines(tx, channel, batch.day, batch.number, rows)
}

/// Puts what was aired of a day of this channel in the place of what was: the last batch, which alone is new, is
/// written. It fails where the store does, and commits nothing.
pub(crate) fn put_airing<S: Alter>(
    tx: &mut Transaction<'_, S>,
    channel: u16,
    airing: &DayAsRun,
) -> Result<(), Unavailable>
    ensures writes { Writes S.Store tx.old tx.new result }
    ensures puts { GetsBatchNow channel airing.now (inside S.Store tx.old) → WhileCleanAirings S.Store tx.old tx.new
        (OnOk result (PutsAiring channel airing.now (inside S.Store tx.old) (inside S.Store tx.new))) }
{
    let batches = airing.aired.batches();
    let Some(last) = batches.last() else {
        return Err(Unavailable);
    };
    let Ok(number) = u32::try_from(batches.len()) else {
        return Err(Unavailable);
    };
    let batch = BatchRow {
        day: airing.day,
        number,
    };
    match add_batch(tx, channel, batch, last.as_slice()) {
        Ok(()) => Ok(()),
        Err(_) => Err(Unavailable),
    }
}
