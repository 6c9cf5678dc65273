//! The rows of days: what is asked of them and written, each by a text of its own, inside a transaction.
ghost use Rattle.std.specs.Prelude.{◌≡◌, [], IfOk, filter};
ghost use Rattle.sqlite_keyed.specs.Lists.{insert_sorted, update_where};
ghost use Rattle.sqlite.specs.Values.{bound};
ghost use Rattle.station_tables_records.specs.MadeDays.{Rise, day_cmp, is_day, is_day_in};
ghost use Rattle.station_tables_records.specs.Inside.{inside, Reads, Writes};
ghost use Rattle.station_tables_records.specs.DayRows.{day_row};
ghost use Rattle.station_tables_records.specs.TablePairs.{on_days};
ghost use Rattle.station_tables_statements.specs.DayCalls.{days_in, WhileCleanDays, MakesDays, LacksDayNow};

use crate::asked::of_days;
use crate::asking::{StoredTable, find_rows};
use crate::columns::table_text;
use sqlite::types::ValueRef;
use sqlite::{Alter, Error, Transaction};
use station_tables_records::{DayRow, ask, long_number, short_number, truth};
use std::alloc::Global;
use timecode::Unavailable;

// The texts that name the columns of `day`.
macro_rules! day_text {
    ($text:ident $($rest:literal)?) => {
        table_text!($text "day" "ch, day, sealed" "?1, ?2, ?3" $($rest)?)
    };
}

// The columns of a day.
fn day_values(channel: u16, row: DayRow) -> [ValueRef<'static>; 3]
    ensures { bound result ≡ day_row (channel, row) }
{
    [
        short_number(channel),
        long_number(row.number),
        truth(row.sealed),
    ]
}

/// By channel and number: of each the rowid, the channel, the number, and 1 where it is sealed, else 0.
impl StoredTable for (u16, DayRow) {
    fn ask_all<S: Alter>(
        alloc: Global,
        tx: &mut Transaction<'_, S>,
    ) -> Result<Option<Vec<(u16, DayRow)>>, Error> {
        ask(alloc, tx, day_text!(SELECT "ORDER BY ch, day"), &[])
    }
}

/// The rows of a channel's days with numbers from one to another, by number. It fails where memory or the store
/// does, and where a row doesn't read.
pub fn load_day_rows<S: Alter>(
    alloc: Global,
    tx: &mut Transaction<'_, S>,
    channel: u16,
    first: u32,
    last: u32,
) -> Result<Vec<(u16, DayRow)>, Unavailable>
    ensures reads { Reads S.Store tx.old tx.new result }
    ensures rise { IfOk result (λ days. Rise day_cmp days.items) }
    ensures days { WhileCleanDays S.Store tx.old tx.new (IfOk result (λ days.
        days.items ≡ filter (is_day_in channel first last) (days_in (inside S.Store tx.old)).days)) }
{
    find_rows(
        alloc,
        tx,
        day_text!(SELECT "WHERE ch = ?1 AND day BETWEEN ?2 AND ?3 ORDER BY ch, day"),
        &of_days(channel, first, last),
    )
}

/// Adds a day of this channel, 1 to 999, whose number is new in it. It answers as `execute` does, a count of which no
/// clause speaks or the error of the statement, and commits nothing.
pub fn insert_day<S: Alter>(
    tx: &mut Transaction<'_, S>,
    channel: u16,
    row: DayRow,
) -> Result<usize, Error>
    ensures writes { Writes S.Store tx.old tx.new result }
    ensures makes { LacksDayNow channel row.number (inside S.Store tx.old) →
        MakesDays (on_days (insert_sorted day_cmp (channel, row))) S.Store tx.old tx.new result }
{
    tx.execute(day_text!(INSERT), &day_values(channel, row))
}

/// Sets whether a channel's day of this number is sealed. It answers as [`insert_day`] does, and commits nothing.
pub fn set_sealed<S: Alter>(
    tx: &mut Transaction<'_, S>,
    channel: u16,
    row: DayRow,
) -> Result<usize, Error>
    ensures writes { Writes S.Store tx.old tx.new result }
    ensures makes { MakesDays (on_days (update_where (is_day channel row.number)
        (λ t. (t.0, record t.1 { sealed = row.sealed })))) S.Store tx.old tx.new result }
{
    tx.execute(
        "UPDATE day SET sealed = ?3 WHERE ch = ?1 AND day = ?2",
        &day_values(channel, row),
    )
}
