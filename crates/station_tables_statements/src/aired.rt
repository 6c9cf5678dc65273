//! The rows of the lines of batches, which say what was aired: what is asked of them and written, each by a text of its
//! own, inside a transaction.
ghost use Rattle.std.specs.Prelude.{◌≡◌, ◌==◌, [], IfOk, filter};
ghost use Rattle.sqlite_keyed.specs.Lists.{insert_sorted};
ghost use Rattle.sqlite.specs.Values.{bound};
ghost use Rattle.station_tables_records.specs.MadeDays.{Rise};
ghost use Rattle.station_tables_records.specs.Inside.{inside, Reads, Writes};
ghost use Rattle.station_tables_records.specs.TablePairs.{on_lines};
ghost use Rattle.station_tables_records.specs.MadeAirings.{line_cmp, is_line_in};
ghost use Rattle.station_tables_records.specs.LineRows.{line_row};
ghost use Rattle.station_tables_statements.specs.AiredCalls.{airings_in, WhileCleanAirings, MakesAirings, LacksLineNow};
ghost use Rattle.station_tables_statements.specs.AreByChannel.{line_by_channel};

use crate::asked::of_day;
use crate::asking::{ChannelTable, StoredTable, find_rows};
use crate::columns::table_text;
use asrun_match::AiredRow;
use sqlite::types::ValueRef;
use sqlite::{Alter, Error, Row, Transaction};
use station_tables_records::{AiredLine, ask, long_number, of_channel, short_number};
use std::alloc::Global;
use timecode::Unavailable;

// The texts that name the columns of `aired`.
macro_rules! aired_text {
    ($text:ident $($rest:literal)?) => {
        table_text!(
            $text "aired"
            "ch, day, batch, line, pos, frames, src, src_first"
            "?1, ?2, ?3, ?4, ?5, ?6, ?7, ?8" $($rest)?
        )
    };
}

// Those of a channel.
const CHANNEL_LINES: &str = aired_text!(SELECT "WHERE ch = ?1 ORDER BY ch, day, batch, line");

// The columns of a line.
fn line_values(channel: u16, day: u32, batch: u32, line: u32, row: &AiredRow) -> [ValueRef<'_>; 8]
    ensures { bound result ≡ line_row
        (channel, record { day = day; batch = batch; line = line; row = row.now }) }
{
    [
        short_number(channel),
        long_number(day),
        long_number(batch),
        long_number(line),
        long_number(row.pos),
        long_number(row.frames),
        ValueRef::Text(row.src.as_bytes()),
        long_number(row.src_first),
    ]
}

/// By channel, day, batch and line: of each the rowid, the channel, the day's number, its batch's, its own, the frame
/// of the day at which it began, its length in frames, its reel, and the reel's frame at which it began.
impl StoredTable for (u16, AiredLine) {
    fn ask_all<S: Alter>(
        alloc: Global,
        tx: &mut Transaction<'_, S>,
    ) -> Result<Option<Vec<(u16, AiredLine)>>, Error> {
        ask(
            alloc,
            tx,
            aired_text!(SELECT "ORDER BY ch, day, batch, line"),
            &[],
        )
    }
}

impl ChannelTable for (u16, AiredLine) {
    ghost channel_of = { λ r. r.0 };

    fn query_channel<S: Alter>(
        tx: &mut Transaction<'_, S>,
        channel: u16,
    ) -> Result<Vec<Row>, Error> {
        tx.query_all(CHANNEL_LINES, &of_channel(channel))
    }

    fn query_count<S: Alter>(tx: &mut Transaction<'_, S>) -> Result<Vec<Row>, Error> {
        tx.query_all("SELECT count(*) FROM aired", &[])
    }

    ghost by_channel = { line_by_channel };
}

/// The rows of their lines, by batch and line. It fails as [`load_batch_rows`] does.
pub fn load_line_rows<S: Alter>(
    alloc: Global,
    tx: &mut Transaction<'_, S>,
    channel: u16,
    day: u32,
) -> Result<Vec<(u16, AiredLine)>, Unavailable>
    ensures reads { Reads S.Store tx.old tx.new result }
    ensures rise { IfOk result (λ lines. Rise line_cmp lines.items) }
    ensures lines { WhileCleanAirings S.Store tx.old tx.new (IfOk result (λ lines.
        lines.items ≡ filter (is_line_in channel day) (airings_in (inside S.Store tx.old)).lines)) }
{
    find_rows(
        alloc,
        tx,
        aired_text!(SELECT "WHERE ch = ?1 AND day = ?2 ORDER BY ch, day, batch, line"),
        &of_day(channel, day),
    )
}

/// The rows of their lines, by day, batch and line. It fails as [`load_batch_rows`] does.
pub fn load_channel_lines<S: Alter>(
    alloc: Global,
    tx: &mut Transaction<'_, S>,
    channel: u16,
) -> Result<Vec<(u16, AiredLine)>, Unavailable>
    ensures reads { Reads S.Store tx.old tx.new result }
    ensures rise { IfOk result (λ lines. Rise line_cmp lines.items) }
    ensures lines { WhileCleanAirings S.Store tx.old tx.new (IfOk result (λ lines.
        lines.items ≡ filter (λ r. r.0 == channel) (airings_in (inside S.Store tx.old)).lines)) }
{
    find_rows(alloc, tx, CHANNEL_LINES, &of_channel(channel))
}

/// Adds a line of a batch of a channel's day, whose number, from 1, is new in the batch. It answers as [`insert_batch`]
/// does, and commits nothing.
pub fn insert_line<S: Alter>(
    tx: &mut Transaction<'_, S>,
    channel: u16,
    day: u32,
    batch: u32,
    line: u32,
    row: &AiredRow,
) -> Result<usize, Error>
    ensures writes { Writes S.Store tx.old tx.new result }
    ensures makes { LacksLineNow channel day batch line (inside S.Store tx.old) → MakesAirings (on_lines
        (insert_sorted line_cmp (channel, record { day = day; batch = batch; line = line; row = row.now })))
        S.Store tx.old tx.new result }
{
    tx.execute(
        aired_text!(INSERT),
        &line_values(channel, day, batch, line, row),
    )
}
