//! The rows of the channels of the plan: what is asked of them and written, each by a text of its own, inside a
//! transaction.
ghost use Rattle.std.specs.Prelude.{◌≡◌};
ghost use Rattle.sqlite_keyed.specs.Lists.{insert_sorted};
ghost use Rattle.sqlite.specs.Values.{bound};
ghost use Rattle.station_tables_records.specs.Inside.{inside, Writes};
ghost use Rattle.station_tables_records.specs.ChannelRows.{channel_row, channel_cmp};
ghost use Rattle.station_tables_statements.specs.Rows.{on_channels};
ghost use Rattle.station_tables_statements.specs.Calls.{Makes, LacksChannelNow, LacksDaysNow};

use crate::asking::StoredTable;
use crate::columns::table_text;
use channel_plan::PlanRow;
use sqlite::types::ValueRef;
use sqlite::{Alter, Error, Transaction};
use station_tables_records::{ask, long_number, short_number};
use std::alloc::Global;

// The texts that name the columns of `channel`.
macro_rules! channel_text {
    ($text:ident $($rest:literal)?) => {
        table_text!($text "channel" "ch, rate, start, slots" "?1, ?2, ?3, ?4" $($rest)?)
    };
}

fn channel_values(plan: &PlanRow) -> [ValueRef<'static>; 4]
    ensures { bound result ≡ channel_row plan.now }
{
    [
        short_number(plan.ch),
        ValueRef::Text(plan.rate.text().as_bytes()),
        long_number(plan.start),
        short_number(plan.slots),
    ]
}

/// By number: of each the rowid, its number, the rate's text, the frame where its day starts, and how many slots it
/// has.
impl StoredTable for PlanRow {
    fn ask_all<S: Alter>(
        alloc: Global,
        tx: &mut Transaction<'_, S>,
    ) -> Result<Option<Vec<PlanRow>>, Error> {
        ask(alloc, tx, channel_text!(SELECT "ORDER BY ch"), &[])
    }
}

/// Adds a channel of the plan, whose number is new, while no channel has a day and nothing was aired. It answers as
/// `execute` does, a count of which no clause speaks or the error of the statement, and commits nothing.
pub fn insert_channel<S: Alter>(tx: &mut Transaction<'_, S>, plan: &PlanRow) -> Result<usize, Error>
    ensures writes { Writes S.Store tx.old tx.new result }
    ensures makes { LacksDaysNow (inside S.Store tx.old) → LacksChannelNow plan.now (inside S.Store tx.old) →
        Makes (on_channels (insert_sorted channel_cmp plan.now)) S.Store tx.old tx.new result }
{
    tx.execute(channel_text!(INSERT), &channel_values(plan))
}
