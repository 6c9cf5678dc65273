//! What was aired of the days of a channel, or of one of them, from the tables.
ghost use Rattle.std.specs.Prelude.{◌≡◌, ◌==◌, List, Some, filter, find, IfOk};
ghost use Rattle.channel_plan.specs.declared.plan.PlanRow.{PlanRow};
ghost use Rattle.timecode.specs.Counting.{day_length};
ghost use Rattle.station_tables_records.specs.Inside.{inside, Reads};
ghost use Rattle.station_tables_records.specs.MadeAirings.{airings_made};
ghost use Rattle.station_tables_statements.specs.AiredCalls.{airings_in, WhileCleanAirings, aired_of_day};

use asrun_match::{AiredDay, DayAsRun};
use channel_plan::PlanRow;
use sqlite::{Alter, Transaction};
use station_tables_records::{airing_of, airings_of};
use station_tables_statements::{
    load_batch_rows, load_channel_batches, load_channel_lines, load_line_rows,
};
use std::alloc::Global;
use std::slice;
use timecode::Unavailable;

/// What was aired of the day with this number, 1 to 99,999, of the channel whose plan row this is, or `None` where the
/// day has no batch. It fails where memory or the store does, where a row of the day doesn't read, and where its rows
/// break the rules of what was aired of a day.
pub(crate) fn load_airing<S: Alter>(
    alloc: Global,
    tx: &mut Transaction<'_, S>,
    plan: &PlanRow,
    day: u32,
) -> Result<Option<AiredDay>, Unavailable>
    ensures reads { Reads S.Store tx.old tx.new result }
    ensures airing { WhileCleanAirings S.Store tx.old tx.new (IfOk result (λ found. found
        ≡ aired_of_day (day_length plan.now.rate) plan.now.ch day (airings_in (inside S.Store tx.old)))) }
{
    let batches = load_batch_rows(alloc, tx, plan.ch, day)?;
    if batches.is_empty() {
        return Ok(None);
    }
    let lines = load_line_rows(alloc, tx, plan.ch, day)?;
    match airing_of(alloc, plan, day, &batches, &lines) {
        Ok(aired) => Ok(Some(aired)),
        Err(_) => Err(Unavailable),
    }
}

/// What was aired of each day that has a batch, with the channel whose plan row this is, by day. It fails where memory
/// or the store does, where a row of the channel doesn't read, and where its rows break the rules of what was aired.
pub(crate) fn load_airings<S: Alter>(
    alloc: Global,
    tx: &mut Transaction<'_, S>,
    plan: &PlanRow,
) -> Result<Vec<(u16, DayAsRun)>, Unavailable>
    ensures reads { Reads S.Store tx.old tx.new result }
    ensures airings { WhileCleanAirings S.Store tx.old tx.new ((channels : List PlanRow) →
        find (λ p. p.ch == plan.now.ch) channels ≡ Some plan.now →
        IfOk result (λ airings. airings.items
        ≡ filter (λ a. a.0 == plan.now.ch) (airings_made channels (airings_in (inside S.Store tx.old))))) }
{
    let batches = load_channel_batches(alloc, tx, plan.ch)?;
    let lines = load_channel_lines(alloc, tx, plan.ch)?;
    match airings_of(alloc, slice::from_ref(plan), &batches, &lines) {
        Ok(airings) => Ok(airings),
        Err(_) => Err(Unavailable),
    }
}
