//! What the days table tells of a channel's days, from the tables: a day's items and its batches are counted by their keys.
//!
//! The numbers of days have holes, so a page is of numbers and not of rows: of a thousand of them, whichever are there.
ghost use Rattle.std.specs.Prelude.{◌≡◌, filter, map, IfOk};
ghost use Rattle.std.specs.Option.{option_map};
ghost use Rattle.report_texts.specs.Playlist.{frames_of};
ghost use Rattle.channel_view_model.specs.Centre.{plan_of, view_of};
ghost use Rattle.station_tables_records.specs.MadeDays.{is_day_in};
ghost use Rattle.station_tables_records.specs.TablePairs.{day_rows_in};
ghost use Rattle.station_tables_records.specs.Inside.{inside, Looks, Reads};
ghost use Rattle.station_tables_statements.specs.Rows.{HoldsSet};
ghost use Rattle.station_tables_statements.specs.Calls.{WhileCleanCentre, set_in};
ghost use Rattle.channel_view_model.specs.Counts.{counts_seen};
ghost use Rattle.station_tables_reading.specs.DayLines.{counts_in, counts_of_rows};
ghost use Rattle.station_tables_reading.specs.Lines.{WhileCleanSeen};

use crate::open_testing::test_open;
use channel_plan::PlanRow;
use report_texts::DayCounts;
use sqlite::{Alter, Transaction};
use station_tables_records::{BatchRow, DayRow, ItemRow, state_of};
use station_tables_statements::{load_batch_rows, load_day_rows, load_item_rows};
use std::alloc::Global;
use timecode::Unavailable;

// How many frames these items have together. Of tables that aren't a centre's nothing is known, nor how many that is.
fn frames_of(items: &[(u16, ItemRow)]) -> Result<u64, Unavailable>
    ensures { IfOk result (λ n. n ≡ frames_of (map (λ r. r.1.item) items.now)) }
{
    let mut frames: u64 = 0;
    for row in items {
        let Some(sum) = frames.checked_add(u64::from(row.1.item.frames)) else {
            return Err(Unavailable);
        };
        frames = sum;
    }
    Ok(frames)
}

// What is told of the day of a row, which has the items and the batches of these.
fn counts_of_rows(
    row: DayRow,
    items: &[(u16, ItemRow)],
    batches: &[(u16, BatchRow)],
) -> Result<DayCounts, Unavailable>
    ensures { IfOk result (λ counts. counts ≡ counts_of_rows row items.now batches.now) }
{
    let frames = frames_of(items)?;
    Ok(DayCounts {
        number: row.number,
        state: state_of(row),
        items: items.len(),
        frames,
        batches: batches.len(),
    })
}

// What is told of the day of a row. A day's items are in memory at a time.
fn count_day<S: Alter>(
    alloc: Global,
    tx: &mut Transaction<'_, S>,
    row: &(u16, DayRow),
) -> Result<DayCounts, Unavailable>
    ensures reads { Reads S.Store tx.old tx.new result }
    ensures counts { WhileCleanCentre S.Store tx.old tx.new
        (IfOk result (λ counts. counts ≡ counts_in (inside S.Store tx.old).now.trees row.now)) }
{
    let number = row.1.number;
    let items = load_item_rows(alloc, tx, row.0, number, number)?;
    let batches = load_batch_rows(alloc, tx, row.0, number)?;
    let counts = counts_of_rows(row.1, &items, &batches)?;
    Ok(counts)
}

// What is told of the days of these rows.
fn count_rows<S: Alter>(
    alloc: Global,
    tx: &mut Transaction<'_, S>,
    days: &[(u16, DayRow)],
) -> Result<Vec<DayCounts>, Unavailable>
    ensures looks { Looks S.Store tx.old tx.new result }
    ensures counts { WhileCleanCentre S.Store tx.old tx.new (IfOk result (λ v.
        v.items ≡ map (counts_in (inside S.Store tx.old).now.trees) days.now)) }
{
    let mut counts = Vec::new(alloc);
    for row in days {
        let day = count_day(alloc, tx, row)?;
        counts.push(day)?;
    }
    Ok(counts)
}

// What is told of the channel's days with numbers from one to another.
fn count_within<S: Alter>(
    alloc: Global,
    tx: &mut Transaction<'_, S>,
    channel: u16,
    first: u32,
    last: u32,
) -> Result<Vec<DayCounts>, Unavailable>
    ensures reads { Reads S.Store tx.old tx.new result }
    ensures counts { WhileCleanCentre S.Store tx.old tx.new (IfOk result (λ v.
        v.items ≡ map (counts_in (inside S.Store tx.old).now.trees)
        (filter (is_day_in channel first last) (day_rows_in (inside S.Store tx.old).now.trees).days))) }
{
    let days = load_day_rows(alloc, tx, channel, first, last)?;
    count_rows(alloc, tx, &days)
}

/// What is told of the channel's days, by number. This is its row of the plan.
pub(crate) fn count_days<S: Alter>(
    alloc: Global,
    tx: &mut Transaction<'_, S>,
    channel: u16,
    plan: &PlanRow,
) -> Result<Vec<DayCounts>, Unavailable>
    ensures looks { Looks S.Store tx.old tx.new result }
    ensures counts { WhileCleanSeen S.Store tx.old tx.new channel plan.now (λ view.
        IfOk result (λ v. v.items ≡ counts_seen view)) }
{
    let mut counts = Vec::new(alloc);
    for page in 0..100 {
        let first = page * 1000;
        let more = count_within(alloc, tx, channel, first, first + 999)?;
        counts.extend_from_slice(&more)?;
    }
    Ok(counts)
}

/// What the days table tells of each of the channel's days, by its row of the plan, or `None` where it has none. It fails
/// where memory or the store does, and where a row doesn't read.
pub fn read_day_counts<S: Alter>(
    alloc: Global,
    tx: &mut Transaction<'_, S>,
    channel: u16,
    plan: Option<PlanRow>,
) -> Result<Option<Vec<DayCounts>>, Unavailable>
    ensures reads { Reads S.Store tx.old tx.new result }
    ensures counts { WhileCleanCentre S.Store tx.old tx.new
        (HoldsSet (set_in (inside S.Store tx.old)) (inside S.Store tx.old).now →
        plan_of channel (set_in (inside S.Store tx.old)) ≡ plan → IfOk result (λ counts.
        option_map (λ c. c.items) counts
        ≡ option_map counts_seen (view_of channel (set_in (inside S.Store tx.old))))) }
{
    test_open(tx)?;
    let Some(plan) = plan else {
        return Ok(None);
    };
    let counts = count_days(alloc, tx, channel, &plan)?;
    Ok(Some(counts))
}
