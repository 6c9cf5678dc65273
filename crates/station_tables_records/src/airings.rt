//! What rows say was aired.
ghost use Rattle.std.specs.Prelude.{◌≡◌, ◌⊎◌, ◌==◌, true, false, filter, map};
ghost use Rattle.std.specs.Prelude.{IfOk, IfErr, IsTrue, OnOk};
ghost use Rattle.std.specs.List.{list_all, list_any};
ghost use Rattle.timecode.specs.Counting.{day_length};
ghost use Rattle.channel_plan.specs.declared.refusal.Code.TheVariants as Code;
ghost use Rattle.asrun_match.specs.Aired.{KeepsAiringRules};
ghost use Rattle.station_tables_records.specs.MadeDays.{Rise, plan_cmp};
ghost use Rattle.station_tables_records.specs.MadeAirings.{batch_cmp, line_cmp, is_batch, is_batch_of, is_line_of};
ghost use Rattle.station_tables_records.specs.MadeAirings.{rows_in_batch, batches_at};
ghost use Rattle.station_tables_records.specs.MadeAirings.{airing_of_rows};
ghost use Rattle.station_tables_records.specs.MadeAirings.{airing_made, airings_made, has_its_batch, has_number};
ghost use Rattle.station_tables_records.specs.MadeAirings.{follows_batch};
ghost use Rattle.station_tables_records.specs.MadeAirings.{is_planned_batch, HaveNoHoles, MakeAirings};

use crate::aired_rows::{AiredLine, BatchRow};
use crate::days::plan_row;
use asrun_match::{AiredDay, AiredRow, Batch, DayAsRun};
use channel_plan::{Code, PlanRow};
use std::alloc::{AllocError, Global};

// The batches' rows of a day.
fn batches_in(batches: &[(u16, BatchRow)], channel: u16, day: u32) -> &[(u16, BatchRow)]
    requires rise { Rise batch_cmp batches.now }
    ensures { result.now ≡ filter (is_batch_of channel day) batches.now }
{
    let (_, from) = batches.split_at(batches.partition_point(|b| (b.0, b.1.day) < (channel, day)));
    let (own, _) = from.split_at(from.partition_point(|b| (b.0, b.1.day) <= (channel, day)));
    own
}

// The lines' rows of a batch.
fn lines_in(lines: &[(u16, AiredLine)], channel: u16, day: u32, batch: u32) -> &[(u16, AiredLine)]
    requires rise { Rise line_cmp lines.now }
    ensures { result.now ≡ filter (is_line_of channel day batch) lines.now }
{
    let key = (channel, day, batch);
    let (_, from) = lines.split_at(lines.partition_point(|r| (r.0, r.1.day, r.1.batch) < key));
    let (own, _) = from.split_at(from.partition_point(|r| (r.0, r.1.day, r.1.batch) <= key));
    own
}

// The rows of a batch, in the order of their lines.
fn rows_of(
    alloc: Global,
    lines: &[(u16, AiredLine)],
    channel: u16,
    day: u32,
    batch: u32,
) -> Result<Vec<AiredRow>, AllocError>
    requires rise { Rise line_cmp lines.now }
    ensures { IfOk result (λ v. v.items ≡ rows_in_batch channel day batch lines.now) }
{
    lines_in(lines, channel, day, batch)
        .iter()
        .map(|r| r.1.row)
        .collect(alloc)
}

// The batches of a day, in the order of their numbers.
fn batches_of(
    alloc: Global,
    batches: &[(u16, BatchRow)],
    lines: &[(u16, AiredLine)],
    channel: u16,
    day: u32,
) -> Result<Vec<Batch>, AllocError>
    requires batches { Rise batch_cmp batches.now }
    requires lines { Rise line_cmp lines.now }
    ensures { IfOk result (λ v.
        v.items ≡ batches_at channel day (record { batches = batches.now; lines = lines.now })) }
{
    let mut made = Vec::new(alloc);
    for batch in batches_in(batches, channel, day) {
        let rows = rows_of(alloc, lines, channel, day, batch.1.number)?;
        made.push(Batch::of(rows))?;
    }
    Ok(made)
}

/// What was aired of a day of the channel whose plan row this is, by the rows of its batches and of their lines, each
/// list in the order of its key. Rows of other days may stand among them. It fails with `Unavailable` for want of
/// memory, and with `NotOurs` where what was aired breaks the rules: [`AiredDay::from_rows`] says which.
pub fn airing_of(
    alloc: Global,
    plan: &PlanRow,
    day: u32,
    batches: &[(u16, BatchRow)],
    lines: &[(u16, AiredLine)],
) -> Result<AiredDay, Code>
    requires batches { Rise batch_cmp batches.now }
    requires lines { Rise line_cmp lines.now }
    ensures airing { IfOk result (λ aired. aired ≡ airing_of_rows (day_length plan.now.rate) plan.now.ch day
        (record { batches = batches.now; lines = lines.now })) }
    ensures rules { IfOk result KeepsAiringRules }
    ensures fault { IfErr result (λ e. (e ≡ Code.Unavailable) ⊎ ((e ≡ Code.NotOurs)
        × (KeepsAiringRules (airing_of_rows (day_length plan.now.rate) plan.now.ch day
        (record { batches = batches.now; lines = lines.now })) → ⊥))) }
{
    let Ok(own) = batches_of(alloc, batches, lines, plan.ch, day) else {
        return Err(Code::Unavailable);
    };
    match AiredDay::from_rows(alloc, plan, own) {
        Ok(aired) => Ok(aired),
        Err(refusal) => Err(refusal.code),
    }
}

// Whether a batch is there.
fn has_batch(batches: &[(u16, BatchRow)], channel: u16, day: u32, number: u32) -> bool
    requires rise { Rise batch_cmp batches.now }
    ensures { result ≡ list_any (is_batch channel day number) batches.now }
{
    batches
        .binary_search_by_key(&(channel, day, number), |b| (b.0, b.1.day, b.1.number))
        .is_ok()
}

// Whether the line's batch is there.
fn has_its_batch(batches: &[(u16, BatchRow)], line: &(u16, AiredLine)) -> bool
    requires rise { Rise batch_cmp batches.now }
    ensures { result ≡ has_its_batch batches.now line.now }
{
    has_batch(batches, line.0, line.1.day, line.1.batch)
}

// Whether the batch has number 1, or the one before it is there.
fn follows_batch(batches: &[(u16, BatchRow)], batch: &(u16, BatchRow)) -> bool
    requires rise { Rise batch_cmp batches.now }
    ensures { result ≡ follows_batch batches.now batch.now }
{
    match batch.1.number {
        0 => false,
        1 => true,
        number => has_batch(batches, batch.0, batch.1.day, number - 1),
    }
}

// Whether each line's batch is there.
fn are_owned(batches: &[(u16, BatchRow)], lines: &[(u16, AiredLine)]) -> bool
    requires rise { Rise batch_cmp batches.now }
    ensures { result ≡ list_all (has_its_batch batches.now) lines.now }
{
    lines.iter().all(|r| has_its_batch(batches, r))
}

// Whether the numbers of each day's batches run from 1.
fn batches_run(batches: &[(u16, BatchRow)]) -> bool
    requires rise { Rise batch_cmp batches.now }
    ensures { result ≡ list_all (follows_batch batches.now) batches.now }
{
    batches.iter().all(|b| follows_batch(batches, b))
}

// Whether each line has a number: 1 or more.
fn have_numbers(lines: &[(u16, AiredLine)]) -> bool
    ensures { result ≡ list_all has_number lines.now }
{
    lines.iter().all(|r| r.1.line > 0)
}

// Whether no number of a batch is left out, each line's batch is there, and the line has a number.
fn have_no_holes(batches: &[(u16, BatchRow)], lines: &[(u16, AiredLine)]) -> bool
    requires batches { Rise batch_cmp batches.now }
    requires lines { Rise line_cmp lines.now }
    ensures whole { IsTrue result → HaveNoHoles (record { batches = batches.now; lines = lines.now }) }
    ensures hole { HaveNoHoles (record { batches = batches.now; lines = lines.now }) → IsTrue result }
{
    let owned = are_owned(batches, lines);
    let run = batches_run(batches);
    owned && run && have_numbers(lines)
}

// Whether the channel of each batch is planned.
fn are_planned(plan: &[PlanRow], batches: &[(u16, BatchRow)]) -> bool
    requires rise { Rise plan_cmp plan.now }
    ensures { result ≡ list_all (is_planned_batch plan.now) batches.now }
{
    batches.iter().all(|b| is_planned_batch(plan, b))
}

// Whether the batch's channel is planned.
fn is_planned_batch(plan: &[PlanRow], batch: &(u16, BatchRow)) -> bool
    requires rise { Rise plan_cmp plan.now }
    ensures { result ≡ is_planned_batch plan.now batch.now }
{
    plan_row(plan, batch.0).is_some()
}

// What was aired of a day of a planned channel.
fn airing_in(
    alloc: Global,
    plan: &[PlanRow],
    batches: &[(u16, BatchRow)],
    lines: &[(u16, AiredLine)],
    first: &(u16, BatchRow),
) -> Result<(u16, DayAsRun), Code>
    requires plan { Rise plan_cmp plan.now }
    requires batches { Rise batch_cmp batches.now }
    requires lines { Rise line_cmp lines.now }
    ensures airing { IfOk result (λ a.
        a ≡ airing_made plan.now (record { batches = batches.now; lines = lines.now }) first.now) }
    ensures rules { IfOk result (λ a. KeepsAiringRules a.1.aired) }
    ensures fault { IfErr result (λ e. (e ≡ Code.Unavailable) ⊎ ((e ≡ Code.NotOurs)
        × ((is_planned_batch plan.now first.now ≡ true) → KeepsAiringRules
        (airing_made plan.now (record { batches = batches.now; lines = lines.now }) first.now).1.aired → ⊥))) }
{
    let Some(planned) = plan_row(plan, first.0) else {
        return Err(Code::NotOurs);
    };
    let day = first.1.day;
    let aired = airing_of(alloc, &planned, day, batches, lines)?;
    Ok((first.0, DayAsRun { day, aired }))
}

/// What was aired of each day that has a batch, with the day's channel, by the rows of the plan, of batches and of
/// lines, each list in the order of its key. It fails with `Unavailable` for want of memory, and with `NotOurs` where a
/// number of a day's batches is left out, a line's batch isn't there, a line's number is 0, a channel isn't planned, or
/// what was aired breaks the rules.
pub fn airings_of(
    alloc: Global,
    plan: &[PlanRow],
    batches: &[(u16, BatchRow)],
    lines: &[(u16, AiredLine)],
) -> Result<Vec<(u16, DayAsRun)>, Code>
    requires plan { Rise plan_cmp plan.now }
    requires batches { Rise batch_cmp batches.now }
    requires lines { Rise line_cmp lines.now }
    ensures airings { IfOk result (λ v.
        v.items ≡ airings_made plan.now (record { batches = batches.now; lines = lines.now })) }
    ensures rules { OnOk result (MakeAirings plan.now (record { batches = batches.now; lines = lines.now })) }
    ensures fault { IfErr result (λ e. (e ≡ Code.Unavailable) ⊎ ((e ≡ Code.NotOurs)
        × (MakeAirings plan.now (record { batches = batches.now; lines = lines.now }) → ⊥))) }
{
    if !have_no_holes(batches, lines) || !are_planned(plan, batches) {
        return Err(Code::NotOurs);
    }
    let mut made = Vec::new(alloc);
    for batch in batches {
        if batch.1.number == 1 {
            let pushed = made.push(airing_in(alloc, plan, batches, lines, batch)?);
            if pushed.is_err() {
                return Err(Code::Unavailable);
            }
        }
    }
    Ok(made)
}
