//! The days that rows make.
ghost use Rattle.std.specs.Prelude.{◌≡◌, ◌⊎◌, ◌==◌, true, find, filter, map};
ghost use Rattle.std.specs.Prelude.{option_copied, IfOk, IfErr, OnOk};
ghost use Rattle.std.specs.List.{list_all};
ghost use Rattle.timecode.specs.Counting.{day_length};
ghost use Rattle.channel_plan.specs.declared.refusal.Code.TheVariants as Code;
ghost use Rattle.playlist_core.specs.Day.{KeepsDayRules};
ghost use Rattle.station_tables_records.specs.MadeDays.{Rise, plan_cmp, day_cmp, item_cmp, is_of_day, items_at, made_day};
ghost use Rattle.station_tables_records.specs.MadeDays.{day_made, days_made, has_day, MakeDays};
ghost use Rattle.station_tables_records.specs.MadeDays.{is_planned_day, row_of};

use crate::day_rows::{DayRow, ItemRow, state_of};
use channel_plan::{Code, PlanRow};
use playlist_core::{DayPlan, Item};
use std::alloc::{AllocError, Global};

// The items' rows of a day.
fn rows_at(rows: &[(u16, ItemRow)], channel: u16, day: u32) -> &[(u16, ItemRow)]
    requires rise { Rise item_cmp rows.now }
    ensures { result.now ≡ filter (is_of_day channel day) rows.now }
{
    let (_, from) = rows.split_at(rows.partition_point(|r| (r.0, r.1.day) < (channel, day)));
    let (own, _) = from.split_at(from.partition_point(|r| (r.0, r.1.day) <= (channel, day)));
    own
}

// The items of a day, in the order of their numbers.
fn items_of(
    alloc: Global,
    rows: &[(u16, ItemRow)],
    channel: u16,
    day: u32,
) -> Result<Vec<Item>, AllocError>
    requires rise { Rise item_cmp rows.now }
    ensures { IfOk result (λ v. v.items ≡ items_at channel day rows.now) }
{
    rows_at(rows, channel, day)
        .iter()
        .map(|r| r.1.item)
        .collect(alloc)
}

// The row, if it is the channel's.
fn if_of(row: Option<&PlanRow>, channel: u16) -> Option<PlanRow>
    ensures { result ≡ row_of channel (option_copied row.entry) }
{
    match row {
        Some(row) if row.ch == channel => Some(*row),
        _ => None,
    }
}

/// The channel's row of the plan.
pub(crate) fn plan_row(plan: &[PlanRow], channel: u16) -> Option<PlanRow>
    requires rise { Rise plan_cmp plan.now }
    ensures { result ≡ find (λ p. p.ch == channel) plan.now }
{
    let (_, from) = plan.split_at(plan.partition_point(|p| p.ch < channel));
    if_of(from.first(), channel)
}

// Whether each item's day is there.
fn have_days(days: &[(u16, DayRow)], items: &[(u16, ItemRow)]) -> bool
    requires rise { Rise day_cmp days.now }
    ensures { result ≡ list_all (has_day days.now) items.now }
{
    items.iter().all(|r| is_there(days, r))
}

// Whether the item's day is there.
fn is_there(days: &[(u16, DayRow)], row: &(u16, ItemRow)) -> bool
    requires rise { Rise day_cmp days.now }
    ensures { result ≡ has_day days.now row.now }
{
    days.binary_search_by_key(&(row.0, row.1.day), |d| (d.0, d.1.number))
        .is_ok()
}

// The day of a row, of a channel whose plan row this is, with these items in any order. It fails where they break a
// day's rules: [`DayPlan::from_rows`] says which.
fn day_of(plan: &PlanRow, row: DayRow, items: Vec<Item>) -> Result<DayPlan, Code>
    ensures day { IfOk result (λ d. d ≡ made_day (day_length plan.now.rate) items.items row) }
    ensures rules { IfOk result KeepsDayRules }
    ensures ours { IfErr result (λ e. (e ≡ Code.NotOurs)
        × (KeepsDayRules (made_day (day_length plan.now.rate) items.items row) → ⊥)) }
{
    let Ok(day) = DayPlan::from_rows(row.number, plan, state_of(row), items) else {
        return Err(Code::NotOurs);
    };
    day.keep_the_rules();
    Ok(day)
}

// The day of a row of a planned channel.
fn day_at(
    alloc: Global,
    plan: &[PlanRow],
    items: &[(u16, ItemRow)],
    channel: u16,
    row: DayRow,
) -> Result<DayPlan, Code>
    requires plan { Rise plan_cmp plan.now }
    requires items { Rise item_cmp items.now }
    ensures day { IfOk result (λ d. (channel, d) ≡ day_made plan.now items.now (channel, row)) }
    ensures rules { IfOk result KeepsDayRules }
    ensures planned { OnOk result (is_planned_day plan.now (channel, row) ≡ true) }
    ensures fault { IfErr result (λ e. (e ≡ Code.Unavailable) ⊎ ((e ≡ Code.NotOurs)
        × ((is_planned_day plan.now (channel, row) ≡ true)
        → KeepsDayRules (day_made plan.now items.now (channel, row)).1 → ⊥))) }
{
    let Some(planned) = plan_row(plan, channel) else {
        return Err(Code::NotOurs);
    };
    let Ok(own) = items_of(alloc, items, channel, row.number) else {
        return Err(Code::Unavailable);
    };
    day_of(&planned, row, own)
}

/// The days, each with its channel, that the rows of the plan, of days and of items make, each list in the order of its
/// key. It fails with `Unavailable` for want of memory, and with `NotOurs` where an item's day isn't there, a day's
/// channel isn't planned, or a day's rules are broken.
pub fn days_of(
    alloc: Global,
    plan: &[PlanRow],
    days: &[(u16, DayRow)],
    items: &[(u16, ItemRow)],
) -> Result<Vec<(u16, DayPlan)>, Code>
    requires plan { Rise plan_cmp plan.now }
    requires days { Rise day_cmp days.now }
    requires items { Rise item_cmp items.now }
    ensures days { IfOk result (λ v.
        v.items ≡ days_made plan.now (record { days = days.now; items = items.now })) }
    ensures rules { OnOk result (MakeDays plan.now (record { days = days.now; items = items.now })) }
    ensures fault { IfErr result (λ e. (e ≡ Code.Unavailable) ⊎ ((e ≡ Code.NotOurs)
        × (MakeDays plan.now (record { days = days.now; items = items.now }) → ⊥))) }
{
    if !have_days(days, items) {
        return Err(Code::NotOurs);
    }
    let mut made = Vec::new(alloc);
    for (channel, row) in days {
        let day = day_at(alloc, plan, items, *channel, *row)?;
        let pushed = made.push((*channel, day));
        if pushed.is_err() {
            return Err(Code::Unavailable);
        }
    }
    Ok(made)
}
