//! Broadcast days, and what was aired of them, in the store of lists.
ghost use Rattle.std.specs.Prelude.{◌≡◌, ◌==◌, ◌≤◌, ◌&&◌, ◌||◌, [], ℕ, true, find, length, nat_lt, nat_le, position};
ghost use Rattle.std.specs.Prelude.{◌<◌, slice_get, IfOk, IsTrue, OnOk, OnErr};
ghost use Rattle.std.specs.List.{cons_option, position_or_len};
ghost use Rattle.std.specs.Option.{option_map};
ghost use Rattle.vault_core.specs.Questions.{listed};
ghost use Rattle.channel_view_model.specs.Tables.{is_in_order, replace_row, rows_alone};
ghost use Rattle.channel_view_model.specs.Need.{IsAiringAnswer, IsDayAnswer};
ghost use Rattle.channel_view.specs.Places.{is_day_at};

use asrun_match::{AiredDay, DayAsRun};
use channel_plan::PlanRow;
use channel_view_model::{DayNumber, nothing_aired};
use playlist_core::DayPlan;
use std::alloc::Global;
use timecode::Unavailable;

/// The day that is asked for, there or not.
pub(crate) fn day_found(
    alloc: Global,
    plan: &PlanRow,
    days: &[(u16, DayPlan)],
    asked: &Option<DayNumber>,
) -> Result<Option<DayPlan>, Unavailable>
    ensures { IfOk result (IsDayAnswer asked.now plan.now (listed (rows_alone days.now))) }
{
    let Some(number) = asked else {
        return Ok(None);
    };
    let number = number.get();
    match day_of(days, number) {
        Some(day) => Ok(Some(day.copied(alloc)?)),
        None => Ok(Some(DayPlan::not_there(alloc, number, plan))),
    }
}

/// What was aired of the day that is asked for.
pub(crate) fn airing_found(
    alloc: Global,
    plan: &PlanRow,
    airings: &[(u16, DayAsRun)],
    asked: &Option<DayNumber>,
) -> Result<Option<AiredDay>, Unavailable>
    ensures { IfOk result (IsAiringAnswer asked.now plan.now (listed (rows_alone airings.now))) }
{
    let Some(number) = asked else {
        return Ok(None);
    };
    match airing_of(airings, number.get()) {
        Some(airing) => Ok(Some(airing.aired.copied(alloc)?)),
        None => Ok(Some(nothing_aired(alloc, plan)?)),
    }
}

// What was aired of the first day with this number.
fn airing_of(airings: &[(u16, DayAsRun)], number: u32) -> Option<&DayAsRun>
    ensures { option_map (λ a. a.now) result
        ≡ option_map (λ r. r.1) (find (λ r. r.1.day == number) airings.now) }
{
    let row = airings.iter().find(|r| r.1.day == number)?;
    Some(&row.1)
}

// The first day with this number.
fn day_of(days: &[(u16, DayPlan)], number: u32) -> Option<&DayPlan>
    ensures { option_map (λ d. d.now) result
        ≡ option_map (λ r. r.1) (find (λ r. r.1.number == number) days.now) }
{
    let row = days.iter().find(|r| r.1.number() == number)?;
    Some(&row.1)
}

/// Just this row, if there is one.
pub(crate) fn just<T: Copy>(alloc: Global, row: Option<T>) -> Result<Vec<T>, Unavailable>
    ensures { IfOk result (λ v. v.items ≡ cons_option row []) }
{
    let mut rows = Vec::new(alloc);
    if let Some(row) = row {
        rows.push(row)?;
    }
    Ok(rows)
}

/// A row of a broadcast day, by the day's number.
pub(crate) trait OfDay: Sized + Drop {
    ghost day_of: { Self → ℕ };

    fn day(&self) -> u32
        ensures { result ≡ day_of self.now };

    fn copied(&self, alloc: Global) -> Result<Self, Unavailable>
        ensures { IfOk result (λ row. row ≡ self.now) };
}

impl OfDay for DayPlan {
    ghost day_of = { λ d. d.number };

    fn day(&self) -> u32 {
        self.number()
    }

    fn copied(&self, alloc: Global) -> Result<DayPlan, Unavailable> {
        self.copied(alloc)
    }
}

impl OfDay for DayAsRun {
    ghost day_of = { λ a. a.day };

    fn day(&self) -> u32 {
        self.day
    }

    fn copied(&self, alloc: Global) -> Result<DayAsRun, Unavailable> {
        self.copied(alloc)
    }
}

/// The row in the place of the channel's of the same day, or in the order of the days.
pub(crate) fn set_day<D: OfDay>(
    alloc: Global,
    table: &mut Vec<(u16, D)>,
    channel: u16,
    row: &D,
) -> Result<(), Unavailable>
    requires { is_in_order table.old.items ≡ true }
    ensures ok { OnOk result (table.new.items ≡ replace_row D.day_of channel row.now table.old.items) }
    ensures err { OnErr result (table.new.items ≡ table.old.items) }
    ensures order { is_in_order table.new.items ≡ true }
{
    let copy = row.copied(alloc)?;
    let at = place_of_day(table, channel, row.day());
    if is_day_at(table, at, channel, row.day()) {
        table[at].1 = copy;
    } else {
        table.insert(at, (channel, copy))?;
    }
    Ok(())
}

// Whether the row at a place is the channel's of this day.
fn is_day_at<D: OfDay>(table: &[(u16, D)], at: usize, channel: u16, day: u32) -> bool
    ensures day { result ≡ is_day_at D.day_of channel day (slice_get table.now at) }
    ensures within { IsTrue result → at < length table.now }
{
    match table.get(at) {
        Some(row) => row.0 == channel && row.1.day() == day,
        None => false,
    }
}

// Where the channel's row of this day stands, or belongs.
fn place_of_day<D: OfDay>(table: &[(u16, D)], channel: u16, day: u32) -> usize
    ensures place { result ≡ position_or_len
        (λ r. nat_lt channel r.0 || (r.0 == channel && nat_le day (D.day_of r.1))) table.now }
    ensures within { result ≤ length table.now }
{
    first_from(table, channel, day).unwrap_or(table.len())
}

fn first_from<D: OfDay>(table: &[(u16, D)], channel: u16, day: u32) -> Option<usize>
    ensures { result ≡ position
        (λ r. nat_lt channel r.0 || (r.0 == channel && nat_le day (D.day_of r.1))) table.now }
{
    table
        .iter()
        .position(|r| channel < r.0 || (r.0 == channel && day <= r.1.day()))
}
