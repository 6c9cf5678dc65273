//! The test of what was aired of a whole set by the integrity rules.
ghost use Rattle.std.specs.Prelude.{◌≡◌, ◌↔◌, ◌≤◌, Some, true, false, length, map, nat_lt, IsTrue};
ghost use Rattle.std.specs.List.{AllByRecursion};
ghost use Rattle.std.specs.List.Sorted.{IsPartitionPoint};
ghost use Rattle.channel_plan.specs.Plan.{is_plan_in_order};
ghost use Rattle.asrun_match.specs.Aired.{KeepsAiringRules};
ghost use Rattle.channel_view_model.specs.Tables.{is_in_order, rows_alone};
ghost use Rattle.channel_view_model.specs.Centre.{plan_of};
ghost use Rattle.channel_view_model.specs.Rules.{KeepsAirings, KeepsDays, are_airings_of, has_airings, has_sealed};
ghost use Rattle.channel_view_model.specs.Rules.{is_airing_of};
ghost use Rattle.channel_view_model.specs.Rules.{is_sealed, numbers_rise};

use crate::bisecting::channel_rows;
use crate::day_rules::{OfDay, is_table_of};
use asrun_match::DayAsRun;
use channel_plan::PlanRow;
use channel_view_model::CentreRows;
use playlist_core::{DayPlan, DayState};
use timecode::day_frames;

/// Whether what was aired is a table of the plan's channels, and each channel's is of its sealed days, their numbers
/// rising.
pub(crate) fn keeps_airings(rows: &CentreRows) -> bool
    requires plan { is_plan_in_order rows.now.channels ≡ true }
    requires days { KeepsDays rows.now }
    ensures { IsTrue result ↔ KeepsAirings rows.now }
{
    keep_the_rules(&rows.aired);
    if !is_table_of(&rows.channels, &rows.aired) {
        return false;
    }
    for plan in &rows.channels {
        if !has_airings(rows, plan) {
            return false;
        }
    }
    true
}

// A law: what was aired of each day keeps the rules.
fn keep_the_rules(airings: &[(u16, DayAsRun)])
    ensures { AllByRecursion (λ r. KeepsAiringRules r.1.aired) airings.now }
{
    for row in airings {
        row.1.aired.keep_the_rules();
    }
}

fn has_airings(rows: &CentreRows, plan: &PlanRow) -> bool
    requires days { KeepsDays rows.now }
    requires planned { plan_of plan.now.ch rows.now ≡ Some plan.now }
    requires table { is_in_order rows.now.aired ≡ true }
    ensures { result ≡ has_airings rows.now plan.now.ch plan.now }
{
    let days = channel_rows(&rows.days, plan.ch);
    let airings = channel_rows(&rows.aired, plan.ch);
    are_airings_of(plan, days, airings)
}

// Whether what was aired of days of this channel, which has these days, is of sealed ones, their numbers rising.
fn are_airings_of(plan: &PlanRow, days: &[(u16, DayPlan)], airings: &[(u16, DayAsRun)]) -> bool
    requires { numbers_rise 0 (rows_alone days.now) ≡ true }
    ensures { result ≡ are_airings_of plan.now (rows_alone days.now) 0 (rows_alone airings.now) }
{
    let mut last = 0;
    for row in airings {
        if row.1.day <= last || !is_airing_of(plan, days, &row.1) {
            return false;
        }
        last = row.1.day;
    }
    true
}

/// Whether this was aired of a sealed one of these days of the plan's channel, by at least one batch.
pub(crate) fn is_airing_of<D: OfDay>(plan: &PlanRow, days: &[D], airing: &DayAsRun) -> bool
    requires { numbers_rise 0 (map D.day_of days.now) ≡ true }
    ensures { result ≡ is_airing_of plan.now (map D.day_of days.now) airing.now }
{
    !airing.aired.batches().is_empty()
        && airing.aired.frames() == day_frames(plan.rate)
        && has_sealed(days, airing.day)
}

// Whether one of the days has this number, and is sealed.
fn has_sealed<D: OfDay>(days: &[D], number: u32) -> bool
    requires { numbers_rise 0 (map D.day_of days.now) ≡ true }
    ensures { result ≡ has_sealed number (map D.day_of days.now) }
{
    match days.get(place_of(days, number)) {
        Some(row) => row.day().number() == number && is_sealed(row.day().state()),
        None => false,
    }
}

fn is_sealed(state: DayState) -> bool
    ensures { result ≡ is_sealed state }
{
    match state {
        DayState::NotThere | DayState::Open => false,
        DayState::Sealed => true,
    }
}

// Where the days with this number and those behind it begin.
fn place_of<D: OfDay>(days: &[D], number: u32) -> usize
    requires { numbers_rise 0 (map D.day_of days.now) ≡ true }
    ensures within { result ≤ length days.now }
    ensures place { IsPartitionPoint (λ r. nat_lt (D.day_of r).number number ≡ true)
        (λ r. nat_lt (D.day_of r).number number ≡ false) days.now result }
{
    days.partition_point(|r| r.day().number() < number)
}
