//! The test of what one channel sees by the integrity rules.
ghost use Rattle.std.specs.Prelude.{◌≡◌, ◌↔◌, ℕ, true, IfSome, IsTrue};
ghost use Rattle.channel_view_model.specs.Centre.{Centre, view_of};
ghost use Rattle.channel_view_model.specs.Rules.{KeepsRules, are_airings_of, numbers_rise};
ghost use Rattle.channel_view_rules.specs.ViewRules.{KeepsViewRules};

use crate::airing_rules::is_airing_of;
use crate::day_rules::are_days_of;
use asrun_match::DayAsRun;
use channel_plan::PlanRow;
use channel_view_model::View;
use playlist_core::{DayPlan, SourceRows};

/// Whether the channel's days have rising numbers and show what is there, and what was aired is of its sealed days.
pub fn keeps_view_rules(view: &View) -> bool
    ensures { IsTrue result ↔ KeepsViewRules view.now }
{
    let plan = view.own.plan();
    let sources = SourceRows::of(view.own.clips(), view.lent.grants());
    let days = view.days.as_slice();
    are_days_of(&plan, &sources, days) && are_airings_of(&plan, days, view.aired.as_slice())
}

/// A law: rows that keep the rules give each channel a view that keeps its own.
pub fn views_keep_the_rules()
    ensures { (rows : Centre) (channel : ℕ) → KeepsRules rows → IfSome (view_of channel rows) KeepsViewRules }
{}

// Whether what was aired is of sealed ones of the days, their numbers rising.
fn are_airings_of(plan: &PlanRow, days: &[DayPlan], airings: &[DayAsRun]) -> bool
    requires { numbers_rise 0 days.now ≡ true }
    ensures { result ≡ are_airings_of plan.now days.now 0 airings.now }
{
    let mut last = 0;
    for airing in airings {
        if airing.day <= last || !is_airing_of(plan, days, airing) {
            return false;
        }
        last = airing.day;
    }
    true
}
