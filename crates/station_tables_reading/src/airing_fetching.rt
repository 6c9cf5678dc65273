//! What was aired of the day that a command asks for, from the tables.
ghost use Rattle.std.specs.Prelude.{◌≡◌, Some, IfOk};
ghost use Rattle.channel_view_model.specs.Airings.{airing_at};
ghost use Rattle.channel_view_model.specs.Centre.{plan_of};
ghost use Rattle.channel_view_model.specs.Need.{IsAiringAnswer};
ghost use Rattle.channel_view_model.specs.Tables.{of_channel};
ghost use Rattle.station_tables_records.specs.Inside.{inside, Looks, Reads};
ghost use Rattle.station_tables_statements.specs.Calls.{WhileCleanCentre, OwnsRowsNow, set_in};

use crate::airing_loading::load_airing;
use asrun_match::AiredDay;
use channel_plan::PlanRow;
use channel_view_model::{DayNumber, nothing_aired};
use sqlite::{Alter, Transaction};
use std::alloc::Global;
use timecode::Unavailable;

// What was aired of the day with this number, of which nothing is said where no batch came.
fn airing_numbered<S: Alter>(
    alloc: Global,
    tx: &mut Transaction<'_, S>,
    plan: &PlanRow,
    number: &DayNumber,
) -> Result<AiredDay, Unavailable>
    ensures reads { Reads S.Store tx.old tx.new result }
    ensures airing { WhileCleanCentre S.Store tx.old tx.new (OwnsRowsNow (inside S.Store tx.old) →
        plan_of plan.now.ch (set_in (inside S.Store tx.old)) ≡ Some plan.now → IfOk result (λ aired. aired
        ≡ airing_at plan.now (of_channel plan.now.ch (set_in (inside S.Store tx.old)).aired) number.now)) }
{
    let number = number.get();
    let found = load_airing(alloc, tx, plan, number)?;
    match found {
        Some(aired) => Ok(aired),
        None => nothing_aired(alloc, plan),
    }
}

/// What was aired of the day for which this is asked, where one is.
pub(crate) fn find_airing<S: Alter>(
    alloc: Global,
    tx: &mut Transaction<'_, S>,
    plan: &PlanRow,
    asked: &Option<DayNumber>,
) -> Result<Option<AiredDay>, Unavailable>
    ensures looks { Looks S.Store tx.old tx.new result }
    ensures airing { WhileCleanCentre S.Store tx.old tx.new (OwnsRowsNow (inside S.Store tx.old) →
        plan_of plan.now.ch (set_in (inside S.Store tx.old)) ≡ Some plan.now → IfOk result (IsAiringAnswer
        asked.now plan.now (of_channel plan.now.ch (set_in (inside S.Store tx.old)).aired))) }
{
    match asked {
        Some(number) => Ok(Some(airing_numbered(alloc, tx, plan, number)?)),
        None => Ok(None),
    }
}
