//! The days of one channel, from the tables.
ghost use Rattle.std.specs.Prelude.{◌≡◌, ◌==◌, Some, List, filter, find, IfOk};
ghost use Rattle.channel_plan.specs.declared.plan.PlanRow.{PlanRow};
ghost use Rattle.station_tables_records.specs.Inside.{inside, Reads};
ghost use Rattle.station_tables_records.specs.MadeDays.{is_made_in, days_made};
ghost use Rattle.station_tables_statements.specs.DayCalls.{days_in, WhileCleanDays};

use channel_plan::PlanRow;
use playlist_core::DayPlan;
use sqlite::{Alter, Transaction};
use station_tables_records::days_of;
use station_tables_statements::{load_day_rows, load_item_rows};
use std::alloc::Global;
use std::slice;
use timecode::Unavailable;

/// The days of a channel with numbers from one to another, each with the channel, by number. It fails where memory or
/// the store does, where a row doesn't read, and where these rows make no days.
pub(crate) fn load_days<S: Alter>(
    alloc: Global,
    tx: &mut Transaction<'_, S>,
    plan: &PlanRow,
    first: u32,
    last: u32,
) -> Result<Vec<(u16, DayPlan)>, Unavailable>
    ensures reads { Reads S.Store tx.old tx.new result }
    ensures days { WhileCleanDays S.Store tx.old tx.new ((channels : List PlanRow) →
        find (λ p. p.ch == plan.now.ch) channels ≡ Some plan.now →
        IfOk result (λ days. days.items
        ≡ filter (is_made_in plan.now.ch first last) (days_made channels (days_in (inside S.Store tx.old))))) }
{
    let days = load_day_rows(alloc, tx, plan.ch, first, last)?;
    let items = load_item_rows(alloc, tx, plan.ch, first, last)?;
    match days_of(alloc, slice::from_ref(plan), &days, &items) {
        Ok(days) => Ok(days),
        Err(_) => Err(Unavailable),
    }
}
