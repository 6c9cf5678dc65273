//! What one channel sees, from the tables.
ghost use Rattle.std.specs.Prelude.{◌≡◌, Some, IfOk};
ghost use Rattle.channel_view_model.specs.Tables.{rows_of};
ghost use Rattle.channel_view_model.specs.Centre.{own_of, plan_of, view_of};
ghost use Rattle.channel_view_model.specs.Seen.{grants_to};
ghost use Rattle.channel_view_model.specs.Rules.{KeepsRules};
ghost use Rattle.station_tables_records.specs.Inside.{inside, Reads};
ghost use Rattle.station_tables_statements.specs.Calls.{WhileCleanCentre, set_in};

use crate::airing_loading::load_airings;
use crate::day_loading::load_days;
use crate::open_testing::test_open;
use channel_plan::{LAST_DAY, PlanRow};
use channel_view_model::{Airings, Days, View, airings_alone, days_alone};
use grant_core::LentRows;
use sqlite::{Alter, Transaction};
use station_tables_statements::{load_lent, load_rows};
use std::alloc::Global;
use timecode::Unavailable;
use vault_core::OwnRows;

// The channel's days, by number.
fn load_all_days<S: Alter>(
    alloc: Global,
    tx: &mut Transaction<'_, S>,
    plan: &PlanRow,
) -> Result<Days, Unavailable>
    ensures reads { Reads S.Store tx.old tx.new result }
    ensures days { WhileCleanCentre S.Store tx.old tx.new (KeepsRules (set_in (inside S.Store tx.old)) →
        plan_of plan.now.ch (set_in (inside S.Store tx.old)) ≡ Some plan.now →
        IfOk result (λ days. days ≡ rows_of plan.now.ch (set_in (inside S.Store tx.old)).days)) }
{
    let days = load_days(alloc, tx, plan, 1, LAST_DAY)?;
    days_alone(alloc, &days)
}

// What was aired of the channel's days.
fn load_all_airings<S: Alter>(
    alloc: Global,
    tx: &mut Transaction<'_, S>,
    plan: &PlanRow,
) -> Result<Airings, Unavailable>
    ensures reads { Reads S.Store tx.old tx.new result }
    ensures airings { WhileCleanCentre S.Store tx.old tx.new
        (plan_of plan.now.ch (set_in (inside S.Store tx.old)) ≡ Some plan.now
        → IfOk result (λ aired. aired ≡ rows_of plan.now.ch (set_in (inside S.Store tx.old)).aired)) }
{
    let airings = load_airings(alloc, tx, plan)?;
    airings_alone(alloc, &airings)
}

// The own rows of a channel of the plan.
fn read_own<S: Alter>(
    alloc: Global,
    tx: &mut Transaction<'_, S>,
    plan: PlanRow,
) -> Result<OwnRows, Unavailable>
    ensures reads { Reads S.Store tx.old tx.new result }
    ensures own { WhileCleanCentre S.Store tx.old tx.new
        (IfOk result (λ own. own ≡ own_of plan.ch plan (set_in (inside S.Store tx.old)))) }
{
    let tapes = load_rows(alloc, tx, plan.ch)?;
    let clips = load_rows(alloc, tx, plan.ch)?;
    let offers = load_rows(alloc, tx, plan.ch)?;
    match OwnRows::from_rows(alloc, plan, tapes, clips, offers) {
        Ok(own) => Ok(own),
        Err(_) => Err(Unavailable),
    }
}

// The clips that are lent to the channel.
fn read_lent<S: Alter>(
    alloc: Global,
    tx: &mut Transaction<'_, S>,
    channel: u16,
) -> Result<LentRows, Unavailable>
    ensures reads { Reads S.Store tx.old tx.new result }
    ensures lent { WhileCleanCentre S.Store tx.old tx.new
        (IfOk result (λ lent. lent ≡ grants_to channel (set_in (inside S.Store tx.old)).offers)) }
{
    let grants = load_lent(alloc, tx, channel)?;
    match LentRows::from_rows(channel, grants) {
        Ok(lent) => Ok(lent),
        Err(_) => Err(Unavailable),
    }
}

/// What the channel sees, by its row of the plan, or `None` where it has none. It fails where memory or the store does,
/// and where a row doesn't read. Whether the rows keep the rules is its caller's to test.
pub fn read_view<S: Alter>(
    alloc: Global,
    tx: &mut Transaction<'_, S>,
    channel: u16,
    plan: Option<PlanRow>,
) -> Result<Option<View>, Unavailable>
    ensures reads { Reads S.Store tx.old tx.new result }
    ensures view { WhileCleanCentre S.Store tx.old tx.new (KeepsRules (set_in (inside S.Store tx.old)) →
        plan_of channel (set_in (inside S.Store tx.old)) ≡ plan →
        IfOk result (λ view. view ≡ view_of channel (set_in (inside S.Store tx.old)))) }
{
    test_open(tx)?;
    let Some(plan) = plan else {
        return Ok(None);
    };
    let own = read_own(alloc, tx, plan)?;
    let lent = read_lent(alloc, tx, channel)?;
    let days = load_all_days(alloc, tx, &plan)?;
    let aired = load_all_airings(alloc, tx, &plan)?;
    Ok(Some(View {
        own,
        days,
        aired,
        lent,
    }))
}
