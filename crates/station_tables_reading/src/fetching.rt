//! Just the rows and counts of one channel that a command needs, from the tables.
ghost use Rattle.std.specs.Prelude.{◌≡◌, IfOk};
ghost use Rattle.channel_view_model.specs.Centre.{plan_of, view_of};
ghost use Rattle.channel_view_model.specs.Need.{IsFetched};
ghost use Rattle.channel_view_model.specs.Rules.{KeepsRules};
ghost use Rattle.station_tables_records.specs.Inside.{inside, Reads};
ghost use Rattle.station_tables_statements.specs.Calls.{WhileCleanCentre, OwnsRowsNow, set_in};

use crate::airing_fetching::find_airing;
use crate::day_fetching::find_air;
use crate::open_testing::test_open;
use crate::own_fetching::{find_clips, find_offers, find_tapes};
use channel_plan::PlanRow;
use channel_view_model::{Need, Part};
use sqlite::{Alter, Transaction};
use std::alloc::Global;
use timecode::Unavailable;

/// The part of what the channel sees that a command needs, by its row of the plan, or `None` where it has none. It
/// fails where memory or the store does, and where a row doesn't read.
pub fn read_part<S: Alter>(
    alloc: Global,
    tx: &mut Transaction<'_, S>,
    channel: u16,
    plan: Option<PlanRow>,
    need: &Need<'_>,
) -> Result<Option<Part>, Unavailable>
    ensures reads { Reads S.Store tx.old tx.new result }
    ensures part { WhileCleanCentre S.Store tx.old tx.new (OwnsRowsNow (inside S.Store tx.old) →
        KeepsRules (set_in (inside S.Store tx.old)) → plan_of channel (set_in (inside S.Store tx.old)) ≡ plan →
        IfOk result (IsFetched need.now (view_of channel (set_in (inside S.Store tx.old))))) }
{
    test_open(tx)?;
    let Some(plan) = plan else {
        return Ok(None);
    };
    let tapes = find_tapes(alloc, tx, channel, &need.tapes)?;
    let clips = find_clips(alloc, tx, channel, &need.clips)?;
    let offers = find_offers(alloc, tx, channel, &need.offers)?;
    let air = find_air(alloc, tx, &plan, need)?;
    let aired = find_airing(alloc, tx, &plan, &need.aired)?;
    Ok(Some(Part {
        plan,
        tapes,
        clips,
        offers,
        day: air.day,
        aired,
        sources: air.sources,
    }))
}
