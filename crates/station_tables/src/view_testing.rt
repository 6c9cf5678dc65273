//! What one channel sees, from the tables, where it keeps the rules.
ghost use Rattle.std.specs.Prelude.{◌≡◌, IfOk, IfSome};
ghost use Rattle.channel_view_rules.specs.ViewRules.{KeepsViewRules};
ghost use Rattle.channel_view_model.specs.Centre.{plan_of, view_of};
ghost use Rattle.channel_view_model.specs.Rules.{KeepsRules};
ghost use Rattle.station_tables_records.specs.Inside.{inside, Reads};
ghost use Rattle.station_tables_statements.specs.Calls.{WhileCleanCentre, set_in};

use channel_plan::PlanRow;
use channel_view_model::View;
use channel_view_rules::keeps_view_rules;
use sqlite::{Alter, Transaction};
use station_tables_reading::read_view;
use std::alloc::Global;
use timecode::Unavailable;

// What was read of a channel, where it keeps the rules.
fn tested_view(view: Option<View>) -> Result<Option<View>, Unavailable>
    ensures same { IfOk result (λ tested. tested ≡ view) }
    ensures shows { IfOk result (λ tested. IfSome tested KeepsViewRules) }
{
    let Some(seen) = &view else {
        return Ok(view);
    };
    if keeps_view_rules(seen) {
        Ok(view)
    } else {
        Err(Unavailable)
    }
}

/// What the channel sees, by its row of the plan, or `None` where it has none. It fails where memory or the store does,
/// where a row doesn't read, and where the channel's rows break a rule.
pub(crate) fn read_tested_view<S: Alter>(
    alloc: Global,
    tx: &mut Transaction<'_, S>,
    channel: u16,
    plan: Option<PlanRow>,
) -> Result<Option<View>, Unavailable>
    ensures reads { Reads S.Store tx.old tx.new result }
    ensures view { WhileCleanCentre S.Store tx.old tx.new (KeepsRules (set_in (inside S.Store tx.old)) →
        plan_of channel (set_in (inside S.Store tx.old)) ≡ plan →
        IfOk result (λ view. view ≡ view_of channel (set_in (inside S.Store tx.old)))) }
    ensures shows { IfOk result (λ view. IfSome view KeepsViewRules) }
{
    let view = read_view(alloc, tx, channel, plan)?;
    tested_view(view)
}
