//! Decisions of commands on what was aired of a broadcast day.
ghost use Rattle.std.specs.Prelude.{◌≡◌, ◌<◌, IfOk};
ghost use Rattle.timecode.specs.Counting.{day_length};
ghost use Rattle.asrun_match.specs.Batches.{has_batch};
ghost use Rattle.channel_view_model.specs.Decide.{airing_decision, batch_change};

use crate::day_decisions::reply_of;
use asrun_match::{AiredDay, DayAsRun, take_batch};
use channel_plan::{Code, PlanRow, Refusal};
use channel_view_model::{AiringCommand, Change, Reply, TableText, Upload};
use playlist_core::{DayPlan, DayState};
use reports::match_table;
use std::alloc::Global;
use timecode::{Unavailable, day_frames};

/// The reply and the change of a command on what was aired of a day of this channel, there or not.
pub(crate) fn decide_on_airing(
    alloc: Global,
    plan: &PlanRow,
    day: &DayPlan,
    airing: &AiredDay,
    command: &AiringCommand,
) -> Result<(Reply, Change), Unavailable>
    requires start { plan.now.start < day_length plan.now.rate }
    ensures { IfOk result (λ d. d ≡ airing_decision plan.now day.now airing.now command.now) }
{
    match command {
        AiringCommand::TakeBatch { number, rows } => {
            take(alloc, plan, day, airing, *number, rows)
        }
        AiringCommand::WriteMatch => write_match(alloc, plan, day, airing),
    }
}

// Where what was aired is of a day of other frames, the rows were broken by another hand.
#[tactic(auto, unfolding(channel_view_model::specs::Decide::airing_decision))]
fn take(
    alloc: Global,
    plan: &PlanRow,
    day: &DayPlan,
    airing: &AiredDay,
    number: u32,
    rows: &Upload,
) -> Result<(Reply, Change), Unavailable>
    requires start { plan.now.start < day_length plan.now.rate }
    ensures { IfOk result
        (λ d. d ≡ airing_decision plan.now day.now airing.now (AiringCommand.TakeBatch number rows.now)) }
{
    if airing.frames() != day_frames(plan.rate) {
        return Err(Unavailable);
    }
    let is_known = airing.has_batch(number);
    let mut airing = airing.copied(alloc)?;
    let rows = rows.as_bytes();
    match take_batch(alloc, &mut airing, day, plan, number, rows) {
        Ok(frames) => Ok((
            Reply::Batch { number, frames },
            batch_change(is_known, day.number(), airing),
        )),
        Err(refusal) => Ok((reply_of(refusal)?, Change::Nothing)),
    }
}

// A batch that was there already changes nothing.
fn batch_change(is_known: bool, day: u32, aired: AiredDay) -> Change
    ensures { result ≡ batch_change is_known day aired }
{
    if is_known {
        Change::Nothing
    } else {
        Change::Airing(DayAsRun { day, aired })
    }
}

#[tactic(auto, unfolding(channel_view_model::specs::Decide::airing_decision))]
fn write_match(
    alloc: Global,
    plan: &PlanRow,
    day: &DayPlan,
    airing: &AiredDay,
) -> Result<(Reply, Change), Unavailable>
    ensures { IfOk result (λ d. d ≡ airing_decision plan.now day.now airing.now AiringCommand.WriteMatch) }
{
    match day.state() {
        DayState::NotThere => Ok((Reply::Refused(Refusal::of(Code::NoDay)), Change::Nothing)),
        DayState::Open => Ok((
            Reply::Refused(Refusal::of(Code::NotSealed)),
            Change::Nothing,
        )),
        DayState::Sealed => {
            if airing.frames() != day.frames() {
                return Err(Unavailable);
            }
            let text = match_table(alloc, plan, day, airing)?;
            Ok((Reply::Table(TableText::of(text)), Change::Nothing))
        }
    }
}
