//! A batch that comes to a day.
ghost use Rattle.std.specs.Prelude.{◌≡◌, ◌<◌, ◌^◌, ◌⊎◌, Ok, Err, IfOk, IfErr, OnOk, length};
ghost use Rattle.timecode.specs.Counting.{day_length};
ghost use Rattle.channel_plan.specs.Refusal.{refused};
ghost use Rattle.playlist_core.specs.declared.day.DayState.TheVariants as DayState;
ghost use Rattle.asrun_match.specs.Batches.{batch_frames, batch_in, day_after, if_sealed};

use crate::day::AiredDay;
use crate::reading::read_asrun;
use channel_plan::{Code, PlanRow, Refusal};
use playlist_core::{DayPlan, DayState};
use std::alloc::Global;

/// Takes the text of a batch, and gives the batch's frames. One that is there already with equal rows leaves the day,
/// and has its first reply. The first refusal in this order leaves the day as it was: `NoDay`, `NotSealed`; that of
/// [`read_asrun`]; `BatchDiffers`, where the batch is there with other rows; `BatchesFull`, where its number is over
/// 64; `BatchOrder`, where it isn't the next; `AiredTwice` with the label of the first frame that is aired already, of
/// the first row that has one. Or, of a day that is sealed, it is [`Code::Unavailable`] for want of memory.
pub fn take_batch(
    alloc: Global,
    airing: &mut AiredDay,
    day: &DayPlan,
    plan: &PlanRow,
    number: u32,
    csv: &[u8],
) -> Result<u32, Refusal>
    requires bytes { length csv.now < 2 ^ 32 }
    requires start { plan.now.start < day_length plan.now.rate }
    requires own { airing.old.frames ≡ day_length plan.now.rate }
    ensures taken { IfOk result (λ n. (day_after day.now.state plan.now number csv.now airing.old ≡ Ok airing.new)
        × (n ≡ batch_frames (batch_in number airing.new))) }
    ensures refused { IfErr result (λ e. (airing.new ≡ airing.old)
        × (((e ≡ refused Code.Unavailable) × (day.now.state ≡ DayState.Sealed))
        ⊎ (day_after day.now.state plan.now number csv.now airing.old ≡ Err e))) }
{
    check_sealed(day)?;
    let rows = read_asrun(alloc, csv, plan.rate, plan.start)?;
    airing.take(alloc, plan, number, rows)
}

// Whether a day is sealed, or why not.
fn check_sealed(day: &DayPlan) -> Result<(), Refusal>
    ensures reply { result ≡ if_sealed day.now.state (Ok tt) }
    ensures sealed { OnOk result (day.now.state ≡ DayState.Sealed) }
{
    match day.state() {
        DayState::NotThere => Err(Refusal::of(Code::NoDay)),
        DayState::Open => Err(Refusal::of(Code::NotSealed)),
        DayState::Sealed => Ok(()),
    }
}
