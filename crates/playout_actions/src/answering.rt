//! The messages of an input, and their answers.
ghost use Rattle.std.specs.Prelude.{◌≡◌, ◌⊎◌, List, true, Ok, Err, IfOk, IfErr, OnOk};
ghost use Rattle.channel_plan.specs.declared.plan.PlanRow.{PlanRow};
ghost use Rattle.channel_plan.specs.Plan.{is_plan as is_plan_of};
ghost use Rattle.channel_plan.specs.Refusal.{refused};
ghost use Rattle.edl.specs.Texts.{texts_of};
ghost use Rattle.http_office.specs.Serving.{Serves};
ghost use Rattle.http_office.specs.declared.serving.End.{End};
ghost use Rattle.http_office.specs.declared.serving.ServeFault.{ServeFault};
ghost use Rattle.playout_actions.specs.Answering.{ArePlanTexts, RefusesPlan, ServesPlan, AnswerHas, stream_fault_of};

use channel_plan::{Code, PlanRow, Refusal, is_plan};
use channel_view::MemRows;
use channel_view_model::RowStore;
use http_office::serving::{ServeFault, serve};
use playout_lists::{Fault, InputFault, StreamFault};
use std::alloc::Global;
use std::io::{Read, Write};

// The plan rows of these texts, from left to right.
fn read_plan(alloc: Global, texts: &[&str]) -> Result<Vec<PlanRow>, Refusal>
    ensures ok { IfOk result (λ plan. ArePlanTexts (texts_of texts.now) plan.items) }
    ensures err { IfErr result (λ refusal. (refusal ≡ refused Code.Unavailable)
        ⊎ ((refusal ≡ refused Code.PlanRow) × ((plan : List PlanRow) → ArePlanTexts (texts_of texts.now) plan → ⊥))) }
{
    let mut plan = Vec::new(alloc);
    for text in texts {
        let Ok(row) = PlanRow::read(text.as_bytes()) else {
            return Err(Refusal::of(Code::PlanRow));
        };
        match plan.push(row) {
            Ok(()) => {}
            Err(_) => return Err(Refusal::of(Code::Unavailable)),
        }
    }
    Ok(plan)
}

/// The plan of these texts: first each of them is read, and then no channel may come twice.
pub fn plan_of(alloc: Global, texts: &[&str]) -> Result<Vec<PlanRow>, Refusal>
    ensures texts { IfOk result (λ plan. ArePlanTexts (texts_of texts.now) plan.items) }
    ensures plan { IfOk result (λ plan. is_plan_of plan.items ≡ true) }
    ensures err { IfErr result (RefusesPlan (texts_of texts.now)) }
{
    let plan = read_plan(alloc, texts)?;
    if is_plan(&plan) {
        Ok(plan)
    } else {
        Err(Refusal::of(Code::PlanRow))
    }
}

// A served stream's fault, as it is told.
fn stream_fault(fault: ServeFault) -> StreamFault
    ensures { result ≡ stream_fault_of fault }
{
    match fault {
        ServeFault::Read => StreamFault::Input(InputFault::Read),
        ServeFault::Write => StreamFault::Write,
        ServeFault::Memory => StreamFault::Input(InputFault::Unavailable),
    }
}

/// Answers the messages of an input over the store, one after another, and writes their answers.
pub fn answer_over<S: RowStore, R: Read, W: Write>(
    alloc: Global,
    store: &mut S,
    input: &mut R,
    output: &mut W,
) -> Result<(), StreamFault>
    ensures ok { OnOk result ((end : End) × Serves S.is_clean S.stands_for S.may_leave S.leaves_sets store.old store.new
        (R.remaining input.old) (R.remaining input.new) (W.contents output.old) (W.contents output.new) (Ok end)) }
    ensures err { IfErr result (λ e. (fault : ServeFault) × (e ≡ stream_fault_of fault)
        × Serves S.is_clean S.stands_for S.may_leave S.leaves_sets store.old store.new
        (R.remaining input.old) (R.remaining input.new) (W.contents output.old) (W.contents output.new) (Err fault)) }
{
    match serve(alloc, store, input, output) {
        Ok(_) => Ok(()),
        Err(fault) => Err(stream_fault(fault)),
    }
}

/// Answers the messages of an input over the plan of these texts alone, and writes their answers.
///
/// The plan rows are read first; where they have a fault, nothing is read or written.
pub fn answer_input<R: Read, W: Write>(
    alloc: Global,
    texts: &[&str],
    input: &mut R,
    output: &mut W,
) -> Result<(), Fault>
    ensures ok { OnOk result ((end : End) × ServesPlan (texts_of texts.now) (R.remaining input.old)
        (R.remaining input.new) (W.contents output.old) (W.contents output.new) (Ok end)) }
    ensures err { IfErr result (AnswerHas (texts_of texts.now) (R.remaining input.old) (R.remaining input.new)
        (W.contents output.old) (W.contents output.new)) }
{
    let plan = plan_of(alloc, texts)?;
    let mut store = MemRows::new(alloc, &plan)?;
    match answer_over(alloc, &mut store, input, output) {
        Ok(()) => Ok(()),
        Err(fault) => Err(Fault::Stream(fault)),
    }
}
