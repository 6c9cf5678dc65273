//! The events of an edit list, as lines for other programs.
ghost use Rattle.std.specs.Prelude.{◌≡◌, ◌≢◌, ℕ, List, OnOk, IfErr, IfOk};
ghost use Rattle.std.specs.Io.KnownBytes.{Appends, Keeps};
ghost use Rattle.edl.specs.EntryShown.{entries_of};
ghost use Rattle.playout_lists.specs.Checking.{CheckHas};
ghost use Rattle.playout_lists.specs.Listing.{ListsInput, events_text};
ghost use Rattle.report_texts.specs.Output.{AppendsPart};

use crate::fault::Fault;
use crate::streams::{InputFault, StreamFault, read_input};
use edl::{Event, LIST_LIMIT, read_from_string};
use edl_lines::{csv_lines, json_lines};
use playout_args::EventForm;
use report_texts::send;
use std::alloc::{AllocError, Global};
use std::io::{Read, Write};
use timecode::Rate;

// The events in a form.
fn events_text(alloc: Global, form: EventForm, events: &[Event<'_>]) -> Result<Vec<u8>, AllocError>
    ensures { IfOk result (λ text. text.items ≡ events_text form (entries_of events.now)) }
{
    match form {
        EventForm::Json => json_lines(alloc, events),
        EventForm::Csv => csv_lines(alloc, events),
    }
}

/// Reads all of the input as an edit list, whose mismatches in length aren't ignored, and writes its events, a line
/// each. A text that is no list has its first fault, and nothing is written.
pub fn list_input<R: Read, W: Write>(
    alloc: Global,
    rate: Rate,
    form: EventForm,
    input: &mut R,
    output: &mut W,
) -> Result<(), Fault>
    ensures ok { OnOk result ((printed : List ℕ)
        × ListsInput rate form printed (R.remaining input.old) (R.remaining input.new)
        × Appends (W.contents output.old) (W.contents output.new) printed) }
    ensures err { IfErr result (CheckHas rate (R.remaining input.old) (R.remaining input.new)) }
    ensures kept { IfErr result (λ e. e ≢ Fault.Stream StreamFault.Write →
        Keeps (W.contents output.old) (W.contents output.new)) }
    ensures unwritten { IfErr result (λ e. e ≡ Fault.Stream StreamFault.Write → (printed : List ℕ)
        × ListsInput rate form printed (R.remaining input.old) (R.remaining input.new)
        × AppendsPart (W.contents output.old) (W.contents output.new) printed) }
{
    let text = read_input(alloc, input, LIST_LIMIT)?;
    let list = read_from_string(alloc, &text, rate, false)?;
    let Ok(printed) = events_text(alloc, form, list.events.as_slice()) else {
        return Err(Fault::from(InputFault::Unavailable));
    };
    send(output, &printed)?;
    Ok(())
}
