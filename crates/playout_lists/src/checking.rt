//! Whether a text is an edit list, and what it holds.
ghost use Rattle.std.specs.Prelude.{◌≡◌, ◌≢◌, ◌⊎◌, ◌+◌, ◌<◌, ◌^◌, ◌++◌, ◌∷◌, [], ℕ, count_by, List, false, length, OnOk, IfOk};
ghost use Rattle.std.specs.Prelude.{IfErr, IfSome, Some};
ghost use Rattle.std.specs.Io.KnownBytes.{Appends, Keeps};
ghost use Rattle.edl.specs.Entry.{is_picture};
ghost use Rattle.edl.specs.Faults.{first_fault};
ghost use Rattle.edl.specs.Texts.{texts_of};
ghost use Rattle.edl.specs.EntryShown.{entries_of, entry_shown};
ghost use Rattle.playout_lists.specs.Checking.{ChecksInput, CheckHas, ListTells, note_count, counts_text};
ghost use Rattle.playout_lists.specs.Counts.{text_of_counts};
ghost use Rattle.report_texts.specs.Output.{AppendsPart};

use crate::fault::Fault;
use crate::streams::{StreamFault, read_input};
use channel_plan::ListFault;
use edl::{Event, LIST_LIMIT, read_from_string};
use report_texts::{LineBuffer, print_line, push, push_decimal};
use std::alloc::Global;
use std::io::{Read, Write};
use timecode::Rate;

// How many events are for the picture.
fn pictures(events: &[Event<'_>]) -> usize
    ensures { result ≡ count_by (λ event. is_picture (entry_shown event)) events.now }
{
    events.iter().filter(|event| event.is_picture()).count()
}

// How many notes the head and the events have, if they can be counted.
fn notes_in(head: &[&str], events: &[Event<'_>]) -> Option<usize>
    ensures { IfSome result (λ n. n ≡ length head.now + note_count (entries_of events.now)) }
{
    let mut count = head.len();
    for event in events {
        count = count.checked_add(event.notes.as_slice().len())?;
    }
    Some(count)
}

/// What a list holds.
#[derive(Clone, Copy)]
pub struct Counts {
    pub events: usize,
    pub picture: usize,
    pub sound: usize,
    pub notes: usize,
}

/// As `events 2 picture 2 sound 0 notes 1`.
pub(crate) fn text_of(counts: Counts) -> LineBuffer
    ensures { result.items ≡ text_of_counts counts }
{
    let mut line = LineBuffer::new();
    push(&mut line, b"events ");
    push_decimal(&mut line, counts.events);
    push(&mut line, b" picture ");
    push_decimal(&mut line, counts.picture);
    push(&mut line, b" sound ");
    push_decimal(&mut line, counts.sound);
    push(&mut line, b" notes ");
    push_decimal(&mut line, counts.notes);
    line
}

// What a list holds, if its notes can be counted.
fn counts_of(head: &[&str], events: &[Event<'_>]) -> Option<Counts>
    ensures { IfSome result (λ counts. text_of_counts counts ≡ counts_text (texts_of head.now)
        (entries_of events.now)) }
{
    let notes = notes_in(head, events)?;
    let picture = pictures(events);
    Some(Counts {
        events: events.len(),
        picture,
        sound: events.len() - picture,
        notes,
    })
}

/// What the list of a text holds, or the first fault of the text.
pub(crate) fn counts_in(alloc: Global, rate: Rate, text: &[u8]) -> Result<Counts, ListFault>
    requires { length text.now < 2 ^ 32 }
    ensures ok { IfOk result (λ counts. ListTells rate text.now (text_of_counts counts ++ 10 ∷ [])) }
    ensures err { IfErr result (λ fault. (fault ≡ ListFault.Unavailable)
        ⊎ (first_fault rate false text.now ≡ Some fault)) }
{
    let list = read_from_string(alloc, text, rate, false)?;
    match counts_of(list.head.as_slice(), list.events.as_slice()) {
        Some(counts) => Ok(counts),
        None => Err(ListFault::Unavailable),
    }
}

/// Reads all of the input as an edit list, whose mismatches in length aren't ignored, and writes one line that counts
/// what it holds. A text that is no list has its first fault, and nothing is written.
pub fn check_input<R: Read, W: Write>(
    alloc: Global,
    rate: Rate,
    input: &mut R,
    output: &mut W,
) -> Result<(), Fault>
    ensures ok { OnOk result ((line : List ℕ) × ChecksInput rate line (R.remaining input.old) (R.remaining input.new)
        × Appends (W.contents output.old) (W.contents output.new) line) }
    ensures err { IfErr result (CheckHas rate (R.remaining input.old) (R.remaining input.new)) }
    ensures kept { IfErr result (λ e. e ≢ Fault.Stream StreamFault.Write →
        Keeps (W.contents output.old) (W.contents output.new)) }
    ensures unwritten { IfErr result (λ e. e ≡ Fault.Stream StreamFault.Write → (line : List ℕ)
        × ChecksInput rate line (R.remaining input.old) (R.remaining input.new)
        × AppendsPart (W.contents output.old) (W.contents output.new) line) }
{
    let text = read_input(alloc, input, LIST_LIMIT)?;
    let counts = counts_in(alloc, rate, &text)?;
    print_line(output, text_of(counts).as_slice())?;
    Ok(())
}
