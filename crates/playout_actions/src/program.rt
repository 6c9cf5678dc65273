//! The program over any reader and writers.
ghost use Rattle.std.specs.Prelude.{◌≡◌, ◌≤◌, None, map, string_bytes, bytes_eq, codes};
ghost use Rattle.edl.specs.Texts.{texts_of};
ghost use Rattle.playout_actions.specs.Office.{Office, DoesAsked, DoesCompare, DoesFiles, DoesLabel, DoesWords};
ghost use Rattle.playout_actions.specs.Office.{Explains, office_of};
ghost use Rattle.playout_lists.specs.Telling.{has_told};

use crate::answering::answer_input;
use playout_args::{Action, NoAction, read_words};
use playout_lists::{
    Fault, FaultLines, FaultWriter, Lists, StreamFault, check_files, check_input, compare_files,
    compared_status, count_lines, exit_status, list_input, print_frame, served_status,
};
use report_texts::send;
use std::alloc::Global;
use std::io::{Read, Write};
use timecode::Rate;

// Help was asked for, and told.
const DONE: u8 = 0;

// The words ask for nothing.
const USAGE: u8 = 2;

// Says what the words should be, and the exit status for it: help was asked for, or they are none.
fn explain<W: Write, E: FaultWriter>(
    said: &NoAction,
    output: &mut W,
    faults: &mut FaultLines<E>,
) -> u8
    ensures status { result ≤ 2 }
    ensures quiet { result ≡ 0 → has_told E.contents faults.new ≡ has_told E.contents faults.old }
    ensures says { Explains (record {
      readable_old = None;
      readable_new = None;
      written_old = W.contents output.old;
      written_new = W.contents output.new;
      told_old = has_told E.contents faults.old;
      told_new = has_told E.contents faults.new;
      status = result;
    }) said.now }
{
    match said {
        NoAction::Unavailable => exit_status(Err(Fault::UNAVAILABLE), faults),
        NoAction::Usage(text) => {
            faults.tell(text.as_bytes());
            USAGE
        }
        NoAction::Help(text) => match send(output, text.as_bytes()) {
            Ok(()) => DONE,
            Err(_) => exit_status(Err(Fault::Stream(StreamFault::Write)), faults),
        },
    }
}

// Says the frame of a label, or for `-` answers the lines of the input.
fn tell_frames<R: Read, W: Write, E: FaultWriter>(
    alloc: Global,
    rate: Rate,
    label: &str,
    input: &mut R,
    output: &mut W,
    faults: &mut FaultLines<E>,
) -> u8
    ensures status { result ≤ 2 }
    ensures quiet { result ≡ 0 → has_told E.contents faults.new ≡ has_told E.contents faults.old }
    ensures does { DoesLabel (bytes_eq label.now (codes "-")) (office_of R.remaining W.contents E.contents
        input.old input.new output.old output.new faults.old faults.new result) rate label.now }
{
    if label == "-" {
        exit_status(count_lines(alloc, rate, input, output), faults)
    } else {
        exit_status(print_frame(rate, label, output), faults)
    }
}

// Does what is asked of lists in files.
fn do_files<M: Lists, W: Write, E: FaultWriter>(
    alloc: Global,
    machine: &M,
    rate: Rate,
    files: &[&str],
    output: &mut W,
    faults: &mut FaultLines<E>,
) -> u8
    ensures status { result ≤ 2 }
    ensures quiet { result ≡ 0 → has_told E.contents faults.new ≡ has_told E.contents faults.old }
    ensures does { DoesFiles (M.gives machine.now) (record {
      readable_old = None;
      readable_new = None;
      written_old = W.contents output.old;
      written_new = W.contents output.new;
      told_old = has_told E.contents faults.old;
      told_new = has_told E.contents faults.new;
      status = result;
    }) rate (texts_of files.now) }
{
    let done = check_files(alloc, machine, rate, files, output, faults);
    served_status(done, faults)
}

fn do_compare<M: Lists, W: Write, E: FaultWriter>(
    alloc: Global,
    machine: &M,
    rate: Rate,
    one: &str,
    other: &str,
    output: &mut W,
    faults: &mut FaultLines<E>,
) -> u8
    ensures status { result ≤ 2 }
    ensures quiet { result ≡ 0 → has_told E.contents faults.new ≡ has_told E.contents faults.old }
    ensures does { DoesCompare (M.gives machine.now) (record {
      readable_old = None;
      readable_new = None;
      written_old = W.contents output.old;
      written_new = W.contents output.new;
      told_old = has_told E.contents faults.old;
      told_new = has_told E.contents faults.new;
      status = result;
    }) rate one.now other.now }
{
    let done = compare_files(alloc, machine, rate, one, other, output);
    compared_status(alloc, done, one, other, faults)
}

/// Does what was asked without a database, or says why nothing was, and gives the exit status, as [`office`] does.
#[tactic(auto, unfolding(crate::specs::Office::DoesAsked))]
pub fn do_asked<M: Lists, R: Read, W: Write, E: FaultWriter>(
    alloc: Global,
    machine: &M,
    asked: &Result<Action<'_>, NoAction>,
    input: &mut R,
    output: &mut W,
    faults: &mut FaultLines<E>,
) -> u8
    ensures status { result ≤ 2 }
    ensures quiet { result ≡ 0 → has_told E.contents faults.new ≡ has_told E.contents faults.old }
    ensures does { DoesAsked (M.gives machine.now) (office_of R.remaining W.contents E.contents input.old input.new output.old output.new
        faults.old faults.new result) asked.now }
{
    match asked {
        Err(said) => explain(said, output, faults),
        Ok(Action::Answer(rows)) => exit_status(answer_input(alloc, rows, input, output), faults),
        Ok(Action::Check(rate)) => exit_status(check_input(alloc, *rate, input, output), faults),
        Ok(Action::CheckFiles(rate, files)) => do_files(
            alloc, machine, *rate, files, output, faults,
        ),
        Ok(Action::Compare { rate, one, other }) => do_compare(
            alloc, machine, *rate, one, other, output, faults,
        ),
        Ok(Action::Events(rate, form)) => {
            exit_status(list_input(alloc, *rate, *form, input, output), faults)
        }
        Ok(Action::Timecode(rate, label)) => tell_frames(
            alloc, *rate, label, input, output, faults,
        ),
        Ok(Action::AnswerFile(_, _) | Action::Serve { .. } | Action::Table { .. }) => USAGE,
    }
}

/// Does what the words ask without a database, the program's name left out, and gives the exit status: 0 where it was
/// done or help was asked for, 1 after a fault, which `faults` has as one line, and 2 where the words ask for nothing.
/// The lists in files that they name are those of the machine. What goes over a database is left alone, with status 2.
pub fn office<M: Lists, R: Read, W: Write, E: FaultWriter>(
    alloc: Global,
    machine: &M,
    words: &[String],
    input: &mut R,
    output: &mut W,
    faults: &mut FaultLines<E>,
) -> u8
    ensures status { result ≤ 2 }
    // Status 0 says nothing on standard error.
    ensures quiet { result ≡ 0 → has_told E.contents faults.new ≡ has_told E.contents faults.old }
    ensures does { DoesWords (M.gives machine.now) (office_of R.remaining W.contents E.contents input.old input.new output.old output.new
        faults.old faults.new result) (map string_bytes words.now) }
{
    let asked = read_words(alloc, words);
    do_asked(alloc, machine, &asked, input, output, faults)
}
