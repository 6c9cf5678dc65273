//! Labels and frame numbers of an input, a line each.
ghost use Rattle.std.specs.Prelude.{◌≡◌, ℕ, List, None, OnOk, IfErr};
ghost use Rattle.std.specs.Io.KnownBytes.{Appends};
ghost use Rattle.playout_lists.specs.Counting.{CountsInput, CountHas};

use crate::fault::Fault;
use crate::streams::{InputFault, StreamFault, read_input};
use report_texts::send;
use std::alloc::Global;
use std::io::{Read, Write};
use timecode::Rate;
use timecode_lines::answer_lines;

/// The most bytes of lines.
const LINES_LIMIT: usize = 1_000_000_000;

/// Reads all of the input as lines of labels and of frame numbers, and writes a line for each: a label's frame, a
/// frame's label, or its fault. The first fault is given once all lines are answered.
pub fn count_lines<R: Read, W: Write>(
    alloc: Global,
    rate: Rate,
    input: &mut R,
    output: &mut W,
) -> Result<(), Fault>
    ensures ok { OnOk result ((text : List ℕ)
        × CountsInput rate text None (R.remaining input.old) (R.remaining input.new)
        × Appends (W.contents output.old) (W.contents output.new) text) }
    ensures err { IfErr result (CountHas rate (R.remaining input.old) (R.remaining input.new)
        (W.contents output.old) (W.contents output.new)) }
{
    let text = read_input(alloc, input, LINES_LIMIT)?;
    let Ok(made) = answer_lines(alloc, rate, &text) else {
        return Err(Fault::from(InputFault::Unavailable));
    };
    match (send(output, &made.text), made.fault) {
        (Err(_), _) => Err(Fault::Stream(StreamFault::Write)),
        (Ok(()), Some(fault)) => Err(Fault::List(fault)),
        (Ok(()), None) => Ok(()),
    }
}
