//! The edit lists in two files, compared.
ghost use Rattle.std.specs.Prelude.{◌≡◌, ◌≤◌, ◌<◌, ◌^◌, ℕ, List, length, IfOk, IfErr, OnOk, MatchResult};
ghost use Rattle.std.specs.Io.KnownBytes.{Appends};
ghost use Rattle.playout_lists.specs.Comparing.{CompareHas, ComparesFiles, ComparesTexts, TellsComparing, TextsHave};
ghost use Rattle.playout_lists.specs.Comparing.{WriteHas};
ghost use Rattle.playout_lists.specs.Named.{FileHolds, TellsFile};
ghost use Rattle.playout_lists.specs.Telling.{has_told};

use crate::fault::Fault;
use crate::fault_writer::{FaultLines, FaultWriter};
use crate::named::{Lists, read_file, tell_file};
use crate::status::exit_status;
use crate::streams::{InputFault, StreamFault};
use edl::read_from_string;
use edl_diff::comparison_lines;
use report_texts::send;
use std::alloc::Global;
use std::io::Write;
use timecode::Rate;

const DONE: u8 = 0;

const FAULT: u8 = 1;

// Want of memory, for what is read of files.
const MEMORY: Fault = Fault::Stream(StreamFault::Input(InputFault::Unavailable));

/// Why two files aren't compared.
#[derive(Clone, Copy, Debug, PartialEq, Eq)]
pub enum CompareFault {
    /// The first file has this fault.
    First(Fault),
    /// The other file has this fault.
    Second(Fault),
    /// Memory ran out.
    Memory,
    /// The output failed.
    Output,
}

// All of both files, before either is looked at.
fn read_both<M: Lists>(
    alloc: Global,
    machine: &M,
    rate: Rate,
    one: &str,
    other: &str,
) -> Result<(Vec<u8>, Vec<u8>), CompareFault>
    ensures ok { IfOk result (λ texts. FileHolds (M.gives machine.now) one.now texts.0.items
        × FileHolds (M.gives machine.now) other.now texts.1.items) }
    ensures err { IfErr result (CompareHas (M.gives machine.now) rate one.now other.now) }
{
    let text = match read_file(alloc, machine, one) {
        Ok(text) => text,
        Err(fault) => return Err(CompareFault::First(fault)),
    };
    match read_file(alloc, machine, other) {
        Ok(other) => Ok((text, other)),
        Err(fault) => Err(CompareFault::Second(fault)),
    }
}

// The lines of what differs between the lists of two texts.
fn compare_texts(
    alloc: Global,
    rate: Rate,
    one: &[u8],
    other: &[u8],
) -> Result<Vec<u8>, CompareFault>
    requires one { length one.now < 2 ^ 32 }
    requires other { length other.now < 2 ^ 32 }
    ensures ok { IfOk result (λ lines. ComparesTexts rate one.now other.now lines.items) }
    ensures err { IfErr result (TextsHave rate one.now other.now) }
{
    let list = match read_from_string(alloc, one, rate, false) {
        Ok(list) => list,
        Err(fault) => return Err(CompareFault::First(Fault::List(fault))),
    };
    let others = match read_from_string(alloc, other, rate, false) {
        Ok(list) => list,
        Err(fault) => return Err(CompareFault::Second(Fault::List(fault))),
    };
    match comparison_lines(
        alloc,
        rate,
        list.events.as_slice(),
        others.events.as_slice(),
    ) {
        Ok(lines) => Ok(lines),
        Err(_) => Err(CompareFault::Memory),
    }
}

// The lines of what differs between the lists in two files.
fn comparison<M: Lists>(
    alloc: Global,
    machine: &M,
    rate: Rate,
    one: &str,
    other: &str,
) -> Result<Vec<u8>, CompareFault>
    ensures ok { IfOk result (λ lines.
        ComparesFiles (M.gives machine.now) rate one.now other.now lines.items) }
    ensures err { IfErr result (CompareHas (M.gives machine.now) rate one.now other.now) }
{
    let (text, other_text) = read_both(alloc, machine, rate, one, other)?;
    compare_texts(alloc, rate, &text, &other_text)
}

/// Compares the lists in two files frame by frame, and writes a line for each run of one status of each track.
pub fn compare_files<M: Lists, W: Write>(
    alloc: Global,
    machine: &M,
    rate: Rate,
    one: &str,
    other: &str,
    output: &mut W,
) -> Result<(), CompareFault>
    ensures ok { OnOk result ((text : List ℕ) × ComparesFiles (M.gives machine.now) rate one.now other.now text
        × Appends (W.contents output.old) (W.contents output.new) text) }
    ensures err { IfErr result (WriteHas (M.gives machine.now) rate one.now other.now
        (W.contents output.old) (W.contents output.new)) }
{
    let lines = comparison(alloc, machine, rate, one, other)?;
    match send(output, &lines) {
        Ok(()) => Ok(()),
        Err(_) => Err(CompareFault::Output),
    }
}

// Says the fault of a file, and gives the exit status for it.
fn file_status<E: FaultWriter>(
    alloc: Global,
    file: &str,
    fault: Fault,
    faults: &mut FaultLines<E>,
) -> u8
    ensures status { result ≡ 1 }
    ensures told { TellsFile (has_told E.contents faults.old) (has_told E.contents faults.new) file.now fault }
{
    match tell_file(alloc, file, fault, faults) {
        Ok(()) => FAULT,
        Err(fault) => exit_status(Err(fault), faults),
    }
}

/// The exit status of a comparison: 0, or 1 after a fault, which is said in one line, behind the name of the file that
/// has it.
pub fn compared_status<E: FaultWriter>(
    alloc: Global,
    done: Result<(), CompareFault>,
    one: &str,
    other: &str,
    faults: &mut FaultLines<E>,
) -> u8
    ensures { MatchResult done
        (λ _. (result ≡ 0) × (has_told E.contents faults.new ≡ has_told E.contents faults.old))
        (λ fault. (result ≡ 1) × TellsComparing (has_told E.contents faults.old) (has_told E.contents faults.new)
        one.now other.now fault) }
{
    match done {
        Ok(()) => DONE,
        Err(CompareFault::First(fault)) => file_status(alloc, one, fault, faults),
        Err(CompareFault::Second(fault)) => file_status(alloc, other, fault, faults),
        Err(CompareFault::Memory) => exit_status(Err(MEMORY), faults),
        Err(CompareFault::Output) => exit_status(Err(Fault::Stream(StreamFault::Write)), faults),
    }
}
