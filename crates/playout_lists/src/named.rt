//! The edit lists in files that words name.
//!
//! No contract knows which bytes a file holds. So [`Lists::gives`] stands for that, and each clause is of any machine.
ghost use Rattle.std.specs.Prelude.{◌≡◌, ◌⊎◌, ◌&&◌, ◌++◌, ◌∷◌, [], ℕ, List, Option, true, false, IfOk, IfErr, OnOk};
ghost use Rattle.std.specs.Io.KnownBytes.{Appends};
ghost use Rattle.report_texts.specs.Output.{AppendsPart};
ghost use Rattle.timecode.specs.declared.rates.Rate.{Rate};
ghost use Rattle.playout_lists.specs.declared.fault.Fault.{Fault};
ghost use Rattle.playout_lists.specs.Fault.{line_of};
ghost use Rattle.edl.specs.Texts.{texts_of};
ghost use Rattle.playout_lists.specs.Counts.{text_of_counts};
ghost use Rattle.playout_lists.specs.Named.{ChecksFiles, FileHas, FileHolds, FileIs, SaysFile, StopsAtFile, StopsSaying};
ghost use Rattle.playout_lists.specs.Named.{StopsTaking, TakesFile, named_line, said_of};
ghost use Rattle.playout_lists.specs.Telling.{Tells, has_told};

use crate::checking::{Counts, counts_in, text_of};
use crate::fault::Fault;
use crate::fault_text::line_of;
use crate::fault_writer::{FaultLines, FaultWriter};
use crate::streams::{InputFault, StreamFault, read_input};
use edl::LIST_LIMIT;
use report_texts::print_line;
use std::alloc::{AllocError, Global};
use std::io::{Read, Write};
use timecode::Rate;

/// Where lists are kept, by the names of their files.
pub trait Lists {
    /// A file that was opened.
    type Opened: Read + Drop;

    /// As the file of this name was opened, its reader had these bytes to give, as far as it tells.
    ghost gives: { Self → List ℕ → Option (List ℕ) → Type 0 };

    /// Opens the file of this name.
    fn open_list(&self, file: &str) -> Result<Self::Opened, Fault>
        ensures gives { IfOk result (λ opened. gives self.now file.now (Self.Opened.remaining opened)) }
        ensures err { IfErr result (λ fault. fault ≡ Fault.Open) };
}

/// All of a file.
pub(crate) fn read_file<M: Lists>(alloc: Global, machine: &M, file: &str) -> Result<Vec<u8>, Fault>
    ensures ok { IfOk result (λ text. FileHolds (M.gives machine.now) file.now text.items) }
    ensures err { IfErr result (λ fault. (rate : Rate) → FileHas (M.gives machine.now) rate file.now fault) }
{
    let mut opened = machine.open_list(file)?;
    match read_input(alloc, &mut opened, LIST_LIMIT) {
        Ok(text) => Ok(text),
        Err(fault) => Err(Fault::Stream(StreamFault::Input(fault))),
    }
}

// What the list in a file holds, or the fault of the file.
fn check_file<M: Lists>(alloc: Global, machine: &M, rate: Rate, file: &str) -> Result<Counts, Fault>
    ensures { FileIs (M.gives machine.now) rate file.now (said_of result) }
{
    let text = match read_file(alloc, machine, file) {
        Ok(text) => text,
        Err(fault) => return Err(fault),
    };
    match counts_in(alloc, rate, &text) {
        Ok(counts) => Ok(counts),
        Err(fault) => Err(Fault::List(fault)),
    }
}

/// A text behind the name of its file.
#[tactic(auto, unfolding(crate::specs::Named::named_line))]
pub(crate) fn named_line(alloc: Global, file: &str, line: &[u8]) -> Result<Vec<u8>, AllocError>
    ensures { IfOk result (λ text. text.items ≡ named_line file.now line.now) }
{
    let mut text = Vec::new(alloc);
    text.extend_from_slice(file.as_bytes())?;
    text.extend_from_slice(b": ")?;
    text.extend_from_slice(line)?;
    Ok(text)
}

// Writes what the list in a file holds, behind the file's name.
fn print_file<W: Write>(
    alloc: Global,
    file: &str,
    counts: Counts,
    output: &mut W,
) -> Result<bool, Fault>
    ensures ok { IfOk result (λ fine. (fine ≡ true) × Appends (W.contents output.old) (W.contents output.new)
        (named_line file.now (text_of_counts counts) ++ 10 ∷ [])) }
    ensures err { IfErr result (λ fault. ((fault ≡ Fault.Stream StreamFault.Write)
        ⊎ (fault ≡ Fault.Stream (StreamFault.Input InputFault.Unavailable)))
        × AppendsPart (W.contents output.old) (W.contents output.new)
        (named_line file.now (text_of_counts counts) ++ 10 ∷ [])) }
{
    let line = text_of(counts);
    let Ok(text) = named_line(alloc, file, line.as_slice()) else {
        return Err(Fault::Stream(StreamFault::Input(InputFault::Unavailable)));
    };
    match print_line(output, &text) {
        Ok(()) => Ok(true),
        Err(_) => Err(Fault::Stream(StreamFault::Write)),
    }
}

/// Says a fault behind the name of its file.
pub(crate) fn tell_file<E: FaultWriter>(
    alloc: Global,
    file: &str,
    fault: Fault,
    faults: &mut FaultLines<E>,
) -> Result<(), Fault>
    ensures ok { OnOk result (Tells (has_told E.contents faults.old) (has_told E.contents faults.new)
        (named_line file.now (line_of fault))) }
    ensures err { IfErr result (λ fault. (fault ≡ Fault.Stream (StreamFault.Input InputFault.Unavailable))
        × (has_told E.contents faults.new ≡ has_told E.contents faults.old)) }
{
    let line = line_of(fault);
    let Ok(text) = named_line(alloc, file, line.as_slice()) else {
        return Err(Fault::Stream(StreamFault::Input(InputFault::Unavailable)));
    };
    faults.tell(&text);
    Ok(())
}

// The same, of a file that holds no list.
fn tell_none<E: FaultWriter>(
    alloc: Global,
    file: &str,
    fault: Fault,
    faults: &mut FaultLines<E>,
) -> Result<bool, Fault>
    ensures ok { IfOk result (λ fine. (fine ≡ false)
        × Tells (has_told E.contents faults.old) (has_told E.contents faults.new)
        (named_line file.now (line_of fault))) }
    ensures err { IfErr result (λ fault. (fault ≡ Fault.Stream (StreamFault.Input InputFault.Unavailable))
        × (has_told E.contents faults.new ≡ has_told E.contents faults.old)) }
{
    match tell_file(alloc, file, fault, faults) {
        Ok(()) => Ok(false),
        Err(fault) => Err(fault),
    }
}

// Says what a file holds, or its fault, and whether it holds a list.
fn say_file<W: Write, E: FaultWriter>(
    alloc: Global,
    file: &str,
    said: Result<Counts, Fault>,
    output: &mut W,
    faults: &mut FaultLines<E>,
) -> Result<bool, Fault>
    ensures ok { IfOk result (SaysFile file.now (said_of said) (W.contents output.old) (W.contents output.new)
        (has_told E.contents faults.old) (has_told E.contents faults.new)) }
    ensures err { IfErr result (StopsSaying file.now (said_of said) (W.contents output.old) (W.contents output.new)
        (has_told E.contents faults.old) (has_told E.contents faults.new)) }
{
    match said {
        Ok(counts) => print_file(alloc, file, counts, output),
        Err(fault) => tell_none(alloc, file, fault, faults),
    }
}

// Checks a file, and says what it holds, or its fault.
fn take_file<M: Lists, W: Write, E: FaultWriter>(
    alloc: Global,
    machine: &M,
    rate: Rate,
    file: &str,
    output: &mut W,
    faults: &mut FaultLines<E>,
) -> Result<bool, Fault>
    ensures ok { IfOk result (TakesFile (M.gives machine.now) rate file.now
        (W.contents output.old) (W.contents output.new)
        (has_told E.contents faults.old) (has_told E.contents faults.new)) }
    ensures err { IfErr result (StopsTaking (M.gives machine.now) rate file.now
        (W.contents output.old) (W.contents output.new)
        (has_told E.contents faults.old) (has_told E.contents faults.new)) }
{
    let said = check_file(alloc, machine, rate, file);
    say_file(alloc, file, said, output, faults)
}

fn both(one: bool, other: bool) -> bool
    ensures { result ≡ (one && other) }
{
    one && other
}

/// Checks the lists in these files, one after another: what each holds goes to the output as one line, its fault to
/// `faults`, each behind the name of its file. Gives whether all are lists.
pub fn check_files<M: Lists, W: Write, E: FaultWriter>(
    alloc: Global,
    machine: &M,
    rate: Rate,
    files: &[&str],
    output: &mut W,
    faults: &mut FaultLines<E>,
) -> Result<bool, Fault>
    ensures done { IfOk result (ChecksFiles (M.gives machine.now) rate (texts_of files.now)
        (W.contents output.old) (W.contents output.new) (has_told E.contents faults.old)
        (has_told E.contents faults.new)) }
    ensures quiet { IfOk result (λ quiet. quiet ≡ true →
        has_told E.contents faults.new ≡ has_told E.contents faults.old) }
    ensures err { IfErr result (StopsAtFile (M.gives machine.now) rate (texts_of files.now)
        (W.contents output.old) (W.contents output.new) (has_told E.contents faults.old)
        (has_told E.contents faults.new)) }
{
    let mut quiet = true;
    for file in files {
        match take_file(alloc, machine, rate, file, output, faults) {
            Ok(fine) => quiet = both(quiet, fine),
            Err(fault) => return Err(fault),
        }
    }
    Ok(quiet)
}
