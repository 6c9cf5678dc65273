//! The vault table.
ghost use Rattle.std.specs.Prelude.{◌≡◌, ◌≤◌, ◌+◌, ◌++◌, length, OnOk, OnErr};
ghost use Rattle.std.specs.List.{flat_map};
ghost use Rattle.std.specs.Io.KnownBytes.{Appends};
ghost use Rattle.vault_core.specs.Rules.{slots_of};
ghost use Rattle.report_texts.specs.Output.{AppendsPart};
ghost use Rattle.report_texts.specs.Fields.{left_in};
ghost use Rattle.report_texts.specs.Vault.{slot_field, tape_line, vault_end, vault_text};

use crate::columns::{push_left, push_number};
use channel_plan::PlanRow;
use report_texts::{LineBuffer, WriteFault, push, push_decimal, send};
use std::io::Write;
use vault_core::{Barcode, Tape};

#[tactic(auto, using(crate::proofs::LengthLemmas::barcode_short))]
fn push_barcode(line: &mut LineBuffer, barcode: &Barcode)
    requires { length line.old.items + 16 ≤ 256 }
    ensures items { line.new.items ≡ line.old.items ++ left_in 8 barcode.now }
    ensures len { length line.new.items ≤ length line.old.items + 16 }
{
    barcode.keeps_the_form();
    push_left(line, 8, barcode.as_bytes());
}

// The slot in which a tape stands, or that it is out.
fn push_slot(line: &mut LineBuffer, slot: Option<u16>)
    requires { length line.old.items + 14 ≤ 256 }
    ensures items { line.new.items ≡ line.old.items ++ slot_field slot }
    ensures len { length line.new.items ≤ length line.old.items + 14 }
{
    match slot {
        Some(slot) => push_number(line, 4, u32::from(slot)),
        None => push(line, b" out"),
    }
}

fn tape_line(tape: &Tape) -> LineBuffer
    ensures { result.items ≡ tape_line tape.now }
{
    let mut line = LineBuffer::new();
    push_number(&mut line, 4, u32::from(tape.n));
    push(&mut line, b" ");
    push_barcode(&mut line, &tape.barcode);
    push(&mut line, b" ");
    push_slot(&mut line, tape.slot);
    push(&mut line, b"\n");
    line
}

/// Writes the line of one tape.
pub fn write_tape<W: Write>(output: &mut W, tape: &Tape) -> Result<(), WriteFault>
    ensures ok { OnOk result (Appends (W.contents output.old) (W.contents output.new) (tape_line tape.now)) }
    ensures err { OnErr result (AppendsPart (W.contents output.old) (W.contents output.new) (tape_line tape.now)) }
{
    send(output, tape_line(tape).as_slice())
}

fn end_line(tapes: usize, shelved: usize, slots: u16) -> LineBuffer
    ensures { result.items ≡ vault_end tapes shelved slots }
{
    let mut line = LineBuffer::new();
    push(&mut line, b"TAPES ");
    push_decimal(&mut line, tapes);
    push(&mut line, b" SHELVED ");
    push_decimal(&mut line, shelved);
    push(&mut line, b" SLOTS ");
    push_decimal(&mut line, slots);
    push(&mut line, b"\n");
    line
}

/// Writes the last line: how many tapes there are, how many of them stand in a slot, and how many slots the channel
/// has.
pub fn write_vault_end<W: Write>(
    output: &mut W,
    tapes: usize,
    shelved: usize,
    slots: u16,
) -> Result<(), WriteFault>
    ensures ok { OnOk result (Appends (W.contents output.old) (W.contents output.new) (vault_end tapes shelved slots)) }
    ensures err { OnErr result
        (AppendsPart (W.contents output.old) (W.contents output.new) (vault_end tapes shelved slots)) }
{
    send(output, end_line(tapes, shelved, slots).as_slice())
}

/// How many of these tapes stand in a slot.
pub fn count_shelved(tapes: &[Tape]) -> usize
    ensures { result ≡ length (slots_of tapes.now) }
{
    tapes.iter().filter_map(|t| t.slot).count()
}

/// Writes the line of each tape, in their order. Where the writer fails, a beginning of these lines was written.
pub fn write_tapes<W: Write>(output: &mut W, tapes: &[Tape]) -> Result<(), WriteFault>
    ensures ok { OnOk result (Appends (W.contents output.old) (W.contents output.new) (flat_map tape_line tapes.now)) }
    ensures err { OnErr result
        (AppendsPart (W.contents output.old) (W.contents output.new) (flat_map tape_line tapes.now)) }
{
    for tape in tapes {
        write_tape(output, tape)?;
    }
    Ok(())
}

/// Writes the vault table of one channel: the line of each tape, by number, and the last line.
pub fn write_vault<W: Write>(
    output: &mut W,
    plan: &PlanRow,
    tapes: &[Tape],
) -> Result<(), WriteFault>
    ensures ok { OnOk result (Appends (W.contents output.old) (W.contents output.new) (vault_text plan.now tapes.now)) }
    ensures err { OnErr result
        (AppendsPart (W.contents output.old) (W.contents output.new) (vault_text plan.now tapes.now)) }
{
    write_tapes(output, tapes)?;
    write_vault_end(output, tapes.len(), count_shelved(tapes), plan.slots)
}
