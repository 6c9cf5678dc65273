//! The lent table.
ghost use Rattle.std.specs.Prelude.{◌≡◌, ◌≤◌, ◌+◌, ◌++◌, ◌↔◌, true, false, length, Err, IsOk, IfOk, OnOk, IfErr, OnErr};
ghost use Rattle.std.specs.List.{flat_map};
ghost use Rattle.std.specs.Io.KnownBytes.{Appends, Keeps};
ghost use Rattle.grant_core.specs.Grant.{lent_reel};
ghost use Rattle.report_texts.specs.Output.{AppendsPart};
ghost use Rattle.report_texts.specs.Fields.{has_label};
ghost use Rattle.report_texts.specs.Lent.{lent_line, lent_end, lent_text, grants_have_labels};

use crate::columns::{push_digits, push_left, push_number};
use crate::fields::{push_label, push_title, push_umid, push_window};
use crate::offers::state_of;
use grant_core::Grant;
use report_texts::{LineBuffer, RowFault, WriteFault, push, push_decimal, send};
use std::io::Write;

/// The reel of a lent clip.
pub(crate) fn push_lent_reel(line: &mut LineBuffer, owner: u16, number: u16)
    requires { length line.old.items + 28 ≤ 256 }
    ensures items { line.new.items ≡ line.old.items ++ lent_reel owner number }
    ensures len { length line.new.items ≤ length line.old.items + 28 }
{
    push(line, b"L");
    push_digits(line, 3, u32::from(owner));
    push_digits(line, 4, u32::from(number));
}

#[tactic(auto, using(crate::proofs::LengthLemmas::state_short, crate::proofs::LengthLemmas::rate_short))]
fn lent_line(grant: &Grant) -> Result<LineBuffer, RowFault>
    ensures variant { IsOk result ↔ (has_label grant.now.offer.rate grant.now.offer.src_first ≡ true) }
    ensures ok { IfOk result (λ line. line.items ≡ lent_line grant.now) }
    ensures err { IfErr result (λ e. e ≡ RowFault.NoLabel) }
{
    let offer = grant.offer;
    let mut line = LineBuffer::new();
    push_lent_reel(&mut line, grant.owner, offer.n);
    push(&mut line, b" ");
    push_left(&mut line, 9, state_of(offer.withdrawn));
    push_window(&mut line, offer.window);
    push(&mut line, b" ");
    push(&mut line, offer.rate.text().as_bytes());
    push(&mut line, b" ");
    push_label(&mut line, offer.rate, offer.src_first)?;
    push(&mut line, b" ");
    push_number(&mut line, 7, offer.frames);
    push(&mut line, b" ");
    push_umid(&mut line, offer.umid);
    push(&mut line, b" ");
    push_title(&mut line, &offer.title);
    push(&mut line, b"\n");
    Ok(line)
}

/// Writes the line of one lent clip, with the label of its first source frame at its owner's rate. A clip whose first
/// frame is none of the day has no label: the call fails, and nothing of its line is written. It fails otherwise only
/// where the writer does, and then a beginning of the line was written.
pub fn write_grant<W: Write>(output: &mut W, grant: &Grant) -> Result<(), RowFault>
    ensures ok { OnOk result (Appends (W.contents output.old) (W.contents output.new) (lent_line grant.now)) }
    ensures err { OnErr result (AppendsPart (W.contents output.old) (W.contents output.new) (lent_line grant.now)) }
    ensures unlabelled { (result ≡ Err RowFault.NoLabel) ↔
        (has_label grant.now.offer.rate grant.now.offer.src_first ≡ false) }
    ensures kept { result ≡ Err RowFault.NoLabel → Keeps (W.contents output.old) (W.contents output.new) }
{
    let line = lent_line(grant)?;
    send(output, line.as_slice())?;
    Ok(())
}

fn end_line(count: usize) -> LineBuffer
    ensures { result.items ≡ lent_end count }
{
    let mut line = LineBuffer::new();
    push(&mut line, b"LENT ");
    push_decimal(&mut line, count);
    push(&mut line, b"\n");
    line
}

/// Writes the last line: how many clips are lent to the channel, withdrawn ones included.
pub fn write_lent_end<W: Write>(output: &mut W, count: usize) -> Result<(), WriteFault>
    ensures ok { OnOk result (Appends (W.contents output.old) (W.contents output.new) (lent_end count)) }
    ensures err { OnErr result (AppendsPart (W.contents output.old) (W.contents output.new) (lent_end count)) }
{
    send(output, end_line(count).as_slice())
}

fn write_lines<W: Write>(output: &mut W, grants: &[Grant]) -> Result<(), RowFault>
    ensures ok { OnOk result
        (Appends (W.contents output.old) (W.contents output.new) (flat_map lent_line grants.now)) }
    ensures err { OnErr result
        (AppendsPart (W.contents output.old) (W.contents output.new) (flat_map lent_line grants.now)) }
    ensures unlabelled { result ≡ Err RowFault.NoLabel → grants_have_labels grants.now ≡ false }
{
    for grant in grants {
        write_grant(output, grant)?;
    }
    Ok(())
}

/// Writes the lent table of one channel: the line of each clip that is lent to it, by owner and number, and the last
/// line. It fails, with a beginning of the text written, where the writer does, and at a clip whose first frame is none
/// of the day.
pub fn write_lent<W: Write>(output: &mut W, grants: &[Grant]) -> Result<(), RowFault>
    ensures ok { OnOk result (Appends (W.contents output.old) (W.contents output.new) (lent_text grants.now)) }
    ensures err { OnErr result (AppendsPart (W.contents output.old) (W.contents output.new) (lent_text grants.now)) }
    ensures unlabelled { result ≡ Err RowFault.NoLabel → grants_have_labels grants.now ≡ false }
{
    write_lines(output, grants)?;
    write_lent_end(output, grants.len())?;
    Ok(())
}
