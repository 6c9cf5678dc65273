//! The clip table.
ghost use Rattle.std.specs.Prelude.{◌≡◌, ◌≤◌, ◌+◌, ◌++◌, ◌↔◌, true, false, length, Err, IsOk, IfOk, OnOk, IfErr, OnErr};
ghost use Rattle.std.specs.List.{flat_map};
ghost use Rattle.std.specs.Io.KnownBytes.{Appends, Keeps};
ghost use Rattle.report_texts.specs.Output.{AppendsPart};
ghost use Rattle.report_texts.specs.Fields.{has_label};
ghost use Rattle.report_texts.specs.Clips.{state_field, clip_line, clips_end, clip_text, clips_have_labels};

use crate::columns::{push_left, push_number};
use crate::fields::{push_clip_reel, push_label, push_title, push_umid};
use report_texts::{LineBuffer, RowFault, WriteFault, push, push_decimal, send};
use std::io::Write;
use timecode::Rate;
use vault_core::Clip;

fn push_state(line: &mut LineBuffer, retired: bool)
    requires { length line.old.items + 14 ≤ 256 }
    ensures items { line.new.items ≡ line.old.items ++ state_field retired }
    ensures len { length line.new.items ≤ length line.old.items + 14 }
{
    if retired {
        push_left(line, 7, b"retired");
    } else {
        push_left(line, 7, b"active");
    }
}

fn clip_line(rate: Rate, clip: &Clip) -> Result<LineBuffer, RowFault>
    ensures variant { IsOk result ↔ (has_label rate clip.now.src_first ≡ true) }
    ensures ok { IfOk result (λ line. line.items ≡ clip_line rate clip.now) }
    ensures err { IfErr result (λ e. e ≡ RowFault.NoLabel) }
{
    let mut line = LineBuffer::new();
    push_clip_reel(&mut line, clip.n);
    push(&mut line, b" ");
    push_state(&mut line, clip.retired);
    push(&mut line, b" ");
    push_label(&mut line, rate, clip.src_first)?;
    push(&mut line, b" ");
    push_number(&mut line, 7, clip.frames);
    push(&mut line, b" ");
    push_number(&mut line, 4, u32::from(clip.tape));
    push(&mut line, b" ");
    push_umid(&mut line, clip.umid);
    push(&mut line, b" ");
    push_title(&mut line, &clip.title);
    push(&mut line, b"\n");
    Ok(line)
}

/// Writes the line of one clip, with the label of its first source frame at this rate. A clip whose first frame is none
/// of the day has no label: the call fails, and nothing of its line is written. It fails otherwise only where the
/// writer does, and then a beginning of the line was written.
pub fn write_clip<W: Write>(output: &mut W, rate: Rate, clip: &Clip) -> Result<(), RowFault>
    ensures ok { OnOk result (Appends (W.contents output.old) (W.contents output.new) (clip_line rate clip.now)) }
    ensures err { OnErr result
        (AppendsPart (W.contents output.old) (W.contents output.new) (clip_line rate clip.now)) }
    ensures unlabelled { (result ≡ Err RowFault.NoLabel) ↔ (has_label rate clip.now.src_first ≡ false) }
    ensures kept { result ≡ Err RowFault.NoLabel → Keeps (W.contents output.old) (W.contents output.new) }
{
    let line = clip_line(rate, clip)?;
    send(output, line.as_slice())?;
    Ok(())
}

fn end_line(count: usize) -> LineBuffer
    ensures { result.items ≡ clips_end count }
{
    let mut line = LineBuffer::new();
    push(&mut line, b"CLIPS ");
    push_decimal(&mut line, count);
    push(&mut line, b"\n");
    line
}

/// Writes the last line: how many clips there are, retired ones included.
pub fn write_clips_end<W: Write>(output: &mut W, count: usize) -> Result<(), WriteFault>
    ensures ok { OnOk result (Appends (W.contents output.old) (W.contents output.new) (clips_end count)) }
    ensures err { OnErr result (AppendsPart (W.contents output.old) (W.contents output.new) (clips_end count)) }
{
    send(output, end_line(count).as_slice())
}

/// Writes the line of each clip of a channel of this rate, in their order. It fails, with a beginning of these lines
/// written, where the writer does, and at a clip whose first frame is none of the day.
pub fn write_clip_lines<W: Write>(
    output: &mut W,
    rate: Rate,
    clips: &[Clip],
) -> Result<(), RowFault>
    ensures ok { OnOk result
        (Appends (W.contents output.old) (W.contents output.new) (flat_map (clip_line rate) clips.now)) }
    ensures err { OnErr result
        (AppendsPart (W.contents output.old) (W.contents output.new) (flat_map (clip_line rate) clips.now)) }
    ensures unlabelled { result ≡ Err RowFault.NoLabel → clips_have_labels rate clips.now ≡ false }
{
    for clip in clips {
        write_clip(output, rate, clip)?;
    }
    Ok(())
}

/// Writes the clip table of one channel of this rate: the line of each clip, by number, and the last line. It fails,
/// with a beginning of the text written, where the writer does, and at a clip whose first frame is none of the day.
pub fn write_clips<W: Write>(output: &mut W, rate: Rate, clips: &[Clip]) -> Result<(), RowFault>
    ensures ok { OnOk result (Appends (W.contents output.old) (W.contents output.new) (clip_text rate clips.now)) }
    ensures err { OnErr result
        (AppendsPart (W.contents output.old) (W.contents output.new) (clip_text rate clips.now)) }
    ensures unlabelled { result ≡ Err RowFault.NoLabel → clips_have_labels rate clips.now ≡ false }
{
    write_clip_lines(output, rate, clips)?;
    write_clips_end(output, clips.len())?;
    Ok(())
}
