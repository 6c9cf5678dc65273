//! The plan table.
ghost use Rattle.std.specs.Prelude.{◌≡◌, ◌≤◌, ◌+◌, ◌++◌, ◌↔◌, true, false, length, Err, IsOk, IfOk, OnOk, IfErr, OnErr};
ghost use Rattle.std.specs.List.{flat_map};
ghost use Rattle.std.specs.Io.KnownBytes.{Appends, Keeps};
ghost use Rattle.report_texts.specs.Output.{AppendsPart};
ghost use Rattle.playlist_core.specs.Limits.{most_items};
ghost use Rattle.playlist_core.specs.Item.{kind_text};
ghost use Rattle.playlist_core.specs.Source.{source_reel};
ghost use Rattle.report_texts.specs.Fields.{left_in, has_label};
ghost use Rattle.report_texts.specs.Playlist.{day_state, frames_of as frames_in, item_line, plan_end, plan_head, plan_text};
ghost use Rattle.report_texts.specs.Playlist.{items_have_labels};

use crate::columns::{push_digits, push_left, push_number};
use crate::fields::{push_clip_reel, push_label};
use crate::lent::push_lent_reel;
use channel_plan::PlanRow;
use playlist_core::{DayPlan, DayState, EditKind, Item, Source, label_at};
use report_texts::{LineBuffer, RowFault, WriteFault, push, push_decimal, send};
use std::io::Write;

// Whether a day is open or sealed.
fn push_state(line: &mut LineBuffer, state: DayState)
    requires { length line.old.items + 6 ≤ 256 }
    ensures items { line.new.items ≡ line.old.items ++ day_state state }
    ensures len { length line.new.items ≤ length line.old.items + 6 }
{
    match state {
        DayState::NotThere | DayState::Open => push(line, b"OPEN"),
        DayState::Sealed => push(line, b"SEALED"),
    }
}

fn head_line(day: &DayPlan) -> LineBuffer
    ensures { result.items ≡ plan_head day.now }
{
    let mut line = LineBuffer::new();
    push(&mut line, b"DAY ");
    push_decimal(&mut line, day.number());
    push(&mut line, b" ");
    push_state(&mut line, day.state());
    push(&mut line, b"\n");
    line
}

/// Writes the first line: the day's number, and whether it is open or sealed.
pub fn write_plan_head<W: Write>(output: &mut W, day: &DayPlan) -> Result<(), WriteFault>
    ensures ok { OnOk result (Appends (W.contents output.old) (W.contents output.new) (plan_head day.now)) }
    ensures err { OnErr result (AppendsPart (W.contents output.old) (W.contents output.new) (plan_head day.now)) }
{
    send(output, head_line(day).as_slice())
}

fn kind_text(kind: EditKind) -> LineBuffer
    ensures items { result.items ≡ kind_text kind }
    ensures len { length result.items ≤ 14 }
{
    let mut text = LineBuffer::new();
    match kind {
        EditKind::Cut => push(&mut text, b"C"),
        EditKind::Dissolve => push(&mut text, b"D"),
        EditKind::Wipe(number) => {
            push(&mut text, b"W");
            push_digits(&mut text, 3, u32::from(number));
        }
    }
    text
}

fn push_kind(line: &mut LineBuffer, kind: EditKind)
    requires { length line.old.items + 18 ≤ 256 }
    ensures items { line.new.items ≡ line.old.items ++ left_in 4 (kind_text kind) }
    ensures len { length line.new.items ≤ length line.old.items + 18 }
{
    push_left(line, 4, kind_text(kind).as_slice());
}

fn reel_text(source: Source) -> LineBuffer
    ensures items { result.items ≡ source_reel source }
    ensures len { length result.items ≤ 28 }
{
    let mut text = LineBuffer::new();
    match source {
        Source::Black => push(&mut text, b"BL"),
        Source::Bars => push(&mut text, b"BARS"),
        Source::Own(number) => push_clip_reel(&mut text, number.get()),
        Source::Lent(owner, number) => push_lent_reel(&mut text, owner.get(), number.get()),
    }
    text
}

fn push_reel(line: &mut LineBuffer, source: Source)
    requires { length line.old.items + 36 ≤ 256 }
    ensures items { line.new.items ≡ line.old.items ++ left_in 8 (source_reel source) }
    ensures len { length line.new.items ≤ length line.old.items + 36 }
{
    push_left(line, 8, reel_text(source).as_slice());
}

fn item_line(plan: &PlanRow, item: &Item) -> Result<LineBuffer, RowFault>
    ensures variant { IsOk result ↔ (has_label plan.now.rate item.now.src_first ≡ true) }
    ensures ok { IfOk result (λ line. line.items ≡ item_line plan.now item.now) }
    ensures err { IfErr result (λ e. e ≡ RowFault.NoLabel) }
{
    let mut line = LineBuffer::new();
    push_number(&mut line, 4, u32::from(item.n));
    push(&mut line, b" ");
    push(&mut line, &label_at(plan, item.pos).bytes());
    push(&mut line, b" ");
    push_number(&mut line, 7, item.frames);
    push(&mut line, b" ");
    push_kind(&mut line, item.kind);
    push(&mut line, b" ");
    push_digits(&mut line, 3, u32::from(item.mix));
    push(&mut line, b" ");
    push_reel(&mut line, item.src);
    push(&mut line, b" ");
    push_label(&mut line, plan.rate, item.src_first)?;
    push(&mut line, b"\n");
    Ok(line)
}

/// Writes the line of one item of a day of this channel. An item whose first source frame is none of a day has no
/// label: the call fails, and nothing of its line is written. It fails otherwise only where the writer does, and then a
/// beginning of the line was written.
pub fn write_item<W: Write>(output: &mut W, plan: &PlanRow, item: &Item) -> Result<(), RowFault>
    ensures ok { OnOk result
        (Appends (W.contents output.old) (W.contents output.new) (item_line plan.now item.now)) }
    ensures err { OnErr result
        (AppendsPart (W.contents output.old) (W.contents output.new) (item_line plan.now item.now)) }
    ensures unlabelled { (result ≡ Err RowFault.NoLabel) ↔ (has_label plan.now.rate item.now.src_first ≡ false) }
    ensures kept { result ≡ Err RowFault.NoLabel → Keeps (W.contents output.old) (W.contents output.new) }
{
    let line = item_line(plan, item)?;
    send(output, line.as_slice())?;
    Ok(())
}

/// Writes the line of each item, in their order. It fails, with a beginning of these lines written, where the writer
/// does, and at an item whose first source frame is none of a day.
pub fn write_items<W: Write>(output: &mut W, plan: &PlanRow, items: &[Item]) -> Result<(), RowFault>
    ensures ok { OnOk result
        (Appends (W.contents output.old) (W.contents output.new) (flat_map (item_line plan.now) items.now)) }
    ensures err { OnErr result
        (AppendsPart (W.contents output.old) (W.contents output.new) (flat_map (item_line plan.now) items.now)) }
    ensures unlabelled { result ≡ Err RowFault.NoLabel → items_have_labels plan.now items.now ≡ false }
{
    for item in items {
        write_item(output, plan, item)?;
    }
    Ok(())
}

/// How many frames the items of a day have.
pub(crate) fn frames_of(items: &[Item]) -> u64
    requires { length items.now ≤ most_items }
    ensures { result ≡ frames_in items.now }
{
    let mut frames = 0;
    for item in items {
        frames += u64::from(item.frames);
    }
    frames
}

fn end_line(day: &DayPlan) -> LineBuffer
    ensures { result.items ≡ plan_end day.now }
{
    day.keep_the_rules();
    let mut line = LineBuffer::new();
    push(&mut line, b"ITEMS ");
    push_decimal(&mut line, day.items().len());
    push(&mut line, b" FRAMES ");
    push_decimal(&mut line, frames_of(day.items()));
    push(&mut line, b" OF ");
    push_decimal(&mut line, day.frames());
    push(&mut line, b"\n");
    line
}

/// Writes the last line: how many items there are, how many frames they have, and how many the day has.
pub fn write_plan_end<W: Write>(output: &mut W, day: &DayPlan) -> Result<(), WriteFault>
    ensures ok { OnOk result (Appends (W.contents output.old) (W.contents output.new) (plan_end day.now)) }
    ensures err { OnErr result (AppendsPart (W.contents output.old) (W.contents output.new) (plan_end day.now)) }
{
    send(output, end_line(day).as_slice())
}

/// Writes the plan table of a day of this channel: its first line, the line of each item, by position, and the last
/// line. It fails, with a beginning of the text written, where the writer does, and at an item whose first source frame
/// is none of a day.
pub fn write_plan<W: Write>(output: &mut W, plan: &PlanRow, day: &DayPlan) -> Result<(), RowFault>
    ensures ok { OnOk result (Appends (W.contents output.old) (W.contents output.new) (plan_text plan.now day.now)) }
    ensures err { OnErr result
        (AppendsPart (W.contents output.old) (W.contents output.new) (plan_text plan.now day.now)) }
    ensures unlabelled { result ≡ Err RowFault.NoLabel → items_have_labels plan.now day.now.items ≡ false }
{
    write_plan_head(output, day)?;
    write_items(output, plan, day.items())?;
    write_plan_end(output, day)?;
    Ok(())
}
