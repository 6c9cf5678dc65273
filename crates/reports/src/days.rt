//! The days table.
ghost use Rattle.std.specs.Prelude.{◌≡◌, ◌≤◌, ◌==◌, find, length, OnOk, OnErr};
ghost use Rattle.std.specs.List.{flat_map};
ghost use Rattle.std.specs.Option.{option_map};
ghost use Rattle.std.specs.Io.KnownBytes.{Appends};
ghost use Rattle.report_texts.specs.Output.{AppendsPart};
ghost use Rattle.report_texts.specs.Playlist.{day_state};
ghost use Rattle.report_texts.specs.Days.{batches_of, counts_line, day_counts, day_line, days_end, days_text};

use crate::columns::{push_count, push_left, push_number};
use crate::playlist::frames_of;
use asrun_match::DayAsRun;
use playlist_core::{DayPlan, DayState};
use report_texts::{DayCounts, LineBuffer, WriteFault, push, push_decimal, send};
use std::io::Write;

/// What is told of a day for which so many batches came.
pub fn counts_of(day: &DayPlan, batches: usize) -> DayCounts
    ensures { result ≡ day_counts batches day.now }
{
    day.keep_the_rules();
    DayCounts {
        number: day.number(),
        state: day.state(),
        items: day.items().len(),
        frames: frames_of(day.items()),
        batches,
    }
}

// Whether a day is open or sealed.
fn state_text(state: DayState) -> &'static [u8]
    ensures { result.now ≡ day_state state }
{
    match state {
        DayState::NotThere | DayState::Open => b"OPEN",
        DayState::Sealed => b"SEALED",
    }
}

#[tactic(auto, using(crate::proofs::LengthLemmas::day_state_short))]
fn counts_line(day: DayCounts) -> LineBuffer
    ensures { result.items ≡ counts_line day }
{
    let mut line = LineBuffer::new();
    push_number(&mut line, 5, day.number);
    push(&mut line, b" ");
    push_left(&mut line, 6, state_text(day.state));
    push(&mut line, b" ");
    push_count(&mut line, 4, day.items);
    push(&mut line, b" ");
    push_count(&mut line, 7, day.frames);
    push(&mut line, b" ");
    push_count(&mut line, 2, day.batches);
    push(&mut line, b"\n");
    line
}

/// Writes the line of one day.
pub fn write_day<W: Write>(output: &mut W, day: DayCounts) -> Result<(), WriteFault>
    ensures ok { OnOk result (Appends (W.contents output.old) (W.contents output.new) (counts_line day)) }
    ensures err { OnErr result (AppendsPart (W.contents output.old) (W.contents output.new) (counts_line day)) }
{
    send(output, counts_line(day).as_slice())
}

fn end_line(count: usize) -> LineBuffer
    ensures { result.items ≡ days_end count }
{
    let mut line = LineBuffer::new();
    push(&mut line, b"DAYS ");
    push_decimal(&mut line, count);
    push(&mut line, b"\n");
    line
}

/// Writes the last line: how many days there are.
pub fn write_days_end<W: Write>(output: &mut W, count: usize) -> Result<(), WriteFault>
    ensures ok { OnOk result (Appends (W.contents output.old) (W.contents output.new) (days_end count)) }
    ensures err { OnErr result (AppendsPart (W.contents output.old) (W.contents output.new) (days_end count)) }
{
    send(output, end_line(count).as_slice())
}

// What was aired of the day with this number, if something was.
fn airing_of(aired: &[DayAsRun], day: u32) -> Option<&DayAsRun>
    ensures { option_map (λ a. a.now) result ≡ find (λ a. a.day == day) aired.now }
{
    aired.iter().find(|a| a.day == day)
}

// How many batches came for the day with this number.
fn batches_of(aired: &[DayAsRun], day: u32) -> usize
    ensures { result ≡ batches_of aired.now day }
{
    match airing_of(aired, day) {
        Some(airing) => airing.aired.batches().len(),
        None => 0,
    }
}

// The line of each day, in their order.
fn write_day_lines<W: Write>(
    output: &mut W,
    days: &[DayPlan],
    aired: &[DayAsRun],
) -> Result<(), WriteFault>
    ensures ok { OnOk result
        (Appends (W.contents output.old) (W.contents output.new) (flat_map (day_line aired.now) days.now)) }
    ensures err { OnErr result
        (AppendsPart (W.contents output.old) (W.contents output.new) (flat_map (day_line aired.now) days.now)) }
{
    for day in days {
        write_day(output, counts_of(day, batches_of(aired, day.number())))?;
    }
    Ok(())
}

/// Writes the days table of one channel: the line of each day, by number, and the last line.
pub fn write_days<W: Write>(
    output: &mut W,
    days: &[DayPlan],
    aired: &[DayAsRun],
) -> Result<(), WriteFault>
    ensures ok { OnOk result
        (Appends (W.contents output.old) (W.contents output.new) (days_text aired.now days.now)) }
    ensures err { OnErr result
        (AppendsPart (W.contents output.old) (W.contents output.new) (days_text aired.now days.now)) }
{
    write_day_lines(output, days, aired)?;
    write_days_end(output, days.len())
}
