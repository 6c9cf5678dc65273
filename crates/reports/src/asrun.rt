//! The match table.
ghost use Rattle.std.specs.Prelude.{◌≡◌, ◌≤◌, ◌+◌, ◌++◌, length, IfOk, OnOk, OnErr};
ghost use Rattle.std.specs.List.{flat_map};
ghost use Rattle.std.specs.Io.KnownBytes.{Appends};
ghost use Rattle.report_texts.specs.Output.{AppendsPart};
ghost use Rattle.playlist_core.specs.Day.{picture_in};
ghost use Rattle.playlist_core.specs.declared.day.DayState.TheVariants as DayState;
ghost use Rattle.asrun_match.specs.Aired.{aired_picture};
ghost use Rattle.asrun_match.specs.Status.{statuses_of};
ghost use Rattle.report_texts.specs.Asrun.{frames_with as frames_in, match_end, match_text, run_line};
ghost use Rattle.report_texts.specs.Asrun.{runs_of, status_table, status_text};

use asrun_match::{AiredDay, Run, Status, reconcile};
use channel_plan::PlanRow;
use playlist_core::{DayPlan, label_at};
use report_texts::{LineBuffer, WriteFault, push, push_decimal, send};
use std::alloc::Global;
use std::io::Write;
use timecode::Unavailable;

fn push_status(line: &mut LineBuffer, status: Status)
    requires { length line.old.items + 6 ≤ 256 }
    ensures items { line.new.items ≡ line.old.items ++ status_text status }
    ensures len { length line.new.items ≤ length line.old.items + 6 }
{
    match status {
        Status::Missed => push(line, b"MISSED"),
        Status::Ok => push(line, b"OK"),
        Status::Slip => push(line, b"SLIP"),
        Status::Wrong => push(line, b"WRONG"),
    }
}

fn run_line(plan: &PlanRow, run: &Run) -> LineBuffer
    ensures { result.items ≡ run_line plan.now run.now }
{
    let mut line = LineBuffer::new();
    push(&mut line, &label_at(plan, run.position).bytes());
    push(&mut line, b" ");
    push_decimal(&mut line, run.frames);
    push(&mut line, b" ");
    push_status(&mut line, run.status);
    push(&mut line, b"\n");
    line
}

/// Writes the line of one run of a day of this channel: the label at which it begins, how many frames it has, and their
/// status. Where the writer fails, a beginning of the line was written.
pub fn write_run<W: Write>(output: &mut W, plan: &PlanRow, run: &Run) -> Result<(), WriteFault>
    ensures ok { OnOk result (Appends (W.contents output.old) (W.contents output.new) (run_line plan.now run.now)) }
    ensures err { OnErr result
        (AppendsPart (W.contents output.old) (W.contents output.new) (run_line plan.now run.now)) }
{
    send(output, run_line(plan, run).as_slice())
}

/// Writes the line of each run, in their order.
pub fn write_runs<W: Write>(output: &mut W, plan: &PlanRow, runs: &[Run]) -> Result<(), WriteFault>
    ensures ok { OnOk result
        (Appends (W.contents output.old) (W.contents output.new) (flat_map (run_line plan.now) runs.now)) }
    ensures err { OnErr result
        (AppendsPart (W.contents output.old) (W.contents output.new) (flat_map (run_line plan.now) runs.now)) }
{
    for run in runs {
        write_run(output, plan, run)?;
    }
    Ok(())
}

// How many frames the runs of a status have. The runs of a day have fewer than 2^32, but those of any list may have
// more than 2^64.
fn frames_with(status: Status, runs: &[Run]) -> u128
    ensures { result ≡ frames_in status runs.now }
{
    let mut frames = 0;
    for run in runs {
        if run.status == status {
            frames += u128::from(run.frames);
        }
    }
    frames
}

fn end_line(runs: &[Run]) -> LineBuffer
    ensures { result.items ≡ match_end runs.now }
{
    let mut line = LineBuffer::new();
    push(&mut line, b"OK ");
    push_decimal(&mut line, frames_with(Status::Ok, runs));
    push(&mut line, b" SLIP ");
    push_decimal(&mut line, frames_with(Status::Slip, runs));
    push(&mut line, b" WRONG ");
    push_decimal(&mut line, frames_with(Status::Wrong, runs));
    push(&mut line, b" MISSED ");
    push_decimal(&mut line, frames_with(Status::Missed, runs));
    push(&mut line, b"\n");
    line
}

/// Writes the last line: how many frames of these runs have each status.
pub fn write_match_end<W: Write>(output: &mut W, runs: &[Run]) -> Result<(), WriteFault>
    ensures ok { OnOk result (Appends (W.contents output.old) (W.contents output.new) (match_end runs.now)) }
    ensures err { OnErr result (AppendsPart (W.contents output.old) (W.contents output.new) (match_end runs.now)) }
{
    send(output, end_line(runs).as_slice())
}

/// Writes the match table of these runs of a day of this channel: the line of each run, in their order, and the last
/// line. Where the writer fails, a beginning of the text was written.
pub fn write_match<W: Write>(output: &mut W, plan: &PlanRow, runs: &[Run]) -> Result<(), WriteFault>
    ensures ok { OnOk result (Appends (W.contents output.old) (W.contents output.new) (match_text plan.now runs.now)) }
    ensures err { OnErr result
        (AppendsPart (W.contents output.old) (W.contents output.new) (match_text plan.now runs.now)) }
{
    write_runs(output, plan, runs)?;
    write_match_end(output, runs)
}

/// The match table of a sealed day of this channel: that of the statuses of its frames, which the plan and what was
/// aired determine. It fails for want of memory, and then gives nothing.
pub fn match_table(
    alloc: Global,
    plan: &PlanRow,
    day: &DayPlan,
    airing: &AiredDay,
) -> Result<Vec<u8>, Unavailable>
    requires day { airing.now.frames ≡ day.now.frames }
    requires sealed { day.now.state ≡ DayState.Sealed }
    ensures runs { let statuses = statuses_of (picture_in day.now) (aired_picture airing.now) in
        IfOk result (λ text. text.items ≡ match_text plan.now (runs_of statuses)) }
    ensures statuses { let statuses = statuses_of (picture_in day.now) (aired_picture airing.now) in
        IfOk result (λ text. text.items ≡ status_table plan.now statuses) }
{
    let runs = reconcile(alloc, day, airing)?;
    let mut text = Vec::new(alloc);
    match write_match(&mut text, plan, runs.as_slice()) {
        Ok(()) => Ok(text),
        Err(_) => Err(Unavailable),
    }
}
