//! The runs of all tracks, as lines.
ghost use Rattle.std.specs.Prelude.{All, ◌≡◌, ◌++◌, IfOk, OnOk, decimal};
ghost use Rattle.edl.specs.EntryShown.{entries_of};
ghost use Rattle.edl.specs.InDay.{IsEntryInDay};
ghost use Rattle.timecode.specs.Label.{label_of_frame};
ghost use Rattle.edl_diff.specs.Lines.{IsComparison, label_said, run_line, run_said, status_name, track_lines};
ghost use Rattle.edl_diff.specs.Lines.{track_name};

use crate::comparing::compare;
use crate::status::{Run, Status};
use crate::track::{TRACKS, Track};
use edl::Event;
use itoa::Buffer;
use std::alloc::{AllocError, Global};
use timecode::{Rate, to_timecode};

fn push(out: &mut Vec<u8>, text: &str) -> Result<(), AllocError>
    ensures { OnOk result (out.new.items ≡ out.old.items ++ text.now) }
{
    out.extend_from_slice(text.as_bytes())
}

fn push_number(out: &mut Vec<u8>, number: u32) -> Result<(), AllocError>
    ensures { OnOk result (out.new.items ≡ out.old.items ++ decimal number) }
{
    let mut digits = Buffer::new();
    out.extend_from_slice(digits.format(number).as_bytes())
}

#[tactic(auto, using(crate::proofs::Behind::behind))]
fn push_track(out: &mut Vec<u8>, track: Track) -> Result<(), AllocError>
    ensures { OnOk result (out.new.items ≡ out.old.items ++ track_name track) }
{
    match track {
        Track::Picture => push(out, "V"),
        Track::Sound(channel) => {
            push(out, "A")?;
            push_number(out, u32::from(channel))
        }
    }
}

// The label of a frame, which each frame of a day has.
fn push_label(out: &mut Vec<u8>, rate: Rate, frame: u32) -> Result<(), AllocError>
    ensures { OnOk result (out.new.items ≡ out.old.items ++ label_said (label_of_frame rate frame)) }
{
    match to_timecode(frame, rate) {
        Ok(label) => out.extend_from_slice(&label.bytes()),
        Err(_) => Ok(()),
    }
}

fn status_name(status: Status) -> &'static str
    ensures { result.now ≡ status_name status }
{
    match status {
        Status::Empty => "EMPTY",
        Status::Same => "SAME",
        Status::Slip => "SLIP",
        Status::Other => "OTHER",
        Status::OnlyOne => "ONLY A",
        Status::OnlyOther => "ONLY B",
    }
}

// As `V 06:00:00:00 250 SAME`.
#[tactic(auto, using(crate::proofs::Behind::behind), unfolding(crate::specs::Lines::run_line))]
fn push_line(out: &mut Vec<u8>, rate: Rate, track: Track, run: Run) -> Result<(), AllocError>
    ensures { OnOk result (out.new.items ≡ out.old.items ++ run_line rate track run) }
{
    push_track(out, track)?;
    push(out, " ")?;
    push_label(out, rate, run.position)?;
    push(out, " ")?;
    push_number(out, run.frames)?;
    push(out, " ")?;
    push(out, status_name(run.status))?;
    push(out, "\n")
}

// A run in which nothing is shown has no line.
fn push_run(out: &mut Vec<u8>, rate: Rate, track: Track, run: Run) -> Result<(), AllocError>
    ensures { OnOk result (out.new.items ≡ out.old.items ++ run_said rate track run run.status) }
{
    match run.status {
        Status::Empty => Ok(()),
        _ => push_line(out, rate, track, run),
    }
}

fn push_runs(out: &mut Vec<u8>, rate: Rate, track: Track, runs: &[Run]) -> Result<(), AllocError>
    ensures { OnOk result (out.new.items ≡ out.old.items ++ track_lines rate track runs.now) }
{
    for run in runs {
        push_run(out, rate, track, *run)?;
    }
    Ok(())
}

/// The lines of the runs of all tracks, one track behind the other: of each run its track, the label at which it
/// begins, its frames and its status. A run in which neither list shows anything has no line.
pub fn comparison_lines(
    alloc: Global,
    rate: Rate,
    one: &[Event<'_>],
    other: &[Event<'_>],
) -> Result<Vec<u8>, AllocError>
    requires one { All (IsEntryInDay rate) (entries_of one.now) }
    requires other { All (IsEntryInDay rate) (entries_of other.now) }
    ensures { IfOk result (λ text. IsComparison rate (entries_of one.now) (entries_of other.now) text.items) }
{
    let mut out = Vec::new(alloc);
    for track in &TRACKS {
        let runs = compare(alloc, rate, *track, one, other)?;
        push_runs(&mut out, rate, *track, &runs)?;
    }
    Ok(out)
}
