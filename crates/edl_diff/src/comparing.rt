//! Two lists compared on a track.
ghost use Rattle.std.specs.Prelude.{◌≡◌, ◌+◌, ◌-◌, ◌<◌, ◌≤◌, ◌^◌, ◌++◌, ℕ, All, IfOk, OnOk, IfSome, Some, length, max};
ghost use Rattle.edl.specs.EntryShown.{entries_of};
ghost use Rattle.edl.specs.InDay.{IsEntryInDay};
ghost use Rattle.timecode.specs.Counting.{day_length};
ghost use Rattle.edl_diff.specs.Layers.{IsPlaced, ShowsFrom, cell_in, event_shown, piece_at, top_from};
ghost use Rattle.edl_diff.specs.Runs.{AreRunsOf, LieInRow, spelled};
ghost use Rattle.edl_diff.specs.Status.{from_frame, status_of, statuses};

use crate::layers::{behind, event_numbered, lay_out, next_stretch};
use crate::runs::push;
use crate::shown::goes_evenly;
use crate::status::{Run, status_at};
use crate::track::Track;
use edl::Event;
use std::alloc::{AllocError, Global};
use timecode::{Rate, day_frames};

// Adds the frames of a stretch, one by one.
fn push_each(
    runs: &mut Vec<Run>,
    day: u32,
    one: Option<&Event<'_>>,
    other: Option<&Event<'_>>,
    at: u32,
    end: u32,
) -> Result<(), AllocError>
    requires day { day ≤ 2592000 }
    requires within { (at ≤ end) × (end ≤ day) }
    requires one { IfSome (event_shown one) (ShowsFrom day at end) }
    requires other { IfSome (event_shown other) (ShowsFrom day at end) }
    requires behind { length (spelled runs.old.items) ≡ at }
    requires runs { LieInRow 0 runs.old.items }
    ensures spelled { OnOk result (spelled runs.new.items ≡ spelled runs.old.items ++ from_frame
        (λ frame. status_of (cell_in day (event_shown one.entry) frame) (cell_in day (event_shown other.entry) frame))
        at (end - at)) }
    ensures runs { OnOk result (LieInRow 0 runs.new.items) }
{
    for frame in at..end {
        let status = status_at(day, one, other, frame);
        push(
            runs,
            Run {
                position: frame,
                frames: 1,
                status,
            },
        )?;
    }
    Ok(())
}

// Adds a stretch over which each list shows one event or none: as a whole, where each shows frame after frame.
fn push_stretch(
    runs: &mut Vec<Run>,
    day: u32,
    one: Option<&Event<'_>>,
    other: Option<&Event<'_>>,
    at: u32,
    end: u32,
) -> Result<(), AllocError>
    requires day { day ≤ 2592000 }
    requires within { (at < end) × (end ≤ day) }
    requires one { IfSome (event_shown one) (ShowsFrom day at end) }
    requires other { IfSome (event_shown other) (ShowsFrom day at end) }
    requires behind { length (spelled runs.old.items) ≡ at }
    requires runs { LieInRow 0 runs.old.items }
    ensures spelled { OnOk result (spelled runs.new.items ≡ spelled runs.old.items ++ from_frame
        (λ frame. status_of (cell_in day (event_shown one.entry) frame) (cell_in day (event_shown other.entry) frame))
        at (end - at)) }
    ensures runs { OnOk result (LieInRow 0 runs.new.items) }
{
    if !goes_evenly(one) || !goes_evenly(other) {
        return push_each(runs, day, one, other, at, end);
    }
    let status = status_at(day, one, other, at);
    push(
        runs,
        Run {
            position: at,
            frames: end - at,
            status,
        },
    )
}

// Adds the stretch from a frame to an end, if that lies behind it, and gives where the next one begins.
fn take_stretch(
    runs: &mut Vec<Run>,
    day: u32,
    one: Option<&Event<'_>>,
    other: Option<&Event<'_>>,
    at: u32,
    end: u32,
) -> Result<u32, AllocError>
    requires day { day ≤ 2592000 }
    requires within { end ≤ day }
    requires one { IfSome (event_shown one) (ShowsFrom day at end) }
    requires other { IfSome (event_shown other) (ShowsFrom day at end) }
    requires behind { length (spelled runs.old.items) ≡ at }
    requires runs { LieInRow 0 runs.old.items }
    ensures next { IfOk result (λ next. next ≡ max at end) }
    ensures spelled { OnOk result (spelled runs.new.items ≡ spelled runs.old.items ++ from_frame
        (λ frame. status_of (cell_in day (event_shown one.entry) frame) (cell_in day (event_shown other.entry) frame))
        at (end - at)) }
    ensures runs { OnOk result (LieInRow 0 runs.new.items) }
{
    if end <= at {
        return Ok(at);
    }
    push_stretch(runs, day, one, other, at, end)?;
    Ok(end)
}

/// The runs of a track of two lists, in the order of their positions: of all frames of the day.
///
/// Events of lists that were read lie in the day (`in_day` of `edl::read_from_string`).
pub fn compare(
    alloc: Global,
    rate: Rate,
    track: Track,
    one: &[Event<'_>],
    other: &[Event<'_>],
) -> Result<Vec<Run>, AllocError>
    requires one { All (IsEntryInDay rate) (entries_of one.now) }
    requires other { All (IsEntryInDay rate) (entries_of other.now) }
    ensures { IfOk result (λ runs.
        AreRunsOf (statuses (day_length rate) track (entries_of one.now) (entries_of other.now)) runs.items) }
{
    let day = day_frames(rate);
    let laid = lay_out(alloc, day, track, one, 0)?;
    let laid_other = lay_out(alloc, day, track, other, 0)?;
    let mut ones = laid.as_slice();
    let mut others = laid_other.as_slice();
    let mut runs = Vec::new(alloc);
    let mut at = 0;
    while let Some(stretch) = next_stretch(ones, others) {
        let shown = event_numbered(one, stretch.one);
        let shown_other = event_numbered(other, stretch.other);
        let end = stretch.end.min(day);
        at = take_stretch(&mut runs, day, shown, shown_other, at, end)?;
        ones = behind(ones, stretch.end);
        others = behind(others, stretch.end);
    }
    Ok(runs)
}
