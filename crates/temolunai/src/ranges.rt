// Ranges of frames.
ghost use Rattle.std.specs.Prelude.{◌≡◌, ◌<◌, ◌↔◌, IsTrue, SomeIff, Option, min, max};
ghost use Rattle.timecode.specs.Range.{end_of, last_of, Covers, Intersects, Overlaps, ContainsRange, common_part};
ghost use Rattle.timecode.specs.Range.{extended_by};
ghost use Rattle.temolunai.specs.Ranges.{range_shown, range_passed, range_read, range_up_to, range_fitting};

use crate::numbers::{DONE, NO_RANGE};
use timecode::TimeRange;

/// A range of frames: the first, and how many.
#[repr(C)]
#[derive(Clone, Copy)]
pub struct Range {
    pub start: u32,
    pub duration: u32,
}

/// A range, or the number of the fault why there is none.
#[repr(C)]
#[derive(Clone, Copy)]
pub struct RangeRead {
    pub fault: u32,
    pub range: Range,
}

fn shown(range: Range) -> TimeRange
    ensures { result ≡ range_shown range }
{
    TimeRange {
        start: range.start,
        duration: range.duration,
    }
}

fn passed(range: TimeRange) -> Range
    ensures { result ≡ range_passed range }
{
    Range {
        start: range.start,
        duration: range.duration,
    }
}

fn range_read(range: Option<TimeRange>) -> RangeRead
    ensures { result ≡ range_read range }
{
    match range {
        Some(range) => RangeRead {
            fault: DONE,
            range: passed(range),
        },
        None => RangeRead {
            fault: NO_RANGE,
            range: Range {
                start: 0,
                duration: 0,
            },
        },
    }
}

/// The range from the start up to the end, which is exclusive, or fault 8 where the end is before the start.
#[unsafe(no_mangle)]
pub extern "C" fn temolunai_range_from_start_end_time(start: u32, end: u32) -> RangeRead
    ensures { result ≡ range_read (range_up_to start end) }
{
    range_read(TimeRange::range_from_start_end_time(start, end))
}

/// The range from the earlier start up to the later end, or fault 8 where its duration is no `u32`.
#[unsafe(no_mangle)]
pub extern "C" fn temolunai_extended_by(range: Range, other: Range) -> RangeRead
    ensures { result ≡ range_read (range_fitting (extended_by (range_shown range) (range_shown other))) }
{
    range_read(shown(range).extended_by(&shown(other)))
}

/// The frame after the last one.
#[unsafe(no_mangle)]
pub extern "C" fn temolunai_end_time_exclusive(range: Range) -> u64
    ensures { result ≡ end_of (range_shown range) }
{
    shown(range).end_time_exclusive()
}

/// The last frame, or the start of a range without frames.
#[unsafe(no_mangle)]
pub extern "C" fn temolunai_end_time_inclusive(range: Range) -> u64
    ensures { result ≡ last_of (range_shown range) }
{
    shown(range).end_time_inclusive()
}

/// Whether the frame is in the range.
#[unsafe(no_mangle)]
pub extern "C" fn temolunai_contains(range: Range, frame: u32) -> bool
    ensures { IsTrue result ↔ Covers (range_shown range) frame }
{
    shown(range).contains(frame)
}

/// Whether the other starts after this one does, and ends before this one does.
#[unsafe(no_mangle)]
pub extern "C" fn temolunai_contains_range(range: Range, other: Range) -> bool
    ensures { IsTrue result ↔ ContainsRange (range_shown range) (range_shown other) }
{
    shown(range).contains_range(&shown(other))
}

/// Whether each starts before the other ends.
#[unsafe(no_mangle)]
pub extern "C" fn temolunai_intersects(range: Range, other: Range) -> bool
    ensures { IsTrue result ↔ Intersects (range_shown range) (range_shown other) }
{
    shown(range).intersects(&shown(other))
}

/// Whether this one starts before the other does, and ends within the other.
#[unsafe(no_mangle)]
pub extern "C" fn temolunai_overlaps(range: Range, other: Range) -> bool
    ensures { IsTrue result ↔ Overlaps (range_shown range) (range_shown other) }
{
    shown(range).overlaps(&shown(other))
}

/// Whether the other starts just where this one ends.
#[unsafe(no_mangle)]
pub extern "C" fn temolunai_meets(range: Range, other: Range) -> bool
    ensures { IsTrue result ↔ (end_of (range_shown range) ≡ other.start) }
{
    shown(range).meets(&shown(other))
}

/// Whether this one ends before the other starts.
#[unsafe(no_mangle)]
pub extern "C" fn temolunai_before(range: Range, other: Range) -> bool
    ensures { IsTrue result ↔ (end_of (range_shown range) < other.start) }
{
    shown(range).before(&shown(other))
}

/// The frame itself where the range has it, or else the first or the last frame of the range, whichever is nearer.
#[unsafe(no_mangle)]
pub extern "C" fn temolunai_clamped(range: Range, frame: u32) -> u32
    ensures { result ≡ min (max frame range.start) (last_of (range_shown range)) }
{
    shown(range).clamped(frame)
}

/// The frames that both have: from the later start up to the earlier end.
#[unsafe(no_mangle)]
pub extern "C" fn temolunai_common_part(range: Range, other: Range) -> Range
    ensures { result ≡ range_passed (common_part (range_shown range) (range_shown other)) }
{
    passed(shown(range).common_part(&shown(other)))
}
