// Fixed days and batches beside plain walks over their frames.
use crate::asrun::{Airing, item};
use crate::days::{AT_25, DAY, refused_at};
use asrun_match::{Run, Status};
use channel_plan::{At, Code, Refusal};
use playlist_core::{DayState, Item, Source, label_at};
use std::alloc::Global;
use std::process::Abort;
use timecode::{Rate, to_timecode};

// So many frames of a day are planned in short items, and aired.
const WALKED: u32 = 4_000;

// The next of a fixed row of numbers.
pub(crate) fn next(random: u32) -> u32 {
    random.wrapping_mul(1_664_525).wrapping_add(1_013_904_223)
}

// A number below a bound, by the upper bits.
fn below(random: u32, bound: u32) -> u32 {
    (random >> 12) % bound.max(1)
}

// The source of a number from 0 to 4.
fn source(rt: &impl Abort, which: u32) -> Source {
    Source::read(reel(which.min(4)).as_bytes()).expect(rt, "a source")
}

// The reel of a number: those of the sources, and one that names none.
pub(crate) fn reel(which: u32) -> &'static str {
    match which {
        0 => "BL",
        1 => "BARS",
        2 => "C0000001",
        3 => "C0000002",
        4 => "L0030001",
        _ => "T5",
    }
}

// A stretch of a day: so many frames of a reel, by its number, from a frame of it on.
#[derive(Clone, Copy)]
pub(crate) struct Stretch {
    pub position: u32,
    pub frames: u32,
    pub which: u32,
    pub first: u32,
}

impl Stretch {
    pub fn end(&self) -> u32 {
        self.position.saturating_add(self.frames)
    }

    fn covers(&self, frame: u32) -> bool {
        self.position <= frame && frame < self.end()
    }

    // The frame of the reel that a frame of the day shows. Black and bars have one.
    pub fn shown(&self, frame: u32) -> u32 {
        if self.which < 2 {
            0
        } else {
            self.first
                .saturating_add(frame.saturating_sub(self.position))
        }
    }
}

// The stretch that covers a frame.
pub(crate) fn covering(stretches: &[Stretch], frame: u32) -> Option<Stretch> {
    stretches.iter().copied().find(|s| s.covers(frame))
}

// The status of a frame.
pub(crate) fn status(planned: &[Stretch], aired: &[Stretch], frame: u32) -> Option<Status> {
    let plan = covering(planned, frame)?;
    let Some(air) = covering(aired, frame) else {
        return Some(Status::Missed);
    };
    if plan.which != air.which {
        Some(Status::Wrong)
    } else if plan.shown(frame) == air.shown(frame) {
        Some(Status::Ok)
    } else {
        Some(Status::Slip)
    }
}

// The first frame of a stretch that others cover.
fn first_covered(others: &[Stretch], stretch: &Stretch) -> Option<u32> {
    for frame in stretch.position..stretch.end() {
        if covering(others, frame).is_some() {
            return Some(frame);
        }
    }
    None
}

// The run that covers a frame, of runs in order.
pub(crate) fn status_in(runs: &[Run], frame: u32) -> Option<Status> {
    let run = runs
        .iter()
        .find(|run| frame < run.position.saturating_add(run.frames))?;
    if run.position <= frame {
        Some(run.status)
    } else {
        None
    }
}

// Whether no run has the status of the one before it.
pub(crate) fn are_longest(runs: &[Run]) -> bool {
    let mut before = None;
    for run in runs {
        if before == Some(run.status) {
            return false;
        }
        before = Some(run.status);
    }
    true
}

// Short items, and black behind them.
fn plan_of(rt: &impl Abort, alloc: Global, k: u32) -> Vec<Stretch> {
    let mut stretches = Vec::new(alloc);
    let mut random = next(next(k));
    let mut position = 0;
    for _ in 0..12 {
        random = next(random);
        let frames = below(random, 600).max(1);
        random = next(random);
        let which = below(random, 5);
        random = next(random);
        let first = if which < 2 { 0 } else { below(random, 500) };
        let short = Stretch {
            position,
            frames,
            which,
            first,
        };
        stretches.push(short).expect(rt, "memory");
        position = position.saturating_add(frames);
    }
    let behind = Stretch {
        position,
        frames: DAY.saturating_sub(position),
        which: 0,
        first: 0,
    };
    stretches.push(behind).expect(rt, "memory");
    stretches
}

pub(crate) fn items_of(rt: &impl Abort, alloc: Global, planned: &[Stretch]) -> Vec<Item> {
    let mut items = Vec::new(alloc);
    let mut number = 0u16;
    for s in planned {
        number = number.wrapping_add(1);
        let item = Item {
            src_first: s.first,
            ..item(number, s.position, s.frames, source(rt, s.which))
        };
        items.push(item).expect(rt, "memory");
    }
    items
}

// Rows of a batch: most begin as what is planned there.
fn rows_of(rt: &impl Abort, alloc: Global, planned: &[Stretch], seed: u32) -> Vec<Stretch> {
    let mut rows = Vec::new(alloc);
    let mut random = next(seed);
    for _ in 0..2 {
        random = next(random);
        let position = below(random, WALKED);
        random = next(random);
        let frames = below(random, 500).max(1);
        random = next(random);
        let mut which = below(random, 6);
        let mut first = below(next(random), 500);
        if random % 4 != 0 {
            if let Some(plan) = covering(planned, position) {
                which = plan.which;
                first = plan.shown(position);
            }
        }
        let row = Stretch {
            position,
            frames,
            which,
            first,
        };
        rows.push(row).expect(rt, "memory");
    }
    rows
}

fn row_text(rt: &impl Abort, alloc: Global, row: &Stretch) -> String {
    let at = label_at(&AT_25, row.position);
    let frames = row.frames;
    let reel = reel(row.which);
    let first = to_timecode(row.first, Rate::F25).expect(rt, "a label");
    format!(in alloc; "{at},{frames},{reel},{first}\n").expect(rt, "memory")
}

fn batch_text(rt: &impl Abort, alloc: Global, rows: &[Stretch]) -> Vec<u8> {
    let mut text = Vec::new(alloc);
    for row in rows {
        let line = row_text(rt, alloc, row);
        text.extend_from_slice(line.as_bytes()).expect(rt, "memory");
    }
    text
}

// What a day of which some rows are aired answers to rows: their frames, or the first frame aired twice. The rows that
// are taken are added.
fn expected(
    rt: &impl Abort,
    alloc: Global,
    aired: &mut Vec<Stretch>,
    rows: &[Stretch],
) -> Result<u32, Refusal> {
    let mut after = Vec::from_slice(alloc, aired).expect(rt, "memory");
    let mut frames = 0u32;
    for row in rows {
        if let Some(frame) = first_covered(&after, row) {
            let at = At::Place(label_at(&AT_25, frame));
            return refused_at(Code::AiredTwice, at);
        }
        after.push(*row).expect(rt, "memory");
        frames = frames.saturating_add(row.frames);
    }
    *aired = after;
    Ok(frames)
}

// Takes batches, and says whether each was answered as by the walk.
fn takes_alike(
    rt: &impl Abort,
    alloc: Global,
    airing: &mut Airing,
    planned: &[Stretch],
    aired: &mut Vec<Stretch>,
    seed: u32,
) -> bool {
    let mut number = 1u32;
    for k in 0..7u32 {
        let seed = seed.wrapping_mul(7).wrapping_add(k);
        let rows = rows_of(rt, alloc, planned, seed);
        let wanted = expected(rt, alloc, aired, &rows);
        let text = batch_text(rt, alloc, &rows);
        if airing.take(rt, alloc, number, &text) != wanted {
            return false;
        }
        if wanted.is_ok() {
            number = number.wrapping_add(1);
        }
    }
    true
}

// Whether the runs say of each frame what the walk does, and of all behind the last that is aired that they are missed.
fn runs_alike(runs: &[Run], planned: &[Stretch], aired: &[Stretch]) -> bool {
    let end = WALKED + 500;
    for frame in 0..end {
        if status_in(runs, frame) != status(planned, aired, frame) {
            return false;
        }
    }
    match runs.last() {
        Some(last) => last.position <= end && last.position.saturating_add(last.frames) == DAY,
        None => false,
    }
}

fn goes_alike(rt: &impl Abort, alloc: Global, k: u32) -> bool {
    let planned = plan_of(rt, alloc, k);
    let items = items_of(rt, alloc, &planned);
    let mut airing = Airing::of(rt, alloc, AT_25, DayState::Sealed, items);
    let mut aired = Vec::new(alloc);
    let taken = takes_alike(rt, alloc, &mut airing, &planned, &mut aired, k);
    let runs = airing.runs(rt, alloc);
    taken && are_longest(&runs) && runs_alike(&runs, &planned, &aired)
}

#[test]
fn fifty_days_are_aired_as_walks_over_their_frames(rt: HostRuntime) {
    for k in 0..50 {
        assert!(rt; goes_alike(&rt, rt.alloc(), k), "day {k}");
    }
}
