//! Matches of whole days at each rate, beside a look at single frames: the edges of each item and of each row, and 10,000
//! others.
use crate::asrun::Airing;
use crate::asrun_walks::{Stretch, are_longest, covering, items_of, next, reel, status, status_in};
use crate::asserts::same;
use asrun_match::Run;
use channel_plan::PlanRow;
use playlist_core::{DayState, label_at};
use std::alloc::Global;
use std::process::Abort;
use timecode::{Rate, day_frames, from_timecode, to_timecode};

// How many frames are looked at beside the edges.
const SAMPLES: u32 = 10_000;

// More stretches than a day of these lengths has.
const MOST_STRETCHES: u32 = 1_000;

// A channel of this rate, whose day begins at 06:00:00:00.
fn plan(rt: &impl Abort, rate: Rate) -> PlanRow {
    PlanRow {
        ch: 1,
        rate,
        start: from_timecode(b"06:00:00:00", rate).expect(rt, "a label"),
        slots: 40,
    }
}

// A number below a bound, by the 24 upper bits.
fn below(random: u32, bound: u32) -> u32 {
    (random >> 8) % bound.max(1)
}

// Some forty items, one behind another, over all of the day.
fn planned_over(rt: &impl Abort, alloc: Global, frames: u32, seed: u32) -> Vec<Stretch> {
    let mut planned = Vec::new(alloc);
    let mut random = next(seed);
    let mut position = 0u32;
    for _ in 0..MOST_STRETCHES {
        if position >= frames {
            break;
        }
        random = next(random);
        let wanted = below(random, frames / 20).saturating_add(1);
        random = next(random);
        let which = below(random, 5);
        random = next(random);
        let stretch = Stretch {
            position,
            frames: wanted.min(frames.saturating_sub(position)),
            which,
            first: if which < 2 { 0 } else { below(random, 500) },
        };
        planned.push(stretch).expect(rt, "memory");
        position = position.saturating_add(wanted);
    }
    planned
}

// What goes out at a place: mostly what is planned there.
fn shown_at(planned: &[Stretch], position: u32, random: u32) -> (u32, u32) {
    match covering(planned, position) {
        Some(plan) if random % 4 != 0 => (plan.which, plan.shown(position)),
        _ => (below(next(random), 6), below(random, 500)),
    }
}

// Some sixty rows, with gaps between them, up to the day's end.
fn aired_over(
    rt: &impl Abort,
    alloc: Global,
    planned: &[Stretch],
    frames: u32,
    seed: u32,
) -> Vec<Stretch> {
    let mut rows = Vec::new(alloc);
    let mut random = next(next(seed));
    let mut position = 0u32;
    for _ in 0..MOST_STRETCHES {
        if position >= frames {
            break;
        }
        random = next(random);
        let wanted = below(random, frames / 60).saturating_add(1);
        let length = wanted.min(frames.saturating_sub(position));
        let (which, shown) = shown_at(planned, position, random);
        let first = if shown.saturating_add(length) > frames {
            0
        } else {
            shown
        };
        let row = Stretch {
            position,
            frames: length,
            which,
            first: if which < 2 { 0 } else { first },
        };
        rows.push(row).expect(rt, "memory");
        random = next(random);
        position = position
            .saturating_add(length)
            .saturating_add(below(random, frames / 60));
    }
    rows
}

fn batch_text(rt: &impl Abort, alloc: Global, plan: &PlanRow, rows: &[Stretch]) -> Vec<u8> {
    let mut text = Vec::new(alloc);
    for row in rows {
        let at = label_at(plan, row.position);
        let first = to_timecode(row.first, plan.rate).expect(rt, "a label");
        let (frames, reel) = (row.frames, reel(row.which));
        let line = format!(in alloc; "{at},{frames},{reel},{first}\n").expect(rt, "memory");
        text.extend_from_slice(line.as_bytes()).expect(rt, "memory");
    }
    text
}

// The first and the last frame of each stretch, and the ones beside them.
fn edges(rt: &impl Abort, alloc: Global, stretches: &[Stretch], frames: u32) -> Vec<u32> {
    let mut edges = Vec::new(alloc);
    for stretch in stretches {
        for frame in [
            stretch.position.saturating_sub(1),
            stretch.position,
            stretch.end().saturating_sub(1),
            stretch.end(),
        ] {
            if frame < frames {
                edges.push(frame).expect(rt, "memory");
            }
        }
    }
    edges
}

fn frames_looked_at(
    rt: &impl Abort,
    alloc: Global,
    planned: &[Stretch],
    aired: &[Stretch],
    frames: u32,
) -> Vec<u32> {
    let mut looked_at = edges(rt, alloc, planned, frames);
    let others = edges(rt, alloc, aired, frames);
    looked_at.extend_from_slice(&others).expect(rt, "memory");
    let mut random = next(frames);
    for _ in 0..SAMPLES {
        random = next(random);
        looked_at.push(below(random, frames)).expect(rt, "memory");
    }
    looked_at
}

fn frames_of(runs: &[Run]) -> u32 {
    let mut frames = 0u32;
    for run in runs {
        frames = frames.saturating_add(run.frames);
    }
    frames
}

// The runs of a sealed day of which these rows are aired in one batch.
fn runs_of(
    rt: &impl Abort,
    alloc: Global,
    rate: Rate,
    planned: &[Stretch],
    aired: &[Stretch],
) -> Vec<Run> {
    let plan = plan(rt, rate);
    let items = items_of(rt, alloc, planned);
    let mut airing = Airing::of(rt, alloc, plan, DayState::Sealed, items);
    let text = batch_text(rt, alloc, &plan, aired);
    assert!(rt; airing.take(rt, alloc, 1, &text).is_ok());
    airing.runs(rt, alloc)
}

// The runs say of each of these frames what a look at it does.
fn are_as_seen(
    rt: &impl Abort,
    runs: &[Run],
    planned: &[Stretch],
    aired: &[Stretch],
    looked_at: &[u32],
) {
    for frame in looked_at {
        assert_eq!(rt;
            status_in(runs, *frame),
            status(planned, aired, *frame),
            "{frame}"
        );
    }
}

fn is_matched(rt: &impl Abort, alloc: Global, rate: Rate) {
    let frames = day_frames(rate);
    let planned = planned_over(rt, alloc, frames, frames);
    let aired = aired_over(rt, alloc, &planned, frames, frames);
    let runs = runs_of(rt, alloc, rate, &planned, &aired);
    assert!(rt; are_longest(&runs) && planned.len() > 20 && aired.len() > 30);
    same(rt, frames_of(&runs), frames);
    let looked_at = frames_looked_at(rt, alloc, &planned, &aired, frames);
    are_as_seen(rt, &runs, &planned, &aired, &looked_at);
}

#[test]
fn days_of_each_rate_are_matched_as_single_frames_are(rt: HostRuntime) {
    for rate in [Rate::F24, Rate::F25, Rate::F30, Rate::Df30] {
        is_matched(&rt, rt.alloc(), rate);
    }
}
