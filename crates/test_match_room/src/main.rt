//! A match of a day, where one allocation of the program may be refused. `.ci/faults match` has each refused in turn,
//! and counts how many are the match's own: its room for all runs, and nothing else.
#![tactic(auto)]

use asrun_match::{AiredDay, reconcile, take_batch};
use channel_plan::PlanRow;
use playlist_core::{DayPlan, DayState, EditKind, Item, Source};
use std::alloc::Global;
use std::io::{self, Write};
use timecode::{Rate, day_frames};

// The items of the day.
const ITEMS: u16 = 40;

// What came of it.
#[derive(Clone, Copy)]
enum Came {
    // The day or what was aired of it had no memory.
    NoDay,
    // The match had none.
    NoMatch,
    Matched,
}

fn plan() -> PlanRow {
    PlanRow {
        ch: 1,
        rate: Rate::F25,
        start: 0,
        slots: 40,
    }
}

// A day of black, in so many items, of which the last has all that is left.
fn items_of_black(alloc: Global, frames: u32) -> Option<Vec<Item>> {
    let mut items = Vec::new(alloc);
    for n in 1..=ITEMS {
        let pos = (u32::from(n) - 1) * 2;
        let item = Item {
            n,
            pos,
            frames: if n == ITEMS {
                frames.checked_sub(pos)?
            } else {
                2
            },
            src: Source::Black,
            src_first: 0,
            kind: EditKind::Cut,
            mix: 0,
        };
        items.push(item).ok()?;
    }
    Some(items)
}

// A sealed day of these items.
fn sealed(alloc: Global, plan: &PlanRow) -> Option<DayPlan> {
    let items = items_of_black(alloc, day_frames(plan.rate))?;
    DayPlan::from_rows(1, plan, DayState::Sealed, items).ok()
}

// What was aired of it: a second of black, a second of which nothing is known, and a second of bars.
fn aired(alloc: Global, plan: &PlanRow, day: &DayPlan) -> Option<AiredDay> {
    let mut aired = AiredDay::from_rows(alloc, plan, Vec::new(alloc)).ok()?;
    let rows = b"00:00:00:00,25,BL,00:00:00:00\n00:00:02:00,25,BARS,00:00:00:00\n";
    let frames = day_frames(plan.rate);
    if plan.start >= frames || aired.frames() != frames {
        return None;
    }
    let _ = take_batch(alloc, &mut aired, day, plan, 1, rows).ok()?;
    Some(aired)
}

fn matched(alloc: Global) -> Came {
    let plan = plan();
    let Some(day) = sealed(alloc, &plan) else {
        return Came::NoDay;
    };
    let Some(aired) = aired(alloc, &plan, &day) else {
        return Came::NoDay;
    };
    match day.state() {
        DayState::Sealed if day.frames() == aired.frames() => {}
        _ => return Came::NoDay,
    }
    match reconcile(alloc, &day, &aired) {
        Ok(_) => Came::Matched,
        Err(_) => Came::NoMatch,
    }
}

fn main(rt: HostRuntime) -> io::Result<()> {
    let said = match matched(rt.alloc()) {
        Came::NoDay => b"no day\n".as_slice(),
        Came::NoMatch => b"no match\n".as_slice(),
        Came::Matched => b"matched\n".as_slice(),
    };
    rt.stdout().write_all(said)
}
