//! A day and what was aired of it, for the walks and the tables.
use asrun_match::{AiredDay, Run, reconcile, take_batch};
use channel_plan::{PlanRow, Refusal};
use playlist_core::{DayPlan, DayState, EditKind, Item, Source};
use std::alloc::Global;
use std::process::Abort;
use timecode::day_frames;

// A day that is planned, and what was aired of it.
#[derive(Drop)]
pub(crate) struct Airing {
    pub plan: PlanRow,
    pub day: DayPlan,
    pub aired: AiredDay,
}

impl Airing {
    pub(crate) fn of(
        rt: &impl Abort,
        alloc: Global,
        plan: PlanRow,
        state: DayState,
        items: Vec<Item>,
    ) -> Airing {
        Airing {
            plan,
            day: DayPlan::from_rows(1, &plan, state, items).expect(rt, "a day"),
            aired: AiredDay::from_rows(alloc, &plan, Vec::new(alloc)).expect(
                rt,
                "a day of which nothing is aired",
            ),
        }
    }

    pub(crate) fn take(
        &mut self,
        rt: &impl Abort,
        alloc: Global,
        number: u32,
        text: &[u8],
    ) -> Result<u32, Refusal> {
        let frames = day_frames(self.plan.rate);
        if text.len() > 1_000_000 || self.plan.start >= frames || self.aired.frames() != frames {
            panic!(rt; "a batch, a start and a day of the rate");
        }
        take_batch(alloc, &mut self.aired, &self.day, &self.plan, number, text)
    }

    pub(crate) fn runs(&self, rt: &impl Abort, alloc: Global) -> Vec<Run> {
        match self.day.state() {
            DayState::Sealed if self.day.frames() == self.aired.frames() => {
                reconcile(alloc, &self.day, &self.aired).expect(rt, "memory")
            }
            _ => panic!(rt; "a sealed day of so many frames"),
        }
    }
}

pub(crate) fn item(number: u16, position: u32, frames: u32, source: Source) -> Item {
    Item {
        n: number,
        pos: position,
        frames,
        src: source,
        src_first: 0,
        kind: EditKind::Cut,
        mix: 0,
    }
}
