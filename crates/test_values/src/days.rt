//! A channel whose days are planned, for the walks and the lists.
use channel_plan::{At, Code, PlanRow, Refusal};
use grant_core::{Grant, LentRows};
use playlist_core::{DayPlan, DayState, EditKind, NewItem, OfferNumber, Owner, Source, SourceRows};
use playlist_edl::{DayLists, Imported, can_be_exported};
use std::alloc::Global;
use std::process::Abort;
use timecode::{Rate, day_frames};
use umid::Umid;
use vault_core::{Barcode, Clip, Offer, OwnRows, Tape, Title};

const UMID: &str = "060a2b340101010501010d201300000000112233445566778899aabbccddeeff";

// The frames of a day at 25.
pub(crate) const DAY: u32 = 2_160_000;

// Channel 1, whose day starts at 06:00:00:00.
pub(crate) const AT_25: PlanRow = PlanRow {
    ch: 1,
    rate: Rate::F25,
    start: 540_000,
    slots: 40,
};

// A channel whose days are planned.
#[derive(Drop)]
pub(crate) struct Channel {
    pub plan: PlanRow,
    pub own: OwnRows,
    pub lent: LentRows,
}

impl Channel {
    // With clip 1, NEWS, of 125 frames from the first of tape 1 on; channel 3 lends it a clip.
    pub(crate) fn of(rt: &impl Abort, alloc: Global, plan: PlanRow) -> Channel {
        let grants = vec![in alloc; grant(rt)].expect(rt, "memory");
        Channel::borrowing(rt, alloc, plan, grants)
    }

    // With the same clip, and these lent to it.
    pub(crate) fn borrowing(
        rt: &impl Abort,
        alloc: Global,
        plan: PlanRow,
        grants: Vec<Grant>,
    ) -> Channel {
        Channel {
            plan,
            own: own_rows(rt, alloc, plan),
            lent: LentRows::from_rows(1, grants).expect(rt, "lent rows"),
        }
    }

    pub(crate) fn open_day(&self, rt: &impl Abort, alloc: Global) -> DayPlan {
        self.open_day_numbered(rt, alloc, 1)
    }

    pub(crate) fn open_day_numbered(&self, rt: &impl Abort, alloc: Global, number: u32) -> DayPlan {
        DayPlan::from_rows(number, &self.plan, DayState::Open, Vec::new(alloc)).expect(rt, "a day")
    }

    pub(crate) fn add(
        &self,
        rt: &impl Abort,
        day: &mut DayPlan,
        new: NewItem,
    ) -> Result<u16, Refusal> {
        if new.mix > 999 || !new.kind.is_in_range() {
            panic!(rt; "an item in range");
        }
        day.add_item(&self.plan, &self.sources(), &new)
    }

    // Adds an item, whose number is this one.
    pub(crate) fn adds(&self, rt: &impl Abort, day: &mut DayPlan, new: NewItem, number: u32) {
        let added = self.add(rt, day, new).expect(rt, "a number");
        assert!(rt; u32::from(added) == number, "the next number");
    }

    pub(crate) fn seal(&self, day: &mut DayPlan) -> Result<u32, Refusal> {
        day.seal(&self.plan, &self.sources())
    }

    pub(crate) fn import(
        &self,
        rt: &impl Abort,
        day: &mut DayPlan,
        alloc: Global,
        text: &[u8],
        ignore: bool,
    ) -> Result<Imported, Refusal> {
        if text.len() > 1_000_000 || self.plan.start >= day_frames(self.plan.rate) {
            panic!(rt; "a list and a start of the day");
        }
        let sources = self.sources();
        day.import_list(alloc, &self.plan, &sources, text, ignore)
    }

    pub(crate) fn export(
        &self,
        rt: &impl Abort,
        day: &DayPlan,
        alloc: Global,
    ) -> Result<String, Refusal> {
        let sources = self.sources();
        if day.frames() != day_frames(self.plan.rate)
            || !can_be_exported(day, &self.plan, &sources)
        {
            panic!(rt; "a day that can be exported");
        }
        day.export_list(alloc, &self.plan, &sources)
    }

    fn sources(&self) -> SourceRows<'_> {
        SourceRows::of(self.own.clips(), self.lent.grants())
    }
}

// A clip on tape 1.
pub(crate) fn clip(rt: &impl Abort) -> Clip {
    Clip {
        n: 1,
        tape: 1,
        title: Title::read(b"NEWS").expect(rt, "a title"),
        umid: Umid::from_hex(UMID).expect(rt, "a UMID"),
        src_first: 0,
        frames: 125,
        retired: false,
    }
}

fn own_rows(rt: &impl Abort, alloc: Global, plan: PlanRow) -> OwnRows {
    let tape = Tape {
        n: 1,
        barcode: Barcode::read(b"T1").expect(rt, "a barcode"),
        slot: None,
    };
    let tapes = vec![in alloc; tape].expect(rt, "memory");
    let clips = vec![in alloc; clip(rt)].expect(rt, "memory");
    OwnRows::from_rows(alloc, plan, tapes, clips, Vec::new(alloc)).expect(rt, "own rows")
}

// A clip that channel 3 lends to channel 1.
pub(crate) fn grant(rt: &impl Abort) -> Grant {
    let offer = Offer {
        n: 1,
        grantee: 1,
        clip: 1,
        title: Title::read(b"LENT").expect(rt, "a title"),
        umid: Umid::from_hex(UMID).expect(rt, "a UMID").with_instance(1),
        rate: Rate::F25,
        src_first: 50,
        frames: 100,
        window: None,
        withdrawn: false,
    };
    Grant { owner: 3, offer }
}

// The lent clip of a number, which channel 3 lends.
pub(crate) fn lent_source(number: u16) -> Option<Source> {
    Some(Source::Lent(Owner::new(3)?, OfferNumber::new(number)?))
}

// So many frames of black at a place.
pub(crate) fn black(position: u32, frames: u32) -> NewItem {
    NewItem {
        pos: position,
        frames,
        src: Some(Source::Black),
        src_first: 0,
        kind: EditKind::Cut,
        mix: 0,
    }
}

pub(crate) fn refused<T>(code: Code) -> Result<T, Refusal> {
    Err(Refusal::of(code))
}

pub(crate) fn refused_at<T>(code: Code, at: At) -> Result<T, Refusal> {
    Err(Refusal { code, at })
}
