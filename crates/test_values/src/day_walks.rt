// Fixed days beside plain walks over all their frames.
use crate::days::{Channel, black, grant, refused, refused_at};
use channel_plan::{At, Code, PlanRow, Refusal};
use grant_core::Grant;
use playlist_core::{DayPlan, Item, MAX_ITEMS, NewItem, OfferNumber, Owner, Source, label_at};
use std::alloc::Global;
use std::process::Abort;
use timecode::{Rate, day_frames};
use vault_core::{Offer, Window};

// How many numbers there are from 0 to the largest of an item.
const NUMBERS: usize = MAX_ITEMS as usize + 1;

// The channel of one of the days: at each of the four rates in turn, with a start of its own.
fn plan_of(k: u32) -> PlanRow {
    let rate = match k % 4 {
        0 => Rate::F24,
        1 => Rate::F25,
        2 => Rate::F30,
        _ => Rate::Df30,
    };
    PlanRow {
        ch: 1,
        rate,
        start: (k % 50) * 40_000,
        slots: 40,
    }
}

// The number of the day: there are days in front of it and behind it.
fn number_of(k: u32) -> u32 {
    (k % 50) * 2_000 + 2
}

// The days that channel 3 lends a clip for: 1 for any, 2 for this one, 3 for those in front of it and 4 for those
// behind it; 5 is withdrawn; 6 and 7 are of another rate, 6 for the day behind, 7 for this one too.
fn window_of(k: u32, number: u16) -> Option<Window> {
    let day = number_of(k);
    let behind = day.saturating_add(1);
    match number {
        1 => None,
        2 => Window::new(day, day),
        3 => Window::new(1, day.saturating_sub(1)),
        4 => Window::new(behind, 99_999),
        5 => Window::new(1, day),
        6 => Window::new(behind, behind),
        _ => Window::new(day, 99_999),
    }
}

// Who lends the clip of a number: all that one channel lends has its own rate.
fn owner_of(number: u16) -> u16 {
    if number == 6 || number == 7 { 4 } else { 3 }
}

fn source_of(number: u16) -> Option<Source> {
    Some(Source::Lent(Owner::new(owner_of(number))?, OfferNumber::new(number)?))
}

// Their rates.
fn rate_of(k: u32, number: u16) -> Rate {
    if owner_of(number) == 3 {
        plan_of(k).rate
    } else {
        plan_of(k.wrapping_add(1)).rate
    }
}

// These clips, each as long as a day.
fn grants_of(rt: &impl Abort, alloc: Global, k: u32) -> Vec<Grant> {
    let mut grants = Vec::new(alloc);
    for number in 1..8 {
        let lent = grant(rt);
        let rate = rate_of(k, number);
        let offer = Offer {
            n: number,
            clip: u32::from(number),
            rate,
            src_first: 0,
            frames: day_frames(rate),
            window: window_of(k, number),
            withdrawn: number == 5,
            ..lent.offer
        };
        let owner = owner_of(number);
        grants.push(Grant { owner, offer }).expect(rt, "memory");
    }
    grants
}

// So many frames of black, or of the lent clip of a number above 0.
fn new_item(position: u32, frames: u32, lent: u16) -> NewItem {
    let item = black(position, frames);
    if lent == 0 {
        return item;
    }
    NewItem {
        src: source_of(lent),
        ..item
    }
}

// Whether one of the days of an offer is this one.
fn is_lent_in(offer: &Offer, day: u32) -> bool {
    let Some(window) = offer.window else {
        return true;
    };
    for number in window.first()..window.last().saturating_add(1) {
        if number == day {
            return true;
        }
    }
    false
}

// Why a day doesn't show a lent clip, if there is a reason.
fn lent_fault(grants: &[Grant], plan: &PlanRow, day: u32, lent: u16) -> Option<Code> {
    for grant in grants {
        if grant.offer.n == lent {
            return if grant.offer.withdrawn {
                Some(Code::Withdrawn)
            } else if !is_lent_in(&grant.offer, day) {
                Some(Code::OutsideWindow)
            } else if grant.offer.rate != plan.rate {
                Some(Code::RateDiffers)
            } else {
                None
            };
        }
    }
    Some(Code::NoSource)
}

// The next of a fixed row of numbers.
fn next(random: u32) -> u32 {
    random.wrapping_mul(1_664_525).wrapping_add(1_013_904_223)
}

// The first frame of a range that has an item's number.
fn first_taken(frames: &[u16], first: usize, end: usize) -> Option<usize> {
    for frame in first..end {
        if frames.get(frame).is_some_and(|number| *number != 0) {
            return Some(frame);
        }
    }
    None
}

fn first_empty(frames: &[u16]) -> Option<usize> {
    frames.iter().position(|number| *number == 0)
}

fn paint(frames: &mut [u16], first: usize, end: usize, number: u16) {
    for frame in first..end {
        if frame < frames.len() {
            frames[frame] = number;
        }
    }
}

fn erase(frames: &mut [u16], number: u16) {
    for frame in frames.iter_mut() {
        if *frame == number {
            *frame = 0;
        }
    }
}

// The least number from 1 on that isn't taken.
fn first_free(taken: &[bool; NUMBERS]) -> Option<u16> {
    for number in 1..NUMBERS {
        if !taken[number] {
            return Some(number as u16);
        }
    }
    None
}

// A frame's number, which is below all that a day has.
fn short(frame: usize) -> u32 {
    frame.min(4_000_000) as u32
}

fn place(plan: &PlanRow, frame: usize) -> At {
    At::Place(label_at(plan, short(frame)))
}

// What a day answers to so many frames at a position, of what can't be shown in it for this reason, if there is one.
fn expected(
    plan: &PlanRow,
    frames: &[u16],
    taken: &[bool; NUMBERS],
    position: u32,
    length: u32,
    fault: Option<Code>,
) -> Result<u16, Refusal> {
    if length == 0 {
        return refused(Code::EmptyItem);
    }
    let end = u64::from(position) + u64::from(length);
    if end > frames.len() as u64 {
        return refused(Code::PastDayEnd);
    }
    if let Some(code) = fault {
        return refused(code);
    }
    if let Some(frame) = first_taken(frames, position as usize, end as usize) {
        return refused_at(Code::Overlap, place(plan, frame));
    }
    match first_free(taken) {
        Some(number) => Ok(number),
        None => refused(Code::DayFull),
    }
}

fn frames_with_items(frames: &[u16]) -> usize {
    frames.iter().filter(|number| **number != 0).count()
}

// Whether the frames of an item, and these alone, have its number.
fn shows(frames: &[u16], item: &Item) -> bool {
    let first = item.pos as usize;
    let end = item.end() as usize;
    if end > frames.len() || first > end {
        return false;
    }
    frames[first..end].iter().all(|number| *number == item.n)
}

// Whether these are the items that the frames show, and no others.
fn shows_all(frames: &[u16], items: &[Item]) -> bool {
    let mut left = frames_with_items(frames);
    for item in items {
        let length = item.frames as usize;
        if !shows(frames, item) || length > left {
            return false;
        }
        left -= length;
    }
    left == 0
}

// A day, and the same as its frames: each has the number of the item that covers it, or 0. Of each number it is kept
// whether an item has it, and whether that shows a lent clip.
#[derive(Drop)]
struct Walked {
    channel: Channel,
    day: DayPlan,
    frames: Vec<u16>,
    taken: [bool; NUMBERS],
    borrowed: [bool; NUMBERS],
}

impl Walked {
    fn of(rt: &impl Abort, alloc: Global, k: u32) -> Walked {
        let plan = plan_of(k);
        let channel = Channel::borrowing(rt, alloc, plan, grants_of(rt, alloc, k));
        let day = channel.open_day_numbered(rt, alloc, number_of(k));
        let frames = vec![in alloc; 0u16; day_frames(plan.rate) as usize];
        Walked {
            channel,
            day,
            frames: frames.expect(rt, "memory"),
            taken: [false; NUMBERS],
            borrowed: [false; NUMBERS],
        }
    }

    // Adds black, or the lent clip of a number above 0, and says whether the day answered as the walk.
    fn adds_alike(&mut self, rt: &impl Abort, position: u32, length: u32, lent: u16) -> bool {
        let plan = self.channel.plan;
        let fault = if lent == 0 {
            None
        } else {
            lent_fault(self.channel.lent.grants(), &plan, self.day.number(), lent)
        };
        let wanted = expected(&plan, &self.frames, &self.taken, position, length, fault);
        let new = new_item(position, length, lent);
        let answer = self.channel.add(rt, &mut self.day, new);
        if let Ok(number) = wanted {
            let end = u64::from(position) + u64::from(length);
            paint(&mut self.frames, position as usize, end as usize, number);
            self.mark(number, true, lent != 0);
        }
        answer == wanted
    }

    fn removes_alike(&mut self, number: u16) -> bool {
        let there = self
            .taken
            .get(usize::from(number))
            .is_some_and(|taken| *taken);
        let wanted = if there {
            Ok(number)
        } else {
            refused(Code::NoItem)
        };
        if there {
            erase(&mut self.frames, number);
            self.mark(number, false, false);
        }
        self.day.remove_item(u32::from(number)) == wanted
    }

    fn mark(&mut self, number: u16, taken: bool, borrowed: bool) {
        if usize::from(number) < NUMBERS {
            self.taken[usize::from(number)] = taken;
            self.borrowed[usize::from(number)] = borrowed;
        }
    }

    // The item of the first frame that shows a lent clip.
    fn first_borrowed(&self) -> Option<u16> {
        for number in self.frames.iter() {
            if self
                .borrowed
                .get(usize::from(*number))
                .is_some_and(|borrowed| *borrowed)
            {
                return Some(*number);
            }
        }
        None
    }

    // What rows that lend for other days answer to sealing.
    fn sealed_for_other_days(
        &mut self,
        rt: &impl Abort,
        alloc: Global,
        withdrawn: bool,
    ) -> Result<u32, Refusal> {
        let number = self.day.number();
        let channel = for_other_days(rt, alloc, &self.channel, number, withdrawn);
        channel.seal(&mut self.day)
    }

    // Whether a day that shows a lent clip isn't sealed by rows that lend it for other days, and says so of a
    // withdrawal before that.
    fn stays_open(&mut self, rt: &impl Abort, alloc: Global) -> bool {
        let Some(number) = self.first_borrowed() else {
            return true;
        };
        let item = At::Count(u32::from(number));
        for (withdrawn, code) in [(false, Code::OutsideWindow), (true, Code::Recalled)] {
            if self.sealed_for_other_days(rt, alloc, withdrawn) != refused_at(code, item) {
                return false;
            }
        }
        true
    }

    // Tries to seal, and fills the first gap, until there is none.
    fn seals_alike(&mut self, rt: &impl Abort, alloc: Global) -> bool {
        let plan = self.channel.plan;
        for _ in 0..40 {
            let Some(empty) = first_empty(&self.frames) else {
                return self.stays_open(rt, alloc)
                    && self.channel.seal(&mut self.day) == Ok(self.day.number());
            };
            let gap = refused_at(Code::Gap, place(&plan, empty));
            if self.channel.seal(&mut self.day) != gap {
                return false;
            }
            let end = match first_taken(&self.frames, empty, self.frames.len()) {
                Some(taken) => taken,
                None => self.frames.len(),
            };
            if !self.adds_alike(rt, short(empty), short(end.saturating_sub(empty)), 0) {
                return false;
            }
        }
        false
    }
}

// A channel that is lent the same clips, withdrawn or not, for the day behind this one alone.
fn for_other_days(
    rt: &impl Abort,
    alloc: Global,
    channel: &Channel,
    day: u32,
    withdrawn: bool,
) -> Channel {
    let behind = day.saturating_add(1);
    let mut grants = Vec::new(alloc);
    for grant in channel.lent.grants() {
        let offer = Offer {
            window: Window::new(behind, behind),
            withdrawn: withdrawn || grant.offer.withdrawn,
            ..grant.offer
        };
        let grant = Grant { offer, ..*grant };
        grants.push(grant).expect(rt, "memory");
    }
    Channel::borrowing(rt, alloc, channel.plan, grants)
}

// Adds and takes out.
fn changes_alike(rt: &impl Abort, walked: &mut Walked, k: u32) -> bool {
    let frames = day_frames(walked.channel.plan.rate);
    let mut random = next(next(k));
    for _ in 0..20 {
        random = next(random);
        let position = random % 2_700_000;
        random = next(random);
        let length = random % (frames / 6).max(1);
        // Half of them are black. No lent clip has number 8.
        let lent = (random >> 16) % 16;
        let lent = if lent < 9 { lent as u16 } else { 0 };
        if !walked.adds_alike(rt, position, length, lent) {
            return false;
        }
        if random % 5 == 0 && !walked.removes_alike((random / 5 % 7) as u16) {
            return false;
        }
    }
    true
}

// Adds and takes out, and seals in the end.
fn goes_alike(rt: &impl Abort, alloc: Global, k: u32) -> bool {
    let mut walked = Walked::of(rt, alloc, k);
    changes_alike(rt, &mut walked, k)
        && shows_all(&walked.frames, walked.day.items())
        && walked.stays_open(rt, alloc)
        && walked.seals_alike(rt, alloc)
        && shows_all(&walked.frames, walked.day.items())
}

#[test]
fn fifty_days_go_as_walks_over_their_frames(rt: HostRuntime) {
    for k in 0..50 {
        assert!(rt; goes_alike(&rt, rt.alloc(), k), "day {k}");
    }
}
