//! Lent clips that may be shown in a window of days.
use crate::asserts::same;
use crate::days::{AT_25, Channel, DAY, black, grant, lent_source, refused, refused_at};
use channel_plan::{At, Code, Refusal};
use grant_core::Grant;
use playlist_core::{DayPlan, NewItem, label_at};
use playlist_edl::Imported;
use std::alloc::Global;
use std::process::Abort;
use timecode::Rate;
use vault_core::{Offer, Window};

// Of a clip that is lent: the days in which it may be shown, and whether it is withdrawn.
#[derive(Clone, Copy)]
struct Lent {
    window: Option<Window>,
    withdrawn: bool,
}

const ANY_DAY: Lent = Lent {
    window: None,
    withdrawn: false,
};

fn lent_for(rt: &impl Abort, first: u32, last: u32) -> Lent {
    Lent {
        window: Some(Window::new(first, last).expect(rt, "a window")),
        ..ANY_DAY
    }
}

fn grant_of(rt: &impl Abort, number: u16, lent: Lent) -> Grant {
    let first = grant(rt);
    Grant {
        offer: Offer {
            n: number,
            clip: u32::from(number),
            window: lent.window,
            withdrawn: lent.withdrawn,
            ..first.offer
        },
        ..first
    }
}

// A channel to which channel 3 lends two clips.
fn borrowing(rt: &impl Abort, alloc: Global, one: Lent, other: Lent) -> Channel {
    let grants = vec![in alloc; grant_of(rt, 1, one), grant_of(rt, 2, other)];
    Channel::borrowing(rt, alloc, AT_25, grants.expect(rt, "memory"))
}

// Frames of a clip that is lent.
fn shown(position: u32, frames: u32, number: u16) -> NewItem {
    NewItem {
        src: lent_source(number),
        src_first: 50,
        ..black(position, frames)
    }
}

// It has these two days, and neither the one in front of them nor the one behind.
fn has_its_days(rt: &impl Abort, first: u32, last: u32) {
    let window = Window::new(first, last).expect(rt, "a window");
    same(rt, (window.first(), window.last()), (first, last));
    assert!(rt; window.has(first) && window.has(last));
    assert!(rt; !window.has(first.saturating_sub(1)) && !window.has(last.saturating_add(1)));
}

#[test]
fn a_window_has_its_first_and_its_last_day(rt: HostRuntime) {
    for (first, last) in [(0, 0), (0, 7), (8, 7), (1, 100_000), (100_000, 100_000)] {
        same(&rt, Window::new(first, last), None);
    }
    for (first, last) in [(1, 1), (1, 7), (3, 99_999), (99_999, 99_999)] {
        has_its_days(&rt, first, last);
    }
}

// What a day of a number answers to an item.
fn added_in(
    rt: &impl Abort,
    alloc: Global,
    channel: &Channel,
    number: u32,
    new: NewItem,
) -> Result<u16, Refusal> {
    let mut day = channel.open_day_numbered(rt, alloc, number);
    channel.add(rt, &mut day, new)
}

// A day of a number answers this to the first lent clip.
fn is_answered(
    rt: &impl Abort,
    alloc: Global,
    channel: &Channel,
    number: u32,
    wanted: Result<u16, Refusal>,
) {
    let mut day = channel.open_day_numbered(rt, alloc, number);
    same(rt, channel.add(rt, &mut day, shown(0, 100, 1)), wanted);
    // One without a window is taken in each day.
    assert!(rt; channel.add(rt, &mut day, shown(100, 100, 2)).is_ok());
}

#[test]
fn a_lent_clip_is_taken_in_the_days_of_its_window(rt: HostRuntime) {
    let alloc = rt.alloc();
    let channel = borrowing(&rt, alloc, lent_for(&rt, 1, 7), ANY_DAY);
    for (number, wanted) in [
        (1, Ok(1)),
        (7, Ok(1)),
        (8, refused(Code::OutsideWindow)),
        (99_999, refused(Code::OutsideWindow)),
    ] {
        is_answered(&rt, alloc, &channel, number, wanted);
    }
}

// A clip that may be shown in days 1 to 7.
fn week(rt: &impl Abort) -> Lent {
    lent_for(rt, 1, 7)
}

// One that is withdrawn, too.
fn withdrawn(rt: &impl Abort) -> Lent {
    Lent {
        withdrawn: true,
        ..week(rt)
    }
}

// A channel to which channel 3 lends a clip of another rate for days 1 to 7.
fn borrowing_at_24(rt: &impl Abort, alloc: Global) -> Channel {
    let lent = grant_of(rt, 1, week(rt));
    let other_rate = Grant {
        offer: Offer {
            rate: Rate::F24,
            ..lent.offer
        },
        ..lent
    };
    let grants = vec![in alloc; other_rate].expect(rt, "memory");
    Channel::borrowing(rt, alloc, AT_25, grants)
}

fn comes_behind_a_withdrawal(rt: &impl Abort, alloc: Global) {
    let channel = borrowing(rt, alloc, withdrawn(rt), ANY_DAY);
    for number in [7, 8] {
        let added = added_in(rt, alloc, &channel, number, shown(0, 100, 1));
        same(rt, added, refused(Code::Withdrawn));
    }
}

fn comes_in_front_of_another_rate(rt: &impl Abort, alloc: Global) {
    let channel = borrowing_at_24(rt, alloc);
    for (number, wanted) in [(7, Code::RateDiffers), (8, Code::OutsideWindow)] {
        // It shows more than the clip has, too.
        let added = added_in(rt, alloc, &channel, number, shown(0, 101, 1));
        same(rt, added, refused(wanted));
    }
}

// It comes behind a withdrawal and in front of another rate.
#[test]
fn a_day_outside_the_window_has_its_place_among_the_refusals(rt: HostRuntime) {
    comes_behind_a_withdrawal(&rt, rt.alloc());
    comes_in_front_of_another_rate(&rt, rt.alloc());
}

// Line 3 is black, and line 5 shows the lent clip.
const LIST: &[u8] = b"TITLE: LENT\nFCM: NON-DROP FRAME\n\
    001  BL       V     C        00:00:00:00 00:00:01:00 06:00:00:00 06:00:01:00\n\n\
    002  L0030001 V     C        00:00:02:00 00:00:03:00 06:00:01:00 06:00:02:00\n";

// A day outside the window takes nothing of the list.
fn is_refused_in(rt: &impl Abort, alloc: Global, channel: &Channel, number: u32) {
    let mut day = channel.open_day_numbered(rt, alloc, number);
    let imported = channel.import(rt, &mut day, alloc, LIST, false);
    same(rt, imported, refused_at(Code::OutsideWindow, At::Count(5)));
    assert!(rt; day.items().is_empty());
}

#[test]
fn a_list_is_refused_at_the_line_outside_a_window(rt: HostRuntime) {
    let alloc = rt.alloc();
    let channel = borrowing(&rt, alloc, lent_for(&rt, 7, 7), ANY_DAY);
    for number in [6, 8] {
        is_refused_in(&rt, alloc, &channel, number);
    }
    let mut day = channel.open_day_numbered(&rt, alloc, 7);
    let all = Imported {
        items: 2,
        skipped: 0,
    };
    let imported = channel.import(&rt, &mut day, alloc, LIST, false);
    same(&rt, imported, Ok(all));
}

// Day 8, of which item 1 is black from its first frame on; item 2 shows the first lent clip, behind item 3, which shows
// the second.
fn day_8(rt: &impl Abort, alloc: Global) -> DayPlan {
    let channel = borrowing(rt, alloc, ANY_DAY, ANY_DAY);
    let mut day = channel.open_day_numbered(rt, alloc, 8);
    channel.adds(rt, &mut day, black(0, 100), 1);
    channel.adds(rt, &mut day, shown(900, 100, 1), 2);
    channel.adds(rt, &mut day, shown(500, 100, 2), 3);
    day
}

// Rows that lend the two clips so answer this to sealing the day.
fn seals(
    rt: &impl Abort,
    alloc: Global,
    day: &mut DayPlan,
    one: Lent,
    other: Lent,
    wanted: Result<u32, Refusal>,
) {
    let channel = borrowing(rt, alloc, one, other);
    same(rt, channel.seal(day), wanted);
}

fn outside(number: u32) -> Result<u32, Refusal> {
    refused_at(Code::OutsideWindow, At::Count(number))
}

fn recalled(number: u32) -> Result<u32, Refusal> {
    refused_at(Code::Recalled, At::Count(number))
}

// No message comes to this, since a window never changes: rows are given here that lend for fewer days than the items
// were added by.
#[test]
fn a_day_with_an_item_outside_its_window_is_not_sealed(rt: HostRuntime) {
    let alloc = rt.alloc();
    let gap = refused_at(Code::Gap, At::Place(label_at(&AT_25, 100)));
    let (one, other) = (lent_for(&rt, 8, 8), lent_for(&rt, 1, 8));
    let mut day = day_8(&rt, alloc);
    seals(&rt, alloc, &mut day, ANY_DAY, ANY_DAY, gap);
    seals(&rt, alloc, &mut day, one, other, gap);
    seals(&rt, alloc, &mut day, week(&rt), ANY_DAY, outside(2));
    seals(&rt, alloc, &mut day, ANY_DAY, week(&rt), outside(3));
    seals(&rt, alloc, &mut day, week(&rt), week(&rt), outside(3));
    seals(&rt, alloc, &mut day, withdrawn(&rt), week(&rt), recalled(2));
    seals(&rt, alloc, &mut day, week(&rt), withdrawn(&rt), recalled(3));
}

// The same day without a gap.
fn full_day_8(rt: &impl Abort, alloc: Global) -> DayPlan {
    let mut day = day_8(rt, alloc);
    let wide = borrowing(rt, alloc, ANY_DAY, ANY_DAY);
    wide.adds(rt, &mut day, black(100, 400), 4);
    wide.adds(rt, &mut day, black(600, 300), 5);
    wide.adds(rt, &mut day, black(1_000, DAY - 1_000), 6);
    day
}

#[test]
fn a_full_day_is_sealed_by_rows_that_lend_in_it(rt: HostRuntime) {
    let alloc = rt.alloc();
    let mut day = full_day_8(&rt, alloc);
    let (behind, this_day) = (lent_for(&rt, 9, 9), lent_for(&rt, 8, 8));
    seals(&rt, alloc, &mut day, behind, this_day, outside(2));
    let (this_day, all) = (lent_for(&rt, 8, 8), lent_for(&rt, 1, 99_999));
    seals(&rt, alloc, &mut day, this_day, all, Ok(8));
}
