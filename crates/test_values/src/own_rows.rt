use crate::asrun::item;
use crate::asserts::same;
use crate::days::{AT_25, Channel, black, clip};
use grant_core::{ClipRef, offer, withdraw};
use playlist_core::{DayPlan, Item, Source};
use std::alloc::Global;
use std::process::Abort;
use vault_core::{OwnRows, Window};

fn tapes_are_changed(rt: &impl Abort, own: &mut OwnRows) {
    same(rt, own.add_tape(b"T2", 1), Ok(2));
    same(rt, own.pull(2), Ok(2));
    same(rt, own.add_tape(b"T3", 1), Ok(3));
    same(rt, own.shelve(2, 40), Ok(2));
    let second = clip(rt).umid.with_instance(2);
    same(rt, own.add_clip(2, b"NEWS", second, 7, 25), Ok(2));
}

fn offers_are_changed(rt: &impl Abort, own: &mut OwnRows) {
    let window = Window::new(1, 7);
    same(rt, offer(own, ClipRef::Own(1), 2, window), Ok(1));
    same(rt, withdraw(own, 1), Ok(1));
    same(rt, offer(own, ClipRef::Own(1), 2, None), Ok(2));
    // Neither withdrawing nor another offer changes a window.
    let windows = [Window::new(1, 7), None];
    assert!(rt; own.offers().iter().map(|o| o.window).eq(windows));
}

// Rows that are changed where they stand: a slot is free once its tape is pulled, and what a channel has is its own.
#[test]
fn own_rows_are_changed_in_place(rt: HostRuntime) {
    let mut channel = Channel::of(&rt, rt.alloc(), AT_25);
    tapes_are_changed(&rt, &mut channel.own);
    offers_are_changed(&rt, &mut channel.own);
    same(&rt, channel.own.retire(1), Ok(1));
}

fn is_copied(rt: &impl Abort, alloc: Global, day: &DayPlan) {
    let copy = day.copied(alloc).expect(rt, "a copy");
    assert!(rt; copy.items() == day.items());
}

#[test]
fn a_day_has_its_own_items(rt: HostRuntime) {
    let alloc = rt.alloc();
    let channel = Channel::of(&rt, alloc, AT_25);
    let mut day = channel.open_day(&rt, alloc);
    same(&rt, channel.add(&rt, &mut day, black(10, 10)), Ok(1));
    let item = item(1, 10, 10, Source::Black);
    assert!(rt; day.has(&item) && !day.has(&Item { mix: 1, ..item }));
    is_copied(&rt, alloc, &day);
}
