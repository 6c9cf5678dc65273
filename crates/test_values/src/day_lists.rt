use crate::asserts::same;
use crate::days::{AT_25, Channel};
use playlist_core::{DayPlan, EditKind, NewItem, Source};
use playlist_edl::Imported;
use std::alloc::Global;
use std::process::Abort;

// The kth of the items of a full day: cuts, dissolves and wipes of four sources, with a frame free behind each seventh.
fn item_of_long_day(k: u32) -> Option<NewItem> {
    let (source, source_first) = match k % 4 {
        0 => (Source::Black, 0),
        1 => (Source::Bars, 0),
        2 => (Source::read(b"C0000001")?, k % 100),
        _ => (Source::read(b"L0030001")?, 50 + k % 80),
    };
    let (kind, mix) = match k % 3 {
        0 => (EditKind::Cut, 0),
        1 => (EditKind::Dissolve, (k % 21) as u16),
        _ => (EditKind::Wipe((k % 1000) as u16), (k % 21) as u16),
    };
    Some(NewItem {
        pos: k.checked_mul(20)?.checked_add(k / 7)?,
        frames: 20,
        src: Some(source),
        src_first: source_first,
        kind,
        mix,
    })
}

fn long_day(rt: &impl Abort, channel: &Channel, alloc: Global) -> DayPlan {
    let mut day = channel.open_day(rt, alloc);
    for k in 0..999 {
        let new = item_of_long_day(k).expect(rt, "an item");
        channel.adds(rt, &mut day, new, k + 1);
    }
    day
}

// A day into which the list of the long one is imported.
fn imported(rt: &impl Abort, channel: &Channel, alloc: Global, text: &str) -> DayPlan {
    let mut day = channel.open_day(rt, alloc);
    let all = Imported {
        items: 999,
        skipped: 666,
    };
    let answer = channel.import(rt, &mut day, alloc, text.as_bytes(), false);
    same(rt, answer, Ok(all));
    day
}

// It is exported, and its list imported into another day.
fn is_imported_again(rt: &impl Abort, channel: &Channel, alloc: Global, day: &DayPlan) {
    let text = channel.export(rt, day, alloc).expect(rt, "a list");
    let again = imported(rt, channel, alloc, text.as_str());
    assert!(rt; again.items() == day.items());
    let second = channel.export(rt, &again, alloc).expect(rt, "a list");
    assert!(rt; second.as_str() == text.as_str());
}

#[test]
fn a_long_day_is_exported_and_imported_again(rt: HostRuntime) {
    let channel = Channel::of(&rt, rt.alloc(), AT_25);
    let day = long_day(&rt, &channel, rt.alloc());
    is_imported_again(&rt, &channel, rt.alloc(), &day);
}
