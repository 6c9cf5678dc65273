//! Calls of the libraries that the program doesn't make.
use crate::asrun::{Airing, item};
use crate::asserts::same;
use crate::days::{AT_25, Channel, DAY, black, clip, lent_source};
use edl::{Event, EventList, OutEvent, can_be_written, read_from_string, write_to_string};
use playlist_core::{ClipNumber, DayPlan, DayState, Source, SourceRow, Sources, ViewSources};
use std::alloc::Global;
use std::process::Abort;
use timecode::{Rate, TcFault};

// An event line of 76 bytes.
const LINE: &str = "001  C0000001 V     C        00:00:00:00 00:00:05:00 06:00:00:00 06:00:05:00\n";

// A source of 125 frames beside a record of 126.
const LONGER: &str = "001 BL V C 00:00:00:00 00:00:05:00 06:00:00:00 06:00:05:01\n";

// The event is the line's.
fn is_of_line(rt: &impl Abort, event: &Event<'_>) {
    same(
        rt,
        (event.number, event.reel, event.channels, event.kind),
        (1, "C0000001", "V", "C"),
    );
    same(rt, (event.source_first, event.source_end), (0, 125));
    same(
        rt,
        (event.record_first, event.length, event.speed),
        (540_000, 125, false),
    );
}

// The events of the line as they are written.
fn outs_of<'a>(rt: &impl Abort, alloc: Global, list: &EventList<'a>) -> Vec<OutEvent<'a>> {
    let mut events = Vec::new(alloc);
    for event in &list.events {
        is_of_line(rt, event);
        let event = event.clone().expect(rt, "memory");
        events.push(OutEvent::of(event)).expect(rt, "memory");
    }
    events
}

// The text of events that can be written.
fn written(rt: &impl Abort, alloc: Global, events: &[OutEvent<'_>]) -> String {
    assert!(rt;
        can_be_written(Rate::F25, events),
        "an event can't be written"
    );
    write_to_string(alloc, "LINE", Rate::F25, events).expect(rt, "memory")
}

#[test]
fn an_event_line_is_read_and_written_alike(rt: HostRuntime) {
    let list = read_from_string(rt.alloc(), LINE.as_bytes(), Rate::F25, false);
    let list = list.expect(&rt, "a list");
    let events = outs_of(&rt, rt.alloc(), &list);
    same(&rt, events.len(), 1);
    let text = written(&rt, rt.alloc(), events.as_slice());
    assert!(rt; text.as_bytes().ends_with(LINE.as_bytes()));
    same(&rt, LINE.len(), 77);
}

fn longer_record_is_a_fault(rt: &impl Abort, alloc: Global) {
    match read_from_string(alloc, LONGER.as_bytes(), Rate::F25, false) {
        Ok(_) => panic!(rt; "a mismatch was read"),
        Err(fault) => same(
            rt,
            (fault.line(), fault.code(), fault.label()),
            (1, 28, None),
        ),
    }
}

fn longer_record_is_ignored(rt: &impl Abort, alloc: Global) {
    let list = read_from_string(alloc, LONGER.as_bytes(), Rate::F25, true).expect(rt, "a list");
    for event in &list.events {
        same(rt, (event.length, event.speed), (125, false));
    }
}

fn longer_record_is_a_speed(rt: &impl Abort, alloc: Global) {
    let mut noted = Vec::from_slice(alloc, LONGER.as_bytes()).expect(rt, "memory");
    let note = b"M2 BL 025.0 00:00:00:00\n";
    noted.extend_from_slice(note).expect(rt, "memory");
    let list = read_from_string(alloc, &noted, Rate::F25, false).expect(rt, "a list");
    for event in &list.events {
        same(rt, (event.length, event.speed), (126, true));
    }
    same(rt, list.events.iter().count(), 1);
}

#[test]
fn a_longer_record_is_a_fault_or_a_speed(rt: HostRuntime) {
    longer_record_is_a_fault(&rt, rt.alloc());
    longer_record_is_ignored(&rt, rt.alloc());
    longer_record_is_a_speed(&rt, rt.alloc());
}

#[test]
fn a_fault_of_a_label_stands_beside_its_line(rt: HostRuntime) {
    let text = b"001 BL V C 00:00:00:00 00:00:05:25 06:00:00:00 06:00:05:00";
    match read_from_string(rt.alloc(), text, Rate::F25, false) {
        Ok(_) => panic!(rt; "a bad label was read"),
        Err(fault) => {
            let wanted = (1, 25, Some(TcFault::LabelRange));
            same(&rt, (fault.line(), fault.code(), fault.label()), wanted);
        }
    }
}

// The source that a clip of the channel's own is.
fn own_source(rt: &impl Abort, number: u32) -> Source {
    Source::Own(ClipNumber::new(number).expect(rt, "a number"))
}

fn finds_own(rt: &impl Abort, view: &ViewSources<'_>) {
    let (own, clip) = (own_source(rt, 1), clip(rt));
    assert!(rt; matches!(view.find(&own), Some(SourceRow::Own(found)) if *found == clip));
}

fn finds_lent(rt: &impl Abort, view: &ViewSources<'_>) {
    let lent = lent_source(1).expect(rt, "a lent clip");
    assert!(rt; matches!(view.find(&lent), Some(SourceRow::Lent(found)) if found.owner == 3));
}

#[test]
fn a_view_finds_what_sources_name(rt: HostRuntime) {
    let channel = Channel::of(&rt, rt.alloc(), AT_25);
    let view = ViewSources {
        own: &channel.own,
        lent: &channel.lent,
    };
    finds_own(&rt, &view);
    finds_lent(&rt, &view);
    let other = own_source(&rt, 2);
    assert!(rt; view.find(&other).is_none() && view.find(&Source::Black).is_none());
}

// A day of three items, each in front of the one that was added before it.
fn day_backwards(rt: &impl Abort, alloc: Global) -> DayPlan {
    let channel = Channel::of(rt, alloc, AT_25);
    let mut day = channel.open_day(rt, alloc);
    for (position, number) in [(30, 1), (20, 2), (10, 3)] {
        let added = channel.add(rt, &mut day, black(position, 5));
        same(rt, added, Ok(number));
    }
    day
}

#[test]
fn items_come_by_their_numbers(rt: HostRuntime) {
    let day = day_backwards(&rt, rt.alloc());
    assert!(rt; day.items().iter().map(|i| i.n).eq([3, 2, 1]));
    let items = day.items_by_number(rt.alloc()).expect(&rt, "memory");
    assert!(rt;
        items
            .iter()
            .map(|i| (i.n, i.pos))
            .eq([(1, 30), (2, 20), (3, 10)])
    );
}

// So many runs as items and twice as many as aired rows have room before the first is written: it grows no more.
#[test]
fn a_match_takes_its_room_at_once(rt: HostRuntime) {
    let items = vec![in rt.alloc();
        item(1, 0, 1_000, Source::Black),
        item(2, 1_000, DAY - 1_000, own_source(&rt, 1)),
    ];
    let items = items.expect(&rt, "memory");
    let mut airing = Airing::of(&rt, rt.alloc(), AT_25, DayState::Sealed, items);
    let first = b"06:00:00:00,1000,BL,00:00:00:00\n06:00:40:00,500,C0000001,00:00:00:00\n\
        06:01:00:00,1500,C0000001,00:00:20:05\n06:02:00:00,750,BARS,00:00:00:00\n";
    same(&rt, airing.take(&rt, rt.alloc(), 1, first), Ok(3_750));
    let second = b"06:03:00:00,1,BL,00:00:00:00";
    same(&rt, airing.take(&rt, rt.alloc(), 2, second), Ok(1));
    let runs = airing.runs(&rt, rt.alloc());
    same(&rt, runs.len(), 6);
    assert!(rt; runs.capacity() >= 2 + 2 * 5);
}
