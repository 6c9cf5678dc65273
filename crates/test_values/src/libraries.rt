// Calls of what `timecode`, `umid` and `edl` offer beyond the program, as docs/LIBRARIES.md shows them.
ghost use Rattle.std.specs.Prelude.{◌<◌, ◌^◌, length};

use crate::asserts::same;
use edl::{
    EditType, Event, EventList, Events, OutEvent, can_be_written, read_from_string, write_to_string,
};
use std::alloc::Global;
use std::process::Abort;
use std::test::Fail;
use timecode::{
    Label, Rate, TcFault, TimeRange, UnknownRate, day_frames, from_timecode, to_timecode,
};
use umid::{Umid, UmidFault};

// The examples of docs/LIBRARIES.md, statement by statement, so with the `?` that the page has.
#[test]
fn labels_of_the_page(rt: HostRuntime) -> Result<(), Fail> {
    let rate: Rate = "df".parse()?;
    let label = to_timecode(1_800, rate)?;
    let frame = label.frame()?;
    same(&rt, frame, 1_800);
    let frame = from_timecode(b"00:01:00;02", rate)?;
    same(&rt, frame, 1_800);
    let frames = rate.nominal_frames_per_second();
    same(&rt, frames, 30);
    Ok(())
}

#[test]
fn ranges_of_the_page(rt: HostRuntime) {
    let range = TimeRange {
        start: 10,
        duration: 10,
    };
    let other = TimeRange {
        start: 15,
        duration: 20,
    };
    let all = range.extended_by(&other);
    same(
        &rt,
        all,
        Some(TimeRange {
            start: 10,
            duration: 25,
        }),
    );
    let both = range.common_part(&other);
    same(
        &rt,
        both,
        TimeRange {
            start: 15,
            duration: 5,
        },
    );
    let last = range.clamped(40);
    same(&rt, last, 19);
}

#[test]
fn umids_of_the_page(rt: HostRuntime) -> Result<(), Fail> {
    let umid: Umid = "060a2b340101010501010d211300000700112233445566778899aabbccddeeff".parse()?;
    let kind = umid.material_type();
    same(&rt, kind, 0x0d);
    let made = umid.material_number_method();
    same(&rt, made, 2);
    let number = umid.material_number();
    same(&rt, number[0], 0x00);
    let next = umid.with_instance(8);
    same(&rt, next.instance(), 8);
    same(&rt, next.material_number()[15], 0xff);
    Ok(())
}

#[test]
fn labels_give_their_frames(rt: HostRuntime) {
    for rate in Rate::ALL {
        let label = to_timecode(1_800, rate).expect(&rt, "a label");
        same(&rt, label.frame(), Ok(1_800));
        same(&rt, rate.text().parse::<Rate>(), Ok(rate));
    }
    let dropped = Label {
        hours: 0,
        minutes: 1,
        seconds: 0,
        frames: 0,
        rate: Rate::Df30,
    };
    same(&rt, dropped.frame(), Err(TcFault::DroppedLabel));
    let far = Label {
        frames: 25,
        rate: Rate::F25,
        ..dropped
    };
    same(&rt, far.frame(), Err(TcFault::LabelRange));
    same(&rt, Rate::F30.nominal_frames_per_second(), 30);
    assert!(rt; Rate::Df30.is_drop_frame() && !Rate::F30.is_drop_frame());
    same(&rt, "29.97".parse::<Rate>(), Err(UnknownRate));
    let label = to_timecode(1_799, Rate::F25).expect(&rt, "a label");
    assert!(rt; label < to_timecode(1_800, Rate::F25).expect(&rt, "a label"));
}

#[test]
fn ranges_make_others(rt: HostRuntime) {
    let range = TimeRange {
        start: 10,
        duration: 10,
    };
    let other = TimeRange {
        start: 15,
        duration: 20,
    };
    let within = TimeRange {
        start: 11,
        duration: 2,
    };
    same(&rt, range.end_time_inclusive(), 19);
    assert!(rt; range.overlaps(&other) && !other.overlaps(&range));
    assert!(rt; range.contains_range(&within) && !range.contains_range(&range));
    assert!(rt; within.before(&other) && !range.before(&other));
    let all = TimeRange {
        start: 10,
        duration: 25,
    };
    same(&rt, other.extended_by(&range), Some(all));
    let both = TimeRange {
        start: 15,
        duration: 5,
    };
    same(&rt, range.common_part(&other), both);
    same(&rt, within.common_part(&other).duration, 0);
    same(&rt, range.clamped(3), 10);
    same(&rt, range.clamped(12), 12);
    same(&rt, range.clamped(20), 19);
    let far = TimeRange {
        start: u32::MAX,
        duration: u32::MAX,
    };
    same(&rt, far.extended_by(&range), None);
    same(&rt, far.end_time_inclusive(), 8_589_934_589);
}

const UMID: &str = "060a2b340101010501010d211300000700112233445566778899aabbccddeeff";

#[test]
fn umids_have_parts(rt: HostRuntime) {
    let umid: Umid = UMID.parse().expect(&rt, "a UMID");
    same(&rt, umid.version(), 5);
    same(&rt, umid.material_type(), 0x0d);
    same(&rt, umid.material_number_method(), 2);
    same(&rt, umid.instance_number_method(), 1);
    same(&rt, umid.instance(), 7);
    same(&rt, umid.material_number()[15], 0xff);
    same(&rt, Umid::try_from(umid.to_bytes().as_slice()), Ok(umid));
    same(&rt, "06".parse::<Umid>(), Err(UmidFault::Length));
    assert!(rt; umid.with_instance(6) < umid);
}

const LIST: &str = "TITLE: NIGHT
FCM: NON-DROP FRAME

001  C0000001 V     C        00:00:00:00 00:00:05:00 23:30:00:00 23:30:05:00
* TO CLIP NAME: NEWS
002  C0000002 A     W001 025 00:00:00:00 00:00:05:00 23:30:05:00 23:30:10:00
";

const LATER: &str = "TITLE: AN HOUR LATER
FCM: NON-DROP FRAME

001  C0000001 V     C        00:00:00:00 00:00:05:00 00:30:00:00 00:30:05:00
* TO CLIP NAME: NEWS
002  C0000002 A     W001 025 00:00:00:00 00:00:05:00 00:30:05:00 00:30:10:00
";

// The events of a list with their record an hour later.
fn moved<'a>(
    rt: &impl Abort,
    alloc: Global,
    list: &EventList<'a>,
    rate: Rate,
) -> Vec<OutEvent<'a>> {
    let hour = from_timecode(b"01:00:00:00", rate).expect(rt, "a label");
    let day = day_frames(rate);
    let mut events = Vec::new(alloc);
    for event in &list.events {
        let mut event = event.to_out().expect(rt, "memory");
        event.record_first = (event.record_first % day + hour) % day;
        events.push(event).expect(rt, "memory");
    }
    events
}

// The list of them.
fn an_hour_later(rt: &impl Abort, alloc: Global, text: &[u8], rate: Rate) -> String
    requires { length text.now < 2 ^ 32 }
{
    let list = read_from_string(alloc, text, rate, false).expect(rt, "a list");
    let events = moved(rt, alloc, &list, rate);
    assert!(rt;
        can_be_written(rate, events.as_slice()),
        "an event can't be written"
    );
    write_to_string(alloc, "AN HOUR LATER", rate, events.as_slice()).expect(rt, "memory")
}

#[test]
fn lists_are_moved_by_an_hour(rt: HostRuntime) {
    let moved = an_hour_later(&rt, rt.alloc(), LIST.as_bytes(), Rate::F25);
    same(&rt, moved.as_str(), LATER);
}

// What the first event of the list is.
fn event_is_known(rt: &impl Abort, event: &Event<'_>) {
    same(rt, event.edit_type(), Some(EditType::Cut));
    assert!(rt; event.is_picture());
    let source = TimeRange {
        start: 0,
        duration: 125,
    };
    same(rt, event.source_range(), Some(source));
    same(rt, event.record_range().start, 2_115_000);
    same(
        rt,
        event.notes.iter().next().copied(),
        Some("* TO CLIP NAME: NEWS"),
    );
}

// A copy of an event is the same, and can be written as it.
fn is_copied(rt: &impl Abort, event: &Event<'_>) {
    let copy = event.clone().expect(rt, "memory");
    same(rt, event.clone().expect(rt, "memory"), copy);
    let out = OutEvent::of(event.clone().expect(rt, "memory"));
    assert!(rt; out.can_be_written(Rate::F25) && !out.can_be_written(Rate::F24));
}

// What the list is.
fn list_is_known(rt: &impl Abort, list: &EventList<'_>) {
    for event in &list.events {
        if event.number == 1 {
            event_is_known(rt, event);
            is_copied(rt, event);
        }
    }
    same(rt, list.events.iter().count(), 2);
}

// The events of a list but the last.
fn but_the_last<'a>(list: EventList<'a>) -> Events<'a> {
    let mut events = list.events.into_vec();
    events.pop();
    Events::of(events)
}

#[test]
fn lists_are_values(rt: HostRuntime) {
    let list = read_from_string(rt.alloc(), LIST.as_bytes(), Rate::F25, false);
    let list = list.expect(&rt, "a list");
    let copy = list.clone().expect(&rt, "memory");
    assert!(rt; copy == list);
    list_is_known(&rt, &list);
    assert!(rt; but_the_last(copy) != list.events);
    same(&rt, EditType::of("W12"), Some(EditType::Wipe(12)));
    same(&rt, EditType::of("X"), None);
}
