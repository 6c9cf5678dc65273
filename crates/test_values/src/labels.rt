use crate::asserts::same;
use timecode::{Label, Rate, TcFault, TimeRange, day_frames, from_timecode, to_timecode};

/// The rates, with the last frame of a second and the frames of ten minutes.
const RATES: [(Rate, u8, u32); 4] = [
    (Rate::F24, 23, 14_400),
    (Rate::F25, 24, 15_000),
    (Rate::F30, 29, 18_000),
    (Rate::Df30, 29, 17_982),
];

/// Counts on from a label by ST 12-1, with a carry at each place.
fn next(label: Label, last_frame: u8) -> Label {
    let mut next = label;
    if label.frames < last_frame {
        next.frames = label.frames + 1;
        return next;
    }
    next.frames = 0;
    if label.seconds < 59 {
        next.seconds = label.seconds + 1;
        return next;
    }
    next.seconds = 0;
    if label.minutes < 59 {
        next.minutes = label.minutes + 1;
    } else {
        next.minutes = 0;
        next.hours = if label.hours < 23 { label.hours + 1 } else { 0 };
    }
    if label.rate == Rate::Df30 && next.minutes % 10 != 0 {
        next.frames = 2;
    }
    next
}

#[test]
fn labels_are_counted(rt: HostRuntime) {
    for (rate, last_frame, ten_minutes) in RATES {
        let midnight = Label {
            hours: 0,
            minutes: 0,
            seconds: 0,
            frames: 0,
            rate,
        };
        let mut label = midnight;
        for frame in 0..20_000 {
            same(&rt, to_timecode(frame, rate), Ok(label));
            same(&rt, from_timecode(&label.bytes(), rate), Ok(frame));
            label = next(label, last_frame);
        }
        let day = day_frames(rate);
        label = Label {
            hours: 23,
            minutes: 50,
            ..midnight
        };
        for frame in day.saturating_sub(ten_minutes)..day {
            same(&rt, to_timecode(frame, rate), Ok(label));
            same(&rt, from_timecode(&label.bytes(), rate), Ok(frame));
            label = next(label, last_frame);
        }
        assert_eq!(rt; label, midnight, "the day comes round");
        same(&rt, to_timecode(day, rate), Err(TcFault::FrameRange));
    }
}

#[test]
fn ranges_are_compared(rt: HostRuntime) {
    let range = TimeRange {
        start: 1_799,
        duration: 3,
    };
    same(
        &rt,
        TimeRange::range_from_start_end_time(1_799, 1_802),
        Some(range),
    );
    same(
        &rt,
        TimeRange::range_from_start_end_time(1_802, 1_799),
        None,
    );
    same(&rt, range.end_time_exclusive(), 1_802);
    assert!(rt; range.contains(1_801) && !range.contains(1_802));
    let after = TimeRange {
        start: 1_802,
        duration: 1,
    };
    assert!(rt; range.meets(&after) && !after.meets(&range));
    assert!(rt; !range.intersects(&after) && range.intersects(&range));
}
