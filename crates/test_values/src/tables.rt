use crate::asrun::{Airing, item};
use crate::asserts::same;
use crate::days::{AT_25, DAY, clip, grant};
use asrun_match::{Run, Status};
use grant_core::Grant;
use playlist_core::{ClipNumber, DayPlan, DayState, Item, Source};
use report_texts::RowFault;
use reports::{write_clip, write_grant, write_item, write_match, write_plan};
use std::alloc::Global;
use std::process::Abort;
use timecode::Rate;
use vault_core::{Clip, Offer};

// A sealed day: 1,000 frames of black, and a clip.
const PLAN: &[u8] = b"DAY 1 SEALED\n   \
    1 06:00:00:00    1000 C    000 BL       00:00:00:00\n   \
    2 06:00:40:00 2159000 C    000 C0000001 00:00:00:00\n\
    ITEMS 2 FRAMES 2160000 OF 2160000\n";

const MATCH: &[u8] = b"06:00:00:00 1500 OK\n\
    06:01:00:00 2158500 MISSED\n\
    OK 1500 SLIP 0 WRONG 0 MISSED 2158500\n";

// The source that the channel's first clip is.
fn own_source(rt: &impl Abort) -> Source {
    Source::Own(ClipNumber::new(1).expect(rt, "a clip's number"))
}

fn sealed_day(rt: &impl Abort, alloc: Global) -> Airing {
    let items = vec![in alloc;
        item(1, 0, 1_000, Source::Black),
        item(2, 1_000, DAY - 1_000, own_source(rt)),
    ];
    let items = items.expect(rt, "memory");
    Airing::of(rt, alloc, AT_25, DayState::Sealed, items)
}

// With less room than the table takes.
fn beginnings_are_written(rt: &impl Abort, day: &DayPlan) {
    for room in 0..PLAN.len() {
        let mut taken = [0; 256];
        let mut output = &mut taken[..room];
        let written = write_plan(&mut output, &AT_25, day);
        same(rt, matches!(written, Err(RowFault::Write(_))), true);
        same(rt, &taken[..room], &PLAN[..room]);
    }
}

#[test]
fn a_writer_that_is_full_has_a_beginning_of_the_plan_table(rt: HostRuntime) {
    let airing = sealed_day(&rt, rt.alloc());
    beginnings_are_written(&rt, &airing.day);
    let mut whole = Vec::new(rt.alloc());
    same(&rt, write_plan(&mut whole, &AT_25, &airing.day), Ok(()));
    same(&rt, whole.as_slice(), PLAN);
}

#[test]
fn a_writer_that_is_full_has_a_beginning_of_the_match_table(rt: HostRuntime) {
    let runs = [
        Run {
            position: 0,
            frames: 1_500,
            status: Status::Ok,
        },
        Run {
            position: 1_500,
            frames: DAY - 1_500,
            status: Status::Missed,
        },
    ];
    for room in 0..MATCH.len() {
        let mut taken = [0; 256];
        let mut output = &mut taken[..room];
        same(&rt, write_match(&mut output, &AT_25, &runs).is_err(), true);
        same(&rt, &taken[..room], &MATCH[..room]);
    }
    let mut whole = Vec::new(rt.alloc());
    same(&rt, write_match(&mut whole, &AT_25, &runs), Ok(()));
    same(&rt, whole.as_slice(), MATCH);
}

// A frame behind the day's last has no label.
#[test]
fn what_has_no_label_has_no_line(rt: HostRuntime) {
    let mut output = Vec::new(rt.alloc());
    let clip = Clip {
        src_first: DAY,
        ..clip(&rt)
    };
    same(
        &rt,
        write_clip(&mut output, Rate::F25, &clip),
        Err(RowFault::NoLabel),
    );
    let lent = grant(&rt);
    let lent = Grant {
        offer: Offer {
            src_first: DAY,
            ..lent.offer
        },
        ..lent
    };
    same(&rt, write_grant(&mut output, &lent), Err(RowFault::NoLabel));
    let item = Item {
        src_first: DAY,
        ..item(1, 0, 1, own_source(&rt))
    };
    same(
        &rt,
        write_item(&mut output, &AT_25, &item),
        Err(RowFault::NoLabel),
    );
    same(&rt, output.is_empty(), true);
}
