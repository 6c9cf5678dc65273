//! That each has its turn, one that is late goes, and what can't be accepted is said once.
use crate::asserts::same;
use crate::door::{Chance, Wire};
use crate::serving::served;
use playout_peers::Limits;
use std::alloc::Global;
use std::process::Abort;

const REQUEST: &[u8] = b"GET /ch/1/tapes HTTP/1.1\r\n\r\n";

// One that sends so many requests, all of which have come.
fn pipeline(rt: &impl Abort, alloc: Global, count: u32) -> Wire {
    let mut sends = Vec::new(alloc);
    for _ in 0..count {
        sends.extend_from_slice(REQUEST).expect(rt, "memory");
    }
    let mut wire = Wire::of(alloc, sends);
    wire.settle();
    wire
}

// Of each of these counts one.
fn pipelines(rt: &impl Abort, alloc: Global, counts: &[u32]) -> Vec<Wire> {
    let mut wires = Vec::new(alloc);
    for count in counts {
        let wire = pipeline(rt, alloc, *count);
        wires.push(wire).expect(rt, "memory");
    }
    wires
}

// A connection's first write is among the first of all.
fn is_early(rt: &impl Abort, order: &[u64], number: u64) {
    let at = order.iter().position(|it| *it == number);
    assert!(rt; at.is_some_and(|at| at < 40), "{number}: {at:?}");
}

// How often one connection writes three times in a row while others have messages.
fn thrice_in(order: &[u64]) -> usize {
    let most = order.len().min(1_900);
    order[..most]
        .windows(3)
        .filter(|it| it.iter().all(|number| Some(number) == it.first()))
        .count()
}

// A connection's first answer is written among the first answers of all, however many messages others have sent.
#[test]
fn nobody_waits_for_a_pipeline(rt: HostRuntime) {
    let alloc = rt.alloc();
    let wires = pipelines(&rt, alloc, &[1_000, 1_000, 3, 1]);
    let mut door = Chance::of(alloc, 1, 0, wires);
    let limits = Limits {
        peers: 4,
        turns: 4,
        idle: 30,
    };
    let (is_quiet, told) = served(&rt, alloc, &mut door, limits);
    assert!(rt; is_quiet);
    for number in [2, 3] {
        is_early(&rt, &door.world.order, number);
    }
    same(&rt, door.world.order.len(), 2_004);
    // Where others have messages, none has three answered in a row: a read is a turn too.
    let thrice = thrice_in(&door.world.order);
    assert!(rt; thrice < 20, "{thrice}");
    assert!(rt; told.is_empty());
}

// It says nothing.
#[test]
fn one_that_is_late_goes(rt: HostRuntime) {
    let alloc = rt.alloc();
    let mut wires = Vec::new(alloc);
    let silent = Wire::of(alloc, Vec::new(alloc));
    wires.push(silent).expect(&rt, "memory");
    let mut door = Chance::of(alloc, 1, 20_000, wires);
    door.world.knocked = 1;
    door.world.is_still = true;
    let limits = Limits {
        peers: 2,
        turns: 1,
        idle: 2,
    };
    let (is_quiet, told) = served(&rt, alloc, &mut door, limits);
    assert!(rt; !is_quiet);
    assert!(rt;
        door.world.time >= 2_000 && door.world.time <= 3_000,
        "{}",
        door.world.time
    );
    same(&rt, told.as_slice(), b"read fault\n".as_slice());
}

// The accepts that fail are said once, and the connection is served once one succeeds.
#[test]
fn what_cannot_be_accepted_is_said_once(rt: HostRuntime) {
    let alloc = rt.alloc();
    let wires = pipelines(&rt, alloc, &[1]);
    let mut door = Chance::of(alloc, 1, 0, wires);
    door.world.refusals = 5;
    let limits = Limits {
        peers: 2,
        turns: 1,
        idle: 30,
    };
    let (is_quiet, told) = served(&rt, alloc, &mut door, limits);
    assert!(rt; !is_quiet);
    same(&rt, told.as_slice(), b"read fault\n".as_slice());
    let got = door.world.wires.first().map_or(0, |wire| wire.got.len());
    assert!(rt; got > 0);
}
