//! 10,000 random events over connections in memory. Each connection has a channel of its own, so that what it is
//! answered is known from what it sent.
use crate::asserts::same_in;
use crate::door::{Chance, Wire};
use channel_plan::PlanRow;
use channel_view::MemRows;
use channel_view_model::{RowStore, Table};
use playout_lists::FaultLines;
use playout_peers::{Limits, serve_peers};
use std::alloc::Global;
use std::process::Abort;

const CHANNELS: u16 = 60;

const EVENTS: u32 = 10_000;

// The answer to what is no message.
const BAD_MESSAGE: &str =
    "HTTP/1.1 400 Bad Request\r\nContent-Length: 35\r\nContent-Type: application/json\r\n\r\n\
    {\"code\":400,\"refused\":\"BadMessage\"}";

// Over so many channels of 40 slots.
fn store_of(rt: &impl Abort, alloc: Global) -> MemRows {
    let mut plan = Vec::new(alloc);
    for channel in 1..=CHANNELS {
        let text = format!(in alloc; "{channel},25,06:00:00:00,40").expect(rt, "memory");
        let row = PlanRow::read(text.as_bytes()).expect(rt, "a plan row");
        plan.push(row).expect(rt, "memory");
    }
    MemRows::new(alloc, &plan).expect(rt, "a plan")
}

fn add(rt: &impl Abort, text: &mut String, more: &str) {
    text.push_str(more).expect(rt, "memory");
}

// The request for the nth tape of a channel.
fn request(rt: &impl Abort, alloc: Global, channel: u16, n: u16) -> String {
    let body = format!(in alloc; "{{\"barcode\":\"T{n}\",\"slot\":{n}}}").expect(rt, "memory");
    format!(in alloc;
        "POST /ch/{channel}/tapes HTTP/1.1\r\nContent-Length: {}\r\n\r\n{body}",
        body.len()
    )
    .expect(rt, "memory")
}

// The answer to the request for the nth tape.
fn answer(rt: &impl Abort, alloc: Global, n: u16) -> String {
    let body = format!(in alloc; "{{\"tape\":{n}}}").expect(rt, "memory");
    format!(in alloc;
        "HTTP/1.1 200 OK\r\nContent-Length: {}\r\nContent-Type: application/json\r\n\r\n{body}",
        body.len()
    )
    .expect(rt, "memory")
}

// What channel c sends: so many tapes, and behind them in each fifth channel what is no message.
fn sent_by(rt: &impl Abort, alloc: Global, channel: u16) -> String {
    let mut text = String::new(alloc);
    for n in 1..=1 + channel % 12 {
        add(rt, &mut text, &request(rt, alloc, channel, n));
    }
    if channel % 5 == 0 {
        add(rt, &mut text, "GET /\r\n\r\nGET /\r\n\r\n");
    }
    text
}

// What it is answered.
fn answered_to(rt: &impl Abort, alloc: Global, channel: u16) -> String {
    let mut text = String::new(alloc);
    for n in 1..=1 + channel % 12 {
        add(rt, &mut text, &answer(rt, alloc, n));
    }
    if channel % 5 == 0 {
        add(rt, &mut text, BAD_MESSAGE);
    }
    text
}

fn wires_of(rt: &impl Abort, alloc: Global) -> Vec<Wire> {
    let mut wires = Vec::new(alloc);
    for channel in 1..=CHANNELS {
        let text = sent_by(rt, alloc, channel);
        let sends = Vec::from_slice(alloc, text.as_bytes()).expect(rt, "memory");
        let wire = Wire::of(alloc, sends);
        wires.push(wire).expect(rt, "memory");
    }
    wires
}

fn count_in(text: &[u8], byte: u8) -> usize {
    text.iter().filter(|it| **it == byte).count()
}

// How many tapes a channel has: what its table says of them at its end.
fn tapes_of(rt: &impl Abort, alloc: Global, store: &mut MemRows, channel: u16) -> usize {
    let mut text = Vec::new(alloc);
    store
        .write_table(channel, Table::Vault, &mut text)
        .expect(rt, "a table");
    count_in(&text, b'\n').saturating_sub(1)
}

// What a connection got is a beginning of its answers, and all of them where it didn't break; and its channel has the
// tapes that it was told of, and at most one more, whose answer broke off.
fn check(
    rt: &impl Abort,
    alloc: Global,
    store: &mut MemRows,
    wire: &Wire,
    channel: u16,
    seed: u64,
) {
    let wanted = answered_to(rt, alloc, channel);
    assert!(rt;
        wanted.as_bytes().starts_with(&wire.got),
        "{seed} {channel}"
    );
    if !wire.is_broken {
        same_in(rt, (seed, channel), wire.got.len(), wanted.len());
    }
    let tapes = tapes_of(rt, alloc, store, channel);
    let told = count_in(&wire.got, b'}');
    assert!(rt; tapes <= told.saturating_add(1), "{seed} {channel}");
    assert!(rt; told <= tapes.saturating_add(1), "{seed} {channel}");
}

// Checks each connection. It gives how many broke.
fn check_each(
    rt: &impl Abort,
    alloc: Global,
    store: &mut MemRows,
    wires: &[Wire],
    seed: u64,
) -> usize {
    let mut broken = 0usize;
    for (channel, wire) in (1..=CHANNELS).zip(wires) {
        broken = broken.saturating_add(usize::from(wire.is_broken));
        check(rt, alloc, store, wire, channel, seed);
    }
    broken
}

fn run(rt: &impl Abort, alloc: Global, seed: u64) {
    let mut store = store_of(rt, alloc);
    let mut door = Chance::of(alloc, seed, EVENTS, wires_of(rt, alloc));
    let mut told = Vec::new(alloc);
    let mut faults = FaultLines::new(&mut told);
    let limits = Limits {
        peers: 8,
        turns: u64::from(CHANNELS),
        idle: 3_600,
    };
    let is_quiet = serve_peers(alloc, &mut store, &mut door, limits, &mut faults);
    assert!(rt; !door.world.is_wrong);
    same_in(rt, seed, door.accepted, u64::from(CHANNELS));
    let broken = check_each(rt, alloc, &mut store, &door.world.wires, seed);
    let lines = count_in(&told, b'\n');
    assert!(rt; lines <= broken, "{seed}");
    same_in(rt, seed, is_quiet, lines == 0);
}

#[test]
fn each_gets_its_own_answers_whatever_happens(rt: HostRuntime) {
    for seed in 1..=8 {
        run(&rt, rt.alloc(), seed);
    }
}
