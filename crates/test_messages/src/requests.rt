//! What a store in memory gives of what a channel sees, and what is decided by it.
use crate::asserts::same;
use channel_plan::PlanRow;
use channel_view::laws::{questions_of_picked_rows_agree, stores_answer_alike};
use channel_view::{MemRows, handle, prepare, run};
use channel_view_decisions::decide;
use channel_view_model::{
    Change, Command, Need, Outcome, Reply, RowStore, Table, TableText, VaultChange, VaultCommand,
};
use std::alloc::Global;
use std::process::Abort;
use timecode::Rate;
use vault_core::{Put, RawText, Tape, TapeCommand};

const CHANNEL_1: PlanRow = PlanRow {
    ch: 1,
    rate: Rate::F25,
    start: 540_000,
    slots: 40,
};

const CHANNEL_2: PlanRow = PlanRow { ch: 2, ..CHANNEL_1 };

fn store_of(rt: &impl Abort, alloc: Global) -> MemRows {
    MemRows::new(alloc, &[CHANNEL_1, CHANNEL_2]).expect(rt, "a plan")
}

fn add_tape(rt: &impl Abort, alloc: Global, barcode: &str, slot: u32) -> Command {
    let barcode = RawText::of(String::from_str(alloc, barcode).expect(rt, "a barcode"));
    Command::Vault(VaultCommand::Tape(TapeCommand::Add { barcode, slot }))
}

fn added(number: u16) -> Outcome {
    Outcome::Replied(Reply::Tape(number))
}

// A store where channel 1 has a tape, and channel 2 the one that this command adds.
fn two_tapes(rt: &impl Abort, alloc: Global, others: &Command) -> MemRows {
    let mut store = store_of(rt, alloc);
    same(rt, handle(alloc, &mut store, 2, others), added(1));
    let first = add_tape(rt, alloc, "T1", 5);
    same(rt, handle(alloc, &mut store, 1, &first), added(1));
    store
}

// It was decided that a tape is to be added, which is tape 2.
fn adds_tape_2(rt: &impl Abort, decided: (Reply, Change)) {
    let (reply, change) = decided;
    same(rt, reply, Reply::Tape(2));
    assert!(rt; matches!(change, Change::Vault(Put::Added, VaultChange::Tape(_))));
}

#[test]
fn a_decision_changes_nothing(rt: HostRuntime) {
    let alloc = rt.alloc();
    let others = add_tape(&rt, alloc, "T9", 9);
    let mut store = two_tapes(&rt, alloc, &others);
    // The tape that channel 2 has is free for channel 1, each time.
    for _ in 0..2 {
        let found = prepare(alloc, &mut store, 1, &others).expect(&rt, "memory");
        adds_tape_2(&rt, found.expect(&rt, "channel 1"));
    }
}

#[test]
fn what_is_seen_decides(rt: HostRuntime) {
    let alloc = rt.alloc();
    let others = add_tape(&rt, alloc, "T9", 9);
    let mut store = two_tapes(&rt, alloc, &others);
    let view = store.load(1).expect(&rt, "memory").expect(&rt, "channel 1");
    adds_tape_2(&rt, decide(alloc, &view, &others).expect(&rt, "memory"));
}

#[test]
fn a_channel_outside_the_plan_sees_nothing(rt: HostRuntime) {
    let mut store = store_of(&rt, rt.alloc());
    let command = Command::Vault(VaultCommand::Tape(TapeCommand::Pull { tape: 1 }));
    let need = Need::of(&command, &[]);
    assert!(rt; store.fetch(3, &need).expect(&rt, "memory").is_none());
    assert!(rt; store.load(3).expect(&rt, "memory").is_none());
}

#[test]
fn a_table_is_decided_by_what_is_seen(rt: HostRuntime) {
    let alloc = rt.alloc();
    let mut store = store_of(&rt, alloc);
    let first = add_tape(&rt, alloc, "T1", 5);
    let run_of_two = [(1, first), (3, Command::Table(Table::Vault))];
    let outcomes = run(alloc, &mut store, &run_of_two).expect(&rt, "memory");
    same(&rt, outcomes.get(0), Some(&added(1)));
    same(&rt, outcomes.get(1), Some(&Outcome::NoChannel));
    let view = store.load(1).expect(&rt, "memory").expect(&rt, "channel 1");
    let (reply, _) = decide(alloc, &view, &Command::Table(Table::Vault)).expect(&rt, "memory");
    let text = b"   1 T1          5\nTAPES 1 SHELVED 1 SLOTS 40\n".to_vec(alloc);
    let table = Reply::Table(TableText::of(text.expect(&rt, "memory")));
    same(&rt, reply, table);
}

#[test]
fn two_stores_answer_alike(rt: HostRuntime) {
    let alloc = rt.alloc();
    let mut one = store_of(&rt, alloc);
    let mut other = store_of(&rt, alloc);
    let command = add_tape(&rt, alloc, "T1", 1);
    same(&rt, handle(alloc, &mut other, 2, &command), added(1));
    let said = stores_answer_alike(alloc, &mut one, &mut other, 1, &command);
    same(&rt, &said.0, &added(1));
    same(&rt, said.1, said.0);
}

#[test]
fn laws_hold() {
    questions_of_picked_rows_agree::<(u16, Tape), Tape>();
}
