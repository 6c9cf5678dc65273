//! Fifty centres that agree on what channel 1 sees and differ in all else: their plans, how many channels they have,
//! and what these have asked. In each, over both stores, channel 1 is answered the same bytes, and nothing is loaded.
use crate::asked::{
    AIRED, CLIPS, DAYS, FIRST, ITEMS, OFFERS, TABLES_AT_FIRST, TABLES_AT_LAST, TAPES,
};
use crate::others::{
    Asked, airings_of, changes_of, clip_of, days_of, offers_of, plan_row, tapes_of,
};
use crate::recording::Recording;
use crate::script::{Exchange, exchanges_of, message};
use channel_plan::PlanRow;
use channel_view::MemRows;
use channel_view_model::RowStore;
use http_office::Answer;
use http_office::messages::answer;
use rows_at_hand::{CountedDays, MOST_DAYS, RecentDays, VaultsAtHand};
use sqlite::MemStore;
use station_tables::{SqlRows, centre_in_memory};
use std::alloc::Global;
use std::process::Abort;

// How many channels a centre has, by its number.
fn channels(centre: u16) -> u16 {
    2 + centre % 19
}

fn plan(rt: &impl Abort, alloc: Global, centre: u16) -> Vec<PlanRow> {
    let mut rows = Vec::new(alloc);
    for channel in 1..=channels(centre) {
        let row = plan_row(centre, channel);
        rows.push(row).expect(rt, "memory");
    }
    rows
}

/// A new centre of a plan, over tables.
pub(crate) fn tables_of(rt: &impl Abort, alloc: Global, plan: &[PlanRow]) -> SqlRows<MemStore> {
    centre_in_memory(alloc, plan).expect(rt, "tables")
}

fn asks<S: RowStore>(rt: &impl Abort, alloc: Global, store: &mut S, messages: &[Asked]) {
    for (start, body) in messages {
        let asked = message(rt, alloc, start.as_str(), body.as_str());
        let given = answer(alloc, store, asked.as_bytes());
        assert!(rt; matches!(given, Answer::Given(_)));
    }
}

// Messages that are accepted.
fn does<S: RowStore>(rt: &impl Abort, alloc: Global, store: &mut S, messages: &[Asked]) {
    for (start, body) in messages {
        let asked = message(rt, alloc, start.as_str(), body.as_str());
        let given = answer(alloc, store, asked.as_bytes());
        assert!(rt;
            given.bytes().starts_with(b"HTTP/1.1 200 OK\r\n"),
            "{start} {body}"
        );
    }
}

// What the channels beside channel 1 have asked in a centre.
fn others_ask<S: RowStore>(rt: &impl Abort, alloc: Global, centre: u16, store: &mut S) {
    for channel in 2..=channels(centre) {
        does(rt, alloc, store, &tapes_of(rt, alloc, centre, channel));
        does(rt, alloc, store, &[clip_of(rt, alloc, centre, channel)]);
        does(rt, alloc, store, &days_of(rt, alloc, centre, channel));
        does(rt, alloc, store, &airings_of(rt, alloc, centre, channel));
        asks(rt, alloc, store, &offers_of(rt, alloc, centre, channel));
        asks(rt, alloc, store, &changes_of(rt, alloc, centre, channel));
    }
}

fn is_answered<S: RowStore>(rt: &impl Abort, alloc: Global, store: &mut S, exchange: &Exchange) {
    let asked = exchange.message(rt, alloc);
    let wanted = exchange.answer(rt, alloc);
    let given = answer(alloc, store, asked.as_bytes());
    assert_eq!(rt; given.bytes(), wanted.as_bytes(), "{asked}");
}

/// The messages of a script are answered so. It gives how many they are.
pub(crate) fn are_answered<S: RowStore>(
    rt: &impl Abort,
    alloc: Global,
    store: &mut S,
    script: &str,
) -> u32 {
    let mut count = 0_u32;
    for exchange in &exchanges_of(rt, alloc, script) {
        is_answered(rt, alloc, store, exchange);
        count = count.saturating_add(1);
    }
    count
}

// A centre over a new store of its plan, in which channel 1 asks first or last.
fn all_ask<S: RowStore>(rt: &impl Abort, alloc: Global, centre: u16, store: &mut S) {
    if centre % 2 == 0 {
        are_answered(rt, alloc, store, FIRST);
        others_ask(rt, alloc, centre, store);
    } else {
        others_ask(rt, alloc, centre, store);
        are_answered(rt, alloc, store, FIRST);
    }
}

// What channel 1 is answered then, to each kind of command. Each call that its requests make of the store is for
// channel 1.
fn channel_1_is_answered<S: RowStore>(rt: &impl Abort, alloc: Global, store: &mut Recording<S>) {
    let mut count = 0_u32;
    for script in [
        TABLES_AT_FIRST,
        TAPES,
        CLIPS,
        OFFERS,
        ITEMS,
        DAYS,
        AIRED,
        TABLES_AT_LAST,
    ] {
        count = count.saturating_add(are_answered(rt, alloc, store, script));
    }
    // Each of its 72 requests is one call to look, and a commit, be it of nothing.
    assert_eq!(rt; (count, store.calls()), (72, (144, 0)));
}

fn is_answered_over_lists(rt: &impl Abort, alloc: Global, centre: u16) {
    let mut store = MemRows::new(alloc, &plan(rt, alloc, centre)).expect(rt, "a plan");
    all_ask(rt, alloc, centre, &mut store);
    let mut store = Recording::over(store, 1);
    channel_1_is_answered(rt, alloc, &mut store);
}

// The same over tables. A store of tables isn't let go: its connection is.
fn is_answered_over_tables(rt: &impl Abort, alloc: Global, centre: u16) {
    let mut tables = tables_of(rt, alloc, &plan(rt, alloc, centre));
    all_ask(rt, alloc, centre, &mut tables);
    let mut store = Recording::over(tables, 1);
    channel_1_is_answered(rt, alloc, &mut store);
    let _ = store.into_store().into_connection();
}

// The vaults of all channels in these tables.
fn vaults_of(alloc: Global, tables: &mut SqlRows<MemStore>) -> Option<MemRows> {
    match tables.vaults(usize::MAX) {
        Ok(Some(rows)) => MemRows::from_rows(alloc, rows),
        Ok(None) | Err(_) => None,
    }
}

/// Tables with the vaults of all channels at hand.
pub(crate) type AtHand = VaultsAtHand<CountedDays<SqlRows<MemStore>>>;

/// A store over these tables with the vaults of all channels at hand.
pub(crate) fn with_vaults(alloc: Global, tables: SqlRows<MemStore>) -> AtHand {
    let mut tables = tables;
    let vaults = vaults_of(alloc, &mut tables);
    VaultsAtHand::over(alloc, CountedDays::over(alloc, tables), vaults)
}

/// Such a store isn't let go: the connection of its tables is.
pub(crate) fn let_go(store: AtHand) {
    let _ = store.into_store().into_store().into_connection();
}

// The same over tables, with their vaults at hand once all have asked.
fn is_answered_at_hand(rt: &impl Abort, alloc: Global, centre: u16) {
    let mut tables = tables_of(rt, alloc, &plan(rt, alloc, centre));
    all_ask(rt, alloc, centre, &mut tables);
    let mut store = Recording::over(with_vaults(alloc, tables), 1);
    channel_1_is_answered(rt, alloc, &mut store);
    let_go(store.into_store());
}

// Of vaults at hand the store below is asked nothing: each of these four tables is no call but the commit of nothing.
fn is_asked_of_no_store(rt: &impl Abort, alloc: Global, centre: u16) {
    let mut tables = tables_of(rt, alloc, &plan(rt, alloc, centre));
    all_ask(rt, alloc, centre, &mut tables);
    let vaults = vaults_of(alloc, &mut tables);
    let mut store = VaultsAtHand::over(alloc, Recording::over(tables, 1), vaults);
    let count = are_answered(rt, alloc, &mut store, TABLES_AT_FIRST);
    let below = store.into_store();
    let calls = below.calls();
    let _ = below.into_store().into_connection();
    assert_eq!(rt; (count, calls), (4, (4, 0)));
}

// So many days of channel 2: each is opened, and read.
fn many_days_are_read<S: RowStore>(rt: &impl Abort, alloc: Global, store: &mut S, count: usize) {
    for day in 1_000..1_000_usize.saturating_add(count) {
        let start = String::from_str(alloc, "POST /ch/2/days").expect(rt, "memory");
        let body = format!(in alloc; "{{\"day\":{day}}}").expect(rt, "memory");
        let read = format!(in alloc; "GET /ch/2/days/{day}").expect(rt, "memory");
        let messages = [(start, body), (read, String::new(alloc))];
        does(rt, alloc, store, &messages);
    }
}

// The same over the store that the program has: tables, with all vaults at hand, and with days of another channel, of so
// many that it had.
fn is_answered_over_known_days(rt: &impl Abort, alloc: Global, centre: u16, count: usize) {
    let tables = tables_of(rt, alloc, &plan(rt, alloc, centre));
    let mut known = RecentDays::over(alloc, with_vaults(alloc, tables));
    all_ask(rt, alloc, centre, &mut known);
    many_days_are_read(rt, alloc, &mut known, count);
    let mut store = Recording::over(known, 1);
    channel_1_is_answered(rt, alloc, &mut store);
    let_go(store.into_store().into_store());
}

// A new centre answers channel 1 over the tables that a stop of another of its plan leaves.
fn is_answered_after_a_stop(rt: &impl Abort, alloc: Global, centre: u16) {
    let plan = plan(rt, alloc, centre);
    let stopped = tables_of(rt, alloc, &plan);
    let left = tables_of(rt, alloc, &plan).into_connection();
    let opened = SqlRows::open_after_stop(alloc, &stopped, left);
    let _ = stopped.into_connection();
    let mut tables = opened
        .map_err(|(_conn, refusal)| refusal)
        .expect(rt, "tables");
    are_answered(rt, alloc, &mut tables, FIRST);
    let _ = tables.into_connection();
}

// Ten centres, from this one on, over both stores, and over tables with their vaults at hand.
fn ten_centres_answer(rt: &impl Abort, alloc: Global, first: u16) {
    for centre in first..first.saturating_add(10) {
        is_answered_over_lists(rt, alloc, centre);
        is_answered_over_tables(rt, alloc, centre);
        is_answered_at_hand(rt, alloc, centre);
    }
}

#[test]
fn centres_0_to_9(rt: HostRuntime) {
    ten_centres_answer(&rt, rt.alloc(), 0);
}

#[test]
fn centres_10_to_19(rt: HostRuntime) {
    ten_centres_answer(&rt, rt.alloc(), 10);
}

#[test]
fn centres_20_to_29(rt: HostRuntime) {
    ten_centres_answer(&rt, rt.alloc(), 20);
}

#[test]
fn centres_30_to_39(rt: HostRuntime) {
    ten_centres_answer(&rt, rt.alloc(), 30);
}

#[test]
fn centres_40_to_49(rt: HostRuntime) {
    ten_centres_answer(&rt, rt.alloc(), 40);
}

#[test]
fn centres_with_days_at_hand(rt: HostRuntime) {
    for centre in [7, 21, 38] {
        is_answered_over_known_days(&rt, rt.alloc(), centre, 64);
    }
}

// Two more than are at hand at once, so the first go.
#[test]
fn a_centre_with_more_days_than_are_at_hand(rt: HostRuntime) {
    is_answered_over_known_days(&rt, rt.alloc(), 0, MOST_DAYS + 2);
}

#[test]
fn vaults_at_hand_are_asked_of_no_store(rt: HostRuntime) {
    is_asked_of_no_store(&rt, rt.alloc(), 0);
}

#[test]
fn a_new_centre_after_a_stop(rt: HostRuntime) {
    is_answered_after_a_stop(&rt, rt.alloc(), 0);
}
