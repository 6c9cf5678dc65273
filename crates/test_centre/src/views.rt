//! What a channel sees, loaded from each store: `MemRows`, `SqlRows`, and `RecentDays`, `CountedDays` and `VaultsAtHand`
//! over this.
use crate::asked::FIRST;
use crate::centres::{are_answered, let_go, tables_of, with_vaults};
use crate::others::plan_row;
use channel_plan::PlanRow;
use channel_view::MemRows;
use channel_view_model::{RowStore, View};
use rows_at_hand::{CountedDays, RecentDays};
use std::alloc::Global;
use std::process::Abort;

fn tapes_are_seen(rt: &impl Abort, view: &View) {
    assert!(rt;
        view.own
            .tapes()
            .iter()
            .map(|tape| (tape.n, tape.slot))
            .eq([(1, Some(1)), (2, None)])
    );
}

fn clips_are_seen(rt: &impl Abort, view: &View) {
    assert!(rt;
        view.own
            .clips()
            .iter()
            .map(|clip| (clip.n, clip.retired))
            .eq([(1, false), (2, true)])
    );
}

fn offers_are_seen(rt: &impl Abort, view: &View) {
    assert!(rt;
        view.own
            .offers()
            .iter()
            .map(|offer| (offer.n, offer.withdrawn))
            .eq([(1, true), (2, false)])
    );
}

fn days_are_seen(rt: &impl Abort, view: &View) {
    assert!(rt;
        view.days
            .as_slice()
            .iter()
            .map(|day| (day.number(), day.items().len()))
            .eq([(7, 3), (8, 1)])
    );
}

// What channel 1 sees once it asked all of `FIRST`: two tapes, of which one is out, two clips, of which one is retired,
// two offers, of which one is withdrawn, days 7 and 8, and what was aired of day 7.
fn is_seen(rt: &impl Abort, view: &View) {
    tapes_are_seen(rt, view);
    clips_are_seen(rt, view);
    offers_are_seen(rt, view);
    days_are_seen(rt, view);
    assert_eq!(rt; view.aired.as_slice().len(), 1);
    assert!(rt; view.lent.grants().is_empty());
}

fn is_loaded_whole<S: RowStore>(rt: &impl Abort, store: &mut S) {
    let view = store.load(1).expect(rt, "memory").expect(rt, "channel 1");
    is_seen(rt, &view);
}

// It is loaded of a store that has asked it, and of a channel that isn't in the plan nothing is.
fn is_loaded<S: RowStore>(rt: &impl Abort, alloc: Global, store: &mut S) {
    are_answered(rt, alloc, store, FIRST);
    is_loaded_whole(rt, store);
    assert!(rt; store.load(2).expect(rt, "memory").is_none());
}

fn is_loaded_from_lists(rt: &impl Abort, alloc: Global, plan: &[PlanRow]) {
    let mut lists = MemRows::new(alloc, plan).expect(rt, "a plan");
    is_loaded(rt, alloc, &mut lists);
}

fn is_loaded_from_tables(rt: &impl Abort, alloc: Global, plan: &[PlanRow]) {
    let mut tables = tables_of(rt, alloc, plan);
    is_loaded(rt, alloc, &mut tables);
    let _ = tables.into_connection();
}

fn is_loaded_from_recent_days(rt: &impl Abort, alloc: Global, plan: &[PlanRow]) {
    let mut recent = RecentDays::over(alloc, tables_of(rt, alloc, plan));
    is_loaded(rt, alloc, &mut recent);
    let _ = recent.into_store().into_connection();
}

fn is_loaded_from_counted_days(rt: &impl Abort, alloc: Global, plan: &[PlanRow]) {
    let mut counted = CountedDays::over(alloc, tables_of(rt, alloc, plan));
    is_loaded(rt, alloc, &mut counted);
    let _ = counted.into_store().into_connection();
}

fn is_loaded_at_hand(rt: &impl Abort, alloc: Global, plan: &[PlanRow]) {
    let mut at_hand = with_vaults(alloc, tables_of(rt, alloc, plan));
    is_loaded(rt, alloc, &mut at_hand);
    let_go(at_hand);
}

#[test]
fn a_view_is_loaded_from_each_store(rt: HostRuntime) {
    let alloc = rt.alloc();
    let plan = [plan_row(0, 1)];
    is_loaded_from_lists(&rt, alloc, &plan);
    is_loaded_from_tables(&rt, alloc, &plan);
    is_loaded_from_recent_days(&rt, alloc, &plan);
    is_loaded_from_counted_days(&rt, alloc, &plan);
    is_loaded_at_hand(&rt, alloc, &plan);
}
