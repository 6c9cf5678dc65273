//! The centre of a day in the tables of a database. The database comes back each time, with the code of a refusal.
ghost use Rattle.std.specs.Prelude.{◌≡◌, false};

use crate::day::{Day, PLAN};
use crate::stops::{Reached, Stop, held};
use channel_plan::Code;
use sqlite::{Alter, Connection};
use station_tables::SqlRows;
use std::alloc::Global;
use std::ops::Range;
use std::process::Abort;

/// Makes its tables.
pub(crate) fn make<S: Alter>(
    alloc: Global,
    conn: Connection<S>,
) -> (Connection<S>, Result<(), Code>)
    requires { conn.in_transaction ≡ false }
    ensures { result.0.in_transaction ≡ false }
{
    match SqlRows::create(alloc, conn, &PLAN) {
        Ok(store) => (store.into_connection(), Ok(())),
        Err((conn, refusal)) => (conn, Err(refusal.code)),
    }
}

/// Opens its tables, and asks these messages, up to a stop.
pub(crate) fn ask<S: Alter>(
    rt: &impl Abort,
    alloc: Global,
    conn: Connection<S>,
    day: &Day,
    places: Range<usize>,
    stop: Stop,
) -> (Connection<S>, Result<Reached, Code>)
    requires { conn.in_transaction ≡ false }
{
    match SqlRows::open_tables(alloc, conn) {
        Ok(store) => {
            let mut store = store;
            let reached = day.ask(rt, alloc, &mut store, places, stop);
            (store.into_connection(), Ok(reached))
        }
        Err((conn, refusal)) => (conn, Err(refusal.code)),
    }
}

/// Opens its tables, and goes on from where the messages had come.
pub(crate) fn go_on<S: Alter>(
    rt: &impl Abort,
    alloc: Global,
    conn: Connection<S>,
    day: &Day,
    reached: Reached,
) -> (Connection<S>, Result<usize, Code>)
    requires { conn.in_transaction ≡ false }
    ensures { result.0.in_transaction ≡ false }
{
    match SqlRows::open_tables(alloc, conn) {
        Ok(store) => {
            let mut store = store;
            let found = day.goes_on(rt, alloc, &mut store, reached);
            (store.into_connection(), Ok(found))
        }
        Err((conn, refusal)) => (conn, Err(refusal.code)),
    }
}

/// How far one step came that was acknowledged or, at a stop, unavailable.
pub(crate) fn reached_by_one(rt: &impl Abort, outcome: Result<(), Code>, stop: Stop) -> Reached {
    match outcome {
        Ok(()) => Reached::at(1, stop),
        Err(code) => {
            held(rt, code == Code::Unavailable, code);
            Reached {
                stop,
                acknowledged: 0,
                begun: 1,
            }
        }
    }
}
