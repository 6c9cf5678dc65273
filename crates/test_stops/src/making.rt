//! Stops while a centre is made.
ghost use Rattle.std.specs.Prelude.{◌≡◌, false};

use crate::centre::{go_on, make, reached_by_one};
use crate::day::Day;
use crate::files::{Contents, number};
use crate::stops::{File, Reached, Steps, Stop, Tally, are_stopped, finished, held};
use channel_plan::Code;
use sqlite::{Alter, Connection};
use std::alloc::Global;
use std::process::Abort;

// One step in new files: the centre is made.
#[derive(Drop)]
struct Making<'a> {
    day: &'a Day,
    start: Contents,
}

impl Steps for Making<'_> {
    fn start(&self) -> &Contents {
        &self.start
    }

    fn count(&self) -> usize {
        1
    }

    fn run<S: Alter>(
        &self,
        rt: &impl Abort,
        alloc: Global,
        conn: Connection<S>,
        stop: Stop,
    ) -> (Connection<S>, Reached) {
        let (conn, made) = make(alloc, conn);
        (conn, reached_by_one(rt, made, stop))
    }

    // An empty database, of which the centre may be made, or the centre with its whole plan.
    fn go_on<S: Alter>(
        &self,
        rt: &impl Abort,
        alloc: Global,
        conn: Connection<S>,
        reached: Reached,
    ) -> (Connection<S>, usize) {
        let none = Reached::at(0, reached.stop);
        let (conn, opened) = go_on(rt, alloc, conn, self.day, none);
        match opened {
            Ok(_) => (conn, 1),
            Err(code) => {
                held(rt, code == Code::NotOurs, code);
                (made_anew(rt, alloc, conn, self.day, none), 0)
            }
        }
    }
}

// Makes a centre in a database that is empty. No step was done.
fn made_anew<S: Alter>(
    rt: &impl Abort,
    alloc: Global,
    conn: Connection<S>,
    day: &Day,
    reached: Reached,
) -> Connection<S>
    requires { conn.in_transaction ≡ false }
{
    let mut conn = conn;
    let objects = number(&mut conn, "SELECT count(*) FROM sqlite_master");
    held(rt, objects == Ok(0), reached);
    let (conn, made) = make(alloc, conn);
    made.expect(rt, "a centre");
    let (conn, opened) = go_on(rt, alloc, conn, day, reached);
    opened.expect(rt, "tables");
    conn
}

/// The files of the centre before the first message.
pub(crate) fn new_centre(rt: &impl Abort, alloc: Global, day: &Day) -> Contents {
    let steps = Making {
        day,
        start: Contents::none(alloc),
    };
    let (contents, reached) = finished(rt, alloc, &steps);
    held(rt, reached.acknowledged == 1, reached);
    contents
}

/// Stops a file at each call while a centre is made in new files.
pub fn making_is_stopped(rt: &impl Abort, alloc: Global, file: File) -> Tally {
    let day = Day::told(rt, alloc);
    let steps = Making {
        day: &day,
        start: Contents::none(alloc),
    };
    are_stopped(rt, alloc, &steps, file)
}
