//! Stops while tables of version 1 become those of version 2.
ghost use Rattle.std.specs.Prelude.{◌≡◌, false};

use crate::centre::{ask, go_on, reached_by_one};
use crate::day::{Day, WITHOUT_WINDOWS};
use crate::files::{Contents, number};
use crate::making::new_centre;
use crate::messages::Messages;
use crate::stops::{File, Reached, Steps, Stop, Tally, are_stopped, finished, held};
use sqlite::{Alter, Connection};
use std::alloc::Global;
use std::process::Abort;

// The tables of version 1 are those of version 2 without that of windows.
const AS_FIRST: &str = "DROP TABLE span; UPDATE office SET version = 1";

// The files of a centre of version 1, after the messages before the first window.
fn first_version(rt: &impl Abort, alloc: Global, day: &Day) -> Contents {
    let steps = Messages {
        day,
        centre: new_centre(rt, alloc, day),
        count: WITHOUT_WINDOWS,
        last: AS_FIRST,
    };
    let (contents, reached) = finished(rt, alloc, &steps);
    held(rt, reached.acknowledged == WITHOUT_WINDOWS, reached);
    contents
}

// Whether these are tables of version 2. If not, they are those of version 1.
fn is_second<S: Alter>(rt: &impl Abort, conn: &mut Connection<S>, stop: Stop) -> bool
    ensures { conn.old.in_transaction ≡ false → conn.new.in_transaction ≡ false }
{
    let version = number(conn, "SELECT version FROM office");
    let tables = number(
        conn,
        "SELECT count(*) FROM sqlite_master WHERE name = 'span'",
    );
    let is_second = version == Ok(2);
    let is_first = version == Ok(1);
    let is_either = (is_second && tables == Ok(1)) || (is_first && tables == Ok(0));
    held(rt, is_either, stop);
    is_second
}

// One step: the tables of version 1 are opened.
#[derive(Drop)]
struct Migration<'a> {
    day: &'a Day,
    first: Contents,
}

impl Steps for Migration<'_> {
    fn start(&self) -> &Contents {
        &self.first
    }

    fn count(&self) -> usize {
        1
    }

    fn run<S: Alter>(
        &self,
        rt: &impl Abort,
        alloc: Global,
        conn: Connection<S>,
        stop: Stop,
    ) -> (Connection<S>, Reached) {
        let (conn, opened) = ask(rt, alloc, conn, self.day, 0..0, stop);
        let opened = match opened {
            Ok(_) => Ok(()),
            Err(code) => Err(code),
        };
        (conn, reached_by_one(rt, opened, stop))
    }

    // A centre of either version, which opens and has all that it had.
    fn go_on<S: Alter>(
        &self,
        rt: &impl Abort,
        alloc: Global,
        conn: Connection<S>,
        reached: Reached,
    ) -> (Connection<S>, usize) {
        let mut conn = conn;
        let is_second = is_second(rt, &mut conn, reached.stop);
        let asked = Reached::at(WITHOUT_WINDOWS, reached.stop);
        let (conn, opened) = go_on(rt, alloc, conn, self.day, asked);
        opened.expect(rt, "tables");
        (conn, usize::from(is_second))
    }
}

/// Stops a file at each call while tables of version 1 become those of version 2.
pub fn migration_is_stopped(rt: &impl Abort, alloc: Global, file: File) -> Tally {
    let day = Day::told(rt, alloc);
    let steps = Migration {
        day: &day,
        first: first_version(rt, alloc, &day),
    };
    are_stopped(rt, alloc, &steps, file)
}
