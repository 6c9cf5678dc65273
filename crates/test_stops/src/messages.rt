//! Stops while the messages of a day are answered.
use crate::centre::{ask, go_on};
use crate::day::Day;
use crate::files::{Contents, run_statements};
use crate::making::new_centre;
use crate::stops::{File, Reached, Steps, Stop, Tally, are_stopped, held};
use channel_plan::Code;
use sqlite::{Alter, Connection};
use std::alloc::Global;
use std::process::Abort;

/// Each of the first messages of a day is a step, in a new centre.
#[derive(Drop)]
pub(crate) struct Messages<'a> {
    pub(crate) day: &'a Day,
    pub(crate) centre: Contents,
    pub(crate) count: usize,
    /// Statements that are run behind the last.
    pub(crate) last: &'static str,
}

impl Steps for Messages<'_> {
    fn start(&self) -> &Contents {
        &self.centre
    }

    fn count(&self) -> usize {
        self.count
    }

    fn run<S: Alter>(
        &self,
        rt: &impl Abort,
        alloc: Global,
        conn: Connection<S>,
        stop: Stop,
    ) -> (Connection<S>, Reached) {
        let (mut conn, asked) = ask(rt, alloc, conn, self.day, 0..self.count, stop);
        match asked {
            Ok(reached) => {
                let done = run_statements(&mut conn, self.last);
                let is_done = done.is_ok() || reached.acknowledged < self.count;
                held(rt, is_done, stop);
                (conn, reached)
            }
            Err(code) => {
                held(rt, code == Code::Unavailable, code);
                (conn, Reached::at(0, stop))
            }
        }
    }

    fn go_on<S: Alter>(
        &self,
        rt: &impl Abort,
        alloc: Global,
        conn: Connection<S>,
        reached: Reached,
    ) -> (Connection<S>, usize) {
        let (conn, opened) = go_on(rt, alloc, conn, self.day, reached);
        (conn, opened.expect(rt, "tables"))
    }
}

/// Stops a file at each call while the messages of a day are answered in a new centre.
pub fn messages_are_stopped(rt: &impl Abort, alloc: Global, day: &Day, file: File) -> Tally {
    let steps = Messages {
        day,
        centre: new_centre(rt, alloc, day),
        count: day.len(),
        last: "",
    };
    are_stopped(rt, alloc, &steps, file)
}
