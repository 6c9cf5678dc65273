//! A stop at each call on a file, of steps over a database.
ghost use Rattle.std.specs.Prelude.{◌≡◌, true, false};

use crate::files::{Contents, Stopping, files_of, left_by, store_of};
use sqlite::{Alter, Connection, Files};
use std::alloc::Global;
use std::fmt::Debug;
use std::process::Abort;

#[derive(Clone, Copy, Debug)]
pub enum File {
    Log,
    Database,
}

/// A file on which each call after so many fails.
#[derive(Clone, Copy, Debug)]
pub struct Stop {
    pub file: File,
    pub calls: u64,
}

impl Stop {
    pub const NEVER: Stop = Stop {
        file: File::Log,
        calls: u64::MAX,
    };
}

/// How many steps were acknowledged at a stop, and how many had begun.
#[derive(Clone, Copy, Debug)]
pub struct Reached {
    pub stop: Stop,
    pub acknowledged: usize,
    pub begun: usize,
}

impl Reached {
    /// No other step had begun.
    pub fn at(count: usize, stop: Stop) -> Reached {
        Reached {
            stop,
            acknowledged: count,
            begun: count,
        }
    }
}

/// Fails where this doesn't hold, and says at what.
pub fn held<D: Debug + Drop>(rt: &impl Abort, holds: bool, at: D)
    ensures { holds ≡ true }
{
    assert!(rt; holds, "{at:?}");
}

/// Steps over a database.
pub trait Steps {
    /// What is in its files before the first.
    fn start(&self) -> &Contents;

    fn count(&self) -> usize;

    /// Does them, up to a stop. Gives how far it came.
    fn run<S: Alter>(
        &self,
        rt: &impl Abort,
        alloc: Global,
        conn: Connection<S>,
        stop: Stop,
    ) -> (Connection<S>, Reached)
        requires { conn.in_transaction ≡ false };

    /// What a stop left is what some of the steps left, and more can be done with it. Gives how many.
    fn go_on<S: Alter>(
        &self,
        rt: &impl Abort,
        alloc: Global,
        conn: Connection<S>,
        reached: Reached,
    ) -> (Connection<S>, usize)
        requires { conn.in_transaction ≡ false };
}

// What is done with the database in some files: the steps, up to a stop, or more after one.
#[derive(Clone, Copy)]
enum Task {
    Run(Stop),
    GoOn(Reached),
}

impl Task {
    fn stop(self) -> Stop {
        match self {
            Task::Run(stop) => stop,
            Task::GoOn(_) => Stop::NEVER,
        }
    }
}

// Does the steps, up to a stop. Gives the files, and how far it came.
fn run<T: Steps>(
    rt: &impl Abort,
    alloc: Global,
    steps: &T,
    stop: Stop,
) -> (Files<Stopping>, Reached) {
    let (files, reached) = done_in_files(rt, alloc, steps, steps.start(), Task::Run(stop));
    (files, reached.unwrap_or(Reached::at(0, stop)))
}

/// Does the steps where nothing stops. Gives what is in the files then, and how far it came.
pub fn finished<T: Steps>(rt: &impl Abort, alloc: Global, steps: &T) -> (Contents, Reached) {
    let (files, reached) = run(rt, alloc, steps, Stop::NEVER);
    (Contents::written_to(rt, alloc, &files), reached)
}

fn goes_on<T: Steps>(
    rt: &impl Abort,
    alloc: Global,
    steps: &T,
    left: &Contents,
    reached: Reached,
) -> usize {
    let (_files, found) = done_in_files(rt, alloc, steps, left, Task::GoOn(reached));
    found.expect(rt, "files that open").acknowledged
}

// Files with this in them, and how far the task came where they open. Only this names their store in a call for any
// store, since each function that does takes long to prove.
fn done_in_files<T: Steps>(
    rt: &impl Abort,
    alloc: Global,
    steps: &T,
    contents: &Contents,
    task: Task,
) -> (Files<Stopping>, Option<Reached>) {
    match contents.open(rt, alloc, task.stop()) {
        Ok(conn) => {
            let (store, reached) = done_in_store(rt, alloc, steps, conn, task);
            (files_of(store), Some(reached))
        }
        Err(files) => (files, None),
    }
}

fn done_in_store<T: Steps, S: Alter + Drop>(
    rt: &impl Abort,
    alloc: Global,
    steps: &T,
    conn: Connection<S>,
    task: Task,
) -> (S, Reached)
    requires { conn.in_transaction ≡ false }
{
    let (conn, reached) = match task {
        Task::Run(stop) => steps.run(rt, alloc, conn, stop),
        Task::GoOn(reached) => {
            let (conn, found) = steps.go_on(rt, alloc, conn, reached);
            (conn, Reached::at(found, reached.stop))
        }
    };
    (store_of(conn), reached)
}

/// How many stops were tried, and how often the step that was running was found done after one, or undone.
#[derive(Clone, Copy, Debug)]
pub struct Tally {
    pub stops: u32,
    pub done: u32,
    pub undone: u32,
}

impl Tally {
    fn count(&mut self, reached: Reached, found: usize) {
        if reached.acknowledged == reached.begun {
            return;
        }
        if found == reached.begun {
            self.done = self.done.saturating_add(1);
        } else {
            self.undone = self.undone.saturating_add(1);
        }
    }
}

// All that may be left goes on: the steps that were acknowledged are in it, and none that hadn't begun.
fn each_goes_on<T: Steps>(
    rt: &impl Abort,
    alloc: Global,
    steps: &T,
    files: Files<Stopping>,
    reached: Reached,
    tally: &mut Tally,
) {
    for left in &left_by(rt, alloc, files) {
        let found = goes_on(rt, alloc, steps, left, reached);
        let is_reached = reached.acknowledged <= found && found <= reached.begun;
        held(rt, is_reached, reached);
        tally.count(reached, found);
    }
}

// No steps make so many calls on a file.
const CALLS: u64 = 10_000;

/// Stops the file at each call in turn, until there are no more.
pub fn are_stopped<T: Steps>(rt: &impl Abort, alloc: Global, steps: &T, file: File) -> Tally {
    let mut tally = Tally {
        stops: 0,
        done: 0,
        undone: 0,
    };
    for calls in 0..CALLS {
        let (files, reached) = run(rt, alloc, steps, Stop { file, calls });
        each_goes_on(rt, alloc, steps, files, reached, &mut tally);
        if reached.acknowledged == steps.count() {
            return tally;
        }
        tally.stops = tally.stops.saturating_add(1);
    }
    panic!(rt; "a run without a stop")
}
