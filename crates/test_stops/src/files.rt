//! The two files of a centre in memory, and what a stop leaves of them.
ghost use Rattle.std.specs.Prelude.{◌≡◌, false, IsTrue, IfOk};
ghost use Rattle.sqlite_disk.specs.Memory.{memory_is_usable};

use crate::stops::{File, Stop};
use sqlite::{Alter, Connection, Error, FileStore, Files, Options};
use sqlite_disk::{Crash, Disk, Fuse, Memory};
use std::alloc::Global;
use std::process::Abort;

pub(crate) type Stopping = Fuse<Memory>;

pub(crate) type Database = Connection<FileStore<Fuse<Memory>>>;

/// What is in the log, and in the database file.
#[derive(Drop)]
pub struct Contents {
    log: Vec<u8>,
    database: Vec<u8>,
}

impl Contents {
    /// Two new files.
    pub fn none(alloc: Global) -> Contents {
        Contents {
            log: Vec::new(alloc),
            database: Vec::new(alloc),
        }
    }

    /// All that was written to these.
    pub(crate) fn written_to(rt: &impl Abort, alloc: Global, files: &Files<Stopping>) -> Contents {
        Contents {
            log: copied(rt, alloc, files.log.inner().bytes()),
            database: copied(rt, alloc, files.db.inner().bytes()),
        }
    }

    /// Opens a database in two files with this in them, up to a stop. Where it isn't opened, the files come back.
    pub(crate) fn open(
        &self,
        rt: &impl Abort,
        alloc: Global,
        stop: Stop,
    ) -> Result<Database, Files<Stopping>>
        ensures { IfOk result (λ conn. conn.in_transaction ≡ false) }
    {
        let log = file_of(rt, alloc, &self.log);
        let database = file_of(rt, alloc, &self.database);
        open_files(alloc, log, database, stop)
    }
}

fn copied(rt: &impl Abort, alloc: Global, bytes: &[u8]) -> Vec<u8> {
    bytes.to_vec(alloc).expect(rt, "memory")
}

// A file of these bytes, synced.
fn file_of(rt: &impl Abort, alloc: Global, bytes: &[u8]) -> Memory
    ensures { IsTrue (memory_is_usable result) }
{
    let mut file = Memory::new(alloc);
    file.write_at(0, bytes).expect(rt, "memory");
    file.sync().expect(rt, "a sync");
    file
}

// The log is copied into the database file every twenty pages, so that both are written all the time.
fn options() -> Options {
    let mut options = Options::new(7);
    options.checkpoint_frames = 20;
    options
}

fn open_files(
    alloc: Global,
    log: Memory,
    database: Memory,
    stop: Stop,
) -> Result<Database, Files<Stopping>>
    requires log { IsTrue (memory_is_usable log) }
    requires database { IsTrue (memory_is_usable database) }
    ensures { IfOk result (λ conn. conn.in_transaction ≡ false) }
{
    let (log_calls, database_calls) = match stop.file {
        File::Log => (stop.calls, u64::MAX),
        File::Database => (u64::MAX, stop.calls),
    };
    let files = Files {
        log: Fuse::new(log, log_calls),
        db: Fuse::new(database, database_calls),
    };
    match Connection::open_files(alloc, files, options()) {
        Ok(conn) => Ok(conn),
        Err((_error, left)) => Err(left.into_files()),
    }
}

// This and the next three promise nothing of what a store holds, so that the proofs of their callers stay short.

/// The files of a store, with nothing more done to them.
pub(crate) fn files_of(store: FileStore<Stopping>) -> Files<Stopping> {
    store.close()
}

/// The store of a database, with nothing more done to its files.
pub(crate) fn store_of<S: Alter + Drop>(conn: Connection<S>) -> S {
    conn.into_store()
}

pub fn run_statements<S: Alter>(conn: &mut Connection<S>, sql: &str) -> Result<(), Error> {
    conn.execute_batch(sql)
}

/// The number that a statement asks for.
pub fn number<S: Alter>(conn: &mut Connection<S>, sql: &str) -> Result<i64, Error>
    ensures { conn.old.in_transaction ≡ false → conn.new.in_transaction ≡ false }
{
    conn.query_row(sql, &[])?.get(0)
}

// What a stop may leave of a file: what was synced, as where the machine goes down, or all that was written, as where
// the program does. Where these are the same it is one.
fn left_of(rt: &impl Abort, alloc: Global, file: Stopping) -> Vec<Vec<u8>> {
    let mut file = file;
    let mut left = Vec::new(alloc);
    let written = copied(rt, alloc, file.inner().bytes());
    file.crash();
    if file.inner().bytes() != written.as_slice() {
        let synced = copied(rt, alloc, file.inner().bytes());
        left.push(synced).expect(rt, "memory");
    }
    left.push(written).expect(rt, "memory");
    left
}

fn add_each(
    rt: &impl Abort,
    alloc: Global,
    left: &mut Vec<Contents>,
    log: &[u8],
    databases: &[Vec<u8>],
) {
    for database in databases {
        let contents = Contents {
            log: copied(rt, alloc, log),
            database: copied(rt, alloc, database),
        };
        left.push(contents).expect(rt, "memory");
    }
}

/// What a stop may leave: of each file by itself what was synced, or all that was written.
pub(crate) fn left_by(rt: &impl Abort, alloc: Global, files: Files<Stopping>) -> Vec<Contents> {
    let Files { log, db } = files;
    let logs = left_of(rt, alloc, log);
    let databases = left_of(rt, alloc, db);
    let mut left = Vec::new(alloc);
    for log in &logs {
        add_each(rt, alloc, &mut left, log, &databases);
    }
    left
}
