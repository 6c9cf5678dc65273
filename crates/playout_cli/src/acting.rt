//! The program over any reader and writers: what its words ask for, over a file or without one.
ghost use Rattle.std.specs.Prelude.{◌≡◌, ◌≤◌, false, map, option_map, string_bytes};
ghost use Rattle.sqlite.specs.Held.{state};
ghost use Rattle.edl.specs.Texts.{texts_of};
ghost use Rattle.playout_actions.specs.Office.{office_of};
ghost use Rattle.playout_lists.specs.Telling.{has_told};
ghost use Rattle.playout_cli.specs.Acting.{ActsOn, ActsOnFile, ActsOver, ActsOnWords, known_of};
ghost use Rattle.playout_cli.specs.Acting.{file_of as file_asked, rows_for as rows_asked};

use crate::file::{answer_tables, open_plan};
use crate::machine::{Files, Ports};
use crate::serve::{ServeAsked, serve_tables};
use crate::table::print_stored_table;
use channel_plan::PlanRow;
use playout_actions::{do_asked, plan_of, table_of};
use playout_args::{Action, read_words};
use playout_lists::{Fault, FaultLines, FaultWriter, Lists, exit_status, served_status};
use sqlite::{Alter, Connection, File, FileStore};
use sqlite_trees::store::Store;
use std::alloc::Global;
use std::io::{Read, Write};

// What goes over no file isn't asked for here.
const USAGE: u8 = 2;

/// Does over these tables what the words ask for, and gives the exit status. Plan rows make the tables; with none they
/// are there. The connection comes back.
pub fn act_on_tables<S: Alter, P: Ports, R: Read, W: Write, E: FaultWriter>(
    alloc: Global,
    ports: &P,
    conn: Connection<S>,
    plan: &[PlanRow],
    action: &Action<'_>,
    input: &mut R,
    output: &mut W,
    faults: &mut FaultLines<E>,
) -> (Connection<S>, u8)
    requires idle { conn.in_transaction ≡ false }
    ensures idle { result.0.in_transaction ≡ false }
    ensures status { result.1 ≤ 2 }
    ensures quiet { result.1 ≡ 0 → has_told E.contents faults.new ≡ has_told E.contents faults.old }
    ensures does { ActsOn (office_of R.remaining W.contents E.contents input.old input.new output.old output.new
        faults.old faults.new result.1) (known_of (state S.Store conn) (state S.Store result.0)) plan.now action.now }
{
    match action {
        Action::AnswerFile(_, _) => {
            let (conn, done) = answer_tables(alloc, conn, plan, input, output);
            (conn, exit_status(done, faults))
        }
        Action::Serve {
            port,
            peers,
            turns,
            idle,
            ..
        } => {
            let asked = ServeAsked {
                port: *port,
                peers: *peers,
                turns: *turns,
                idle: *idle,
            };
            let (conn, served) = serve_tables(alloc, ports, conn, asked, output, faults);
            (conn, served_status(served, faults))
        }
        Action::Table { channel, table, .. } => {
            let table = table_of(*table);
            let (conn, done) = print_stored_table(alloc, conn, *channel, table, output);
            (conn, exit_status(done, faults))
        }
        Action::Answer(_)
        | Action::Check(_)
        | Action::CheckFiles(_, _)
        | Action::Compare { .. }
        | Action::Events(_, _)
        | Action::Timecode(_, _) => (conn, USAGE),
    }
}

// The same over the tables in a file. It is opened first; where it can't be, nothing is read or written.
fn act_on_file<M: Files + Ports, R: Read, W: Write, E: FaultWriter>(
    alloc: Global,
    machine: &M,
    file: &str,
    plan: &[PlanRow],
    action: &Action<'_>,
    input: &mut R,
    output: &mut W,
    faults: &mut FaultLines<E>,
) -> u8
    ensures status { result ≤ 2 }
    ensures quiet { result ≡ 0 → has_told E.contents faults.new ≡ has_told E.contents faults.old }
    ensures does { ActsOnFile (state ⟦<FileStore<File> as Store>⟧) (M.holds machine.now file.now)
        (office_of R.remaining W.contents E.contents input.old input.new output.old output.new faults.old faults.new
        result) plan.now action.now }
{
    let conn = match open_plan(machine, file, plan) {
        Ok(conn) => conn,
        Err(fault) => return exit_status(Err(fault), faults),
    };
    let (conn, status) = act_on_tables(alloc, machine, conn, plan, action, input, output, faults);
    machine.close(conn);
    status
}

// The plan rows that the words have for a file.
fn rows_for<'a, 'w>(action: &'a Action<'w>) -> &'a [&'w str]
    ensures { texts_of result.now ≡ rows_asked action.now }
{
    match action {
        Action::AnswerFile(_, rows) => rows.as_slice(),
        _ => &[],
    }
}

// Does over a file what the words ask for. First their plan rows are read; where they are no plan, the file is left
// alone.
fn act_over<M: Files + Ports, R: Read, W: Write, E: FaultWriter>(
    alloc: Global,
    machine: &M,
    file: &str,
    action: &Action<'_>,
    input: &mut R,
    output: &mut W,
    faults: &mut FaultLines<E>,
) -> u8
    ensures status { result ≤ 2 }
    ensures quiet { result ≡ 0 → has_told E.contents faults.new ≡ has_told E.contents faults.old }
    ensures does { ActsOver (state ⟦<FileStore<File> as Store>⟧) (M.holds machine.now file.now)
        (office_of R.remaining W.contents E.contents input.old input.new output.old output.new faults.old faults.new
        result) action.now }
{
    match plan_of(alloc, rows_for(action)) {
        Ok(plan) => act_on_file(alloc, machine, file, &plan, action, input, output, faults),
        Err(refusal) => exit_status(Err(Fault::Refused(refusal)), faults),
    }
}

// The file of the database that is asked for, if one is.
fn file_of<'w>(action: &Action<'w>) -> Option<&'w str>
    ensures { option_map (λ t. t.now) result ≡ file_asked action.now }
{
    match action {
        Action::AnswerFile(file, _) => Some(file),
        Action::Serve { file, .. } => Some(file),
        Action::Table { file, .. } => Some(file),
        Action::Answer(_)
        | Action::Check(_)
        | Action::CheckFiles(_, _)
        | Action::Compare { .. }
        | Action::Events(_, _)
        | Action::Timecode(_, _) => None,
    }
}

/// Does what the words ask for, the program's name left out, and gives the exit status: 0 where it was done or help was
/// asked for, 1 after a fault, which `faults` has as one line, and 2 where the words ask for nothing.
pub fn program<M: Files + Lists + Ports, R: Read, W: Write, E: FaultWriter>(
    alloc: Global,
    machine: &M,
    words: &[String],
    input: &mut R,
    output: &mut W,
    faults: &mut FaultLines<E>,
) -> u8
    ensures status { result ≤ 2 }
    // Status 0 says nothing on standard error.
    ensures quiet { result ≡ 0 → has_told E.contents faults.new ≡ has_told E.contents faults.old }
    ensures does { ActsOnWords (state ⟦<FileStore<File> as Store>⟧) (M.holds machine.now) (M.gives machine.now)
        (office_of R.remaining W.contents E.contents input.old input.new output.old output.new faults.old faults.new
        result) (map string_bytes words.now) }
{
    let asked = read_words(alloc, words);
    match &asked {
        Ok(action) => match file_of(action) {
            Some(file) => act_over(alloc, machine, file, action, input, output, faults),
            None => do_asked(alloc, machine, &asked, input, output, faults),
        },
        Err(_) => do_asked(alloc, machine, &asked, input, output, faults),
    }
}
