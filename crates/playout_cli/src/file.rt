//! The word `answer` over a database in a file, and how that is opened.
ghost use Rattle.std.specs.Prelude.{◌≡◌, false, Ok, Err, OnOk, IfOk, IfErr};
ghost use Rattle.sqlite.specs.State.{HasCleanDisk};
ghost use Rattle.sqlite.specs.Held.{state};
ghost use Rattle.channel_plan.specs.declared.refusal.Refusal.{Refusal};
ghost use Rattle.channel_view_model.specs.Centre.{Centre};
ghost use Rattle.http_office.specs.declared.serving.End.{End};
ghost use Rattle.station_tables_statements.specs.Rows.{StandsFor};
ghost use Rattle.station_tables_opening.specs.Left.{LeavesFound};
ghost use Rattle.station_tables.specs.Store.{StandsWithPlan};
ghost use Rattle.playout_actions.specs.Answering.{ServesOn};
ghost use Rattle.playout_cli.specs.Kept.{BeginsWith};
ghost use Rattle.playout_cli.specs.Refusing.{RefusesTables};
ghost use Rattle.playout_cli.specs.Serving.{TablesHave, FindsNone};
ghost use Rattle.station_tables_writing.specs.Tables.{MayLeave};

use crate::machine::Files;
use crate::vaults::with_vaults;
use channel_plan::{Code, PlanRow, Refusal};
use playout_actions::answer_over;
use playout_lists::Fault;
use rows_at_hand::RecentDays;
use sqlite::{Alter, Connection, File, FileStore};
use sqlite_trees::store::Store;
use station_tables::SqlRows;
use std::alloc::Global;
use std::io::{Read, Write};

// Opens a file that is there. One that isn't holds no tables of a centre, and none is made.
fn open_found<F: Files>(files: &F, file: &str) -> Result<Connection<FileStore<File>>, Fault>
    ensures idle { IfOk result (λ conn. conn.in_transaction ≡ false) }
    ensures holds { IfOk result (λ conn. F.holds files.now file.now
        (state ⟦<FileStore<File> as Store>⟧ conn)) }
    ensures err { IfErr result FindsNone }
{
    if files.is_missing(file) {
        return Err(Fault::Refused(Refusal::of(Code::NotOurs)));
    }
    files.open(file)
}

/// Opens the file in which tables are made for the plan, or with no row of a plan one that is there.
pub(crate) fn open_plan<F: Files>(
    files: &F,
    file: &str,
    plan: &[PlanRow],
) -> Result<Connection<FileStore<File>>, Fault>
    ensures idle { IfOk result (λ conn. conn.in_transaction ≡ false) }
    ensures holds { IfOk result (λ conn. F.holds files.now file.now
        (state ⟦<FileStore<File> as Store>⟧ conn)) }
    ensures err { IfErr result FindsNone }
{
    match plan.is_empty() {
        true => open_found(files, file),
        false => files.open(file),
    }
}

// The tables made for the plan, or with no row of a plan those that are there.
fn store_in<S: Alter>(
    alloc: Global,
    conn: Connection<S>,
    plan: &[PlanRow],
) -> Result<SqlRows<S>, (Connection<S>, Refusal)>
    requires idle { conn.in_transaction ≡ false }
    ensures rows { IfOk result (λ s. HasCleanDisk (state S.Store s.conn) → (rows : Centre) →
        BeginsWith plan.now (state S.Store conn) rows → StandsWithPlan S.Store s rows) }
    // A stop leaves just these.
    ensures alone { IfOk result (λ s. HasCleanDisk (state S.Store s.conn) → (rows : Centre) →
        BeginsWith plan.now (state S.Store conn) rows → (left : Centre) → MayLeave (state S.Store s.conn) left →
        left ≡ rows) }
    ensures idle { IfErr result (λ e. e.0.in_transaction ≡ false) }
    ensures kept { IfErr result (λ e. HasCleanDisk (state S.Store e.0) →
        LeavesFound (state S.Store conn) (state S.Store e.0)) }
    ensures refused { IfErr result (λ e. RefusesTables plan.now (state S.Store conn) (state S.Store e.0) e.1) }
{
    if plan.is_empty() {
        SqlRows::open_tables(alloc, conn)
    } else {
        SqlRows::create(alloc, conn, plan)
    }
}

/// Makes the tables of a centre for the plan, or with no row of a plan opens those that are there, and answers the
/// messages of the input over them. The connection comes back.
pub fn answer_tables<S: Alter, R: Read, W: Write>(
    alloc: Global,
    conn: Connection<S>,
    plan: &[PlanRow],
    input: &mut R,
    output: &mut W,
) -> (Connection<S>, Result<(), Fault>)
    requires idle { conn.in_transaction ≡ false }
    ensures idle { result.0.in_transaction ≡ false }
    // Over the plan alone, or over the rows that the tables held. The tables stand for the rows that are left, and a
    // stop leaves these, or whole messages.
    ensures ok { OnOk result.1 ((end : End) × ServesOn
        (λ rows. HasCleanDisk (state S.Store result.0) × BeginsWith plan.now (state S.Store conn) rows)
        (StandsFor (state S.Store result.0)) (MayLeave (state S.Store result.0))
        (R.remaining input.old) (R.remaining input.new)
        (W.contents output.old) (W.contents output.new) (Ok end)) }
    ensures err { IfErr result.1 (TablesHave (RefusesTables plan.now (state S.Store conn) (state S.Store result.0))
        (λ rows. HasCleanDisk (state S.Store result.0) × BeginsWith plan.now (state S.Store conn) rows)
        (StandsFor (state S.Store result.0)) (MayLeave (state S.Store result.0))
        (R.remaining input.old) (R.remaining input.new)
        (W.contents output.old) (W.contents output.new)) }
    // Where the tables are refused, what is committed is what was, or what was found, whatever the database holds.
    ensures refused { (refusal : Refusal) → result.1 ≡ Err (Fault.Refused refusal) →
        HasCleanDisk (state S.Store result.0) → LeavesFound (state S.Store conn) (state S.Store result.0) }
{
    match store_in(alloc, conn, plan) {
        Ok(opened) => {
            let mut store = RecentDays::over(alloc, with_vaults(alloc, opened));
            let done = answer_over(alloc, &mut store, input, output);
            let tables = store.into_store().into_store().into_store();
            let conn = tables.into_connection();
            match done {
                Ok(()) => (conn, Ok(())),
                Err(fault) => (conn, Err(Fault::Stream(fault))),
            }
        }
        Err((conn, refusal)) => (conn, Err(Fault::Refused(refusal))),
    }
}
