//! The tables of a new centre, with its plan, made for good.
ghost use Rattle.std.specs.Prelude.{◌≡◌, true, false, OnOk, OnErr, IfErr, IfOk, IsTrue};
ghost use Rattle.sqlite.specs.State.{HasCleanDisk, Survives};
ghost use Rattle.sqlite.specs.Held.{state};
ghost use Rattle.channel_plan.specs.Plan.{is_plan as is_plan_of};
ghost use Rattle.station_tables_records.specs.Inside.{inside, Writes};
ghost use Rattle.station_tables_records.specs.Schema.{no_schema};
ghost use Rattle.station_tables_statements.specs.Rows.{BeginsBare, Holds, HoldsSet, Stands, plan_in_order};
ghost use Rattle.station_tables_statements.specs.Calls.{HasCentreSchema, WhileCleanTables};
ghost use Rattle.station_tables_writing.specs.Tables.{LeavesCommitted, IsNewCentre, MakesPlan, is_taken};
ghost use Rattle.station_tables_statements.specs.Standing.{IsAlone, OnCode, IsFault};

use crate::creating::make_tables;
use channel_plan::{Code, PlanRow};
use sqlite::{Alter, Connection, Error, ErrorCode, Transaction};
use sqlite_resolve::error::CompileError;
use station_tables_statements::{insert_channel, insert_office};
use std::alloc::{AllocError, Global};

/// The rows of a plan, which the caller has tested, by number.
pub fn rows_in_order(alloc: Global, plan: &[PlanRow]) -> Result<Vec<PlanRow>, AllocError>
    requires { is_plan_of plan.now ≡ true }
    ensures { IfOk result (λ rows. rows.items ≡ (plan_in_order plan.now).channels) }
{
    let mut rows = plan.to_vec(alloc)?;
    rows.sort_unstable_by_key(|row| row.ch);
    Ok(rows)
}

// Adds these channels to tables without a row but that of `office`, whose plan is tested.
fn insert_plan<S: Alter>(tx: &mut Transaction<'_, S>, plan: &[PlanRow]) -> Result<(), Error>
    ensures writes { Writes S.Store tx.old tx.new result }
    ensures makes { IsNewCentre (inside S.Store tx.old) → MakesPlan plan.now S.Store tx.old tx.new result }
{
    let Some((first, others)) = plan.split_first() else {
        return Ok(());
    };
    insert_plan(tx, others)?;
    insert_channel(tx, first)?;
    Ok(())
}

// Makes the tables of a new centre, and fills them.
fn fill<S: Alter>(tx: &mut Transaction<'_, S>, plan: &[PlanRow]) -> Result<(), Error>
    ensures writes { Writes S.Store tx.old tx.new result }
    ensures makes { is_plan_of plan.now ≡ true → BeginsBare no_schema (inside S.Store tx.old) →
        HasCleanDisk (inside S.Store tx.new) → OnOk result (IsTrue (inside S.Store tx.new).is_open
        × HoldsSet (plan_in_order plan.now) (inside S.Store tx.new).now) }
    ensures taken { WhileCleanTables S.Store tx.old tx.new (OnOk result ⊥) }
{
    make_tables(tx)?;
    insert_office(tx)?;
    insert_plan(tx, plan)
}

// Why the tables weren't made.
pub(crate) fn creation_code(error: &Error) -> Code
    ensures fault { IsFault result }
    ensures taken { result ≡ Code.NotOurs → is_taken error.now ≡ true }
    ensures told { is_taken error.now ≡ true → result ≡ Code.NotOurs }
{
    match error {
        Error::SqliteFailure(ErrorCode::NameTaken) | Error::SqlInputError(CompileError::Exists) => {
            Code::NotOurs
        }
        _ => Code::Unavailable,
    }
}

/// Makes the ten tables, the version and the channels of this plan, which the caller has tested, in one transaction.
///
/// Refused, nothing was made: [`Code::NotOurs`] where one of the tables is there, [`Code::Unavailable`] where memory,
/// size or disk ran out. The caller keeps that no transaction is open.
pub fn create_centre<S: Alter>(conn: &mut Connection<S>, plan: &[PlanRow]) -> Result<(), Code>
    requires idle { conn.old.in_transaction ≡ false }
    requires plan { is_plan_of plan.now ≡ true }
    ensures idle { conn.new.in_transaction ≡ false }
    ensures ok { BeginsBare no_schema (state S.Store conn.old) → HasCleanDisk (state S.Store conn.new) →
        OnOk result (Stands (state S.Store conn.new) (plan_in_order plan.now)) }
    ensures alone { HasCleanDisk (state S.Store conn.new) → OnOk result (IsAlone (state S.Store conn.new)) }
    // Over the tables of a centre none are made.
    ensures taken { HasCentreSchema (state S.Store conn.old) → HasCleanDisk (state S.Store conn.new) → OnOk result ⊥ }
    ensures codes { IfErr result IsFault }
    // Whatever the database held, a refusal leaves it, and as one of another so does a stop.
    ensures err { HasCleanDisk (state S.Store conn.new) →
        OnErr result (LeavesCommitted (state S.Store conn.old) (state S.Store conn.new)) }
    ensures ours { OnCode result Code.NotOurs (Survives (state S.Store conn.old) (state S.Store conn.new) (λ _. ⊥)) }
    ensures survives { BeginsBare no_schema (state S.Store conn.old) →
        Survives (state S.Store conn.old) (state S.Store conn.new) (Holds (plan_in_order plan.now)) }
{
    let mut tx = conn.transaction();
    if let Err(error) = fill(&mut tx, plan) {
        return Err(creation_code(&error));
    }
    tx.commit().map_err(|_| Code::Unavailable)
}
