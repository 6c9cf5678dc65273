//! A centre's tables of version 1, made those of version 2.
ghost use Rattle.std.specs.Prelude.{◌≡◌, false, OnOk, IfErr, IsTrue};
ghost use Rattle.sqlite.specs.State.{HasCleanDisk, Survives};
ghost use Rattle.sqlite.specs.Held.{state};
ghost use Rattle.station_tables_records.specs.Inside.{inside, Writes};
ghost use Rattle.station_tables_statements.specs.Rows.{HoldsSet, Holds};
ghost use Rattle.station_tables_statements.specs.Calls.{HasCentreSchema, HasFirstSchema, WhileCleanTables};
ghost use Rattle.station_tables_statements.specs.Standing.{OnCode, IsFault};
ghost use Rattle.station_tables_writing.specs.Migrating.{Migrates, RefusesToMigrate};
ghost use Rattle.station_tables_writing.specs.Tables.{WhereFirstSet};

use crate::creating::{SPAN, run};
use crate::founding::creation_code;
use channel_plan::Code;
use sqlite::{Alter, Connection, Transaction};
use station_tables_statements::RAISE_VERSION;

// Adds the table of windows, and sets the version. Only a table of windows that is there tells that they aren't those
// of version 1.
fn migrate_tables<S: Alter>(tx: &mut Transaction<'_, S>) -> Result<(), Code>
    ensures writes { Writes S.Store tx.old tx.new result }
    ensures makes { WhereFirstSet (inside S.Store tx.old) (λ rows. HasCleanDisk (inside S.Store tx.new) →
        OnOk result (IsTrue (inside S.Store tx.new).is_open × HoldsSet rows (inside S.Store tx.new).now)) }
    ensures taken { WhileCleanTables S.Store tx.old tx.new (OnOk result ⊥) }
    ensures free { HasFirstSchema (inside S.Store tx.old) → HasCleanDisk (inside S.Store tx.new) →
        OnCode result Code.NotOurs ⊥ }
    ensures codes { IfErr result IsFault }
{
    if let Err(error) = run(tx, SPAN) {
        return Err(creation_code(&error));
    }
    match run(tx, RAISE_VERSION) {
        Ok(_) => Ok(()),
        Err(_) => Err(Code::Unavailable),
    }
}

/// Makes a centre of version 1 one of version 2, in one transaction: it stands for the same set, in which no offer has
/// a window.
///
/// Refused, nothing was made: [`Code::NotOurs`] where the table of windows is there, [`Code::Unavailable`] where
/// memory, size or disk ran out. The caller has tested the tables and keeps that no transaction is open.
pub fn migrate_centre<S: Alter>(conn: &mut Connection<S>) -> Result<(), Code>
    requires idle { conn.old.in_transaction ≡ false }
    ensures idle { conn.new.in_transaction ≡ false }
    ensures made { OnOk result (Migrates (state S.Store conn.old) (state S.Store conn.new)) }
    ensures refused { IfErr result (RefusesToMigrate (state S.Store conn.old) (state S.Store conn.new)) }
    ensures clean { HasCleanDisk (state S.Store conn.new) → HasCleanDisk (state S.Store conn.old) }
    // A stop leaves what it might leave before, or the same set in the tables of version 2.
    ensures spares { HasCentreSchema (state S.Store conn.old) →
        Survives (state S.Store conn.old) (state S.Store conn.new) (λ _. ⊥) }
    ensures survives { WhereFirstSet (state S.Store conn.old)
        (λ rows. Survives (state S.Store conn.old) (state S.Store conn.new) (Holds rows)) }
{
    let mut tx = conn.transaction();
    migrate_tables(&mut tx)?;
    match tx.commit() {
        Ok(()) => Ok(()),
        Err(_) => Err(Code::Unavailable),
    }
}
