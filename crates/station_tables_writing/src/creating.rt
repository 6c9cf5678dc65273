//! The tables of a new centre, each made by a text of its own, inside a transaction.
ghost use Rattle.std.specs.Prelude.{◌≡◌, false, [], map, Err, OnOk, IsTrue};
ghost use Rattle.sqlite.specs.State.{ExecutesInside, HasCleanDisk};
ghost use Rattle.station_tables_records.specs.Inside.{inside, Writes};
ghost use Rattle.station_tables_records.specs.Schema.{no_schema, centre_schema};
ghost use Rattle.station_tables_statements.specs.Calls.{WhileCleanTables};
ghost use Rattle.station_tables_writing.specs.Tables.{MakesTables, Ran, RanAll};

use sqlite::{Alter, Error, ErrorCode, Transaction};

/// The table of the windows of days in which offers may be shown.
pub(crate) const SPAN: &str = "CREATE TABLE span (ch INTEGER NOT NULL, n INTEGER NOT NULL, \
     first_day INTEGER NOT NULL, last_day INTEGER NOT NULL, PRIMARY KEY (ch, n), \
     CHECK (1 <= first_day AND first_day <= last_day AND last_day <= 99999)) STRICT";

// The tables, in the order in which they are made.
const TABLES: [&str; 10] = [
    // the version
    "CREATE TABLE office (one INTEGER NOT NULL PRIMARY KEY CHECK (one = 1), \
     version INTEGER NOT NULL) STRICT",
    // the channels of the plan
    "CREATE TABLE channel (ch INTEGER NOT NULL PRIMARY KEY CHECK (ch BETWEEN 1 AND 999), \
     rate TEXT NOT NULL, start INTEGER NOT NULL, \
     slots INTEGER NOT NULL CHECK (slots BETWEEN 1 AND 9999)) STRICT",
    // the tapes
    "CREATE TABLE tape (ch INTEGER NOT NULL, n INTEGER NOT NULL, barcode TEXT NOT NULL, \
     slot INTEGER, PRIMARY KEY (ch, n), UNIQUE (ch, barcode), UNIQUE (ch, slot, n)) STRICT",
    // the clips
    "CREATE TABLE clip (ch INTEGER NOT NULL, n INTEGER NOT NULL, tape INTEGER NOT NULL, \
     title TEXT NOT NULL, umid BLOB NOT NULL, src_first INTEGER NOT NULL, \
     frames INTEGER NOT NULL, retired INTEGER NOT NULL, PRIMARY KEY (ch, n), \
     UNIQUE (ch, umid)) STRICT",
    // the offers of clips to other channels
    "CREATE TABLE offer (ch INTEGER NOT NULL, n INTEGER NOT NULL, grantee INTEGER NOT NULL, \
     clip INTEGER NOT NULL, title TEXT NOT NULL, umid BLOB NOT NULL, rate TEXT NOT NULL, \
     src_first INTEGER NOT NULL, frames INTEGER NOT NULL, withdrawn INTEGER NOT NULL, \
     PRIMARY KEY (ch, n), UNIQUE (grantee, ch, n), \
     UNIQUE (ch, clip, grantee, n)) STRICT",
    // the days
    "CREATE TABLE day (ch INTEGER NOT NULL, day INTEGER NOT NULL, sealed INTEGER NOT NULL, \
     PRIMARY KEY (ch, day)) STRICT",
    // what the days play
    "CREATE TABLE item (ch INTEGER NOT NULL, day INTEGER NOT NULL, n INTEGER NOT NULL, \
     pos INTEGER NOT NULL, frames INTEGER NOT NULL, src TEXT NOT NULL, \
     src_first INTEGER NOT NULL, kind TEXT NOT NULL, mix INTEGER NOT NULL, \
     PRIMARY KEY (ch, day, n), UNIQUE (ch, day, pos)) STRICT",
    // the as-run lists that came in
    "CREATE TABLE batch (ch INTEGER NOT NULL, day INTEGER NOT NULL, n INTEGER NOT NULL, \
     PRIMARY KEY (ch, day, n)) STRICT",
    // their lines
    "CREATE TABLE aired (ch INTEGER NOT NULL, day INTEGER NOT NULL, batch INTEGER NOT NULL, \
     line INTEGER NOT NULL, pos INTEGER NOT NULL, frames INTEGER NOT NULL, src TEXT NOT NULL, \
     src_first INTEGER NOT NULL, PRIMARY KEY (ch, day, batch, line)) STRICT",
    SPAN,
];

/// Runs a text.
pub(crate) fn run<S: Alter>(tx: &mut Transaction<'_, S>, text: &str) -> Result<usize, Error>
    ensures writes { Writes S.Store tx.old tx.new result }
    ensures ran { HasCleanDisk (inside S.Store tx.new) →
        OnOk result (Ran text.now (inside S.Store tx.old) (inside S.Store tx.new)) }
    ensures ended { (inside S.Store tx.old).in_transaction ≡ false →
        result ≡ Err (Error.SqliteFailure ErrorCode.TransactionState) }
    ensures runs { HasCleanDisk (inside S.Store tx.new) → IsTrue (inside S.Store tx.old).in_transaction →
        ExecutesInside 0 text.now [] (inside S.Store tx.old) (inside S.Store tx.new) result }
{
    tx.execute(text, &[])
}

// Runs these texts, one after another.
fn run_all<S: Alter>(tx: &mut Transaction<'_, S>, texts: &[&str]) -> Result<(), Error>
    ensures writes { Writes S.Store tx.old tx.new result }
    ensures ran { HasCleanDisk (inside S.Store tx.new) →
        OnOk result (RanAll S.Store (map (λ text. text.now) texts.now) tx.old tx.new) }
{
    let Some((first, others)) = texts.split_first() else {
        return Ok(());
    };
    run(tx, first)?;
    run_all(tx, others)
}

/// Makes the ten tables, without a row. Where they are there, it doesn't.
pub(crate) fn make_tables<S: Alter>(tx: &mut Transaction<'_, S>) -> Result<(), Error>
    ensures writes { Writes S.Store tx.old tx.new result }
    ensures makes { MakesTables no_schema centre_schema S.Store tx.old tx.new result }
    ensures taken { WhileCleanTables S.Store tx.old tx.new (OnOk result ⊥) }
{
    run_all(tx, &TABLES)
}
