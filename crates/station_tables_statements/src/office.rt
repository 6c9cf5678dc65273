//! The row of the version: what is asked of it and written, inside a transaction.
ghost use Rattle.std.specs.Prelude.{◌↔◌, [], ℤ, IfOk, IfErr, OnOk};
ghost use Rattle.sqlite.specs.State.{HasCleanDisk};
ghost use Rattle.station_tables_records.specs.Table.{IsShortage};
ghost use Rattle.station_tables_records.specs.Inside.{inside, Reads, Writes};
ghost use Rattle.station_tables_records.specs.Schema.{centre_schema};
ghost use Rattle.station_tables_records.specs.OfficeRow.{HasVersion};
ghost use Rattle.station_tables_statements.specs.Calls.{WhileKnownTables};
ghost use Rattle.station_tables_statements.specs.Rows.{Changes, OwnsRows, BeginsBare, no_rows};

use crate::columns::table_text;
use sqlite::{Alter, Error, Row, Transaction};

// The texts that name the columns of `office`.
macro_rules! office_text {
    ($text:ident $($rest:literal)?) => {
        table_text!($text "office" "one, version" "1, 2" $($rest)?)
    };
}

/// Makes the version 2.
pub const RAISE_VERSION: &str = "UPDATE office SET version = 2";

/// All rows of `office`, each with its rowid, `one` and version. It fails with the error of the statement: on
/// a centre's tables, that memory, the disk or a limit stopped it.
pub fn office_rows<S: Alter>(tx: &mut Transaction<'_, S>) -> Result<Vec<Row>, Error>
    ensures reads { Reads S.Store tx.old tx.new result }
    ensures rows { WhileKnownTables S.Store tx.old tx.new (IfOk result (λ rows. (version : ℤ) →
        HasVersion version rows.items ↔ HasVersion version ((inside S.Store tx.old).now.trees 0))) }
    ensures short { WhileKnownTables S.Store tx.old tx.new (IfErr result IsShortage) }
{
    tx.query_all(office_text!(SELECT "ORDER BY one"), &[])
}

/// Adds the one row of `office`, of version 2, to tables without a row. It answers as [`insert_channel`] does, and
/// commits nothing.
pub fn insert_office<S: Alter>(tx: &mut Transaction<'_, S>) -> Result<usize, Error>
    ensures writes { Writes S.Store tx.old tx.new result }
    ensures makes { BeginsBare centre_schema (inside S.Store tx.old) → HasCleanDisk (inside S.Store tx.new) →
        OnOk result (Changes (λ _. no_rows) (inside S.Store tx.old) (inside S.Store tx.new)
        × OwnsRows (inside S.Store tx.new).now.trees) }
{
    tx.execute(office_text!(INSERT), &[])
}
