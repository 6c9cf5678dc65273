//! The word `table`: a table of a channel, over a database in a file.
ghost use Rattle.std.specs.Prelude.{◌≡◌, ◌⊎◌, [], false, OnOk, Err, IfErr};
ghost use Rattle.sqlite.specs.State.{HasCleanDisk};
ghost use Rattle.sqlite.specs.Held.{state};
ghost use Rattle.channel_plan.specs.declared.refusal.Code.TheVariants as Code;
ghost use Rattle.channel_plan.specs.declared.refusal.Refusal.{Refusal};
ghost use Rattle.channel_plan.specs.Refusal.{refused};
ghost use Rattle.channel_view_model.specs.Centre.{Centre};
ghost use Rattle.playout_actions.specs.Tables.{PrintsTable, TableHas};
ghost use Rattle.station_tables_statements.specs.Rows.{StandsFor};
ghost use Rattle.station_tables_opening.specs.Left.{LeavesFound};
ghost use Rattle.playout_cli.specs.Kept.{BeginsWith};
ghost use Rattle.station_tables_opening.specs.Opens.{RefusesToOpen};
ghost use Rattle.playout_cli.specs.Serving.{PrintHas};

use channel_view_model::Table;
use playout_actions::print_table;
use playout_lists::Fault;
use sqlite::{Alter, Connection};
use station_tables::SqlRows;
use std::alloc::Global;
use std::io::Write;

/// Opens the tables of a centre, and prints a table of one channel from them, row by row. The connection comes back,
/// and the rows are as they were.
pub fn print_stored_table<S: Alter, W: Write>(
    alloc: Global,
    conn: Connection<S>,
    channel: u16,
    table: Table,
    output: &mut W,
) -> (Connection<S>, Result<(), Fault>)
    requires idle { conn.in_transaction ≡ false }
    ensures idle { result.0.in_transaction ≡ false }
    // Of the rows that the tables held.
    ensures ok { OnOk result.1 (HasCleanDisk (state S.Store result.0) → (rows : Centre) →
        BeginsWith [] (state S.Store conn) rows →
        PrintsTable rows channel table (W.contents output.old) (W.contents output.new)) }
    ensures err { IfErr result.1 (λ fault. HasCleanDisk (state S.Store result.0) → (rows : Centre) →
        BeginsWith [] (state S.Store conn) rows →
        TableHas rows channel table (W.contents output.old) (W.contents output.new) fault) }
    ensures faults { IfErr result.1 PrintHas }
    // Tables that aren't a centre's, or of another version, are as they were; or memory, size or the disk ran out.
    ensures refused { (refusal : Refusal) → result.1 ≡ Err (Fault.Refused refusal) →
        RefusesToOpen (state S.Store conn) (state S.Store result.0) refusal ⊎ (refusal ≡ refused Code.Unavailable) }
    // The tables stand for these rows still, or what is committed is what was, or what was found.
    ensures same { HasCleanDisk (state S.Store result.0) → (rows : Centre) →
        BeginsWith [] (state S.Store conn) rows →
        StandsFor (state S.Store result.0) rows ⊎ LeavesFound (state S.Store conn) (state S.Store result.0) }
{
    match SqlRows::open_tables(alloc, conn) {
        Ok(mut store) => {
            let done = print_table(&mut store, channel, table, output);
            (store.into_connection(), done)
        }
        Err((conn, refusal)) => (conn, Err(Fault::Refused(refusal))),
    }
}
