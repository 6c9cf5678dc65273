//! A table of a channel, for people to read.
ghost use Rattle.std.specs.Prelude.{◌≡◌, OnOk, IfErr};
ghost use Rattle.channel_view_model.specs.Store.{WhileClean};
ghost use Rattle.playout_actions.specs.Tables.{PrintsTable, TableHas, IsTableFault, table_of};

use channel_view_model::{RowStore, Table, TableFault};
use playout_args::TableName;
use playout_lists::{Fault, StreamFault};
use std::io::Write;

/// The table that a word names.
pub fn table_of(name: TableName) -> Table
    ensures { result ≡ table_of name }
{
    match name {
        TableName::Vault => Table::Vault,
        TableName::Clips => Table::Clips,
        TableName::Offers => Table::Offers,
        TableName::Lent => Table::Lent,
        TableName::Days => Table::Days,
    }
}

/// Prints a table of one channel, row by row as the store reads them. With a fault a beginning of it was printed, and
/// nothing where the channel isn't in the plan.
pub fn print_table<S: RowStore, W: Write>(
    store: &mut S,
    channel: u16,
    table: Table,
    output: &mut W,
) -> Result<(), Fault>
    ensures clean { S.is_clean store.new → S.is_clean store.old }
    ensures ok { WhileClean (S.is_clean store.new) (S.stands_for store.old) (λ rows.
        OnOk result (PrintsTable rows channel table (W.contents output.old) (W.contents output.new))) }
    ensures err { WhileClean (S.is_clean store.new) (S.stands_for store.old) (λ rows.
        IfErr result (TableHas rows channel table (W.contents output.old) (W.contents output.new))) }
    // Of any rows, the channel isn't in the plan, memory or the store failed, or the writer.
    ensures faults { IfErr result IsTableFault }
    ensures same { WhileClean (S.is_clean store.new) (S.stands_for store.old) (λ rows. S.stands_for store.new rows) }
{
    match store.write_table(channel, table, output) {
        Ok(true) => Ok(()),
        Ok(false) => Err(Fault::NoChannel),
        Err(TableFault::Write) => Err(Fault::Stream(StreamFault::Write)),
        Err(TableFault::Unavailable) => Err(Fault::UNAVAILABLE),
    }
}
