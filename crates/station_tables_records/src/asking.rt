//! A text of SELECT that is asked inside a transaction, and what it shows read as the values of a table.
ghost use Rattle.std.specs.Prelude.{◌≡◌, IfOk, IfErr, IfSome, IfNone};
ghost use Rattle.std.specs.declared.cmp.Ordering.TheVariants.{Less};
ghost use Rattle.sqlite_trees.specs.Tree.{IsAscending};
ghost use Rattle.sqlite.specs.State.{HasCleanDisk};
ghost use Rattle.sqlite.specs.Values.{bound};
ghost use Rattle.station_tables_records.specs.Inside.{inside, Reads};
ghost use Rattle.station_tables_records.specs.Asking.{IsReading, Answers, AnswersNone, FailsToAsk};

use crate::stored::{StoredRow, read_rows};
use sqlite::types::ValueRef;
use sqlite::{Alter, Error, Transaction};
use std::alloc::Global;

/// Asks a text of SELECT with these values for its parameters: what the rows that it shows stand for, in their order,
/// or `None` where they don't read. The text only reads: it says no RETURNING. It fails with the error of the
/// statement, or for want of memory.
pub fn ask<T: StoredRow, S: Alter>(
    alloc: Global,
    tx: &mut Transaction<'_, S>,
    text: &str,
    values: &[ValueRef<'_>],
) -> Result<Option<Vec<T>>, Error>
    requires reading { IsReading text.now }
    ensures reads { Reads S.Store tx.old tx.new result }
    ensures rise { IfOk result (λ o. IfSome o (λ list. IsAscending (λ a b. T.table.cmp a b ≡ Less) list.items)) }
    ensures some { HasCleanDisk (inside S.Store tx.new) → IfOk result (λ o. IfSome o (λ list.
        Answers T.table text.now (bound values.now) (inside S.Store tx.old) (inside S.Store tx.new) list.items)) }
    ensures none { HasCleanDisk (inside S.Store tx.new) → IfOk result (λ o. IfNone o
        (AnswersNone T.table T.fits text.now (bound values.now) (inside S.Store tx.old) (inside S.Store tx.new))) }
    ensures err { HasCleanDisk (inside S.Store tx.new) →
        IfErr result (FailsToAsk text.now (bound values.now) (inside S.Store tx.old) (inside S.Store tx.new)) }
{
    let rows = tx.query_all(text, values)?;
    Ok(read_rows(alloc, &rows)?)
}
