//! All rows of a table, read channel by channel: what a statement shows is held of one channel at a time.
ghost use Rattle.std.specs.Prelude.{◌≡◌, ◌++◌, ℤ, List, length, is_ok, IsTrue, IfOk, IfErr, IfSome, OnOk};
ghost use Rattle.std.specs.Ordering.{int_cmp};
ghost use Rattle.std.specs.List.Sorted.{IsPermutation};
ghost use Rattle.sqlite_value.specs.Order.{Row as Shown};
ghost use Rattle.station_tables_records.specs.Content.{HaveKeys};
ghost use Rattle.station_tables_records.specs.Inside.{inside, Reads};
ghost use Rattle.station_tables_records.specs.Table.{IsShortage, HoldsRows, HoldsFitting, ReadAs, ReadAsNone, rows_in};
ghost use Rattle.station_tables_records.proofs.KeyLemmas.{AreRowids};
ghost use Rattle.station_tables_records.specs.MadeDays.{Rise, plan_cmp};
ghost use Rattle.station_tables_statements.specs.Standing.{OnCode, IsFault};
ghost use Rattle.station_tables_statements.specs.Calls.{WhileKnownTables};
ghost use Rattle.station_tables_statements.specs.ByChannel.{count_row};
ghost use Rattle.station_tables_opening.specs.Parts.{ArePlanned, AddsChannel};

use crate::finding::code_of;
use channel_plan::{Code, PlanRow};
use sqlite::types::ValueRef;
use sqlite::{Alter, Error, Row, Transaction};
use station_tables_records::{StoredRow, read_each, read_rows, rowid_of};
use station_tables_statements::ChannelTable;
use std::alloc::Global;

// The rowids of these rows. Rows that read have one each.
fn rowids_of(alloc: Global, shown: &[Row]) -> Result<Vec<i64>, Code>
    ensures ids { IfOk result (λ ids. AreRowids shown.now ids.items) }
    ensures codes { IfErr result (λ e. e ≡ Code.Unavailable) }
{
    match read_each(alloc, shown, |row| rowid_of(row)) {
        Ok(Some(ids)) => Ok(ids),
        _ => Err(Code::Unavailable),
    }
}

// What these rows of a table read as, in their order.
fn list_of<T: StoredRow>(alloc: Global, shown: &[Row]) -> Result<Vec<T>, Code>
    ensures list { IfOk result (λ list. ReadAs T.table shown.now list.items) }
    ensures ours { OnCode result Code.NotOurs (ReadAsNone T.table T.fits shown.now) }
    ensures codes { IfErr result IsFault }
{
    match read_rows(alloc, shown) {
        Ok(Some(list)) => Ok(list),
        Ok(None) => Err(Code::NotOurs),
        Err(_) => Err(Code::Unavailable),
    }
}

// Puts all of one list behind another.
fn append<T: Drop>(list: &mut Vec<T>, more: Vec<T>) -> Result<(), Code>
    ensures items { OnOk result (list.new.items ≡ list.old.items ++ more.items) }
    ensures codes { IfErr result (λ e. e ≡ Code.Unavailable) }
{
    let mut more = more;
    match list.append(&mut more) {
        Ok(()) => Ok(()),
        Err(_) => Err(Code::Unavailable),
    }
}

// Puts what these rows of a table read as behind what was read, and their rowids. After an error both lists are of no
// use.
fn add_shown<T: StoredRow>(
    alloc: Global,
    shown: &[Row],
    rows: &mut Vec<T>,
    ids: &mut Vec<i64>,
) -> Result<(), Code>
    ensures rows { OnOk result ((more : List T) × ReadAs T.table shown.now more
        × (rows.new.items ≡ rows.old.items ++ more)) }
    ensures ids { OnOk result ((more : List ℤ) × AreRowids shown.now more × (ids.new.items ≡ ids.old.items ++ more)) }
    ensures ours { OnCode result Code.NotOurs (ReadAsNone T.table T.fits shown.now) }
    ensures codes { IfErr result IsFault }
{
    let list = list_of(alloc, shown)?;
    let own = rowids_of(alloc, shown)?;
    append(rows, list)?;
    append(ids, own)
}

// Puts the rows of a channel behind what was read, and their rowids. After an error both lists are of no use.
fn add_channel<T: ChannelTable, S: Alter>(
    alloc: Global,
    tx: &mut Transaction<'_, S>,
    channel: u16,
    rows: &mut Vec<T>,
    ids: &mut Vec<i64>,
) -> Result<(), Code>
    ensures reads { Reads S.Store tx.old tx.new result }
    ensures adds { WhileKnownTables S.Store tx.old tx.new (OnOk result
        (AddsChannel T.table channel (inside S.Store tx.old).now.trees rows.old.items rows.new.items
        ids.old.items ids.new.items)) }
    ensures ours { WhileKnownTables S.Store tx.old tx.new (OnCode result Code.NotOurs
        (HoldsFitting T.table T.fits (inside S.Store tx.old).now.trees → ⊥)) }
    ensures codes { IfErr result IsFault }
{
    match T::query_channel(tx, channel) {
        Ok(shown) => add_shown(alloc, &shown, rows, ids),
        Err(error) => Err(code_of(&error)),
    }
}

// The number in the one row that shows a count, where an integer of 64 bits can say it for sure.
fn told(rows: &[Row]) -> Option<usize>
    ensures { IfSome result (λ n. (all : List Shown) → rows.now ≡ count_row all → length all ≡ n) }
{
    let row = rows.first()?;
    match row.get_ref(0) {
        Ok(ValueRef::Int(n)) if n < i64::MAX => usize::try_from(n).ok(),
        _ => None,
    }
}

// How many rows there are, by what a statement showed, or by why it failed.
fn count_of(shown: Result<Vec<Row>, Error>) -> Result<usize, Code>
    ensures count { IfOk result (λ n. (all : List Shown) →
        IfOk shown (λ rows. rows.items ≡ count_row all) → length all ≡ n) }
    ensures ours { OnCode result Code.NotOurs (IfErr shown IsShortage → ⊥) }
    ensures read { OnOk result (IsTrue (is_ok shown)) }
    ensures codes { IfErr result IsFault }
{
    match shown {
        Ok(rows) => match told(&rows) {
            Some(count) => Ok(count),
            None => Err(Code::Unavailable),
        },
        Err(error) => Err(code_of(&error)),
    }
}

// Whether no rowid comes twice.
fn ids_differ(ids: Vec<i64>) -> bool
    ensures differ { IsTrue result → (sorted : List ℤ) × IsPermutation ids.items sorted × Rise int_cmp sorted }
    ensures same { ((sorted : List ℤ) → IsPermutation ids.items sorted → HaveKeys int_cmp sorted) → IsTrue result }
{
    let mut ids = ids;
    ids.sort_unstable();
    ids.is_sorted_by(|a, b| a < b)
}

// Whether each key comes before the next.
fn is_sorted<T: StoredRow>(rows: &[T]) -> bool
    ensures { IsTrue result → Rise T.table.cmp rows.now }
{
    rows.is_sorted_by(|row, next| row.is_before(next))
}

// Tests that these are so many rows, that no rowid comes twice, and that each key comes before the next. Tables whose
// disk gave back what was written never fail the last.
fn test_whole<T: StoredRow>(count: usize, rows: &[T], ids: Vec<i64>) -> Result<(), Code>
    ensures count { OnOk result (length rows.now ≡ count) }
    ensures ids { OnOk result ((sorted : List ℤ) × IsPermutation ids.items sorted × Rise int_cmp sorted) }
    ensures rise { OnOk result (Rise T.table.cmp rows.now) }
    ensures ours { OnCode result Code.NotOurs (length rows.now ≡ count →
        ((sorted : List ℤ) → IsPermutation ids.items sorted → HaveKeys int_cmp sorted) → ⊥) }
    ensures codes { IfErr result IsFault }
{
    if rows.len() != count || !ids_differ(ids) {
        return Err(Code::NotOurs);
    }
    if is_sorted(rows) {
        Ok(())
    } else {
        Err(Code::Unavailable)
    }
}

/// All rows of a table, by their keys, where each is of a channel of this plan. Of what statements show, no more than
/// one channel's rows are held at a time.
pub(crate) fn rows_by_channel<T: ChannelTable, S: Alter>(
    alloc: Global,
    tx: &mut Transaction<'_, S>,
    channels: &[PlanRow],
) -> Result<Vec<T>, Code>
    requires { Rise plan_cmp channels.now }
    ensures reads { Reads S.Store tx.old tx.new result }
    ensures rise { IfOk result (λ rows. Rise T.table.cmp rows.items) }
    ensures list { WhileKnownTables S.Store tx.old tx.new
        (IfOk result (λ rows. HoldsRows T.table rows.items (inside S.Store tx.old).now.trees)) }
    ensures ours { WhileKnownTables S.Store tx.old tx.new (OnCode result Code.NotOurs
        (HoldsFitting T.table T.fits (inside S.Store tx.old).now.trees →
        ArePlanned T.channel_of channels.now (rows_in T.table (inside S.Store tx.old).now.trees) → ⊥)) }
    ensures codes { IfErr result IsFault }
{
    let count = count_of(T::query_count(tx))?;
    let mut rows = Vec::new(alloc);
    let mut ids = Vec::new(alloc);
    for plan in channels {
        add_channel(alloc, tx, plan.ch, &mut rows, &mut ids)?;
    }
    test_whole(count, &rows, ids)?;
    Ok(rows)
}
