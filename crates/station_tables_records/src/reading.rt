//! Reading the rows of a table as typed rows.
ghost use Rattle.std.specs.Prelude.{◌≡◌, ◌≢◌, ◌↔◌, ℤ, true, IfOk, IfSome, IfNone};
ghost use Rattle.sqlite_trees.specs.Tree.{rowid};
ghost use Rattle.sqlite_value.specs.declared.value.Value.TheVariants.{Int};
ghost use Rattle.station_tables_records.specs.Content.{HaveRowids, AreApart};
ghost use Rattle.station_tables_records.specs.RowReading.{ReadEach, ReadsNone, ReadInOrder, ReadsNothing};

use sqlite::Row;
use sqlite::types::ValueRef;
use std::alloc::{AllocError, Global};

/// What each of these rows reads as, or `None` where one reads as nothing.
pub fn read_each<T: Drop, R: Fn(&Row) -> Option<T>>(
    alloc: Global,
    rows: &[Row],
    read: R,
) -> Result<Option<Vec<T>>, AllocError>
    requires { R.IsAlwaysCallable read }
    ensures each { IfOk result (λ o. IfSome o (λ list. ReadEach R.Fn read rows.now list.items)) }
    ensures none { IfOk result (λ o. IfNone o (ReadsNone R.Fn read rows.now)) }
{
    let mut list = Vec::new(alloc);
    for row in rows {
        let Some(typed) = read(row) else {
            return Ok(None);
        };
        list.push(typed)?;
    }
    Ok(Some(list))
}

/// The rowid of a row whose first column shows it, or `None` where that is no integer.
pub fn rowid_of(row: &Row) -> Option<i64>
    ensures some { IfSome result (λ id. rowid row.now ≡ Int id) }
    ensures none { IfNone result ((id : ℤ) → rowid row.now ≢ Int id) }
{
    match row.get_ref(0) {
        Ok(ValueRef::Int(id)) => Some(id),
        _ => None,
    }
}

// Whether each of these rows, whose first column shows its rowid, has an integer there that no other has.
fn rowids_differ(alloc: Global, rows: &[Row]) -> Result<bool, AllocError>
    ensures { IfOk result (λ b. b ≡ true ↔ HaveRowids rows.now × AreApart rows.now) }
{
    let Some(mut ids) = read_each(alloc, rows, rowid_of)? else {
        return Ok(false);
    };
    ids.sort_unstable();
    Ok(ids.is_sorted_by(|a, b| a < b))
}

/// What these rows of a table, whose first column shows the rowid, read as in the order in which they stand, or `None`
/// where one reads as nothing, a rowid isn't an integer or comes twice, or a value doesn't come before the next.
pub(crate) fn read_in_order<T: Drop, R: Fn(&Row) -> Option<T>, B: FnMut(&T, &T) -> bool>(
    alloc: Global,
    rows: &[Row],
    read: R,
    is_before: B,
) -> Result<Option<Vec<T>>, AllocError>
    requires read { R.IsAlwaysCallable read }
    requires is_before { B.IsAlwaysCallable is_before }
    ensures each { IfOk result (λ o. IfSome o (λ list. ReadInOrder R.Fn read B.FnMut is_before rows.now list.items)) }
    ensures none { IfOk result (λ o. IfNone o (ReadsNothing R.Fn read B.FnMut is_before rows.now)) }
{
    if !rowids_differ(alloc, rows)? {
        return Ok(None);
    }
    let Some(list) = read_each(alloc, rows, read)? else {
        return Ok(None);
    };
    if list.is_sorted_by(is_before) {
        Ok(Some(list))
    } else {
        Ok(None)
    }
}
