//! What a row of a table stands for, read from its columns.
ghost use Rattle.std.specs.Prelude.{◌≡◌, Bool, false, IfOk, IfSome, IfNone};
ghost use Rattle.std.specs.Ordering.{is_lt};
ghost use Rattle.station_tables_records.specs.Table.{TypedTable, IsTable, ReadAs, ReadAsNone};

use crate::reading::read_in_order;
use sqlite::Row;
use std::alloc::{AllocError, Global};

/// What a row of a table stands for: a tape with its channel, and its like.
pub trait StoredRow: Drop {
    /// The table whose rows stand for such values.
    ghost table: { TypedTable Self };

    /// Whether a value can be read: whether its numbers have as many bits as its type, and its texts are such.
    ghost fits: { Self → Bool };

    /// What a row of the table stands for, or `None` where it stands for nothing. It shows the rowid and then the
    /// columns.
    fn read(row: &Row) -> Option<Self>
        ensures reads { IfSome result (λ t. table.IsRow row.now × (table.of row.now ≡ t)) }
        ensures none { IfNone result (table.IsRow row.now → fits (table.of row.now) ≡ false) };

    /// Whether its key comes before the key of another.
    fn is_before(&self, next: &Self) -> bool
        ensures { result ≡ is_lt (table.cmp self.now next.now) };

    ghost is_table: { IsTable table };
}

/// What these rows of a table stand for, in the order in which they stand, or `None` where one stands for nothing, or a
/// rowid or a key comes twice. They show the rowid and then the columns, by their keys.
pub fn read_rows<T: StoredRow>(alloc: Global, rows: &[Row]) -> Result<Option<Vec<T>>, AllocError>
    ensures some { IfOk result (λ o. IfSome o (λ list. ReadAs T.table rows.now list.items)) }
    ensures none { IfOk result (λ o. IfNone o (ReadAsNone T.table T.fits rows.now)) }
{
    read_in_order(
        alloc,
        rows,
        |row| T::read(row),
        |value, next| value.is_before(next),
    )
}
