//! Rows as batches and the lines of what was aired: what reads a database that may be anybody's.
ghost use Rattle.std.specs.Prelude.{◌≡◌, ◌≢◌, ℕ, List, IfSome, IfNone, IsTrue};
ghost use Rattle.sqlite_value.specs.declared.value.Value.TheVariants.{Text as Words};
ghost use Rattle.sqlite_value.specs.Order.{column};
ghost use Rattle.asrun_match.specs.Aired.{is_row_reel};
ghost use Rattle.station_tables_records.specs.BatchRows.{batch_fits, batch_table};
ghost use Rattle.station_tables_records.specs.LineRows.{line_fits, line_table};
ghost use Rattle.station_tables_records.specs.AreTables.{batch_table_is, line_table_is};

use crate::aired_rows::{AiredLine, BatchRow};
use crate::cells::{int_at, text_at, u16_at, u32_at};
use crate::reels::reel_in;
use crate::stored::StoredRow;
use asrun_match::{AiredRow, Reel};
use sqlite::Row;

/// The channel and the batch of a row that shows rowid, ch, day and n, or `None` where the row isn't one of a batch: a
/// number that isn't one or has too many bits.
impl StoredRow for (u16, BatchRow) {
    ghost table = { batch_table };

    ghost fits = { batch_fits };

    fn read(row: &Row) -> Option<(u16, BatchRow)> {
        int_at(row, 0)?;
        let channel = u16_at(row, 1)?;
        let batch = BatchRow {
            day: u32_at(row, 2)?,
            number: u32_at(row, 3)?,
        };
        Some((channel, batch))
    }

    fn is_before(&self, next: &(u16, BatchRow)) -> bool {
        (self.0, self.1.day, self.1.number) < (next.0, next.1.day, next.1.number)
    }

    ghost is_table = { batch_table_is };
}

// The reel in a column, as rows keep it. The long name of black isn't its reel.
fn reel_at(row: &Row, at: usize) -> Option<Reel>
    ensures text { IfSome result (λ reel. column row.now at ≡ Words reel) }
    ensures none { IfNone result
        ((text : List ℕ) → IsTrue (is_row_reel text) → column row.now at ≢ Words text) }
{
    reel_in(text_at(row, at)?)
}

/// The channel and the line of a row that shows the columns of `aired`, the rowid first, or `None` where the row isn't
/// one of a line: a number that isn't one or has too many bits, a reel that isn't one.
impl StoredRow for (u16, AiredLine) {
    ghost table = { line_table };

    ghost fits = { line_fits };

    fn read(row: &Row) -> Option<(u16, AiredLine)> {
        int_at(row, 0)?;
        let channel = u16_at(row, 1)?;
        let line = AiredLine {
            day: u32_at(row, 2)?,
            batch: u32_at(row, 3)?,
            line: u32_at(row, 4)?,
            row: AiredRow {
                pos: u32_at(row, 5)?,
                frames: u32_at(row, 6)?,
                src: reel_at(row, 7)?,
                src_first: u32_at(row, 8)?,
            },
        };
        Some((channel, line))
    }

    fn is_before(&self, next: &(u16, AiredLine)) -> bool {
        (self.0, self.1.day, self.1.batch, self.1.line)
            < (next.0, next.1.day, next.1.batch, next.1.line)
    }

    ghost is_table = { line_table_is };
}
