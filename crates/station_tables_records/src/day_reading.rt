//! Rows as days and items: what reads a database that may be anybody's.
ghost use Rattle.std.specs.Prelude.{◌≡◌, ◌≢◌, Some, IfSome, IfNone, IsTrue};
ghost use Rattle.sqlite_value.specs.declared.value.Value.TheVariants.{Text as Words};
ghost use Rattle.sqlite_value.specs.Order.{column};
ghost use Rattle.playlist_core.specs.declared.source.Source.{Source};
ghost use Rattle.playlist_core.specs.declared.item.EditKind.{EditKind};
ghost use Rattle.playlist_core.specs.Source.{source_reel, source_of_reel};
ghost use Rattle.playlist_core.specs.Item.{kind_text, kind_of, is_kind};
ghost use Rattle.station_tables_records.specs.MadeDays.{is_source};
ghost use Rattle.station_tables_records.specs.Values.{text_in};
ghost use Rattle.station_tables_records.specs.ItemRows.{item_fits, item_table};
ghost use Rattle.station_tables_records.specs.DayRows.{day_fits, day_table};
ghost use Rattle.station_tables_records.specs.AreTables.{day_table_is, item_table_is};

use crate::cells::{bool_at, int_at, text_at, u16_at, u32_at};
use crate::day_rows::{DayRow, ItemRow};
use crate::item_texts::{kind_in, source_in};
use crate::stored::StoredRow;
use playlist_core::{EditKind, Item, Source};
use sqlite::Row;

/// The channel and the day of a row that shows rowid, ch, day and sealed, or `None` where the row isn't one of a day: a
/// number that isn't one or has too many bits, another number than 1 or 0 for whether it is sealed.
impl StoredRow for (u16, DayRow) {
    ghost table = { day_table };

    ghost fits = { day_fits };

    #[tactic(auto, using(crate::proofs::ValueLemmas::bool_again))]
    fn read(row: &Row) -> Option<(u16, DayRow)> {
        int_at(row, 0)?;
        let channel = u16_at(row, 1)?;
        let day = DayRow {
            number: u32_at(row, 2)?,
            sealed: bool_at(row, 3)?,
        };
        Some((channel, day))
    }

    fn is_before(&self, next: &(u16, DayRow)) -> bool {
        (self.0, self.1.number) < (next.0, next.1.number)
    }

    ghost is_table = { day_table_is };
}

// The source whose reel is in a column. The long name of black isn't its reel.
fn source_at(row: &Row, at: usize) -> Option<Source>
    ensures reel { IfSome result (λ s. column row.now at ≡ Words (source_reel s)) }
    ensures read { IfSome result (λ s. source_of_reel (text_in (column row.now at)) ≡ Some s) }
    ensures none { IfNone result
        ((s : Source) → IsTrue (is_source s) → column row.now at ≢ Words (source_reel s)) }
{
    source_in(text_at(row, at)?)
}

// The kind whose text is in a column. A wipe's number has three digits there.
fn kind_at(row: &Row, at: usize) -> Option<EditKind>
    ensures text { IfSome result (λ k. column row.now at ≡ Words (kind_text k)) }
    ensures read { IfSome result (λ k. kind_of (text_in (column row.now at)) ≡ Some k) }
    ensures none { IfNone result
        ((k : EditKind) → IsTrue (is_kind k) → column row.now at ≢ Words (kind_text k)) }
{
    kind_in(text_at(row, at)?)
}

/// The channel and the item of a row that shows the columns of `item`, the rowid first, or `None` where the row isn't
/// one of an item: a number that isn't one or has too many bits, a reel or a kind that isn't one.
impl StoredRow for (u16, ItemRow) {
    ghost table = { item_table };

    ghost fits = { item_fits };

    fn read(row: &Row) -> Option<(u16, ItemRow)> {
        int_at(row, 0)?;
        let channel = u16_at(row, 1)?;
        let day = u32_at(row, 2)?;
        let item = Item {
            n: u16_at(row, 3)?,
            pos: u32_at(row, 4)?,
            frames: u32_at(row, 5)?,
            src: source_at(row, 6)?,
            src_first: u32_at(row, 7)?,
            kind: kind_at(row, 8)?,
            mix: u16_at(row, 9)?,
        };
        Some((channel, ItemRow { day, item }))
    }

    fn is_before(&self, next: &(u16, ItemRow)) -> bool {
        (self.0, self.1.day, self.1.item.n) < (next.0, next.1.day, next.1.item.n)
    }

    ghost is_table = { item_table_is };
}
