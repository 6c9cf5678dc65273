//! The rows of the items of days: what is asked of them and written, each by a text of its own, inside a transaction.
ghost use Rattle.std.specs.Prelude.{◌≡◌, [], ◌∷◌, IfOk, filter};
ghost use Rattle.sqlite_keyed.specs.Lists.{insert_sorted, delete_where};
ghost use Rattle.sqlite.specs.Values.{bound};
ghost use Rattle.playlist_core.specs.Source.{source_reel};
ghost use Rattle.playlist_core.specs.Item.{kind_text};
ghost use Rattle.station_tables_records.specs.MadeDays.{Rise, item_cmp, is_item_of, is_item_in};
ghost use Rattle.station_tables_records.specs.Inside.{inside, Reads, Writes};
ghost use Rattle.station_tables_records.specs.Values.{of_nat};
ghost use Rattle.station_tables_records.specs.ItemRows.{item_row};
ghost use Rattle.station_tables_records.specs.TablePairs.{on_items};
ghost use Rattle.station_tables_statements.specs.DayCalls.{days_in, WhileCleanDays, MakesDays, HasTextsNow};
ghost use Rattle.station_tables_statements.specs.DayCalls.{LacksItemNow};
ghost use Rattle.station_tables_statements.specs.AreByChannel.{item_by_channel};

use crate::asked::of_days;
use crate::asking::{ChannelTable, StoredTable, find_rows};
use crate::columns::table_text;
use playlist_core::Item;
use sqlite::types::ValueRef;
use sqlite::{Alter, Error, Row, Transaction};
use station_tables_records::{
    ItemRow, ask, kind_text, long_number, of_channel, short_number, source_text,
};
use std::alloc::Global;
use timecode::Unavailable;

// The texts that name the columns of `item`.
macro_rules! item_text {
    ($text:ident $($rest:literal)?) => {
        table_text!(
            $text "item"
            "ch, day, n, pos, frames, src, src_first, kind, mix"
            "?1, ?2, ?3, ?4, ?5, ?6, ?7, ?8, ?9" $($rest)?
        )
    };
}

// What a text asks of an item of a day, by its number.
fn of_item(channel: u16, day: u32, item: u16) -> [ValueRef<'static>; 3]
    ensures { bound result ≡ of_nat channel ∷ of_nat day ∷ of_nat item ∷ [] }
{
    [short_number(channel), long_number(day), short_number(item)]
}

// The columns of an item whose source and kind have these texts.
fn item_values<'a>(
    channel: u16,
    day: u32,
    item: &Item,
    source: &'a [u8],
    kind: &'a [u8],
) -> [ValueRef<'a>; 9]
    ensures { source.now ≡ source_reel item.now.src → kind.now ≡ kind_text item.now.kind →
        bound result ≡ item_row (channel, record { day = day; item = item.now }) }
{
    [
        short_number(channel),
        long_number(day),
        short_number(item.n),
        long_number(item.pos),
        long_number(item.frames),
        ValueRef::Text(source),
        long_number(item.src_first),
        ValueRef::Text(kind),
        short_number(item.mix),
    ]
}

/// By channel, day and number: of each the rowid, the channel, the day's number, its own, the frame of the day at which
/// it begins, its length in frames, its source's reel, the source's frame at which it begins, its kind, and the frames
/// of its mix.
impl StoredTable for (u16, ItemRow) {
    fn ask_all<S: Alter>(
        alloc: Global,
        tx: &mut Transaction<'_, S>,
    ) -> Result<Option<Vec<(u16, ItemRow)>>, Error> {
        ask(alloc, tx, item_text!(SELECT "ORDER BY ch, day, n"), &[])
    }
}

impl ChannelTable for (u16, ItemRow) {
    ghost channel_of = { λ r. r.0 };

    fn query_channel<S: Alter>(
        tx: &mut Transaction<'_, S>,
        channel: u16,
    ) -> Result<Vec<Row>, Error> {
        tx.query_all(
            item_text!(SELECT "WHERE ch = ?1 ORDER BY ch, day, n"),
            &of_channel(channel),
        )
    }

    fn query_count<S: Alter>(tx: &mut Transaction<'_, S>) -> Result<Vec<Row>, Error> {
        tx.query_all("SELECT count(*) FROM item", &[])
    }

    ghost by_channel = { item_by_channel };
}

/// The rows of the items of these days, by day and number. It fails as [`load_day_rows`] does.
pub fn load_item_rows<S: Alter>(
    alloc: Global,
    tx: &mut Transaction<'_, S>,
    channel: u16,
    first: u32,
    last: u32,
) -> Result<Vec<(u16, ItemRow)>, Unavailable>
    ensures reads { Reads S.Store tx.old tx.new result }
    ensures rise { IfOk result (λ items. Rise item_cmp items.items) }
    ensures items { WhileCleanDays S.Store tx.old tx.new (IfOk result (λ items.
        items.items ≡ filter (is_item_in channel first last) (days_in (inside S.Store tx.old)).items)) }
{
    find_rows(
        alloc,
        tx,
        item_text!(SELECT "WHERE ch = ?1 AND day BETWEEN ?2 AND ?3 ORDER BY ch, day, n"),
        &of_days(channel, first, last),
    )
}

// Adds an item whose source and kind have these texts.
fn insert_texts<S: Alter>(
    tx: &mut Transaction<'_, S>,
    channel: u16,
    day: u32,
    item: &Item,
    source: &[u8],
    kind: &[u8],
) -> Result<usize, Error>
    requires source { source.now ≡ source_reel item.now.src }
    requires kind { kind.now ≡ kind_text item.now.kind }
    ensures writes { Writes S.Store tx.old tx.new result }
    ensures makes { HasTextsNow item.now (inside S.Store tx.old) →
        LacksItemNow channel day item.now.n (inside S.Store tx.old) →
        MakesDays (on_items (insert_sorted item_cmp (channel, record { day = day; item = item.now })))
        S.Store tx.old tx.new result }
{
    tx.execute(
        item_text!(INSERT),
        &item_values(channel, day, item, source, kind),
    )
}

/// Adds an item of a channel's day, whose number is new in it, and whose source and kind have texts that read as these.
/// It answers as [`insert_day`] does, and commits nothing.
pub fn insert_item<S: Alter>(
    tx: &mut Transaction<'_, S>,
    channel: u16,
    day: u32,
    item: &Item,
) -> Result<usize, Error>
    ensures writes { Writes S.Store tx.old tx.new result }
    ensures makes { HasTextsNow item.now (inside S.Store tx.old) →
        LacksItemNow channel day item.now.n (inside S.Store tx.old) →
        MakesDays (on_items (insert_sorted item_cmp (channel, record { day = day; item = item.now })))
        S.Store tx.old tx.new result }
{
    let source = source_text(item.src);
    let kind = kind_text(item.kind);
    insert_texts(tx, channel, day, item, source.as_slice(), kind.as_slice())
}

/// Takes an item out of a channel's day, by its number. It answers as [`insert_day`] does, and commits nothing.
pub fn delete_item<S: Alter>(
    tx: &mut Transaction<'_, S>,
    channel: u16,
    day: u32,
    item: u16,
) -> Result<usize, Error>
    ensures writes { Writes S.Store tx.old tx.new result }
    ensures makes { MakesDays (on_items (delete_where (is_item_of channel day item))) S.Store tx.old tx.new result }
{
    tx.execute(
        "DELETE FROM item WHERE ch = ?1 AND day = ?2 AND n = ?3",
        &of_item(channel, day, item),
    )
}
