//! The rows of offers' windows: what is asked of them and written, each by a text of its own, inside a transaction.
ghost use Rattle.std.specs.Prelude.{◌≡◌, [], IfOk, OnOk, map, slice_get};
ghost use Rattle.std.specs.Option.{option_map};
ghost use Rattle.sqlite_keyed.specs.Lists.{insert_sorted};
ghost use Rattle.sqlite.specs.State.{HasCleanDisk};
ghost use Rattle.sqlite.specs.Values.{bound};
ghost use Rattle.station_tables_records.specs.Table.{ChangesTable};
ghost use Rattle.station_tables_records.specs.Inside.{inside, Reads, Writes, Looks};
ghost use Rattle.station_tables_records.specs.TablePairs.{offer_tables, offer_rows_in};
ghost use Rattle.station_tables_records.specs.TwoTables.{HasBothNow, ChangesBoth, IsAtBoth};
ghost use Rattle.station_tables_records.specs.MadeOffers.{offer_made, span_cmp, window_at, with_span};
ghost use Rattle.station_tables_records.specs.SpanRows.{span_row, span_table};
ghost use Rattle.station_tables_statements.specs.Calls.{HasCentreSchema, HasFirstSchema};
ghost use Rattle.station_tables_statements.specs.Calls.{WhileCleanCentre, LacksSpanNow};

use crate::asked::of_number;
use crate::asking::{StoredTable, find_rows};
use crate::columns::table_text;
use sqlite::types::ValueRef;
use sqlite::{Alter, Error, Transaction};
use station_tables_records::{SpanRow, ask, long_number, short_number, with_window};
use std::alloc::Global;
use timecode::Unavailable;
use vault_core::{Offer, Window};

// The texts that name the columns of `span`.
macro_rules! span_text {
    ($text:ident $($rest:literal)?) => {
        table_text!($text "span" "ch, n, first_day, last_day" "?1, ?2, ?3, ?4" $($rest)?)
    };
}

// The columns of a window.
fn span_values(channel: u16, span: SpanRow) -> [ValueRef<'static>; 4]
    ensures { bound result ≡ span_row (channel, span) }
{
    [
        short_number(channel),
        short_number(span.offer),
        long_number(span.window.first()),
        long_number(span.window.last()),
    ]
}

// The window of the first of these rows.
fn first_window(spans: &[(u16, SpanRow)]) -> Option<Window>
    ensures { result ≡ option_map (λ s. s.1.window) (slice_get spans.now 0) }
{
    match spans.first() {
        Some(span) => Some(span.1.window),
        None => None,
    }
}

/// By the channel and the number of the offer: of each the rowid, these two, and its first and last day. The tables of
/// version 1 have none.
impl StoredTable for (u16, SpanRow) {
    ghost is_there = { HasCentreSchema };

    ghost is_missing = { HasFirstSchema };

    fn ask_all<S: Alter>(
        alloc: Global,
        tx: &mut Transaction<'_, S>,
    ) -> Result<Option<Vec<(u16, SpanRow)>>, Error> {
        ask(alloc, tx, span_text!(SELECT "ORDER BY ch, n"), &[])
    }
}

// The window of an offer, which stands beside its channel, if it has one.
fn window_of<S: Alter>(
    alloc: Global,
    tx: &mut Transaction<'_, S>,
    offer: &(u16, Offer),
) -> Result<Option<Window>, Unavailable>
    ensures reads { Reads S.Store tx.old tx.new result }
    ensures window { WhileCleanCentre S.Store tx.old tx.new (IfOk result (λ window.
        window ≡ window_at offer.now.0 offer.now.1.n (offer_rows_in (inside S.Store tx.old).now.trees).spans)) }
{
    let spans = find_rows(
        alloc,
        tx,
        span_text!(SELECT "WHERE ch = ?1 AND n = ?2 ORDER BY ch, n"),
        &of_number(offer.0, u32::from(offer.1.n)),
    )?;
    Ok(first_window(&spans))
}

/// These offers, each with its channel, with their windows, each found by a text of its own. It fails where memory or
/// the store does, and where a row doesn't read.
pub(crate) fn with_windows<S: Alter>(
    alloc: Global,
    tx: &mut Transaction<'_, S>,
    offers: &[(u16, Offer)],
) -> Result<Vec<(u16, Offer)>, Unavailable>
    ensures looks { Looks S.Store tx.old tx.new result }
    ensures offers { WhileCleanCentre S.Store tx.old tx.new (IfOk result (λ made.
        made.items ≡ map (offer_made (offer_rows_in (inside S.Store tx.old).now.trees).spans) offers.now)) }
{
    let mut made = Vec::new(alloc);
    for row in offers {
        let window = window_of(alloc, tx, row)?;
        made.push((row.0, with_window(row.1, window)))?;
    }
    Ok(made)
}

// Adds the window of an offer that has none.
fn insert_span<S: Alter>(
    tx: &mut Transaction<'_, S>,
    channel: u16,
    span: SpanRow,
) -> Result<usize, Error>
    ensures writes { Writes S.Store tx.old tx.new result }
    ensures makes { LacksSpanNow channel span.offer (inside S.Store tx.old) →
        HasBothNow offer_tables (inside S.Store tx.old) → HasCleanDisk (inside S.Store tx.new) →
        OnOk result (ChangesTable span_table (insert_sorted span_cmp (channel, span))
        (inside S.Store tx.old) (inside S.Store tx.new)) }
{
    span.window.keeps_the_form();
    tx.execute(span_text!(INSERT), &span_values(channel, span))
}

/// Adds the row of an offer's window, where it has one.
pub(crate) fn insert_window<S: Alter>(
    tx: &mut Transaction<'_, S>,
    channel: u16,
    number: u16,
    window: Option<Window>,
) -> Result<(), Error>
    ensures writes { Writes S.Store tx.old tx.new result }
    ensures makes { LacksSpanNow channel number (inside S.Store tx.old) →
        IsAtBoth offer_tables (inside S.Store tx.old) → HasCleanDisk (inside S.Store tx.new) →
        OnOk result (ChangesBoth offer_tables
        (λ rows. record rows { spans = with_span channel number window rows.spans })
        (inside S.Store tx.old) (inside S.Store tx.new)) }
{
    let Some(window) = window else {
        return Ok(());
    };
    let span = SpanRow {
        offer: number,
        window,
    };
    insert_span(tx, channel, span)?;
    Ok(())
}
