//! The rows of offers: what is asked of them and written, each by a text of its own, inside a transaction. The windows
//! of offers stand in a table of their own (`spans.rt`).
ghost use Rattle.std.specs.Prelude.{◌≡◌, ◌==◌, [], ◌∷◌, IfOk, OnOk, true, map};
ghost use Rattle.std.specs.Option.{option_and_then};
ghost use Rattle.sqlite_keyed.specs.Lists.{insert_sorted};
ghost use Rattle.sqlite.specs.State.{HasCleanDisk};
ghost use Rattle.sqlite.specs.Values.{bound};
ghost use Rattle.umid.specs.BasicUmid.{basic_umid};
ghost use Rattle.vault_core.specs.Offer.{is_open_to};
ghost use Rattle.channel_view_model.specs.Tables.{alter_row, of_channel};
ghost use Rattle.channel_view_model.specs.Seen.{grant_of, grants_to};
ghost use Rattle.station_tables_records.specs.Table.{ChangesTable};
ghost use Rattle.station_tables_records.specs.Inside.{inside, Reads, Writes, Looks};
ghost use Rattle.station_tables_records.specs.Values.{of_nat};
ghost use Rattle.station_tables_records.specs.TablePairs.{offer_tables};
ghost use Rattle.station_tables_records.specs.OfferRows.{offer_row, offer_cmp, offer_table};
ghost use Rattle.station_tables_records.specs.TwoTables.{HasBothNow};
ghost use Rattle.station_tables_records.specs.MadeOffers.{without_window};
ghost use Rattle.station_tables_statements.specs.Rows.{on_offers};
ghost use Rattle.station_tables_statements.specs.Calls.{WhileCleanCentre, Makes, set_in, OwnsRowsNow, LacksOfferNow};
ghost use Rattle.station_tables_statements.specs.Asked.{offer_text_of};

use crate::asked::of_number;
use crate::asking::{StoredTable, find_rows};
use crate::columns::{numbered_text, table_text};
use crate::numbered::{AskedRow, NumberedRow, Question, find_asked, first_alone};
use crate::spans::{insert_window, with_windows};
use grant_core::{Grant, OpenOffer};
use sqlite::types::ValueRef;
use sqlite::{Alter, Error, Transaction};
use station_tables_records::{ask, long_number, of_channel, short_number, truth};
use std::alloc::Global;
use timecode::Unavailable;
use vault_core::Offer;

// The texts that name the columns of `offer`.
macro_rules! offer_text {
    ($text:ident $($rest:literal)?) => {
        table_text!(
            $text "offer"
            "ch, n, grantee, clip, title, umid, rate, src_first, frames, withdrawn"
            "?1, ?2, ?3, ?4, ?5, ?6, ?7, ?8, ?9, ?10" $($rest)?
        )
    };
}

// What a text asks of a channel's open offer: the channel, the clip and the grantee.
fn of_grant(channel: u16, asked: OpenOffer) -> [ValueRef<'static>; 3]
    ensures { bound result ≡ of_nat channel ∷ of_nat asked.clip ∷ of_nat asked.grantee ∷ [] }
{
    [
        short_number(channel),
        long_number(asked.clip),
        long_number(asked.grantee),
    ]
}

// The columns of an offer whose UMID has these bytes.
fn offer_values<'a>(channel: u16, offer: &'a Offer, umid: &'a [u8]) -> [ValueRef<'a>; 10]
    ensures { umid.now ≡ basic_umid offer.now.umid → bound result ≡ offer_row (channel, offer.now) }
{
    [
        short_number(channel),
        short_number(offer.n),
        short_number(offer.grantee),
        long_number(offer.clip),
        ValueRef::Text(offer.title.as_bytes()),
        ValueRef::Blob(umid),
        ValueRef::Text(offer.rate.text().as_bytes()),
        long_number(offer.src_first),
        long_number(offer.frames),
        truth(offer.withdrawn),
    ]
}

/// By channel and number: of each the rowid, the channel, the number, the grantee, its clip's number, the title, the
/// UMID's 32 bytes, the rate, the first frame and the length of the copy in frames, and 1 where it is withdrawn, else
/// 0.
impl StoredTable for (u16, Offer) {
    fn ask_all<S: Alter>(
        alloc: Global,
        tx: &mut Transaction<'_, S>,
    ) -> Result<Option<Vec<(u16, Offer)>>, Error> {
        ask(alloc, tx, offer_text!(SELECT "ORDER BY ch, n"), &[])
    }
}

/// As their own table has them: without their windows.
impl AskedRow for (u16, Offer) {
    ghost texts = { offer_text_of };

    fn text(question: Question) -> &'static str {
        numbered_text!(offer_text question)
    }
}

impl NumberedRow for Offer {
    ghost number_of = { λ o. o.n };

    ghost rows_in = { λ rows. rows.offers };

    fn number(&self) -> u32 {
        u32::from(self.n)
    }

    fn find<S: Alter>(
        alloc: Global,
        tx: &mut Transaction<'_, S>,
        channel: u16,
        question: Question,
    ) -> Result<Vec<(u16, Offer)>, Unavailable> {
        let offers = find_asked(alloc, tx, channel, question)?;
        with_windows(alloc, tx, &offers)
    }
}

/// The channel's open offer of a clip to a grantee, where one is asked for. It fails where memory or
/// the store does, and where a row doesn't read.
pub fn open_offer<S: Alter>(
    alloc: Global,
    tx: &mut Transaction<'_, S>,
    channel: u16,
    asked: Option<OpenOffer>,
) -> Result<Option<Offer>, Unavailable>
    ensures looks { Looks S.Store tx.old tx.new result }
    ensures offer { WhileCleanCentre S.Store tx.old tx.new (IfOk result (λ offer. offer ≡ option_and_then
        (λ it. (of_channel channel (set_in (inside S.Store tx.old)).offers).first
        (is_open_to it.clip it.grantee)) asked)) }
{
    let Some(it) = asked else {
        return Ok(None);
    };
    let offers = find_rows(
        alloc,
        tx,
        offer_text!(SELECT "WHERE ch = ?1 AND clip = ?2 AND grantee = ?3 AND withdrawn = 0 ORDER BY ch, n"),
        &of_grant(channel, it),
    )?;
    let offers = with_windows(alloc, tx, &offers)?;
    Ok(first_alone(&offers))
}

// Offers with their channels, as their grantees see them.
fn with_owners(alloc: Global, rows: &[(u16, Offer)]) -> Result<Vec<Grant>, Unavailable>
    ensures { IfOk result (λ grants. grants.items ≡ map grant_of rows.now) }
{
    Ok(
        rows.iter()
            .map(|r| Grant {
                owner: r.0,
                offer: r.1,
            })
            .collect(alloc)?,
    )
}

/// The offers of others to the channel, by owner and number. It fails where memory or the store does, and where a
/// row doesn't read.
pub fn load_lent<S: Alter>(
    alloc: Global,
    tx: &mut Transaction<'_, S>,
    channel: u16,
) -> Result<Vec<Grant>, Unavailable>
    ensures reads { Reads S.Store tx.old tx.new result }
    ensures grants { WhileCleanCentre S.Store tx.old tx.new
        (IfOk result (λ grants. grants.items ≡ grants_to channel (set_in (inside S.Store tx.old)).offers)) }
{
    let offers = find_rows(
        alloc,
        tx,
        offer_text!(SELECT "WHERE grantee = ?1 ORDER BY ch, n"),
        &of_channel(channel),
    )?;
    let offers = with_windows(alloc, tx, &offers)?;
    with_owners(alloc, &offers)
}

// Adds the row of an offer.
fn insert_row<S: Alter>(
    tx: &mut Transaction<'_, S>,
    channel: u16,
    offer: &Offer,
) -> Result<usize, Error>
    ensures writes { Writes S.Store tx.old tx.new result }
    ensures makes { LacksOfferNow channel offer.now (inside S.Store tx.old) →
        HasBothNow offer_tables (inside S.Store tx.old) → HasCleanDisk (inside S.Store tx.new) →
        OnOk result (ChangesTable offer_table (insert_sorted offer_cmp (channel, without_window offer.now))
        (inside S.Store tx.old) (inside S.Store tx.new)) }
{
    let umid = offer.umid.to_bytes();
    tx.execute(offer_text!(INSERT), &offer_values(channel, offer, &umid))
}

/// Adds an offer of this channel, 1 to 999, whose number is new in it, and its window where it has one. It fails with
/// the error of the statement that failed, and commits nothing.
pub fn insert_offer<S: Alter>(
    tx: &mut Transaction<'_, S>,
    channel: u16,
    offer: &Offer,
) -> Result<(), Error>
    ensures writes { Writes S.Store tx.old tx.new result }
    ensures makes { LacksOfferNow channel offer.now (inside S.Store tx.old) → OwnsRowsNow (inside S.Store tx.old) →
        Makes (on_offers (insert_sorted offer_cmp (channel, offer.now))) S.Store tx.old tx.new result }
{
    insert_row(tx, channel, offer)?;
    insert_window(tx, channel, offer.n, offer.window)
}

/// Withdraws a channel's offer with this number. It answers as `execute` does, a count of which no clause speaks or the
/// error of the statement, and commits nothing.
pub fn withdraw_offer<S: Alter>(
    tx: &mut Transaction<'_, S>,
    channel: u16,
    offer: u32,
) -> Result<usize, Error>
    ensures writes { Writes S.Store tx.old tx.new result }
    ensures makes { Makes (on_offers (alter_row channel (λ o. o.n == offer) (λ o. record o { withdrawn = true })))
        S.Store tx.old tx.new result }
{
    tx.execute(
        "UPDATE offer SET withdrawn = 1 WHERE ch = ?1 AND n = ?2",
        &of_number(channel, offer),
    )
}
