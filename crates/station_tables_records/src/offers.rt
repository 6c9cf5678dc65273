//! The offers that rows make.
ghost use Rattle.std.specs.Prelude.{◌≡◌, [], true, IfOk, IfErr, OnOk, map, option_copied};
ghost use Rattle.std.specs.List.{list_all, cons_option};
ghost use Rattle.channel_plan.specs.declared.refusal.Code.TheVariants as Code;
ghost use Rattle.station_tables_records.specs.MadeDays.{Rise};
ghost use Rattle.station_tables_records.specs.MadeOffers.{span_cmp, window_at, offer_made, offers_made};
ghost use Rattle.station_tables_records.specs.OfferRows.{offer_cmp};
ghost use Rattle.station_tables_records.specs.MadeOffers.{has_offer};

use crate::offer_rows::SpanRow;
use channel_plan::Code;
use vault_core::{Offer, Window};

// The window of an offer, of its row, if it is that.
fn if_span(row: Option<&(u16, SpanRow)>, channel: u16, number: u16) -> Option<Window>
    ensures { result ≡ window_at channel number (cons_option (option_copied row.entry) []) }
{
    match row {
        Some(row) if row.0 == channel && row.1.offer == number => Some(row.1.window),
        _ => None,
    }
}

// The window of this channel's offer of this number.
fn window_among(spans: &[(u16, SpanRow)], channel: u16, number: u16) -> Option<Window>
    requires { Rise span_cmp spans.now }
    ensures { result ≡ window_at channel number spans.now }
{
    let place = spans.partition_point(|s| (s.0, s.1.offer) < (channel, number));
    let (_, from) = spans.split_at(place);
    if_span(from.first(), channel, number)
}

// Whether the offer of a window is there.
fn is_there(offers: &[(u16, Offer)], row: &(u16, SpanRow)) -> bool
    requires { Rise offer_cmp offers.now }
    ensures { result ≡ has_offer offers.now row.now }
{
    offers
        .binary_search_by_key(&(row.0, row.1.offer), |o| (o.0, o.1.n))
        .is_ok()
}

// Whether the offer of each window is there.
fn have_offers(offers: &[(u16, Offer)], spans: &[(u16, SpanRow)]) -> bool
    requires { Rise offer_cmp offers.now }
    ensures { result ≡ list_all (has_offer offers.now) spans.now }
{
    spans.iter().all(|s| is_there(offers, s))
}

// Puts its window into each offer.
fn put_windows(offers: &mut [(u16, Offer)], spans: &[(u16, SpanRow)])
    requires { Rise span_cmp spans.now }
    ensures { offers.new ≡ map (offer_made spans.now) offers.old }
{
    for row in offers.iter_mut() {
        row.1.window = window_among(spans, row.0, row.1.n);
    }
}

/// The offers, each with its channel, that the rows of offers and of windows make, each list in the order of its key.
/// It fails with `NotOurs` where a window's offer isn't there.
pub fn offers_of(
    offers: Vec<(u16, Offer)>,
    spans: &[(u16, SpanRow)],
) -> Result<Vec<(u16, Offer)>, Code>
    requires offers { Rise offer_cmp offers.items }
    requires spans { Rise span_cmp spans.now }
    ensures offers { IfOk result (λ v.
        v.items ≡ offers_made (record { offers = offers.items; spans = spans.now })) }
    ensures owned { OnOk result (list_all (has_offer offers.items) spans.now ≡ true) }
    ensures fault { IfErr result (λ e. (e ≡ Code.NotOurs)
        × (list_all (has_offer offers.items) spans.now ≡ true → ⊥)) }
{
    if !have_offers(&offers, spans) {
        return Err(Code::NotOurs);
    }
    let mut offers = offers;
    put_windows(&mut offers, spans);
    Ok(offers)
}
