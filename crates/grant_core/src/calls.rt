//! Offers and withdrawals on the own rows of a channel.
ghost use Rattle.std.specs.Prelude.{◌≡◌, Ok, IfOk, IfErr};
ghost use Rattle.channel_plan.specs.Refusal.{IsRefusalOf};
ghost use Rattle.vault_core.specs.declared.offer.Offer.{Offer};
ghost use Rattle.vault_core.specs.Own.{own_seen, with_offer};
ghost use Rattle.grant_core.specs.Offering.{offer_for, withdrawn_offer, number_of_offer, with_taken_back};
ghost use Rattle.grant_core.specs.Asked.{AreOfferAnswers};

use crate::asked_offers::{OffersAsked, OffersFound, clips_asked_for_offer, found_in};
use crate::clip_ref::ClipRef;
use channel_plan::{Code, Refusal};
use vault_core::{Offer, OwnRows, Window};

/// The rows and counts of a channel's offers that answer what is asked.
pub fn offers_found(own: &OwnRows, asked: &OffersAsked) -> OffersFound
    ensures { AreOfferAnswers asked.now (own_seen own.now).offers result }
{
    found_in(own.offers(), asked)
}

/// The offer of a clip to the channel `to`, for a window of its days or for any, with the next number, or the first
/// refusal in this order: `LentClip`, `BadChannel`, `ToSelf`, `NoClip`, `ClipRetired`, `AlreadyOffered`, `OffersFull`.
pub fn offer_for(
    own: &OwnRows,
    clip: ClipRef,
    to: u32,
    window: Option<Window>,
) -> Result<Offer, Refusal>
    ensures { result ≡ offer_for (own_seen own.now) clip to window }
{
    let clips = own.clips_found(&clips_asked_for_offer(clip));
    let offers = offers_found(own, &OffersAsked::for_offer(clip, to));
    offers.offer_for(&clips, &own.plan(), clip, to, window)
}

/// Makes the offer of [`offer_for`] and gives its number. A refusal leaves the rows as they were: one of those there,
/// or, where none holds, [`Code::Unavailable`] for want of memory.
pub fn offer(
    own: &mut OwnRows,
    clip: ClipRef,
    to: u32,
    window: Option<Window>,
) -> Result<u16, Refusal>
    ensures added { IfOk result (λ n. (o : Offer) × (offer_for (own_seen own.old) clip to window ≡ Ok o)
        × (n ≡ o.n) × (own.new ≡ with_offer own.old o)) }
    ensures refused { IfErr result (λ e. (own.new ≡ own.old)
        × IsRefusalOf (offer_for (own_seen own.old) clip to window) e) }
{
    own.keep_the_rules();
    let offer = offer_for(own, clip, to, window)?;
    let number = offer.n;
    match own.push_offer(offer) {
        Ok(()) => Ok(number),
        Err(_) => Err(Refusal::of(Code::Unavailable)),
    }
}

/// The offer of this number as it stands once it is withdrawn, or the first refusal in this order: `NoOffer`,
/// `Withdrawn`.
pub fn withdrawn(own: &OwnRows, number: u32) -> Result<Offer, Refusal>
    ensures { result ≡ withdrawn_offer (own_seen own.now) number }
{
    offers_found(own, &OffersAsked::for_withdrawal(number)).withdrawn()
}

/// Withdraws an offer and gives its number. A refusal is that of [`withdrawn`] and leaves the rows as they were.
pub fn withdraw(own: &mut OwnRows, number: u32) -> Result<u16, Refusal>
    ensures reply { result ≡ number_of_offer (withdrawn_offer (own_seen own.old) number) }
    ensures rows { own.new ≡ with_taken_back (withdrawn_offer (own_seen own.old) number) own.old }
{
    let offer = withdrawn(own, number)?;
    // The proof wants the type of this field named.
    let _window = offer.window;
    own.mark_withdrawn(u32::from(offer.n));
    Ok(offer.n)
}
