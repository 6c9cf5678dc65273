//! What an offer and a withdrawal ask of a channel's rows, and the rows and counts that answer it.
ghost use Rattle.std.specs.Prelude.{◌≡◌, ℕ, ◌==◌, Err, Ok, Some, find, is_some, length, if◌then◌else◌};
ghost use Rattle.std.specs.Option.{option_and_then};
ghost use Rattle.vault_core.specs.Questions.{listed, IsConsistent};
ghost use Rattle.vault_core.specs.Own.{OwnSeen};
ghost use Rattle.vault_core.specs.Asked.{AreClipAnswers};
ghost use Rattle.vault_core.specs.Offer.{is_open_to};
ghost use Rattle.channel_plan.specs.Refusal.{refused};
ghost use Rattle.grant_core.specs.Offering.{offer_of as offer_made_of, of_own_clip, offer_for, as_withdrawn};
ghost use Rattle.grant_core.specs.Offering.{grantee_for as grantee_made, to_grantee};
ghost use Rattle.grant_core.specs.Offering.{withdrawn_offer};
ghost use Rattle.grant_core.specs.Asked.{no_offers_asked, offers_asked_for_offer, offers_asked_for_withdrawal};
ghost use Rattle.grant_core.specs.Asked.{clips_asked_for_offer as clips_asked_of, AreOfferAnswers};

use crate::clip_ref::ClipRef;
use channel_plan::{Code, LAST_CHANNEL, PlanRow, Refusal};
use vault_core::{Clip, ClipsAsked, ClipsFound, MAX_OFFERS, Offer, Window};

/// An offer that is open, by its clip and its grantee.
#[derive(Clone, Copy, PartialEq, Eq)]
pub struct OpenOffer {
    /// The number of the clip.
    pub clip: u32,
    /// The channel that it is offered to.
    pub grantee: u32,
}

/// What a command asks of its channel's offers.
#[derive(Clone, Copy, PartialEq, Eq)]
pub struct OffersAsked {
    /// Whether it asks how many there are.
    pub count: bool,
    /// Which offer has this number.
    pub number: Option<u32>,
    /// Which open offer is of this clip to this grantee.
    pub open_to: Option<OpenOffer>,
}

impl OffersAsked {
    /// Nothing.
    pub fn nothing() -> OffersAsked
        ensures { result ≡ no_offers_asked }
    {
        OffersAsked {
            count: false,
            number: None,
            open_to: None,
        }
    }

    /// What an offer asks: how many there are, and the open one of this clip to this grantee.
    pub fn for_offer(clip: ClipRef, to: u32) -> OffersAsked
        ensures { result ≡ offers_asked_for_offer clip to }
    {
        match clip {
            ClipRef::Own(number) => OffersAsked {
                count: true,
                number: None,
                open_to: Some(OpenOffer {
                    clip: number,
                    grantee: to,
                }),
            },
            ClipRef::Lent | ClipRef::Unknown => OffersAsked::nothing(),
        }
    }

    /// What a withdrawal asks: the offer with its number.
    pub fn for_withdrawal(number: u32) -> OffersAsked
        ensures { result ≡ offers_asked_for_withdrawal number }
    {
        let mut asked = OffersAsked::nothing();
        asked.number = Some(number);
        asked
    }
}

/// What an offer asks of its channel's clips: the one that it names.
pub fn clips_asked_for_offer(clip: ClipRef) -> ClipsAsked
    ensures { result ≡ clips_asked_of clip }
{
    match clip {
        ClipRef::Own(number) => ClipsAsked::for_retire(number),
        ClipRef::Lent | ClipRef::Unknown => ClipsAsked::nothing(),
    }
}

/// The rows and counts of a channel's offers that answer what is asked. What isn't asked is none.
#[derive(Clone, Copy, PartialEq, Eq)]
pub struct OffersFound {
    /// How many there are, or 0 where that isn't asked.
    pub count: usize,
    /// The offer with the number, if there is one.
    pub with_number: Option<Offer>,
    /// The open offer of the clip to the grantee, if there is one.
    pub open_to: Option<Offer>,
}

impl OffersFound {
    /// The offer that is made, for a window of days or for any, with the next number, or the first refusal in this
    /// order: `LentClip`, `BadChannel`, `ToSelf`, `NoClip`, `ClipRetired`, `AlreadyOffered`, `OffersFull`. It is the
    /// same for all rows that answer [`clips_asked_for_offer`] and [`OffersAsked::for_offer`] so.
    pub fn offer_for(
        &self,
        clips: &ClipsFound,
        plan: &PlanRow,
        clip: ClipRef,
        to: u32,
        window: Option<Window>,
    ) -> Result<Offer, Refusal>
        ensures { (own : OwnSeen) → own.plan ≡ plan.now → IsConsistent own.offers →
            AreClipAnswers (clips_asked_of clip) own.clips clips.now →
            AreOfferAnswers (offers_asked_for_offer clip to) own.offers self.now →
            result ≡ offer_for own clip to window }
    {
        match clip {
            ClipRef::Lent => refuse(Code::LentClip),
            ClipRef::Unknown => self.offer_named(None, plan, to, window),
            ClipRef::Own(_number) => self.offer_named(clips.with_number, plan, to, window),
        }
    }

    // The offer to this channel of the clip that was found, if one was.
    fn offer_named(
        &self,
        clip: Option<Clip>,
        plan: &PlanRow,
        to: u32,
        window: Option<Window>,
    ) -> Result<Offer, Refusal>
        ensures { result ≡ to_grantee
            (λ g. of_own_clip (offer_made_of plan.now g window (is_some self.now.open_to) self.now.count) clip)
            (grantee_made plan.now to) }
    {
        match (grantee_for(plan, to), clip) {
            (Err(code), _) => refuse(code),
            (Ok(_), None) => refuse(Code::NoClip),
            (Ok(grantee), Some(clip)) => self.offer_of(&clip, plan, grantee, window),
        }
    }

    // The offer of a clip that is there.
    fn offer_of(
        &self,
        clip: &Clip,
        plan: &PlanRow,
        to: u16,
        window: Option<Window>,
    ) -> Result<Offer, Refusal>
        ensures { result ≡ offer_made_of plan.now to window (is_some self.now.open_to) self.now.count clip.now }
    {
        if clip.retired {
            return refuse(Code::ClipRetired);
        }
        if self.open_to.is_some() {
            return refuse(Code::AlreadyOffered);
        }
        if self.count >= MAX_OFFERS {
            return refuse(Code::OffersFull);
        }
        Ok(Offer {
            n: self.count as u16 + 1,
            grantee: to,
            clip: clip.n,
            title: clip.title,
            umid: clip.umid.with_instance(u32::from(to)),
            rate: plan.rate,
            src_first: clip.src_first,
            frames: clip.frames,
            window,
            withdrawn: false,
        })
    }

    /// The offer that a request withdraws, as it stands then, or the first refusal in this order: `NoOffer`,
    /// `Withdrawn`. It is the same for all rows that answer [`OffersAsked::for_withdrawal`] so.
    pub fn withdrawn(&self) -> Result<Offer, Refusal>
        ensures { (own : OwnSeen) → (n : ℕ) →
            AreOfferAnswers (offers_asked_for_withdrawal n) own.offers self.now → result ≡ withdrawn_offer own n }
    {
        match self.with_number {
            Some(offer) => withdrawn(offer),
            None => refuse(Code::NoOffer),
        }
    }
}

// The grantee that a number is: a channel number, and not the channel's own.
fn grantee_for(plan: &PlanRow, to: u32) -> Result<u16, Code>
    ensures { result ≡ grantee_made plan.now to }
{
    if to == 0 || to > u32::from(LAST_CHANNEL) {
        return Err(Code::BadChannel);
    }
    if to == u32::from(plan.ch) {
        return Err(Code::ToSelf);
    }
    Ok(to as u16)
}

// An offer that is withdrawn.
fn withdrawn(offer: Offer) -> Result<Offer, Refusal>
    ensures { result ≡ as_withdrawn offer }
{
    if offer.withdrawn {
        return refuse(Code::Withdrawn);
    }
    Ok(Offer {
        withdrawn: true,
        ..offer
    })
}

/// The rows and counts of these offers that answer what is asked.
pub(crate) fn found_in(offers: &[Offer], asked: &OffersAsked) -> OffersFound
    ensures { AreOfferAnswers asked.now (listed offers.now) result }
{
    OffersFound {
        count: counted(offers, asked.count),
        with_number: with_number(offers, asked.number),
        open_to: asked_open(offers, asked.open_to),
    }
}

fn counted(offers: &[Offer], is_asked: bool) -> usize
    ensures { result ≡ (if is_asked then length offers.now else 0) }
{
    if is_asked { offers.len() } else { 0 }
}

fn with_number(offers: &[Offer], asked: Option<u32>) -> Option<Offer>
    ensures { result ≡ option_and_then (λ n. find (λ o. o.n == n) offers.now) asked }
{
    match asked {
        Some(number) => offer_numbered(offers, number),
        None => None,
    }
}

fn asked_open(offers: &[Offer], asked: Option<OpenOffer>) -> Option<Offer>
    ensures { result ≡ option_and_then (λ it. find (is_open_to it.clip it.grantee) offers.now) asked }
{
    match asked {
        Some(asked) => open_to(offers, asked),
        None => None,
    }
}

// The first offer with this number.
fn offer_numbered(offers: &[Offer], number: u32) -> Option<Offer>
    ensures { result ≡ find (λ o. o.n == number) offers.now }
{
    offers.iter().copied().find(|o| u32::from(o.n) == number)
}

// The first open offer of this clip to this grantee.
fn open_to(offers: &[Offer], asked: OpenOffer) -> Option<Offer>
    ensures { result ≡ find (is_open_to asked.clip asked.grantee) offers.now }
{
    offers.iter().copied().find(|o| is_open_to(o, asked))
}

/// Whether an offer is open, and of this clip to this grantee.
pub fn is_open_to(offer: &Offer, asked: OpenOffer) -> bool
    ensures { result ≡ is_open_to asked.clip asked.grantee offer.now }
{
    !offer.withdrawn && (offer.clip == asked.clip && u32::from(offer.grantee) == asked.grantee)
}

fn refuse(code: Code) -> Result<Offer, Refusal>
    ensures { result ≡ Err (refused code) }
{
    Err(Refusal::of(code))
}
