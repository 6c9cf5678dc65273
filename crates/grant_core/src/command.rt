//! Commands on a channel's offers: what each asks of the rows, and the row that it puts.
ghost use Rattle.std.specs.Prelude.{◌≡◌};
ghost use Rattle.vault_core.specs.Questions.{IsConsistent};
ghost use Rattle.vault_core.specs.Own.{OwnSeen};
ghost use Rattle.vault_core.specs.Asked.{AreClipAnswers};
ghost use Rattle.grant_core.specs.Asked.{AreOfferAnswers, offers_asked, clips_asked_for_offers};
ghost use Rattle.grant_core.specs.Command.{offer_decided, offer_is_put};

use crate::asked_offers::{OffersAsked, OffersFound, clips_asked_for_offer};
use crate::clip_ref::ClipRef;
use channel_plan::{PlanRow, Refusal};
use vault_core::{ClipsAsked, ClipsFound, Offer, Put, RawText, Window};

/// A command on a channel's offers.
#[derive(Drop)]
pub enum OfferCommand {
    /// Offer a clip, by its reel, to the channel `to`, for a window of its days or for any.
    Make {
        clip: RawText,
        to: u32,
        window: Option<Window>,
    },
    /// Withdraw the offer with this number.
    Withdraw {
        offer: u32,
    },
}

impl OfferCommand {
    /// What it asks of its channel's clips.
    pub fn asks_of_clips(&self) -> ClipsAsked
        ensures { result ≡ clips_asked_for_offers self.now }
    {
        match self {
            OfferCommand::Make { clip, .. } => {
                clips_asked_for_offer(ClipRef::read(clip.as_bytes()))
            }
            OfferCommand::Withdraw { .. } => ClipsAsked::nothing(),
        }
    }

    /// What it asks of its channel's offers.
    pub fn asks(&self) -> OffersAsked
        ensures { result ≡ offers_asked self.now }
    {
        match self {
            OfferCommand::Make { clip, to, .. } => {
                OffersAsked::for_offer(ClipRef::read(clip.as_bytes()), *to)
            }
            OfferCommand::Withdraw { offer } => OffersAsked::for_withdrawal(*offer),
        }
    }

    /// How it puts its row.
    pub fn is_put(&self) -> Put
        ensures { result ≡ offer_is_put self.now }
    {
        match self {
            OfferCommand::Make { .. } => Put::Added,
            OfferCommand::Withdraw { .. } => Put::Changed,
        }
    }

    /// The offer as it leaves it, or its first refusal. It is the same for all rows that answer what it asks so.
    pub fn decided(
        &self,
        plan: &PlanRow,
        clips: &ClipsFound,
        offers: &OffersFound,
    ) -> Result<Offer, Refusal>
        ensures { (own : OwnSeen) → own.plan ≡ plan.now → IsConsistent own.offers →
            AreClipAnswers (clips_asked_for_offers self.now) own.clips clips.now →
            AreOfferAnswers (offers_asked self.now) own.offers offers.now → result ≡ offer_decided own self.now }
    {
        match self {
            OfferCommand::Make { clip, to, window } => offers.offer_for(
                clips,
                plan,
                ClipRef::read(clip.as_bytes()),
                *to,
                *window,
            ),
            OfferCommand::Withdraw { .. } => offers.withdrawn(),
        }
    }
}
