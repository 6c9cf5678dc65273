//! Clips that channels lend one another.
//!
//! - A channel offers a clip of its own to another channel: [`offer`], and withdraws an offer: [`withdraw`]. Beside
//!   each stands the call that says what it will do ([`offer_for`], [`withdrawn`]), and in [`OffersFound`] the same
//!   over the rows that it asks for ([`OffersAsked`]).
//! - To the grantee an offer is a lent clip, a [`Grant`]. [`LentRows`] are all those of one channel, open and
//!   withdrawn.
//!
//! Nobody looks whether a grantee is in the plan, and an owner sees nothing of what a grantee does with a lent clip.
//!
//! [`LentRows::from_rows`] takes just rows that the offers to one channel can be (`rows`, `rules`,
//! `refusal`): each of a clip of its owner within the day of its rate, with the channel for its UMID's
//! instance number, and no two open ones of one clip. Those of one owner have one rate, and those of one clip of its
//! are one copy. What owners offer keeps all this ([`laws`]). They are always in the order of owners and numbers
//! (`keep_the_order`), so `grant_of` bisects.
#![tactic(auto)]

mod asked_offers;
mod calls;
mod clip_ref;
mod command;
mod grant;
pub mod laws;

pub use asked_offers::{OffersAsked, OffersFound, OpenOffer, clips_asked_for_offer, is_open_to};
pub use calls::{offer, offer_for, offers_found, withdraw, withdrawn};
pub use clip_ref::{ClipRef, seven_digits};
pub use command::OfferCommand;
pub use grant::{Grant, LentReel, LentRows, are_in_order, grant_among};
pub use timecode::Unavailable;
pub use vault_core::Window;
