//! What is at hand of the rows of all channels, in stores over another one: so that a command that comes behind others
//! needn't ask that for what it has told before.
//!
//! Each answers as the store below does, for the set of rows for which that stands. A change goes to the store below
//! first, and what is at hand follows it.
//!
//! - [`RecentDays`] has at hand the days that were asked for or changed last, and what was aired of them, where that was
//!   asked for. Who works on a day sends command after command, and each needs all its items, or all that was aired. The
//!   store below is asked for these once (`specs/Known`).
//! - [`VaultsAtHand`] may have all rows but days at hand, as each channel's lists in memory ([`Vaults`]), and asks the
//!   store below for these only where a look-up would walk over many (`specs/AtHand`). Where that store fails, they aren't
//!   at hand any more.
//! - [`CountedDays`] has at hand what the days tables that were asked for tell of each day, over a store that counts days
//!   (`CountsDays`): a day's items are counted as it changes, and no longer for each table (`specs/Counted`).
//!
//! Of days tables at most [`MOST_COUNTED`] days are told; where another table comes for which there is no room, the others
//! go. At hand are at most [`MOST_DAYS`] days with at most [`MOST_ROWS`] rows (`few`, `few_rows`). Those that were asked for
//! or changed least lately make room, and no more of them than have to (`LeavesLatest`). Where no memory is there for a
//! day, it isn't at hand.
#![tactic(auto)]

mod at_hand;
mod counted;
mod counts;
mod following;
mod known;
mod recent;
mod vaults;

pub use at_hand::VaultsAtHand;
pub use counted::CountedDays;
pub use counts::MOST_COUNTED;
pub use known::{MOST_DAYS, MOST_ROWS};
pub use recent::RecentDays;
pub use vaults::{Vault, Vaults};
