//! Broadcast days of a channel: playlists without gap or overlap.
//!
//! What a day shows is its picture, a cell for each of its frames. It is proved that
//!
//! - [`DayPlan::add_item`] gives the least free number and paints the item's cells, or names the first refusal; an
//!   overlap names the label of the least painted cell of the range. After a refusal the day is as before.
//! - [`DayPlan::remove_item`] empties the item's cells.
//! - [`DayPlan::seal`] names the label of the least empty cell, or leaves a day in which each cell has one item.
//! - [`DayPlan::from_rows`] takes the rows in any order, and the picture doesn't depend on it ([`laws`]).
//! - [`DayChange`] is the day that a command leaves, with what differs from the day before: a store that keeps items
//!   one by one writes this, and needn't read the day again.
//!
//! What an item shows is a [`Source`]: black, bars, a clip of the channel or one that is lent to it. [`Sources`] finds
//! the clip or the lent clip; the calls look at those alone that the items name.
//!
//! A seal that is refused names the first item whose lent clip is withdrawn, else the first whose lent clip
//! is for other days, else the least empty frame. Removing, opening and sealing are never refused for want of
//! memory. A [`DayBuilder`] is an open day that takes items just as a [`DayPlan`] does (`taken`, `refused`).
//! The numbers of a [`Source`] have no more digits than a reel has for them.
#![tactic(auto)]

mod change;
mod day;
mod filling;
mod fitting;
mod item;
pub mod laws;
mod numbers;
mod places;
mod reel_numbers;
mod rules;
mod source;

pub use change::DayChange;
pub use day::{DayPlan, DayState};
pub use filling::DayBuilder;
pub use fitting::{label_at, position_of};
pub use item::{EditKind, Item, MAX_ITEMS, MAX_MIX, MAX_WIPE, NewItem};
pub use reel_numbers::{ClipNumber, OfferNumber, Owner};
pub use source::{Source, SourceRow, SourceRows, Sources, SourcesFound, ViewSources};
pub use timecode::Unavailable;
