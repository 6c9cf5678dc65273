//! What a command of one channel is answered and changes.
//!
//! [`decide`] gives the reply and the change of a command over all that its channel sees
//! ([`View`](channel_view_model::View)), [`decide_part`] the same by just the rows and counts that the command needs
//! ([`Need`](channel_view_model::Need), [`Part`](channel_view_model::Part)). A table needs all rows of a kind: as text it
//! is a reply. The definitions are `channel_view_model`'s.
#![tactic(auto)]

mod airing_decisions;
mod day_decisions;
mod decisions;
mod revising;
mod view_text;

pub use decisions::{decide, decide_part};
