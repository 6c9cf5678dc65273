//! What really went out: the rows of a day's as-run batches, and their match with the sealed plan.
//!
//! What was aired is a picture like that of the plan, a cell for each frame of the day. It is proved that
//!
//! - [`read_asrun`] gives the rows that the text of a batch says, or the refusal of the first row that has one;
//! - [`take_batch`] leaves the day with that batch behind its others, or, where the batch is there already or is
//! refused,
//!   as it was; a frame that is aired twice is the least of the first row that airs one;
//! - [`AiredDay::from_rows`] takes all rows that can have been aired of a day, and holds just those;
//! - [`reconcile`] gives the longest stretches of one [`Status`] of the two pictures, in order: all frames of the day,
//!   and no other list does ([`laws`]).
//!
//! An [`AiredDay`] always keeps the rules (`keep_the_rules`): 64 batches at most, each row of some frames
//! within the day, no frame of two rows. Runs are at most one for each item and two for each row (`count`). A
//! batch is refused for want of memory of a sealed day alone.
#![tactic(auto)]

mod aired;
mod day;
pub mod laws;
mod places;
mod reading;
mod runs;
mod sorted;
mod status;
mod sweep;
mod taking;

pub use aired::{AiredRow, Batch, Reel};
pub use day::{AiredDay, DayAsRun, MAX_BATCHES};
pub use reading::read_asrun;
pub use status::{Run, Status};
pub use sweep::reconcile;
pub use taking::take_batch;
pub use timecode::Unavailable;
