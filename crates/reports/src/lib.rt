//! The seven tables of a channel, as text to read: to any writer, row by row and whole.
//!
//! They are those of its tapes, its clips, its offers, the clips that it is lent, its days, a day, and a sealed day's
//! match. The match is the table of the statuses of the day's frames: its lines are their runs, and each frame is
//! counted once ([`laws`]).
//!
//! A line is fields with a blank between each two, and LF behind the last. A writer that fails has been given the text
//! up to some byte. A line is made before it is written, and its making fails only where a frame of it has no label
//! ([`RowFault::NoLabel`]).
//!
//! The definitions of these texts, a line while it is made and what a writer took stand in `report_texts`. A line is
//! made within 256 bytes before it is written.
#![tactic(auto)]

mod asrun;
mod clips;
mod columns;
mod days;
mod fields;
pub mod laws;
mod lent;
mod offers;
mod playlist;
mod vault;

pub use asrun::{match_table, write_match, write_match_end, write_run, write_runs};
pub use clips::{write_clip, write_clip_lines, write_clips, write_clips_end};
pub use days::{counts_of, write_day, write_days, write_days_end};
pub use lent::{write_grant, write_lent, write_lent_end};
pub use offers::{write_offer, write_offer_lines, write_offers, write_offers_end};
pub use playlist::{write_item, write_items, write_plan, write_plan_end, write_plan_head};
pub use timecode::Unavailable;
pub use vault::{count_shelved, write_tape, write_tapes, write_vault, write_vault_end};
