//! The vault of one channel: its row of the plan, its tapes and its clips.
//!
//! - [`OwnRows`] are the own rows of one channel. They always keep the integrity rules: tapes, clips and offers are
//!   numbered from 1 without a hole, barcodes, slots and UMIDs differ, each clip is on a tape that is there, and each
//!   offer has what its clip has and is the only open one of it to its grantee.
//!   [`OwnRows::from_rows`] takes no others.
//! - [`OwnRows::tape_for`] is the tape that a request adds, or its first refusal. It rests on the few rows and counts
//!   that answer [`TapesAsked`]: [`TapesFound::tape_for`] is the same over these alone.
//! - Tapes are added, pulled and shelved, clips added and retired: by [`OwnRows::add_tape`], [`OwnRows::pull`],
//!   [`OwnRows::shelve`], [`OwnRows::add_clip`] and [`OwnRows::retire`]. Beside each stands the call that says what it
//!   will do, and in [`TapesFound`] and [`ClipsFound`] the same over the rows that it asks for.
//!
//! What a command may ask of rows is `Questions` (`specs/Questions.antt`). Each command's text stands once, over
//! such questions, so that the crates above read the same text of one channel's rows and of the rows of all channels.
//!
//! A refusal leaves the rows. For want of memory a tape or a clip is refused only where the definition takes
//! it (`IsRefusalOf`): one that has a refusal of its own has that one. A pull, a shelving and a retirement
//! never are.
#![tactic(auto)]

mod asked_clips;
mod asked_tapes;
mod clip;
mod command;
mod keys;
pub mod laws;
mod offer;
mod own;
mod reel;
mod rules;
mod tape;
mod text;
mod window;

pub use asked_clips::{ClipsAsked, ClipsFound};
pub use asked_tapes::{TapesAsked, TapesFound};
pub use channel_plan::{At, PlanRow, Refusal};
pub use clip::{Clip, MAX_CLIPS, Title};
pub use command::{ClipCommand, Put, TapeCommand};
pub use offer::{MAX_OFFERS, Offer};
pub use own::OwnRows;
pub use reel::ClipReel;
pub use rules::{are_numbered, clip_at};
pub use tape::{Barcode, MAX_TAPES, Tape};
pub use text::RawText;
pub use timecode::Unavailable;
pub use window::Window;
