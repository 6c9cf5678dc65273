//! The words of the program's command line: what they ask for, or the text of usage or help.
//!
//! The numbers that [`read_words`] gives are in their ranges. Which words are taken is `clap`'s reading of the command
//! that stands here.
//!
//! ```rust
//! match read_words(rt.alloc(), &words) {
//!     Ok(Action::Timecode(rate, label)) => show(rate, label),
//!     Ok(_) | Err(_) => {}
//! }
//! ```
//!
//! A channel is 1 to 999, peers 1 to 10,000, turns 1 to 1,000,000, idle seconds 1 to 3,600. Words that are taken and ask
//! for something are refused only for want of memory. The rules of the command stand in `specs/Words.antt`
//! (`program`, `AreRead`).
#![tactic(auto)]

mod words;

pub use words::{Action, EventForm, NoAction, TableName, read_words};
