//! Edit decision lists in a profile of CMX 3600: read without copying their texts, and written.
//!
//! It is proved that [`read_from_string`] gives the one list of a text, or, where a line has a fault, the first fault
//! of the first such line; that it gives up otherwise only where memory runs out; and that [`write_to_string`] writes
//! the one text of its events. The definitions are in `specs/`: lines and fields (`Text`), the meaning of a line
//! (`Line`, `Meaning`), notes and durations (`Notes`), faults (`Faults`), the list (`ListOf`) and the written
//! list (`Written`). Lists, events and notes can be walked, copied, compared and shown by `Debug`.
//!
//! Lines end by LF, before which one CR is dropped; spaces and tabs at a line's ends are left out, and so is a byte
//! order mark at the very start. A line is empty, a title, a frame mode, an event where it begins with a digit, or
//! else a note on the event before it. An event has eight to ten fields: a number, a reel, channels, the words of its
//! kind (`C`; `D` or `W` and digits with a duration; or `K` and up to two words more), and the labels of source
//! in, source out, record in and record out. Out points are exclusive.
//!
//! A list that was read can be changed and written: [`Event::to_out`] gives an event as one to be written. This moves
//! the events of a list to a record an hour later:
//!
//! ```rust
//! let list = read_from_string(alloc, text, rate, false)?;
//! let hour = from_timecode(b"01:00:00:00", rate)?;
//! let day = day_frames(rate);
//! let mut events = Vec::new(alloc);
//! for event in &list.events {
//!     let mut event = event.to_out()?;
//!     event.record_first = (event.record_first % day + hour) % day;
//!     events.push(event)?;
//! }
//! if can_be_written(rate, events.as_slice()) {
//!     let moved = write_to_string(alloc, "AN HOUR LATER", rate, events.as_slice())?;
//! }
//! ```
//!
//! Each text of a list has the bytes of the source at its place (`places`), in order (`in_order`, `title`).
//! `laws::written_lists_are_read_back`: what is read of a written list is what was written, the title and each event
//! with its edit, its places and its notes. Its premises are of what is written (`specs/ReadBack.antt`).
#![tactic(auto)]

mod edits;
mod event;
pub mod laws;
mod list;
mod meaning;
mod read;
mod rewriting;
mod text;
mod values;
mod write;

pub use crate::edits::EditType;
pub use crate::list::{Event, EventList, Events, LIST_LIMIT, MAX_EVENT_NUMBER, MAX_EVENTS, Notes};
pub use crate::read::read_from_string;
pub use crate::rewriting::can_be_written;
pub use crate::write::{OutEvent, write_to_string};
pub use channel_plan::{LineFault, ListFault};
pub use timecode::{Rate, TcFault, Unavailable};
