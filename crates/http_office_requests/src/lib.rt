//! HTTP messages as requests of channels: what stands at the front of a stream, and what a message asks.
//!
//! [`next_piece`] finds the first message of a stream, where its head (RFC 9112) and its body end, and
//! [`ask_message`] what its method, its path and its body ask: a command of a channel, or an answer that is the
//! message's own.
//!
//! A path has a row in [`Routes::new`], and what it asks a line in `command_of`, by a reader of its body's members.
//!
//! `is_plainly_partial` is true only of bytes of which no piece is whole. Heads are `httparse`'s grammar,
//! routes `matchit`'s matching, bodies `serde_json`'s reading, by the contracts of these crates.
#![tactic(auto)]

mod body;
mod day_body;
mod fault;
mod piece;
mod request;
mod revision_body;
mod routes;

pub use piece::{
    BODY_LIMIT, FoundPiece, FramingProgress, HttpError, MessageSpans, WholeHead,
    is_plainly_partial, next_piece,
};
pub use request::{ParsedRequest, ask_message};
pub use routes::{PathNumbers, Route, Routes};
