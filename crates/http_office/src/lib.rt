//! HTTP messages over any store of rows: what a message asks, and its answer, byte for byte.
//!
//! [`message::answer`] reads one message (RFC 9112), decides what it asks over what its channel sees, makes the bytes
//! of the answer and then commits the change. For each set of rows that the store stands for, the answer is the one
//! that the definitions give, and the store stands for the definition's rows afterwards.
//!
//! `serve` answers a stream piece by piece, over any store, reader and writer; each way in which it ends says
//! what is left of the stream and what was done of it (`specs/Serving.antt`, `Ends`). `answer_all` is the
//! same over messages by themselves (`ok`); refused, nothing was done (`err`).
#![tactic(auto)]

pub mod laws;
pub mod messages;
pub mod serving;

pub use http_office_answers::Answer;
pub use messages::{answer, answer_all, answer_piece};
pub use serving::{End, ServeFault, serve};
pub use timecode::Unavailable;
