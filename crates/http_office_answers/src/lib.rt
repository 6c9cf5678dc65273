//! The bytes of an answer: what is written for a message ([`Answer`]), of each reply and of each status.
//!
//! A reply is answered as JSON or as a table's text (RFC 9112, section 4; RFC 8259). [`reply_answer`] and
//! [`status_answer`] fail where memory does. That is answered, too: by a constant, which takes none.
#![tactic(auto)]

mod answers;

pub use answers::{Answer, reply_answer, status_answer};
