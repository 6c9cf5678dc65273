//! A request over any store of the rows of all channels ([`RowStore`](channel_view_model::RowStore)), and runs of them.
//!
//! - [`prepare`] decides a request over what its channel sees alone, and the reply and the change are those that the
//!   set of all channels' rows gives. It fetches just the rows and counts that the command needs. A table is written row
//!   by row into any writer, and as text is a reply.
//! - [`handle`] answers that reply. Another channel sees of the request an offer to it, or the withdrawal of one, and
//!   else nothing. A request that is answered `Unavailable` changed nothing.
//! - [`run`] answers many requests of any channels, in order. To each channel the answers are those of a machine of its
//!   own, and without the requests of the channels that lend it nothing they are the same. It takes the room for all
//!   outcomes first: refused, nothing was done (`err`).
#![tactic(auto)]

mod requests;
mod runs;

pub use requests::{handle, prepare};
pub use runs::run;
