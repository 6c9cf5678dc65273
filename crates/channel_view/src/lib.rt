//! What one channel of a playout centre may ask, what it is answered, and what that depends on.
//!
//! All channels of a centre keep their rows in one store. A request speaks for one channel, and what it is answered
//! depends on what that channel sees: its own rows, and the clips that others lend it. That is proved over any store
//! ([`RowStore`]):
//!
//! - [`prepare`] decides a request over what its channel sees alone, and the reply and the change are those that the
//!   set of all channels' rows gives. It fetches just the rows and counts that the command needs ([`Need`], [`Part`]):
//!   [`decide_part`] gives the same as [`decide`] for whatever else the channel sees.
//!   A [`Table`] is written row by row into any writer, by [`RowStore::write_table`], and as text is a reply
//!   ([`TableText`]).
//! - [`handle`] answers that reply. Another channel sees of the request an offer to it, or the withdrawal of one, and
//!   else nothing. A request that is answered [`Outcome::Unavailable`] changed nothing.
//! - [`run`] answers many requests of any channels, in order. To each channel the answers are those of a machine of its
//!   own, and without the requests of the channels that lend it nothing they are the same.
//! - [`laws`] says the same of any list of requests, and of two stores: what the channel sees alike in both is answered
//!   alike. A set of channels to which no other lends is answered alike without the others' rows and requests.
//!
//! [`run`] takes the room for all outcomes first: refused, nothing was done (`err`). A [`Part`] holds the
//! answers to what is asked and nothing else, but clips that are seen beside those that items name (`IsPartOf`).
//!
//! [`MemRows`] is a store of lists in memory. It stands for its lists where these keep the rules; `MemRows::new` is the
//! plan alone, and takes only a plan (`plan`, `alone`, `only_a_plan`, `rules`). `MemRows::from_rows` takes any rows in
//! order (`rows`, `none`). `MemRows::walks_far` says whether a look-up goes over many rows (`specs/Walks`).
//!
//! Rows that find what one source names ([`FindsSources`]) find what many do ([`sources_at`]).
#![tactic(auto)]

pub mod laws;
mod lending;
mod mem;
mod mem_days;
mod sources;

pub use channel_plan::{At, Code, PlanRow, Refusal};
pub use channel_view_decisions::{decide, decide_part};
pub use channel_view_model::{
    AiringCommand, Airings, CentreRows, Change, Command, DayCommand, DayNumber, Days, Mix, Need,
    Outcome, Part, Reply, RowStore, SourcesAsked, Table, TableFault, TableText, Upload,
    VaultChange, VaultCommand, View,
};
pub use channel_view_requests::{handle, prepare, run};
pub use channel_view_rules::keeps_rules;
pub use mem::MemRows;
pub use sources::{FindsSources, sources_at};
pub use timecode::Unavailable;
