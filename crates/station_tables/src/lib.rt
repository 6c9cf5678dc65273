//! The rows of a centre in the tables of a SQL database.
//!
//! [`SqlRows`] is a store ([`channel_view_model::RowStore`]) over any store of the toolchain's `sqlite` (`S: Alter`),
//! and meets the store's whole contract: what a load shows, what a table says, what a commit makes or leaves, and what
//! a stop may leave. What the database holds stands as a premise of the clauses, since no caller can know it before a
//! call: [`SqlRows::create`] is given a database without tables, [`SqlRows::open_tables`] one with those of
//! `docs/SCHEMA.md`, of version 1 or 2. Of another database it is proved that the calls answer and leave what was
//! committed, or what was found. [`centre_in_memory`] has no premise.
//!
//! ```
//! use channel_view_model::{PlanRow, Unavailable};
//! use sqlite::{Connection, MemStore};
//! use crate::SqlRows;
//! use std::alloc::Global;
//!
//! fn new_centre(alloc: Global, plan: &[PlanRow]) -> Result<SqlRows<MemStore>, Unavailable> {
//!     let Ok(conn) = Connection::open_in_memory(alloc) else {
//!         return Err(Unavailable);
//!     };
//!     match SqlRows::create(alloc, conn, plan) {
//!         Ok(store) => Ok(store),
//!         Err(_) => Err(Unavailable),
//!     }
//! }
//! ```
//!
//! The plan never changes once the centre was made. So a store keeps it, as it was made with it or found it, and stands
//! for sets with this plan alone (`StandsWithPlan`). [`SqlRows::vaults`] reads the tapes, the clips and the offers of all
//! channels, where they take few enough bytes, for a store over this one that has them at hand (`vaults`, `few`).
//!
//! Each call is one transaction on a connection with none open: those that commit (`station_tables_writing`), and the one
//! that tests what is opened, before it is taken for a centre (`station_tables_opening`). What a channel sees is read
//! whole (`station_tables_reading`) and tested likewise (`shows`): rows that break a rule are answered `Unavailable`.
//! Refused, a call leaves what was committed.
//!
//! 98 is answered only where there is a version other than 1 and 2 (`version`), 97 never where there is
//! (`known`), nor to a centre whose rows keep the rules (`ours`). What a stop leaves of a store opens, or is
//! refused with 100 ([`SqlRows::open_after_stop`]); so of a connection that came back with a refusal
//! (`open_after_refusal`).
#![tactic(auto)]

mod connected;
mod loading;
mod memory;
mod stopped;
mod store;
mod view_testing;

pub use connected::SqlRows;
pub use memory::centre_in_memory;
pub use station_tables_opening::Version;
pub use timecode::Unavailable;
