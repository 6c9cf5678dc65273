//! What is read of a centre's tables for a channel, inside a transaction.
//!
//! - [`read_view`] reads all that the channel sees.
//! - [`read_part`] reads the part of it that a command needs: just the rows and counts that it asks for, each by a
//!   statement of its own.
//! - [`write_table`] writes a table of the channel, page by page.
//! - [`read_day_counts`] reads what the days table tells of each of the channel's days.
//! - [`read_vaults`] reads the tapes, the clips and the offers of all channels, where they take few enough bytes.
//!
//! Each is given the channel's row of the plan, and selects none. Where that is all that is asked for, the store still
//! has to be open (`test_open`).
//!
//! What the database holds stands as a premise of the clauses ([`read_view`]: while the disk is clean, the tables are
//! those of a centre), since no caller can know it before a call. None changes a row, and none tests whether the rows
//! keep the rules.
//!
//! A table is written from pages of 64 rows, the clips lent to a channel at once; of the days what is told of them,
//! which is read by pages of a thousand numbers, of each day its items at once.
#![tactic(auto)]

mod airing_fetching;
mod airing_loading;
mod day_counting;
mod day_fetching;
mod day_loading;
mod days_writing;
mod entries;
mod fetching;
mod open_testing;
mod own_fetching;
mod table_writing;
mod vaults_loading;
mod view_loading;

pub use day_counting::read_day_counts;
pub use fetching::read_part;
pub use table_writing::write_table;
pub use vaults_loading::read_vaults;
pub use view_loading::read_view;
