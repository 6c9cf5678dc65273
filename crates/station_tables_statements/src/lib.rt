//! What is asked of a centre's tables, and written, inside a transaction: a file for each table, which has its texts
//! over one list of its columns (`columns.rt`).
//!
//! Each statement is a text of its own and one call of `sqlite`, over any store of it (`S: Alter`). What the database
//! holds stands as a premise of the clauses (while the disk is clean, the tables are those of a centre), since no
//! caller can know it before a call. A reading changes nothing, and a call that writes commits nothing: that is its
//! caller's.
//!
//! ```
//! use sqlite::{Connection, MemStore};
//! use station_tables_statements::{Tape, Unavailable, count_rows};
//! use std::alloc::Global;
//!
//! fn tapes_of(alloc: Global, conn: &mut Connection<MemStore>, channel: u16) -> Result<u32, Unavailable> {
//!     let mut tx = conn.transaction();
//!     count_rows::<Tape, MemStore>(alloc, &mut tx, channel)
//! }
//! ```
//!
//! `specs/Rows.antt` says when a database is a centre, and which set of rows it holds. What a statement on one table
//! makes of that set is in `proofs/`. [`find_rows`] is every question of a store, [`StoredTable::ask_all`] and
//! [`ChannelTable::query_channel`] those of an open.
//!
//! What is asked of tapes, clips and offers stands once, over whatever has a number in its channel
//! (`NumberedRow`): `load_rows`, `load_page` (64 by number), `count_rows`, `row_numbered`. Each table has its
//! texts (`AskedRow`), and that they show the rows that answer is a law of it (`Asks`).
#![tactic(auto)]

mod aired;
mod asked;
mod asking;
mod batches;
mod clips;
mod columns;
mod days;
mod items;
mod numbered;
mod offers;
mod office;
mod plan;
mod spans;
mod tapes;

pub use aired::{insert_line, load_channel_lines, load_line_rows};
pub use asking::{ChannelTable, StoredTable};
pub use batches::{insert_batch, load_batch_rows, load_channel_batches};
pub use clips::{clip_with, insert_clip, retire_clip};
pub use days::{insert_day, load_day_rows, set_sealed};
pub use items::{delete_item, insert_item, load_item_rows};
pub use numbered::{NumberedRow, PAGE, Question, count_rows, load_page, load_rows, row_numbered};
pub use offers::{insert_offer, load_lent, open_offer, withdraw_offer};
pub use office::{RAISE_VERSION, insert_office, office_rows};
pub use plan::insert_channel;
pub use tapes::{change_tape, insert_tape, tape_in, tape_with};
