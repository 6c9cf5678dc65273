//! What makes and changes a centre's tables, each in one transaction.
//!
//! - [`create_centre`] makes the tables of a new centre, with its plan; [`rows_in_order`] gives the rows of a plan as
//!   the tables hold them.
//! - [`migrate_centre`] makes tables of version 1 those of version 2.
//! - [`commit_change`] makes a change of one channel for good.
//!
//! Each is called on a connection with no transaction open, and commits at most once. Refused, it leaves what was
//! committed, and what a stop may leave is that, or the whole of what was asked for (`Survives`). `specs/Tables.antt`
//! says what a call leaves; what the database holds stands as a premise of the clauses, since no caller can know it
//! before a call.
//!
//! A change of a day writes what differs, and reads nothing (`writes`, `puts`): its premise is that the change is one
//! from the day that the rows make (`ComesFromNow`), as each change is that a command decides. What was aired gets the
//! batch that came, with its rows as its lines.
#![tactic(auto)]

mod airing_writing;
mod applying;
mod creating;
mod day_writing;
mod founding;
mod migrating;

pub use applying::commit_change;
pub use founding::{create_centre, rows_in_order};
pub use migrating::migrate_centre;
