//! Whether a database is that of a centre, tested before its tables are used.
//!
//! [`open_centre`] tests, in one transaction: the version, that the rows of each table read, and that the set which they
//! make keeps the rules. Then it makes tables of version 1 those of version 2, in one more. It answers the plan.
//!
//! The rows of a table with a day are read channel by channel (`by_channel`), and those of a channel that isn't planned
//! are missed by their number. `specs/Opening.antt` says what is a centre ([`Version`]), `Opens.antt` what an open leaves
//! and what its refusal says, `Left.antt` what it finds that a stop left. What the database holds stands as a premise.
#![tactic(auto)]

mod by_channel;
mod finding;
mod opening;

pub use finding::Version;
pub use opening::open_centre;
