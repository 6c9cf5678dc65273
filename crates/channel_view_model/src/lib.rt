//! The shared centre of a playout centre's channels: its rows, what a channel may ask, what it sees, and what a store
//! of the rows promises.
//!
//! All channels of a centre keep their rows in one set. A request speaks for one channel. What it is answered, and what
//! it changes, is defined on the whole set (`specs/Centre`) and, in the same words, on what the channel sees alone: its
//! own rows, and the clips that others lend it ([`View`], `specs/Seen`, `specs/Decide`).
//!
//! - [`Command`] is what a channel asks, [`Reply`] and [`Change`] what comes of it.
//! - [`Need`] is what a command asks of the rows, and a [`Part`] has just these rows and counts.
//! - [`RowStore`] is a store of the rows: in memory, or in the tables of a database. One that counts days ([`CountsDays`])
//!   tells of each what the days table does (`specs/Counts`).
//! - `specs/Rules` has the integrity rules, `specs/Solo` a channel by itself, its lenders and the purge of all others.
//!
//! A `DayNumber` is 1 to 99,999, a `Mix` at most 999, `Upload` (a list, a batch) fewer than
//! 4,294,967,296. `laws::rules_are_kept`: a request keeps the integrity rules. A change of a day, or of what
//! was aired of it, is that as it stands afterwards.
#![tactic(auto)]

mod airings;
mod centre;
mod command;
mod day_command;
mod days;
pub mod laws;
mod naming;
mod need;
mod part;
mod revision;
mod store;
mod table;
mod view;

pub use airings::{Airings, airings_alone};
pub use centre::CentreRows;
pub use command::{AiringCommand, Change, Command, Outcome, Reply, VaultChange, VaultCommand};
pub use day_command::{DayCommand, DayNumber, Mix, Upload};
pub use days::{Days, days_alone};
pub use need::{FEW_SOURCES, Need, SourcesAsked, items_asked, names_asked, sources_of};
pub use part::Part;
pub use revision::{ItemRefusal, Revised, Revision, SaidItem};
pub use store::{CountsDays, RowStore};
pub use table::{Table, TableFault, TableText};
pub use view::{View, nothing_aired};
