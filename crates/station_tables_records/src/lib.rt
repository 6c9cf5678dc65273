//! The rows of a centre's tables: lists of typed rows, what a statement makes of them, what each row is read as, and
//! what rows of two tables make together.
//!
//! - Tables and texts: `specs/Table.antt` has what a table is, `proofs/TableLemmas.antt` what a SELECT, an INSERT, an
//!   UPDATE, a DELETE and a CREATE TABLE do to it, once for any table, from the meaning of the statement's text.
//!   `specs/Schema.antt` has the ten tables of a centre and the schema that they make; `proofs/Texts.antt`,
//!   `DayTexts.antt` and `AiredTexts.antt` have the texts of the statements, and what the database understands by
//!   each, computed once: those of an open for the tables of version 1 and any more behind them, and so for both.
//! - Rows: a tape, a clip, an offer, a window, a channel, a day, an item, a batch, a line, or the version.
//!   [`StoredRow`] says how one is read, [`ask`] reads what a text shows. `specs/TapeRows.antt` and its like say what a
//!   row of a table reads as, in which order the rows are, and which values are written of one. The functions read rows
//!   of a database that may be anybody's, and take no memory but for what they give.
//! - Broadcast days: a row for each day, and a row for each item. `specs/MadeDays.antt` says which days rows make.
//!   [`days_of`] makes them, or says that rows make none: an item whose day isn't there, a day of a channel that isn't
//!   planned, broken rules of a day.
//! - What was aired: a row for each batch of a day, and a row for each line of a batch. `specs/MadeAirings.antt` says
//!   what was aired by rows. [`airings_of`] tells it, or that rows tell nothing.
//! - Offers: a row for each, and a row for the window of days of each that has one. `specs/MadeOffers.antt` says which
//!   offers rows make, and [`offers_of`] makes them, or says that rows make none.
//!
//! Each kind of change of rows is one lemma on what they make (`proofs/DayMadeLemmas.antt`, `AiringLemmas.antt`,
//! `OfferLemmas.antt`). A window whose offer isn't there is refused; so are a line without its batch or of number 0,
//! and a batch number that is left out. The texts of a source and a kind are read back as these (`item_texts`).
#![tactic(auto)]

mod aired_reading;
mod aired_rows;
mod airings;
mod asking;
mod cells;
mod day_reading;
mod day_rows;
mod days;
mod item_texts;
mod offer_rows;
mod offers;
mod reading;
mod reels;
mod rows;
mod stored;
mod values;

pub use aired_rows::{AiredLine, BatchRow};
pub use airings::{airing_of, airings_of};
pub use asking::ask;
pub use day_rows::{DayRow, ItemRow, row_of, state_of};
pub use days::days_of;
pub use item_texts::{ItemText, can_be_written, kind_text, source_text};
pub use offer_rows::{SpanRow, with_window};
pub use offers::offers_of;
pub use reading::{read_each, rowid_of};
pub use rows::read_version;
pub use stored::{StoredRow, read_rows};
pub use values::{long_number, of_channel, short_number, truth};
