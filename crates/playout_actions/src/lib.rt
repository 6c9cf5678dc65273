//! What the words of the command line do, over any reader and any writer.
//!
//! - [`office`] does what the words ask for without a database: messages that are answered over rows in memory, lists
//!   that are checked or compared, a label that is counted (`playout_lists`), and help. Its clause `does` says of the
//!   words what was read, written and told; [`do_asked`] does it of words that were read.
//! - [`answer_input`] answers the messages of an input over a plan ([`plan_of`]), and [`answer_over`] over any store.
//! - [`print_table`] prints a table of a channel over any store; [`table_of`] is the table that a word names.
//!
//! A fault is one that the words or the input have: its clause says which. Before a fault of the output nothing is
//! written but the answers of earlier messages, and with it a beginning of what was to be written.
//!
//! **Each fault is said**, in one line on standard error, and so is the text for words that ask for nothing: whole,
//! unless a write of it has failed (`Tells`).
#![tactic(auto)]

mod answering;
mod program;
mod tables;

pub use answering::{answer_input, answer_over, plan_of};
pub use program::{do_asked, office};
pub use tables::{print_table, table_of};
