//! What the seven tables of a channel say; a line while it is made; and what a writer took of it.
//!
//! The text of each table is a definition, in `specs/Vault`, `Clips`, `Offers`, `Lent`, `Days`, `Playlist` and `Asrun`,
//! with the fields of a line in `specs/Fields`. The centre's own definitions speak of these texts; `reports` has what
//! writes them. So the centre's model and the tables' code are proved side by side.
//!
//! A line is made in a [`LineBuffer`] before it is written. [`send`] writes all of some bytes, or a beginning
//! (`specs/Output`). A [`WriteFault`] says that a call of the writer gave an error or took nothing: no other crate can
//! make one.
#![tactic(auto)]

mod counts;
mod fault;
mod line;
mod output;

pub use counts::DayCounts;
pub use fault::RowFault;
pub use line::{LineBuffer, push, push_copies, push_decimal};
pub use output::{WriteFault, print_line, send};
