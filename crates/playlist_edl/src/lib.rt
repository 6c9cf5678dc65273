//! Edit lists of a day: imported and exported.
//!
//! [`DayLists`] is what a day does with them: `import_list` takes the events of a list in order, each as an item that
//! is added, or none of them; `export_list` writes the list of its items by position.
//!
//! `import_list` counts the events that became items and those that were skipped (`imported`), or has the
//! first refusal, with its line, and leaves the day (`refused`); for want of memory of an open day alone.
//! `export_list` writes the list that the definition gives, or refuses (`text`, `refused`).
//! `can_be_exported`: each item fits a list.
#![tactic(auto)]

mod exporting;
mod importing;
mod lists;

pub use exporting::can_be_exported;
pub use importing::{Imported, list_refusal};
pub use lists::DayLists;
