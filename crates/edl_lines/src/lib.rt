//! The events of an edit list as lines for other programs: JSON Lines, or CSV. Members and fields have the names that
//! an `edl::Event` has.
#![tactic(auto)]

mod csv_form;
mod json_form;
mod pieces;

pub use csv_form::csv_lines;
pub use json_form::json_lines;
