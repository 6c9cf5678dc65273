//! The plan of a centre, and what every request may be refused with.
//!
//! - [`PlanRow`] is a channel of the plan: its rate, where its day starts, how many slots it has. [`PlanRow::read`]
//!   takes just the texts of such rows.
//! - [`Refusal`] says why a request changed nothing. The faults of a label, a UMID and a list's line stand in its
//!   [`Code`].
//! - [`ListFault`] is the first fault of an edit list. It is told with its line, as `line 7: 22 FieldCount`, or
//!   `line 7: 25 BadLabel 2 LabelRange` with the fault of the label. It stands here, apart from the reading of lists
//!   (`edl`), so that a refusal needn't have the reader.
//! - [`ShortText`] is a text that lies in a row itself.
//!
//! `is_plan`: each row is in range and no channel comes twice. A [`Refusal`] prints as its number and name,
//! with its detail (`output`).
#![tactic(auto)]

mod fault;
mod plan;
mod refusal;
mod text;

pub use fault::{LineFault, ListFault};
pub use plan::{LAST_CHANNEL, LAST_DAY, MAX_SLOTS, PlanRow, is_plan, is_plan_in_order, plan_row};
pub use refusal::{At, Code, Refusal};
pub use text::ShortText;
