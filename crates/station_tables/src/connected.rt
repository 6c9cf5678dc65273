//! The store's type, apart from its calls: their definitions name it, and its ghost field may not lead back to them.
ghost use Rattle.std.specs.Prelude.{◌≡◌, false};

use channel_plan::PlanRow;
use sqlite::{Alter, Connection};
use std::alloc::Global;

/// The rows of a centre in the tables of a SQL database.
pub struct SqlRows<S: Alter> {
    pub(crate) alloc: Global,
    pub(crate) conn: Connection<S>,
    /// Its plan, by number. It never changes once the centre was made, so no call reads it anew.
    pub(crate) plan: Vec<PlanRow>,
    ghost idle: { conn.in_transaction ≡ false },
}
