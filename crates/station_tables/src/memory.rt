//! A centre in memory.
ghost use Rattle.std.specs.Prelude.{◌≡◌, IfOk};
ghost use Rattle.sqlite.specs.Steps.{over_memory};
ghost use Rattle.station_tables_statements.specs.Rows.{Stands, plan_in_order};
ghost use Rattle.station_tables.specs.Store.{store_plan, store_state};

use crate::connected::SqlRows;
use channel_plan::{Code, PlanRow, Refusal};
use sqlite::{Connection, MemStore};
use std::alloc::Global;

/// Makes the tables of this plan in a database in memory, gives the database back and opens the tables: they hold the
/// plan alone.
///
/// Nothing is asked of what a database holds. So what [`SqlRows::create`] and [`SqlRows::open_tables`] say under a
/// premise is said of something.
pub fn centre_in_memory(alloc: Global, plan: &[PlanRow]) -> Result<SqlRows<MemStore>, Refusal>
    ensures rows { IfOk result (λ s. Stands (store_state over_memory s) (plan_in_order plan.now)) }
    ensures plan { IfOk result (λ s. store_plan over_memory s ≡ (plan_in_order plan.now).channels) }
{
    let Ok(conn) = Connection::open_in_memory(alloc) else {
        return Err(Refusal::of(Code::Unavailable));
    };
    let made = match SqlRows::create(alloc, conn, plan) {
        Ok(store) => store,
        Err((_, refusal)) => return Err(refusal),
    };
    match SqlRows::open_tables(alloc, made.into_connection()) {
        Ok(store) => Ok(store),
        Err((_, refusal)) => Err(refusal),
    }
}
