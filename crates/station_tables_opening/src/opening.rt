//! The tables of a centre opened, and those of version 1 made of version 2.
ghost use Rattle.std.specs.Prelude.{◌≡◌, false, IfErr, IfOk, OnOk};
ghost use Rattle.sqlite.specs.State.{HasCleanDisk};
ghost use Rattle.sqlite.specs.Held.{state};
ghost use Rattle.channel_plan.specs.Refusal.{refused};
ghost use Rattle.station_tables_statements.specs.Calls.{HasKnownSchema};
ghost use Rattle.station_tables_statements.specs.Rows.{channels_in};
ghost use Rattle.station_tables_opening.specs.Opens.{Opens, RefusesToOpen};

use crate::finding::{Version, find_centre};
use channel_plan::{Code, PlanRow};
use sqlite::{Alter, Connection};
use station_tables_writing::migrate_centre;
use std::alloc::Global;

/// Tests the tables of a centre, and makes those of version 1 of version 2. Success answers its plan, by number.
///
/// Refused, nothing was made: as of `find_centre`, and then as of [`migrate_centre`]. The caller keeps that no
/// transaction is open.
pub fn open_centre<S: Alter>(alloc: Global, conn: &mut Connection<S>) -> Result<Vec<PlanRow>, Code>
    requires idle { conn.old.in_transaction ≡ false }
    ensures idle { conn.new.in_transaction ≡ false }
    ensures opened { OnOk result (Opens (state S.Store conn.old) (state S.Store conn.new)) }
    ensures plan { HasKnownSchema (state S.Store conn.old) → HasCleanDisk (state S.Store conn.new) →
        IfOk result (λ plan. plan.items ≡ channels_in (state S.Store conn.old).now.trees) }
    ensures refused { IfErr result
        (λ e. RefusesToOpen (state S.Store conn.old) (state S.Store conn.new) (refused e)) }
{
    // The tables that the rows list are those that the connection has.
    let _ = conn.schema();
    let found = find_centre(alloc, conn)?;
    match found.version {
        Version::First => {
            migrate_centre(conn)?;
            Ok(found.plan)
        }
        Version::Second => Ok(found.plan),
    }
}
