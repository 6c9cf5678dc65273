//! What a stop left, opened: the laws that join what a stop may leave with what an open answers.
ghost use Rattle.std.specs.Prelude.{◌≡◌, false, IfOk, IfErr, IsTrue};
ghost use Rattle.sqlite.specs.State.{HasCleanDisk};
ghost use Rattle.sqlite.specs.Held.{state};
ghost use Rattle.channel_plan.specs.Refusal.{refused};
ghost use Rattle.channel_view_model.specs.Centre.{Centre};
ghost use Rattle.station_tables_statements.specs.Rows.{Stands, StandsFor};
ghost use Rattle.station_tables_writing.specs.Tables.{LeavesSets, MayLeave};
ghost use Rattle.station_tables_opening.specs.Left.{FindsLeft, HoldsAt, LeavesCentres, LeavesFound};
ghost use Rattle.station_tables.specs.Store.{store_plan, store_state};

use crate::connected::SqlRows;
use channel_plan::{Code, Refusal};
use sqlite::{Alter, Connection};
use station_tables_opening::Version;
use std::alloc::Global;

impl<S: Alter> SqlRows<S> {
    /// Opens what a stop left of a connection that came back with a refusal.
    ///
    /// Where all that a stop may leave of it holds a set, the store stands for the set that was found. Refused, memory,
    /// size or disk ran out: what was found is never said to be another's, or of another version.
    pub fn open_after_refusal<T: Alter>(
        alloc: Global,
        stopped: &Connection<T>,
        found: Connection<S>,
    ) -> Result<SqlRows<S>, (Connection<S>, Refusal)>
        requires idle { found.in_transaction ≡ false }
        ensures ok { IfOk result (λ s. LeavesCentres (state T.Store stopped.now) →
            FindsLeft (state T.Store stopped.now) (state S.Store found) → HasCleanDisk (store_state S.Store s) →
            (version : Version) × (rows : Centre) × HoldsAt version rows (state S.Store found).now.trees
            × Stands (store_state S.Store s) rows × (rows.channels ≡ store_plan S.Store s)) }
        ensures err { IfErr result (λ e. LeavesCentres (state T.Store stopped.now) →
            FindsLeft (state T.Store stopped.now) (state S.Store found) → HasCleanDisk (state S.Store e.0) →
            e.1 ≡ refused Code.Unavailable) }
        // Refused, what is committed is what was, or what was found.
        ensures before { IfErr result (λ e. HasCleanDisk (state S.Store e.0) →
            LeavesFound (state S.Store found) (state S.Store e.0)) }
        ensures idle { IfErr result (λ e. e.0.in_transaction ≡ false) }
    {
        let _ = stopped;
        // What was found is of the version whose tables its rows list.
        let _ = found.schema();
        SqlRows::open_tables(alloc, found)
    }

    /// Opens what a stop left of a store.
    ///
    /// Where all that a stop may leave of that one holds a set, this one stands for such a set. Refused, memory, size
    /// or disk ran out: what was found is never said to be another's, or of another version.
    pub fn open_after_stop<T: Alter>(
        alloc: Global,
        stopped: &SqlRows<T>,
        found: Connection<S>,
    ) -> Result<SqlRows<S>, (Connection<S>, Refusal)>
        requires idle { found.in_transaction ≡ false }
        ensures ok { IfOk result (λ s. LeavesSets (store_state T.Store stopped.now) →
            FindsLeft (store_state T.Store stopped.now) (state S.Store found) → HasCleanDisk (store_state S.Store s) →
            (rows : Centre) × MayLeave (store_state T.Store stopped.now) rows
            × Stands (store_state S.Store s) rows × (rows.channels ≡ store_plan S.Store s)) }
        ensures err { IfErr result (λ e. LeavesSets (store_state T.Store stopped.now) →
            FindsLeft (store_state T.Store stopped.now) (state S.Store found) → HasCleanDisk (state S.Store e.0) →
            e.1 ≡ refused Code.Unavailable) }
        // One that no fault has shut leaves the set that it stands for.
        ensures standing { IsTrue (store_state T.Store stopped.now).is_open → (rows : Centre) →
            StandsFor (store_state T.Store stopped.now) rows → LeavesSets (store_state T.Store stopped.now) }
        // Refused, what is committed is what was, or what was found.
        ensures before { IfErr result (λ e. HasCleanDisk (state S.Store e.0) →
            LeavesFound (state S.Store found) (state S.Store e.0)) }
        ensures idle { IfErr result (λ e. e.0.in_transaction ≡ false) }
    {
        SqlRows::open_after_refusal(alloc, &stopped.conn, found)
    }
}
