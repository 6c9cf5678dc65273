//! The calls of the store.
ghost use Rattle.std.specs.Prelude.{◌≡◌, ◌≤◌, false, IfOk, IfErr, IfSome, OnOk};
ghost use Rattle.sqlite.specs.State.{HasCleanDisk};
ghost use Rattle.sqlite.specs.Held.{state};
ghost use Rattle.channel_view_model.specs.Centre.{Centre};
ghost use Rattle.channel_view_model.specs.Rules.{KeepsRules};
ghost use Rattle.station_tables_reading.specs.Vaults.{AreVaultsRead, bytes_of};
ghost use Rattle.station_tables_statements.specs.Calls.{HasKnownSchema};
ghost use Rattle.station_tables_statements.specs.Rows.{channels_in, plan_in_order};
ghost use Rattle.station_tables_writing.specs.Tables.{LeavesSets, MayLeave};
ghost use Rattle.station_tables.specs.Store.{StandsWithPlan, store_plan, store_state};
ghost use Rattle.station_tables_opening.specs.Opens.{Creates, Opens, RefusesToCreate, RefusesToOpen};

use crate::connected::SqlRows;
use crate::loading::{fetch_part, load_day_counts, load_vaults, load_view};
use channel_plan::{Code, PlanRow, Refusal, is_plan, plan_row};
use channel_view_model::{
    CentreRows, Change, CountsDays, Need, Part, RowStore, Table, TableFault, View,
};
use report_texts::DayCounts;
use sqlite::{Alter, Connection};
use station_tables_opening::open_centre;
use station_tables_reading::write_table;
use station_tables_writing::{commit_change, create_centre, rows_in_order};
use std::alloc::Global;
use std::io::Write;
use timecode::Unavailable;

impl<S: Alter> SqlRows<S> {
    /// Makes the ten tables, the version and the channels of the plan, in one transaction.
    ///
    /// The connection comes back with a refusal, and what it holds is as it was: [`Code::PlanRow`] of a row out of its
    /// range or a channel's second one, [`Code::NotOurs`] where one of the tables is there, [`Code::Unavailable`] where
    /// memory, size or disk ran out. The caller keeps that no transaction is open.
    pub fn create(
        alloc: Global,
        conn: Connection<S>,
        plan: &[PlanRow],
    ) -> Result<SqlRows<S>, (Connection<S>, Refusal)>
        requires idle { conn.in_transaction ≡ false }
        ensures made { IfOk result (λ s. Creates plan.now (state S.Store conn) (store_state S.Store s)) }
        ensures plan { IfOk result (λ s. store_plan S.Store s ≡ (plan_in_order plan.now).channels) }
        ensures refused { IfErr result (λ e. RefusesToCreate plan.now (state S.Store conn) (state S.Store e.0) e.1) }
        ensures idle { IfErr result (λ e. e.0.in_transaction ≡ false) }
    {
        let mut conn = conn;
        if !is_plan(plan) {
            return Err((conn, Refusal::of(Code::PlanRow)));
        }
        let Ok(rows) = rows_in_order(alloc, plan) else {
            return Err((conn, Refusal::of(Code::Unavailable)));
        };
        match create_centre(&mut conn, plan) {
            Ok(()) => Ok(SqlRows {
                alloc,
                conn,
                plan: rows,
            }),
            Err(code) => Err((conn, Refusal::of(code))),
        }
    }

    /// Opens the tables of a centre, and tests all their rows. Those of version 1 become those of version 2, in one
    /// more transaction: the same set, in which no offer has a window.
    ///
    /// The connection comes back with a refusal, and what it holds is as it was. Tested are, in this order: `office`
    /// reads ([`Code::NotOurs`]), its version is 1 or 2 ([`Code::SchemaVersion`]), the rows of the other tables read
    /// and keep the rules, and in version 1 there is no table of windows ([`Code::NotOurs`]). [`Code::Unavailable`]
    /// says that memory, size or disk ran out. The caller keeps that no transaction is open.
    pub fn open_tables(
        alloc: Global,
        conn: Connection<S>,
    ) -> Result<SqlRows<S>, (Connection<S>, Refusal)>
        requires idle { conn.in_transaction ≡ false }
        ensures opened { IfOk result (λ s. Opens (state S.Store conn) (store_state S.Store s)) }
        ensures plan { IfOk result (λ s. HasKnownSchema (state S.Store conn) → HasCleanDisk (store_state S.Store s) →
            store_plan S.Store s ≡ channels_in (state S.Store conn).now.trees) }
        ensures refused { IfErr result (λ e. RefusesToOpen (state S.Store conn) (state S.Store e.0) e.1) }
        ensures idle { IfErr result (λ e. e.0.in_transaction ≡ false) }
    {
        let mut conn = conn;
        match open_centre(alloc, &mut conn) {
            Ok(plan) => Ok(SqlRows { alloc, conn, plan }),
            Err(code) => Err((conn, Refusal::of(code))),
        }
    }

    /// The plan, the tapes, the clips and the offers of all channels, with no day, or `None` where they take more than so
    /// many bytes. It fails where memory or the store does, and where a row doesn't read.
    pub fn vaults(&mut self, most: usize) -> Result<Option<CentreRows>, Unavailable>
        ensures clean { HasCleanDisk (store_state S.Store self.new) → HasCleanDisk (store_state S.Store self.old) }
        ensures vaults { HasCleanDisk (store_state S.Store self.new) → (rows : Centre) →
            StandsWithPlan S.Store self.old rows → IfOk result (AreVaultsRead rows most) }
        ensures few { IfOk result (λ vaults. IfSome vaults (λ v. bytes_of v ≤ most)) }
        ensures rules { HasCleanDisk (store_state S.Store self.new) → (rows : Centre) →
            StandsWithPlan S.Store self.old rows → OnOk result (KeepsRules rows) }
        ensures same { HasCleanDisk (store_state S.Store self.new) → (rows : Centre) →
            StandsWithPlan S.Store self.old rows → StandsWithPlan S.Store self.new rows }
        ensures stop { HasCleanDisk (store_state S.Store self.new) → (left : Centre) →
            MayLeave (store_state S.Store self.new) left → MayLeave (store_state S.Store self.old) left }
        ensures sets { LeavesSets (store_state S.Store self.old) → LeavesSets (store_state S.Store self.new) }
    {
        load_vaults(self.alloc, &mut self.conn, &self.plan, most)
    }

    /// The database, with no transaction open.
    pub fn into_connection(self) -> Connection<S>
        ensures same { result ≡ self.conn }
        ensures idle { result.in_transaction ≡ false }
    {
        let SqlRows {
            alloc: _,
            conn,
            plan: _plan,
        } = self;
        conn
    }
}

impl<S: Alter> RowStore for SqlRows<S> {
    ghost stands_for = { StandsWithPlan S.Store };

    ghost is_clean = { λ s. HasCleanDisk (state S.Store s.conn) };

    ghost may_leave = { λ s. MayLeave (state S.Store s.conn) };

    ghost leaves_sets = { λ s. LeavesSets (state S.Store s.conn) };

    fn load(&mut self, channel: u16) -> Result<Option<View>, Unavailable> {
        let plan = plan_row(&self.plan, channel);
        load_view(self.alloc, &mut self.conn, channel, plan)
    }

    fn fetch(&mut self, channel: u16, need: &Need) -> Result<Option<Part>, Unavailable> {
        let plan = plan_row(&self.plan, channel);
        fetch_part(self.alloc, &mut self.conn, channel, plan, need)
    }

    fn write_table<W: Write>(
        &mut self,
        channel: u16,
        table: Table,
        output: &mut W,
    ) -> Result<bool, TableFault> {
        let plan = plan_row(&self.plan, channel);
        write_table(self.alloc, &mut self.conn, channel, plan, table, output)
    }

    fn commit(&mut self, channel: u16, change: &Change) -> Result<(), Unavailable> {
        commit_change(&mut self.conn, channel, change)
    }
}

impl<S: Alter> CountsDays for SqlRows<S> {
    fn day_counts(&mut self, channel: u16) -> Result<Option<Vec<DayCounts>>, Unavailable> {
        let plan = plan_row(&self.plan, channel);
        load_day_counts(self.alloc, &mut self.conn, channel, plan)
    }
}
