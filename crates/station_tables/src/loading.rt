//! What one channel sees, whole or just the part that a command needs, and what is told of its days, by its row of the
//! plan, and the vaults of all channels, each in one transaction.
ghost use Rattle.std.specs.Prelude.{◌≡◌, ◌≤◌, false, IfOk, IfSome, OnOk};
ghost use Rattle.std.specs.Option.{option_map};
ghost use Rattle.sqlite.specs.State.{HasCleanDisk, Survives};
ghost use Rattle.sqlite.specs.Held.{state};
ghost use Rattle.channel_view_model.specs.Centre.{Centre, plan_of, view_of};
ghost use Rattle.station_tables_statements.specs.Rows.{StandsFor};
ghost use Rattle.station_tables_writing.specs.Tables.{LeavesSets};
ghost use Rattle.channel_view_model.specs.Need.{IsFetched};
ghost use Rattle.channel_view_model.specs.Rules.{KeepsRules};
ghost use Rattle.channel_view_rules.specs.ViewRules.{KeepsViewRules};
ghost use Rattle.channel_view_model.specs.Counts.{counts_seen};
ghost use Rattle.station_tables_reading.specs.Vaults.{AreVaultsRead, bytes_of};

use crate::view_testing::read_tested_view;
use channel_plan::PlanRow;
use channel_view_model::{CentreRows, Need, Part, View};
use report_texts::DayCounts;
use sqlite::{Alter, Connection};
use station_tables_reading::{read_day_counts, read_part, read_vaults};
use std::alloc::Global;
use timecode::Unavailable;

/// What the channel sees, or `None` where it has no row of the plan. Rows that don't read, or break a rule, are
/// refused.
pub(crate) fn load_view<S: Alter>(
    alloc: Global,
    conn: &mut Connection<S>,
    channel: u16,
    plan: Option<PlanRow>,
) -> Result<Option<View>, Unavailable>
    requires idle { conn.old.in_transaction ≡ false }
    ensures idle { conn.new.in_transaction ≡ false }
    ensures view { HasCleanDisk (state S.Store conn.new) → (rows : Centre) → StandsFor (state S.Store conn.old) rows →
        plan_of channel rows ≡ plan → IfOk result (λ view. view ≡ view_of channel rows) }
    ensures rules { HasCleanDisk (state S.Store conn.new) → (rows : Centre) → StandsFor (state S.Store conn.old) rows →
        OnOk result (KeepsRules rows) }
    ensures shows { IfOk result (λ view. IfSome view KeepsViewRules) }
    ensures same { HasCleanDisk (state S.Store conn.new) → (rows : Centre) → StandsFor (state S.Store conn.old) rows →
        StandsFor (state S.Store conn.new) rows }
    ensures survives { Survives (state S.Store conn.old) (state S.Store conn.new) (λ _. ⊥) }
    ensures sets { LeavesSets (state S.Store conn.old) → LeavesSets (state S.Store conn.new) }
{
    let mut tx = conn.transaction();
    read_tested_view(alloc, &mut tx, channel, plan)
}

/// The part of what the channel sees that a command needs, or `None` where it has no row of the plan. Rows that don't
/// read are refused.
pub(crate) fn fetch_part<S: Alter>(
    alloc: Global,
    conn: &mut Connection<S>,
    channel: u16,
    plan: Option<PlanRow>,
    need: &Need,
) -> Result<Option<Part>, Unavailable>
    requires idle { conn.old.in_transaction ≡ false }
    ensures idle { conn.new.in_transaction ≡ false }
    ensures part { HasCleanDisk (state S.Store conn.new) → (rows : Centre) → StandsFor (state S.Store conn.old) rows →
        plan_of channel rows ≡ plan → IfOk result (IsFetched need.now (view_of channel rows)) }
    ensures rules { HasCleanDisk (state S.Store conn.new) → (rows : Centre) → StandsFor (state S.Store conn.old) rows →
        OnOk result (KeepsRules rows) }
    ensures same { HasCleanDisk (state S.Store conn.new) → (rows : Centre) → StandsFor (state S.Store conn.old) rows →
        StandsFor (state S.Store conn.new) rows }
    ensures survives { Survives (state S.Store conn.old) (state S.Store conn.new) (λ _. ⊥) }
    ensures sets { LeavesSets (state S.Store conn.old) → LeavesSets (state S.Store conn.new) }
{
    let mut tx = conn.transaction();
    read_part(alloc, &mut tx, channel, plan, need)
}

/// The plan, whose channels these are, and the tapes, the clips and the offers of all of them, with no day, or `None`
/// where they take more than so many bytes. Rows that don't read are refused.
pub(crate) fn load_vaults<S: Alter>(
    alloc: Global,
    conn: &mut Connection<S>,
    plan: &[PlanRow],
    most: usize,
) -> Result<Option<CentreRows>, Unavailable>
    requires idle { conn.old.in_transaction ≡ false }
    ensures idle { conn.new.in_transaction ≡ false }
    ensures vaults { HasCleanDisk (state S.Store conn.new) → (rows : Centre) → StandsFor (state S.Store conn.old) rows →
        rows.channels ≡ plan.now → IfOk result (AreVaultsRead rows most) }
    ensures few { IfOk result (λ vaults. IfSome vaults (λ v. bytes_of v ≤ most)) }
    ensures rules { HasCleanDisk (state S.Store conn.new) → (rows : Centre) → StandsFor (state S.Store conn.old) rows →
        OnOk result (KeepsRules rows) }
    ensures same { HasCleanDisk (state S.Store conn.new) → (rows : Centre) → StandsFor (state S.Store conn.old) rows →
        StandsFor (state S.Store conn.new) rows }
    ensures survives { Survives (state S.Store conn.old) (state S.Store conn.new) (λ _. ⊥) }
    ensures sets { LeavesSets (state S.Store conn.old) → LeavesSets (state S.Store conn.new) }
{
    let mut tx = conn.transaction();
    read_vaults(alloc, &mut tx, plan, most)
}

/// What the days table tells of each of the channel's days, or `None` where it has no row of the plan. Rows that don't
/// read are refused.
pub(crate) fn load_day_counts<S: Alter>(
    alloc: Global,
    conn: &mut Connection<S>,
    channel: u16,
    plan: Option<PlanRow>,
) -> Result<Option<Vec<DayCounts>>, Unavailable>
    requires idle { conn.old.in_transaction ≡ false }
    ensures idle { conn.new.in_transaction ≡ false }
    ensures counts { HasCleanDisk (state S.Store conn.new) → (rows : Centre) → StandsFor (state S.Store conn.old) rows →
        plan_of channel rows ≡ plan → IfOk result (λ counts.
        option_map (λ c. c.items) counts ≡ option_map counts_seen (view_of channel rows)) }
    ensures rules { HasCleanDisk (state S.Store conn.new) → (rows : Centre) → StandsFor (state S.Store conn.old) rows →
        OnOk result (KeepsRules rows) }
    ensures same { HasCleanDisk (state S.Store conn.new) → (rows : Centre) → StandsFor (state S.Store conn.old) rows →
        StandsFor (state S.Store conn.new) rows }
    ensures survives { Survives (state S.Store conn.old) (state S.Store conn.new) (λ _. ⊥) }
    ensures sets { LeavesSets (state S.Store conn.old) → LeavesSets (state S.Store conn.new) }
{
    let mut tx = conn.transaction();
    read_day_counts(alloc, &mut tx, channel, plan)
}
