//! The vaults of all channels at hand, and what the days tables tell, over the tables that hold them.
ghost use Rattle.std.specs.Prelude.{◌≡◌, ◌≤◌, IfSome};
ghost use Rattle.sqlite.specs.State.{HasCleanDisk};
ghost use Rattle.sqlite.specs.Held.{state};
ghost use Rattle.channel_view_model.specs.Centre.{Centre};
ghost use Rattle.rows_at_hand.specs.AtHand.{AreVaultsOf};
ghost use Rattle.rows_at_hand.specs.Counted.{AreCounted};
ghost use Rattle.rows_at_hand.specs.Vaults.{vaults_in};
ghost use Rattle.station_tables_reading.specs.Vaults.{bytes_of};
ghost use Rattle.station_tables.specs.Store.{StandsWithPlan};
ghost use Rattle.station_tables_writing.specs.Tables.{MayLeave};
ghost use Rattle.playout_cli.specs.Vaults.{most_vault_bytes};

use channel_view::MemRows;
use rows_at_hand::{CountedDays, VaultsAtHand};
use sqlite::Alter;
use station_tables::SqlRows;
use std::alloc::Global;

// The most bytes that the tapes, the clips and the offers at hand take, by their rows: 64 MB.
const MOST_VAULT_BYTES: usize = 1 << 26;

/// A store over these tables that has the vaults of all channels at hand, where they are few enough and memory is there
/// for them, and what the days tables tell, once one is asked for.
pub(crate) fn with_vaults<S: Alter>(
    alloc: Global,
    tables: SqlRows<S>,
) -> VaultsAtHand<CountedDays<SqlRows<S>>>
    ensures clean { HasCleanDisk (state S.Store result.store.store.conn) → HasCleanDisk (state S.Store tables.conn) }
    ensures stands { HasCleanDisk (state S.Store result.store.store.conn) → (rows : Centre) →
        StandsWithPlan S.Store tables rows →
        (StandsWithPlan S.Store result.store.store rows × AreCounted rows result.store.channels.items)
        × IfSome result.vaults (AreVaultsOf rows) }
    ensures stop { HasCleanDisk (state S.Store result.store.store.conn) → (left : Centre) →
        MayLeave (state S.Store result.store.store.conn) left → MayLeave (state S.Store tables.conn) left }
    ensures few { IfSome result.vaults (λ v. (read : Centre) × (v.each.items ≡ vaults_in read)
        × (bytes_of read ≤ most_vault_bytes)) }
{
    let mut tables = tables;
    match tables.vaults(MOST_VAULT_BYTES) {
        Ok(Some(rows)) => {
            let counted = CountedDays::over(alloc, tables);
            VaultsAtHand::over(alloc, counted, MemRows::from_rows(alloc, rows))
        }
        Ok(None) | Err(_) => {
            let counted = CountedDays::over(alloc, tables);
            VaultsAtHand::over(alloc, counted, None)
        }
    }
}
