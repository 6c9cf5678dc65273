//! The vaults of all channels, from the tables: their tapes, their clips and their offers, for a store that has them at
//! hand.
ghost use Rattle.std.specs.Prelude.{◌≡◌, ◌<◌, ◌≤◌, ◌+◌, ◌*◌, true, length, IfOk, IfSome, IfNone};
ghost use Rattle.std.specs.Option.{option_map};
ghost use Rattle.channel_plan.specs.Plan.{is_plan_in_order};
ghost use Rattle.channel_view_model.specs.Rules.{KeepsRules, is_table_of};
ghost use Rattle.station_tables_records.specs.Inside.{inside, Looks, Reads};
ghost use Rattle.station_tables_statements.specs.Calls.{WhileCleanCentre, set_in};
ghost use Rattle.station_tables_reading.specs.Vaults.{AreVaultsRead, IsTableRead, bytes_of};

use crate::open_testing::test_open;
use channel_plan::PlanRow;
use channel_view_model::CentreRows;
use sqlite::{Alter, Transaction};
use station_tables_statements::{NumberedRow, Question};
use std::alloc::Global;
use timecode::Unavailable;
use vault_core::{Clip, Offer, Tape};

// The bytes of a row with its channel in a list.
const TAPE_BYTES: usize = 40;

const CLIP_BYTES: usize = 136;

const OFFER_BYTES: usize = 152;

const _: () = prove!(size_of::<(u16, Tape)>() <= TAPE_BYTES);

const _: () = prove!(size_of::<(u16, Clip)>() <= CLIP_BYTES);

const _: () = prove!(size_of::<(u16, Offer)>() <= OFFER_BYTES);

// What is left of so many bytes behind so many rows of this size, where they fit.
fn left_of(most: usize, rows: usize, size: usize) -> Option<usize>
    ensures left { IfSome result (λ left. rows * size + left ≡ most) }
    ensures none { IfNone result (most < rows * size) }
{
    most.checked_sub(rows.checked_mul(size)?)
}

// The rows of a table of these channels, each with its channel, and what is left of so many bytes behind them; none,
// where they take more at this size of a row.
fn read_table<T: NumberedRow, S: Alter>(
    alloc: Global,
    tx: &mut Transaction<'_, S>,
    plan: &[PlanRow],
    size: usize,
    most: usize,
) -> Result<Option<(Vec<(u16, T)>, usize)>, Unavailable>
    ensures looks { Looks S.Store tx.old tx.new result }
    ensures rows { WhileCleanCentre S.Store tx.old tx.new (is_plan_in_order plan.now ≡ true →
        is_table_of plan.now (T.rows_in (set_in (inside S.Store tx.old))) ≡ true → IfOk result
        (λ found. IsTableRead (T.rows_in (set_in (inside S.Store tx.old))) size most
        (option_map (λ f. f.0.items) found))) }
    ensures left { IfOk result (λ found. IfSome found (λ f. length f.0.items * size + f.1 ≡ most)) }
{
    let mut rows = Vec::new(alloc);
    let mut left = most;
    for row in plan {
        let more = T::find(alloc, tx, row.ch, Question::All)?;
        let Some(rest) = left_of(left, more.len(), size) else {
            return Ok(None);
        };
        left = rest;
        rows.extend_from_slice(&more)?;
    }
    Ok(Some((rows, left)))
}

/// The plan, whose channels these are, and the tapes, the clips and the offers of all of them, with no day, or `None`
/// where they take more than so many bytes. It fails where memory or the store does, and where a row doesn't read.
pub fn read_vaults<S: Alter>(
    alloc: Global,
    tx: &mut Transaction<'_, S>,
    plan: &[PlanRow],
    most: usize,
) -> Result<Option<CentreRows>, Unavailable>
    ensures reads { Reads S.Store tx.old tx.new result }
    ensures vaults { WhileCleanCentre S.Store tx.old tx.new (KeepsRules (set_in (inside S.Store tx.old)) →
        (set_in (inside S.Store tx.old)).channels ≡ plan.now →
        IfOk result (AreVaultsRead (set_in (inside S.Store tx.old)) most)) }
    ensures few { IfOk result (λ vaults. IfSome vaults (λ v. bytes_of v ≤ most)) }
{
    test_open(tx)?;
    let Some((tapes, left)) = read_table(alloc, tx, plan, TAPE_BYTES, most)? else {
        return Ok(None);
    };
    let Some((clips, left)) = read_table(alloc, tx, plan, CLIP_BYTES, left)? else {
        return Ok(None);
    };
    let Some((offers, _)) = read_table(alloc, tx, plan, OFFER_BYTES, left)? else {
        return Ok(None);
    };
    Ok(Some(CentreRows {
        channels: plan.to_vec(alloc)?,
        tapes,
        clips,
        offers,
        days: Vec::new(alloc),
        aired: Vec::new(alloc),
    }))
}
