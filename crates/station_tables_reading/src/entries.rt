//! What is written of each table: how many rows it has page by page, the lines of a page, and what stands behind them.
//! A page of the rows is in memory at a time.
//!
//! The clips that other channels lend to one are as many as those lend it, and have no number of their own that could
//! be a page's. So they have no pages, and are read at once. Of the days what is told of each is read at once.
ghost use Rattle.std.specs.Prelude.{◌≡◌, IfOk};
ghost use Rattle.channel_plan.specs.declared.plan.PlanRow.{PlanRow as Plan};
ghost use Rattle.station_tables_records.specs.Inside.{Looks};
ghost use Rattle.station_tables_statements.specs.Numbered.{page_of};
ghost use Rattle.station_tables_reading.specs.Lines.{WhileCleanSeen, Written, count_of, end_of, joined, lines_of};
ghost use Rattle.station_tables_reading.specs.Lines.{shelved_of};

use crate::days_writing::write_days;
use channel_plan::PlanRow;
use channel_view_model::{Table, TableFault};
use reports::{
    count_shelved, write_clip_lines, write_clips_end, write_lent, write_offer_lines,
    write_offers_end, write_tapes, write_vault_end,
};
use sqlite::{Alter, Transaction};
use station_tables_statements::{count_rows, load_lent, load_page};
use std::alloc::Global;
use std::io::Write;
use timecode::Unavailable;
use vault_core::{Clip, Offer, Tape};

/// How many rows the table has page by page.
pub(crate) fn count_paged<S: Alter>(
    alloc: Global,
    tx: &mut Transaction<'_, S>,
    channel: u16,
    table: Table,
) -> Result<u32, Unavailable>
    ensures looks { Looks S.Store tx.old tx.new result }
    ensures count { (plan : Plan) → WhileCleanSeen S.Store tx.old tx.new channel plan
        (λ view. IfOk result (λ n. n ≡ count_of table view)) }
{
    match table {
        Table::Vault => count_rows::<Tape, S>(alloc, tx, channel),
        Table::Clips => count_rows::<Clip, S>(alloc, tx, channel),
        Table::Offers => count_rows::<Offer, S>(alloc, tx, channel),
        Table::Lent | Table::Days => Ok(0),
    }
}

/// Writes the lines of one page, and counts those of its tapes that stand in a slot.
pub(crate) fn write_page<S: Alter, W: Write>(
    alloc: Global,
    tx: &mut Transaction<'_, S>,
    channel: u16,
    plan: &PlanRow,
    table: Table,
    page: u32,
    output: &mut W,
) -> Result<usize, TableFault>
    ensures looks { Looks S.Store tx.old tx.new result }
    ensures shelved { WhileCleanSeen S.Store tx.old tx.new channel plan.now
        (λ view. IfOk result (λ n. n ≡ shelved_of table (page_of page view.own.tapes))) }
    ensures written { WhileCleanSeen S.Store tx.old tx.new channel plan.now (λ view. Written (W.contents output.old)
        (W.contents output.new) result (joined (page_of page (lines_of table view)))) }
{
    match table {
        Table::Vault => {
            let tapes = load_page(alloc, tx, channel, page)?;
            write_tapes(output, &tapes)?;
            Ok(count_shelved(&tapes))
        }
        Table::Clips => {
            let clips = load_page(alloc, tx, channel, page)?;
            write_clip_lines(output, plan.rate, &clips)?;
            Ok(0)
        }
        Table::Offers => {
            let offers = load_page(alloc, tx, channel, page)?;
            write_offer_lines(output, &offers)?;
            Ok(0)
        }
        Table::Lent | Table::Days => Ok(0),
    }
}

/// Writes what stands behind the pages, which had so many rows, and so many tapes in a slot.
pub(crate) fn write_end<S: Alter, W: Write>(
    alloc: Global,
    tx: &mut Transaction<'_, S>,
    channel: u16,
    plan: &PlanRow,
    table: Table,
    count: usize,
    shelved: usize,
    output: &mut W,
) -> Result<(), TableFault>
    ensures looks { Looks S.Store tx.old tx.new result }
    ensures written { WhileCleanSeen S.Store tx.old tx.new channel plan.now (λ view. count ≡ count_of table view →
        shelved ≡ shelved_of table view.own.tapes →
        Written (W.contents output.old) (W.contents output.new) result (end_of table view)) }
{
    match table {
        Table::Vault => write_vault_end(output, count, shelved, plan.slots)?,
        Table::Clips => write_clips_end(output, count)?,
        Table::Offers => write_offers_end(output, count)?,
        Table::Lent => {
            let grants = load_lent(alloc, tx, channel)?;
            write_lent(output, &grants)?;
        }
        Table::Days => write_days(alloc, tx, channel, plan, output)?,
    }
    Ok(())
}
