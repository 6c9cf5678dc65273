//! A table of one channel, as text to read, from the tables of the database.
ghost use Rattle.std.specs.Prelude.{◌≡◌, ◌*◌, false, [], is_some, take, IfOk, OnOk, OnErr};
ghost use Rattle.std.specs.Io.KnownBytes.{Appends};
ghost use Rattle.sqlite.specs.State.{HasCleanDisk, Survives};
ghost use Rattle.sqlite.specs.Held.{state};
ghost use Rattle.report_texts.specs.Output.{AppendsPart};
ghost use Rattle.channel_view_model.specs.Centre.{Centre, plan_of, view_of};
ghost use Rattle.channel_view_model.specs.Rules.{KeepsRules};
ghost use Rattle.channel_view_model.specs.TableText.{table_text, text_at};
ghost use Rattle.station_tables_records.specs.Inside.{inside, Looks, Reads};
ghost use Rattle.station_tables_statements.specs.Rows.{HoldsSet, StandsFor};
ghost use Rattle.station_tables_statements.specs.Calls.{WhileCleanCentre, set_in};
ghost use Rattle.station_tables_reading.specs.Lines.{WhileCleanSeen, Written, joined, lines_of, shelved_of};

use crate::entries::{count_paged, write_end, write_page};
use crate::open_testing::test_open;
use channel_plan::PlanRow;
use channel_view_model::{Table, TableFault};
use sqlite::{Alter, Connection, Transaction};
use station_tables_statements::PAGE;
use std::alloc::Global;
use std::io::Write;

// Writes the lines of so many pages, from the first on, and counts those of their tapes that stand in a slot.
fn write_pages<S: Alter, W: Write>(
    alloc: Global,
    tx: &mut Transaction<'_, S>,
    channel: u16,
    plan: &PlanRow,
    table: Table,
    pages: u32,
    output: &mut W,
) -> Result<usize, TableFault>
    ensures looks { Looks S.Store tx.old tx.new result }
    ensures shelved { WhileCleanSeen S.Store tx.old tx.new channel plan.now
        (λ view. IfOk result (λ n. n ≡ shelved_of table (take (pages * 64) view.own.tapes))) }
    ensures written { WhileCleanSeen S.Store tx.old tx.new channel plan.now (λ view. Written (W.contents output.old)
        (W.contents output.new) result (joined (take (pages * 64) (lines_of table view)))) }
{
    let mut shelved: usize = 0;
    for page in 0..pages {
        let more = write_page(alloc, tx, channel, plan, table, page, output)?;
        // Of tables that aren't a centre's nothing is known, nor how many rows they have.
        let Some(sum) = shelved.checked_add(more) else {
            return Err(TableFault::Unavailable);
        };
        shelved = sum;
    }
    Ok(shelved)
}

// Writes a table of the channel, whose row of the plan this is.
fn write_own<S: Alter, W: Write>(
    alloc: Global,
    tx: &mut Transaction<'_, S>,
    channel: u16,
    plan: &PlanRow,
    table: Table,
    output: &mut W,
) -> Result<(), TableFault>
    ensures looks { Looks S.Store tx.old tx.new result }
    ensures written { WhileCleanSeen S.Store tx.old tx.new channel plan.now (λ view.
        Written (W.contents output.old) (W.contents output.new) result (table_text table view)) }
{
    let count = count_paged(alloc, tx, channel, table)?;
    let pages = count.div_ceil(PAGE);
    let shelved = write_pages(alloc, tx, channel, plan, table, pages, output)?;
    write_end(
        alloc,
        tx,
        channel,
        plan,
        table,
        count as usize,
        shelved,
        output,
    )
}

// Writes it where the channel has a row of the plan, and says whether it has.
fn write_seen<S: Alter, W: Write>(
    alloc: Global,
    tx: &mut Transaction<'_, S>,
    channel: u16,
    plan: Option<PlanRow>,
    table: Table,
    output: &mut W,
) -> Result<bool, TableFault>
    ensures reads { Reads S.Store tx.old tx.new result }
    ensures there { WhileCleanCentre S.Store tx.old tx.new (plan_of channel (set_in (inside S.Store tx.old)) ≡ plan →
        IfOk result (λ there. there ≡ is_some (view_of channel (set_in (inside S.Store tx.old))))) }
    ensures ok { WhileCleanCentre S.Store tx.old tx.new (plan_of channel (set_in (inside S.Store tx.old)) ≡ plan →
        HoldsSet (set_in (inside S.Store tx.old)) (inside S.Store tx.old).now →
        OnOk result (Appends (W.contents output.old) (W.contents output.new)
        (text_at table (view_of channel (set_in (inside S.Store tx.old)))))) }
    ensures err { WhileCleanCentre S.Store tx.old tx.new (plan_of channel (set_in (inside S.Store tx.old)) ≡ plan →
        HoldsSet (set_in (inside S.Store tx.old)) (inside S.Store tx.old).now →
        OnErr result (AppendsPart (W.contents output.old) (W.contents output.new)
        (text_at table (view_of channel (set_in (inside S.Store tx.old)))))) }
    // Of a store that is shut nothing is written.
    ensures shut { HasCleanDisk (inside S.Store tx.new) → (inside S.Store tx.old).is_open ≡ false →
        OnErr result (Appends (W.contents output.old) (W.contents output.new) []) }
{
    test_open(tx)?;
    let Some(plan) = plan else {
        return Ok(false);
    };
    write_own(alloc, tx, channel, &plan, table, output)?;
    Ok(true)
}

/// Writes a table of the channel, by its row of the plan, in one transaction, and says whether it has one: where it
/// hasn't, nothing is written. Of a call that fails, what was written is a beginning of the table. Rows that don't read
/// are refused.
pub fn write_table<S: Alter, W: Write>(
    alloc: Global,
    conn: &mut Connection<S>,
    channel: u16,
    plan: Option<PlanRow>,
    table: Table,
    output: &mut W,
) -> Result<bool, TableFault>
    requires idle { conn.old.in_transaction ≡ false }
    ensures idle { conn.new.in_transaction ≡ false }
    ensures there { HasCleanDisk (state S.Store conn.new) → (rows : Centre) → StandsFor (state S.Store conn.old) rows →
        plan_of channel rows ≡ plan → IfOk result (λ there. there ≡ is_some (view_of channel rows)) }
    ensures ok { HasCleanDisk (state S.Store conn.new) → (rows : Centre) → StandsFor (state S.Store conn.old) rows →
        plan_of channel rows ≡ plan →
        OnOk result (Appends (W.contents output.old) (W.contents output.new) (text_at table (view_of channel rows))) }
    ensures err { HasCleanDisk (state S.Store conn.new) → (rows : Centre) → StandsFor (state S.Store conn.old) rows →
        plan_of channel rows ≡ plan →
        OnErr result (AppendsPart (W.contents output.old) (W.contents output.new)
        (text_at table (view_of channel rows))) }
    ensures rules { HasCleanDisk (state S.Store conn.new) → (rows : Centre) → StandsFor (state S.Store conn.old) rows →
        OnOk result (KeepsRules rows) }
    ensures same { HasCleanDisk (state S.Store conn.new) → (rows : Centre) → StandsFor (state S.Store conn.old) rows →
        StandsFor (state S.Store conn.new) rows }
    ensures survives { Survives (state S.Store conn.old) (state S.Store conn.new) (λ _. ⊥) }
{
    let mut tx = conn.transaction();
    write_seen(alloc, &mut tx, channel, plan, table, output)
}
