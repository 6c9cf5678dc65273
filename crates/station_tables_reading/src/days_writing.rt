//! The days table of a channel, from the tables of the database.
ghost use Rattle.std.specs.Prelude.{OnOk, OnErr};
ghost use Rattle.std.specs.List.{flat_map};
ghost use Rattle.std.specs.Io.KnownBytes.{Appends};
ghost use Rattle.report_texts.specs.Output.{AppendsPart};
ghost use Rattle.report_texts.specs.Days.{counts_line, days_text};
ghost use Rattle.station_tables_records.specs.Inside.{Looks};
ghost use Rattle.station_tables_reading.specs.Lines.{WhileCleanSeen, Written};

use crate::day_counting::count_days;
use channel_plan::PlanRow;
use channel_view_model::TableFault;
use report_texts::{DayCounts, WriteFault};
use reports::{write_day, write_days_end};
use sqlite::{Alter, Transaction};
use std::alloc::Global;
use std::io::Write;

// The line of each of these days.
fn write_lines<W: Write>(output: &mut W, counts: &[DayCounts]) -> Result<(), WriteFault>
    ensures ok { OnOk result
        (Appends (W.contents output.old) (W.contents output.new) (flat_map counts_line counts.now)) }
    ensures err { OnErr result
        (AppendsPart (W.contents output.old) (W.contents output.new) (flat_map counts_line counts.now)) }
{
    for day in counts {
        write_day(output, *day)?;
    }
    Ok(())
}

/// Writes the days table of the channel, whose row of the plan this is.
pub(crate) fn write_days<S: Alter, W: Write>(
    alloc: Global,
    tx: &mut Transaction<'_, S>,
    channel: u16,
    plan: &PlanRow,
    output: &mut W,
) -> Result<(), TableFault>
    ensures looks { Looks S.Store tx.old tx.new result }
    ensures written { WhileCleanSeen S.Store tx.old tx.new channel plan.now (λ view.
        Written (W.contents output.old) (W.contents output.new) result (days_text view.aired view.days)) }
{
    let counts = count_days(alloc, tx, channel, plan)?;
    write_lines(output, &counts)?;
    write_days_end(output, counts.len())?;
    Ok(())
}
