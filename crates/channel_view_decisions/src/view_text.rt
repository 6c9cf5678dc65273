//! The text of a table of what one channel sees.
ghost use Rattle.std.specs.Prelude.{◌≡◌, IfOk, OnOk, OnErr};
ghost use Rattle.std.specs.Io.KnownBytes.{Appends};
ghost use Rattle.report_texts.specs.Output.{AppendsPart};
ghost use Rattle.channel_view_model.specs.TableText.{table_text};

use channel_view_model::{Table, TableText, View};
use report_texts::RowFault;
use reports::{write_clips, write_days, write_lent, write_offers, write_vault};
use std::alloc::Global;
use std::io::Write;
use timecode::Unavailable;

/// The text of a table of what one channel sees.
pub(crate) fn text_of_view(
    alloc: Global,
    view: &View,
    table: Table,
) -> Result<TableText, Unavailable>
    ensures { IfOk result (λ text. text ≡ table_text table view.now) }
{
    let mut text = Vec::new(alloc);
    match write_view(&mut text, view, table) {
        Ok(()) => Ok(TableText::of(text)),
        Err(_) => Err(Unavailable),
    }
}

// A table of what one channel sees.
#[tactic(auto, unfolding(channel_view_model::specs::TableText::text_seen))]
fn write_view<W: Write>(output: &mut W, view: &View, table: Table) -> Result<(), RowFault>
    ensures ok { OnOk result (Appends (W.contents output.old) (W.contents output.new) (table_text table view.now)) }
    ensures err { OnErr result
        (AppendsPart (W.contents output.old) (W.contents output.new) (table_text table view.now)) }
{
    let plan = view.own.plan();
    match table {
        Table::Vault => Ok(write_vault(output, &plan, view.own.tapes())?),
        Table::Clips => write_clips(output, plan.rate, view.own.clips()),
        Table::Offers => Ok(write_offers(output, view.own.offers())?),
        Table::Lent => write_lent(output, view.lent.grants()),
        Table::Days => Ok(write_days(output, view.days.as_slice(), view.aired.as_slice())?),
    }
}
