//! The sources that a command names, where it may name many.
ghost use Rattle.std.specs.Prelude.{◌≡◌, IfOk};
ghost use Rattle.std.specs.List.{filter_map};
ghost use Rattle.playlist_core.specs.Source.{source_of_reel};
ghost use Rattle.channel_view_model.specs.Need.{sources_in, sources_named, sources_said};

use crate::command::Command;
use crate::day_command::DayCommand;
use crate::revision::SaidItem;
use playlist_core::Source;
use std::alloc::Global;
use timecode::Unavailable;

impl Command {
    /// The sources that it names: of a revision those of the items that it puts in, and of an edit list those that any
    /// of its words names, so each event's. A command of another kind has none here.
    pub fn sources_named(&self, alloc: Global) -> Result<Vec<Source>, Unavailable>
        ensures { IfOk result (λ named. named.items ≡ sources_named self.now) }
    {
        match self {
            Command::Day(_, asked) => sources_said(alloc, asked),
            Command::Vault(_) | Command::Airing(_, _) | Command::PlanRow | Command::Table(_) => {
                Ok(Vec::new(alloc))
            }
        }
    }
}

fn sources_said(alloc: Global, command: &DayCommand) -> Result<Vec<Source>, Unavailable>
    ensures { IfOk result (λ named. named.items ≡ sources_said command.now) }
{
    match command {
        DayCommand::Revise { revision } => sources_put_in(alloc, revision.add()),
        DayCommand::Import { list, .. } => sources_in(alloc, list.as_bytes()),
        DayCommand::Open
        | DayCommand::AddItem { .. }
        | DayCommand::RemoveItem { .. }
        | DayCommand::Seal
        | DayCommand::WritePlan
        | DayCommand::ExportList => Ok(Vec::new(alloc)),
    }
}

// The sources of items that a revision puts in.
fn sources_put_in(alloc: Global, items: &[SaidItem]) -> Result<Vec<Source>, Unavailable>
    ensures { IfOk result (λ named. named.items ≡ filter_map (λ i. source_of_reel i.source) items.now) }
{
    Ok(items.iter().filter_map(source_put_in).collect(alloc)?)
}

fn source_put_in(item: &SaidItem) -> Option<Source>
    ensures { result ≡ source_of_reel item.now.source }
{
    Source::read(item.source.as_bytes())
}

// The sources that words of an edit list name. An event's reel stands in it between blanks.
fn sources_in(alloc: Global, list: &[u8]) -> Result<Vec<Source>, Unavailable>
    ensures { IfOk result (λ named. named.items ≡ sources_in list.now) }
{
    Ok(
        list.split(|byte| *byte == b' ' || *byte == b'\t')
            .filter_map(Source::read)
            .collect(alloc)?,
    )
}
