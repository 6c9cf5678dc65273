//! What a command needs of the rows that its channel sees.
//!
//! A decision is given the rows that answer and the command alone. So a text of the command is read here, to ask, and once
//! more where it is decided.
ghost use Rattle.std.specs.Prelude.{◌≡◌, true, IfOk};
ghost use Rattle.channel_view_model.specs.Need.{own_need, need_of, asks_a_part, items_asked, sources_asked};
ghost use Rattle.channel_view_model.specs.Need.{of_own as own_alone, names_asked, sources_of};
ghost use Rattle.vault_core.specs.Asked.{no_clips_asked, nothing_asked};
ghost use Rattle.grant_core.specs.Asked.{no_offers_asked};

use crate::command::{Command, VaultCommand};
use crate::day_command::{DayCommand, DayNumber};
use grant_core::OffersAsked;
use playlist_core::{DayPlan, Item, Source};
use std::alloc::Global;
use timecode::Unavailable;
use vault_core::{ClipsAsked, TapesAsked};

/// The most sources that a store answers one by one. To look a row up by its number costs as much as to read three in
/// order, so these cost at most what 200 rows do; for more sources it reads all rows.
pub const FEW_SOURCES: usize = 64;

/// Which of the clips and the lent clips that items may show a command asks for.
#[derive(Clone, Copy, PartialEq, Eq)]
pub enum SourcesAsked {
    Nothing,
    /// What this source names.
    One(Source),
    /// What each item of the day names. More of what is seen may be answered, up to all.
    OfItems,
    /// What each of the sources names that the command does. More may be answered too.
    Named,
}

/// The questions that a command asks of the rows that its channel sees, beside its row of the plan.
#[derive(Clone, Copy)]
pub struct Need<'a> {
    /// Of its tapes.
    pub tapes: TapesAsked,
    /// Of its clips.
    pub clips: ClipsAsked,
    /// Of its offers.
    pub offers: OffersAsked,
    /// The day with this number.
    pub day: Option<DayNumber>,
    /// The items of the day, where they are at hand and the day isn't asked for.
    pub items: Option<&'a [Item]>,
    /// What was aired of the day with this number.
    pub aired: Option<DayNumber>,
    /// Of the clips and the lent clips that items may show.
    pub sources: SourcesAsked,
    /// The sources that the command names.
    pub named: Option<&'a [Source]>,
}

impl<'a> Need<'a> {
    /// What this command asks, which no table is, and which names these sources
    /// ([`Command::sources_named`](crate::Command::sources_named)). Its reply and its change rest on the answers alone.
    pub fn of(command: &Command, named: &'a [Source]) -> Need<'a>
        requires { asks_a_part command.now ≡ true }
        ensures { result ≡ need_of command.now named.entry }
    {
        match command {
            Command::Vault(own) => need_of_own(own),
            Command::Day(day, asked) => Need {
                day: Some(*day),
                sources: sources_asked(asked),
                named: Some(named),
                ..nothing()
            },
            Command::Airing(number, _) => Need {
                day: Some(*number),
                aired: Some(*number),
                ..nothing()
            },
            Command::PlanRow => nothing(),
            Command::Table(_) => unreachable!(),
        }
    }
}

fn need_of_own<'a>(command: &VaultCommand) -> Need<'a>
    ensures { result ≡ own_need command.now }
{
    match command {
        VaultCommand::Tape(asked) => of_own(
            asked.asks(),
            ClipsAsked::nothing(),
            OffersAsked::nothing(),
        ),
        VaultCommand::Clip(asked) => of_own(
            asked.asks_of_tapes(),
            asked.asks(),
            OffersAsked::nothing(),
        ),
        VaultCommand::Offer(asked) => of_own(
            TapesAsked::nothing(),
            asked.asks_of_clips(),
            asked.asks(),
        ),
    }
}

// No question.
fn nothing<'a>() -> Need<'a>
    ensures { result ≡ own_alone nothing_asked no_clips_asked no_offers_asked }
{
    of_own(
        TapesAsked::nothing(),
        ClipsAsked::nothing(),
        OffersAsked::nothing(),
    )
}

// Questions of own rows alone.
fn of_own<'a>(tapes: TapesAsked, clips: ClipsAsked, offers: OffersAsked) -> Need<'a>
    ensures { result ≡ own_alone tapes clips offers }
{
    Need {
        tapes,
        clips,
        offers,
        day: None,
        items: None,
        aired: None,
        sources: SourcesAsked::Nothing,
        named: None,
    }
}

fn sources_asked(command: &DayCommand) -> SourcesAsked
    ensures { result ≡ sources_asked command.now }
{
    match command {
        DayCommand::AddItem { source, .. } => match Source::read(source.as_bytes()) {
            Some(source) => SourcesAsked::One(source),
            None => SourcesAsked::Nothing,
        },
        DayCommand::Revise { .. } | DayCommand::Import { .. } => SourcesAsked::Named,
        DayCommand::Seal | DayCommand::ExportList => SourcesAsked::OfItems,
        DayCommand::Open | DayCommand::RemoveItem { .. } | DayCommand::WritePlan => {
            SourcesAsked::Nothing
        }
    }
}

/// The items whose sources are asked for: these at hand, else those of the day that was asked for.
pub fn items_asked<'a>(items: Option<&'a [Item]>, day: &'a Option<DayPlan>) -> &'a [Item]
    ensures { result.now ≡ items_asked items.entry day.now }
{
    match (items, day) {
        (Some(items), _) => items,
        (None, Some(day)) => day.items(),
        (None, None) => &[],
    }
}

/// The sources that a need names, if it names some.
pub fn names_asked<'a>(named: Option<&'a [Source]>) -> &'a [Source]
    ensures { result.now ≡ names_asked named.entry }
{
    match named {
        Some(sources) => sources,
        None => &[],
    }
}

/// The sources of items, one after another.
pub fn sources_of(alloc: Global, items: &[Item]) -> Result<Vec<Source>, Unavailable>
    ensures { IfOk result (λ sources. sources.items ≡ sources_of items.now) }
{
    Ok(items.iter().map(|item| item.src).collect(alloc)?)
}
