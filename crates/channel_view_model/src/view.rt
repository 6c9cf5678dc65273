//! What one channel sees.
ghost use Rattle.std.specs.Prelude.{◌≡◌, ◌==◌, find, IfOk, List};
ghost use Rattle.std.specs.Option.{option_map};
ghost use Rattle.vault_core.specs.Questions.{listed};
ghost use Rattle.playlist_core.specs.Source.{row_seen};
ghost use Rattle.playlist_core.specs.declared.item.Item.{Item};
ghost use Rattle.playlist_core.specs.declared.source.Source.{Source};
ghost use Rattle.channel_view_model.specs.Airings.{no_airing};
ghost use Rattle.channel_view_model.specs.Need.{AreSourceAnswers, IsAiringAnswer, IsDayAnswer, IsPartOf, clips_of};
ghost use Rattle.channel_view_model.specs.Need.{grants_of};

use crate::airings::Airings;
use crate::day_command::DayNumber;
use crate::days::Days;
use crate::need::{Need, SourcesAsked};
use crate::part::Part;
use asrun_match::{AiredDay, DayAsRun};
use channel_plan::PlanRow;
use grant_core::{LentRows, offers_found};
use playlist_core::{DayPlan, Source, SourceRow, SourceRows, Sources, SourcesFound};
use std::alloc::Global;
use timecode::Unavailable;
use vault_core::OwnRows;

/// All that one channel sees.
#[derive(Drop)]
pub struct View {
    pub own: OwnRows,
    /// Its broadcast days, by number.
    pub days: Days,
    /// What was aired of them.
    pub aired: Airings,
    /// The clips that other channels lend it.
    pub lent: LentRows,
}

impl View {
    /// The part of it that a command needs.
    pub fn part(&self, alloc: Global, need: &Need<'_>) -> Result<Part, Unavailable>
        ensures { IfOk result (IsPartOf need.now self.now) }
    {
        Ok(Part {
            plan: self.own.plan(),
            tapes: self.own.tapes_found(&need.tapes),
            clips: self.own.clips_found(&need.clips),
            offers: offers_found(&self.own, &need.offers),
            day: self.day(alloc, need.day)?,
            aired: self.aired(alloc, need.aired)?,
            sources: self.sources(alloc, need.sources)?,
        })
    }

    // The day that is asked for, there or not.
    fn day(&self, alloc: Global, asked: Option<DayNumber>) -> Result<Option<DayPlan>, Unavailable>
        ensures { IfOk result (IsDayAnswer asked self.now.own.plan (listed self.now.days)) }
    {
        let Some(number) = asked else {
            return Ok(None);
        };
        let number = number.get();
        match with_number(self.days.as_slice(), number) {
            Some(day) => Ok(Some(day.copied(alloc)?)),
            None => Ok(Some(DayPlan::not_there(alloc, number, &self.own.plan()))),
        }
    }

    // What was aired of the day that is asked for.
    fn aired(
        &self,
        alloc: Global,
        asked: Option<DayNumber>,
    ) -> Result<Option<AiredDay>, Unavailable>
        ensures { IfOk result (IsAiringAnswer asked self.now.own.plan (listed self.now.aired)) }
    {
        let Some(number) = asked else {
            return Ok(None);
        };
        match of_day(self.aired.as_slice(), number.get()) {
            Some(airing) => Ok(Some(airing.aired.copied(alloc)?)),
            None => Ok(Some(nothing_aired(alloc, &self.own.plan())?)),
        }
    }

    // The clips and the lent clips that are asked for, whatever is named: all, where more than one source may be.
    fn sources(&self, alloc: Global, asked: SourcesAsked) -> Result<SourcesFound, Unavailable>
        ensures { IfOk result (λ found. (items : List Item) → (named : List Source) → AreSourceAnswers asked items named
            self.now.own.clips self.now.lent found.clips.items found.grants.items) }
    {
        match asked {
            SourcesAsked::Nothing => Ok(SourcesFound::nothing(alloc)),
            SourcesAsked::One(source) => {
                let rows = SourceRows::of(self.own.clips(), self.lent.grants());
                single_source(alloc, rows.find(&source))
            }
            SourcesAsked::OfItems | SourcesAsked::Named => Ok(SourcesFound {
                clips: Vec::from_slice(alloc, self.own.clips())?,
                grants: Vec::from_slice(alloc, self.lent.grants())?,
            }),
        }
    }
}

// The first day with this number.
fn with_number(days: &[DayPlan], number: u32) -> Option<&DayPlan>
    ensures { option_map (λ d. d.now) result ≡ find (λ d. d.number == number) days.now }
{
    days.iter().find(|d| d.number() == number)
}

// What was aired of the day with this number, if something was.
fn of_day(airings: &[DayAsRun], number: u32) -> Option<&DayAsRun>
    ensures { option_map (λ a. a.now) result ≡ find (λ a. a.day == number) airings.now }
{
    airings.iter().find(|a| a.day == number)
}

/// What was aired of a day of this channel for which no batch came yet: nothing.
pub fn nothing_aired(alloc: Global, plan: &PlanRow) -> Result<AiredDay, Unavailable>
    ensures { IfOk result (λ aired. aired ≡ no_airing plan.now) }
{
    match AiredDay::from_rows(alloc, plan, Vec::new(alloc)) {
        Ok(aired) => Ok(aired),
        Err(_) => Err(Unavailable),
    }
}

// Just this clip or lent clip.
fn single_source(alloc: Global, row: Option<SourceRow<'_>>) -> Result<SourcesFound, Unavailable>
    ensures { IfOk result (λ found. (found.clips.items ≡ clips_of (option_map row_seen row.entry))
        × (found.grants.items ≡ grants_of (option_map row_seen row.entry))) }
{
    let mut found = SourcesFound::nothing(alloc);
    match row {
        Some(SourceRow::Own(clip)) => found.clips.push(*clip)?,
        Some(SourceRow::Lent(grant)) => found.grants.push(*grant)?,
        None => {}
    }
    Ok(found)
}
