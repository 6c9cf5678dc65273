//! The test of the days of a whole set by the integrity rules.
ghost use Rattle.std.specs.Prelude.{◌≡◌, ◌↔◌, ◌==◌, true, map, IfOk, IsTrue};
ghost use Rattle.std.specs.List.{list_all, AllByRecursion};
ghost use Rattle.std.specs.List.Sorted.{IsNonDecreasingBy};
ghost use Rattle.playlist_core.specs.Day.{KeepsDayRules};
ghost use Rattle.std.specs.Option.{option_map};
ghost use Rattle.channel_plan.specs.Plan.{is_plan_in_order};
ghost use Rattle.playlist_core.specs.Source.{row_seen};
ghost use Rattle.channel_view_model.specs.Tables.{is_in_order};
ghost use Rattle.channel_view_model.specs.Seen.{grant_of, grants_to};
ghost use Rattle.channel_view_model.specs.Rules.{KeepsDays, are_days_of, has_days, holds, is_day_of, is_planned};
ghost use Rattle.channel_view_model.specs.Rules.{are_tables, is_table_of};
ghost use Rattle.channel_view_model.specs.Rules.{row_holds, source_holds};
ghost use Rattle.channel_view_rules.specs.Lent.{LendsAs};

use crate::bisecting::{OfChannel, channel_rows};
use crate::rules::without_channels;
use channel_plan::PlanRow;
use channel_view_model::CentreRows;
use grant_core::Grant;
use playlist_core::{DayPlan, DayState, Item, Source, SourceRow, SourceRows, Sources};
use std::alloc::Global;
use timecode::{Unavailable, day_frames};
use vault_core::Offer;

/// Whether the days are a table of the plan's channels, and each channel's have rising numbers and show what is there.
pub(crate) fn keeps_days(alloc: Global, rows: &CentreRows) -> Result<bool, Unavailable>
    requires plan { is_plan_in_order rows.now.channels ≡ true }
    requires tables { are_tables rows.now ≡ true }
    ensures { IfOk result (λ b. IsTrue b ↔ KeepsDays rows.now) }
{
    keep_the_rules(&rows.days);
    if !is_table_of(&rows.channels, &rows.days) {
        return Ok(false);
    }
    let lent = lent_by_channel(alloc, &rows.offers)?;
    for plan in &rows.channels {
        if !has_days(alloc, rows, &lent, plan)? {
            return Ok(false);
        }
    }
    Ok(true)
}

// A law: each day keeps the rules of a day.
fn keep_the_rules(days: &[(u16, DayPlan)])
    ensures { AllByRecursion (λ r. KeepsDayRules r.1) days.now }
{
    for row in days {
        row.1.keep_the_rules();
    }
}

/// Whether rows lie channel after channel, each of a channel of the plan.
pub(crate) fn is_table_of<T>(channels: &[PlanRow], rows: &[(u16, T)]) -> bool
    ensures { result ≡ is_table_of channels.now rows.now }
{
    let mut last = 0;
    for row in rows {
        if row.0 < last || !is_planned(channels, row.0) {
            return false;
        }
        last = row.0;
    }
    true
}

fn is_planned(channels: &[PlanRow], channel: u16) -> bool
    ensures { result ≡ is_planned channels.now channel }
{
    channels.iter().any(|p| p.ch == channel)
}

impl OfChannel for Grant {
    ghost channel_of = { λ g. g.offer.grantee };

    fn channel(&self) -> u16 {
        self.offer.grantee
    }
}

// What is lent to each channel, by owner and number, channel after channel: so no channel looks through all offers.
fn lent_by_channel(alloc: Global, offers: &[(u16, Offer)]) -> Result<Vec<Grant>, Unavailable>
    ensures order { IfOk result (λ v. IsNonDecreasingBy (λ g. g.offer.grantee) v.items) }
    ensures lent { IfOk result (λ v. LendsAs v.items offers.now) }
{
    let mut lent = grants_of(alloc, offers)?;
    lent.sort_by_key(|grant| grant.offer.grantee)?;
    Ok(lent)
}

// Each offer as what it lends.
fn grants_of(alloc: Global, offers: &[(u16, Offer)]) -> Result<Vec<Grant>, Unavailable>
    ensures { IfOk result (λ v. v.items ≡ map grant_of offers.now) }
{
    let grants = offers
        .iter()
        .map(|row| Grant {
            owner: row.0,
            offer: row.1,
        })
        .collect(alloc)?;
    Ok(grants)
}

// Whether a channel's days keep the rules. Where it has none, its clips are not looked at.
fn has_days(
    alloc: Global,
    rows: &CentreRows,
    lent: &[Grant],
    plan: &PlanRow,
) -> Result<bool, Unavailable>
    requires clips { is_in_order rows.now.clips ≡ true }
    requires days { is_in_order rows.now.days ≡ true }
    requires order { IsNonDecreasingBy (λ g. g.offer.grantee) lent.now }
    requires lent { LendsAs lent.now rows.now.offers }
    ensures { IfOk result (λ b. b ≡ has_days rows.now plan.now.ch plan.now) }
{
    let days = channel_rows(&rows.days, plan.ch);
    if days.is_empty() {
        return Ok(true);
    }
    let clips = without_channels(alloc, channel_rows(&rows.clips, plan.ch))?;
    let sources = SourceRows::of(&clips, channel_rows(lent, plan.ch));
    Ok(are_days_of(plan, &sources, days))
}

/// The clips that are lent to this channel, by owner and number.
pub fn grants_to(
    alloc: Global,
    offers: &[(u16, Offer)],
    channel: u16,
) -> Result<Vec<Grant>, Unavailable>
    ensures { IfOk result (λ v. v.items ≡ grants_to channel offers.now) }
{
    let grants = offers
        .iter()
        .filter(|row| row.1.grantee == channel)
        .map(|row| Grant {
            owner: row.0,
            offer: row.1,
        })
        .collect(alloc)?;
    Ok(grants)
}

/// A day, with its channel or without.
pub(crate) trait OfDay {
    ghost use Rattle.playlist_core.specs.Day.{Day};

    ghost day_of: { Self → Day };

    fn day(&self) -> &DayPlan
        ensures { result.now ≡ day_of self.now };
}

impl OfDay for DayPlan {
    ghost day_of = { λ d. d };

    fn day(&self) -> &DayPlan {
        self
    }
}

impl OfDay for (u16, DayPlan) {
    ghost day_of = { λ r. r.1 };

    fn day(&self) -> &DayPlan {
        &self.1
    }
}

/// Whether the days of a channel have rising numbers and show what is there.
pub(crate) fn are_days_of<S: Sources, D: OfDay>(plan: &PlanRow, sources: &S, days: &[D]) -> bool
    ensures { result ≡ are_days_of plan.now (S.seen sources.now) 0 (map D.day_of days.now) }
{
    let mut last = 0;
    for row in days {
        let day = row.day();
        if day.number() <= last || !is_day_of(plan, sources, day) {
            return false;
        }
        last = day.number();
    }
    true
}

// Whether the day is there, has the frames of a day at the plan's rate, and shows what is there.
fn is_day_of<S: Sources>(plan: &PlanRow, sources: &S, day: &DayPlan) -> bool
    ensures { result ≡ is_day_of plan.now (S.seen sources.now) day.now }
{
    day.state() != DayState::NotThere
        && day.frames() == day_frames(plan.rate)
        && show_what_is_there(plan, day.number(), sources, day.items())
}

fn show_what_is_there<S: Sources>(plan: &PlanRow, day: u32, sources: &S, items: &[Item]) -> bool
    ensures { result ≡ list_all (λ i. source_holds plan.now day (S.seen sources.now) i i.src) items.now }
{
    items
        .iter()
        .all(|item| source_holds(plan, day, sources, item))
}

// Whether what an item of a day shows is there and holds its frames; a lent clip has the channel's rate, and the day
// lies in its window.
fn source_holds<S: Sources>(plan: &PlanRow, day: u32, sources: &S, item: &Item) -> bool
    ensures { result ≡ source_holds plan.now day (S.seen sources.now) item.now item.now.src }
{
    match item.src {
        Source::Black | Source::Bars => true,
        Source::Own(_) | Source::Lent(_, _) => {
            row_holds(plan, day, item, sources.find(&item.src))
        }
    }
}

fn row_holds(plan: &PlanRow, day: u32, item: &Item, row: Option<SourceRow<'_>>) -> bool
    ensures { result ≡ row_holds plan.now day item.now (option_map row_seen row.entry) }
{
    match row {
        None => false,
        Some(SourceRow::Own(clip)) => holds(clip.src_first, clip.frames, item),
        Some(SourceRow::Lent(grant)) => {
            grant.offer.lends_in(day)
                && grant.offer.rate == plan.rate
                && holds(grant.offer.src_first, grant.offer.frames, item)
        }
    }
}

// Whether so many frames from a first one on hold those that the item shows.
fn holds(first: u32, frames: u32, item: &Item) -> bool
    ensures { result ≡ holds first frames item.now }
{
    let end = u64::from(item.src_first) + u64::from(item.frames);
    first <= item.src_first && end <= u64::from(first) + u64::from(frames)
}
