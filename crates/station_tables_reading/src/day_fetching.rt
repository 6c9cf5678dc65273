//! The day that a command asks for, and the clips and lent clips that its items may show, from the tables.
ghost use Rattle.std.specs.Prelude.{◌≡◌, ◌==◌, ◌&&◌, [], Some, find, IfOk};
ghost use Rattle.std.specs.List.{cons_option};
ghost use Rattle.std.specs.Option.{option_map};
ghost use Rattle.playlist_core.specs.declared.source.Source.TheVariants as Source;
ghost use Rattle.channel_view_model.specs.Tables.{of_channel, rows_of};
ghost use Rattle.channel_view_model.specs.Seen.{grants_to};
ghost use Rattle.channel_view_model.specs.Centre.{plan_of};
ghost use Rattle.channel_view_model.specs.Days.{day_at};
ghost use Rattle.channel_view_model.specs.Need.{AreSourceAnswers, IsDayAnswer, IsSourceAnswer, NamesAlike};
ghost use Rattle.channel_view_model.specs.Need.{items_asked, names_asked};
ghost use Rattle.station_tables_records.specs.Inside.{inside, Reads, Looks};
ghost use Rattle.station_tables_statements.specs.Calls.{set_in, WhileCleanCentre};
ghost use Rattle.station_tables_reading.specs.Lent.{lent_to};

use crate::day_loading::load_days;
use channel_plan::PlanRow;
use channel_view_model::{
    DayNumber, FEW_SOURCES, Need, SourcesAsked, items_asked, names_asked, sources_of,
};
use grant_core::Grant;
use playlist_core::{DayPlan, Item, Source, SourcesFound};
use sqlite::{Alter, Transaction};
use station_tables_statements::{load_lent, load_rows, row_numbered};
use std::alloc::Global;
use timecode::Unavailable;
use vault_core::Offer;

/// What a command on a day asks for.
#[derive(Drop)]
pub(crate) struct DayAndSources {
    /// The day, there or not.
    pub(crate) day: Option<DayPlan>,
    pub(crate) sources: SourcesFound,
}

// The day with this number, there or not.
fn day_numbered<S: Alter>(
    alloc: Global,
    tx: &mut Transaction<'_, S>,
    plan: &PlanRow,
    number: &DayNumber,
) -> Result<DayPlan, Unavailable>
    ensures reads { Reads S.Store tx.old tx.new result }
    ensures day { WhileCleanCentre S.Store tx.old tx.new
        (plan_of plan.now.ch (set_in (inside S.Store tx.old)) ≡ Some plan.now → IfOk result
        (λ day. day ≡ day_at plan.now (of_channel plan.now.ch (set_in (inside S.Store tx.old)).days) number.now)) }
{
    let number = number.get();
    let mut days = load_days(alloc, tx, plan, number, number)?;
    if days.is_empty() {
        return Ok(DayPlan::not_there(alloc, number, plan));
    }
    let (_, day) = days.remove(0);
    Ok(day)
}

// The day that is asked for, where one is.
fn day_asked<S: Alter>(
    alloc: Global,
    tx: &mut Transaction<'_, S>,
    plan: &PlanRow,
    asked: &Option<DayNumber>,
) -> Result<Option<DayPlan>, Unavailable>
    ensures looks { Looks S.Store tx.old tx.new result }
    ensures day { WhileCleanCentre S.Store tx.old tx.new
        (plan_of plan.now.ch (set_in (inside S.Store tx.old)) ≡ Some plan.now → IfOk result
        (IsDayAnswer asked.now plan.now (of_channel plan.now.ch (set_in (inside S.Store tx.old)).days))) }
{
    match asked {
        Some(number) => Ok(Some(day_numbered(alloc, tx, plan, number)?)),
        None => Ok(None),
    }
}

// The channel's clip with this number, if it is there.
fn clip_source<S: Alter>(
    alloc: Global,
    tx: &mut Transaction<'_, S>,
    channel: u16,
    number: u32,
) -> Result<SourcesFound, Unavailable>
    ensures reads { Reads S.Store tx.old tx.new result }
    ensures found { WhileCleanCentre S.Store tx.old tx.new (IfOk result (λ found.
        (found.clips.items ≡ cons_option ((of_channel channel (set_in (inside S.Store tx.old)).clips).first
        (λ k. k.n == number)) []) × (found.grants.items ≡ []))) }
{
    let mut found = SourcesFound::nothing(alloc);
    if let Some(clip) = row_numbered(alloc, tx, channel, number)? {
        found.clips.push(clip)?;
    }
    Ok(found)
}

// The clip that is lent to the channel by this owner's offer, if it is there.
fn lent_source<S: Alter>(
    alloc: Global,
    tx: &mut Transaction<'_, S>,
    channel: u16,
    owner: u16,
    number: u16,
) -> Result<SourcesFound, Unavailable>
    ensures reads { Reads S.Store tx.old tx.new result }
    ensures found { WhileCleanCentre S.Store tx.old tx.new (IfOk result (λ found. (found.clips.items ≡ [])
        × (found.grants.items ≡ cons_option (find (λ g. g.owner == owner && g.offer.n == number)
        (grants_to channel (set_in (inside S.Store tx.old)).offers)) []))) }
{
    let mut found = SourcesFound::nothing(alloc);
    if let Some(grant) = grant_numbered(alloc, tx, channel, owner, number)? {
        found.grants.push(grant)?;
    }
    Ok(found)
}

// The same, alone: the owner's offer with this number, if it is to the channel.
fn grant_numbered<S: Alter>(
    alloc: Global,
    tx: &mut Transaction<'_, S>,
    channel: u16,
    owner: u16,
    number: u16,
) -> Result<Option<Grant>, Unavailable>
    ensures reads { Reads S.Store tx.old tx.new result }
    ensures grant { WhileCleanCentre S.Store tx.old tx.new (IfOk result (λ grant.
        grant ≡ find (λ g. g.owner == owner && g.offer.n == number)
        (grants_to channel (set_in (inside S.Store tx.old)).offers))) }
{
    let offer = row_numbered(alloc, tx, owner, u32::from(number))?;
    Ok(grant_to(channel, owner, offer))
}

// The clip that an owner's offer lends to this channel.
fn grant_to(channel: u16, owner: u16, offer: Option<Offer>) -> Option<Grant>
    ensures { result ≡ lent_to channel (option_map (λ o. (owner, o)) offer) }
{
    match offer {
        Some(offer) if offer.grantee == channel => Some(Grant { owner, offer }),
        _ => None,
    }
}

// All of the channel's clips, and all that are lent to it.
fn all_sources<S: Alter>(
    alloc: Global,
    tx: &mut Transaction<'_, S>,
    channel: u16,
) -> Result<SourcesFound, Unavailable>
    ensures reads { Reads S.Store tx.old tx.new result }
    ensures found { WhileCleanCentre S.Store tx.old tx.new (IfOk result (λ found.
        (found.clips.items ≡ rows_of channel (set_in (inside S.Store tx.old)).clips)
        × (found.grants.items ≡ grants_to channel (set_in (inside S.Store tx.old)).offers))) }
{
    let clips = load_rows(alloc, tx, channel)?;
    let grants = load_lent(alloc, tx, channel)?;
    Ok(SourcesFound { clips, grants })
}

// What a source names.
fn source_found<S: Alter>(
    alloc: Global,
    tx: &mut Transaction<'_, S>,
    channel: u16,
    source: Source,
) -> Result<SourcesFound, Unavailable>
    ensures looks { Looks S.Store tx.old tx.new result }
    ensures found { WhileCleanCentre S.Store tx.old tx.new (IfOk result (λ found.
        IsSourceAnswer source
        (rows_of channel (set_in (inside S.Store tx.old)).clips)
        (grants_to channel (set_in (inside S.Store tx.old)).offers) found.clips.items found.grants.items)) }
{
    match source {
        Source::Black | Source::Bars => Ok(SourcesFound::nothing(alloc)),
        Source::Own(number) => clip_source(alloc, tx, channel, number.get()),
        Source::Lent(owner, number) => {
            lent_source(alloc, tx, channel, owner.get(), number.get())
        }
    }
}

// What each of these sources names, one after another.
fn each_named<S: Alter>(
    alloc: Global,
    tx: &mut Transaction<'_, S>,
    channel: u16,
    sources: &[Source],
) -> Result<SourcesFound, Unavailable>
    ensures looks { Looks S.Store tx.old tx.new result }
    ensures found { WhileCleanCentre S.Store tx.old tx.new (IfOk result (λ found. NamesAlike sources.now
        (rows_of channel (set_in (inside S.Store tx.old)).clips)
        (grants_to channel (set_in (inside S.Store tx.old)).offers) found.clips.items found.grants.items)) }
{
    let mut found = SourcesFound::nothing(alloc);
    for source in sources {
        let named = source_found(alloc, tx, channel, *source)?;
        found.clips.extend_from_slice(&named.clips)?;
        found.grants.extend_from_slice(&named.grants)?;
    }
    Ok(found)
}

// What these sources name; of many, all.
fn sources_named<S: Alter>(
    alloc: Global,
    tx: &mut Transaction<'_, S>,
    channel: u16,
    sources: &[Source],
) -> Result<SourcesFound, Unavailable>
    ensures looks { Looks S.Store tx.old tx.new result }
    ensures found { WhileCleanCentre S.Store tx.old tx.new (IfOk result (λ found. NamesAlike sources.now
        (rows_of channel (set_in (inside S.Store tx.old)).clips)
        (grants_to channel (set_in (inside S.Store tx.old)).offers) found.clips.items found.grants.items)) }
{
    if sources.len() > FEW_SOURCES {
        all_sources(alloc, tx, channel)
    } else {
        each_named(alloc, tx, channel, sources)
    }
}

// The clips and the lent clips that are asked for, of these items or these sources.
fn sources_found<S: Alter>(
    alloc: Global,
    tx: &mut Transaction<'_, S>,
    channel: u16,
    asked: SourcesAsked,
    items: &[Item],
    named: &[Source],
) -> Result<SourcesFound, Unavailable>
    ensures looks { Looks S.Store tx.old tx.new result }
    ensures found { WhileCleanCentre S.Store tx.old tx.new (IfOk result (λ found. AreSourceAnswers asked items.now
        named.now (rows_of channel (set_in (inside S.Store tx.old)).clips)
        (grants_to channel (set_in (inside S.Store tx.old)).offers) found.clips.items found.grants.items)) }
{
    match asked {
        SourcesAsked::Nothing => Ok(SourcesFound::nothing(alloc)),
        SourcesAsked::One(source) => source_found(alloc, tx, channel, source),
        SourcesAsked::OfItems => {
            let sources = sources_of(alloc, items)?;
            sources_named(alloc, tx, channel, &sources)
        }
        SourcesAsked::Named => sources_named(alloc, tx, channel, named),
    }
}

/// The day that is asked for, and the clips and lent clips that its items may show.
pub(crate) fn find_air<S: Alter>(
    alloc: Global,
    tx: &mut Transaction<'_, S>,
    plan: &PlanRow,
    need: &Need<'_>,
) -> Result<DayAndSources, Unavailable>
    ensures looks { Looks S.Store tx.old tx.new result }
    ensures day { WhileCleanCentre S.Store tx.old tx.new
        (plan_of plan.now.ch (set_in (inside S.Store tx.old)) ≡ Some plan.now → IfOk result
        (λ air. IsDayAnswer need.now.day plan.now
        (of_channel plan.now.ch (set_in (inside S.Store tx.old)).days) air.day)) }
    ensures sources { WhileCleanCentre S.Store tx.old tx.new (IfOk result (λ air. AreSourceAnswers need.now.sources
        (items_asked need.now.items air.day) (names_asked need.now.named)
        (rows_of plan.now.ch (set_in (inside S.Store tx.old)).clips)
        (grants_to plan.now.ch (set_in (inside S.Store tx.old)).offers)
        air.sources.clips.items air.sources.grants.items)) }
{
    let day = day_asked(alloc, tx, plan, &need.day)?;
    let items = items_asked(need.items, &day);
    let named = names_asked(need.named);
    let sources = sources_found(alloc, tx, plan.ch, need.sources, items, named)?;
    Ok(DayAndSources { day, sources })
}
