//! Decisions of revisions: items are taken out of a day and others put in, one after another.
ghost use Rattle.std.specs.Prelude.{◌≡◌, ◌<◌, ◌≤◌, ◌⊎◌, true, Ok, Err, IfOk, IfErr, OnOk};
ghost use Rattle.std.specs.List.{list_all};
ghost use Rattle.timecode.specs.Counting.{day_length};
ghost use Rattle.channel_plan.specs.declared.refusal.Code.TheVariants as Code;
ghost use Rattle.channel_plan.specs.Refusal.{refused, IsRefusalOf};
ghost use Rattle.playlist_core.specs.Limits.{most_mix};
ghost use Rattle.playlist_core.specs.Item.{is_kind};
ghost use Rattle.channel_view_model.specs.declared.day_command.DayCommand.TheVariants as DayCommand;
ghost use Rattle.channel_view_model.specs.Decide.{day_decision, revision_change};
ghost use Rattle.channel_view_model.specs.Revision.{is_said};
ghost use Rattle.channel_view_model.specs.Revising.{day_revised, day_with, day_without, in_turn, kind_said, new_said};

use crate::day_decisions::{frame_named, kind_of_mix};
use channel_plan::{Code, PlanRow, Refusal};
use channel_view_model::{Change, ItemRefusal, Reply, Revised, Revision, SaidItem};
use playlist_core::{DayChange, DayPlan, EditKind, NewItem, Source, Sources, position_of};
use std::alloc::Global;
use timecode::Unavailable;

/// The reply and the change of a revision of a day of this channel, there or not, whose items may show these sources.
#[tactic(auto, unfolding(channel_view_model::specs::Decide::day_decision))]
pub(crate) fn revise<S: Sources>(
    alloc: Global,
    day: &DayPlan,
    plan: &PlanRow,
    sources: &S,
    revision: &Revision,
) -> Result<(Reply, Change), Unavailable>
    requires start { plan.now.start < day_length plan.now.rate }
    ensures { IfOk result
        (λ d. d ≡ day_decision plan.now day.now (S.seen sources.now) (DayCommand.Revise revision.now)) }
{
    match revised(alloc, day, plan, sources, revision)? {
        Ok(after) => {
            let change = revision_change(alloc, revision.says_nothing(), day, after)?;
            Ok((Reply::Revised(Revised::by(revision)), change))
        }
        Err(refused) => Ok((Reply::ItemRefused(refused), Change::Nothing)),
    }
}

// One that says nothing changes nothing.
fn revision_change(
    alloc: Global,
    says_nothing: bool,
    before: &DayPlan,
    after: DayPlan,
) -> Result<Change, Unavailable>
    ensures { IfOk result (λ change. change ≡ revision_change says_nothing before.now after) }
{
    if says_nothing {
        return Ok(Change::Nothing);
    }
    Ok(Change::Day(DayChange::between(alloc, before, after)?))
}

// The day afterwards, or the refusal of one item.
#[tactic(auto, unfolding(channel_view_model::specs::Revising::day_revised))]
fn revised<S: Sources>(
    alloc: Global,
    day: &DayPlan,
    plan: &PlanRow,
    sources: &S,
    revision: &Revision,
) -> Result<Result<DayPlan, ItemRefusal>, Unavailable>
    requires start { plan.now.start < day_length plan.now.rate }
    ensures { IfOk result (λ r. r ≡ day_revised plan.now (S.seen sources.now) revision.now day.now) }
{
    let mut after = day.copied(alloc)?;
    if let Err(refused) = take_out(&mut after, revision.remove()) {
        return Ok(Err(refused));
    }
    match put_in(&mut after, plan, sources, revision.add()) {
        Ok(()) => Ok(Ok(after)),
        Err(refused) => match refused.refusal.code {
            Code::Unavailable => Err(Unavailable),
            _ => Ok(Err(refused)),
        },
    }
}

// Takes out the items of these numbers, up to the first that is refused.
fn take_out(day: &mut DayPlan, numbers: &[u32]) -> Result<(), ItemRefusal>
    ensures taken { OnOk result (in_turn day_without 1 numbers.now day.old ≡ Ok day.new) }
    ensures refused { IfErr result (λ e. in_turn day_without 1 numbers.now day.old ≡ Err e) }
{
    for place in 0..numbers.len() {
        take_one(day, numbers[place], place + 1)?;
    }
    Ok(())
}

// Takes out the item of this number, which has this place in a list.
fn take_one(day: &mut DayPlan, number: u32, item: usize) -> Result<(), ItemRefusal>
    ensures taken { OnOk result (day_without number day.old ≡ Ok day.new) }
    ensures refused { IfErr result (λ e. (e.item ≡ item) × (day_without number day.old ≡ Err e.refusal)) }
{
    match day.remove_item(number) {
        Ok(_) => Ok(()),
        Err(refusal) => Err(ItemRefusal { item, refusal }),
    }
}

// Puts in these items, up to the first that is refused, or for which memory is wanted.
fn put_in<S: Sources>(
    day: &mut DayPlan,
    plan: &PlanRow,
    sources: &S,
    items: &[SaidItem],
) -> Result<(), ItemRefusal>
    requires start { plan.now.start < day_length plan.now.rate }
    requires each { list_all is_said items.now ≡ true }
    ensures taken { OnOk result (in_turn (day_with plan.now (S.seen sources.now)) 1 items.now day.old ≡ Ok day.new) }
    ensures refused { IfErr result (λ e. (e.refusal ≡ refused Code.Unavailable)
        ⊎ (in_turn (day_with plan.now (S.seen sources.now)) 1 items.now day.old ≡ Err e)) }
{
    for place in 0..items.len() {
        put_one(day, plan, sources, &items[place], place + 1)?;
    }
    Ok(())
}

// Puts in an item, which has this place in a list.
fn put_one<S: Sources>(
    day: &mut DayPlan,
    plan: &PlanRow,
    sources: &S,
    said: &SaidItem,
    item: usize,
) -> Result<(), ItemRefusal>
    requires start { plan.now.start < day_length plan.now.rate }
    requires said { is_said said.now ≡ true }
    ensures taken { OnOk result (day_with plan.now (S.seen sources.now) said.now day.old ≡ Ok day.new) }
    ensures refused { IfErr result (λ e. (e.item ≡ item)
        × IsRefusalOf (day_with plan.now (S.seen sources.now) said.now day.old) e.refusal) }
{
    match take_said(day, plan, sources, said) {
        Ok(_) => Ok(()),
        Err(refusal) => Err(ItemRefusal { item, refusal }),
    }
}

// Adds the item that is said.
fn take_said<S: Sources>(
    day: &mut DayPlan,
    plan: &PlanRow,
    sources: &S,
    said: &SaidItem,
) -> Result<u16, Refusal>
    requires start { plan.now.start < day_length plan.now.rate }
    requires said { is_said said.now ≡ true }
    ensures taken { OnOk result (day_with plan.now (S.seen sources.now) said.now day.old ≡ Ok day.new) }
    ensures refused { IfErr result (IsRefusalOf (day_with plan.now (S.seen sources.now) said.now day.old)) }
{
    let new = new_said(plan, said)?;
    day.add_item(plan, sources, &new)
}

// The item that is said, or the fault of a label.
fn new_said(plan: &PlanRow, said: &SaidItem) -> Result<NewItem, Refusal>
    requires start { plan.now.start < day_length plan.now.rate }
    requires said { is_said said.now ≡ true }
    ensures item { result ≡ new_said plan.now said.now }
    ensures mix { IfOk result (λ new. (new.mix ≤ most_mix) × (is_kind new.kind ≡ true)) }
{
    let at = frame_named(plan, &said.at)?;
    let source_first = frame_named(plan, &said.source_in)?;
    Ok(NewItem {
        pos: position_of(plan, at),
        frames: said.frames,
        src: Source::read(said.source.as_bytes()),
        src_first: source_first,
        kind: kind_said(said),
        mix: said.mix as u16,
    })
}

// A wipe where it has the number of one.
fn kind_said(said: &SaidItem) -> EditKind
    requires { is_said said.now ≡ true }
    ensures kind { result ≡ kind_said said.now.wipe said.now.mix }
    ensures range { is_kind result ≡ true }
{
    match said.wipe {
        Some(number) => EditKind::Wipe(number as u16),
        None => kind_of_mix(said.mix as u16),
    }
}
