//! Decisions of commands on a broadcast day.
ghost use Rattle.std.specs.Prelude.{◌≡◌, ◌<◌, ◌≤◌, true, Ok, Err, IfOk};
ghost use Rattle.timecode.specs.Counting.{day_length};
ghost use Rattle.channel_plan.specs.declared.plan.PlanRow.{PlanRow};
ghost use Rattle.channel_plan.specs.declared.refusal.Code.TheVariants as Code;
ghost use Rattle.channel_plan.specs.declared.refusal.Refusal.{Refusal};
ghost use Rattle.channel_view_model.specs.declared.command.Reply.TheVariants as Reply;
ghost use Rattle.playlist_core.specs.Limits.{most_mix};
ghost use Rattle.playlist_core.specs.Item.{is_kind};
ghost use Rattle.playlist_core.specs.Source.{SourcesSeen};
ghost use Rattle.channel_view_model.specs.Decide.{day_decision, item_added};
ghost use Rattle.playlist_core.specs.Difference.{changed_day};
ghost use Rattle.playlist_core.specs.Day.{item_for, without_item};
ghost use Rattle.channel_view_model.specs.Days.{frame_named, item_of_said, item_said, kind_of_mix};

use crate::revising::revise;
use channel_plan::{Code, PlanRow, Refusal};
use channel_view_model::{Change, DayCommand, Mix, Reply, TableText, Upload};
use playlist_core::{
    DayChange, DayPlan, DayState, EditKind, NewItem, Source, Sources, position_of,
};
use playlist_edl::{DayLists, can_be_exported};
use reports::write_plan;
use std::alloc::Global;
use timecode::{Unavailable, day_frames, from_timecode};
use vault_core::RawText;

/// A refusal as a reply, which want of memory is not.
pub(crate) fn reply_of(refusal: Refusal) -> Result<Reply, Unavailable>
    ensures { IfOk result (λ reply. (reply ≡ Reply.Refused refusal) × (refusal.code ≡ Code.Unavailable → ⊥)) }
{
    match refusal.code {
        Code::Unavailable => Err(Unavailable),
        _ => Ok(Reply::Refused(refusal)),
    }
}

/// The reply and the change of a command on a day of this channel, there or not, whose items may show these sources.
#[tactic(auto, unfolding(channel_view_model::specs::Decide::day_decision))]
pub(crate) fn decide_on_day<S: Sources>(
    alloc: Global,
    plan: &PlanRow,
    day: &DayPlan,
    sources: &S,
    command: &DayCommand,
) -> Result<(Reply, Change), Unavailable>
    requires start { plan.now.start < day_length plan.now.rate }
    ensures { IfOk result (λ d. d ≡ day_decision plan.now day.now (S.seen sources.now) command.now) }
{
    match command {
        DayCommand::Open => open(alloc, day),
        DayCommand::AddItem {
            at,
            frames,
            source_in,
            mix,
            source,
        } => {
            let said = new_item(plan, at, *frames, source_in, *mix, source);
            add_item(alloc, day, plan, sources, said)
        }
        DayCommand::RemoveItem { item } => remove_item(alloc, day, *item),
        DayCommand::Revise { revision } => revise(alloc, day, plan, sources, revision),
        DayCommand::Import {
            list,
            ignore_timecode_mismatch,
        } => import(alloc, day, plan, sources, list, *ignore_timecode_mismatch),
        DayCommand::Seal => seal(alloc, day, plan, sources),
        DayCommand::WritePlan => write_table(alloc, plan, day),
        DayCommand::ExportList => export(alloc, plan, day, sources),
    }
}

#[tactic(auto, unfolding(channel_view_model::specs::Decide::day_decision))]
fn open(alloc: Global, day: &DayPlan) -> Result<(Reply, Change), Unavailable>
    ensures { (plan : PlanRow) (seen : SourcesSeen) →
        IfOk result (λ d. d ≡ day_decision plan day.now seen DayCommand.Open) }
{
    let mut after = day.copied(alloc)?;
    match after.open_day() {
        Ok(number) => Ok((Reply::Day(number), state_changed(alloc, day, after))),
        Err(refusal) => Ok((Reply::Refused(refusal), Change::Nothing)),
    }
}

// The change to a day that has the same items.
fn state_changed(alloc: Global, before: &DayPlan, after: DayPlan) -> Change
    requires same { before.now.items ≡ after.items }
    ensures { result ≡ Change.Day (changed_day before.now after) }
{
    Change::Day(DayChange::of_state(alloc, before, after))
}

// The change to a day that has the same items but for that of a number.
fn item_changed(
    alloc: Global,
    before: &DayPlan,
    after: DayPlan,
    number: u32,
) -> Result<Change, Unavailable>
    requires others { (without_item number before.now).items ≡ (without_item number after).items }
    ensures { IfOk result (λ change. change ≡ Change.Day (changed_day before.now after)) }
{
    Ok(Change::Day(DayChange::of_item(alloc, before, after, number)?))
}

// Adds the item that is said, or refuses it by the fault of a label.
fn add_item<S: Sources>(
    alloc: Global,
    day: &DayPlan,
    plan: &PlanRow,
    sources: &S,
    said: Result<NewItem, Refusal>,
) -> Result<(Reply, Change), Unavailable>
    requires { IfOk said (λ new. (new.mix ≤ most_mix) × (is_kind new.kind ≡ true)) }
    ensures { IfOk result (λ d. d ≡ item_added day.now (item_of_said day.now plan.now (S.seen sources.now) said)) }
{
    match said {
        Ok(new) => take_item(alloc, day, plan, sources, &new),
        Err(refusal) => Ok((Reply::Refused(refusal), Change::Nothing)),
    }
}

fn take_item<S: Sources>(
    alloc: Global,
    day: &DayPlan,
    plan: &PlanRow,
    sources: &S,
    new: &NewItem,
) -> Result<(Reply, Change), Unavailable>
    requires mix { new.now.mix ≤ most_mix }
    requires kind { is_kind new.now.kind ≡ true }
    ensures { IfOk result (λ d. d ≡ item_added day.now (item_for day.now plan.now (S.seen sources.now) new.now)) }
{
    match day.adding(alloc, plan, sources, new) {
        Ok((number, after)) => Ok((
            Reply::Item(number),
            item_changed(alloc, day, after, u32::from(number))?,
        )),
        Err(refusal) => Ok((reply_of(refusal)?, Change::Nothing)),
    }
}

// The item that the texts say, or the fault of a label.
fn new_item(
    plan: &PlanRow,
    at: &RawText,
    frames: u32,
    source_in: &RawText,
    mix: Mix,
    source: &RawText,
) -> Result<NewItem, Refusal>
    requires start { plan.now.start < day_length plan.now.rate }
    ensures item { result ≡ item_said plan.now at.now frames source_in.now mix source.now }
    ensures mix { IfOk result (λ new. (new.mix ≤ most_mix) × (is_kind new.kind ≡ true)) }
{
    let at = frame_named(plan, at)?;
    let source_first = frame_named(plan, source_in)?;
    let mix = mix.get();
    Ok(NewItem {
        pos: position_of(plan, at),
        frames,
        src: Source::read(source.as_bytes()),
        src_first: source_first,
        kind: kind_of_mix(mix),
        mix,
    })
}

/// The frame of a label at the channel's rate, or the refusal of its fault.
pub(crate) fn frame_named(plan: &PlanRow, label: &RawText) -> Result<u32, Refusal>
    ensures { result ≡ frame_named plan.now label.now }
{
    match from_timecode(label.as_bytes(), plan.rate) {
        Ok(frame) => Ok(frame),
        Err(fault) => Err(Refusal::of(Code::Label(fault))),
    }
}

/// An item with a mix is a dissolve, and one without a cut.
pub(crate) fn kind_of_mix(mix: u16) -> EditKind
    ensures kind { result ≡ kind_of_mix mix }
    ensures range { is_kind result ≡ true }
{
    if mix == 0 {
        EditKind::Cut
    } else {
        EditKind::Dissolve
    }
}

#[tactic(auto, unfolding(channel_view_model::specs::Decide::day_decision))]
fn remove_item(alloc: Global, day: &DayPlan, number: u32) -> Result<(Reply, Change), Unavailable>
    ensures { (plan : PlanRow) (seen : SourcesSeen) →
        IfOk result (λ d. d ≡ day_decision plan day.now seen (DayCommand.RemoveItem number)) }
{
    let mut after = day.copied(alloc)?;
    match after.remove_item(number) {
        Ok(item) => Ok((Reply::Item(item), item_changed(alloc, day, after, number)?)),
        Err(refusal) => Ok((Reply::Refused(refusal), Change::Nothing)),
    }
}

#[tactic(auto, unfolding(channel_view_model::specs::Decide::day_decision))]
fn import<S: Sources>(
    alloc: Global,
    day: &DayPlan,
    plan: &PlanRow,
    sources: &S,
    list: &Upload,
    ignore_timecode_mismatch: bool,
) -> Result<(Reply, Change), Unavailable>
    requires start { plan.now.start < day_length plan.now.rate }
    ensures { IfOk result (λ d. d ≡ day_decision plan.now day.now (S.seen sources.now)
        (DayCommand.Import list.now ignore_timecode_mismatch)) }
{
    let mut after = day.copied(alloc)?;
    let list = list.as_bytes();
    match after.import_list(alloc, plan, sources, list, ignore_timecode_mismatch) {
        Ok(counts) => Ok((
            Reply::Items(counts),
            Change::Day(DayChange::between(alloc, day, after)?),
        )),
        Err(refusal) => Ok((reply_of(refusal)?, Change::Nothing)),
    }
}

#[tactic(auto, unfolding(channel_view_model::specs::Decide::day_decision))]
fn seal<S: Sources>(
    alloc: Global,
    day: &DayPlan,
    plan: &PlanRow,
    sources: &S,
) -> Result<(Reply, Change), Unavailable>
    ensures { IfOk result (λ d. d ≡ day_decision plan.now day.now (S.seen sources.now) DayCommand.Seal) }
{
    let mut after = day.copied(alloc)?;
    match after.seal(plan, sources) {
        Ok(number) => Ok((Reply::Day(number), state_changed(alloc, day, after))),
        Err(refusal) => Ok((Reply::Refused(refusal), Change::Nothing)),
    }
}

#[tactic(auto, unfolding(channel_view_model::specs::Decide::day_decision))]
fn write_table(alloc: Global, plan: &PlanRow, day: &DayPlan) -> Result<(Reply, Change), Unavailable>
    ensures { (seen : SourcesSeen) →
        IfOk result (λ d. d ≡ day_decision plan.now day.now seen DayCommand.WritePlan) }
{
    if day.state() == DayState::NotThere {
        return Ok((Reply::Refused(Refusal::of(Code::NoDay)), Change::Nothing));
    }
    let mut text = Vec::new(alloc);
    match write_plan(&mut text, plan, day) {
        Ok(()) => Ok((Reply::Table(TableText::of(text)), Change::Nothing)),
        Err(_) => Err(Unavailable),
    }
}

// Where an item's source isn't there any more, or doesn't hold its frames, the rows were broken by another hand.
#[tactic(auto, unfolding(channel_view_model::specs::Decide::day_decision))]
fn export<S: Sources>(
    alloc: Global,
    plan: &PlanRow,
    day: &DayPlan,
    sources: &S,
) -> Result<(Reply, Change), Unavailable>
    ensures { IfOk result (λ d. d ≡ day_decision plan.now day.now (S.seen sources.now) DayCommand.ExportList) }
{
    if day.frames() != day_frames(plan.rate) || !can_be_exported(day, plan, sources) {
        return Err(Unavailable);
    }
    match day.export_list(alloc, plan, sources) {
        Ok(text) => Ok((
            Reply::Table(TableText::of(text.into_bytes())),
            Change::Nothing,
        )),
        Err(refusal) => Ok((reply_of(refusal)?, Change::Nothing)),
    }
}
