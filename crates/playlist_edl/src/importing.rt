//! Lists that are imported into a day.
ghost use Rattle.std.specs.Prelude.{◌≡◌, ◌==◌, ◌<◌, ◌^◌, ◌⊎◌, All, Ok, Err, false, length, IfOk, IfErr, OnOk};
ghost use Rattle.timecode.specs.Counting.{day_length};
ghost use Rattle.channel_plan.specs.Refusal.{refused, IsRefusalOf};
ghost use Rattle.edl.specs.EntryShown.{entries_of, entry_shown};
ghost use Rattle.playlist_edl.specs.Importing.{HasShortMix, counts_of as counts_in, events_in, import_of};
ghost use Rattle.playlist_edl.specs.Importing.{day_after, is_skipped as is_skipped_of, item_of_event};
ghost use Rattle.playlist_edl.specs.Importing.{list_refusal as refusal_of_list, new_of, on_line as on_line_of};
ghost use Rattle.playlist_edl.specs.Importing.{after_events};
ghost use Rattle.playlist_core.specs.Day.{with_item};
ghost use Rattle.playlist_core.specs.declared.item.Item.{Item};
ghost use Rattle.playlist_core.specs.declared.day.DayState.TheVariants as DayState;

use channel_plan::{At, Code, LineFault, ListFault, PlanRow, Refusal};
use edl::{Event, read_from_string};
use playlist_core::{DayBuilder, DayPlan, EditKind, NewItem, Source, Sources, position_of};
use std::alloc::Global;

/// How many events of a list became items, and how many were skipped.
#[derive(Clone, Copy, Debug, PartialEq, Eq)]
pub struct Imported {
    pub items: usize,
    pub skipped: usize,
}

/// [`DayLists::import_list`](crate::DayLists).
#[tactic(auto, unfolding(crate::specs::Importing::import_of))]
pub(crate) fn imported_list<S: Sources>(
    alloc: Global,
    day: &mut DayPlan,
    plan: &PlanRow,
    sources: &S,
    text: &[u8],
    ignore_timecode_mismatch: bool,
) -> Result<Imported, Refusal>
    requires bytes { length text.now < 2 ^ 32 }
    requires start { plan.now.start < day_length plan.now.rate }
    ensures imported { IfOk result (λ counts. (counts ≡ counts_in (events_in plan.now.rate text.now))
        × (import_of day.old plan.now (S.seen sources.now) ignore_timecode_mismatch text.now ≡ Ok day.new)) }
    ensures refused { IfErr result (λ e. (day.new ≡ day.old)
        × (((e ≡ refused Code.Unavailable) × (day.old.state ≡ DayState.Open))
        ⊎ (import_of day.old plan.now (S.seen sources.now) ignore_timecode_mismatch text.now ≡ Err e))) }
{
    day.check_open()?;
    let list = match read_from_string(alloc, text, plan.rate, ignore_timecode_mismatch) {
        Ok(list) => list,
        Err(fault) => return Err(list_refusal(fault)),
    };
    // A copy, which takes the day's place where all events were taken.
    let Ok(mut filling) = DayBuilder::of(alloc, day) else {
        return Err(Refusal::of(Code::Unavailable));
    };
    let events = list.events.as_slice();
    take_events(&mut filling, plan, sources, events)?;
    *day = filling.into_day();
    Ok(counts_of(events))
}

/// The refusal of a list's fault: with its line, and the fault of a label in it.
pub fn list_refusal(fault: ListFault) -> Refusal
    ensures { result ≡ refusal_of_list fault }
{
    match fault {
        ListFault::Unavailable => Refusal::of(Code::Unavailable),
        ListFault::InLine(line, LineFault::BadLabel(label)) => Refusal {
            code: Code::List(LineFault::BadLabel(label)),
            at: At::LineLabel(line, label),
        },
        ListFault::InLine(line, fault) => Refusal {
            code: Code::List(fault),
            at: At::Count(line),
        },
    }
}

fn counts_of(events: &[Event<'_>]) -> Imported
    ensures { result ≡ counts_in (entries_of events.now) }
{
    Imported {
        items: events.iter().filter(|event| !is_skipped(event)).count(),
        skipped: events.iter().filter(|event| is_skipped(event)).count(),
    }
}

// Adds events to a day, up to the first that is refused.
fn take_events<S: Sources>(
    day: &mut DayBuilder,
    plan: &PlanRow,
    sources: &S,
    events: &[Event<'_>],
) -> Result<(), Refusal>
    requires start { plan.now.start < day_length plan.now.rate }
    requires mixes { All HasShortMix (entries_of events.now) }
    ensures taken { OnOk result
        (after_events day.old plan.now (S.seen sources.now) (entries_of events.now) ≡ Ok day.new) }
    ensures refused { IfErr result (λ e. (e ≡ refused Code.Unavailable)
        ⊎ (after_events day.old plan.now (S.seen sources.now) (entries_of events.now) ≡ Err e)) }
{
    for event in events {
        take_event(day, plan, sources, event)?;
    }
    Ok(())
}

// Adds an event to a day, unless it is skipped.
#[tactic(auto, unfolding(crate::specs::Importing::day_after))]
fn take_event<S: Sources>(
    day: &mut DayBuilder,
    plan: &PlanRow,
    sources: &S,
    event: &Event<'_>,
) -> Result<(), Refusal>
    requires start { plan.now.start < day_length plan.now.rate }
    requires mix { HasShortMix (entry_shown event.now) }
    ensures taken { OnOk result (day_after day.old plan.now (S.seen sources.now) (entry_shown event.now) ≡ Ok day.new) }
    ensures refused { IfErr result
        (IsRefusalOf (day_after day.old plan.now (S.seen sources.now) (entry_shown event.now))) }
{
    if is_skipped(event) {
        return Ok(());
    }
    match take_item(day, plan, sources, event) {
        Ok(_) => Ok(()),
        Err(refusal) => Err(on_line(event.line, refusal)),
    }
}

// Adds the item of an event to a day.
fn take_item<S: Sources>(
    day: &mut DayBuilder,
    plan: &PlanRow,
    sources: &S,
    event: &Event<'_>,
) -> Result<u16, Refusal>
    requires start { plan.now.start < day_length plan.now.rate }
    requires mix { HasShortMix (entry_shown event.now) }
    requires kept { is_skipped_of (entry_shown event.now) ≡ false }
    ensures taken { IfOk result (λ n. (item : Item)
        × (item_of_event day.old plan.now (S.seen sources.now) (entry_shown event.now) ≡ Ok item)
        × (day.new ≡ with_item item day.old)) }
    ensures refused { IfErr result
        (IsRefusalOf (item_of_event day.old plan.now (S.seen sources.now) (entry_shown event.now))) }
{
    let Some(kind) = EditKind::read(event.kind.as_bytes()) else {
        return Err(Refusal::of(Code::KeyEvent));
    };
    if event.speed {
        return Err(Refusal::of(Code::SpeedEvent));
    }
    day.take_item(plan, sources, &new_item(plan, event, kind))
}

fn new_item(plan: &PlanRow, event: &Event<'_>, kind: EditKind) -> NewItem
    requires { plan.now.start < day_length plan.now.rate }
    ensures { result ≡ new_of plan.now (entry_shown event.now) kind }
{
    NewItem {
        pos: position_of(plan, event.record_first),
        frames: event.length,
        src: Source::read(event.reel.as_bytes()),
        src_first: event.source_first,
        kind,
        mix: event.duration.unwrap_or(0),
    }
}

// Whether an event is sound, or a picture without a frame that isn't of another speed.
fn is_skipped(event: &Event<'_>) -> bool
    ensures { result ≡ is_skipped_of (entry_shown event.now) }
{
    !event.is_picture() || (event.length == 0 && !event.speed)
}

// The refusal of an event: with its line, unless it has a label of its own, or memory ran out.
fn on_line(line: u32, refusal: Refusal) -> Refusal
    ensures { result ≡ on_line_of line refusal }
{
    match refusal.code {
        Code::Overlap | Code::Unavailable => refusal,
        code => Refusal {
            code,
            at: At::Count(line),
        },
    }
}
