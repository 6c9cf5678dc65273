//! Why a day doesn't take an item or a change.
ghost use Rattle.std.specs.Prelude.{◌≡◌, ◌+◌, ◌<◌, ◌≤◌, OnOk, find};
ghost use Rattle.std.specs.Option.{option_map};
ghost use Rattle.playlist_core.specs.Source.{row_seen};
ghost use Rattle.timecode.specs.Counting.{day_length};
ghost use Rattle.playlist_core.specs.Day.{is_outside as is_outside_of, is_recalled as is_recalled_of};
ghost use Rattle.playlist_core.specs.Day.{label_at as label_at_of, position_of};
ghost use Rattle.playlist_core.specs.Day.{range_fault, refused_at, row_fault, source_fault, unless_taken, with_number};
ghost use Rattle.playlist_core.specs.Filling.{fitting_source};

use crate::item::{Item, NewItem};
use crate::source::{Source, SourceRow, Sources};
use channel_plan::{At, Code, PlanRow, Refusal};
use timecode::{Label, day_frames, to_timecode};

/// The label of a frame of the broadcast day, counted from its start.
pub fn label_at(plan: &PlanRow, position: u32) -> Label
    ensures { result ≡ label_at_of plan.now position }
{
    let frames = u64::from(day_frames(plan.rate));
    let frame = (u64::from(plan.start) + u64::from(position)) % frames;
    to_timecode(frame as u32, plan.rate).unwrap()
}

/// The frame of the broadcast day at a label, which is given as a frame of the day from 00:00:00:00.
pub fn position_of(plan: &PlanRow, frame: u32) -> u32
    requires { plan.now.start < day_length plan.now.rate }
    ensures value { result ≡ position_of plan.now frame }
    ensures within { result < day_length plan.now.rate }
{
    let frames = u64::from(day_frames(plan.rate));
    ((u64::from(frame) + frames - u64::from(plan.start)) % frames) as u32
}

/// A refusal with that label.
pub(crate) fn refusal_at(code: Code, plan: &PlanRow, position: u32) -> Refusal
    ensures { result ≡ refused_at code plan.now position }
{
    Refusal {
        code,
        at: At::Place(label_at(plan, position)),
    }
}

/// The source of an item that fits a day of this number, of so many frames, whatever its other items are, or the first
/// refusal: `PastDayEnd`, `NoSource`, `ClipRetired`, `Withdrawn`, `OutsideWindow`, `RateDiffers`, `SourceRange`,
/// `MixLong`.
#[tactic(auto, unfolding(crate::specs::Filling::fitting_source))]
pub(crate) fn fitting_source<S: Sources>(
    day: u32,
    frames: u32,
    plan: &PlanRow,
    sources: &S,
    new: &NewItem,
) -> Result<Source, Refusal>
    ensures source { result ≡ fitting_source day frames plan.now (S.seen sources.now) new.now }
    ensures within { OnOk result (new.now.pos + new.now.frames ≤ frames) }
{
    if new.end() > u64::from(frames) {
        return Err(Refusal::of(Code::PastDayEnd));
    }
    let Some(source) = new.src else {
        return Err(Refusal::of(Code::NoSource));
    };
    if let Some(code) = source_fault(plan, day, sources, new, &source) {
        return Err(Refusal::of(code));
    }
    if u32::from(new.mix) > new.frames {
        return Err(Refusal::of(Code::MixLong));
    }
    Ok(source)
}

/// The item of a source under a number, or why a day doesn't take it: its first frame that is taken, or want of a
/// number.
pub(crate) fn placed(
    plan: &PlanRow,
    new: &NewItem,
    source: Source,
    taken: Option<u32>,
    number: Option<u16>,
) -> Result<Item, Refusal>
    ensures { result ≡ unless_taken plan.now taken (with_number number source new.now) }
{
    match taken {
        Some(taken) => Err(refusal_at(Code::Overlap, plan, taken)),
        None => numbered(new, source, number),
    }
}

/// The item of a source under a number, or want of one.
pub(crate) fn numbered(new: &NewItem, source: Source, number: Option<u16>) -> Result<Item, Refusal>
    ensures { result ≡ with_number number source new.now }
{
    match number {
        Some(number) => Ok(new.numbered(number, source)),
        None => Err(Refusal::of(Code::DayFull)),
    }
}

// Why an item doesn't show in a day what its source names, if there is a reason.
fn source_fault<S: Sources>(
    plan: &PlanRow,
    day: u32,
    sources: &S,
    new: &NewItem,
    source: &Source,
) -> Option<Code>
    ensures { result ≡ source_fault plan.now day (S.seen sources.now) new.now source.now }
{
    match *source {
        Source::Black | Source::Bars => None,
        Source::Own(_) | Source::Lent(_, _) => { row_fault(plan, day, new, sources.find(source)) }
    }
}

fn row_fault(plan: &PlanRow, day: u32, new: &NewItem, row: Option<SourceRow<'_>>) -> Option<Code>
    ensures { result ≡ row_fault plan.now day new.now (option_map row_seen row.entry) }
{
    match row {
        None => Some(Code::NoSource),
        Some(SourceRow::Own(clip)) => {
            if clip.retired {
                return Some(Code::ClipRetired);
            }
            range_fault(clip.src_first, clip.frames, new)
        }
        Some(SourceRow::Lent(grant)) => {
            if grant.offer.withdrawn {
                return Some(Code::Withdrawn);
            }
            if !grant.offer.lends_in(day) {
                return Some(Code::OutsideWindow);
            }
            if grant.offer.rate != plan.rate {
                return Some(Code::RateDiffers);
            }
            range_fault(grant.offer.src_first, grant.offer.frames, new)
        }
    }
}

// Why an item doesn't show so many frames of a clip from a first one on, if there is a reason.
fn range_fault(first: u32, frames: u32, new: &NewItem) -> Option<Code>
    ensures { result ≡ range_fault first frames new.now }
{
    let new_first = new.src_first;
    let new_frames = new.frames;
    let end = u64::from(first) + u64::from(frames);
    let new_end = u64::from(new_first) + u64::from(new_frames);
    if new_first < first || end < new_end {
        Some(Code::SourceRange)
    } else {
        None
    }
}

/// The item that is recalled, or of several the one with the least position.
pub(crate) fn first_recalled<S: Sources>(items: &[Item], sources: &S) -> Option<Item>
    ensures { result ≡ find (is_recalled_of (S.seen sources.now)) items.now }
{
    items.iter().copied().find(|i| is_recalled(i, sources))
}

fn is_recalled<S: Sources>(item: &Item, sources: &S) -> bool
    ensures { result ≡ is_recalled_of (S.seen sources.now) item.now }
{
    match sources.find(&item.src) {
        Some(SourceRow::Lent(grant)) => grant.offer.withdrawn,
        Some(SourceRow::Own(_)) | None => false,
    }
}

/// The item whose lent clip may not be shown in a day, or of several the one with the least position.
pub(crate) fn first_outside<S: Sources>(items: &[Item], day: u32, sources: &S) -> Option<Item>
    ensures { result ≡ find (is_outside_of (S.seen sources.now) day) items.now }
{
    items.iter().copied().find(|i| is_outside(i, day, sources))
}

fn is_outside<S: Sources>(item: &Item, day: u32, sources: &S) -> bool
    ensures { result ≡ is_outside_of (S.seen sources.now) day item.now }
{
    match sources.find(&item.src) {
        Some(SourceRow::Lent(grant)) => !grant.offer.lends_in(day),
        Some(SourceRow::Own(_)) | None => false,
    }
}
