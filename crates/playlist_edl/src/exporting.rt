//! The list that a day is exported as.
ghost use Rattle.std.specs.Prelude.{◌≡◌, ◌==◌, ◌+◌, ◌-◌, ◌<◌, ◌≤◌, ◌++◌, ◌∷◌, [], All, Ok, true, false};
ghost use Rattle.std.specs.Prelude.{Some, None, map, find, length, take, slice_get};
ghost use Rattle.std.specs.Prelude.{IfOk, IfErr, OnOk, IfSome, IsUtf8, string_bytes};
ghost use Rattle.std.specs.List.{cons_option, list_all};
ghost use Rattle.std.specs.Option.{option_map, option_to_list};
ghost use Rattle.timecode.specs.Counting.{day_length};
ghost use Rattle.channel_plan.specs.Refusal.{IsRefusalOf};
ghost use Rattle.edl.specs.Written.{list_text as text_of_list};
ghost use Rattle.edl.specs.WrittenShown.{out_shown, outs_of};
ghost use Rattle.playlist_core.specs.Limits.{most_items};
ghost use Rattle.playlist_core.specs.Item.{planned};
ghost use Rattle.playlist_core.specs.Order.{AreApart};
ghost use Rattle.vault_core.specs.Clip.{is_title};
ghost use Rattle.playlist_edl.specs.Exporting.{can_be_listed};
ghost use Rattle.playlist_edl.specs.Exporting.{CanBeListed, cut_line as cut_line_of, exported};
ghost use Rattle.playlist_edl.specs.Exporting.{duration_of as duration_in, has_whole_day as has_whole_day_of};
ghost use Rattle.playlist_edl.specs.Exporting.{item_ending as item_ending_in, item_line as item_line_of, line_shown};
ghost use Rattle.playlist_edl.specs.Exporting.{outgoing_of, lines_from, note_before, note_text as note_text_of};
ghost use Rattle.playlist_edl.specs.Exporting.{notes_of as notes_in, record_frame as record_frame_of};
ghost use Rattle.playlist_edl.specs.Exporting.{kind_shown, reel_shown, title_of, title_text};
ghost use Rattle.playlist_core.specs.Source.{source_reel};
ghost use Rattle.playlist_core.specs.Item.{kind_text as text_of_kind};

use channel_plan::{Code, PlanRow, Refusal};
use edl::{Notes, OutEvent, write_to_string};
use playlist_core::{DayPlan, DayState, EditKind, Item, Source, SourceRow, Sources};
use std::alloc::{AllocError, Global};
use std::fmt;
use timecode::{Unavailable, day_frames};
use vault_core::Title;

// The reel of a line. Black and bars have the same text each time.
#[derive(Drop)]
enum ReelText {
    Black,
    Bars,
    Clip(String),
}

impl ReelText {
    fn as_str(&self) -> &str
        ensures { result.now ≡ reel_shown self.now }
    {
        match self {
            ReelText::Black => "BL",
            ReelText::Bars => "BARS",
            ReelText::Clip(text) => text.as_str(),
        }
    }
}

// The kind of a line. Only a wipe has a number.
#[derive(Drop)]
enum KindText {
    Cut,
    Dissolve,
    Wipe(String),
}

impl KindText {
    fn as_str(&self) -> &str
        ensures { result.now ≡ kind_shown self.now }
    {
        match self {
            KindText::Cut => "C",
            KindText::Dissolve => "D",
            KindText::Wipe(text) => text.as_str(),
        }
    }
}

// A line that is to be written, with its texts.
#[derive(Drop)]
struct Line {
    number: u16,
    reel: ReelText,
    kind: KindText,
    duration: Option<u16>,
    source_first: u32,
    source_end: u32,
    record_first: u32,
    length: u32,
    note: Option<String>,
}

/// [`DayLists::export_list`](crate::DayLists).
#[tactic(auto, unfolding(crate::specs::Exporting::exported))]
pub(crate) fn exported_list<S: Sources>(
    alloc: Global,
    day: &DayPlan,
    plan: &PlanRow,
    sources: &S,
) -> Result<String, Refusal>
    requires own { day.now.frames ≡ day_length plan.now.rate }
    requires listed { list_all (can_be_listed plan.now (S.seen sources.now)) day.now.items ≡ true }
    ensures text { IfOk result
        (λ text. exported day.now plan.now (S.seen sources.now) ≡ Ok (string_bytes text)) }
    ensures refused { IfErr result (IsRefusalOf (exported day.now plan.now (S.seen sources.now))) }
{
    if day.state() == DayState::NotThere {
        return Err(Refusal::of(Code::NoDay));
    }
    if has_whole_day(day) {
        return Err(Refusal::of(Code::WholeDay));
    }
    match list_text(day, alloc, plan, sources) {
        Ok(text) => Ok(text),
        Err(_) => Err(Refusal::of(Code::Unavailable)),
    }
}

/// Whether each item of a day can stand in a list: its source's frames lie in the day. It is so of days and sources
/// that keep the integrity rules.
pub fn can_be_exported<S: Sources>(day: &DayPlan, plan: &PlanRow, sources: &S) -> bool
    ensures { result ≡ list_all (can_be_listed plan.now (S.seen sources.now)) day.now.items }
{
    day.items()
        .iter()
        .all(|item| can_be_listed(item, plan, sources))
}

fn can_be_listed<S: Sources>(item: &Item, plan: &PlanRow, sources: &S) -> bool
    ensures { result ≡ can_be_listed plan.now (S.seen sources.now) item.now }
{
    // No test is needed of the title that is found: each is one.
    let _title = clip_title(sources, &item.src);
    let end = u64::from(item.src_first) + u64::from(item.frames);
    end <= u64::from(day_frames(plan.rate))
}

fn has_whole_day(day: &DayPlan) -> bool
    ensures { result ≡ has_whole_day_of day.now }
{
    let frames = day.frames();
    day.items().iter().any(|i| i.frames == frames)
}

fn list_text<S: Sources>(
    day: &DayPlan,
    alloc: Global,
    plan: &PlanRow,
    sources: &S,
) -> Result<String, Unavailable>
    requires own { day.now.frames ≡ day_length plan.now.rate }
    requires shorter { has_whole_day_of day.now ≡ false }
    requires listed { All (CanBeListed plan.now (S.seen sources.now)) day.now.items }
    ensures { IfOk result (λ text. string_bytes text
        ≡ text_of_list (title_text plan.now.ch day.now.number) plan.now.rate
        (lines_from plan.now (S.seen sources.now) day.now.items 1 day.now.items)) }
{
    day.keep_the_rules();
    let title = day_title(alloc, plan, day.number())?;
    let lines = lines_of(alloc, plan, sources, day.items())?;
    let events = events_of(alloc, &lines)?;
    write_to_string(alloc, title.as_str(), plan.rate, &events)
}

// The title of a day's list, as it prints: `CH`, the channel in 3 digits, `DAY`, the day's number in 5.
#[derive(Clone, Copy)]
struct DayTitle {
    channel: u16,
    day: u32,
}

impl fmt::Display for DayTitle {
    ghost use Rattle.std.specs.Prelude.{Some};
    ghost use Rattle.playlist_edl.specs.Exporting.{title_text};

    ghost output = { λ title. Some (title_text title.channel title.day) };

    fn fmt<W: fmt::Write>(&self, f: &mut fmt::Formatter<W>) -> fmt::Result {
        let channel = self.channel;
        let day = self.day;
        write!(f, "CH {channel:03} DAY {day:05}")
    }
}

fn day_title(alloc: Global, plan: &PlanRow, day: u32) -> Result<String, AllocError>
    ensures { IfOk result (λ text. string_bytes text ≡ title_text plan.now.ch day) }
{
    let title = DayTitle {
        channel: plan.ch,
        day,
    };
    format!(in alloc; "{title}")
}

// The lines of a day's items, in the order of their positions.
fn lines_of<S: Sources>(
    alloc: Global,
    plan: &PlanRow,
    sources: &S,
    items: &[Item],
) -> Result<Vec<Line>, AllocError>
    requires few { length items.now ≤ most_items }
    requires apart { AreApart planned 0 (day_length plan.now.rate) items.now }
    requires listed { All (CanBeListed plan.now (S.seen sources.now)) items.now }
    ensures { IfOk result (λ lines. map line_shown lines.items
        ≡ lines_from plan.now (S.seen sources.now) items.now 1 items.now) }
{
    let mut lines = Vec::with_capacity(alloc, items.len())?;
    for (k, item) in items.iter().enumerate() {
        let number = k as u16 + 1;
        let before = item_before(items, k);
        let outgoing = outgoing_line(alloc, plan, sources, before, number, item)?;
        let line = item_line(alloc, plan, sources, number, item)?;
        push_lines(&mut lines, outgoing, line)?;
    }
    Ok(lines)
}

fn push_lines(lines: &mut Vec<Line>, outgoing: Option<Line>, line: Line) -> Result<(), AllocError>
    ensures { OnOk result (map line_shown lines.new.items
        ≡ map line_shown lines.old.items ++ cons_option (option_map line_shown outgoing) (line_shown line ∷ [])) }
{
    match outgoing {
        None => Ok(lines.push(line)?),
        Some(outgoing) => {
            lines.push(outgoing)?;
            Ok(lines.push(line)?)
        }
    }
}

// The item before the one at an index.
fn item_before(items: &[Item], k: usize) -> Option<Item>
    requires { k ≤ length items.now }
    ensures { result ≡ slice_get (take k items.now) (k - 1) }
{
    items[..k].last().copied()
}

// The zero cut before the line of an item, which a dissolve and a wipe have. In the order of the items none but the one
// before can end where an item begins.
fn outgoing_line<S: Sources>(
    alloc: Global,
    plan: &PlanRow,
    sources: &S,
    before: Option<Item>,
    number: u16,
    item: &Item,
) -> Result<Option<Line>, AllocError>
    requires { IfSome before (CanBeListed plan.now (S.seen sources.now)) }
    ensures { IfOk result (λ line. option_map line_shown line
        ≡ outgoing_of plan.now (S.seen sources.now) (option_to_list before) number item.now) }
{
    match item.kind {
        EditKind::Cut => Ok(None),
        EditKind::Dissolve | EditKind::Wipe(_) => {
            let ending = ending_at(before, item.pos);
            let line = cut_line(alloc, plan, sources, number, item.pos, ending)?;
            Ok(Some(line))
        }
    }
}

// The item, if it ends at a frame.
fn ending_at(before: Option<Item>, position: u32) -> Option<Item>
    ensures { result ≡ item_ending_in (option_to_list before) position }
{
    match before {
        Some(item) if item.end() == u64::from(position) => Some(item),
        _ => None,
    }
}

fn item_line<S: Sources>(
    alloc: Global,
    plan: &PlanRow,
    sources: &S,
    number: u16,
    item: &Item,
) -> Result<Line, AllocError>
    requires { CanBeListed plan.now (S.seen sources.now) item.now }
    ensures { IfOk result (λ line. line_shown line ≡ item_line_of plan.now (S.seen sources.now) number item.now) }
{
    Ok(Line {
        number,
        reel: reel_of(alloc, item.src)?,
        kind: kind_text(alloc, item.kind)?,
        duration: duration_of(item.kind, item.mix),
        source_first: item.src_first,
        source_end: item.src_first + item.frames,
        record_first: record_frame(plan, item.pos),
        length: item.frames,
        note: note_of(alloc, sources, item.kind, &item.src)?,
    })
}

// The zero cut before a dissolve or a wipe that begins at a frame: from the end of the item that ends there, or from
// black.
fn cut_line<S: Sources>(
    alloc: Global,
    plan: &PlanRow,
    sources: &S,
    number: u16,
    position: u32,
    ending: Option<Item>,
) -> Result<Line, AllocError>
    requires { IfSome ending (CanBeListed plan.now (S.seen sources.now)) }
    ensures { IfOk result (λ line. line_shown line ≡ cut_line_of plan.now (S.seen sources.now) number position ending) }
{
    let (source, place) = match ending {
        Some(item) => (item.src, item.src_first + item.frames),
        None => (Source::Black, 0),
    };
    Ok(Line {
        number,
        reel: reel_of(alloc, source)?,
        kind: kind_text(alloc, EditKind::Cut)?,
        duration: None,
        source_first: place,
        source_end: place,
        record_first: record_frame(plan, position),
        length: 0,
        note: note_of(alloc, sources, EditKind::Cut, &source)?,
    })
}

fn reel_of(alloc: Global, source: Source) -> Result<ReelText, AllocError>
    ensures { IfOk result (λ text. reel_shown text ≡ source_reel source) }
{
    match source {
        Source::Black => Ok(ReelText::Black),
        Source::Bars => Ok(ReelText::Bars),
        Source::Own(_number) => Ok(ReelText::Clip(format!(in alloc; "{source}")?)),
        Source::Lent(_owner, _number) => Ok(ReelText::Clip(format!(in alloc; "{source}")?)),
    }
}

fn kind_text(alloc: Global, kind: EditKind) -> Result<KindText, AllocError>
    ensures { IfOk result (λ text. kind_shown text ≡ text_of_kind kind) }
{
    match kind {
        EditKind::Cut => Ok(KindText::Cut),
        EditKind::Dissolve => Ok(KindText::Dissolve),
        EditKind::Wipe(_number) => Ok(KindText::Wipe(format!(in alloc; "{kind}")?)),
    }
}

// A cut has no duration.
fn duration_of(kind: EditKind, mix: u16) -> Option<u16>
    ensures { result ≡ duration_in kind mix }
{
    match kind {
        EditKind::Cut => None,
        EditKind::Dissolve | EditKind::Wipe(_) => Some(mix),
    }
}

// Where a frame of the broadcast day stands in the day from 00:00:00:00.
fn record_frame(plan: &PlanRow, position: u32) -> u32
    ensures value { result ≡ record_frame_of plan.now position }
    ensures within { result < day_length plan.now.rate }
{
    let frames = u64::from(day_frames(plan.rate));
    ((u64::from(plan.start) + u64::from(position)) % frames) as u32
}

// The note with the title of what a source names, if it names a clip.
fn note_of<S: Sources>(
    alloc: Global,
    sources: &S,
    kind: EditKind,
    source: &Source,
) -> Result<Option<String>, AllocError>
    requires { IfSome (title_of (S.seen sources.now) source.now) (λ title. is_title title ≡ true) }
    ensures { IfOk result (λ note. option_map string_bytes note
        ≡ note_text_of kind (title_of (S.seen sources.now) source.now)) }
{
    match clip_title(sources, source) {
        Some(title) => Ok(Some(note_text(alloc, kind, &title)?)),
        None => Ok(None),
    }
}

fn clip_title<S: Sources>(sources: &S, source: &Source) -> Option<Title>
    ensures { result ≡ title_of (S.seen sources.now) source.now }
{
    match sources.find(source)? {
        SourceRow::Own(clip) => Some(clip.title),
        SourceRow::Lent(grant) => Some(grant.offer.title),
    }
}

fn note_text(alloc: Global, kind: EditKind, title: &Title) -> Result<String, AllocError>
    requires { is_title title.now ≡ true }
    ensures { IfOk result (λ text. string_bytes text ≡ note_before kind ++ title.now) }
{
    let title = text_of(title.as_bytes());
    match kind {
        EditKind::Cut => format!(in alloc; "* FROM CLIP NAME: {title}"),
        EditKind::Dissolve | EditKind::Wipe(_) => format!(in alloc; "* TO CLIP NAME: {title}"),
    }
}

// Bytes that are text.
fn text_of(bytes: &[u8]) -> &str
    requires { IsUtf8 bytes.now }
    ensures { result.now ≡ bytes.now }
{
    str::from_utf8(bytes).unwrap()
}

// Lines as the writer of lists takes them.
fn events_of<'a>(alloc: Global, lines: &'a [Line]) -> Result<Vec<OutEvent<'a>>, AllocError>
    ensures { IfOk result (λ events. outs_of events.items ≡ map line_shown lines.now) }
{
    let mut events = Vec::with_capacity(alloc, lines.len())?;
    for line in lines {
        events.push(event_of(alloc, line)?)?;
    }
    Ok(events)
}

fn event_of<'a>(alloc: Global, line: &'a Line) -> Result<OutEvent<'a>, AllocError>
    ensures { IfOk result (λ event. out_shown event ≡ line_shown line.now) }
{
    Ok(OutEvent {
        number: line.number,
        reel: line.reel.as_str(),
        channels: "V",
        kind: line.kind.as_str(),
        duration: line.duration,
        source_first: line.source_first,
        source_end: line.source_end,
        record_first: line.record_first,
        length: line.length,
        notes: notes_of(alloc, &line.note)?,
    })
}

fn notes_of<'a>(alloc: Global, note: &'a Option<String>) -> Result<Notes<'a>, AllocError>
    ensures { IfOk result (λ notes. notes ≡ notes_in (option_map string_bytes note.now)) }
{
    let mut notes = Vec::new(alloc);
    if let Some(note) = note {
        notes.push(note.as_str())?;
    }
    Ok(Notes::of(notes))
}
