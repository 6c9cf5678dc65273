// Edit lists that are read.
ghost use Rattle.std.specs.Prelude.{◌≡◌, ◌↔◌, IsTrue, ◌≢◌, ◌+◌, ◌++◌, ◌∷◌, ◌<◌, ◌≤◌, ◌⊎◌, [], ◌^◌, ℕ, Bool, List};
ghost use Rattle.std.specs.Prelude.{Some, All, OnOk, IfOk, IfErr, length, take, drop, is_some};
ghost use Rattle.std.specs.Option.{option_to_list};
ghost use Rattle.edl.specs.EntryShown.{entry_shown, entries_of, title_shown};
ghost use Rattle.edl.specs.InOrder.{texts_in, texts_of_events};
ghost use Rattle.timecode.specs.declared.rates.Rate.{Rate};
ghost use Rattle.edl.specs.Faults.{first_fault};
ghost use Rattle.edl.specs.ListOf.{IsListOf};
ghost use Rattle.edl.specs.Texts.{texts_of};
ghost use Rattle.temolunai.specs.Numbers.{rate_numbered, no_room};
ghost use Rattle.temolunai.specs.Texts.{texts_at, IsWithin};
ghost use Rattle.temolunai.specs.Lists.{number_of_edit, pattern_of_edit, number_of_duration, event_made, events_made};
ghost use Rattle.temolunai.specs.Lists.{texts_before, texts_of_list, refused_for, fault_read, IsRead, IsReadAt};
ghost use Rattle.temolunai.specs.Lists.{IsRefusedAt};
ghost use Rattle.temolunai.specs.Lists.{Room, IsTooSmall, number_of_flag, counts_of};

use crate::numbers::{DONE, NO_DURATION, NO_ROOM, NO_SUCH_RATE, TOO_LONG, rate_numbered};
use crate::rooms::put_all;
use crate::texts::{Place, Texts, push_text, push_texts};
use channel_plan::ListFault;
use edl::{EditType, EventList, Notes, read_from_string};
use std::alloc::{AllocError, Global};
use timecode::Rate;

/// An event of a list.
#[repr(C)]
#[derive(Clone, Copy)]
pub struct Event {
    /// The place of its first text among the texts: of its reel. Behind it are its channels, its kind and its notes.
    pub first_text: usize,
    /// How many notes it has.
    pub notes: usize,
    /// Its line, counted from 1.
    pub line: u32,
    /// At most 9,999.
    pub number: u32,
    /// The duration of a dissolve or a wipe, in frames; 0xffffffff for none.
    pub duration: u32,
    /// The first frame of the source, as a frame of the day.
    pub source_first: u32,
    /// The end of the source, exclusive: at most the day's frames.
    pub source_end: u32,
    /// The first frame of the record, as a frame of the day.
    pub record_first: u32,
    /// The frames of the record, which may go on past the day's end.
    pub length: u32,
    /// 1 where the source is played at another speed, else 0.
    pub speed: u32,
    /// 1 where it is for the picture, else 0.
    pub is_picture: u32,
    /// 1 to 4: a cut, a dissolve, a wipe, a key.
    pub edit_type: u32,
    /// The number of a wipe's pattern.
    pub pattern: u32,
}

/// What became of a list: `fault` 0 and what it has, or the number of the fault, its line, and the number of its
/// label's fault.
#[repr(C)]
#[derive(Clone, Copy)]
pub struct ListRead {
    pub fault: u32,
    pub line: u32,
    pub label: u32,
    /// 1 where it has a title, which is its first text; else 0.
    pub has_title: u32,
    /// How many notes the head has, which are its next texts.
    pub head_notes: usize,
    pub events: usize,
    pub texts: usize,
    pub bytes: usize,
}

fn number_of_edit(edit: Option<EditType>) -> u32
    ensures { result ≡ number_of_edit edit }
{
    match edit {
        None => 0,
        Some(EditType::Cut) => 1,
        Some(EditType::Dissolve) => 2,
        Some(EditType::Wipe(_)) => 3,
        Some(EditType::Key) => 4,
    }
}

fn pattern_of_edit(edit: Option<EditType>) -> u32
    ensures { result ≡ pattern_of_edit edit }
{
    match edit {
        Some(EditType::Wipe(pattern)) => u32::from(pattern),
        _ => 0,
    }
}

fn number_of_duration(duration: Option<u16>) -> u32
    ensures { result ≡ number_of_duration duration }
{
    match duration {
        Some(frames) => u32::from(frames),
        None => NO_DURATION,
    }
}

// What C gets of an event, the first of whose texts is this one.
fn event_made(event: &edl::Event<'_>, first_text: usize) -> Event
    ensures { result ≡ event_made first_text (entry_shown event.now) }
{
    let edit = event.edit_type();
    Event {
        first_text,
        notes: event.notes.as_slice().len(),
        line: event.line,
        number: u32::from(event.number),
        duration: number_of_duration(event.duration),
        source_first: event.source_first,
        source_end: event.source_end,
        record_first: event.record_first,
        length: event.length,
        speed: u32::from(event.speed),
        is_picture: u32::from(event.is_picture()),
        edit_type: number_of_edit(edit),
        pattern: pattern_of_edit(edit),
    }
}

/// A list as C gets it.
#[derive(Drop)]
struct Laid {
    events: Vec<Event>,
    texts: Texts,
}

fn push_event(laid: &mut Laid, event: &edl::Event<'_>) -> Result<(), AllocError>
    requires { All (IsWithin (length laid.old.texts.bytes.items)) laid.old.texts.places.items }
    ensures within { OnOk result (All (IsWithin (length laid.new.texts.bytes.items)) laid.new.texts.places.items) }
    ensures texts { OnOk result (texts_at laid.new.texts.bytes.items laid.new.texts.places.items
        ≡ texts_at laid.old.texts.bytes.items laid.old.texts.places.items ++ texts_in (entry_shown event.now)) }
    ensures events { OnOk result (laid.new.events.items ≡ laid.old.events.items
        ++ (event_made (length laid.old.texts.places.items) (entry_shown event.now) ∷ [])) }
{
    let first_text = laid.texts.places.len();
    laid.events.push(event_made(event, first_text))?;
    push_text(&mut laid.texts, event.reel)?;
    push_text(&mut laid.texts, event.channels)?;
    push_text(&mut laid.texts, event.kind)?;
    push_texts(&mut laid.texts, event.notes.as_slice())
}

fn push_events(laid: &mut Laid, events: &[edl::Event<'_>]) -> Result<(), AllocError>
    requires { All (IsWithin (length laid.old.texts.bytes.items)) laid.old.texts.places.items }
    ensures within { OnOk result (All (IsWithin (length laid.new.texts.bytes.items)) laid.new.texts.places.items) }
    ensures texts { OnOk result (texts_at laid.new.texts.bytes.items laid.new.texts.places.items
        ≡ texts_at laid.old.texts.bytes.items laid.old.texts.places.items ++ texts_of_events (entries_of events.now)) }
    ensures events { OnOk result (laid.new.events.items ≡ laid.old.events.items
        ++ events_made (length laid.old.texts.places.items) (entries_of events.now)) }
{
    for event in events {
        push_event(laid, event)?;
    }
    Ok(())
}

fn push_title(texts: &mut Texts, title: Option<&str>) -> Result<(), AllocError>
    requires { All (IsWithin (length texts.old.bytes.items)) texts.old.places.items }
    ensures within { OnOk result (All (IsWithin (length texts.new.bytes.items)) texts.new.places.items) }
    ensures said { OnOk result (texts_at texts.new.bytes.items texts.new.places.items
        ≡ texts_at texts.old.bytes.items texts.old.places.items ++ option_to_list (title_shown title.entry)) }
{
    match title {
        Some(title) => push_text(texts, title),
        None => Ok(()),
    }
}

// A list as C gets it.
fn laid_of(alloc: Global, list: &EventList<'_>) -> Result<Laid, AllocError>
    ensures within { IfOk result (λ laid. All (IsWithin (length laid.texts.bytes.items)) laid.texts.places.items) }
    ensures texts { IfOk result (λ laid. texts_at laid.texts.bytes.items laid.texts.places.items
        ≡ texts_of_list (title_shown list.now.title) list.now.head list.now.events) }
    ensures events { IfOk result (λ laid. laid.events.items
        ≡ events_made (length (texts_before (title_shown list.now.title) list.now.head)) list.now.events) }
{
    let mut laid = Laid {
        events: Vec::new(alloc),
        texts: Texts {
            places: Vec::new(alloc),
            bytes: Vec::new(alloc),
        },
    };
    push_title(&mut laid.texts, list.title)?;
    push_texts(&mut laid.texts, list.head.as_slice())?;
    push_events(&mut laid, list.events.as_slice())?;
    Ok(laid)
}

// A call that read nothing, for this fault.
fn refused_for(fault: u32, line: u32, label: u32) -> ListRead
    ensures { result ≡ refused_for fault line label }
{
    ListRead {
        fault,
        line,
        label,
        has_title: 0,
        head_notes: 0,
        events: 0,
        texts: 0,
        bytes: 0,
    }
}

fn fault_read(fault: ListFault) -> ListRead
    ensures { result ≡ fault_read fault }
{
    let label = match fault.label() {
        Some(label) => u32::from(label.number()),
        None => 0,
    };
    refused_for(u32::from(fault.code()), fault.line(), label)
}

// 1 for a title, 0 for none.
fn title_flag(title: Option<&str>) -> u32
    ensures { result ≡ number_of_flag (is_some (title_shown title.entry)) }
{
    match title {
        Some(_) => 1,
        None => 0,
    }
}

fn notes_in(notes: &Notes<'_>) -> usize
    ensures { result ≡ length notes.now }
{
    notes.as_slice().len()
}

// What a list has.
fn counts_of(laid: &Laid, has_title: u32, head_notes: usize) -> ListRead
    ensures { result ≡ counts_of laid.now has_title head_notes }
{
    ListRead {
        fault: DONE,
        line: 0,
        label: 0,
        has_title,
        head_notes,
        events: laid.events.len(),
        texts: laid.texts.places.len(),
        bytes: laid.texts.bytes.len(),
    }
}

// What a list has, and its events and texts.
#[derive(Drop)]
struct Found {
    read: ListRead,
    laid: Laid,
}

fn found_in(alloc: Global, list: &EventList<'_>) -> Result<Found, AllocError>
    ensures done { IfOk result (λ found. found.read.fault ≡ 0) }
    ensures found { IfOk result (λ found. (rate : Rate) (ignore : Bool) (text : List ℕ)
        → IsListOf rate ignore text (title_shown list.now.title) list.now.head list.now.events
        → IsRead rate ignore text found.read found.laid.events.items found.laid.texts.places.items
        found.laid.texts.bytes.items) }
{
    let laid = laid_of(alloc, list)?;
    let read = counts_of(&laid, title_flag(list.title), notes_in(&list.head));
    Ok(Found { read, laid })
}

// The list of a text, or why there is none.
fn find(alloc: Global, text: &[u8], rate: Rate, ignore: bool) -> Result<Found, ListFault>
    requires { length text.now < 2 ^ 32 }
    ensures done { IfOk result (λ found. found.read.fault ≡ 0) }
    ensures found { IfOk result (λ found. IsRead rate ignore text.now found.read found.laid.events.items
        found.laid.texts.places.items found.laid.texts.bytes.items) }
    ensures fault { IfErr result (λ fault. (fault ≡ ListFault.Unavailable)
        ⊎ (first_fault rate ignore text.now ≡ Some fault)) }
{
    let list = read_from_string(alloc, text, rate, ignore)?;
    Ok(found_in(alloc, &list)?)
}

fn is_too_small(read: &ListRead, events: usize, texts: usize, bytes: usize) -> bool
    ensures { IsTrue result ↔ IsTooSmall (record { events = events; texts = texts; bytes = bytes }) read.now }
{
    events < read.events || texts < read.texts || bytes < read.bytes
}

// Writes what was found, where there is room.
fn put_found(
    found: &Found,
    events: &mut [Event],
    places: &mut [Place],
    bytes: &mut [u8],
) -> ListRead
    requires done { found.now.read.fault ≡ 0 }
    requires events { found.now.read.events ≡ length found.now.laid.events.items }
    requires texts { found.now.read.texts ≡ length found.now.laid.texts.places.items }
    requires bytes { found.now.read.bytes ≡ length found.now.laid.texts.bytes.items }
    ensures done { result.fault ≡ 0 → result ≡ found.now.read }
    ensures small { result.fault ≢ 0 → (result ≡ record found.now.read { fault = no_room }) × IsTooSmall
        (record { events = length events.old; texts = length places.old; bytes = length bytes.old }) found.now.read }
    ensures kept { result.fault ≢ 0 → (events.new ≡ events.old) × (places.new ≡ places.old) × (bytes.new ≡ bytes.old) }
    ensures events { result.fault ≡ 0 → events.new ≡ found.now.laid.events.items
        ++ drop (length found.now.laid.events.items) events.old }
    ensures places { result.fault ≡ 0 → places.new ≡ found.now.laid.texts.places.items
        ++ drop (length found.now.laid.texts.places.items) places.old }
    ensures bytes { result.fault ≡ 0 → bytes.new ≡ found.now.laid.texts.bytes.items
        ++ drop (length found.now.laid.texts.bytes.items) bytes.old }
{
    if is_too_small(&found.read, events.len(), places.len(), bytes.len()) {
        return ListRead {
            fault: NO_ROOM,
            ..found.read
        };
    }
    put_all(found.laid.events.as_slice(), events);
    put_all(found.laid.texts.places.as_slice(), places);
    put_all(found.laid.texts.bytes.as_slice(), bytes);
    found.read
}

/// Reads an edit list. `fault` is 0, and the counts say how many events, places of texts and bytes of texts were
/// written; or 6 for a number that is no rate, 10 where the text has 2^32 bytes or more, 21 to 30 for the list's first
/// fault, with its line and its label's fault, 100 for want of memory, or 7 where an output is too small, and the
/// counts say what is wanted. With a fault nothing was written.
#[unsafe(no_mangle)]
pub extern "C" fn temolunai_list_read(
    alloc: Global,
    text: &[u8],
    rate: u32,
    ignore_timecode_mismatch: bool,
    events: &mut [Event],
    places: &mut [Place],
    bytes: &mut [u8],
) -> ListRead
    ensures read { result.fault ≡ 0 → IsReadAt (rate_numbered rate) ignore_timecode_mismatch text.now result
        (take result.events events.new) (take result.texts places.new) (take result.bytes bytes.new) }
    ensures behind { result.fault ≡ 0 → (drop result.events events.new ≡ drop result.events events.old)
        × (drop result.texts places.new ≡ drop result.texts places.old)
        × (drop result.bytes bytes.new ≡ drop result.bytes bytes.old) }
    ensures refused { result.fault ≢ 0 → IsRefusedAt (rate_numbered rate) ignore_timecode_mismatch text.now
        (record { events = length events.old; texts = length places.old; bytes = length bytes.old }) result }
    ensures kept { result.fault ≢ 0 → (events.new ≡ events.old) × (places.new ≡ places.old) × (bytes.new ≡ bytes.old) }
{
    let Some(rate) = rate_numbered(rate) else {
        return refused_for(NO_SUCH_RATE, 0, 0);
    };
    if text.len() as u64 > u64::from(u32::MAX) {
        return refused_for(TOO_LONG, 0, 0);
    }
    match find(alloc, text, rate, ignore_timecode_mismatch) {
        Err(fault) => fault_read(fault),
        Ok(found) => put_found(&found, events, places, bytes),
    }
}
