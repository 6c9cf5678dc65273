// Edit lists that are written.
ghost use Rattle.std.specs.Prelude.{◌≡◌, ◌≢◌, ◌+◌, ◌≤◌, ◌<◌, ◌⊎◌, ◌↔◌, ◌^◌, IsTrue, IsUtf8, IfOk, IfErr, MatchOption};
ghost use Rattle.std.specs.Prelude.{MatchResult};
ghost use Rattle.std.specs.Prelude.{◌++◌, All, map, take, drop, length, string_bytes};
ghost use Rattle.edl.specs.Texts.{texts_of};
ghost use Rattle.edl.specs.Written.{list_text};
ghost use Rattle.edl.specs.WrittenShown.{HasText, out_shown, outs_of};
ghost use Rattle.temolunai.specs.Numbers.{rate_numbered, no_room};
ghost use Rattle.temolunai.specs.declared.writing.NotWritten.TheVariants.{Unavailable};
ghost use Rattle.temolunai.specs.Texts.{text_at, texts_at, IsWithin};
ghost use Rattle.temolunai.specs.Writing.{duration_said, text_said, out_said, CanBeWritten, IsText, IsWrittenAt};
ghost use Rattle.temolunai.specs.Writing.{IsFirstUnwritable};
ghost use Rattle.temolunai.specs.Writing.{answered, IsUnwrittenAt, AreWritable, list_written, HasEventFault, HasWhy};
ghost use Rattle.temolunai.specs.Writing.{answered_why};

use crate::lists::Event;
use crate::numbers::{
    DONE, NO_DURATION, NO_ROOM, NO_SUCH_RATE, NO_TEXT, NOT_WRITABLE, UNAVAILABLE, rate_numbered,
};
use crate::rooms::put_all;
use crate::texts::Place;
use edl::{MAX_EVENT_NUMBER, Notes, OutEvent, write_to_string};
use std::alloc::{AllocError, AllocFailed, Global};
use timecode::{Rate, day_frames};

/// What became of a list to be written: `fault` 0 and how many bytes were written, or the number of the fault.
#[repr(C)]
#[derive(Clone, Copy)]
pub struct Written {
    pub fault: u32,
    /// Which event can't be written, counted from 0.
    pub event: usize,
    /// How many bytes were written, or are wanted where there is no room.
    pub bytes: usize,
}

// The text at a place.
fn text_at<'a>(bytes: &'a [u8], place: &Place) -> Option<&'a str>
    ensures { MatchOption result (¬ (IsText bytes.now place.now))
        (λ text. IsText bytes.now place.now × (text.now ≡ text_at bytes.now place.now)) }
{
    if place.at > bytes.len() || place.length > bytes.len() - place.at {
        return None;
    }
    str::from_utf8(&bytes[place.at..][..place.length]).ok()
}

// The texts at places, if each has one.
fn texts_at<'a>(
    alloc: Global,
    bytes: &'a [u8],
    places: &[Place],
) -> Result<Option<Vec<&'a str>>, AllocError>
    ensures { IfOk result (λ found. MatchOption found (¬ (All (IsText bytes.now) places.now))
        (λ texts. All (IsText bytes.now) places.now × (texts_of texts.items ≡ texts_at bytes.now places.now))) }
{
    let mut texts = Vec::new(alloc);
    for place in places {
        let Some(text) = text_at(bytes, place) else {
            return Ok(None);
        };
        texts.push(text)?;
    }
    Ok(Some(texts))
}

// Whether an event can be written, with so many texts.
fn can_be_written(event: &Event, rate: Rate, count: usize) -> bool
    ensures { IsTrue result ↔ CanBeWritten rate count event.now }
{
    let day = day_frames(rate);
    event.number <= u32::from(MAX_EVENT_NUMBER)
        && (event.duration <= 999 || event.duration == NO_DURATION)
        && event.source_first <= day
        && event.source_end <= day
        && event.record_first < day
        && event.length < day
        && count >= 3
        && event.first_text <= count - 3
        && event.notes <= count - 3 - event.first_text
}

fn duration_said(number: u32) -> Option<u16>
    requires { (number ≤ 999) ⊎ (number ≡ 4294967295) }
    ensures { result ≡ duration_said number }
{
    if number == NO_DURATION {
        return None;
    }
    Some(number as u16)
}

// Text n.
fn text_said<'a>(texts: &[&'a str], n: usize) -> &'a str
    requires { n < length texts.now }
    ensures { result.now ≡ text_said (texts_of texts.now) n }
{
    texts[n]
}

// So many notes, from text n on.
#[tactic(auto, using(crate::proofs::TextLemmas::shown_part))]
fn notes_said<'a>(
    alloc: Global,
    texts: &[&'a str],
    n: usize,
    count: usize,
) -> Result<Notes<'a>, AllocError>
    requires { n + count ≤ length texts.now }
    ensures { IfOk result (λ notes. notes ≡ take count (drop n (texts_of texts.now))) }
{
    Ok(Notes::of(Vec::from_slice(alloc, &texts[n..][..count])?))
}

// The event to be written.
fn out_of<'a>(
    alloc: Global,
    event: &Event,
    rate: Rate,
    texts: &[&'a str],
) -> Result<OutEvent<'a>, AllocError>
    requires { CanBeWritten rate (length texts.now) event.now }
    ensures said { IfOk result (λ out. out_shown out ≡ out_said (texts_of texts.now) event.now) }
    ensures has_text { IfOk result (HasText rate) }
{
    let first = event.first_text;
    let notes = notes_said(alloc, texts, first + 3, event.notes)?;
    Ok(OutEvent {
        number: event.number as u16,
        reel: text_said(texts, first),
        channels: text_said(texts, first + 1),
        kind: text_said(texts, first + 2),
        duration: duration_said(event.duration),
        source_first: event.source_first,
        source_end: event.source_end,
        record_first: event.record_first,
        length: event.length,
        notes,
    })
}

/// Why a list can't be written.
#[derive(Clone, Copy)]
enum NotWritten {
    NoText,
    /// The first event that can't be, counted from 0.
    Event(usize),
    Unavailable,
}

impl From<AllocError> for NotWritten {
    ghost from_gives = { λ _ e. e ≡ Unavailable };

    fn from(_error: AllocError) -> NotWritten {
        NotWritten::Unavailable
    }
}

impl<T: Drop> From<AllocFailed<T>> for NotWritten {
    ghost from_gives = { λ _ e. e ≡ Unavailable };

    fn from(_error: AllocFailed<T>) -> NotWritten {
        NotWritten::Unavailable
    }
}

// The events to be written.
fn outs_of<'a>(
    alloc: Global,
    events: &[Event],
    rate: Rate,
    texts: &[&'a str],
) -> Result<Vec<OutEvent<'a>>, NotWritten>
    ensures said { IfOk result (λ outs. outs_of outs.items ≡ map (out_said (texts_of texts.now)) events.now) }
    ensures has_text { IfOk result (λ outs. All (HasText rate) outs.items) }
    ensures can { IfOk result (λ _. All (CanBeWritten rate (length texts.now)) events.now) }
    ensures can_not { IfErr result (HasEventFault rate (length texts.now) events.now) }
{
    let mut outs = Vec::new(alloc);
    for at in 0..events.len() {
        let event = &events[at];
        if !can_be_written(event, rate, texts.len()) {
            return Err(NotWritten::Event(at));
        }
        outs.push(out_of(alloc, event, rate, texts)?)?;
    }
    Ok(outs)
}

// The text of a list, whose title and texts were read.
fn text_of(
    alloc: Global,
    title: &str,
    rate: Rate,
    events: &[Event],
    texts: &[&str],
) -> Result<String, NotWritten>
    ensures text { IfOk result (λ text. string_bytes text
        ≡ list_text title.now rate (map (out_said (texts_of texts.now)) events.now)) }
    ensures can { IfOk result (λ _. All (CanBeWritten rate (length texts.now)) events.now) }
    ensures can_not { IfErr result (HasEventFault rate (length texts.now) events.now) }
{
    let outs = outs_of(alloc, events, rate, texts)?;
    match write_to_string(alloc, title, rate, outs.as_slice()) {
        Ok(text) => Ok(text),
        Err(_) => Err(NotWritten::Unavailable),
    }
}

// The text of a list.
fn list_written(
    alloc: Global,
    title: &[u8],
    rate: Rate,
    events: &[Event],
    places: &[Place],
    bytes: &[u8],
) -> Result<String, NotWritten>
    ensures written { IfOk result (λ text. AreWritable title.now rate events.now places.now bytes.now
        × (string_bytes text ≡ list_written title.now rate events.now places.now bytes.now)) }
    ensures why { IfErr result (HasWhy title.now rate events.now places.now bytes.now) }
{
    let Ok(title) = str::from_utf8(title) else {
        return Err(NotWritten::NoText);
    };
    let Some(texts) = texts_at(alloc, bytes, places)? else {
        return Err(NotWritten::NoText);
    };
    text_of(alloc, title, rate, events, texts.as_slice())
}

fn answered(fault: u32, event: usize, bytes: usize) -> Written
    ensures { result ≡ answered fault event bytes }
{
    Written {
        fault,
        event,
        bytes,
    }
}

// Writes a text, where there is room.
fn put_text(text: &str, out: &mut [u8]) -> Written
    ensures fits { result.fault ≡ 0 → (result.bytes ≡ length text.now)
        × (out.new ≡ text.now ++ drop (length text.now) out.old) }
    ensures small { result.fault ≢ 0 → (length out.old < length text.now) × (out.new ≡ out.old)
        × (result ≡ answered no_room 0 (length text.now)) }
{
    if out.len() < text.len() {
        return answered(NO_ROOM, 0, text.len());
    }
    put_all(text.as_bytes(), out);
    answered(DONE, 0, text.len())
}

fn why_not(why: NotWritten) -> Written
    ensures { result ≡ answered_why why }
{
    match why {
        NotWritten::NoText => answered(NO_TEXT, 0, 0),
        NotWritten::Event(event) => answered(NOT_WRITABLE, event, 0),
        NotWritten::Unavailable => answered(UNAVAILABLE, 0, 0),
    }
}

/// Writes an edit list. `fault` is 0, and `bytes` says how many were written; or 6 for a number that is no rate, 32
/// where the title isn't UTF-8 or a place has no text, 31 where an event can't be written, which `event` counts from
/// 0, 100 for want of memory, or 7 where the output is too small, and `bytes` says how many are wanted. With a fault
/// nothing was written.
#[unsafe(no_mangle)]
pub extern "C" fn temolunai_list_write(
    alloc: Global,
    title: &[u8],
    rate: u32,
    events: &[Event],
    places: &[Place],
    bytes: &[u8],
    out: &mut [u8],
) -> Written
    ensures written { result.fault ≡ 0 → IsWrittenAt title.now (rate_numbered rate) events.now places.now bytes.now
        (take result.bytes out.new) }
    ensures behind { result.fault ≡ 0 → drop result.bytes out.new ≡ drop result.bytes out.old }
    ensures refused { result.fault ≢ 0 → IsUnwrittenAt title.now (rate_numbered rate) events.now places.now bytes.now
        (length out.old) result }
    ensures kept { result.fault ≢ 0 → out.new ≡ out.old }
{
    let Some(rate) = rate_numbered(rate) else {
        return answered(NO_SUCH_RATE, 0, 0);
    };
    match list_written(alloc, title, rate, events, places, bytes) {
        Ok(text) => put_text(text.as_str(), out),
        Err(why) => why_not(why),
    }
}
