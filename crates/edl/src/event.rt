// The line of an event.
ghost use Rattle.std.specs.Prelude.{◌≡◌, ◌≤◌, ◌<◌, Ok, Err, Some, None, MatchResult, length, IfOk, option_map};
ghost use Rattle.timecode.specs.Counting.{day_length};
ghost use Rattle.timecode.specs.Decimal.{decimal_number};
ghost use Rattle.edl.specs.Line.{event_number, is_mix, is_key, edit_of, label_frame, places_between, places_of};
ghost use Rattle.edl.specs.Line.{event_of, event_of_fields};
ghost use Rattle.edl.specs.InDay.{AreInDay};
ghost use Rattle.edl.specs.Texts.{texts_of};
ghost use Rattle.edl.specs.Shown.{edit_shown, event_shown};

use crate::list::MAX_EVENT_NUMBER;
use crate::text::fields_of;
use channel_plan::LineFault;
use timecode::{Rate, day_frames, decimal_number, from_timecode};

/// Where an event comes from and where it goes, in frames of the day.
#[derive(Clone, Copy)]
pub struct Places {
    pub source_first: u32,
    pub source_end: u32,
    pub record_first: u32,
    pub record_length: u32,
}

/// The word that says the kind of an edit, and how long a dissolve or a wipe takes, in frames.
#[derive(Clone, Copy)]
pub struct ReadEdit<'a> {
    pub kind: &'a str,
    pub duration: Option<u16>,
}

/// An event, as its line says it.
#[derive(Clone, Copy)]
pub struct ReadEvent<'a> {
    pub number: u16,
    pub reel: &'a str,
    pub channels: &'a str,
    pub edit: ReadEdit<'a>,
    pub places: Places,
}

fn event_number(text: &str) -> Option<u16>
    ensures { result ≡ event_number text.now }
{
    let number = decimal_number(text.as_bytes(), 6)?;
    if number > u64::from(MAX_EVENT_NUMBER) {
        return None;
    }
    Some(number as u16)
}

fn is_mix(kind: &str) -> bool
    ensures { result ≡ is_mix kind.now }
{
    match kind.as_bytes() {
        b"D" => true,
        [b'W', number @ ..] => decimal_number(number, 3).is_some(),
        _ => false,
    }
}

fn is_key(kind: &str) -> bool
    ensures { result ≡ is_key kind.now }
{
    kind.as_bytes().first() == Some(&b'K')
}

fn duration_of(word: &str) -> Option<u16>
    ensures { result ≡ decimal_number 3 word.now }
{
    decimal_number(word.as_bytes(), 3).map(|frames| frames as u16)
}

/// The kind that one to three words say.
#[tactic(auto, unfolding(crate::specs::Line::edit_of))]
fn edit_of<'a>(words: &[&'a str]) -> Option<ReadEdit<'a>>
    ensures { option_map edit_shown result ≡ edit_of (texts_of words.now) }
{
    match *words {
        [kind] if kind == "C" || is_key(kind) => Some(ReadEdit {
            kind,
            duration: None,
        }),
        [kind, _] | [kind, _, _] if is_key(kind) => Some(ReadEdit {
            kind,
            duration: None,
        }),
        [kind, word] if is_mix(kind) => Some(ReadEdit {
            kind,
            duration: Some(duration_of(word)?),
        }),
        _ => None,
    }
}

fn label_frame(text: &str, rate: Rate) -> Result<u32, LineFault>
    ensures value { result ≡ label_frame rate text.now }
    ensures in_day { MatchResult result (λ frame. frame < day_length rate) (λ _. Unit {0}) }
{
    from_timecode(text.as_bytes(), rate).map_err(LineFault::BadLabel)
}

fn places_between(rate: Rate, source: (u32, u32), recorded: (u32, u32)) -> Result<Places, LineFault>
    requires source { (source.0 < day_length rate) × (source.1 < day_length rate) }
    requires recorded { (recorded.0 < day_length rate) × (recorded.1 < day_length rate) }
    ensures value { result ≡ places_between rate source.0 source.1 recorded.0 recorded.1 }
    ensures in_day { IfOk result (AreInDay rate) }
{
    let day = day_frames(rate);
    if source.1 < source.0 && source.1 != 0 {
        return Err(LineFault::SourceBackwards);
    }
    let source_end = if source.1 == 0 && source.0 > 0 {
        day
    } else {
        source.1
    };
    Ok(Places {
        source_first: source.0,
        source_end,
        record_first: recorded.0,
        record_length: (recorded.1 + day - recorded.0) % day,
    })
}

#[tactic(auto, unfolding(crate::specs::Line::places_of))]
fn places_of(
    rate: Rate,
    source_in: &str,
    source_out: &str,
    record_in: &str,
    record_out: &str,
) -> Result<Places, LineFault>
    ensures value { result ≡ places_of rate source_in.now source_out.now record_in.now record_out.now }
    ensures in_day { IfOk result (AreInDay rate) }
{
    let source_in = label_frame(source_in, rate)?;
    let source_out = label_frame(source_out, rate)?;
    let record_in = label_frame(record_in, rate)?;
    let record_out = label_frame(record_out, rate)?;
    places_between(rate, (source_in, source_out), (record_in, record_out))
}

/// The event of a line that begins with a digit, or the line's first fault.
pub(crate) fn event_of<'a>(line: &'a str, rate: Rate) -> Result<ReadEvent<'a>, LineFault>
    ensures value { MatchResult result (λ event. event_of rate line.now ≡ Ok (event_shown event))
        (λ fault. event_of rate line.now ≡ Err fault) }
    ensures in_day { IfOk result (λ event. AreInDay rate event.places) }
{
    let Some(fields) = fields_of(line) else {
        return Err(LineFault::FieldCount);
    };
    event_of_fields(&fields.items[..fields.count], rate)
}

#[tactic(auto, using(crate::proofs::FieldLemmas::fields_read), unfolding(crate::specs::Line::event_of_fields))]
fn event_of_fields<'a>(fields: &[&'a str], rate: Rate) -> Result<ReadEvent<'a>, LineFault>
    requires { length fields.now ≤ 10 }
    ensures value { MatchResult result (λ event. event_of_fields rate (texts_of fields.now) ≡ Ok (event_shown event))
        (λ fault. event_of_fields rate (texts_of fields.now) ≡ Err fault) }
    ensures in_day { IfOk result (λ event. AreInDay rate event.places) }
{
    let [
        number,
        reel,
        channels,
        _,
        ..,
        source_in,
        source_out,
        record_in,
        record_out,
    ] = *fields
    else {
        return Err(LineFault::FieldCount);
    };
    let Some(number) = event_number(number) else {
        return Err(LineFault::EventNumber);
    };
    let Some(edit) = edit_of(&fields[3..fields.len() - 4]) else {
        return Err(LineFault::EditKind);
    };
    match places_of(rate, source_in, source_out, record_in, record_out) {
        Ok(places) => Ok(ReadEvent {
            number,
            reel,
            channels,
            edit,
            places,
        }),
        Err(fault) => Err(fault),
    }
}
