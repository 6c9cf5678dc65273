// Writing a list.
ghost use Rattle.std.specs.Prelude.{◌≡◌, ◌+◌, ◌-◌, ◌%◌, ◌≤◌, ◌<◌, ◌++◌, ◌∷◌, [], OnOk, IfOk, IfSome, replicate, All};
ghost use Rattle.std.specs.Prelude.{IsUtf8};
ghost use Rattle.std.specs.String.{string_bytes};
ghost use Rattle.std.specs.List.{flat_map};
ghost use Rattle.timecode.specs.Counting.{day_length};
ghost use Rattle.edl.specs.Limits.{highest_event_number};
ghost use Rattle.edl.specs.Written.{three_digits, number_text, padded, duration_text, place_text, edit_text};
ghost use Rattle.edl.specs.Written.{places_text, line_of, event_text, head_text, list_text};
ghost use Rattle.edl.specs.Texts.{texts_of};
ghost use Rattle.edl.specs.WrittenShown.{HasText, out_shown, outs_of};

use crate::list::Notes;
use std::alloc::{AllocError, Global};
use timecode::{Rate, Unavailable, day_frames, to_timecode};

/// An event to be written. [`OutEvent::can_be_written`] tests what is said here of its numbers, and
/// [`write_to_string`] requires it.
#[derive(Drop)]
pub struct OutEvent<'a> {
    /// At most [`MAX_EVENT_NUMBER`](crate::MAX_EVENT_NUMBER).
    pub number: u16,
    pub reel: &'a str,
    pub channels: &'a str,
    pub kind: &'a str,
    /// At most 999 frames.
    pub duration: Option<u16>,
    /// The first frame of the source, as a frame of the day: at most the day's frames.
    pub source_first: u32,
    /// The end of the source, exclusive: at most the day's frames.
    pub source_end: u32,
    /// The first frame of the record, as a frame of the day: below the day's frames.
    pub record_first: u32,
    /// The frames of the record, fewer than the day's.
    pub length: u32,
    pub notes: Notes<'a>,
}

fn push_blanks(out: &mut String, count: usize) -> Result<(), AllocError>
    ensures { OnOk result (string_bytes out.new ≡ string_bytes out.old ++ replicate count 32) }
{
    for _written in 0..count {
        out.push_str(" ")?;
    }
    Ok(())
}

/// Writes the text at the left of so many places.
fn push_padded(out: &mut String, text: &str, width: usize) -> Result<(), AllocError>
    ensures { OnOk result (string_bytes out.new ≡ string_bytes out.old ++ padded width text.now) }
{
    out.push_str(text)?;
    push_blanks(out, width.saturating_sub(text.len()))
}

fn push_digit(out: &mut String, digit: u16) -> Result<(), AllocError>
    requires { digit < 10 }
    ensures { OnOk result (string_bytes out.new ≡ string_bytes out.old ++ (48 + digit) ∷ []) }
{
    out.push(char::from(b'0' + digit as u8))
}

#[tactic(auto, unfolding(crate::specs::Written::three_digits))]
fn push_three_digits(out: &mut String, number: u16) -> Result<(), AllocError>
    requires { number ≤ 999 }
    ensures { OnOk result (string_bytes out.new ≡ string_bytes out.old ++ three_digits number) }
{
    push_digit(out, number / 100)?;
    push_digit(out, number / 10 % 10)?;
    push_digit(out, number % 10)
}

/// Writes an event's number in its five places: three digits, or four from 1000 on, and blanks.
#[tactic(auto, using(crate::proofs::NumberLemmas::number_written))]
fn push_number(out: &mut String, number: u16) -> Result<(), AllocError>
    requires { number ≤ highest_event_number }
    ensures { OnOk result (string_bytes out.new ≡ string_bytes out.old ++ number_text number) }
{
    if number < 1000 {
        push_three_digits(out, number)?;
        push_blanks(out, 2)
    } else {
        push_digit(out, number / 1000)?;
        push_three_digits(out, number % 1000)?;
        push_blanks(out, 1)
    }
}

fn push_duration(out: &mut String, duration: Option<u16>) -> Result<(), AllocError>
    requires { IfSome duration (λ frames. frames ≤ 999) }
    ensures { OnOk result (string_bytes out.new ≡ string_bytes out.old ++ duration_text duration) }
{
    match duration {
        Some(frames) => push_three_digits(out, frames),
        None => out.push_str("   "),
    }
}

/// The label of a place, of which the day's end is written as its start.
#[tactic(auto, unfolding(crate::specs::Written::place_text))]
fn place_label(rate: Rate, place: u32) -> [u8; 11]
    requires { place ≤ day_length rate }
    ensures text { result ≡ place_text rate place }
    ensures utf8 { IsUtf8 result }
{
    let frame = if place == day_frames(rate) { 0 } else { place };
    to_timecode(frame, rate).unwrap().bytes()
}

/// Writes a blank and the label of a place.
fn push_place(out: &mut String, rate: Rate, place: u32) -> Result<(), AllocError>
    requires { place ≤ day_length rate }
    ensures { OnOk result (string_bytes out.new ≡ string_bytes out.old ++ 32 ∷ place_text rate place) }
{
    let label = place_label(rate, place);
    out.push_str(" ")?;
    push_text(out, &label)
}

/// Writes bytes that are text.
fn push_text(out: &mut String, text: &[u8]) -> Result<(), AllocError>
    requires { IsUtf8 text.now }
    ensures { OnOk result (string_bytes out.new ≡ string_bytes out.old ++ text.now) }
{
    out.push_str(str::from_utf8(text).unwrap())
}

/// Writes a line and its end.
fn push_line(out: &mut String, line: &str) -> Result<(), AllocError>
    ensures { OnOk result (string_bytes out.new ≡ string_bytes out.old ++ line_of line.now) }
{
    out.push_str(line)?;
    out.push_str("\n")
}

#[tactic(auto, using(crate::proofs::WriteLemmas::written), unfolding(crate::specs::Written::edit_text))]
fn push_edit(out: &mut String, event: &OutEvent<'_>) -> Result<(), AllocError>
    requires number { event.now.number ≤ highest_event_number }
    requires duration { IfSome event.now.duration (λ frames. frames ≤ 999) }
    ensures { OnOk result (string_bytes out.new ≡ string_bytes out.old ++ edit_text (out_shown event.now)) }
{
    push_number(out, event.number)?;
    push_padded(out, event.reel, 8)?;
    out.push_str(" ")?;
    push_padded(out, event.channels, 5)?;
    out.push_str(" ")?;
    push_padded(out, event.kind, 4)?;
    out.push_str(" ")?;
    push_duration(out, event.duration)
}

#[tactic(auto, using(crate::proofs::WriteLemmas::written), unfolding(crate::specs::Written::places_text))]
fn push_places(out: &mut String, rate: Rate, event: &OutEvent<'_>) -> Result<(), AllocError>
    requires { HasText rate event.now }
    ensures { OnOk result (string_bytes out.new ≡ string_bytes out.old ++ places_text rate (out_shown event.now)) }
{
    let record_end = (event.record_first + event.length) % day_frames(rate);
    push_place(out, rate, event.source_first)?;
    push_place(out, rate, event.source_end)?;
    push_place(out, rate, event.record_first)?;
    push_place(out, rate, record_end)
}

fn push_notes(out: &mut String, notes: &[&str]) -> Result<(), AllocError>
    ensures { OnOk result (string_bytes out.new ≡ string_bytes out.old ++ flat_map line_of (texts_of notes.now)) }
{
    for note in notes {
        push_line(out, note)?;
    }
    Ok(())
}

#[tactic(auto, using(crate::proofs::WriteLemmas::written), unfolding(crate::specs::Written::event_text))]
fn push_event(out: &mut String, rate: Rate, event: &OutEvent<'_>) -> Result<(), AllocError>
    requires { HasText rate event.now }
    ensures { OnOk result (string_bytes out.new ≡ string_bytes out.old ++ event_text rate (out_shown event.now)) }
{
    push_edit(out, event)?;
    push_places(out, rate, event)?;
    out.push_str("\n")?;
    push_notes(out, event.notes.as_slice())
}

#[tactic(auto, using(crate::proofs::WriteLemmas::written))]
fn push_head(out: &mut String, title: &str, rate: Rate) -> Result<(), AllocError>
    ensures { OnOk result (string_bytes out.new ≡ string_bytes out.old ++ head_text title.now rate) }
{
    out.push_str("TITLE: ")?;
    push_line(out, title)?;
    push_line(
        out,
        match rate {
            Rate::Df30 => "FCM: DROP FRAME",
            Rate::F24 | Rate::F25 | Rate::F30 => "FCM: NON-DROP FRAME",
        },
    )?;
    push_line(out, "")
}

#[tactic(auto, unfolding(crate::specs::Written::list_text))]
/// Writes an event list: the title, the frame mode of the rate, an empty line, and each event with its notes.
///
/// For the list to be read back, the title and the notes are ASCII without blanks at their ends, each note begins with
/// `*`, reels and channels are words of 1 to 8 and 1 to 5 ASCII bytes, the duration fits the kind, and at most
/// [`MAX_EVENTS`](crate::MAX_EVENTS) events have a frame. [`can_be_written`](crate::can_be_written) tests what is
/// required here.
pub fn write_to_string(
    alloc: Global,
    title: &str,
    rate: Rate,
    events: &[OutEvent<'_>],
) -> Result<String, Unavailable>
    requires { All (HasText rate) events.now }
    ensures { IfOk result (λ text. string_bytes text ≡ list_text title.now rate (outs_of events.now)) }
{
    let mut out = String::new(alloc);
    push_head(&mut out, title, rate)?;
    push_events(&mut out, rate, events)?;
    Ok(out)
}

fn push_events(out: &mut String, rate: Rate, events: &[OutEvent<'_>]) -> Result<(), AllocError>
    requires { All (HasText rate) events.now }
    ensures { OnOk result (string_bytes out.new ≡ string_bytes out.old ++ flat_map (event_text rate)
        (outs_of events.now)) }
{
    for event in events {
        push_event(out, rate, event)?;
    }
    Ok(())
}
