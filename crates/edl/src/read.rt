// Reading a list.
ghost use Rattle.std.specs.Prelude.{All, ◌≡◌, ◌+◌, ◌≤◌, ◌<◌, ◌^◌, ◌++◌, ◌∷◌, [], ◌⊎◌, IfOk, IfErr, IfSome, OnOk};
ghost use Rattle.std.specs.Prelude.{Some, None, option_map, length, if◌then◌else◌};
ghost use Rattle.std.specs.Option.{option_or, option_to_list};
ghost use Rattle.edl.specs.Limits.{most_events};
ghost use Rattle.edl.specs.Texts.{texts_of};
ghost use Rattle.edl.specs.Text.{after_mark, line_text, line_texts};
ghost use Rattle.edl.specs.Shown.{event_shown};
ghost use Rattle.edl.specs.Meaning.{meaning_of};
ghost use Rattle.edl.specs.EntryShown.{entries_of, entry_shown, title_shown};
ghost use Rattle.edl.specs.Notes.{note_in, notes_until_event, is_speed_note, has_speed_note, source_duration};
ghost use Rattle.edl.specs.Notes.{is_mismatched, is_zero, entry_of};
ghost use Rattle.edl.specs.Faults.{counts, event_fault, fault_at, fault_in, first_fault, first_fault_from};
ghost use Rattle.edl.specs.InDay.{IsEntryInDay};
ghost use Rattle.edl.specs.ListOf.{IsListOf, entry_in, events_from, last_title, title_in};
ghost use Rattle.edl.specs.InOrder.{IsInOrder, texts_of_events};
ghost use Rattle.edl.specs.Places.{AreLinesBehind, StandsOnItsLine};

use crate::event::ReadEvent;
use crate::list::{Event, EventList, Events, MAX_EVENTS, Notes};
use crate::meaning::{Meaning, meaning_of};
use crate::text::{after_mark, begins_event, line_text, split_line};
use channel_plan::{LineFault, ListFault};
use std::alloc::{AllocError, Global};
use timecode::Rate;

/// The text of a line that is a note.
fn note_of<'a>(line: &'a [u8], rate: Rate) -> Option<&'a str>
    ensures { title_shown result ≡ note_in (meaning_of rate line.now) }
{
    match meaning_of(line, rate) {
        Ok(Meaning::Note(text)) => Some(text),
        _ => None,
    }
}

/// The notes on the lines up to the next one of an event. A line with a fault is none, and those behind it are.
fn notes_until_event<'a>(
    alloc: Global,
    text: &'a [u8],
    rate: Rate,
) -> Result<Vec<&'a str>, AllocError>
    ensures { IfOk result (λ notes. texts_of notes.items ≡ notes_until_event rate (line_texts text.now)) }
{
    let mut notes = Vec::new(alloc);
    let mut rest = text;
    while !rest.is_empty() {
        let (line, after) = split_line(rest);
        let line = line_text(line);
        if begins_event(line) {
            return Ok(notes);
        }
        if let Some(note) = note_of(line, rate) {
            notes.push(note)?;
        }
        rest = after;
    }
    Ok(notes)
}

/// What the caller asks of the lines.
#[derive(Clone, Copy)]
struct Rules {
    rate: Rate,
    ignore_mismatch: bool,
}

/// What was found on the lines before.
#[derive(Drop)]
struct Progress<'a> {
    line: u32,
    title: Option<&'a str>,
    events: Vec<Event<'a>>,
    /// The events that aren't empty.
    counted: u16,
}

fn is_speed_note(note: &str) -> bool
    ensures { result ≡ is_speed_note note.now }
{
    let bytes = note.as_bytes();
    note == "M2" || bytes.starts_with(b"M2 ") || bytes.starts_with(b"M2\t")
}

fn has_speed_note(notes: &[&str]) -> bool
    ensures { result ≡ has_speed_note (texts_of notes.now) }
{
    for note in notes {
        if is_speed_note(note) {
            return true;
        }
    }
    false
}

impl<'a> ReadEvent<'a> {
    fn source_duration(&self) -> u32
        requires { self.now.places.source_first ≤ self.now.places.source_end }
        ensures { result ≡ source_duration (event_shown self.now) }
    {
        self.places.source_end - self.places.source_first
    }

    fn is_mismatched(&self) -> bool
        requires { self.now.places.source_first ≤ self.now.places.source_end }
        ensures { result ≡ is_mismatched (event_shown self.now) }
    {
        self.source_duration() != self.places.record_length
    }

    fn is_zero(&self) -> bool
        requires { self.now.places.source_first ≤ self.now.places.source_end }
        ensures { result ≡ is_zero (event_shown self.now) }
    {
        self.source_duration() == 0 && self.places.record_length == 0
    }

    /// The event with its line and its notes.
    fn entry(&self, line: u32, notes: Notes<'a>) -> Event<'a>
        requires { self.now.places.source_first ≤ self.now.places.source_end }
        ensures { entry_shown result ≡ entry_of line (event_shown self.now) notes.entry }
    {
        let speed = self.is_mismatched() && has_speed_note(notes.as_slice());
        let length = if speed {
            self.places.record_length
        } else {
            self.source_duration()
        };
        Event {
            line,
            number: self.number,
            reel: self.reel,
            channels: self.channels,
            kind: self.edit.kind,
            duration: self.edit.duration,
            source_first: self.places.source_first,
            source_end: self.places.source_end,
            record_first: self.places.record_first,
            length,
            speed,
            notes,
        }
    }
}

impl Rules {
    /// The fault of an event with these notes, behind so many others that count.
    fn event_fault(self, event: &ReadEvent<'_>, notes: &[&str], counted: u16) -> Option<LineFault>
        requires { event.now.places.source_first ≤ event.now.places.source_end }
        ensures { result ≡ event_fault self.ignore_mismatch counted (event_shown event.now) (texts_of notes.now) }
    {
        if event.is_mismatched() && !has_speed_note(notes) && !self.ignore_mismatch {
            return Some(LineFault::DurationMismatch);
        }
        if !event.is_zero() && counted >= MAX_EVENTS {
            return Some(LineFault::TooManyEvents);
        }
        None
    }
}

impl<'a> Progress<'a> {
    /// Takes the event of the line, with the lines that follow it.
    fn take_event(
        &mut self,
        alloc: Global,
        rules: Rules,
        event: &ReadEvent<'a>,
        after: &'a [u8],
    ) -> Result<(), ListFault>
        requires source { event.now.places.source_first ≤ event.now.places.source_end }
        requires few { self.old.counted ≤ most_events }
        ensures few { self.new.counted ≤ most_events }
        ensures same { (self.new.line ≡ self.old.line) × (self.new.title ≡ self.old.title) }
        ensures no_fault { OnOk result (event_fault rules.ignore_mismatch self.old.counted (event_shown event.now)
            (notes_until_event rules.rate (line_texts after.now)) ≡ None) }
        ensures counted { OnOk result (self.new.counted
            ≡ self.old.counted + (if is_zero (event_shown event.now) then 0 else 1)) }
        ensures added { OnOk result (entries_of self.new.events.items ≡ entries_of self.old.events.items
            ++ entry_of self.old.line (event_shown event.now)
            (notes_until_event rules.rate (line_texts after.now)) ∷ []) }
        ensures err { IfErr result (λ fault. (fault ≡ ListFault.Unavailable) ⊎ (option_map (fault_at self.old.line)
            (event_fault rules.ignore_mismatch self.old.counted (event_shown event.now)
            (notes_until_event rules.rate (line_texts after.now))) ≡ Some fault)) }
    {
        let notes = Notes::of(notes_until_event(alloc, after, rules.rate)?);
        if let Some(fault) = rules.event_fault(event, notes.as_slice(), self.counted) {
            return Err(ListFault::InLine(self.line, fault));
        }
        if !event.is_zero() {
            self.counted += 1;
        }
        self.events.push(event.entry(self.line, notes))?;
        Ok(())
    }

    /// Takes the next line, which the others follow.
    fn take_line(
        &mut self,
        alloc: Global,
        rules: Rules,
        line: &'a [u8],
        after: &'a [u8],
    ) -> Result<(), ListFault>
        requires few { self.old.counted ≤ most_events }
        requires number { self.old.line + 1 < 2 ^ 32 }
        ensures few { self.new.counted ≤ most_events }
        ensures number { self.new.line ≡ self.old.line + 1 }
        ensures in_day { OnOk result (All (IsEntryInDay rules.rate) (entries_of self.old.events.items)
            → All (IsEntryInDay rules.rate) (entries_of self.new.events.items)) }
        ensures no_fault { OnOk result (fault_in rules.ignore_mismatch self.old.counted (meaning_of rules.rate line.now)
            (notes_until_event rules.rate (line_texts after.now)) ≡ None) }
        ensures counted { OnOk result (self.new.counted
            ≡ self.old.counted + (if counts (meaning_of rules.rate line.now) then 1 else 0)) }
        ensures title { OnOk result (title_shown self.new.title
            ≡ option_or (title_in (meaning_of rules.rate line.now)) (title_shown self.old.title)) }
        ensures added { OnOk result (entries_of self.new.events.items ≡ entries_of self.old.events.items
            ++ option_to_list (entry_in (self.old.line + 1) (meaning_of rules.rate line.now)
            (notes_until_event rules.rate (line_texts after.now)))) }
        ensures err { IfErr result (λ fault. (fault ≡ ListFault.Unavailable)
            ⊎ (option_map (fault_at (self.old.line + 1))
            (fault_in rules.ignore_mismatch self.old.counted (meaning_of rules.rate line.now)
            (notes_until_event rules.rate (line_texts after.now))) ≡ Some fault)) }
    {
        self.line += 1;
        match meaning_of(line, rules.rate) {
            Err(fault) => Err(ListFault::InLine(self.line, fault)),
            Ok(Meaning::Event(event)) => self.take_event(alloc, rules, &event, after),
            Ok(Meaning::Title(title)) => {
                self.title = Some(title);
                Ok(())
            }
            Ok(Meaning::Blank | Meaning::Mode | Meaning::Note(_)) => Ok(()),
        }
    }
}

/// What all lines of the text say.
fn read_lines<'a>(alloc: Global, rules: Rules, text: &'a [u8]) -> Result<Progress<'a>, ListFault>
    requires { length text.now < 2 ^ 32 }
    ensures in_day { IfOk result (λ progress. All (IsEntryInDay rules.rate) (entries_of progress.events.items)) }
    ensures no_fault { OnOk result
        (first_fault_from rules.rate rules.ignore_mismatch [] (line_texts text.now) ≡ None) }
    ensures title { IfOk result (λ progress. title_shown progress.title ≡ last_title rules.rate (line_texts text.now)) }
    ensures events { IfOk result
        (λ progress. entries_of progress.events.items ≡ events_from rules.rate 1 (line_texts text.now)) }
    ensures err { IfErr result (λ fault. (fault ≡ ListFault.Unavailable)
        ⊎ (first_fault_from rules.rate rules.ignore_mismatch [] (line_texts text.now) ≡ Some fault)) }
{
    let mut progress = Progress {
        line: 0,
        title: None,
        events: Vec::new(alloc),
        counted: 0,
    };
    let mut rest = text;
    while !rest.is_empty() {
        let (line, after) = split_line(rest);
        progress.take_line(alloc, rules, line_text(line), after)?;
        rest = after;
    }
    Ok(progress)
}

/// The list of the text, or its first fault.
fn read_list<'a>(alloc: Global, text: &'a [u8], rules: Rules) -> Result<EventList<'a>, ListFault>
    requires { length text.now < 2 ^ 32 }
    ensures list { IfOk result (λ list. IsListOf rules.rate rules.ignore_mismatch text.now
        (title_shown list.title) list.head list.events) }
    ensures in_day { IfOk result (λ list. All (IsEntryInDay rules.rate) list.events) }
    ensures fault { IfErr result (λ fault. (fault ≡ ListFault.Unavailable)
        ⊎ (first_fault rules.rate rules.ignore_mismatch text.now ≡ Some fault)) }
{
    let text = after_mark(text);
    let head = Notes::of(notes_until_event(alloc, text, rules.rate)?);
    let progress = read_lines(alloc, rules, text)?;
    Ok(EventList {
        title: progress.title,
        head,
        events: Events::of(progress.events),
    })
}

/// Reads an event list.
///
/// With `ignore_timecode_mismatch` an event whose source and record differ in length gets a record as long as its
/// source, unless a note says its speed. Where there is no list, the fault is that of the first line that has one.
/// The list's texts are slices of `text`, and it takes memory for its vectors alone.
pub fn read_from_string<'a>(
    alloc: Global,
    text: &'a [u8],
    rate: Rate,
    ignore_timecode_mismatch: bool,
) -> Result<EventList<'a>, ListFault>
    requires { length text.now < 2 ^ 32 }

    ensures list { IfOk result (λ list. IsListOf rate ignore_timecode_mismatch text.now
        (title_shown list.title) list.head list.events) }
    // Each text is a slice of the source: a note is a line of its own, an event's words are fields of its line.
    ensures places { IfOk result (λ list. AreLinesBehind text.now 0 list.head
        × All (StandsOnItsLine text.now) list.events) }
    // They stand in the source one behind another, and so does the title.
    ensures title { IfOk result (λ list. IfSome (title_shown list.title) (λ title. IsInOrder text.now (title ∷ []))) }
    ensures in_order { IfOk result (λ list. IsInOrder text.now (list.head ++ texts_of_events list.events)) }

    // The places of the events lie in the day.
    ensures in_day { IfOk result (λ list. All (IsEntryInDay rate) list.events) }

    ensures fault { IfErr result (λ fault. (fault ≡ ListFault.Unavailable)
        ⊎ (first_fault rate ignore_timecode_mismatch text.now ≡ Some fault)) }
{
    let rules = Rules {
        rate,
        ignore_mismatch: ignore_timecode_mismatch,
    };
    read_list(alloc, text, rules)
}
