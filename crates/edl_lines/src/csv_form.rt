// CSV.
ghost use Rattle.std.specs.Prelude.{◌≡◌, ◌++◌, OnOk, IfOk, codes};
ghost use Rattle.std.specs.List.{flat_map};
ghost use Rattle.edl.specs.EntryShown.{entry_shown, entries_of};
ghost use Rattle.edl.specs.Texts.{texts_of};
ghost use Rattle.edl_lines.specs.Csv.{csv_byte, csv_text, csv_notes, csv_duration, csv_words, csv_numbers, csv_line};
ghost use Rattle.edl_lines.specs.Csv.{csv_lines};
ghost use Rattle.edl_lines.specs.Csv.{csv_named, csv_end};

use crate::pieces::{push, push_flag, push_number, push_numbered};
use edl::Event;
use std::alloc::{AllocError, Global};

fn push_byte(out: &mut Vec<u8>, byte: u8) -> Result<(), AllocError>
    ensures { OnOk result (out.new.items ≡ out.old.items ++ csv_byte byte) }
{
    if byte == b'"' {
        push(out, "\"\"")
    } else {
        Ok(out.push(byte)?)
    }
}

fn push_bytes(out: &mut Vec<u8>, text: &[u8]) -> Result<(), AllocError>
    ensures { OnOk result (out.new.items ≡ out.old.items ++ flat_map csv_byte text.now) }
{
    for byte in text {
        push_byte(out, *byte)?;
    }
    Ok(())
}

#[tactic(auto, using(crate::proofs::Behind::behind), unfolding(crate::specs::Csv::csv_text))]
fn push_text(out: &mut Vec<u8>, text: &str) -> Result<(), AllocError>
    ensures { OnOk result (out.new.items ≡ out.old.items ++ csv_text text.now) }
{
    push(out, "\"")?;
    push_bytes(out, text.as_bytes())?;
    push(out, "\"")
}

#[tactic(auto, using(crate::proofs::Behind::behind))]
fn push_note(out: &mut Vec<u8>, note: &str) -> Result<(), AllocError>
    ensures { OnOk result (out.new.items ≡ out.old.items ++ (flat_map csv_byte note.now ++ codes "\n")) }
{
    push_bytes(out, note.as_bytes())?;
    push(out, "\n")
}

fn push_each(out: &mut Vec<u8>, notes: &[&str]) -> Result<(), AllocError>
    ensures { OnOk result (out.new.items ≡ out.old.items
        ++ flat_map (λ note. flat_map csv_byte note ++ codes "\n") (texts_of notes.now)) }
{
    for note in notes {
        push_note(out, note)?;
    }
    Ok(())
}

#[tactic(auto, using(crate::proofs::Behind::behind), unfolding(crate::specs::Csv::csv_notes))]
fn push_notes(out: &mut Vec<u8>, notes: &[&str]) -> Result<(), AllocError>
    ensures { OnOk result (out.new.items ≡ out.old.items ++ csv_notes (texts_of notes.now)) }
{
    push(out, "\"")?;
    push_each(out, notes)?;
    push(out, "\"")
}

fn push_duration(out: &mut Vec<u8>, duration: Option<u16>) -> Result<(), AllocError>
    ensures { OnOk result (out.new.items ≡ out.old.items ++ csv_duration duration) }
{
    match duration {
        Some(frames) => push_number(out, u32::from(frames)),
        None => Ok(()),
    }
}

#[tactic(auto, using(crate::proofs::Behind::behind), unfolding(crate::specs::Csv::csv_named))]
fn push_named(out: &mut Vec<u8>, text: &str) -> Result<(), AllocError>
    ensures { OnOk result (out.new.items ≡ out.old.items ++ csv_named text.now) }
{
    push(out, ",")?;
    push_text(out, text)
}

#[tactic(auto, using(crate::proofs::Behind::behind), unfolding(crate::specs::Csv::csv_words))]
fn push_words(out: &mut Vec<u8>, event: &Event<'_>) -> Result<(), AllocError>
    ensures { OnOk result (out.new.items ≡ out.old.items ++ csv_words (entry_shown event.now)) }
{
    push_number(out, event.line)?;
    push_numbered(out, ",", u32::from(event.number))?;
    push_named(out, event.reel)?;
    push_named(out, event.channels)?;
    push_named(out, event.kind)
}

#[tactic(auto, using(crate::proofs::Behind::behind), unfolding(crate::specs::Csv::csv_numbers))]
fn push_numbers(out: &mut Vec<u8>, event: &Event<'_>) -> Result<(), AllocError>
    ensures { OnOk result (out.new.items ≡ out.old.items ++ csv_numbers (entry_shown event.now)) }
{
    push_duration(out, event.duration)?;
    push_numbered(out, ",", event.source_first)?;
    push_numbered(out, ",", event.source_end)?;
    push_numbered(out, ",", event.record_first)?;
    push_numbered(out, ",", event.length)
}

#[tactic(auto, using(crate::proofs::Behind::behind), unfolding(crate::specs::Csv::csv_end))]
fn push_end(out: &mut Vec<u8>, speed: bool, notes: &[&str]) -> Result<(), AllocError>
    ensures { OnOk result (out.new.items ≡ out.old.items ++ csv_end speed (texts_of notes.now)) }
{
    push(out, ",")?;
    push_flag(out, speed)?;
    push(out, ",")?;
    push_notes(out, notes)?;
    push(out, "\n")
}

#[tactic(auto, using(crate::proofs::Behind::behind), unfolding(crate::specs::Csv::csv_line))]
fn push_event(out: &mut Vec<u8>, event: &Event<'_>) -> Result<(), AllocError>
    ensures { OnOk result (out.new.items ≡ out.old.items ++ csv_line (entry_shown event.now)) }
{
    push_words(out, event)?;
    push(out, ",")?;
    push_numbers(out, event)?;
    push_end(out, event.speed, event.notes.as_slice())
}

fn push_events(out: &mut Vec<u8>, events: &[Event<'_>]) -> Result<(), AllocError>
    ensures { OnOk result (out.new.items ≡ out.old.items ++ flat_map csv_line (entries_of events.now)) }
{
    for event in events {
        push_event(out, event)?;
    }
    Ok(())
}

const HEAD: &str =
    "line,number,reel,channels,kind,duration,source_first,source_end,record_first,length,speed,notes\n";

/// The events as CSV: a header, and a record for each, in the order of the list.
pub fn csv_lines(alloc: Global, events: &[Event<'_>]) -> Result<Vec<u8>, AllocError>
    ensures { IfOk result (λ text. text.items ≡ csv_lines (entries_of events.now)) }
{
    let mut out = Vec::new(alloc);
    push(&mut out, HEAD)?;
    push_events(&mut out, events)?;
    Ok(out)
}
