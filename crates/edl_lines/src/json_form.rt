// JSON Lines.
ghost use Rattle.std.specs.Prelude.{◌≡◌, ◌++◌, ◌<◌, ◌/◌, ◌%◌, ◌∷◌, [], OnOk, IfOk, codes};
ghost use Rattle.std.specs.List.{flat_map};
ghost use Rattle.edl.specs.EntryShown.{entry_shown, entries_of};
ghost use Rattle.edl.specs.Texts.{texts_of};
ghost use Rattle.edl_lines.specs.Json.{hex_digit, json_byte, json_text, json_rest, json_items, json_texts};
ghost use Rattle.edl_lines.specs.Json.{json_duration};
ghost use Rattle.edl_lines.specs.Json.{named, json_source, json_record, json_words, json_numbers, json_end};
ghost use Rattle.edl_lines.specs.Json.{json_line, json_lines};

use crate::pieces::{push, push_flag, push_number, push_numbered};
use edl::Event;
use std::alloc::{AllocError, Global};

const HEX: [u8; 16] = *b"0123456789abcdef";

fn push_byte(out: &mut Vec<u8>, byte: u8) -> Result<(), AllocError>
    ensures { OnOk result (out.new.items ≡ out.old.items ++ json_byte byte) }
{
    match byte {
        b'"' => push(out, "\\\""),
        b'\\' => push(out, "\\\\"),
        0..=31 => push_hex(out, byte),
        _ => Ok(out.push(byte)?),
    }
}

#[tactic(auto, using(crate::proofs::Behind::behind))]
fn push_hex(out: &mut Vec<u8>, byte: u8) -> Result<(), AllocError>
    requires { byte < 32 }
    ensures { OnOk result (out.new.items ≡ out.old.items ++ (codes "\\u00"
        ++ (hex_digit (byte / 16) ∷ hex_digit (byte % 16) ∷ []))) }
{
    push(out, "\\u00")?;
    out.push(HEX[usize::from(byte / 16)])?;
    out.push(HEX[usize::from(byte % 16)])?;
    Ok(())
}

fn push_bytes(out: &mut Vec<u8>, text: &[u8]) -> Result<(), AllocError>
    ensures { OnOk result (out.new.items ≡ out.old.items ++ flat_map json_byte text.now) }
{
    for byte in text {
        push_byte(out, *byte)?;
    }
    Ok(())
}

#[tactic(auto, using(crate::proofs::Behind::behind), unfolding(crate::specs::Json::json_text))]
fn push_text(out: &mut Vec<u8>, text: &str) -> Result<(), AllocError>
    ensures { OnOk result (out.new.items ≡ out.old.items ++ json_text text.now) }
{
    push(out, "\"")?;
    push_bytes(out, text.as_bytes())?;
    push(out, "\"")
}

#[tactic(auto, using(crate::proofs::Behind::behind))]
fn push_item(out: &mut Vec<u8>, text: &str) -> Result<(), AllocError>
    ensures { OnOk result (out.new.items ≡ out.old.items ++ (codes "," ++ json_text text.now)) }
{
    push(out, ",")?;
    push_text(out, text)
}

fn push_rest(out: &mut Vec<u8>, texts: &[&str]) -> Result<(), AllocError>
    ensures { OnOk result (out.new.items ≡ out.old.items ++ json_rest (texts_of texts.now)) }
{
    for text in texts {
        push_item(out, text)?;
    }
    Ok(())
}

#[tactic(auto, using(crate::proofs::Behind::behind))]
fn push_items(out: &mut Vec<u8>, texts: &[&str]) -> Result<(), AllocError>
    ensures { OnOk result (out.new.items ≡ out.old.items ++ json_items (texts_of texts.now)) }
{
    let [text, rest @ ..] = texts else {
        return Ok(());
    };
    push_text(out, text)?;
    push_rest(out, rest)
}

#[tactic(auto, using(crate::proofs::Behind::behind), unfolding(crate::specs::Json::json_texts))]
fn push_texts(out: &mut Vec<u8>, texts: &[&str]) -> Result<(), AllocError>
    ensures { OnOk result (out.new.items ≡ out.old.items ++ json_texts (texts_of texts.now)) }
{
    push(out, "[")?;
    push_items(out, texts)?;
    push(out, "]")
}

fn push_duration(out: &mut Vec<u8>, duration: Option<u16>) -> Result<(), AllocError>
    ensures { OnOk result (out.new.items ≡ out.old.items ++ json_duration duration) }
{
    match duration {
        Some(frames) => push_number(out, u32::from(frames)),
        None => push(out, "null"),
    }
}

#[tactic(auto, using(crate::proofs::Behind::behind), unfolding(crate::specs::Json::named))]
fn push_named(out: &mut Vec<u8>, name: &str, text: &str) -> Result<(), AllocError>
    ensures { OnOk result (out.new.items ≡ out.old.items ++ named name.now text.now) }
{
    push(out, name)?;
    push_text(out, text)
}

#[tactic(auto, using(crate::proofs::Behind::behind), unfolding(crate::specs::Json::json_words))]
fn push_words(out: &mut Vec<u8>, event: &Event<'_>) -> Result<(), AllocError>
    ensures { OnOk result (out.new.items ≡ out.old.items ++ json_words (entry_shown event.now)) }
{
    push_numbered(out, "{\"line\":", event.line)?;
    push_numbered(out, ",\"number\":", u32::from(event.number))?;
    push_named(out, ",\"reel\":", event.reel)?;
    push_named(out, ",\"channels\":", event.channels)?;
    push_named(out, ",\"kind\":", event.kind)
}

fn push_source(out: &mut Vec<u8>, event: &Event<'_>) -> Result<(), AllocError>
    ensures { OnOk result (out.new.items ≡ out.old.items ++ json_source (entry_shown event.now)) }
{
    push_numbered(out, ",\"source_first\":", event.source_first)?;
    push_numbered(out, ",\"source_end\":", event.source_end)?;
    Ok(())
}

fn push_record(out: &mut Vec<u8>, event: &Event<'_>) -> Result<(), AllocError>
    ensures { OnOk result (out.new.items ≡ out.old.items ++ json_record (entry_shown event.now)) }
{
    push_numbered(out, ",\"record_first\":", event.record_first)?;
    push_numbered(out, ",\"length\":", event.length)?;
    Ok(())
}

#[tactic(auto, using(crate::proofs::Behind::behind), unfolding(crate::specs::Json::json_numbers))]
fn push_numbers(out: &mut Vec<u8>, event: &Event<'_>) -> Result<(), AllocError>
    ensures { OnOk result (out.new.items ≡ out.old.items ++ json_numbers (entry_shown event.now)) }
{
    push_duration(out, event.duration)?;
    push_source(out, event)?;
    push_record(out, event)
}

#[tactic(auto, using(crate::proofs::Behind::behind), unfolding(crate::specs::Json::json_end))]
fn push_end(out: &mut Vec<u8>, speed: bool, notes: &[&str]) -> Result<(), AllocError>
    ensures { OnOk result (out.new.items ≡ out.old.items ++ json_end speed (texts_of notes.now)) }
{
    push(out, ",\"speed\":")?;
    push_flag(out, speed)?;
    push(out, ",\"notes\":")?;
    push_texts(out, notes)?;
    push(out, "}\n")
}

#[tactic(auto, using(crate::proofs::Behind::behind), unfolding(crate::specs::Json::json_line))]
fn push_event(out: &mut Vec<u8>, event: &Event<'_>) -> Result<(), AllocError>
    ensures { OnOk result (out.new.items ≡ out.old.items ++ json_line (entry_shown event.now)) }
{
    push_words(out, event)?;
    push(out, ",\"duration\":")?;
    push_numbers(out, event)?;
    push_end(out, event.speed, event.notes.as_slice())
}

fn push_events(out: &mut Vec<u8>, events: &[Event<'_>]) -> Result<(), AllocError>
    ensures { OnOk result (out.new.items ≡ out.old.items ++ json_lines (entries_of events.now)) }
{
    for event in events {
        push_event(out, event)?;
    }
    Ok(())
}

/// The events as JSON Lines: an object for each, in the order of the list.
pub fn json_lines(alloc: Global, events: &[Event<'_>]) -> Result<Vec<u8>, AllocError>
    ensures { IfOk result (λ text. text.items ≡ json_lines (entries_of events.now)) }
{
    let mut out = Vec::new(alloc);
    push_events(&mut out, events)?;
    Ok(out)
}
