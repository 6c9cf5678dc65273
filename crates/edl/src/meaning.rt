// What one line of a list means.
ghost use Rattle.std.specs.Prelude.{◌≡◌, Ok, Err, Some, None, MatchResult, IfOk, option_map};
ghost use Rattle.edl.specs.Meaning.{meaning_of, text_meaning, mode_of, mode_named, rest_after, fits_rate};
ghost use Rattle.edl.specs.InDay.{IsInDay};
ghost use Rattle.edl.specs.Shown.{meaning_shown};

use crate::event::{ReadEvent, event_of};
use crate::text::{after_blanks, begins_event};
use channel_plan::LineFault;
use timecode::Rate;

/// How a frame mode line says that labels are counted.
#[derive(Clone, Copy, PartialEq, Eq)]
pub enum FrameCodeMode {
    DropFrame,
    NonDropFrame,
}

/// What a line means.
#[derive(Clone, Copy)]
pub enum Meaning<'a> {
    Blank,
    Title(&'a str),
    /// A frame mode that fits the rate.
    Mode,
    Event(ReadEvent<'a>),
    Note(&'a str),
}

fn mode_named(text: &str) -> Option<FrameCodeMode>
    ensures { result ≡ mode_named text.now }
{
    if text == "DROP FRAME" {
        Some(FrameCodeMode::DropFrame)
    } else if text == "NON-DROP FRAME" || text == "NON DROP FRAME" {
        Some(FrameCodeMode::NonDropFrame)
    } else {
        None
    }
}

/// What stands behind the word that the line begins with, without blanks in front.
fn after_word<'a>(line: &'a str, word: &str) -> Option<&'a str>
    ensures { option_map (λ rest. rest.now) result ≡ rest_after word.now line.now }
{
    match line.strip_prefix(word) {
        Some(rest) => Some(after_blanks(rest)),
        None => None,
    }
}

impl FrameCodeMode {
    fn fits(self, rate: Rate) -> bool
        ensures { result ≡ fits_rate rate self }
    {
        match self {
            FrameCodeMode::DropFrame => rate == Rate::Df30,
            FrameCodeMode::NonDropFrame => rate != Rate::Df30,
        }
    }
}

/// The frame mode that the line sets.
fn mode_of(line: &str) -> Option<FrameCodeMode>
    ensures { result ≡ mode_of line.now }
{
    match after_word(line, "FCM:") {
        Some(text) => mode_named(text),
        None => None,
    }
}

/// The meaning of a line without blanks at its ends, or its first fault.
#[tactic(auto, using(crate::proofs::WordLemmas::texts), unfolding(crate::specs::Meaning::meaning_of))]
pub(crate) fn meaning_of<'a>(line: &'a [u8], rate: Rate) -> Result<Meaning<'a>, LineFault>
    ensures value { MatchResult result (λ meaning. meaning_of rate line.now ≡ Ok (meaning_shown meaning))
        (λ fault. meaning_of rate line.now ≡ Err fault) }
    ensures in_day { IfOk result (IsInDay rate) }
{
    match str::from_utf8(line) {
        Ok(text) => text_meaning(text, rate),
        Err(_) => Err(LineFault::NotText),
    }
}

#[tactic(auto, unfolding(crate::specs::Meaning::text_meaning))]
fn text_meaning<'a>(line: &'a str, rate: Rate) -> Result<Meaning<'a>, LineFault>
    ensures value { MatchResult result (λ meaning. text_meaning rate line.now ≡ Ok (meaning_shown meaning))
        (λ fault. text_meaning rate line.now ≡ Err fault) }
    ensures in_day { IfOk result (IsInDay rate) }
{
    if line.is_empty() {
        return Ok(Meaning::Blank);
    }
    if let Some(title) = after_word(line, "TITLE:") {
        return Ok(Meaning::Title(title));
    }
    if begins_event(line.as_bytes()) {
        return match event_of(line, rate) {
            Ok(event) => Ok(Meaning::Event(event)),
            Err(fault) => Err(fault),
        };
    }
    match mode_of(line) {
        None => Ok(Meaning::Note(line)),
        Some(mode) if mode.fits(rate) => Ok(Meaning::Mode),
        Some(_) => Err(LineFault::FrameMode),
    }
}
