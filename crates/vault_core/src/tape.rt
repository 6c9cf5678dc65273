//! Tapes and their barcodes.
ghost use Rattle.std.specs.Prelude.{◌≡◌, ◌≤◌, true, length, IsTrue, Some, None, if◌then◌else◌};
ghost use Rattle.std.specs.List.{list_all};
ghost use Rattle.vault_core.specs.Barcode.{is_barcode as is_barcode_text, is_barcode_letter, is_reserved_reel};
ghost use Rattle.vault_core.specs.Barcode.{is_numbered};
ghost use Rattle.vault_core.specs.Tape.{stands_in};

use channel_plan::ShortText;
use std::marker::Model;
use timecode::is_digits;

/// The most tapes of a channel.
pub const MAX_TAPES: usize = 9999;

/// A tape of a channel.
#[derive(Clone, Copy, PartialEq, Eq)]
pub struct Tape {
    /// Counted in its channel from 1.
    pub n: u16,
    pub barcode: Barcode,
    /// The slot in which it stands, from 1, or none where it is out.
    pub slot: Option<u16>,
}

impl Tape {
    /// Whether it stands in this slot.
    pub fn stands_in(&self, slot: u32) -> bool
        ensures { result ≡ stands_in slot self.now.slot }
    {
        match self.slot {
            Some(s) => u32::from(s) == slot,
            None => false,
        }
    }
}

/// The barcode of a tape: 1 to 8 letters A to Z and digits, but no reel that lists keep for something else (`BL`,
/// `BLACK`, `BARS`, `AX`, and `C` or `L` with 7 digits).
#[derive(Clone, Copy, PartialEq, Eq)]
pub struct Barcode {
    text: ShortText<8>,
}

impl Model for Barcode {
    ghost use Rattle.std.specs.Prelude.{◌≡◌, true, ℕ, List};
    ghost use Rattle.vault_core.specs.Barcode.{is_barcode};

    ghost Value = { List ℕ };

    ghost view = { λ b. b.text };

    ghost invariant = { λ b. is_barcode b.text ≡ true };

    ghost inverse = { λ text. record { text = text } };
}

impl Barcode {
    /// The barcode that this text is, if it is one.
    pub fn read(text: &[u8]) -> Option<Barcode>
        ensures { result ≡ (if is_barcode_text text.now then Some text.now else None) }
    {
        if is_barcode(text) {
            let text = ShortText::of(text)?;
            Some(Barcode { text })
        } else {
            None
        }
    }

    /// A law: a barcode is one.
    pub fn keeps_the_form(&self)
        ensures { is_barcode_text self.now ≡ true }
    {
        let _text = self.text;
    }

    /// Its text.
    pub fn as_bytes(&self) -> &[u8]
        ensures { result.now ≡ self.now }
    {
        self.text.as_bytes()
    }
}

// Whether a text is a barcode.
#[tactic(auto, unfolding(crate::specs::Barcode::is_barcode))]
fn is_barcode(text: &[u8]) -> bool
    ensures value { result ≡ is_barcode_text text.now }
    ensures fits { IsTrue result → length text.now ≤ 8 }
{
    !text.is_empty() && text.len() <= 8 && has_barcode_letters(text) && !is_kept(text)
}

fn has_barcode_letters(text: &[u8]) -> bool
    ensures { result ≡ list_all is_barcode_letter text.now }
{
    text.iter()
        .all(|b| b.is_ascii_uppercase() || b.is_ascii_digit())
}

fn is_kept(text: &[u8]) -> bool
    ensures { result ≡ is_reserved_reel text.now }
{
    text == b"BL".as_slice()
        || text == b"BLACK".as_slice()
        || text == b"BARS".as_slice()
        || text == b"AX".as_slice()
        || is_letter_and_number(text, b'C')
        || is_letter_and_number(text, b'L')
}

// Whether the text is this letter and 7 digits.
fn is_letter_and_number(text: &[u8], letter: u8) -> bool
    ensures { result ≡ is_numbered letter text.now }
{
    text.len() == 8 && text[0] == letter && is_digits(&text[1..])
}
