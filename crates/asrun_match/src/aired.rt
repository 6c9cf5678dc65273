//! Rows of what was aired.
ghost use Rattle.std.specs.Prelude.{◌≡◌, ◌+◌, IfSome, true};
ghost use Rattle.std.specs.List.{list_all};
ghost use Rattle.vault_core.specs.Barcode.{is_barcode_letter};
ghost use Rattle.asrun_match.specs.Aired.{has_fields, is_source_range};
ghost use Rattle.asrun_match.specs.Reel.{is_row_reel, is_reel, reel_said, short_name};

use channel_plan::ShortText;
use playlist_core::Source;
use std::alloc::Global;
use std::marker::Model;
use timecode::Unavailable;

/// The reel that was aired: 1 to 8 letters A to Z and digits. Black is `BL`.
#[derive(Clone, Copy, PartialEq, Eq)]
pub struct Reel {
    text: ShortText<8>,
}

impl Model for Reel {
    ghost use Rattle.std.specs.Prelude.{◌≡◌, true, ℕ, List};
    ghost use Rattle.asrun_match.specs.Reel.{is_row_reel};

    ghost Value = { List ℕ };

    ghost view = { λ r. r.text };

    ghost invariant = { λ r. is_row_reel r.text ≡ true };

    ghost inverse = { λ text. record { text = text } };
}

impl Reel {
    /// The reel that a text says, if it says one. `BLACK` is kept as `BL`.
    pub fn read(text: &[u8]) -> Option<Reel>
        ensures said { result ≡ reel_said text.now }
        ensures kept { IfSome result (λ reel. is_row_reel reel ≡ true) }
    {
        if is_reel(text) {
            let text = ShortText::of(short_name(text))?;
            Some(Reel { text })
        } else {
            None
        }
    }

    /// A law: a reel is one, and has the short name where it is black.
    pub fn keeps_the_form(&self)
        ensures { is_row_reel self.now ≡ true }
    {
        let _text = self.text;
    }

    /// Its text.
    pub fn as_bytes(&self) -> &[u8]
        ensures { result.now ≡ self.now }
    {
        self.text.as_bytes()
    }
}

fn is_reel(text: &[u8]) -> bool
    ensures { result ≡ is_reel text.now }
{
    !text.is_empty() && text.len() <= 8 && has_letters(text)
}

fn has_letters(text: &[u8]) -> bool
    ensures { result ≡ list_all is_barcode_letter text.now }
{
    text.iter()
        .all(|b| b.is_ascii_uppercase() || b.is_ascii_digit())
}

fn short_name(text: &[u8]) -> &[u8]
    ensures { result.now ≡ short_name text.now }
{
    if text == b"BLACK".as_slice() {
        b"BL".as_slice()
    } else {
        text
    }
}

/// A row of what was aired.
#[derive(Clone, Copy, PartialEq, Eq)]
pub struct AiredRow {
    /// The frame of the broadcast day at which it began.
    pub pos: u32,
    /// Its length.
    pub frames: u32,
    pub src: Reel,
    /// The frame of the reel at which it began.
    pub src_first: u32,
}

impl AiredRow {
    /// The frame behind its last.
    pub fn end(&self) -> u64
        ensures { result ≡ self.now.pos + self.now.frames }
    {
        u64::from(self.pos) + u64::from(self.frames)
    }

    /// Whether its reel is kept in its short form, and its source frames lie in a day of so many.
    pub(crate) fn has_fields(&self, day: u32) -> bool
        ensures { result ≡ has_fields day self.now }
    {
        // No test is needed of the reel: each is kept so.
        self.src.keeps_the_form();
        let source = Source::read(self.src.as_bytes());
        is_source_range(day, source, self.src_first, self.frames)
    }
}

/// Whether what airs from a frame of what a reel names lies in a day of so many frames. Black and bars have no frame
/// but 0.
pub(crate) fn is_source_range(day: u32, source: Option<Source>, first: u32, frames: u32) -> bool
    ensures { result ≡ is_source_range day source first frames }
{
    match source {
        Some(Source::Black | Source::Bars) => first == 0,
        Some(Source::Own(_) | Source::Lent(_, _)) | None => {
            u64::from(first) + u64::from(frames) <= u64::from(day)
        }
    }
}

/// The rows of one batch, as they came.
#[derive(Drop)]
pub struct Batch {
    rows: Vec<AiredRow>,
}

impl Model for Batch {
    ghost use Rattle.std.specs.Prelude.{List};
    ghost use Rattle.asrun_match.specs.declared.aired.AiredRow.{AiredRow};

    ghost Value = { List AiredRow };

    ghost view = { λ b. b.rows.items };
}

impl Batch {
    ghost use Rattle.std.specs.Prelude.{◌≡◌, IfOk};

    /// These rows.
    pub fn of(rows: Vec<AiredRow>) -> Batch
        ensures { result ≡ rows.items }
    {
        Batch { rows }
    }

    /// The rows.
    pub fn as_slice(&self) -> &[AiredRow]
        ensures { result.now ≡ self.now }
    {
        self.rows.as_slice()
    }

    /// The same rows.
    pub fn copied(&self, alloc: Global) -> Result<Batch, Unavailable>
        ensures { IfOk result (λ batch. batch ≡ self.now) }
    {
        let rows = Vec::from_slice(alloc, &self.rows)?;
        Ok(Batch { rows })
    }
}
