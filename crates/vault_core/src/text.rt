//! A text of a command, as it was given.
use std::marker::Model;

/// A text of a command, of any length and any content.
#[derive(Drop)]
pub struct RawText {
    text: String,
}

impl Model for RawText {
    ghost use Rattle.std.specs.Prelude.{ℕ, List, string_bytes};

    ghost Value = { List ℕ };

    ghost view = { λ t. string_bytes t.text };
}

impl RawText {
    ghost use Rattle.std.specs.Prelude.{◌≡◌, string_bytes};

    /// This text.
    pub fn of(text: String) -> RawText
        ensures { result ≡ string_bytes text }
    {
        RawText { text }
    }

    /// Its bytes, in UTF-8.
    pub fn as_bytes(&self) -> &[u8]
        ensures { result.now ≡ self.now }
    {
        self.text.as_bytes()
    }

    /// The text.
    pub fn as_str(&self) -> &str
        ensures { result.now ≡ self.now }
    {
        self.text.as_str()
    }
}
