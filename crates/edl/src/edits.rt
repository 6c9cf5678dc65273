// The kinds of edits.
ghost use Rattle.std.specs.Prelude.{◌≡◌};
ghost use Rattle.edl.specs.EditTypes.{edit_type_of};

use timecode::decimal_number;

/// What an edit does, of the four kinds of CMX 3600.
#[derive(Clone, Copy, PartialEq, Eq, PartialOrd, Ord, Hash, Debug)]
pub enum EditType {
    Cut,
    Dissolve,
    /// The number of its pattern, at most 999.
    Wipe(u16),
    Key,
}

impl EditType {
    /// The kind that a word of an event's line says: `C`, `D`, `W` and one to three digits, or a word that begins
    /// with `K`. No other word says one.
    pub fn of(word: &str) -> Option<EditType>
        ensures { result ≡ edit_type_of word.now }
    {
        match word.as_bytes() {
            b"C" => Some(EditType::Cut),
            b"D" => Some(EditType::Dissolve),
            [b'W', pattern @ ..] => Some(EditType::Wipe(decimal_number(pattern, 3)? as u16)),
            [b'K', ..] => Some(EditType::Key),
            _ => None,
        }
    }
}
