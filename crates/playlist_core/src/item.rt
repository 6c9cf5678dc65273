//! Items and their kinds.
ghost use Rattle.std.specs.Prelude.{◌≡◌, ◌+◌, true, IfSome};
ghost use Rattle.playlist_core.specs.Item.{is_item as is_item_of, is_kind as is_kind_of, kind_of, numbered};
ghost use Rattle.playlist_core.specs.Item.{first_kept as first_kept_of};

use crate::source::Source;
use std::fmt;
use timecode::decimal_number;

/// The most items of a day, and the largest number of one.
pub const MAX_ITEMS: u16 = 9_999;

/// The longest mix of an item, in frames.
pub const MAX_MIX: u16 = 999;

/// The highest number of a wipe.
pub const MAX_WIPE: u16 = 999;

/// How the picture changes to an item.
#[derive(Clone, Copy, PartialEq, Eq)]
pub enum EditKind {
    Cut,
    Dissolve,
    /// By its number, 0 to 999: [`EditKind::read`] gives no other, and each item of a day keeps it
    /// ([`EditKind::is_in_range`]).
    Wipe(u16),
}

impl EditKind {
    /// The kind that a word of an edit list says: `C`, `D`, or `W` and one to three digits. Any other says none.
    pub fn read(word: &[u8]) -> Option<EditKind>
        ensures value { result ≡ kind_of word.now }
        ensures range { IfSome result (λ kind. is_kind_of kind ≡ true) }
    {
        match word {
            b"C" => Some(EditKind::Cut),
            b"D" => Some(EditKind::Dissolve),
            [b'W', digits @ ..] => {
                let number = decimal_number(digits, 3)?;
                Some(EditKind::Wipe(number as u16))
            }
            _ => None,
        }
    }

    /// Whether a wipe's number is at most 999.
    pub fn is_in_range(self) -> bool
        ensures { result ≡ is_kind_of self }
    {
        match self {
            EditKind::Cut | EditKind::Dissolve => true,
            EditKind::Wipe(number) => number <= MAX_WIPE,
        }
    }
}

/// As lists and tables have it: `C`, `D`, or `W` and the wipe's number in 3 digits.
impl fmt::Display for EditKind {
    ghost use Rattle.std.specs.Prelude.{Some};
    ghost use Rattle.playlist_core.specs.Item.{kind_text};

    ghost output = { λ kind. Some (kind_text kind) };

    fn fmt<W: fmt::Write>(&self, f: &mut fmt::Formatter<W>) -> fmt::Result {
        match *self {
            EditKind::Cut => f.write_str("C"),
            EditKind::Dissolve => f.write_str("D"),
            EditKind::Wipe(number) => write!(f, "W{number:03}"),
        }
    }
}

/// An item of a day. That its fields are as is said here is kept by the [`DayPlan`](crate::DayPlan) that it is in.
#[derive(Clone, Copy, PartialEq, Eq)]
pub struct Item {
    /// From 1, its own in the day.
    pub n: u16,
    /// The frame of the broadcast day at which it begins, from 0.
    pub pos: u32,
    /// Its length in frames, 1 or more.
    pub frames: u32,
    pub src: Source,
    /// The frame of the source at which it begins, 0 for black and bars.
    pub src_first: u32,
    pub kind: EditKind,
    /// The frames over which the picture changes to it, at most 999.
    pub mix: u16,
}

impl Item {
    /// The frame behind its last.
    pub fn end(&self) -> u64
        ensures { result ≡ self.now.pos + self.now.frames }
    {
        u64::from(self.pos) + u64::from(self.frames)
    }

    /// Whether kind and mix are in range, and black and bars begin at their frame 0.
    pub fn is_in_range(&self) -> bool
        ensures { result ≡ is_item_of self.now }
    {
        self.mix <= MAX_MIX
            && self.kind.is_in_range()
            && self.src_first == first_kept(&self.src, self.src_first)
    }
}

/// An item that is to be added, without its number.
#[derive(Clone, Copy, PartialEq, Eq)]
pub struct NewItem {
    /// The frame of the broadcast day at which it begins, from 0.
    pub pos: u32,
    /// Its length in frames. [`DayPlan::add_item`](crate::DayPlan::add_item) refuses 0.
    pub frames: u32,
    /// Its source, or none where what was to name it names none.
    pub src: Option<Source>,
    /// The frame of the source at which it begins; black and bars have none.
    pub src_first: u32,
    /// In its range, which whoever hands the item to [`DayPlan::add_item`](crate::DayPlan::add_item) keeps.
    pub kind: EditKind,
    /// The frames over which the picture changes to it, at most 999, which is kept likewise.
    pub mix: u16,
}

impl NewItem {
    /// The frame behind its last.
    pub fn end(&self) -> u64
        ensures { result ≡ self.now.pos + self.now.frames }
    {
        u64::from(self.pos) + u64::from(self.frames)
    }

    /// The item under a number, of a source.
    pub(crate) fn numbered(&self, number: u16, source: Source) -> Item
        ensures { result ≡ numbered number source self.now }
    {
        Item {
            n: number,
            pos: self.pos,
            frames: self.frames,
            src: source,
            src_first: first_kept(&source, self.src_first),
            kind: self.kind,
            mix: self.mix,
        }
    }
}

// The first frame of a source that an item keeps: black and bars have none but 0.
fn first_kept(source: &Source, first: u32) -> u32
    ensures { result ≡ first_kept_of source.now first }
{
    match *source {
        Source::Black | Source::Bars => 0,
        Source::Own(_) | Source::Lent(_, _) => first,
    }
}
