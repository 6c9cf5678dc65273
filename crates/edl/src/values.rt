// Lists as values: walked and compared, and events by their parts.
ghost use Rattle.std.specs.Prelude.{◌≡◌, ◌≤◌, ◌==◌, SomeIff};
ghost use Rattle.std.specs.List.{list_any};
ghost use Rattle.std.specs.Slice.Iter.{iter_rest};
ghost use Rattle.std.specs.Cmp.{on_equiv, on_per, partial_equiv_from_equiv};
ghost use Rattle.std.specs.Cmp.Lexicographic.{pointwise, lists_equiv};
ghost use Rattle.timecode.specs.Range.{range_between};
ghost use Rattle.edl.specs.Texts.{texts_of};
ghost use Rattle.edl.specs.Entry.{is_picture};
ghost use Rattle.edl.specs.EntryShown.{entry_shown, entries_of};
ghost use Rattle.edl.specs.EditTypes.{edit_type_of};
ghost use Rattle.edl.specs.Equal.{texts_eq, words_eq, places_eq, entry_eq};
ghost use Rattle.edl.specs.EqualLaws.{texts_equiv, entries_equiv};

use crate::edits::EditType;
use crate::list::{Event, Events, Notes};
use std::alloc::AllocError;
use std::slice;
use timecode::TimeRange;

impl<'b, 'a> IntoIterator for &'b Notes<'a> {
    type Item = &'b &'a str;

    type IntoIter = slice::Iter<'b, &'a str>;

    ghost into_iter_gives = { λ notes it. texts_of (iter_rest it) ≡ notes.now };

    fn into_iter(self) -> Self::IntoIter {
        self.iter()
    }
}

impl<'b, 'a> IntoIterator for &'b Events<'a> {
    type Item = &'b Event<'a>;

    type IntoIter = slice::Iter<'b, Event<'a>>;

    ghost into_iter_gives = { λ events it. entries_of (iter_rest it) ≡ events.now };

    fn into_iter(self) -> Self::IntoIter {
        self.iter()
    }
}

/// Notes are equal where their texts are.
impl PartialEq for Notes<'_> {
    ghost eq = { texts_eq };

    ghost laws = { partial_equiv_from_equiv texts_equiv };

    fn eq(&self, other: &Self) -> bool {
        self.as_slice() == other.as_slice()
    }
}

impl Eq for Notes<'_> {
    ghost laws = { texts_equiv };
}

impl Event<'_> {
    fn has_words_of(&self, other: &Event<'_>) -> bool
        ensures { result ≡ words_eq (entry_shown self.now) (entry_shown other.now) }
    {
        self.line == other.line
            && self.number == other.number
            && self.reel == other.reel
            && self.channels == other.channels
            && self.kind == other.kind
            && self.duration == other.duration
    }

    fn has_places_of(&self, other: &Event<'_>) -> bool
        ensures { result ≡ places_eq (entry_shown self.now) (entry_shown other.now) }
    {
        self.source_first == other.source_first
            && self.source_end == other.source_end
            && self.record_first == other.record_first
            && self.length == other.length
    }
}

/// Events are equal where they say the same and stand on the same line, whichever texts they are slices of.
impl PartialEq for Event<'_> {
    ghost eq = { λ a b. entry_eq (entry_shown a) (entry_shown b) };

    ghost laws = { on_per entry_shown (partial_equiv_from_equiv entries_equiv) };

    fn eq(&self, other: &Self) -> bool {
        self.has_words_of(other)
            && self.has_places_of(other)
            && self.speed == other.speed
            && self.notes == other.notes
    }
}

impl Eq for Event<'_> {
    ghost laws = { on_equiv entry_shown entries_equiv };
}

// For any values, since `==` of slices has no proof yet where the values themselves borrow.
fn are_equal<T: PartialEq>(these: &[T], those: &[T]) -> bool
    ensures { result ≡ pointwise T.eq these.now those.now }
{
    these == those
}

impl PartialEq for Events<'_> {
    ghost eq = { pointwise entry_eq };

    ghost laws = { partial_equiv_from_equiv (lists_equiv entries_equiv) };

    fn eq(&self, other: &Self) -> bool {
        are_equal(self.as_slice(), other.as_slice())
    }
}

impl Eq for Events<'_> {
    ghost laws = { lists_equiv entries_equiv };
}

impl<'a> Clone for Event<'a> {
    ghost is_clone = { λ event copy. copy ≡ event };

    fn clone(&self) -> Result<Event<'a>, AllocError> {
        Ok(Event {
            line: self.line,
            number: self.number,
            reel: self.reel,
            channels: self.channels,
            kind: self.kind,
            duration: self.duration,
            source_first: self.source_first,
            source_end: self.source_end,
            record_first: self.record_first,
            length: self.length,
            speed: self.speed,
            notes: self.notes.clone()?,
        })
    }
}

fn has_picture_letter(channels: &[u8]) -> bool
    ensures { result ≡ list_any (λ letter. letter == 86) channels.now }
{
    channels.iter().any(|letter| *letter == b'V')
}

impl Event<'_> {
    /// Whether the event is for the picture: its channels are `B`, or there is a `V` among them.
    pub fn is_picture(&self) -> bool
        ensures { result ≡ is_picture (entry_shown self.now) }
    {
        let channels = self.channels.as_bytes();
        channels == b"B".as_slice() || has_picture_letter(channels)
    }

    /// What the edit does, by the word of its kind. An event that was read has one.
    pub fn edit_type(&self) -> Option<EditType>
        ensures { result ≡ edit_type_of self.now.kind.now }
    {
        EditType::of(self.kind)
    }

    /// The frames of the source, as frames of the day; `None` where they end before they begin, as none that were
    /// read do.
    pub fn source_range(&self) -> Option<TimeRange>
        ensures { SomeIff result (self.now.source_first ≤ self.now.source_end)
            (range_between self.now.source_first self.now.source_end) }
    {
        TimeRange::range_from_start_end_time(self.source_first, self.source_end)
    }

    /// The frames of the record, which begin with one of the day and may go on past its end.
    pub fn record_range(&self) -> TimeRange
        ensures { result ≡ record { start = self.now.record_first; duration = self.now.length } }
    {
        TimeRange {
            start: self.record_first,
            duration: self.length,
        }
    }
}
