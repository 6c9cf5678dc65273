// An event list.
ghost use Rattle.std.specs.Prelude.{◌≡◌};
ghost use Rattle.std.specs.Slice.Iter.{iter_rest};
ghost use Rattle.edl.specs.Texts.{texts_of};

use std::alloc::AllocError;
use std::marker::Model;
use std::slice;

/// The largest number of an event.
pub const MAX_EVENT_NUMBER: u16 = 9_999;

/// The most events of a list that count: an event whose source and record both have no frame doesn't.
pub const MAX_EVENTS: u16 = 9_999;

/// The most bytes of a list.
pub const LIST_LIMIT: usize = 1_000_000;

/// Notes, in the order of their lines. Contracts see the list of their texts.
#[derive(Debug, Drop)]
pub struct Notes<'a> {
    texts: Vec<&'a str>,
}

impl<'a> Model for Notes<'a> {
    ghost use Rattle.std.specs.Prelude.{List, ℕ};
    ghost use Rattle.edl.specs.Texts.{texts_of};

    ghost Value = { List (List ℕ) };

    ghost view = { λ notes. texts_of notes.texts.items };
}

impl<'a> Notes<'a> {
    /// The notes of these texts.
    pub fn of(texts: Vec<&'a str>) -> Notes<'a>
        ensures { result ≡ texts_of texts.entry.items }
    {
        Notes { texts }
    }

    /// The texts of the notes.
    pub fn as_slice(&self) -> &[&'a str]
        ensures { texts_of result.now ≡ self.now }
    {
        self.texts.as_slice()
    }

    /// The texts of the notes, one after another.
    pub fn iter(&self) -> slice::Iter<'_, &'a str>
        ensures { texts_of (iter_rest result) ≡ self.now }
    {
        self.texts.iter()
    }
}

impl<'a> Clone for Notes<'a> {
    ghost is_clone = { λ notes copy. copy ≡ notes };

    fn clone(&self) -> Result<Notes<'a>, AllocError> {
        Ok(Notes {
            texts: self.texts.clone()?,
        })
    }
}

/// An event. Its texts are slices of the list's text, in the order of the fields.
#[derive(Debug, Drop)]
pub struct Event<'a> {
    /// The line, counted from 1.
    pub line: u32,
    /// At most [`MAX_EVENT_NUMBER`].
    pub number: u16,
    pub reel: &'a str,
    /// The picture is meant by `B` and by a `V` among the letters, and sound by all others.
    pub channels: &'a str,
    /// `C`, `D`, `W` and digits, or a word that begins with `K`: an [`EditType`](crate::EditType).
    pub kind: &'a str,
    /// The duration of a dissolve or a wipe, in frames.
    pub duration: Option<u16>,
    /// The first frame of the source, as a frame of the day.
    pub source_first: u32,
    /// The end of the source, exclusive: at most the day's frames.
    pub source_end: u32,
    /// The first frame of the record, as a frame of the day.
    pub record_first: u32,
    /// The frames of the record, which may go on past the day's end.
    pub length: u32,
    /// The source is played at another speed.
    pub speed: bool,
    /// The notes on the lines behind it.
    pub notes: Notes<'a>,
}

/// Events, in the order of their lines. Contracts see the list of what they say.
#[derive(Debug, Drop)]
pub struct Events<'a> {
    events: Vec<Event<'a>>,
}

impl<'a> Model for Events<'a> {
    ghost use Rattle.std.specs.Prelude.{List};
    ghost use Rattle.edl.specs.Entry.{EventEntry};

    ghost Value = { List EventEntry };

    ghost use Rattle.edl.specs.EntryShown.{entries_of};

    ghost view = { λ list. entries_of list.events.items };
}

impl<'a> Events<'a> {
    ghost use Rattle.std.specs.Prelude.{◌≡◌};
    ghost use Rattle.std.specs.Slice.Iter.{iter_rest};
    ghost use Rattle.edl.specs.EntryShown.{entries_of};

    /// The list of these events.
    pub fn of(events: Vec<Event<'a>>) -> Events<'a>
        ensures { result ≡ entries_of events.entry.items }
    {
        Events { events }
    }

    /// The events.
    pub fn as_slice(&self) -> &[Event<'a>]
        ensures { entries_of result.now ≡ self.now }
    {
        self.events.as_slice()
    }

    /// The events, one after another.
    pub fn iter(&self) -> slice::Iter<'_, Event<'a>>
        ensures { entries_of (iter_rest result) ≡ self.now }
    {
        self.events.iter()
    }

    /// The events themselves, to be changed.
    pub fn into_vec(self) -> Vec<Event<'a>>
        ensures { entries_of result.items ≡ self.entry }
    {
        let Events { events } = self;
        events
    }
}

impl<'a> Clone for Events<'a> {
    ghost is_clone = { λ events copy. copy ≡ events };

    fn clone(&self) -> Result<Events<'a>, AllocError> {
        Ok(Events {
            events: self.events.clone()?,
        })
    }
}

/// An event list. All its texts are slices of the text that it was read from.
#[derive(Clone, PartialEq, Eq, Debug, Drop)]
pub struct EventList<'a> {
    /// The last title.
    pub title: Option<&'a str>,
    /// The notes before the first event.
    pub head: Notes<'a>,
    pub events: Events<'a>,
}
