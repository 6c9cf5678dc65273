// Events that were read, as ones to be written.
ghost use Rattle.std.specs.Prelude.{◌≡◌, ◌↔◌, IsTrue, IfOk, All};
ghost use Rattle.edl.specs.EntryShown.{entry_shown};
ghost use Rattle.edl.specs.WrittenShown.{HasText, out_of, out_shown};

use crate::list::{Event, MAX_EVENT_NUMBER};
use crate::write::OutEvent;
use std::alloc::AllocError;
use timecode::{Rate, day_frames};

impl<'a> OutEvent<'a> {
    /// The event as one to be written, which takes no memory. Its line is left out, and so are the further words of a
    /// key, which a list doesn't keep.
    pub fn of(event: Event<'a>) -> OutEvent<'a>
        ensures { out_shown result ≡ out_of (entry_shown event.entry) }
    {
        let Event {
            line: _,
            number,
            reel,
            channels,
            kind,
            duration,
            source_first,
            source_end,
            record_first,
            length,
            speed: _,
            notes,
        } = event;
        OutEvent {
            number,
            reel,
            channels,
            kind,
            duration,
            source_first,
            source_end,
            record_first,
            length,
            notes,
        }
    }

    /// Whether [`write_to_string`](crate::write_to_string) takes the event: its number and its duration have their few
    /// digits, and its places lie in the day.
    pub fn can_be_written(&self, rate: Rate) -> bool
        ensures { IsTrue result ↔ HasText rate self.now }
    {
        let day = day_frames(rate);
        self.number <= MAX_EVENT_NUMBER
            && self.duration.unwrap_or(0) <= 999
            && self.source_first <= day
            && self.source_end <= day
            && self.record_first < day
            && self.length < day
    }
}

impl<'a> Event<'a> {
    /// The event as one to be written, of which the notes are copied.
    pub fn to_out(&self) -> Result<OutEvent<'a>, AllocError>
        ensures { IfOk result (λ out. out_shown out ≡ out_of (entry_shown self.now)) }
    {
        Ok(OutEvent::of(self.clone()?))
    }
}

/// Whether [`write_to_string`](crate::write_to_string) takes these events.
pub fn can_be_written(rate: Rate, events: &[OutEvent<'_>]) -> bool
    ensures { IsTrue result ↔ All (HasText rate) events.now }
{
    for event in events {
        if !event.can_be_written(rate) {
            return false;
        }
    }
    true
}
