//! Which event of a list is on top, laid out in pieces of the day.
ghost use Rattle.std.specs.Prelude.{◌≡◌, ◌+◌, ◌<◌, ◌≤◌, ◌^◌, ℕ, All, IfOk, Some, None, [], ◌∷◌, length, if◌then◌else◌};
ghost use Rattle.edl.specs.EntryShown.{entries_of, entry_shown};
ghost use Rattle.edl_diff.specs.Layers.{IsPlaced, behind, event_numbered, event_shown, is_painted, next_of, over};
ghost use Rattle.edl_diff.specs.Layers.{piece_at, top_from};
ghost use Rattle.edl_diff.specs.Shown.{covers};

use crate::track::{Track, is_on};
use edl::Event;
use std::alloc::{AllocError, Global};

/// A stretch of the day, from where the piece before it ends.
#[derive(Clone, Copy)]
pub(crate) struct Piece {
    pub end: u32,
    /// The number of the event that is on top over it, counted from 0.
    pub event: Option<usize>,
}

/// A stretch over which neither of two lists comes to another event.
#[derive(Clone, Copy)]
pub(crate) struct Stretch {
    pub end: u32,
    pub one: Option<usize>,
    pub other: Option<usize>,
}

/// The stretch up to where the first piece of either ends.
pub(crate) fn next_stretch(ones: &[Piece], others: &[Piece]) -> Option<Stretch>
    ensures { result ≡ next_of ones.now others.now }
{
    let one = ones.first()?;
    let other = others.first()?;
    Some(Stretch {
        end: one.end.min(other.end),
        one: one.event,
        other: other.event,
    })
}

/// The pieces without the first, if it has ended.
pub(crate) fn behind(pieces: &[Piece], end: u32) -> &[Piece]
    ensures { result.now ≡ behind end pieces.now }
{
    match pieces.first() {
        Some(piece) if end >= piece.end => &pieces[1..],
        _ => pieces,
    }
}

// Pieces laid over others.
fn lay_over(alloc: Global, above: &[Piece], under: &[Piece]) -> Result<Vec<Piece>, AllocError>
    ensures { IfOk result (λ pieces. (frame : ℕ) →
        piece_at pieces.items frame ≡ over (piece_at above.now frame) (piece_at under.now frame)) }
{
    let mut pieces = Vec::new(alloc);
    let mut ones = above;
    let mut others = under;
    while let Some(stretch) = next_stretch(ones, others) {
        pieces.push(Piece {
            end: stretch.end,
            event: stretch.one.or(stretch.other),
        })?;
        ones = behind(ones, stretch.end);
        others = behind(others, stretch.end);
    }
    Ok(pieces)
}

// The pieces of one event on the track, which may go on through the day's end.
fn pieces_of(day: u32, event: &Event<'_>, number: usize) -> [Piece; 3]
    requires day { day ≤ 2592000 }
    requires placed { IsPlaced day (entry_shown event.now) }
    ensures { (frame : ℕ) → frame < day → piece_at result frame
        ≡ Some (if covers day (entry_shown event.now) frame then Some number else None) }
{
    let end = event.record_first + event.length;
    let before = Piece {
        end: event.record_first,
        event: None,
    };
    if end <= day {
        [
            before,
            Piece {
                end,
                event: Some(number),
            },
            Piece {
                end: day,
                event: None,
            },
        ]
    } else {
        [
            Piece {
                end: end - day,
                event: Some(number),
            },
            before,
            Piece {
                end: day,
                event: Some(number),
            },
        ]
    }
}

// The day, in which one event alone may be on the track.
#[tactic(auto, unfolding(crate::specs::Layers::top_from))]
fn lay_event(
    alloc: Global,
    day: u32,
    track: Track,
    event: &Event<'_>,
    number: usize,
) -> Result<Vec<Piece>, AllocError>
    requires day { day ≤ 2592000 }
    requires placed { IsPlaced day (entry_shown event.now) }
    ensures { IfOk result (λ pieces. (frame : ℕ) → frame < day →
        piece_at pieces.items frame ≡ Some (top_from day track number (entry_shown event.now ∷ []) frame)) }
{
    if is_on(track, event) {
        Vec::from_slice(alloc, &pieces_of(day, event, number))
    } else {
        lay_nothing(alloc, day)
    }
}

// The day, in which nothing is on the track.
fn lay_nothing(alloc: Global, day: u32) -> Result<Vec<Piece>, AllocError>
    ensures { IfOk result (λ pieces. (frame : ℕ) → frame < day → piece_at pieces.items frame ≡ Some None) }
{
    Vec::from_slice(
        alloc,
        &[Piece {
            end: day,
            event: None,
        }],
    )
}

/// The day, with the number of the event that is on top at each frame. The events are counted from this number.
pub(crate) fn lay_out(
    alloc: Global,
    day: u32,
    track: Track,
    events: &[Event<'_>],
    number: usize,
) -> Result<Vec<Piece>, AllocError>
    requires day { day ≤ 2592000 }
    requires few { number + length events.now < 2 ^ 64 }
    requires placed { All (IsPlaced day) (entries_of events.now) }
    ensures { IfOk result (λ pieces. (frame : ℕ) → frame < day →
        piece_at pieces.items frame ≡ Some (top_from day track number (entries_of events.now) frame)) }
{
    if events.is_empty() {
        return lay_nothing(alloc, day);
    }
    if events.len() == 1 {
        return lay_event(alloc, day, track, &events[0], number);
    }
    let (front, back) = events.split_at(events.len() / 2);
    let under = lay_out(alloc, day, track, front, number)?;
    let above = lay_out(alloc, day, track, back, number + front.len())?;
    lay_over(alloc, &above, &under)
}

/// The event of this number.
pub(crate) fn event_numbered<'b, 'a>(
    events: &'b [Event<'a>],
    number: Option<usize>,
) -> Option<&'b Event<'a>>
    ensures { event_shown result ≡ event_numbered (entries_of events.now) number }
{
    match number {
        Some(number) => events.get(number),
        None => None,
    }
}
