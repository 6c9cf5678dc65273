//! The status of a frame.
ghost use Rattle.std.specs.Prelude.{◌≡◌, ◌+◌, ◌<◌, ◌≤◌, Some, IfSome};
ghost use Rattle.edl.specs.EntryShown.{entry_shown};
ghost use Rattle.edl_diff.specs.Layers.{ShowsFrom, cell_in, event_shown};
ghost use Rattle.edl_diff.specs.Shown.{cell_of};
ghost use Rattle.edl_diff.specs.Status.{is_still, same_source, source_named, status_of};

use crate::shown::{since, source_frame};
use edl::Event;

/// How two lists compare at a frame.
#[derive(Clone, Copy, Debug, PartialEq, Eq)]
pub enum Status {
    /// Neither list shows anything.
    Empty,
    /// Both show the same source at the same frame.
    Same,
    /// Both show the same source, at different frames.
    Slip,
    /// They show different sources.
    Other,
    /// The first list alone shows something.
    OnlyOne,
    /// The other list alone shows something.
    OnlyOther,
}

/// A stretch of one status: a longest one, as [`compare`](crate::compare) gives it.
#[derive(Clone, Copy, PartialEq, Eq)]
pub struct Run {
    /// The frame of the day at which it begins.
    pub position: u32,
    /// Its length in frames, 1 or more.
    pub frames: u32,
    pub status: Status,
}

// Black has two names.
fn source_named(reel: &str) -> &str
    ensures { result.now ≡ source_named reel.now }
{
    if reel == "BLACK" { "BL" } else { reel }
}

#[tactic(auto, unfolding(crate::specs::Status::same_source))]
fn is_same_source(reel: &str, other: &str) -> bool
    ensures { result ≡ same_source reel.now other.now }
{
    source_named(reel) == source_named(other)
}

// Whether each frame of a reel is like each other.
#[tactic(auto, unfolding(crate::specs::Status::is_still))]
fn is_still(reel: &str) -> bool
    ensures { result ≡ is_still reel.now }
{
    source_named(reel) == "BL" || reel == "BARS"
}

// The status of a frame at which both lists show something.
fn status_beside(day: u32, one: &Event<'_>, other: &Event<'_>, frame: u32) -> Status
    requires day { day ≤ 2592000 }
    requires within { frame < day }
    requires one { ShowsFrom day frame (frame + 1) (entry_shown one.now) }
    requires other { ShowsFrom day frame (frame + 1) (entry_shown other.now) }
    ensures { result ≡ status_of (cell_in day (Some (entry_shown one.now)) frame)
        (cell_in day (Some (entry_shown other.now)) frame) }
{
    if !is_same_source(one.reel, other.reel) {
        return Status::Other;
    }
    let at = source_frame(day, one, since(day, one.record_first, frame));
    let other_at = source_frame(day, other, since(day, other.record_first, frame));
    if is_still(one.reel) || at == other_at {
        Status::Same
    } else {
        Status::Slip
    }
}

/// The status of a frame at which these events are shown.
pub(crate) fn status_at(
    day: u32,
    one: Option<&Event<'_>>,
    other: Option<&Event<'_>>,
    frame: u32,
) -> Status
    requires day { day ≤ 2592000 }
    requires within { frame < day }
    requires one { IfSome (event_shown one) (ShowsFrom day frame (frame + 1)) }
    requires other { IfSome (event_shown other) (ShowsFrom day frame (frame + 1)) }
    ensures { result ≡ status_of (cell_in day (event_shown one.entry) frame)
        (cell_in day (event_shown other.entry) frame) }
{
    match (one, other) {
        (Some(one), Some(other)) => status_beside(day, one, other, frame),
        (Some(_), None) => Status::OnlyOne,
        (None, Some(_)) => Status::OnlyOther,
        (None, None) => Status::Empty,
    }
}
