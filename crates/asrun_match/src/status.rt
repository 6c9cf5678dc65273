//! The status of a frame.
ghost use Rattle.std.specs.Prelude.{◌≡◌, ◌-◌, ◌≤◌, Some};
ghost use Rattle.playlist_core.specs.Item.{planned};
ghost use Rattle.asrun_match.specs.Aired.{aired, frame_from};
ghost use Rattle.playlist_core.specs.Difference.{same_source};
ghost use Rattle.asrun_match.specs.Status.{names, status_of};

use crate::aired::AiredRow;
use playlist_core::{Item, Source};

/// How a frame was aired.
#[derive(Clone, Copy, Debug, PartialEq, Eq)]
pub enum Status {
    /// Nothing aired.
    Missed,
    /// The planned reel aired at the planned frame.
    Ok,
    /// The planned reel aired at another frame.
    Slip,
    /// Another reel aired.
    Wrong,
}

/// A stretch of one status: a longest one, as [`reconcile`](crate::reconcile) gives it.
#[derive(Clone, Copy, PartialEq, Eq)]
pub struct Run {
    /// The frame of the broadcast day at which it begins.
    pub position: u32,
    /// Its length in frames, 1 or more.
    pub frames: u32,
    pub status: Status,
}

/// The status of a frame at which both an item and an aired row show something.
pub(crate) fn status_at(item: &Item, row: &AiredRow, at: u32) -> Status
    requires item { item.now.pos ≤ at }
    requires row { row.now.pos ≤ at }
    ensures { result ≡ status_of (Some ((planned item.now).shows (at - item.now.pos)))
        (Some ((aired row.now).shows (at - row.now.pos))) }
{
    let named = Source::read(row.src.as_bytes());
    if !names(&named, &item.src) {
        return Status::Wrong;
    }
    let planned = item.src.frame(item.src_first, at - item.pos);
    let aired = frame_from(named, row.src_first, at - row.pos);
    if planned == aired {
        Status::Ok
    } else {
        Status::Slip
    }
}

// Whether what a reel names is this source.
fn names(named: &Option<Source>, source: &Source) -> bool
    ensures { result ≡ names named.now source.now }
{
    match named {
        Some(named) => is_same_source(named, source),
        None => false,
    }
}

// The source frame at the kth frame of what airs from the frame `first` of a reel that names this.
fn frame_from(named: Option<Source>, first: u32, k: u32) -> u64
    ensures { result ≡ frame_from named first k }
{
    match named {
        Some(source) => source.frame(first, k),
        None => u64::from(first) + u64::from(k),
    }
}

fn is_same_source(one: &Source, other: &Source) -> bool
    ensures { result ≡ same_source one.now other.now }
{
    match (one, other) {
        (Source::Black, Source::Black) | (Source::Bars, Source::Bars) => true,
        (Source::Own(m), Source::Own(n)) => m.get() == n.get(),
        (Source::Lent(a, m), Source::Lent(b, n)) => a.get() == b.get() && m.get() == n.get(),
        _ => false,
    }
}
