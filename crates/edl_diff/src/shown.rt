//! What an event shows.
ghost use Rattle.std.specs.Prelude.{◌≡◌, ◌-◌, ◌<◌, ◌≤◌, ◌==◌, true, IfSome};
ghost use Rattle.edl.specs.EntryShown.{entry_shown};
ghost use Rattle.edl_diff.specs.Layers.{IsPlaced, event_shown};
ghost use Rattle.edl_diff.specs.Shown.{since, source_frame};

use edl::Event;

/// How many frames a frame comes behind the first one, through the day's end.
pub(crate) fn since(day: u32, first: u32, frame: u32) -> u32
    requires { first ≤ day }
    ensures { result ≡ since day first frame }
{
    if first <= frame {
        frame - first
    } else {
        day - first + frame
    }
}

/// The source frame of the kth frame of an event's record.
#[tactic(auto, unfolding(crate::specs::Shown::source_frame), using(crate::proofs::ShownLemmas::product_small))]
pub(crate) fn source_frame(day: u32, event: &Event<'_>, k: u32) -> u64
    requires day { day ≤ 2592000 }
    requires within { k < event.now.length }
    requires placed { IsPlaced day (entry_shown event.now) }
    ensures { result ≡ source_frame (entry_shown event.now) k }
{
    let source = event.source_end - event.source_first;
    u64::from(event.source_first) + u64::from(k) * u64::from(source) / u64::from(event.length)
}

// Whether an event's source is as long as its record.
fn is_even(event: &Event<'_>) -> bool
    requires { event.now.source_first ≤ event.now.source_end }
    ensures { result ≡ (event.now.source_end - event.now.source_first == event.now.length) }
{
    event.source_end - event.source_first == event.length
}

/// Whether an event, if there is one, shows frame after frame of its source.
pub(crate) fn goes_evenly(event: Option<&Event<'_>>) -> bool
    requires { IfSome (event_shown event) (λ e. e.source_first ≤ e.source_end) }
    ensures { result ≡ true → IfSome (event_shown event.entry) (λ e. e.source_end - e.source_first ≡ e.length) }
{
    match event {
        Some(event) => is_even(event),
        None => true,
    }
}
