//! Laws of lists: each is the contract of a function that does nothing.
ghost use Rattle.std.specs.Prelude.{◌≡◌, ◌≤◌, ◌↔◌, ℕ, Bool, List, [], Some, IsTrue, All};
ghost use Rattle.timecode.specs.declared.rates.Rate.{Rate};
ghost use Rattle.edl.specs.Limits.{most_events};
ghost use Rattle.edl.specs.Entry.{EventEntry};
ghost use Rattle.edl.specs.Equal.{entry_eq};
ghost use Rattle.edl.specs.Written.{OutEntry, list_text};
ghost use Rattle.edl.specs.ListOf.{IsListOf};
ghost use Rattle.edl.specs.ReadBack.{CanBeReadBack, IsPlain, all_read_back, nonzero_count};

use timecode::laws::labels_are_read_back;

/// What is read of a written list is what was written: its title, and each event with its edit, its places and its
/// notes.
pub fn written_lists_are_read_back()
    ensures { (rate : Rate) (ignore : Bool) (title : List ℕ) (events : List OutEntry) → IsPlain 60 title
        → All (CanBeReadBack rate) events → nonzero_count events ≤ most_events
        → IsListOf rate ignore (list_text title rate events) (Some title) [] (all_read_back rate 4 events) }
{
    labels_are_read_back();
}

/// Two events are equal just where all that contracts see of them is the same.
pub fn equal_events_say_the_same()
    ensures { (a b : EventEntry) → IsTrue (entry_eq a b) ↔ (a ≡ b) }
{}
