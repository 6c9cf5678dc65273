//! Windows of broadcast days.
ghost use Rattle.std.specs.Prelude.{◌≡◌, true, Some, None, if◌then◌else◌};
ghost use Rattle.vault_core.specs.Window.{is_window, is_in_window};

use channel_plan::LAST_DAY;
use std::marker::Model;

/// The broadcast days from a first to a last one, both of them included, in which a lent clip may be shown.
#[derive(Clone, Copy, Debug, PartialEq, Eq)]
pub struct Window {
    first: u32,
    last: u32,
}

impl Model for Window {
    ghost use Rattle.std.specs.Prelude.{◌≡◌, true};
    ghost use Rattle.vault_core.specs.Window.{Window, is_window};

    ghost Value = { Window };

    ghost view = { λ w. record { first = w.first; last = w.last } };

    ghost invariant = { λ w. is_window w.first w.last ≡ true };

    ghost inverse = { λ w. record { first = w.first; last = w.last } };
}

impl Window {
    /// The days from `first` to `last`, or none where these aren't numbers of days, 1 to 99,999, of which the first
    /// isn't above the last.
    pub fn new(first: u32, last: u32) -> Option<Window>
        ensures { result ≡ (if is_window first last then Some (record { first = first; last = last }) else None) }
    {
        if first > 0 && first <= last && last <= LAST_DAY {
            Some(Window { first, last })
        } else {
            None
        }
    }

    /// The number of its first day.
    pub fn first(self) -> u32
        ensures { result ≡ self.first }
    {
        self.first
    }

    /// The number of its last day.
    pub fn last(self) -> u32
        ensures { result ≡ self.last }
    {
        self.last
    }

    /// Whether it has the day of this number.
    pub fn has(self, day: u32) -> bool
        ensures { result ≡ is_in_window self day }
    {
        self.first <= day && day <= self.last
    }

    /// A law: it is from a first to a last day.
    pub fn keeps_the_form(self)
        ensures { is_window self.first self.last ≡ true }
    {
        let _first = self.first;
    }
}
