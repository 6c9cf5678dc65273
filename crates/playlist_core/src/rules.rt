//! The test of a day's items by the rules.
ghost use Rattle.std.specs.Prelude.{◌≡◌, ◌↔◌, IsTrue, true};
ghost use Rattle.std.specs.List.{list_all};
ghost use Rattle.playlist_core.specs.Order.{AreApart};
ghost use Rattle.playlist_core.specs.Item.{is_item, planned};
ghost use Rattle.playlist_core.specs.Day.{FitState, KeepsDayRules};

use crate::day::DayState;
use crate::item::Item;
use crate::numbers::have_own_numbers;
use crate::places::{first_gap, lie_apart};
use channel_plan::LAST_DAY;

/// Whether a day of this number and so many frames keeps the rules in this state with these items.
pub(crate) fn keeps_rules(number: u32, frames: u32, state: DayState, items: &[Item]) -> bool
    ensures { IsTrue result ↔ KeepsDayRules (record {
      number = number;
      frames = frames;
      state = state;
      items = items.now;
    }) }
{
    number > 0
        && number <= LAST_DAY
        && lie_apart(items, frames)
        && have_own_numbers(items)
        && are_in_range(items)
        && fit_state(state, frames, items)
}

fn are_in_range(items: &[Item]) -> bool
    ensures { result ≡ list_all is_item items.now }
{
    items.iter().all(|i| i.is_in_range())
}

// Whether there are no items where the day isn't there, and no gaps where it is sealed.
fn fit_state(state: DayState, frames: u32, items: &[Item]) -> bool
    requires { AreApart planned 0 frames items.now }
    ensures { IsTrue result ↔ FitState state frames items.now }
{
    match state {
        DayState::NotThere => items.is_empty(),
        DayState::Open => true,
        DayState::Sealed => first_gap(items, frames).is_none(),
    }
}
