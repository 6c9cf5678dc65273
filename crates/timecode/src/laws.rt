//! Laws of counting: each is the contract of a function that does nothing.
ghost use Rattle.std.specs.Prelude.{◌≡◌, ℕ, ◌<◌, ◌%◌, ◌==◌, ◌↔◌, IsTrue, IsNone, Ok, Contains, if◌then◌else◌};
ghost use Rattle.timecode.specs.declared.rates.Rate.{Rate};
ghost use Rattle.timecode.specs.Address.{Address, is_in_range, is_dropped};
ghost use Rattle.timecode.specs.Counting.{frame_at, address_of_frame, day_length, uncounted_in_minute};
ghost use Rattle.timecode.specs.Counting.{uncounted_in_hour};
ghost use Rattle.timecode.specs.Label.{frame_text};
ghost use Rattle.timecode.specs.LabelReading.{reading_of_text};

use crate::rates::Rate;

/// The four rates of `Rate::ALL` are all there are.
pub fn all_rates_are_listed()
    ensures { (rate : Rate) → Contains Rate.ALL rate }
{}

/// The frames of a day have different addresses.
pub fn addresses_of_a_day_differ()
    ensures { (rate : Rate) (m n : ℕ) → m < day_length rate → n < day_length rate →
        address_of_frame rate m ≡ address_of_frame rate n → m ≡ n }
{}

/// The text of a frame's label is read back as that frame.
pub fn labels_are_read_back()
    ensures { (rate : Rate) (n : ℕ) → n < day_length rate → reading_of_text rate (frame_text rate n) ≡ Ok n }
{}

/// The labels in range that no frame of the day has are those that drop-frame counting drops: of
/// each minute but every tenth, frames 00 and 01 of its first second.
pub fn every_other_label_is_counted()
    ensures { (rate : Rate) (a : Address) → IsTrue (is_in_range rate a) →
        IsNone (frame_at rate a) ↔ IsTrue (is_dropped rate a) }
{}

/// Drop-frame counting drops two labels of each minute but every tenth, and so 108 of each hour.
pub fn two_labels_a_minute_are_dropped()
    ensures minute { (h m : ℕ) → h < 24 → m < 60 → uncounted_in_minute h m ≡ (if m % 10 == 0 then 0 else 2) }
    ensures hour { (h : ℕ) → h < 24 → uncounted_in_hour h ≡ 108 }
{}
