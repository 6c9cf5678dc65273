//! Laws of days: each is the contract of a function that does nothing.
ghost use Rattle.std.specs.Prelude.{◌≡◌, ℕ, ◌<◌, ◌≤◌, ◌-◌, Contains, IsPermutation, List, Some, None, true, ◌∷◌};
ghost use Rattle.std.specs.Prelude.{count_by, slice_index_or};
ghost use Rattle.playlist_core.specs.declared.item.Item.{Item};
ghost use Rattle.playlist_core.specs.declared.day.DayState.TheVariants as DayState;
ghost use Rattle.playlist_core.specs.Picture.{covers, paint, picture_of};
ghost use Rattle.playlist_core.specs.Item.{planned};
ghost use Rattle.playlist_core.specs.Day.{Day, KeepsDayRules, picture_in, with_item};

/// The picture doesn't depend on the order in which the items are painted.
pub fn a_picture_knows_no_order()
    ensures { (day : Day) (items : List Item) → KeepsDayRules day → IsPermutation items day.items
        → picture_of planned day.frames items ≡ picture_in day }
{}

/// To add an item is to paint it.
pub fn adding_is_painting()
    ensures { (day : Day) (item : Item) → picture_in (with_item item day) ≡ paint (planned item) (picture_in day) }
{}

/// To add an item leaves all others.
pub fn adding_leaves_the_others()
    ensures { (day : Day) (item : Item) → IsPermutation (item ∷ day.items) (with_item item day).items }
{}

/// No frame of a day has two items, and each frame of a sealed day has one.
pub fn a_frame_has_one_item()
    ensures at_most { (day : Day) (p : ℕ) → KeepsDayRules day
        → count_by (λ i. covers i.pos i.frames p) day.items ≤ 1 }
    ensures sealed { (day : Day) (p : ℕ) → KeepsDayRules day → day.state ≡ DayState.Sealed → p < day.frames
        → count_by (λ i. covers i.pos i.frames p) day.items ≡ 1 }
{}

/// The cell of a frame that an item covers shows that item, and other cells are empty.
pub fn a_cell_shows_its_item()
    ensures covered { (day : Day) (item : Item) (p : ℕ) → KeepsDayRules day → Contains day.items item
        → covers item.pos item.frames p ≡ true
        → slice_index_or (picture_in day) p None ≡ Some ((planned item).shows (p - item.pos)) }
    ensures empty { (day : Day) (p : ℕ) → KeepsDayRules day
        → count_by (λ i. covers i.pos i.frames p) day.items ≡ 0 → slice_index_or (picture_in day) p None ≡ None }
{}
