//! Sweeps over items in the order of their positions.
ghost use Rattle.std.specs.Prelude.{◌≡◌, ℕ, ◌+◌, ◌<◌, ◌≤◌, ◌==◌, ◌↔◌};
ghost use Rattle.std.specs.Prelude.{Contains, IsTrue, Some, None, length, max, nat_lt};
ghost use Rattle.std.specs.Prelude.{position as first_that, if◌then◌else◌};
ghost use Rattle.std.specs.List.{position_or_len};
ghost use Rattle.playlist_core.specs.Picture.{first_empty, first_painted, picture_of};
ghost use Rattle.playlist_core.specs.Order.{AreApart};
ghost use Rattle.playlist_core.specs.Item.{planned};

use crate::item::Item;

/// Whether items lie one behind the other within the day.
pub(crate) fn lie_apart(items: &[Item], frames: u32) -> bool
    ensures { IsTrue result ↔ AreApart planned 0 frames items.now }
{
    let mut covered: u64 = 0;
    for item in items {
        if item.frames == 0 || u64::from(item.pos) < covered {
            return false;
        }
        covered = item.end();
    }
    covered <= u64::from(frames)
}

/// The first frame of the day that no item covers.
pub(crate) fn first_gap(items: &[Item], frames: u32) -> Option<u32>
    requires { AreApart planned 0 frames items.now }
    ensures { result ≡ first_empty (picture_of planned frames items.now) }
{
    let mut covered: u64 = 0;
    for item in items {
        if covered < u64::from(item.pos) {
            return Some(covered as u32);
        }
        covered = item.end();
    }
    if covered < u64::from(frames) {
        Some(covered as u32)
    } else {
        None
    }
}

/// The first frame of a range that an item covers.
pub(crate) fn first_taken(items: &[Item], position: u32, frames: u32) -> Option<u32>
    requires some { 0 < frames }
    requires apart { (day : ℕ) × AreApart planned 0 day items.now }
    ensures { (day : ℕ) → AreApart planned 0 day items.now → position + frames ≤ day →
        result ≡ first_painted position frames (picture_of planned day items.now) }
{
    match items.get(place_for(items, position)) {
        Some(next) => taken_by(next, position, frames),
        None => None,
    }
}

/// The first frame of a range that is covered, where this is the first item that ends behind its beginning.
pub(crate) fn taken_by(next: &Item, position: u32, frames: u32) -> Option<u32>
    ensures { result ≡ (if nat_lt next.now.pos (position + frames) then Some (max position next.now.pos)
        else None) }
{
    if u64::from(next.pos) < u64::from(position) + u64::from(frames) {
        Some(position.max(next.pos))
    } else {
        None
    }
}

/// Where an item that begins at a position belongs: in front of the first that ends behind it.
pub(crate) fn place_for(items: &[Item], position: u32) -> usize
    requires { (day : ℕ) × AreApart planned 0 day items.now }
    ensures value { result ≡ position_or_len (λ i. nat_lt position (i.pos + i.frames)) items.now }
    ensures within { result ≤ length items.now }
{
    items.partition_point(|i| i.end() <= u64::from(position))
}

/// Where the item of a number stands.
pub(crate) fn place_of(items: &[Item], number: u32) -> Option<usize>
    ensures { result ≡ first_that (λ i. i.n == number) items.now }
{
    items.iter().position(|i| u32::from(i.n) == number)
}

/// Whether just this item is among them: it can only stand where one that begins at its position belongs.
pub(crate) fn has_item(items: &[Item], item: &Item) -> bool
    requires { (day : ℕ) × AreApart planned 0 day items.now }
    ensures { IsTrue result ↔ Contains items.now item.now }
{
    match items.get(place_for(items, item.pos)) {
        Some(found) => are_same(found, item),
        None => false,
    }
}

fn are_same(one: &Item, other: &Item) -> bool
    ensures { IsTrue result ↔ one.now ≡ other.now }
{
    *one == *other
}
