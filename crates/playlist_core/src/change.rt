//! A broadcast day after a command, and what it has that it hadn't before.
ghost use Rattle.std.specs.Prelude.{◌≡◌, ℕ, IfOk};
ghost use Rattle.std.specs.Prelude.{◌==◌, ◌&&◌, not, filter, position as first_that};
ghost use Rattle.playlist_core.specs.Item.{planned};
ghost use Rattle.playlist_core.specs.Order.{AreApart};
ghost use Rattle.playlist_core.specs.Day.{without_item};
ghost use Rattle.playlist_core.specs.Difference.{changed_day, same_item, is_among, not_among, IsChange};
ghost use Rattle.playlist_core.specs.Walk.{begin_at, first_is, from_position};

use crate::{DayPlan, DayState, Item};
use std::alloc::Global;
use std::marker::Model;
use timecode::Unavailable;

/// A broadcast day after a command, and what the command changed of it. There was such a day before, which kept the
/// rules.
#[derive(Drop)]
pub struct DayChange {
    day: DayPlan,
    was: DayState,
    deleted: Vec<Item>,
    inserted: Vec<Item>,
}

impl Model for DayChange {
    ghost use Rattle.playlist_core.specs.Difference.{ChangedDay, IsChange};

    ghost Value = { ChangedDay };

    ghost view = { λ c. record { day = c.day; was = c.was; deleted = c.deleted.items; inserted = c.inserted.items } };

    ghost invariant = { λ c. IsChange (record {
      day = c.day;
      was = c.was;
      deleted = c.deleted.items;
      inserted = c.inserted.items;
    }) };
}

impl DayChange {
    /// The day `after`, which was `before`. Memory may run out.
    pub fn between(
        alloc: Global,
        before: &DayPlan,
        after: DayPlan,
    ) -> Result<DayChange, Unavailable>
        ensures { IfOk result (λ c. c ≡ changed_day before.now after) }
    {
        before.keep_the_rules();
        after.keep_the_rules();
        let deleted = items_unlike(alloc, before.items(), after.items())?;
        let inserted = items_unlike(alloc, after.items(), before.items())?;
        Ok(DayChange::made(before, after, deleted, inserted))
    }

    /// The day `after`, which was `before` and had the same items: one that a command opened or sealed.
    pub fn of_state(alloc: Global, before: &DayPlan, after: DayPlan) -> DayChange
        requires same { before.now.items ≡ after.items }
        ensures { result ≡ changed_day before.now after }
    {
        DayChange::made(before, after, Vec::new(alloc), Vec::new(alloc))
    }

    /// The day `after`, which was `before`: of its items none differs but that of this number. Memory may run out.
    pub fn of_item(
        alloc: Global,
        before: &DayPlan,
        after: DayPlan,
        number: u32,
    ) -> Result<DayChange, Unavailable>
        requires others { (without_item number before.now).items ≡ (without_item number after).items }
        ensures { IfOk result (λ c. c ≡ changed_day before.now after) }
    {
        let deleted = numbered_unlike(alloc, before.items(), number, &after)?;
        let inserted = numbered_unlike(alloc, after.items(), number, before)?;
        Ok(DayChange::made(before, after, deleted, inserted))
    }

    fn made(before: &DayPlan, day: DayPlan, deleted: Vec<Item>, inserted: Vec<Item>) -> DayChange
        requires deleted { deleted.items ≡ not_among day.items before.now.items }
        requires inserted { inserted.items ≡ not_among before.now.items day.items }
        ensures { result ≡ changed_day before.now day }
    {
        before.keep_the_rules();
        DayChange {
            was: before.state(),
            deleted,
            inserted,
            day,
        }
    }

    /// A law: it is what a day that kept the rules became.
    pub fn keep_the_rules(&self)
        ensures { IsChange self.now }
    {
        let _was = self.was;
    }

    /// The day afterwards.
    pub fn day(&self) -> &DayPlan
        ensures { result.now ≡ self.now.day }
    {
        &self.day
    }

    /// Whether the day was there before, open or sealed.
    pub fn was(&self) -> DayState
        ensures { result ≡ self.now.was }
    {
        self.was
    }

    /// The items that the day had and hasn't any more, in the order of their positions. One of which a field was
    /// changed is deleted, and inserted as it is now.
    pub fn deleted(&self) -> &[Item]
        ensures { result.now ≡ self.now.deleted }
    {
        &self.deleted
    }

    /// The items that the day has and hadn't before, in the order of their positions.
    pub fn inserted(&self) -> &[Item]
        ensures { result.now ≡ self.now.inserted }
    {
        &self.inserted
    }
}

// Those of the items that aren't among others. Both lie one behind the other, so one walk goes over both.
fn items_unlike(alloc: Global, items: &[Item], others: &[Item]) -> Result<Vec<Item>, Unavailable>
    requires items { (frames : ℕ) × AreApart planned 0 frames items.now }
    requires others { (frames : ℕ) × AreApart planned 0 frames others.now }
    ensures { IfOk result (λ unlike. unlike.items ≡ not_among others.now items.now) }
{
    let mut unlike = Vec::new(alloc);
    let mut rest = others;
    for item in items {
        rest = from_position(rest, item.pos);
        if !begin_with(rest, item) {
            unlike.push(*item)?;
        }
    }
    Ok(unlike)
}

// The items from the first on that doesn't begin before a position.
fn from_position(items: &[Item], position: u32) -> &[Item]
    ensures { result.now ≡ from_position position items.now }
{
    let place = first_from(items, position).unwrap_or(items.len());
    &items[place..]
}

fn first_from(items: &[Item], position: u32) -> Option<usize>
    ensures { result ≡ first_that (begin_at position) items.now }
{
    items.iter().position(|item| item.pos >= position)
}

// Whether this item is the first of these.
fn begin_with(items: &[Item], item: &Item) -> bool
    ensures { result ≡ first_is items.now item.now }
{
    match items.first() {
        Some(first) => are_same(first, item),
        None => false,
    }
}

fn are_same(one: &Item, other: &Item) -> bool
    ensures { result ≡ same_item one.now other.now }
{
    *one == *other
}

// Those of the items of a number that a day doesn't have.
fn numbered_unlike(
    alloc: Global,
    items: &[Item],
    number: u32,
    day: &DayPlan,
) -> Result<Vec<Item>, Unavailable>
    ensures { IfOk result (λ unlike.
        unlike.items ≡ filter (λ i. (i.n == number) && not (is_among day.now.items i)) items.now) }
{
    Ok(
        items
            .iter()
            .copied()
            .filter(|item| u32::from(item.n) == number && !has_item(day, item))
            .collect(alloc)?,
    )
}

// Whether this item, with all its fields, is one of the day's.
fn has_item(day: &DayPlan, item: &Item) -> bool
    ensures { result ≡ is_among day.now.items item.now }
{
    day.has(item)
}
