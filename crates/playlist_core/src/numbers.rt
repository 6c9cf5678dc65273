//! The numbers of items.
ghost use Rattle.std.specs.Prelude.{◌≡◌, ℕ, ◌<◌, ◌≤◌, ◌-◌, ◌==◌, ◌||◌, ◌↔◌, IfOk, IsTrue, Some, not, false, length};
ghost use Rattle.std.specs.Prelude.{slice_index_or};
ghost use Rattle.playlist_core.specs.Limits.{most_items};
ghost use Rattle.playlist_core.specs.Picture.{least};
ghost use Rattle.playlist_core.specs.Day.{AreNumbered, free_number as free_number_of};
ghost use Rattle.playlist_core.specs.Filling.{AreMarked};

use crate::item::{Item, MAX_ITEMS};
use std::alloc::{AllocError, Global};
use std::marker::Model;

// How many numbers there are from 0 to the largest.
const NUMBERS: usize = MAX_ITEMS as usize + 1;

/// The least number that no item has.
pub(crate) fn free_number(items: &[Item]) -> Option<u16>
    requires { AreNumbered items.now }
    ensures { result ≡ free_number_of items.now }
{
    let mut taken = [false; NUMBERS];
    mark_numbers(&mut taken, items);
    first_free(&taken, 1)
}

// Marks the numbers of items, where none is marked.
fn mark_numbers(taken: &mut [bool], items: &[Item])
    requires room { length taken.old ≡ NUMBERS }
    requires none { (n : ℕ) → n < NUMBERS → slice_index_or taken.old n false ≡ false }
    requires numbered { AreNumbered items.now }
    ensures room { length taken.new ≡ NUMBERS }
    ensures marks { AreMarked taken.new items.now }
{
    for item in items {
        taken[usize::from(item.n)] = true;
    }
}

// The first number from this one on that isn't marked.
fn first_free(taken: &[bool], from: usize) -> Option<u16>
    requires room { length taken.now ≡ NUMBERS }
    requires within { from ≤ NUMBERS }
    ensures { result ≡ least (λ n. not (slice_index_or taken.now n false)) from (NUMBERS - from) }
{
    for number in from..NUMBERS {
        if !taken[number] {
            return Some(number as u16);
        }
    }
    None
}

/// Which numbers are taken, and the least that is free. Each number is looked at once while one after another is taken.
#[derive(Drop)]
pub(crate) struct TakenNumbers {
    taken: Vec<bool>,
    free: Option<u16>,
}

impl Model for TakenNumbers {
    ghost use Rattle.std.specs.Prelude.{◌≡◌, Bool, List, false, length, not, slice_index_or};
    ghost use Rattle.playlist_core.specs.Limits.{most_items};
    ghost use Rattle.playlist_core.specs.declared.numbers.TheConstants.{NUMBERS};
    ghost use Rattle.playlist_core.specs.Picture.{least};

    ghost Value = { List Bool };

    ghost view = { λ t. t.taken.items };

    ghost invariant = { λ t. (length t.taken.items ≡ NUMBERS)
        × (t.free ≡ least (λ n. not (slice_index_or t.taken.items n false)) 1 most_items) };
}

impl TakenNumbers {
    /// Those of these items.
    pub(crate) fn of(alloc: Global, items: &[Item]) -> Result<TakenNumbers, AllocError>
        requires { AreNumbered items.now }
        ensures { IfOk result (λ t. AreMarked t items.now) }
    {
        let mut taken = Vec::from_slice(alloc, &[false; NUMBERS])?;
        mark_numbers(&mut taken, items);
        let free = first_free(&taken, 1);
        Ok(TakenNumbers { taken, free })
    }

    /// The least that is free.
    pub(crate) fn free(&self) -> Option<u16>
        ensures { result ≡ least (λ n. not (slice_index_or self.now n false)) 1 most_items }
    {
        self.free
    }

    /// Takes the least that is free.
    pub(crate) fn take(&mut self, number: u16)
        requires { least (λ n. not (slice_index_or self.old n false)) 1 most_items ≡ Some number }
        ensures { (n : ℕ) → n ≤ most_items
            → slice_index_or self.new n false ≡ (number == n || slice_index_or self.old n false) }
    {
        let number = usize::from(number);
        self.taken[number] = true;
        self.free = first_free(&self.taken, number + 1);
    }
}

/// Whether each item has a number of its own, from 1 to the largest.
pub(crate) fn have_own_numbers(items: &[Item]) -> bool
    ensures { IsTrue result ↔ AreNumbered items.now }
{
    let mut taken = [false; NUMBERS];
    for item in items {
        let number = usize::from(item.n);
        if number == 0 || number >= NUMBERS || taken[number] {
            return false;
        }
        taken[number] = true;
    }
    true
}
