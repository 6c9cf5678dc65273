//! A broadcast day.
ghost use Rattle.std.specs.Prelude.{◌≡◌, ◌==◌, ◌<◌, ◌≤◌, Ok, true, IfSome, IfNone, IfOk, IfErr, OnOk, OnErr};
ghost use Rattle.std.specs.Prelude.{◌↔◌, [], find, Contains, IsPermutation, IsTrue, List};
ghost use Rattle.std.specs.List.Sorted.{IsNonDecreasingBy};
ghost use Rattle.timecode.specs.Counting.{day_length};
ghost use Rattle.channel_plan.specs.Limits.{last_day};
ghost use Rattle.channel_plan.specs.Refusal.{refused, IsRefusalOf};
ghost use Rattle.playlist_core.specs.Limits.{most_mix};
ghost use Rattle.playlist_core.specs.Item.{is_kind};
ghost use Rattle.playlist_core.specs.Day.{KeepsDayRules, day_opened, day_sealed, if_open, in_state, item_for};
ghost use Rattle.playlist_core.specs.Day.{item_in, with_item, without_item};
ghost use Rattle.playlist_core.specs.Day.{number_removed, picture_in, picture_without, with_removed};
ghost use Rattle.playlist_core.specs.declared.item.Item.{Item};
ghost use Rattle.playlist_core.specs.declared.day.DayState.TheVariants as DayState;

use crate::fitting::{first_outside, first_recalled, fitting_source, numbered, refusal_at};
use crate::item::{Item, NewItem};
use crate::numbers::free_number;
use crate::places::{first_gap, first_taken, has_item, place_for, place_of};
use crate::rules::keeps_rules;
use crate::source::Sources;
use channel_plan::{At, Code, PlanRow, Refusal};
use std::alloc::Global;
use std::marker::Model;
use timecode::{Unavailable, day_frames};

/// Whether a day is there, and whether its items may still change.
#[derive(Clone, Copy, PartialEq, Eq)]
pub enum DayState {
    NotThere,
    Open,
    /// Its items fill it, and change no more.
    Sealed,
}

/// A broadcast day of a channel, there or not: its items lie one behind the other, and fill it once it is sealed.
#[derive(Drop)]
pub struct DayPlan {
    number: u32,
    frames: u32,
    state: DayState,
    items: Vec<Item>,
}

impl Model for DayPlan {
    ghost use Rattle.playlist_core.specs.Day.{Day, KeepsDayRules};

    ghost Value = { Day };

    ghost view = { λ d. record { number = d.number; frames = d.frames; state = d.state; items = d.items.items } };

    ghost invariant = { λ d. KeepsDayRules (record {
      number = d.number;
      frames = d.frames;
      state = d.state;
      items = d.items.items;
    }) };
}

impl DayPlan {
    /// The day of this number, 1 to 99,999, of a channel, in this state and with these items in whatever order they
    /// come. Rows that are no day are refused with [`Code::NotOurs`]: a number out of range, items that overlap, run
    /// over the day's end, have numbers out of range or not their own, or fields out of range; items of a day that
    /// isn't there, and a sealed day that they don't fill.
    pub fn from_rows(
        number: u32,
        plan: &PlanRow,
        state: DayState,
        items: Vec<Item>,
    ) -> Result<DayPlan, Refusal>
        ensures day { IfOk result (λ d. (d.number ≡ number) × (d.frames ≡ day_length plan.now.rate)
            × (d.state ≡ state) × IsPermutation items.items d.items) }
        ensures refusal { IfErr result (λ e. (e ≡ refused Code.NotOurs)
            × ((order : List Item) → IsPermutation items.items order → KeepsDayRules (record {
              number = number;
              frames = day_length plan.now.rate;
              state = state;
              items = order;
            }) → ⊥)) }
    {
        let frames = day_frames(plan.rate);
        let mut items = items;
        items.sort_unstable_by_key(|i| i.pos);
        if keeps_rules(number, frames, state, &items) {
            Ok(DayPlan {
                number,
                frames,
                state,
                items,
            })
        } else {
            Err(Refusal::of(Code::NotOurs))
        }
    }

    /// The day of this number of a channel, where it isn't there: without items.
    pub fn not_there(alloc: Global, number: u32, plan: &PlanRow) -> DayPlan
        requires some { 0 < number }
        requires digits { number ≤ last_day }
        ensures { result ≡ record {
          number = number;
          frames = day_length plan.now.rate;
          state = DayState.NotThere;
          items = [];
        } }
    {
        DayPlan {
            number,
            frames: day_frames(plan.rate),
            state: DayState::NotThere,
            items: Vec::new(alloc),
        }
    }

    /// Its number, 1 to 99,999.
    pub fn number(&self) -> u32
        ensures { result ≡ self.now.number }
    {
        self.number
    }

    /// How many frames it has.
    pub fn frames(&self) -> u32
        ensures { result ≡ self.now.frames }
    {
        self.frames
    }

    pub fn state(&self) -> DayState
        ensures { result ≡ self.now.state }
    {
        self.state
    }

    /// Its items, in the order of their positions.
    pub fn items(&self) -> &[Item]
        ensures { result.now ≡ self.now.items }
    {
        &self.items
    }

    /// Its items again, in the order of their numbers. Memory may run out.
    pub fn items_by_number(&self, alloc: Global) -> Result<Vec<Item>, Unavailable>
        ensures items { IfOk result (λ v. IsPermutation self.now.items v.items) }
        ensures order { IfOk result (λ v. IsNonDecreasingBy (λ i. i.n) v.items) }
    {
        let mut items = Vec::from_slice(alloc, &self.items)?;
        items.sort_unstable_by_key(|i| i.n);
        Ok(items)
    }

    /// Whether just this item is one of its items.
    pub fn has(&self, item: &Item) -> bool
        ensures { IsTrue result ↔ Contains self.now.items item.now }
    {
        self.keep_the_rules();
        has_item(&self.items, item)
    }

    /// A law: a day keeps the rules.
    pub fn keep_the_rules(&self)
        ensures { KeepsDayRules self.now }
    {
        let _number = self.number;
    }

    /// Opens the day and gives its number. A day that is there is refused with [`Code::DayKnown`].
    pub fn open_day(&mut self) -> Result<u32, Refusal>
        ensures reply { result ≡ day_opened self.old }
        ensures day { self.new ≡ in_state DayState.Open (day_opened self.old) self.old }
    {
        if self.state != DayState::NotThere {
            return Err(Refusal::of(Code::DayKnown));
        }
        self.state = DayState::Open;
        Ok(self.number)
    }

    /// Whether its items may change, or why not: `NoDay`, `DaySealed`.
    pub fn check_open(&self) -> Result<(), Refusal>
        ensures reply { result ≡ if_open self.now.state (Ok tt) }
        ensures open { OnOk result (self.now.state ≡ DayState.Open) }
    {
        match self.state {
            DayState::NotThere => Err(Refusal::of(Code::NoDay)),
            DayState::Open => Ok(()),
            DayState::Sealed => Err(Refusal::of(Code::DaySealed)),
        }
    }

    // The open day of this number with these items.
    pub(crate) fn open_with(number: u32, frames: u32, items: Vec<Item>) -> DayPlan
        requires { KeepsDayRules (record {
          number = number;
          frames = frames;
          state = DayState.Open;
          items = items.items;
        }) }
        ensures { result ≡ record {
          number = number;
          frames = frames;
          state = DayState.Open;
          items = items.items;
        } }
    {
        DayPlan {
            number,
            frames,
            state: DayState::Open,
            items,
        }
    }

    /// The same day again.
    pub fn copied(&self, alloc: Global) -> Result<DayPlan, Unavailable>
        ensures { IfOk result (λ d. d ≡ self.now) }
    {
        // One item more finds room: else putting it in would move all items once more.
        let mut items = Vec::with_capacity(alloc, self.items.len() + 1)?;
        items.extend_from_slice(&self.items)?;
        Ok(DayPlan {
            number: self.number,
            frames: self.frames,
            state: self.state,
            items,
        })
    }

    /// The item that is added, with the least free number, or the first refusal in this order: `NoDay`, `DaySealed`,
    /// `EmptyItem`, `PastDayEnd`; of its source `NoSource`, `ClipRetired`, `Withdrawn`, `OutsideWindow`, `RateDiffers`,
    /// `SourceRange`; `MixLong`, `Overlap` with the label of the first taken frame, `DayFull`.
    #[tactic(auto, unfolding(crate::specs::Day::item_for))]
    pub fn item_for<S: Sources>(
        &self,
        plan: &PlanRow,
        sources: &S,
        new: &NewItem,
    ) -> Result<Item, Refusal>
        ensures { result ≡ item_for self.now plan.now (S.seen sources.now) new.now }
    {
        self.check_open()?;
        if new.frames == 0 {
            return Err(Refusal::of(Code::EmptyItem));
        }
        self.item_in(plan, sources, new)
    }

    /// The item that the day takes, which has a frame or more, whatever state the day is in: [`DayPlan::item_for`] from
    /// `PastDayEnd` on.
    pub fn item_in<S: Sources>(
        &self,
        plan: &PlanRow,
        sources: &S,
        new: &NewItem,
    ) -> Result<Item, Refusal>
        requires { 0 < new.now.frames }
        ensures { result ≡ item_in self.now plan.now (S.seen sources.now) new.now }
    {
        self.keep_the_rules();
        match fitting_source(self.number, self.frames, plan, sources, new) {
            // A number is looked for where there is a place.
            Ok(source) => match first_taken(&self.items, new.pos, new.frames) {
                Some(taken) => Err(refusal_at(Code::Overlap, plan, taken)),
                None => numbered(new, source, free_number(&self.items)),
            },
            Err(refusal) => Err(refusal),
        }
    }

    /// Adds the item of [`DayPlan::item_for`] and gives its number. A refusal leaves the day as it was: one of those
    /// there, or, where none holds, [`Code::Unavailable`] for want of memory.
    pub fn add_item<S: Sources>(
        &mut self,
        plan: &PlanRow,
        sources: &S,
        new: &NewItem,
    ) -> Result<u16, Refusal>
        requires mix { new.now.mix ≤ most_mix }
        requires kind { is_kind new.now.kind ≡ true }
        ensures added { IfOk result (λ n. (item : Item)
            × (item_for self.old plan.now (S.seen sources.now) new.now ≡ Ok item)
            × (n ≡ item.n) × (self.new ≡ with_item item self.old)) }
        ensures refused { IfErr result (λ e. (self.new ≡ self.old)
            × IsRefusalOf (item_for self.old plan.now (S.seen sources.now) new.now) e) }
    {
        self.keep_the_rules();
        let item = self.item_for(plan, sources, new)?;
        let number = item.n;
        match self.insert(item) {
            Ok(()) => Ok(number),
            Err(_) => Err(Refusal::of(Code::Unavailable)),
        }
    }

    /// The number of the item of [`DayPlan::item_for`], and the day with it. It is refused as by [`DayPlan::add_item`],
    /// and is copied where it isn't.
    pub fn adding<S: Sources>(
        &self,
        alloc: Global,
        plan: &PlanRow,
        sources: &S,
        new: &NewItem,
    ) -> Result<(u16, DayPlan), Refusal>
        requires mix { new.now.mix ≤ most_mix }
        requires kind { is_kind new.now.kind ≡ true }
        ensures added { IfOk result (λ made. (item : Item)
            × (item_for self.now plan.now (S.seen sources.now) new.now ≡ Ok item)
            × (made.0 ≡ item.n) × (made.1 ≡ with_item item self.now)) }
        ensures refused { IfErr result (IsRefusalOf (item_for self.now plan.now (S.seen sources.now) new.now)) }
    {
        self.keep_the_rules();
        let added = self.item_for(plan, sources, new)?;
        let number = added.n;
        match self.with(alloc, added) {
            Ok(day) => Ok((number, day)),
            Err(_) => Err(Refusal::of(Code::Unavailable)),
        }
    }

    // The day with one item more, with which it keeps the rules.
    fn with(&self, alloc: Global, item: Item) -> Result<DayPlan, Unavailable>
        requires { KeepsDayRules (with_item item self.now) }
        ensures { IfOk result (λ d. d ≡ with_item item self.now) }
    {
        let mut day = self.copied(alloc)?;
        day.insert(item)?;
        Ok(day)
    }

    // Puts in an item with which the day keeps the rules, if memory is there.
    fn insert(&mut self, item: Item) -> Result<(), Unavailable>
        requires { KeepsDayRules (with_item item self.old) }
        ensures ok { OnOk result (self.new ≡ with_item item self.old) }
        ensures err { OnErr result (self.new ≡ self.old) }
    {
        let place = place_for(&self.items, item.pos);
        self.items.insert(place, item)?;
        Ok(())
    }

    /// Takes an item out and gives its number, or refuses: `NoDay`, `DaySealed`, `NoItem`.
    pub fn remove_item(&mut self, number: u32) -> Result<u16, Refusal>
        ensures reply { result ≡ number_removed self.old number }
        ensures day { self.new ≡ with_removed number (number_removed self.old number) self.old }
        ensures erased { OnOk result (picture_in self.new ≡ picture_without number (picture_in self.old)) }
    {
        self.check_open()?;
        match self.take_out(number) {
            Some(item) => Ok(item.n),
            None => Err(Refusal::of(Code::NoItem)),
        }
    }

    // Takes the item of a number out of an open day.
    fn take_out(&mut self, number: u32) -> Option<Item>
        requires { self.old.state ≡ DayState.Open }
        ensures found { result ≡ find (λ i. i.n == number) self.old.items }
        ensures some { IfSome result (λ _. self.new ≡ without_item number self.old) }
        ensures none { IfNone result (self.new ≡ self.old) }
        ensures erased { IfSome result (λ _. picture_in self.new ≡ picture_without number (picture_in self.old)) }
    {
        let Some(place) = place_of(&self.items, number) else {
            return None;
        };
        Some(self.items.remove(place))
    }

    /// Seals the day and gives its number, or refuses: `NoDay`, `DaySealed`, `Recalled` with the first recalled item in
    /// the order of positions, `OutsideWindow` with the first whose lent clip may not be shown in this day, `Gap` with
    /// the label of the first empty frame. Windows were looked at as items came; that they never change isn't known
    /// here.
    #[tactic(auto, unfolding(crate::specs::Day::day_sealed))]
    pub fn seal<S: Sources>(&mut self, plan: &PlanRow, sources: &S) -> Result<u32, Refusal>
        ensures reply { result ≡ day_sealed self.old plan.now (S.seen sources.now) }
        ensures day { self.new
            ≡ in_state DayState.Sealed (day_sealed self.old plan.now (S.seen sources.now)) self.old }
    {
        self.check_open()?;
        if let Some(item) = first_recalled(&self.items, sources) {
            return Err(Refusal {
                code: Code::Recalled,
                at: At::Count(u32::from(item.n)),
            });
        }
        if let Some(item) = first_outside(&self.items, self.number, sources) {
            return Err(Refusal {
                code: Code::OutsideWindow,
                at: At::Count(u32::from(item.n)),
            });
        }
        if let Some(empty) = first_gap(&self.items, self.frames) {
            return Err(refusal_at(Code::Gap, plan, empty));
        }
        self.state = DayState::Sealed;
        Ok(self.number)
    }
}
