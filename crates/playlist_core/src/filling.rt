//! A day that is being filled, one item after another.
ghost use Rattle.std.specs.Prelude.{◌≡◌, ◌+◌, ◌<◌, ◌≤◌, true, IfOk, IfErr, OnOk, OnErr, Ok, length, nat_lt};
ghost use Rattle.std.specs.List.{position_or_len};
ghost use Rattle.channel_plan.specs.Refusal.{IsRefusalOf};
ghost use Rattle.playlist_core.specs.Limits.{most_mix};
ghost use Rattle.playlist_core.specs.Picture.{first_painted};
ghost use Rattle.playlist_core.specs.Item.{is_kind, numbered};
ghost use Rattle.playlist_core.specs.Day.{KeepsDayRules, free_number, item_in, picture_in, with_item};
ghost use Rattle.playlist_core.specs.declared.item.Item.{Item};
ghost use Rattle.playlist_core.specs.declared.day.DayState.TheVariants as DayState;

use crate::day::DayPlan;
use crate::fitting::{fitting_source, placed};
use crate::item::{Item, NewItem};
use crate::numbers::TakenNumbers;
use crate::places::taken_by;
use crate::source::{Source, Sources};
use channel_plan::{Code, PlanRow, Refusal};
use std::alloc::{AllocError, Global};
use std::collections::VecDeque;
use std::marker::Model;
use timecode::Unavailable;

/// An open day that takes one item after another, as an import does. Its items move to the nearer end where one is put
/// in, and no number is looked for twice, so items that come in the order of their positions, or from the last to the
/// first, cost what they are.
#[derive(Drop)]
pub struct DayBuilder {
    number: u32,
    frames: u32,
    items: VecDeque<Item>,
    numbers: TakenNumbers,
}

impl Model for DayBuilder {
    ghost use Rattle.playlist_core.specs.Day.{Day, KeepsDayRules};
    ghost use Rattle.playlist_core.specs.Filling.{AreMarked};
    ghost use Rattle.playlist_core.specs.declared.day.DayState.TheVariants as DayState;

    ghost Value = { Day };

    ghost view = { λ d. record { number = d.number; frames = d.frames; state = DayState.Open; items = d.items.items } };

    ghost invariant = { λ d. KeepsDayRules (record {
      number = d.number;
      frames = d.frames;
      state = DayState.Open;
      items = d.items.items;
    }) × AreMarked d.numbers d.items.items };
}

impl DayBuilder {
    /// This open day, which stays as it is.
    pub fn of(alloc: Global, day: &DayPlan) -> Result<DayBuilder, Unavailable>
        requires { day.now.state ≡ DayState.Open }
        ensures { IfOk result (λ filling. filling ≡ day.now) }
    {
        day.keep_the_rules();
        let numbers = TakenNumbers::of(alloc, day.items())?;
        let items = Vec::from_slice(alloc, day.items())?;
        Ok(DayBuilder {
            number: day.number(),
            frames: day.frames(),
            items: VecDeque::from(items),
            numbers,
        })
    }

    /// Adds the item of [`DayPlan::item_in`] and gives its number. A refusal leaves the day as it was: one of those
    /// there, or, where none holds, [`Code::Unavailable`] for want of memory.
    pub fn take_item<S: Sources>(
        &mut self,
        plan: &PlanRow,
        sources: &S,
        new: &NewItem,
    ) -> Result<u16, Refusal>
        requires some { 0 < new.now.frames }
        requires mix { new.now.mix ≤ most_mix }
        requires kind { is_kind new.now.kind ≡ true }
        ensures taken { IfOk result (λ n. (item : Item)
            × (item_in self.old plan.now (S.seen sources.now) new.now ≡ Ok item)
            × (n ≡ item.n) × (self.new ≡ with_item item self.old)) }
        ensures refused { IfErr result (λ e. (self.new ≡ self.old)
            × IsRefusalOf (item_in self.old plan.now (S.seen sources.now) new.now) e) }
    {
        self.keep_the_rules();
        let item = self.item_in(plan, sources, new)?;
        match self.insert(new, item.n, item.src) {
            Ok(()) => Ok(item.n),
            Err(_) => Err(Refusal::of(Code::Unavailable)),
        }
    }

    // The item that the day takes, which has a frame or more.
    fn item_in<S: Sources>(
        &self,
        plan: &PlanRow,
        sources: &S,
        new: &NewItem,
    ) -> Result<Item, Refusal>
        requires { 0 < new.now.frames }
        ensures { result ≡ item_in self.now plan.now (S.seen sources.now) new.now }
    {
        match fitting_source(self.number, self.frames, plan, sources, new) {
            Ok(source) => {
                let taken = self.first_taken(new.pos, new.frames);
                placed(plan, new, source, taken, self.free_number())
            }
            Err(refusal) => Err(refusal),
        }
    }

    // The least number that no item has.
    fn free_number(&self) -> Option<u16>
        ensures { result ≡ free_number self.now.items }
    {
        self.numbers.free()
    }

    // The first frame of a range within the day that an item covers.
    fn first_taken(&self, position: u32, frames: u32) -> Option<u32>
        requires some { 0 < frames }
        requires within { position + frames ≤ self.now.frames }
        ensures { result ≡ first_painted position frames (picture_in self.now) }
    {
        match self.items.get(self.place_for(position)) {
            Some(next) => taken_by(next, position, frames),
            None => None,
        }
    }

    // Where an item that begins at a position belongs: in front of the first that ends behind it.
    fn place_for(&self, position: u32) -> usize
        ensures value { result ≡ position_or_len (λ i. nat_lt position (i.pos + i.frames)) self.now.items }
        ensures within { result ≤ length self.now.items }
    {
        self.items
            .partition_point(|i| i.end() <= u64::from(position))
    }

    // Puts in the item of a source, with the least free number, with which the day keeps the rules, if memory is there.
    fn insert(&mut self, new: &NewItem, number: u16, source: Source) -> Result<(), AllocError>
        requires rules { KeepsDayRules (with_item (numbered number source new.now) self.old) }
        requires number { free_number self.old.items ≡ Some number }
        ensures ok { OnOk result (self.new ≡ with_item (numbered number source new.now) self.old) }
        ensures err { OnErr result (self.new ≡ self.old) }
    {
        let place = self.place_for(new.pos);
        self.items.insert(place, new.numbered(number, source))?;
        self.numbers.take(number);
        Ok(())
    }

    /// A law: it is open, and keeps the rules.
    pub fn keep_the_rules(&self)
        ensures open { self.now.state ≡ DayState.Open }
        ensures rules { KeepsDayRules self.now }
    {
        let _number = self.number;
    }

    /// The day that it became.
    pub fn into_day(self) -> DayPlan
        ensures { result ≡ self }
    {
        DayPlan::open_with(self.number, self.frames, Vec::from(self.items))
    }
}
