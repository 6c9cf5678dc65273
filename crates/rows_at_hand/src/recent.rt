//! The store.
ghost use Rattle.std.specs.Prelude.{◌≡◌, ◌≤◌, ◌⊎◌, ℕ, [], Some, IfOk, IfSome, MatchOption, OnErr, true, not};
ghost use Rattle.std.specs.Prelude.{filter, length};
ghost use Rattle.std.specs.List.{HoldsAt};
ghost use Rattle.channel_view_model.specs.declared.need.Need.{Need};
ghost use Rattle.channel_view_model.specs.Centre.{Centre, view_of};
ghost use Rattle.channel_view_model.specs.Need.{IsFetched};
ghost use Rattle.channel_view_model.specs.Rules.{KeepsRules};
ghost use Rattle.rows_at_hand.specs.Known.{AreKnown, AsksBeside, HasAiring, HasDay, IsAskedLast, KeepsOthers};
ghost use Rattle.rows_at_hand.specs.Known.{is_day_of, most_days, most_rows, rows_at_hand, with_airing, with_day};

use crate::following::{apply, forget_changed};
use crate::known::{KnownDay, airing_kept, ask_last, insert, place_of, take_out};
use asrun_match::AiredDay;
use channel_view_model::{
    Change, DayNumber, Need, Part, RowStore, Table, TableFault, View, items_asked,
};
use playlist_core::{DayPlan, DayState};
use std::alloc::Global;
use std::io::Write;
use timecode::Unavailable;

/// A store over another one, which has at hand the days that were asked for or changed last, and what was aired of
/// them, where that was asked for.
#[derive(Drop)]
pub struct RecentDays<S> {
    alloc: Global,
    store: S,
    // The one that was asked for or changed least lately first.
    days: Vec<KnownDay>,
    ghost few: { length days.items ≤ most_days },
    ghost few_rows: { rows_at_hand days.items ≤ most_rows },
}

impl<S> RecentDays<S> {
    /// Over this store. No day of it is known yet.
    pub fn over(alloc: Global, store: S) -> RecentDays<S>
        ensures store { result.store ≡ store }
        ensures none { result.days.items ≡ [] }
    {
        RecentDays {
            alloc,
            store,
            days: Vec::new(alloc),
        }
    }

    /// The store below.
    pub fn into_store(self) -> S
        ensures { result ≡ self.store }
    {
        let RecentDays {
            alloc: _,
            store,
            days: _days,
        } = self;
        store
    }
}

// The day that is asked for, where it is known. It is the latest then.
fn day_asked(
    alloc: Global,
    days: &mut Vec<KnownDay>,
    channel: u16,
    asked: Option<DayNumber>,
) -> Result<Option<DayPlan>, Unavailable>
    ensures day { IfOk result (λ day. IfSome day (λ d. (asked ≡ Some d.number)
        × ((rows : Centre) → AreKnown rows days.old.items → HasDay rows channel d))) }
    ensures latest { IfOk result (λ day. MatchOption day (days.new.items ≡ days.old.items) (λ d. (place : ℕ)
        × HoldsAt (λ k. is_day_of channel d.number k ≡ true) days.old.items place
        × IsAskedLast place days.old.items days.new.items)) }
    ensures err { OnErr result (days.new.items ≡ days.old.items) }
    ensures known { (rows : Centre) → AreKnown rows days.old.items → AreKnown rows days.new.items }
    ensures few { length days.new.items ≡ length days.old.items }
    ensures few_rows { rows_at_hand days.new.items ≡ rows_at_hand days.old.items }
{
    let Some(number) = asked else {
        return Ok(None);
    };
    let Some(place) = place_of(days, channel, number.get()) else {
        return Ok(None);
    };
    let day = days[place].day.copied(alloc)?;
    ask_last(days, place);
    Ok(Some(day))
}

// What was aired of the day for which this is asked, where it is known.
fn airing_asked(
    alloc: Global,
    days: &[KnownDay],
    channel: u16,
    asked: Option<DayNumber>,
) -> Result<Option<AiredDay>, Unavailable>
    ensures { IfOk result (λ airing. IfSome airing (λ a. (n : ℕ) × (asked ≡ Some n)
        × ((rows : Centre) → AreKnown rows days.now → HasAiring rows channel n a))) }
{
    let Some(number) = asked else {
        return Ok(None);
    };
    let Some(place) = place_of(days, channel, number.get()) else {
        return Ok(None);
    };
    let Some(airing) = &days[place].aired else {
        return Ok(None);
    };
    Ok(Some(airing.copied(alloc)?))
}

/// All that is asked for beside the day, whose items are at hand; of a need that asks for none, there is no day.
pub(crate) fn beside_day<'a, 'b: 'a>(need: &Need<'b>, day: &'a Option<DayPlan>) -> Need<'a>
    ensures { AsksBeside day.now need.now result }
{
    Need {
        tapes: need.tapes,
        clips: need.clips,
        offers: need.offers,
        day: None,
        items: Some(items_asked(need.items, day)),
        aired: need.aired,
        sources: need.sources,
        named: need.named,
    }
}

/// The part with this day in it, if there is one.
pub(crate) fn with_day(part: Option<Part>, day: Option<DayPlan>) -> Option<Part>
    ensures { result ≡ with_day day part }
{
    let mut part = part?;
    part.day = day;
    Some(part)
}

/// The part with this in it as what was aired, if there is something.
pub(crate) fn with_airing(part: Option<Part>, airing: Option<AiredDay>) -> Option<Part>
    ensures { result ≡ with_airing airing part }
{
    let mut part = part?;
    part.aired = airing;
    Some(part)
}

// What a part has as aired of the day of this number, where just that was asked for, and it is kept.
fn airing_in(alloc: Global, need: &Need<'_>, number: u32, part: &Part) -> Option<AiredDay>
    ensures { IfSome result (λ airing. (need.now.aired ≡ Some number) × (part.now.aired ≡ Some airing)) }
{
    let asked = need.aired?;
    if asked.get() != number {
        return None;
    }
    let Some(airing) = &part.aired else {
        return None;
    };
    airing_kept(alloc, airing)
}

// Knows the day of a part from now on, where one was asked for and is there, and what was aired of it, where that was.
fn insert_from(
    alloc: Global,
    days: &mut Vec<KnownDay>,
    channel: u16,
    need: &Need<'_>,
    part: &Option<Part>,
)
    requires few { length days.old.items ≤ most_days }
    requires few_rows { rows_at_hand days.old.items ≤ most_rows }
    ensures known { (rows : Centre) → KeepsRules rows → AreKnown rows days.old.items →
        IsFetched need.now (view_of channel rows) part.now → AreKnown rows days.new.items }
    ensures others { KeepsOthers days.old.items days.new.items }
    ensures few { length days.new.items ≤ most_days }
    ensures few_rows { rows_at_hand days.new.items ≤ most_rows }
{
    let Some(part) = part else {
        return;
    };
    let Some(day) = &part.day else {
        return;
    };
    if let DayState::NotThere = day.state() {
        return;
    }
    let aired = airing_in(alloc, need, day.number(), part);
    if let Ok(day) = day.copied(alloc) {
        insert(
            days,
            KnownDay {
                channel,
                day,
                aired,
            },
        );
    }
}

// Knows of a day that is known what a part has as aired of it, where that was asked for and memory is there for it.
fn airing_from(
    alloc: Global,
    days: &mut Vec<KnownDay>,
    channel: u16,
    need: &Need<'_>,
    part: &Option<Part>,
)
    requires few { length days.old.items ≤ most_days }
    requires few_rows { rows_at_hand days.old.items ≤ most_rows }
    ensures known { (rows : Centre) → AreKnown rows days.old.items →
        IsFetched need.now (view_of channel rows) part.now → AreKnown rows days.new.items }
    ensures others { (days.new.items ≡ days.old.items) ⊎ ((n : ℕ) × (need.now.aired ≡ Some n)
        × KeepsOthers (filter (λ k. not (is_day_of channel n k)) days.old.items) days.new.items) }
    ensures few { length days.new.items ≤ most_days }
    ensures few_rows { rows_at_hand days.new.items ≤ most_rows }
{
    let Some(number) = need.aired else {
        return;
    };
    let Some(part) = part else {
        return;
    };
    let number = number.get();
    let Some(mut known) = take_out(days, channel, number) else {
        return;
    };
    known.aired = airing_in(alloc, need, number, part);
    insert(days, known);
}

impl<S: RowStore> RowStore for RecentDays<S> {
    // What is known is so of the rows of the store below.
    ghost stands_for = { λ r rows. S.stands_for r.store rows × AreKnown rows r.days.items };

    ghost is_clean = { λ r. S.is_clean r.store };

    ghost may_leave = { λ r. S.may_leave r.store };

    ghost leaves_sets = { λ r. S.leaves_sets r.store };

    fn load(&mut self, channel: u16) -> Result<Option<View>, Unavailable> {
        self.store.load(channel)
    }

    fn fetch(&mut self, channel: u16, need: &Need<'_>) -> Result<Option<Part>, Unavailable> {
        let Some(day) = day_asked(self.alloc, &mut self.days, channel, need.day)? else {
            let part = self.store.fetch(channel, need)?;
            insert_from(self.alloc, &mut self.days, channel, need, &part);
            return Ok(part);
        };
        let day = Some(day);
        let beside = beside_day(need, &day);
        let Some(airing) = airing_asked(self.alloc, &self.days, channel, beside.aired)? else {
            let part = self.store.fetch(channel, &beside)?;
            airing_from(self.alloc, &mut self.days, channel, &beside, &part);
            return Ok(with_day(part, day));
        };
        let beside = Need {
            aired: None,
            ..beside
        };
        let part = self.store.fetch(channel, &beside)?;
        Ok(with_day(with_airing(part, Some(airing)), day))
    }

    fn write_table<W: Write>(
        &mut self,
        channel: u16,
        table: Table,
        output: &mut W,
    ) -> Result<bool, TableFault> {
        self.store.write_table(channel, table, output)
    }

    fn commit(&mut self, channel: u16, change: &Change) -> Result<(), Unavailable> {
        match self.store.commit(channel, change) {
            Ok(()) => {
                apply(self.alloc, &mut self.days, channel, change);
                Ok(())
            }
            Err(fault) => {
                forget_changed(&mut self.days, channel, change);
                Err(fault)
            }
        }
    }
}
