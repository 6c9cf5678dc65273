//! What was aired of a day.
ghost use Rattle.std.specs.Prelude.{◌≡◌, ◌+◌, ◌<◌, ◌≤◌, ◌^◌, ◌-◌, ◌⊎◌, ℕ, Some, None, All, Ok, Err, IfOk, IfErr, OnOk};
ghost use Rattle.std.specs.Prelude.{IsPermutation, length, true};
ghost use Rattle.std.specs.List.{list_all};
ghost use Rattle.timecode.specs.Counting.{day_length};
ghost use Rattle.channel_plan.specs.Refusal.{refused};
ghost use Rattle.playlist_core.specs.Day.{refused_at};
ghost use Rattle.playlist_core.specs.Order.{AreApart};
ghost use Rattle.asrun_match.specs.Aired.{FitsIn, KeepsAiringRules, aired, all_rows, aired_picture, first_twice};
ghost use Rattle.asrun_match.specs.Aired.{has_fields};
ghost use Rattle.asrun_match.specs.Batches.{batch_frames, batch_in, day_with, has_batch, same_row, same_rows};
ghost use Rattle.asrun_match.specs.Batches.{with_batch};

use crate::aired::{AiredRow, Batch};
use crate::sorted::{Joined, SortedRows};
use channel_plan::{At, Code, PlanRow, Refusal};
use playlist_core::label_at;
use std::alloc::Global;
use std::marker::Model;
use timecode::{Unavailable, day_frames};

/// The most batches of a day.
pub const MAX_BATCHES: u32 = 64;

/// What was aired of a day: its batches, whose rows lie one behind the other within the day.
#[derive(Drop)]
pub struct AiredDay {
    batches: Vec<Batch>,
    // All rows, by their positions.
    rows: SortedRows,
}

impl Model for AiredDay {
    ghost use Rattle.std.specs.Prelude.{◌≡◌, ◌≤◌, IsPermutation, length, true};
    ghost use Rattle.std.specs.List.{list_all};
    ghost use Rattle.asrun_match.specs.Limits.{most_batches};
    ghost use Rattle.asrun_match.specs.Aired.{Airing, all_rows, has_fields};

    ghost Value = { Airing };

    ghost view = { λ d. record { frames = d.rows.frames; batches = d.batches.items } };

    ghost invariant = { λ d. IsPermutation (all_rows d.batches.items) d.rows.rows
        × (length d.batches.items ≤ most_batches)
        × (list_all (has_fields d.rows.frames) (all_rows d.batches.items) ≡ true) };
}

impl AiredDay {
    /// These batches, in the order of their numbers, of a day of a channel. Rows that can't have been aired are refused
    /// with [`Code::NotOurs`]: more than 64 batches; rows that overlap, are empty or run over the day's end; a reel
    /// that isn't one or has the long name of black, black or bars from another frame than 0, and other source frames
    /// that no day has. For want of memory it fails with [`Code::Unavailable`].
    pub fn from_rows(
        alloc: Global,
        plan: &PlanRow,
        batches: Vec<Batch>,
    ) -> Result<AiredDay, Refusal>
        ensures day { IfOk result (λ d. (d.frames ≡ day_length plan.now.rate) × (d.batches ≡ batches.items)) }
        ensures rules { IfOk result KeepsAiringRules }
        ensures refusal { IfErr result (λ e. (e ≡ refused Code.Unavailable) ⊎ ((e ≡ refused Code.NotOurs)
            × (KeepsAiringRules (record { frames = day_length plan.now.rate; batches = batches.items }) → ⊥))) }
    {
        let frames = day_frames(plan.rate);
        let Ok(rows) = rows_of(alloc, &batches) else {
            return Err(Refusal::of(Code::Unavailable));
        };
        if batches.len() > MAX_BATCHES as usize || !have_fields(&rows, frames) {
            return Err(Refusal::of(Code::NotOurs));
        }
        match SortedRows::from_rows(frames, rows) {
            Some(rows) => Ok(AiredDay { batches, rows }),
            None => Err(Refusal::of(Code::NotOurs)),
        }
    }

    /// A law: what was aired keeps the rules.
    pub fn keep_the_rules(&self)
        ensures { KeepsAiringRules self.now }
    {
        self.rows.keep_apart();
    }

    /// Takes a batch with these rows, and gives its frames. One that is there already, with equal rows, leaves the day.
    /// Memory is wanted for the next batch alone.
    pub(crate) fn take(
        &mut self,
        alloc: Global,
        plan: &PlanRow,
        number: u32,
        rows: Vec<AiredRow>,
    ) -> Result<u32, Refusal>
        requires { All (FitsIn self.old.frames) rows.items }
        ensures taken { IfOk result (λ n. (day_with plan.now number rows.items self.old ≡ Ok self.new)
            × (n ≡ batch_frames (batch_in number self.new))) }
        ensures refused { IfErr result (λ e. (self.new ≡ self.old)
            × (((e ≡ refused Code.Unavailable) × (number ≡ length self.old.batches + 1))
            ⊎ (day_with plan.now number rows.items self.old ≡ Err e))) }
    {
        if self.has_batch(number) {
            return if self.has_rows(number, &rows) {
                Ok(self.frames_in(number))
            } else {
                Err(Refusal::of(Code::BatchDiffers))
            };
        }
        if number > MAX_BATCHES {
            return Err(Refusal::of(Code::BatchesFull));
        }
        if number as usize != self.batches.len() + 1 {
            return Err(Refusal::of(Code::BatchOrder));
        }
        self.add(alloc, plan, rows)?;
        Ok(self.frames_in(number))
    }

    /// Whether a batch with this number is there.
    pub fn has_batch(&self, number: u32) -> bool
        ensures { result ≡ has_batch number self.now }
    {
        1 <= number && number as usize <= self.batches.len()
    }

    // Whether the batch that is there has equal rows.
    fn has_rows(&self, number: u32, rows: &[AiredRow]) -> bool
        requires { has_batch number self.now ≡ true }
        ensures { result ≡ same_rows (batch_in number self.now) rows.now }
    {
        are_same(self.batches[number as usize - 1].as_slice(), rows)
    }

    // The frames of the batch that is there.
    fn frames_in(&self, number: u32) -> u32
        requires { has_batch number self.now ≡ true }
        ensures { result ≡ batch_frames (batch_in number self.now) }
    {
        self.rows.keep_apart();
        frames_of(self.batches[number as usize - 1].as_slice())
    }

    // Adds a batch.
    fn add(&mut self, alloc: Global, plan: &PlanRow, rows: Vec<AiredRow>) -> Result<(), Refusal>
        requires fit { All (FitsIn self.old.frames) rows.items }
        requires room { length self.old.batches < MAX_BATCHES }
        ensures added { OnOk result (first_twice (aired_picture self.old) rows.items ≡ None) }
        ensures day { OnOk result (self.new ≡ with_batch rows.items self.old) }
        ensures refused { IfErr result (λ e. (self.new ≡ self.old) × ((e ≡ refused Code.Unavailable)
            ⊎ ((p : ℕ) × (first_twice (aired_picture self.old) rows.items ≡ Some p)
            × (e ≡ refused_at Code.AiredTwice plan.now p)))) }
    {
        self.rows.keep_apart();
        let joined = match self.rows.with_rows(alloc, &rows) {
            Ok(Joined::Rows(joined)) => joined,
            Ok(Joined::Twice(frame)) => return Err(aired_twice(plan, frame)),
            Err(_) => return Err(Refusal::of(Code::Unavailable)),
        };
        let Ok(()) = self.batches.push(Batch::of(rows)) else {
            return Err(Refusal::of(Code::Unavailable));
        };
        self.rows = joined;
        Ok(())
    }

    /// The same batches.
    pub fn copied(&self, alloc: Global) -> Result<AiredDay, Unavailable>
        ensures { IfOk result (λ day. day ≡ self.now) }
    {
        let rows = self.rows.copied(alloc)?;
        let batches = copies_of(alloc, &self.batches)?;
        Ok(AiredDay { batches, rows })
    }

    /// How many frames the day has.
    pub fn frames(&self) -> u32
        ensures { result ≡ self.now.frames }
    {
        self.rows.frames()
    }

    /// The batches, in their order.
    pub fn batches(&self) -> &[Batch]
        ensures { result.now ≡ self.now.batches }
    {
        &self.batches
    }

    /// The rows of all batches, in the order of their positions.
    pub fn rows(&self) -> &[AiredRow]
        ensures rows { IsPermutation (all_rows self.now.batches) result.now }
        ensures apart { AreApart aired 0 self.now.frames result.now }
    {
        self.rows.rows()
    }
}

// The refusal of a frame of the day that is aired twice.
fn aired_twice(plan: &PlanRow, frame: u32) -> Refusal
    ensures { result ≡ refused_at Code.AiredTwice plan.now frame }
{
    Refusal {
        code: Code::AiredTwice,
        at: At::Place(label_at(plan, frame)),
    }
}

// The frames of some rows.
fn frames_of(rows: &[AiredRow]) -> u32
    requires { batch_frames rows.now < 2 ^ 32 }
    ensures { result ≡ batch_frames rows.now }
{
    rows.iter().map(|r| r.frames).sum()
}

fn have_fields(rows: &[AiredRow], day: u32) -> bool
    ensures { result ≡ list_all (has_fields day) rows.now }
{
    rows.iter().all(|r| r.has_fields(day))
}

fn are_same(one: &[AiredRow], other: &[AiredRow]) -> bool
    ensures { result ≡ same_rows one.now other.now }
{
    if one.len() != other.len() {
        return false;
    }
    for k in 0..one.len() {
        if !is_same(&one[k], &other[k]) {
            return false;
        }
    }
    true
}

fn is_same(one: &AiredRow, other: &AiredRow) -> bool
    ensures { result ≡ same_row one.now other.now }
{
    one.pos == other.pos
        && one.frames == other.frames
        && one.src.as_bytes() == other.src.as_bytes()
        && one.src_first == other.src_first
}

// The rows of these batches, one after another.
fn rows_of(alloc: Global, batches: &[Batch]) -> Result<Vec<AiredRow>, Unavailable>
    ensures { IfOk result (λ rows. rows.items ≡ all_rows batches.now) }
{
    let mut rows = Vec::new(alloc);
    for batch in batches {
        rows.extend_from_slice(batch.as_slice())?;
    }
    Ok(rows)
}

fn copies_of(alloc: Global, batches: &[Batch]) -> Result<Vec<Batch>, Unavailable>
    ensures { IfOk result (λ copies. copies.items ≡ batches.now) }
{
    let mut copies = Vec::new(alloc);
    for batch in batches {
        copies.push(batch.copied(alloc)?)?;
    }
    Ok(copies)
}

/// What was aired of a broadcast day.
#[derive(Drop)]
pub struct DayAsRun {
    /// The day's number. Nothing here tests it: in a set that keeps the rules it is that of a sealed day of the
    /// channel, 1 to 99,999.
    pub day: u32,
    pub aired: AiredDay,
}

impl DayAsRun {
    ghost use Rattle.std.specs.Prelude.{◌≡◌, IfOk};

    /// The same day and batches.
    pub fn copied(&self, alloc: Global) -> Result<DayAsRun, Unavailable>
        ensures { IfOk result (λ airing. airing ≡ self.now) }
    {
        let aired = self.aired.copied(alloc)?;
        Ok(DayAsRun {
            day: self.day,
            aired,
        })
    }
}
