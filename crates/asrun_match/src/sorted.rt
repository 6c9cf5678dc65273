//! Aired rows in the order of their positions.
ghost use Rattle.std.specs.Prelude.{◌≡◌, ◌<◌, ◌^◌, ◌↔◌, ℕ, All, List, None, Ok, IfOk, IfSome, IfNone, IsSome};
ghost use Rattle.std.specs.Prelude.{IsPermutation, ◌++◌, ◌∷◌};
ghost use Rattle.playlist_core.specs.Picture.{first_painted, picture_of};
ghost use Rattle.playlist_core.specs.Order.{AreApart};
ghost use Rattle.asrun_match.specs.declared.aired.AiredRow.{AiredRow};
ghost use Rattle.asrun_match.specs.Aired.{FitsIn, aired, first_twice, rows_picture, sooner};
ghost use Rattle.asrun_match.specs.Joined.{IsJoined};

use crate::aired::AiredRow;
use crate::places::{first_taken, lie_apart, lie_beside, place_for};
use std::alloc::Global;
use std::marker::Model;
use timecode::Unavailable;

/// Rows of a day, one behind the other.
#[derive(Drop)]
pub(crate) struct SortedRows {
    frames: u32,
    rows: Vec<AiredRow>,
}

impl Model for SortedRows {
    ghost use Rattle.playlist_core.specs.Order.{AreApart};
    ghost use Rattle.asrun_match.specs.Aired.{Rows, aired};

    ghost Value = { Rows };

    ghost view = { λ d. record { frames = d.frames; rows = d.rows.items } };

    ghost invariant = { λ d. AreApart aired 0 d.frames d.rows.items };
}

/// What comes of rows that are added to a day's.
#[derive(Drop)]
pub(crate) enum Joined {
    /// All of them.
    Rows(SortedRows),
    /// The first frame that one airs again.
    Twice(u32),
}

impl SortedRows {
    /// These rows, in whatever order they come. Rows that overlap, are empty or run over the day's end are none.
    pub(crate) fn from_rows(frames: u32, rows: Vec<AiredRow>) -> Option<SortedRows>
        ensures day { IfSome result (λ d. (d.frames ≡ frames) × IsPermutation rows.items d.rows) }
        ensures none { IfNone result ((order : List AiredRow) →
            IsPermutation rows.items order → AreApart aired 0 frames order → ⊥) }
    {
        let mut rows = rows;
        rows.sort_unstable_by_key(|r| r.pos);
        if lie_apart(&rows, frames) {
            Some(SortedRows { frames, rows })
        } else {
            None
        }
    }

    /// The day's rows and these, in one pass over both, or the first frame that these, one after another, air again.
    /// None of the day's rows is moved for a refusal.
    pub(crate) fn with_rows(&self, alloc: Global, rows: &[AiredRow]) -> Result<Joined, Unavailable>
        requires { All (FitsIn self.now.frames) rows.now }
        ensures { IfOk result (IsJoined self.now rows.now) }
    {
        if let Some(batch) = self.sorted_beside(alloc, rows)? {
            return Ok(Joined::Rows(self.joined(alloc, &batch)?));
        }
        let Some(frame) = first_twice(alloc, self.frames, &self.rows, rows)? else {
            unreachable!();
        };
        Ok(Joined::Twice(frame))
    }

    // These rows in the order of their positions, if none of them airs a frame of another or of the day's.
    fn sorted_beside(
        &self,
        alloc: Global,
        rows: &[AiredRow],
    ) -> Result<Option<SortedRows>, Unavailable>
        requires { All (FitsIn self.now.frames) rows.now }
        ensures frames { IfOk result (λ o. IfSome o (λ batch. batch.frames ≡ self.now.frames)) }
        ensures rows { IfOk result (λ o. IfSome o (λ batch. IsPermutation rows.now batch.rows)) }
        ensures beside { IfOk result (λ o. IfSome o (λ batch.
            first_twice (rows_picture self.now) batch.rows ≡ None)) }
        ensures free { IfOk result (λ o. IsSome o ↔ (first_twice (rows_picture self.now) rows.now ≡ None)) }
    {
        let copy = Vec::from_slice(alloc, rows)?;
        let Some(batch) = SortedRows::from_rows(self.frames, copy) else {
            return Ok(None);
        };
        if lie_beside(&self.rows, batch.rows()) {
            Ok(Some(batch))
        } else {
            Ok(None)
        }
    }

    // The day's rows and those of a batch.
    fn joined(&self, alloc: Global, batch: &SortedRows) -> Result<SortedRows, Unavailable>
        requires frames { batch.now.frames ≡ self.now.frames }
        requires free { first_twice (rows_picture self.now) batch.now.rows ≡ None }
        ensures rows { IfOk result (λ d. IsPermutation (self.now.rows ++ batch.now.rows) d.rows) }
        ensures frames { IfOk result (λ d. d.frames ≡ self.now.frames) }
    {
        let rows = merged(alloc, &self.rows, batch.rows())?;
        Ok(SortedRows {
            frames: self.frames,
            rows,
        })
    }

    // Adds a row, unless one of its frames was aired already: the first such.
    fn add(&mut self, row: AiredRow) -> Result<Option<u32>, Unavailable>
        requires { FitsIn self.old.frames row }
        ensures twice { IfOk result (λ t. t ≡ first_painted row.pos row.frames (rows_picture self.old)) }
        ensures rows { result ≡ Ok None → IsPermutation (row ∷ self.old.rows) self.new.rows }
        ensures frames { self.new.frames ≡ self.old.frames }
    {
        if let Some(frame) = first_taken(&self.rows, row.pos, row.frames) {
            return Ok(Some(frame));
        }
        let place = place_for(&self.rows, row.pos);
        self.rows.insert(place, row)?;
        Ok(None)
    }

    /// The same rows.
    pub(crate) fn copied(&self, alloc: Global) -> Result<SortedRows, Unavailable>
        ensures { IfOk result (λ d. d ≡ self.now) }
    {
        Ok(SortedRows {
            frames: self.frames,
            rows: Vec::from_slice(alloc, &self.rows)?,
        })
    }

    /// A law: the rows lie one behind the other.
    pub(crate) fn keep_apart(&self)
        ensures apart { AreApart aired 0 self.now.frames self.now.rows }
        ensures small { self.now.frames < 2 ^ 32 }
    {
        let _frames = self.frames;
    }

    /// How many frames the day has.
    pub(crate) fn frames(&self) -> u32
        ensures { result ≡ self.now.frames }
    {
        self.frames
    }

    /// The rows, in the order of their positions.
    pub(crate) fn rows(&self) -> &[AiredRow]
        ensures rows { result.now ≡ self.now.rows }
        ensures apart { AreApart aired 0 self.now.frames self.now.rows }
    {
        &self.rows
    }
}

// The rows of two lists, each one behind the other, in the order of their positions. What lies between two of the
// others is copied as a whole.
fn merged(
    alloc: Global,
    rows: &[AiredRow],
    others: &[AiredRow],
) -> Result<Vec<AiredRow>, Unavailable>
    requires { (day : ℕ) × AreApart aired 0 day rows.now }
    ensures rows { IfOk result (λ v. IsPermutation (rows.now ++ others.now) v.items) }
    ensures apart { IfOk result (λ v. (day : ℕ) → AreApart aired 0 day rows.now → AreApart aired 0 day others.now
        → first_twice (picture_of aired day rows.now) others.now ≡ None → AreApart aired 0 day v.items) }
{
    let mut merged = Vec::with_capacity(alloc, rows.len() + others.len())?;
    let mut left = rows;
    for other in others {
        let (before, behind) = left.split_at(place_for(left, other.pos));
        merged.extend_from_slice(before)?;
        merged.push(*other)?;
        left = behind;
    }
    merged.extend_from_slice(left)?;
    Ok(merged)
}

// The first frame that rows, one after another, air again, beside those that were aired.
fn first_twice(
    alloc: Global,
    frames: u32,
    taken: &[AiredRow],
    rows: &[AiredRow],
) -> Result<Option<u32>, Unavailable>
    requires apart { AreApart aired 0 frames taken.now }
    requires fit { All (FitsIn frames) rows.now }
    ensures { IfOk result (λ t. t ≡ first_twice (picture_of aired frames taken.now) rows.now) }
{
    let mut earlier = SortedRows {
        frames,
        rows: Vec::new(alloc),
    };
    for row in rows {
        let of_day = first_taken(taken, row.pos, row.frames);
        let of_batch = earlier.add(*row)?;
        if let Some(frame) = sooner(of_day, of_batch) {
            return Ok(Some(frame));
        }
    }
    Ok(None)
}

// The lesser of two frames, where there are two.
fn sooner(one: Option<u32>, other: Option<u32>) -> Option<u32>
    ensures { result ≡ sooner one other }
{
    match (one, other) {
        (None, frame) => frame,
        (Some(frame), None) => Some(frame),
        (Some(frame), Some(other)) => Some(frame.min(other)),
    }
}
