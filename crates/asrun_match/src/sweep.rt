//! The sweep over the items of a day and its aired rows.
ghost use Rattle.std.specs.Prelude.{◌≡◌, ◌+◌, ◌-◌, ◌*◌, ◌<◌, ◌≤◌, ◌^◌, [], min, drop, length, sum_by, slice_get, Some};
ghost use Rattle.std.specs.Prelude.{IfOk, IfSome, IfNone, vec_len, vec_capacity};
ghost use Rattle.playlist_core.specs.Picture.{picture_of};
ghost use Rattle.playlist_core.specs.Order.{AreApart, AreEndToEnd, end_of};
ghost use Rattle.playlist_core.specs.Item.{planned};
ghost use Rattle.playlist_core.specs.Day.{picture_in};
ghost use Rattle.playlist_core.specs.declared.day.DayState.TheVariants as DayState;
ghost use Rattle.asrun_match.specs.Aired.{aired, aired_picture, all_rows};
ghost use Rattle.asrun_match.specs.Status.{status_of, statuses_of};
ghost use Rattle.asrun_match.specs.Runs.{AreRunsOf};
ghost use Rattle.asrun_match.specs.declared.status.Status.TheVariants as Status;

use crate::aired::AiredRow;
use crate::day::AiredDay;
use crate::runs;
use crate::status::{Run, Status, status_at};
use playlist_core::{DayPlan, Item};
use std::alloc::Global;
use timecode::Unavailable;

// A stretch over which neither the item nor the aired row changes.
#[derive(Clone, Copy)]
struct Piece {
    end: u32,
    status: Status,
}

// The stretch from a frame of an item on: to where the item ends, or the next row begins or ends.
fn piece_at(item: &Item, rows: &[AiredRow], at: u32) -> Piece
    requires begun { item.now.pos ≤ at }
    requires within { end_of (planned item.now) < 2 ^ 32 }
    ensures alone { IfNone (slice_get rows.now 0)
        ((result.end ≡ end_of (planned item.now)) × (result.status ≡ Status.Missed)) }
    ensures before { IfSome (slice_get rows.now 0) (λ row. at < row.pos →
        (result.end ≡ min (end_of (planned item.now)) row.pos) × (result.status ≡ Status.Missed)) }
    ensures beside { IfSome (slice_get rows.now 0) (λ row. row.pos ≤ at →
        (result.end ≡ min (end_of (planned item.now)) (end_of (aired row)))
        × (result.status ≡ status_of (Some ((planned item.now).shows (at - item.now.pos)))
        (Some ((aired row).shows (at - row.pos))))) }
{
    let Some(row) = rows.first() else {
        return Piece {
            end: item.end() as u32,
            status: Status::Missed,
        };
    };
    if at < row.pos {
        return Piece {
            end: item.end().min(u64::from(row.pos)) as u32,
            status: Status::Missed,
        };
    }
    Piece {
        end: item.end().min(row.end()) as u32,
        status: status_at(item, row, at),
    }
}

// The items without the first, where it has ended.
fn items_behind(items: &[Item], at: u32) -> &[Item]
    ensures none { IfNone (slice_get items.now 0) (result.now ≡ items.now) }
    ensures lasts { IfSome (slice_get items.now 0) (λ item. at < end_of (planned item) → result.now ≡ items.now) }
    ensures ended { IfSome (slice_get items.now 0)
        (λ item. end_of (planned item) ≤ at → result.now ≡ drop 1 items.now) }
{
    match items.first() {
        Some(item) if item.end() <= u64::from(at) => &items[1..],
        _ => items,
    }
}

// The rows without the first, where it has ended.
fn rows_behind(rows: &[AiredRow], at: u32) -> &[AiredRow]
    ensures none { IfNone (slice_get rows.now 0) (result.now ≡ rows.now) }
    ensures lasts { IfSome (slice_get rows.now 0) (λ row. at < end_of (aired row) → result.now ≡ rows.now) }
    ensures ended { IfSome (slice_get rows.now 0) (λ row. end_of (aired row) ≤ at → result.now ≡ drop 1 rows.now) }
{
    match rows.first() {
        Some(row) if row.end() <= u64::from(at) => &rows[1..],
        _ => rows,
    }
}

// Adds the runs of a day to an empty list with room for them.
fn sweep(plan: &[Item], airing: &[AiredRow], frames: u32, runs: &mut Vec<Run>)
    requires plan { AreEndToEnd planned 0 frames plan.now }
    requires airing { AreApart aired 0 frames airing.now }
    requires empty { runs.old.items ≡ [] }
    requires room { length plan.now + 2 * length airing.now ≤ vec_capacity runs.old }
    ensures runs { AreRunsOf
        (statuses_of (picture_of planned frames plan.now) (picture_of aired frames airing.now)) runs.new.items }
    ensures count { vec_len runs.new ≤ length plan.now + 2 * length airing.now }
    ensures room { length plan.now + 2 * length airing.now ≤ vec_capacity runs.new }
{
    let mut items = plan;
    let mut rows = airing;
    let mut at: u32 = 0;
    while let Some(item) = items.first() {
        let piece = piece_at(item, rows, at);
        let next = Run {
            position: at,
            frames: piece.end - at,
            status: piece.status,
        };
        runs::push(runs, next);
        at = piece.end;
        items = items_behind(items, at);
        rows = rows_behind(rows, at);
    }
}

/// The runs of a sealed day, in the order of their positions: with so many items and aired rows, at most one for each
/// item and two for each row. The room for as many is taken at once, before the sweep, so want of memory comes there
/// alone.
pub fn reconcile(alloc: Global, plan: &DayPlan, airing: &AiredDay) -> Result<Vec<Run>, Unavailable>
    requires day { airing.now.frames ≡ plan.now.frames }
    requires sealed { plan.now.state ≡ DayState.Sealed }
    ensures runs { IfOk result (λ v. AreRunsOf (statuses_of (picture_in plan.now) (aired_picture airing.now)) v.items) }
    ensures frames { IfOk result (λ v. sum_by (λ run. run.frames) v.items ≡ plan.now.frames) }
    ensures count { IfOk result (λ v.
        vec_len v ≤ length plan.now.items + 2 * length (all_rows airing.now.batches)) }
    ensures room { IfOk result (λ v.
        length plan.now.items + 2 * length (all_rows airing.now.batches) ≤ vec_capacity v) }
{
    plan.keep_the_rules();
    let items = plan.items();
    let rows = airing.rows();
    let mut runs = Vec::with_capacity(alloc, items.len() + 2 * rows.len())?;
    sweep(items, rows, plan.frames(), &mut runs);
    Ok(runs)
}
