//! The days of channels that are known of a set of rows.
ghost use Rattle.std.specs.Prelude.{◌≡◌, ◌<◌, ◌≤◌, true, false, not, filter, length, All, Contains, IfNone, IfSome};
ghost use Rattle.std.specs.List.{HoldsAt};
ghost use Rattle.channel_view_model.specs.Centre.{Centre};
ghost use Rattle.rows_at_hand.specs.Known.{AreKnown, IsAskedLast, IsKnown, Inserts, LeavesLatest, has_room};
ghost use Rattle.rows_at_hand.specs.Known.{is_day_of, most_days, most_rows, rows_at_hand, rows_in};

use asrun_match::{AiredDay, AiredRow};
use playlist_core::{DayPlan, Item, MAX_ITEMS};
use std::alloc::Global;

/// The most days that are at hand at once.
pub const MOST_DAYS: usize = 4_096;

/// The most rows that these take together: their items, and what was aired of them, two for each. A row has 32 bytes,
/// so these are at most 64 MB.
pub const MOST_ROWS: usize = 2_000_000;

const _: () = prove!(size_of::<Item>() == 32);

const _: () = prove!(size_of::<AiredRow>() == 32);

// The most that is kept as aired of a day, so that there is room for it beside the day's items.
const MOST_AIRED: usize = (MOST_ROWS - MAX_ITEMS as usize) / 2;

/// A broadcast day of a channel, as the rows have it, and what was aired of it, where that was asked for.
#[derive(Drop)]
pub(crate) struct KnownDay {
    pub(crate) channel: u16,
    pub(crate) day: DayPlan,
    pub(crate) aired: Option<AiredDay>,
}

fn is_day_of(known: &KnownDay, channel: u16, number: u32) -> bool
    ensures { result ≡ is_day_of channel number known.now }
{
    known.channel == channel && known.day.number() == number
}

/// Where the channel's day of this number stands, if it is known. The latest are looked at first.
pub(crate) fn place_of(days: &[KnownDay], channel: u16, number: u32) -> Option<usize>
    ensures some { IfSome result (λ place. (place < length days.now)
        × HoldsAt (λ k. is_day_of channel number k ≡ true) days.now place) }
    ensures none { IfNone result (All (λ k. is_day_of channel number k ≡ false) days.now) }
{
    let mut end = days.len();
    while end > 0 {
        end -= 1;
        if is_day_of(&days[end], channel, number) {
            return Some(end);
        }
    }
    None
}

/// Makes the day at this place the latest, which is behind the others.
pub(crate) fn ask_last(days: &mut Vec<KnownDay>, place: usize)
    requires { place < length days.old.items }
    ensures { IsAskedLast place days.old.items days.new.items }
{
    days[place..].rotate_left(1);
}

fn rows_in(known: &KnownDay) -> usize
    ensures { result ≡ rows_in known.now }
{
    let items = known.day.items().len();
    match &known.aired {
        // Each stands in its batch, and among all.
        Some(airing) => items + 2 * airing.rows().len(),
        None => items,
    }
}

/// What was aired again, where memory is there for it, and room beside any day's items.
pub(crate) fn airing_kept(alloc: Global, airing: &AiredDay) -> Option<AiredDay>
    ensures { IfSome result (λ kept. kept ≡ airing.now) }
{
    if airing.rows().len() > MOST_AIRED {
        return None;
    }
    airing.copied(alloc).ok()
}

fn rows_at_hand(days: &[KnownDay]) -> usize
    requires { rows_at_hand days.now ≤ most_rows }
    ensures { result ≡ rows_at_hand days.now }
{
    days.iter().map(|known| rows_in(known)).sum()
}

fn has_room(days: &[KnownDay], rows: usize) -> bool
    requires { rows_at_hand days.now ≤ most_rows }
    ensures { result ≡ has_room rows days.now }
{
    days.len() < MOST_DAYS && rows <= MOST_ROWS - rows_at_hand(days)
}

// The days that were asked for least lately make room for one with so many rows.
fn make_room(days: &mut Vec<KnownDay>, rows: usize)
    requires fits { rows ≤ most_rows }
    requires few_rows { rows_at_hand days.old.items ≤ most_rows }
    ensures { LeavesLatest rows days.old.items days.new.items }
{
    while !has_room(days, rows) {
        let _earliest = days.remove(0);
    }
}

/// Knows this day from now on, as the latest, where memory is there for it. Those that were asked for least lately make
/// room. One with more than [`MOST_ROWS`] rows isn't known.
pub(crate) fn insert(days: &mut Vec<KnownDay>, known: KnownDay)
    requires few { length days.old.items ≤ most_days }
    requires few_rows { rows_at_hand days.old.items ≤ most_rows }
    ensures latest { Inserts known days.old.items days.new.items }
    ensures known { (rows : Centre) → AreKnown rows days.old.items → IsKnown rows known →
        AreKnown rows days.new.items }
    ensures few { length days.new.items ≤ most_days }
    ensures few_rows { rows_at_hand days.new.items ≤ most_rows }
{
    let rows = rows_in(&known);
    if rows > MOST_ROWS {
        return;
    }
    make_room(days, rows);
    let _ = days.push(known);
}

/// All but the channel's day of this number.
pub(crate) fn forget(days: &mut Vec<KnownDay>, channel: u16, number: u32)
    ensures items { days.new.items ≡ filter (λ k. not (is_day_of channel number k)) days.old.items }
    ensures few { length days.new.items ≤ length days.old.items }
    ensures few_rows { rows_at_hand days.new.items ≤ rows_at_hand days.old.items }
{
    days.retain(|known| !is_day_of(known, channel, number));
}

/// Takes the channel's day of this number out, if it is known.
pub(crate) fn take_out(days: &mut Vec<KnownDay>, channel: u16, number: u32) -> Option<KnownDay>
    ensures found { IfSome result (λ k. Contains days.old.items k × (is_day_of channel number k ≡ true)) }
    ensures left { days.new.items ≡ filter (λ k. not (is_day_of channel number k)) days.old.items }
    ensures few { length days.new.items ≤ length days.old.items }
    ensures few_rows { rows_at_hand days.new.items ≤ rows_at_hand days.old.items }
{
    let place = place_of(days, channel, number)?;
    let known = days.remove(place);
    // That it is known once isn't proved.
    forget(days, channel, number);
    Some(known)
}
