//! What becomes of the days that are known as their channels' rows change.
ghost use Rattle.std.specs.Prelude.{◌≡◌, ◌≤◌, length};
ghost use Rattle.channel_view_model.specs.Centre.{Centre, IsChangeOf, changed};
ghost use Rattle.rows_at_hand.specs.Known.{AreKnown, KeepsOthers, kept_beside, most_days, most_rows, rows_at_hand};

use crate::known::{KnownDay, airing_kept, forget, insert, take_out};
use asrun_match::DayAsRun;
use channel_view_model::Change;
use playlist_core::DayChange;
use std::alloc::Global;

// Knows a day that is known as it is after a change, with what was aired of it as before.
fn follow_day(alloc: Global, days: &mut Vec<KnownDay>, channel: u16, change: &DayChange)
    requires few { length days.old.items ≤ most_days }
    requires few_rows { rows_at_hand days.old.items ≤ most_rows }
    ensures known { (rows : Centre) → AreKnown rows days.old.items →
        IsChangeOf channel (Change.Day change.now) rows →
        AreKnown (changed channel (Change.Day change.now) rows) days.new.items }
    ensures others { KeepsOthers (kept_beside channel (Change.Day change.now) days.old.items) days.new.items }
    ensures few { length days.new.items ≤ most_days }
    ensures few_rows { rows_at_hand days.new.items ≤ most_rows }
{
    let day = change.day();
    let Some(mut known) = take_out(days, channel, day.number()) else {
        return;
    };
    let Ok(day) = day.copied(alloc) else {
        return;
    };
    known.day = day;
    insert(days, known);
}

// Knows of a day that is known what was aired of it after a change, where memory is there for that.
fn follow_airing(alloc: Global, days: &mut Vec<KnownDay>, channel: u16, airing: &DayAsRun)
    requires few { length days.old.items ≤ most_days }
    requires few_rows { rows_at_hand days.old.items ≤ most_rows }
    ensures known { (rows : Centre) → AreKnown rows days.old.items →
        IsChangeOf channel (Change.Airing airing.now) rows →
        AreKnown (changed channel (Change.Airing airing.now) rows) days.new.items }
    ensures others { KeepsOthers (kept_beside channel (Change.Airing airing.now) days.old.items) days.new.items }
    ensures few { length days.new.items ≤ most_days }
    ensures few_rows { rows_at_hand days.new.items ≤ most_rows }
{
    let Some(mut known) = take_out(days, channel, airing.day) else {
        return;
    };
    known.aired = airing_kept(alloc, &airing.aired);
    insert(days, known);
}

/// Knows of each day what it is after a change of the channel.
pub(crate) fn apply(alloc: Global, days: &mut Vec<KnownDay>, channel: u16, change: &Change)
    requires few { length days.old.items ≤ most_days }
    requires few_rows { rows_at_hand days.old.items ≤ most_rows }
    ensures known { (rows : Centre) → AreKnown rows days.old.items → IsChangeOf channel change.now rows →
        AreKnown (changed channel change.now rows) days.new.items }
    ensures others { KeepsOthers (kept_beside channel change.now days.old.items) days.new.items }
    ensures few { length days.new.items ≤ most_days }
    ensures few_rows { rows_at_hand days.new.items ≤ most_rows }
{
    match change {
        Change::Day(change) => follow_day(alloc, days, channel, change),
        Change::Airing(airing) => follow_airing(alloc, days, channel, airing),
        Change::Nothing => {}
        Change::Vault(_, _) => {}
    }
}

/// Knows no longer what a change that was refused was about.
pub(crate) fn forget_changed(days: &mut Vec<KnownDay>, channel: u16, change: &Change)
    ensures left { days.new.items ≡ kept_beside channel change.now days.old.items }
    ensures few { length days.new.items ≤ length days.old.items }
    ensures few_rows { rows_at_hand days.new.items ≤ rows_at_hand days.old.items }
{
    match change {
        Change::Day(change) => forget(days, channel, change.day().number()),
        Change::Airing(airing) => forget(days, channel, airing.day),
        Change::Nothing => {}
        Change::Vault(_, _) => {}
    }
}
