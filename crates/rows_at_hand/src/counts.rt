//! What the days table tells of the days of channels, as their rows change.
ghost use Rattle.std.specs.Prelude.{◌≡◌, ◌≤◌, ◌<◌, ◌==◌, All, Contains, IfNone, IfOk, IfSome, IsTrue, OnOk, OnErr, true, false};
ghost use Rattle.std.specs.Prelude.{filter, find, length, map, not, nat_le, position, slice_get};
ghost use Rattle.std.specs.List.{HoldsAt, flat_map, position_or_len};
ghost use Rattle.std.specs.Option.{option_map};
ghost use Rattle.std.specs.Io.KnownBytes.{Appends};
ghost use Rattle.vault_core.specs.Questions.{replaced};
ghost use Rattle.report_texts.specs.Output.{AppendsPart};
ghost use Rattle.report_texts.specs.Days.{counts_line};
ghost use Rattle.channel_view_model.specs.Centre.{Centre, IsChangeOf, changed};
ghost use Rattle.rows_at_hand.specs.Counted.{AreCounted, IsCounted, Learns, batches_told, counts_text, days_counted};
ghost use Rattle.rows_at_hand.specs.Counted.{is_channel, is_told_at, left_beside, most_counted, with_batches};

use asrun_match::DayAsRun;
use channel_view_model::Change;
use playlist_core::DayChange;
use report_texts::{DayCounts, WriteFault};
use reports::{counts_of, write_day, write_days_end};
use std::alloc::{AllocError, Global};
use std::io::Write;

/// The most days of which this is at hand at once. A day has 32 bytes, so these are at most 16 MB.
pub const MOST_COUNTED: usize = 500_000;

const _: () = prove!(size_of::<DayCounts>() == 32);

/// What the days table tells of each day of a channel.
#[derive(Drop)]
pub(crate) struct ChannelCounts {
    pub(crate) channel: u16,
    pub(crate) counts: Vec<DayCounts>,
}

/// What is told of the channel's days, if that is known.
pub(crate) fn counts_at(channels: &[ChannelCounts], channel: u16) -> Option<&ChannelCounts>
    ensures { option_map (λ k. k.now) result ≡ find (is_channel channel) channels.now }
{
    channels.iter().find(|known| is_channel(known, channel))
}

// The line of each of these days.
fn write_lines<W: Write>(output: &mut W, counts: &[DayCounts]) -> Result<(), WriteFault>
    ensures ok { OnOk result
        (Appends (W.contents output.old) (W.contents output.new) (flat_map counts_line counts.now)) }
    ensures err { OnErr result
        (AppendsPart (W.contents output.old) (W.contents output.new) (flat_map counts_line counts.now)) }
{
    for day in counts {
        write_day(output, *day)?;
    }
    Ok(())
}

/// Writes the days table that tells this.
pub(crate) fn write_counts<W: Write>(output: &mut W, counts: &[DayCounts]) -> Result<(), WriteFault>
    ensures ok { OnOk result (Appends (W.contents output.old) (W.contents output.new) (counts_text counts.now)) }
    ensures err { OnErr result (AppendsPart (W.contents output.old) (W.contents output.new) (counts_text counts.now)) }
{
    write_lines(output, counts)?;
    write_days_end(output, counts.len())
}

fn days_counted(channels: &[ChannelCounts]) -> usize
    requires { days_counted channels.now ≤ most_counted }
    ensures { result ≡ days_counted channels.now }
{
    channels.iter().map(|known| known.counts.len()).sum()
}

// Leaves room for one with so many days: where there is none beside the others, these go.
fn leave_room(channels: &mut Vec<ChannelCounts>, days: usize)
    requires fits { days ≤ most_counted }
    requires few { days_counted channels.old.items ≤ most_counted }
    ensures { channels.new.items ≡ left_beside days channels.old.items }
{
    if days > MOST_COUNTED - days_counted(channels) {
        channels.clear();
    }
}

/// Knows this channel from now on, where memory is there for it. Where there is no room for it beside the others, these
/// go. One with more than [`MOST_COUNTED`] days isn't known.
pub(crate) fn learn(channels: &mut Vec<ChannelCounts>, known: ChannelCounts)
    requires few { days_counted channels.old.items ≤ most_counted }
    ensures learns { Learns known channels.old.items channels.new.items }
    ensures counted { (rows : Centre) → AreCounted rows channels.old.items → IsCounted rows known →
        AreCounted rows channels.new.items }
    ensures few { days_counted channels.new.items ≤ most_counted }
{
    let days = known.counts.len();
    if days > MOST_COUNTED {
        return;
    }
    leave_room(channels, days);
    let _ = channels.push(known);
}

fn is_channel(known: &ChannelCounts, channel: u16) -> bool
    ensures { result ≡ is_channel channel known.now }
{
    known.channel == channel
}

// Where this channel stands, if it is known.
fn place_of_channel(channels: &[ChannelCounts], channel: u16) -> Option<usize>
    ensures some { IfSome result (λ place. (place < length channels.now)
        × HoldsAt (λ k. is_channel channel k ≡ true) channels.now place) }
    ensures none { IfNone result (All (λ k. is_channel channel k ≡ false) channels.now) }
{
    let mut end = channels.len();
    while end > 0 {
        end -= 1;
        if is_channel(&channels[end], channel) {
            return Some(end);
        }
    }
    None
}

// All but this channel.
fn forget(channels: &mut Vec<ChannelCounts>, channel: u16)
    ensures items { channels.new.items ≡ filter (λ k. not (is_channel channel k)) channels.old.items }
    ensures few { days_counted channels.new.items ≤ days_counted channels.old.items }
{
    channels.retain(|known| !is_channel(known, channel));
}

// Takes this channel out, if it is known.
fn take_out(channels: &mut Vec<ChannelCounts>, channel: u16) -> Option<ChannelCounts>
    ensures found { IfSome result (λ k. Contains channels.old.items k × (is_channel channel k ≡ true)) }
    ensures left { channels.new.items ≡ filter (λ k. not (is_channel channel k)) channels.old.items }
    ensures few { days_counted channels.new.items ≤ days_counted channels.old.items }
{
    let place = place_of_channel(channels, channel)?;
    let known = channels.remove(place);
    // That it is known once isn't proved.
    forget(channels, channel);
    Some(known)
}

// What is told of the day of this number.
fn told_of(counts: &[DayCounts], number: u32) -> Option<&DayCounts>
    ensures { option_map (λ d. d.now) result ≡ find (λ k. k.number == number) counts.now }
{
    counts.iter().find(|day| day.number == number)
}

// How many batches are told of the day of this number.
fn batches_told(counts: &[DayCounts], number: u32) -> usize
    ensures { result ≡ batches_told counts.now number }
{
    match told_of(counts, number) {
        Some(day) => day.batches,
        None => 0,
    }
}

// Where the day of this number stands, or belongs.
fn place_of(counts: &[DayCounts], number: u32) -> usize
    ensures place { result ≡ position_or_len (λ k. nat_le number k.number) counts.now }
    ensures within { result ≤ length counts.now }
{
    first_from(counts, number).unwrap_or(counts.len())
}

fn first_from(counts: &[DayCounts], number: u32) -> Option<usize>
    ensures { result ≡ position (λ k. nat_le number k.number) counts.now }
{
    counts.iter().position(|day| number <= day.number)
}

// Whether what stands at a place is told of the day of this number.
fn is_told_at(counts: &[DayCounts], place: usize, number: u32) -> bool
    ensures day { result ≡ is_told_at number (slice_get counts.now place) }
    ensures within { IsTrue result → place < length counts.now }
{
    match counts.get(place) {
        Some(day) => day.number == number,
        None => false,
    }
}

// This is told of a day, in the place of what was, or in the order of the days.
fn put(counts: &mut Vec<DayCounts>, day: DayCounts) -> Result<(), AllocError>
    ensures { OnOk result (counts.new.items ≡ replaced (λ k. k.number) day counts.old.items) }
{
    let place = place_of(counts, day.number);
    if is_told_at(counts, place, day.number) {
        counts[place] = day;
    } else {
        counts.insert(place, day)?;
    }
    Ok(())
}

// What is told of a day, with so many batches where this is its number.
fn told_with(day: &DayCounts, number: u32, batches: usize) -> DayCounts
    ensures { result ≡ with_batches number batches day.now }
{
    if day.number == number {
        DayCounts { batches, ..*day }
    } else {
        *day
    }
}

// Tells so many batches of the day of this number.
fn with_batches(
    alloc: Global,
    counts: &[DayCounts],
    number: u32,
    batches: usize,
) -> Result<Vec<DayCounts>, AllocError>
    ensures { IfOk result (λ v. v.items ≡ map (with_batches number batches) counts.now) }
{
    let mut told = Vec::new(alloc);
    for day in counts {
        told.push(told_with(day, number, batches))?;
    }
    Ok(told)
}

// Follows a change of one of the channel's days. What was aired of it stays.
fn follow_day(channels: &mut Vec<ChannelCounts>, channel: u16, change: &DayChange)
    requires few { days_counted channels.old.items ≤ most_counted }
    ensures counted { (rows : Centre) → AreCounted rows channels.old.items →
        IsChangeOf channel (Change.Day change.now) rows →
        AreCounted (changed channel (Change.Day change.now) rows) channels.new.items }
    ensures few { days_counted channels.new.items ≤ most_counted }
{
    let Some(mut known) = take_out(channels, channel) else {
        return;
    };
    let day = change.day();
    let batches = batches_told(&known.counts, day.number());
    let Ok(()) = put(&mut known.counts, counts_of(day, batches)) else {
        return;
    };
    learn(channels, known);
}

// Follows what was aired of one of them.
fn follow_airing(alloc: Global, channels: &mut Vec<ChannelCounts>, channel: u16, airing: &DayAsRun)
    requires few { days_counted channels.old.items ≤ most_counted }
    ensures counted { (rows : Centre) → AreCounted rows channels.old.items →
        IsChangeOf channel (Change.Airing airing.now) rows →
        AreCounted (changed channel (Change.Airing airing.now) rows) channels.new.items }
    ensures few { days_counted channels.new.items ≤ most_counted }
{
    let Some(known) = take_out(channels, channel) else {
        return;
    };
    let batches = airing.aired.batches().len();
    let Ok(counts) = with_batches(alloc, &known.counts, airing.day, batches) else {
        return;
    };
    learn(channels, ChannelCounts { channel, counts });
}

/// What is told of each channel's days after a change of this one.
pub(crate) fn follow(
    alloc: Global,
    channels: &mut Vec<ChannelCounts>,
    channel: u16,
    change: &Change,
)
    requires few { days_counted channels.old.items ≤ most_counted }
    ensures counted { (rows : Centre) → AreCounted rows channels.old.items → IsChangeOf channel change.now rows →
        AreCounted (changed channel change.now rows) channels.new.items }
    ensures few { days_counted channels.new.items ≤ most_counted }
{
    match change {
        Change::Day(change) => follow_day(channels, channel, change),
        Change::Airing(airing) => follow_airing(alloc, channels, channel, airing),
        Change::Nothing => {}
        Change::Vault(_, _) => {}
    }
}
