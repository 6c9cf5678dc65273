//! The test of a whole set by the integrity rules.
ghost use Rattle.std.specs.Prelude.{◌≡◌, ◌≤◌, ◌↔◌, ◌==◌, not, true, length, position, IfOk, IsTrue};
ghost use Rattle.channel_plan.specs.Plan.{is_plan_in_order};
ghost use Rattle.vault_core.specs.Rules.{KeepsOwnRules};
ghost use Rattle.channel_view_model.specs.Tables.{rows_alone};
ghost use Rattle.channel_view_model.specs.Walk.{others_at, rows_behind, rows_in_front};
ghost use Rattle.channel_view_model.specs.Rules.{KeepsRules, KeepsTables};

use crate::airing_rules::keeps_airings;
use crate::day_rules::keeps_days;
use channel_plan::{PlanRow, is_plan_in_order};
use channel_view_model::CentreRows;
use std::alloc::Global;
use timecode::Unavailable;
use vault_core::{Clip, Offer, OwnRows, Tape};

/// Whether the channels are a plan in order, and each table of the set has rows of these channels alone, channel after
/// channel, which keep each channel's own rules; whether each channel's days have what their items show; and whether
/// what was aired keeps its rules, each batch of a sealed day.
pub fn keeps_rules(alloc: Global, rows: &CentreRows) -> Result<bool, Unavailable>
    ensures { IfOk result (λ b. IsTrue b ↔ KeepsRules rows.now) }
{
    if !keeps_own_tables(alloc, rows)? {
        return Ok(false);
    }
    if !keeps_days(alloc, rows)? {
        return Ok(false);
    }
    Ok(keeps_airings(rows))
}

// Whether the channels are a plan in order, and the tables of own rows have rows of these channels alone.
fn keeps_own_tables(alloc: Global, rows: &CentreRows) -> Result<bool, Unavailable>
    ensures { IfOk result (λ b. IsTrue b ↔
        (is_plan_in_order rows.now.channels ≡ true) × KeepsTables rows.now) }
{
    if !is_plan_in_order(&rows.channels) {
        return Ok(false);
    }
    let mut left = Tables {
        tapes: &rows.tapes,
        clips: &rows.clips,
        offers: &rows.offers,
    };
    for plan in &rows.channels {
        let (own, behind) = left.split(plan.ch);
        if !keeps_own_rules(alloc, *plan, &own)? {
            return Ok(false);
        }
        left = behind;
    }
    Ok(left.are_empty())
}

// The rows of each table, from a place in it on.
#[derive(Clone, Copy)]
struct Tables<'a> {
    tapes: &'a [(u16, Tape)],
    clips: &'a [(u16, Clip)],
    offers: &'a [(u16, Offer)],
}

impl<'a> Tables<'a> {
    // The rows of this channel in front of each table, and those behind them.
    fn split(&self, channel: u16) -> (Tables<'a>, Tables<'a>)
        ensures own_tapes { result.0.tapes.now ≡ rows_in_front channel self.now.tapes.now }
        ensures own_clips { result.0.clips.now ≡ rows_in_front channel self.now.clips.now }
        ensures own_offers { result.0.offers.now ≡ rows_in_front channel self.now.offers.now }
        ensures tapes_behind { result.1.tapes.now ≡ rows_behind channel self.now.tapes.now }
        ensures clips_behind { result.1.clips.now ≡ rows_behind channel self.now.clips.now }
        ensures offers_behind { result.1.offers.now ≡ rows_behind channel self.now.offers.now }
    {
        let (tapes, later_tapes) = self.tapes.split_at(end_of_channel(self.tapes, channel));
        let (clips, later_clips) = self.clips.split_at(end_of_channel(self.clips, channel));
        let (offers, later_offers) = self.offers.split_at(end_of_channel(self.offers, channel));
        (
            Tables {
                tapes,
                clips,
                offers,
            },
            Tables {
                tapes: later_tapes,
                clips: later_clips,
                offers: later_offers,
            },
        )
    }

    fn are_empty(&self) -> bool
        ensures { IsTrue result ↔ (length self.now.tapes.now ≡ 0) × (length self.now.clips.now ≡ 0)
            × (length self.now.offers.now ≡ 0) }
    {
        self.tapes.is_empty() && self.clips.is_empty() && self.offers.is_empty()
    }
}

// Whether these rows are a channel's own rows.
fn keeps_own_rules(alloc: Global, plan: PlanRow, own: &Tables<'_>) -> Result<bool, Unavailable>
    ensures { IfOk result
        (λ b. IsTrue b ↔ KeepsOwnRules (record {
          plan = plan;
          tapes = rows_alone own.now.tapes.now;
          clips = rows_alone own.now.clips.now;
          offers = rows_alone own.now.offers.now;
        })) }
{
    let tapes = without_channels(alloc, own.tapes)?;
    let clips = without_channels(alloc, own.clips)?;
    let offers = without_channels(alloc, own.offers)?;
    match OwnRows::from_rows(alloc, plan, tapes, clips, offers) {
        Ok(_) => Ok(true),
        Err(_) => Ok(false),
    }
}

/// The rows without their channels.
pub fn without_channels<T: Copy>(alloc: Global, rows: &[(u16, T)]) -> Result<Vec<T>, Unavailable>
    ensures { IfOk result (λ v. v.items ≡ rows_alone rows.now) }
{
    Ok(rows.iter().map(|r| r.1).collect(alloc)?)
}

// How many rows at the front are of this channel.
fn end_of_channel<T: Copy>(rows: &[(u16, T)], channel: u16) -> usize
    ensures value { result ≡ others_at channel rows.now }
    ensures within { result ≤ length rows.now }
{
    first_of_another(rows, channel).unwrap_or(rows.len())
}

fn first_of_another<T: Copy>(rows: &[(u16, T)], channel: u16) -> Option<usize>
    ensures { result ≡ position (λ r. not (r.0 == channel)) rows.now }
{
    rows.iter().position(|r| r.0 != channel)
}
