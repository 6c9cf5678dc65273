//! The plan: the channels of a centre.
ghost use Rattle.std.specs.Prelude.{◌≡◌, List, [], ◌∷◌, ℕ, ◌==◌, nat_lt, ◌<◌, length, position, find, MatchOption};
ghost use Rattle.std.specs.Prelude.{IfOk, IfErr, OnErr, IfSome, IfNone};
ghost use Rattle.std.specs.List.{slice_split, list_all, list_any};
ghost use Rattle.channel_plan.specs.Refusal.{refused};
ghost use Rattle.channel_plan.specs.Plan.{is_comma, is_plan as is_plan_of, is_plan_in_order as is_plan_in_order_of};
ghost use Rattle.channel_plan.specs.Plan.{HasPlanFields};

use crate::refusal::{Code, Refusal};
use timecode::{Rate, day_frames, from_timecode, whole_number};

/// The highest number of a channel.
pub const LAST_CHANNEL: u16 = 999;

/// The most slots of a channel.
pub const MAX_SLOTS: u16 = 9999;

/// The highest number of a broadcast day.
pub const LAST_DAY: u32 = 99_999;

/// A channel of the plan. In a plan its fields are in the ranges that are said here: [`PlanRow::is_in_range`] tests
/// them.
#[derive(Clone, Copy, Debug, PartialEq, Eq)]
pub struct PlanRow {
    /// 1 to 999.
    pub ch: u16,
    pub rate: Rate,
    /// The label at which its broadcast day starts, as a frame from 00:00:00:00.
    pub start: u32,
    /// How many slots it has for tapes, 1 to 9,999.
    pub slots: u16,
}

impl PlanRow {
    ghost use Rattle.channel_plan.specs.Plan.{is_plan_row, IsPlanText};

    /// Reads a row of four fields with a comma between them: channel, rate, start label and slots, as
    /// `1,25,06:00:00:00,40`. Channel and slots are in their ranges and don't begin with 0. Any other text is
    /// refused with [`Code::PlanRow`].
    pub fn read(text: &[u8]) -> Result<PlanRow, Refusal>
        ensures ok { IfOk result (IsPlanText text.now) }
        ensures err { OnErr result ((row : PlanRow) → IsPlanText text.now row → ⊥) }
        ensures refusal { IfErr result (λ e. e ≡ refused Code.PlanRow) }
    {
        let Some(fields) = plan_fields(text) else {
            return Err(Refusal::of(Code::PlanRow));
        };
        match row_of_fields(&fields) {
            Some(row) => Ok(row),
            None => Err(Refusal::of(Code::PlanRow)),
        }
    }

    /// Whether each field is in its range.
    pub fn is_in_range(&self) -> bool
        ensures { result ≡ is_plan_row self.now }
    {
        self.ch > 0
            && self.ch <= LAST_CHANNEL
            && self.start < day_frames(self.rate)
            && self.slots > 0
            && self.slots <= MAX_SLOTS
    }
}

/// Whether each row is in range and no channel comes twice.
pub fn is_plan(plan: &[PlanRow]) -> bool
    ensures { result ≡ is_plan_of plan.now }
{
    match plan.split_first() {
        None => true,
        Some((row, rows)) => row.is_in_range() && !has_channel(rows, row.ch) && is_plan(rows),
    }
}

/// Whether each row is in range and the channels rise, so that none comes twice.
pub fn is_plan_in_order(plan: &[PlanRow]) -> bool
    ensures { result ≡ is_plan_in_order_of plan.now }
{
    match plan.split_first() {
        None => true,
        Some((row, rows)) => row.is_in_range()
            && are_behind(rows, row.ch)
            && is_plan_in_order(rows),
    }
}

/// The row of a channel, if it is in the plan.
pub fn plan_row(channels: &[PlanRow], channel: u16) -> Option<PlanRow>
    ensures { result ≡ find (λ p. p.ch == channel) channels.now }
{
    channels.iter().copied().find(|p| p.ch == channel)
}

// The fields of a plan row's text.
#[derive(Clone, Copy)]
struct PlanFields<'a> {
    channel: &'a [u8],
    rate: &'a [u8],
    start: &'a [u8],
    slots: &'a [u8],
}

fn are_behind(rows: &[PlanRow], channel: u16) -> bool
    ensures { result ≡ list_all (λ other. nat_lt channel other.ch) rows.now }
{
    rows.iter().all(|other| other.ch > channel)
}

fn has_channel(rows: &[PlanRow], channel: u16) -> bool
    ensures { result ≡ list_any (λ other. other.ch == channel) rows.now }
{
    rows.iter().any(|other| other.ch == channel)
}

fn comma_in(text: &[u8]) -> Option<usize>
    ensures value { result ≡ position is_comma text.now }
    ensures within { IfSome result (λ at. at < length text.now) }
{
    text.iter().position(|b| *b == b',')
}

// The text before the first comma, and the text after it, if there is one.
fn first_field(text: &[u8]) -> (&[u8], Option<&[u8]>)
    ensures { MatchOption result.1 (slice_split is_comma text.now ≡ result.0.now ∷ [])
        (λ rest. slice_split is_comma text.now ≡ result.0.now ∷ slice_split is_comma rest.now) }
{
    match comma_in(text) {
        Some(at) => (&text[..at], Some(&text[at + 1..])),
        None => (text, None),
    }
}

fn plan_fields(text: &[u8]) -> Option<PlanFields<'_>>
    ensures some { IfSome result
        (λ f. slice_split is_comma text.now ≡ f.channel.now ∷ f.rate.now ∷ f.start.now ∷ f.slots.now ∷ []) }
    ensures none { IfNone result ((a b c d : List ℕ) → slice_split is_comma text.now ≡ a ∷ b ∷ c ∷ d ∷ [] → ⊥) }
{
    let (channel, rest) = first_field(text);
    let (rate, rest) = first_field(rest?);
    let (start, rest) = first_field(rest?);
    let (slots, rest) = first_field(rest?);
    if rest.is_some() {
        return None;
    }
    Some(PlanFields {
        channel,
        rate,
        start,
        slots,
    })
}

fn row_of_fields(fields: &PlanFields<'_>) -> Option<PlanRow>
    ensures some { IfSome result
        (HasPlanFields fields.now.channel.now fields.now.rate.now fields.now.start.now fields.now.slots.now) }
    ensures none { IfNone result ((row : PlanRow) →
        HasPlanFields fields.now.channel.now fields.now.rate.now fields.now.start.now fields.now.slots.now row → ⊥) }
{
    let channel = whole_number(fields.channel, 3)?;
    let rate = Rate::from_text(fields.rate)?;
    let start = from_timecode(fields.start, rate).ok()?;
    let slots = whole_number(fields.slots, 4)?;
    let row = PlanRow {
        ch: channel as u16,
        rate,
        start,
        slots: slots as u16,
    };
    if row.is_in_range() { Some(row) } else { None }
}
