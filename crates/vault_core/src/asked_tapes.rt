//! What a command asks of a channel's tapes, and the rows and counts that answer it.
ghost use Rattle.std.specs.Prelude.{◌≡◌, ℕ, ◌<◌, ◌==◌, not, nat_le, Err, IsTrue, find, length, bytes_eq};
ghost use Rattle.std.specs.Prelude.{if◌then◌else◌};
ghost use Rattle.std.specs.Option.{option_and_then};
ghost use Rattle.vault_core.specs.Questions.{listed, IsConsistent};
ghost use Rattle.vault_core.specs.Limits.{most_tapes};
ghost use Rattle.vault_core.specs.Own.{OwnSeen};
ghost use Rattle.channel_plan.specs.Refusal.{refused};
ghost use Rattle.vault_core.specs.Tape.{is_bad_slot, tape_for, stands_in};
ghost use Rattle.vault_core.specs.Tape.{as_pulled as as_pulled_of, pulled, shelved_in as shelved_into, shelved};
ghost use Rattle.vault_core.specs.Asked.{asked_for_tape, asked_for_pull, asked_for_shelve, asked_for_clip};
ghost use Rattle.vault_core.specs.Asked.{nothing_asked, AreTapeAnswers};

use crate::tape::{Barcode, MAX_TAPES, Tape};
use channel_plan::{Code, PlanRow, Refusal};

/// What a command asks of its channel's tapes.
#[derive(Clone, Copy, PartialEq, Eq)]
pub struct TapesAsked {
    /// Whether it asks how many there are.
    pub count: bool,
    /// Which tape has this number.
    pub number: Option<u32>,
    /// Which tape has this barcode.
    pub barcode: Option<Barcode>,
    /// Which tape stands in this slot.
    pub slot: Option<u32>,
}

impl TapesAsked {
    /// Nothing.
    pub fn nothing() -> TapesAsked
        ensures { result ≡ nothing_asked }
    {
        TapesAsked {
            count: false,
            number: None,
            barcode: None,
            slot: None,
        }
    }

    /// What pulling a tape asks: the tape with its number.
    pub fn for_pull(number: u32) -> TapesAsked
        ensures { result ≡ asked_for_pull number }
    {
        TapesAsked {
            number: Some(number),
            ..TapesAsked::nothing()
        }
    }

    /// What shelving a tape asks: the tape with its number, the tape in the slot.
    pub fn for_shelve(number: u32, slot: u32) -> TapesAsked
        ensures { result ≡ asked_for_shelve number slot }
    {
        let mut asked = TapesAsked::for_pull(number);
        asked.slot = Some(slot);
        asked
    }

    /// What adding a clip asks of the tapes: the tape with the number of its tape.
    pub fn for_clip(tape: u32) -> TapesAsked
        ensures { result ≡ asked_for_clip tape }
    {
        TapesAsked::for_pull(tape)
    }

    /// What adding a tape asks: how many there are, the tape with its barcode, the tape in its slot. A text that is no
    /// barcode is refused whatever the rows are, so it asks nothing.
    #[tactic(auto, unfolding(crate::specs::Asked::asked_for_tape))]
    pub fn for_tape(barcode: &[u8], slot: u32) -> TapesAsked
        ensures { result ≡ asked_for_tape barcode.now slot }
    {
        match Barcode::read(barcode) {
            Some(barcode) => TapesAsked {
                count: true,
                number: None,
                barcode: Some(barcode),
                slot: Some(slot),
            },
            None => TapesAsked::nothing(),
        }
    }
}

/// The rows and counts of a channel's tapes that answer what is asked. What isn't asked is none.
#[derive(Clone, Copy, PartialEq, Eq)]
pub struct TapesFound {
    /// How many there are, or 0 where that isn't asked.
    pub count: usize,
    /// The tape with the number, if there is one.
    pub with_number: Option<Tape>,
    /// The tape with the barcode, if there is one.
    pub with_barcode: Option<Tape>,
    /// The tape in the slot, if one stands there.
    pub in_slot: Option<Tape>,
}

impl TapesFound {
    /// The tape that a request adds, with the next number, or the first refusal in this order: `BarcodeForm`,
    /// `BadSlot`, `BarcodeKnown`, `SlotTaken`, `VaultFull`. It is the same for all rows that answer
    /// [`TapesAsked::for_tape`] so.
    pub fn tape_for(&self, plan: &PlanRow, barcode: &[u8], slot: u32) -> Result<Tape, Refusal>
        ensures { (own : OwnSeen) → own.plan ≡ plan.now → IsConsistent own.tapes →
            AreTapeAnswers (asked_for_tape barcode.now slot) own.tapes self.now →
            result ≡ tape_for own barcode.now slot }
    {
        let Some(read) = Barcode::read(barcode) else {
            return refuse(Code::BarcodeForm);
        };
        if !has_slot(plan, slot) {
            return refuse(Code::BadSlot);
        }
        if self.with_barcode.is_some() {
            return refuse(Code::BarcodeKnown);
        }
        if self.in_slot.is_some() {
            return refuse(Code::SlotTaken);
        }
        if !has_room(self.count) {
            return refuse(Code::VaultFull);
        }
        Ok(Tape {
            n: self.count as u16 + 1,
            barcode: read,
            slot: Some(slot as u16),
        })
    }

    /// The tape that a pull names, out of its slot, or the first refusal in this order: `NoTape`, `TapeOut`. It is the
    /// same for all rows that answer [`TapesAsked::for_pull`] so.
    pub fn pulled(&self) -> Result<Tape, Refusal>
        ensures { (own : OwnSeen) → (n : ℕ) →
            AreTapeAnswers (asked_for_pull n) own.tapes self.now → result ≡ pulled own n }
    {
        match self.with_number {
            Some(tape) => as_pulled(tape),
            None => refuse(Code::NoTape),
        }
    }

    /// The tape that a request shelves, in this slot, or the first refusal in this order: `NoTape`, `BadSlot`,
    /// `TapeShelved`, `SlotTaken`. It is the same for all rows that answer [`TapesAsked::for_shelve`] so.
    pub fn shelved(&self, plan: &PlanRow, slot: u32) -> Result<Tape, Refusal>
        ensures { (own : OwnSeen) → (n : ℕ) → own.plan ≡ plan.now → IsConsistent own.tapes →
            AreTapeAnswers (asked_for_shelve n slot) own.tapes self.now → result ≡ shelved own n slot }
    {
        match self.with_number {
            Some(tape) => shelved_in(tape, plan, slot, self.in_slot.is_some()),
            None => refuse(Code::NoTape),
        }
    }
}

// A tape taken out of its slot.
fn as_pulled(tape: Tape) -> Result<Tape, Refusal>
    ensures { result ≡ as_pulled_of tape }
{
    if tape.slot.is_none() {
        return refuse(Code::TapeOut);
    }
    Ok(Tape { slot: None, ..tape })
}

// A tape put into a slot, in which another stands or not.
fn shelved_in(tape: Tape, plan: &PlanRow, slot: u32, is_taken: bool) -> Result<Tape, Refusal>
    ensures { result ≡ shelved_into plan.now slot is_taken tape }
{
    if !has_slot(plan, slot) {
        return refuse(Code::BadSlot);
    }
    if tape.slot.is_some() {
        return refuse(Code::TapeShelved);
    }
    if is_taken {
        return refuse(Code::SlotTaken);
    }
    Ok(Tape {
        slot: Some(slot as u16),
        ..tape
    })
}

// Whether the channel has this slot.
fn has_slot(plan: &PlanRow, slot: u32) -> bool
    ensures value { result ≡ not (is_bad_slot plan.now slot) }
    ensures fits { IsTrue result → slot < 65536 }
{
    slot > 0 && slot <= u32::from(plan.slots)
}

// Whether a channel of so many tapes has room for one more.
fn has_room(count: usize) -> bool
    ensures value { result ≡ not (nat_le most_tapes count) }
    ensures fits { IsTrue result → count < most_tapes }
{
    count < MAX_TAPES
}

/// The rows and counts of these tapes that answer what is asked.
pub(crate) fn tapes_found(tapes: &[Tape], asked: &TapesAsked) -> TapesFound
    ensures { AreTapeAnswers asked.now (listed tapes.now) result }
{
    TapesFound {
        count: counted(tapes, asked.count),
        with_number: with_number(tapes, asked.number),
        with_barcode: with_barcode(tapes, asked.barcode),
        in_slot: in_slot(tapes, asked.slot),
    }
}

fn counted(tapes: &[Tape], is_asked: bool) -> usize
    ensures { result ≡ (if is_asked then length tapes.now else 0) }
{
    if is_asked { tapes.len() } else { 0 }
}

fn with_number(tapes: &[Tape], asked: Option<u32>) -> Option<Tape>
    ensures { result ≡ option_and_then (λ n. find (λ t. t.n == n) tapes.now) asked }
{
    match asked {
        Some(number) => tape_of(tapes, number),
        None => None,
    }
}

fn with_barcode(tapes: &[Tape], asked: Option<Barcode>) -> Option<Tape>
    ensures { result ≡ option_and_then (λ barcode. find (λ t. bytes_eq t.barcode barcode) tapes.now) asked }
{
    match asked {
        Some(barcode) => tape_with(tapes, barcode.as_bytes()),
        None => None,
    }
}

fn in_slot(tapes: &[Tape], asked: Option<u32>) -> Option<Tape>
    ensures { result ≡ option_and_then (λ slot. find (λ t. stands_in slot t.slot) tapes.now) asked }
{
    match asked {
        Some(slot) => tape_in(tapes, slot),
        None => None,
    }
}

// The first tape with this number.
fn tape_of(tapes: &[Tape], number: u32) -> Option<Tape>
    ensures { result ≡ find (λ t. t.n == number) tapes.now }
{
    tapes.iter().copied().find(|t| u32::from(t.n) == number)
}

// The first tape with this barcode.
fn tape_with(tapes: &[Tape], barcode: &[u8]) -> Option<Tape>
    ensures { result ≡ find (λ t. bytes_eq t.barcode barcode.now) tapes.now }
{
    tapes
        .iter()
        .copied()
        .find(|t| t.barcode.as_bytes() == barcode)
}

// The first tape in this slot.
fn tape_in(tapes: &[Tape], slot: u32) -> Option<Tape>
    ensures { result ≡ find (λ t. stands_in slot t.slot) tapes.now }
{
    tapes.iter().copied().find(|t| t.stands_in(slot))
}

fn refuse(code: Code) -> Result<Tape, Refusal>
    ensures { result ≡ Err (refused code) }
{
    Err(Refusal::of(code))
}
