//! The test of one channel's own rows by the integrity rules.
ghost use Rattle.std.specs.Prelude.{◌≡◌, ◌↔◌, ◌==◌, ℕ, true, find, option_copied, IsTrue};
ghost use Rattle.std.specs.List.{list_all};
ghost use Rattle.vault_core.specs.Rules.{is_slot as is_slot_of, is_tape as is_tape_of, is_numbered_from};
ghost use Rattle.vault_core.specs.Rules.{is_clip as is_clip_of, is_offer as is_offer_of};
ghost use Rattle.vault_core.specs.Rules.{KeepsOwnRules, KeepsClipRules, KeepsOfferRules};
ghost use Rattle.vault_core.specs.Offer.{is_copy as is_copy_of, is_grantee as is_grantee_of};
ghost use Rattle.vault_core.specs.Offer.{matches_clip as matches_clip_of};

use crate::clip::{Clip, MAX_CLIPS, is_range};
use crate::keys::{have_own_barcodes, have_own_grants, have_own_slots, have_own_umids};
use crate::offer::{MAX_OFFERS, Offer};
use crate::tape::{MAX_TAPES, Tape};
use channel_plan::{LAST_CHANNEL, PlanRow};
use std::alloc::Global;
use umid::laws::parts_are_of_32_bytes;

/// Whether a channel's own rows keep the rules: its plan row and the fields of its tapes are in range, these are
/// numbered from 1 without a hole, at most 9,999, and their barcodes and slots differ; its clips and offers keep
/// theirs. Want of memory makes it slow, and changes no answer.
pub(crate) fn keeps_own_rules(
    alloc: Global,
    plan: PlanRow,
    tapes: &[Tape],
    clips: &[Clip],
    offers: &[Offer],
) -> bool
    ensures { IsTrue result
        ↔ KeepsOwnRules (record { plan = plan; tapes = tapes.now; clips = clips.now; offers = offers.now }) }
{
    if !plan.is_in_range()
        || tapes.len() > MAX_TAPES
        || !are_tapes(tapes, plan.slots)
        || !is_numbered(tapes)
    {
        return false;
    }
    have_own_barcodes(alloc, tapes)
        && have_own_slots(alloc, tapes)
        && keeps_clip_rules(alloc, plan, tapes.len(), clips)
        && keeps_offer_rules(alloc, plan, clips, offers)
}

// Whether clips keep the rules where there are so many tapes: their fields are in range, each is on one of these tapes,
// they are numbered from 1 without a hole, at most 20,000, and their UMIDs differ.
fn keeps_clip_rules(alloc: Global, plan: PlanRow, tapes: usize, clips: &[Clip]) -> bool
    ensures { IsTrue result ↔ KeepsClipRules plan tapes clips.now }
{
    if clips.len() > MAX_CLIPS || !are_clips(clips, &plan, tapes) || !is_numbered(clips) {
        return false;
    }
    have_own_umids(alloc, clips)
}

// Whether offers keep the rules where these are the clips: each is to another channel and has what its clip has, they
// are numbered from 1 without a hole, at most 9,999, and no two that are open are of one clip to one grantee.
fn keeps_offer_rules(alloc: Global, plan: PlanRow, clips: &[Clip], offers: &[Offer]) -> bool
    requires { is_numbered_from (λ c. c.n) 1 clips.now ≡ true }
    ensures { IsTrue result ↔ KeepsOfferRules plan clips.now offers.now }
{
    if offers.len() > MAX_OFFERS || !are_offers(offers, &plan, clips) || !is_numbered(offers) {
        return false;
    }
    have_own_grants(alloc, offers)
}

fn are_offers(offers: &[Offer], plan: &PlanRow, clips: &[Clip]) -> bool
    requires { is_numbered_from (λ c. c.n) 1 clips.now ≡ true }
    ensures { result ≡ list_all (is_offer_of plan.now clips.now) offers.now }
{
    offers.iter().all(|o| is_offer(o, plan, clips))
}

fn is_offer(offer: &Offer, plan: &PlanRow, clips: &[Clip]) -> bool
    requires { is_numbered_from (λ c. c.n) 1 clips.now ≡ true }
    ensures { result ≡ is_offer_of plan.now clips.now offer.now }
{
    is_grantee(plan, offer.grantee) && matches_clip(plan, offer, clip_numbered(clips, offer.clip))
}

/// Whether a channel is one that this one may lend to: 1 to 999, and another.
pub(crate) fn is_grantee(plan: &PlanRow, grantee: u16) -> bool
    ensures { result ≡ is_grantee_of plan.now grantee }
{
    grantee > 0 && grantee <= LAST_CHANNEL && grantee != plan.ch
}

fn matches_clip(plan: &PlanRow, offer: &Offer, clip: Option<Clip>) -> bool
    ensures { result ≡ matches_clip_of plan.now offer.now clip }
{
    match clip {
        Some(clip) => is_copy(plan, offer, &clip),
        None => false,
    }
}

#[tactic(auto, unfolding(crate::specs::Offer::is_copy))]
fn is_copy(plan: &PlanRow, offer: &Offer, clip: &Clip) -> bool
    ensures { result ≡ is_copy_of plan.now offer.now clip.now }
{
    let granted = clip.umid.with_instance(u32::from(offer.grantee));
    offer.title.as_bytes() == clip.title.as_bytes()
        && offer.umid.to_bytes() == granted.to_bytes()
        && offer.rate == plan.rate
        && (offer.src_first == clip.src_first && offer.frames == clip.frames)
}

/// The clip with this number, which is its place, counted from 1.
pub fn clip_at(clips: &[Clip], number: u32) -> Option<&Clip>
    requires { is_numbered_from (λ c. c.n) 1 clips.now ≡ true }
    ensures { option_copied result ≡ find (λ c. c.n == number) clips.now }
{
    if number == 0 {
        return None;
    }
    let clip = clips.get(number as usize - 1)?;
    Some(clip)
}

// The same, copied.
fn clip_numbered(clips: &[Clip], number: u32) -> Option<Clip>
    requires { is_numbered_from (λ c. c.n) 1 clips.now ≡ true }
    ensures { result ≡ find (λ c. c.n == number) clips.now }
{
    match clip_at(clips, number) {
        Some(clip) => Some(*clip),
        None => None,
    }
}

/// Whether clips are numbered from 1 without a hole.
pub fn are_numbered(clips: &[Clip]) -> bool
    ensures { result ≡ is_numbered_from (λ c. c.n) 1 clips.now }
{
    is_numbered(clips)
}

fn are_clips(clips: &[Clip], plan: &PlanRow, tapes: usize) -> bool
    ensures { result ≡ list_all (is_clip_of plan.now tapes) clips.now }
{
    clips.iter().all(|c| is_clip(c, plan, tapes))
}

fn is_clip(clip: &Clip, plan: &PlanRow, tapes: usize) -> bool
    ensures { result ≡ is_clip_of plan.now tapes clip.now }
{
    // No test is needed of the UMID and the title: each UMID has the parts of 32 bytes, and each title is one.
    parts_are_of_32_bytes(&clip.umid);
    clip.title.keeps_the_form();
    clip.tape > 0 && usize::from(clip.tape) <= tapes && is_range(plan, clip.src_first, clip.frames)
}

fn are_tapes(tapes: &[Tape], slots: u16) -> bool
    ensures { result ≡ list_all (is_tape_of slots) tapes.now }
{
    tapes.iter().all(|t| is_tape(t, slots))
}

fn is_tape(tape: &Tape, slots: u16) -> bool
    ensures { result ≡ is_tape_of slots tape.now }
{
    // No test is needed of the barcode: each is one.
    tape.barcode.keeps_the_form();
    is_slot(tape.slot, slots)
}

fn is_slot(slot: Option<u16>, slots: u16) -> bool
    ensures { result ≡ is_slot_of slots slot }
{
    match slot {
        Some(s) => s > 0 && s <= slots,
        None => true,
    }
}

/// A row with a number of its own in its channel.
trait Numbered {
    ghost number_of: { Self → ℕ };

    fn number(&self) -> u32
        ensures { result ≡ number_of self.now };
}

impl Numbered for Tape {
    ghost number_of = { λ t. t.n };

    fn number(&self) -> u32 {
        u32::from(self.n)
    }
}

impl Numbered for Clip {
    ghost number_of = { λ c. c.n };

    fn number(&self) -> u32 {
        self.n
    }
}

impl Numbered for Offer {
    ghost number_of = { λ o. o.n };

    fn number(&self) -> u32 {
        u32::from(self.n)
    }
}

// Whether the numbers are 1, 2 and so on.
fn is_numbered<R: Numbered>(rows: &[R]) -> bool
    ensures { result ≡ is_numbered_from R.number_of 1 rows.now }
{
    let mut next = 1u64;
    for row in rows {
        if u64::from(row.number()) != next {
            return false;
        }
        next += 1;
    }
    true
}
