//! Lent clips.
ghost use Rattle.std.specs.Prelude.{◌≡◌, ℕ, ◌+◌, ◌<◌, ◌≤◌, ◌==◌, ◌&&◌, ◌↔◌, not, nat_lt, nat_le, true, false};
ghost use Rattle.std.specs.Prelude.{length, find, option_copied, IfOk, IfErr, IsTrue, if◌then◌else◌};
ghost use Rattle.std.specs.Prelude.{slice_index, slice_index_or, slice_set};
ghost use Rattle.std.specs.List.{list_all};
ghost use Rattle.std.specs.List.Sorted.{IsPartitionPoint};
ghost use Rattle.vault_core.specs.Rules.{are_apart};
ghost use Rattle.timecode.specs.Counting.{day_length};
ghost use Rattle.channel_plan.specs.Refusal.{refused};
ghost use Rattle.grant_core.specs.declared.grant.Grant.{Grant};
ghost use Rattle.grant_core.specs.Grant.{KeepsLentRules, is_lent_to as is_lent_to_of, is_before as is_before_of};
ghost use Rattle.grant_core.specs.Grant.{is_clip_lent_to as is_clip_lent_to_of, is_below as is_below_of};
ghost use Rattle.grant_core.specs.Grant.{AreInOrder, if_grant, lend_the_same};
ghost use Rattle.grant_core.specs.Grant.{differ_in_rate as differ_in_rate_of, differ_as_copies as differ_as_copies_of};
ghost use Rattle.grant_core.specs.Grant.{is_same_copy as is_same_copy_of};

use channel_plan::{Code, LAST_CHANNEL, Refusal};
use std::fmt;
use std::marker::Model;
use timecode::{Rate, day_frames};
use vault_core::{MAX_CLIPS, MAX_OFFERS, Offer};

// The numbers of clips are below this one.
const CLIP_NUMBERS: usize = MAX_CLIPS + 1;

/// An offer as its grantee sees it, a lent clip: with its owner.
#[derive(Clone, Copy, PartialEq, Eq)]
pub struct Grant {
    /// The channel that offers it.
    pub owner: u16,
    pub offer: Offer,
}

/// The reel of a lent clip in edit lists and tables, as it prints: `L`, its owner in 3 digits, the offer's number in 4.
#[derive(Clone, Copy, PartialEq, Eq)]
pub struct LentReel {
    /// 1 to 999.
    pub owner: u16,
    /// 1 to 9,999.
    pub number: u16,
}

impl fmt::Display for LentReel {
    ghost use Rattle.std.specs.Prelude.{Some};
    ghost use Rattle.grant_core.specs.Grant.{lent_reel};

    ghost output = { λ reel. Some (lent_reel reel.owner reel.number) };

    fn fmt<W: fmt::Write>(&self, f: &mut fmt::Formatter<W>) -> fmt::Result {
        let owner = self.owner;
        let number = self.number;
        write!(f, "L{owner:03}{number:04}")
    }
}

/// The clips that are lent to one channel, open and withdrawn, by owner and number.
#[derive(Drop)]
pub struct LentRows {
    grants: Vec<Grant>,
}

impl Model for LentRows {
    ghost use Rattle.std.specs.Prelude.{List};
    ghost use Rattle.grant_core.specs.declared.grant.Grant.{Grant};
    ghost use Rattle.grant_core.specs.Grant.{AreInOrder};

    ghost Value = { List Grant };

    ghost view = { λ l. l.grants.items };

    ghost invariant = { λ l. AreInOrder l.grants.items };
}

impl LentRows {
    /// These grants to a channel. Rows that offers to it can't be are refused with [`Code::NotOurs`]: not to it, or
    /// from no other; a clip's number out of range, no frame, frames behind the last of a day at their rate, or another
    /// instance number in the UMID than the channel; two open ones of one clip of an owner; two of one owner at
    /// different rates; two of one owner's clip with another title, UMID, first frame or length; and those out of
    /// order. It takes no memory, and time that grows as their number does.
    pub fn from_rows(channel: u16, grants: Vec<Grant>) -> Result<LentRows, Refusal>
        ensures rows { IfOk result (λ l. l ≡ grants.items) }
        ensures rules { IfOk result (KeepsLentRules channel) }
        ensures refusal { IfErr result (λ e. (e ≡ refused Code.NotOurs) × (KeepsLentRules channel grants.items → ⊥)) }
    {
        if keep_lent_rules(&grants, channel) {
            Ok(LentRows { grants })
        } else {
            Err(Refusal::of(Code::NotOurs))
        }
    }

    /// The grants, by owner and number.
    pub fn grants(&self) -> &[Grant]
        ensures { result.now ≡ self.now }
    {
        &self.grants
    }

    /// The lent clip of this owner and number, found by bisection, if it is there.
    pub fn grant_of(&self, owner: u16, number: u16) -> Option<&Grant>
        ensures { option_copied result ≡ find (λ g. g.owner == owner && g.offer.n == number) self.now }
    {
        grant_among(&self.grants, owner, number)
    }

    /// A law: the grants are in the order of their owners and, of one owner, of their numbers. So no two have both the
    /// same.
    pub fn keep_the_order(&self)
        ensures order { AreInOrder self.now }
        ensures each { (i j : ℕ) (d : Grant) → i < j → j < length self.now
            → is_before_of (slice_index_or self.now i d) (slice_index_or self.now j d) ≡ true }
    {
        let _grants = &self.grants;
    }
}

/// Whether grants are in the order of their owners and, of one owner, of their numbers, none with both of another.
pub fn are_in_order(grants: &[Grant]) -> bool
    ensures { IsTrue result ↔ AreInOrder grants.now }
{
    grants.is_sorted_by(|g, h| is_before(g, h))
}

fn is_before(grant: &Grant, next: &Grant) -> bool
    ensures { result ≡ is_before_of grant.now next.now }
{
    grant.owner < next.owner || (grant.owner == next.owner && grant.offer.n < next.offer.n)
}

/// The lent clip of this owner and number, found by bisection, if it is among grants that [`are_in_order`].
pub fn grant_among(grants: &[Grant], owner: u16, number: u16) -> Option<&Grant>
    requires { AreInOrder grants.now }
    ensures { option_copied result ≡ find (λ g. g.owner == owner && g.offer.n == number) grants.now }
{
    let (_, from) = grants.split_at(place_of(grants, owner, number));
    if_grant_of(from.first(), owner, number)
}

// Where the grant of this owner and number stands, or would.
fn place_of(grants: &[Grant], owner: u16, number: u16) -> usize
    requires { AreInOrder grants.now }
    ensures within { result ≤ length grants.now }
    ensures place { IsPartitionPoint (λ g. is_below_of owner number g ≡ true)
        (λ g. is_below_of owner number g ≡ false) grants.now result }
{
    grants.partition_point(|g| is_below(g, owner, number))
}

// Whether a grant stands in front of that of this owner and number.
fn is_below(grant: &Grant, owner: u16, number: u16) -> bool
    ensures { result ≡ is_below_of owner number grant.now }
{
    grant.owner < owner || (grant.owner == owner && grant.offer.n < number)
}

// The grant, if it is that of this owner and number.
fn if_grant_of(grant: Option<&Grant>, owner: u16, number: u16) -> Option<&Grant>
    ensures { option_copied result ≡ if_grant owner number (option_copied grant.entry) }
{
    match grant {
        Some(grant) if grant.owner == owner && grant.offer.n == number => Some(grant),
        _ => None,
    }
}

fn keep_lent_rules(grants: &[Grant], channel: u16) -> bool
    ensures { IsTrue result ↔ KeepsLentRules channel grants.now }
{
    if !are_lent_to(grants, channel) || !are_clips(grants, channel) || !are_in_order(grants) {
        return false;
    }
    are_lent_once::<{ CLIP_NUMBERS }>(grants)
        && have_one_rate(grants)
        && are_one_copy::<{ CLIP_NUMBERS }>(grants)
}

fn are_lent_to(grants: &[Grant], channel: u16) -> bool
    ensures { result ≡ list_all (is_lent_to_of channel) grants.now }
{
    grants.iter().all(|g| is_lent_to(g, channel))
}

fn is_lent_to(grant: &Grant, channel: u16) -> bool
    ensures { result ≡ is_lent_to_of channel grant.now }
{
    grant.offer.grantee == channel
        && (grant.owner > 0 && grant.owner <= LAST_CHANNEL)
        && grant.owner != channel
        && (grant.offer.n > 0 && usize::from(grant.offer.n) <= MAX_OFFERS)
}

fn are_clips(grants: &[Grant], channel: u16) -> bool
    ensures { result ≡ list_all (is_clip_lent_to_of channel) grants.now }
{
    grants.iter().all(|g| is_clip_lent_to(g, channel))
}

fn is_clip_lent_to(grant: &Grant, channel: u16) -> bool
    ensures { result ≡ is_clip_lent_to_of channel grant.now }
{
    let offer = &grant.offer;
    (offer.clip > 0 && offer.clip as usize <= MAX_CLIPS)
        && offer.umid.instance() == u32::from(channel)
        && is_range(offer.rate, offer.src_first, offer.frames)
}

// Whether there are frames, and none behind the last of a day at this rate.
fn is_range(rate: Rate, first: u32, frames: u32) -> bool
    ensures { result ≡ (nat_lt 0 frames && nat_le (first + frames) (day_length rate)) }
{
    frames > 0 && u64::from(first) + u64::from(frames) <= u64::from(day_frames(rate))
}

// Whether no two open grants, of clips below N, are of one clip of an owner.
fn are_lent_once<const N: usize>(grants: &[Grant]) -> bool
    requires room { N ≤ 65536 }
    requires order { AreInOrder grants.now }
    requires owners { list_all (λ g. nat_lt 0 g.owner) grants.now ≡ true }
    requires clips { list_all (λ g. nat_lt g.offer.clip N) grants.now ≡ true }
    ensures { result ≡ are_apart lend_the_same grants.now }
{
    // At each clip the owner of the last open grant of it. Owners rise, so that none comes again behind another.
    let mut owners = [0u16; N];
    for grant in grants {
        if is_noted(&owners, grant) {
            return false;
        }
        note(&mut owners, grant);
    }
    true
}

// Whether a grant is open, and its owner stands at its clip.
fn is_noted(owners: &[u16], grant: &Grant) -> bool
    requires { grant.now.offer.clip < length owners.now }
    ensures { result
        ≡ (not grant.now.offer.withdrawn && slice_index owners.now grant.now.offer.clip == grant.now.owner) }
{
    !grant.offer.withdrawn && owners[grant.offer.clip as usize] == grant.owner
}

// The owners, with that of an open grant at its clip.
fn note(owners: &mut [u16], grant: &Grant)
    requires { grant.now.offer.clip < length owners.old }
    ensures { owners.new ≡ (if grant.now.offer.withdrawn then owners.old
        else slice_set owners.old grant.now.offer.clip grant.now.owner) }
{
    if !grant.offer.withdrawn {
        owners[grant.offer.clip as usize] = grant.owner;
    }
}

// Whether no two grants of one owner have different rates: these are neighbours, as all are in order.
fn have_one_rate(grants: &[Grant]) -> bool
    requires { AreInOrder grants.now }
    ensures { result ≡ are_apart differ_in_rate_of grants.now }
{
    grants.is_sorted_by(|g, h| !differ_in_rate(g, h))
}

fn differ_in_rate(grant: &Grant, other: &Grant) -> bool
    ensures { result ≡ differ_in_rate_of grant.now other.now }
{
    grant.owner == other.owner && grant.offer.rate != other.offer.rate
}

// Whether no two grants, of clips below N, are of one clip of an owner and differ in what a copy has.
fn are_one_copy<const N: usize>(grants: &[Grant]) -> bool
    requires room { N ≤ 65536 }
    requires order { AreInOrder grants.now }
    requires clips { list_all (λ g. nat_lt g.offer.clip N) grants.now ≡ true }
    ensures { result ≡ are_apart differ_as_copies_of grants.now }
{
    // At each clip the place of the last grant of it, and 0 before the first. Owners rise, so that one of the same
    // owner, if there is one, is the last.
    let mut places = [0usize; N];
    for (at, grant) in grants.iter().enumerate() {
        let last = places[grant.offer.clip as usize];
        if differ_as_copies(&grants[last], grant) {
            return false;
        }
        places[grant.offer.clip as usize] = at;
    }
    true
}

fn differ_as_copies(grant: &Grant, other: &Grant) -> bool
    ensures { result ≡ differ_as_copies_of grant.now other.now }
{
    (grant.owner == other.owner && grant.offer.clip == other.offer.clip)
        && !is_same_copy(&grant.offer, &other.offer)
}

#[tactic(auto, unfolding(crate::specs::Grant::is_same_copy))]
fn is_same_copy(offer: &Offer, other: &Offer) -> bool
    ensures { result ≡ is_same_copy_of offer.now other.now }
{
    offer.title.as_bytes() == other.title.as_bytes()
        && offer.umid.to_bytes() == other.umid.to_bytes()
        && (offer.src_first == other.src_first && offer.frames == other.frames)
}
