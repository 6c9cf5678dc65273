//! Keys that no two rows of a channel may share: barcodes, slots, UMIDs and open grants. They are put in order, where
//! equal ones are neighbours. Where memory for that is refused, all pairs of rows are compared.
ghost use Rattle.std.specs.Prelude.{◌≡◌, ◌↔◌, Bool, nat_eq, bytes_eq, map, IfOk, IsTrue};
ghost use Rattle.std.specs.List.{list_any, IsDistinct};
ghost use Rattle.std.specs.Ordering.{eq_by_cmp};
ghost use Rattle.vault_core.specs.Rules.{are_apart as are_apart_by, barcodes_of as barcodes_in, slots_of as slots_in};
ghost use Rattle.vault_core.specs.Rules.{umids_of as umids_in, open_grants as open_grants_in, is_same_grant};
ghost use Rattle.vault_core.specs.Clip.{umid_bytes};
ghost use Rattle.vault_core.specs.Keys.{are_both, open_grant as open_grant_of};

use crate::clip::Clip;
use crate::offer::Offer;
use crate::tape::Tape;
use std::alloc::Global;
use timecode::Unavailable;

/// Whether no two tapes have one barcode.
pub(crate) fn have_own_barcodes(alloc: Global, tapes: &[Tape]) -> bool
    ensures { result ≡ are_apart_by bytes_eq (barcodes_in tapes.now) }
{
    match barcodes_of(alloc, tapes) {
        Ok(mut barcodes) => are_apart(&mut barcodes),
        Err(_) => are_pairs_apart::<Tape, OfBarcode>(tapes),
    }
}

/// Whether no two tapes stand in one slot.
pub(crate) fn have_own_slots(alloc: Global, tapes: &[Tape]) -> bool
    ensures { result ≡ are_apart_by nat_eq (slots_in tapes.now) }
{
    match slots_of(alloc, tapes) {
        Ok(mut slots) => are_apart(&mut slots),
        Err(_) => are_pairs_apart::<Tape, OfSlot>(tapes),
    }
}

/// Whether no two clips have one UMID.
pub(crate) fn have_own_umids(alloc: Global, clips: &[Clip]) -> bool
    ensures { result ≡ are_apart_by bytes_eq (umids_in clips.now) }
{
    match umids_of(alloc, clips) {
        Ok(mut umids) => are_apart(&mut umids),
        Err(_) => are_pairs_apart::<Clip, OfUmid>(clips),
    }
}

/// Whether no two open offers are of one clip to one grantee.
pub(crate) fn have_own_grants(alloc: Global, offers: &[Offer]) -> bool
    ensures { result ≡ are_apart_by is_same_grant (open_grants_in offers.now) }
{
    match open_grants(alloc, offers) {
        Ok(mut grants) => are_apart(&mut grants),
        Err(_) => are_pairs_apart::<Offer, OfGrant>(offers),
    }
}

fn barcodes_of<'a>(alloc: Global, tapes: &'a [Tape]) -> Result<Vec<&'a [u8]>, Unavailable>
    ensures { IfOk result (λ v. map (λ b. b.now) v.items ≡ barcodes_in tapes.now) }
{
    Ok(tapes.iter().map(|t| t.barcode.as_bytes()).collect(alloc)?)
}

fn slots_of(alloc: Global, tapes: &[Tape]) -> Result<Vec<u16>, Unavailable>
    ensures { IfOk result (λ v. v.items ≡ slots_in tapes.now) }
{
    Ok(tapes.iter().filter_map(|t| t.slot).collect(alloc)?)
}

fn umids_of(alloc: Global, clips: &[Clip]) -> Result<Vec<[u8; 32]>, Unavailable>
    ensures { IfOk result (λ v. v.items ≡ umids_in clips.now) }
{
    let mut umids = Vec::new(alloc);
    for clip in clips {
        umids.push(clip.umid_bytes())?;
    }
    Ok(umids)
}

// The clip and the grantee of each offer that is open.
fn open_grants(alloc: Global, offers: &[Offer]) -> Result<Vec<(u32, u16)>, Unavailable>
    ensures { IfOk result (λ v. v.items ≡ open_grants_in offers.now) }
{
    Ok(offers.iter().filter_map(open_grant).collect(alloc)?)
}

fn open_grant(offer: &Offer) -> Option<(u32, u16)>
    ensures { result ≡ open_grant_of offer.now }
{
    if offer.withdrawn {
        None
    } else {
        Some((offer.clip, offer.grantee))
    }
}

// Whether no two keys are equal. It puts them in order, where equal ones are neighbours.
fn are_apart<K: Ord>(keys: &mut [K]) -> bool
    ensures { IsTrue result ↔ IsDistinct (eq_by_cmp K.cmp) keys.old }
{
    keys.sort_unstable();
    keys.is_sorted_by(|a, b| a.cmp(b).is_lt())
}

/// A key that rows may have.
trait Key<R> {
    ghost same: { R → R → Bool };

    /// Whether both rows have one, and it is the same.
    fn same(row: &R, other: &R) -> bool
        ensures { result ≡ same row.now other.now };
}

/// The barcode of a tape.
struct OfBarcode;

impl Key<Tape> for OfBarcode {
    ghost same = { λ t u. bytes_eq t.barcode u.barcode };

    fn same(tape: &Tape, other: &Tape) -> bool {
        tape.barcode.as_bytes() == other.barcode.as_bytes()
    }
}

/// The slot in which a tape stands.
struct OfSlot;

impl Key<Tape> for OfSlot {
    ghost same = { λ t u. are_both nat_eq t.slot u.slot };

    fn same(tape: &Tape, other: &Tape) -> bool {
        match (tape.slot, other.slot) {
            (Some(slot), Some(of_other)) => slot == of_other,
            _ => false,
        }
    }
}

/// The UMID of a clip.
struct OfUmid;

impl Key<Clip> for OfUmid {
    ghost same = { λ c d. bytes_eq (umid_bytes c) (umid_bytes d) };

    fn same(clip: &Clip, other: &Clip) -> bool {
        clip.umid_bytes() == other.umid_bytes()
    }
}

/// The clip and the grantee of an open offer.
struct OfGrant;

impl Key<Offer> for OfGrant {
    ghost same = { λ o p. are_both is_same_grant (open_grant_of o) (open_grant_of p) };

    fn same(offer: &Offer, other: &Offer) -> bool {
        match (open_grant(offer), open_grant(other)) {
            (Some(grant), Some(of_other)) => grant == of_other,
            _ => false,
        }
    }
}

// Whether no two rows have the same key, found out with no memory.
fn are_pairs_apart<R, K: Key<R>>(rows: &[R]) -> bool
    ensures { result ≡ are_apart_by K.same rows.now }
{
    for (at, row) in rows.iter().enumerate() {
        if is_among::<R, K>(row, &rows[at + 1..]) {
            return false;
        }
    }
    true
}

fn is_among<R, K: Key<R>>(row: &R, others: &[R]) -> bool
    ensures { result ≡ list_any (K.same row.now) others.now }
{
    others.iter().any(|other| K::same(row, other))
}
