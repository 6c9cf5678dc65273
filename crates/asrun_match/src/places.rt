//! Sweeps over aired rows in the order of their positions.
ghost use Rattle.std.specs.Prelude.{◌≡◌, ℕ, ◌+◌, ◌<◌, ◌≤◌, ◌↔◌, None, IsTrue, length, nat_lt};
ghost use Rattle.std.specs.List.{position_or_len};
ghost use Rattle.playlist_core.specs.Picture.{first_painted, picture_of};
ghost use Rattle.playlist_core.specs.Order.{AreApart};
ghost use Rattle.asrun_match.specs.Aired.{aired, first_twice};

use crate::aired::AiredRow;

/// Whether rows lie one behind the other within the day.
pub(crate) fn lie_apart(rows: &[AiredRow], frames: u32) -> bool
    ensures { IsTrue result ↔ AreApart aired 0 frames rows.now }
{
    let mut covered: u64 = 0;
    for row in rows {
        if row.frames == 0 || u64::from(row.pos) < covered {
            return false;
        }
        covered = row.end();
    }
    covered <= u64::from(frames)
}

/// Whether no row covers a frame that one of the others covers. Each list lies one row behind the other.
pub(crate) fn lie_beside(rows: &[AiredRow], others: &[AiredRow]) -> bool
    requires rows { (day : ℕ) × AreApart aired 0 day rows.now }
    requires others { (day : ℕ) × AreApart aired 0 day others.now }
    ensures { (day : ℕ) → AreApart aired 0 day rows.now → AreApart aired 0 day others.now
        → (IsTrue result ↔ (first_twice (picture_of aired day rows.now) others.now ≡ None)) }
{
    for other in others {
        if first_taken(rows, other.pos, other.frames).is_some() {
            return false;
        }
    }
    true
}

/// The first frame of a range that a row covers.
pub(crate) fn first_taken(rows: &[AiredRow], position: u32, frames: u32) -> Option<u32>
    requires some { 0 < frames }
    requires apart { (day : ℕ) × AreApart aired 0 day rows.now }
    ensures { (day : ℕ) → AreApart aired 0 day rows.now → position + frames ≤ day →
        result ≡ first_painted position frames (picture_of aired day rows.now) }
{
    let row = rows.get(place_for(rows, position))?;
    if u64::from(row.pos) < u64::from(position) + u64::from(frames) {
        Some(position.max(row.pos))
    } else {
        None
    }
}

/// Where a row that begins at a position belongs: in front of the first that ends behind it.
pub(crate) fn place_for(rows: &[AiredRow], position: u32) -> usize
    requires { (day : ℕ) × AreApart aired 0 day rows.now }
    ensures value { result ≡ position_or_len (λ r. nat_lt position (r.pos + r.frames)) rows.now }
    ensures within { result ≤ length rows.now }
{
    rows.partition_point(|r| r.end() <= u64::from(position))
}
