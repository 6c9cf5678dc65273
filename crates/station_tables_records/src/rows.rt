//! Rows as tapes, clips, offers, windows, channels and the version: what reads a database that may be anybody's.
ghost use Rattle.std.specs.Prelude.{◌≡◌, ℤ, IfSome, IfNone};
ghost use Rattle.station_tables_records.specs.TapeRows.{tape_fits, tape_table};
ghost use Rattle.station_tables_records.specs.ClipRows.{clip_fits, clip_table};
ghost use Rattle.station_tables_records.specs.OfferRows.{offer_fits, offer_table};
ghost use Rattle.station_tables_records.specs.SpanRows.{span_fits, span_table};
ghost use Rattle.station_tables_records.specs.ChannelRows.{channel_fits, channel_table};
ghost use Rattle.station_tables_records.specs.OfficeRow.{version_of, IsOfficeRow, HasVersion};
ghost use Rattle.station_tables_records.specs.AreTables.{tape_table_is, clip_table_is, offer_table_is};
ghost use Rattle.station_tables_records.specs.AreTables.{span_table_is, channel_table_is};

use crate::cells::{
    barcode_at, bool_at, int_at, maybe_u16_at, rate_at, title_at, u16_at, u32_at, umid_at,
};
use crate::offer_rows::SpanRow;
use crate::stored::StoredRow;
use channel_plan::PlanRow;
use sqlite::Row;
use vault_core::{Clip, Offer, Tape, Window};

/// The channel and the tape of a row that shows rowid, ch, n, barcode and slot, or `None` where the row isn't one of a
/// tape: a number that isn't one or has more than 16 bits, a barcode that isn't one.
impl StoredRow for (u16, Tape) {
    ghost table = { tape_table };

    ghost fits = { tape_fits };

    fn read(row: &Row) -> Option<(u16, Tape)> {
        int_at(row, 0)?;
        let channel = u16_at(row, 1)?;
        let tape = Tape {
            n: u16_at(row, 2)?,
            barcode: barcode_at(row, 3)?,
            slot: maybe_u16_at(row, 4)?,
        };
        Some((channel, tape))
    }

    fn is_before(&self, tape: &(u16, Tape)) -> bool {
        (self.0, self.1.n) < (tape.0, tape.1.n)
    }

    ghost is_table = { tape_table_is };
}

/// The channel and the clip of a row that shows the columns of `clip`, the rowid first, or `None` where the row isn't
/// one of a clip: a number that isn't one or has too many bits, a title or a UMID that isn't one, another number than 1
/// or 0 for whether it is retired.
impl StoredRow for (u16, Clip) {
    ghost table = { clip_table };

    ghost fits = { clip_fits };

    #[tactic(auto, using(crate::proofs::ClipRowLemmas::umid_again, crate::proofs::ValueLemmas::bool_again))]
    fn read(row: &Row) -> Option<(u16, Clip)> {
        int_at(row, 0)?;
        let channel = u16_at(row, 1)?;
        let clip = Clip {
            n: u32_at(row, 2)?,
            tape: u16_at(row, 3)?,
            title: title_at(row, 4)?,
            umid: umid_at(row, 5)?,
            src_first: u32_at(row, 6)?,
            frames: u32_at(row, 7)?,
            retired: bool_at(row, 8)?,
        };
        Some((channel, clip))
    }

    fn is_before(&self, clip: &(u16, Clip)) -> bool {
        (self.0, self.1.n) < (clip.0, clip.1.n)
    }

    ghost is_table = { clip_table_is };
}

/// The channel and the offer of a row that shows the columns of `offer`, the rowid first, or `None` where the row isn't
/// one of an offer: a number that isn't one or has too many bits, a title, a UMID or a rate that isn't one, another
/// number than 1 or 0 for whether it is withdrawn.
impl StoredRow for (u16, Offer) {
    ghost table = { offer_table };

    ghost fits = { offer_fits };

    #[tactic(auto, using(crate::proofs::ClipRowLemmas::umid_again, crate::proofs::ValueLemmas::bool_again))]
    fn read(row: &Row) -> Option<(u16, Offer)> {
        int_at(row, 0)?;
        let channel = u16_at(row, 1)?;
        let offer = Offer {
            n: u16_at(row, 2)?,
            grantee: u16_at(row, 3)?,
            clip: u32_at(row, 4)?,
            title: title_at(row, 5)?,
            umid: umid_at(row, 6)?,
            rate: rate_at(row, 7)?,
            src_first: u32_at(row, 8)?,
            frames: u32_at(row, 9)?,
            window: None,
            withdrawn: bool_at(row, 10)?,
        };
        Some((channel, offer))
    }

    fn is_before(&self, offer: &(u16, Offer)) -> bool {
        (self.0, self.1.n) < (offer.0, offer.1.n)
    }

    ghost is_table = { offer_table_is };
}

/// The channel and the window of a row that shows rowid, ch, n, first_day and last_day, or `None` where the row isn't
/// one of a window: a number that isn't one or has too many bits, days that make none.
impl StoredRow for (u16, SpanRow) {
    ghost table = { span_table };

    ghost fits = { span_fits };

    fn read(row: &Row) -> Option<(u16, SpanRow)> {
        int_at(row, 0)?;
        let channel = u16_at(row, 1)?;
        let offer = u16_at(row, 2)?;
        let first = u32_at(row, 3)?;
        let last = u32_at(row, 4)?;
        let window = Window::new(first, last)?;
        Some((channel, SpanRow { offer, window }))
    }

    fn is_before(&self, next: &(u16, SpanRow)) -> bool {
        (self.0, self.1.offer) < (next.0, next.1.offer)
    }

    ghost is_table = { span_table_is };
}

/// The channel of a row that shows rowid, ch, rate, start and slots, or `None` where the row isn't one of a channel: a
/// number that isn't one or has too many bits, a rate that isn't one. Whether its fields are in their ranges isn't
/// tested.
impl StoredRow for PlanRow {
    ghost table = { channel_table };

    ghost fits = { channel_fits };

    fn read(row: &Row) -> Option<PlanRow> {
        Some(PlanRow {
            ch: u16_at(row, 0)?,
            rate: rate_at(row, 2)?,
            start: u32_at(row, 3)?,
            slots: u16_at(row, 4)?,
        })
    }

    fn is_before(&self, next: &PlanRow) -> bool {
        self.ch < next.ch
    }

    ghost is_table = { channel_table_is };
}

// The version of a row that shows rowid, one and version, or `None` where the row isn't that of `office`.
pub(crate) fn version_at(row: &Row) -> Option<i64>
    ensures reads { IfSome result (λ version. IsOfficeRow row.now × (version_of row.now ≡ version)) }
    ensures none { IfNone result (IsOfficeRow row.now → ⊥) }
{
    if int_at(row, 0)? != 1 {
        return None;
    }
    int_at(row, 2)
}

/// The version of the one row of `office`, or `None` where there isn't one row or it reads as none.
pub fn read_version(rows: &[Row]) -> Option<i64>
    ensures some { IfSome result (λ version. HasVersion version rows.now) }
    ensures none { IfNone result ((version : ℤ) → HasVersion version rows.now → ⊥) }
{
    match rows {
        [row] => version_at(row),
        _ => None,
    }
}
