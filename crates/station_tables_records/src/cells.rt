//! Single columns of a row.
ghost use Rattle.std.specs.Prelude.{◌≡◌, ◌≢◌, ◌<◌, ◌^◌, ℕ, ℤ, Bool, List, Option};
ghost use Rattle.std.specs.Prelude.{IfSome, IfNone, IsTrue};
ghost use Rattle.sqlite_value.specs.Value.{owned};
ghost use Rattle.sqlite_value.specs.Order.{column};
ghost use Rattle.sqlite_value.specs.declared.value.Value.TheVariants.{Int, Text as Words, Blob as Bytes};
ghost use Rattle.sqlite.specs.Values.{or_null};
ghost use Rattle.timecode.specs.Rate.{rate_text};
ghost use Rattle.vault_core.specs.Tape.{is_barcode};
ghost use Rattle.umid.specs.BasicUmid.{UmidParts, basic_umid, is_umid};
ghost use Rattle.vault_core.specs.Clip.{is_title};
ghost use Rattle.station_tables_records.specs.Values.{of_nat, of_bool};
ghost use Rattle.station_tables_records.specs.TapeRows.{slot_fits};

use sqlite::Row;
use sqlite_value::value::ValueRef;
use timecode::Rate;
use umid::Umid;
use vault_core::{Barcode, Title};

// A column that isn't there is NULL.
fn value_at(row: &Row, at: usize) -> ValueRef<'_>
    ensures { owned result ≡ column row.now at }
{
    match row.get_ref(at) {
        Ok(value) => value,
        Err(_) => ValueRef::Null,
    }
}

/// The number in a column.
pub(crate) fn int_at(row: &Row, at: usize) -> Option<i64>
    ensures some { IfSome result (λ n. column row.now at ≡ Int n) }
    ensures none { IfNone result ((n : ℤ) → column row.now at ≢ Int n) }
{
    match value_at(row, at) {
        ValueRef::Int(n) => Some(n),
        _ => None,
    }
}

/// The number in a column, where it has 16 bits.
pub(crate) fn u16_at(row: &Row, at: usize) -> Option<u16>
    ensures some { IfSome result (λ n. column row.now at ≡ of_nat n) }
    ensures none { IfNone result ((n : ℕ) → n < 65536 → column row.now at ≢ of_nat n) }
{
    u16::try_from(int_at(row, at)?).ok()
}

/// The number in a column, where it has 32 bits.
pub(crate) fn u32_at(row: &Row, at: usize) -> Option<u32>
    ensures some { IfSome result (λ n. column row.now at ≡ of_nat n) }
    ensures none { IfNone result ((n : ℕ) → n < 2 ^ 32 → column row.now at ≢ of_nat n) }
{
    u32::try_from(int_at(row, at)?).ok()
}

/// The text in a column.
pub(crate) fn text_at(row: &Row, at: usize) -> Option<&[u8]>
    ensures some { IfSome result (λ text. column row.now at ≡ Words text.now) }
    ensures none { IfNone result ((text : List ℕ) → column row.now at ≢ Words text) }
{
    match value_at(row, at) {
        ValueRef::Text(text) => Some(text),
        _ => None,
    }
}

/// The number in a column that may be NULL, where it has 16 bits.
pub(crate) fn maybe_u16_at(row: &Row, at: usize) -> Option<Option<u16>>
    ensures some { IfSome result (λ n. column row.now at ≡ or_null of_nat n) }
    ensures none { IfNone result ((n : Option ℕ) → IsTrue (slot_fits n) → column row.now at ≢ or_null of_nat n) }
{
    match value_at(row, at) {
        ValueRef::Null => Some(None),
        _ => Some(Some(u16_at(row, at)?)),
    }
}

/// The barcode in a column.
pub(crate) fn barcode_at(row: &Row, at: usize) -> Option<Barcode>
    ensures some { IfSome result (λ barcode. column row.now at ≡ Words barcode) }
    ensures none { IfNone result ((text : List ℕ) → IsTrue (is_barcode text) → column row.now at ≢ Words text) }
{
    Barcode::read(text_at(row, at)?)
}

/// The rate in a column.
pub(crate) fn rate_at(row: &Row, at: usize) -> Option<Rate>
    ensures some { IfSome result (λ rate. column row.now at ≡ Words (rate_text rate)) }
    ensures none { IfNone result ((rate : Rate) → column row.now at ≢ Words (rate_text rate)) }
{
    Rate::from_text(text_at(row, at)?)
}

/// The title in a column.
pub(crate) fn title_at(row: &Row, at: usize) -> Option<Title>
    ensures some { IfSome result (λ title. column row.now at ≡ Words title) }
    ensures none { IfNone result ((text : List ℕ) → IsTrue (is_title text) → column row.now at ≢ Words text) }
{
    Title::read(text_at(row, at)?)
}

/// The bytes in a column.
pub(crate) fn bytes_at(row: &Row, at: usize) -> Option<&[u8]>
    ensures some { IfSome result (λ bytes. column row.now at ≡ Bytes bytes.now) }
    ensures none { IfNone result ((bytes : List ℕ) → column row.now at ≢ Bytes bytes) }
{
    match value_at(row, at) {
        ValueRef::Blob(bytes) => Some(bytes),
        _ => None,
    }
}

/// The UMID whose 32 bytes are in a column.
#[tactic(auto, using(crate::proofs::ClipRowLemmas::umid_is))]
pub(crate) fn umid_at(row: &Row, at: usize) -> Option<Umid>
    ensures some { IfSome result (λ umid. column row.now at ≡ Bytes (basic_umid umid)) }
    ensures none { IfNone result
        ((umid : UmidParts) → IsTrue (is_umid umid) → column row.now at ≢ Bytes (basic_umid umid)) }
{
    Umid::from_bytes(bytes_at(row, at)?).ok()
}

/// What the number in a column says, where it is 1 or 0.
pub(crate) fn bool_at(row: &Row, at: usize) -> Option<bool>
    ensures some { IfSome result (λ yes. column row.now at ≡ of_bool yes) }
    ensures none { IfNone result ((yes : Bool) → column row.now at ≢ of_bool yes) }
{
    match int_at(row, at)? {
        0 => Some(false),
        1 => Some(true),
        _ => None,
    }
}
