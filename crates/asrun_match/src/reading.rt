//! The text of a batch.
ghost use Rattle.std.specs.Prelude.{◌≡◌, ◌<◌, ◌^◌, ◌⊎◌, All, Ok, Err, IfOk, IfErr, IfSome, length, true};
ghost use Rattle.std.specs.Option.{option_and_then, option_map};
ghost use Rattle.csv.specs.Records.{fields_of};
ghost use Rattle.timecode.specs.Counting.{day_length};
ghost use Rattle.channel_plan.specs.Refusal.{refused};
ghost use Rattle.playlist_core.specs.Source.{source_of_reel};
ghost use Rattle.asrun_match.specs.Aired.{FitsIn, has_fields, is_source_range};
ghost use Rattle.asrun_match.specs.Rows.{fields_shown, frame_said, frames_said, kept_of, place_said, position_from};
ghost use Rattle.asrun_match.specs.Rows.{row_fields, row_of_record, row_said, rows_said};

use crate::aired::{AiredRow, Reel, is_source_range};
use channel_plan::{At, Code, Refusal};
use csv::{ByteRecord, ReaderBuilder};
use playlist_core::Source;
use std::alloc::Global;
use timecode::{Rate, day_frames, decimal_number, from_timecode};

// The fields of a row.
#[derive(Clone, Copy)]
struct Fields<'a> {
    label: &'a [u8],
    frames: &'a [u8],
    reel: &'a [u8],
    source: &'a [u8],
}

/// The rows of a batch's text: CSV without a header, in which a row has four fields, namely the label at which it
/// began, its frames, its reel and the label at which its source began, as `06:00:40:00,500,C0000001,00:00:00:00`. The
/// day is one at this rate from a start label on, given as a frame of the day from 00:00:00:00.
///
/// The first row that can't be is refused with its number, counted from 1: `RowForm`, where it has other fields, a
/// label with a fault, frames of other than one to seven digits, of none or of more than the day has, a reel of other
/// than 1 to 8 letters A to Z and digits, or source frames that no day has; or else `PastDayEnd`. Or it fails with
/// [`Code::Unavailable`] for want of memory.
pub fn read_asrun(
    alloc: Global,
    csv: &[u8],
    rate: Rate,
    start: u32,
) -> Result<Vec<AiredRow>, Refusal>
    requires bytes { length csv.now < 2 ^ 32 }
    requires start { start < day_length rate }
    ensures rows { IfOk result (λ rows. rows_said rate start csv.now ≡ Ok rows.items) }
    ensures fit { IfOk result (λ rows. All (FitsIn (day_length rate)) rows.items) }
    ensures refused { IfErr result (λ e. (e ≡ refused Code.Unavailable) ⊎ (rows_said rate start csv.now ≡ Err e)) }
{
    let reader = ReaderBuilder::new()
        .has_headers(false)
        .flexible(true)
        .from_reader(alloc, csv);
    let mut rows = Vec::new(alloc);
    for row in reader.into_byte_records() {
        let Ok(fields) = row else {
            return Err(Refusal::of(Code::Unavailable));
        };
        let number = rows.len() as u32 + 1;
        let aired = row_of_record(&fields, rate, start, number)?;
        if rows.push(aired).is_err() {
            return Err(Refusal::of(Code::Unavailable));
        }
    }
    Ok(rows)
}

// The row of a record with this number, which lies within the day.
fn row_of_record(
    csv_record: &ByteRecord,
    rate: Rate,
    start: u32,
    number: u32,
) -> Result<AiredRow, Refusal>
    requires { start < day_length rate }
    ensures row { result ≡ row_of_record rate start number (fields_of csv_record.now) }
    ensures fits { IfOk result (FitsIn (day_length rate)) }
{
    let at = At::Count(number);
    let Some(row) = row_in(csv_record, rate, start) else {
        return Err(Refusal {
            code: Code::RowForm,
            at,
        });
    };
    if row.end() > u64::from(day_frames(rate)) {
        return Err(Refusal {
            code: Code::PastDayEnd,
            at,
        });
    }
    Ok(row)
}

fn row_in(csv_record: &ByteRecord, rate: Rate, start: u32) -> Option<AiredRow>
    requires { start < day_length rate }
    ensures said { result ≡ option_and_then (row_said rate start) (row_fields (fields_of csv_record.now)) }
    ensures some { IfSome result (λ row. 0 < row.frames) }
    ensures fields { IfSome result (λ row. has_fields (day_length rate) row ≡ true) }
{
    let fields = row_fields(csv_record)?;
    row_said(&fields, rate, start)
}

fn row_fields(csv_record: &ByteRecord) -> Option<Fields<'_>>
    ensures { option_map fields_shown result ≡ row_fields (fields_of csv_record.now) }
{
    if csv_record.len() != 4 {
        return None;
    }
    Some(Fields {
        label: csv_record.get(0)?,
        frames: csv_record.get(1)?,
        reel: csv_record.get(2)?,
        source: csv_record.get(3)?,
    })
}

fn row_said(fields: &Fields<'_>, rate: Rate, start: u32) -> Option<AiredRow>
    requires { start < day_length rate }
    ensures said { result ≡ row_said rate start (fields_shown fields.now) }
    ensures some { IfSome result (λ row. 0 < row.frames) }
    ensures fields { IfSome result (λ row. has_fields (day_length rate) row ≡ true) }
{
    let frame = frame_said(fields.label, rate)?;
    let frames = frames_said(fields.frames, rate)?;
    let reel = Reel::read(fields.reel)?;
    let place = frame_said(fields.source, rate)?;
    let source_first = place_said(&reel, frames, place, rate)?;
    Some(AiredRow {
        pos: position_from(rate, start, frame),
        frames,
        src: reel,
        src_first: source_first,
    })
}

// The frame of a label's text, if it has no fault.
fn frame_said(text: &[u8], rate: Rate) -> Option<u32>
    ensures value { result ≡ frame_said rate text.now }
    ensures within { IfSome result (λ frame. frame < day_length rate) }
{
    from_timecode(text, rate).ok()
}

// The frames that one to seven digits say, where the day has as many.
fn frames_said(text: &[u8], rate: Rate) -> Option<u32>
    ensures value { result ≡ frames_said rate text.now }
    ensures some { IfSome result (λ frames. 0 < frames) }
{
    let frames = decimal_number(text, 7)?;
    if 1 <= frames && frames <= u64::from(day_frames(rate)) {
        Some(frames as u32)
    } else {
        None
    }
}

// The first source frame that a row keeps, where so many frames from it on lie in a day.
fn place_said(reel: &Reel, frames: u32, first: u32, rate: Rate) -> Option<u32>
    ensures said { result ≡ place_said rate reel.now frames first }
    ensures place { IfSome result (λ at. is_source_range (day_length rate) (source_of_reel reel.now) at frames ≡ true) }
{
    let source = Source::read(reel.as_bytes());
    let first = kept_of(&source, first);
    if is_source_range(day_frames(rate), source, first, frames) {
        Some(first)
    } else {
        None
    }
}

fn kept_of(source: &Option<Source>, first: u32) -> u32
    ensures { result ≡ kept_of source.now first }
{
    match source {
        Some(Source::Black | Source::Bars) => 0,
        Some(Source::Own(_) | Source::Lent(_, _)) | None => first,
    }
}

// The frame of the broadcast day, which begins at the label of one frame, at the label of another.
fn position_from(rate: Rate, start: u32, frame: u32) -> u32
    requires { start < day_length rate }
    ensures value { result ≡ position_from rate start frame }
{
    let frames = u64::from(day_frames(rate));
    ((u64::from(frame) + frames - u64::from(start)) % frames) as u32
}
