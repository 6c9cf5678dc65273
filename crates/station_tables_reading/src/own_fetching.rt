//! Just the rows and counts of one channel's tapes, clips and offers that a command needs, from the tables: each by a
//! text of its own.
ghost use Rattle.std.specs.Prelude.{◌≡◌, ◌==◌, IfOk, if◌then◌else◌};
ghost use Rattle.std.specs.Option.{option_and_then};
ghost use Rattle.vault_core.specs.Asked.{AreTapeAnswers, AreClipAnswers};
ghost use Rattle.grant_core.specs.Asked.{AreOfferAnswers};
ghost use Rattle.channel_view_model.specs.Tables.{of_channel};
ghost use Rattle.station_tables_records.specs.Inside.{inside, Looks};
ghost use Rattle.station_tables_statements.specs.Calls.{WhileCleanCentre, set_in};
ghost use Rattle.station_tables_statements.specs.Numbered.{AreNumbered};

use grant_core::{OffersAsked, OffersFound};
use sqlite::{Alter, Transaction};
use station_tables_statements::{
    NumberedRow, clip_with, count_rows, open_offer, row_numbered, tape_in, tape_with,
};
use std::alloc::Global;
use timecode::Unavailable;
use vault_core::{ClipsAsked, ClipsFound, TapesAsked, TapesFound};

// How many rows there are, where that is asked.
fn count_asked<T: NumberedRow, S: Alter>(
    alloc: Global,
    tx: &mut Transaction<'_, S>,
    channel: u16,
    asked: bool,
) -> Result<usize, Unavailable>
    ensures looks { Looks S.Store tx.old tx.new result }
    ensures count { WhileCleanCentre S.Store tx.old tx.new
        (AreNumbered T.number_of channel (T.rows_in (set_in (inside S.Store tx.old))) → IfOk result
        (λ n. n ≡ (if asked then (of_channel channel (T.rows_in (set_in (inside S.Store tx.old)))).count else 0))) }
{
    if asked {
        Ok(count_rows::<T, S>(alloc, tx, channel)? as usize)
    } else {
        Ok(0)
    }
}

// The row with a number, where one is asked for.
fn row_asked<T: NumberedRow, S: Alter>(
    alloc: Global,
    tx: &mut Transaction<'_, S>,
    channel: u16,
    asked: Option<u32>,
) -> Result<Option<T>, Unavailable>
    ensures looks { Looks S.Store tx.old tx.new result }
    ensures row { WhileCleanCentre S.Store tx.old tx.new (IfOk result (λ row. row ≡ option_and_then
        (λ n. (of_channel channel (T.rows_in (set_in (inside S.Store tx.old)))).first (λ t. T.number_of t == n))
        asked)) }
{
    match asked {
        Some(number) => row_numbered(alloc, tx, channel, number),
        None => Ok(None),
    }
}

// How many rows there are, where that is asked, and the one with a number, where one is asked for.
fn find_numbers<T: NumberedRow, S: Alter>(
    alloc: Global,
    tx: &mut Transaction<'_, S>,
    channel: u16,
    count: bool,
    number: Option<u32>,
) -> Result<(usize, Option<T>), Unavailable>
    ensures looks { Looks S.Store tx.old tx.new result }
    ensures count { WhileCleanCentre S.Store tx.old tx.new
        (AreNumbered T.number_of channel (T.rows_in (set_in (inside S.Store tx.old))) → IfOk result (λ found.
        found.0 ≡ (if count then (of_channel channel (T.rows_in (set_in (inside S.Store tx.old)))).count else 0))) }
    ensures row { WhileCleanCentre S.Store tx.old tx.new (IfOk result (λ found. found.1 ≡ option_and_then
        (λ n. (of_channel channel (T.rows_in (set_in (inside S.Store tx.old)))).first (λ t. T.number_of t == n))
        number)) }
{
    let counted = count_asked::<T, S>(alloc, tx, channel, count)?;
    let with_number = row_asked(alloc, tx, channel, number)?;
    Ok((counted, with_number))
}

/// The rows and counts of the channel's tapes that answer what is asked.
pub(crate) fn find_tapes<S: Alter>(
    alloc: Global,
    tx: &mut Transaction<'_, S>,
    channel: u16,
    asked: &TapesAsked,
) -> Result<TapesFound, Unavailable>
    ensures looks { Looks S.Store tx.old tx.new result }
    ensures found { WhileCleanCentre S.Store tx.old tx.new
        (AreNumbered (λ t. t.n) channel (set_in (inside S.Store tx.old)).tapes →
        IfOk result (AreTapeAnswers asked.now (of_channel channel (set_in (inside S.Store tx.old)).tapes))) }
{
    let (count, with_number) = find_numbers(alloc, tx, channel, asked.count, asked.number)?;
    let with_barcode = tape_with(alloc, tx, channel, &asked.barcode)?;
    let in_slot = tape_in(alloc, tx, channel, asked.slot)?;
    Ok(TapesFound {
        count,
        with_number,
        with_barcode,
        in_slot,
    })
}

/// The rows and counts of the channel's clips that answer what is asked.
pub(crate) fn find_clips<S: Alter>(
    alloc: Global,
    tx: &mut Transaction<'_, S>,
    channel: u16,
    asked: &ClipsAsked,
) -> Result<ClipsFound, Unavailable>
    ensures looks { Looks S.Store tx.old tx.new result }
    ensures found { WhileCleanCentre S.Store tx.old tx.new
        (AreNumbered (λ k. k.n) channel (set_in (inside S.Store tx.old)).clips →
        IfOk result (AreClipAnswers asked.now (of_channel channel (set_in (inside S.Store tx.old)).clips))) }
{
    let (count, with_number) = find_numbers(alloc, tx, channel, asked.count, asked.number)?;
    let with_umid = clip_with(alloc, tx, channel, asked.umid)?;
    Ok(ClipsFound {
        count,
        with_number,
        with_umid,
    })
}

/// The rows and counts of the channel's offers that answer what is asked.
pub(crate) fn find_offers<S: Alter>(
    alloc: Global,
    tx: &mut Transaction<'_, S>,
    channel: u16,
    asked: &OffersAsked,
) -> Result<OffersFound, Unavailable>
    ensures looks { Looks S.Store tx.old tx.new result }
    ensures found { WhileCleanCentre S.Store tx.old tx.new
        (AreNumbered (λ o. o.n) channel (set_in (inside S.Store tx.old)).offers →
        IfOk result (AreOfferAnswers asked.now (of_channel channel (set_in (inside S.Store tx.old)).offers))) }
{
    let (count, with_number) = find_numbers(alloc, tx, channel, asked.count, asked.number)?;
    let open_to = open_offer(alloc, tx, channel, asked.open_to)?;
    Ok(OffersFound {
        count,
        with_number,
        open_to,
    })
}
