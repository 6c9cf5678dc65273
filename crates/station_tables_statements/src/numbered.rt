//! What is asked of the numbered rows of one channel: its tapes, its clips or its offers.
ghost use Rattle.std.specs.Prelude.{◌≡◌, ℕ, ◌==◌, List, IfOk, map, slice_get, unwrap_or};
ghost use Rattle.std.specs.Option.{option_map};
ghost use Rattle.sqlite.specs.State.{HasCleanDisk};
ghost use Rattle.channel_view_model.specs.Centre.{Centre};
ghost use Rattle.channel_view_model.specs.Tables.{of_channel, rows_of};
ghost use Rattle.station_tables_records.specs.Inside.{inside, Reads};
ghost use Rattle.station_tables_records.specs.Asking.{Answers, IsReading};
ghost use Rattle.station_tables_statements.specs.declared.numbered.Question.{Question};
ghost use Rattle.station_tables_statements.specs.Asked.{params_of};
ghost use Rattle.station_tables_statements.specs.Calls.{WhileCleanCentre, set_in};
ghost use Rattle.station_tables_statements.specs.Numbered.{AreNumbered, found_by, page_of};

use crate::asked::{of_number, of_page};
use crate::asking::find_rows;
use sqlite::{Alter, Transaction};
use station_tables_records::{StoredRow, of_channel};
use std::alloc::Global;
use timecode::Unavailable;

/// How many numbers are on a page of a channel's rows: 1 to 64 are on page 0, 65 to 128 on page 1, and so on.
pub const PAGE: u32 = 64;

/// What is asked of the numbered rows of a channel.
#[derive(Clone, Copy)]
pub enum Question {
    /// All of them.
    All,
    /// Those on this page of [`PAGE`] numbers.
    Page(u32),
    /// The last one.
    Last,
    /// The one with this number.
    Number(u32),
}

/// A row of a table that has a text for each question.
pub(crate) trait AskedRow: StoredRow {
    /// The text of each question.
    ghost texts: { Question → List ℕ };

    /// The text that asks this.
    fn text(question: Question) -> &'static str
        ensures { result.now ≡ texts question };
}

/// What the text of a question finds in a table. The text only reads. It fails where memory or the store does, and
/// where a row doesn't read.
pub(crate) fn find_asked<T: AskedRow, S: Alter>(
    alloc: Global,
    tx: &mut Transaction<'_, S>,
    channel: u16,
    question: Question,
) -> Result<Vec<T>, Unavailable>
    requires reading { IsReading (T.texts question) }
    ensures reads { Reads S.Store tx.old tx.new result }
    ensures rows { HasCleanDisk (inside S.Store tx.new) → IfOk result
        (λ rows. Answers T.table (T.texts question) (params_of question channel) (inside S.Store tx.old)
        (inside S.Store tx.new) rows.items) }
{
    let text = T::text(question);
    match question {
        Question::All | Question::Last => find_rows(alloc, tx, text, &of_channel(channel)),
        Question::Page(page) => find_rows(alloc, tx, text, &of_page(channel, page)),
        Question::Number(number) => find_rows(alloc, tx, text, &of_number(channel, number)),
    }
}

/// A row of a channel, with a number in it: a tape, a clip or an offer.
pub trait NumberedRow: Copy + Drop {
    /// Its number.
    ghost number_of: { Self → ℕ };

    /// The rows of a centre that are such, each with its channel.
    ghost rows_in: { Centre → List (ℕ × Self) };

    /// Its number.
    fn number(&self) -> u32
        ensures { result ≡ number_of self.now };

    /// What answers a question of a channel's rows, each with its channel, in the order of the numbers. It fails where
    /// memory or the store does, and where a row doesn't read.
    fn find<S: Alter>(
        alloc: Global,
        tx: &mut Transaction<'_, S>,
        channel: u16,
        question: Question,
    ) -> Result<Vec<(u16, Self)>, Unavailable>
        ensures reads { Reads S.Store tx.old tx.new result }
        ensures rows { WhileCleanCentre S.Store tx.old tx.new (IfOk result
            (λ rows. rows.items ≡ found_by question number_of channel (rows_in (set_in (inside S.Store tx.old))))) };
}

/// The channel's rows, by number. It fails where memory or the store does, and where a row doesn't read.
pub fn load_rows<T: NumberedRow, S: Alter>(
    alloc: Global,
    tx: &mut Transaction<'_, S>,
    channel: u16,
) -> Result<Vec<T>, Unavailable>
    ensures reads { Reads S.Store tx.old tx.new result }
    ensures rows { WhileCleanCentre S.Store tx.old tx.new
        (IfOk result (λ rows. rows.items ≡ rows_of channel (T.rows_in (set_in (inside S.Store tx.old))))) }
{
    let rows = T::find(alloc, tx, channel, Question::All)?;
    without_channels(alloc, &rows)
}

/// The channel's rows on this page, by number: on page 0 those with the numbers 1 to [`PAGE`]. It fails where memory or
/// the store does, and where a row doesn't read.
pub fn load_page<T: NumberedRow, S: Alter>(
    alloc: Global,
    tx: &mut Transaction<'_, S>,
    channel: u16,
    page: u32,
) -> Result<Vec<T>, Unavailable>
    ensures reads { Reads S.Store tx.old tx.new result }
    ensures rows { WhileCleanCentre S.Store tx.old tx.new
        (AreNumbered T.number_of channel (T.rows_in (set_in (inside S.Store tx.old))) → IfOk result
        (λ rows. rows.items ≡ page_of page (rows_of channel (T.rows_in (set_in (inside S.Store tx.old)))))) }
{
    let rows = T::find(alloc, tx, channel, Question::Page(page))?;
    without_channels(alloc, &rows)
}

/// How many rows the channel has: their numbers have no hole, so it is the highest. It fails where memory or the
/// store does, and where a row doesn't read.
pub fn count_rows<T: NumberedRow, S: Alter>(
    alloc: Global,
    tx: &mut Transaction<'_, S>,
    channel: u16,
) -> Result<u32, Unavailable>
    ensures reads { Reads S.Store tx.old tx.new result }
    ensures count { WhileCleanCentre S.Store tx.old tx.new
        (AreNumbered T.number_of channel (T.rows_in (set_in (inside S.Store tx.old))) →
        IfOk result (λ n. n ≡ (of_channel channel (T.rows_in (set_in (inside S.Store tx.old)))).count)) }
{
    let rows = T::find(alloc, tx, channel, Question::Last)?;
    Ok(first_number(&rows))
}

/// The channel's row with this number. It fails where memory or the store does, and where a row doesn't read.
pub fn row_numbered<T: NumberedRow, S: Alter>(
    alloc: Global,
    tx: &mut Transaction<'_, S>,
    channel: u16,
    number: u32,
) -> Result<Option<T>, Unavailable>
    ensures reads { Reads S.Store tx.old tx.new result }
    ensures row { WhileCleanCentre S.Store tx.old tx.new
        (IfOk result (λ row. row ≡ (of_channel channel (T.rows_in (set_in (inside S.Store tx.old)))).first
        (λ t. T.number_of t == number))) }
{
    let rows = T::find(alloc, tx, channel, Question::Number(number))?;
    Ok(first_alone(&rows))
}

// The number of the first of them, or 0.
fn first_number<T: NumberedRow>(rows: &[(u16, T)]) -> u32
    ensures { result ≡ unwrap_or (option_map (λ r. T.number_of r.1) (slice_get rows.now 0)) 0 }
{
    match rows.first() {
        Some(first) => first.1.number(),
        None => 0,
    }
}

/// The first of them, without its channel.
pub(crate) fn first_alone<T: Copy>(rows: &[(u16, T)]) -> Option<T>
    ensures { result ≡ option_map (λ r. r.1) (slice_get rows.now 0) }
{
    match rows.first() {
        Some(first) => Some(first.1),
        None => None,
    }
}

// The rows without their channels.
fn without_channels<T: Copy>(alloc: Global, rows: &[(u16, T)]) -> Result<Vec<T>, Unavailable>
    ensures { IfOk result (λ own. own.items ≡ map (λ r. r.1) rows.now) }
{
    Ok(rows.iter().map(|r| r.1).collect(alloc)?)
}
