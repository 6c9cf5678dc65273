//! The rows of tapes: what is asked of them and written, each by a text of its own, inside a transaction.
ghost use Rattle.std.specs.Prelude.{◌≡◌, ◌==◌, [], ◌∷◌, IfOk, bytes_eq};
ghost use Rattle.std.specs.Option.{option_and_then};
ghost use Rattle.sqlite_value.specs.Value.{owned};
ghost use Rattle.sqlite_value.specs.declared.value.Value.TheVariants.{Text as Words};
ghost use Rattle.sqlite_keyed.specs.Lists.{insert_sorted};
ghost use Rattle.sqlite.specs.Values.{bound, or_null};
ghost use Rattle.vault_core.specs.Tape.{stands_in};
ghost use Rattle.channel_view_model.specs.Tables.{alter_row, of_channel};
ghost use Rattle.station_tables_records.specs.Inside.{inside, Writes, Looks};
ghost use Rattle.station_tables_records.specs.Values.{of_nat};
ghost use Rattle.station_tables_records.specs.TapeRows.{tape_row, tape_cmp};
ghost use Rattle.station_tables_statements.specs.Rows.{on_tapes};
ghost use Rattle.station_tables_statements.specs.Calls.{WhileCleanCentre, Makes, set_in, LacksTapeNow};
ghost use Rattle.station_tables_statements.specs.Asked.{tape_text_of};

use crate::asked::of_number;
use crate::asking::{StoredTable, find_rows};
use crate::columns::{numbered_text, table_text};
use crate::numbered::{AskedRow, NumberedRow, Question, find_asked, first_alone};
use sqlite::types::ValueRef;
use sqlite::{Alter, Error, Transaction};
use station_tables_records::{ask, of_channel, short_number};
use std::alloc::Global;
use timecode::Unavailable;
use vault_core::{Barcode, Tape};

// The texts that name the columns of `tape`.
macro_rules! tape_text {
    ($text:ident $($rest:literal)?) => {
        table_text!($text "tape" "ch, n, barcode, slot" "?1, ?2, ?3, ?4" $($rest)?)
    };
}

// NULL where there is none.
fn slot_value(slot: Option<u16>) -> ValueRef<'static>
    ensures { owned result ≡ or_null of_nat slot }
{
    match slot {
        Some(slot) => short_number(slot),
        None => ValueRef::Null,
    }
}

// What a text asks of a barcode of one channel.
fn of_barcode(channel: u16, barcode: &Barcode) -> [ValueRef<'_>; 2]
    ensures { bound result ≡ of_nat channel ∷ Words barcode.now ∷ [] }
{
    [short_number(channel), ValueRef::Text(barcode.as_bytes())]
}

#[tactic(auto, using(crate::proofs::SlotLemmas::bound_slot))]
fn tape_values(channel: u16, tape: &Tape) -> [ValueRef<'_>; 4]
    ensures { bound result ≡ tape_row (channel, tape.now) }
{
    [
        short_number(channel),
        short_number(tape.n),
        ValueRef::Text(tape.barcode.as_bytes()),
        slot_value(tape.slot),
    ]
}

/// By channel and number: of each the rowid, the channel, the number, the barcode, and the slot or NULL.
impl StoredTable for (u16, Tape) {
    fn ask_all<S: Alter>(
        alloc: Global,
        tx: &mut Transaction<'_, S>,
    ) -> Result<Option<Vec<(u16, Tape)>>, Error> {
        ask(alloc, tx, tape_text!(SELECT "ORDER BY ch, n"), &[])
    }
}

impl AskedRow for (u16, Tape) {
    ghost texts = { tape_text_of };

    fn text(question: Question) -> &'static str {
        numbered_text!(tape_text question)
    }
}

impl NumberedRow for Tape {
    ghost number_of = { λ t. t.n };

    ghost rows_in = { λ rows. rows.tapes };

    fn number(&self) -> u32 {
        u32::from(self.n)
    }

    fn find<S: Alter>(
        alloc: Global,
        tx: &mut Transaction<'_, S>,
        channel: u16,
        question: Question,
    ) -> Result<Vec<(u16, Tape)>, Unavailable> {
        find_asked(alloc, tx, channel, question)
    }
}

/// The channel's tape with a barcode, where one is asked for. It fails where memory or the store does, and
/// where a row doesn't read.
pub fn tape_with<S: Alter>(
    alloc: Global,
    tx: &mut Transaction<'_, S>,
    channel: u16,
    asked: &Option<Barcode>,
) -> Result<Option<Tape>, Unavailable>
    ensures looks { Looks S.Store tx.old tx.new result }
    ensures tape { WhileCleanCentre S.Store tx.old tx.new (IfOk result (λ tape. tape ≡ option_and_then
        (λ barcode. (of_channel channel (set_in (inside S.Store tx.old)).tapes).first
        (λ t. bytes_eq t.barcode barcode)) asked.now)) }
{
    let Some(barcode) = asked else {
        return Ok(None);
    };
    let tapes = find_rows(
        alloc,
        tx,
        tape_text!(SELECT "WHERE ch = ?1 AND barcode = ?2 ORDER BY ch, n"),
        &of_barcode(channel, barcode),
    )?;
    Ok(first_alone(&tapes))
}

/// The channel's tape in a slot, where one is asked for. It fails as [`tape_with`] does.
pub fn tape_in<S: Alter>(
    alloc: Global,
    tx: &mut Transaction<'_, S>,
    channel: u16,
    asked: Option<u32>,
) -> Result<Option<Tape>, Unavailable>
    ensures looks { Looks S.Store tx.old tx.new result }
    ensures tape { WhileCleanCentre S.Store tx.old tx.new (IfOk result (λ tape. tape ≡ option_and_then
        (λ slot. (of_channel channel (set_in (inside S.Store tx.old)).tapes).first
        (λ t. stands_in slot t.slot)) asked)) }
{
    let Some(slot) = asked else {
        return Ok(None);
    };
    let tapes = find_rows(
        alloc,
        tx,
        tape_text!(SELECT "WHERE ch = ?1 AND slot = ?2 ORDER BY ch, n"),
        &of_number(channel, slot),
    )?;
    Ok(first_alone(&tapes))
}

/// Adds a tape of this channel, 1 to 999, whose number is new in it. It answers as `execute` does, a count of which
/// no clause speaks or the error of the statement, and commits nothing.
pub fn insert_tape<S: Alter>(
    tx: &mut Transaction<'_, S>,
    channel: u16,
    tape: &Tape,
) -> Result<usize, Error>
    ensures writes { Writes S.Store tx.old tx.new result }
    ensures makes { LacksTapeNow channel tape.now (inside S.Store tx.old) →
        Makes (on_tapes (insert_sorted tape_cmp (channel, tape.now))) S.Store tx.old tx.new result }
{
    tx.execute(tape_text!(INSERT), &tape_values(channel, tape))
}

/// Puts this tape in the place of the channel's with its number. It answers as [`insert_tape`] does, and commits
/// nothing.
pub fn change_tape<S: Alter>(
    tx: &mut Transaction<'_, S>,
    channel: u16,
    tape: &Tape,
) -> Result<usize, Error>
    ensures writes { Writes S.Store tx.old tx.new result }
    ensures makes { Makes (on_tapes (alter_row channel (λ u. u.n == tape.now.n) (λ u. record tape.now { n = u.n })))
        S.Store tx.old tx.new result }
{
    tx.execute(
        "UPDATE tape SET barcode = ?3, slot = ?4 WHERE ch = ?1 AND n = ?2",
        &tape_values(channel, tape),
    )
}
