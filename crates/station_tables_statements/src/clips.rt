//! The rows of clips: what is asked of them and written, each by a text of its own, inside a transaction.
ghost use Rattle.std.specs.Prelude.{◌≡◌, ◌==◌, [], ◌∷◌, IfOk, true};
ghost use Rattle.std.specs.Option.{option_and_then};
ghost use Rattle.sqlite_value.specs.declared.value.Value.TheVariants.{Blob as Bytes};
ghost use Rattle.sqlite_keyed.specs.Lists.{insert_sorted};
ghost use Rattle.sqlite.specs.Values.{bound};
ghost use Rattle.umid.specs.BasicUmid.{basic_umid};
ghost use Rattle.vault_core.specs.Clip.{has_umid};
ghost use Rattle.channel_view_model.specs.Tables.{alter_row, of_channel};
ghost use Rattle.station_tables_records.specs.Inside.{inside, Writes, Looks};
ghost use Rattle.station_tables_records.specs.Values.{of_nat};
ghost use Rattle.station_tables_records.specs.ClipRows.{clip_row, clip_cmp};
ghost use Rattle.station_tables_statements.specs.Rows.{on_clips};
ghost use Rattle.station_tables_statements.specs.Calls.{WhileCleanCentre, Makes, set_in, LacksClipNow};
ghost use Rattle.station_tables_statements.specs.Asked.{clip_text_of};

use crate::asked::of_number;
use crate::asking::{StoredTable, find_rows};
use crate::columns::{numbered_text, table_text};
use crate::numbered::{AskedRow, NumberedRow, Question, find_asked, first_alone};
use sqlite::types::ValueRef;
use sqlite::{Alter, Error, Transaction};
use station_tables_records::{ask, long_number, of_channel, short_number, truth};
use std::alloc::Global;
use timecode::Unavailable;
use umid::Umid;
use vault_core::Clip;

// The texts that name the columns of `clip`.
macro_rules! clip_text {
    ($text:ident $($rest:literal)?) => {
        table_text!(
            $text "clip"
            "ch, n, tape, title, umid, src_first, frames, retired"
            "?1, ?2, ?3, ?4, ?5, ?6, ?7, ?8" $($rest)?
        )
    };
}

// What a text asks of a UMID of one channel, by its bytes.
fn of_bytes(channel: u16, umid: &[u8]) -> [ValueRef<'_>; 2]
    ensures { bound result ≡ of_nat channel ∷ Bytes umid.now ∷ [] }
{
    [short_number(channel), ValueRef::Blob(umid)]
}

// The columns of a clip whose UMID has these bytes.
fn clip_values<'a>(channel: u16, clip: &'a Clip, umid: &'a [u8]) -> [ValueRef<'a>; 8]
    ensures { umid.now ≡ basic_umid clip.now.umid → bound result ≡ clip_row (channel, clip.now) }
{
    [
        short_number(channel),
        long_number(clip.n),
        short_number(clip.tape),
        ValueRef::Text(clip.title.as_bytes()),
        ValueRef::Blob(umid),
        long_number(clip.src_first),
        long_number(clip.frames),
        truth(clip.retired),
    ]
}

/// By channel and number: of each the rowid, the channel, the number, its tape's number, the title, the UMID's 32
/// bytes, its first frame and its length on the tape in frames, and 1 where it is retired, else 0.
impl StoredTable for (u16, Clip) {
    fn ask_all<S: Alter>(
        alloc: Global,
        tx: &mut Transaction<'_, S>,
    ) -> Result<Option<Vec<(u16, Clip)>>, Error> {
        ask(alloc, tx, clip_text!(SELECT "ORDER BY ch, n"), &[])
    }
}

impl AskedRow for (u16, Clip) {
    ghost texts = { clip_text_of };

    fn text(question: Question) -> &'static str {
        numbered_text!(clip_text question)
    }
}

impl NumberedRow for Clip {
    ghost number_of = { λ k. k.n };

    ghost rows_in = { λ rows. rows.clips };

    fn number(&self) -> u32 {
        self.n
    }

    fn find<S: Alter>(
        alloc: Global,
        tx: &mut Transaction<'_, S>,
        channel: u16,
        question: Question,
    ) -> Result<Vec<(u16, Clip)>, Unavailable> {
        find_asked(alloc, tx, channel, question)
    }
}

/// The channel's clip with a UMID, where one is asked for. It fails where memory or the store does, and where
/// a row doesn't read.
pub fn clip_with<S: Alter>(
    alloc: Global,
    tx: &mut Transaction<'_, S>,
    channel: u16,
    asked: Option<Umid>,
) -> Result<Option<Clip>, Unavailable>
    ensures looks { Looks S.Store tx.old tx.new result }
    ensures clip { WhileCleanCentre S.Store tx.old tx.new (IfOk result (λ clip. clip ≡ option_and_then
        (λ umid. (of_channel channel (set_in (inside S.Store tx.old)).clips).first (has_umid umid)) asked)) }
{
    let Some(umid) = asked else {
        return Ok(None);
    };
    let bytes = umid.to_bytes();
    let clips = find_rows(
        alloc,
        tx,
        clip_text!(SELECT "WHERE ch = ?1 AND umid = ?2 ORDER BY ch, n"),
        &of_bytes(channel, &bytes),
    )?;
    Ok(first_alone(&clips))
}

/// Adds a clip of this channel, 1 to 999, whose number is new in it. It answers as `execute` does, a count of which
/// no clause speaks or the error of the statement, and commits nothing.
pub fn insert_clip<S: Alter>(
    tx: &mut Transaction<'_, S>,
    channel: u16,
    clip: &Clip,
) -> Result<usize, Error>
    ensures writes { Writes S.Store tx.old tx.new result }
    ensures makes { LacksClipNow channel clip.now (inside S.Store tx.old) →
        Makes (on_clips (insert_sorted clip_cmp (channel, clip.now))) S.Store tx.old tx.new result }
{
    let umid = clip.umid.to_bytes();
    tx.execute(clip_text!(INSERT), &clip_values(channel, clip, &umid))
}

/// Retires a channel's clip with this number. It answers as [`insert_clip`] does, and commits nothing.
pub fn retire_clip<S: Alter>(
    tx: &mut Transaction<'_, S>,
    channel: u16,
    clip: u32,
) -> Result<usize, Error>
    ensures writes { Writes S.Store tx.old tx.new result }
    ensures makes { Makes (on_clips (alter_row channel (λ k. k.n == clip) (λ k. record k { retired = true })))
        S.Store tx.old tx.new result }
{
    tx.execute(
        "UPDATE clip SET retired = 1 WHERE ch = ?1 AND n = ?2",
        &of_number(channel, clip),
    )
}
