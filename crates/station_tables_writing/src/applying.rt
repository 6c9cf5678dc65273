//! A change of one channel: applied inside a transaction, and made for good.
ghost use Rattle.std.specs.Prelude.{◌≡◌, ◌≢◌, ◌⊎◌, false, OnOk, OnErr, IsOk};
ghost use Rattle.sqlite.specs.State.{HasCleanDisk, Survives};
ghost use Rattle.sqlite.specs.Held.{state};
ghost use Rattle.channel_view_model.specs.Centre.{Centre, changed};
ghost use Rattle.station_tables_records.specs.Inside.{Writes};
ghost use Rattle.station_tables_statements.specs.Rows.{Holds, Stands, StandsFor};
ghost use Rattle.station_tables_writing.specs.Tables.{MakesChange, WhereChangeFits, LeavesCommitted, LeavesSets};
ghost use Rattle.station_tables_writing.specs.Tables.{MayLeave};
ghost use Rattle.station_tables_statements.specs.Standing.{IsAlone};

use crate::airing_writing::put_airing;
use crate::day_writing::replace_day;
use channel_view_model::laws::rules_are_kept;
use channel_view_model::{Change, VaultChange};
use sqlite::{Alter, Connection, Error, Transaction};
use station_tables_records::can_be_written;
use station_tables_statements::{
    change_tape, insert_clip, insert_offer, insert_tape, retire_clip, withdraw_offer,
};
use timecode::Unavailable;
use vault_core::Put;

// Applies a change of the channel's own rows.
fn apply_own<S: Alter>(
    tx: &mut Transaction<'_, S>,
    channel: u16,
    put: Put,
    change: &VaultChange,
) -> Result<(), Error>
    ensures writes { Writes S.Store tx.old tx.new result }
    ensures set { MakesChange channel (Change.Vault put change.now) S.Store tx.old tx.new result }
{
    rules_are_kept();
    match (change, put) {
        (VaultChange::Tape(tape), Put::Added) => insert_tape(tx, channel, tape)?,
        (VaultChange::Tape(tape), Put::Changed) => change_tape(tx, channel, tape)?,
        (VaultChange::Clip(clip), Put::Added) => insert_clip(tx, channel, clip)?,
        (VaultChange::Clip(clip), Put::Changed) => retire_clip(tx, channel, clip.n)?,
        (VaultChange::Offer(offer), Put::Added) => return insert_offer(tx, channel, offer),
        (VaultChange::Offer(offer), Put::Changed) => {
            withdraw_offer(tx, channel, u32::from(offer.n))?
        }
    };
    Ok(())
}

// Applies a change that isn't empty inside a transaction, which stays open. A day that isn't there is no command's, and
// none is written of it.
fn apply_change<S: Alter>(
    tx: &mut Transaction<'_, S>,
    channel: u16,
    change: &Change,
) -> Result<(), Unavailable>
    ensures writes { Writes S.Store tx.old tx.new result }
    ensures set { change.now ≢ Change.Nothing → MakesChange channel change.now S.Store tx.old tx.new result }
{
    rules_are_kept();
    match change {
        Change::Nothing => Ok(()),
        Change::Vault(put, own) => apply_own(tx, channel, *put, own).map_err(|_| Unavailable),
        Change::Day(day) => {
            if !can_be_written(day.day()) {
                return Err(Unavailable);
            }
            replace_day(tx, channel, day)
        }
        Change::Airing(airing) => put_airing(tx, channel, airing),
    }
}

// Makes a change that isn't empty for good, or, refused, none.
fn commit_made<S: Alter>(
    conn: &mut Connection<S>,
    channel: u16,
    change: &Change,
) -> Result<(), Unavailable>
    requires idle { conn.old.in_transaction ≡ false }
    requires made { change.now ≢ Change.Nothing }
    ensures idle { conn.new.in_transaction ≡ false }
    ensures ok { HasCleanDisk (state S.Store conn.new) → WhereChangeFits (state S.Store conn.old) channel change.now
        (λ rows. OnOk result (Stands (state S.Store conn.new) (changed channel change.now rows))) }
    ensures alone { HasCleanDisk (state S.Store conn.new) → OnOk result (IsAlone (state S.Store conn.new)) }
    ensures err { HasCleanDisk (state S.Store conn.new) →
        OnErr result (LeavesCommitted (state S.Store conn.old) (state S.Store conn.new)) }
    ensures clean { HasCleanDisk (state S.Store conn.new) → HasCleanDisk (state S.Store conn.old) }
    ensures survives { WhereChangeFits (state S.Store conn.old) channel change.now
        (λ rows. Survives (state S.Store conn.old) (state S.Store conn.new)
        (Holds (changed channel change.now rows))) }
{
    let mut tx = conn.transaction();
    apply_change(&mut tx, channel, change)?;
    tx.commit().map_err(|_| Unavailable)
}

/// Makes a change of the channel (1 to 999) for good, in one transaction. Refused, it makes none: memory, size or disk
/// ran out. The empty change is never refused. The caller keeps that no transaction is open.
pub fn commit_change<S: Alter>(
    conn: &mut Connection<S>,
    channel: u16,
    change: &Change,
) -> Result<(), Unavailable>
    requires idle { conn.old.in_transaction ≡ false }
    ensures idle { conn.new.in_transaction ≡ false }
    ensures ok { HasCleanDisk (state S.Store conn.new) → WhereChangeFits (state S.Store conn.old) channel change.now
        (λ rows. OnOk result (StandsFor (state S.Store conn.new) (changed channel change.now rows))) }
    ensures err { HasCleanDisk (state S.Store conn.new) → (rows : Centre) → StandsFor (state S.Store conn.old) rows →
        OnErr result (StandsFor (state S.Store conn.new) rows) }
    ensures empty { change.now ≡ Change.Nothing → IsOk result }
    ensures clean { HasCleanDisk (state S.Store conn.new) → HasCleanDisk (state S.Store conn.old) }
    ensures stop { HasCleanDisk (state S.Store conn.new) → WhereChangeFits (state S.Store conn.old) channel change.now
        (λ rows. (left : Centre) → MayLeave (state S.Store conn.new) left →
        MayLeave (state S.Store conn.old) left ⊎ (left ≡ changed channel change.now rows)) }
    ensures stop_ok { HasCleanDisk (state S.Store conn.new) →
        WhereChangeFits (state S.Store conn.old) channel change.now
        (λ rows. OnOk result ((left : Centre) → MayLeave (state S.Store conn.new) left →
        (left ≡ changed channel change.now rows)
        ⊎ ((change.now ≡ Change.Nothing) × MayLeave (state S.Store conn.old) left))) }
    // Done or refused, all that a stop may leave holds a set, where it did before.
    ensures sets { WhereChangeFits (state S.Store conn.old) channel change.now
        (λ rows. LeavesSets (state S.Store conn.old) → LeavesSets (state S.Store conn.new)) }
{
    match change {
        Change::Nothing => Ok(()),
        _ => commit_made(conn, channel, change),
    }
}
