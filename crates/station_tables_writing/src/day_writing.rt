//! A change of a broadcast day of a channel, written into the tables: what differs, and nothing else of the day.
ghost use Rattle.std.specs.Prelude.{◌≡◌, ◌≢◌, true, OnOk};
ghost use Rattle.std.specs.List.{list_all};
ghost use Rattle.playlist_core.specs.declared.day.DayState.TheVariants as DayState;
ghost use Rattle.station_tables_records.specs.Inside.{inside, Writes};
ghost use Rattle.channel_view_model.specs.Rules.{is_there};
ghost use Rattle.station_tables_records.specs.MadeDays.{put_day, has_texts, row_of_day};
ghost use Rattle.station_tables_records.proofs.Turns.{without_items, with_items};
ghost use Rattle.station_tables_records.specs.TablePairs.{on_days, on_items};
ghost use Rattle.station_tables_statements.specs.DayCalls.{WhileCleanDays, MakesDays, MakesWhere, IsThereNow, AreNewNow};
ghost use Rattle.station_tables_statements.specs.DayCalls.{ComesFromNow};
ghost use Rattle.station_tables_statements.specs.DayCalls.{PutsDay, has_some, is_other, is_row_written};

use playlist_core::{DayChange, DayState, Item};
use sqlite::{Alter, Error, Transaction};
use station_tables_records::{DayRow, row_of};
use station_tables_statements::{delete_item, insert_day, insert_item, set_sealed};
use timecode::Unavailable;

fn is_there(was: DayState) -> bool
    ensures { result ≡ is_there was }
{
    match was {
        DayState::NotThere => false,
        DayState::Open | DayState::Sealed => true,
    }
}

// Whether a day that was so has another row now.
fn is_other(was: DayState, row: DayRow) -> bool
    ensures { result ≡ is_other was row.sealed }
{
    match was {
        DayState::NotThere => true,
        DayState::Open => row.sealed,
        DayState::Sealed => !row.sealed,
    }
}

// Whether the row of the day is written. Where no item differs it is, so that a statement runs in any case.
fn is_row_written(change: &DayChange) -> bool
    ensures { result ≡ is_row_written change.now }
{
    is_other(change.was(), row_of(change.day()))
        || (change.deleted().is_empty() && change.inserted().is_empty())
}

// Adds the row of the day, or sets the state of the one that is there. One statement runs in either case.
fn put_day_row<S: Alter>(
    tx: &mut Transaction<'_, S>,
    channel: u16,
    change: &DayChange,
) -> Result<usize, Error>
    ensures writes { Writes S.Store tx.old tx.new result }
    ensures makes { IsThereNow channel change.now.day.number (is_there change.now.was) (inside S.Store tx.old) →
        MakesDays (on_days (put_day (is_there change.now.was) channel (row_of_day change.now.day)))
        S.Store tx.old tx.new result }
{
    let there = is_there(change.was());
    let row = row_of(change.day());
    if there {
        set_sealed(tx, channel, row)
    } else {
        insert_day(tx, channel, row)
    }
}

// Writes the row of the day where it is another, or no item differs.
fn turn_day_row<S: Alter>(
    tx: &mut Transaction<'_, S>,
    channel: u16,
    change: &DayChange,
) -> Result<(), Error>
    ensures writes { Writes S.Store tx.old tx.new result }
    ensures makes { IsThereNow channel change.now.day.number (is_there change.now.was) (inside S.Store tx.old) →
        MakesWhere (is_row_written change.now)
        (on_days (put_day (is_there change.now.was) channel (row_of_day change.now.day)))
        S.Store tx.old tx.new result }
{
    if is_row_written(change) {
        put_day_row(tx, channel, change)?;
    }
    Ok(())
}

// Takes items of a day out.
fn delete_items<S: Alter>(
    tx: &mut Transaction<'_, S>,
    channel: u16,
    day: u32,
    items: &[Item],
) -> Result<(), Error>
    ensures writes { Writes S.Store tx.old tx.new result }
    ensures makes { MakesWhere (has_some items.now) (on_items (without_items channel day items.now))
        S.Store tx.old tx.new result }
{
    for item in items {
        delete_item(tx, channel, day, item.n)?;
    }
    Ok(())
}

// Adds items of a day, whose numbers are new in it and whose sources and kinds have texts that read as these.
fn insert_items<S: Alter>(
    tx: &mut Transaction<'_, S>,
    channel: u16,
    day: u32,
    items: &[Item],
) -> Result<(), Error>
    ensures writes { Writes S.Store tx.old tx.new result }
    ensures makes { AreNewNow channel day items.now (inside S.Store tx.old) →
        MakesWhere (has_some items.now) (on_items (with_items channel day items.now)) S.Store tx.old tx.new result }
{
    for item in items {
        insert_item(tx, channel, day, item)?;
    }
    Ok(())
}

// Writes a change of a day of this channel, 1 to 999, over the day that it is one from: the row of the day where it is
// another, the items that went, and then those that came. It fails with the error of the statement that failed, and
// commits nothing.
fn write_day<S: Alter>(
    tx: &mut Transaction<'_, S>,
    channel: u16,
    change: &DayChange,
) -> Result<(), Error>
    ensures writes { Writes S.Store tx.old tx.new result }
    ensures puts { list_all has_texts change.now.day.items ≡ true → change.now.day.state ≢ DayState.NotThere →
        ComesFromNow channel change.now (inside S.Store tx.old) → WhileCleanDays S.Store tx.old tx.new
        (OnOk result (PutsDay channel change.now.day (inside S.Store tx.old) (inside S.Store tx.new))) }
{
    let day = change.day();
    day.keep_the_rules();
    turn_day_row(tx, channel, change)?;
    delete_items(tx, channel, day.number(), change.deleted())?;
    insert_items(tx, channel, day.number(), change.inserted())
}

/// Puts a day of this channel, 1 to 999, in the place of the one that it was, or in the order of the numbers. It fails
/// where the store does, and commits nothing.
pub(crate) fn replace_day<S: Alter>(
    tx: &mut Transaction<'_, S>,
    channel: u16,
    change: &DayChange,
) -> Result<(), Unavailable>
    ensures writes { Writes S.Store tx.old tx.new result }
    ensures puts { list_all has_texts change.now.day.items ≡ true → change.now.day.state ≢ DayState.NotThere →
        ComesFromNow channel change.now (inside S.Store tx.old) → WhileCleanDays S.Store tx.old tx.new
        (OnOk result (PutsDay channel change.now.day (inside S.Store tx.old) (inside S.Store tx.new))) }
{
    match write_day(tx, channel, change) {
        Ok(()) => Ok(()),
        Err(_) => Err(Unavailable),
    }
}
