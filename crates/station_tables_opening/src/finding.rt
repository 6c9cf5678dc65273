//! Whether a database is that of a centre: all that is tested before its tables are used.
ghost use Rattle.std.specs.Prelude.{◌≡◌, ◌≢◌, ◌⊎◌, ℤ, pos, true, false};
ghost use Rattle.std.specs.Prelude.{IfOk, IfErr, IsTrue, OnOk};
ghost use Rattle.sqlite.specs.State.{HasCleanDisk, Survives};
ghost use Rattle.sqlite.specs.Held.{state};
ghost use Rattle.channel_view_model.specs.Rules.{KeepsRules};
ghost use Rattle.station_tables_records.specs.Inside.{inside, Reads};
ghost use Rattle.station_tables_records.specs.Table.{IsShortage, IsTypedIn, HoldsRows, HoldsFitting};
ghost use Rattle.station_tables_records.specs.OfferRows.{offer_table, offer_fits};
ghost use Rattle.station_tables_records.specs.DayRows.{day_table, day_fits};
ghost use Rattle.station_tables_records.specs.ItemRows.{item_table, item_fits};
ghost use Rattle.station_tables_records.specs.TablePairs.{aired_rows_in, day_rows_in};
ghost use Rattle.station_tables_records.specs.BatchRows.{batch_table, batch_fits};
ghost use Rattle.station_tables_records.specs.LineRows.{line_table, line_fits};
ghost use Rattle.station_tables_records.specs.MadeAirings.{HaveNoHoles, MakeAirings, airings_made};
ghost use Rattle.station_tables_records.specs.MadeDays.{MakeDays, Rise, days_made, plan_cmp};
ghost use Rattle.station_tables_records.specs.OfficeRow.{HasVersion};
ghost use Rattle.station_tables_statements.specs.Rows.{OwnsItems, channels_in};
ghost use Rattle.station_tables_statements.specs.Standing.{OnCode, IsFault};
ghost use Rattle.station_tables_statements.specs.Calls.{HasFirstSchema, HasKnownSchema, WhileKnownTables};
ghost use Rattle.station_tables_opening.specs.Opening.{HasTablesOf, HoldsRules, IsCentreIn, IsCentreOf};
ghost use Rattle.station_tables_opening.specs.Opening.{OwnsWindows, FitWindows};
ghost use Rattle.station_tables_opening.specs.Opening.{number_of, offers_at, rows_at};
ghost use Rattle.station_tables_opening.specs.Found.{FindsCentre, FindsNoCentre};

use crate::by_channel::rows_by_channel;
use asrun_match::DayAsRun;
use channel_plan::{Code, PlanRow};
use channel_view_model::CentreRows;
use channel_view_rules::keeps_rules;
use playlist_core::DayPlan;
use sqlite::{Alter, Connection, Error, ErrorCode, Transaction};
use sqlite_resolve::error::CompileError;
use station_tables_records::{
    AiredLine, BatchRow, DayRow, ItemRow, SpanRow, airings_of, days_of, offers_of, read_version,
};
use station_tables_statements::{StoredTable, office_rows};
use std::alloc::Global;
use vault_core::{Clip, Offer, Tape};

/// The version of a centre's tables.
#[derive(Clone, Copy, PartialEq, Eq)]
pub enum Version {
    /// Without the table of windows.
    First,
    /// With it.
    Second,
}

/// What was found of a centre: the version of its tables, and its plan by number.
#[derive(Drop)]
pub(crate) struct FoundCentre {
    pub(crate) version: Version,
    pub(crate) plan: Vec<PlanRow>,
}

// What the failure of a statement says of the tables: nothing, where memory, the disk or a limit stopped it, and else
// that they aren't those of a centre. The texts are SQL, so one that can't be parsed lacks memory.
pub(crate) fn code_of(error: &Error) -> Code
    ensures fault { IsFault result }
    ensures short { IsShortage error.now → result ≡ Code.Unavailable }
{
    match error {
        Error::SqlInputError(CompileError::OutOfMemory | CompileError::Parse(_))
        | Error::SqliteFailure(
            ErrorCode::OutOfMemory
            | ErrorCode::SystemIoFailure
            | ErrorCode::DiskFull
            | ErrorCode::DatabaseCorrupt
            | ErrorCode::Closed
            | ErrorCode::TooBig
            | ErrorCode::TransactionState
            | ErrorCode::OperationInterrupted,
        ) => Code::Unavailable,
        _ => Code::NotOurs,
    }
}

// The version of the tables.
fn test_office<S: Alter>(tx: &mut Transaction<'_, S>) -> Result<Version, Code>
    ensures reads { Reads S.Store tx.old tx.new result }
    ensures office { WhileKnownTables S.Store tx.old tx.new
        (IfOk result (λ version. HasVersion (number_of version) ((inside S.Store tx.old).now.trees 0))) }
    ensures version { WhileKnownTables S.Store tx.old tx.new (OnCode result Code.SchemaVersion
        ((version : ℤ) × HasVersion version ((inside S.Store tx.old).now.trees 0)
        × (version ≢ pos 1) × (version ≢ pos 2))) }
    ensures ours { WhileKnownTables S.Store tx.old tx.new (OnCode result Code.NotOurs
        ((version : ℤ) → HasVersion version ((inside S.Store tx.old).now.trees 0) → ⊥)) }
    ensures codes { IfErr result (λ e. (e ≡ Code.SchemaVersion) ⊎ IsFault e) }
{
    let rows = match office_rows(tx) {
        Ok(rows) => rows,
        Err(error) => return Err(code_of(&error)),
    };
    match read_version(&rows) {
        Some(1) => Ok(Version::First),
        Some(2) => Ok(Version::Second),
        Some(_) => Err(Code::SchemaVersion),
        None => Err(Code::NotOurs),
    }
}

// All rows of a table, by their keys.
fn all_rows<T: StoredTable, S: Alter>(
    alloc: Global,
    tx: &mut Transaction<'_, S>,
) -> Result<Vec<T>, Code>
    ensures reads { Reads S.Store tx.old tx.new result }
    ensures rise { IfOk result (λ rows. Rise T.table.cmp rows.items) }
    ensures list { T.is_there (inside S.Store tx.old) → HasCleanDisk (inside S.Store tx.new) →
        IfOk result (λ rows. HoldsRows T.table rows.items (inside S.Store tx.old).now.trees) }
    ensures ours { T.is_there (inside S.Store tx.old) → HasCleanDisk (inside S.Store tx.new) →
        OnCode result Code.NotOurs (HoldsFitting T.table T.fits (inside S.Store tx.old).now.trees → ⊥) }
    ensures missing { T.is_missing (inside S.Store tx.old) → HasCleanDisk (inside S.Store tx.new) → OnOk result ⊥ }
    ensures codes { IfErr result IsFault }
{
    match T::ask_all(alloc, tx) {
        Ok(Some(list)) => Ok(list),
        Ok(None) => Err(Code::NotOurs),
        Err(error) => Err(code_of(&error)),
    }
}

// The offers that their rows make, in tables of version 2 with those of windows.
fn all_made_offers<S: Alter>(
    alloc: Global,
    tx: &mut Transaction<'_, S>,
    version: Version,
) -> Result<Vec<(u16, Offer)>, Code>
    ensures reads { Reads S.Store tx.old tx.new result }
    ensures offers { HasTablesOf version (inside S.Store tx.old) → HasCleanDisk (inside S.Store tx.new) →
        IfOk result (λ offers. IsTypedIn offer_table (inside S.Store tx.old).now.trees
        × OwnsWindows version (inside S.Store tx.old).now.trees
        × (offers.items ≡ offers_at version (inside S.Store tx.old).now.trees)) }
    ensures ours { HasTablesOf version (inside S.Store tx.old) → HasCleanDisk (inside S.Store tx.new) →
        OnCode result Code.NotOurs (HoldsFitting offer_table offer_fits (inside S.Store tx.old).now.trees →
        FitWindows version (inside S.Store tx.old).now.trees → ⊥) }
    ensures missing { HasFirstSchema (inside S.Store tx.old) → HasCleanDisk (inside S.Store tx.new) →
        OnOk result (version ≡ Version.First) }
    ensures codes { IfErr result IsFault }
{
    let offers = all_rows(alloc, tx)?;
    match version {
        Version::First => Ok(offers),
        Version::Second => {
            let spans: Vec<(u16, SpanRow)> = all_rows(alloc, tx)?;
            offers_of(offers, &spans)
        }
    }
}

// The days of these channels, which the rows of days and of items make.
fn all_made_days<S: Alter>(
    alloc: Global,
    tx: &mut Transaction<'_, S>,
    channels: &[PlanRow],
) -> Result<Vec<(u16, DayPlan)>, Code>
    requires { Rise plan_cmp channels.now }
    ensures reads { Reads S.Store tx.old tx.new result }
    ensures days { WhileKnownTables S.Store tx.old tx.new (IfOk result (λ days.
        IsTypedIn day_table (inside S.Store tx.old).now.trees × IsTypedIn item_table (inside S.Store tx.old).now.trees
        × OwnsItems (inside S.Store tx.old).now.trees
        × (days.items ≡ days_made channels.now (day_rows_in (inside S.Store tx.old).now.trees)))) }
    ensures ours { WhileKnownTables S.Store tx.old tx.new (OnCode result Code.NotOurs
        (HoldsFitting day_table day_fits (inside S.Store tx.old).now.trees →
        HoldsFitting item_table item_fits (inside S.Store tx.old).now.trees →
        MakeDays channels.now (day_rows_in (inside S.Store tx.old).now.trees) → ⊥)) }
    ensures codes { IfErr result IsFault }
{
    let days: Vec<(u16, DayRow)> = all_rows(alloc, tx)?;
    let items: Vec<(u16, ItemRow)> = rows_by_channel(alloc, tx, channels)?;
    days_of(alloc, channels, &days, &items)
}

// What was aired of the days of these channels, which the rows of batches and of their lines make.
fn all_made_airings<S: Alter>(
    alloc: Global,
    tx: &mut Transaction<'_, S>,
    channels: &[PlanRow],
) -> Result<Vec<(u16, DayAsRun)>, Code>
    requires { Rise plan_cmp channels.now }
    ensures reads { Reads S.Store tx.old tx.new result }
    ensures airings { WhileKnownTables S.Store tx.old tx.new (IfOk result (λ airings.
        IsTypedIn batch_table (inside S.Store tx.old).now.trees
        × IsTypedIn line_table (inside S.Store tx.old).now.trees
        × HaveNoHoles (aired_rows_in (inside S.Store tx.old).now.trees)
        × (airings.items ≡ airings_made channels.now (aired_rows_in (inside S.Store tx.old).now.trees)))) }
    ensures ours { WhileKnownTables S.Store tx.old tx.new (OnCode result Code.NotOurs
        (HoldsFitting batch_table batch_fits (inside S.Store tx.old).now.trees →
        HoldsFitting line_table line_fits (inside S.Store tx.old).now.trees →
        MakeAirings channels.now (aired_rows_in (inside S.Store tx.old).now.trees) → ⊥)) }
    ensures codes { IfErr result IsFault }
{
    let batches: Vec<(u16, BatchRow)> = all_rows(alloc, tx)?;
    let lines: Vec<(u16, AiredLine)> = rows_by_channel(alloc, tx, channels)?;
    airings_of(alloc, channels, &batches, &lines)
}

// The set of rows that the tables hold.
fn set_of_tables<S: Alter>(
    alloc: Global,
    tx: &mut Transaction<'_, S>,
    version: Version,
) -> Result<CentreRows, Code>
    ensures reads { Reads S.Store tx.old tx.new result }
    ensures set { HasTablesOf version (inside S.Store tx.old) → HasCleanDisk (inside S.Store tx.new) →
        IfOk result (λ rows. (rows ≡ rows_at version (inside S.Store tx.old).now.trees)
        × (KeepsRules rows → HoldsRules version (inside S.Store tx.old).now.trees)) }
    ensures plan { WhileKnownTables S.Store tx.old tx.new
        (IfOk result (λ rows. rows.channels ≡ channels_in (inside S.Store tx.old).now.trees)) }
    ensures ours { HasTablesOf version (inside S.Store tx.old) → HasCleanDisk (inside S.Store tx.new) →
        OnCode result Code.NotOurs (HoldsRules version (inside S.Store tx.old).now.trees → ⊥) }
    ensures missing { HasFirstSchema (inside S.Store tx.old) → HasCleanDisk (inside S.Store tx.new) →
        OnOk result (version ≡ Version.First) }
    ensures codes { IfErr result IsFault }
{
    let channels: Vec<PlanRow> = all_rows(alloc, tx)?;
    let tapes: Vec<(u16, Tape)> = all_rows(alloc, tx)?;
    let clips: Vec<(u16, Clip)> = all_rows(alloc, tx)?;
    let offers = all_made_offers(alloc, tx, version)?;
    let days = all_made_days(alloc, tx, &channels)?;
    let aired = all_made_airings(alloc, tx, &channels)?;
    Ok(CentreRows {
        channels,
        tapes,
        clips,
        offers,
        days,
        aired,
    })
}

// The plan in a set of rows.
fn plan_in(rows: CentreRows) -> Vec<PlanRow>
    ensures { result.items ≡ rows.channels }
{
    let CentreRows { channels, .. } = rows;
    channels
}

// Tests that the rows can be read and keep the rules, and gives their plan.
fn test_rows<S: Alter>(
    alloc: Global,
    tx: &mut Transaction<'_, S>,
    version: Version,
) -> Result<Vec<PlanRow>, Code>
    ensures reads { Reads S.Store tx.old tx.new result }
    ensures plan { WhileKnownTables S.Store tx.old tx.new
        (IfOk result (λ plan. plan.items ≡ channels_in (inside S.Store tx.old).now.trees)) }
    ensures rules { HasTablesOf version (inside S.Store tx.old) → HasCleanDisk (inside S.Store tx.new) →
        OnOk result (HoldsRules version (inside S.Store tx.old).now.trees) }
    ensures ours { HasTablesOf version (inside S.Store tx.old) → HasCleanDisk (inside S.Store tx.new) →
        OnCode result Code.NotOurs (HoldsRules version (inside S.Store tx.old).now.trees → ⊥) }
    ensures missing { HasFirstSchema (inside S.Store tx.old) → HasCleanDisk (inside S.Store tx.new) →
        OnOk result (version ≡ Version.First) }
    ensures codes { IfErr result IsFault }
{
    let rows = set_of_tables(alloc, tx, version)?;
    match keeps_rules(alloc, &rows) {
        Ok(true) => Ok(plan_in(rows)),
        Ok(false) => Err(Code::NotOurs),
        Err(_) => Err(Code::Unavailable),
    }
}

// Tests that the tables are those of a centre.
fn test_tables<S: Alter>(alloc: Global, tx: &mut Transaction<'_, S>) -> Result<FoundCentre, Code>
    ensures reads { Reads S.Store tx.old tx.new result }
    ensures rows { HasCleanDisk (inside S.Store tx.new) → IfOk result (λ found.
        HasTablesOf found.version (inside S.Store tx.old) →
        IsCentreOf found.version (inside S.Store tx.old).now) }
    ensures plan { WhileKnownTables S.Store tx.old tx.new
        (IfOk result (λ found. found.plan.items ≡ channels_in (inside S.Store tx.old).now.trees)) }
    ensures version { WhileKnownTables S.Store tx.old tx.new (OnCode result Code.SchemaVersion
        ((version : ℤ) × HasVersion version ((inside S.Store tx.old).now.trees 0)
        × (version ≢ pos 1) × (version ≢ pos 2))) }
    ensures ours { HasCleanDisk (inside S.Store tx.new) → OnCode result Code.NotOurs ((version : Version) →
        HasTablesOf version (inside S.Store tx.old) → IsCentreIn version (inside S.Store tx.old).now.trees → ⊥) }
    ensures known { WhileKnownTables S.Store tx.old tx.new (OnCode result Code.NotOurs
        ((version : ℤ) → HasVersion version ((inside S.Store tx.old).now.trees 0) →
        (version ≡ pos 1) ⊎ (version ≡ pos 2))) }
    ensures office { WhileKnownTables S.Store tx.old tx.new
        (IfOk result (λ found. HasVersion (number_of found.version) ((inside S.Store tx.old).now.trees 0))) }
    ensures missing { HasFirstSchema (inside S.Store tx.old) → HasCleanDisk (inside S.Store tx.new) →
        IfOk result (λ found. found.version ≡ Version.First) }
    ensures codes { IfErr result (λ e. (e ≡ Code.SchemaVersion) ⊎ IsFault e) }
{
    let version = test_office(tx)?;
    let plan = test_rows(alloc, tx, version)?;
    Ok(FoundCentre { version, plan })
}

/// Tests that the tables are those of a centre, in this order: the row of `office` reads, its version is 1 or 2, the
/// rows of the other tables read and keep the rules. Success answers the version and the plan, and everything is
/// committed: the commit changes nothing, so what was read is what is committed.
///
/// Refused, nothing was: [`Code::SchemaVersion`] where there is another version, [`Code::NotOurs`] where a table or a
/// row isn't a centre's, [`Code::Unavailable`] where memory, size or disk ran out. The caller keeps that no transaction
/// is open.
pub(crate) fn find_centre<S: Alter>(
    alloc: Global,
    conn: &mut Connection<S>,
) -> Result<FoundCentre, Code>
    requires idle { conn.old.in_transaction ≡ false }
    ensures idle { conn.new.in_transaction ≡ false }
    ensures found { IfOk result (λ found. FindsCentre (state S.Store conn.old) (state S.Store conn.new) found.version) }
    ensures plan { HasKnownSchema (state S.Store conn.old) → HasCleanDisk (state S.Store conn.new) →
        IfOk result (λ found. found.plan.items ≡ channels_in (state S.Store conn.old).now.trees) }
    ensures refused { IfErr result (FindsNoCentre (state S.Store conn.old) (state S.Store conn.new)) }
    // A stop leaves what it might leave before, or what the database showed.
    ensures survives { Survives (state S.Store conn.old) (state S.Store conn.new)
        (λ db. IsTrue (state S.Store conn.old).is_open × (db ≡ (state S.Store conn.old).now.trees)) }
{
    let mut tx = conn.transaction();
    let found = test_tables(alloc, &mut tx)?;
    match tx.commit() {
        Ok(()) => Ok(found),
        Err(_) => Err(Code::Unavailable),
    }
}
