//! Stores of the rows of all channels, and a request over any of them.
ghost use Rattle.std.specs.Prelude.{◌≡◌, ◌≢◌, ℕ, List, Option, true, IfOk, OnOk};
ghost use Rattle.std.specs.Borrow.{Bor};
ghost use Rattle.std.specs.Option.{option_map};
ghost use Rattle.channel_view_model.specs.Seen.{seen_in};
ghost use Rattle.channel_view_model.specs.Decide.{decision};
ghost use Rattle.channel_view_model.specs.Centre.{Centre, Request, view_of, reply_to};
ghost use Rattle.channel_view_model.specs.Need.{asks_a_part, need_of, sources_named, IsFetched};
ghost use Rattle.playlist_core.specs.declared.source.Source.{Source};
ghost use Rattle.channel_view_model.specs.declared.view.View.{View};
ghost use Rattle.channel_view_model.specs.Solo.{hears, events_of, own_part};
ghost use Rattle.channel_view_model.specs.Rules.{KeepsRules};
ghost use Rattle.channel_view_model.specs.Store.{WhileClean};
ghost use Rattle.channel_view_laws.specs.Requests.{UnlessUnavailable, Prepares, rows_after, stop_after};
ghost use Rattle.channel_view_laws.specs.Runs.{in_doubt_after, MayRemain};

use channel_view_decisions::decide_part;
use channel_view_model::{
    Change, Command, Need, Outcome, Part, Reply, RowStore, Table, TableFault, TableText,
};
use std::alloc::Global;
use timecode::Unavailable;

/// The reply and the change of a command, or `None` where the channel isn't in the plan. It fetches what the command
/// needs, or writes the table that it asks for, and nothing is committed.
pub fn prepare<S: RowStore>(
    alloc: Global,
    store: &mut S,
    channel: u16,
    command: &Command,
) -> Result<Option<(Reply, Change)>, Unavailable>
    ensures clean { S.is_clean store.new → S.is_clean store.old }
    ensures prepared { WhileClean (S.is_clean store.new) (S.stands_for store.old)
        (λ rows. IfOk result (Prepares rows channel command.now)) }
    ensures rules { WhileClean (S.is_clean store.new) (S.stands_for store.old) (λ rows. OnOk result (KeepsRules rows)) }
    ensures same { WhileClean (S.is_clean store.new) (S.stands_for store.old) (λ rows. S.stands_for store.new rows) }
    ensures stop { S.is_clean store.new → (left : Centre) → S.may_leave store.new left → S.may_leave store.old left }
    ensures sets { S.leaves_sets store.old → S.leaves_sets store.new }
{
    match command {
        Command::Vault(_) | Command::Day(_, _) | Command::Airing(_, _) | Command::PlanRow =>
            prepare_by_part(alloc, store, channel, command),
        Command::Table(table) => prepare_table(alloc, store, channel, *table),
    }
}

// The same of a command that is decided by a part.
fn prepare_by_part<S: RowStore>(
    alloc: Global,
    store: &mut S,
    channel: u16,
    command: &Command,
) -> Result<Option<(Reply, Change)>, Unavailable>
    requires { asks_a_part command.now ≡ true }
    ensures clean { S.is_clean store.new → S.is_clean store.old }
    ensures decided { WhileClean (S.is_clean store.new) (S.stands_for store.old)
        (λ rows. IfOk result (λ d. d ≡ option_map (λ v. decision (seen_in v) command.now) (view_of channel rows))) }
    ensures rules { WhileClean (S.is_clean store.new) (S.stands_for store.old) (λ rows. OnOk result (KeepsRules rows)) }
    ensures same { WhileClean (S.is_clean store.new) (S.stands_for store.old) (λ rows. S.stands_for store.new rows) }
    ensures stop { S.is_clean store.new → (left : Centre) → S.may_leave store.new left → S.may_leave store.old left }
    ensures sets { S.leaves_sets store.old → S.leaves_sets store.new }
{
    let named = command.sources_named(alloc)?;
    let part = store.fetch(channel, &Need::of(command, &named))?;
    decided(alloc, part, command)
}

// What is decided by a part of what the channel sees.
fn decided(
    alloc: Global,
    part: Option<Part>,
    command: &Command,
) -> Result<Option<(Reply, Change)>, Unavailable>
    requires { asks_a_part command.now ≡ true }
    ensures { (view : Option View) → (named : Bor (List Source)) → named.now ≡ sources_named command.now →
        IsFetched (need_of command.now named) view part →
        IfOk result (λ d. d ≡ option_map (λ v. decision (seen_in v) command.now) view) }
{
    match part {
        Some(part) => Ok(Some(decide_part(alloc, &part, command)?)),
        None => Ok(None),
    }
}

// The same of one that asks for a table.
fn prepare_table<S: RowStore>(
    alloc: Global,
    store: &mut S,
    channel: u16,
    table: Table,
) -> Result<Option<(Reply, Change)>, Unavailable>
    ensures clean { S.is_clean store.new → S.is_clean store.old }
    ensures decided { WhileClean (S.is_clean store.new) (S.stands_for store.old)
        (λ rows. IfOk result
        (λ d. d ≡ option_map (λ v. decision (seen_in v) (Command.Table table)) (view_of channel rows))) }
    ensures rules { WhileClean (S.is_clean store.new) (S.stands_for store.old) (λ rows. OnOk result (KeepsRules rows)) }
    ensures same { WhileClean (S.is_clean store.new) (S.stands_for store.old) (λ rows. S.stands_for store.new rows) }
    ensures stop { S.is_clean store.new → (left : Centre) → S.may_leave store.new left → S.may_leave store.old left }
    ensures sets { S.leaves_sets store.old → S.leaves_sets store.new }
{
    let mut text = Vec::new(alloc);
    match store.write_table(channel, table, &mut text) {
        Ok(true) => Ok(Some((Reply::Table(TableText::of(text)), Change::Nothing))),
        Ok(false) => Ok(None),
        // The writer is memory: its faults are want of it.
        Err(_) => Err(Unavailable),
    }
}

/// Answers one request.
pub fn handle<S: RowStore>(alloc: Global, store: &mut S, channel: u16, command: &Command) -> Outcome
    ensures clean { S.is_clean store.new → S.is_clean store.old }
    ensures answer { WhileClean (S.is_clean store.new) (S.stands_for store.old)
        (λ rows. UnlessUnavailable result (result ≡ reply_to rows (channel, command.now))) }
    // Answered `Unavailable` it leaves the set as it was.
    ensures rows { WhileClean (S.is_clean store.new) (S.stands_for store.old)
        (λ rows. S.stands_for store.new (rows_after rows (channel, command.now) result)) }
    // Another channel sees an offer to it, or the withdrawal of one, and else nothing.
    ensures others { WhileClean (S.is_clean store.new) (S.stands_for store.old)
        (λ rows. (c : ℕ) → channel ≢ c → UnlessUnavailable result (
        view_of c (rows_after rows (channel, command.now) result)
        ≡ hears (events_of c channel (own_part (view_of channel rows)) command.now) (view_of c rows))) }
    // It is answered over a set that keeps the integrity rules alone, and they stay.
    ensures rules { WhileClean (S.is_clean store.new) (S.stands_for store.old)
        (λ rows. UnlessUnavailable result
        (KeepsRules rows × KeepsRules (rows_after rows (channel, command.now) result))) }
    // A stop leaves what it could leave before, or the request whole; once it is acknowledged, this alone.
    ensures stop { WhileClean (S.is_clean store.new) (S.stands_for store.old)
        (λ rows. (left : Centre) → S.may_leave store.new left →
        stop_after (S.may_leave store.old) rows (channel, command.now) result left) }
    // So: the set after it, or that with one request done that was answered `Unavailable` since the last acknowledged
    // one that changed rows.
    ensures remains { WhileClean (S.is_clean store.new) (S.stands_for store.old)
        (λ rows. (in_doubt : List Request) →
        ((left : Centre) → S.may_leave store.old left → MayRemain in_doubt rows left) →
        (left : Centre) → S.may_leave store.new left →
        MayRemain (in_doubt_after in_doubt rows (channel, command.now) result)
        (rows_after rows (channel, command.now) result) left) }
    // All that a stop may leave holds a set, where it did before: also of a store that a fault of the disk has shut.
    ensures sets { WhileClean (S.is_clean store.new) (S.stands_for store.old)
        (λ rows. S.leaves_sets store.old → S.leaves_sets store.new) }
{
    match prepare(alloc, store, channel, command) {
        Err(_) => Outcome::Unavailable,
        Ok(None) => Outcome::NoChannel,
        Ok(Some((reply, change))) => match store.commit(channel, &change) {
            Ok(()) => Outcome::Replied(reply),
            Err(_) => Outcome::Unavailable,
        },
    }
}
