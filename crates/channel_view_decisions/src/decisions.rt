//! The decision of one command over what its channel sees.
ghost use Rattle.std.specs.Prelude.{◌≡◌, List, true, IfOk};
ghost use Rattle.std.specs.Borrow.{Bor};
ghost use Rattle.playlist_core.specs.declared.source.Source.{Source};
ghost use Rattle.channel_view_model.specs.declared.view.View.{View};
ghost use Rattle.channel_view_model.specs.declared.command.Command.TheVariants as Command;
ghost use Rattle.channel_view_model.specs.Seen.{seen_in};
ghost use Rattle.channel_view_model.specs.Decide.{answered, decision, vault_decision};
ghost use Rattle.channel_view_model.specs.Need.{airing_need, own_need, need_of, asks_a_part, sources_named, IsPartOf};

use crate::airing_decisions::decide_on_airing;
use crate::day_decisions::decide_on_day;
use crate::view_text::text_of_view;
use channel_plan::Refusal;
use channel_view_model::{
    AiringCommand, Change, Command, DayCommand, DayNumber, Need, Part, Reply, TableText,
    VaultChange, VaultCommand, View,
};
use grant_core::OfferCommand;
use std::alloc::Global;
use timecode::Unavailable;
use vault_core::{Clip, ClipCommand, Offer, Put, Tape, TapeCommand};

/// The reply and the change of a command, by what its channel sees alone. A refusal changes nothing.
#[tactic(auto, unfolding(channel_view_model::specs::Decide::decision))]
pub fn decide(alloc: Global, view: &View, command: &Command) -> Result<(Reply, Change), Unavailable>
    ensures { IfOk result (λ d. d ≡ decision (seen_in view.now) command.now) }
{
    match command {
        Command::Vault(_) | Command::Day(_, _) | Command::Airing(_, _) | Command::PlanRow => {
            let named = command.sources_named(alloc)?;
            let part = view.part(alloc, &Need::of(command, &named))?;
            decide_part(alloc, &part, command)
        }
        Command::Table(table) => Ok((
            Reply::Table(text_of_view(alloc, view, *table)?),
            Change::Nothing,
        )),
    }
}

/// The same by the part alone that the command needs, whatever else the channel sees. The command is no table.
#[tactic(auto, unfolding(channel_view_model::specs::Decide::decision))]
pub fn decide_part(
    alloc: Global,
    part: &Part,
    command: &Command,
) -> Result<(Reply, Change), Unavailable>
    requires { asks_a_part command.now ≡ true }
    ensures { (view : View) → (named : Bor (List Source)) → named.now ≡ sources_named command.now →
        IsPartOf (need_of command.now named) view part.now →
        IfOk result (λ d. d ≡ decision (seen_in view) command.now) }
{
    match command {
        Command::Vault(own) => Ok(decide_own(part, own)),
        Command::Day(number, asked) => decide_day(alloc, part, number, asked),
        Command::Airing(number, asked) => decide_airing(alloc, part, number, asked),
        Command::PlanRow => Ok((Reply::PlanRow(part.plan), Change::Nothing)),
        Command::Table(_) => unreachable!(),
    }
}

// A part without its day, or of a plan row out of range, is none of a store.
#[tactic(auto, unfolding(channel_view_model::specs::Decide::decision))]
fn decide_day(
    alloc: Global,
    part: &Part,
    number: &DayNumber,
    command: &DayCommand,
) -> Result<(Reply, Change), Unavailable>
    ensures { (view : View) → (named : Bor (List Source)) →
        named.now ≡ sources_named (Command.Day number.now command.now) →
        IsPartOf (need_of (Command.Day number.now command.now) named) view part.now →
        IfOk result (λ d. d ≡ decision (seen_in view) (Command.Day number.now command.now)) }
{
    command.is_asked_of(number);
    match &part.day {
        Some(day) if part.plan.is_in_range() => {
            let sources = part.sources.rows();
            decide_on_day(alloc, &part.plan, day, &sources, command)
        }
        _ => Err(Unavailable),
    }
}

// The same of a part without its day or what was aired of it.
#[tactic(auto, unfolding(channel_view_model::specs::Decide::decision))]
fn decide_airing(
    alloc: Global,
    part: &Part,
    number: &DayNumber,
    command: &AiringCommand,
) -> Result<(Reply, Change), Unavailable>
    ensures { (view : View) → IsPartOf (airing_need number.now) view part.now →
        IfOk result (λ d. d ≡ decision (seen_in view) (Command.Airing number.now command.now)) }
{
    let _number = number.get();
    match (&part.day, &part.aired) {
        (Some(day), Some(airing)) if part.plan.is_in_range() => {
            decide_on_airing(alloc, &part.plan, day, airing, command)
        }
        _ => Err(Unavailable),
    }
}

fn decide_own(part: &Part, command: &VaultCommand) -> (Reply, Change)
    ensures { (view : View) → IsPartOf (own_need command.now) view part.now →
        result ≡ vault_decision (seen_in view).own command.now }
{
    match command {
        VaultCommand::Tape(asked) => decide_tape(part, asked),
        VaultCommand::Clip(asked) => decide_clip(part, asked),
        VaultCommand::Offer(asked) => decide_offer(part, asked),
    }
}

fn decide_tape(part: &Part, command: &TapeCommand) -> (Reply, Change)
    ensures { (view : View) → IsPartOf (own_need (VaultCommand.Tape command.now)) view part.now →
        result ≡ vault_decision (seen_in view).own (VaultCommand.Tape command.now) }
{
    tape_put(command.is_put(), command.decided(&part.plan, &part.tapes))
}

// The reply and the change of a tape that is put so, or of the refusal.
fn tape_put(put: Put, made: Result<Tape, Refusal>) -> (Reply, Change)
    ensures { result ≡ answered (λ t. (Reply.Tape t.n, Change.Vault put (VaultChange.Tape t))) made }
{
    match made {
        Ok(tape) => (
            Reply::Tape(tape.n),
            Change::Vault(put, VaultChange::Tape(tape)),
        ),
        Err(refusal) => (Reply::Refused(refusal), Change::Nothing),
    }
}

fn decide_clip(part: &Part, command: &ClipCommand) -> (Reply, Change)
    ensures { (view : View) → IsPartOf (own_need (VaultCommand.Clip command.now)) view part.now →
        result ≡ vault_decision (seen_in view).own (VaultCommand.Clip command.now) }
{
    clip_put(
        command.is_put(),
        command.decided(&part.plan, &part.tapes, &part.clips),
    )
}

// The reply and the change of a clip that is put so, or of the refusal.
fn clip_put(put: Put, made: Result<Clip, Refusal>) -> (Reply, Change)
    ensures { result ≡ answered (λ k. (Reply.Clip k.n, Change.Vault put (VaultChange.Clip k))) made }
{
    match made {
        Ok(clip) => (
            Reply::Clip(clip.n),
            Change::Vault(put, VaultChange::Clip(clip)),
        ),
        Err(refusal) => (Reply::Refused(refusal), Change::Nothing),
    }
}

fn decide_offer(part: &Part, command: &OfferCommand) -> (Reply, Change)
    ensures { (view : View) → IsPartOf (own_need (VaultCommand.Offer command.now)) view part.now →
        result ≡ vault_decision (seen_in view).own (VaultCommand.Offer command.now) }
{
    offer_put(
        command.is_put(),
        command.decided(&part.plan, &part.clips, &part.offers),
    )
}

// The reply and the change of an offer that is put so, or of the refusal.
fn offer_put(put: Put, made: Result<Offer, Refusal>) -> (Reply, Change)
    ensures { result ≡ answered (λ o. (Reply.Offer o.n, Change.Vault put (VaultChange.Offer o))) made }
{
    match made {
        Ok(offer) => (
            Reply::Offer(offer.n),
            Change::Vault(put, VaultChange::Offer(offer)),
        ),
        Err(refusal) => (Reply::Refused(refusal), Change::Nothing),
    }
}
