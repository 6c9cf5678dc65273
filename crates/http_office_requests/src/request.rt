//! What a message asks, by its method, its path and its body.
ghost use Rattle.std.specs.Prelude.{◌≡◌, IfOk};
ghost use Rattle.http_office_requests.specs.Request.{asked, asked_in, asked_of, command_of};
ghost use Rattle.http_office_requests.specs.Found.{Finds, IsAsked, HasPlainTexts};

use crate::body::{add_clip, add_tape, make_offer, on_clips, on_offers, on_tapes, shelve};
use crate::day_body::{add_item, import, open_day, take_batch};
use crate::fault::AskFault;
use crate::piece::HttpError;
use crate::revision_body::revise;
use crate::routes::{PathNumbers, Route, Routes, is_plain, look_up};
use channel_view_model::{AiringCommand, Command, DayCommand};
use grant_core::OfferCommand;
use matchit::Router;
use std::alloc::Global;
use std::str::from_utf8;
use timecode::Unavailable;
use vault_core::{ClipCommand, TapeCommand};

/// What a message asks.
#[derive(Drop)]
pub enum ParsedRequest {
    /// Nothing of a channel: the answer is the message's own.
    Refused(HttpError),
    /// A command of this channel.
    Command(u16, Command),
}

// The command that a route asks, by the numbers in its path and by its body. The numbers come before the body.
fn command_of(
    alloc: Global,
    route: Route,
    path: PathNumbers,
    body: &[u8],
) -> Result<Command, AskFault>
    ensures { Finds (command_of route path body.now) result }
{
    match route {
        Route::AddTape => add_tape(alloc, body),
        Route::PullTape => Ok(on_tapes(TapeCommand::Pull {
            tape: path.needed_row()?,
        })),
        Route::ShelveTape => shelve(alloc, path.needed_row()?, body),
        Route::AddClip => add_clip(alloc, body),
        Route::RetireClip => Ok(on_clips(ClipCommand::Retire {
            clip: path.needed_row()?,
        })),
        Route::MakeOffer => make_offer(alloc, body),
        Route::WithdrawOffer => Ok(on_offers(OfferCommand::Withdraw {
            offer: path.needed_row()?,
        })),
        Route::OpenDay => open_day(alloc, body),
        Route::AddItem => add_item(alloc, path.needed_day()?, body),
        Route::RemoveItem => {
            let day = path.needed_day()?;
            let item = path.needed_row()?;
            Ok(Command::Day(day, DayCommand::RemoveItem { item }))
        }
        Route::Revise => revise(alloc, path.needed_day()?, body),
        Route::ImportStrict => import(alloc, path.needed_day()?, body, false),
        Route::ImportIgnoring => import(alloc, path.needed_day()?, body, true),
        Route::Seal => Ok(Command::Day(path.needed_day()?, DayCommand::Seal)),
        Route::TakeBatch => take_batch(alloc, path.needed_day()?, path.needed_row()?, body),
        Route::PlanRow => Ok(Command::PlanRow),
        Route::WriteTable(table) => Ok(Command::Table(table)),
        Route::WritePlan => Ok(Command::Day(path.needed_day()?, DayCommand::WritePlan)),
        Route::ExportList => Ok(Command::Day(path.needed_day()?, DayCommand::ExportList)),
        Route::WriteMatch => Ok(Command::Airing(path.needed_day()?, AiringCommand::WriteMatch)),
    }
}

// What a path of a route asks: the number of the channel comes before all else.
fn ask(
    alloc: Global,
    route: Route,
    numbers: PathNumbers,
    content: &[u8],
) -> Result<ParsedRequest, Unavailable>
    ensures { IfOk result (IsAsked (asked_of route numbers content.now)) }
{
    let Some(channel) = numbers.channel else {
        return Ok(ParsedRequest::Refused(HttpError::NotFound));
    };
    match command_of(alloc, route, numbers, content) {
        Ok(command) => Ok(ParsedRequest::Command(channel, command)),
        Err(AskFault::NotFound) => Ok(ParsedRequest::Refused(HttpError::NotFound)),
        Err(AskFault::BadBody) => Ok(ParsedRequest::Refused(HttpError::BadMessage)),
        Err(AskFault::Unavailable) => Err(Unavailable),
    }
}

// What a path and a body ask of the routes of a method.
fn ask_routes(
    alloc: Global,
    router: &Router<Route>,
    path: &[u8],
    content: &[u8],
) -> Result<ParsedRequest, Unavailable>
    requires { HasPlainTexts router.now }
    ensures { IfOk result (IsAsked (asked_in router.now path.now content.now)) }
{
    if !is_plain(path) {
        return Ok(ParsedRequest::Refused(HttpError::NotFound));
    }
    let Ok(text) = from_utf8(path) else {
        return Ok(ParsedRequest::Refused(HttpError::NotFound));
    };
    match look_up(router, text) {
        Some((route, numbers)) => ask(alloc, route, numbers, content),
        None => Ok(ParsedRequest::Refused(HttpError::NotFound)),
    }
}

/// What a method, a path and a body ask.
pub fn ask_message(
    alloc: Global,
    routes: &Routes,
    method: &[u8],
    path: &[u8],
    content: &[u8],
) -> Result<ParsedRequest, Unavailable>
    ensures { IfOk result (IsAsked (asked method.now path.now content.now)) }
{
    if method == b"POST".as_slice() {
        ask_routes(alloc, &routes.post, path, content)
    } else if method == b"GET".as_slice() {
        ask_routes(alloc, &routes.get, path, content)
    } else {
        Ok(ParsedRequest::Refused(HttpError::NotImplemented))
    }
}
