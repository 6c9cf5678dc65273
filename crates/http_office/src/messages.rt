//! One message, and its answer.
ghost use Rattle.std.specs.Prelude.{◌≡◌, ◌⊎◌, ◌↔◌, ℕ, [], ◌∷◌, ◌++◌, List, Bool, true, Some, length, map};
ghost use Rattle.std.specs.Prelude.{IsTrue, IfOk, OnErr, IfSome, IfNone};
ghost use Rattle.channel_view_model.specs.Centre.{Centre, Request, view_of, after_all};
ghost use Rattle.channel_view_model.specs.Rules.{KeepsRules};
ghost use Rattle.channel_view_model.specs.Solo.{solo_outcomes, feed, replies_to, purge};
ghost use Rattle.channel_view_model.specs.Store.{WhileClean};
ghost use Rattle.channel_view_laws.specs.Parts.{rows_part, IsClosedPart};
ghost use Rattle.channel_view_laws.specs.Again.{MayBeFound};
ghost use Rattle.http_office.specs.Alone.{kept_commands, given_to};
ghost use Rattle.http_office_answers.specs.Answer.{bytes_of};
ghost use Rattle.http_office_requests.specs.Request.{Asked, refused, command, request_of};
ghost use Rattle.http_office.specs.Message.{IsAskedBy, Answers, rows_left, stop_asked};
ghost use Rattle.http_office_requests.specs.FoundPiece.{IsNext, status_of};
ghost use Rattle.http_office_requests.specs.Found.{IsAsked, OfPiece, len_found};
ghost use Rattle.http_office.specs.Run.{HasAnswered, AreAskedBy};

use channel_view_model::{Command, RowStore};
use channel_view_requests::prepare;
use http::StatusCode;
use http_office_answers::{Answer, reply_answer, status_answer};
use http_office_requests::{
    FoundPiece, FramingProgress, HttpError, ParsedRequest, Routes, ask_message, next_piece,
};
use std::alloc::Global;
use timecode::Unavailable;

// Whether the piece that was found has this length.
fn is_of_length(next: &FoundPiece, len: usize) -> bool
    ensures { IsTrue result ↔ (len_found next.now ≡ Some len) }
{
    match next {
        FoundPiece::Partial(_) => false,
        FoundPiece::Message(m) => m.len == len,
        FoundPiece::Last(n, _) => *n == len,
    }
}

// The one piece that the bytes are, if they are one.
fn whole_piece(message: &[u8]) -> Option<FoundPiece>
    ensures some { IfSome result (λ next. IsNext message.now next × (len_found next ≡ Some (length message.now))) }
    ensures none { IfNone result (IsAskedBy message.now (refused 400)) }
{
    let next = next_piece(message, FramingProgress::NOTHING);
    if is_of_length(&next, message.len()) {
        Some(next)
    } else {
        None
    }
}

// What the piece asks that was found at the front of the bytes.
fn ask_next(
    alloc: Global,
    routes: &Routes,
    bytes: &[u8],
    next: &FoundPiece,
) -> Result<ParsedRequest, Unavailable>
    requires { IsNext bytes.now next.now }
    ensures { OfPiece bytes.now next.now (λ p. IfOk result (IsAsked (request_of p))) }
{
    match next {
        FoundPiece::Partial(_) => Ok(ParsedRequest::Refused(HttpError::BadMessage)),
        FoundPiece::Last(_, status) => Ok(ParsedRequest::Refused(*status)),
        FoundPiece::Message(m) => {
            let method = m.method.of(bytes);
            let path = m.path.of(bytes);
            ask_message(alloc, routes, method, path, &bytes[m.body..m.len])
        }
    }
}

// The status of a message's own answer.
fn status_code(status: HttpError) -> StatusCode
    ensures { result ≡ status_of status }
{
    match status {
        HttpError::BadMessage => StatusCode::BAD_REQUEST,
        HttpError::NotFound => StatusCode::NOT_FOUND,
        HttpError::TooLarge => StatusCode::PAYLOAD_TOO_LARGE,
        HttpError::NotImplemented => StatusCode::NOT_IMPLEMENTED,
    }
}

// The answer to a message that asks nothing of a channel.
fn refuse(alloc: Global, status: HttpError) -> Answer
    ensures { (rows : Centre) → Answers rows (refused (status_of status)) result }
{
    match status_answer(alloc, status_code(status)) {
        Ok(bytes) => Answer::Given(bytes),
        Err(_) => Answer::Unavailable,
    }
}

// Decides a command, makes its answer, and then commits its change.
fn answer_command<S: RowStore>(
    alloc: Global,
    store: &mut S,
    channel: u16,
    asked: &Command,
) -> Answer
    ensures clean { S.is_clean store.new → S.is_clean store.old }
    ensures rules { WhileClean (S.is_clean store.new) (S.stands_for store.old)
        (λ rows. (kept_commands (command channel asked.now ∷ []) (result ∷ []) ≡ []) ⊎ KeepsRules rows) }
    ensures answer { WhileClean (S.is_clean store.new) (S.stands_for store.old)
        (λ rows. Answers rows (command channel asked.now) result) }
    ensures rows { WhileClean (S.is_clean store.new) (S.stands_for store.old)
        (λ rows. S.stands_for store.new (rows_left rows (command channel asked.now) result)) }
    ensures stop { WhileClean (S.is_clean store.new) (S.stands_for store.old)
        (λ rows. (left : Centre) → S.may_leave store.new left →
        stop_asked (S.may_leave store.old) rows (command channel asked.now) result left) }
    ensures sets { WhileClean (S.is_clean store.new) (S.stands_for store.old)
        (λ rows. S.leaves_sets store.old → S.leaves_sets store.new) }
{
    let Ok(prepared) = prepare(alloc, store, channel, asked) else {
        return Answer::Unavailable;
    };
    let Some((reply, change)) = prepared else {
        return match status_answer(alloc, StatusCode::NOT_FOUND) {
            Ok(bytes) => Answer::Given(bytes),
            Err(_) => Answer::Unavailable,
        };
    };
    let Ok(bytes) = reply_answer(alloc, &reply) else {
        return Answer::Unavailable;
    };
    match store.commit(channel, &change) {
        Ok(()) => Answer::Given(bytes),
        Err(_) => Answer::Unavailable,
    }
}

/// Answers the piece that was found at the front of the bytes, and does what it asks. Where none was, nothing is done.
pub fn answer_piece<S: RowStore>(
    alloc: Global,
    routes: &Routes,
    store: &mut S,
    bytes: &[u8],
    next: &FoundPiece,
) -> Answer
    requires { IsNext bytes.now next.now }
    ensures { OfPiece bytes.now next.now (λ p. HasAnswered S.is_clean S.stands_for S.may_leave S.leaves_sets
        store.old store.new (request_of p ∷ []) (result ∷ [])) }
{
    match ask_next(alloc, routes, bytes, next) {
        Ok(ParsedRequest::Command(channel, asked)) => answer_command(alloc, store, channel, &asked),
        Ok(ParsedRequest::Refused(status)) => refuse(alloc, status),
        Err(_) => Answer::Unavailable,
    }
}

// Answers bytes that are to be one message.
fn answer_with<S: RowStore>(alloc: Global, routes: &Routes, store: &mut S, message: &[u8]) -> Answer
    ensures { (a : Asked) × IsAskedBy message.now a
        × HasAnswered S.is_clean S.stands_for S.may_leave S.leaves_sets store.old store.new (a ∷ []) (result ∷ []) }
{
    match whole_piece(message) {
        Some(next) => answer_piece(alloc, routes, store, message, &next),
        None => refuse(alloc, HttpError::BadMessage),
    }
}

/// Answers one message, and does what it asks.
///
/// What it asks is what its one piece asks: a command of a channel, or an answer that is its own. Bytes that aren't
/// just one piece are a bad message. The answer's bytes stand before the change is committed, so one that is
/// [`Answer::Unavailable`] changed nothing.
pub fn answer<S: RowStore>(alloc: Global, store: &mut S, message: &[u8]) -> Answer
    ensures clean { S.is_clean store.new → S.is_clean store.old }
    ensures answer { WhileClean (S.is_clean store.new) (S.stands_for store.old)
        (λ rows. (a : Asked) × IsAskedBy message.now a × Answers rows a result
        × S.stands_for store.new (rows_left rows a result)) }
    // Where it is a command that was given its answer, the rows kept the integrity rules.
    ensures rules { WhileClean (S.is_clean store.new) (S.stands_for store.old)
        (λ rows. (a : Asked) → IsAskedBy message.now a → (kept_commands (a ∷ []) (result ∷ []) ≡ [])
        ⊎ KeepsRules rows) }
    // A stop leaves what it could leave before, or what is asked done whole; once it is acknowledged, this alone.
    ensures stop { WhileClean (S.is_clean store.new) (S.stands_for store.old)
        (λ rows. (a : Asked) → IsAskedBy message.now a → (left : Centre) → S.may_leave store.new left →
        stop_asked (S.may_leave store.old) rows a result left) }
    // All that a stop may leave holds a set, where it did before: also of a store that a fault of the disk has shut.
    ensures sets { WhileClean (S.is_clean store.new) (S.stands_for store.old)
        (λ rows. S.leaves_sets store.old → S.leaves_sets store.new) }
{
    let Some(next) = whole_piece(message) else {
        return refuse(alloc, HttpError::BadMessage);
    };
    match Routes::new(alloc) {
        Ok(routes) => answer_piece(alloc, &routes, store, message, &next),
        Err(_) => Answer::Unavailable,
    }
}

/// Answers messages in order. An `Err` means that nothing was done: all room is taken first.
pub fn answer_all<S: RowStore>(
    alloc: Global,
    store: &mut S,
    messages: &[Vec<u8>],
) -> Result<Vec<Answer>, Unavailable>
    ensures ok { IfOk result (λ answers. (asked : List Asked) × AreAskedBy (map (λ m. m.items) messages.now) asked
        × HasAnswered S.is_clean S.stands_for S.may_leave S.leaves_sets store.old store.new asked answers.items) }
    // What a channel is given for its commands is what its own machine says, whatever the others asked.
    ensures alone { WhileClean (S.is_clean store.new) (S.stands_for store.old)
        (λ rows. IfOk result (λ answers. (asked : List Asked) → AreAskedBy (map (λ m. m.items) messages.now) asked →
        (c : ℕ) → given_to c asked answers.items
        ≡ map bytes_of (solo_outcomes (view_of c rows) (feed c rows (kept_commands asked answers.items))))) }
    // Without the messages of no channel, and those of the channels that lend it nothing, it is the same.
    ensures purged { WhileClean (S.is_clean store.new) (S.stands_for store.old)
        (λ rows. IfOk result (λ answers. (asked : List Asked) → AreAskedBy (map (λ m. m.items) messages.now) asked →
        (c : ℕ) → given_to c asked answers.items
        ≡ map bytes_of (replies_to c rows (purge c rows (kept_commands asked answers.items))))) }
    // Over a closed part of a whole: what a channel of the part is given is what the whole says, and the rows
    // afterwards are the part of the whole's.
    ensures part { WhileClean (S.is_clean store.new) (S.stands_for store.old)
        (λ rows. IfOk result (λ answers. (asked : List Asked) → AreAskedBy (map (λ m. m.items) messages.now) asked →
        (mine : ℕ → Bool) (whole : Centre) (all : List Request) →
        IsClosedPart mine whole all rows (kept_commands asked answers.items) → (c : ℕ) → mine c ≡ true →
        given_to c asked answers.items ≡ map bytes_of (replies_to c whole all))) }
    ensures part_rows { WhileClean (S.is_clean store.new) (S.stands_for store.old)
        (λ rows. IfOk result (λ answers. (asked : List Asked) → AreAskedBy (map (λ m. m.items) messages.now) asked →
        (mine : ℕ → Bool) (whole : Centre) (all : List Request) →
        IsClosedPart mine whole all rows (kept_commands asked answers.items) →
        S.stands_for store.new (rows_part mine (after_all whole all)))) }
    // Over what was found of a run that was cut short: its rest, from the first message that isn't known to be done,
    // ends as the whole.
    ensures resumed { WhileClean (S.is_clean store.new) (S.stands_for store.old)
        (λ rows. IfOk result (λ answers. (asked : List Asked) → AreAskedBy (map (λ m. m.items) messages.now) asked →
        (first : Centre) (known : List Request) → KeepsRules first →
        MayBeFound first known (kept_commands asked answers.items) rows →
        S.stands_for store.new (after_all first (known ++ kept_commands asked answers.items)))) }
    ensures err { OnErr result (HasAnswered S.is_clean S.stands_for S.may_leave S.leaves_sets
        store.old store.new [] []) }
{
    let Ok(routes) = Routes::new(alloc) else {
        return Err(Unavailable);
    };
    let Ok(mut answers) = Vec::with_capacity(alloc, messages.len()) else {
        return Err(Unavailable);
    };
    for message in messages {
        let answer = answer_with(alloc, &routes, store, message);
        answers.push_reserved(answer);
    }
    Ok(answers)
}
