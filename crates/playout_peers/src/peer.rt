//! One connection among many: what it is at, and its turn.
ghost use Rattle.std.specs.Prelude.{◌≡◌, ◌<◌, ◌≤◌, List, length, drop, IfSome, IfNone};
ghost use Rattle.http_office_answers.specs.Answer.{unavailable_answer};
ghost use Rattle.http_office_answers.specs.declared.answers.Answer.{Answer};
ghost use Rattle.http_office_requests.specs.Piece.{Piece, IsPartial};
ghost use Rattle.playout_peers.specs.Wire.{Wire, LeavesOthers};
ghost use Rattle.playout_peers.specs.Turn.{Heard, Sent, Says, AnswersFront, IsOpen, ComesTo, TakesTurn};

use crate::door::{Door, Seat};
use channel_view_model::RowStore;
use http_office::{End, ServeFault, answer_piece};
use http_office_answers::Answer;
use http_office_requests::{FoundPiece, FramingProgress, Routes, next_piece};
use std::alloc::Global;
use std::io::{self, ErrorKind};

/// A connection that is open.
#[derive(Drop)]
pub(crate) struct Connection {
    pub(crate) seat: Seat,
    /// What was read of it and isn't answered.
    pub(crate) pending: Vec<u8>,
    /// When something came of it, or went to it.
    pub(crate) since: u64,
}

/// What a connection is at. One that is sent an answer isn't read meanwhile: so it has a message and an answer in
/// memory, and no more.
#[derive(Drop)]
pub(crate) enum Task {
    /// Its next message is awaited.
    Reads,
    /// The answer to its last message, of which so many bytes are written.
    Answers(Answer, usize),
    /// So an answer that ends it.
    Refuses(Answer, usize),
    /// There was no memory for what it sent, and it is told so.
    Starves(usize),
}

/// A connection, and what it is at.
#[derive(Drop)]
pub(crate) struct Peer {
    pub(crate) connection: Connection,
    pub(crate) task: Task,
}

/// What is left to do for a connection that stays open.
#[derive(Clone, Copy)]
pub(crate) enum Then {
    /// Nothing, until something comes.
    Waits,
    /// There may be more, once others had their turn.
    Yields,
    /// Its message, or the answer to it, is there.
    GoesOn,
}

/// What a step comes to.
#[derive(Drop)]
pub(crate) enum Turned {
    /// The connection stays open.
    Stays(Peer, Then),
    Ends(Result<End, ServeFault>),
}

/// What a read comes to.
#[derive(Clone, Copy)]
pub(crate) enum ReadOutcome {
    More,
    /// Nothing has come.
    Later,
    /// Its end.
    Closed,
    Broken,
    /// There was no memory for it.
    Starved,
}

/// What a write comes to.
#[derive(Clone, Copy)]
pub(crate) enum Said {
    /// All is written.
    All,
    /// The bytes up to this place are.
    Part(usize),
    /// No more can be.
    Fails,
}

/// What the front of what is pending comes to.
#[derive(Drop)]
pub(crate) enum Front {
    /// No whole message is there.
    Waits,
    /// The answer to the first.
    Answered(Answer),
    /// The answer to one that ends the connection.
    Last(Answer),
}

// Whether the call is to be made again later.
fn is_later(error: &io::Error) -> bool {
    matches!(error.kind(), ErrorKind::WouldBlock | ErrorKind::Interrupted)
}

// Makes one read, and puts what came behind what is pending. A connection has as many as it wants: one that stalls ends
// by its limit of time.
fn hear<D: Door>(door: &mut D, seat: Seat, buffer: &mut [u8], pending: &mut Vec<u8>) -> ReadOutcome
    requires { 0 < length buffer.old }
    ensures heard { Heard (D.wire door.old seat.number) (D.wire door.new seat.number) pending.old.items
        pending.new.items result }
    ensures others { LeavesOthers seat.number (D.wire door.old) (D.wire door.new) }
    ensures accepted { D.accepted door.new ≡ D.accepted door.old }
{
    match door.read(seat, buffer) {
        Ok(0) => ReadOutcome::Closed,
        Ok(count) => match pending.extend_from_slice(&buffer[..count]) {
            Ok(()) => ReadOutcome::More,
            Err(_) => ReadOutcome::Starved,
        },
        Err(error) => match is_later(&error) {
            true => ReadOutcome::Later,
            false => ReadOutcome::Broken,
        },
    }
}

// Makes one write of these bytes from a place on. A peer that is late and takes nothing has failed.
fn say<D: Door>(door: &mut D, seat: Seat, bytes: &[u8], from: usize, is_late: bool) -> Said
    ensures said { Says (D.wire door.old seat.number) (D.wire door.new seat.number) bytes.now from result }
    ensures others { LeavesOthers seat.number (D.wire door.old) (D.wire door.new) }
    ensures accepted { D.accepted door.new ≡ D.accepted door.old }
{
    if from >= bytes.len() {
        return Said::Fails;
    }
    match door.write(seat, &bytes[from..]) {
        Ok(0) => Said::Fails,
        Ok(count) if from + count == bytes.len() => Said::All,
        Ok(count) => Said::Part(from + count),
        Err(error) => match is_later(&error) && !is_late {
            true => Said::Part(from),
            false => Said::Fails,
        },
    }
}

// Takes the first n bytes out.
fn remove_front(pending: &mut Vec<u8>, n: usize)
    requires { n ≤ length pending.old.items }
    ensures { pending.new.items ≡ drop n pending.old.items }
{
    let left = pending.len() - n;
    pending.copy_within(n.., 0);
    pending.truncate(left);
}

// Answers the first message of what is pending, if a whole one is there.
fn answer_front<S: RowStore>(
    alloc: Global,
    routes: &Routes,
    store: &mut S,
    pending: &mut Vec<u8>,
) -> Front
    ensures { AnswersFront S.is_clean S.stands_for S.may_leave S.leaves_sets store.old store.new pending.old.items
        pending.new.items result }
{
    let next = next_piece(pending, FramingProgress::NOTHING);
    match next {
        FoundPiece::Partial(_) => Front::Waits,
        FoundPiece::Message(m) => {
            let answer = answer_piece(alloc, routes, store, pending, &next);
            remove_front(pending, m.len);
            Front::Answered(answer)
        }
        FoundPiece::Last(_, _) => Front::Last(answer_piece(alloc, routes, store, pending, &next)),
    }
}

// Some of what is written was taken, or nothing.
fn written(from: usize, to: usize) -> Then {
    if to > from { Then::Yields } else { Then::Waits }
}

fn stays(connection: Connection, task: Task, then: Then) -> Turned
    ensures { result ≡ Turned.Stays (record { connection = connection; task = task }) then }
{
    Turned::Stays(Peer { connection, task }, then)
}

// Reads of a connection that no whole message has come of.
fn listen<D: Door>(
    alloc: Global,
    door: &mut D,
    buffer: &mut [u8],
    is_late: bool,
    connection: Connection,
) -> Turned
    requires buffer { 0 < length buffer.old }
    requires waits { IsPartial connection.pending.items }
    ensures comes { (pieces : List Piece) (answers : List Answer) (first : Wire) →
        IsOpen pieces answers first (D.wire door.old connection.seat.number) connection.pending.items Task.Reads →
        ComesTo result pieces answers first (D.wire door.new connection.seat.number) connection.seat.number }
    ensures others { LeavesOthers connection.seat.number (D.wire door.old) (D.wire door.new) }
    ensures accepted { D.accepted door.new ≡ D.accepted door.old }
{
    let Connection {
        seat,
        mut pending,
        since,
    } = connection;
    match hear(door, seat, buffer, &mut pending) {
        ReadOutcome::More => stays(
            Connection {
                seat,
                pending,
                since,
            },
            Task::Reads,
            Then::GoesOn,
        ),
        ReadOutcome::Later if is_late => Turned::Ends(Err(ServeFault::Read)),
        ReadOutcome::Later => stays(
            Connection {
                seat,
                pending,
                since,
            },
            Task::Reads,
            Then::Waits,
        ),
        ReadOutcome::Closed if pending.is_empty() => Turned::Ends(Ok(End::Closed)),
        ReadOutcome::Closed => Turned::Ends(Ok(End::CutShort)),
        ReadOutcome::Broken => Turned::Ends(Err(ServeFault::Read)),
        ReadOutcome::Starved => stays(
            Connection {
                seat,
                pending: Vec::new(alloc),
                since,
            },
            Task::Starves(0),
            Then::GoesOn,
        ),
    }
}

// Answers the first message of a connection, or reads of it.
fn converse<S: RowStore, D: Door>(
    alloc: Global,
    routes: &Routes,
    store: &mut S,
    door: &mut D,
    buffer: &mut [u8],
    is_late: bool,
    connection: Connection,
) -> Turned
    requires { 0 < length buffer.old }
    ensures did { TakesTurn S.is_clean S.stands_for S.may_leave S.leaves_sets store.old store.new
        (D.wire door.old connection.seat.number) (D.wire door.new connection.seat.number)
        (record { connection = connection; task = Task.Reads }) result }
    ensures others { LeavesOthers connection.seat.number (D.wire door.old) (D.wire door.new) }
    ensures accepted { D.accepted door.new ≡ D.accepted door.old }
{
    let Connection {
        seat,
        mut pending,
        since,
    } = connection;
    let front = answer_front(alloc, routes, store, &mut pending);
    let connection = Connection {
        seat,
        pending,
        since,
    };
    match front {
        Front::Waits => listen(alloc, door, buffer, is_late, connection),
        Front::Answered(answer) => stays(connection, Task::Answers(answer, 0), Then::GoesOn),
        Front::Last(answer) => stays(connection, Task::Refuses(answer, 0), Then::GoesOn),
    }
}

// Writes the answer to the last message, behind which more may follow.
fn write_answer<D: Door>(
    door: &mut D,
    is_late: bool,
    connection: Connection,
    answer: Answer,
    sent: usize,
) -> Turned
    ensures comes { (pieces : List Piece) (answers : List Answer) (first : Wire) →
        IsOpen pieces answers first (D.wire door.old connection.seat.number) connection.pending.items
        (Task.Answers answer sent) →
        ComesTo result pieces answers first (D.wire door.new connection.seat.number) connection.seat.number }
    ensures others { LeavesOthers connection.seat.number (D.wire door.old) (D.wire door.new) }
    ensures accepted { D.accepted door.new ≡ D.accepted door.old }
{
    match say(door, connection.seat, answer.bytes(), sent, is_late) {
        Said::All => stays(connection, Task::Reads, Then::Yields),
        Said::Part(to) => stays(connection, Task::Answers(answer, to), written(sent, to)),
        Said::Fails => Turned::Ends(Err(ServeFault::Write)),
    }
}

// Writes the answer that ends the connection.
fn write_refusal<D: Door>(
    door: &mut D,
    is_late: bool,
    connection: Connection,
    answer: Answer,
    sent: usize,
) -> Turned
    ensures comes { (pieces : List Piece) (answers : List Answer) (first : Wire) →
        IsOpen pieces answers first (D.wire door.old connection.seat.number) connection.pending.items
        (Task.Refuses answer sent) →
        ComesTo result pieces answers first (D.wire door.new connection.seat.number) connection.seat.number }
    ensures others { LeavesOthers connection.seat.number (D.wire door.old) (D.wire door.new) }
    ensures accepted { D.accepted door.new ≡ D.accepted door.old }
{
    match say(door, connection.seat, answer.bytes(), sent, is_late) {
        Said::All => Turned::Ends(Ok(End::Refused)),
        Said::Part(to) => stays(connection, Task::Refuses(answer, to), written(sent, to)),
        Said::Fails => Turned::Ends(Err(ServeFault::Write)),
    }
}

// Writes that there was no memory, which ends the connection.
fn write_farewell<D: Door>(
    door: &mut D,
    is_late: bool,
    connection: Connection,
    sent: usize,
) -> Turned
    ensures comes { (pieces : List Piece) (answers : List Answer) (first : Wire) →
        IsOpen pieces answers first (D.wire door.old connection.seat.number) connection.pending.items
        (Task.Starves sent) →
        ComesTo result pieces answers first (D.wire door.new connection.seat.number) connection.seat.number }
    ensures others { LeavesOthers connection.seat.number (D.wire door.old) (D.wire door.new) }
    ensures accepted { D.accepted door.new ≡ D.accepted door.old }
{
    match say(
        door,
        connection.seat,
        Answer::Unavailable.bytes(),
        sent,
        is_late,
    ) {
        Said::Part(to) => stays(connection, Task::Starves(to), written(sent, to)),
        Said::All => Turned::Ends(Err(ServeFault::Memory)),
        Said::Fails => Turned::Ends(Err(ServeFault::Memory)),
    }
}

/// One step of a connection: a message is answered, or one read or one write is made. A peer that is late, and of which
/// nothing has come and to which nothing goes, is waited for no longer.
pub(crate) fn take_turn<S: RowStore, D: Door>(
    alloc: Global,
    routes: &Routes,
    store: &mut S,
    door: &mut D,
    buffer: &mut [u8],
    is_late: bool,
    peer: Peer,
) -> Turned
    requires { 0 < length buffer.old }
    ensures did { TakesTurn S.is_clean S.stands_for S.may_leave S.leaves_sets store.old store.new
        (D.wire door.old peer.connection.seat.number) (D.wire door.new peer.connection.seat.number) peer result }
    ensures others { LeavesOthers peer.connection.seat.number (D.wire door.old) (D.wire door.new) }
    ensures accepted { D.accepted door.new ≡ D.accepted door.old }
{
    let Peer { connection, task } = peer;
    match task {
        Task::Reads => converse(alloc, routes, store, door, buffer, is_late, connection),
        Task::Answers(answer, sent) => write_answer(door, is_late, connection, answer, sent),
        Task::Refuses(answer, sent) => write_refusal(door, is_late, connection, answer, sent),
        Task::Starves(sent) => write_farewell(door, is_late, connection, sent),
    }
}
