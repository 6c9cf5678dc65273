//! Connections that are open at once.
ghost use Rattle.std.specs.Prelude.{◌≡◌, ◌<◌, ◌≤◌, ◌^◌, ◌-◌, ◌+◌, ◌&&◌, ℕ, [], true, false};
ghost use Rattle.std.specs.Prelude.{get_or, length, IfSome, IfOk};
ghost use Rattle.playout_lists.specs.Fault.{line_of};
ghost use Rattle.playout_lists.specs.Telling.{has_told, Tells, TellsAll};
ghost use Rattle.playout_lists.specs.declared.fault.Fault.TheVariants.{Stream};
ghost use Rattle.playout_lists.specs.declared.streams.StreamFault.TheVariants.{Input};
ghost use Rattle.playout_peers.specs.Wire.{LeavesAll};
ghost use Rattle.playout_peers.specs.Peers.{ServesPeers, line_at, over, is_well, stream_fault_of};
ghost use Rattle.playout_peers.specs.Serving.{GoesOn, Admits, IsNew, KeepsOthers};

use crate::door::{Door, Seat};
use crate::peer::{Connection, Peer, Task, Then, Turned, take_turn};
use crate::rota::Rota;
use channel_view_model::RowStore;
use http_office::{End, ServeFault};
use http_office_requests::Routes;
use playout_lists::{Fault, FaultLines, FaultWriter, InputFault, StreamFault};
use std::alloc::{AllocError, Global};
use std::io;
use timecode::Unavailable;

/// How many bytes are asked of a connection at once.
const READ_SIZE: usize = 32_768;

/// How many steps a turn has at most: a read, an answer, and a write.
const STEPS: u32 = 3;

/// How many connections are found at once to be ready at most.
const MOST_AT_ONCE: u32 = 1_024;

/// How many connections may be open at once, how many are served in all, and how many seconds a peer is waited for.
#[derive(Clone, Copy)]
pub struct Limits {
    pub peers: u16,
    pub turns: u64,
    pub idle: u16,
}

/// What is done for all connections with.
#[derive(Drop)]
struct Means {
    alloc: Global,
    routes: Routes,
    buffer: Vec<u8>,
}

/// The connections that are open, by their places, and what has come of the others.
#[derive(Drop)]
struct Peers {
    places: Vec<Option<Peer>>,
    /// How many are open.
    open: usize,
    /// How many have ended.
    ended: u64,
    /// Nothing has had a fault.
    is_quiet: bool,
    /// The last one couldn't be accepted, which is said once. It is tried again at each look, a second apart at most.
    is_stuck: bool,
}

impl Means {
    fn new(alloc: Global) -> Result<Means, Unavailable>
        ensures { IfOk result (λ means. 0 < length means.buffer.items) }
    {
        let routes = Routes::new(alloc)?;
        match vec![in alloc; 0; READ_SIZE] {
            Ok(buffer) => Ok(Means {
                alloc,
                routes,
                buffer,
            }),
            Err(_) => Err(Unavailable),
        }
    }
}

// So many places, at which nobody is.
fn empty_places(alloc: Global, count: usize) -> Result<Vec<Option<Peer>>, AllocError>
    ensures { IfOk result (λ places. (i : ℕ) → get_or places.items i None ≡ None) }
{
    let mut places = Vec::with_capacity(alloc, count)?;
    for _ in 0..count {
        places.push(None)?;
    }
    Ok(places)
}

impl Peers {
    fn new(alloc: Global, count: usize) -> Result<Peers, AllocError>
        ensures places { IfOk result (λ peers. (i : ℕ) → get_or peers.places.items i None ≡ None) }
        ensures none { IfOk result (λ peers. peers.ended ≡ 0) }
        ensures quiet { IfOk result (λ peers. peers.is_quiet ≡ true) }
    {
        Ok(Peers {
            places: empty_places(alloc, count)?,
            open: 0,
            ended: 0,
            is_quiet: true,
            is_stuck: false,
        })
    }
}

/// What came of a knock.
#[derive(Clone, Copy)]
enum Knock {
    Came,
    /// Nobody came, or it was said before that nobody can.
    Nobody,
    Failed,
}

fn is_free(places: &[Option<Peer>], place: usize) -> bool
    ensures { result ≡ true → (place < length places.now) × (get_or places.now place None ≡ None) }
{
    matches!(places.get(place), Some(None))
}

fn take_at(places: &mut Vec<Option<Peer>>, place: usize) -> Option<Peer>
    ensures taken { result ≡ get_or places.old.items place None }
    ensures here { get_or places.new.items place None ≡ None }
    ensures others { KeepsOthers place places.old.items places.new.items }
    ensures len { length places.new.items ≡ length places.old.items }
{
    if place >= places.len() {
        return None;
    }
    places[place].take()
}

fn put_at(places: &mut Vec<Option<Peer>>, place: usize, peer: Peer)
    requires { place < length places.old.items }
    ensures here { get_or places.new.items place None ≡ Some peer }
    ensures others { KeepsOthers place places.old.items places.new.items }
    ensures len { length places.new.items ≡ length places.old.items }
{
    places[place] = Some(peer);
}

// When something came of it or went to it, it is waited for anew.
fn stamped(peer: Peer, then: Then, now: u64) -> Peer
    ensures task { result.task ≡ peer.task }
    ensures seat { result.connection.seat ≡ peer.connection.seat }
    ensures pending { result.connection.pending ≡ peer.connection.pending }
{
    let Peer { connection, task } = peer;
    let Connection {
        seat,
        pending,
        since,
    } = connection;
    let since = match then {
        Then::Waits => since,
        Then::Yields | Then::GoesOn => now,
    };
    Peer {
        connection: Connection {
            seat,
            pending,
            since,
        },
        task,
    }
}

// A connection's fault, as it is told.
fn stream_fault(fault: ServeFault) -> StreamFault
    ensures { result ≡ stream_fault_of fault }
{
    match fault {
        ServeFault::Read => StreamFault::Input(InputFault::Read),
        ServeFault::Write => StreamFault::Write,
        ServeFault::Memory => StreamFault::Input(InputFault::Unavailable),
    }
}

// The fault of a connection that ended so, if it had one, is said. Whether nothing has had a fault then.
fn report_end<E: FaultWriter>(
    how: Result<End, ServeFault>,
    was_quiet: bool,
    faults: &mut FaultLines<E>,
) -> bool
    ensures told { (number : ℕ) → TellsAll (has_told E.contents faults.old) (has_told E.contents faults.new)
        (line_at (over number how)) }
    ensures well { (number : ℕ) → result ≡ (was_quiet && is_well (over number how)) }
    ensures hushed { result ≡ true → has_told E.contents faults.new ≡ has_told E.contents faults.old }
{
    match how {
        Ok(_) => was_quiet,
        Err(fault) => {
            faults.report(Fault::Stream(stream_fault(fault)));
            false
        }
    }
}

// Makes a step of the connection at a place, if one is there.
fn step_at<S: RowStore, D: Door, E: FaultWriter>(
    means: &mut Means,
    store: &mut S,
    door: &mut D,
    peers: &mut Peers,
    place: usize,
    idle: u16,
    faults: &mut FaultLines<E>,
) -> Then
    requires buffer { 0 < length means.old.buffer.items }
    requires count { peers.old.ended < 2 ^ 64 - 1 }
    ensures goes_on { GoesOn S.is_clean S.stands_for S.may_leave S.leaves_sets
        store.old store.new (D.wire door.old) (D.wire door.new)
        (D.accepted door.old) (D.accepted door.new) peers.old peers.new
        (has_told E.contents faults.old) (has_told E.contents faults.new) }
    ensures buffer { length means.new.buffer.items ≡ length means.old.buffer.items }
    ensures count { peers.new.ended ≤ peers.old.ended + 1 }
    ensures stays { result ≡ Then.GoesOn → peers.new.ended ≡ peers.old.ended }
{
    let Some(peer) = take_at(&mut peers.places, place) else {
        return Then::Waits;
    };
    let seat = peer.connection.seat;
    prove!(place < peers.places.len());
    let now = door.now();
    let is_late = now.saturating_sub(peer.connection.since) >= u64::from(idle) * 1_000;
    match take_turn(
        means.alloc,
        &means.routes,
        store,
        door,
        &mut means.buffer,
        is_late,
        peer,
    ) {
        Turned::Stays(peer, then) => {
            put_at(&mut peers.places, place, stamped(peer, then, now));
            then
        }
        Turned::Ends(how) => {
            door.close(seat);
            peers.is_quiet = report_end(how, peers.is_quiet, faults);
            peers.ended += 1;
            peers.open = peers.open.saturating_sub(1);
            Then::Waits
        }
    }
}

// A connection of which nothing was read.
fn peer_of(alloc: Global, seat: Seat, since: u64) -> Peer
    ensures { IsNew result seat.number }
{
    Peer {
        connection: Connection {
            seat,
            pending: Vec::new(alloc),
            since,
        },
        task: Task::Reads,
    }
}

// Accepts the next connection, if one waits, at a place that is free.
fn accept_at<D: Door, E: FaultWriter>(
    alloc: Global,
    door: &mut D,
    peers: &mut Peers,
    place: usize,
    faults: &mut FaultLines<E>,
) -> Knock
    ensures { Admits (D.wire door.old) (D.wire door.new) (D.accepted door.old) (D.accepted door.new) peers.old peers.new
        place (has_told E.contents faults.old) (has_told E.contents faults.new) result }
{
    if !is_free(&peers.places, place) {
        return Knock::Nobody;
    }
    match door.accept(place) {
        Ok(Some(number)) => {
            let since = door.now();
            let seat = Seat { place, number };
            put_at(&mut peers.places, place, peer_of(alloc, seat, since));
            peers.open = peers.open.saturating_add(1);
            peers.is_stuck = false;
            Knock::Came
        }
        Ok(None) => Knock::Nobody,
        Err(_) if peers.is_stuck => Knock::Nobody,
        Err(_) => {
            peers.is_stuck = true;
            peers.is_quiet = false;
            faults.report(Fault::Stream(StreamFault::Input(InputFault::Read)));
            Knock::Failed
        }
    }
}

// Waits until something comes, where nobody has a turn, and else looks for what has come. It comes to its turn.
fn look_round<D: Door>(door: &mut D, rota: &mut Rota) -> io::Result<()>
    ensures accepted { D.accepted door.new ≡ D.accepted door.old }
    ensures wires { LeavesAll (D.wire door.old) (D.wire door.new) }
{
    door.wait(rota.is_empty())?;
    for _ in 0..MOST_AT_ONCE {
        match door.next_ready() {
            Some(place) => rota.add(place),
            None => break,
        }
    }
    rota.look(door.now());
    Ok(())
}

// Lets the next connection in, if one knocks and there is a place for it.
fn answer_door<D: Door, E: FaultWriter>(
    alloc: Global,
    door: &mut D,
    peers: &mut Peers,
    rota: &mut Rota,
    faults: &mut FaultLines<E>,
) -> Knock
    ensures { (place : ℕ) × Admits (D.wire door.old) (D.wire door.new) (D.accepted door.old) (D.accepted door.new)
        peers.old peers.new place (has_told E.contents faults.old) (has_told E.contents faults.new) result }
{
    if !door.is_knocked() || peers.open >= peers.places.len() {
        return Knock::Nobody;
    }
    match peers.places.iter().position(|it| it.is_none()) {
        Some(place) => {
            rota.add(place);
            accept_at(alloc, door, peers, place, faults)
        }
        None => Knock::Nobody,
    }
}

// Gives the connection at a place its turn: it is read, one message is answered, and the answer is written.
fn take_turn_at<S: RowStore, D: Door, E: FaultWriter>(
    means: &mut Means,
    store: &mut S,
    door: &mut D,
    peers: &mut Peers,
    rota: &mut Rota,
    place: usize,
    idle: u16,
    faults: &mut FaultLines<E>,
)
    requires buffer { 0 < length means.old.buffer.items }
    requires count { peers.old.ended < 2 ^ 64 - 1 }
    ensures goes_on { GoesOn S.is_clean S.stands_for S.may_leave S.leaves_sets
        store.old store.new (D.wire door.old) (D.wire door.new)
        (D.accepted door.old) (D.accepted door.new) peers.old peers.new
        (has_told E.contents faults.old) (has_told E.contents faults.new) }
    ensures buffer { length means.new.buffer.items ≡ length means.old.buffer.items }
    ensures count { peers.new.ended ≤ peers.old.ended + 1 }
{
    for _ in 0..STEPS {
        match step_at(means, store, door, peers, place, idle, faults) {
            Then::GoesOn => {}
            Then::Yields => {
                rota.add(place);
                return;
            }
            Then::Waits => return,
        }
    }
    rota.add(place);
}

// Lets one in, if one knocks, and gives one its turn; or looks round, where it is time to. Whether that could be done.
fn go_round<S: RowStore, D: Door, E: FaultWriter>(
    means: &mut Means,
    store: &mut S,
    door: &mut D,
    peers: &mut Peers,
    rota: &mut Rota,
    idle: u16,
    faults: &mut FaultLines<E>,
) -> bool
    requires buffer { 0 < length means.old.buffer.items }
    requires count { peers.old.ended < 2 ^ 64 - 1 }
    ensures goes_on { GoesOn S.is_clean S.stands_for S.may_leave S.leaves_sets
        store.old store.new (D.wire door.old) (D.wire door.new)
        (D.accepted door.old) (D.accepted door.new) peers.old peers.new
        (has_told E.contents faults.old) (has_told E.contents faults.new) }
    ensures buffer { length means.new.buffer.items ≡ length means.old.buffer.items }
    ensures count { peers.new.ended ≤ peers.old.ended + 1 }
{
    answer_door(means.alloc, door, peers, rota, faults);
    let Some(place) = rota.next() else {
        return look_round(door, rota).is_ok();
    };
    take_turn_at(means, store, door, peers, rota, place, idle, faults);
    true
}

// Says a fault that is no connection's, and that it isn't quiet.
fn fail<E: FaultWriter>(fault: InputFault, faults: &mut FaultLines<E>) -> bool
    ensures told { Tells (has_told E.contents faults.old) (has_told E.contents faults.new)
        (line_of (Stream (Input fault))) }
    ensures result { result ≡ false }
{
    faults.report(Fault::Stream(StreamFault::Input(fault)));
    false
}

// Serves the connections that are let in, until so many have ended. Whether nothing had a fault.
fn serve_rounds<S: RowStore, D: Door, E: FaultWriter>(
    means: &mut Means,
    store: &mut S,
    door: &mut D,
    peers: &mut Peers,
    rota: &mut Rota,
    limits: Limits,
    faults: &mut FaultLines<E>,
) -> bool
    requires buffer { 0 < length means.old.buffer.items }
    requires places { (i : ℕ) → get_or peers.old.places.items i None ≡ None }
    requires none { peers.old.ended ≡ 0 }
    requires quiet { peers.old.is_quiet ≡ true }
    ensures did { ServesPeers S.is_clean S.stands_for S.may_leave S.leaves_sets store.old store.new (D.wire door.old)
        (D.wire door.new) limits.turns (has_told E.contents faults.old) (has_told E.contents faults.new) result }
    ensures quiet { result ≡ true → has_told E.contents faults.new ≡ has_told E.contents faults.old }
{
    for _ in 0..u64::MAX {
        if peers.ended >= limits.turns {
            return peers.is_quiet;
        }
        if !go_round(means, store, door, peers, rota, limits.idle, faults) {
            return fail(InputFault::Read, faults);
        }
    }
    fail(InputFault::Read, faults)
}

/// Serves connections, so many of which are open at once at most, until so many have ended. Whether nothing had a
/// fault.
///
/// A message is answered once it is whole, in its connection's order, and of each connection one at a time, so that
/// none waits for another's peer, and not longer for another's messages than for one. What a peer doesn't take is kept,
/// one answer at most, and it isn't read meanwhile. A connection ends with its input, with a message whose answer ends
/// it, with a fault of its own, which is said in one line, or where nothing comes of it or goes to it for so many
/// seconds. One for whose message there is no memory is told so, and ends. Where none can be accepted, that is said
/// once, and tried again; a wait that fails ends the serving.
pub fn serve_peers<S: RowStore, D: Door, E: FaultWriter>(
    alloc: Global,
    store: &mut S,
    door: &mut D,
    limits: Limits,
    faults: &mut FaultLines<E>,
) -> bool
    ensures did { ServesPeers S.is_clean S.stands_for S.may_leave S.leaves_sets store.old store.new (D.wire door.old)
        (D.wire door.new) limits.turns (has_told E.contents faults.old) (has_told E.contents faults.new) result }
    ensures quiet { result ≡ true → has_told E.contents faults.new ≡ has_told E.contents faults.old }
{
    let Ok(mut means) = Means::new(alloc) else {
        return fail(InputFault::Unavailable, faults);
    };
    let Ok(mut peers) = Peers::new(alloc, usize::from(limits.peers)) else {
        return fail(InputFault::Unavailable, faults);
    };
    let Ok(mut rota) = Rota::new(alloc, usize::from(limits.peers)) else {
        return fail(InputFault::Unavailable, faults);
    };
    serve_rounds(
        &mut means, store, door, &mut peers, &mut rota, limits, faults,
    )
}
