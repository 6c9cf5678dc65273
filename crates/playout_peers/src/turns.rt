//! Connections, one after another: the next one is accepted once the one before it has ended.
ghost use Rattle.std.specs.Prelude.{◌≡◌, true, IfSome};
ghost use Rattle.playout_lists.specs.Limits.{IsLimited};
ghost use Rattle.playout_lists.specs.Telling.{has_told};
ghost use Rattle.playout_peers.specs.Wire.{unknown, WaitedFor};
ghost use Rattle.playout_peers.specs.Peers.{ServesPeers};

use crate::door::{Door, Seat};
use crate::serving::{Limits, serve_peers};
use channel_view_model::RowStore;
use playout_lists::{FaultLines, FaultWriter, Limited, limit};
use std::alloc::Global;
use std::io::{self, ErrorKind, Read, Write};
use std::net::{TcpListener, TcpStream};

/// Seconds that a peer is waited for, where nothing else is said.
const IDLE: u16 = 30;

/// The connection that is open, and its number. One for which no limit of time could be set has no stream.
#[derive(Drop)]
struct Open {
    number: u64,
    stream: Option<TcpStream>,
}

/// A listener whose connections are waited for, each of which has limits of time. One is open at once. Where one can't
/// be accepted, the next wait fails.
#[derive(Drop)]
pub struct InTurn<'a> {
    listener: &'a TcpListener,
    idle: u16,
    open: Option<Open>,
    accepted: u64,
    /// It is open, and nobody was told so since the last look.
    is_ready: bool,
    /// None can be accepted.
    has_failed: bool,
}

// The connection, if each read and each write of it may wait so many seconds at most.
fn limited<C: Limited + Drop>(connection: C, idle: u16) -> Option<C>
    ensures { IfSome result (λ it. IsLimited C.limits_reads C.limits_writes it idle) }
{
    match limit(&connection, idle) {
        Ok(()) => Some(connection),
        Err(_) => None,
    }
}

// What a read or a write comes to that was waited for. One that waited for its limit has failed.
fn waited_for(done: io::Result<usize>) -> io::Result<usize>
    ensures { WaitedFor done result }
{
    match done {
        Err(error) if error.kind() == ErrorKind::WouldBlock => {
            Err(io::Error::from(ErrorKind::TimedOut))
        }
        done => done,
    }
}

impl<'a> InTurn<'a> {
    /// Its peers are waited for so many seconds at once.
    pub fn new(listener: &'a TcpListener, idle: u16) -> InTurn<'a> {
        InTurn {
            listener,
            idle,
            open: None,
            accepted: 0,
            is_ready: false,
            has_failed: false,
        }
    }

    // The connection in a seat.
    fn stream_at(&self, seat: Seat) -> io::Result<&TcpStream> {
        match &self.open {
            Some(
                Open {
                    number,
                    stream: Some(stream),
                },
            ) if *number == seat.number => Ok(stream),
            _ => Err(io::Error::from(ErrorKind::NotConnected)),
        }
    }
}

impl Door for InTurn<'_> {
    ghost use Rattle.playout_peers.specs.Wire.{unknown};

    ghost accepted = { λ door. door.accepted };

    ghost wire = { λ _ _. unknown };

    fn wait(&mut self, _may_sleep: bool) -> io::Result<()> {
        if self.has_failed {
            return Err(io::Error::from(ErrorKind::Other));
        }
        self.is_ready = self.open.is_some();
        Ok(())
    }

    fn next_ready(&mut self) -> Option<usize> {
        if !self.is_ready {
            return None;
        }
        self.is_ready = false;
        Some(0)
    }

    fn is_knocked(&self) -> bool {
        self.open.is_none() && !self.has_failed
    }

    fn accept(&mut self, _place: usize) -> io::Result<Option<u64>> {
        let number = self.accepted;
        let (Some(accepted), Ok((stream, _))) = (number.checked_add(1), self.listener.accept())
        else {
            self.has_failed = true;
            return Ok(None);
        };
        self.open = Some(Open {
            number,
            stream: limited(stream, self.idle),
        });
        self.accepted = accepted;
        Ok(Some(number))
    }

    fn read(&mut self, seat: Seat, buffer: &mut [u8]) -> io::Result<usize> {
        let mut stream = self.stream_at(seat)?;
        waited_for(stream.read(buffer))
    }

    fn write(&mut self, seat: Seat, bytes: &[u8]) -> io::Result<usize> {
        let mut stream = self.stream_at(seat)?;
        waited_for(stream.write(bytes))
    }

    fn close(&mut self, _seat: Seat) {
        self.open = None;
    }

    fn now(&self) -> u64 {
        0
    }
}

/// Serves as many connections, one at a time, each from its own first byte. Whether none had a fault.
///
/// A fault of a connection is said in one line, and counts as its turn. It has one where a peer says nothing, or takes
/// nothing, for 30 seconds. Where none can be accepted, that is a `read fault`, and ends it.
pub fn serve_turns<S: RowStore, E: FaultWriter>(
    alloc: Global,
    store: &mut S,
    listener: &TcpListener,
    turns: u32,
    faults: &mut FaultLines<E>,
) -> bool
    ensures did { ServesPeers S.is_clean S.stands_for S.may_leave S.leaves_sets
        store.old store.new (λ n. unknown) (λ n. unknown)
        turns (has_told E.contents faults.old) (has_told E.contents faults.new) result }
    ensures quiet { result ≡ true → has_told E.contents faults.new ≡ has_told E.contents faults.old }
{
    serve_turns_within(alloc, store, listener, turns, IDLE, faults)
}

/// The same, where a peer is waited for so many seconds.
pub fn serve_turns_within<S: RowStore, E: FaultWriter>(
    alloc: Global,
    store: &mut S,
    listener: &TcpListener,
    turns: u32,
    idle: u16,
    faults: &mut FaultLines<E>,
) -> bool
    ensures did { ServesPeers S.is_clean S.stands_for S.may_leave S.leaves_sets
        store.old store.new (λ n. unknown) (λ n. unknown)
        turns (has_told E.contents faults.old) (has_told E.contents faults.new) result }
    ensures quiet { result ≡ true → has_told E.contents faults.new ≡ has_told E.contents faults.old }
{
    let mut door = InTurn::new(listener, idle);
    let limits = Limits {
        peers: 1,
        turns: u64::from(turns),
        // The door itself waits no longer.
        idle,
    };
    serve_peers(alloc, store, &mut door, limits, faults)
}
