//! Connections of a port of this machine. No contract knows what a socket gives or takes.
ghost use Rattle.std.specs.Prelude.{◌≡◌, IfOk};
ghost use Rattle.playout_peers.specs.Wire.{Wire};

use crate::door::{Door, Seat};
use mio::net::{TcpListener, TcpStream};
use mio::{Events, Interest, Poll, Token};
use std::alloc::{AllocError, Global};
use std::io::{self, ErrorKind, Read, Write};
use std::net::{Net, SocketAddr};
use std::time::{Clock, Duration};

/// How many events one wait gives at most.
const MOST_EVENTS: usize = 1_024;

/// Under this the listener is reported.
const LISTENER: Token = Token(usize::MAX);

/// An open connection, and its number.
#[derive(Drop)]
struct Socket {
    number: u64,
    stream: TcpStream,
}

/// The connections of one port.
#[derive(Drop)]
pub struct Sockets<'a, C> {
    clock: &'a C,
    poll: Poll,
    events: Events,
    listener: TcpListener,
    /// By their places.
    sockets: Vec<Option<Socket>>,
    /// The places of those that were found to be ready.
    ready: Vec<usize>,
    is_knocked: bool,
    accepted: u64,
}

// Puts the tokens of what is ready behind the others. Whether the listener is.
fn note(events: &Events, ready: &mut Vec<usize>) -> Result<bool, AllocError> {
    let mut is_knocked = false;
    for event in events {
        let token = event.token();
        if token == LISTENER {
            is_knocked = true;
        } else {
            ready.push(token.0)?;
        }
    }
    Ok(is_knocked)
}

fn no_sockets(alloc: Global, places: usize) -> Result<Vec<Option<Socket>>, AllocError> {
    let mut sockets = Vec::with_capacity(alloc, places)?;
    for _ in 0..places {
        sockets.push(None)?;
    }
    Ok(sockets)
}

// Why nobody was accepted: nobody waits, a peer left before, or it fails.
fn not_accepted(is_knocked: &mut bool, error: io::Error) -> io::Result<Option<u64>>
    ensures { IfOk result (λ number. number ≡ None) }
{
    match error.kind() {
        ErrorKind::WouldBlock => {
            *is_knocked = false;
            Ok(None)
        }
        ErrorKind::Interrupted | ErrorKind::ConnectionAborted => Ok(None),
        _ => Err(error),
    }
}

impl<'a, C: Clock> Sockets<'a, C> {
    /// Listens on this address, for so many connections at once.
    pub fn listen<N: Net>(
        net: &N,
        clock: &'a C,
        alloc: Global,
        address: SocketAddr,
        places: usize,
    ) -> io::Result<Sockets<'a, C>> {
        let poll = Poll::new(net)?;
        let mut listener = TcpListener::bind(net, address)?;
        poll.registry()
            .register(&mut listener, LISTENER, Interest::READABLE)?;
        Ok(Sockets {
            clock,
            poll,
            events: Events::with_capacity(alloc, MOST_EVENTS)?,
            listener,
            sockets: no_sockets(alloc, places)?,
            ready: Vec::with_capacity(alloc, MOST_EVENTS)?,
            is_knocked: true,
            accepted: 0,
        })
    }

    /// The port.
    pub fn port(&self) -> io::Result<u16> {
        Ok(self.listener.local_addr()?.port())
    }

    // The connection in a seat.
    fn stream_at(&self, seat: Seat) -> io::Result<&TcpStream> {
        match self.sockets.get(seat.place) {
            Some(Some(socket)) if socket.number == seat.number => Ok(&socket.stream),
            _ => Err(io::Error::from(ErrorKind::NotConnected)),
        }
    }

    // Has what comes of a connection, and what it takes, reported under its place.
    fn register(&self, stream: &mut TcpStream, place: usize) -> io::Result<()> {
        let interest = Interest::READABLE | Interest::WRITABLE;
        self.poll
            .registry()
            .register(stream, Token(place), interest)
    }
}

impl<C: Clock> Door for Sockets<'_, C> {
    ghost use Rattle.playout_peers.specs.Wire.{unknown};

    ghost accepted = { λ door. door.accepted };

    ghost wire = { λ _ _. unknown };

    fn wait(&mut self, may_sleep: bool) -> io::Result<()> {
        let limit = Duration::from_secs(u64::from(may_sleep));
        self.poll.poll(&mut self.events, Some(limit))?;
        if note(&self.events, &mut self.ready)? {
            self.is_knocked = true;
        }
        Ok(())
    }

    fn next_ready(&mut self) -> Option<usize> {
        self.ready.pop()
    }

    fn is_knocked(&self) -> bool {
        self.is_knocked
    }

    fn accept(&mut self, place: usize) -> io::Result<Option<u64>> {
        let number = self.accepted;
        let Some(accepted) = number.checked_add(1) else {
            return Ok(None);
        };
        let mut stream = match self.listener.accept() {
            Ok((stream, _)) => stream,
            Err(error) => return not_accepted(&mut self.is_knocked, error),
        };
        stream.set_nodelay(true)?;
        self.register(&mut stream, place)?;
        let Some(slot) = self.sockets.get_mut(place) else {
            return Err(io::Error::from(ErrorKind::InvalidInput));
        };
        *slot = Some(Socket { number, stream });
        self.accepted = accepted;
        Ok(Some(number))
    }

    fn read(&mut self, seat: Seat, buffer: &mut [u8]) -> io::Result<usize> {
        let mut stream = self.stream_at(seat)?;
        stream.read(buffer)
    }

    fn write(&mut self, seat: Seat, bytes: &[u8]) -> io::Result<usize> {
        let mut stream = self.stream_at(seat)?;
        stream.write(bytes)
    }

    fn close(&mut self, seat: Seat) {
        if let Some(slot) = self.sockets.get_mut(seat.place) {
            *slot = None;
        }
    }

    fn now(&self) -> u64 {
        match self.clock.monotonic() {
            Ok(time) => time
                .as_secs()
                .saturating_mul(1_000)
                .saturating_add(u64::from(time.subsec_millis())),
            Err(_) => 0,
        }
    }
}
