//! What accepts connections, and reads and writes them.
ghost use Rattle.std.specs.Prelude.{◌≡◌, ℕ};
ghost use Rattle.std.specs.Io.{ReadsAtMost, WritesAtMost};
ghost use Rattle.playout_peers.specs.Wire.{Wire, LeavesAll, LeavesOthers, IsRead, IsWritten, IsNumbered};

use std::io;

/// A connection: its place among those that are open, and its number among all, the first of which is 0.
#[derive(Clone, Copy, PartialEq, Eq)]
pub struct Seat {
    pub place: usize,
    pub number: u64,
}

/// What accepts connections, and reads and writes them without waiting for their peers.
///
/// Its clauses tell a connection by its number, and say of each call what it leaves to be read of it, and what was
/// written to it. So whoever serves any of these can say what was written to each connection.
pub trait Door {
    /// How many were accepted.
    ghost accepted: { Self → ℕ };

    /// What each connection has left to be read, and what was written to it.
    ghost wire: { Self → ℕ → Wire };

    /// Waits until something comes, a second at most, or looks for what has.
    fn wait(&mut self, may_sleep: bool) -> io::Result<()>
        ensures accepted { accepted self.new ≡ accepted self.old }
        ensures wires { LeavesAll (wire self.old) (wire self.new) };

    /// The place of a connection to which something has come, or that takes more; each once.
    fn next_ready(&mut self) -> Option<usize>
        ensures accepted { accepted self.new ≡ accepted self.old }
        ensures wires { LeavesAll (wire self.old) (wire self.new) };

    /// Whether a connection may wait to be accepted.
    fn is_knocked(&self) -> bool;

    /// Accepts the next connection, if one waits, and gives it this place. Its number.
    fn accept(&mut self, place: usize) -> io::Result<Option<u64>>
        ensures number { IsNumbered (accepted self.old) (accepted self.new) result }
        ensures wires { LeavesAll (wire self.old) (wire self.new) };

    /// Reads what has come. `WouldBlock` says that nothing has.
    fn read(&mut self, seat: Seat, buffer: &mut [u8]) -> io::Result<usize>
        ensures bound { ReadsAtMost result buffer.new }
        ensures bytes { IsRead (wire self.old seat.number) (wire self.new seat.number) result buffer.new }
        ensures others { LeavesOthers seat.number (wire self.old) (wire self.new) }
        ensures accepted { accepted self.new ≡ accepted self.old };

    /// Writes what is taken of these bytes. `WouldBlock` says that nothing is.
    fn write(&mut self, seat: Seat, bytes: &[u8]) -> io::Result<usize>
        ensures bound { WritesAtMost result bytes.now }
        ensures bytes { IsWritten (wire self.old seat.number) (wire self.new seat.number) result bytes.now }
        ensures others { LeavesOthers seat.number (wire self.old) (wire self.new) }
        ensures accepted { accepted self.new ≡ accepted self.old };

    /// Closes the connection.
    fn close(&mut self, seat: Seat)
        ensures accepted { accepted self.new ≡ accepted self.old }
        ensures wires { LeavesAll (wire self.old) (wire self.new) };

    /// Milliseconds, from any moment on.
    fn now(&self) -> u64;
}
