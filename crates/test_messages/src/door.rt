//! Connections in memory, to which things happen by chance.
ghost use Rattle.std.specs.Io.{ReadsAtMost, WritesAtMost};

use playout_peers::{Door, Seat};
use rand_core::{Rng, SeedableRng};
use rand_xoshiro::Xoshiro256PlusPlus;
use std::alloc::{AllocError, Global};
use std::io::{self, Error, ErrorKind};

/// One connection: what it sends, how much of that has come and was read, and what was written to it.
#[derive(Drop)]
pub(crate) struct Wire {
    pub(crate) sends: Vec<u8>,
    pub(crate) come: usize,
    pub(crate) read: usize,
    /// It sends no more.
    pub(crate) is_over: bool,
    /// How many bytes it takes.
    pub(crate) takes: usize,
    pub(crate) got: Vec<u8>,
    pub(crate) is_broken: bool,
    /// Its place, while it is open.
    pub(crate) place: Option<usize>,
}

impl Wire {
    /// It sends these bytes, of which none has come.
    pub(crate) fn of(alloc: Global, sends: Vec<u8>) -> Wire {
        Wire {
            sends,
            come: 0,
            read: 0,
            is_over: false,
            takes: 0,
            got: Vec::new(alloc),
            is_broken: false,
            place: None,
        }
    }

    /// All of it has come, and it takes all.
    pub(crate) fn settle(&mut self) {
        self.come = self.sends.len();
        self.takes = usize::MAX;
        self.is_over = true;
    }
}

/// Connections, and what happens to them.
#[derive(Drop)]
pub(crate) struct World {
    pub(crate) wires: Vec<Wire>,
    /// How many have knocked.
    pub(crate) knocked: usize,
    /// How many events are left before all is settled.
    pub(crate) events: u32,
    /// Of which connection each write was.
    pub(crate) order: Vec<u64>,
    /// How many accepts fail before the next one.
    pub(crate) refusals: u32,
    /// Nothing happens but time.
    pub(crate) is_still: bool,
    /// A seat was named that isn't that connection's.
    pub(crate) is_wrong: bool,
    pub(crate) time: u64,
    ready: Vec<usize>,
    chance: Xoshiro256PlusPlus,
}

/// Accepts these connections, one after another.
#[derive(Drop)]
pub(crate) struct Chance {
    pub(crate) world: World,
    pub(crate) accepted: u64,
}

impl Chance {
    pub(crate) fn of(alloc: Global, seed: u64, events: u32, wires: Vec<Wire>) -> Chance {
        Chance {
            world: World {
                wires,
                knocked: 0,
                events,
                order: Vec::new(alloc),
                refusals: 0,
                is_still: false,
                is_wrong: false,
                time: 0,
                ready: Vec::new(alloc),
                chance: Xoshiro256PlusPlus::seed_from_u64(seed),
            },
            accepted: 0,
        }
    }
}

impl World {
    // A number below this.
    fn below(&mut self, count: usize) -> usize {
        match u64::try_from(count) {
            Ok(count) if count > 0 => (self.chance.next_u64() % count) as usize,
            _ => 0,
        }
    }

    // Something happens to one of those that have knocked, or another knocks.
    fn happen(&mut self) -> Result<(), AllocError> {
        let kind = self.below(100);
        if kind < 5 {
            self.knocked = self.wires.len().min(self.knocked.saturating_add(1));
            return Ok(());
        }
        let at = self.below(self.knocked);
        let bytes = self.below(200);
        let Some(wire) = self.wires.get_mut(at) else {
            return Ok(());
        };
        match kind {
            5..50 => wire.come = wire.sends.len().min(wire.come.saturating_add(bytes)),
            50..90 => wire.takes = wire.takes.saturating_add(bytes),
            90..99 => wire.is_over = wire.come == wire.sends.len(),
            _ => wire.is_broken = wire.is_broken || bytes < 20,
        }
        if let Some(place) = wire.place {
            self.ready.push(place)?;
        }
        Ok(())
    }

    // Everything that is still to come comes.
    fn settle(&mut self) -> Result<(), AllocError> {
        self.knocked = self.wires.len();
        for wire in &mut self.wires {
            wire.settle();
            if let Some(place) = wire.place {
                self.ready.push(place)?;
            }
        }
        Ok(())
    }

    // A moment goes by.
    fn go_on(&mut self) -> Result<(), AllocError> {
        self.time = self.time.saturating_add(1);
        let Some(events) = self.events.checked_sub(1) else {
            return self.settle();
        };
        self.events = events;
        if self.is_still {
            return Ok(());
        }
        self.happen()
    }

    // The connection of a seat.
    fn wire_at(&mut self, seat: Seat) -> io::Result<&mut Wire> {
        match self.wires.get_mut(seat.number as usize) {
            Some(wire) if wire.place == Some(seat.place) => Ok(wire),
            _ => {
                self.is_wrong = true;
                Err(Error::from(ErrorKind::NotConnected))
            }
        }
    }

    fn accept(&mut self, number: u64, place: usize) -> io::Result<bool> {
        if let Some(left) = self.refusals.checked_sub(1) {
            self.refusals = left;
            return Err(Error::from(ErrorKind::Other));
        }
        let knocked = self.knocked;
        match self.wires.get_mut(number as usize) {
            Some(wire) if (number as usize) < knocked => {
                wire.place = Some(place);
                Ok(true)
            }
            _ => Ok(false),
        }
    }

    fn read(&mut self, seat: Seat, buffer: &mut [u8]) -> io::Result<usize>
        ensures { ReadsAtMost result buffer.new }
    {
        let most = self.below(300).saturating_add(1);
        let wire = self.wire_at(seat)?;
        if wire.is_broken {
            return Err(Error::from(ErrorKind::ConnectionReset));
        }
        let Some(rest) = wire.sends.get(wire.read..wire.come) else {
            return Err(Error::from(ErrorKind::Other));
        };
        let count = rest.len().min(buffer.len()).min(most);
        if count == 0 {
            return match wire.is_over && wire.come == wire.sends.len() {
                true => Ok(0),
                false => Err(Error::from(ErrorKind::WouldBlock)),
            };
        }
        buffer[..count].copy_from_slice(&rest[..count]);
        wire.read = wire.read.saturating_add(count);
        Ok(count)
    }

    fn write(&mut self, seat: Seat, bytes: &[u8]) -> io::Result<usize>
        ensures { WritesAtMost result bytes.now }
    {
        self.order.push(seat.number)?;
        let wire = self.wire_at(seat)?;
        if wire.is_broken {
            return Err(Error::from(ErrorKind::BrokenPipe));
        }
        let count = wire.takes.min(bytes.len());
        if count == 0 {
            return Err(Error::from(ErrorKind::WouldBlock));
        }
        wire.got.extend_from_slice(&bytes[..count])?;
        wire.takes = wire.takes.saturating_sub(count);
        Ok(count)
    }
}

impl Door for Chance {
    ghost use Rattle.playout_peers.specs.Wire.{unknown};

    ghost accepted = { λ door. door.accepted };

    ghost wire = { λ _ _. unknown };

    fn wait(&mut self, _may_sleep: bool) -> io::Result<()> {
        self.world.go_on()?;
        Ok(())
    }

    fn next_ready(&mut self) -> Option<usize> {
        self.world.ready.pop()
    }

    fn is_knocked(&self) -> bool {
        match usize::try_from(self.accepted) {
            Ok(accepted) => accepted < self.world.knocked,
            Err(_) => false,
        }
    }

    fn accept(&mut self, place: usize) -> io::Result<Option<u64>> {
        let number = self.accepted;
        let Some(accepted) = number.checked_add(1) else {
            return Ok(None);
        };
        if !self.world.accept(number, place)? {
            return Ok(None);
        }
        self.accepted = accepted;
        Ok(Some(number))
    }

    fn read(&mut self, seat: Seat, buffer: &mut [u8]) -> io::Result<usize> {
        self.world.read(seat, buffer)
    }

    fn write(&mut self, seat: Seat, bytes: &[u8]) -> io::Result<usize> {
        self.world.write(seat, bytes)
    }

    fn close(&mut self, seat: Seat) {
        if let Ok(wire) = self.world.wire_at(seat) {
            wire.place = None;
        }
    }

    fn now(&self) -> u64 {
        self.world.time
    }
}
