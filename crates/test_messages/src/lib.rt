//! Tests of messages, streams and faults over rows in memory, of what no conversation of `tests/conversations` reaches:
//! streams that are cut at each place, readers and writers that fail at each byte, a stream without end, messages by
//! themselves, and parts of what a channel sees. And of connections that are open at once: 10,000 random events of a
//! schedule over connections in memory, by seed, that each has its turn, and sockets.
#![tactic(auto)]

#[cfg(test)]
mod asserts;
#[cfg(test)]
mod door;
#[cfg(test)]
mod faults;
#[cfg(test)]
mod messages;
#[cfg(test)]
mod requests;
#[cfg(test)]
mod rows;
#[cfg(test)]
mod schedule;
#[cfg(test)]
mod serving;
#[cfg(test)]
mod sockets;
#[cfg(test)]
mod streams;
#[cfg(test)]
mod turns;
#[cfg(test)]
mod words;
