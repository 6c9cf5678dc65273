//! Connections that are open at once, each of which is answered as if it were alone with the store.
//!
//! [`serve_peers`] serves the connections of any [`Door`], which accepts them, and reads and writes them. Its clause says
//! that what was done is a merge of what each connection asked (`specs/Peers.antt`). [`Sockets`] and [`InTurn`] are
//! doors; [`serve_turns`] serves one connection after another.
#![tactic(auto)]

mod door;
mod peer;
mod rota;
mod serving;
mod sockets;
mod turns;

pub use door::{Door, Seat};
pub use serving::{Limits, serve_peers};
pub use sockets::Sockets;
pub use turns::{InTurn, serve_turns, serve_turns_within};
