//! Connections that are served over a new store of one channel.
use crate::streams::store_of;
use playout_lists::FaultLines;
use playout_peers::{Door, Limits, serve_peers, serve_turns};
use std::alloc::Global;
use std::net::TcpListener;
use std::process::Abort;

/// Whether all went without a fault, and what was told of faults.
pub(crate) fn served<D: Door>(
    rt: &impl Abort,
    alloc: Global,
    door: &mut D,
    limits: Limits,
) -> (bool, Vec<u8>) {
    let mut store = store_of(rt, alloc);
    let mut told = Vec::new(alloc);
    let mut faults = FaultLines::new(&mut told);
    let is_quiet = serve_peers(alloc, &mut store, door, limits, &mut faults);
    (is_quiet, told)
}

/// The same, one after another.
pub(crate) fn served_in_turn(
    rt: &impl Abort,
    alloc: Global,
    listener: &TcpListener,
    turns: u32,
) -> (bool, Vec<u8>) {
    let mut store = store_of(rt, alloc);
    let mut told = Vec::new(alloc);
    let mut faults = FaultLines::new(&mut told);
    let is_quiet = serve_turns(alloc, &mut store, listener, turns, &mut faults);
    (is_quiet, told)
}
