//! Sockets of this machine. Each peer has sent all that it will before it is accepted, so one thread is enough.
use crate::asserts::same;
use crate::serving::{served, served_in_turn};
use playout_peers::{Limits, Sockets};
use std::alloc::Global;
use std::io::{Read, Write};
use std::net::{Ipv4Addr, Shutdown, SocketAddr, TcpListener, TcpStream};
use std::process::Abort;

const MESSAGE: &[u8] =
    b"POST /ch/1/tapes HTTP/1.1\r\nContent-Length: 25\r\n\r\n{\"barcode\":\"T1\",\"slot\":1}";

const ANSWER: &[u8] =
    b"HTTP/1.1 200 OK\r\nContent-Length: 10\r\nContent-Type: application/json\r\n\r\n{\"tape\":1}";

// It sends its message, and no more.
fn sends(rt: &impl Abort, peer: &mut TcpStream) {
    peer.write_all(MESSAGE).expect(rt, "a message");
    peer.shutdown(Shutdown::Write).expect(rt, "an end");
}

// All that a peer gets is the answer.
fn is_answered(rt: &impl Abort, alloc: Global, peer: &mut TcpStream) {
    let mut answer = Vec::new(alloc);
    peer.read_to_end(&mut answer).expect(rt, "an answer");
    same(rt, answer.as_slice(), ANSWER);
}

// No peer is there, and none is waited for.
#[test]
fn a_connection_that_cannot_be_accepted_is_a_fault(rt: HostRuntime) {
    let listener = TcpListener::bind(&rt, (Ipv4Addr::LOCALHOST, 0)).expect(&rt, "a listener");
    listener.set_nonblocking(true).expect(&rt, "no waiting");
    let (is_quiet, told) = served_in_turn(&rt, rt.alloc(), &listener, 2);
    assert!(rt; !is_quiet);
    same(&rt, told.as_slice(), b"read fault\n".as_slice());
}

#[test]
fn a_connection_is_served_by_one_thread(rt: HostRuntime) {
    let alloc = rt.alloc();
    let listener = TcpListener::bind(&rt, (Ipv4Addr::LOCALHOST, 0)).expect(&rt, "a listener");
    let address = listener.local_addr().expect(&rt, "an address");
    let mut peer = TcpStream::connect(&rt, address).expect(&rt, "a connection");
    sends(&rt, &mut peer);
    let (is_quiet, told) = served_in_turn(&rt, alloc, &listener, 1);
    assert!(rt; is_quiet);
    is_answered(&rt, alloc, &mut peer);
    assert!(rt; told.is_empty());
}

#[test]
fn a_silent_peer_holds_nobody_up(rt: HostRuntime) {
    let alloc = rt.alloc();
    let any = SocketAddr::from((Ipv4Addr::LOCALHOST, 0));
    let mut door = Sockets::listen(&rt, &rt, alloc, any, 2).expect(&rt, "a door");
    let port = door.port().expect(&rt, "a port");
    let address = SocketAddr::from((Ipv4Addr::LOCALHOST, port));
    let silent = TcpStream::connect(&rt, address).expect(&rt, "a connection");
    let mut peer = TcpStream::connect(&rt, address).expect(&rt, "a connection");
    sends(&rt, &mut peer);
    let limits = Limits {
        peers: 2,
        turns: 1,
        idle: 30,
    };
    let (is_quiet, told) = served(&rt, alloc, &mut door, limits);
    assert!(rt; is_quiet);
    is_answered(&rt, alloc, &mut peer);
    assert!(rt; told.is_empty());
    silent.shutdown(Shutdown::Both).expect(&rt, "an end");
}
