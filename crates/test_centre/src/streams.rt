//! Streams of messages over tables: how they come in reads, where they are cut short, and readers and writers that fail.
//! `test_messages` has more of them, over lists.
use crate::asserts::same_in;
use crate::centres::tables_of;
use channel_plan::PlanRow;
use http_office::serving::{End, ServeFault, serve};
use std::alloc::Global;
use std::io::{self, Error, ErrorKind, Read, Write};
use std::process::Abort;

const MESSAGE: &str =
    "POST /ch/1/tapes HTTP/1.1\r\nContent-Length: 25\r\n\r\n{\"barcode\":\"T1\",\"slot\":1}";

const ANSWER: &str =
    "HTTP/1.1 200 OK\r\nContent-Length: 10\r\nContent-Type: application/json\r\n\r\n{\"tape\":1}";

// The same tape again.
const KNOWN: &str =
    "HTTP/1.1 409 Conflict\r\nContent-Length: 36\r\nContent-Type: application/json\r\n\r\n\
    {\"code\":43,\"refused\":\"BarcodeKnown\"}";

// A reader that fails behind these bytes, which it gives byte by byte.
#[derive(Drop)]
struct Failing<'a> {
    rest: &'a [u8],
}

impl Read for Failing<'_> {
    fn read(&mut self, buf: &mut [u8]) -> io::Result<usize> {
        let count = buf.len().min(self.rest.len()).min(1);
        if count == 0 {
            return Err(Error::from(ErrorKind::Other));
        }
        let (front, rest) = self.rest.split_at(count);
        buf[..count].copy_from_slice(front);
        self.rest = rest;
        Ok(count)
    }
}

// A writer that takes so many bytes, and then fails.
#[derive(Drop)]
struct Taking {
    room: usize,
    taken: Vec<u8>,
}

impl Write for Taking {
    fn write(&mut self, buf: &[u8]) -> io::Result<usize> {
        let count = self.room.min(buf.len());
        if count == 0 {
            return Err(Error::from(ErrorKind::Other));
        }
        match self.taken.extend_from_slice(&buf[..count]) {
            Ok(()) => {
                self.room -= count;
                Ok(count)
            }
            Err(_) => Err(Error::from(ErrorKind::OutOfMemory)),
        }
    }

    fn flush(&mut self) -> io::Result<()> {
        Ok(())
    }
}

// How the stream of this input ends over the tables of channel 1, and how many tapes these hold then: 0, or 1 where
// the message sent again is answered as known.
fn served<R: Read, W: Write>(
    rt: &impl Abort,
    alloc: Global,
    input: &mut R,
    output: &mut W,
) -> (Result<End, ServeFault>, usize) {
    let row = PlanRow::read(b"1,25,06:00:00:00,40").expect(rt, "a plan row");
    let mut tables = tables_of(rt, alloc, &[row]);
    let end = serve(alloc, &mut tables, input, output);
    let mut again = Vec::new(alloc);
    let _ = serve(alloc, &mut tables, &mut MESSAGE.as_bytes(), &mut again);
    let _ = tables.into_connection();
    (end, tapes_before(rt, &again))
}

// How many tapes there were when the message was answered this.
fn tapes_before(rt: &impl Abort, answered: &[u8]) -> usize {
    if answered == KNOWN.as_bytes() {
        1
    } else {
        assert!(rt; answered == ANSWER.as_bytes(), "neither answer");
        0
    }
}

// Two texts, one behind the other.
fn joined(rt: &impl Abort, alloc: Global, front: &str, behind: &str) -> Vec<u8> {
    let mut joined = Vec::from_slice(alloc, front.as_bytes()).expect(rt, "memory");
    joined
        .extend_from_slice(behind.as_bytes())
        .expect(rt, "memory");
    joined
}

// Two messages that come in three reads are answered as in one.
fn is_answered_alike(rt: &impl Abort, alloc: Global, sent: &[u8], (first, second): (usize, usize)) {
    let (front, rest) = sent.split_at(first.min(sent.len()));
    let (middle, last) = rest.split_at(second.min(rest.len()));
    let mut output = Vec::new(alloc);
    let mut input = front.chain(middle).chain(last);
    let found = served(rt, alloc, &mut input, &mut output);
    same_in(rt, (first, second), found, (Ok(End::Closed), 1));
    let wanted = joined(rt, alloc, ANSWER, KNOWN);
    same_in(rt, (first, second), output, wanted);
}

#[test]
fn a_stream_over_tables_is_answered_wherever_it_is_cut(rt: HostRuntime) {
    let sent = joined(&rt, rt.alloc(), MESSAGE, MESSAGE);
    for first in 0..sent.len() {
        for second in [0, 1, 25, 74] {
            is_answered_alike(&rt, rt.alloc(), &sent, (first, second));
        }
    }
}

// A read fails behind these bytes of two messages.
fn is_answered_before(rt: &impl Abort, alloc: Global, read: &[u8]) {
    let count = read.len();
    let mut output = Vec::new(alloc);
    let mut input = Failing { rest: read };
    let found = served(rt, alloc, &mut input, &mut output);
    let (wanted, held) = if count < MESSAGE.len() {
        ("", 0)
    } else {
        (ANSWER, 1)
    };
    same_in(rt, count, found, (Err(ServeFault::Read), held));
    same_in(rt, count, output.as_slice(), wanted.as_bytes());
}

#[test]
fn a_failed_read_over_tables_leaves_no_whole_message(rt: HostRuntime) {
    let sent = joined(&rt, rt.alloc(), MESSAGE, MESSAGE);
    for count in 0..sent.len() {
        is_answered_before(&rt, rt.alloc(), &sent[..count]);
    }
}

// A write fails behind these bytes of the answer.
fn is_done_before(rt: &impl Abort, alloc: Global, written: &[u8]) {
    let room = written.len();
    let mut output = Taking {
        room,
        taken: Vec::new(alloc),
    };
    let found = served(rt, alloc, &mut MESSAGE.as_bytes(), &mut output);
    same_in(rt, room, found, (Err(ServeFault::Write), 1));
    same_in(rt, room, output.taken.as_slice(), written);
}

#[test]
fn a_failed_write_over_tables_has_done_its_message(rt: HostRuntime) {
    for room in 0..ANSWER.len() {
        is_done_before(&rt, rt.alloc(), &ANSWER.as_bytes()[..room]);
    }
}
