//! Streams of messages over rows in memory: how they come in reads, where they are cut short, and readers and writers
//! that fail.

use crate::asserts::{same, same_in};
use channel_plan::PlanRow;
use channel_view::MemRows;
use http_office::serving::{End, ServeFault, serve};
use std::alloc::Global;
use std::io::{self, Error, ErrorKind, Read, Write};
use std::process::Abort;

pub(crate) const MESSAGE: &str =
    "POST /ch/1/tapes HTTP/1.1\r\nContent-Length: 25\r\n\r\n{\"barcode\":\"T1\",\"slot\":1}";

pub(crate) const ANSWER: &str =
    "HTTP/1.1 200 OK\r\nContent-Length: 10\r\nContent-Type: application/json\r\n\r\n{\"tape\":1}";

// The same tape again.
pub(crate) const KNOWN: &str =
    "HTTP/1.1 409 Conflict\r\nContent-Length: 36\r\nContent-Type: application/json\r\n\r\n\
    {\"code\":43,\"refused\":\"BarcodeKnown\"}";

pub(crate) const BAD_MESSAGE: &str =
    "HTTP/1.1 400 Bad Request\r\nContent-Length: 35\r\nContent-Type: application/json\r\n\r\n\
    {\"code\":400,\"refused\":\"BadMessage\"}";

const NOT_FOUND: &str =
    "HTTP/1.1 404 Not Found\r\nContent-Length: 33\r\nContent-Type: application/json\r\n\r\n\
    {\"code\":404,\"refused\":\"NotFound\"}";

// Messages of channel 1, and of one that isn't in the plan. The last but one has a head that isn't accepted: what comes
// behind it is no message.
const SENT: &str =
    "POST /ch/1/tapes HTTP/1.1\r\nContent-Length: 25\r\n\r\n{\"barcode\":\"T1\",\"slot\":1}\
    POST /ch/3/tapes HTTP/1.1\r\nContent-Length: 25\r\n\r\n{\"barcode\":\"T1\",\"slot\":1}\
    POST /ch/1/tapes HTTP/1.1\r\nContent-Length: 25\r\n\r\n{\"barcode\":\"T1\",\"slot\":1}\
    GET /\r\n\r\n\
    POST /ch/1/tapes HTTP/1.1\r\nContent-Length: 25\r\n\r\n{\"barcode\":\"T1\",\"slot\":1}";

// A reader that gives a few bytes at once, and then ends, or fails.
#[derive(Drop)]
pub(crate) struct Steps<'a> {
    pub rest: &'a [u8],
    pub step: usize,
    pub fault: Option<ErrorKind>,
}

impl Read for Steps<'_> {
    fn read(&mut self, buf: &mut [u8]) -> io::Result<usize> {
        let count = self.step.min(self.rest.len()).min(buf.len());
        if count == 0 {
            return match self.fault {
                Some(kind) => Err(Error::from(kind)),
                None => Ok(0),
            };
        }
        let (front, rest) = self.rest.split_at(count);
        buf[..count].copy_from_slice(front);
        self.rest = rest;
        Ok(count)
    }
}

// What a writer does that takes no more bytes.
#[derive(Clone, Copy)]
pub(crate) enum Full {
    TakesNone,
    Fails(ErrorKind),
}

// A writer that takes so many bytes.
#[derive(Drop)]
pub(crate) struct Taking {
    room: usize,
    pub taken: Vec<u8>,
    full: Full,
}

impl Taking {
    pub(crate) fn of(alloc: Global, room: usize, full: Full) -> Taking {
        Taking {
            room,
            taken: Vec::new(alloc),
            full,
        }
    }
}

impl Write for Taking {
    fn write(&mut self, buf: &[u8]) -> io::Result<usize> {
        let count = self.room.min(buf.len());
        if count == 0 {
            return match self.full {
                Full::TakesNone => Ok(0),
                Full::Fails(kind) => Err(Error::from(kind)),
            };
        }
        match self.taken.extend_from_slice(&buf[..count]) {
            Ok(()) => {
                self.room -= count;
                Ok(count)
            }
            Err(_) => Err(Error::from(ErrorKind::OutOfMemory)),
        }
    }

    fn flush(&mut self) -> io::Result<()> {
        Ok(())
    }
}

/// Over channel 1 alone, of 40 slots.
pub(crate) fn store_of(rt: &impl Abort, alloc: Global) -> MemRows {
    let row = PlanRow::read(b"1,25,06:00:00:00,40").expect(rt, "a plan row");
    MemRows::new(alloc, &[row]).expect(rt, "a plan")
}

// What a stream is answered over the plan, and how it ended.
fn served<R: Read>(
    rt: &impl Abort,
    alloc: Global,
    input: &mut R,
) -> (Vec<u8>, Result<End, ServeFault>) {
    let mut output = Vec::new(alloc);
    let end = serve(alloc, &mut store_of(rt, alloc), input, &mut output);
    (output, end)
}

// The message twice.
fn twice(rt: &impl Abort, alloc: Global) -> Vec<u8> {
    [MESSAGE.as_bytes(), MESSAGE.as_bytes()]
        .concat(alloc)
        .expect(rt, "memory")
}

#[test]
fn how_a_stream_is_cut_into_reads_does_not_matter(rt: HostRuntime) {
    let alloc = rt.alloc();
    let mut wanted = Vec::new(alloc);
    for answer in [ANSWER, NOT_FOUND, KNOWN, BAD_MESSAGE] {
        wanted
            .extend_from_slice(answer.as_bytes())
            .expect(&rt, "memory");
    }
    let sent = SENT.as_bytes();
    for first in 0..sent.len() {
        for second in [0, 1, 25, 74] {
            let (front, rest) = sent.split_at(first);
            let (middle, last) = rest.split_at(second.min(rest.len()));
            let mut input = front.chain(middle).chain(last);
            let (output, end) = served(&rt, alloc, &mut input);
            same_in(
                &rt,
                (first, second),
                (end, output.as_slice()),
                (Ok(End::Refused), wanted.as_slice()),
            );
        }
    }
}

#[test]
fn a_message_that_is_cut_short_has_no_answer(rt: HostRuntime) {
    let alloc = rt.alloc();
    let message = MESSAGE.as_bytes();
    for count in 0..message.len() {
        let mut store = store_of(&rt, alloc);
        let mut output = Vec::new(alloc);
        let mut input = Steps {
            rest: &message[..count],
            step: 1,
            fault: None,
        };
        let end = serve(alloc, &mut store, &mut input, &mut output);
        let wanted = if count == 0 {
            End::Closed
        } else {
            End::CutShort
        };
        same_in(&rt, count, (end, output.len()), (Ok(wanted), 0));
        // Nothing was changed.
        let end = serve(alloc, &mut store, &mut MESSAGE.as_bytes(), &mut output);
        same_in(
            &rt,
            count,
            (end, output.as_slice()),
            (Ok(End::Closed), ANSWER.as_bytes()),
        );
    }
}

#[test]
fn a_failed_read_leaves_no_whole_message(rt: HostRuntime) {
    let alloc = rt.alloc();
    let twice = twice(&rt, alloc);
    for kind in [ErrorKind::Other, ErrorKind::Interrupted] {
        for step in [1, 40, 1000] {
            for count in 0..twice.len() {
                let mut input = Steps {
                    rest: &twice[..count],
                    step,
                    fault: Some(kind),
                };
                let (output, end) = served(&rt, alloc, &mut input);
                let wanted = if count < MESSAGE.len() { "" } else { ANSWER };
                same_in(
                    &rt,
                    count,
                    (end, output.as_slice()),
                    (Err(ServeFault::Read), wanted.as_bytes()),
                );
            }
        }
    }
}

// Two messages come byte by byte, and the writer takes a part of the first answer, or all of it: the second message is
// unread, or read and answered nothing, and the first was done.
#[test]
fn a_failed_write_leaves_the_next_message_unread(rt: HostRuntime) {
    let alloc = rt.alloc();
    let answer = ANSWER.as_bytes();
    let twice = twice(&rt, alloc);
    for full in [
        Full::TakesNone,
        Full::Fails(ErrorKind::Other),
        Full::Fails(ErrorKind::Interrupted),
    ] {
        for room in 0..82 {
            let taken = &answer[..answer.len().min(room)];
            let unread = if taken.len() < answer.len() { 74 } else { 0 };
            let mut store = store_of(&rt, alloc);
            let mut input = Steps {
                rest: &twice,
                step: 1,
                fault: None,
            };
            let mut output = Taking::of(alloc, room, full);
            let end = serve(alloc, &mut store, &mut input, &mut output);
            same_in(
                &rt,
                room,
                (end, output.taken.as_slice(), input.rest.len()),
                (Err(ServeFault::Write), taken, unread),
            );
            let mut again = Vec::new(alloc);
            let end = serve(alloc, &mut store, &mut MESSAGE.as_bytes(), &mut again);
            same_in(
                &rt,
                room,
                (end, again.as_slice()),
                (Ok(End::Closed), KNOWN.as_bytes()),
            );
        }
    }
}

#[test]
fn a_stream_has_so_many_reads(rt: HostRuntime) {
    let alloc = rt.alloc();
    // Each message has 18 bytes, and is read byte by byte.
    let text = "GET / HTTP/1.1\r\n\r\n"
        .repeat(alloc, 60_000)
        .expect(&rt, "memory");
    let mut input = Steps {
        rest: text.as_bytes(),
        step: 1,
        fault: None,
    };
    let (output, end) = served(&rt, alloc, &mut input);
    same(&rt, end, Ok(End::TurnsSpent));
    same(&rt, input.rest.len(), 60_000 * 18 - 1_048_576);
    same(&rt, output.len(), 58_254 * NOT_FOUND.len());
    assert!(rt;
        output
            .chunks(NOT_FOUND.len())
            .all(|answer| answer == NOT_FOUND.as_bytes())
    );
}
