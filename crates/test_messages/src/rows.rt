//! A stream of three channels that lend, plan and air, cut into reads at each of its places.
use crate::asserts::{same, same_in};
use channel_plan::PlanRow;
use channel_view::MemRows;
use http_office::serving::{End, serve};
use std::alloc::Global;
use std::io::{Read, Write};
use std::ops::Range;
use std::process::Abort;

const PLAN: [&[u8]; 3] = [
    b"1,25,06:00:00:00,40",
    b"2,25,06:00:00:00,40",
    b"3,25,06:00:00:00,40",
];

const CLIP: &str = "{\"frames\":125,\"in\":\"00:00:00:00\",\"tape\":1,\"title\":\"NEWS\",\
    \"umid\":\"060a2b340101010501010d201300000000112233445566778899aabbccddeeff\"}";

const OTHER_CLIP: &str = "{\"frames\":125,\"in\":\"00:00:00:00\",\"tape\":1,\"title\":\"SPORT\",\
    \"umid\":\"060a2b340101010501010d2013000000ffeeddccbbaa99887766554433221100\"}";

const LONG_CLIP: &str = "{\"frames\":2159000,\"in\":\"00:00:00:00\",\"tape\":2,\"title\":\"NIGHT\",\
    \"umid\":\"060a2b340101010501010d2013000000ffeeddccbbaa99887766554433221100\"}";

const AIRED: &str = "06:00:00:00,1000,BL,00:00:00:00\n06:00:40:00,2158990,C0000002,00:00:00:00\n";

const AIRED_SHORTER: &str =
    "06:00:00:00,1000,BL,00:00:00:00\n06:00:40:00,2158989,C0000002,00:00:00:00\n";

const AIRED_AGAIN: &str = "06:00:40:00,2158990,C0000002,00:00:00:00\n";

// Each message: its path, and its body; one without a body is a GET.
const MESSAGES: [(&str, Option<&str>); 39] = [
    ("/ch/1/tapes", Some(r#"{"barcode":"T1","slot":1}"#)),
    ("/ch/1/tapes", Some(r#"{"barcode":"T2","slot":41}"#)),
    ("/ch/1/tapes", Some(r#"{"barcode":"T2","slot":1}"#)),
    ("/ch/1/tapes/1/pull", Some("")),
    ("/ch/1/tapes", Some(r#"{"barcode":"T2","slot":1}"#)),
    ("/ch/2/tapes", Some(r#"{"barcode":"T1","slot":1}"#)),
    ("/ch/1/clips", Some(CLIP)),
    ("/ch/2/clips", Some(CLIP)),
    ("/ch/3/tapes", Some(r#"{"barcode":"T1","slot":1}"#)),
    ("/ch/3/clips", Some(CLIP)),
    ("/ch/3/offers", Some(r#"{"clip":"C0000001","to":2}"#)),
    ("/ch/2/lent", None),
    ("/ch/2/days", Some(r#"{"day":1}"#)),
    (
        "/ch/2/days/1/items",
        Some(r#"{"at":"06:00:00:00","frames":125,"in":"00:00:00:00","mix":0,"source":"L0030001"}"#),
    ),
    (
        "/ch/2/days/1/items",
        Some(r#"{"at":"06:00:05:00","frames":125,"in":"00:00:00:00","mix":0,"source":"C0000001"}"#),
    ),
    ("/ch/2/clips/1/retire", Some("")),
    ("/ch/2/clips", Some(OTHER_CLIP)),
    ("/ch/2/offers", Some(r#"{"clip":"C0000002","to":1}"#)),
    ("/ch/3/offers", Some(r#"{"clip":"C0000001","to":999}"#)),
    ("/ch/2/offers", Some(r#"{"clip":"L0030001","to":1}"#)),
    ("/ch/3/offers/1/withdraw", Some("")),
    ("/ch/2/days/1/seal", Some("")),
    ("/ch/2/lent", None),
    ("/ch/3/offers", None),
    ("/ch/1/lent", None),
    ("/ch/1/clips", Some(LONG_CLIP)),
    ("/ch/1/days", Some(r#"{"day":1}"#)),
    (
        "/ch/1/days/1/items",
        Some(r#"{"at":"06:00:00:00","frames":1000,"in":"00:00:00:00","mix":0,"source":"BL"}"#),
    ),
    (
        "/ch/1/days/1/items",
        Some(
            r#"{"at":"06:00:40:00","frames":2159000,"in":"00:00:00:00","mix":0,"source":"C0000002"}"#,
        ),
    ),
    ("/ch/1/days/1/seal", Some("")),
    ("/ch/1/days/1/asrun/1", Some(AIRED)),
    ("/ch/1/days/1/match", None),
    ("/ch/1/days/1/asrun/1", Some(AIRED)),
    ("/ch/1/days/1/asrun/1", Some(AIRED_SHORTER)),
    ("/ch/1/days/1/asrun/2", Some(AIRED_AGAIN)),
    ("/ch/1/days/1", None),
    ("/ch/1/tapes", None),
    ("/ch/1/clips", None),
    ("/ch/2/tapes", None),
];

// What the match table says of the day that channel 1 aired.
const MATCHED: &str =
    "06:00:00:00 2159990 OK\n05:59:59:15 10 MISSED\nOK 2159990 SLIP 0 WRONG 0 MISSED 10\n";

fn post(rt: &impl Abort, to: &mut Vec<u8>, path: &str, body: &str) {
    let length = body.len();
    let written = write!(
        to,
        "POST {path} HTTP/1.1\r\nContent-Length: {length}\r\n\r\n{body}"
    );
    written.expect(rt, "memory");
}

fn get(rt: &impl Abort, to: &mut Vec<u8>, path: &str) {
    write!(to, "GET {path} HTTP/1.1\r\n\r\n").expect(rt, "memory");
}

fn stream(rt: &impl Abort, alloc: Global) -> Vec<u8> {
    let mut all = Vec::new(alloc);
    for (path, body) in MESSAGES {
        match body {
            Some(body) => post(rt, &mut all, path, body),
            None => get(rt, &mut all, path),
        }
    }
    all
}

fn store_of(rt: &impl Abort, alloc: Global) -> MemRows {
    let plan = PLAN.map(|row| PlanRow::read(row).expect(rt, "a plan row"));
    MemRows::new(alloc, &plan).expect(rt, "a plan")
}

// What the stream is answered, and whether it ended between messages.
fn served<R: Read>(rt: &impl Abort, alloc: Global, input: &mut R) -> (Vec<u8>, bool) {
    let mut output = Vec::new(alloc);
    let end = serve(alloc, &mut store_of(rt, alloc), input, &mut output);
    (output, end == Ok(End::Closed))
}

// The stream, cut at two places, is answered as in one read.
fn is_answered_alike(
    rt: &impl Abort,
    alloc: Global,
    sent: &[u8],
    (first, second): (usize, usize),
    wanted: &[u8],
) {
    let (front, last) = sent.split_at(second.min(sent.len()));
    let (front, middle) = front.split_at(first.min(front.len()));
    let mut input = front.chain(middle).chain(last);
    let (output, is_closed) = served(rt, alloc, &mut input);
    same_in(
        rt,
        (first, second),
        (output.as_slice(), is_closed),
        (wanted, true),
    );
}

// The stream, and what it is answered in one read.
fn whole(rt: &impl Abort, alloc: Global) -> (Vec<u8>, Vec<u8>) {
    let sent = stream(rt, alloc);
    let (wanted, is_closed) = served(rt, alloc, &mut sent.as_slice());
    assert!(rt; is_closed);
    (sent, wanted)
}

// Each pair of places of which the second is one of these.
fn pairs_are_answered_alike(rt: &impl Abort, alloc: Global, seconds: Range<usize>) {
    let (sent, wanted) = whole(rt, alloc);
    for second in seconds {
        for first in 0..second {
            is_answered_alike(rt, alloc, &sent, (first, second), &wanted);
        }
    }
}

#[test]
fn three_channels_are_answered_wherever_their_stream_is_cut(rt: HostRuntime) {
    let alloc = rt.alloc();
    let (sent, wanted) = whole(&rt, alloc);
    let said = wanted
        .windows(MATCHED.len())
        .filter(|w| *w == MATCHED.as_bytes());
    same(&rt, said.count(), 1);
    for first in 0..sent.len() {
        is_answered_alike(&rt, alloc, &sent, (first, sent.len()), &wanted);
    }
}

#[test]
fn three_channels_are_answered_alike_at_two_cuts(rt: HostRuntime) {
    pairs_are_answered_alike(&rt, rt.alloc(), 0..142);
}

#[test]
fn three_channels_are_answered_alike_at_two_later_cuts(rt: HostRuntime) {
    pairs_are_answered_alike(&rt, rt.alloc(), 142..200);
}
