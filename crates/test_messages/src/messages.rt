use crate::asserts::{same, same_in};
use crate::streams::{ANSWER, BAD_MESSAGE, KNOWN, MESSAGE, store_of};
use http_office::Answer;
use http_office::messages::{answer, answer_all};
use std::alloc::Global;
use std::process::Abort;

const UNAVAILABLE: &str =
    "HTTP/1.1 503 Service Unavailable\r\nContent-Length: 36\r\nContent-Type: application/json\r\n\r\n\
    {\"code\":100,\"refused\":\"Unavailable\"}";

// The same message twice, and bytes that are no message, or not just one.
const ASKED: [(&str, &str); 7] = [
    (MESSAGE, ANSWER),
    (MESSAGE, KNOWN),
    ("GET /\r\n\r\n", BAD_MESSAGE),
    ("", BAD_MESSAGE),
    (
        "POST /ch/1/tapes HTTP/1.1\r\nContent-Length: 25\r\n",
        BAD_MESSAGE,
    ),
    (
        "POST /ch/1/tapes HTTP/1.1\r\nContent-Length: 25\r\n\r\n{\"barcode\":\"T1\",\"slot\":1",
        BAD_MESSAGE,
    ),
    (
        "POST /ch/1/tapes HTTP/1.1\r\nContent-Length: 25\r\n\r\n{\"barcode\":\"T1\",\"slot\":1} ",
        BAD_MESSAGE,
    ),
];

fn messages_of(rt: &impl Abort, alloc: Global) -> Vec<Vec<u8>> {
    let mut messages = Vec::new(alloc);
    for (message, _) in ASKED {
        let message = message.as_bytes().to_vec(alloc).expect(rt, "memory");
        messages.push(message).expect(rt, "memory");
    }
    messages
}

#[test]
fn messages_by_themselves_are_answered_in_order(rt: HostRuntime) {
    let alloc = rt.alloc();
    let mut one_by_one = store_of(&rt, alloc);
    for (message, answered) in ASKED {
        let alone = answer(alloc, &mut one_by_one, message.as_bytes());
        same_in(&rt, message, alone.bytes(), answered.as_bytes());
    }
    let mut store = store_of(&rt, alloc);
    let answers = answer_all(alloc, &mut store, &messages_of(&rt, alloc)).expect(&rt, "memory");
    same(&rt, answers.len(), ASKED.len());
    for (answered, (_, wanted)) in answers.iter().zip(&ASKED) {
        same(&rt, answered.bytes(), wanted.as_bytes());
    }
    same(&rt, Answer::Unavailable.bytes(), UNAVAILABLE.as_bytes());
}
