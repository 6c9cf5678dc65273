//! The program by its words, without a database.
use crate::asserts::same;
use crate::streams::{ANSWER, MESSAGE};
use playout_actions::office;
use playout_lists::{Fault, FaultLines, Lists};
use std::alloc::Global;
use std::process::Abort;

// Files in memory, by their names.
#[derive(Clone, Copy)]
struct Shelf<'a>(&'a [(&'a str, &'a str)]);

impl<'a> Lists for Shelf<'a> {
    type Opened = &'a [u8];

    ghost gives = { λ _ _ _. Unit {0} };

    fn open_list(&self, file: &str) -> Result<&'a [u8], Fault> {
        for (name, text) in self.0 {
            if *name == file {
                return Ok(text.as_bytes());
            }
        }
        Err(Fault::Open)
    }
}

const NIGHT: &str = "001 C0000001 V C 00:00:00:00 00:00:05:00 06:00:00:00 06:00:05:00\n";

const LATER: &str = "001 C0000001 V C 00:00:00:00 00:00:05:00 06:00:00:01 06:00:05:01\n";

fn words_of(rt: &impl Abort, alloc: Global, words: &[&str]) -> Vec<String> {
    let mut all = Vec::new(alloc);
    for word in words {
        let word = String::from_str(alloc, word).expect(rt, "memory");
        all.push(word).expect(rt, "memory");
    }
    all
}

// What the words do with this input: the exit status, the output, and what is told.
fn does(rt: &impl Abort, alloc: Global, words: &[&str], input: &str) -> (u8, Vec<u8>, Vec<u8>) {
    let words = words_of(rt, alloc, words);
    let mut output = Vec::new(alloc);
    let mut faults = Vec::new(alloc);
    let mut input = input.as_bytes();
    let mut lines = FaultLines::new(&mut faults);
    let shelf = Shelf(&[
        ("night.edl", NIGHT),
        ("later.edl", LATER),
        ("fields.edl", "001 BL V\n"),
    ]);
    let status = office(alloc, &shelf, &words, &mut input, &mut output, &mut lines);
    (status, output, faults)
}

#[test]
fn words_do_what_they_say(rt: HostRuntime) {
    let (status, output, faults) = does(&rt, rt.alloc(), &["tc", "25", "23:59:59:24"], "");
    same(
        &rt,
        (status, output.as_slice()),
        (0, b"2159999\n".as_slice()),
    );
    assert!(rt; faults.is_empty());
    let (status, output, _) = does(&rt, rt.alloc(), &["check", "25"], "");
    let counts = b"events 0 picture 0 sound 0 notes 0\n".as_slice();
    same(&rt, (status, output.as_slice()), (0, counts));
    let (status, output, _) = does(&rt, rt.alloc(), &["answer", "1,25,06:00:00:00,40"], MESSAGE);
    same(&rt, (status, output.as_slice()), (0, ANSWER.as_bytes()));
    let (status, output, faults) = does(&rt, rt.alloc(), &["tc", "25", "23:59:59:25"], "");
    same(&rt, (status, output.len()), (1, 0));
    same(&rt, faults.as_slice(), b"2 LabelRange\n".as_slice());
}

// Lists in files are checked, each by itself, and two are compared.
#[test]
fn words_over_lists(rt: HostRuntime) {
    let words = ["check", "25", "fields.edl", "night.edl", "absent.edl"];
    let (status, output, faults) = does(&rt, rt.alloc(), &words, "");
    let counts = b"night.edl: events 1 picture 1 sound 0 notes 0\n".as_slice();
    same(&rt, (status, output.as_slice()), (1, counts));
    let told = b"fields.edl: line 1: 22 FieldCount\nabsent.edl: open fault\n".as_slice();
    same(&rt, faults.as_slice(), told);
    let (status, output, _) = does(
        &rt,
        rt.alloc(),
        &["diff", "25", "night.edl", "later.edl"],
        "",
    );
    let lines = b"V 06:00:00:00 1 ONLY A\nV 06:00:00:01 124 SLIP\nV 06:00:05:00 1 ONLY B\n";
    same(&rt, (status, output.as_slice()), (0, lines.as_slice()));
    let (status, output, faults) = does(
        &rt,
        rt.alloc(),
        &["diff", "25", "night.edl", "fields.edl"],
        "",
    );
    same(&rt, (status, output.len()), (1, 0));
    let told = b"fields.edl: line 1: 22 FieldCount\n".as_slice();
    same(&rt, faults.as_slice(), told);
}

// What goes over a database is left alone, and words that aren't taken are told.
#[test]
fn other_words_do_nothing(rt: HostRuntime) {
    for words in [
        ["answer", "--db", "day.db"].as_slice(),
        ["tc", "23", "00:00:00:00"].as_slice(),
        ["check"].as_slice(),
        ["cheque", "25"].as_slice(),
    ] {
        let (status, output, _) = does(&rt, rt.alloc(), words, MESSAGE);
        same(&rt, (status, output.len()), (2, 0));
    }
}
