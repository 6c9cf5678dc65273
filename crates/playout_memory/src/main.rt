//! `playout` of the words that go over no database: messages answered over rows in memory, edit lists that are checked
//! or compared, and labels.
//!
//! All that these words do is `playout_actions::office`, as in the whole program (`playout_cli`). This one stands on no
//! tables, so it is proved long before that one, and gives a clone's first answers (`./playout`, `./preview`).
#![tactic(auto)]

use playout_actions::office;
use playout_lists::{Fault, FaultLines, Lists, exit_status};
use std::fs::File;
use std::process::ExitCode;
use std::{env, io};

/// The machine of the process.
#[derive(Clone, Copy)]
struct Host<'a>(&'a HostRuntime);

/// No contract knows the bytes of a file.
impl Lists for Host<'_> {
    type Opened = File;

    ghost gives = { λ _ _ _. Unit {0} };

    fn open_list(&self, file: &str) -> Result<File, Fault> {
        match File::open(self.0, file) {
            Ok(opened) => Ok(opened),
            Err(_) => Err(Fault::Open),
        }
    }
}

fn words_of(rt: &HostRuntime) -> io::Result<Vec<String>> {
    Ok(env::args(rt)?.skip(1).collect(rt.alloc())?)
}

fn main(rt: HostRuntime) -> ExitCode {
    let mut input = rt.stdin();
    let mut output = rt.stdout();
    let mut errors = rt.stderr();
    let mut faults = FaultLines::new(&mut errors);
    let status = match words_of(&rt) {
        Ok(words) => office(
            rt.alloc(),
            &Host(&rt),
            &words,
            &mut input,
            &mut output,
            &mut faults,
        ),
        Err(_) => exit_status(Err(Fault::UNAVAILABLE), &mut faults),
    };
    ExitCode::from(status)
}
