//! `playout`: the traffic and tape library office of a playout centre, on the command line. What its words do, over a
//! database in a file or without one.
//!
//! [`program`] does what the words ask for, over any reader and writers, and any machine (`machine`) that has files and
//! ports. Its clause `does` says of the words what was read, written and told: over the tables that a file held as it was
//! opened (`specs/Acting.antt`), or without one as `playout_actions` has it.
//! `act_on_tables` does it over any store of the toolchain's `sqlite`, and says what the tables then stand for:
//! `answer_tables` answers a stream, `serve_tables` serves connections, and `print_stored_table` prints a table of a
//! channel.
//!
//! Where the tables are refused, nothing was read or written, and what is committed is what was, or what was
//! found, whatever the database holds (`refused`). The refusal is one that an open or a plan has, with its
//! cause (`specs/Refusing.antt`).
//!
//! No contract sees the tables in a file, a socket, or the process. So which file is opened and closed, and which port
//! of which address is listened on, stands in lines of their own (`Host`), and so does what comes from the process
//! (`main`). The handle of the process is in these alone.
#![tactic(auto)]

mod acting;
mod file;
mod machine;
mod serve;
mod table;
mod vaults;

use acting::program;
use machine::Host;
use playout_lists::{Fault, FaultLines, exit_status};
use std::process::ExitCode;
use std::{env, io};

fn words_of(rt: &HostRuntime) -> io::Result<Vec<String>> {
    Ok(env::args(rt)?.skip(1).collect(rt.alloc())?)
}

fn main(rt: HostRuntime) -> ExitCode {
    let mut input = rt.stdin();
    let mut output = rt.stdout();
    let mut errors = rt.stderr();
    let mut faults = FaultLines::new(&mut errors);
    let status = match words_of(&rt) {
        Ok(words) => program(
            rt.alloc(),
            &Host(&rt),
            &words,
            &mut input,
            &mut output,
            &mut faults,
        ),
        Err(_) => exit_status(Err(Fault::UNAVAILABLE), &mut faults),
    };
    ExitCode::from(status)
}
