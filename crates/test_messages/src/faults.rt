//! Faults as lines, and streams that are broken under the program's words.
use crate::asserts::same;
use crate::streams::{Full, MESSAGE, Steps, Taking};
use channel_plan::{LineFault, ListFault};
use playout_actions::answer_input;
use playout_lists::{Fault, FaultLines, InputFault, StreamFault};
use std::io::ErrorKind;
use timecode::TcFault;

#[test]
fn faults_are_one_line(rt: HostRuntime) {
    for (fault, line) in [
        (Fault::Label(TcFault::LabelForm), "1 LabelForm\n"),
        (
            Fault::List(ListFault::InLine(7, LineFault::FieldCount)),
            "line 7: 22 FieldCount\n",
        ),
        (Fault::List(ListFault::Unavailable), "100 Unavailable\n"),
        (Fault::UNAVAILABLE, "100 Unavailable\n"),
        (Fault::Open, "open fault\n"),
        (Fault::Listen, "listen fault\n"),
        (
            Fault::Stream(StreamFault::Input(InputFault::Read)),
            "read fault\n",
        ),
        (
            Fault::Stream(StreamFault::Input(InputFault::TooLarge)),
            "413 TooLarge\n",
        ),
        (Fault::Stream(StreamFault::Write), "write fault\n"),
    ] {
        let mut told = Vec::new(rt.alloc());
        let mut lines = FaultLines::new(&mut told);
        lines.report(fault);
        same(&rt, told.as_slice(), line.as_bytes());
    }
}

#[test]
fn broken_streams_are_faults(rt: HostRuntime) {
    let alloc = rt.alloc();
    let rows = ["1,25,06:00:00:00,40"];
    let mut input = Steps {
        rest: b"PPPPP",
        step: 1,
        fault: Some(ErrorKind::Other),
    };
    let mut output = Vec::new(alloc);
    same(
        &rt,
        answer_input(alloc, &rows, &mut input, &mut output),
        Err(Fault::Stream(StreamFault::Input(InputFault::Read))),
    );
    assert!(rt; output.is_empty());
    for (room, wanted) in [(80, Err(Fault::Stream(StreamFault::Write))), (81, Ok(()))] {
        let mut output = Taking::of(alloc, room, Full::Fails(ErrorKind::Other));
        same(
            &rt,
            answer_input(alloc, &rows, &mut MESSAGE.as_bytes(), &mut output),
            wanted,
        );
    }
    let line = b"open fault\n".as_slice();
    for room in 0..12 {
        let mut output = Taking::of(alloc, room, Full::Fails(ErrorKind::Other));
        let mut lines = FaultLines::new(&mut output);
        lines.report(Fault::Open);
        same(&rt, output.taken.as_slice(), &line[..room.min(line.len())]);
    }
}
