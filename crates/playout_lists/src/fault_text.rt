//! The texts of faults, made in memory: the longest, of a line of a list, has 58 bytes.
ghost use Rattle.std.specs.Prelude.{◌≡◌, ◌≤◌, ◌+◌, ◌++◌, length, codes, decimal};
ghost use Rattle.timecode.specs.Fault.{fault_text as label_fault_text};
ghost use Rattle.channel_plan.specs.Fault.{fault_text as line_fault_text, list_fault_text};
ghost use Rattle.channel_plan.specs.Refusal.{detail_text, refusal_text, text_of as detail_of};
ghost use Rattle.playout_lists.specs.Fault.{line_of, stream_fault_text, text_of};

use crate::fault::Fault;
use crate::streams::{InputFault, StreamFault};
use channel_plan::{At, LineFault, ListFault, Refusal};
use report_texts::{LineBuffer, push, push_decimal};
use timecode::TcFault;

// A number and a name.
fn push_numbered(line: &mut LineBuffer, number: u16, name: &str)
    requires { length line.old.items + length name.now + 6 ≤ 256 }
    ensures items { line.new.items ≡ line.old.items ++ (decimal number ++ (codes " " ++ name.now)) }
    ensures len { length line.new.items ≤ length line.old.items + length name.now + 6 }
{
    push_decimal(line, number);
    push(line, b" ");
    push(line, name.as_bytes());
}

#[tactic(auto, using(crate::proofs::NameLemmas::label_name_short))]
fn push_label_fault(line: &mut LineBuffer, fault: TcFault)
    requires { length line.old.items + 18 ≤ 256 }
    ensures items { line.new.items ≡ line.old.items ++ label_fault_text fault }
    ensures len { length line.new.items ≤ length line.old.items + 18 }
{
    push_numbered(line, fault.number(), fault.name());
}

#[tactic(auto, using(crate::proofs::NameLemmas::line_name_short))]
fn push_line_fault(line: &mut LineBuffer, fault: LineFault)
    requires { length line.old.items + 41 ≤ 256 }
    ensures items { line.new.items ≡ line.old.items ++ line_fault_text fault }
    ensures len { length line.new.items ≤ length line.old.items + 41 }
{
    push_numbered(line, fault.number(), fault.name());
    if let LineFault::BadLabel(label) = fault {
        push(line, b" ");
        push_label_fault(line, label);
    }
}

fn push_list_fault(line: &mut LineBuffer, fault: ListFault)
    requires { length line.old.items + 58 ≤ 256 }
    ensures items { line.new.items ≡ line.old.items ++ list_fault_text fault }
    ensures len { length line.new.items ≤ length line.old.items + 58 }
{
    match fault {
        ListFault::InLine(number, fault) => {
            push(line, b"line ");
            push_decimal(line, number);
            push(line, b": ");
            push_line_fault(line, fault);
        }
        ListFault::Unavailable => push(line, b"100 Unavailable"),
    }
}

// The detail of a refusal, if there is one.
fn push_detail(line: &mut LineBuffer, at: At)
    requires { length line.old.items + 20 ≤ 256 }
    ensures items { line.new.items ≡ line.old.items ++ detail_text (detail_of at) }
    ensures len { length line.new.items ≤ length line.old.items + 20 }
{
    match at {
        At::Nothing => {}
        At::Place(label) => {
            push(line, b" at ");
            push(line, &label.bytes());
        }
        At::Count(count) => {
            push(line, b" at ");
            push_decimal(line, count);
        }
        At::LineLabel(number, fault) => {
            push(line, b" at ");
            push_decimal(line, number);
            push(line, b" ");
            push_decimal(line, fault.number());
        }
    }
}

#[tactic(auto, using(crate::proofs::NameLemmas::refusal_name_short))]
fn push_refusal(line: &mut LineBuffer, refusal: Refusal)
    requires { length line.old.items + 42 ≤ 256 }
    ensures items { line.new.items ≡ line.old.items ++ refusal_text refusal }
    ensures len { length line.new.items ≤ length line.old.items + 42 }
{
    push_numbered(line, refusal.code.number(), refusal.code.name());
    push_detail(line, refusal.at);
}

fn push_stream_fault(line: &mut LineBuffer, fault: StreamFault)
    requires { length line.old.items + 15 ≤ 256 }
    ensures items { line.new.items ≡ line.old.items ++ stream_fault_text fault }
    ensures len { length line.new.items ≤ length line.old.items + 15 }
{
    match fault {
        StreamFault::Input(InputFault::Read) => push(line, b"read fault"),
        StreamFault::Input(InputFault::TooLarge) => push(line, b"413 TooLarge"),
        StreamFault::Input(InputFault::Unavailable) => push(line, b"100 Unavailable"),
        StreamFault::Write => push(line, b"write fault"),
    }
}

// What a fault says.
fn text_of(fault: Fault) -> LineBuffer
    ensures items { result.items ≡ text_of fault }
    ensures len { length result.items ≤ 58 }
{
    let mut line = LineBuffer::new();
    match fault {
        Fault::Label(fault) => push_label_fault(&mut line, fault),
        Fault::List(fault) => push_list_fault(&mut line, fault),
        Fault::Refused(refusal) => push_refusal(&mut line, refusal),
        Fault::NoChannel => push(&mut line, b"404 NotFound"),
        Fault::Open => push(&mut line, b"open fault"),
        Fault::Listen => push(&mut line, b"listen fault"),
        Fault::Stream(fault) => push_stream_fault(&mut line, fault),
    }
    line
}

/// The line that says a fault, with its end.
pub(crate) fn line_of(fault: Fault) -> LineBuffer
    ensures { result.items ≡ line_of fault }
{
    let mut line = text_of(fault);
    push(&mut line, b"\n");
    line
}
