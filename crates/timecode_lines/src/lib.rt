//! Labels and frame numbers, a line each, and what is answered to them, a line each.
//!
//! A line of one to ten digits is the number of a frame, and is answered by its label; any other is a label, and is
//! answered by the number of its frame. One that has a fault is answered by the fault, as `4 DroppedLabel`, so that
//! lines stay beside their answers. Lines end by LF, before which one CR is dropped; what stands behind the last LF is
//! a line too.
#![tactic(auto)]

ghost use Rattle.std.specs.Prelude.{◌≡◌, ◌++◌, ◌∷◌, [], ◌<◌, ◌^◌, ◌+◌, ◌-◌, position, length, IfOk, OnOk, Some};
ghost use Rattle.std.specs.Prelude.{decimal};
ghost use Rattle.std.specs.List.{before_first, after_first};
ghost use Rattle.std.specs.Option.{option_or};
ghost use Rattle.timecode.specs.Decimal.{decimal_number};
ghost use Rattle.timecode.specs.Fault.{fault_text};
ghost use Rattle.timecode.specs.Label.{label_of_frame};
ghost use Rattle.timecode.specs.LabelReading.{reading_of_text};
ghost use Rattle.edl.specs.Text.{is_line_end, without_cr};
ghost use Rattle.timecode_lines.specs.Lines.{label_said, frame_said, said_to, answer, line_written, answered};
ghost use Rattle.timecode_lines.specs.Lines.{first_fault};
ghost use Rattle.timecode_lines.specs.Lines.{fault_at, fault_of};

use channel_plan::{LineFault, ListFault};
use itoa::Buffer;
use std::alloc::{AllocError, Global};
use timecode::{Label, Rate, TcFault, decimal_number, from_timecode, to_timecode};

fn push_number(out: &mut Vec<u8>, number: u32) -> Result<(), AllocError>
    ensures { OnOk result (out.new.items ≡ out.old.items ++ decimal number) }
{
    let mut digits = Buffer::new();
    out.extend_from_slice(digits.format(number).as_bytes())
}

// As `4 DroppedLabel`.
fn push_fault(out: &mut Vec<u8>, fault: TcFault) -> Result<(), AllocError>
    ensures { OnOk result (out.new.items ≡ out.old.items ++ fault_text fault) }
{
    push_number(out, u32::from(fault.number()))?;
    out.push(b' ')?;
    out.extend_from_slice(fault.name().as_bytes())
}

// The label of a frame's number, which may be no frame of any day.
fn label_of(number: u64, rate: Rate) -> Result<Label, TcFault>
    ensures { result ≡ label_of_frame rate number }
{
    match u32::try_from(number) {
        Ok(frame) => to_timecode(frame, rate),
        Err(_) => Err(TcFault::FrameRange),
    }
}

// Writes a frame's label, and gives its fault.
fn push_label(
    out: &mut Vec<u8>,
    label: Result<Label, TcFault>,
) -> Result<Option<TcFault>, AllocError>
    ensures written { OnOk result (out.new.items ++ (10 ∷ []) ≡ out.old.items ++ line_written (label_said label)) }
    ensures fault { IfOk result (λ fault. fault ≡ fault_of (label_said label)) }
{
    match label {
        Ok(label) => {
            out.extend_from_slice(&label.bytes())?;
            Ok(None)
        }
        Err(fault) => {
            push_fault(out, fault)?;
            Ok(Some(fault))
        }
    }
}

// Writes a label's frame, and gives its fault.
fn push_frame(out: &mut Vec<u8>, frame: Result<u32, TcFault>) -> Result<Option<TcFault>, AllocError>
    ensures written { OnOk result (out.new.items ++ (10 ∷ []) ≡ out.old.items ++ line_written (frame_said frame)) }
    ensures fault { IfOk result (λ fault. fault ≡ fault_of (frame_said frame)) }
{
    match frame {
        Ok(frame) => {
            push_number(out, frame)?;
            Ok(None)
        }
        Err(fault) => {
            push_fault(out, fault)?;
            Ok(Some(fault))
        }
    }
}

// Writes what is said to a line, and gives its fault.
#[tactic(auto, unfolding(crate::specs::Lines::answer))]
fn push_said(out: &mut Vec<u8>, line: &[u8], rate: Rate) -> Result<Option<TcFault>, AllocError>
    ensures written { OnOk result (out.new.items ++ (10 ∷ []) ≡ out.old.items ++ line_written (answer rate line.now)) }
    ensures fault { IfOk result (λ fault. fault ≡ fault_of (answer rate line.now)) }
{
    match decimal_number(line, 10) {
        Some(number) => push_label(out, label_of(number, rate)),
        None => push_frame(out, from_timecode(line, rate)),
    }
}

// Writes the line that is answered to a line, and gives its fault.
fn push_answer(out: &mut Vec<u8>, line: &[u8], rate: Rate) -> Result<Option<TcFault>, AllocError>
    ensures written { OnOk result (out.new.items ≡ out.old.items ++ line_written (answer rate line.now)) }
    ensures fault { IfOk result (λ fault. fault ≡ fault_of (answer rate line.now)) }
{
    let fault = push_said(out, line, rate)?;
    out.push(b'\n')?;
    Ok(fault)
}

fn without_cr(line: &[u8]) -> &[u8]
    ensures { result.now ≡ without_cr line.now }
{
    line.strip_suffix(b"\r").unwrap_or(line)
}

// Where the first LF stands.
fn line_end(text: &[u8]) -> Option<usize>
    ensures { result ≡ position is_line_end text.now }
{
    text.iter().position(|byte| *byte == b'\n')
}

// The first line with no line end, and what follows its line end.
fn split_line(text: &[u8]) -> (&[u8], &[u8])
    ensures line { result.0.now ≡ before_first is_line_end text.now }
    ensures rest { result.1.now ≡ after_first is_line_end text.now }
{
    match line_end(text) {
        Some(end) => (&text[..end], &text[end + 1..]),
        None => (text, &[]),
    }
}

/// What is answered to a text.
#[derive(Drop)]
pub struct Answered {
    /// A line for each of its lines.
    pub text: Vec<u8>,
    /// The fault of the first line that has one.
    pub fault: Option<ListFault>,
}

// The fault of a line, if none before it has one.
fn fault_behind(earlier: Option<ListFault>, line: u32, fault: Option<TcFault>) -> Option<ListFault>
    ensures { result ≡ option_or earlier (fault_at line fault) }
{
    match (earlier, fault) {
        (None, Some(fault)) => Some(ListFault::InLine(line, LineFault::BadLabel(fault))),
        (earlier, _) => earlier,
    }
}

/// What is answered to the lines of a text.
pub fn answer_lines(alloc: Global, rate: Rate, text: &[u8]) -> Result<Answered, AllocError>
    requires { length text.now < 2 ^ 32 - 1 }
    ensures text { IfOk result (λ made. made.text.items ≡ answered rate text.now) }
    ensures fault { IfOk result (λ made. made.fault ≡ first_fault rate text.now) }
{
    let mut made = Answered {
        text: Vec::new(alloc),
        fault: None,
    };
    let mut rest = text;
    let mut number = 1u32;
    while !rest.is_empty() {
        let (line, after) = split_line(rest);
        let fault = push_answer(&mut made.text, without_cr(line), rate)?;
        made.fault = fault_behind(made.fault, number, fault);
        number += 1;
        rest = after;
    }
    Ok(made)
}
