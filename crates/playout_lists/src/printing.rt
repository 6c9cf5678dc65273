//! The frame of a label.
ghost use Rattle.std.specs.Prelude.{◌≡◌, ◌≢◌, ◌++◌, [], ◌∷◌, ℕ, Ok, OnOk, IfErr, decimal};
ghost use Rattle.std.specs.Io.KnownBytes.{Appends, Keeps};
ghost use Rattle.timecode.specs.LabelReading.{reading_of_text};
ghost use Rattle.playout_lists.specs.Printing.{PrintHas};
ghost use Rattle.report_texts.specs.Output.{AppendsPart};

use crate::fault::Fault;
use crate::streams::StreamFault;
use report_texts::{LineBuffer, print_line, push_decimal};
use std::io::Write;
use timecode::{Rate, from_timecode};

/// Prints the frame of a label, as one line.
pub fn print_frame<W: Write>(rate: Rate, label: &str, output: &mut W) -> Result<(), Fault>
    ensures ok { OnOk result ((n : ℕ) × (reading_of_text rate label.now ≡ Ok n)
        × Appends (W.contents output.old) (W.contents output.new) (decimal n ++ 10 ∷ [])) }
    ensures err { IfErr result (PrintHas (reading_of_text rate label.now)) }
    ensures kept { IfErr result (λ e. e ≢ Fault.Stream StreamFault.Write →
        Keeps (W.contents output.old) (W.contents output.new)) }
    ensures unwritten { IfErr result (λ e. e ≡ Fault.Stream StreamFault.Write →
        (n : ℕ) × (reading_of_text rate label.now ≡ Ok n)
        × AppendsPart (W.contents output.old) (W.contents output.new) (decimal n ++ 10 ∷ [])) }
{
    let frame = from_timecode(label.as_bytes(), rate)?;
    let mut digits = LineBuffer::new();
    push_decimal(&mut digits, frame);
    print_line(output, digits.as_slice())?;
    Ok(())
}
