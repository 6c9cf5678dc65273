//! All of some bytes, or a beginning of them.
ghost use Rattle.std.specs.Prelude.{◌<◌, ◌≤◌, [], ◌∷◌, ◌++◌, length, IfOk, OnOk, OnErr, take};
ghost use Rattle.std.specs.Io.KnownBytes.{Appends, Keeps};
ghost use Rattle.report_texts.specs.Output.{AppendsPart};

use std::io::Write;

/// The writer failed: a call of its own gave an error, or took nothing.
///
/// No other crate can make one, so a function that gives one has it from [`send`].
#[derive(Clone, Copy, Debug, PartialEq, Eq)]
pub struct WriteFault(());

// How many of the bytes the writer took in one call, at least one.
fn write_some<W: Write>(output: &mut W, bytes: &[u8]) -> Result<usize, WriteFault>
    ensures ok { IfOk result (λ n. (0 < n) × (n ≤ length bytes.now)
        × Appends (W.contents output.old) (W.contents output.new) (take n bytes.now)) }
    ensures err { OnErr result (Keeps (W.contents output.old) (W.contents output.new)) }
{
    match output.write(bytes) {
        Ok(0) => Err(WriteFault(())),
        Ok(count) => Ok(count),
        Err(_) => Err(WriteFault(())),
    }
}

/// Writes all the bytes, and flushes. Where the writer fails, takes nothing or is interrupted, a beginning of them was
/// written.
pub fn send<W: Write>(output: &mut W, bytes: &[u8]) -> Result<(), WriteFault>
    ensures ok { OnOk result (Appends (W.contents output.old) (W.contents output.new) bytes.now) }
    ensures err { OnErr result (AppendsPart (W.contents output.old) (W.contents output.new) bytes.now) }
{
    let mut sent = 0;
    while sent < bytes.len() {
        sent += write_some(output, &bytes[sent..])?;
    }
    match output.flush() {
        Ok(()) => Ok(()),
        Err(_) => Err(WriteFault(())),
    }
}

/// Writes a text and the line's end. Where the writer fails, a beginning of them was written.
pub fn print_line<W: Write>(output: &mut W, text: &[u8]) -> Result<(), WriteFault>
    ensures ok { OnOk result (Appends (W.contents output.old) (W.contents output.new) (text.now ++ 10 ∷ [])) }
    ensures err { OnErr result (AppendsPart (W.contents output.old) (W.contents output.new) (text.now ++ 10 ∷ [])) }
{
    send(output, text)?;
    send(output, b"\n")
}
