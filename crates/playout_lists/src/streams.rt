//! All of an input, and why an input or an output fails.
ghost use Rattle.std.specs.Prelude.{◌≡◌, ◌≢◌, ◌<◌, ◌^◌, ◌++◌, ℕ, List, true, false, length, Err, Some, IfOk};
ghost use Rattle.std.specs.Prelude.{IfErr};
ghost use Rattle.std.specs.Io.KnownBytes.{Consumes, IsAtEnd, Keeps};
ghost use Rattle.playout_lists.specs.declared.streams.InputFault.TheVariants as input;
ghost use Rattle.playout_lists.specs.declared.streams.StreamFault.TheVariants.{Input, Write};
ghost use Rattle.playout_lists.specs.Streams.{ReadsAll, InputHas};

use report_texts::WriteFault;
use std::alloc::{AllocError, Global};
use std::error::Error;
use std::fmt::{self, Display};
use std::io::{self, ErrorKind, Read, Write};

/// Why an input isn't read to its end.
#[derive(Clone, Copy, Debug, PartialEq, Eq)]
pub enum InputFault {
    /// The reader failed.
    Read,
    /// There is more than there may be.
    TooLarge,
    /// Memory ran out.
    Unavailable,
}

impl fmt::Display for InputFault {
    ghost use Rattle.playout_lists.specs.Fault.{input_fault_text};

    ghost output = { λ fault. Some (input_fault_text fault) };

    fn fmt<W: fmt::Write>(&self, f: &mut fmt::Formatter<W>) -> fmt::Result {
        f.write_str(match self {
            InputFault::Read => "read fault",
            InputFault::TooLarge => "413 TooLarge",
            InputFault::Unavailable => "100 Unavailable",
        })
    }
}

impl Error for InputFault {}

impl From<io::Error> for InputFault {
    ghost from_gives = { λ _ fault. fault ≡ input.Read };

    fn from(_error: io::Error) -> InputFault {
        InputFault::Read
    }
}

impl From<AllocError> for InputFault {
    ghost from_gives = { λ _ fault. fault ≡ input.Unavailable };

    fn from(_error: AllocError) -> InputFault {
        InputFault::Unavailable
    }
}

/// Why an input isn't read to its end, or what was made of it isn't written.
#[derive(Clone, Copy, Debug, PartialEq, Eq)]
pub enum StreamFault {
    Input(InputFault),
    Write,
}

impl fmt::Display for StreamFault {
    ghost use Rattle.playout_lists.specs.Fault.{stream_fault_text};

    ghost output = { λ fault. Some (stream_fault_text fault) };

    fn fmt<W: fmt::Write>(&self, f: &mut fmt::Formatter<W>) -> fmt::Result {
        match self {
            StreamFault::Input(fault) => write!(f, "{fault}"),
            StreamFault::Write => f.write_str("write fault"),
        }
    }
}

impl Error for StreamFault {}

impl From<InputFault> for StreamFault {
    ghost from_gives = { λ fault stream. stream ≡ Input fault };

    fn from(fault: InputFault) -> StreamFault {
        StreamFault::Input(fault)
    }
}

impl From<WriteFault> for StreamFault {
    ghost from_gives = { λ _ stream. stream ≡ Write };

    fn from(_fault: WriteFault) -> StreamFault {
        StreamFault::Write
    }
}

/// How many bytes are asked of the input at once.
const CHUNK: usize = 4096;

// Puts what one read gives behind what was read. Whether there may be more.
fn read_more<R: Read>(input: &mut R, read: &mut Vec<u8>) -> Result<bool, InputFault>
    ensures more { IfOk result (λ more. more ≡ true → (bytes : List ℕ) × (0 < length bytes)
        × Consumes (R.remaining input.old) (R.remaining input.new) bytes × (read.new.items ≡ read.old.items ++ bytes)) }
    ensures end { IfOk result (λ more. more ≡ false → IsAtEnd (R.remaining input.new)
        × Keeps (R.remaining input.old) (R.remaining input.new) × (read.new.items ≡ read.old.items)) }
    ensures err { result ≢ Err InputFault.TooLarge }
{
    let mut chunk = [0; CHUNK];
    let count = input.read(&mut chunk)?;
    read.extend_from_slice(&chunk[..count])?;
    Ok(count > 0)
}

/// All of the input, where it has at most so many bytes; else `TooLarge`.
pub fn read_input<R: Read>(
    alloc: Global,
    input: &mut R,
    limit: usize,
) -> Result<Vec<u8>, InputFault>
    requires { limit < 2 ^ 32 }
    ensures ok { IfOk result (λ read. ReadsAll limit (R.remaining input.old) (R.remaining input.new) read.items) }
    ensures err { IfErr result (InputHas limit (R.remaining input.old) (R.remaining input.new)) }
{
    let mut read = Vec::new(alloc);
    while read.len() <= limit {
        if !read_more(input, &mut read)? {
            return Ok(read);
        }
    }
    Err(InputFault::TooLarge)
}
