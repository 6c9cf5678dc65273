//! Why the lines of rows that have labels aren't written whole.
use crate::WriteFault;

/// Why the line of a clip or an item, or a table of such lines, wasn't written whole.
#[derive(Clone, Copy, Debug, PartialEq, Eq)]
pub enum RowFault {
    /// A first source frame is none of the day, and so has no label.
    NoLabel,
    /// The writer failed.
    Write(WriteFault),
}

impl From<WriteFault> for RowFault {
    ghost use Rattle.std.specs.Prelude.{◌≡◌};
    ghost use Rattle.report_texts.specs.declared.fault.RowFault.TheVariants.{Write};

    ghost from_gives = { λ fault made. made ≡ Write fault };

    fn from(fault: WriteFault) -> RowFault {
        RowFault::Write(fault)
    }
}
