//! The faults that end the program.
ghost use Rattle.std.specs.Prelude.{◌≡◌, Some};
ghost use Rattle.playout_lists.specs.declared.fault.Fault.TheVariants.{Label, List as OfList, Refused, Stream};
ghost use Rattle.playout_lists.specs.declared.streams.StreamFault.TheVariants.{Input, Write as Written};

use crate::streams::{InputFault, StreamFault};
use channel_plan::{At, Code, ListFault, Refusal};
use report_texts::WriteFault;
use std::error::Error;
use std::fmt;
use timecode::TcFault;

/// What went wrong, as the one line on standard error that says so.
#[derive(Clone, Copy, Debug, PartialEq, Eq)]
pub enum Fault {
    /// A label with a fault.
    Label(TcFault),
    /// The first fault of an edit list.
    List(ListFault),
    /// A plan that isn't one, tables that aren't a centre's, or want of memory.
    Refused(Refusal),
    /// A channel that isn't in the plan.
    NoChannel,
    /// The file isn't a database that can be opened.
    Open,
    /// The port can't be listened on.
    Listen,
    /// The input or the output.
    Stream(StreamFault),
}

impl Fault {
    /// Want of memory.
    pub const UNAVAILABLE: Fault = Fault::Refused(Refusal {
        code: Code::Unavailable,
        at: At::Nothing,
    });
}

impl fmt::Display for Fault {
    ghost use Rattle.playout_lists.specs.Fault.{text_of};

    ghost output = { λ fault. Some (text_of fault) };

    fn fmt<W: fmt::Write>(&self, f: &mut fmt::Formatter<W>) -> fmt::Result {
        match self {
            Fault::Label(fault) => write!(f, "{fault}"),
            Fault::List(fault) => write!(f, "{fault}"),
            Fault::Refused(refusal) => write!(f, "{refusal}"),
            Fault::NoChannel => f.write_str("404 NotFound"),
            Fault::Open => f.write_str("open fault"),
            Fault::Listen => f.write_str("listen fault"),
            Fault::Stream(fault) => write!(f, "{fault}"),
        }
    }
}

impl Error for Fault {}

impl From<TcFault> for Fault {
    ghost from_gives = { λ fault made. made ≡ Label fault };

    fn from(fault: TcFault) -> Fault {
        Fault::Label(fault)
    }
}

impl From<ListFault> for Fault {
    ghost from_gives = { λ fault made. made ≡ OfList fault };

    fn from(fault: ListFault) -> Fault {
        Fault::List(fault)
    }
}

impl From<Refusal> for Fault {
    ghost from_gives = { λ refusal made. made ≡ Refused refusal };

    fn from(refusal: Refusal) -> Fault {
        Fault::Refused(refusal)
    }
}

impl From<StreamFault> for Fault {
    ghost from_gives = { λ fault made. made ≡ Stream fault };

    fn from(fault: StreamFault) -> Fault {
        Fault::Stream(fault)
    }
}

impl From<InputFault> for Fault {
    ghost from_gives = { λ fault made. made ≡ Stream (Input fault) };

    fn from(fault: InputFault) -> Fault {
        Fault::Stream(StreamFault::Input(fault))
    }
}

impl From<WriteFault> for Fault {
    ghost from_gives = { λ _ made. made ≡ Stream Written };

    fn from(_fault: WriteFault) -> Fault {
        Fault::Stream(StreamFault::Write)
    }
}
