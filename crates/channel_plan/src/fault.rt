// Why a text is no list.
ghost use Rattle.std.specs.Prelude.{◌≡◌, Some};
ghost use Rattle.channel_plan.specs.Fault.{fault_number, fault_name, fault_text, list_fault_text};
ghost use Rattle.channel_plan.specs.declared.fault.ListFault.TheVariants.{Unavailable};

use std::alloc::{AllocError, AllocFailed};
use std::error::Error;
use std::fmt;
use timecode::TcFault;

/// Why a line is refused.
#[derive(Clone, Copy, Debug, PartialEq, Eq)]
pub enum LineFault {
    /// 21: the line isn't UTF-8.
    NotText,
    /// 22: an event has fewer than 8 fields or more than 10.
    FieldCount,
    /// 23: an event's number isn't one to six digits, or is over 9,999.
    EventNumber,
    /// 24: the words of an event's kind.
    EditKind,
    /// 25: one of an event's labels, with its fault.
    BadLabel(TcFault),
    /// 26: drop-frame at a rate that drops no labels, or the other way round.
    FrameMode,
    /// 27: the source ends before it begins.
    SourceBackwards,
    /// 28: source and record differ in length, and neither a note nor the caller allows it.
    DurationMismatch,
    /// 30: more than 9,999 events that aren't empty.
    TooManyEvents,
}

impl LineFault {
    /// Its number, 21 to 28, or 30.
    pub fn number(self) -> u16
        ensures { result ≡ fault_number self }
    {
        match self {
            LineFault::NotText => 21,
            LineFault::FieldCount => 22,
            LineFault::EventNumber => 23,
            LineFault::EditKind => 24,
            LineFault::BadLabel(_) => 25,
            LineFault::FrameMode => 26,
            LineFault::SourceBackwards => 27,
            LineFault::DurationMismatch => 28,
            LineFault::TooManyEvents => 30,
        }
    }

    /// Its name, as `FieldCount`.
    pub fn name(self) -> &'static str
        ensures { result.now ≡ fault_name self }
    {
        match self {
            LineFault::NotText => "NotText",
            LineFault::FieldCount => "FieldCount",
            LineFault::EventNumber => "EventNumber",
            LineFault::EditKind => "EditKind",
            LineFault::BadLabel(_) => "BadLabel",
            LineFault::FrameMode => "FrameMode",
            LineFault::SourceBackwards => "SourceBackwards",
            LineFault::DurationMismatch => "DurationMismatch",
            LineFault::TooManyEvents => "TooManyEvents",
        }
    }
}

/// Its number and its name, as `22 FieldCount`, and a label's fault behind them, as `25 BadLabel 2 LabelRange`.
impl fmt::Display for LineFault {
    ghost output = { λ fault. Some (fault_text fault) };

    fn fmt<W: fmt::Write>(&self, f: &mut fmt::Formatter<W>) -> fmt::Result {
        let number = self.number();
        let name = self.name();
        match self {
            LineFault::BadLabel(fault) => write!(f, "{number} {name} {fault}"),
            _ => write!(f, "{number} {name}"),
        }
    }
}

impl Error for LineFault {}

/// Why there is no list of a text.
#[derive(Clone, Copy, Debug, PartialEq, Eq)]
pub enum ListFault {
    /// The first line that has a fault, counted from 1, and its first fault.
    InLine(u32, LineFault),
    /// Memory ran out.
    Unavailable,
}

impl ListFault {
    ghost use Rattle.channel_plan.specs.Fault.{line_of, code_of, label_of};

    /// The line that has the fault, counted from 1, or 0 for want of memory.
    pub fn line(self) -> u32
        ensures { result ≡ line_of self }
    {
        match self {
            ListFault::InLine(line, _) => line,
            ListFault::Unavailable => 0,
        }
    }

    /// The fault's number: 21 to 28, 30, or 100 for want of memory.
    pub fn code(self) -> u16
        ensures { result ≡ code_of self }
    {
        match self {
            ListFault::InLine(_, fault) => fault.number(),
            ListFault::Unavailable => 100,
        }
    }

    /// The fault of a label, which 25 alone has.
    pub fn label(self) -> Option<TcFault>
        ensures { result ≡ label_of self }
    {
        match self {
            ListFault::InLine(_, LineFault::BadLabel(fault)) => Some(fault),
            ListFault::InLine(_, _) | ListFault::Unavailable => None,
        }
    }
}

/// As `line 7: 22 FieldCount`, or `100 Unavailable`.
impl fmt::Display for ListFault {
    ghost output = { λ fault. Some (list_fault_text fault) };

    fn fmt<W: fmt::Write>(&self, f: &mut fmt::Formatter<W>) -> fmt::Result {
        match self {
            ListFault::InLine(line, fault) => write!(f, "line {line}: {fault}"),
            ListFault::Unavailable => f.write_str("100 Unavailable"),
        }
    }
}

impl Error for ListFault {}

impl From<AllocError> for ListFault {
    ghost from_gives = { λ _ fault. fault ≡ Unavailable };

    fn from(_error: AllocError) -> ListFault {
        ListFault::Unavailable
    }
}

impl<T: Drop> From<AllocFailed<T>> for ListFault {
    ghost from_gives = { λ _ fault. fault ≡ Unavailable };

    fn from(_error: AllocFailed<T>) -> ListFault {
        ListFault::Unavailable
    }
}
