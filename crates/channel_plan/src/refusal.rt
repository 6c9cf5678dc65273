//! Refusals: why a request changed nothing.
ghost use Rattle.std.specs.Prelude.{◌≡◌, IfOk, Some, string_bytes};
ghost use Rattle.std.specs.Option.{option_map};
ghost use Rattle.channel_plan.specs.Refusal.{text_of, refusal_text};

use crate::LineFault;
use std::alloc::{AllocError, Global};
use std::fmt;
use timecode::{Label, TcFault};
use umid::UmidFault;

/// Which rule refused.
#[derive(Clone, Copy, Debug, PartialEq, Eq)]
pub enum Code {
    /// 1 to 5: the fault of a label.
    Label(TcFault),
    /// 11 to 14: the fault of a UMID.
    Umid(UmidFault),
    /// 21 to 30: the fault of a line of a list.
    List(LineFault),
    /// 41: slot 0, or one above the channel's.
    BadSlot,
    /// 42: a tape stands there.
    SlotTaken,
    /// 43: the channel has a tape of that barcode.
    BarcodeKnown,
    /// 44: not 1 to 8 letters A to Z and digits, or a reel that lists keep for something else.
    BarcodeForm,
    /// 45: the channel has no tape of that number.
    NoTape,
    /// 46: the tape is out already.
    TapeOut,
    /// 47: the tape has a slot already.
    TapeShelved,
    /// 48: the channel has 9,999 tapes.
    VaultFull,
    /// 51: the channel has a clip of that UMID, be it retired.
    UmidKnown,
    /// 52: not 1 to 60 bytes from the blank to `~`, or a blank at an end.
    TitleForm,
    /// 53: no frame, or frames behind the day's last.
    ClipRange,
    /// 54: the channel has no clip of that number.
    NoClip,
    /// 55: the clip is retired.
    ClipRetired,
    /// 56: the channel has 20,000 clips.
    RegisterFull,
    /// 61: a lent clip is offered on.
    LentClip,
    /// 62: the grantee is the channel itself.
    ToSelf,
    /// 63: a grantee that is no channel number.
    BadChannel,
    /// 64: the clip is offered to this grantee already.
    AlreadyOffered,
    /// 65: the channel has no offer of that number.
    NoOffer,
    /// 66: the offer is withdrawn.
    Withdrawn,
    /// 67: the channel has 9,999 offers.
    OffersFull,
    /// 71: the day isn't there.
    NoDay,
    /// 72: the day is there.
    DayKnown,
    /// 73: the day is sealed.
    DaySealed,
    /// 74: the day isn't sealed.
    NotSealed,
    /// 75: a frame of the day is taken; its label.
    Overlap,
    /// 76: a frame of the day is empty; its label.
    Gap,
    /// 77: no such source for this channel.
    NoSource,
    /// 78: a lent clip of another rate.
    RateDiffers,
    /// 79: frames outside the clip.
    SourceRange,
    /// 80: a mix longer than the item.
    MixLong,
    /// 81: an item whose lent clip is withdrawn; its number.
    Recalled,
    /// 82: the day has no item of that number.
    NoItem,
    /// 83: the day has 9,999 items.
    DayFull,
    /// 84: an event of a list at another speed.
    SpeedEvent,
    /// 85: an event of a list that is a key.
    KeyEvent,
    /// 86: frames behind the day's last.
    PastDayEnd,
    /// 87: an item without a frame.
    EmptyItem,
    /// 88: a day outside the window in which the lent clip may be shown.
    OutsideWindow,
    /// 89: an item as long as the day, which no list can say.
    WholeDay,
    /// 91: a row of an as-run batch that isn't one; its number.
    RowForm,
    /// 92: a frame of the day is aired twice; its label.
    AiredTwice,
    /// 93: a batch that is known, with other rows.
    BatchDiffers,
    /// 94: not the next batch of the day.
    BatchOrder,
    /// 95: a batch number over 64.
    BatchesFull,
    /// 96: a plan row that isn't one, or a channel that comes twice.
    PlanRow,
    /// 97: a database whose tables aren't those of a centre, or one that has such tables already.
    NotOurs,
    /// 98: tables of another version.
    SchemaVersion,
    /// 100: memory, or a statement of the store that failed for memory, size or disk.
    Unavailable,
}

impl Code {
    ghost use Rattle.channel_plan.specs.Refusal.{number_of, name_of};

    /// The number of the refusal, as answers give it.
    pub fn number(self) -> u16
        ensures { result ≡ number_of self }
    {
        match self {
            Code::Label(fault) => fault.number(),
            Code::Umid(fault) => fault.number(),
            Code::List(fault) => fault.number(),
            Code::BadSlot => 41,
            Code::SlotTaken => 42,
            Code::BarcodeKnown => 43,
            Code::BarcodeForm => 44,
            Code::NoTape => 45,
            Code::TapeOut => 46,
            Code::TapeShelved => 47,
            Code::VaultFull => 48,
            Code::UmidKnown => 51,
            Code::TitleForm => 52,
            Code::ClipRange => 53,
            Code::NoClip => 54,
            Code::ClipRetired => 55,
            Code::RegisterFull => 56,
            Code::LentClip => 61,
            Code::ToSelf => 62,
            Code::BadChannel => 63,
            Code::AlreadyOffered => 64,
            Code::NoOffer => 65,
            Code::Withdrawn => 66,
            Code::OffersFull => 67,
            Code::NoDay => 71,
            Code::DayKnown => 72,
            Code::DaySealed => 73,
            Code::NotSealed => 74,
            Code::Overlap => 75,
            Code::Gap => 76,
            Code::NoSource => 77,
            Code::RateDiffers => 78,
            Code::SourceRange => 79,
            Code::MixLong => 80,
            Code::Recalled => 81,
            Code::NoItem => 82,
            Code::DayFull => 83,
            Code::SpeedEvent => 84,
            Code::KeyEvent => 85,
            Code::PastDayEnd => 86,
            Code::EmptyItem => 87,
            Code::OutsideWindow => 88,
            Code::WholeDay => 89,
            Code::RowForm => 91,
            Code::AiredTwice => 92,
            Code::BatchDiffers => 93,
            Code::BatchOrder => 94,
            Code::BatchesFull => 95,
            Code::PlanRow => 96,
            Code::NotOurs => 97,
            Code::SchemaVersion => 98,
            Code::Unavailable => 100,
        }
    }

    /// The name of the refusal, as answers give it.
    pub fn name(self) -> &'static str
        ensures { result.now ≡ name_of self }
    {
        match self {
            Code::Label(fault) => fault.name(),
            Code::Umid(fault) => fault.name(),
            Code::List(fault) => fault.name(),
            Code::BadSlot => "BadSlot",
            Code::SlotTaken => "SlotTaken",
            Code::BarcodeKnown => "BarcodeKnown",
            Code::BarcodeForm => "BarcodeForm",
            Code::NoTape => "NoTape",
            Code::TapeOut => "TapeOut",
            Code::TapeShelved => "TapeShelved",
            Code::VaultFull => "VaultFull",
            Code::UmidKnown => "UmidKnown",
            Code::TitleForm => "TitleForm",
            Code::ClipRange => "ClipRange",
            Code::NoClip => "NoClip",
            Code::ClipRetired => "ClipRetired",
            Code::RegisterFull => "RegisterFull",
            Code::LentClip => "LentClip",
            Code::ToSelf => "ToSelf",
            Code::BadChannel => "BadChannel",
            Code::AlreadyOffered => "AlreadyOffered",
            Code::NoOffer => "NoOffer",
            Code::Withdrawn => "Withdrawn",
            Code::OffersFull => "OffersFull",
            Code::NoDay => "NoDay",
            Code::DayKnown => "DayKnown",
            Code::DaySealed => "DaySealed",
            Code::NotSealed => "NotSealed",
            Code::Overlap => "Overlap",
            Code::Gap => "Gap",
            Code::NoSource => "NoSource",
            Code::RateDiffers => "RateDiffers",
            Code::SourceRange => "SourceRange",
            Code::MixLong => "MixLong",
            Code::Recalled => "Recalled",
            Code::NoItem => "NoItem",
            Code::DayFull => "DayFull",
            Code::SpeedEvent => "SpeedEvent",
            Code::KeyEvent => "KeyEvent",
            Code::PastDayEnd => "PastDayEnd",
            Code::EmptyItem => "EmptyItem",
            Code::OutsideWindow => "OutsideWindow",
            Code::WholeDay => "WholeDay",
            Code::RowForm => "RowForm",
            Code::AiredTwice => "AiredTwice",
            Code::BatchDiffers => "BatchDiffers",
            Code::BatchOrder => "BatchOrder",
            Code::BatchesFull => "BatchesFull",
            Code::PlanRow => "PlanRow",
            Code::NotOurs => "NotOurs",
            Code::SchemaVersion => "SchemaVersion",
            Code::Unavailable => "Unavailable",
        }
    }
}

/// The detail that goes with some refusals.
#[derive(Clone, Copy, Debug, PartialEq, Eq)]
pub enum At {
    Nothing,
    /// A place of the day, by its label.
    Place(Label),
    /// A line, a row or an item.
    Count(u32),
    /// A line of a list, and the fault of a label in it.
    LineLabel(u32, TcFault),
}

impl At {
    /// The detail as text: none, the label, the number in decimal, or the numbers of the line and of the fault with a
    /// blank between them.
    pub fn text(&self, alloc: Global) -> Result<Option<String>, AllocError>
        ensures { IfOk result (λ t. option_map string_bytes t ≡ text_of self.now) }
    {
        match self {
            At::Nothing => Ok(None),
            At::Place(label) => Ok(Some(format!(in alloc; "{label}")?)),
            At::Count(n) => Ok(Some(format!(in alloc; "{n}")?)),
            At::LineLabel(line, fault) => {
                let label = fault.number();
                Ok(Some(format!(in alloc; "{line} {label}")?))
            }
        }
    }
}

/// Why a request changed nothing.
#[derive(Clone, Copy, Debug, PartialEq, Eq)]
pub struct Refusal {
    pub code: Code,
    pub at: At,
}

impl Refusal {
    ghost use Rattle.channel_plan.specs.Refusal.{refused};

    /// The refusal of this code, without a detail.
    pub fn of(code: Code) -> Refusal
        ensures { result ≡ refused code }
    {
        Refusal {
            code,
            at: At::Nothing,
        }
    }
}

/// Its number and its name, as `42 SlotTaken`, and a detail behind them, as `75 Overlap at 06:00:00:01`.
impl fmt::Display for Refusal {
    ghost output = { λ refusal. Some (refusal_text refusal) };

    fn fmt<W: fmt::Write>(&self, f: &mut fmt::Formatter<W>) -> fmt::Result {
        let number = self.code.number();
        let name = self.code.name();
        match self.at {
            At::Nothing => write!(f, "{number} {name}"),
            At::Place(label) => write!(f, "{number} {name} at {label}"),
            At::Count(n) => write!(f, "{number} {name} at {n}"),
            At::LineLabel(line, fault) => {
                let label = fault.number();
                write!(f, "{number} {name} at {line} {label}")
            }
        }
    }
}
