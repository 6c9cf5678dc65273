//! Timecode at 24, 25 and 30 frames a second and at drop-frame 30000/1001, by SMPTE ST 12-1.
//!
//! - `to_timecode` gives each frame of a day the label that counting frame after frame comes to, and
//!   `from_timecode` gives each label its frame: neither counts, and both answer every input.
//! - Drop-frame counting drops labels and no frames: a label that is dropped is refused, and never
//!   read as the one after it.
//! - `Label::frame` gives a label its frame with no text between.
//! - Each refusal says which rule the text or the number broke, the first one where there are several.
//! - `TimeRange` compares ranges of frames and makes others of them, by the names of OpenTimelineIO.
//! - `decimal_number` and `whole_number` read the numbers of texts, for every format that has some.
//! - Nothing takes memory.
//!
//! A day is 24 hours of labels, 00:00:00:00 to 23:59:59 and the last frame of that second. Frames of a day
//! are numbered from 0.
//!
//! ```text
//! let rate: Rate = "df".parse()?;                                  // Rate::Df30
//! let frame = from_timecode(b"00:01:00;02", rate);                 // Ok(1800)
//! let label = to_timecode(1800, rate)?;                            // its Display writes 00:01:00;02
//! let again = label.frame();                                       // Ok(1800)
//! let refused = from_timecode(b"00:01:00;00", rate);               // Err(TcFault::DroppedLabel)
//!
//! let range = TimeRange { start: 1799, duration: 3 };              // frames 1799 to 1801
//! let other = TimeRange { start: 1801, duration: 9 };
//! let both = range.common_part(&other);                            // frame 1801
//! let all = range.extended_by(&other);                             // 11 frames from 1799 on
//! ```
//!
//! `specs/` says what each call means: `Address.antt` which address is counted after which, `Counting.antt` the address
//! of a frame and the length of a day, `LabelReading.antt` which frame a label and a text name, `Range.antt` what
//! ranges are to each other, `Decimal.antt` which number digits write. The module `laws` has what follows for all
//! frames.
//!
//! `laws`: different frames of a day have different addresses, and a frame's label is read back as that
//! frame. Drop-frame drops two labels of each minute but every tenth, and so 108 of each hour. The calls on
//! `TimeRange` mean what OpenTimelineIO's do on whole numbers, but for `common_part`, which is our own.
#![tactic(auto)]

mod conversion;
mod decimal;
mod faults;
mod labels;
pub mod laws;
mod ranges;
mod rates;

pub use conversion::{day_frames, from_timecode, to_timecode};
pub use decimal::{decimal_number, is_digits, whole_number};
pub use faults::{TcFault, Unavailable};
pub use labels::Label;
pub use ranges::TimeRange;
pub use rates::{Rate, UnknownRate};
