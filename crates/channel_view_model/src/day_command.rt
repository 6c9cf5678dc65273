//! Commands on a broadcast day.
use crate::revision::Revision;
use channel_plan::LAST_DAY;
use playlist_core::MAX_MIX;
use std::marker::Model;
use vault_core::RawText;

/// The number of a broadcast day, 1 to 99,999.
#[derive(Clone, Copy)]
pub struct DayNumber {
    number: u32,
}

impl Model for DayNumber {
    ghost use Rattle.std.specs.Prelude.{ℕ, ◌<◌, ◌≤◌};
    ghost use Rattle.channel_plan.specs.Limits.{last_day};

    ghost Value = { ℕ };

    ghost view = { λ d. d.number };

    ghost invariant = { λ d. (0 < d.number) × (d.number ≤ last_day) };

    ghost inverse = { λ n. record { number = n } };
}

impl DayNumber {
    ghost use Rattle.std.specs.Prelude.{◌≡◌, ◌<◌, ◌≤◌};
    ghost use Rattle.channel_plan.specs.Limits.{last_day};
    ghost use Rattle.channel_view_model.specs.Days.{day_number};

    /// This number, if it is one of a day.
    pub fn new(number: u32) -> Option<DayNumber>
        ensures { result ≡ day_number number }
    {
        if number == 0 || number > LAST_DAY {
            return None;
        }
        Some(DayNumber { number })
    }

    /// The number.
    pub fn get(self) -> u32
        ensures value { result ≡ self }
        ensures range { (0 < result) × (result ≤ last_day) }
    {
        self.number
    }
}

/// The frames over which the picture changes to an item, at most 999.
#[derive(Clone, Copy)]
pub struct Mix {
    frames: u16,
}

impl Model for Mix {
    ghost use Rattle.std.specs.Prelude.{ℕ, ◌≤◌};
    ghost use Rattle.playlist_core.specs.Limits.{most_mix};

    ghost Value = { ℕ };

    ghost view = { λ m. m.frames };

    ghost invariant = { λ m. m.frames ≤ most_mix };

    ghost inverse = { λ n. record { frames = n } };
}

impl Mix {
    ghost use Rattle.playlist_core.specs.Limits.{most_mix};
    ghost use Rattle.std.specs.Prelude.{◌≡◌, ◌≤◌};
    ghost use Rattle.channel_view_model.specs.Days.{mix_frames};

    /// So many frames, if a mix may have them.
    pub fn new(frames: u32) -> Option<Mix>
        ensures { result ≡ mix_frames frames }
    {
        if frames > u32::from(MAX_MIX) {
            return None;
        }
        Some(Mix {
            frames: frames as u16,
        })
    }

    /// The frames.
    pub fn get(self) -> u16
        ensures value { result ≡ self }
        ensures range { result ≤ most_mix }
    {
        self.frames
    }
}

/// An edit list or a batch as it was handed in: fewer than 4,294,967,296 bytes.
#[derive(Drop)]
pub struct Upload {
    bytes: Vec<u8>,
}

impl Model for Upload {
    ghost use Rattle.std.specs.Prelude.{ℕ, List, length, ◌<◌, ◌^◌};

    ghost Value = { List ℕ };

    ghost view = { λ l. l.bytes.items };

    ghost invariant = { λ l. length l.bytes.items < 2 ^ 32 };
}

impl Upload {
    ghost use Rattle.std.specs.Prelude.{◌≡◌, ◌<◌, ◌≤◌, ◌^◌, length, IfSome, IfNone};

    /// These bytes, if they aren't too many.
    pub fn new(bytes: Vec<u8>) -> Option<Upload>
        ensures some { IfSome result (λ l. l ≡ bytes.items) }
        ensures none { IfNone result (2 ^ 32 ≤ length bytes.items) }
    {
        if bytes.len() >= 1 << 32 {
            return None;
        }
        Some(Upload { bytes })
    }

    /// The bytes.
    pub fn as_bytes(&self) -> &[u8]
        ensures value { result.now ≡ self.now }
        ensures short { length result.now < 2 ^ 32 }
    {
        self.bytes.as_slice()
    }
}

/// A command on one broadcast day.
#[derive(Drop)]
pub enum DayCommand {
    /// Open the day.
    Open,
    /// Add an item. `at` is the label at which it is aired, `frames` its length, `source` the reel of what it shows and
    /// `source_in` the label of its first source frame. With a mix it is a dissolve, without one a cut.
    AddItem {
        at: RawText,
        frames: u32,
        source_in: RawText,
        mix: Mix,
        source: RawText,
    },
    /// Take the item with this number out.
    RemoveItem {
        item: u32,
    },
    /// Take items out and put others in, all or none.
    Revise {
        revision: Revision,
    },
    /// Add the events of an edit list, all or none.
    Import {
        list: Upload,
        /// Whether an event may have two durations.
        ignore_timecode_mismatch: bool,
    },
    /// Seal the day: it changes no more.
    Seal,
    /// Write the plan table. It changes nothing.
    WritePlan,
    /// Write the day as an edit list. It changes nothing.
    ExportList,
}

impl DayCommand {
    ghost use Rattle.std.specs.Prelude.{◌≡◌, true};
    ghost use Rattle.channel_view_model.specs.Decide.{numbers_in_range};

    /// A law: the number of its day, the mix of its item and its revision are in range.
    pub fn is_asked_of(&self, day: &DayNumber)
        ensures { numbers_in_range day.now self.now ≡ true }
    {
        let _number = day.get();
        if let DayCommand::AddItem { mix, .. } = self {
            let _mix = mix.get();
        }
        if let DayCommand::Revise { revision } = self {
            revision.keeps_the_form();
        }
    }
}
