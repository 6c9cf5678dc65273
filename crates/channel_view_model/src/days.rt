//! The broadcast days of one channel.
ghost use Rattle.std.specs.Prelude.{◌≡◌, IfOk};
ghost use Rattle.channel_view_model.specs.Tables.{rows_alone};

use playlist_core::DayPlan;
use std::alloc::Global;
use std::marker::Model;
use timecode::Unavailable;

/// Broadcast days of one channel, by number.
#[derive(Drop)]
pub struct Days {
    days: Vec<DayPlan>,
}

impl Model for Days {
    ghost use Rattle.std.specs.Prelude.{List};
    ghost use Rattle.playlist_core.specs.Day.{Day};

    ghost Value = { List Day };

    ghost view = { λ d. d.days.items };
}

impl Days {
    ghost use Rattle.std.specs.Prelude.{◌≡◌};

    /// These days.
    pub fn of(days: Vec<DayPlan>) -> Days
        ensures { result ≡ days.items }
    {
        Days { days }
    }

    /// The days.
    pub fn as_slice(&self) -> &[DayPlan]
        ensures { result.now ≡ self.now }
    {
        self.days.as_slice()
    }
}

/// The days of these rows, without their channels, copied.
pub fn days_alone(alloc: Global, rows: &[(u16, DayPlan)]) -> Result<Days, Unavailable>
    ensures { IfOk result (λ days. days ≡ rows_alone rows.now) }
{
    let mut days = Vec::new(alloc);
    for row in rows {
        days.push(row.1.copied(alloc)?)?;
    }
    Ok(Days::of(days))
}
