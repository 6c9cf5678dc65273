//! What was aired of the broadcast days of one channel.
ghost use Rattle.std.specs.Prelude.{◌≡◌, IfOk};
ghost use Rattle.channel_view_model.specs.Tables.{rows_alone};

use asrun_match::DayAsRun;
use std::alloc::Global;
use std::marker::Model;
use timecode::Unavailable;

/// What was aired of broadcast days of one channel, by the numbers of the days. A day of which nothing was aired yet
/// has no row.
#[derive(Drop)]
pub struct Airings {
    airings: Vec<DayAsRun>,
}

impl Model for Airings {
    ghost use Rattle.std.specs.Prelude.{List};
    ghost use Rattle.asrun_match.specs.declared.day.DayAsRun.{DayAsRun};

    ghost Value = { List DayAsRun };

    ghost view = { λ a. a.airings.items };
}

impl Airings {
    ghost use Rattle.std.specs.Prelude.{◌≡◌};

    /// These rows.
    pub fn of(airings: Vec<DayAsRun>) -> Airings
        ensures { result ≡ airings.items }
    {
        Airings { airings }
    }

    /// The rows.
    pub fn as_slice(&self) -> &[DayAsRun]
        ensures { result.now ≡ self.now }
    {
        self.airings.as_slice()
    }
}

/// What was aired by these rows, without their channels, copied.
pub fn airings_alone(alloc: Global, rows: &[(u16, DayAsRun)]) -> Result<Airings, Unavailable>
    ensures { IfOk result (λ airings. airings ≡ rows_alone rows.now) }
{
    let mut airings = Vec::new(alloc);
    for row in rows {
        airings.push(row.1.copied(alloc)?)?;
    }
    Ok(Airings::of(airings))
}
