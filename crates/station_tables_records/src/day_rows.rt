//! Rows.
ghost use Rattle.std.specs.Prelude.{◌≡◌};
ghost use Rattle.station_tables_records.specs.MadeDays.{row_of_day, state_of};

use playlist_core::{DayPlan, DayState, Item};

/// A day that is there.
#[derive(Clone, Copy)]
pub struct DayRow {
    /// Its number in its channel, 1 to 99,999 where it keeps the rules.
    pub number: u32,
    /// Whether it is sealed.
    pub sealed: bool,
}

/// An item of a day.
#[derive(Clone, Copy)]
pub struct ItemRow {
    /// The number of its day.
    pub day: u32,
    pub item: Item,
}

/// The state of a day that is there.
pub fn state_of(row: DayRow) -> DayState
    ensures { result ≡ state_of row }
{
    if row.sealed {
        DayState::Sealed
    } else {
        DayState::Open
    }
}

/// The row of a day that is there.
pub fn row_of(day: &DayPlan) -> DayRow
    ensures { result ≡ row_of_day day.now }
{
    DayRow {
        number: day.number(),
        sealed: matches!(day.state(), DayState::Sealed),
    }
}
