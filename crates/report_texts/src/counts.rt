//! What is counted of a day.
use playlist_core::DayState;

/// What the days table tells of a day.
#[derive(Clone, Copy, PartialEq, Eq)]
pub struct DayCounts {
    pub number: u32,
    pub state: DayState,
    /// How many items it has.
    pub items: usize,
    /// Their frames together.
    pub frames: u64,
    /// How many batches of what was aired came for it.
    pub batches: usize,
}
