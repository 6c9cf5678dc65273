//! Rows.

use asrun_match::AiredRow;

/// A batch that is there.
#[derive(Clone, Copy)]
pub struct BatchRow {
    /// The number of its day in its channel, 1 to 99,999 where that day is there.
    pub day: u32,
    /// Its number in its day, 1 to 64 where the rows keep the rules.
    pub number: u32,
}

/// A line of a batch.
#[derive(Clone, Copy)]
pub struct AiredLine {
    /// The number of its day in its channel, 1 to 99,999 where that day is there.
    pub day: u32,
    /// The number of its batch in its day, 1 to 64 where the rows keep the rules.
    pub batch: u32,
    /// Its number in its batch, from 1 where the rows keep the rules.
    pub line: u32,
    /// What aired: its frames of the day and of its reel.
    pub row: AiredRow,
}
