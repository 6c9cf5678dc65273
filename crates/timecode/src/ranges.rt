//! Ranges of frames, by the names of OpenTimelineIO's opentime.
ghost use Rattle.std.specs.Prelude.{◌≡◌, ℕ, ◌+◌, ◌-◌, ◌<◌, ◌≤◌, ◌^◌, ◌⊎◌, ◌↔◌, min, max, IsTrue, IfSome, SomeIff};
ghost use Rattle.timecode.specs.Range.{end_of, last_of, Covers, Intersects, Overlaps, ContainsRange};
ghost use Rattle.timecode.specs.Range.{extended_by, common_part};

/// A range of frames.
///
/// Where one call takes a frame and another a range, as [`TimeRange::contains`] and [`TimeRange::contains_range`], the
/// latter has `_range` behind opentime's name.
#[derive(Clone, Copy, PartialEq, Eq, PartialOrd, Ord, Hash, Debug)]
pub struct TimeRange {
    /// The first frame.
    pub start: u32,
    /// How many frames; 0 is an empty range.
    pub duration: u32,
}

impl TimeRange {
    /// The range from `start` up to `end`, which is exclusive; `None` where the end is before the start.
    pub fn range_from_start_end_time(start: u32, end: u32) -> Option<TimeRange>
        ensures { SomeIff result (start ≤ end) (record { start = start; duration = end - start }) }
    {
        let duration = end.checked_sub(start)?;
        Some(TimeRange { start, duration })
    }

    /// The frame after the last one.
    pub fn end_time_exclusive(&self) -> u64
        ensures { result ≡ end_of self.now }
    {
        u64::from(self.start) + u64::from(self.duration)
    }

    /// The last frame, or the start of a range without frames.
    pub fn end_time_inclusive(&self) -> u64
        ensures { result ≡ last_of self.now }
    {
        u64::from(self.start) + u64::from(self.duration.saturating_sub(1))
    }

    /// Whether the frame is in the range.
    pub fn contains(&self, frame: u32) -> bool
        ensures { IsTrue result ↔ Covers self.now frame }
    {
        self.start <= frame && u64::from(frame) < self.end_time_exclusive()
    }

    /// Whether the other starts after this one does, and ends before this one does. So no range contains itself.
    pub fn contains_range(&self, other: &TimeRange) -> bool
        ensures { IsTrue result ↔ ContainsRange self.now other.now }
    {
        self.start < other.start && other.end_time_exclusive() < self.end_time_exclusive()
    }

    /// Whether each starts before the other ends. Ranges that only touch don't.
    pub fn intersects(&self, other: &TimeRange) -> bool
        ensures { IsTrue result ↔ Intersects self.now other.now }
    {
        u64::from(self.start) < other.end_time_exclusive()
            && u64::from(other.start) < self.end_time_exclusive()
    }

    /// Whether this one starts before the other does, and ends within the other.
    pub fn overlaps(&self, other: &TimeRange) -> bool
        ensures { IsTrue result ↔ Overlaps self.now other.now }
    {
        let end = self.end_time_exclusive();
        self.start < other.start && u64::from(other.start) < end && end < other.end_time_exclusive()
    }

    /// Whether the other starts just where this one ends.
    pub fn meets(&self, other: &TimeRange) -> bool
        ensures { IsTrue result ↔ (end_of self.now ≡ other.now.start) }
    {
        self.end_time_exclusive() == u64::from(other.start)
    }

    /// Whether this one ends before the other starts. Ranges that meet don't.
    pub fn before(&self, other: &TimeRange) -> bool
        ensures { IsTrue result ↔ (end_of self.now < other.now.start) }
    {
        self.end_time_exclusive() < u64::from(other.start)
    }

    /// The range from the earlier start up to the later end; `None` where its duration is no `u32`. It has the frames
    /// of both. A range without frames counts too, by its start.
    pub fn extended_by(&self, other: &TimeRange) -> Option<TimeRange>
        ensures value { SomeIff result ((extended_by self.now other.now).duration < 2 ^ 32)
            (extended_by self.now other.now) }
        ensures covers { IfSome result (λ range. (frame : ℕ) → (Covers self.now frame ⊎ Covers other.now frame)
            → Covers range frame) }
    {
        let start = self.start.min(other.start);
        let end = self.end_time_exclusive().max(other.end_time_exclusive());
        let duration = u32::try_from(end - u64::from(start)).ok()?;
        Some(TimeRange { start, duration })
    }

    /// The frame itself where the range has it, or else the first or the last frame of the range, whichever is nearer.
    /// A range without frames gives its start.
    pub fn clamped(&self, frame: u32) -> u32
        ensures value { result ≡ min (max frame self.now.start) (last_of self.now) }
        ensures covered { 0 < self.now.duration → Covers self.now result }
    {
        u64::from(frame.max(self.start)).min(self.end_time_inclusive()) as u32
    }

    /// The frames that both have: from the later start up to the earlier end. Ranges that don't intersect have none:
    /// then it is empty, at the later start. The call is this crate's own: opentime's `clamped` of a range keeps the
    /// other's duration before it cuts the end.
    pub fn common_part(&self, other: &TimeRange) -> TimeRange
        ensures value { result ≡ common_part self.now other.now }
        ensures frames { (frame : ℕ) → Covers result frame ↔ (Covers self.now frame × Covers other.now frame) }
    {
        let start = self.start.max(other.start);
        let end = self.end_time_exclusive().min(other.end_time_exclusive());
        // No part is longer than the range.
        let duration = end
            .saturating_sub(u64::from(start))
            .min(u64::from(self.duration)) as u32;
        TimeRange { start, duration }
    }
}
