//! From labels to frame numbers and back, by division.
ghost use Rattle.std.specs.Prelude.{◌≡◌, ◌≢◌, ◌≤◌, ◌<◌, ◌*◌, ◌+◌, ◌/◌, ◌%◌, ◌-◌, IsTrue, IsFalse, IfOk, SomeIff};
ghost use Rattle.std.specs.Prelude.{MatchOption, Ok};
ghost use Rattle.std.specs.Char.{is_ascii_digit};
ghost use Rattle.timecode.specs.Address.{address, is_in_range};
ghost use Rattle.timecode.specs.Counting.{IsDayLength, address_of_frame, day_length, frame_at};
ghost use Rattle.timecode.specs.Label.{address_of_label, label_of_frame};
ghost use Rattle.timecode.specs.LabelReading.{address_of_text, reading_of_text, has_label_form, has_drop_mark, is_mark};
ghost use Rattle.timecode.specs.LabelReading.{frame_of_label};

use crate::faults::TcFault;
use crate::labels::Label;
use crate::rates::Rate;

/// The frames of a day, 24 hours of labels: 2,073,600 at 24, 2,160,000 at 25, 2,592,000 at 30 and 2,589,408
/// at drop-frame (SMPTE ST 12-1).
pub fn day_frames(rate: Rate) -> u32
    ensures value { result ≡ day_length rate }
    ensures counted { IsDayLength rate result }
    ensures at_most { result ≤ 2592000 }
{
    match rate {
        Rate::F24 => 2_073_600,
        Rate::F25 => 2_160_000,
        Rate::F30 => 2_592_000,
        Rate::Df30 => 2_589_408,
    }
}

/// The label of a frame of the day (SMPTE ST 12-1, time address). Frames are numbered from 0, which is
/// 00:00:00:00; `day_frames` and more is `FrameRange`.
pub fn to_timecode(frame: u32, rate: Rate) -> Result<Label, TcFault>
    ensures label { result ≡ label_of_frame rate frame }
    ensures in_range { IfOk result (λ label.
        IsTrue (is_in_range rate (address_of_label label))) }
{
    if frame >= day_frames(rate) {
        return Err(TcFault::FrameRange);
    }
    let counts = u32::from(rate.nominal_frames_per_second());
    let labels_before = if rate.is_drop_frame() {
        frame + labels_dropped_before(frame)
    } else {
        frame
    };
    let seconds = labels_before / counts;
    Ok(Label {
        hours: (seconds / 3600) as u8,
        minutes: (seconds / 60 % 60) as u8,
        seconds: (seconds % 60) as u8,
        frames: (labels_before % counts) as u8,
        rate,
    })
}

/// Frames in ten minutes of drop-frame counting.
const FRAMES_IN_TEN_MINUTES: u32 = 17_982;
/// Frames in a minute of drop-frame counting that lacks two labels.
const FRAMES_IN_SHORT_MINUTE: u32 = 1_798;

/// How many labels drop-frame counting drops before a frame of the day: 18 in each ten minutes, and two
/// in each minute begun since but the first.
fn labels_dropped_before(frame: u32) -> u32
    requires { frame < 2589408 }
    // Two for each minute that has begun with the frame's label, but for each tenth minute none.
    ensures dropped { let minute = (frame + result) / 1800 in result ≡ 2 * (minute - minute / 10) }
    ensures kept { (frame + result) / 1800 % 10 ≢ 0 → 2 ≤ (frame + result) % 1800 }
{
    let since_tenth_minute = (frame % FRAMES_IN_TEN_MINUTES).saturating_sub(2);
    18 * (frame / FRAMES_IN_TEN_MINUTES) + 2 * (since_tenth_minute / FRAMES_IN_SHORT_MINUTE)
}

/// The frame of the day that a label names: the text has 11 bytes, `HH:MM:SS:FF`, with `:` or `;` in each of
/// the three places between at drop-frame, and with `:` alone at the other rates.
///
/// An error is the first of these that the text has: `LabelForm`, `LabelRange`, `DropMark`, `DroppedLabel`.
#[tactic(auto, using(crate::proofs::Readings::readings))]
pub fn from_timecode(text: &[u8], rate: Rate) -> Result<u32, TcFault>
    ensures reading { result ≡ reading_of_text rate text.now }
    ensures frame { IfOk result (λ n.
        (n < day_length rate) × (address_of_frame rate n ≡ address_of_text text.now)) }
{
    let Some(parts) = parts_of(text) else {
        return Err(TcFault::LabelForm);
    };
    if !parts.is_in_range(rate) {
        return Err(TcFault::LabelRange);
    }
    if parts.has_drop_mark && !rate.is_drop_frame() {
        return Err(TcFault::DropMark);
    }
    parts.frame(rate).ok_or(TcFault::DroppedLabel)
}

impl Label {
    /// The frame of the day that the label names (SMPTE ST 12-1): the one of which `to_timecode` gives this label.
    ///
    /// An error is `LabelRange` where a number is out of its range, or else `DroppedLabel` where drop-frame counting
    /// drops the label.
    pub fn frame(&self) -> Result<u32, TcFault>
        ensures value { result ≡ frame_of_label self.now }
        ensures labelled { IfOk result (λ n. label_of_frame self.now.rate n ≡ Ok self.now) }
    {
        let parts = Parts {
            hours: self.hours,
            minutes: self.minutes,
            seconds: self.seconds,
            frames: self.frames,
            has_drop_mark: false,
        };
        if !parts.is_in_range(self.rate) {
            return Err(TcFault::LabelRange);
        }
        parts.frame(self.rate).ok_or(TcFault::DroppedLabel)
    }
}

/// The numbers of a label's text, which a rate may refuse.
#[derive(Clone, Copy)]
struct Parts {
    hours: u8,
    minutes: u8,
    seconds: u8,
    frames: u8,
    has_drop_mark: bool,
}

impl Parts {
    fn is_in_range(&self, rate: Rate) -> bool
        ensures { result ≡ is_in_range rate
            (address self.now.hours self.now.minutes self.now.seconds self.now.frames) }
    {
        self.hours < 24
            && self.minutes < 60
            && self.seconds < 60
            && self.frames < rate.nominal_frames_per_second()
    }

    /// The frame of the day that has this address; `None` where drop-frame counting drops the label.
    #[tactic(auto, using(crate::proofs::Days::frames))]
    fn frame(&self, rate: Rate) -> Option<u32>
        requires { IsTrue (is_in_range rate
            (address self.now.hours self.now.minutes self.now.seconds self.now.frames)) }
        ensures { result ≡ frame_at rate
            (address self.now.hours self.now.minutes self.now.seconds self.now.frames) }
    {
        let minutes = u32::from(self.hours) * 60 + u32::from(self.minutes);
        let seconds = minutes * 60 + u32::from(self.seconds);
        let labels_before = seconds * u32::from(rate.nominal_frames_per_second())
            + u32::from(self.frames);
        if !rate.is_drop_frame() {
            return Some(labels_before);
        }
        if self.seconds == 0 && self.frames < 2 && self.minutes % 10 != 0 {
            return None;
        }
        Some(labels_before - 2 * (minutes - minutes / 10))
    }
}

/// The numbers of a text of the form `HH:MM:SS:FF`, with `:` or `;` between.
fn parts_of(text: &[u8]) -> Option<Parts>
    ensures { MatchOption result (IsFalse (has_label_form text.now)) (λ parts.
        IsTrue (has_label_form text.now)
        × (address parts.hours parts.minutes parts.seconds parts.frames ≡ address_of_text text.now)
        × (parts.has_drop_mark ≡ has_drop_mark text.now)) }
{
    let &[h1, h0, first, m1, m0, second, s1, s0, third, f1, f0] = text else {
        return None;
    };
    if !is_mark(first) || !is_mark(second) || !is_mark(third) {
        return None;
    }
    Some(Parts {
        hours: two_digits(h1, h0)?,
        minutes: two_digits(m1, m0)?,
        seconds: two_digits(s1, s0)?,
        frames: two_digits(f1, f0)?,
        has_drop_mark: first == b';' || second == b';' || third == b';',
    })
}

/// The number that two decimal digits write, or `None` where one of the bytes is no digit.
fn two_digits(tens: u8, units: u8) -> Option<u8>
    ensures { SomeIff result (IsTrue (is_ascii_digit tens) × IsTrue (is_ascii_digit units))
        (10 * (tens - 48) + (units - 48)) }
{
    if tens.is_ascii_digit() && units.is_ascii_digit() {
        Some(10 * (tens - b'0') + (units - b'0'))
    } else {
        None
    }
}

/// Whether the byte may stand between two numbers of a label.
fn is_mark(byte: u8) -> bool
    ensures { result ≡ is_mark byte }
{
    byte == b':' || byte == b';'
}
