// Labels and frames.
ghost use Rattle.std.specs.Prelude.{◌≡◌, ◌≢◌, ◌≤◌, ◌/◌, ◌↔◌, IsTrue, ◌<◌, ◌*◌, ◌+◌, ◌++◌, ℕ, length, slice_get, Some};
ghost use Rattle.std.specs.Prelude.{take, drop, All};
ghost use Rattle.timecode.specs.Label.{label_of_frame};
ghost use Rattle.timecode.specs.Rate.{rate_of_text};
ghost use Rattle.timecode.specs.LabelReading.{reading_of_text};
ghost use Rattle.timecode.specs.Label.{frame_text};
ghost use Rattle.timecode.specs.Counting.{day_length};
ghost use Rattle.temolunai.specs.Labels.{slot, labels_put, readings_fault, LabelsWritten};
ghost use Rattle.temolunai.specs.Numbers.{rate_numbered, number_of_rate};
ghost use Rattle.temolunai.specs.Labels.{day_frames_at, nominal_frames_at, is_drop_frame_at, reading_of, text_read};
ghost use Rattle.temolunai.specs.Labels.{parts_read, label_read, label_at, label_written, frame_written};

use crate::numbers::{
    DONE, FRAME_RANGE, LABEL_FORM, NO_ROOM, NO_SUCH_RATE, number_of_rate, rate_numbered,
};
use crate::rooms::put;
use timecode::{Label, Rate, TcFault, day_frames, from_timecode, to_timecode};

/// A frame of the day, or the number of the fault why there is none.
#[repr(C)]
#[derive(Clone, Copy)]
pub struct Reading {
    pub fault: u32,
    pub frame: u32,
}

/// A label in its numbers, or the number of the fault why there is none.
#[repr(C)]
#[derive(Clone, Copy)]
pub struct LabelRead {
    pub fault: u32,
    pub hours: u8,
    pub minutes: u8,
    pub seconds: u8,
    pub frames: u8,
}

const NOTHING_READ: Reading = Reading {
    fault: NO_SUCH_RATE,
    frame: 0,
};

/// The rate that `24`, `25`, `30` or `df` names: 24, 25, 30 or 29; 0 for any other text.
#[unsafe(no_mangle)]
pub extern "C" fn temolunai_rate_from_text(text: &[u8]) -> u32
    ensures { result ≡ number_of_rate (rate_of_text text.now) }
{
    number_of_rate(Rate::from_text(text))
}

/// The frames of a day, 24 hours of labels; 0 for a number that is no rate.
#[unsafe(no_mangle)]
pub extern "C" fn temolunai_day_frames(rate: u32) -> u32
    ensures { result ≡ day_frames_at (rate_numbered rate) }
{
    match rate_numbered(rate) {
        Some(rate) => day_frames(rate),
        None => 0,
    }
}

/// How many frames are counted in a second; 0 for a number that is no rate.
#[unsafe(no_mangle)]
pub extern "C" fn temolunai_nominal_frames_per_second(rate: u32) -> u32
    ensures { result ≡ nominal_frames_at (rate_numbered rate) }
{
    match rate_numbered(rate) {
        Some(rate) => u32::from(rate.nominal_frames_per_second()),
        None => 0,
    }
}

/// Whether labels are dropped at the rate.
#[unsafe(no_mangle)]
pub extern "C" fn temolunai_is_drop_frame(rate: u32) -> bool
    ensures { result ≡ is_drop_frame_at (rate_numbered rate) }
{
    match rate_numbered(rate) {
        Some(rate) => rate.is_drop_frame(),
        None => false,
    }
}

// What C gets of a frame.
fn reading_of(read: Result<u32, TcFault>) -> Reading
    ensures { result ≡ reading_of read }
{
    match read {
        Ok(frame) => Reading { fault: DONE, frame },
        Err(fault) => Reading {
            fault: u32::from(fault.number()),
            frame: 0,
        },
    }
}

/// The frame of a label's text, or its first fault: 1 to 4, or 6 for a number that is no rate.
#[unsafe(no_mangle)]
pub extern "C" fn temolunai_from_timecode(text: &[u8], rate: u32) -> Reading
    ensures { result ≡ text_read (rate_numbered rate) text.now }
{
    match rate_numbered(rate) {
        Some(rate) => reading_of(from_timecode(text, rate)),
        None => NOTHING_READ,
    }
}

/// The frame of a label's numbers, or its fault: 2, 4, or 6 for a number that is no rate.
#[unsafe(no_mangle)]
pub extern "C" fn temolunai_label_frame(
    hours: u8,
    minutes: u8,
    seconds: u8,
    frames: u8,
    rate: u32,
) -> Reading
    ensures { result ≡ parts_read (rate_numbered rate) hours minutes seconds frames }
{
    match rate_numbered(rate) {
        Some(rate) => {
            let label = Label {
                hours,
                minutes,
                seconds,
                frames,
                rate,
            };
            reading_of(label.frame())
        }
        None => NOTHING_READ,
    }
}

// What C gets of a label.
fn label_read(read: Result<Label, TcFault>) -> LabelRead
    ensures { result ≡ label_read read }
{
    match read {
        Ok(label) => LabelRead {
            fault: DONE,
            hours: label.hours,
            minutes: label.minutes,
            seconds: label.seconds,
            frames: label.frames,
        },
        Err(fault) => no_label(u32::from(fault.number())),
    }
}

fn no_label(fault: u32) -> LabelRead
    ensures { result ≡ record { fault = fault; hours = 0; minutes = 0; seconds = 0; frames = 0 } }
{
    LabelRead {
        fault,
        hours: 0,
        minutes: 0,
        seconds: 0,
        frames: 0,
    }
}

/// The label of a frame of the day, in its numbers, or its fault: 5, or 6 for a number that is no rate.
#[unsafe(no_mangle)]
pub extern "C" fn temolunai_label(frame: u32, rate: u32) -> LabelRead
    ensures { result ≡ label_at (rate_numbered rate) frame }
{
    match rate_numbered(rate) {
        Some(rate) => label_read(to_timecode(frame, rate)),
        None => no_label(NO_SUCH_RATE),
    }
}

// Writes the label of a frame.
fn write_label(frame: u32, rate: Rate, out: &mut [u8]) -> u32
    requires { 11 ≤ length out.old }
    ensures { (result, out.new) ≡ label_written (label_of_frame rate frame) out.old }
{
    match to_timecode(frame, rate) {
        Ok(label) => { put(&label.bytes(), out) }
        Err(fault) => u32::from(fault.number()),
    }
}

/// Writes the label of a frame of the day, 11 bytes, and gives 0 or the fault: 5, 6 for a number that is no rate, 7
/// where the output is smaller. With a fault nothing was written.
#[unsafe(no_mangle)]
pub extern "C" fn temolunai_to_timecode(frame: u32, rate: u32, out: &mut [u8]) -> u32
    ensures { (result, out.new) ≡ frame_written (rate_numbered rate) frame out.old }
{
    match rate_numbered(rate) {
        None => NO_SUCH_RATE,
        Some(_) if out.len() < 11 => NO_ROOM,
        Some(rate) => write_label(frame, rate, out),
    }
}

// Reads labels of 11 bytes, which stand one behind another.
fn read_labels(texts: &[u8], rate: Rate, out: &mut [Reading])
    requires { 11 * length out.old ≤ length texts.now }
    ensures len { length out.new ≡ length out.old }
    ensures each { (k : ℕ) → k < length out.old →
        slice_get out.new k ≡ Some (reading_of (reading_of_text rate (slot k texts.now))) }
{
    for at in 0..out.len() {
        let label = &texts[11 * at..][..11];
        out[at] = reading_of(from_timecode(label, rate));
    }
}

// Writes a label at a place.
fn put_label(at: usize, label: &[u8], out: &mut [u8])
    requires label { length label.now ≡ 11 }
    requires room { at + 11 ≤ length out.old }
    ensures { out.new ≡ take at out.old ++ (label.now ++ drop (at + 11) out.old) }
{
    out[at..at + 11].copy_from_slice(label);
}

// The label of a frame of the day.
fn frame_label(frame: u32, rate: Rate) -> [u8; 11]
    requires { frame < day_length rate }
    ensures { result ≡ frame_text rate frame }
{
    to_timecode(frame, rate).unwrap().bytes()
}

// Writes labels of 11 bytes, one behind another.
fn write_labels(frames: &[u32], rate: Rate, out: &mut [u8])
    requires room { 11 * length frames.now ≤ length out.old }
    requires in_day { All (λ frame. frame < day_length rate) frames.now }
    ensures { out.new ≡ labels_put rate frames.now out.old }
{
    for at in 0..frames.len() {
        let label = frame_label(frames[at], rate);
        put_label(11 * at, &label, out);
    }
}

// Whether each is a frame of the day.
fn are_in_day(frames: &[u32], rate: Rate) -> bool
    ensures { IsTrue result ↔ All (λ frame. frame < day_length rate) frames.now }
{
    let day = day_frames(rate);
    frames.iter().all(|frame| *frame < day)
}

/// Reads labels of 11 bytes, which stand one behind another, and gives how many: each its frame or its fault. The fault
/// of the call is 1 where the bytes are no multiple of 11, 6 for a number that is no rate, 7 where the output has fewer
/// readings than there are labels. With a fault nothing was written.
#[unsafe(no_mangle)]
pub extern "C" fn temolunai_from_timecodes(texts: &[u8], rate: u32, out: &mut [Reading]) -> u32
    ensures len { length out.new ≡ length out.old }
    ensures fault { result ≡ readings_fault (rate_numbered rate) (length texts.now) (length out.old) }
    ensures each { result ≡ 0 → (k : ℕ) → 11 * k < length texts.now →
        slice_get out.new k ≡ Some (text_read (rate_numbered rate) (slot k texts.now)) }
    ensures others { result ≡ 0 → drop (length texts.now / 11) out.new ≡ drop (length texts.now / 11) out.old }
    ensures kept { result ≢ 0 → out.new ≡ out.old }
{
    let count = texts.len() / 11;
    let Some(rate) = rate_numbered(rate) else {
        return NO_SUCH_RATE;
    };
    if texts.len() % 11 != 0 {
        return LABEL_FORM;
    }
    if out.len() < count {
        return NO_ROOM;
    }
    read_labels(texts, rate, &mut out[..count]);
    DONE
}

/// Writes the labels of frames of the day, 11 bytes each, one behind another. The fault is 5 where a frame isn't of
/// the day, 6 for a number that is no rate, 7 where the output has fewer bytes. With a fault nothing was written.
#[unsafe(no_mangle)]
pub extern "C" fn temolunai_to_timecodes(frames: &[u32], rate: u32, out: &mut [u8]) -> u32
    ensures { LabelsWritten (rate_numbered rate) frames.now out.old (result, out.new) }
{
    let Some(rate) = rate_numbered(rate) else {
        return NO_SUCH_RATE;
    };
    if out.len() / 11 < frames.len() {
        return NO_ROOM;
    }
    if !are_in_day(frames, rate) {
        return FRAME_RANGE;
    }
    write_labels(frames, rate, out);
    DONE
}
