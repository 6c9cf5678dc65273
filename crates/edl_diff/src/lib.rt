//! Two edit lists, compared frame by frame: what each shows, of the picture and of each channel of sound.
//!
//! A track of a list is painted: its events in their order, each over those before it, as a tape shows the last
//! recording, and through the day's end. A day is a clock: a record through midnight and two events beside it are the
//! same. At each frame of the day both lists show the same source at the same frame, the same one at another, different
//! ones, one list alone shows something, or neither does (`specs/Shown.antt`, `specs/Status.antt`).
//!
//! An event at another speed shows its source spread evenly over its record, whatever speed its note says: its labels
//! say what is shown.
//!
//! It is proved that [`compare`] gives the longest stretches of one [`Status`] of a track, in order: all frames of the
//! day. [`comparison_lines`] has those of all tracks as lines.
//!
//! The code goes by stretches over which neither list comes to another event, and frame by frame only where one of
//! them has another speed.
#![tactic(auto)]

mod comparing;
mod layers;
mod lines;
mod runs;
mod shown;
mod status;
mod track;

pub use comparing::compare;
pub use lines::comparison_lines;
pub use status::{Run, Status};
pub use track::{TRACKS, Track};
