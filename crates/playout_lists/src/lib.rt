//! What the program does with labels and lists, over any reader and any writer, and how each fault is told.
//!
//! - [`read_input`] reads all of an input, as far as it isn't too large.
//! - [`check_input`] counts what an edit list holds, [`list_input`] prints its events, [`print_frame`] prints the frame
//!   of a label, and [`count_lines`] answers lines of labels and of frame numbers.
//! - [`check_files`] checks the lists in files, and [`compare_files`] compares those in two, frame by frame. [`Lists`]
//!   is the machine that has them.
//! - [`limit`] has each read and each write of a connection wait so long at most.
//! - [`FaultLines`] says what went wrong, each [`Fault`] as one line. [`exit_status`] gives the exit status beside it,
//!   [`served_status`] that of what may have told faults already, and [`compared_status`] that of a comparison.
//!
//! A fault is one that the label, the input or the file has: its clause says which. With a fault of the output a
//! beginning of what was to be written is written. With another one nothing is, but the lines of files before it, and
//! the answers to all lines, one of which has the fault.
//!
//! **Each fault is said.** Its line stands on standard error, whole, unless a write of it has failed (`Tells`). That
//! one has is known of this very writer, and of no other ([`FaultWriter`]).
#![tactic(auto)]

mod checking;
mod comparing;
mod counting;
mod fault;
mod fault_text;
mod fault_writer;
mod limits;
mod listing;
mod named;
mod printing;
mod status;
mod streams;
mod telling;

pub use checking::check_input;
pub use comparing::{CompareFault, compare_files, compared_status};
pub use counting::count_lines;
pub use fault::Fault;
pub use fault_writer::{FaultLines, FaultWriter};
pub use limits::{Limited, limit};
pub use listing::list_input;
pub use named::{Lists, check_files};
pub use printing::print_frame;
pub use status::{exit_status, served_status};
pub use streams::{InputFault, StreamFault, read_input};
