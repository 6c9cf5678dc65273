//! The libraries `timecode`, `umid` and `edl` for C, and for what calls C: one static library, and not one of each
//! crate. So an archive is linked once, and a rate's number stands in one place.
//!
//! Each call says in numbers and structs of C what the call of the library says of the same name, and is proved to:
//! `specs/` says which number stands for what. A text is a pointer to bytes and how many there are; none is
//! zero-terminated. An output is a pointer and how much room there is: nothing is written beyond it, and with a fault
//! nothing is written at all. A rate is 24, 25, 30, or 29 for drop-frame at 30000/1001.
//!
//! A fault is a number: 0 for none; 1 to 5 of a label (`timecode::TcFault`), 6 for a number that is no rate, 7 for an
//! output that is too small, 8 for no range, 9 for an instance number of 2^24 or more, 10 for a list of 2^32 bytes or
//! more, 11 to 14 of a UMID (`umid::UmidFault`), 21 to 30 of a list (`channel_plan::LineFault`), 31 for an event that
//! can't be written, 32 for bytes that are no text, 100 for want of memory.
//!
//! `libraries/c/temolunai.h` declares the calls for C. A null pointer with length 0 is no bytes: the toolchain's
//! exports take it so.
#![tactic(auto)]

mod labels;
mod lists;
mod numbers;
mod ranges;
mod rooms;
mod texts;
mod umids;
mod writing;
