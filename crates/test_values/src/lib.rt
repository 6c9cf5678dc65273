//! Tests of the crates of values, of what no conversation of `tests/conversations` reaches: labels counted one by one,
//! days and what was aired of them beside plain walks over their frames, a full day as a list and back, writers that
//! fail, what the libraries offer beyond the program, and laws. They stand here, so that none of these crates is proved
//! twice.
#![tactic(auto)]

#[cfg(test)]
mod asrun;
#[cfg(test)]
mod asrun_samples;
#[cfg(test)]
mod asrun_walks;
#[cfg(test)]
mod asserts;
#[cfg(test)]
mod calls;
#[cfg(test)]
mod day_lists;
#[cfg(test)]
mod day_walks;
#[cfg(test)]
mod days;
#[cfg(test)]
mod labels;
#[cfg(test)]
mod laws;
#[cfg(test)]
mod libraries;
#[cfg(test)]
mod own_rows;
#[cfg(test)]
mod tables;
#[cfg(test)]
mod umids;
#[cfg(test)]
mod windows;
