//! Tests over both stores, of what no conversation of `tests/conversations` reaches: fifty centres in which all that a
//! channel doesn't see differs, over a store that counts for whom it is called and refuses each load, and tables to
//! writers that fail; worked requests, over stores that refuse each load; views, loaded from each store; streams
//! over tables.
#![tactic(auto)]

#[cfg(test)]
mod asked;
#[cfg(test)]
mod asserts;
#[cfg(test)]
mod centres;
#[cfg(test)]
mod others;
#[cfg(test)]
mod printed;
pub mod recording;
#[cfg(test)]
mod script;
#[cfg(test)]
mod streams;
#[cfg(test)]
mod views;
#[cfg(test)]
mod worked;
