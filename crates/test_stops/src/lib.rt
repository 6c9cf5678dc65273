//! Tests of a centre in two files, each of which is stopped at each call in turn: while it is made, while the messages of a
//! broadcast day are answered, and while tables of version 1 become those of version 2. What is found then is what was
//! acknowledged, or this and what was running whole.
#![tactic(auto)]

#[cfg(test)]
mod centre;
#[cfg(test)]
mod day;
#[cfg(test)]
mod files;
#[cfg(test)]
mod making;
#[cfg(test)]
mod messages;
#[cfg(test)]
mod migration;
#[cfg(test)]
mod stops;
#[cfg(test)]
mod tests;
