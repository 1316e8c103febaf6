//! Tests of the program over files and output in memory, which tell what they hold: rows of each command, files that
//! can't be read, output that can't be written, the limit of a read, and the pieces of which output is made.
//!
//! They stand apart, since a crate with tests is proved twice.
#![tactic(auto)]

#[cfg(test)]
mod calls;
#[cfg(test)]
mod events;
#[cfg(test)]
mod faults;
#[cfg(test)]
mod outside;
#[cfg(test)]
mod ready;
#[cfg(test)]
mod rows;
#[cfg(test)]
mod samples;
