//! Tests of the crates of memory, devices, tokens, traps' records, files and the lines of a run, by their public
//! calls.
//!
//! They stand apart, since a crate with tests is proved twice.
#![tactic(auto)]

#[cfg(test)]
mod bus;
#[cfg(test)]
mod flow;
#[cfg(test)]
mod handler;
#[cfg(test)]
mod loadstore;
#[cfg(test)]
mod planes;
#[cfg(test)]
mod port;
#[cfg(test)]
mod revoke;
#[cfg(test)]
mod seen;
#[cfg(test)]
mod token;
#[cfg(test)]
mod trace;
