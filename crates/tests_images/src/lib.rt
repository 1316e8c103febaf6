//! Tests of the crates of descriptions, placement, images and the sharing graph, by their public
//! calls.
//!
//! They stand apart, since a crate with tests is proved twice.
#![tactic(auto)]

#[cfg(test)]
mod generated;
#[cfg(test)]
mod graph;
#[cfg(test)]
mod launch;
#[cfg(test)]
mod licence;
#[cfg(test)]
mod seen;
#[cfg(test)]
mod start;
#[cfg(test)]
mod tables;
