//! Tests of the crates of capability words, and of instruction words, their readings, sources and the assembler, by
//! their public calls.
//!
//! They stand apart, since a crate with tests is proved twice.
#![tactic(auto)]

#[cfg(test)]
mod asm;
#[cfg(test)]
mod bits;
#[cfg(test)]
mod bounds;
#[cfg(test)]
mod cap;
#[cfg(test)]
mod capstep;
#[cfg(test)]
mod counter;
#[cfg(test)]
mod decoded;
#[cfg(test)]
mod isa;
#[cfg(test)]
mod perm;
#[cfg(test)]
mod source;
