//! Policies: what a firmware engineer demands of an image, one rule a line, and which entries of the
//! image's report break a rule. Definitions alone, in specs/; docs/use/policies.md tells the same in
//! prose.
//!
//! Rules has the words of each rule and the text of a policy, Names what a name stands for in an
//! image, Rulings what a rule means there, Texts which texts are policies and what is wrong with
//! others, Resources which imports a rule keeps to some owners, Breaking which entries break a rule.
#![tactic(auto)]

use ct_entry::Owner;
use thiserror::Error;

/// A rule on quotas names at most this many bytes.
pub const MOST_TOTAL: u64 = 2_199_023_255_551;

/// What a rule keeps to the owners that it lists: who may import it.
#[derive(Clone, Copy, PartialEq, Eq, Drop)]
pub enum Resource {
    /// A device, by its index.
    Device,
    /// A shared object, by its index.
    Shared,
    /// A service, by the number of its native routine.
    Service,
    /// An export for calls, by its entry's number.
    Call,
}

/// What a rule is about, by the numbers that its names stand for in an image.
#[derive(Clone, Copy, PartialEq, Eq, Drop)]
pub enum Subject {
    /// The imports of a resource, by its number.
    Only(Resource, u32),
    /// The exports that run with interrupts disabled.
    Disabled,
    /// What a call of an export passes, by its entry's number.
    Data(u32),
    /// The sum of all quotas, in bytes.
    Total(u64),
    /// The sum of an owner's quotas, in bytes.
    Quota(Owner, u64),
    /// Whether an owner reaches a compartment, which is given by its index.
    Apart(Owner, u32),
}

/// Why a text is no policy.
#[derive(Clone, Copy, Debug, PartialEq, Eq, Drop, Error)]
pub enum PolicyFault {
    /// Fault P1 or P2 of docs/use/policies.md, by its number, and the line, counted from 1.
    #[error("P{number} in line {line}")]
    At { number: u32, line: u32 },
    /// A growth was refused.
    #[error("out of memory")]
    NoMemory,
}
