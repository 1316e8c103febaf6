//! What a description and its sources are linked to: the parts of one image, or the first fault in
//! the order in which they are judged. The written definition stands in specs/; nothing here
//! computes. docs/use/description.md tells the same in prose.
#![tactic(auto)]

use ct_entry::Owner;
use thiserror::Error;

/// Why a description and its sources aren't linked.
#[derive(Clone, Copy, Debug, PartialEq, Eq, Drop, Error)]
pub enum LinkFault {
    /// A fault of an owner's source: its number after the letter A, and the line from 1.
    #[error("A{number} in line {line}")]
    Asm {
        owner: Owner,
        number: u32,
        line: u32,
    },
    /// L1: the place of an export, by its index, is no label of the text, or no multiple of 4 below
    /// the text's length.
    #[error("export {item} has no place in the text")]
    Export {
        owner: Owner,
        item: u32,
    },
    /// L2: the regions take so many bytes of RAM, which has fewer.
    #[error("{needed} bytes of RAM are needed of {has}")]
    NoRoom {
        needed: u64,
        has: u64,
    },
    /// L3: the source names an import that isn't declared, in this line from 1.
    #[error("an undeclared import in line {line}")]
    Import {
        owner: Owner,
        line: u32,
    },
    /// L4: a library has initial bytes.
    #[error("a library with initial bytes")]
    Initial {
        owner: Owner,
    },
    /// A growth was refused.
    #[error("out of memory")]
    NoMemory,
}
