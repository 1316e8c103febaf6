//! The object that statements stand for, as plain data: places in a source, labels and faults. The
//! written definition is specs/Object. Nothing here computes. docs/use/assembler.md tells the same in
//! prose.
#![tactic(auto)]

use def_source::parts::Section;

/// Where a statement stands: its section, and how many bytes of each section stand before it.
#[derive(Clone, Copy, Drop)]
pub struct Place {
    pub section: Section,
    pub text: u128,
    pub initial: u128,
}

/// A label: the section in which it is defined, how many bytes of that section stand before it, and
/// how many labels and statements stand before it.
#[derive(Clone, Copy, Drop)]
pub struct Label {
    pub section: Section,
    pub offset: u128,
    pub index: u64,
}

/// A fault by its number, and its line.
#[derive(Clone, Copy, Drop)]
pub struct Fault {
    pub number: u32,
    pub line: u32,
}
