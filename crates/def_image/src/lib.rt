//! What a linked image consists of, as plain data: its table rows, and the sizes of its parts. Parts, spelling and what
//! an image is asked for stand in specs/; nothing here computes but what differs from version to version.
#![tactic(auto)]

pub mod format;
pub mod versions;

use ct_entry::Mode;

/// What a slot of an import table is of. A kind's byte in a row is its place in this list, from 1.
#[derive(Clone, Copy, Debug, PartialEq, Eq, Drop)]
pub enum SlotKind {
    Service,
    Device,
    Shared,
    Sealed,
    Call,
    Library,
    Quota,
    Key,
}

/// A row of an import table. `rights` are six packed bits. `first` is the number of the service, the
/// index of the device, object, compartment or library, the quota's limit in bytes, or the key's
/// type; `second` the index of the export of a call or of a library, else 0.
#[derive(Clone, Copy, Debug, PartialEq, Eq, Drop)]
pub struct ImportRow {
    pub kind: SlotKind,
    pub rights: u8,
    pub first: u32,
    pub second: u32,
}

/// A row of an export table: the offset in the text and the stack that a call asks for, both in
/// bytes, how many arguments it takes, its posture, whether it passes capabilities, and its entry's
/// number.
#[derive(Clone, Copy, Debug, PartialEq, Eq, Drop)]
pub struct ExportRow {
    pub offset: u32,
    pub stack: u32,
    pub args: u8,
    pub posture: Mode,
    pub capabilities: bool,
    pub entry: u32,
}

/// A row of 16 bytes with its name of 32, as they stand in an image: a slot, or an export.
#[derive(Clone, Copy, Drop)]
pub struct RawEntry {
    pub row: [u8; 16],
    pub name: [u8; 32],
}

/// What is asked at a place of an image, by its offset in bytes, and whether it fails.
#[derive(Clone, Copy, Drop)]
pub struct Check {
    pub place: u32,
    pub fails: bool,
}
