//! Owners, and the numbered entries of the report.

/// Whose an entry is. The index counts within its kind from 0, in the description's order.
#[derive(Clone, Copy, Debug, PartialEq, Eq, Drop)]
pub enum Owner {
    /// The boot loader and the native routines.
    Trusted,
    Compartment(u32),
    Library(u32),
    Thread(u32),
}

/// A compartment, by its index.
#[derive(Clone, Copy, PartialEq, Eq, Drop)]
pub struct Comp(pub u32);

/// What an entry gives. The kinds from `Device` to `Key` are slots of an import table.
#[derive(Clone, Copy, PartialEq, Eq, Drop)]
pub enum Kind {
    Code,
    Globals,
    Stack,
    Device,
    Shared,
    Sealed,
    Call,
    Library,
    Service,
    Quota,
    Key,
    Export,
}

/// A row of the report. Rows are numbered from 1.
///
/// `base` and `length` are bytes, `rights` the twelve permission bits, `of` the number of the named
/// export or the index of the device, shared or sealed object or service, else 0, and `limit` a
/// quota's bytes, else 0.
#[derive(Clone, Copy, PartialEq, Eq, Drop)]
pub struct Entry {
    pub owner: Owner,
    pub kind: Kind,
    pub base: u32,
    pub length: u32,
    pub rights: u32,
    pub of: u32,
    pub limit: u32,
}

/// The interrupt posture of an export.
#[derive(Clone, Copy, Debug, PartialEq, Eq, Drop)]
pub enum Mode {
    Inherit,
    Disabled,
    Enabled,
}

/// What an export's entry has beside its row: the entry's number, the address of its code, the stack
/// that it asks for in bytes, how many arguments it takes (0 to 6), its posture, and whether a call
/// passes capabilities.
#[derive(Clone, Copy, PartialEq, Eq, Drop)]
pub struct Gate {
    pub entry: u32,
    pub code: u32,
    pub stack: u32,
    pub args: u32,
    pub posture: Mode,
    pub capabilities: bool,
}

/// The gate of an entry that is no export.
pub const NO_GATE: Gate = Gate {
    entry: 0,
    code: 0,
    stack: 0,
    args: 0,
    posture: Mode::Inherit,
    capabilities: false,
};

/// The rows in the order of their numbers from 1, and one gate for each export in the same order.
#[derive(Drop)]
pub struct Entries {
    pub rows: Vec<Entry>,
    pub gates: Vec<Gate>,
}

use std::marker::Model;

impl Model for Entries {
    ghost use Rattle.ct_entry.specs.Listed.{Listed};

    ghost Value = { Listed };

    ghost view = { λ e. record { rows = e.rows.items; gates = e.gates.items } };
}
