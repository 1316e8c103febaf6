//! Copies of an image's parts.

ghost use Rattle.std.specs.Prelude.{◌≡◌, IfOk};

use crate::parts::{Code, Compartment, Export, Parts, Sealed, Shared, Slot, Thread};
use ct_entry::{Device, Devices};
use std::alloc::{AllocError, Global};

/// A part that is copied.
trait Doubled: Drop {
    fn copied(&self, alloc: Global) -> Result<Self, AllocError>
        ensures { IfOk result (λ x. x ≡ self.now) };
}

/// Copies of the members of a list.
fn all_copied<T: Doubled>(alloc: Global, all: &[T]) -> Result<Vec<T>, AllocError>
    ensures { IfOk result (λ v. v.items ≡ all.now) }
{
    let mut copies = Vec::new(alloc);
    for one in all {
        copies.push(one.copied(alloc)?)?;
    }
    Ok(copies)
}

impl Doubled for Device {
    fn copied(&self, alloc: Global) -> Result<Device, AllocError> {
        Ok(Device {
            name: String::from_str(alloc, self.name.as_str())?,
            kind: self.kind,
            base: self.base,
        })
    }
}

impl Doubled for Shared {
    fn copied(&self, alloc: Global) -> Result<Shared, AllocError> {
        Ok(Shared {
            name: String::from_str(alloc, self.name.as_str())?,
            base: self.base,
            length: self.length,
        })
    }
}

impl Doubled for Sealed {
    fn copied(&self, alloc: Global) -> Result<Sealed, AllocError> {
        Ok(Sealed {
            name: String::from_str(alloc, self.name.as_str())?,
            base: self.base,
            length: self.length,
            seal: self.seal,
            bytes: Vec::from_slice(alloc, self.bytes.as_slice())?,
        })
    }
}

impl Doubled for Slot {
    fn copied(&self, alloc: Global) -> Result<Slot, AllocError> {
        let row = self.row;
        Ok(Slot {
            row,
            name: String::from_str(alloc, self.name.as_str())?,
        })
    }
}

impl Doubled for Export {
    fn copied(&self, alloc: Global) -> Result<Export, AllocError> {
        let row = self.row;
        Ok(Export {
            row,
            name: String::from_str(alloc, self.name.as_str())?,
        })
    }
}

impl Doubled for Code {
    fn copied(&self, alloc: Global) -> Result<Code, AllocError> {
        Ok(Code {
            name: String::from_str(alloc, self.name.as_str())?,
            base: self.base,
            length: self.length,
            slots: all_copied(alloc, self.slots.as_slice())?,
            exports: all_copied(alloc, self.exports.as_slice())?,
            text: Vec::from_slice(alloc, self.text.as_slice())?,
        })
    }
}

impl Doubled for Compartment {
    fn copied(&self, alloc: Global) -> Result<Compartment, AllocError> {
        Ok(Compartment {
            code: self.code.copied(alloc)?,
            table: self.table,
            globals: self.globals,
            globals_length: self.globals_length,
            initial: Vec::from_slice(alloc, self.initial.as_slice())?,
        })
    }
}

impl Doubled for Thread {
    fn copied(&self, alloc: Global) -> Result<Thread, AllocError> {
        Ok(Thread {
            name: String::from_str(alloc, self.name.as_str())?,
            stack: self.stack,
            stack_length: self.stack_length,
            compartment: self.compartment,
            export: self.export,
            priority: self.priority,
            frames: self.frames,
        })
    }
}

/// A copy of parts.
pub fn copied(alloc: Global, parts: &Parts) -> Result<Parts, AllocError>
    ensures { IfOk result (λ p. p ≡ parts.now) }
{
    Ok(Parts {
        version: parts.version,
        sweep: parts.sweep,
        quantum: parts.quantum,
        ram: parts.ram,
        size: parts.size,
        trusted: parts.trusted,
        heap: parts.heap,
        name: String::from_str(alloc, parts.name.as_str())?,
        devices: Devices {
            rows: all_copied(alloc, parts.devices.rows.as_slice())?,
        },
        shared: all_copied(alloc, parts.shared.as_slice())?,
        sealed: all_copied(alloc, parts.sealed.as_slice())?,
        compartments: all_copied(alloc, parts.compartments.as_slice())?,
        libraries: all_copied(alloc, parts.libraries.as_slice())?,
        threads: all_copied(alloc, parts.threads.as_slice())?,
    })
}
