//! The parts that fields stand for.

ghost use Rattle.std.specs.Prelude.{◌≡◌, ◌≤◌, ◌+◌, ◌==◌, map, IfOk, string_bytes};
ghost use Rattle.def_image.specs.Limits as limits;
ghost use Rattle.ct_image_parts.specs.Converted as spec;

use crate::parts::{Code, Compartment, Export, Parts, Sealed, Shared, Slot, Thread};
use ct_entry::{Device, DeviceKind, Devices, Mode};
use ct_image_fields::{
    RawCode, RawCompartment, RawDevice, RawImage, RawSealed, RawShared, RawThread, name_of,
};
use ct_tables::{ExportRow, ImportRow, SlotKind};
use def_image::RawEntry;
use std::alloc::{AllocError, Global};

/// The name in a field, as a text.
fn text_of(alloc: Global, field: &[u8]) -> Result<String, AllocError>
    ensures { IfOk result (λ t. string_bytes t ≡ spec.text_of field.now) }
{
    let name = name_of(field);
    let mut text = String::new(alloc);
    for byte in name {
        text.push(*byte as char)?;
    }
    Ok(text)
}

/// The kind of a slot, by its byte.
fn kind_of(byte: u8) -> SlotKind
    ensures { result ≡ spec.kind_of byte }
{
    match byte {
        1 => SlotKind::Service,
        2 => SlotKind::Device,
        3 => SlotKind::Shared,
        4 => SlotKind::Sealed,
        5 => SlotKind::Call,
        6 => SlotKind::Library,
        7 => SlotKind::Quota,
        _ => SlotKind::Key,
    }
}

/// The posture of an export, by its byte.
fn posture_of(byte: u8) -> Mode
    ensures { result ≡ spec.posture_of byte }
{
    match byte {
        1 => Mode::Inherit,
        2 => Mode::Disabled,
        _ => Mode::Enabled,
    }
}

/// The number at an offset of a row.
fn number_at(row: &[u8; 16], at: usize) -> u32
    requires { at + 4 ≤ 16 }
    ensures { result ≡ limits.number_field row.now at }
{
    u32::from_le_bytes([row[at], row[at + 1], row[at + 2], row[at + 3]])
}

/// A row of an import table.
fn import_of(row: &[u8; 16]) -> ImportRow
    ensures { result ≡ spec.import_of row.now }
{
    ImportRow {
        kind: kind_of(row[0]),
        rights: row[1],
        first: number_at(row, 4),
        second: number_at(row, 8),
    }
}

/// A row of an export table.
fn export_of(row: &[u8; 16]) -> ExportRow
    ensures { result ≡ spec.export_of row.now }
{
    ExportRow {
        offset: number_at(row, 0),
        stack: number_at(row, 4),
        args: row[8],
        posture: posture_of(row[9]),
        capabilities: row[10] == 1,
        entry: number_at(row, 12),
    }
}

/// A part that is made of fields.
trait Made<F>: Drop {
    /// What fields stand for.
    ghost meaning: { F → Self };

    fn of(alloc: Global, fields: &F) -> Result<Self, AllocError>
        ensures { IfOk result (λ x. x ≡ meaning fields.now) };
}

/// The parts of which a list has the fields.
fn all_of<F, P: Made<F>>(alloc: Global, all: &[F]) -> Result<Vec<P>, AllocError>
    ensures { IfOk result (λ v. v.items ≡ map P.meaning all.now) }
{
    let mut parts = Vec::new(alloc);
    for fields in all {
        parts.push(P::of(alloc, fields)?)?;
    }
    Ok(parts)
}

impl Made<RawEntry> for Slot {
    ghost meaning = { spec.slot_of };

    fn of(alloc: Global, entry: &RawEntry) -> Result<Slot, AllocError> {
        let name = text_of(alloc, &entry.name)?;
        let row = import_of(&entry.row);
        Ok(Slot { row, name })
    }
}

impl Made<RawEntry> for Export {
    ghost meaning = { spec.gate_of };

    fn of(alloc: Global, entry: &RawEntry) -> Result<Export, AllocError> {
        let name = text_of(alloc, &entry.name)?;
        let row = export_of(&entry.row);
        Ok(Export { row, name })
    }
}

impl Made<RawDevice> for Device {
    ghost meaning = { spec.device_of };

    fn of(alloc: Global, device: &RawDevice) -> Result<Device, AllocError> {
        Ok(Device {
            name: text_of(alloc, &device.name)?,
            kind: DeviceKind::numbered(device.kind),
            base: device.base,
        })
    }
}

impl Made<RawShared> for Shared {
    ghost meaning = { spec.shared_of };

    fn of(alloc: Global, shared: &RawShared) -> Result<Shared, AllocError> {
        Ok(Shared {
            name: text_of(alloc, &shared.name)?,
            base: shared.base,
            length: shared.length,
        })
    }
}

impl Made<RawSealed> for Sealed {
    ghost meaning = { spec.sealed_of };

    fn of(alloc: Global, sealed: &RawSealed) -> Result<Sealed, AllocError> {
        Ok(Sealed {
            name: text_of(alloc, &sealed.name)?,
            base: sealed.base,
            length: sealed.length,
            seal: sealed.seal,
            bytes: Vec::from_slice(alloc, sealed.bytes.as_slice())?,
        })
    }
}

impl Made<RawCode> for Code {
    ghost meaning = { spec.code_of };

    fn of(alloc: Global, code: &RawCode) -> Result<Code, AllocError> {
        Ok(Code {
            name: text_of(alloc, &code.name)?,
            base: code.base,
            length: code.length,
            slots: all_of(alloc, code.slots.as_slice())?,
            exports: all_of(alloc, code.exports.as_slice())?,
            text: Vec::from_slice(alloc, code.text.as_slice())?,
        })
    }
}

impl Made<RawCompartment> for Compartment {
    ghost meaning = { spec.compartment_of };

    fn of(alloc: Global, compartment: &RawCompartment) -> Result<Compartment, AllocError> {
        Ok(Compartment {
            code: Code::of(alloc, &compartment.code)?,
            table: compartment.table,
            globals: compartment.globals,
            globals_length: compartment.globals_length,
            initial: Vec::from_slice(alloc, compartment.initial.as_slice())?,
        })
    }
}

impl Made<RawThread> for Thread {
    ghost meaning = { spec.thread_of };

    fn of(alloc: Global, thread: &RawThread) -> Result<Thread, AllocError> {
        Ok(Thread {
            name: text_of(alloc, &thread.name)?,
            stack: thread.stack,
            stack_length: thread.stack_length,
            compartment: thread.compartment,
            export: thread.export,
            priority: thread.priority,
            frames: thread.frames,
        })
    }
}

/// The parts that fields stand for.
#[tactic(auto, unfolding(crate::specs::Converted::parts_of))]
pub fn parts_of(alloc: Global, raw: &RawImage) -> Result<Parts, AllocError>
    ensures { IfOk result (λ p. p ≡ spec.parts_of raw.now) }
{
    Ok(Parts {
        version: raw.version,
        sweep: raw.sweep,
        quantum: raw.quantum,
        ram: raw.ram,
        size: raw.size,
        trusted: raw.trusted,
        heap: raw.heap,
        name: text_of(alloc, &raw.name)?,
        devices: Devices {
            rows: all_of(alloc, raw.devices.as_slice())?,
        },
        shared: all_of(alloc, raw.shared.as_slice())?,
        sealed: all_of(alloc, raw.sealed.as_slice())?,
        compartments: all_of(alloc, raw.compartments.as_slice())?,
        libraries: all_of(alloc, raw.libraries.as_slice())?,
        threads: all_of(alloc, raw.threads.as_slice())?,
    })
}
