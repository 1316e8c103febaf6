//! The exports of an owner, numbered by their entries.

ghost use Rattle.std.specs.Prelude.{◌≡◌, ◌+◌, ◌<◌, ◌^◌, length, unwrap_or, IfOk};
ghost use Rattle.def_link.specs.Owners as owners;
ghost use Rattle.def_link.specs.Slots as spec;
ghost use Rattle.ct_link_objects.specs.Objects.{built_of};
ghost use Rattle.ct_link.specs.Rows.{AreGated};

use ct_asm::Object;
use ct_desc_rows::{At, Export, LibraryExport};
use ct_image_parts::Export as Gate;
use ct_link_objects::begin_of;
use def_desc::Passes;
use def_image::ExportRow;
use std::alloc::{AllocError, Global};

/// The offset at which an export begins; 0 where it begins nowhere.
#[tactic(auto, using(crate::proofs::Begins::begins_small))]
fn offset_of(object: &Object, at: &At) -> u32
    requires { length object.now.text < 2 ^ 32 }
    ensures { result ≡ unwrap_or (owners.begin_of (built_of object.now) at.now) 0 }
{
    match begin_of(object, at) {
        Some(offset) => offset as u32,
        None => 0,
    }
}

fn passes_capabilities(passes: Passes) -> bool
    ensures { result ≡ spec.passes_capabilities passes }
{
    match passes {
        Passes::Capabilities => true,
        Passes::Data => false,
    }
}

/// The export of a name.
fn gate(alloc: Global, name: &str, row: ExportRow) -> Result<Gate, AllocError>
    ensures { IfOk result (λ x. x ≡ spec.gate_row name.now row) }
{
    let name = String::from_str(alloc, name)?;
    Ok(Gate { row, name })
}

/// An export of a compartment, by its entry's number.
fn export_gate(
    alloc: Global,
    object: &Object,
    entry: u32,
    export: &Export,
) -> Result<Gate, AllocError>
    requires text { length object.now.text < 2 ^ 32 }
    requires args { export.now.args < 256 }
    ensures { IfOk result (λ x. x ≡ spec.export_gate (built_of object.now) entry export.now) }
{
    let row = ExportRow {
        offset: offset_of(object, &export.at),
        stack: export.stack,
        args: export.args as u8,
        posture: export.posture,
        capabilities: passes_capabilities(export.passes),
        entry,
    };
    gate(alloc, export.name.as_str(), row)
}

/// An export of a library, which passes what its caller has.
fn library_gate(
    alloc: Global,
    object: &Object,
    entry: u32,
    export: &LibraryExport,
) -> Result<Gate, AllocError>
    requires { length object.now.text < 2 ^ 32 }
    ensures { IfOk result (λ x. x ≡ spec.lexport_gate (built_of object.now) entry export.now) }
{
    let row = ExportRow {
        offset: offset_of(object, &export.at),
        stack: 0,
        args: 0,
        posture: export.posture,
        capabilities: true,
        entry,
    };
    gate(alloc, export.name.as_str(), row)
}

/// The exports of a compartment whose object this is; the first has this entry.
///
/// Condition: text and entries are of 32 bits, and no export has more arguments than a byte counts.
#[tactic(auto, using(crate::proofs::Stretches::numbered_more, law_lists::proofs::Places::at_each))]
pub(crate) fn compartment_gates(
    alloc: Global,
    object: &Object,
    entry: u32,
    exports: &[Export],
) -> Result<Vec<Gate>, AllocError>
    requires { AreGated object.now entry exports.now }
    ensures { IfOk result (λ v. v.items
        ≡ owners.numbered (spec.export_gate (built_of object.now)) entry exports.now) }
{
    let mut gates = Vec::new(alloc);
    let mut number = entry;
    for export in exports {
        gates.push(export_gate(alloc, object, number, export)?)?;
        number += 1;
    }
    Ok(gates)
}

/// The exports of a library whose object this is; the first has this entry.
///
/// Condition: text and entries are of 32 bits.
#[tactic(auto, using(crate::proofs::Stretches::numbered_more))]
pub(crate) fn library_gates(
    alloc: Global,
    object: &Object,
    entry: u32,
    exports: &[LibraryExport],
) -> Result<Vec<Gate>, AllocError>
    requires text { length object.now.text < 2 ^ 32 }
    requires few { entry + length exports.now < 2 ^ 32 }
    ensures { IfOk result (λ v. v.items
        ≡ owners.numbered (spec.lexport_gate (built_of object.now)) entry exports.now) }
{
    let mut gates = Vec::new(alloc);
    let mut number = entry;
    for export in exports {
        gates.push(library_gate(alloc, object, number, export)?)?;
        number += 1;
    }
    Ok(gates)
}
