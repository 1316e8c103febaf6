//! The gates of exports.

ghost use Rattle.std.specs.Prelude.{ℕ, ◌≡◌, ◌+◌, ◌*◌, ◌^◌, ◌<◌, ◌≤◌, ◌++◌, length, IfOk, OnOk};
ghost use Rattle.std.specs.List.{AllByRecursion};
ghost use Rattle.def_image.specs.Members.{compartment_entries};
ghost use Rattle.def_image.specs.Sizes.{sum_of};
ghost use Rattle.def_profile.specs.declared.limits.TheConstants as most;
ghost use Rattle.def_image.specs.Sound.{Sound};
ghost use Rattle.def_boot.specs.Gates as spec;
ghost use Rattle.ct_entries.specs.Fits.{CodeStands, CompartmentStands, Starts};

use ct_entry::Gate;
use ct_image_parts::{Code, Compartment, Export, Parts};
use ct_tables::ExportRow;
use def_profile::layout::SLOT_SIZE;
use std::alloc::{AllocError, Global};

/// The gate of an export, whose entry has this number, of a text that begins at an address.
fn gate(number: u32, text: u32, export: ExportRow) -> Gate
    requires { text + export.offset < 2 ^ 32 }
    ensures { result ≡ record {
      entry = number;
      code = text + export.offset;
      stack = export.stack;
      args = export.args;
      posture = export.posture;
      capabilities = export.capabilities;
    } }
{
    Gate {
        entry: number,
        code: text + export.offset,
        stack: export.stack,
        args: u32::from(export.args),
        posture: export.posture,
        capabilities: export.capabilities,
    }
}

/// The gates of an owner's exports, of which the first has this number.
fn add_gates(
    gates: &mut Vec<Gate>,
    parts: &Parts,
    number: u32,
    code: &Code,
    exports: &[Export],
) -> Result<(), AllocError>
    requires stands { CodeStands parts.now code.now }
    requires starts { AllByRecursion (Starts (length code.now.text)) exports.now }
    requires small { number + length exports.now < 2 ^ 32 }
    ensures { OnOk result
        (gates.new.items ≡ gates.old.items ++ spec.gates_in number code.now exports.now) }
{
    let text = code.base + SLOT_SIZE * code.slots.len() as u32;
    let mut next = number;
    for export in exports {
        gates.push(gate(next, text, export.row))?;
        next += 1;
    }
    Ok(())
}

/// The gates of all compartments; the number after those of their entries.
fn add_compartments(
    gates: &mut Vec<Gate>,
    parts: &Parts,
    compartments: &[Compartment],
) -> Result<u32, AllocError>
    requires stands { AllByRecursion (CompartmentStands parts.now) compartments.now }
    requires few { length compartments.now ≤ most.MOST_COMPARTMENTS }
    ensures gates { OnOk result
        (gates.new.items ≡ gates.old.items ++ spec.compartment_gates 1 compartments.now) }
    ensures next { IfOk result (λ n. n ≡ 1 + sum_of compartment_entries compartments.now) }
    ensures small { IfOk result (λ n. n < 2 ^ 31) }
{
    let mut number = 1;
    for compartment in compartments {
        let code = &compartment.code;
        let first = number + 2 + code.slots.len() as u32;
        add_gates(gates, parts, first, code, code.exports.as_slice())?;
        number = first + code.exports.len() as u32;
    }
    Ok(number)
}

/// The gates of all libraries, of which the first one's first entry has this number.
fn add_libraries(
    gates: &mut Vec<Gate>,
    parts: &Parts,
    first: u32,
    libraries: &[Code],
) -> Result<(), AllocError>
    requires stands { AllByRecursion (CodeStands parts.now) libraries.now }
    requires few { length libraries.now ≤ most.MOST_LIBRARIES }
    requires small { first < 2 ^ 31 }
    ensures { OnOk result
        (gates.new.items ≡ gates.old.items ++ spec.library_gates first libraries.now) }
{
    let mut number = first;
    for code in libraries {
        let first = number + 1 + code.slots.len() as u32;
        add_gates(gates, parts, first, code, code.exports.as_slice())?;
        number = first + code.exports.len() as u32;
    }
    Ok(())
}

/// The gates of an image's parts, in the order of their numbers.
#[tactic(auto, using(crate::proofs::Standing::stands), unfolding(def_boot::specs::Gates::gates_of))]
pub(crate) fn gates_of(alloc: Global, parts: &Parts) -> Result<Vec<Gate>, AllocError>
    requires { Sound parts.now }
    ensures { IfOk result (λ v. v.items ≡ spec.gates_of parts.now) }
{
    let mut gates = Vec::new(alloc);
    let next = add_compartments(&mut gates, parts, parts.compartments.as_slice())?;
    add_libraries(&mut gates, parts, next, parts.libraries.as_slice())?;
    Ok(gates)
}
