//! The slots of an owner, in slot order.

ghost use Rattle.std.specs.Prelude.{◌≡◌, ◌++◌, map, IfOk, OnOk};
ghost use Rattle.def_desc.specs.Rows.{LimportRow};
ghost use Rattle.def_link.specs.Slots as spec;
ghost use Rattle.ct_link_slots.specs.Exporters.{AreCounted, AreKeys};

use crate::imports::{import_slot, key_slot, library_slot, quota_slot, switch_slot};
use ct_desc_rows::{Compartment, Desc, Import, Library, Quota};
use ct_image_parts::Slot;
use def_desc::Form;
use std::alloc::{AllocError, Global};

fn add_imports(
    slots: &mut Vec<Slot>,
    alloc: Global,
    desc: &Desc,
    imports: &[Import],
) -> Result<(), AllocError>
    requires { AreCounted desc.now }
    ensures { OnOk result
        (slots.new.items ≡ slots.old.items ++ map (spec.import_slot desc.now) imports.now) }
{
    for import in imports {
        slots.push(import_slot(alloc, desc, import)?)?;
    }
    Ok(())
}

fn add_quotas(slots: &mut Vec<Slot>, alloc: Global, quotas: &[Quota]) -> Result<(), AllocError>
    ensures { OnOk result (slots.new.items ≡ slots.old.items ++ map spec.quota_slot quotas.now) }
{
    for quota in quotas {
        slots.push(quota_slot(alloc, quota)?)?;
    }
    Ok(())
}

#[tactic(auto, using(law_lists::proofs::Places::at_each))]
fn add_keys(slots: &mut Vec<Slot>, alloc: Global, keys: &[u64]) -> Result<(), AllocError>
    requires { AreKeys keys.now }
    ensures { OnOk result (slots.new.items ≡ slots.old.items ++ map spec.key_slot keys.now) }
{
    for key in keys {
        slots.push(key_slot(alloc, *key)?)?;
    }
    Ok(())
}

/// The slots of a compartment: the switch, its imports, quotas and keys.
///
/// Condition: names have an index of 32 bits, and keys are numbers of 32 bits.
pub fn compartment_slots(
    alloc: Global,
    desc: &Desc,
    compartment: &Compartment,
) -> Result<Vec<Slot>, AllocError>
    requires counted { AreCounted desc.now }
    requires keys { AreKeys compartment.now.keys }
    ensures { IfOk result (λ v. v.items ≡ spec.compartment_slots desc.now compartment.now) }
{
    let mut slots = Vec::new(alloc);
    slots.push(switch_slot(alloc)?)?;
    add_imports(&mut slots, alloc, desc, compartment.imports.as_slice())?;
    add_quotas(&mut slots, alloc, compartment.quotas.as_slice())?;
    add_keys(&mut slots, alloc, compartment.keys.as_slice())?;
    Ok(slots)
}

/// The slots of a library: its imports.
///
/// Condition: names have an index of 32 bits.
pub fn library_slots(alloc: Global, desc: &Desc, library: &Library) -> Result<Vec<Slot>, AllocError>
    requires { AreCounted desc.now }
    ensures { IfOk result (λ v. v.items ≡ spec.library_slots desc.now library.now) }
{
    let mut slots = Vec::new(alloc);
    for import in library.imports.as_slice() {
        slots.push(library_slot(alloc, desc, import)?)?;
    }
    Ok(slots)
}
