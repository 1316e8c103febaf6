//! The names of an owner's slots, in slot order.

ghost use Rattle.std.specs.Prelude.{◌≡◌, IfOk, OnOk, map};
ghost use Rattle.def_desc.specs.Names as name;
ghost use Rattle.def_desc.specs.Named.{slot_names};
ghost use Rattle.def_desc.specs.Rows.{ImportRow, QuotaRow, LimportRow};
ghost use Rattle.def_desc.specs.Lawful.{AreNames};
ghost use Rattle.ct_link_objects.specs.Objects.{unit_of};
ghost use Rattle.ct_link_objects.specs.Slots.{with_slot, with_slots};

use crate::owners::OwnerRow;
use ct_asm::Names;
use ct_desc_rows::{Compartment, Import, LibraryImport, Quota, key_name};
use def_refusals::NoMemory;
use std::alloc::Global;

fn add(names: &mut Names, alloc: Global, name: &str) -> Result<(), NoMemory>
    ensures { OnOk result (names.new ≡ with_slot names.old name.now) }
{
    names.add(alloc, name)?;
    Ok(())
}

fn add_imports(names: &mut Names, alloc: Global, imports: &[Import]) -> Result<(), NoMemory>
    ensures { OnOk result
        (names.new ≡ with_slots names.old (map (λ (x : ImportRow). x.alias) imports.now)) }
{
    for import in imports {
        add(names, alloc, import.alias.as_str())?;
    }
    Ok(())
}

fn add_quotas(names: &mut Names, alloc: Global, quotas: &[Quota]) -> Result<(), NoMemory>
    ensures { OnOk result
        (names.new ≡ with_slots names.old (map (λ (q : QuotaRow). q.name) quotas.now)) }
{
    for quota in quotas {
        add(names, alloc, quota.name.as_str())?;
    }
    Ok(())
}

fn add_keys(names: &mut Names, alloc: Global, keys: &[u64]) -> Result<(), NoMemory>
    ensures { OnOk result
        (names.new ≡ with_slots names.old (map name.key_name keys.now)) }
{
    for key in keys {
        let name = key_name(alloc, *key)?;
        add(names, alloc, name.as_str())?;
    }
    Ok(())
}

/// Adds the names of a compartment's slots: `switch`, the imports, the quotas, the keys.
fn add_compartment_slots(
    names: &mut Names,
    alloc: Global,
    compartment: &Compartment,
) -> Result<(), NoMemory>
    ensures { OnOk result (names.new ≡ with_slots names.old (slot_names compartment.now)) }
{
    add(names, alloc, "switch")?;
    add_imports(names, alloc, compartment.imports.as_slice())?;
    add_quotas(names, alloc, compartment.quotas.as_slice())?;
    add_keys(names, alloc, compartment.keys.as_slice())?;
    Ok(())
}

/// Adds the names of a library's slots: its imports.
fn add_library_slots(
    names: &mut Names,
    alloc: Global,
    imports: &[LibraryImport],
) -> Result<(), NoMemory>
    ensures { OnOk result
        (names.new ≡ with_slots names.old (map (λ (x : LimportRow). x.alias) imports.now)) }
{
    for import in imports {
        add(names, alloc, import.alias.as_str())?;
    }
    Ok(())
}

/// Adds the names of an owner's slots.
fn add_slots(names: &mut Names, alloc: Global, row: OwnerRow<'_>) -> Result<(), NoMemory>
    ensures { OnOk result (names.new ≡ with_slots names.old (unit_of row.entry).slots) }
{
    match row {
        OwnerRow::Compartment(_, row) => add_compartment_slots(names, alloc, row),
        OwnerRow::Library(_, row) => add_library_slots(names, alloc, row.imports.as_slice()),
    }
}

/// The names of an owner's slots.
#[tactic(auto, using(crate::proofs::Slots::once_taken))]
pub(crate) fn names_of(alloc: Global, row: OwnerRow<'_>) -> Result<Names, NoMemory>
    requires { AreNames (unit_of row).slots }
    ensures { IfOk result (λ names. names ≡ (unit_of row.entry).slots) }
{
    let mut names = Names::new(alloc);
    add_slots(&mut names, alloc, row)?;
    Ok(names)
}
