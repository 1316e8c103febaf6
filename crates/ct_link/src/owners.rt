//! The parts of compartments and libraries.

ghost use Rattle.std.specs.Prelude.{◌≡◌, ◌<◌, ◌≤◌, ◌^◌, drop, length, IfOk};
ghost use Rattle.std.specs.List.{AllByRecursion};
ghost use Rattle.def_profile.specs.declared.limits.TheConstants.{MOST_COMPARTMENTS, MOST_COMPARTMENT_ENTRIES, MOST_LIBRARY_ENTRIES, MOST_OWN_ENTRIES};
ghost use Rattle.def_image.specs.Sizes.{sum_of};
ghost use Rattle.def_link.specs.Linked as spec;
ghost use Rattle.ct_link.specs.Rows.{AreOwn, AreLent, IsSized, IsSmallOwner, IsSmallLibrary, own_built, lent_built, code_in, with_object, library_with_object, row_entries, library_row_entries};
ghost use Rattle.ct_link_slots.specs.Exporters.{AreCounted};

use crate::gates::{compartment_gates, library_gates};
use crate::regions::region_at;
use crate::sizes::slot_count;
use ct_asm::Object;
use ct_desc_rows::{Compartment, Desc, Library};
use ct_image_parts::{Code as CodePart, Compartment as CompartmentPart};
use ct_link_slots::{compartment_slots, library_slots};
use def_layout::Region;
use std::alloc::{AllocError, Global};

/// How many entries a compartment has: code, globals, slots, exports.
fn entry_count(compartment: &Compartment) -> u32
    requires { IsSmallOwner compartment.now }
    ensures value { result ≡ row_entries compartment.now }
    ensures few { result ≤ MOST_COMPARTMENT_ENTRIES }
{
    2 + slot_count(compartment) + compartment.exports.len() as u32
}

/// How many entries compartments have together.
#[tactic(auto, using(crate::proofs::Sums::sum_more, law_lists::proofs::Places::at_each))]
pub(crate) fn entries_of(compartments: &[Compartment]) -> u32
    requires rows { AllByRecursion IsSmallOwner compartments.now }
    requires few { length compartments.now ≤ MOST_COMPARTMENTS }
    ensures value { result ≡ sum_of row_entries compartments.now }
    ensures few { result ≤ MOST_OWN_ENTRIES }
{
    let mut entries = 0;
    for compartment in compartments {
        entries += entry_count(compartment);
    }
    entries
}

/// What a compartment's code consists of. Its region is the one at `at`, and its exports are
/// numbered past the entries of code, globals and slots.
fn code_part(
    alloc: Global,
    desc: &Desc,
    compartment: &Compartment,
    object: &Object,
    entry: u32,
    region: Region,
) -> Result<CodePart, AllocError>
    requires counted { AreCounted desc.now }
    requires row { IsSmallOwner compartment.now }
    requires object { IsSized object.now }
    requires entry { entry < 2 ^ 16 }
    ensures { IfOk result (λ p. p ≡ code_in desc.now
        (with_object compartment.now object.now) entry region) }
{
    let first = entry + 2 + slot_count(compartment);
    Ok(CodePart {
        name: String::from_str(alloc, compartment.name.as_str())?,
        base: region.base,
        length: region.length,
        slots: compartment_slots(alloc, desc, compartment)?,
        exports: compartment_gates(alloc, object, first, compartment.exports.as_slice())?,
        text: Vec::from_slice(alloc, object.text.as_slice())?,
    })
}

/// The part of a compartment whose first entry is `entry`, and whose regions stand from `at` on.
fn compartment_part(
    alloc: Global,
    desc: &Desc,
    compartment: &Compartment,
    object: &Object,
    entry: u32,
    regions: &[Region],
    at: usize,
) -> Result<CompartmentPart, AllocError>
    requires counted { AreCounted desc.now }
    requires row { IsSmallOwner compartment.now }
    requires object { IsSized object.now }
    requires entry { entry < 2 ^ 16 }
    requires at { at < 2 ^ 16 }
    ensures { IfOk result (λ p. p ≡ spec.compartment_part desc.now entry (drop at regions.now)
        (with_object compartment.now object.now)) }
{
    let globals = region_at(regions, at, 2);
    Ok(CompartmentPart {
        code: code_part(
            alloc,
            desc,
            compartment,
            object,
            entry,
            region_at(regions, at, 0),
        )?,
        table: region_at(regions, at, 1).base,
        globals: globals.base,
        globals_length: globals.length,
        initial: Vec::from_slice(alloc, object.init.as_slice())?,
    })
}

/// The parts of compartments, whose entries begin at 1 and whose regions come first.
pub(crate) fn compartment_parts(
    alloc: Global,
    desc: &Desc,
    objects: &[Object],
    regions: &[Region],
) -> Result<Vec<CompartmentPart>, AllocError>
    requires counted { AreCounted desc.now }
    requires own { AreOwn desc.now.compartments objects.now }
    ensures { IfOk result (λ v. v.items ≡ spec.compartment_parts desc.now 1 regions.now
        (own_built desc.now.compartments objects.now)) }
{
    let mut parts = Vec::new(alloc);
    let mut entry = 1;
    let mut at = 0;
    let mut index = 0;
    for compartment in desc.compartments.as_slice() {
        let object = &objects[index];
        let part = compartment_part(alloc, desc, compartment, object, entry, regions, at)?;
        parts.push(part)?;
        entry += entry_count(compartment);
        at += 3;
        index += 1;
    }
    Ok(parts)
}

/// The part of a library whose first entry is `entry`, and whose region is at `at`.
fn library_part(
    alloc: Global,
    desc: &Desc,
    library: &Library,
    object: &Object,
    entry: u32,
    regions: &[Region],
    at: usize,
) -> Result<CodePart, AllocError>
    requires counted { AreCounted desc.now }
    requires row { IsSmallLibrary library.now }
    requires object { IsSized object.now }
    requires entry { entry < 2 ^ 16 }
    requires at { at < 2 ^ 16 }
    ensures { IfOk result (λ p. p ≡ spec.library_part desc.now entry (drop at regions.now)
        (library_with_object library.now object.now)) }
{
    let region = region_at(regions, at, 0);
    let first = entry + 1 + library.imports.len() as u32;
    Ok(CodePart {
        name: String::from_str(alloc, library.name.as_str())?,
        base: region.base,
        length: region.length,
        slots: library_slots(alloc, desc, library)?,
        exports: library_gates(alloc, object, first, library.exports.as_slice())?,
        text: Vec::from_slice(alloc, object.text.as_slice())?,
    })
}

/// How many entries a library has: code, slots, exports.
fn library_entry_count(library: &Library) -> u32
    requires { IsSmallLibrary library.now }
    ensures value { result ≡ library_row_entries library.now }
    ensures few { result ≤ MOST_LIBRARY_ENTRIES }
{
    1 + library.imports.len() as u32 + library.exports.len() as u32
}

/// The parts of libraries, whose entries begin at `entry` and whose regions at `first`.
pub(crate) fn library_parts(
    alloc: Global,
    desc: &Desc,
    objects: &[Object],
    entry: u32,
    regions: &[Region],
    first: usize,
) -> Result<Vec<CodePart>, AllocError>
    requires counted { AreCounted desc.now }
    requires lent { AreLent desc.now.libraries objects.now }
    requires entry { entry < 2 ^ 15 }
    requires first { first < 2 ^ 15 }
    ensures { IfOk result (λ v. v.items ≡ spec.library_parts desc.now entry
        (drop first regions.now) (lent_built desc.now.libraries objects.now)) }
{
    let mut parts = Vec::new(alloc);
    let mut number = entry;
    let mut at = first;
    let mut index = 0;
    for library in desc.libraries.as_slice() {
        let object = &objects[index];
        parts.push(library_part(alloc, desc, library, object, number, regions, at)?)?;
        number += library_entry_count(library);
        at += 1;
        index += 1;
    }
    Ok(parts)
}
