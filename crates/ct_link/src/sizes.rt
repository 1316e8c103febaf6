//! The sizes of regions, in their order: code, export table and globals of each compartment, the
//! code of each library, shared objects, sealed ones, the threads' stacks, the trusted region.

ghost use Rattle.std.specs.Prelude.{◌≡◌, ◌+◌, ◌*◌, ◌≤◌, ◌++◌, length, map, max, IfOk, OnOk};
ghost use Rattle.std.specs.List.{AllByRecursion};
ghost use Rattle.def_profile.specs.declared.limits.TheConstants.{MOST_FRAMES, MOST_THREADS_2};
ghost use Rattle.def_desc.specs.Lawful.{IsLawfulSealed};
ghost use Rattle.def_desc.specs.Rows.{DescShared, DescSealed, DescThread};
ghost use Rattle.def_image.specs.Sizes.{sum_of};
ghost use Rattle.def_link.specs.Linked as spec;
ghost use Rattle.ct_link.specs.Laid.{AreObjects, sizes_with};
ghost use Rattle.ct_link.specs.Rows.{AreOwn, AreLent, IsSized, IsSmallOwner, IsSmallLibrary, own_built, lent_built, with_object, library_with_object};

use ct_asm::Object;
use ct_desc_rows::{Compartment, Desc, Library, Sealed, Shared, Thread};
use def_profile::layout::{AREA_HEAD, FRAME_SIZE, SLOT_SIZE, TABLE_HEAD, TABLE_ROW, TRUSTED_HEAD};
use std::alloc::{AllocError, Global};

/// How many slots a compartment has: the switch, its imports, quotas and keys.
pub(crate) fn slot_count(compartment: &Compartment) -> u32
    requires { IsSmallOwner compartment.now }
    ensures { result ≡ spec.compartment_slot_count compartment.now }
{
    let imports = compartment.imports.len() as u32;
    let quotas = compartment.quotas.len() as u32;
    1 + imports + quotas + compartment.keys.len() as u32
}

/// The size of a compartment's slots and text.
fn code_size(compartment: &Compartment, object: &Object) -> u32
    requires row { IsSmallOwner compartment.now }
    requires object { IsSized object.now }
    ensures { result ≡ spec.compartment_code_size (with_object compartment.now object.now) }
{
    SLOT_SIZE * slot_count(compartment) + object.text.len() as u32
}

/// The size of a compartment's export table.
fn table_size(compartment: &Compartment) -> u32
    requires { IsSmallOwner compartment.now }
    ensures { result ≡ TABLE_HEAD + TABLE_ROW * length compartment.now.exports }
{
    TABLE_HEAD + TABLE_ROW * compartment.exports.len() as u32
}

/// The size of a compartment's globals, which have their initial bytes where these are more.
fn globals_size(compartment: &Compartment, object: &Object) -> u32
    requires { IsSized object.now }
    ensures { result ≡ max compartment.now.globals (length object.now.init) }
{
    compartment.globals.max(object.init.len() as u32)
}

fn add_compartments(
    sizes: &mut Vec<u32>,
    compartments: &[Compartment],
    objects: &[Object],
) -> Result<(), AllocError>
    requires { AreOwn compartments.now objects.now }
    ensures { OnOk result (sizes.new.items
        ≡ sizes.old.items ++ spec.compartment_sizes (own_built compartments.now objects.now)) }
{
    let mut index = 0;
    for compartment in compartments {
        let object = &objects[index];
        sizes.push(code_size(compartment, object))?;
        sizes.push(table_size(compartment))?;
        sizes.push(globals_size(compartment, object))?;
        index += 1;
    }
    Ok(())
}

/// The size of a library's slots and text.
fn library_size(library: &Library, object: &Object) -> u32
    requires row { IsSmallLibrary library.now }
    requires object { IsSized object.now }
    ensures { result ≡ spec.library_code_size (library_with_object library.now object.now) }
{
    SLOT_SIZE * library.imports.len() as u32 + object.text.len() as u32
}

fn add_libraries(
    sizes: &mut Vec<u32>,
    libraries: &[Library],
    objects: &[Object],
) -> Result<(), AllocError>
    requires { AreLent libraries.now objects.now }
    ensures { OnOk result (sizes.new.items
        ≡ sizes.old.items ++ map spec.library_code_size (lent_built libraries.now objects.now)) }
{
    let mut index = 0;
    for library in libraries {
        sizes.push(library_size(library, &objects[index]))?;
        index += 1;
    }
    Ok(())
}

fn add_shared(sizes: &mut Vec<u32>, all: &[Shared]) -> Result<(), AllocError>
    ensures { OnOk result
        (sizes.new.items ≡ sizes.old.items ++ map (λ (s : DescShared). s.size) all.now) }
{
    for shared in all {
        sizes.push(shared.size)?;
    }
    Ok(())
}

#[tactic(auto, using(law_lists::proofs::Places::at_each))]
fn add_sealed(sizes: &mut Vec<u32>, all: &[Sealed]) -> Result<(), AllocError>
    requires { AllByRecursion IsLawfulSealed all.now }
    ensures { OnOk result
        (sizes.new.items ≡ sizes.old.items ++ map (λ (s : DescSealed). length s.bytes) all.now) }
{
    for sealed in all {
        sizes.push(sealed.bytes.len() as u32)?;
    }
    Ok(())
}

fn add_stacks(sizes: &mut Vec<u32>, threads: &[Thread]) -> Result<(), AllocError>
    ensures { OnOk result
        (sizes.new.items ≡ sizes.old.items ++ map (λ (t : DescThread). t.stack) threads.now) }
{
    for thread in threads {
        sizes.push(thread.stack)?;
    }
    Ok(())
}

/// The size of the threads' areas, each with its saved registers and frames.
#[tactic(auto, using(crate::proofs::Sums::sum_more, law_lists::proofs::Places::at_each))]
fn areas_size(threads: &[Thread]) -> u32
    requires frames { AllByRecursion (λ (t : DescThread). t.frames ≤ MOST_FRAMES) threads.now }
    requires few { length threads.now ≤ MOST_THREADS_2 }
    ensures { result ≡ sum_of spec.saved_area_size threads.now }
{
    let mut size = 0;
    for thread in threads {
        size += AREA_HEAD + FRAME_SIZE * thread.frames;
    }
    size
}

/// The sizes of all regions.
#[tactic(auto, using(crate::proofs::Bounds::are_own, crate::proofs::Bounds::are_lent, crate::proofs::Bounds::frames_few, crate::proofs::Bounds::threads_few, crate::proofs::Bounds::areas_few))]
pub(crate) fn sizes_of(
    alloc: Global,
    desc: &Desc,
    own: &[Object],
    lent: &[Object],
) -> Result<Vec<u32>, AllocError>
    requires { AreObjects desc.now own.now lent.now }
    ensures { IfOk result (λ v. v.items ≡ sizes_with desc.now own.now lent.now) }
{
    let mut sizes = Vec::new(alloc);
    add_compartments(&mut sizes, desc.compartments.as_slice(), own)?;
    add_libraries(&mut sizes, desc.libraries.as_slice(), lent)?;
    add_shared(&mut sizes, desc.shared.as_slice())?;
    add_sealed(&mut sizes, desc.sealed.as_slice())?;
    add_stacks(&mut sizes, desc.threads.as_slice())?;
    sizes.push(TRUSTED_HEAD + areas_size(desc.threads.as_slice()))?;
    Ok(sizes)
}
