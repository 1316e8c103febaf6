//! The rights of slots, by their kinds.

ghost use Rattle.std.specs.Prelude.{◌≡◌, ◌<◌, ◌+◌, ◌*◌, ◌^◌, length, [], All};
ghost use Rattle.def_words.specs.Permissions.{unpacked};
ghost use Rattle.def_image.specs.Checks as checks;
ghost use Rattle.def_image.specs.Parts.{SlotRow, CodeRow, CompartmentRow};
ghost use Rattle.def_image.specs.Rights as spec;
ghost use Rattle.def_image.specs.Sizes.{sum_of};
ghost use Rattle.def_image.specs.declared.format.TheConstants.{ENTRY as ENTRY_BYTES};
ghost use Rattle.ct_image.specs.Packed as packed;
ghost use Rattle.ct_image.specs.Packed.{ArePacked, OwnersPacked, LibrariesPacked};
ghost use Rattle.ct_image_parts.specs.Places as places;
ghost use Rattle.ct_image_parts.specs.Places.{AreAt};

use ct_image_parts::{Code, Compartment, Parts, Places, Slot, compartment_bytes, library_bytes};
use ct_perm::Perms;
use ct_tables::{ImportRow, SlotKind};
use def_image::format::{COMPARTMENT_HEAD, ENTRY, LIBRARY_HEAD};
use def_profile::rights::{
    CODE_RIGHTS, EXPORT_RIGHTS, GL, KEY_RIGHTS, LD, LG, LM, MC, QUOTA_RIGHTS, SD, SEALED_RIGHTS,
    SERVICE_RIGHTS,
};

/// Reading, writing, or both.
fn is_device_set(set: u32) -> bool
    ensures { result ≡ spec.is_one_of set spec.device_right_sets }
{
    set == GL + LD || set == GL + SD || set == GL + LD + SD
}

/// The same, with capabilities.
fn is_carrying_set(set: u32) -> bool
    ensures { result ≡ spec.is_one_of set spec.carrying_rights }
{
    set == GL + LD + MC + LM + LG || set == GL + SD + MC || set == GL + LD + SD + MC + LM + LG
}

/// Whether a set of rights is one of its kind.
fn fits_kind(kind: SlotKind, set: u32) -> bool
    ensures { result ≡ spec.fits_kind kind set }
{
    match kind {
        SlotKind::Service => set == SERVICE_RIGHTS,
        SlotKind::Device => is_device_set(set),
        SlotKind::Shared => is_device_set(set) || is_carrying_set(set),
        SlotKind::Sealed => set == SEALED_RIGHTS,
        SlotKind::Call => set == EXPORT_RIGHTS,
        SlotKind::Library => set == CODE_RIGHTS,
        SlotKind::Quota => set == QUOTA_RIGHTS,
        SlotKind::Key => set == KEY_RIGHTS,
    }
}

/// Whether a row has rights of its kind.
fn is_right(row: ImportRow) -> bool
    requires { row.rights < 64 }
    ensures { result ≡ spec.fits_kind row.kind (spec.rights_of row) }
{
    fits_kind(row.kind, Perms::unpack(row.rights).0 as u32)
}

/// Whether a row is of a library.
fn is_library(row: ImportRow) -> bool
    ensures { result ≡ spec.is_library row.kind }
{
    match row.kind {
        SlotKind::Library => true,
        _ => false,
    }
}

/// Whether a row is of a library, with the rights of one.
fn is_library_right(row: ImportRow) -> bool
    requires { row.rights < 64 }
    ensures { result ≡ packed.is_library_right row }
{
    is_right(row) && is_library(row)
}

/// The first slot of a compartment with other rights than its kind's.
fn own_slots_fault(at: u32, slots: &[Slot]) -> Option<u32>
    requires packed { ArePacked slots.now }
    requires room { at + ENTRY_BYTES * length slots.now < 2 ^ 32 }
    ensures { result
        ≡ checks.first (checks.walked spec.right_asked (λ s. ENTRY_BYTES) at [] slots.now) }
{
    let mut place = at;
    for index in 0..slots.len() {
        let slot = &slots[index];
        if !is_right(slot.row) {
            return Some(place);
        }
        place += ENTRY;
    }
    None
}

/// The first slot of a compartment's code with other rights than its kind's.
fn code_fault(at: u32, code: &Code) -> Option<u32>
    requires packed { ArePacked code.now.slots }
    requires room { at + ENTRY_BYTES * length code.now.slots < 2 ^ 32 }
    ensures { result
        ≡ checks.first
        (checks.walked spec.right_asked (λ s. ENTRY_BYTES) at [] code.now.slots) }
{
    own_slots_fault(at, code.slots.as_slice())
}

/// The first slot of a library that isn't of a library, with the rights of one.
fn slots_fault(at: u32, slots: &[Slot]) -> Option<u32>
    requires packed { ArePacked slots.now }
    requires room { at + ENTRY_BYTES * length slots.now < 2 ^ 32 }
    ensures { result
        ≡ checks.first (checks.walked spec.library_right_asked (λ s. ENTRY_BYTES) at [] slots.now) }
{
    let mut place = at;
    for index in 0..slots.len() {
        let slot = &slots[index];
        if !is_library_right(slot.row) {
            return Some(place);
        }
        place += ENTRY;
    }
    None
}

/// The first such slot of the compartments.
fn compartments_fault(at: u32, compartments: &[Compartment]) -> Option<u32>
    requires packed { OwnersPacked compartments.now }
    requires room { at + sum_of places.compartment_bytes compartments.now < 2 ^ 32 }
    ensures { result
        ≡ checks.first
        (checks.walked spec.compartment_rights places.compartment_bytes at [] compartments.now) }
{
    let mut place = at;
    for index in 0..compartments.len() {
        let compartment = &compartments[index];
        if let Some(found) = code_fault(place + COMPARTMENT_HEAD, &compartment.code) {
            return Some(found);
        }
        place += compartment_bytes(compartment);
    }
    None
}

/// The first such slot of the libraries.
fn libraries_fault(at: u32, libraries: &[Code]) -> Option<u32>
    requires packed { LibrariesPacked libraries.now }
    requires room { at + sum_of places.library_bytes libraries.now < 2 ^ 32 }
    ensures { result
        ≡ checks.first
        (checks.walked spec.library_rights places.library_bytes at [] libraries.now) }
{
    let mut place = at;
    for index in 0..libraries.len() {
        let library = &libraries[index];
        let slots = library.slots.as_slice();
        if let Some(found) = slots_fault(place + LIBRARY_HEAD, slots) {
            return Some(found);
        }
        place += library_bytes(library);
    }
    None
}

/// The first slot whose rights, or in a library whose kind, it may not have.
pub fn right_fault(parts: &Parts, at: Places) -> Option<u32>
    requires owners { OwnersPacked parts.now.compartments }
    requires libraries { LibrariesPacked parts.now.libraries }
    requires room { places.end_place parts.now < 2 ^ 32 }
    requires at { AreAt parts.now at }
    ensures { result ≡ checks.first (spec.right_checks parts.now) }
{
    match compartments_fault(at.compartments, parts.compartments.as_slice()) {
        Some(place) => Some(place),
        None => libraries_fault(at.libraries, parts.libraries.as_slice()),
    }
}
