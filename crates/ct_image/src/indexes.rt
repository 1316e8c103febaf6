//! What imports and threads name, and the order of slots.

ghost use Rattle.std.specs.Prelude.{◌≡◌, ◌<◌, ◌+◌, ◌*◌, ◌^◌, length, []};
ghost use Rattle.std.specs.List.{list_any};
ghost use Rattle.def_image.specs.Checks as checks;
ghost use Rattle.def_image.specs.Indexes as spec;
ghost use Rattle.def_image.specs.Sizes.{sum_of};
ghost use Rattle.def_image.specs.declared.format.TheConstants.{ENTRY as ENTRY_BYTES, THREAD as THREAD_BYTES};
ghost use Rattle.ct_image.specs.Named as asked;
ghost use Rattle.ct_image_parts.specs.Places as places;
ghost use Rattle.ct_image_parts.specs.Places.{AreAt};

use ct_image_parts::{
    Code, Compartment, Parts, Places, Slot, Thread, compartment_bytes, library_bytes,
};
use ct_tables::{ImportRow, SlotKind};
use def_image::format::{COMPARTMENT_HEAD, ENTRY, LIBRARY_HEAD, NAME, NUMBER, THREAD};
use def_native::SWITCH;
use def_profile::native::RETURN;

/// Where a thread's compartment stands in it.
const COMPARTMENT_OF: u32 = NAME + 2 * NUMBER;

/// Whether a compartment has an export of this index, by the compartment's.
fn has_export(compartments: &[Compartment], compartment: u32, export: u32) -> bool
    ensures { result ≡ asked.has_own compartments.now compartment export }
{
    match compartments.get(compartment as usize) {
        Some(there) => (export as usize) < there.code.exports.len(),
        None => false,
    }
}

/// Whether a library has an export of this index, by the library's.
fn has_shared(libraries: &[Code], library: u32, export: u32) -> bool
    ensures { result ≡ asked.has_shared libraries.now library export }
{
    match libraries.get(library as usize) {
        Some(there) => (export as usize) < there.exports.len(),
        None => false,
    }
}

/// Whether what a slot names is there.
fn is_named(parts: &Parts, row: ImportRow) -> bool
    ensures { result ≡ spec.is_slot_named parts.now row row.kind }
{
    let first = row.first as usize;
    match row.kind {
        SlotKind::Device => first < parts.devices.rows.len(),
        SlotKind::Shared => first < parts.shared.len(),
        SlotKind::Sealed => first < parts.sealed.len(),
        SlotKind::Call => has_export(parts.compartments.as_slice(), row.first, row.second),
        SlotKind::Library => has_shared(parts.libraries.as_slice(), row.first, row.second),
        SlotKind::Service => true,
        SlotKind::Quota => true,
        SlotKind::Key => true,
    }
}

/// The class of a kind: imports stand before quotas, and these before keys.
fn class_of(kind: SlotKind) -> u8
    ensures { result ≡ spec.slot_class kind }
{
    match kind {
        SlotKind::Quota => 1,
        SlotKind::Key => 2,
        _ => 0,
    }
}

/// Whether a row is of the service of this number.
fn is_service(row: ImportRow, number: u32) -> bool
    ensures { result ≡ asked.is_of row number }
{
    match row.kind {
        SlotKind::Service => row.first == number,
        _ => false,
    }
}

/// Whether a slot of a later class stands before this one.
fn is_late(row: ImportRow, earlier: &[Slot]) -> bool
    ensures { result ≡ list_any (spec.comes_before row) earlier.now }
{
    for slot in earlier {
        if class_of(row.kind) < class_of(slot.row.kind) {
            return true;
        }
    }
    false
}

/// Whether a slot names nothing, is of the switch or the return, or is out of order.
fn is_astray(parts: &Parts, earlier: &[Slot], row: ImportRow) -> bool
    ensures { result ≡ spec.is_import_astray parts.now earlier.now row }
{
    !is_named(parts, row)
        || (is_service(row, SWITCH) || is_service(row, RETURN))
        || is_late(row, earlier)
}

/// The same of a slot of a compartment, the first of which is the switch.
fn is_own_astray(parts: &Parts, earlier: &[Slot], row: ImportRow) -> bool
    ensures { result ≡ spec.is_own_astray parts.now earlier.now row }
{
    if earlier.is_empty() {
        !is_service(row, SWITCH)
    } else {
        is_astray(parts, earlier, row)
    }
}

/// The first slot of a compartment that is astray.
fn own_slots_fault(parts: &Parts, at: u32, slots: &[Slot]) -> Option<u32>
    requires { at + ENTRY_BYTES * length slots.now < 2 ^ 32 }
    ensures { result
        ≡ checks.first
        (checks.walked (spec.own_slot_asked parts.now) (λ s. ENTRY_BYTES) at [] slots.now) }
{
    let mut place = at;
    for index in 0..slots.len() {
        let slot = &slots[index];
        if is_own_astray(parts, &slots[..index], slot.row) {
            return Some(place);
        }
        place += ENTRY;
    }
    None
}

/// The first slot of a compartment's code that is astray.
fn code_fault(parts: &Parts, at: u32, code: &Code) -> Option<u32>
    requires { at + ENTRY_BYTES * length code.now.slots < 2 ^ 32 }
    ensures { result
        ≡ checks.first
        (checks.walked (spec.own_slot_asked parts.now) (λ s. ENTRY_BYTES) at [] code.now.slots) }
{
    own_slots_fault(parts, at, code.slots.as_slice())
}

/// The first slot of a library that is astray.
fn slots_fault(parts: &Parts, at: u32, slots: &[Slot]) -> Option<u32>
    requires { at + ENTRY_BYTES * length slots.now < 2 ^ 32 }
    ensures { result
        ≡ checks.first
        (checks.walked (spec.slot_asked parts.now) (λ s. ENTRY_BYTES) at [] slots.now) }
{
    let mut place = at;
    for index in 0..slots.len() {
        let slot = &slots[index];
        if is_astray(parts, &slots[..index], slot.row) {
            return Some(place);
        }
        place += ENTRY;
    }
    None
}

/// The first slot of the compartments that is astray.
fn compartments_fault(parts: &Parts, at: u32, compartments: &[Compartment]) -> Option<u32>
    requires { at + sum_of places.compartment_bytes compartments.now < 2 ^ 32 }
    ensures { result
        ≡ checks.first
        (checks.walked (spec.compartment_asked parts.now) places.compartment_bytes at []
        compartments.now) }
{
    let mut place = at;
    for index in 0..compartments.len() {
        let compartment = &compartments[index];
        if let Some(found) = code_fault(parts, place + COMPARTMENT_HEAD, &compartment.code) {
            return Some(found);
        }
        place += compartment_bytes(compartment);
    }
    None
}

/// The first slot of the libraries that is astray.
fn libraries_fault(parts: &Parts, at: u32, libraries: &[Code]) -> Option<u32>
    requires { at + sum_of places.library_bytes libraries.now < 2 ^ 32 }
    ensures { result
        ≡ checks.first
        (checks.walked (spec.library_asked parts.now) places.library_bytes at [] libraries.now) }
{
    let mut place = at;
    for index in 0..libraries.len() {
        let library = &libraries[index];
        let slots = library.slots.as_slice();
        if let Some(found) = slots_fault(parts, place + LIBRARY_HEAD, slots) {
            return Some(found);
        }
        place += library_bytes(library);
    }
    None
}

/// Whether a thread enters an export of a compartment.
fn enters(parts: &Parts, thread: &Thread) -> bool
    ensures { result ≡ spec.enters_export parts.now thread.now }
{
    has_export(
        parts.compartments.as_slice(),
        thread.compartment,
        thread.export,
    )
}

/// The first thread that enters nothing.
fn threads_fault(parts: &Parts, at: u32, threads: &[Thread]) -> Option<u32>
    requires { at + THREAD_BYTES * length threads.now < 2 ^ 32 }
    ensures { result
        ≡ checks.first
        (checks.walked (spec.thread_asked parts.now) (λ t. THREAD_BYTES) at [] threads.now) }
{
    let mut place = at;
    for index in 0..threads.len() {
        if !enters(parts, &threads[index]) {
            return Some(place + COMPARTMENT_OF);
        }
        place += THREAD;
    }
    None
}

/// The first place at which an import or a thread names what isn't there, or a slot is out of order.
pub fn index_fault(parts: &Parts, at: Places) -> Option<u32>
    requires room { places.end_place parts.now < 2 ^ 32 }
    requires at { AreAt parts.now at }
    ensures { result ≡ checks.first (spec.index_checks parts.now) }
{
    match compartments_fault(parts, at.compartments, parts.compartments.as_slice()) {
        Some(place) => Some(place),
        None => match libraries_fault(parts, at.libraries, parts.libraries.as_slice()) {
            Some(place) => Some(place),
            None => threads_fault(parts, at.threads, parts.threads.as_slice()),
        },
    }
}
