//! Rows of slots.

ghost use Rattle.std.specs.Prelude.{ℕ, ◌≡◌, ◌+◌, ◌*◌, ◌^◌, ◌<◌, ◌++◌, length, OnOk};
ghost use Rattle.def_profile.specs.declared.layout.TheConstants as layout;
ghost use Rattle.std.specs.List.{AllByRecursion};
ghost use Rattle.def_image.specs.declared.SlotKind.TheVariants as slot;
ghost use Rattle.def_image.specs.Sound.{SlotFits, Sound};
ghost use Rattle.def_boot.specs.Entries as spec;
ghost use Rattle.ct_entries.specs.Fits.{HasFit};

use crate::naming::{called_at, device_at, export_number, lent_number, rights};
use crate::rows::row;
use ct_entry::{Entry, Kind, Owner};
use ct_image_parts::{Parts, Slot};
use ct_tables::{ImportRow, SlotKind};
use def_profile::layout::{DEVICE_SIZE, SLOT_SIZE, TABLE_ROW};
use def_profile::native::{NATIVE_BASE, NATIVE_LENGTH, NATIVE_UNIT};
use std::alloc::AllocError;

/// The rows of an owner's slots, of which the first stands at an address.
pub(crate) fn add_slots(
    rows: &mut Vec<Entry>,
    parts: &Parts,
    owner: Owner,
    at: u32,
    slots: &[Slot],
) -> Result<(), AllocError>
    requires sound { Sound parts.now }
    requires fit { AllByRecursion (HasFit parts.now) slots.now }
    requires inside { at + layout.SLOT_SIZE * length slots.now < 2 ^ 32 }
    ensures { OnOk result
        (rows.new.items ≡ rows.old.items ++ spec.slot_rows parts.now owner at slots.now) }
{
    let mut place = at;
    for slot in slots {
        rows.push(slot_row(parts, owner, place, slot.row))?;
        place += SLOT_SIZE;
    }
    Ok(())
}

/// The row of a slot that stands at an address.
#[tactic(auto, using(crate::proofs::Named::call_there))]
fn slot_row(parts: &Parts, owner: Owner, at: u32, import: ImportRow) -> Entry
    requires sound { Sound parts.now }
    requires fits { SlotFits parts.now import }
    ensures { result ≡ spec.slot_entry parts.now owner at import import.kind }
{
    let index = import.first;
    let rights = rights(import);
    match import.kind {
        SlotKind::Service => service_row(parts, owner, at, import),
        SlotKind::Device => {
            let base = device_at(parts, index);
            row(owner, Kind::Device, base, DEVICE_SIZE, rights, index)
        }
        SlotKind::Shared => shared_row(parts, owner, at, import),
        SlotKind::Sealed => sealed_row(parts, owner, at, import),
        SlotKind::Call => {
            let base = called_at(parts, import);
            let number = export_number(parts, index, import.second);
            row(owner, Kind::Call, base, TABLE_ROW, rights, number)
        }
        SlotKind::Library => library_row(parts, owner, at, import),
        SlotKind::Quota => {
            let quota = row(owner, Kind::Quota, at, SLOT_SIZE, rights, 0);
            Entry {
                limit: index,
                ..quota
            }
        }
        SlotKind::Key => row(owner, Kind::Key, index, 1, rights, 0),
    }
}

/// A native routine's own bytes.
#[tactic(auto, using(crate::proofs::Named::service_small))]
fn service_row(parts: &Parts, owner: Owner, at: u32, import: ImportRow) -> Entry
    requires fits { SlotFits parts.now import }
    requires kind { import.kind ≡ slot.Service }
    ensures { result ≡ spec.slot_entry parts.now owner at import slot.Service }
{
    let base = NATIVE_BASE + NATIVE_UNIT * import.first;
    row(
        owner,
        Kind::Service,
        base,
        NATIVE_LENGTH,
        rights(import),
        import.first,
    )
}

fn shared_row(parts: &Parts, owner: Owner, at: u32, import: ImportRow) -> Entry
    ensures { result ≡ spec.slot_entry parts.now owner at import slot.Shared }
{
    let (base, length) = match parts.shared.get(import.first as usize) {
        Some(object) => (object.base, object.length),
        None => (0, 0),
    };
    row(
        owner,
        Kind::Shared,
        base,
        length,
        rights(import),
        import.first,
    )
}

fn sealed_row(parts: &Parts, owner: Owner, at: u32, import: ImportRow) -> Entry
    ensures { result ≡ spec.slot_entry parts.now owner at import slot.Sealed }
{
    let (base, length) = match parts.sealed.get(import.first as usize) {
        Some(object) => (object.base, object.length),
        None => (0, 0),
    };
    row(
        owner,
        Kind::Sealed,
        base,
        length,
        rights(import),
        import.first,
    )
}

/// A library's code, and the export's number.
fn library_row(parts: &Parts, owner: Owner, at: u32, import: ImportRow) -> Entry
    requires sound { Sound parts.now }
    requires fits { SlotFits parts.now import }
    requires kind { import.kind ≡ slot.Library }
    ensures { result ≡ spec.slot_entry parts.now owner at import slot.Library }
{
    let number = lent_number(parts, import);
    let (base, length) = match parts.libraries.get(import.first as usize) {
        Some(library) => (library.base, library.length),
        None => (0, 0),
    };
    row(owner, Kind::Library, base, length, rights(import), number)
}
