//! What is asked of slots and exports.

ghost use Rattle.std.specs.Prelude.{◌≡◌, ◌≤◌, ◌<◌, ◌+◌, ◌*◌, ◌^◌, ℕ, length, []};
ghost use Rattle.def_image.specs.Checks as checks;
ghost use Rattle.def_image.specs.Limits as spec;
ghost use Rattle.def_image.specs.declared.format.TheConstants.{ENTRY as ENTRY_SIZE};
ghost use Rattle.ct_image_limits.specs.Owners.{bounds_of};

use crate::checks::{earlier_of, first, name_checks};
use crate::names::is_among;
use crate::rows::{Bounds, gate_checks, number_at, row_checks};
use ct_image_fields::name_of;
use def_image::RawEntry;
use def_image::format::{ENTRY, ROW};

/// Whether a slot is a key's without the key's name.
fn is_unnamed_key(slot: &RawEntry) -> bool
    ensures { result ≡ spec.is_unnamed_key slot.now }
{
    if slot.row[0] != 8 {
        return false;
    }
    let name = name_of(&slot.name);
    match number_at(&slot.row, 4) {
        13 => name != b"key13".as_slice(),
        14 => name != b"key14".as_slice(),
        15 => name != b"key15".as_slice(),
        _ => !name.is_empty(),
    }
}

/// Whether a slot of a compartment lacks the name that it must have: the first the switch's, a key's
/// the key's.
fn is_misnamed(earlier: &[RawEntry], slot: &RawEntry) -> bool
    ensures { result ≡ spec.is_misnamed earlier.now slot.now }
{
    if earlier.is_empty() {
        name_of(&slot.name) != b"switch".as_slice()
    } else {
        is_unnamed_key(slot)
    }
}

/// The first place at which a slot of a compartment fails.
#[tactic(auto, unfolding(def_image::specs::Limits::own_slot_limits, def_image::specs::Limits::name_checks), using(law_image::proofs::Walks::first_both))]
fn own_slot_limit(at: u32, earlier: &[RawEntry], slot: &RawEntry) -> Option<u32>
    requires { at + ENTRY_SIZE < 2 ^ 32 }
    ensures { result ≡ checks.first (spec.own_slot_limits at earlier.now slot.now) }
{
    let row = first(&row_checks(at, &slot.row));
    let repeated = is_among(name_of(&slot.name), earlier);
    let unwanted = is_misnamed(earlier, slot);
    earlier_of(
        row,
        first(&name_checks(at + ROW, repeated, unwanted, &slot.name)),
    )
}

/// The first place at which a slot of a library fails.
#[tactic(auto, unfolding(def_image::specs::Limits::slot_limits, def_image::specs::Limits::name_checks), using(law_image::proofs::Walks::first_both))]
fn slot_limit(at: u32, earlier: &[RawEntry], slot: &RawEntry) -> Option<u32>
    requires { at + ENTRY_SIZE < 2 ^ 32 }
    ensures { result ≡ checks.first (spec.slot_limits at earlier.now slot.now) }
{
    let row = first(&row_checks(at, &slot.row));
    let repeated = is_among(name_of(&slot.name), earlier);
    let unwanted = is_unnamed_key(slot);
    earlier_of(
        row,
        first(&name_checks(at + ROW, repeated, unwanted, &slot.name)),
    )
}

/// The first place at which an export fails. `entry` is its entry's number.
#[tactic(auto, unfolding(def_image::specs::Limits::export_limits, def_image::specs::Limits::name_checks), using(law_image::proofs::Walks::first_both))]
fn export_limit(
    bounds: Bounds,
    text: u32,
    entry: u32,
    at: u32,
    earlier: &[RawEntry],
    export: &RawEntry,
) -> Option<u32>
    requires { at + ENTRY_SIZE < 2 ^ 32 }
    ensures { (start : ℕ) → entry ≡ start + length earlier.now
        → result
        ≡ checks.first
        (spec.export_limits (bounds_of bounds) text start at earlier.now export.now) }
{
    let row = first(&gate_checks(bounds, text, entry, at, &export.row));
    let repeated = is_among(name_of(&export.name), earlier);
    earlier_of(
        row,
        first(&name_checks(at + ROW, repeated, false, &export.name)),
    )
}

/// The first place at which a slot of a compartment fails.
pub(crate) fn own_slots_limit(at: u32, slots: &[RawEntry]) -> Option<u32>
    requires { at + ENTRY_SIZE * length slots.now < 2 ^ 32 }
    ensures { result
        ≡ checks.first (checks.walked spec.own_slot_limits (λ s. ENTRY_SIZE) at [] slots.now) }
{
    let mut place = at;
    for index in 0..slots.len() {
        if let Some(found) = own_slot_limit(place, &slots[..index], &slots[index]) {
            return Some(found);
        }
        place += ENTRY;
    }
    None
}

/// The first place at which a slot of a library fails.
pub(crate) fn slots_limit(at: u32, slots: &[RawEntry]) -> Option<u32>
    requires { at + ENTRY_SIZE * length slots.now < 2 ^ 32 }
    ensures { result
        ≡ checks.first (checks.walked spec.slot_limits (λ s. ENTRY_SIZE) at [] slots.now) }
{
    let mut place = at;
    for index in 0..slots.len() {
        if let Some(found) = slot_limit(place, &slots[..index], &slots[index]) {
            return Some(found);
        }
        place += ENTRY;
    }
    None
}

/// The first place at which an export fails. `entry` is the number of the first one's entry.
pub(crate) fn exports_limit(
    bounds: Bounds,
    text: u32,
    entry: u32,
    at: u32,
    exports: &[RawEntry],
) -> Option<u32>
    requires room { at + ENTRY_SIZE * length exports.now < 2 ^ 32 }
    requires number { entry ≤ at }
    ensures { result
        ≡ checks.first
        (checks.walked (spec.export_limits (bounds_of bounds) text entry) (λ x. ENTRY_SIZE) at
        [] exports.now) }
{
    let mut place = at;
    for index in 0..exports.len() {
        let number = entry + index as u32;
        if let Some(found) = export_limit(
            bounds,
            text,
            number,
            place,
            &exports[..index],
            &exports[index],
        ) {
            return Some(found);
        }
        place += ENTRY;
    }
    None
}
