//! What the row of a slot names, looked up.

ghost use Rattle.std.specs.Prelude.{◌≡◌, ◌+◌, ◌*◌};
ghost use Rattle.def_image.specs.declared.SlotKind.TheVariants as slot;
ghost use Rattle.def_image.specs.Members.{compartment, device_base, gate_address, gate_number, library, library_gate_number};
ghost use Rattle.def_image.specs.Rights.{rights_of};
ghost use Rattle.def_image.specs.Sound.{SlotFits, Sound};
ghost use Rattle.ct_entries.specs.Fits.{entry_at, HasExport};

use ct_image_parts::{Export, Parts};
use ct_perm::Perms;
use ct_tables::ImportRow;
use def_profile::layout::{TABLE_HEAD, TABLE_ROW};

/// The set that a row's byte spells: its low six bits count.
#[tactic(auto, using(crate::proofs::Spelled::six_bits))]
pub(crate) fn rights(row: ImportRow) -> u32
    ensures { result ≡ rights_of row }
{
    u32::from(Perms::unpack(row.rights % 64).0)
}

/// The address of a device.
pub(crate) fn device_at(parts: &Parts, index: u32) -> u32
    ensures { result ≡ device_base parts.now index }
{
    match parts.devices.rows.get(index as usize) {
        Some(device) => device.base,
        None => 0,
    }
}

/// The address of a compartment's export table.
fn table_at(parts: &Parts, index: u32) -> u32
    ensures { result ≡ (compartment parts.now index).table }
{
    match parts.compartments.get(index as usize) {
        Some(compartment) => compartment.table,
        None => 0,
    }
}

/// The address of the export's row that a call import names.
#[tactic(auto, using(crate::proofs::Named::call_small))]
pub(crate) fn called_at(parts: &Parts, import: ImportRow) -> u32
    requires sound { Sound parts.now }
    requires fits { SlotFits parts.now import }
    requires kind { import.kind ≡ slot.Call }
    ensures { result ≡ gate_address (compartment parts.now import.first) import.second }
{
    table_at(parts, import.first) + TABLE_HEAD + TABLE_ROW * import.second
}

/// The number of the entry of a compartment's export, by the indexes of both.
///
/// Condition: the parts are those of an accepted image, and have this compartment and this export.
#[tactic(auto, using(crate::proofs::Named::export_numbered))]
pub fn export_number(parts: &Parts, compartment: u32, export: u32) -> u32
    requires sound { Sound parts.now }
    requires there { HasExport parts.now compartment export }
    ensures { result ≡ gate_number parts.now compartment export }
{
    number_in(parts, compartment, export)
}

/// The number in the row of a compartment's export; 0 where there is no such export.
fn number_in(parts: &Parts, index: u32, export: u32) -> u32
    ensures { result ≡ entry_at (compartment parts.now index).code.exports export }
{
    match parts.compartments.get(index as usize) {
        Some(compartment) => number_at(compartment.code.exports.as_slice(), export as usize),
        None => 0,
    }
}

/// The number of the export that a library import names.
#[tactic(auto, using(crate::proofs::Named::lent_numbered))]
pub(crate) fn lent_number(parts: &Parts, import: ImportRow) -> u32
    requires sound { Sound parts.now }
    requires fits { SlotFits parts.now import }
    requires kind { import.kind ≡ slot.Library }
    ensures { result ≡ library_gate_number parts.now import.first import.second }
{
    lent_in(parts, import.first, import.second)
}

/// The number in the row of a library's export; 0 where there is no such export.
fn lent_in(parts: &Parts, index: u32, export: u32) -> u32
    ensures { result ≡ entry_at (library parts.now index).exports export }
{
    match parts.libraries.get(index as usize) {
        Some(library) => number_at(library.exports.as_slice(), export as usize),
        None => 0,
    }
}

/// The number in an export's row; 0 where there is no such export.
pub(crate) fn number_at(exports: &[Export], index: usize) -> u32
    ensures { result ≡ entry_at exports.now index }
{
    match exports.get(index) {
        Some(export) => export.row.entry,
        None => 0,
    }
}
