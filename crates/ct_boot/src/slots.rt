//! The capabilities of slots, by their kinds.

ghost use Rattle.std.specs.Prelude.{◌≡◌, ◌+◌, ◌*◌, ◌^◌, ◌<◌, ◌≤◌};
ghost use Rattle.ct_entry.specs.declared.rows.Owner.{Owner};
ghost use Rattle.def_boot.specs.Entries.{native_address};
ghost use Rattle.def_boot.specs.Gates.{gates_of};
ghost use Rattle.def_boot.specs.Made as spec;
ghost use Rattle.def_boot.specs.Made.{from_entry};
ghost use Rattle.def_image.specs.Members as member;
ghost use Rattle.def_image.specs.Members.{compartment, gate_address, library_gate_number};
ghost use Rattle.def_image.specs.declared.SlotKind.TheVariants as kind;
ghost use Rattle.def_image.specs.Rights as rights;
ghost use Rattle.def_image.specs.Sound.{Names, SlotFits, Sound};
ghost use Rattle.def_profile.specs.declared.layout.TheConstants as layout;
ghost use Rattle.def_native.specs.declared.TheConstants.{LAST_NATIVE};
ghost use Rattle.def_profile.specs.declared.native.TheConstants as native;
ghost use Rattle.def_profile.specs.declared.seals.TheConstants as seals;
ghost use Rattle.def_reach.specs.Roots.{gate_for};
ghost use Rattle.def_words.specs.Derive.{derive, executable_root, memory_root};
ghost use Rattle.ct_boot.specs.Slots.{slot_cap};

use crate::making::{code_made, key_made, memory_made};
use crate::numbers::{export_at, library_at, text_base};
use ct_cap::{Live, Perms};
use ct_entry::Mode;
use ct_image_parts::{Code, Export, Parts};
use ct_tables::{ImportRow, SlotKind};
use def_profile::layout::{DEVICE_SIZE, SLOT_SIZE, TABLE_HEAD, TABLE_ROW};
use def_profile::native::{NATIVE_BASE, NATIVE_LENGTH, NATIVE_UNIT};
use def_profile::seals::{EXPORT_TYPE, QUOTA_TYPE, SENTRY_DISABLE, SENTRY_ENABLE, SENTRY_INHERIT};

/// The rights that a row's six bits spell.
#[tactic(auto, using(ct_entries::proofs::Spelled::six_bits))]
fn rights_of(row: ImportRow) -> u32
    ensures { result ≡ rights.rights_of row }
{
    Perms::unpack(row.rights % 64).0 as u32
}

/// The type of a forward sentry, by the posture of its export.
fn sentry_type(posture: Mode) -> u32
    ensures { result ≡ spec.sentry_type posture }
{
    match posture {
        Mode::Inherit => SENTRY_INHERIT,
        Mode::Disabled => SENTRY_DISABLE,
        Mode::Enabled => SENTRY_ENABLE,
    }
}

/// A native routine, which is called by a forward sentry.
fn service(number: u32, of: u32, rights: u32) -> Live
    requires { of ≤ LAST_NATIVE }
    ensures { result
        ≡ derive executable_root (native_address of) native.NATIVE_LENGTH rights
        (native_address of) seals.SENTRY_INHERIT (from_entry number) }
{
    let base = NATIVE_BASE + NATIVE_UNIT * of;
    code_made(number, base, NATIVE_LENGTH, rights, base, SENTRY_INHERIT)
}

/// The base of a device.
fn device_base(parts: &Parts, of: u32) -> u32
    ensures { result ≡ member.device_base parts.now of }
{
    match parts.devices.rows.get(of as usize) {
        Some(device) => device.base,
        None => 0,
    }
}

/// A device, at its base.
fn device(parts: &Parts, number: u32, of: u32, rights: u32) -> Live
    ensures { result
        ≡ derive memory_root (member.device_base parts.now of) layout.DEVICE_SIZE rights
        (member.device_base parts.now of) 0 (from_entry number) }
{
    let base = device_base(parts, of);
    memory_made(number, base, DEVICE_SIZE, rights, base, 0)
}

/// A shared object, at its base.
fn shared(parts: &Parts, number: u32, of: u32, rights: u32) -> Live
    ensures { result
        ≡ derive memory_root (member.shared parts.now of).base (member.shared parts.now of).length
        rights (member.shared parts.now of).base 0 (from_entry number) }
{
    match parts.shared.get(of as usize) {
        Some(object) => memory_made(number, object.base, object.length, rights, object.base, 0),
        None => memory_made(number, 0, 0, rights, 0, 0),
    }
}

/// A sealed object, at its base, with its type.
fn sealed(parts: &Parts, number: u32, of: u32, rights: u32) -> Live
    ensures { result
        ≡ derive memory_root (member.sealed parts.now of).base (member.sealed parts.now of).length
        rights (member.sealed parts.now of).base (member.sealed parts.now of).seal
        (from_entry number) }
{
    match parts.sealed.get(of as usize) {
        Some(object) => memory_made(
            number,
            object.base,
            object.length,
            rights,
            object.base,
            object.seal,
        ),
        None => memory_made(number, 0, 0, rights, 0, 0),
    }
}

/// The base of a compartment's export table.
fn table_of(parts: &Parts, of: u32) -> u32
    ensures { result ≡ (compartment parts.now of).table }
{
    match parts.compartments.get(of as usize) {
        Some(compartment) => compartment.table,
        None => 0,
    }
}

/// An export of a compartment: its row in the export table, sealed.
fn call(parts: &Parts, number: u32, row: ImportRow, rights: u32) -> Live
    requires { gate_address (compartment parts.now row.first) row.second < 2 ^ 32 }
    ensures { result
        ≡ derive memory_root (gate_address (compartment parts.now row.first) row.second)
        layout.TABLE_ROW rights (gate_address (compartment parts.now row.first) row.second)
        seals.EXPORT_TYPE (from_entry number) }
{
    let base = table_of(parts, row.first) + TABLE_HEAD + TABLE_ROW * row.second;
    memory_made(number, base, TABLE_ROW, rights, base, EXPORT_TYPE)
}

/// An export of a library: the library's code at the export, as a forward sentry of its posture.
fn entered(number: u32, code: &Code, export: &Export, rights: u32) -> Live
    requires { member.text_base code.now + export.now.row.offset < 2 ^ 32 }
    ensures { result
        ≡ derive executable_root code.now.base code.now.length rights
        (member.text_base code.now + export.now.row.offset)
        (spec.sentry_type export.now.row.posture) (from_entry number) }
{
    code_made(
        number,
        code.base,
        code.length,
        rights,
        text_base(code) + export.row.offset,
        sentry_type(export.row.posture),
    )
}

/// The export of a library that a row names, as a forward sentry.
fn library(parts: &Parts, number: u32, row: ImportRow, rights: u32) -> Live
    requires sound { Sound parts.now }
    requires names { Names parts.now row kind.Library }
    ensures { result
        ≡ derive executable_root (member.library parts.now row.first).base
        (member.library parts.now row.first).length rights
        (gate_for (gates_of parts.now) (library_gate_number parts.now row.first row.second)).code
        (spec.sentry_type
        (gate_for (gates_of parts.now)
        (library_gate_number parts.now row.first row.second)).posture)
        (from_entry number) }
{
    match library_at(parts, row.first) {
        Some(code) => match export_at(code, row.second) {
            Some(export) => entered(number, code, export, rights),
            None => Live::plain(0),
        },
        None => Live::plain(0),
    }
}

/// The capability of the slot at an address, by its row, with its entry's number.
pub(crate) fn slot_made(parts: &Parts, number: u32, at: u32, row: ImportRow) -> Live
    requires sound { Sound parts.now }
    requires fits { SlotFits parts.now row }
    ensures { (o : Owner) → result ≡ slot_cap parts.now o number at row }
{
    let rights = rights_of(row);
    match row.kind {
        SlotKind::Service => service(number, row.first, rights),
        SlotKind::Device => device(parts, number, row.first, rights),
        SlotKind::Shared => shared(parts, number, row.first, rights),
        SlotKind::Sealed => sealed(parts, number, row.first, rights),
        SlotKind::Call => call(parts, number, row, rights),
        SlotKind::Library => library(parts, number, row, rights),
        SlotKind::Quota => memory_made(number, at, SLOT_SIZE, rights, at, QUOTA_TYPE),
        SlotKind::Key => key_made(number, row.first, rights),
    }
}
