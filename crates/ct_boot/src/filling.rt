//! RAM at boot: each capability and each word is written once, where it stands.

ghost use Rattle.std.specs.Prelude.{◌≡◌, ◌<◌, ◌+◌, ◌*◌, ◌^◌, ℕ, Some, length, slice_get};
ghost use Rattle.def_image.specs.Members.{text_base};
ghost use Rattle.def_image.specs.Parts.{GateRow};
ghost use Rattle.def_image.specs.Spelling.{export_field};
ghost use Rattle.def_image.specs.Sound.{Sound};
ghost use Rattle.def_boot.specs.Booting.{Booting, IsFrom, PutsBytes, Stage};
ghost use Rattle.def_boot.specs.Written.{InCode, InCompartment, InSealed, InTable, InFirst};
ghost use Rattle.ct_boot.specs.Slots.{SlotsPut};

use crate::making::{own_code, own_globals};
use crate::numbers::{code_number, library_number, text_base};
use crate::putting::{put, put_bytes};
use crate::slots::slot_made;
use ct_image_parts::{Code, Compartment, Export, Parts, Sealed};
use ct_mem::Memory;
use ct_tables::write_export;
use def_profile::layout::{GRANULE, SLOT_SIZE, TABLE_HEAD, TABLE_ROW};

/// The capabilities of an owner's slots, of which the first is entry `first`.
fn put_slots<M: Memory>(parts: &Parts, mem: &mut M, first: u32, code: &Code)
    requires sound { Sound parts.now }
    requires booting { Booting parts.now (M.granules mem.old) }
    requires slots { SlotsPut parts.now first code.now }
    requires few { first + length code.now.slots < 2 ^ 32 }
    requires fits { text_base code.now < 2 ^ 32 }
    ensures { Stage parts.now (M.granules mem.old) (M.granules mem.new)
        (IsFrom code.now.base (text_base code.now)) }
{
    for index in 0..code.slots.len() {
        let number = first + index as u32;
        let at = code.base + SLOT_SIZE * index as u32;
        let slot = &code.slots[index];
        let cap = slot_made(parts, number, at, slot.row);
        put(parts, mem, at, cap);
    }
}

/// An owner's slots, of which the first is entry `first`, and its text.
fn put_code<M: Memory>(parts: &Parts, mem: &mut M, first: u32, code: &Code)
    requires sound { Sound parts.now }
    requires booting { Booting parts.now (M.granules mem.old) }
    requires slots { SlotsPut parts.now first code.now }
    requires text { PutsBytes parts.now (text_base code.now) code.now.text }
    requires few { first + length code.now.slots < 2 ^ 32 }
    requires fits { text_base code.now < 2 ^ 32 }
    ensures { Stage parts.now (M.granules mem.old) (M.granules mem.new) (InCode code.now) }
{
    put_slots(parts, mem, first, code);
    put_bytes(parts, mem, text_base(code), code.text.as_slice());
}

/// The head of a compartment's export table: the code's capability, then that of the globals.
fn put_head<M: Memory>(parts: &Parts, mem: &mut M, of: usize, own: &Compartment)
    requires sound { Sound parts.now }
    requires booting { Booting parts.now (M.granules mem.old) }
    requires there { slice_get parts.now.compartments of ≡ Some own.now }
    ensures { Stage parts.now (M.granules mem.old) (M.granules mem.new)
        (IsFrom own.now.table (own.now.table + 16)) }
{
    let number = code_number(parts, of);
    put(parts, mem, own.table, own_code(number, &own.code));
    put(
        parts,
        mem,
        own.table + GRANULE,
        own_globals(number + 1, own),
    );
}

/// The rows of a compartment's exports, in the export table at an address.
fn put_exports<M: Memory>(parts: &Parts, mem: &mut M, table: u32, exports: &[Export])
    requires sound { Sound parts.now }
    requires booting { Booting parts.now (M.granules mem.old) }
    requires fits { table + 16 + 16 * length exports.now < 2 ^ 32 }
    requires puts { (j : ℕ) (x : GateRow) → slice_get exports.now j ≡ Some x
        → PutsBytes parts.now (table + 16 + 16 * j) (export_field x.row) }
    ensures { Stage parts.now (M.granules mem.old) (M.granules mem.new)
        (IsFrom (table + 16) (table + 16 + 16 * length exports.now)) }
{
    for index in 0..exports.len() {
        let at = table + TABLE_HEAD + TABLE_ROW * index as u32;
        let export = &exports[index];
        put_bytes(parts, mem, at, &write_export(&export.row));
    }
}

/// A compartment's export table.
fn put_table<M: Memory>(parts: &Parts, mem: &mut M, of: usize, own: &Compartment)
    requires sound { Sound parts.now }
    requires booting { Booting parts.now (M.granules mem.old) }
    requires there { slice_get parts.now.compartments of ≡ Some own.now }
    ensures { Stage parts.now (M.granules mem.old) (M.granules mem.new) (InTable own.now) }
{
    put_head(parts, mem, of, own);
    let code = &own.code;
    put_exports(parts, mem, own.table, code.exports.as_slice());
}

/// All that stands in RAM for a compartment: slots and text, the export table, and what the globals
/// begin with.
fn put_compartment<M: Memory>(parts: &Parts, mem: &mut M, of: usize, own: &Compartment)
    requires sound { Sound parts.now }
    requires booting { Booting parts.now (M.granules mem.old) }
    requires there { slice_get parts.now.compartments of ≡ Some own.now }
    ensures { Stage parts.now (M.granules mem.old) (M.granules mem.new) (InCompartment own.now) }
{
    let first = code_number(parts, of) + 2;
    put_code(parts, mem, first, &own.code);
    put_table(parts, mem, of, own);
    put_bytes(parts, mem, own.globals, own.initial.as_slice());
}

/// All that stands in RAM for the compartments.
pub(crate) fn put_compartments<M: Memory>(parts: &Parts, mem: &mut M)
    requires sound { Sound parts.now }
    requires booting { Booting parts.now (M.granules mem.old) }
    ensures { Stage parts.now (M.granules mem.old) (M.granules mem.new)
        (InFirst InCompartment parts.now.compartments (length parts.now.compartments)) }
{
    for of in 0..parts.compartments.len() {
        put_compartment(parts, mem, of, &parts.compartments[of]);
    }
}

/// A library's slots and text.
fn put_library<M: Memory>(parts: &Parts, mem: &mut M, of: usize, code: &Code)
    requires sound { Sound parts.now }
    requires booting { Booting parts.now (M.granules mem.old) }
    requires there { slice_get parts.now.libraries of ≡ Some code.now }
    ensures { Stage parts.now (M.granules mem.old) (M.granules mem.new) (InCode code.now) }
{
    let first = library_number(parts, of) + 1;
    put_code(parts, mem, first, code);
}

/// All that stands in RAM for the libraries.
pub(crate) fn put_libraries<M: Memory>(parts: &Parts, mem: &mut M)
    requires sound { Sound parts.now }
    requires booting { Booting parts.now (M.granules mem.old) }
    ensures { Stage parts.now (M.granules mem.old) (M.granules mem.new)
        (InFirst InCode parts.now.libraries (length parts.now.libraries)) }
{
    for of in 0..parts.libraries.len() {
        put_library(parts, mem, of, &parts.libraries[of]);
    }
}

/// What a sealed object begins with.
fn put_sealed<M: Memory>(parts: &Parts, mem: &mut M, of: usize, object: &Sealed)
    requires sound { Sound parts.now }
    requires booting { Booting parts.now (M.granules mem.old) }
    requires there { slice_get parts.now.sealed of ≡ Some object.now }
    ensures { Stage parts.now (M.granules mem.old) (M.granules mem.new) (InSealed object.now) }
{
    put_bytes(parts, mem, object.base, object.bytes.as_slice());
}

/// What the sealed objects begin with.
pub(crate) fn put_sealed_objects<M: Memory>(parts: &Parts, mem: &mut M)
    requires sound { Sound parts.now }
    requires booting { Booting parts.now (M.granules mem.old) }
    ensures { Stage parts.now (M.granules mem.old) (M.granules mem.new)
        (InFirst InSealed parts.now.sealed (length parts.now.sealed)) }
{
    for of in 0..parts.sealed.len() {
        put_sealed(parts, mem, of, &parts.sealed[of]);
    }
}
