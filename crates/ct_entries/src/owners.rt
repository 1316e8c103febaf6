//! The rows of each owner, of all compartments, libraries and threads.

ghost use Rattle.std.specs.Prelude.{ℕ, ◌≡◌, ◌+◌, ◌*◌, ◌^◌, ◌<◌, ◌≤◌, ◌++◌, [], ◌∷◌, length, map, OnOk};
ghost use Rattle.def_profile.specs.declared.layout.TheConstants as layout;
ghost use Rattle.def_profile.specs.declared.limits.TheConstants as most;
ghost use Rattle.def_image.specs.Sound.{Sound};
ghost use Rattle.def_boot.specs.Entries as spec;
ghost use Rattle.ct_entries.specs.Fits.{CodeStands, CompartmentStands};
ghost use Rattle.def_image.specs.Parts.{GateRow};
ghost use Rattle.std.specs.List.{AllByRecursion};

use crate::rows::row;
use crate::slots::add_slots;
use ct_entry::{Entry, Kind, Owner};
use ct_image_parts::{Code, Compartment, Export, Parts, Thread};
use def_profile::layout::{TABLE_HEAD, TABLE_ROW};
use def_profile::rights::{CODE_RIGHTS, EXPORT_RIGHTS, GLOBALS_RIGHTS, STACK_RIGHTS};
use std::alloc::AllocError;

/// The region of slots and text.
fn code_row(owner: Owner, code: &Code) -> Entry
    ensures { result ≡ spec.code_row owner code.now }
{
    row(owner, Kind::Code, code.base, code.length, CODE_RIGHTS, 0)
}

fn globals_row(index: u32, compartment: &Compartment) -> Entry
    ensures { result ≡ spec.globals_row index compartment.now }
{
    let (base, length) = (compartment.globals, compartment.globals_length);
    row(
        Owner::Compartment(index),
        Kind::Globals,
        base,
        length,
        GLOBALS_RIGHTS,
        0,
    )
}

/// An export of a compartment has the range of its row in the export table.
fn export_row(index: u32, at: u32) -> Entry
    ensures { result ≡ spec.export_row index at }
{
    row(
        Owner::Compartment(index),
        Kind::Export,
        at,
        TABLE_ROW,
        EXPORT_RIGHTS,
        0,
    )
}

/// The rows of a compartment's exports, of which the first stands at an address.
fn add_exports(
    rows: &mut Vec<Entry>,
    index: u32,
    at: u32,
    exports: &[Export],
) -> Result<(), AllocError>
    requires { at + layout.TABLE_ROW * length exports.now < 2 ^ 32 }
    ensures { OnOk result
        (rows.new.items ≡ rows.old.items ++ spec.export_rows index at exports.now) }
{
    let mut place = at;
    for _export in exports {
        rows.push(export_row(index, place))?;
        place += TABLE_ROW;
    }
    Ok(())
}

fn add_compartment(
    rows: &mut Vec<Entry>,
    parts: &Parts,
    index: u32,
    compartment: &Compartment,
) -> Result<(), AllocError>
    requires sound { Sound parts.now }
    requires stands { CompartmentStands parts.now compartment.now }
    ensures { OnOk result
        (rows.new.items
        ≡ rows.old.items ++ spec.compartment_rows parts.now index compartment.now) }
{
    let owner = Owner::Compartment(index);
    let code = &compartment.code;
    rows.push(code_row(owner, code))?;
    rows.push(globals_row(index, compartment))?;
    add_slots(rows, parts, owner, code.base, code.slots.as_slice())?;
    add_exports(
        rows,
        index,
        compartment.table + TABLE_HEAD,
        code.exports.as_slice(),
    )
}

/// The rows of all compartments.
pub(crate) fn add_compartments(
    rows: &mut Vec<Entry>,
    parts: &Parts,
    compartments: &[Compartment],
) -> Result<(), AllocError>
    requires sound { Sound parts.now }
    requires stands { AllByRecursion (CompartmentStands parts.now) compartments.now }
    requires few { length compartments.now ≤ most.MOST_COMPARTMENTS }
    ensures { OnOk result
        (rows.new.items
        ≡ rows.old.items ++ spec.rows_from (spec.compartment_rows parts.now) 0 compartments.now) }
{
    for (index, compartment) in compartments.iter().enumerate() {
        add_compartment(rows, parts, index as u32, compartment)?;
    }
    Ok(())
}

/// An export of a library has its code's range and rights.
fn library_export_row(index: u32, code: &Code) -> Entry
    ensures { result ≡ spec.library_export_row index code.now }
{
    let owner = Owner::Library(index);
    row(owner, Kind::Export, code.base, code.length, CODE_RIGHTS, 0)
}

fn add_library_exports(
    rows: &mut Vec<Entry>,
    index: u32,
    code: &Code,
    exports: &[Export],
) -> Result<(), AllocError>
    ensures { OnOk result
        (rows.new.items ≡ rows.old.items
        ++ map (λ (x : GateRow). spec.library_export_row index code.now) exports.now) }
{
    for _export in exports {
        rows.push(library_export_row(index, code))?;
    }
    Ok(())
}

fn add_library(
    rows: &mut Vec<Entry>,
    parts: &Parts,
    index: u32,
    code: &Code,
) -> Result<(), AllocError>
    requires sound { Sound parts.now }
    requires stands { CodeStands parts.now code.now }
    ensures { OnOk result
        (rows.new.items
        ≡ rows.old.items ++ spec.library_rows parts.now index code.now) }
{
    let owner = Owner::Library(index);
    rows.push(code_row(owner, code))?;
    add_slots(rows, parts, owner, code.base, code.slots.as_slice())?;
    add_library_exports(rows, index, code, code.exports.as_slice())
}

/// The rows of all libraries.
pub(crate) fn add_libraries(
    rows: &mut Vec<Entry>,
    parts: &Parts,
    libraries: &[Code],
) -> Result<(), AllocError>
    requires sound { Sound parts.now }
    requires stands { AllByRecursion (CodeStands parts.now) libraries.now }
    requires few { length libraries.now ≤ most.MOST_LIBRARIES }
    ensures { OnOk result
        (rows.new.items
        ≡ rows.old.items ++ spec.rows_from (spec.library_rows parts.now) 0 libraries.now) }
{
    for (index, code) in libraries.iter().enumerate() {
        add_library(rows, parts, index as u32, code)?;
    }
    Ok(())
}

fn stack_row(index: u32, thread: &Thread) -> Entry
    ensures { result ≡ spec.stack_row index thread.now }
{
    let (base, length) = (thread.stack, thread.stack_length);
    row(
        Owner::Thread(index),
        Kind::Stack,
        base,
        length,
        STACK_RIGHTS,
        0,
    )
}

/// The rows of all threads.
pub(crate) fn add_threads(rows: &mut Vec<Entry>, threads: &[Thread]) -> Result<(), AllocError>
    requires { length threads.now ≤ most.MOST_THREADS_2 }
    ensures { OnOk result
        (rows.new.items
        ≡ rows.old.items ++ spec.rows_from (λ t x. spec.stack_row t x ∷ []) 0 threads.now) }
{
    for (index, thread) in threads.iter().enumerate() {
        rows.push(stack_row(index as u32, thread))?;
    }
    Ok(())
}
