//! An image's bytes, part by part. Each function appends the spelling of its part.

ghost use Rattle.std.specs.Prelude.{◌≡◌, ◌++◌, List, ℕ, OnOk, IfOk};
ghost use Rattle.std.specs.List.{flat_map};
ghost use Rattle.def_image.specs.Spelling as spec;
ghost use Rattle.ct_image_parts.specs.Written as told;

use crate::parts::{Code, Compartment, Export, Parts, Sealed, Shared, Slot, Thread};
use ct_entry::Device;
use ct_image_fields::MAGIC;
use ct_tables::{write_export, write_import};
use def_image::format::NAME;
use std::alloc::{AllocError, Global};

fn put_number(out: &mut Vec<u8>, number: u32) -> Result<(), AllocError>
    ensures { OnOk result (out.new.items ≡ out.old.items ++ spec.number number) }
{
    out.extend_from_slice(&number.to_le_bytes())?;
    Ok(())
}

/// How many members a list has.
fn put_count(out: &mut Vec<u8>, count: usize) -> Result<(), AllocError>
    ensures { OnOk result (out.new.items ≡ out.old.items ++ spec.number count) }
{
    let bytes = (count as u64).to_le_bytes();
    out.extend_from_slice(&bytes[..4])?;
    Ok(())
}

/// So many zeros.
fn put_zeros(out: &mut Vec<u8>, count: usize) -> Result<(), AllocError>
    ensures { OnOk result (out.new.items ≡ out.old.items ++ spec.zeros count) }
{
    for _ in 0..count {
        out.push(0)?;
    }
    Ok(())
}

/// A name with the zeros that pad it.
fn put_name(out: &mut Vec<u8>, name: &str) -> Result<(), AllocError>
    ensures { OnOk result (out.new.items ≡ out.old.items ++ spec.name_field name.now) }
{
    out.extend_from_slice(name.as_bytes())?;
    put_zeros(out, (NAME as usize).saturating_sub(name.len()))
}

/// How many zeros lead from this length to a multiple of 4.
fn padding_after(length: usize) -> usize
    ensures { result ≡ spec.padding_after length }
{
    (4 - length % 4) % 4
}

/// A row and a name.
fn put_entry(out: &mut Vec<u8>, row: &[u8; 16], name: &str) -> Result<(), AllocError>
    ensures { OnOk result (out.new.items ≡ out.old.items ++ (row.now ++ spec.name_field name.now)) }
{
    out.extend_from_slice(row)?;
    put_name(out, name)
}

/// A part that is spelled.
trait Put {
    /// What is written of it.
    ghost told: { Self → List ℕ };

    fn put(&self, out: &mut Vec<u8>) -> Result<(), AllocError>
        ensures { OnOk result (out.new.items ≡ out.old.items ++ told self.now) };
}

/// The parts of a list.
fn put_all<T: Put>(out: &mut Vec<u8>, all: &[T]) -> Result<(), AllocError>
    ensures { OnOk result (out.new.items ≡ out.old.items ++ flat_map T.told all.now) }
{
    for one in all {
        one.put(out)?;
    }
    Ok(())
}

impl Put for Slot {
    ghost told = { told.slot };

    fn put(&self, out: &mut Vec<u8>) -> Result<(), AllocError> {
        let row = write_import(&self.row);
        put_entry(out, &row, self.name.as_str())
    }
}

impl Put for Export {
    ghost told = { told.gate };

    fn put(&self, out: &mut Vec<u8>) -> Result<(), AllocError> {
        let row = write_export(&self.row);
        put_entry(out, &row, self.name.as_str())
    }
}

impl Put for Device {
    ghost told = { told.device };

    fn put(&self, out: &mut Vec<u8>) -> Result<(), AllocError> {
        put_name(out, self.name.as_str())?;
        put_number(out, self.kind.number())?;
        put_number(out, self.base)
    }
}

impl Put for Shared {
    ghost told = { told.shared };

    fn put(&self, out: &mut Vec<u8>) -> Result<(), AllocError> {
        put_name(out, self.name.as_str())?;
        put_number(out, self.base)?;
        put_number(out, self.length)
    }
}

impl Put for Sealed {
    ghost told = { told.sealed };

    fn put(&self, out: &mut Vec<u8>) -> Result<(), AllocError> {
        put_name(out, self.name.as_str())?;
        put_number(out, self.base)?;
        put_number(out, self.length)?;
        put_number(out, self.seal)?;
        put_count(out, self.bytes.len())?;
        out.extend_from_slice(self.bytes.as_slice())?;
        put_zeros(out, padding_after(self.bytes.len()))
    }
}

/// The head of a compartment or library.
fn put_head(out: &mut Vec<u8>, code: &Code) -> Result<(), AllocError>
    ensures { OnOk result (out.new.items ≡ out.old.items ++ told.head code.now) }
{
    put_name(out, code.name.as_str())?;
    put_number(out, code.base)?;
    put_number(out, code.length)?;
    put_count(out, code.text.len())
}

/// The counts of slots and exports, these, and the text.
fn put_tables(out: &mut Vec<u8>, code: &Code) -> Result<(), AllocError>
    ensures { OnOk result (out.new.items ≡ out.old.items ++ told.tables code.now) }
{
    put_count(out, code.slots.len())?;
    put_count(out, code.exports.len())?;
    put_all(out, code.slots.as_slice())?;
    put_all(out, code.exports.as_slice())?;
    out.extend_from_slice(code.text.as_slice())?;
    Ok(())
}

impl Put for Code {
    ghost told = { told.library };

    fn put(&self, out: &mut Vec<u8>) -> Result<(), AllocError> {
        put_head(out, self)?;
        put_tables(out, self)
    }
}

impl Put for Compartment {
    ghost told = { told.compartment };

    fn put(&self, out: &mut Vec<u8>) -> Result<(), AllocError> {
        put_head(out, &self.code)?;
        put_number(out, self.table)?;
        put_number(out, self.globals)?;
        put_number(out, self.globals_length)?;
        put_count(out, self.initial.len())?;
        put_tables(out, &self.code)?;
        out.extend_from_slice(self.initial.as_slice())?;
        put_zeros(out, padding_after(self.initial.len()))
    }
}

impl Put for Thread {
    ghost told = { told.thread };

    fn put(&self, out: &mut Vec<u8>) -> Result<(), AllocError> {
        put_name(out, self.name.as_str())?;
        put_number(out, self.stack)?;
        put_number(out, self.stack_length)?;
        put_number(out, self.compartment)?;
        put_number(out, self.export)?;
        put_number(out, self.priority)?;
        put_number(out, self.frames)
    }
}

/// The magic and the version.
fn put_begin(out: &mut Vec<u8>, version: u32) -> Result<(), AllocError>
    ensures { OnOk result (out.new.items ≡ out.old.items ++ told.begin version) }
{
    out.extend_from_slice(&MAGIC)?;
    put_number(out, version)
}

/// How many members the lists have.
fn put_counts(out: &mut Vec<u8>, parts: &Parts) -> Result<(), AllocError>
    ensures { OnOk result (out.new.items ≡ out.old.items ++ told.counts parts.now) }
{
    put_count(out, parts.devices.rows.len())?;
    put_count(out, parts.shared.len())?;
    put_count(out, parts.sealed.len())?;
    put_count(out, parts.compartments.len())?;
    put_count(out, parts.libraries.len())?;
    put_count(out, parts.threads.len())
}

/// The numbers of the header.
fn put_bases(out: &mut Vec<u8>, parts: &Parts) -> Result<(), AllocError>
    ensures { OnOk result (out.new.items ≡ out.old.items ++ told.bases parts.now) }
{
    put_number(out, parts.quantum)?;
    put_number(out, parts.ram)?;
    put_number(out, parts.size)?;
    put_number(out, parts.trusted)?;
    put_number(out, parts.heap)
}

/// The sweep rate, which stands there from version 2 on.
fn put_rate(out: &mut Vec<u8>, version: u32, sweep: u32) -> Result<(), AllocError>
    ensures { OnOk result (out.new.items ≡ out.old.items ++ told.rate version sweep) }
{
    if version == 1 {
        Ok(())
    } else {
        put_number(out, sweep)
    }
}

/// The lists.
fn put_lists(out: &mut Vec<u8>, parts: &Parts) -> Result<(), AllocError>
    ensures { OnOk result (out.new.items ≡ out.old.items ++ told.lists parts.now) }
{
    put_all(out, parts.devices.rows.as_slice())?;
    put_all(out, parts.shared.as_slice())?;
    put_all(out, parts.sealed.as_slice())?;
    put_all(out, parts.compartments.as_slice())?;
    put_all(out, parts.libraries.as_slice())?;
    put_all(out, parts.threads.as_slice())
}

/// The spelling of parts.
pub fn written(alloc: Global, parts: &Parts) -> Result<Vec<u8>, AllocError>
    ensures { IfOk result (λ v. v.items ≡ spec.image_bytes parts.now) }
{
    let mut out = Vec::new(alloc);
    put_begin(&mut out, parts.version)?;
    put_counts(&mut out, parts)?;
    put_bases(&mut out, parts)?;
    put_rate(&mut out, parts.version, parts.sweep)?;
    put_name(&mut out, parts.name.as_str())?;
    put_lists(&mut out, parts)?;
    Ok(out)
}
