//! The rows that a JSON value stands for.

ghost use Rattle.std.specs.Prelude.{◌≡◌, codes, IfOk, map, option_map, string_bytes};
ghost use Rattle.serde_json.specs.Data.{Data};
ghost use Rattle.ct_json.specs.Values.{data_of, items_left};
ghost use Rattle.def_desc.specs.Limits.{number_or_zero as spec_number_in};
ghost use Rattle.def_desc.specs.Members as member;
ghost use Rattle.def_desc.specs.Reading as spec;
ghost use Rattle.def_desc.specs.References.{import_of as spec_import_of};

use crate::parts::{
    At, Code, Compartment, Desc, Export, Import, Library, LibraryExport, LibraryImport, Quota,
    Sealed, Shared, Thread,
};
use ct_desc_value::members::{
    list_at, number_in, number_or, text_at, text_of, text_or, word_at, word_or,
};
use ct_desc_value::tables::{kind_of, library_posture_of, passes_of, posture_of};
use ct_desc_value::{bytes_of, word_of};
use ct_entry::{Device, DeviceKind, Mode};
use ct_json::{Items, Json};
use def_desc::tables::QUANTUM;
use def_desc::{Passes, Ram};
use def_profile::limits::{MOST_ARGUMENTS, SWEEP_RATE};
use std::alloc::{AllocError, Global};

/// A row that is read of a value.
trait Row: Drop {
    /// What a value stands for.
    ghost meaning: { Data → Self };

    fn of(alloc: Global, value: &Json) -> Result<Self, AllocError>
        ensures { IfOk result (λ x. x ≡ meaning (data_of value.now)) };
}

/// The rows of the elements of a list.
fn all_of<R: Row>(alloc: Global, values: Items) -> Result<Vec<R>, AllocError>
    ensures { IfOk result (λ v. v.items ≡ map R.meaning (items_left values.entry)) }
{
    let mut all = Vec::new(alloc);
    for value in values {
        all.push(R::of(alloc, &value)?)?;
    }
    Ok(all)
}

fn words_of(alloc: Global, values: Items) -> Result<Vec<u32>, AllocError>
    ensures { IfOk result
        (λ v. v.items ≡ map (λ w. spec.hexadecimal_word (member.text_value w))
        (items_left values.entry)) }
{
    let mut all = Vec::new(alloc);
    for value in values {
        all.push(word_of(text_of(&value).as_bytes()))?;
    }
    Ok(all)
}

fn keys_of(alloc: Global, values: Items) -> Result<Vec<u64>, AllocError>
    ensures { IfOk result (λ v. v.items ≡ map spec_number_in (items_left values.entry)) }
{
    let mut all = Vec::new(alloc);
    for value in values {
        all.push(number_in(&value))?;
    }
    Ok(all)
}

/// The text at a key, or the empty text.
fn text_owned(alloc: Global, value: &Json, key: &str) -> Result<String, AllocError>
    ensures { IfOk result (λ s. string_bytes s ≡ member.text_or key.now (data_of value.now)) }
{
    String::from_str(alloc, text_or(value, key))
}

/// The text at a key, if there is one.
fn text_there(alloc: Global, value: &Json, key: &str) -> Result<Option<String>, AllocError>
    ensures { IfOk result
        (λ o. option_map string_bytes o ≡ member.text_at key.now (data_of value.now)) }
{
    match text_at(value, key) {
        Some(text) => Ok(Some(String::from_str(alloc, text)?)),
        None => Ok(None),
    }
}

fn code_in(alloc: Global, value: &Json) -> Result<Code, AllocError>
    ensures { IfOk result (λ x. x ≡ spec.code_of_object (data_of value.now)) }
{
    Ok(Code {
        words: words_of(alloc, list_at(value, "words"))?,
        file: text_there(alloc, value, "file")?,
    })
}

/// The code of a compartment or library.
fn code_of(alloc: Global, owner: &Json) -> Result<Code, AllocError>
    ensures { IfOk result
        (λ x. x ≡ spec.code_of_object (member.member_at (codes "code") (data_of owner.now))) }
{
    match owner.get("code") {
        Some(code) => code_in(alloc, &code),
        None => Ok(Code {
            words: Vec::new(alloc),
            file: None,
        }),
    }
}

fn at_of(alloc: Global, value: &Json) -> Result<At, AllocError>
    ensures { IfOk result (λ x. x ≡ spec.at_of (data_of value.now)) }
{
    Ok(At {
        label: text_there(alloc, value, "at")?,
        offset: number_or(value, "at", 0),
    })
}

fn ram_of(value: &Json) -> Ram
    ensures { result ≡ spec.ram_of (member.member_at (codes "ram") (data_of value.now)) }
{
    match value.get("ram") {
        Some(ram) => Ram {
            base: word_at(&ram, "base"),
            size: word_at(&ram, "size"),
        },
        None => Ram { base: 0, size: 0 },
    }
}

impl Row for Device {
    ghost meaning = { spec.device_of };

    fn of(alloc: Global, value: &Json) -> Result<Device, AllocError> {
        Ok(Device {
            name: text_owned(alloc, value, "name")?,
            kind: kind_of(text_or(value, "kind")).unwrap_or(DeviceKind::Uart),
            base: word_at(value, "base"),
        })
    }
}

impl Row for Shared {
    ghost meaning = { spec.shared_of };

    fn of(alloc: Global, value: &Json) -> Result<Shared, AllocError> {
        Ok(Shared {
            name: text_owned(alloc, value, "name")?,
            size: word_at(value, "size"),
        })
    }
}

impl Row for Sealed {
    ghost meaning = { spec.sealed_of };

    fn of(alloc: Global, value: &Json) -> Result<Sealed, AllocError> {
        Ok(Sealed {
            name: text_owned(alloc, value, "name")?,
            seal: word_at(value, "type"),
            bytes: bytes_of(alloc, text_or(value, "bytes").as_bytes())?,
        })
    }
}

impl Row for Import {
    ghost meaning = { spec_import_of };

    fn of(alloc: Global, value: &Json) -> Result<Import, AllocError> {
        Ok(Import {
            alias: text_owned(alloc, value, "as")?,
            device: text_there(alloc, value, "device")?,
            rights: text_there(alloc, value, "rights")?,
            shared: text_there(alloc, value, "shared")?,
            sealed: text_there(alloc, value, "sealed")?,
            call: text_there(alloc, value, "call")?,
            service: text_there(alloc, value, "service")?,
            library: text_there(alloc, value, "library")?,
        })
    }
}

impl Row for Quota {
    ghost meaning = { spec.quota_of };

    fn of(alloc: Global, value: &Json) -> Result<Quota, AllocError> {
        Ok(Quota {
            name: text_owned(alloc, value, "name")?,
            limit: word_at(value, "limit"),
        })
    }
}

impl Row for Export {
    ghost meaning = { spec.export_of };

    fn of(alloc: Global, value: &Json) -> Result<Export, AllocError> {
        Ok(Export {
            name: text_owned(alloc, value, "name")?,
            at: at_of(alloc, value)?,
            posture: posture_of(text_or(value, "posture")).unwrap_or(Mode::Enabled),
            args: word_or(value, "args", MOST_ARGUMENTS),
            stack: word_at(value, "stack"),
            passes: passes_of(text_or(value, "passes")).unwrap_or(Passes::Capabilities),
        })
    }
}

impl Row for Compartment {
    ghost meaning = { spec.compartment_of_object };

    fn of(alloc: Global, value: &Json) -> Result<Compartment, AllocError> {
        Ok(Compartment {
            name: text_owned(alloc, value, "name")?,
            code: code_of(alloc, value)?,
            globals: word_at(value, "globals"),
            imports: all_of(alloc, list_at(value, "imports"))?,
            quotas: all_of(alloc, list_at(value, "quotas"))?,
            keys: keys_of(alloc, list_at(value, "keys"))?,
            exports: all_of(alloc, list_at(value, "exports"))?,
        })
    }
}

impl Row for LibraryImport {
    ghost meaning = { spec.limport_of };

    fn of(alloc: Global, value: &Json) -> Result<LibraryImport, AllocError> {
        Ok(LibraryImport {
            alias: text_owned(alloc, value, "as")?,
            library: text_owned(alloc, value, "library")?,
        })
    }
}

impl Row for LibraryExport {
    ghost meaning = { spec.lexport_of };

    fn of(alloc: Global, value: &Json) -> Result<LibraryExport, AllocError> {
        Ok(LibraryExport {
            name: text_owned(alloc, value, "name")?,
            at: at_of(alloc, value)?,
            posture: library_posture_of(text_or(value, "posture")).unwrap_or(Mode::Inherit),
        })
    }
}

impl Row for Library {
    ghost meaning = { spec.library_of };

    fn of(alloc: Global, value: &Json) -> Result<Library, AllocError> {
        Ok(Library {
            name: text_owned(alloc, value, "name")?,
            code: code_of(alloc, value)?,
            imports: all_of(alloc, list_at(value, "imports"))?,
            exports: all_of(alloc, list_at(value, "exports"))?,
        })
    }
}

impl Row for Thread {
    ghost meaning = { spec.thread_of };

    fn of(alloc: Global, value: &Json) -> Result<Thread, AllocError> {
        Ok(Thread {
            name: text_owned(alloc, value, "name")?,
            entry: text_owned(alloc, value, "entry")?,
            priority: word_at(value, "priority"),
            stack: word_at(value, "stack"),
            frames: word_at(value, "frames"),
        })
    }
}

/// The rows of any value. What is missing or not of its kind reads as its default, or else as 0, the
/// empty text or the empty list; a number that 32 bits don't hold reads as 0, but keys and the
/// offsets of exports keep their numbers. An error is want of memory.
pub fn rows_of(alloc: Global, value: &Json) -> Result<Desc, AllocError>
    ensures { IfOk result (λ x. x ≡ spec.description_of (data_of value.now)) }
{
    Ok(Desc {
        firmware: text_owned(alloc, value, "firmware")?,
        version: word_or(value, "version", 1),
        sweep: word_or(value, "sweep", SWEEP_RATE),
        ram: ram_of(value),
        quantum: word_or(value, "quantum", QUANTUM),
        devices: all_of(alloc, list_at(value, "devices"))?,
        shared: all_of(alloc, list_at(value, "shared"))?,
        sealed: all_of(alloc, list_at(value, "sealed"))?,
        compartments: all_of(alloc, list_at(value, "compartments"))?,
        libraries: all_of(alloc, list_at(value, "libraries"))?,
        threads: all_of(alloc, list_at(value, "threads"))?,
    })
}
