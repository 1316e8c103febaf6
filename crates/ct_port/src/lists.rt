//! What the folders in memory are made of: their files, and the list of reads.

ghost use Rattle.std.specs.Prelude.{ℕ, ◌≡◌, ◌+◌, ◌<◌, List, [], length, take, OnOk, OnErr, IfOk, ◌^◌, Some, None, MatchOption, option_map, if◌then◌else◌};
ghost use Rattle.std.specs.Str.{bytes_eq};
ghost use Rattle.def_port.specs.Told.{Call};
ghost use Rattle.def_port.specs.Forms.{FileRow, IsFirstOf, file_named, is_listed};
ghost use Rattle.def_port.specs.Reads.{recorded};

use std::alloc::{AllocError, Global};
use std::marker::Model;

/// A file that is kept in memory.
#[derive(Drop)]
pub(crate) struct StoredFile {
    name: String,
    bytes: Vec<u8>,
}

impl Model for StoredFile {
    ghost use Rattle.std.specs.Prelude.{string_bytes};
    ghost use Rattle.def_port.specs.Forms.{FileRow};

    ghost Value = { FileRow };

    ghost view = { λ f. record { name = string_bytes f.name; bytes = f.bytes.items } };
}

/// A read that came: the name, the limit, and whether it failed.
#[derive(Drop)]
pub(crate) struct Reading {
    name: String,
    limit: u64,
    failed: bool,
}

impl Model for Reading {
    ghost use Rattle.std.specs.Prelude.{string_bytes};
    ghost use Rattle.def_port.specs.Told.{Call};

    ghost Value = { Call };

    ghost view = { λ c. record { name = string_bytes c.name; limit = c.limit; failed = c.failed } };
}

/// The bytes of the first file of this name.
pub(crate) fn find<'a>(files: &'a [StoredFile], name: &str) -> Option<&'a [u8]>
    ensures { option_map (λ v. v.now) result ≡ file_named files.now name.now }
{
    for file in files {
        if file.name.as_str() == name {
            return Some(file.bytes.as_slice());
        }
    }
    None
}

/// The place of the first file of this name.
fn position_of(files: &[StoredFile], name: &str) -> Option<usize>
    ensures { MatchOption result (file_named files.now name.now ≡ None)
        (λ i. IsFirstOf files.now name.now i) }
{
    for i in 0..files.len() {
        let file = &files[i];
        if file.name.as_str() == name {
            return Some(i);
        }
    }
    None
}

/// Keeps a file under this name, in place of one that has it. An error is want of memory, and
/// changes nothing.
pub(crate) fn put(
    files: &mut Vec<StoredFile>,
    alloc: Global,
    name: &str,
    bytes: &[u8],
) -> Result<(), AllocError>
    ensures ok { OnOk result ((n : List ℕ) → file_named files.new.items n
        ≡ (if bytes_eq name.now n then Some bytes.now else file_named files.old.items n)) }
    ensures err { OnErr result (files.new.items ≡ files.old.items) }
{
    let bytes = Vec::from_slice(alloc, bytes)?;
    match position_of(files.as_slice(), name) {
        Some(place) => {
            let file = &mut files[place];
            file.bytes = bytes;
        }
        None => {
            let name = String::from_str(alloc, name)?;
            files.push(StoredFile { name, bytes })?;
        }
    }
    Ok(())
}

/// Adds a read to the list. An error is want of memory, and changes nothing.
pub(crate) fn note(
    calls: &mut Vec<Reading>,
    alloc: Global,
    name: &str,
    limit: u64,
    failed: bool,
) -> Result<(), AllocError>
    ensures ok { OnOk result (calls.new.items ≡ recorded calls.old.items name.now limit failed) }
    ensures err { OnErr result (calls.new.items ≡ calls.old.items) }
{
    let name = String::from_str(alloc, name)?;
    calls.push(Reading {
        name,
        limit,
        failed,
    })?;
    Ok(())
}

/// Whether a call's number stands in a list of numbers.
pub(crate) fn has_number(listed: &[u64], call: u64) -> bool
    ensures { result ≡ is_listed listed.now call }
{
    for number in listed {
        if *number == call {
            return true;
        }
    }
    false
}

/// The first `limit + 1` bytes, or all where there are no more.
pub(crate) fn front(alloc: Global, bytes: &[u8], limit: u64) -> Result<Vec<u8>, AllocError>
    requires { limit < 2 ^ 63 }
    ensures { IfOk result (λ v. v.items ≡ take (limit + 1) bytes.now) }
{
    let most = bytes.len().min(limit as usize + 1);
    Vec::from_slice(alloc, &bytes[..most])
}
