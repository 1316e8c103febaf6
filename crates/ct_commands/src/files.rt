//! Files that are read whole.

ghost use Rattle.std.specs.Prelude.{map, MatchResult};
ghost use Rattle.def_port.specs.Told.{TellsSame};
ghost use Rattle.def_program.specs.Turns as spec;
ghost use Rattle.ct_commands.specs.Whole.{AllGiven, NotGiven, SomeGiven, WasGiven, texts};

use crate::names::source_names;
use ct_desc_rows::Desc;
use ct_port::{Folder, ReadError};
use def_profile::limits::MOST_FILE;
use std::alloc::Global;

/// A file has at most this many bytes.
const MOST: u64 = MOST_FILE as u64;

/// Why a file isn't given.
#[derive(Clone, Copy, PartialEq, Eq)]
pub enum Stop<'a> {
    /// The file of this name can't be read.
    Unread(&'a str),
    /// The file of this name has more than 16,777,216 bytes.
    Large(&'a str),
    /// Memory was wanted.
    NoMemory,
}

/// Reads the file of this name whole. `Unread` comes only where the folder's count of faults rose,
/// and `Large` exactly of a file with more than 16,777,216 bytes.
pub fn read_file<'a, F: Folder>(
    alloc: Global,
    name: &'a str,
    folder: &mut F,
) -> Result<Vec<u8>, Stop<'a>>
    ensures answer { MatchResult result
        (λ v. WasGiven name.now (F.shows folder.old) (F.shows folder.new) v.items)
        (λ stop. NotGiven name.now (F.shows folder.old) (F.shows folder.new) stop) }
    ensures same { TellsSame (F.shows folder.old) (F.shows folder.new) }
{
    let bytes = match folder.read(alloc, name, MOST) {
        Ok(bytes) => bytes,
        Err(ReadError::Failed) => return Err(Stop::Unread(name)),
        Err(ReadError::NoMemory) => return Err(Stop::NoMemory),
    };
    if bytes.len() as u64 > MOST {
        return Err(Stop::Large(name));
    }
    Ok(bytes)
}

/// Reads the files of these names, in their order.
fn read_files<'a, F: Folder>(
    alloc: Global,
    names: &[&'a str],
    folder: &mut F,
) -> Result<Vec<Vec<u8>>, Stop<'a>>
    ensures answer { MatchResult result
        (λ v.
        AllGiven (texts names.now) (F.shows folder.old) (F.shows folder.new)
        (map (λ t. t.items) v.items))
        (λ stop. SomeGiven (texts names.now) (F.shows folder.old) (F.shows folder.new) stop) }
    ensures same { TellsSame (F.shows folder.old) (F.shows folder.new) }
{
    let mut all = Vec::new(alloc);
    for name in names {
        let bytes = match read_file(alloc, *name, folder) {
            Ok(bytes) => bytes,
            Err(stop) => return Err(stop),
        };
        match all.push(bytes) {
            Ok(()) => {}
            Err(_) => return Err(Stop::NoMemory),
        }
    }
    Ok(all)
}

/// Reads the sources of a description, those of compartments first. Where one can't be read, those
/// after it aren't asked for.
pub fn read_sources<'a, F: Folder>(
    alloc: Global,
    desc: &'a Desc,
    folder: &mut F,
) -> Result<Vec<Vec<u8>>, Stop<'a>>
    ensures answer { MatchResult result
        (λ v.
        AllGiven (spec.source_names desc.now) (F.shows folder.old) (F.shows folder.new)
        (map (λ t. t.items) v.items))
        (λ stop.
        SomeGiven (spec.source_names desc.now) (F.shows folder.old) (F.shows folder.new) stop) }
    ensures same { TellsSame (F.shows folder.old) (F.shows folder.new) }
{
    match source_names(alloc, desc) {
        Ok(names) => read_files(alloc, names.as_slice(), folder),
        Err(_) => Err(Stop::NoMemory),
    }
}
