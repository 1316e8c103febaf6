//! A folder in memory, which can be told to fail.

ghost use Rattle.std.specs.Prelude.{ℕ, ◌≡◌, ◌∷◌, [], ◌++◌, ◌≤◌, ◌^◌, List, MatchResult, OnOk, OnErr, Some, if◌then◌else◌, true, false};
ghost use Rattle.std.specs.Str.{bytes_eq};
ghost use Rattle.def_port.specs.Forms.{FolderRow, FailsAsTold, file_named, folder_view};
ghost use Rattle.def_port.specs.Reads.{Reads, ReadFails};
ghost use Rattle.def_port.specs.Told.{TellsSame};

use crate::Folder;
use crate::lists::{Reading, StoredFile, find, front, has_number, note, put};
use def_port::ReadError;
use def_refusals::NoMemory;
use std::alloc::Global;
use std::marker::Model;

/// Files in memory. It tells every name: a file, or that there is none.
///
/// A read answers `Failed` exactly where its number, counted from 1 in the list of calls, was given
/// to `fail_at`, or where no file has the name.
#[derive(Drop)]
pub struct FolderMem {
    files: Vec<StoredFile>,
    fails: Vec<u64>,
    calls: Vec<Reading>,
    faults: u64,
}

impl Model for FolderMem {
    ghost use Rattle.def_port.specs.Forms.{FolderRow};

    ghost Value = { FolderRow };

    ghost view = { λ f. record {
      files = f.files.items;
      fails = f.fails.items;
      calls = f.calls.items;
      faults = f.faults;
    } };
}

impl FolderMem {
    /// An empty folder, with no call that fails. It takes no memory.
    pub fn new(alloc: Global) -> FolderMem
        ensures { result ≡ record { files = []; fails = []; calls = []; faults = 0 } }
    {
        FolderMem {
            files: Vec::new(alloc),
            fails: Vec::new(alloc),
            calls: Vec::new(alloc),
            faults: 0,
        }
    }

    /// Keeps a file under this name, in place of one that has it. A refusal changes nothing.
    pub fn add(&mut self, alloc: Global, name: &str, bytes: &[u8]) -> Result<(), NoMemory>
        ensures ok { OnOk result ((n : List ℕ) → file_named self.new.files n
            ≡ (if bytes_eq name.now n then Some bytes.now else file_named self.old.files n)) }
        ensures fails { self.new.fails ≡ self.old.fails }
        ensures calls { self.new.calls ≡ self.old.calls }
        ensures faults { self.new.faults ≡ self.old.faults }
        ensures err { OnErr result (self.new ≡ self.old) }
    {
        put(&mut self.files, alloc, name, bytes)?;
        Ok(())
    }

    /// Makes the read with this number fail; numbers count from 1. A refusal changes nothing.
    pub fn fail_at(&mut self, _alloc: Global, call: u64) -> Result<(), NoMemory>
        ensures ok { OnOk result
            (self.new ≡ record self.old { fails = self.old.fails ++ call ∷ [] }) }
        ensures err { OnErr result (self.new ≡ self.old) }
    {
        self.fails.push(call)?;
        Ok(())
    }
}

impl Folder for FolderMem {
    ghost shows = { folder_view };

    fn read(&mut self, alloc: Global, name: &str, limit: u64) -> Result<Vec<u8>, ReadError>
        requires { limit ≤ 2 ^ 32 }
        ensures answer { MatchResult result
            (λ v. Reads name.now limit (folder_view self.old) (folder_view self.new) v.items)
            (λ e. ReadFails name.now limit (folder_view self.old) (folder_view self.new) e) }
        ensures same { TellsSame (folder_view self.old) (folder_view self.new) }
        ensures cause { FailsAsTold self.old name.now result }
        ensures files { self.new.files ≡ self.old.files }
        ensures fails { self.new.fails ≡ self.old.fails }
    {
        let number = (self.calls.len() as u64).saturating_add(1);
        let listed = has_number(self.fails.as_slice(), number);
        match find(self.files.as_slice(), name) {
            Some(bytes) if !listed => {
                let bytes = front(alloc, bytes, limit)?;
                note(&mut self.calls, alloc, name, limit, false)?;
                Ok(bytes)
            }
            _ => {
                note(&mut self.calls, alloc, name, limit, true)?;
                self.faults = self.faults.saturating_add(1);
                Err(ReadError::Failed)
            }
        }
    }
}
