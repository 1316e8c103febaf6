//! A folder and a sink that never fail: over them a caller can answer no fault.

ghost use Rattle.std.specs.Prelude.{ℕ, ◌≡◌, ◌+◌, ◌-◌, ◌≤◌, ◌^◌, min, length, List, [], MatchResult, OnOk, OnErr, IsOk, Some, None, if◌then◌else◌, true, false};
ghost use Rattle.std.specs.Str.{bytes_eq};
ghost use Rattle.def_port.specs.Told.{TellsSame};
ghost use Rattle.def_port.specs.Forms.{SteadyRow, NeverFails, file_named, steady_sink, steady_view};
ghost use Rattle.def_port.specs.Reads.{Reads, ReadFails};
ghost use Rattle.def_port.specs.Writes.{WriteAnswers};

use crate::lists::{Reading, StoredFile, find, front, note, put};
use crate::{Folder, Sink};
use def_port::{ReadError, WriteFailed};
use def_refusals::NoMemory;
use std::alloc::Global;
use std::marker::Model;

/// Files in memory, and an empty file for every other name. Its count of faults is the constant 0,
/// so that no read of it answers `Failed`.
#[derive(Drop)]
pub struct SteadyFolder {
    files: Vec<StoredFile>,
    calls: Vec<Reading>,
}

impl Model for SteadyFolder {
    ghost use Rattle.def_port.specs.Forms.{SteadyRow};

    ghost Value = { SteadyRow };

    ghost view = { λ f. record { files = f.files.items; calls = f.calls.items } };
}

impl SteadyFolder {
    /// A folder in which every file is empty. It takes no memory.
    pub fn new(alloc: Global) -> SteadyFolder
        ensures { result ≡ record { files = []; calls = [] } }
    {
        SteadyFolder {
            files: Vec::new(alloc),
            calls: Vec::new(alloc),
        }
    }

    /// Keeps a file under this name, in place of one that has it. A refusal changes nothing.
    pub fn add(&mut self, alloc: Global, name: &str, bytes: &[u8]) -> Result<(), NoMemory>
        ensures ok { OnOk result ((n : List ℕ) → file_named self.new.files n
            ≡ (if bytes_eq name.now n then Some bytes.now else file_named self.old.files n)) }
        ensures calls { self.new.calls ≡ self.old.calls }
        ensures err { OnErr result (self.new ≡ self.old) }
    {
        put(&mut self.files, alloc, name, bytes)?;
        Ok(())
    }
}

impl Folder for SteadyFolder {
    ghost shows = { steady_view };

    fn read(&mut self, alloc: Global, name: &str, limit: u64) -> Result<Vec<u8>, ReadError>
        requires { limit ≤ 2 ^ 32 }
        ensures answer { MatchResult result
            (λ v. Reads name.now limit (steady_view self.old) (steady_view self.new) v.items)
            (λ e. ReadFails name.now limit (steady_view self.old) (steady_view self.new) e) }
        ensures same { TellsSame (steady_view self.old) (steady_view self.new) }
        ensures never { NeverFails result }
        ensures files { self.new.files ≡ self.old.files }
    {
        let bytes = match find(self.files.as_slice(), name) {
            Some(bytes) => front(alloc, bytes, limit)?,
            None => Vec::new(alloc),
        };
        note(&mut self.calls, alloc, name, limit, false)?;
        Ok(bytes)
    }
}

/// Output of which only the number of bytes is kept; that number stands still at 2^64 - 1. Its count
/// of faults is the constant 0, so that no write to it fails. It tells no bytes.
#[derive(Drop)]
pub struct SteadySink {
    taken: u64,
}

impl Model for SteadySink {
    ghost use Rattle.std.specs.Prelude.{ℕ};

    ghost Value = { ℕ };

    ghost view = { λ s. s.taken };
}

impl SteadySink {
    /// A sink to which nothing came yet.
    pub fn new() -> SteadySink
        ensures { result ≡ 0 }
    {
        SteadySink { taken: 0 }
    }

    /// How many bytes came.
    pub fn taken(&self) -> u64
        ensures { result ≡ self.now }
    {
        self.taken
    }
}

impl Sink for SteadySink {
    ghost shows = { λ _. steady_sink };

    fn write(&mut self, piece: &[u8]) -> Result<(), WriteFailed>
        ensures answer { WriteAnswers steady_sink steady_sink piece.now result }
        ensures never { IsOk result }
        ensures taken { self.new ≡ min (self.old + length piece.now) (2 ^ 64 - 1) }
    {
        self.taken = self.taken.saturating_add(piece.len() as u64);
        Ok(())
    }
}
