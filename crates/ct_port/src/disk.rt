//! The trusted edge: the folder of the system's files, and a sink over a writer as standard output.
//! What a file holds and what standard output took is told by nobody; the loops between are proved
//! over every reader and writer that tells its bytes.

ghost use Rattle.std.specs.Prelude.{ℕ, ◌≡◌, ◌≢◌, ◌+◌, ◌≤◌, ◌<◌, ◌^◌, length, take, drop, List, [], MatchResult, IfOk, IfErr, IfSome, Some, None};
ghost use Rattle.std.specs.IoError.{error_kind};
ghost use Rattle.def_port.specs.Bytes.{Appends, AppendsPart};
ghost use Rattle.def_port.specs.Forms.{disk_view};
ghost use Rattle.ct_port.specs.Writing.{Took};

use crate::lists::{Reading, note};
use crate::{Folder, Sink};
use def_port::{ReadError, WriteFailed};
use std::alloc::Global;
use std::fs::File;
use std::io::{self, ErrorKind, Read, Write};
use std::marker::Model;
use std::rt::Files;

/// The files of the system, by their paths. It counts failures, keeps the list of reads, and tells
/// nothing of what a name stands for.
#[derive(Drop)]
pub struct DiskFolder<'a, R: Files> {
    runtime: &'a R,
    calls: Vec<Reading>,
    failures: u64,
}

impl<'a, R: Files> Model for DiskFolder<'a, R> {
    ghost use Rattle.def_port.specs.Forms.{DiskRow};

    ghost Value = { DiskRow };

    ghost view = { λ f. record { calls = f.calls.items; faults = f.failures } };
}

impl<'a, R: Files> DiskFolder<'a, R> {
    /// The folder of the files that the runtime reaches. It takes no memory.
    pub fn new(runtime: &'a R, alloc: Global) -> DiskFolder<'a, R>
        ensures { result ≡ record { calls = []; faults = 0 } }
    {
        DiskFolder {
            runtime,
            calls: Vec::new(alloc),
            failures: 0,
        }
    }
}

impl<'a, R: Files> Folder for DiskFolder<'a, R> {
    ghost shows = { disk_view };

    fn read(&mut self, alloc: Global, name: &str, limit: u64) -> Result<Vec<u8>, ReadError> {
        match read_file(self.runtime, alloc, name, limit) {
            Ok(bytes) => {
                note(&mut self.calls, alloc, name, limit, false)?;
                Ok(bytes)
            }
            Err(ReadError::NoMemory) => Err(ReadError::NoMemory),
            Err(ReadError::Failed) => {
                note(&mut self.calls, alloc, name, limit, true)?;
                self.failures = self.failures.saturating_add(1);
                Err(ReadError::Failed)
            }
        }
    }
}

/// The first `limit + 1` bytes of a file.
fn read_file<R: Files>(
    runtime: &R,
    alloc: Global,
    name: &str,
    limit: u64,
) -> Result<Vec<u8>, ReadError>
    requires { limit ≤ 2 ^ 32 }
    ensures { IfOk result (λ v. length v.items ≤ limit + 1) }
{
    match File::open(runtime, name) {
        Ok(file) => read_front(alloc, file, limit),
        Err(error) => Err(cause_of(&error)),
    }
}

/// Want of memory, or any other failure of the system.
fn cause_of(error: &io::Error) -> ReadError
    ensures memory { error_kind error.now ≡ ErrorKind.OutOfMemory → result ≡ ReadError.NoMemory }
    ensures other { error_kind error.now ≢ ErrorKind.OutOfMemory → result ≡ ReadError.Failed }
{
    if error.kind() == ErrorKind::OutOfMemory {
        ReadError::NoMemory
    } else {
        ReadError::Failed
    }
}

/// The first `limit + 1` bytes of a reader, or all that it has where these are fewer.
///
/// A read that a signal interrupts is tried again. `Failed`: a read failed. `NoMemory`: the bytes
/// have no room in memory.
pub fn read_front<F: Read + Drop>(alloc: Global, file: F, limit: u64) -> Result<Vec<u8>, ReadError>
    requires { limit < 2 ^ 62 }
    ensures size { IfOk result (λ v. length v.items ≤ limit + 1) }
    ensures bytes { IfOk result
        (λ v. IfSome (F.remaining file) (λ all. v.items ≡ take (limit + 1) all)) }
{
    let most = limit + 1;
    let mut bytes = Vec::new(alloc);
    match file.take(most).read_to_end(&mut bytes) {
        Ok(_) => {
            bytes.truncate(most as usize);
            Ok(bytes)
        }
        Err(error) => Err(cause_of(&error)),
    }
}

/// A sink over a writer. It counts failures, and tells the bytes that its writer tells: none of
/// standard output.
#[derive(Drop)]
pub struct WriterSink<W: Write + Drop> {
    writer: W,
    failures: u64,
}

impl<W: Write + Drop> Model for WriterSink<W> {
    ghost use Rattle.def_port.specs.Bytes.{SinkView};

    ghost Value = { SinkView };

    ghost view = { λ s. record { bytes = W.contents s.writer; faults = s.failures } };
}

impl<W: Write + Drop> WriterSink<W> {
    /// A sink over this writer. It takes no memory.
    pub fn new(writer: W) -> WriterSink<W>
        ensures { result ≡ record { bytes = W.contents writer; faults = 0 } }
    {
        WriterSink {
            writer,
            failures: 0,
        }
    }
}

impl<W: Write + Drop> Sink for WriterSink<W> {
    ghost shows = { λ s. s };

    fn write(&mut self, piece: &[u8]) -> Result<(), WriteFailed> {
        match write_whole(&mut self.writer, piece) {
            Ok(()) => Ok(()),
            Err(failed) => {
                self.failures = self.failures.saturating_add(1);
                Err(failed)
            }
        }
    }
}

/// Writes all of the piece, or fails with its beginning written.
#[tactic(auto, using(crate::proofs::Writers::next))]
fn write_whole<W: Write>(writer: &mut W, piece: &[u8]) -> Result<(), WriteFailed>
    ensures { MatchResult result
        (λ _. Appends (W.contents writer.old) (W.contents writer.new) piece.now)
        (λ _. AppendsPart (W.contents writer.old) (W.contents writer.new) piece.now) }
{
    let mut rest = piece;
    for _ in 0..u64::MAX {
        if rest.is_empty() {
            return Ok(());
        }
        match write_once(writer, rest) {
            Ok(taken) => rest = past(rest, taken),
            Err(failed) => return Err(failed),
        }
    }
    Err(WriteFailed)
}

/// One write, and how many bytes it took.
#[tactic(auto, using(crate::proofs::Writers::taken_bytes, crate::proofs::Writers::taken_bound))]
fn write_once<W: Write>(writer: &mut W, rest: &[u8]) -> Result<usize, WriteFailed>
    requires { length rest.now ≢ 0 }
    ensures bound { IfOk result (λ n. n ≤ length rest.now) }
    ensures bytes { MatchResult result
        (λ n. Appends (W.contents writer.old) (W.contents writer.new) (take n rest.now))
        (λ _. Appends (W.contents writer.old) (W.contents writer.new) []) }
{
    taken(writer.write(rest))
}

/// What a write came to: how many bytes it took, or that it failed. A write that takes nothing of its
/// own accord is a fault; one that a signal interrupted took nothing, and is tried again.
fn taken(written: io::Result<usize>) -> Result<usize, WriteFailed>
    ensures { Took (λ e. error_kind e ≡ ErrorKind.Interrupted) written result }
{
    match written {
        Ok(0) => Err(WriteFailed),
        Ok(count) => Ok(count),
        Err(error) if error.kind() == ErrorKind::Interrupted => Ok(0),
        Err(_) => Err(WriteFailed),
    }
}

/// The bytes past the first so many.
fn past(bytes: &[u8], count: usize) -> &[u8]
    requires { count ≤ length bytes.now }
    ensures { result.now ≡ drop count bytes.now }
{
    &bytes[count..]
}
