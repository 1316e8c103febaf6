//! Folders and sinks at concrete values: failing calls at each number, an add that replaces, a room
//! that ends, and the system's own files and writers.

ghost use Rattle.std.specs.Prelude.{◌≤◌, ◌^◌};

use crate::seen::{at, is};
use ct_port::{
    DiskFolder, Folder, FolderMem, ReadError, Sink, SinkMem, SteadyFolder, SteadySink, WriterSink,
    read_front,
};
use std::alloc::{AllocError, Global};
use std::fs;
use std::io::{self, Cursor, ErrorKind, Read, Write};
use std::process::Abort;
use std::rt::Files;
use std::test::Fail;

/// The limit of every read of a short file: three bytes.
const LIMIT: u64 = 3;

/// Whether a read of the name gives these bytes, or none: it fails.
fn gives<F: Folder>(
    folder: &mut F,
    alloc: Global,
    name: &str,
    limit: u64,
    wanted: Option<&[u8]>,
) -> bool
    requires { limit ≤ 2 ^ 32 }
{
    match folder.read(alloc, name, limit) {
        Ok(bytes) => match wanted {
            Some(wanted) => bytes.as_slice() == wanted,
            None => false,
        },
        Err(ReadError::Failed) => wanted.is_none(),
        Err(ReadError::NoMemory) => false,
    }
}

/// A read of the name gives these bytes, or none: it fails.
fn see<F: Folder>(
    rt: &(impl Abort + AllocGlobal),
    folder: &mut F,
    name: &str,
    wanted: Option<&[u8]>,
) {
    is(rt, gives(folder, rt.alloc(), name, LIMIT, wanted), name);
}

/// Pieces that are written one after another, and whether each is taken whole.
fn writes<S: Sink>(rt: &impl Abort, sink: &mut S, pieces: &[(&str, bool)]) {
    for (piece, is_whole) in pieces {
        let taken = sink.write(piece.as_bytes()).is_ok();
        is(rt, taken == *is_whole, piece);
    }
}

/// These bytes are those.
fn same_bytes(rt: &impl Abort, found: &[u8], wanted: &[u8]) {
    at(rt, found == wanted, "bytes", wanted.len() as u64);
}

/// A file of a folder in memory.
fn add(rt: &(impl Abort + AllocGlobal), folder: &mut FolderMem, name: &str, bytes: &[u8]) {
    folder.add(rt.alloc(), name, bytes).expect(rt, "memory");
}

/// A read that fails, or gives the file.
fn read_once(rt: &(impl Abort + AllocGlobal), folder: &mut FolderMem, number: u64, fails: bool) {
    let wanted = if fails { None } else { Some(b"one".as_slice()) };
    let found = gives(folder, rt.alloc(), "a", LIMIT, wanted);
    at(rt, found, "call", number);
}

/// Three reads, of which one fails.
fn reads(rt: &(impl Abort + AllocGlobal), folder: &mut FolderMem, failing: u64) {
    add(rt, folder, "a", b"one");
    folder.fail_at(rt.alloc(), failing).expect(rt, "memory");
    for number in 1..4u64 {
        read_once(rt, folder, number, number == failing);
    }
}

#[test]
fn each_read_fails_in_turn(rt: HostRuntime) {
    for failing in 1..4u64 {
        let mut folder = FolderMem::new(rt.alloc());
        reads(&rt, &mut folder, failing);
    }
}

/// A file, an empty one, and another in place of the first.
fn add_names(rt: &(impl Abort + AllocGlobal), folder: &mut FolderMem) {
    add(rt, folder, "a", b"one");
    add(rt, folder, "b", b"");
    add(rt, folder, "a", b"two, longer");
}

#[test]
fn names_and_limits(rt: HostRuntime) {
    let mut folder = FolderMem::new(rt.alloc());
    add_names(&rt, &mut folder);
    see(&rt, &mut folder, "a", Some(b"two,".as_slice()));
    see(&rt, &mut folder, "b", Some(b"".as_slice()));
    see(&rt, &mut folder, "c", None);
    see(&rt, &mut folder, "", None);
}

/// Three writes, of which one fails.
fn fails_at(rt: &(impl Abort + AllocGlobal), sink: &mut SinkMem, failing: u64) {
    sink.fail_at(rt.alloc(), failing).expect(rt, "memory");
    for number in 1..4u64 {
        let failed = sink.write(b"xy").is_err();
        at(rt, failed == (number == failing), "call", number);
    }
    same_bytes(rt, sink.bytes(), b"xyxy".as_slice());
}

#[test]
fn each_write_fails_in_turn(rt: HostRuntime) -> Result<(), Fail> {
    for failing in 1..4u64 {
        let mut sink = SinkMem::new(rt.alloc(), 100)?;
        fails_at(&rt, &mut sink, failing);
    }
    Ok(())
}

/// What a sink with this room takes of four bytes.
fn takes_its_room(rt: &impl Abort, sink: &mut SinkMem, room: u64) {
    let is_whole = sink.write(b"wxyz").is_ok();
    at(rt, is_whole == (room >= 4), "room", room);
    same_bytes(rt, sink.bytes(), &b"wxyz"[..(room as usize).min(4)]);
}

#[test]
fn a_room_that_ends(rt: HostRuntime) -> Result<(), Fail> {
    for room in 0..5u64 {
        let mut sink = SinkMem::new(rt.alloc(), room)?;
        takes_its_room(&rt, &mut sink, room);
    }
    let mut sink = SinkMem::new(rt.alloc(), 3)?;
    writes(&rt, &mut sink, &[("ab", true), ("cd", false), ("", true)]);
    same_bytes(&rt, sink.bytes(), b"abc".as_slice());
    Ok(())
}

#[test]
fn a_steady_folder(rt: HostRuntime) {
    let mut folder = SteadyFolder::new(rt.alloc());
    folder.add(rt.alloc(), "a", b"one").expect(&rt, "memory");
    see(&rt, &mut folder, "a", Some(b"one".as_slice()));
    see(&rt, &mut folder, "b", Some(b"".as_slice()));
}

#[test]
fn a_steady_sink(rt: HostRuntime) {
    let mut sink = SteadySink::new();
    writes(&rt, &mut sink, &[("abc", true), ("de", true)]);
    is(&rt, sink.taken() == 5, "taken");
}

fn keep(rt: &impl Files, name: &str, bytes: &[u8]) -> io::Result<()> {
    fs::write(rt, name, bytes)
}

fn remove(rt: &impl Files, name: &str) -> io::Result<()> {
    fs::remove_file(rt, name)
}

/// A file that is there, one that isn't, and a folder.
fn see_files<F: Folder>(rt: &(impl Abort + AllocGlobal), folder: &mut F) {
    see(rt, folder, "port_test.txt", Some(b"abcd".as_slice()));
    see(rt, folder, "port_absent.txt", None);
    see(rt, folder, ".", None);
}

#[test]
fn the_system_s_files(rt: HostRuntime) -> Result<(), Fail> {
    keep(&rt, "port_test.txt", b"abcdef")?;
    let mut folder = DiskFolder::new(&rt, rt.alloc());
    see_files(&rt, &mut folder);
    drop(folder);
    remove(&rt, "port_test.txt")?;
    Ok(())
}

/// No two neighbouring bytes alike.
fn long_bytes(alloc: Global) -> Result<Vec<u8>, AllocError> {
    let mut bytes = Vec::new(alloc);
    for i in 0..200003u32 {
        bytes.push((i % 251) as u8)?;
    }
    Ok(bytes)
}

/// A read with a limit gives so many bytes.
fn reads_long<F: Folder>(
    rt: &(impl Abort + AllocGlobal),
    folder: &mut F,
    bytes: &mut Vec<u8>,
    limit: u64,
    given: usize,
)
    requires { limit ≤ 2 ^ 32 }
{
    bytes.truncate(given);
    let wanted = Some(bytes.as_slice());
    let found = gives(folder, rt.alloc(), "long_test.bin", limit, wanted);
    at(rt, found, "limit", limit);
}

fn all_long<F: Folder>(rt: &(impl Abort + AllocGlobal), folder: &mut F, bytes: &mut Vec<u8>) {
    reads_long(rt, folder, bytes, 200003, 200003);
    reads_long(rt, folder, bytes, 200002, 200003);
    reads_long(rt, folder, bytes, 200001, 200002);
}

/// The bytes as a file, and its reads.
fn long_file<R: Files + Abort + AllocGlobal>(rt: &R, bytes: &mut Vec<u8>) -> io::Result<()> {
    keep(rt, "long_test.bin", bytes.as_slice())?;
    let mut folder = DiskFolder::new(rt, rt.alloc());
    all_long(rt, &mut folder, bytes);
    drop(folder);
    remove(rt, "long_test.bin")
}

/// A file of more than one piece of any size that is asked of the system at once, no two
/// neighbouring bytes alike, read with its length as the limit, and with one and two less.
#[test]
fn a_long_file(rt: HostRuntime) -> Result<(), Fail> {
    let mut bytes = long_bytes(rt.alloc())?;
    let answer = long_file(&rt, &mut bytes);
    drop(bytes);
    answer?;
    Ok(())
}

/// Bytes that are read and written one at a time, where a signal interrupts every second call.
#[derive(Drop)]
struct Halting<T: Drop> {
    inner: T,
    calls: u32,
}

impl<T: Drop> Halting<T> {
    fn is_interrupted(&mut self) -> bool {
        self.calls = self.calls.wrapping_add(1);
        self.calls % 2 == 1
    }
}

impl<T: Read + Drop> Read for Halting<T> {
    fn read(&mut self, buf: &mut [u8]) -> io::Result<usize> {
        if self.is_interrupted() {
            return Err(io::Error::from(ErrorKind::Interrupted));
        }
        let most = buf.len().min(1);
        self.inner.read(&mut buf[..most])
    }
}

impl<T: Write + Drop> Write for Halting<T> {
    fn write(&mut self, buf: &[u8]) -> io::Result<usize> {
        if self.is_interrupted() {
            return Err(io::Error::from(ErrorKind::Interrupted));
        }
        let most = buf.len().min(1);
        self.inner.write(&buf[..most])
    }

    fn flush(&mut self) -> io::Result<()> {
        self.inner.flush()
    }
}

#[test]
fn interrupted_reads(rt: HostRuntime) -> Result<(), Fail> {
    let reader = Halting {
        inner: Cursor::new(b"abcdef".as_slice()),
        calls: 0,
    };
    let read = read_front(rt.alloc(), reader, 3)?;
    same_bytes(&rt, read.as_slice(), b"abcd".as_slice());
    Ok(())
}

#[test]
fn interrupted_writes(rt: HostRuntime) {
    let mut room = [0u8; 5];
    let mut sink = WriterSink::new(Halting {
        inner: Cursor::new(room.as_mut_slice()),
        calls: 0,
    });
    writes(&rt, &mut sink, &[("abc", true), ("def", false)]);
    drop(sink);
    same_bytes(&rt, room.as_slice(), b"abcde".as_slice());
}

#[test]
fn a_writer_as_sink(rt: HostRuntime) {
    let mut room = [0u8; 5];
    let mut sink = WriterSink::new(Cursor::new(room.as_mut_slice()));
    writes(&rt, &mut sink, &[("abc", true), ("", true), ("def", false)]);
    drop(sink);
    same_bytes(&rt, room.as_slice(), b"abcde".as_slice());
}
