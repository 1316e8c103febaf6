//! One call of the program over these files, and what came of it.

use crate::outside::{OneLimit, Pieces};
use crate::{events, samples};
use ct_port::{FolderMem, NoMemory, SinkMem};
use ct_top::{Status, capfw};
use std::alloc::{AllocError, Global};
use std::process::Abort;

/// More bytes than any call here writes.
pub const AMPLE: u64 = 8192;

/// What fails of a call: the read or the write with this number, counted from 1, or all that is written past so many
/// bytes.
#[derive(Clone, Copy)]
pub enum Fault {
    Nothing,
    Read(u64),
    Write(u64),
    Room(u64),
}

/// The folder and the sink of the tests.
pub type Folder = OneLimit<FolderMem>;

pub type Sink = Pieces<SinkMem>;

/// The samples, and texts that break a rule.
const FILES: [(&str, &str); 18] = [
    ("tiny.json", samples::TINY),
    ("board.json", samples::BOARD),
    ("app.s", samples::APP),
    ("driver.s", samples::DRIVER),
    ("hex.s", samples::HEX),
    ("reads.json", samples::READS),
    ("reads.s", samples::READS_SOURCE),
    ("twice.json", samples::TWICE),
    ("off.json", events::OFF),
    ("off.s", events::OFF_SOURCE),
    ("frob.s", "main:\nfrob a0\n"),
    ("frob.json", samples::FROB),
    ("small.json", samples::SMALL),
    ("brace", "{"),
    ("one.script", "2 uart0 65\n"),
    ("back.script", "5 uart0 1\n4 uart0 1\n"),
    ("board.policy", samples::POLICY),
    ("frob.policy", "frob\n"),
];

/// Policies that the board breaks.
const BROKEN: [(&str, &str); 4] = [
    ("device.policy", "device uart0 only app\n"),
    ("total.policy", "quota total 63\n"),
    ("apart.policy", "apart hex app\n"),
    ("two.policy", "device uart0 only app\nquota total 63\n"),
];

fn add_texts(
    folder: &mut FolderMem,
    alloc: Global,
    files: &[(&str, &str)],
) -> Result<(), NoMemory> {
    for (name, text) in files {
        folder.add(alloc, name, text.as_bytes())?;
    }
    Ok(())
}

/// All files, of which one read may fail.
pub fn folder(alloc: Global, fault: Fault) -> Result<Folder, NoMemory> {
    let mut inner = FolderMem::new(alloc);
    add_texts(&mut inner, alloc, FILES.as_slice())?;
    add_texts(&mut inner, alloc, BROKEN.as_slice())?;
    inner.add(alloc, "tiny.image", samples::TINY_IMAGE.as_slice())?;
    inner.add(alloc, "cut.image", &samples::TINY_IMAGE[..411])?;
    if let Fault::Read(number) = fault {
        inner.fail_at(alloc, number)?;
    }
    Ok(OneLimit { inner, reads: 0 })
}

/// An empty output, of which one write may fail, or whose room may end.
pub fn sink(alloc: Global, fault: Fault) -> Result<Sink, NoMemory> {
    let room = match fault {
        Fault::Room(bytes) => bytes,
        _ => AMPLE,
    };
    let mut inner = SinkMem::new(alloc, room)?;
    if let Fault::Write(number) = fault {
        inner.fail_at(alloc, number)?;
    }
    Ok(Pieces {
        inner,
        pieces: 0,
        lines: 0,
        has_failed: false,
        later: 0,
    })
}

/// The words that stand in a text with blanks between them.
pub fn words_of(alloc: Global, text: &str) -> Result<Vec<String>, AllocError> {
    let mut words = Vec::new(alloc);
    for word in text.split_whitespace() {
        words.push(String::from_str(alloc, word)?)?;
    }
    Ok(words)
}

/// What came of a call: its status, the output, and how many files were read.
#[derive(Drop)]
pub struct Came {
    pub status: Status,
    pub sink: Sink,
    pub reads: u64,
}

/// The program with these words, of which this fails.
pub fn call(alloc: Global, words: &str, fault: Fault) -> Result<Came, NoMemory> {
    let words = words_of(alloc, words)?;
    let mut folder = folder(alloc, fault)?;
    let mut sink = sink(alloc, fault)?;
    let status = capfw(alloc, words.as_slice(), &mut folder, &mut sink);
    let reads = folder.reads;
    Ok(Came {
        status,
        sink,
        reads,
    })
}

/// What a call wrote, with nothing after a write that failed, and its status.
pub fn wrote(rt: &impl Abort, came: &Came, code: u8, text: &str, number: u64) {
    let status = came.status.code();
    assert!(rt; status == code, "{number}: status {status}");
    let same = came.sink.inner.bytes() == text.as_bytes();
    assert!(rt; same, "{number}: output");
    assert!(rt; came.sink.later == 0, "{number}: later writes");
}

/// A call that ends with this number and this output.
pub fn answers(rt: &(impl Abort + AllocGlobal), words: &str, code: u8, output: &[u8]) {
    let came = call(rt.alloc(), words, Fault::Nothing).expect(rt, "memory");
    let status = came.status.code();
    assert!(rt; status == code, "{words}: status {status}");
    let same = came.sink.inner.bytes() == output;
    assert!(rt; same, "{words}: output");
}

/// A text of two parts.
pub fn both(alloc: Global, first: &str, second: &str) -> Result<String, AllocError> {
    let mut text = String::from_str(alloc, first)?;
    text.push_str(second)?;
    Ok(text)
}
