//! A folder that wants one limit, and a sink that counts the pieces which come to it.

ghost use Rattle.std.specs.Prelude.{◌≡◌, ◌≤◌, ◌^◌, MatchResult};
ghost use Rattle.def_port.specs.Reads.{Reads, ReadFails};
ghost use Rattle.def_port.specs.Told.{TellsSame};
ghost use Rattle.def_port.specs.Writes.{WriteAnswers};

use ct_port::{Folder, ReadError, Sink, WriteFailed};
use std::alloc::Global;

/// What each read asks for: a file has at most so many bytes.
const LIMIT: u64 = 16_777_216;

/// A folder that answers no read with another limit than `LIMIT`: for it, memory is wanted.
#[derive(Drop)]
pub struct OneLimit<F: Folder + Drop> {
    pub inner: F,
    pub reads: u64,
}

impl<F: Folder + Drop> Folder for OneLimit<F> {
    ghost shows = { λ f. F.shows f.inner };

    fn read(&mut self, alloc: Global, name: &str, limit: u64) -> Result<Vec<u8>, ReadError> {
        if limit != LIMIT {
            return Err(ReadError::NoMemory);
        }
        self.reads = self.reads.saturating_add(1);
        self.inner.read(alloc, name, limit)
    }
}

/// A sink that counts the pieces, and those of them that are one line, and the pieces that come after one that failed.
#[derive(Drop)]
pub struct Pieces<S: Sink + Drop> {
    pub inner: S,
    pub pieces: u64,
    pub lines: u64,
    pub has_failed: bool,
    pub later: u64,
}

/// Whether a piece is one line: a line feed ends it, and there is no other.
pub fn is_line(piece: &[u8]) -> bool {
    let mut feeds = 0u64;
    for byte in piece {
        if *byte == b'\n' {
            feeds = feeds.saturating_add(1);
        }
    }
    feeds == 1 && piece.ends_with(b"\n")
}

impl<S: Sink + Drop> Sink for Pieces<S> {
    ghost shows = { λ s. S.shows s.inner };

    fn write(&mut self, piece: &[u8]) -> Result<(), WriteFailed> {
        self.pieces = self.pieces.saturating_add(1);
        if is_line(piece) {
            self.lines = self.lines.saturating_add(1);
        }
        if self.has_failed {
            self.later = self.later.saturating_add(1);
        }
        let answer = self.inner.write(piece);
        self.has_failed = self.has_failed || answer.is_err();
        answer
    }
}
