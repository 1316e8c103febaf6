//! The two traits that everything above reads and writes through.

ghost use Rattle.std.specs.Prelude.{◌≤◌, ◌^◌, MatchResult};
ghost use Rattle.def_port.specs.Bytes.{SinkView};
ghost use Rattle.def_port.specs.Told.{FolderView, TellsSame};
ghost use Rattle.def_port.specs.Reads.{Reads, ReadFails};
ghost use Rattle.def_port.specs.Writes.{WriteAnswers};

use def_port::{ReadError, WriteFailed};
use std::alloc::Global;

/// Files that are read by name.
///
/// `shows` is what is seen of it. `file` is what it tells of a name: nothing, that there is no such
/// file, or the file's bytes. `calls` lists the reads so far, each with its name, its limit and
/// whether it failed. `faults` is a count that a failing read raises and no other answer changes; it
/// never falls, and stands still at 2^64 - 1.
pub trait Folder {
    ghost shows: { Self → FolderView };

    /// Gives the whole file where it has at most `limit` bytes, else its first `limit + 1` bytes.
    ///
    /// `Failed` comes only where the count of faults rose. `NoMemory` is want of memory; then the
    /// call isn't recorded and nothing changed. What is told of files never changes by a read.
    fn read(&mut self, alloc: Global, name: &str, limit: u64) -> Result<Vec<u8>, ReadError>
        requires { limit ≤ 2 ^ 32 }
        ensures answer { MatchResult result
            (λ v. Reads name.now limit (shows self.old) (shows self.new) v.items)
            (λ e. ReadFails name.now limit (shows self.old) (shows self.new) e) }
        ensures same { TellsSame (shows self.old) (shows self.new) };
}

/// Output that is written in pieces.
///
/// `shows` is what is seen of it: `bytes` is all that was taken so far, where the sink tells it, and
/// `faults` is as a folder's.
pub trait Sink {
    ghost shows: { Self → SinkView };

    /// Takes the whole piece, or fails with a prefix of it taken; it fails only where the count of
    /// faults rose.
    fn write(&mut self, piece: &[u8]) -> Result<(), WriteFailed>
        ensures { WriteAnswers (shows self.old) (shows self.new) piece.now result };
}
