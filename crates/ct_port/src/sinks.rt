//! A sink in memory, which can be told to fail and has a room.

ghost use Rattle.std.specs.Prelude.{ℕ, ◌≡◌, ◌∷◌, [], ◌++◌, ◌+◌, ◌-◌, ◌^◌, min, length, take, List, MatchResult, OnOk, OnErr, if◌then◌else◌, true, false, IsTrue, IsOk, IfOk, ◌↔◌, ◌≤◌, Some, nat_le};
ghost use Rattle.std.specs.Vec.{vec_capacity};
ghost use Rattle.def_port.specs.Bytes.{AppendsPart};
ghost use Rattle.def_port.specs.Forms.{SinkRow, sink_view, sink_written, succeeds};
ghost use Rattle.def_port.specs.Writes.{WriteAnswers};

use crate::Sink;
use crate::lists::has_number;
use def_port::WriteFailed;
use def_refusals::NoMemory;
use std::alloc::Global;
use std::marker::Model;

/// Output in memory. It tells its bytes.
///
/// A write whose number, counted from 1, was given to `fail_at` appends nothing; a write past the
/// room appends what fits. Both are faults, and no other write is one.
#[derive(Drop)]
pub struct SinkMem {
    bytes: Vec<u8>,
    room: u64,
    fails: Vec<u64>,
    calls: u64,
    faults: u64,
}

impl Model for SinkMem {
    ghost use Rattle.def_port.specs.Forms.{SinkRow};

    ghost Value = { SinkRow };

    ghost view = { λ s. record {
      bytes = s.bytes.items;
      room = s.room;
      fails = s.fails.items;
      calls = s.calls;
      faults = s.faults;
    } };

    ghost use Rattle.std.specs.Prelude.{◌≤◌, length};
    ghost use Rattle.std.specs.Vec.{vec_capacity};

    ghost invariant = { λ s. (length s.bytes.items ≤ s.room) × (s.room ≤ vec_capacity s.bytes) };
}

impl SinkMem {
    /// An empty sink with this room in bytes, and with no call that fails. `NoMemory`: the room
    /// can't be had.
    pub fn new(alloc: Global, room: u64) -> Result<SinkMem, NoMemory>
        ensures { IfOk result
            (λ s. s ≡ record { bytes = []; room = room; fails = []; calls = 0; faults = 0 }) }
    {
        let bytes = Vec::with_capacity(alloc, room as usize)?;
        Ok(SinkMem {
            bytes,
            room,
            fails: Vec::new(alloc),
            calls: 0,
            faults: 0,
        })
    }

    /// What was taken so far.
    pub fn bytes(&self) -> &[u8]
        ensures { result.now ≡ self.now.bytes }
    {
        self.bytes.as_slice()
    }

    /// Makes the write with this number fail; numbers count from 1. A refusal changes nothing.
    pub fn fail_at(&mut self, _alloc: Global, call: u64) -> Result<(), NoMemory>
        ensures ok { OnOk result
            (self.new ≡ record self.old { fails = self.old.fails ++ call ∷ [] }) }
        ensures err { OnErr result (self.new ≡ self.old) }
    {
        self.fails.push(call)?;
        Ok(())
    }
}

impl Sink for SinkMem {
    ghost shows = { sink_view };

    #[tactic(auto, using(crate::proofs::Parts::part_of, crate::proofs::Parts::nothing_of))]
    fn write(&mut self, piece: &[u8]) -> Result<(), WriteFailed>
        ensures answer { WriteAnswers (sink_view self.old) (sink_view self.new) piece.now result }
        ensures state { self.new ≡ sink_written self.old piece.now }
        ensures cause { IsOk result ↔ (succeeds self.old piece.now ≡ true) }
    {
        self.calls = self.calls.saturating_add(1);
        let listed = has_number(self.fails.as_slice(), self.calls);
        if listed {
            self.faults = self.faults.saturating_add(1);
            return Err(WriteFailed);
        }
        if add_front(&mut self.bytes, self.room, piece) {
            return Ok(());
        }
        self.faults = self.faults.saturating_add(1);
        Err(WriteFailed)
    }
}

/// Adds the piece, or as much of it as the room has left; says whether it was the whole.
fn add_front(bytes: &mut Vec<u8>, room: u64, piece: &[u8]) -> bool
    requires size { length bytes.old.items ≤ room }
    requires capacity { room ≤ vec_capacity bytes.old }
    ensures whole { result ≡ nat_le (length bytes.old.items + length piece.now) room }
    ensures added { bytes.new.items ≡ bytes.old.items
        ++ take (room - length bytes.old.items) piece.now }
    ensures same { vec_capacity bytes.old ≤ vec_capacity bytes.new }
{
    let left = room - bytes.len() as u64;
    let whole = piece.len() as u64 <= left;
    let part = if whole {
        piece
    } else {
        &piece[..left as usize]
    };
    match bytes.extend_from_slice(part) {
        Ok(()) => whole,
        Err(_) => false,
    }
}
