//! The first free chunk with room.

ghost use Rattle.std.specs.Prelude.{◌≡◌, ◌+◌, ◌-◌, ◌*◌, ◌/◌, ◌%◌, ◌^◌, ◌≤◌, ◌<◌, length, MatchOption};
ghost use Rattle.def_chunks.specs.Tiles.{Tiled};
ghost use Rattle.def_chunks.specs.Gaps.{IsGap, NoGap};
ghost use Rattle.ct_chunks.specs.Multiples.{up};

use crate::heads::read_head;
use ct_mem::Memory;
use def_chunks::heads::NO_CHUNK;
use def_chunks::{Gap, Range};
use def_profile::layout::CHUNK_HEAD;

/// The least multiple of a unit at or above a number.
fn up(value: u64, unit: u64) -> u64
    requires some { 0 < unit }
    requires small { unit ≤ 2 ^ 32 }
    requires low { value ≤ 2 ^ 33 }
    ensures { result ≡ up unit value }
{
    (value + unit - 1) / unit * unit
}

/// The least place at a multiple of a unit where an object of a length, and a head before it, lie in one
/// free chunk. `None` comes exactly where no free chunk has room. It goes along the list of free chunks,
/// so its time grows with how many of them lie before the place.
pub fn find<M: Memory>(range: &Range, mem: &M, length: u32, unit: u32) -> Option<Gap>
    requires tiled { Tiled range.now (M.granules mem.now) }
    requires unit { 0 < unit }
    requires some { 0 < length }
    ensures { MatchOption result (NoGap range.now (M.granules mem.now) unit length)
        (λ g. IsGap range.now (M.granules mem.now) unit length g) }
{
    let _size = mem.size();
    let mut before = NO_CHUNK;
    let mut before_size = 0;
    let mut link = range.first;
    while link != NO_CHUNK {
        let at = range.base + link;
        let head = read_head(mem, range.ram, at);
        let base = up(at as u64 + CHUNK_HEAD as u64, unit as u64);
        if base + length as u64 <= at as u64 + head.size as u64 {
            return Some(Gap {
                at,
                size: head.size,
                base: base as u32,
                before,
                before_size,
                next: head.rest,
            });
        }
        before = link;
        before_size = head.size;
        link = head.rest;
    }
    None
}
