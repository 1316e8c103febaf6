//! Used chunks get another state.

ghost use Rattle.std.specs.Prelude.{ℕ, ◌≡◌, ◌+◌, ◌-◌, ◌*◌, ◌/◌, ◌%◌, ◌^◌, ◌≤◌, ◌<◌, List, [], ◌∷◌, length, cond, nat_eq};
ghost use Rattle.def_memory.specs.Granules.{granule_at};
ghost use Rattle.def_chunks.specs.Chunks.{Chunk, head_at, head_in};
ghost use Rattle.def_chunks.specs.Tiles.{chunks, Tiled, TilesSettled};
ghost use Rattle.def_chunks.specs.Changes.{replaced, in_state, painted_chunk, all_painted, KeepsRest, OnlyHeads};
ghost use Rattle.def_chunks.specs.Gaps.{ChunkStands, UsedStands};

use crate::heads::{chunk_head, write_head};
use ct_mem::Memory;
use def_chunks::Range;
use def_chunks::heads::{PAINTED, QUARANTINED};

/// The used chunk at an address, of this size and number, gets another state, which isn't free.
pub fn set_state<M: Memory>(range: &Range, mem: &mut M, at: u32, size: u32, number: u32, state: u32)
    requires tiled { Tiled range.now (M.granules mem.old) }
    requires stands { UsedStands range.now (M.granules mem.old) at size number }
    requires some { 1 ≤ state }
    requires most { state ≤ 3 }
    ensures tiled { Tiled range.now (M.granules mem.new) }
    ensures chunks { chunks range.now (M.granules mem.new)
        ≡ replaced at (in_state state) range.now.base (chunks range.now (M.granules mem.old)) }
    ensures keeps { KeepsRest range.now (chunks range.now (M.granules mem.old)) (M.granules mem.old)
        (M.granules mem.new) }
    ensures elsewhere { (k : ℕ) → (range.now.ram + 8 * k ≡ at → ⊥)
        → granule_at (M.granules mem.new) k ≡ granule_at (M.granules mem.old) k }
{
    write_head(mem, range.ram, at, size + state, number);
}

/// Paints the chunk at an address where it is quarantined; the chunk's size.
fn paint_chunk<M: Memory>(range: &Range, mem: &mut M, at: u32) -> u32
    requires tiled { Tiled range.now (M.granules mem.old) }
    requires stands { ChunkStands range.now (M.granules mem.old) at }
    ensures size { result ≡ (head_in (head_at (M.granules mem.old) range.now.ram at)).size }
    ensures tiled { Tiled range.now (M.granules mem.new) }
    ensures chunks { chunks range.now (M.granules mem.new)
        ≡ replaced at (λ c. painted_chunk c ∷ []) range.now.base
        (chunks range.now (M.granules mem.old)) }
    ensures keeps { KeepsRest range.now (chunks range.now (M.granules mem.old)) (M.granules mem.old)
        (M.granules mem.new) }
    ensures elsewhere { (k : ℕ) → (range.now.ram + 8 * k ≡ at → ⊥)
        → granule_at (M.granules mem.new) k ≡ granule_at (M.granules mem.old) k }
{
    let _size = mem.size();
    let head = chunk_head(range, mem, at);
    if head.state == QUARANTINED {
        set_state(range, mem, at, head.size, head.rest, PAINTED);
    }
    head.size
}

/// Paints every quarantined chunk. Its time grows with how many chunks there are.
pub fn paint<M: Memory>(range: &Range, mem: &mut M)
    requires settled { TilesSettled range.now (M.granules mem.old) }
    ensures settled { TilesSettled range.now (M.granules mem.new) }
    ensures chunks { chunks range.now (M.granules mem.new)
        ≡ all_painted (chunks range.now (M.granules mem.old)) }
    ensures keeps { KeepsRest range.now (chunks range.now (M.granules mem.old)) (M.granules mem.old)
        (M.granules mem.new) }
    ensures heads { OnlyHeads range.now (chunks range.now (M.granules mem.new))
        (M.granules mem.old) (M.granules mem.new) }
{
    let mut left = range.length;
    while left != 0 {
        left -= paint_chunk(range, mem, range.base + (range.length - left));
    }
}
