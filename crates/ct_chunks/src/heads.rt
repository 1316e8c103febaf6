//! Heads of chunks, as words of memory.

ghost use Rattle.std.specs.Prelude.{◌≡◌, ◌+◌, ◌-◌, ◌*◌, ◌/◌, ◌%◌, ◌^◌, ◌≤◌, ◌<◌, cond, nat_eq, length};
ghost use Rattle.def_memory.specs.Granules.{plain};
ghost use Rattle.def_memory.specs.Accesses.{stored_cap};
ghost use Rattle.def_chunks.specs.declared.heads.TheConstants.{NO_CHUNK};
ghost use Rattle.def_chunks.specs.Chunks.{head_at, head_in};
ghost use Rattle.def_chunks.specs.Tiles.{Tiled};
ghost use Rattle.def_chunks.specs.Gaps.{ChunkStands};
ghost use Rattle.def_chunks.specs.Changes.{with_link};
ghost use Rattle.ct_chunks.specs.Writes.{Linkable};

use ct_mem::Memory;
use def_chunks::heads::NO_CHUNK;
use def_chunks::{Head, Range};
use def_words::{Cap, Shadow};

/// What the head at an address says. Addresses are of RAM from `ram` on.
pub fn read_head<M: Memory>(mem: &M, ram: u32, at: u32) -> Head
    requires above { ram ≤ at }
    requires even { (at - ram) % 8 ≡ 0 }
    requires inside { at - ram + 8 ≤ 8 * length (M.granules mem.now) }
    ensures { result ≡ head_in (head_at (M.granules mem.now) ram at) }
{
    let word = mem.load_cap(at - ram).word;
    let low = (word % (1 << 32)) as u32;
    Head {
        size: low / 8 * 8,
        state: low % 8,
        rest: (word >> 32) as u32,
    }
}

/// What the head of the chunk at an address says.
pub fn chunk_head<M: Memory>(range: &Range, mem: &M, at: u32) -> Head
    requires tiled { Tiled range.now (M.granules mem.now) }
    requires stands { ChunkStands range.now (M.granules mem.now) at }
    ensures { result ≡ head_in (head_at (M.granules mem.now) range.now.ram at) }
{
    read_head(mem, range.ram, at)
}

/// Writes the two words of a head.
pub fn write_head<M: Memory>(mem: &mut M, ram: u32, at: u32, low: u32, high: u32)
    requires above { ram ≤ at }
    requires even { (at - ram) % 8 ≡ 0 }
    requires inside { at - ram + 8 ≤ 8 * length (M.granules mem.old) }
    ensures is { M.granules mem.new
        ≡ stored_cap (M.granules mem.old) (at - ram) (plain (low + high * 2 ^ 32)) }
    ensures size { length (M.granules mem.new) ≡ length (M.granules mem.old) }
{
    mem.store_cap(
        at - ram,
        Cap {
            tag: false,
            word: low as u64 + high as u64 * (1 << 32),
            shadow: Shadow { root: 0, source: 0 },
        },
    );
}

/// The free chunk at an offset gets another link, or, where there is none, the list another first one,
/// which is the answer.
pub(crate) fn relink<M: Memory>(
    range: Range,
    mem: &mut M,
    before: u32,
    before_size: u32,
    next: u32,
) -> u32
    requires place { Linkable range (length (M.granules mem.old)) before }
    ensures is { M.granules mem.new
        ≡ with_link (M.granules mem.old) range.ram range.base before before_size next }
    ensures size { length (M.granules mem.new) ≡ length (M.granules mem.old) }
    ensures first { result ≡ cond (nat_eq before NO_CHUNK) next range.first }
{
    if before == NO_CHUNK {
        return next;
    }
    write_head(mem, range.ram, range.base + before, before_size, next);
    range.first
}
