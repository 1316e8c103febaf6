//! Chunks that leave become free, joined with the free ones that they touch.

ghost use Rattle.std.specs.Prelude.{◌≡◌, ◌+◌, ◌-◌, ◌*◌, ◌/◌, ◌%◌, ◌^◌, ◌≤◌, ◌<◌, true, false, List, length};
ghost use Rattle.def_chunks.specs.Chunks.{Chunk, head_at, head_in};
ghost use Rattle.def_chunks.specs.Tiles.{chunks, Tiled, TilesSettled};
ghost use Rattle.def_chunks.specs.Changes.{released, KeepsRest, OnlyHeads};
ghost use Rattle.ct_chunks.specs.Joins.{goes, absorbed, last_after, first_after, Absorbs, Visits};

use crate::heads::{read_head, relink, write_head};
use ct_mem::Memory;
use def_chunks::Range;
use def_chunks::heads::{FREE, NO_CHUNK, PAINTED};

/// The last free chunk so far, by its offset, with its size; `NO_CHUNK` where there is none.
#[derive(Clone, Copy, Drop)]
pub(crate) struct Last {
    pub offset: u32,
    pub size: u32,
}

/// A chunk becomes free: a part of the last free one where it touches that, else the last one itself.
fn absorb<M: Memory>(range: &mut Range, mem: &mut M, at: u32, size: u32, last: Last) -> Last
    requires { Absorbs range.old (length (M.granules mem.old)) last at size }
    ensures memory { M.granules mem.new ≡ absorbed (M.granules mem.old) range.old last at size }
    ensures last { result ≡ last_after range.old last at size }
    ensures range { range.new ≡ record range.old { first = first_after range.old last at } }
{
    if last.offset != NO_CHUNK && last.offset + last.size == at - range.base {
        write_head(
            mem,
            range.ram,
            range.base + last.offset,
            last.size + size,
            NO_CHUNK,
        );
        return Last {
            offset: last.offset,
            size: last.size + size,
        };
    }
    let old = *range;
    write_head(mem, old.ram, at, size, NO_CHUNK);
    range.first = relink(old, mem, last.offset, last.size, at - old.base);
    Last {
        offset: at - old.base,
        size,
    }
}

/// Absorbs the chunk at an address where it is free or painted; its size, and the last free chunk.
fn visit<M: Memory>(range: &mut Range, mem: &mut M, at: u32, last: Last) -> (u32, Last)
    requires { Absorbs range.old (length (M.granules mem.old)) last at
        (head_in (head_at (M.granules mem.old) range.old.ram at)).size }
    ensures size { result.0 ≡ (head_in (head_at (M.granules mem.old) range.old.ram at)).size }
    ensures visits { Visits range.old range.new (M.granules mem.old) (M.granules mem.new) last
        result.1 at (head_in (head_at (M.granules mem.old) range.old.ram at)) }
{
    let head = read_head(mem, range.ram, at);
    if head.state == FREE || head.state == PAINTED {
        let next = absorb(range, mem, at, head.size, last);
        return (head.size, next);
    }
    (head.size, last)
}

/// Lets every painted chunk go: it becomes free, and free chunks that touch become one. Its time grows with
/// how many chunks there are.
pub fn join<M: Memory>(range: &mut Range, mem: &mut M)
    requires tiled { Tiled range.old (M.granules mem.old) }
    ensures settled { TilesSettled range.new (M.granules mem.new) }
    ensures chunks { chunks range.new (M.granules mem.new)
        ≡ released (chunks range.old (M.granules mem.old)) }
    ensures keeps { KeepsRest range.old (chunks range.old (M.granules mem.old)) (M.granules mem.old)
        (M.granules mem.new) }
    ensures heads { OnlyHeads range.old (chunks range.new (M.granules mem.new))
        (M.granules mem.old) (M.granules mem.new) }
    ensures range { range.new ≡ record range.old { first = range.new.first } }
{
    let _size = mem.size();
    let mut last = Last {
        offset: NO_CHUNK,
        size: 0,
    };
    let mut left = range.length;
    range.first = NO_CHUNK;
    while left != 0 {
        let at = range.base + (range.length - left);
        let (size, next) = visit(range, mem, at, last);
        last = next;
        left -= size;
    }
}
