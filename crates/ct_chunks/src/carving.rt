//! A free chunk is carved: what lies behind the object and before it stays free.

ghost use Rattle.std.specs.Prelude.{◌≡◌, ◌+◌, ◌-◌, ◌*◌, ◌/◌, ◌%◌, ◌^◌, ◌≤◌, ◌<◌, List, [], ◌∷◌, length, cond, nat_eq};
ghost use Rattle.def_chunks.specs.declared.heads.TheConstants.{NO_CHUNK};
ghost use Rattle.def_chunks.specs.Chunks.{Chunk};
ghost use Rattle.def_chunks.specs.Tiles.{chunks, Tiled, TilesSettled};
ghost use Rattle.def_chunks.specs.Changes.{replaced, parts, taken, KeepsRest, OnlyHeads};
ghost use Rattle.def_chunks.specs.Gaps.{FreeStands, FreeLinked, carved};
ghost use Rattle.ct_chunks.specs.Cuts.{CutBack, CutFront, Fitting};

use crate::heads::{relink, write_head};
use ct_mem::Memory;
use def_chunks::heads::LIVE;
use def_chunks::{Gap, Range};
use def_profile::layout::CHUNK_HEAD;

/// A free chunk becomes two, the first of this size.
fn split<M: Memory>(range: &Range, mem: &mut M, at: u32, size: u32, first: u32, next: u32)
    requires tiled { Tiled range.now (M.granules mem.old) }
    requires stands { FreeStands range.now (M.granules mem.old) at size next }
    requires whole { first % 8 ≡ 0 }
    requires some { 8 ≤ first }
    requires fits { first + 8 ≤ size }
    ensures tiled { Tiled range.now (M.granules mem.new) }
    ensures chunks { chunks range.now (M.granules mem.new)
        ≡ replaced at (parts first) range.now.base (chunks range.now (M.granules mem.old)) }
    ensures keeps { KeepsRest range.now (chunks range.now (M.granules mem.old)) (M.granules mem.old)
        (M.granules mem.new) }
    ensures heads { OnlyHeads range.now (chunks range.now (M.granules mem.new))
        (M.granules mem.old) (M.granules mem.new) }
{
    let _size = mem.size();
    write_head(mem, range.ram, at + first, size - first, next);
    write_head(mem, range.ram, at, first, at + first - range.base);
}

/// A free chunk becomes that of a live object.
fn take<M: Memory>(
    range: &mut Range,
    mem: &mut M,
    at: u32,
    size: u32,
    number: u32,
    before: u32,
    before_size: u32,
    next: u32,
)
    requires tiled { Tiled range.old (M.granules mem.old) }
    requires stands { FreeLinked range.old (M.granules mem.old) at size next before before_size }
    requires wide { 16 ≤ size }
    ensures tiled { Tiled range.new (M.granules mem.new) }
    ensures chunks { chunks range.new (M.granules mem.new)
        ≡ replaced at (taken number) range.old.base (chunks range.old (M.granules mem.old)) }
    ensures keeps { KeepsRest range.old (chunks range.old (M.granules mem.old)) (M.granules mem.old)
        (M.granules mem.new) }
    ensures heads { OnlyHeads range.old (chunks range.new (M.granules mem.new))
        (M.granules mem.old) (M.granules mem.new) }
    ensures range { range.new ≡ record range.old { first = range.new.first } }
{
    let _size = mem.size();
    let old = *range;
    let first = relink(old, mem, before, before_size, next);
    write_head(mem, old.ram, at, size + LIVE, number);
    range.first = first;
}

/// So many bytes at the end of a free chunk become a free chunk of their own; what the one before them
/// links to from then on.
fn cut_back<M: Memory>(range: &Range, mem: &mut M, gap: &Gap, back: u32) -> u32
    requires tiled { Tiled range.now (M.granules mem.old) }
    requires stands { FreeLinked range.now (M.granules mem.old) gap.now.at gap.now.size
        gap.now.next gap.now.before gap.now.before_size }
    requires whole { back % 8 ≡ 0 }
    requires fits { back + 8 ≤ gap.now.size }
    ensures { CutBack range.now (M.granules mem.old) (M.granules mem.new) gap.now back result }
{
    if back == 0 {
        return gap.next;
    }
    let rest = gap.size - back;
    split(range, mem, gap.at, gap.size, rest, gap.next);
    gap.at + rest - range.base
}

/// So many bytes at the begin of a free chunk become a free chunk of their own; the last free chunk before
/// the rest, as an offset, and its size.
fn cut_front<M: Memory>(
    range: &Range,
    mem: &mut M,
    gap: &Gap,
    size: u32,
    next: u32,
    front: u32,
) -> (u32, u32)
    requires tiled { Tiled range.now (M.granules mem.old) }
    requires stands { FreeLinked range.now (M.granules mem.old) gap.now.at size next
        gap.now.before gap.now.before_size }
    requires whole { front % 8 ≡ 0 }
    requires fits { front + 8 ≤ size }
    ensures { CutFront range.now (M.granules mem.old) (M.granules mem.new) gap.now size next front
        result.0 result.1 }
{
    if front == 0 {
        return (gap.before, gap.before_size);
    }
    split(range, mem, gap.at, size, front, next);
    (gap.at - range.base, front)
}

/// A live object of this length and number is put where a gap says; what is left of the gap's chunk
/// before it and behind it stays free.
pub fn carve<M: Memory>(range: &mut Range, mem: &mut M, gap: &Gap, length: u32, number: u32)
    requires settled { TilesSettled range.old (M.granules mem.old) }
    requires stands { FreeLinked range.old (M.granules mem.old) gap.now.at gap.now.size
        gap.now.next gap.now.before gap.now.before_size }
    requires fitting { Fitting gap.now length }
    ensures settled { TilesSettled range.new (M.granules mem.new) }
    ensures chunks { chunks range.new (M.granules mem.new)
        ≡ replaced gap.now.at (carved (gap.now.base - 8 - gap.now.at) length number)
        range.old.base (chunks range.old (M.granules mem.old)) }
    ensures keeps { KeepsRest range.old (chunks range.old (M.granules mem.old)) (M.granules mem.old)
        (M.granules mem.new) }
    ensures heads { OnlyHeads range.old (chunks range.new (M.granules mem.new))
        (M.granules mem.old) (M.granules mem.new) }
    ensures range { range.new ≡ record range.old { first = range.new.first } }
{
    let front = gap.base - CHUNK_HEAD - gap.at;
    let used = length + CHUNK_HEAD;
    let back = gap.size - front - used;
    let next = cut_back(range, mem, gap, back);
    let (before, before_size) = cut_front(range, mem, gap, gap.size - back, next, front);
    take(
        range,
        mem,
        gap.at + front,
        used,
        number,
        before,
        before_size,
        next,
    );
}
