//! The table of used chunks: one entry for each 16 bytes of the heap.

ghost use Rattle.std.specs.Prelude.{ℕ, ◌≡◌, ◌+◌, ◌-◌, ◌*◌, ◌/◌, ◌%◌, ◌^◌, ◌≤◌, ◌<◌, length, slice_set, cond, Option, Some, None};
ghost use Rattle.def_chunks.specs.Chunks.{head_at, head_in};
ghost use Rattle.def_chunks.specs.Tiles.{chunks, Tiled, TilesSettled};
ghost use Rattle.def_chunks.specs.Gaps.{ChunkStands};
ghost use Rattle.def_chunks.specs.Heaps.{chunk_name, begins_used_chunk, quota_named, is_used_at};
ghost use Rattle.ct_heap.specs.Table.{owner_at};
ghost use Rattle.ct_heap.specs.Steps.{waiting_chunks, Unnames, UnnamesChunk};

use ct_chunks::chunk_head;
use ct_mem::Memory;
use def_chunks::Range;
use def_chunks::heads::{PAINTED, SLOT};

/// The entry of a used chunk of a quota that begins at an offset: never zero, and it tells which of the two
/// granules the chunk begins at.
fn name_of(quota: u32, offset: u32) -> u16
    requires { quota < 32767 }
    ensures { result ≡ chunk_name quota offset }
{
    (1 + 2 * quota + offset / 8 % 2) as u16
}

/// The used chunk that begins at an offset gets its entry.
pub(crate) fn name_chunk(names: &mut Vec<u16>, quota: u32, offset: u32)
    requires quota { quota < 32767 }
    requires inside { offset / 16 < length names.old.items }
    ensures { names.new.items ≡ slice_set names.old.items (offset / 16) (chunk_name quota offset) }
{
    names[(offset / SLOT) as usize] = name_of(quota, offset);
}

/// The entry of these 16 bytes names no chunk.
fn clear_name(names: &mut Vec<u16>, offset: u32)
    requires inside { offset / 16 < length names.old.items }
    ensures { names.new.items ≡ slice_set names.old.items (offset / 16) 0 }
{
    names[(offset / SLOT) as usize] = 0;
}

/// The quota of the used chunk that begins at an offset, `None` exactly where none begins there.
pub(crate) fn owner(names: &[u16], offset: u32) -> Option<u32>
    requires { offset / 16 < length names.now }
    ensures { result ≡ owner_at names.now offset }
{
    let name = names[(offset / SLOT) as usize] as u32;
    if name == 0 || (name - 1) % 2 != offset / 8 % 2 {
        return None;
    }
    Some((name - 1) / 2)
}

/// Takes every painted chunk out of the table and clears the marks of its granules; how many of so many
/// quarantined objects are left.
pub(crate) fn unname<M: Memory>(
    range: &Range,
    mem: &mut M,
    names: &mut Vec<u16>,
    waiting: u32,
) -> u32
    requires settled { TilesSettled range.now (M.granules mem.old) }
    requires slots { length names.old.items ≡ range.now.length / 16 }
    requires named { (o : ℕ) → o % 8 ≡ 0
        → begins_used_chunk names.old.items o
        ≡ is_used_at (range.now.base + o) range.now.base (chunks range.now (M.granules mem.old)) }
    requires waiting { waiting ≡ waiting_chunks (chunks range.now (M.granules mem.old)) }
    ensures { Unnames range.now (M.granules mem.old) (M.granules mem.new) names.old.items
        names.new.items result }
{
    let _size = mem.size();
    let mut left = range.length;
    let mut waiting = waiting;
    while left != 0 {
        let at = range.base + (range.length - left);
        let (size, one) = unname_chunk(range, mem, names, at);
        waiting -= one;
        left -= size;
    }
    waiting
}

/// The same of the chunk at an address: its size, and 1 where it was painted.
fn unname_chunk<M: Memory>(range: &Range, mem: &mut M, names: &mut Vec<u16>, at: u32) -> (u32, u32)
    requires tiled { Tiled range.now (M.granules mem.old) }
    requires slots { length names.old.items ≡ range.now.length / 16 }
    requires stands { ChunkStands range.now (M.granules mem.old) at }
    ensures size { result.0 ≡ (head_in (head_at (M.granules mem.old) range.now.ram at)).size }
    ensures unnames { UnnamesChunk range.now (M.granules mem.old) (M.granules mem.new)
        names.old.items names.new.items at result.1
        (head_in (head_at (M.granules mem.old) range.now.ram at)) }
{
    let _size = mem.size();
    let head = chunk_head(range, mem, at);
    if head.state != PAINTED {
        return (head.size, 0);
    }
    mem.mark(at - range.ram, at - range.ram + head.size, false);
    clear_name(names, at - range.base);
    (head.size, 1)
}
