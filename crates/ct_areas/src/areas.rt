//! Places in an area, and what of memory leaves an area as it is.

ghost use Rattle.std.specs.Prelude.{◌≡◌, ◌+◌, ◌-◌, ◌*◌, ◌/◌, ◌%◌, ◌^◌, ◌≤◌, ◌<◌, ℕ, Bool, List, length};
ghost use Rattle.def_profile.specs.Areas.{frame_after};
ghost use Rattle.def_profile.specs.declared.layout.TheConstants as layout;
ghost use Rattle.def_words.specs.declared.Cap.{Cap};
ghost use Rattle.def_memory.specs.declared.Granule.{Granule};
ghost use Rattle.def_memory.specs.Accesses.{stored, stored_cap};
ghost use Rattle.def_memory.specs.Granules.{plain, holding};
ghost use Rattle.def_memory.specs.Ranges.{zeroed_from};
ghost use Rattle.def_areas.specs.Areas.{frame_place};
ghost use Rattle.def_areas.specs.Touches.{Touches};
ghost use Rattle.ct_areas.specs.declared.thread.Thread as row;
ghost use Rattle.ct_areas.specs.Threads.{HasArea, IsApart, area_begin, frames_most, thread_of};
ghost use Rattle.ct_areas.specs.Parts.{IsSpan};

use crate::thread::Area;
use ct_mem::Memory;
use def_profile::layout::{AREA_HEAD, FRAME_SIZE};
use def_words::{Cap, Shadow};

/// A plain word.
pub(crate) fn plain(word: u64) -> Cap
    ensures { result ≡ plain word }
{
    Cap {
        tag: false,
        word,
        shadow: Shadow { root: 0, source: 0 },
    }
}

/// The offset of an area from RAM's begin.
pub(crate) fn area_offset<M: Memory>(area: &Area, mem: &M) -> u32
    requires { HasArea (8 * length (M.granules mem.now)) area.now }
    ensures is { result ≡ 8 * area_begin area.now }
    ensures inside { frame_after result (frames_most area.now) ≤ 8 * length (M.granules mem.now) }
    ensures small { frame_after result (frames_most area.now) < 2 ^ 32 }
{
    let _size = mem.size();
    area.trusted - area.ram
}

/// The offset of a frame of an area from RAM's begin.
pub(crate) fn frame_offset<M: Memory>(area: &Area, number: u32, mem: &M) -> u32
    requires area { HasArea (8 * length (M.granules mem.now)) area.now }
    requires room { number < frames_most area.now }
    ensures is { result ≡ 8 * frame_place (area_begin area.now) number }
    ensures inside { result + layout.FRAME_SIZE ≤ 8 * length (M.granules mem.now) }
    ensures small { result + layout.FRAME_SIZE < 2 ^ 32 }
{
    area_offset(area, mem) + AREA_HEAD + FRAME_SIZE * number
}

/// One granule gets a capability or a word.
pub(crate) fn put<M: Memory>(mem: &mut M, at: u32, cap: Cap)
    requires even { at % 8 ≡ 0 }
    requires inside { at + 8 ≤ 8 * length (M.granules mem.old) }
    ensures is { M.granules mem.new ≡ holding (M.granules mem.old) (at / 8) cap }
    ensures size { length (M.granules mem.new) ≡ length (M.granules mem.old) }
{
    mem.store_cap(at, cap);
}

/// So many bytes from an address on are zeroed; RAM begins at `ram`.
#[tactic(auto, using(law_areas::proofs::Changes::cleared_is))]
pub fn clear<M: Memory>(mem: &mut M, ram: u32, from: u32, bytes: u32)
    requires { IsSpan ram (8 * length (M.granules mem.old)) from (from + bytes) }
    ensures { M.granules mem.new ≡ zeroed_from from (from + bytes) ram (M.granules mem.old) }
{
    let _size = mem.size();
    let at = from - ram;
    mem.zero(at, at + bytes);
}

/// A thread is what it was after any change that meets no granule of its area: after what touches other granules
/// alone, and so after a store, a capability store and a clearing elsewhere.
pub fn areas_apart()
    ensures touches { (gs hs : List Granule) (lo hi : ℕ) (runs : Bool) (t : row.Thread) (size : ℕ)
        → HasArea size t.area
        → t.depth ≤ frames_most t.area → IsApart lo hi t.area → Touches lo hi gs hs
        → thread_of hs runs t ≡ thread_of gs runs t }
    ensures stored { (gs : List Granule) (at width value : ℕ) (runs : Bool) (t : row.Thread)
        (size : ℕ)
        → HasArea size t.area → t.depth ≤ frames_most t.area → IsApart (at / 8) (at / 8 + 1) t.area
        → thread_of (stored gs at width value) runs t ≡ thread_of gs runs t }
    ensures capability { (gs : List Granule) (at : ℕ) (c : Cap) (runs : Bool) (t : row.Thread)
        (size : ℕ)
        → HasArea size t.area → t.depth ≤ frames_most t.area → IsApart (at / 8) (at / 8 + 1) t.area
        → thread_of (stored_cap gs at c) runs t ≡ thread_of gs runs t }
    ensures cleared { (gs : List Granule) (ram from to : ℕ) (runs : Bool) (t : row.Thread)
        (size : ℕ)
        → HasArea size t.area → t.depth ≤ frames_most t.area → IsSpan ram size from to
        → IsApart ((from - ram) / 8) ((to - ram) / 8) t.area
        → thread_of (zeroed_from from to ram gs) runs t ≡ thread_of gs runs t }
{}
