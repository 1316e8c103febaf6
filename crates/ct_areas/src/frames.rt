//! A frame more, and a frame less.

ghost use Rattle.std.specs.Prelude.{◌≡◌, ◌+◌, ◌-◌, ◌*◌, ◌/◌, ◌%◌, ◌^◌, ◌≤◌, ◌<◌, ℕ, Bool, true, length, drop, slice_index_or};
ghost use Rattle.def_words.specs.Seals.{cap_seal};
ghost use Rattle.def_profile.specs.declared.layout.TheConstants.{FRAME_SIZE};
ghost use Rattle.def_memory.specs.Granules.{plain, holding_all};
ghost use Rattle.def_areas.specs.Areas.{frame_at, frame_place, frame_words, low_half, high_half, caller_actor, caller_top, caller_handling, mark_word};
ghost use Rattle.def_areas.specs.Touches.{Touches};
ghost use Rattle.ct_areas.specs.Threads.{HasArea, area_begin, area_end, frames_most, thread_of};
ghost use Rattle.ct_areas.specs.Parts.{saved_of, with_frame, deeper, pushed, inner_frame, inner_place, outer_frames, filtered_frame, caller_registers, caller_row, without_frame, frame_cleared, shallower};

use crate::areas::{frame_offset, plain, put};
use crate::filtering::{take, take_link};
use crate::thread::{Area, Thread};
use ct_cap::{Live, shrink};
use ct_mem::Memory;
use def_profile::layout::FRAME_SIZE;

/// A number fits its type.
pub(crate) fn word(value: u32) -> u32
    ensures is { result ≡ value }
    ensures small { value < 2 ^ 32 }
{
    value
}

/// The word of a mark.
fn mark_of(handling: bool) -> u64
    ensures is { result ≡ mark_word handling }
{
    if handling { 1 } else { 0 }
}

/// Writes the frame at an offset.
fn write_frame<M: Memory>(t: &Thread, mem: &mut M, at: u32, export: u32)
    requires even { at % 8 ≡ 0 }
    requires inside { at + FRAME_SIZE ≤ 8 * length (M.granules mem.old) }
    ensures is { M.granules mem.new ≡ holding_all (M.granules mem.old) (at / 8)
        (frame_words (saved_of t.now) export t.now.actor t.now.top t.now.handling) }
{
    let _size = mem.size();
    put(mem, at, shrink(t.regs[1]));
    put(mem, at + 8, shrink(t.regs[2]));
    put(mem, at + 16, shrink(t.regs[3]));
    put(mem, at + 24, shrink(t.regs[8]));
    put(mem, at + 32, shrink(t.regs[9]));
    put(
        mem,
        at + 40,
        plain(export as u64 + ((t.actor as u64) << 32)),
    );
    put(mem, at + 48, plain(t.top as u64));
    put(mem, at + 56, plain(mark_of(t.handling)));
}

/// A thread gets one frame more, of this compartment, export and top, which keeps its registers c1, c2, c3, c8 and c9.
pub fn push<M: Memory>(t: &mut Thread, mem: &mut M, actor: u32, export: u32, top: u32)
    requires area { HasArea (8 * length (M.granules mem.old)) t.old.area }
    requires alive { 0 < t.old.depth }
    requires room { t.old.depth < frames_most t.old.area }
    ensures thread { thread_of (M.granules mem.new) true t.new
        ≡ pushed (thread_of (M.granules mem.old) true t.old) actor export top }
    ensures memory { M.granules mem.new ≡ with_frame (M.granules mem.old) t.old export }
    ensures touches { Touches (area_begin t.old.area) (area_end t.old.area) (M.granules mem.old)
        (M.granules mem.new) }
    ensures row { t.new ≡ deeper t.old actor top }
{
    let at = frame_offset(&t.area, t.depth, mem);
    let _export = word(export);
    let _top = word(t.top);
    write_frame(t, mem, at, export);
    t.depth += 1;
    t.top = top;
    t.actor = actor;
    t.handling = false;
}

/// The low and the high word of a granule.
fn words(word: u64) -> (u32, u32)
    ensures { result ≡ (word % 2 ^ 32, word / 2 ^ 32) }
{
    ((word % (1 << 32)) as u32, (word >> 32) as u32)
}

/// The number of the innermost frame's export.
pub fn innermost_export<M: Memory>(t: &Thread, mem: &M) -> u32
    requires area { HasArea (8 * length (M.granules mem.now)) t.now.area }
    requires some { 0 < t.now.depth }
    requires room { t.now.depth ≤ frames_most t.now.area }
    ensures { result ≡ (inner_frame (M.granules mem.now) t.now).export }
{
    let at = frame_offset(&t.area, t.depth - 1, mem);
    words(mem.load_cap(at + 40).word).0
}

/// c2, c3, c8 and c9 are taken from the frame at an offset, each through the load filter. c10 and c11 stay, and the
/// other registers become 0.
fn take_kept<M: Memory>(regs: &mut [Live; 16], mem: &M, ram: u32, at: u32)
    requires even { at % 8 ≡ 0 }
    requires inside { at + FRAME_SIZE ≤ 8 * length (M.granules mem.now) }
    ensures { (actor top : ℕ) (handling : Bool)
        → regs.new
        ≡ caller_registers (filtered_frame (M.granules mem.now) ram
        (frame_at (M.granules mem.now) (at / 8) actor top handling))
        (slice_index_or regs.old 10 (plain 0)) (slice_index_or regs.old 11 (plain 0)) }
{
    let _size = mem.size();
    let none = Live::integer(0);
    regs[0] = none;
    regs[1] = none;
    take(&mut regs[2], mem, ram, at + 8);
    take(&mut regs[3], mem, ram, at + 16);
    regs[4] = none;
    regs[5] = none;
    regs[6] = none;
    regs[7] = none;
    take(&mut regs[8], mem, ram, at + 24);
    take(&mut regs[9], mem, ram, at + 32);
    regs[12] = none;
    regs[13] = none;
    regs[14] = none;
    regs[15] = none;
}

/// The program counter capability is taken from the innermost frame's saved c1, and c2, c3, c8 and c9 from those that
/// it keeps, each through the load filter. c10 and c11 stay, the other registers become 0, and the frame stays where it
/// is. The answer is the type and the source of the saved c1, as they were saved.
pub fn take_back<M: Memory>(t: &mut Thread, mem: &M) -> (u32, u32)
    requires area { HasArea (8 * length (M.granules mem.now)) t.old.area }
    requires some { 0 < t.old.depth }
    requires room { t.old.depth ≤ frames_most t.old.area }
    ensures link { result
        ≡ (
          cap_seal (inner_frame (M.granules mem.now) t.old).c1,
          (inner_frame (M.granules mem.now) t.old).c1.shadow.source,
        ) }
    ensures row { t.new ≡ caller_row (M.granules mem.now) t.old }
{
    let at = frame_offset(&t.area, t.depth - 1, mem);
    let link = take_link(&mut t.pcc, mem, t.area.ram, at);
    take_kept(&mut t.regs, mem, t.area.ram, at);
    link
}

/// The granules of a frame of an area are zeroed.
fn clear_frame<M: Memory>(area: &Area, number: u32, mem: &mut M)
    requires area { HasArea (8 * length (M.granules mem.old)) area.now }
    requires room { number < frames_most area.now }
    ensures { M.granules mem.new ≡ frame_cleared (M.granules mem.old) area.now number }
{
    let at = frame_offset(area, number, mem);
    mem.zero(at, at + FRAME_SIZE);
}

/// A thread loses its innermost frame, whose granules are zeroed.
pub fn pop<M: Memory>(t: &mut Thread, mem: &mut M)
    requires area { HasArea (8 * length (M.granules mem.old)) t.old.area }
    requires some { 0 < t.old.depth }
    requires room { t.old.depth ≤ frames_most t.old.area }
    ensures frames { (thread_of (M.granules mem.new) true t.new).frames
        ≡ outer_frames (M.granules mem.old) t.old }
    ensures memory { M.granules mem.new ≡ without_frame (M.granules mem.old) t.old }
    ensures touches { Touches (area_begin t.old.area) (area_end t.old.area) (M.granules mem.old)
        (M.granules mem.new) }
    ensures row { t.new ≡ shallower (M.granules mem.old) t.old }
{
    let at = frame_offset(&t.area, t.depth - 1, mem);
    let whose = words(mem.load_cap(at + 40).word);
    let top = words(mem.load_cap(at + 48).word);
    let mark = words(mem.load_cap(at + 56).word);
    clear_frame(&t.area, t.depth - 1, mem);
    t.depth -= 1;
    t.top = top.0;
    t.actor = whose.1;
    t.handling = mark.0 == 1;
}
