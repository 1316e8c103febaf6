//! A frame's end: the return, and the end with a value, by which a frame is unwound and an error handler ends.

ghost use Rattle.std.specs.Prelude.{◌≡◌, ◌*◌, ◌<◌, Bool, true, nat_lt, length, slice_index_or, slice_set};
ghost use Rattle.def_memory.specs.Granules.{plain};
ghost use Rattle.ct_areas.specs.declared.thread.Thread as row;
ghost use Rattle.ct_areas.specs.Threads.{thread_of};
ghost use Rattle.ct_areas.specs.Parts.{filtered_frame, inner_frame, register_in};
ghost use Rattle.ct_switch.specs.Exports.{AreSorted};
ghost use Rattle.ct_switch.specs.Ready.{IsReady, IsOther};
ghost use Rattle.ct_switch.specs.Calls.{handed, returned_by, thread_left, memory_left, row_left, no_registers, ended_row, restored_row};

use crate::export_of;
use crate::given::pass;
use ct_areas::{Thread, clear, innermost_export, pop, take_back};
use ct_cap::{Live, Posture, open_in_place};
use ct_entry::Entries;
use ct_flow::posture_through;
use ct_mem::Memory;

/// A caller goes on with the results that stand in c10 and c11: its program counter and its other registers are those
/// that its frame kept, filtered, and its posture is by the saved c1.
fn restore<M: Memory>(t: &mut Thread, mem: &M)
    requires { IsReady (M.granules mem.now) t.old }
    ensures { t.new ≡ restored_row t.old (inner_frame (M.granules mem.now) t.old)
        (filtered_frame (M.granules mem.now) t.old.area.ram
        (inner_frame (M.granules mem.now) t.old))
        (register_in t.old 10) (register_in t.old 11) }
{
    let link = take_back(t, mem);
    open_in_place(&mut t.pcc);
    t.posture = posture_through(t.posture, link.0, 0, link.1);
}

/// Registers that hold nothing.
fn empty() -> [Live; 16]
    ensures { result ≡ no_registers }
{
    [Live::integer(0); 16]
}

/// A thread without frames holds nothing.
fn end(t: &mut Thread)
    ensures { t.new ≡ ended_row t.old }
{
    t.pcc = Live::integer(0);
    t.regs = empty();
    t.posture = Posture {
        off: false,
        source: 0,
    };
    t.depth = 0;
    t.top = 0;
    t.actor = 0;
    t.handling = false;
}

/// The innermost frame ends with the results that stand in c10 and c11. `false` exactly where it was the thread's last.
fn leave<M: Memory>(t: &mut Thread, mem: &mut M) -> bool
    requires { IsReady (M.granules mem.old) t.old }
    ensures result { result ≡ nat_lt 1 t.old.depth }
    ensures thread { thread_of (M.granules mem.new) true t.new
        ≡ thread_left (M.granules mem.old) t.old (λ f. register_in t.old 10)
        (λ f. register_in t.old 11) }
    ensures memory { M.granules mem.new ≡ memory_left (M.granules mem.old) t.old }
    ensures row { t.new
        ≡ row_left (M.granules mem.old) t.old (λ f. register_in t.old 10)
        (λ f. register_in t.old 11) }
{
    let bytes = t.top - t.area.stack;
    restore(t, mem);
    pop(t, mem);
    clear(mem, t.area.ram, t.area.stack, bytes);
    let depth = t.depth;
    if depth == 0 {
        end(t);
        return false;
    }
    true
}

/// The results that stand in c10 and c11 are handed back.
#[inline(always)]
fn pass_results(passes: bool, regs: &mut [Live; 16])
    ensures first { slice_index_or regs.new 10 (plain 0)
        ≡ handed passes (slice_index_or regs.old 10 (plain 0)) }
    ensures second { slice_index_or regs.new 11 (plain 0)
        ≡ handed passes (slice_index_or regs.old 11 (plain 0)) }
    ensures all { regs.new ≡ slice_set (slice_set regs.old 10
        (handed passes (slice_index_or regs.old 10 (plain 0)))) 11
        (handed passes (slice_index_or regs.old 11 (plain 0))) }
{
    pass(passes, &mut regs[10]);
    pass(passes, &mut regs[11]);
}

/// c10 becomes a value and c11 zero.
#[inline(always)]
fn put_results(value: u32, regs: &mut [Live; 16])
    ensures first { slice_index_or regs.new 10 (plain 0) ≡ plain value }
    ensures second { slice_index_or regs.new 11 (plain 0) ≡ plain 0 }
    ensures all { regs.new ≡ slice_set (slice_set regs.old 10 (plain value)) 11 (plain 0) }
{
    regs[10] = Live::integer(value);
    regs[11] = Live::integer(0);
}

/// The return: c10 and c11 are handed back, untagged where the frame's export passes plain values. `false` exactly
/// where the frame was the thread's last, which has ended then. No memory is taken.
pub fn return_to_caller<M: Memory>(t: &mut Thread, mem: &mut M, e: &Entries) -> bool
    requires ready { IsReady (M.granules mem.old) t.old }
    requires entries { AreSorted e.now.gates }
    ensures result { result ≡ nat_lt 1 t.old.depth }
    ensures thread { thread_of (M.granules mem.new) true t.new
        ≡ thread_left (M.granules mem.old) t.old (returned_by e.now t.old 10)
        (returned_by e.now t.old 11) }
    ensures memory { M.granules mem.new ≡ memory_left (M.granules mem.old) t.old }
    ensures row { t.new
        ≡ row_left (M.granules mem.old) t.old (returned_by e.now t.old 10)
        (returned_by e.now t.old 11) }
    ensures others { (u : row.Thread) (runs : Bool)
        → IsOther t.old u (8 * length (M.granules mem.old))
        → thread_of (M.granules mem.new) runs u ≡ thread_of (M.granules mem.old) runs u }
{
    let number = innermost_export(t, mem);
    let passes = export_of(e, number).passes;
    pass_results(passes, &mut t.regs);
    leave(t, mem)
}

/// The end of a frame with a value, as its error handler says, or -1 where it is unwound: the return with c10 = the
/// value and c11 = 0. `false` exactly where the frame was the thread's last.
pub fn end_with<M: Memory>(t: &mut Thread, mem: &mut M, value: u32) -> bool
    requires { IsReady (M.granules mem.old) t.old }
    ensures result { result ≡ nat_lt 1 t.old.depth }
    ensures thread { thread_of (M.granules mem.new) true t.new
        ≡ thread_left (M.granules mem.old) t.old (λ f. plain value) (λ f. plain 0) }
    ensures memory { M.granules mem.new ≡ memory_left (M.granules mem.old) t.old }
    ensures row { t.new ≡ row_left (M.granules mem.old) t.old (λ f. plain value) (λ f. plain 0) }
    ensures others { (u : row.Thread) (runs : Bool)
        → IsOther t.old u (8 * length (M.granules mem.old))
        → thread_of (M.granules mem.new) runs u ≡ thread_of (M.granules mem.old) runs u }
{
    put_results(value, &mut t.regs);
    leave(t, mem)
}
