//! A call.

ghost use Rattle.std.specs.Prelude.{◌≡◌, ◌+◌, ◌-◌, ◌*◌, ◌/◌, ◌%◌, ◌≤◌, ◌<◌, Bool, true, length};
ghost use Rattle.def_memory.specs.Ranges.{zeroed_from};
ghost use Rattle.ct_areas.specs.declared.thread.Thread as row;
ghost use Rattle.ct_areas.specs.Threads.{frames_most, thread_of};
ghost use Rattle.ct_areas.specs.Parts.{register_in, with_frame};
ghost use Rattle.ct_switch.specs.Exports.{IsCallable, callee_of};
ghost use Rattle.ct_switch.specs.Ready.{IsReady, IsOther, MayCall};
ghost use Rattle.ct_switch.specs.Calls.{head_of, switch_in, call_outcome, memory_after, thread_after, row_after, given_from, registers_in, posture_in, entered_row, entered_thread};

use crate::deciding::{Decision, decide, entry_of, register};
use crate::given::{Head, dress_registers, head_in, posture};
use crate::{Export, table_at};
use ct_areas::{Thread, clear, push};
use ct_cap::{Trap, expand, turn};
use ct_entry::Entries;
use ct_mem::Memory;

/// What a switch came to: the callee was entered, by the entry whose capability stood in c6, through the export with
/// this number; or the thread has as many frames as it may have, or the callee's stack had too little room, or a check
/// failed, of which this is the first, and then nothing changed.
#[derive(Clone, Copy, Debug, PartialEq, Eq, Drop)]
pub enum Called {
    Entered { entry: u32, export: u32 },
    TooDeep,
    NoStack,
    Trapped { trap: Trap },
}

/// The offset of the head of a callee's export table from RAM's begin.
///
/// Condition: the export can be called, in RAM that begins at a multiple of 16.
pub fn head_of<M: Memory>(t: &Thread, mem: &M, e: &Entries, x: &Export) -> u32
    requires callable { IsCallable e.now t.now.area.ram (8 * length (M.granules mem.now))
        x.now.number }
    requires callee { x.now.callee ≡ callee_of e.now x.now.number }
    requires even { t.now.area.ram % 16 ≡ 0 }
    ensures is { result / 8 ≡ head_of e.now t.now.area x.now.callee }
    ensures even { result % 8 ≡ 0 }
    ensures inside { result + 16 ≤ 8 * length (M.granules mem.now) }
{
    let _size = mem.size();
    table_at(&e.rows, x.callee, x.number as usize - 1) - t.area.ram
}

/// A thread is dressed as a callee: program counter, registers and posture.
fn dress(t: &mut Thread, x: &Export, head: &Head, high: u32)
    requires { t.old.area.stack ≤ high }
    ensures { t.new ≡ record t.old {
      pcc = (given_from head.now t.old x.now.code high).pcc;
      regs = registers_in x.now t.old.regs (given_from head.now t.old x.now.code high);
      posture = posture_in x.now;
    } }
{
    t.pcc = expand(head.code);
    turn(&mut t.pcc, x.code);
    let base = t.area.stack;
    dress_registers(x, &mut t.regs, base, high, head.globals);
    t.posture = posture(x);
}

/// The callee is entered: its stack is zeroed, the caller's frame is kept, and the thread is the callee's.
fn enter<M: Memory>(t: &mut Thread, mem: &mut M, x: &Export, head: &Head, high: u32)
    requires ready { IsReady (M.granules mem.old) t.old }
    requires room { t.old.depth < frames_most t.old.area }
    requires low { t.old.area.stack ≤ high }
    requires high { high ≤ t.old.top }
    requires even { high % 16 ≡ 0 }
    ensures memory { M.granules mem.new
        ≡ with_frame (zeroed_from t.old.area.stack high t.old.area.ram (M.granules mem.old)) t.old
        x.now.number }
    ensures thread { thread_of (M.granules mem.new) true t.new
        ≡ entered_thread (thread_of (M.granules mem.old) true t.old) x.now high
        (given_from head.now t.old x.now.code high) }
    ensures row { t.new
        ≡ entered_row t.old x.now high (given_from head.now t.old x.now.code high) }
{
    clear(mem, t.area.ram, t.area.stack, high - t.area.stack);
    push(t, mem, x.callee, x.number, high);
    dress(t, x, head, high);
}

/// The call of the export whose capability stands in c6.
///
/// After the checks of c1, c6 and c2 it is `TooDeep` exactly where the thread has as many frames as it may have, else
/// `NoStack` exactly where the stack up to the new top is shorter than the export asks for; then, and where a check
/// fails, nothing changes. Else the callee is entered. No memory is taken.
pub fn call<M: Memory>(t: &mut Thread, mem: &mut M, e: &Entries) -> Called
    requires { MayCall (M.granules mem.old) t.old e.now }
    ensures result { result
        ≡ call_outcome (register_in t.old 6) (switch_in (M.granules mem.old) e.now t.old) }
    ensures thread { thread_of (M.granules mem.new) true t.new
        ≡ thread_after (M.granules mem.old) e.now t.old
        (switch_in (M.granules mem.old) e.now t.old) }
    ensures memory { M.granules mem.new
        ≡ memory_after (M.granules mem.old) t.old (switch_in (M.granules mem.old) e.now t.old) }
    ensures row { t.new
        ≡ row_after (M.granules mem.old) e.now t.old (switch_in (M.granules mem.old) e.now t.old) }
    ensures others { (u : row.Thread) (runs : Bool)
        → IsOther t.old u (8 * length (M.granules mem.old))
        → thread_of (M.granules mem.new) runs u ≡ thread_of (M.granules mem.old) runs u }
{
    match decide(t, mem, e) {
        Decision::Trapped { trap } => Called::Trapped { trap },
        Decision::TooDeep => Called::TooDeep,
        Decision::NoStack => Called::NoStack,
        Decision::Enters { export, high } => {
            let import = register(&t.regs, 6);
            let entry = entry_of(import);
            let at = head_of(t, mem, e, &export);
            let head = head_in(mem, at);
            enter(t, mem, &export, &head, high);
            Called::Entered {
                entry,
                export: export.number,
            }
        }
    }
}
