//! A trap's error handler, and what it ends with, of a thread that runs.

ghost use Rattle.std.specs.Prelude.{◌≡◌, ◌≤◌, ◌+◌, ◌-◌, ◌*◌, ◌/◌, ◌%◌, ◌==◌, Some, None, true, if◌then◌else◌, length};
ghost use Rattle.def_profile.specs.declared.answers.TheConstants.{UNWOUND};
ghost use Rattle.def_words.specs.Authority.{cap_address};
ghost use Rattle.def_words.specs.Capability.{with_address};
ghost use Rattle.def_memory.specs.Granules.{cap_in};
ghost use Rattle.def_boot.specs.Made.{return_sentry};
ghost use Rattle.def_machine.specs.State.{interrupts_on};
ghost use Rattle.def_step.specs.declared.TheConstants.{TRAP_RECORD};
ghost use Rattle.def_step.specs.Handlers.{record_end, handler_registers};
ghost use Rattle.ct_areas.specs.Parts.{register_in};
ghost use Rattle.ct_switch.specs.Exports.{AreSorted, IsCallable};
ghost use Rattle.ct_threads.specs.Handling.{
  RowMayHandle,
  is_handled_in,
  handed_in,
  recorded,
  handling_row,
  memory_by,
  row_by,
};

use ct_areas::Thread;
use ct_cap::{Live, Posture, Trap, expand};
use ct_entry::Entries;
use ct_handler::{Start, answer, fresh, record_at, write_record};
use ct_mem::Memory;
use ct_switch::{export_of, head_of, return_sentry};
use def_profile::answers::UNWOUND;

/// Where the record of a trap of a thread goes, an address, where this export is entered as its error handler.
fn record_for(t: &Thread, handler: u32) -> Option<u32>
    ensures { result ≡ (if is_handled_in t.now handler
        then Some (record_end (register_in t.now 2) - TRAP_RECORD) else None) }
{
    if handler == 0 || t.handling {
        return None;
    }
    record_at(t.regs[2], t.area.stack, t.top)
}

/// What a granule of memory holds.
fn held_at<M: Memory>(mem: &M, at: u32) -> Live
    requires even { at % 8 ≡ 0 }
    requires inside { at + 8 ≤ 8 * length (M.granules mem.now) }
    ensures { result ≡ cap_in (M.granules mem.now) (at / 8) }
{
    expand(mem.load_cap(at))
}

/// What the error handler begins with, this export, where the record of the trap stands at an address.
fn start_of<M: Memory>(t: &Thread, mem: &M, e: &Entries, handler: u32, at: u32, trap: Trap) -> Start
    requires even { t.now.area.ram % 16 ≡ 0 }
    requires sorted { AreSorted e.now.gates }
    requires callable { IsCallable e.now t.now.area.ram (8 * length (M.granules mem.now))
        handler }
    ensures pcc { result.pcc ≡ (handed_in (M.granules mem.now) e.now t.now handler).pcc }
    ensures regs { result.regs
        ≡ handler_registers return_sentry (with_address (register_in t.now 2) at)
        (handed_in (M.granules mem.now) e.now t.now handler).globals trap }
{
    let _size = mem.size();
    let export = export_of(e, handler);
    let head = head_of(t, mem, e, &export);
    fresh(
        held_at(mem, head),
        held_at(mem, head + 8),
        return_sentry(),
        t.regs[2],
        at,
        export.code,
        trap,
    )
}

/// A thread is dressed as an error handler, with interrupts on.
fn dress(t: &mut Thread, start: Start)
    ensures { t.new ≡ record t.old {
      pcc = start.pcc;
      regs = start.regs;
      posture = interrupts_on;
      handling = true;
    } }
{
    let regs = start.regs;
    t.pcc = start.pcc;
    t.regs = regs;
    t.posture = Posture {
        off: false,
        source: 0,
    };
    t.handling = true;
}

/// The error handler of a thread that runs is entered, this export; the record of the trap stands at an address.
fn enter<M: Memory>(t: &mut Thread, mem: &mut M, e: &Entries, handler: u32, at: u32, trap: Trap)
    requires even { t.old.area.ram % 16 ≡ 0 }
    requires sorted { AreSorted e.now.gates }
    requires callable { IsCallable e.now t.old.area.ram (8 * length (M.granules mem.old))
        handler }
    requires is { at ≡ record_end (register_in t.old 2) - TRAP_RECORD }
    requires low { t.old.area.ram ≤ at }
    requires inside { at + TRAP_RECORD ≤ t.old.area.ram + 8 * length (M.granules mem.old) }
    requires whole { at % 16 ≡ 0 }
    ensures memory { M.granules mem.new ≡ recorded (M.granules mem.old) t.old trap }
    ensures row { t.new
        ≡ handling_row (handed_in (M.granules mem.old) e.now t.old handler) t.old trap }
{
    let start = start_of(t, mem, e, handler, at, trap);
    write_record(mem, at - t.area.ram, &t.regs, t.pcc.address(), trap);
    dress(t, start);
}

/// A thread that runs and trapped enters this export as its error handler, where it is entered. `false` exactly where
/// it isn't; then nothing changes.
///
/// Conditions: the row is kept, and the export is one whose compartment's two heads stand in memory.
#[tactic(auto, using(crate::proofs::Handlers::place_some, crate::proofs::Handlers::place_none))]
pub fn handle_row<M: Memory>(
    t: &mut Thread,
    mem: &mut M,
    e: &Entries,
    handler: u32,
    trap: Trap,
) -> bool
    requires { RowMayHandle (M.granules mem.old) t.old e.now handler }
    ensures result { result ≡ is_handled_in t.old handler }
    ensures memory { M.granules mem.new ≡ memory_by result (M.granules mem.old) t.old trap }
    ensures row { t.new ≡ row_by result (M.granules mem.old) e.now t.old handler trap }
{
    match record_for(t, handler) {
        Some(at) => {
            enter(t, mem, e, handler, at, trap);
            true
        }
        None => false,
    }
}

/// What a frame ends with whose error handler was entered, by c10 and c11.
pub fn value_of(c10: Live, c11: Live) -> u32
    ensures { result ≡ (if cap_address c10 == 1 then cap_address c11 else UNWOUND) }
{
    match answer(c10, c11) {
        Some(value) => value,
        None => UNWOUND,
    }
}
