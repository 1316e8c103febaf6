//! The record of a trap.

ghost use Rattle.std.specs.Prelude.{◌≡◌, ◌+◌, ◌-◌, ◌*◌, ◌/◌, ◌%◌, ◌≤◌, None, Some, if◌then◌else◌, length};
ghost use Rattle.def_memory.specs.Granules.{holding, plain};
ghost use Rattle.def_step.specs.declared.TheConstants.{TRAP_RECORD};
ghost use Rattle.def_step.specs.Handlers.{has_room, pair, record_by, record_end, words_written};

use ct_cap::{Cap, Live, Shadow, Trap};
use ct_mem::Memory;
use ct_switch::stack_trap;
use def_step::TRAP_RECORD;

/// The address of the record of a trap, of a thread whose stack has this base and whose innermost frame this
/// top: `TRAP_RECORD` bytes below c2's address, which is rounded down to a multiple of 16. `None` comes
/// exactly where c2 isn't the stack from its base, at an address up to the top, or leaves no room for the record.
pub fn record_at(c2: Live, stack: u32, top: u32) -> Option<u32>
    ensures { result
        ≡ (if has_room stack top c2 then Some (record_end c2 - TRAP_RECORD) else None) }
{
    if stack_trap(stack, top, c2).is_some() {
        return None;
    }
    let end = c2.address() / 16 * 16;
    if (end as u64) < stack as u64 + TRAP_RECORD as u64 {
        return None;
    }
    Some(end - TRAP_RECORD)
}

/// A granule gets two words, and loses its tag.
fn put<M: Memory>(mem: &mut M, at: u32, low: u32, high: u32)
    requires even { at % 8 ≡ 0 }
    requires inside { at + 8 ≤ 8 * length (M.granules mem.old) }
    ensures is { M.granules mem.new
        ≡ holding (M.granules mem.old) (at / 8) (plain (pair low high)) }
    ensures size { length (M.granules mem.new) ≡ length (M.granules mem.old) }
{
    let word = low as u64 + ((high as u64) << 32);
    mem.store_cap(
        at,
        Cap {
            tag: false,
            word,
            shadow: Shadow { root: 0, source: 0 },
        },
    );
}

/// Writes the record of a trap at an offset from RAM's begin: the addresses of c0 to c15 and of the program
/// counter, then cause, code and register. Its granules lose their tags, and keep their marks.
pub fn write_record<M: Memory>(mem: &mut M, at: u32, regs: &[Live; 16], pc: u32, trap: Trap)
    requires even { at % 16 ≡ 0 }
    requires inside { at + TRAP_RECORD ≤ 8 * length (M.granules mem.old) }
    ensures { M.granules mem.new
        ≡ words_written (M.granules mem.old) (at / 8) (record_by regs.now pc trap) }
{
    let _size = mem.size();
    put(mem, at, regs[0].address(), regs[1].address());
    put(mem, at + 8, regs[2].address(), regs[3].address());
    put(mem, at + 16, regs[4].address(), regs[5].address());
    put(mem, at + 24, regs[6].address(), regs[7].address());
    put(mem, at + 32, regs[8].address(), regs[9].address());
    put(mem, at + 40, regs[10].address(), regs[11].address());
    put(mem, at + 48, regs[12].address(), regs[13].address());
    put(mem, at + 56, regs[14].address(), regs[15].address());
    put(mem, at + 64, pc, trap.cause);
    put(mem, at + 72, trap.code, trap.register);
}
