//! One instruction, from its fetch on.

ghost use Rattle.ct_execute.specs.Deciding.{ExecutesAsWritten, RanInRange};
ghost use Rattle.ct_execute.specs.Opening.{MayGo};

use crate::classes::execute_instruction;
use crate::ran::Ran;
use ct_bus::Bus;
use ct_cap::Trap;
use ct_engine::Engine;
use ct_entry::Entries;
use ct_mem::Memory;
use ct_threads::fetch_trap;
use def_profile::traps::ILLEGAL_INSTRUCTION;
use def_step::Next;

/// What stands at the running thread's program counter is fetched and carried out, on the thread, RAM and the devices.
///
/// Where that is a native routine, the return or another, or where a check fails, of which the first is told, nothing
/// changes.
pub fn execute<M: Memory + Drop>(
    engine: &mut Engine<M>,
    t: u32,
    entries: &Entries,
    bus: &mut Bus,
    heap: u32,
    time: u64,
) -> Ran
    requires { MayGo engine.old t heap }
    ensures executes { ExecutesAsWritten entries.now t time
        engine.old bus.old engine.new bus.new result }
    ensures ranged { RanInRange result }
{
    let pcc = engine.pcc(t);
    if let Some(trap) = fetch_trap(pcc) {
        return Ran::Trapped { trap };
    }
    match engine.next(pcc.address()) {
        Next::Returning => Ran::Returned,
        Next::Native { number } => Ran::Native { number },
        Next::Instruction { instruction } => {
            execute_instruction(instruction, entries, engine, t, bus, heap, time)
        }
        Next::Nothing => Ran::Trapped {
            trap: Trap::plain(ILLEGAL_INSTRUCTION),
        },
    }
}
