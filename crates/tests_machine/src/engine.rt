//! Threads that take turns over plain memory. Expected values follow from the rules of docs/use/machine.md.

ghost use Rattle.std.specs.Prelude.{◌≡◌, ◌+◌, ◌*◌, ◌≤◌, [], slice_index_or};
ghost use Rattle.def_memory.specs.Granules.{plain};

use crate::seen::is;
use ct_areas::{Area, First, Fresh};
use ct_cap::{Live, Posture, Trap};
use ct_engine::{Called, Engine, Heap, Region};
use ct_entry::Entries;
use ct_mem::Plain;
use def_profile::traps::TAG_CODE;
use def_refusals::NoMemory;
use std::alloc::Global;

/// The trusted region of both threads.
const REGION: Region = Region {
    ram: 0x8000_0000,
    trusted: 0x8000_0010,
    end: 0x8000_0250,
};

/// The first or second thread, with room for two frames, whose second register holds its number.
fn fresh(number: u32) -> Fresh
    requires number { number ≤ 2 }
    ensures area { result.area ≡ record {
      ram = 2147483648;
      stack = 2147484416 + 256 * number;
      stack_length = 256;
      trusted = 2147483376 + 288 * number;
      trusted_length = 288;
    } }
    ensures zero { slice_index_or result.first.regs 0 (plain 0) ≡ plain 0 }
{
    let none = Live::integer(0);
    Fresh {
        first: First {
            pcc: Live::integer(0x100),
            regs: [
                none,
                none,
                Live::integer(number),
                none,
                none,
                none,
                none,
                none,
                none,
                none,
                none,
                none,
                none,
                none,
                none,
                none,
            ],
            posture: Posture {
                off: false,
                source: 0,
            },
            actor: 1,
            export: 7,
        },
        area: Area {
            ram: 0x8000_0000,
            stack: 0x8000_0300 + 256 * number,
            stack_length: 256,
            trusted: 0x7FFF_FEF0 + 288 * number,
            trusted_length: 288,
        },
    }
}

fn no_entries(alloc: Global) -> Entries
    ensures { result.gates ≡ [] }
{
    Entries {
        rows: Vec::new(alloc),
        gates: Vec::new(alloc),
    }
}

/// Two threads; the second runs, gets a register and stops; the first runs to its end; the second goes on with what it
/// held.
#[test]
fn threads_take_turns(rt: HostRuntime) -> Result<(), NoMemory> {
    let threads = [fresh(1), fresh(2)];
    let heap = Heap::new(rt.alloc(), 0x8000_0000, 0x8000_0600, 512, &[])?;
    let memory = Plain::new(rt.alloc(), 2048)?;
    let mut engine = Engine::start(rt.alloc(), memory, REGION, &threads, heap)?;
    is(&rt, 1, engine.count() == 2);
    engine.pick(1);
    is(&rt, 2, engine.register(1, 2).cap.word == 2);
    engine.jump_to(
        1,
        Live::integer(0x200),
        Posture {
            off: false,
            source: 0,
        },
        2,
        Live::integer(5),
    );
    engine.stop(1);
    is(&rt, 3, engine.load(0x250, 4) == 0);
    engine.pick(0);
    is(&rt, 4, engine.register(0, 2).cap.word == 1);
    is(&rt, 5, !engine.unwind(0));
    is(&rt, 6, engine.running() == None);
    engine.pick(1);
    is(&rt, 7, engine.register(1, 2).cap.word == 5);
    is(&rt, 8, engine.pcc(1).address() == 0x200);
    is(&rt, 9, engine.running() == Some(1));
    drop(engine);
    Ok(())
}

/// A thread whose c1 and c6 hold no capability calls: it traps.
#[test]
fn call_without_a_sentry_traps(rt: HostRuntime) -> Result<(), NoMemory> {
    let none = no_entries(rt.alloc());
    let threads = [fresh(1), fresh(2)];
    let heap = Heap::new(rt.alloc(), 0x8000_0000, 0x8000_0600, 512, &[])?;
    let memory = Plain::new(rt.alloc(), 2048)?;
    let mut engine = Engine::start(rt.alloc(), memory, REGION, &threads, heap)?;
    engine.pick(1);
    let posture = engine.posture(1);
    engine.jump_to(1, Live::integer(0x200), posture, 6, Live::integer(0));
    engine.jump_to(1, Live::integer(0x200), posture, 1, Live::integer(0));
    let trap = Trap::capability(TAG_CODE, 1);
    is(&rt, 1, engine.call(1, &none) == Called::Trapped { trap });
    drop(engine);
    drop(none);
    Ok(())
}

/// A thread with one frame returns: it has ended, and none runs.
#[test]
fn last_frame_ends(rt: HostRuntime) -> Result<(), NoMemory> {
    let none = no_entries(rt.alloc());
    let threads = [fresh(1), fresh(2)];
    let heap = Heap::new(rt.alloc(), 0x8000_0000, 0x8000_0600, 512, &[])?;
    let memory = Plain::new(rt.alloc(), 2048)?;
    let mut engine = Engine::start(rt.alloc(), memory, REGION, &threads, heap)?;
    engine.pick(1);
    is(&rt, 1, !engine.return_to_caller(1, &none));
    is(&rt, 2, engine.running() == None);
    drop(engine);
    drop(none);
    Ok(())
}
