//! Loads and stores of the running thread.

ghost use Rattle.std.specs.Prelude.{◌≡◌, ◌*◌, length, true};
ghost use Rattle.def_instr.specs.Shapes.{is_access};
ghost use Rattle.ct_loadstore.specs.Maps.{IsMap};
ghost use Rattle.ct_loadstore.specs.Shapes.{space_of};
ghost use Rattle.ct_threads.specs.Steps.{IsHeapPlaced, IsMoved};

use ct_bus::Bus;
use ct_cap::{Live, Trap};
use ct_loadstore::{Map, Moved, loadstore};
use ct_mem::Memory;
use def_instr::Instr;

/// Where RAM lies, and the heap from an address to RAM's end.
fn map_of<M: Memory>(mem: &M, ram: u32, heap: u32) -> Map
    requires { IsHeapPlaced ram heap (length (M.granules mem.now)) }
    ensures ram { result.ram ≡ ram }
    ensures is { IsMap result (8 * length (M.granules mem.now)) }
{
    let size = mem.size();
    Map {
        ram,
        size,
        heap,
        length: ram + size - heap,
    }
}

/// A load or a store through x, at x's address and the immediate, whatever is hidden; y is what a store stores. `Err`
/// with the trap of the first check that fails.
///
/// Conditions: the instruction is a load or a store; RAM and its heap begin and end at multiples of 16.
pub fn access<M: Memory>(
    instruction: Instr,
    x: Live,
    y: Live,
    mem: &mut M,
    ram: u32,
    heap: u32,
    bus: &mut Bus,
    time: u64,
) -> Result<Moved, Trap>
    requires access { is_access instruction ≡ true }
    requires heap { IsHeapPlaced ram heap (length (M.granules mem.old)) }
    ensures is { IsMoved instruction x y (space_of ram (M.granules mem.old) bus.old time)
        (M.granules mem.new) bus.new result }
    ensures size { length (M.granules mem.new) ≡ length (M.granules mem.old) }
    ensures bases { bus.new.bases ≡ bus.old.bases }
{
    let map = map_of(mem, ram, heap);
    loadstore(instruction, x, y, mem, &map, bus, time)
}
