//! A load or a store, whole.

ghost use Rattle.std.specs.Prelude.{IsTrue, ◌≡◌, ◌+◌, ◌*◌, ◌&&◌, ◌≤◌, ◌<◌, ◌^◌, ◌%◌, length, true, false, MatchResult, Ok, Err};
ghost use Rattle.def_instr.specs.Shapes.{is_access};
ghost use Rattle.def_machine.specs.Memory.{lies_in};
ghost use Rattle.def_step.specs.Accesses.{access_result, accessed, access_of, is_ram};
ghost use Rattle.ct_loadstore.specs.Maps.{IsMap};
ghost use Rattle.ct_loadstore.specs.Shapes.{IsShape, space_of};

use crate::checks::first_trap;
use crate::shapes::access;
use crate::{devices, memory};
use ct_bus::Bus;
use ct_cap::{Live, Trap};
use ct_entry::Act;
use ct_mem::Memory;
use def_instr::Instr;
use def_step::Access;
use std::marker::Model;

/// Where RAM and the heap are: first address and length in bytes of each. The heap lies in RAM, and all
/// four are multiples of 16 (but RAM's length, which is that of memory).
#[derive(Clone, Copy, PartialEq, Eq, Drop)]
pub struct Map {
    pub ram: u32,
    pub size: u32,
    pub heap: u32,
    pub length: u32,
}

/// What a load or store comes to: the value for rd, where it is a load, and the deed, where it
/// reached a device.
#[derive(Clone, Copy)]
pub struct Moved {
    pub value: Option<Live>,
    pub device: Option<Act>,
}

impl Model for Moved {
    ghost use Rattle.std.specs.Prelude.{IsTrue, refl};
    ghost use Rattle.ct_loadstore.specs.Shapes.{MovedRow};

    ghost Value = { MovedRow };

    ghost view = { λ m. record { value = m.value; device = m.device } };

    ghost inverse = { λ m. record { value = m.value; device = m.device } };

    ghost inverse_ok = { λ m h. refl };
}

/// Whether so many bytes from an address on lie in RAM.
pub(crate) fn in_ram<M: Memory>(mem: &M, ram: u32, at: u32, width: u32) -> bool
    ensures { result ≡ lies_in ram (M.granules mem.now) at width }
{
    ram <= at && at as u64 + width as u64 <= ram as u64 + mem.size() as u64
}

/// What it does once its checks have passed.
fn carry_out<M: Memory>(
    a: Access,
    x: Live,
    y: Live,
    at: u32,
    mem: &mut M,
    ram: u32,
    bus: &mut Bus,
    time: u64,
) -> Moved
    requires shape { IsShape a }
    requires even { ram % 16 ≡ 0 }
    requires aligned { at % a.width ≡ 0 }
    ensures { accessed a x y at (space_of ram (M.granules mem.old) bus.old time)
        ≡ record {
          value = result.value;
          act = result.device;
          granules = M.granules mem.new;
          bank = bus.new;
        } }
{
    if !in_ram(mem, ram, at, a.width) {
        if a.loads {
            return devices::load(a, x, y, at, bus, time);
        }
        return devices::store(a, x, y, at, bus, time);
    }
    if a.loads {
        return Moved {
            value: Some(memory::load(a, x, at, mem, ram)),
            device: None,
        };
    }
    memory::store(a, x, y, at, mem, ram);
    Moved {
        value: None,
        device: None,
    }
}

/// A load or store through x, at x's address and the immediate; y is what a store stores. `time` is
/// in ticks.
///
/// A trap where a check fails, the first, and then nothing has changed.
#[tactic(auto, unfolding(def_step::specs::Accesses::access_result))]
pub fn loadstore<M: Memory>(
    instruction: Instr,
    x: Live,
    y: Live,
    mem: &mut M,
    map: &Map,
    bus: &mut Bus,
    time: u64,
) -> Result<Moved, Trap>
    requires access { IsTrue (is_access instruction) }
    requires map { IsMap map.now (8 * length (M.granules mem.old)) }
    ensures is { MatchResult result
        (λ m. access_result instruction x y (space_of map.now.ram (M.granules mem.old) bus.old time)
        ≡ Ok (record {
          value = m.value;
          act = m.device;
          granules = M.granules mem.new;
          bank = bus.new;
        }))
        (λ t.
        (access_result instruction x y
        (space_of map.now.ram (M.granules mem.old) bus.old time)
        ≡ Err t)
        × (M.granules mem.new ≡ M.granules mem.old) × (bus.new ≡ bus.old)) }
    ensures size { length (M.granules mem.new) ≡ length (M.granules mem.old) }
    ensures bases { bus.new.bases ≡ bus.old.bases }
{
    let a = access(instruction);
    let at = x.address().wrapping_add(a.immediate);
    if let Some(trap) = first_trap(a, x, y, at) {
        return Err(trap);
    }
    Ok(carry_out(a, x, y, at, mem, map.ram, bus, time))
}
