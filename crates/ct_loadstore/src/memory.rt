//! Loads and stores in RAM.

ghost use Rattle.std.specs.Prelude.{◌≡◌, ◌+◌, ◌*◌, ◌%◌, ◌≤◌, ◌<◌, ◌⊎◌, ◌^◌, ◌-◌, false, true, length};
ghost use Rattle.def_words.specs.Loaded.{attenuated, stored_through};
ghost use Rattle.def_memory.specs.Accesses.{loaded, loaded_cap, stored, stored_cap};
ghost use Rattle.def_machine.specs.Memory.{filtered_in};
ghost use Rattle.def_step.specs.Accesses.{ram_value, ram_stored, widened};
ghost use Rattle.ct_loadstore.specs.Shapes.{IsShape, Reaches};

use crate::marks::filter;
use crate::shapes::widen;
use ct_cap::{Flags, Live, Perms, attenuate, clear_tag, expand, shrink};
use ct_mem::Memory;
use def_step::Access;

/// What is stored of a value: one without GL is stored untagged where SL is missing.
#[tactic(auto, using(ct_perm::proofs::Tests::has_gl, ct_perm::proofs::Tests::has_sl))]
pub(crate) fn kept(x: Live, y: Live) -> Live
    ensures { result ≡ stored_through x y }
{
    if y.cap.tag && !y.perms.contains(Perms::GL) && !x.perms.contains(Perms::SL) {
        return clear_tag(y);
    }
    y
}

/// The number at an address in RAM, as a load widens it.
pub(crate) fn number<M: Memory>(a: Access, at: u32, mem: &M, ram: u32) -> u32
    requires shape { IsShape a }
    requires part { a.whole ≡ false }
    requires reaches { Reaches a ram (length (M.granules mem.now)) at }
    ensures { result ≡ widened a (loaded (M.granules mem.now) (at - ram) a.width) }
{
    widen(a, mem.load(at - ram, a.width))
}

/// A load at an address in RAM, through x.
pub(crate) fn load<M: Memory>(a: Access, x: Live, at: u32, mem: &M, ram: u32) -> Live
    requires shape { IsShape a }
    requires reaches { Reaches a ram (length (M.granules mem.now)) at }
    ensures { result ≡ ram_value a x at ram (M.granules mem.now) }
{
    if a.whole {
        return filter(mem, ram, attenuate(x, expand(mem.load_cap(at - ram))));
    }
    Live::integer(number(a, at, mem, ram))
}

/// A store of y at an address in RAM, through x.
#[inline(always)]
pub(crate) fn store<M: Memory>(a: Access, x: Live, y: Live, at: u32, mem: &mut M, ram: u32)
    requires shape { IsShape a }
    requires reaches { Reaches a ram (length (M.granules mem.old)) at }
    ensures { M.granules mem.new ≡ ram_stored a x y at ram (M.granules mem.old) }
{
    if a.whole {
        mem.store_cap(at - ram, shrink(kept(x, y)));
        return;
    }
    mem.store(at - ram, a.width, y.address());
}
