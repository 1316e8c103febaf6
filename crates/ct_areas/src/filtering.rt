//! Registers that come back from granules, through the load filter.

ghost use Rattle.std.specs.Prelude.{◌≡◌, ◌+◌, ◌*◌, ◌/◌, ◌%◌, ◌≤◌, ◌<◌, ◌^◌, length};
ghost use Rattle.def_words.specs.Seals.{cap_seal};
ghost use Rattle.def_memory.specs.Granules.{cap_in};
ghost use Rattle.def_machine.specs.Memory.{filtered_in};

use ct_cap::{Live, expand};
use ct_loadstore::filter_in_place;
use ct_mem::Memory;
use def_words::Cap;

/// A register gets a capability, decoded: a number, as most registers hold one, without looking at its fields.
#[inline(never)]
fn put_decoded(register: &mut Live, cap: &Cap)
    ensures { register.new ≡ cap.now }
{
    if !cap.tag && cap.word < 1 << 32 && cap.shadow.root == 0 && cap.shadow.source == 0 {
        *register = Live::integer(cap.word as u32);
        return;
    }
    *register = expand(*cap);
}

/// A register gets a capability. Where it holds the same already, that isn't decoded anew.
#[inline(always)]
fn hold(register: &mut Live, cap: &Cap)
    ensures { register.new ≡ cap.now }
{
    if register.cap != *cap {
        put_decoded(register, cap);
    }
}

/// A register gets what a granule holds, through the load filter.
#[inline(always)]
pub(crate) fn take<M: Memory>(register: &mut Live, mem: &M, ram: u32, at: u32)
    requires even { at % 8 ≡ 0 }
    requires inside { at + 8 ≤ 8 * length (M.granules mem.now) }
    ensures { register.new
        ≡ filtered_in ram (M.granules mem.now) (cap_in (M.granules mem.now) (at / 8)) }
{
    let cap = mem.load_cap(at);
    hold(register, &cap);
    filter_in_place(register, mem, ram);
}

/// A register gets the saved link that a granule holds, through the load filter. The answer is the type and the source
/// of the link, as they were saved.
pub(crate) fn take_link<M: Memory>(register: &mut Live, mem: &M, ram: u32, at: u32) -> (u32, u32)
    requires even { at % 8 ≡ 0 }
    requires inside { at + 8 ≤ 8 * length (M.granules mem.now) }
    ensures link { result
        ≡ (
          cap_seal (cap_in (M.granules mem.now) (at / 8)),
          (cap_in (M.granules mem.now) (at / 8)).shadow.source,
        ) }
    ensures taken { register.new
        ≡ filtered_in ram (M.granules mem.now) (cap_in (M.granules mem.now) (at / 8)) }
{
    let cap = mem.load_cap(at);
    put_decoded(register, &cap);
    let kind = register.seal;
    filter_in_place(register, mem, ram);
    (kind, cap.shadow.source)
}
