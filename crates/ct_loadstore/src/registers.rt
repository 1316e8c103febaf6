//! A load of a capability in RAM that no check refuses, into a register where it stands.

ghost use Rattle.std.specs.Prelude.{◌≡◌, ◌+◌, ◌-◌, ◌*◌, ◌%◌, ◌&&◌, ◌≤◌, ◌<◌, Some, length, slice_index_or, true, false};
ghost use Rattle.def_words.specs.declared.Cap.{Cap};
ghost use Rattle.def_words.specs.Capability.{cap_of};
ghost use Rattle.def_words.specs.Loaded.{attenuated};
ghost use Rattle.def_memory.specs.Accesses.{loaded_cap, IsPlace};
ghost use Rattle.def_memory.specs.Granules.{plain};
ghost use Rattle.def_machine.specs.Memory.{filtered_in};
ghost use Rattle.def_machine.specs.Registers.{written};
ghost use Rattle.ct_loadstore.specs.Shapes.{IsShape};
ghost use Rattle.ct_loadstore.specs.Quiet.{is_quiet_load, loaded_by, passes_all, value_by, Quiet};

use crate::marks::{filter, filter_in_place};
use crate::moving::in_ram;
use crate::quiet::{may_load, place};
use ct_cap::{Cap, Flags, Live, Perms, Shadow, attenuate, expand};
use ct_mem::Memory;
use def_step::Access;

/// Whether what is loaded through x keeps its tag and its permissions.
#[tactic(auto, using(ct_perm::proofs::Tests::has_lm, ct_perm::proofs::Tests::has_lg, ct_perm::proofs::Tests::has_mc))]
#[inline(always)]
fn passes_all(x: &Live) -> bool
    ensures { result ≡ passes_all x.now }
{
    x.perms.contains(Perms::LM) && x.perms.contains(Perms::LG) && x.perms.contains(Perms::MC)
}

/// What memory holds, decoded; an untagged one comes from nowhere. A number is decoded without looking at its fields.
#[inline(always)]
fn decoded(cap: Cap) -> Live
    ensures { result ≡ cap_of cap.tag cap.word cap.shadow }
{
    if cap.tag {
        return expand(cap);
    }
    if cap.word < 1 << 32 {
        return Live::integer(cap.word as u32);
    }
    Live::plain(cap.word)
}

/// A register gets what a granule holds, through the load filter; RAM begins at `ram`.
#[inline(always)]
fn load_whole<M: Memory>(register: &mut Live, offset: u32, mem: &M, ram: u32)
    requires { IsPlace (8 * length (M.granules mem.now)) offset }
    ensures { register.new ≡ filtered_in ram (M.granules mem.now) (cap_of
        (loaded_cap (M.granules mem.now) offset).tag (loaded_cap (M.granules mem.now) offset).word
        (loaded_cap (M.granules mem.now) offset).shadow) }
{
    *register = decoded(mem.load_cap(offset));
    filter_in_place(register, mem, ram);
}

/// A register gets what a load of a granule through another gives that has each right to pass it on.
#[tactic(auto, using(crate::proofs::Passed::passes_whole))]
#[inline(always)]
fn load_all<M: Memory>(registers: &mut [Live; 16], to: u32, by: u32, offset: u32, mem: &M, ram: u32)
    requires place { IsPlace (8 * length (M.granules mem.now)) offset }
    requires some { 1 ≤ to }
    requires to { to < 16 }
    requires passes { passes_all (value_by registers.old by) ≡ true }
    ensures { registers.new ≡ written registers.old to (filtered_in ram (M.granules mem.now)
        (attenuated (value_by registers.old by) (loaded_cap (M.granules mem.now) offset))) }
{
    let _by = by;
    load_whole(&mut registers[to as usize], offset, mem, ram);
}

/// A register gets what a load of a granule through another gives that lacks a right.
#[inline(never)]
fn load_part<M: Memory>(
    registers: &mut [Live; 16],
    to: u32,
    by: u32,
    offset: u32,
    mem: &M,
    ram: u32,
)
    requires place { IsPlace (8 * length (M.granules mem.now)) offset }
    requires some { 1 ≤ to }
    requires to { to < 16 }
    requires by { by < 16 }
    ensures { registers.new ≡ written registers.old to (filtered_in ram (M.granules mem.now)
        (attenuated (value_by registers.old by) (loaded_cap (M.granules mem.now) offset))) }
{
    let x = registers[by as usize];
    registers[to as usize] = filter(mem, ram, attenuate(x, expand(mem.load_cap(offset))));
}

/// A load of a capability through a register into a register, which register 0 drops, where its checks pass and it lies
/// in RAM, which begins at `ram`; else `false`, and nothing changes.
///
/// Conditions: RAM begins at a multiple of 16, the access is a load of a whole capability of a shape that instructions
/// have, and both registers' numbers are below 16.
#[tactic(auto, using(crate::proofs::Unrefused::quiet_load, crate::proofs::Unrefused::none_failed))]
#[inline(always)]
pub fn load_register<M: Memory>(
    registers: &mut [Live; 16],
    to: u32,
    a: &Access,
    mem: &M,
    ram: u32,
) -> bool
    requires even { ram % 16 ≡ 0 }
    requires shape { IsShape a.now }
    requires loads { a.now.loads ≡ true }
    requires whole { a.now.whole ≡ true }
    requires to { to < 16 }
    requires by { a.now.by < 16 }
    ensures when { result
        ≡ is_quiet_load a.now (value_by registers.old a.now.by) ram (M.granules mem.now) }
    ensures is { result ≡ true → (y : Cap)
        → Quiet a.now (value_by registers.old a.now.by) y ram (M.granules mem.now)
        (Some (loaded_by a.now registers.old ram (M.granules mem.now))) (M.granules mem.now) }
    ensures given { result ≡ true → registers.new
        ≡ written registers.old to (loaded_by a.now registers.old ram (M.granules mem.now)) }
    ensures same { result ≡ false → registers.new ≡ registers.old }
{
    let x = &registers[a.by as usize];
    let at = place(a, x);
    if !may_load(a, x, at) || !in_ram(mem, ram, at, a.width) {
        return false;
    }
    if to == 0 {
        return true;
    }
    if passes_all(x) {
        load_all(registers, to, a.by, at - ram, mem, ram);
        return true;
    }
    load_part(registers, to, a.by, at - ram, mem, ram);
    true
}
