//! The checks of a fetch, and what stands at an address.

ghost use Rattle.std.specs.Prelude.{◌≡◌, ◌+◌, ◌*◌, ◌%◌, ◌≤◌, ◌&&◌, ◌==◌, length};
ghost use Rattle.def_machine.specs.Memory.{lies_in};
ghost use Rattle.def_step.specs.Checks.{first_failed};
ghost use Rattle.def_step.specs.Instructions.{fetch_checks, fetched, next_at, next_native, is_native_entry};
ghost use Rattle.ct_loadstore.specs.Shapes.{space_of};
ghost use Rattle.ct_threads.specs.Steps.{no_bank, NextInRange};

use ct_cap::{Flags, Live, Perms, Trap};
use ct_isa::decode;
use ct_mem::Memory;
use def_native::LAST_NATIVE;
use def_profile::native::{NATIVE_BASE, NATIVE_UNIT, RETURN_ENTRY};
use def_profile::traps::{BOUNDS_CODE, EXECUTE_CODE, PCC_REGISTER, SEAL_CODE, TAG_CODE};
use def_step::{LAST_ROUTINE, Next};

/// The first address past the entries of native routines.
pub(crate) const FIRST_AFTER_NATIVE: u32 = NATIVE_BASE + NATIVE_UNIT * (LAST_NATIVE + 1);

/// The first check of a fetch that fails.
#[tactic(auto, using(ct_perm::proofs::Tests::has_ex))]
#[inline(always)]
pub fn fetch_trap(pcc: Live) -> Option<Trap>
    ensures { result ≡ first_failed (fetch_checks pcc) }
{
    if !pcc.cap.tag {
        return Some(Trap::capability(TAG_CODE, PCC_REGISTER));
    }
    if pcc.seal != 0 {
        return Some(Trap::capability(SEAL_CODE, PCC_REGISTER));
    }
    if !pcc.perms.contains(Perms::EX) {
        return Some(Trap::capability(EXECUTE_CODE, PCC_REGISTER));
    }
    if !pcc.covers(pcc.address(), 4) {
        return Some(Trap::capability(BOUNDS_CODE, PCC_REGISTER));
    }
    None
}

/// Whether an aligned word at an address lies in RAM.
#[inline(always)]
fn is_aligned_in_ram<M: Memory>(mem: &M, ram: u32, at: u32) -> bool
    ensures { result ≡ lies_in ram (M.granules mem.now) at 4 && (at % 4 == 0) }
{
    ram <= at && at as u64 + 4 <= ram as u64 + mem.size() as u64 && at % 4 == 0
}

/// The word at an address, 0 where none can be fetched.
fn fetch<M: Memory>(mem: &M, ram: u32, at: u32) -> u32
    requires { ram % 16 ≡ 0 }
    ensures { result ≡ fetched (space_of ram (M.granules mem.now) no_bank 0) at }
{
    if is_aligned_in_ram(mem, ram, at) {
        return word_there(mem, ram, at);
    }
    0
}

/// Whether a native routine stands at an address.
fn is_native_entry(at: u32) -> bool
    ensures { result ≡ is_native_entry at }
{
    NATIVE_BASE <= at && at < FIRST_AFTER_NATIVE && at % NATIVE_UNIT == 0
}

/// The native routine of a number, where one is carried out.
fn native(number: u32) -> Next
    ensures { result ≡ next_native number }
{
    if number <= LAST_ROUTINE {
        Next::Native { number }
    } else {
        Next::Nothing
    }
}

/// What stands at an address, hidden or not.
///
/// Condition: RAM begins at a multiple of 16.
pub fn next<M: Memory>(mem: &M, ram: u32, at: u32) -> Next
    requires { ram % 16 ≡ 0 }
    ensures is { result ≡ next_at (space_of ram (M.granules mem.now) no_bank 0) at }
    ensures ranged { NextInRange result }
{
    if at == RETURN_ENTRY {
        return Next::Returning;
    }
    if is_native_entry(at) {
        return native((at - NATIVE_BASE) / NATIVE_UNIT);
    }
    match decode(fetch(mem, ram, at)) {
        Some(instruction) => Next::Instruction { instruction },
        None => Next::Nothing,
    }
}

/// The word at an address, a multiple of 4 at which a whole word of RAM stands.
#[inline(always)]
fn word_there<M: Memory>(mem: &M, ram: u32, at: u32) -> u32
    requires even { ram % 16 ≡ 0 }
    requires begin { ram ≤ at }
    requires end { at + 4 ≤ ram + 8 * length (M.granules mem.now) }
    requires whole { at % 4 ≡ 0 }
    ensures { result ≡ fetched (space_of ram (M.granules mem.now) no_bank 0) at }
{
    mem.load(at - ram, 4)
}
