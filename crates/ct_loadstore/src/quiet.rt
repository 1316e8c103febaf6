//! Loads and stores of RAM that no check refuses, on registers where they stand.

ghost use Rattle.std.specs.Prelude.{◌≡◌, ◌+◌, ◌%◌, ◌==◌, ◌&&◌, ◌⊎◌, Some, None, IfSome, is_some, not, length, true, false};
ghost use Rattle.def_words.specs.Capability.{integer, is_range_inside};
ghost use Rattle.def_words.specs.declared.Cap.{Cap};
ghost use Rattle.def_step.specs.Accesses.{access_address, load_checks, store_checks};
ghost use Rattle.def_step.specs.Checks.{first_failed};
ghost use Rattle.ct_loadstore.specs.Shapes.{IsShape};
ghost use Rattle.ct_loadstore.specs.Quiet.{Quiet, is_quiet_load, is_quiet_store};

use crate::memory;
use crate::moving::in_ram;
use ct_cap::{Flags, Live, Perms};
use ct_mem::Memory;
use def_step::Access;

/// The address of an access through x.
#[inline(always)]
pub(crate) fn place(a: &Access, x: &Live) -> u32
    ensures { result ≡ access_address a.now x.now }
{
    x.address().wrapping_add(a.immediate)
}

/// Whether an address is a multiple of an access's width.
#[inline(always)]
fn is_aligned(width: u32, at: u32) -> bool
    requires { (width ≡ 1) ⊎ (width ≡ 2) ⊎ (width ≡ 4) ⊎ (width ≡ 8) }
    ensures { result ≡ (at % width == 0) }
{
    match width {
        1 => true,
        2 => at % 2 == 0,
        4 => at % 4 == 0,
        _ => at % 8 == 0,
    }
}

/// Whether an access at an address lies in x's bounds, and is aligned to its width.
#[inline(always)]
fn fits(a: &Access, x: &Live, at: u32) -> bool
    requires { IsShape a.now }
    ensures { result ≡ (is_range_inside x.now at (at + a.now.width) && at % a.now.width == 0) }
{
    x.covers(at, a.width) && is_aligned(a.width, at)
}

/// Whether each check of a load through x at an address passes.
#[tactic(auto, using(ct_perm::proofs::Tests::has_ld))]
#[inline(always)]
pub(crate) fn may_load(a: &Access, x: &Live, at: u32) -> bool
    requires { IsShape a.now }
    ensures { result ≡ not (is_some (first_failed (load_checks a.now x.now at))) }
{
    x.cap.tag && x.seal == 0 && x.perms.contains(Perms::LD) && fits(a, x, at)
}

/// Whether each check of a store of y through x at an address passes.
#[tactic(auto, using(ct_perm::proofs::Tests::has_sd, ct_perm::proofs::Tests::has_mc))]
#[inline(always)]
fn may_store(a: &Access, x: &Live, y: &Live, at: u32) -> bool
    requires { IsShape a.now }
    ensures { result ≡ not (is_some (first_failed (store_checks a.now x.now at
        (a.now.whole && y.now.tag)))) }
{
    x.cap.tag
        && x.seal == 0
        && x.perms.contains(Perms::SD)
        && (!(a.whole && y.cap.tag) || x.perms.contains(Perms::MC))
        && fits(a, x, at)
}

/// The number that a load through x gives, where its checks pass and it lies in RAM, which begins at `ram`; else
/// `None`.
#[tactic(auto, using(crate::proofs::Unrefused::quiet_number, crate::proofs::Unrefused::none_failed))]
#[inline(always)]
pub fn load_number<M: Memory>(a: &Access, x: &Live, mem: &M, ram: u32) -> Option<u32>
    requires even { ram % 16 ≡ 0 }
    requires shape { IsShape a.now }
    requires loads { a.now.loads ≡ true }
    requires part { a.now.whole ≡ false }
    ensures when { is_some result ≡ is_quiet_load a.now x.now ram (M.granules mem.now) }
    ensures given { IfSome result (λ n. (y : Cap) → Quiet a.now x.now y ram (M.granules mem.now)
        (Some (integer n)) (M.granules mem.now)) }
{
    let at = place(a, x);
    if !may_load(a, x, at) || !in_ram(mem, ram, at, a.width) {
        return None;
    }
    Some(memory::number(*a, at, mem, ram))
}

/// Stores y through x, where the checks pass and it lies in RAM, which begins at `ram`; else `false`, and nothing
/// changes.
#[tactic(auto, using(crate::proofs::Unrefused::quiet_store, crate::proofs::Unrefused::none_failed))]
#[inline(always)]
pub fn store_quietly<M: Memory>(a: &Access, x: &Live, y: &Live, mem: &mut M, ram: u32) -> bool
    requires even { ram % 16 ≡ 0 }
    requires shape { IsShape a.now }
    requires stores { a.now.loads ≡ false }
    ensures when { result ≡ is_quiet_store a.now x.now y.now ram (M.granules mem.old) }
    ensures is { result ≡ true → Quiet a.now x.now y.now ram (M.granules mem.old) None
        (M.granules mem.new) }
    ensures same { result ≡ false → M.granules mem.new ≡ M.granules mem.old }
    ensures size { length (M.granules mem.new) ≡ length (M.granules mem.old) }
{
    let at = place(a, x);
    if !may_store(a, x, y, at) || !in_ram(mem, ram, at, a.width) {
        return false;
    }
    memory::store(*a, *x, *y, at, mem, ram);
    true
}
