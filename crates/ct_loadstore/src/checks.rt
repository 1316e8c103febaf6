//! The first check of a load or store that fails.

ghost use Rattle.std.specs.Prelude.{◌≡◌, ◌<◌, ◌&&◌};
ghost use Rattle.def_step.specs.Checks.{first_failed};
ghost use Rattle.def_step.specs.Accesses.{access_checks, load_checks, store_checks};

use ct_cap::{Flags, Live, Perms, Trap};
use def_profile::traps::{
    BOUNDS_CODE, LOAD_CODE, MISALIGNED_LOAD, MISALIGNED_STORE, SEAL_CODE, STORE_CAPABILITY_CODE,
    STORE_CODE, TAG_CODE,
};
use def_step::Access;

/// The first check of a load through x at an address that fails.
#[tactic(auto, using(ct_perm::proofs::Tests::has_ld))]
fn load_trap(a: Access, x: Live, at: u32) -> Option<Trap>
    requires { 0 < a.width }
    ensures { result ≡ first_failed (load_checks a x at) }
{
    if !x.cap.tag {
        return Some(Trap::capability(TAG_CODE, a.by));
    }
    if x.seal != 0 {
        return Some(Trap::capability(SEAL_CODE, a.by));
    }
    if !x.perms.contains(Perms::LD) {
        return Some(Trap::capability(LOAD_CODE, a.by));
    }
    if !x.covers(at, a.width) {
        return Some(Trap::capability(BOUNDS_CODE, a.by));
    }
    if at % a.width != 0 {
        return Some(Trap::plain(MISALIGNED_LOAD));
    }
    None
}

/// The first check of a store through x at an address that fails; `carries` where a tagged value is
/// stored as a capability.
#[tactic(auto, using(ct_perm::proofs::Tests::has_sd, ct_perm::proofs::Tests::has_mc))]
fn store_trap(a: Access, x: Live, at: u32, carries: bool) -> Option<Trap>
    requires { 0 < a.width }
    ensures { result ≡ first_failed (store_checks a x at carries) }
{
    if !x.cap.tag {
        return Some(Trap::capability(TAG_CODE, a.by));
    }
    if x.seal != 0 {
        return Some(Trap::capability(SEAL_CODE, a.by));
    }
    if !x.perms.contains(Perms::SD) {
        return Some(Trap::capability(STORE_CODE, a.by));
    }
    if carries && !x.perms.contains(Perms::MC) {
        return Some(Trap::capability(STORE_CAPABILITY_CODE, a.by));
    }
    if !x.covers(at, a.width) {
        return Some(Trap::capability(BOUNDS_CODE, a.by));
    }
    if at % a.width != 0 {
        return Some(Trap::plain(MISALIGNED_STORE));
    }
    None
}

/// The first check that fails: of a load through x, or of a store of y through x.
pub(crate) fn first_trap(a: Access, x: Live, y: Live, at: u32) -> Option<Trap>
    requires { 0 < a.width }
    ensures { result ≡ first_failed (access_checks a x y at) }
{
    if a.loads {
        return load_trap(a, x, at);
    }
    store_trap(a, x, at, a.whole && y.cap.tag)
}
