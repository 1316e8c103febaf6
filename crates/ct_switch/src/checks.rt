//! The first check of a switch that fails.

ghost use Rattle.std.specs.Prelude.{◌≡◌, ◌++◌};
ghost use Rattle.def_step.specs.Checks.{first_failed};
ghost use Rattle.def_step.specs.Switch.{return_checks, gate_checks, stack_checks};

use ct_cap::{Flags, Live, Perms, Trap};
use def_profile::seals::{EXPORT_TYPE, RETURN_DISABLE, RETURN_ENABLE};
use def_profile::traps::{BOUNDS_CODE, SEAL_CODE, STORE_CODE, TAG_CODE};

/// The first check of c1 that fails, in every native routine but the return: it is a return sentry.
#[inline(always)]
pub fn return_trap(c: Live) -> Option<Trap>
    ensures { result ≡ first_failed (return_checks c) }
{
    if !c.cap.tag {
        return Some(Trap::capability(TAG_CODE, 1));
    }
    let between = (RETURN_DISABLE <= c.seal) & (c.seal <= RETURN_ENABLE);
    if !between {
        return Some(Trap::capability(SEAL_CODE, 1));
    }
    None
}

/// The first check of c6 that fails: it is a call import.
fn gate_trap(c: &Live) -> Option<Trap>
    ensures { result ≡ first_failed (gate_checks c.now) }
{
    if !c.cap.tag {
        return Some(Trap::capability(TAG_CODE, 6));
    }
    if c.seal != EXPORT_TYPE {
        return Some(Trap::capability(SEAL_CODE, 6));
    }
    None
}

/// The first check of c2 that fails: it is the thread's stack from its base, at an address up to the frame's top.
#[tactic(auto, using(ct_perm::proofs::Tests::has_sl))]
#[inline(always)]
pub fn stack_trap(base: u32, top: u32, c: Live) -> Option<Trap>
    ensures { result ≡ first_failed (stack_checks base top c) }
{
    if !c.cap.tag {
        return Some(Trap::capability(TAG_CODE, 2));
    }
    if c.seal != 0 {
        return Some(Trap::capability(SEAL_CODE, 2));
    }
    if !c.perms.contains(Perms::SL) {
        return Some(Trap::capability(STORE_CODE, 2));
    }
    let at = c.address();
    let inside = (c.bounds.base == base as u64) & ((base <= at) & (at <= top));
    if !inside {
        return Some(Trap::capability(BOUNDS_CODE, 2));
    }
    None
}

/// The first check of c1, then of c6, then of c2 that fails.
pub fn first_trap(base: u32, top: u32, c1: &Live, c6: &Live, c2: &Live) -> Option<Trap>
    ensures { result ≡ first_failed
        (return_checks c1.now ++ gate_checks c6.now ++ stack_checks base top c2.now) }
{
    if let Some(trap) = return_trap(*c1) {
        return Some(trap);
    }
    if let Some(trap) = gate_trap(c6) {
        return Some(trap);
    }
    stack_trap(base, top, *c2)
}
