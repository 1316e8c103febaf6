//! What the capability instructions give.
//!
//! `capstep` equals the written results of def_capstep for every capability instruction and all
//! operands; each arm is one operation of ct_cap. docs/use/capabilities.md tells the rules.
#![tactic(auto)]

mod numbers;

ghost use Rattle.std.specs.Prelude.{IsTrue, MatchResult, false, true, ◌||◌, ◌≡◌};
ghost use Rattle.def_profile.specs.declared.traps.TheConstants.{PCC_REGISTER, SYSTEM_REGISTER_CODE};
ghost use Rattle.def_words.specs.Capability.{masked, raised, sealed_by, unsealed_by, with_address, with_bounds, with_exact_bounds};
ghost use Rattle.def_words.specs.Traps.{capability_trap};
ghost use Rattle.def_instr.specs.Shapes.{is_capability, is_system};
ghost use Rattle.def_capstep.specs.Results.{capability_result};

use crate::numbers::{base, high, length, mask, rounded, top, with_high};
use ct_cap::{
    Live, add_address, and_perms, clear_tag, same, seal, set_bounds, set_bounds_exact, subset,
    turn, unseal,
};
use def_instr::Instr;
use def_profile::traps::{PCC_REGISTER, SYSTEM_REGISTER_CODE};
use def_words::Trap;
pub use numbers::upper_offset;

/// The result of a capability instruction in rd, from the capabilities x of rs1 and y of rs2 and the
/// program counter capability.
///
/// `auicgp` has the globals capability as x. An instruction with an immediate doesn't read y. `csr`
/// and `cspecialrw` trap, whatever they name: there are no system registers (cause 28, code 24,
/// register 16). Nothing else traps: a refused operation gives an untagged result.
#[inline(always)]
pub fn capstep(i: Instr, x: Live, y: Live, pcc: Live) -> Result<Live, Trap>
    requires { IsTrue (is_capability i || is_system i) }
    ensures { MatchResult result
        (λ l. (is_system i ≡ false) × (l ≡ capability_result i x y pcc))
        (λ trap. (is_system i ≡ true)
        × (trap ≡ capability_trap SYSTEM_REGISTER_CODE PCC_REGISTER)) }
{
    match i {
        Instr::Csr { .. } | Instr::CSpecialRw { .. } => {
            Err(Trap::capability(SYSTEM_REGISTER_CODE, PCC_REGISTER))
        }
        _ => Ok(derived(i, &x, &y, &pcc)),
    }
}

/// A capability at another address, by the address rule.
#[inline(always)]
fn placed(x: &Live, address: u32) -> Live
    ensures { result ≡ with_address x.now address }
{
    let mut l = *x;
    turn(&mut l, address);
    l
}

/// A capability with its address raised, by the address rule.
#[inline(never)]
fn moved(x: &Live, by: u32) -> Live
    ensures { result ≡ raised x.now by }
{
    add_address(*x, by)
}

/// A capability with its bounds from its address to a length, rounded outwards.
#[inline(never)]
fn bounded(x: &Live, length: u32) -> Live
    ensures { result ≡ with_bounds x.now length }
{
    set_bounds(*x, length)
}

/// The same, untagged where the bounds were rounded.
#[inline(never)]
fn bounded_exactly(x: &Live, length: u32) -> Live
    ensures { result ≡ with_exact_bounds x.now length }
{
    set_bounds_exact(*x, length)
}

/// A capability with no more permissions than a mask's.
#[inline(never)]
fn narrowed(x: &Live, mask: u32) -> Live
    ensures { result ≡ masked x.now mask }
{
    and_perms(*x, mask)
}

/// A capability sealed by a key.
#[inline(never)]
fn sealed(x: &Live, key: &Live) -> Live
    ensures { result ≡ sealed_by x.now key.now }
{
    seal(*x, *key)
}

/// A sealed capability opened by a key.
#[inline(never)]
fn unsealed(x: &Live, key: &Live) -> Live
    ensures { result ≡ unsealed_by x.now key.now }
{
    unseal(*x, *key)
}

/// What `capstep` gives of an instruction that is no access of system registers, from capabilities where they stand.
#[tactic(auto, unfolding(def_capstep::specs::Results::capability_result))]
#[inline(always)]
pub fn derived(i: Instr, x: &Live, y: &Live, pcc: &Live) -> Live
    requires { IsTrue (is_capability i) }
    ensures { result ≡ capability_result i x.now y.now pcc.now }
{
    match i {
        Instr::AuiPcc { immediate, .. } => moved(pcc, upper_offset(immediate)),
        Instr::AuiCgp { immediate, .. } => moved(x, upper_offset(immediate)),
        Instr::CIncAddr { .. } => placed(x, x.address().wrapping_add(y.address())),
        Instr::CIncAddrImm { immediate, .. } => placed(x, x.address().wrapping_add(immediate)),
        Instr::CSetAddr { .. } => placed(x, y.address()),
        Instr::CSetBounds { .. } => bounded(x, y.address()),
        Instr::CSetBoundsImm { immediate, .. } => bounded(x, immediate),
        Instr::CSetBoundsExact { .. } => bounded_exactly(x, y.address()),
        Instr::CAndPerm { .. } => narrowed(x, y.address()),
        Instr::CSeal { .. } => sealed(x, y),
        Instr::CUnseal { .. } => unsealed(x, y),
        Instr::CSetHigh { .. } => with_high(*x, y.address()),
        Instr::CMove { .. } => *x,
        Instr::CClearTag { .. } => clear_tag(*x),
        Instr::CTestSubset { .. } => Live::integer(subset(*y, *x) as u32),
        Instr::CSetEqualExact { .. } => Live::integer(same(*x, *y) as u32),
        Instr::CSub { .. } => Live::integer(x.address().wrapping_sub(y.address())),
        Instr::CGetPerm { .. } => Live::integer(x.perms.0 as u32),
        Instr::CGetType { .. } => Live::integer(x.seal),
        Instr::CGetBase { .. } => Live::integer(base(*x)),
        Instr::CGetTop { .. } => Live::integer(top(*x)),
        Instr::CGetLen { .. } => Live::integer(length(*x)),
        Instr::CGetTag { .. } => Live::integer(x.cap.tag as u32),
        Instr::CGetAddr { .. } => Live::integer(x.address()),
        Instr::CGetHigh { .. } => Live::integer(high(*x)),
        Instr::Crrl { .. } => Live::integer(rounded(*x)),
        Instr::Cram { .. } => Live::integer(mask(*x)),
        _ => unreachable!(),
    }
}
