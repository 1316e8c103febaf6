//! The register jump, with sentries and posture.

ghost use Rattle.std.specs.Prelude.{ℕ, ◌≡◌, ◌%◌, ◌/◌, ◌*◌, ◌^◌, Some, Ok, true};
ghost use Rattle.def_words.specs.declared.Cap.{Cap};
ghost use Rattle.def_words.specs.Capability.{with_address};
ghost use Rattle.def_words.specs.Jumped.{opened, return_link};
ghost use Rattle.def_words.specs.Seals.{is_jump_taken, posture_through};
ghost use Rattle.def_step.specs.Checks.{first_failed};
ghost use Rattle.def_step.specs.Jumps.{register_jumped, register_jump_checks, register_target};

use crate::outcome::Flow;
use ct_cap::{Flags, Live, Perms, Posture, Trap, link, open, turn};
use def_profile::seals::{
    RETURN_DISABLE, RETURN_ENABLE, SENTRY_DISABLE, SENTRY_ENABLE, SENTRY_INHERIT,
};
use def_profile::traps::{EXECUTE_CODE, MISALIGNED_FETCH, SEAL_CODE, TAG_CODE};

/// Whether a jump takes a target of this type: `to` gets the link, `at` holds the target.
#[inline(always)]
fn is_jump_taken(to: u32, at: u32, kind: u32) -> bool
    ensures { result ≡ is_jump_taken to at kind }
{
    if kind == 0 {
        return true;
    }
    if to == 0 && at == 1 {
        return RETURN_DISABLE <= kind && kind <= RETURN_ENABLE;
    }
    if to == 1 {
        return SENTRY_INHERIT <= kind && kind <= SENTRY_ENABLE;
    }
    kind == SENTRY_INHERIT
}

/// The posture that a jump or a return through a type leaves: `named` is the export that the target's
/// root entry names, `kept` the target's own source (docs/use/machine.md).
pub fn posture_through(before: Posture, kind: u32, named: u32, kept: u32) -> Posture
    ensures { result ≡ posture_through before kind named kept }
{
    match kind {
        SENTRY_DISABLE => Posture {
            off: true,
            source: named,
        },
        RETURN_DISABLE => Posture {
            off: true,
            source: kept,
        },
        SENTRY_ENABLE | RETURN_ENABLE => Posture {
            off: false,
            source: 0,
        },
        _ => before,
    }
}

/// The target's address: bit 0 of the sum is cleared.
#[inline(always)]
pub(crate) fn target_of(x: Live, immediate: u32) -> u32
    ensures { result ≡ register_target x immediate }
{
    x.address().wrapping_add(immediate) / 2 * 2
}

/// The first check of a register jump that fails.
#[tactic(auto, using(ct_perm::proofs::Tests::has_ex))]
#[inline(always)]
fn first_trap(to: u32, at: u32, x: Live, immediate: u32) -> Option<Trap>
    ensures { result ≡ first_failed (register_jump_checks to at x immediate) }
{
    if !x.cap.tag {
        return Some(Trap::capability(TAG_CODE, at));
    }
    if !(is_jump_taken(to, at, x.seal) && (x.seal == 0 || immediate == 0)) {
        return Some(Trap::capability(SEAL_CODE, at));
    }
    if !x.perms.contains(Perms::EX) {
        return Some(Trap::capability(EXECUTE_CODE, at));
    }
    if target_of(x, immediate) % 4 != 0 {
        return Some(Trap::plain(MISALIGNED_FETCH));
    }
    None
}

/// A jump to the capability x in register `at`, with the link in register `to`.
pub(crate) fn register_jump(
    to: u32,
    at: u32,
    x: Live,
    immediate: u32,
    pcc: Live,
    posture: Posture,
    named: u32,
) -> Result<Flow, Trap>
    ensures { result ≡ register_jumped to at x immediate pcc posture named }
{
    if let Some(trap) = first_trap(to, at, x, immediate) {
        return Err(trap);
    }
    let mut next = open(x);
    turn(&mut next, target_of(x, immediate));
    Ok(Flow {
        link: Some(link(pcc, posture)),
        pcc: next,
        posture: posture_through(posture, x.seal, named, x.cap.shadow.source),
    })
}

/// Where `true`, a jump or a return through a type leaves the posture, whatever export the target's root entry names.
/// `false` says nothing: what isn't known here is left, which costs time alone.
#[inline(always)]
fn keeps_posture(before: Posture, kind: u32, kept: u32) -> bool
    ensures { result ≡ true → (named : ℕ) → posture_through before kind named kept ≡ before }
{
    match kind {
        SENTRY_DISABLE => false,
        RETURN_DISABLE => before.off && before.source == kept,
        SENTRY_ENABLE | RETURN_ENABLE => !before.off && before.source == 0,
        _ => true,
    }
}

/// Where `true`, no check refuses a jump to the capability x in register `at`, with the link in register `to`, and it
/// leaves the posture, whatever export x's root entry names. `false` says nothing: what is left is for speed alone.
#[tactic(auto, using(crate::proofs::Through::goes_through))]
#[inline(always)]
pub fn jumps_on(to: u32, at: u32, x: &Live, immediate: u32, before: Posture) -> bool
    ensures { result ≡ true → (pcc : Cap) (named : ℕ)
        → register_jumped to at x.now immediate pcc before named
        ≡ Ok (record {
          link = Some (return_link pcc before);
          pcc = with_address (opened x.now) (register_target x.now immediate);
          posture = before;
        }) }
{
    first_trap(to, at, *x, immediate).is_none()
        && keeps_posture(before, x.seal, x.cap.shadow.source)
}
