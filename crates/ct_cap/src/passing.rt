//! What loads, jumps and derivations make of a capability.

ghost use Rattle.std.specs.Prelude.{[], ◌∷◌, ◌++◌, ◌≡◌, bit_and, if◌then◌else◌, ℕ};
ghost use Rattle.def_words.specs.Derive.{derive};
ghost use Rattle.def_words.specs.Jumped.{return_link, opened};
ghost use Rattle.def_words.specs.Loaded.{attenuated};
ghost use Rattle.def_words.specs.Permissions.{global, load_global, load_mutable, removed, store_data};

use crate::bounding::set_bounds_exact;
use crate::counter::{raise, turn};
use crate::live::{Live, made, with_seal};
use crate::rights::{and_perms, narrowed};
use crate::standing::open_in_place;
use crate::words;
use ct_perm::{Flags, Perms};
use def_profile::rights::{ALL_RIGHTS, GL, LG, LM, SD};
use def_profile::seals::{RETURN_DISABLE, RETURN_ENABLE};
use def_words::{Posture, Shadow};

/// A capability loaded through another: it loses its tag where that one lacks MC; unsealed, SD and LM
/// where that one lacks LM, and GL and LG where it lacks LG; sealed, GL alone where it lacks LG.
///
/// The permissions go from every word, tagged or not.
#[tactic(auto, unfolding(def_words::specs::Loaded::attenuated), using(ct_perm::proofs::Tests::each_flag))]
pub fn attenuate(by: Live, l: Live) -> Live
    ensures { result ≡ attenuated by l }
{
    let mask = passed(
        l.seal == 0,
        by.perms.contains(Perms::LM),
        by.perms.contains(Perms::LG),
    );
    let keeps = l.cap.tag & by.perms.contains(Perms::MC);
    narrowed(l, keeps, mask)
}

/// The permissions that a load lets pass.
fn passed(unsealed: bool, mutable: bool, globals: bool) -> u32
    ensures { (set : ℕ) → bit_and set result ≡ removed set (if unsealed
        then (if mutable then [] else store_data ∷ load_mutable ∷ [])
        ++ (if globals then [] else global ∷ load_global ∷ [])
        else (if globals then [] else global ∷ [])) }
{
    if unsealed {
        if mutable {
            if globals {
                ALL_RIGHTS
            } else {
                ALL_RIGHTS - GL - LG
            }
        } else if globals {
            ALL_RIGHTS - SD - LM
        } else {
            ALL_RIGHTS - SD - LM - GL - LG
        }
    } else if globals {
        ALL_RIGHTS
    } else {
        ALL_RIGHTS - GL
    }
}

/// What a jump's target becomes as the program counter capability: unsealed, with its root and no source.
pub fn open(l: Live) -> Live
    ensures { result ≡ opened l }
{
    let mut target = l;
    open_in_place(&mut target);
    target
}

/// A jump's link: the program counter capability after the instruction as a return sentry, of type 4
/// with the posture's source where interrupts were off, else of type 5.
pub fn link(pcc: Live, before: Posture) -> Live
    ensures { result ≡ return_link pcc before }
{
    let mut next = pcc;
    raise(&mut next, 4);
    let field = if before.off {
        RETURN_DISABLE
    } else {
        RETURN_ENABLE
    };
    let source = if before.off { before.source } else { 0 };
    let from = Shadow {
        root: pcc.cap.shadow.root,
        source,
    };
    let tag = next.cap.tag;
    with_seal(next, tag, field, from)
}

/// A capability made from a root's high word: exact bounds, a part of the root's permissions, an
/// address, and a type where that isn't 0.
#[tactic(auto, unfolding(def_words::specs::Derive::derive))]
#[inline(always)]
pub fn derive(
    high: u32,
    base: u32,
    length: u32,
    set: u32,
    address: u32,
    kind: u32,
    from: Shadow,
) -> Live
    ensures { result ≡ derive high base length set address kind from }
{
    let mut root = made(true, words::word_of(high, 0), from);
    turn(&mut root, base);
    let mut placed = and_perms(set_bounds_exact(root, length), set);
    turn(&mut placed, address);
    if kind == 0 {
        placed
    } else {
        let tag = placed.cap.tag;
        let from = placed.cap.shadow;
        with_seal(placed, tag, kind % 8, from)
    }
}
