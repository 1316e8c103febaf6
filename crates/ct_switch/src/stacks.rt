//! The stack that a callee gets.

ghost use Rattle.std.specs.Prelude.{◌≡◌, ◌+◌, ◌*◌, ◌≤◌, ◌<◌, ◌^◌, true};
ghost use Rattle.def_words.specs.Authority.{exponent_of, word_of};
ghost use Rattle.def_words.specs.LeastBounds.{rounded_of};
ghost use Rattle.ct_switch.specs.Calls.{stack_cap, stack_high};

use ct_bounds::least;
use ct_cap::{Bounds, Cap, Live, Perms, Shadow, derive};
use def_profile::bounds::{WIDEST_EXPONENT, WIDEST_FIELD};
use def_profile::rights::{MEMORY_ROOT, STACK_RIGHTS};

/// The high word of a stack, but for the fields of its bounds: its permissions, and no seal.
const STACK_HIGH: u32 = 0x3E00_0000;

/// The exponent of bounds of these fields.
fn exponent_in(fields: u32) -> u32
    requires { fields < 2 ^ 22 }
    ensures { result ≡ exponent_of fields }
{
    let coded = fields >> 18;
    if coded == WIDEST_FIELD {
        WIDEST_EXPONENT
    } else {
        coded
    }
}

/// The word of a stack at its top, by the fields of its bounds.
fn stack_word(fields: u32, high: u32) -> u64
    requires { fields < 2 ^ 22 }
    ensures { result ≡ word_of (stack_high fields) high }
{
    (((STACK_HIGH + fields) as u64) << 32) + high as u64
}

/// A stack whose bounds a word spells, of these fields, from its parts.
#[inline(always)]
fn exact_stack(base: u32, high: u32, fields: u32, from: Shadow) -> Live
    requires order { base ≤ high }
    requires exact { (rounded_of base high).exact ≡ true }
    requires is { fields ≡ (rounded_of base high).fields }
    requires few { fields < 2 ^ 22 }
    ensures { result ≡ stack_cap base high from }
{
    Live {
        cap: Cap {
            tag: true,
            word: stack_word(fields, high),
            shadow: from,
        },
        bounds: Bounds {
            exponent: exponent_in(fields),
            base: base as u64,
            top: high as u64,
        },
        perms: Perms(STACK_RIGHTS as u16),
        seal: 0,
    }
}

/// A register gets a stack, also where no word spells its bounds.
#[tactic(auto, unfolding(def_words::specs::Derive::memory_root))]
#[inline(never)]
fn put_rounded(register: &mut Live, base: u32, high: u32)
    requires { base ≤ high }
    ensures { register.new ≡ stack_cap base high register.old.shadow }
{
    let from = register.cap.shadow;
    *register = derive(MEMORY_ROOT, base, high - base, STACK_RIGHTS, high, 0, from);
}

/// A register gets the stack from its base to a new top, at that top, with the shadow of what the register held.
pub(crate) fn put_stack(register: &mut Live, base: u32, high: u32)
    requires { base ≤ high }
    ensures { register.new ≡ stack_cap base high register.old.shadow }
{
    let bounds = least(base as u64, (high - base) as u64);
    let exact = bounds.exact;
    if exact {
        *register = exact_stack(base, high, bounds.fields, register.cap.shadow);
        return;
    }
    put_rounded(register, base, high);
}
