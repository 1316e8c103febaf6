//! What a jump makes of the program counter capability, where it stands.

ghost use Rattle.std.specs.Prelude.{◌≡◌};
ghost use Rattle.def_words.specs.Capability.{with_address};
ghost use Rattle.def_words.specs.Jumped.{opened, return_link};
ghost use Rattle.def_step.specs.Jumps.{register_target};

use crate::registers::target_of;
use ct_cap::{Live, Posture, open_in_place, raise, seal_in_place, turn};
use def_profile::seals::{RETURN_DISABLE, RETURN_ENABLE};

/// A jump's target becomes what it is as the program counter capability, at the jump's target address.
#[inline(always)]
pub fn go_through(pcc: &mut Live, x: &Live, immediate: u32)
    ensures { pcc.new ≡ with_address (opened x.now) (register_target x.now immediate) }
{
    let target = target_of(*x, immediate);
    *pcc = *x;
    open_in_place(pcc);
    turn(pcc, target);
}

/// The program counter capability of a jump becomes the link that it leaves.
#[inline(always)]
pub fn become_link(pcc: &mut Live, before: Posture)
    ensures { pcc.new ≡ return_link pcc.old before }
{
    raise(pcc, 4);
    if before.off {
        seal_in_place(pcc, RETURN_DISABLE, before.source);
    } else {
        seal_in_place(pcc, RETURN_ENABLE, 0);
    }
}
