//! A capability's address changed where it stands, as the program counter's is with each instruction: where the
//! address stays inside the bounds these are not decoded again.

ghost use Rattle.std.specs.Prelude.{◌≡◌, ◌^◌, ◌&&◌, nat_le};
ghost use Rattle.def_words.specs.Authority.{cap_top};
ghost use Rattle.def_words.specs.Capability.{is_range_inside, raised, with_address};

use crate::{Live, set_address};

/// The greatest top of bounds that don't reach past the last address.
const ADDRESSES_END: u64 = 1 << 32;

/// Whether an address lies in a capability's bounds or at their top, and these don't reach past the last address.
#[inline(always)]
fn stays_inside(l: &Live, address: u32) -> bool
    ensures { result ≡ (is_range_inside l.now address address && nat_le (cap_top l.now) (2 ^ 32)) }
{
    l.bounds.base <= address as u64
        && address as u64 <= l.bounds.top
        && l.bounds.top <= ADDRESSES_END
}

/// The capability at another address, by the address rule, decoded anew.
#[inline(never)]
fn turn_far(l: &mut Live, address: u32)
    ensures { l.new ≡ with_address l.old address }
{
    *l = set_address(*l, address);
}

/// The capability at another address, by the address rule (docs/use/capabilities.md).
#[inline(always)]
pub fn turn(l: &mut Live, address: u32)
    ensures { l.new ≡ with_address l.old address }
{
    if l.cap.tag && l.seal == 0 && stays_inside(l, address) {
        l.cap.word = (l.cap.word >> 32 << 32) + address as u64;
        return;
    }
    turn_far(l, address);
}

/// The capability with its address raised, modulo 2^32, by the address rule.
#[inline(always)]
pub fn raise(l: &mut Live, by: u32)
    ensures { l.new ≡ raised l.old by }
{
    let address = l.address().wrapping_add(by);
    turn(l, address);
}
