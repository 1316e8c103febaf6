//! Where the callee's stack ends.

ghost use Rattle.std.specs.Prelude.{◌≡◌, ◌≤◌, ◌<◌, ◌%◌, ◌+◌, ◌*◌, ◌/◌, ◌^◌};
ghost use Rattle.def_profile.specs.declared.bounds.TheConstants as bounds;
ghost use Rattle.def_step.specs.Switch.{room_exponent, new_top};

use def_profile::bounds::{LAST_EXPONENT, MOST_UNITS};

/// The least exponent of 4 to 14 at which a length has at most 511 units.
fn exponent(length: u32) -> u32
    ensures is { result ≡ room_exponent length }
    ensures low { 4 ≤ result }
    ensures high { result ≤ bounds.LAST_EXPONENT }
{
    for e in 4..LAST_EXPONENT + 1 {
        if length >> e <= MOST_UNITS {
            return e;
        }
    }
    LAST_EXPONENT
}

/// So many bytes in whole units of this exponent.
fn whole(length: u32, exponent: u32) -> u32
    requires { exponent ≤ bounds.LAST_EXPONENT }
    ensures is { result ≡ length / 2 ^ exponent * 2 ^ exponent }
    ensures high { result ≤ length }
    ensures even { 4 ≤ exponent → result % 16 ≡ 0 }
{
    length >> exponent << exponent
}

/// The new top under an address of the caller's stack, of which this is the base: as many whole units as lie between
/// them, so that a capability spells the callee's stack.
pub fn top_below(base: u32, address: u32) -> u32
    requires { base ≤ address }
    ensures is { result ≡ new_top base address }
    ensures low { base ≤ result }
    ensures high { result ≤ address }
    ensures even { base % 16 ≡ 0 → result % 16 ≡ 0 }
{
    let length = address - base;
    base + whole(length, exponent(length))
}
