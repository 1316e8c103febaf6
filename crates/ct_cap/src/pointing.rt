//! The address.

ghost use Rattle.std.specs.Prelude.{◌≡◌};
ghost use Rattle.def_words.specs.Capability.{raised, with_address};

use crate::counter::raise;
use crate::live::Live;
use crate::words::{cap_of, high_of, word_of};
use ct_bounds::decode;

/// The capability at another address.
///
/// The tag stays exactly where the capability is tagged and unsealed and its decoded bounds don't
/// change.
pub fn set_address(l: Live, address: u32) -> Live
    ensures { result ≡ with_address l address }
{
    let high = high_of(l.cap.word);
    let bounds = decode(high, address);
    let keeps = l.cap.tag
        & (l.seal == 0)
        & ((bounds.base == l.bounds.base) & (bounds.top == l.bounds.top));
    Live {
        cap: cap_of(keeps, word_of(high, address), l.cap.shadow),
        bounds,
        perms: l.perms,
        seal: l.seal,
    }
}

/// The capability with its address raised, modulo 2^32.
pub fn add_address(l: Live, by: u32) -> Live
    ensures { result ≡ raised l by }
{
    let mut moved = l;
    raise(&mut moved, by);
    moved
}
