//! Seals: keys that seal and open.

ghost use Rattle.std.specs.Prelude.{◌%◌, ◌&&◌, ◌<◌, ◌≡◌, if◌then◌else◌, nat_le, nat_lt};
ghost use Rattle.def_words.specs.Authority.{permission_bits};
ghost use Rattle.def_words.specs.Capability.{sealed_by, unsealed_by};
ghost use Rattle.def_words.specs.Seals.{is_key_type};

use crate::live::{Live, respelled, retagged, with_seal};
use crate::words::{high_of, with_permission_bits, with_seal_field};
use ct_bits::field;
use ct_bounds::Bounds;
use ct_perm::{Flags, Perms};
use def_profile::seals::{EXPORT_TYPE, LAST_KEY_TYPE, RETURN_ENABLE, SENTRY_INHERIT};

/// The capability sealed as the type that the key's address is.
///
/// The tag stays exactly where both are tagged and unsealed, the key seals, and its address lies in
/// its bounds and is a type of the capability's kind: 1 to 5 with EX, 9 to 15 without. Where the
/// address is such a type the seal field becomes it, else the field stays.
#[tactic(auto, unfolding(def_words::specs::Capability::sealed_by), using(ct_perm::proofs::Tests::has_ex, ct_perm::proofs::Tests::has_se))]
pub fn seal(l: Live, key: Live) -> Live
    ensures { result ≡ sealed_by l key }
{
    let kind = key.address();
    let lawful = is_key_type(l.perms.contains(Perms::EX), kind);
    let keeps = l.cap.tag
        & key.cap.tag
        & (l.seal == 0)
        & (key.seal == 0)
        & key.perms.contains(Perms::SE)
        & holds(key.bounds, kind)
        & lawful;
    if lawful {
        let from = l.cap.shadow;
        with_seal(l, keeps, kind % 8, from)
    } else {
        retagged(l, keeps)
    }
}

/// The capability opened by a key.
///
/// The tag stays exactly where the capability is tagged and sealed, the key is tagged and unsealed
/// and unseals, and its address is the capability's type and lies in its bounds. The seal field
/// becomes 0, and GL goes where the key lacks it.
#[tactic(auto, unfolding(def_words::specs::Capability::unsealed_by), using(ct_perm::proofs::Tests::has_us, ct_perm::proofs::Tests::has_gl))]
pub fn unseal(l: Live, key: Live) -> Live
    ensures { result ≡ unsealed_by l key }
{
    let kind = key.address();
    let keeps = l.cap.tag
        & key.cap.tag
        & (l.seal != 0)
        & (key.seal == 0)
        & key.perms.contains(Perms::US)
        & holds(key.bounds, kind)
        & (l.seal == kind);
    let old = high_of(l.cap.word);
    let bits = bits_through(old, key.perms.contains(Perms::GL));
    let high = with_permission_bits(with_seal_field(old, 0), bits);
    let from = l.cap.shadow;
    respelled(l, keeps, high, Perms::unpack(bits), from)
}

/// Whether an address lies in bounds.
fn holds(bounds: Bounds, address: u32) -> bool
    ensures { result ≡ (nat_le bounds.base address && nat_lt address bounds.top) }
{
    (bounds.base <= address as u64) & ((address as u64) < bounds.top)
}

/// Whether a number is a type that keys make of capabilities with EX, or of those without.
fn is_key_type(executes: bool, kind: u32) -> bool
    ensures { result ≡ is_key_type executes kind }
{
    if executes {
        (SENTRY_INHERIT <= kind) & (kind <= RETURN_ENABLE)
    } else {
        (EXPORT_TYPE <= kind) & (kind <= LAST_KEY_TYPE)
    }
}

/// A high word's six permission bits, without GL where it is to go.
fn bits_through(high: u32, keeps_global: bool) -> u8
    ensures value { result
        ≡ (if keeps_global then permission_bits high else permission_bits high % 32) }
    ensures six { result < 64 }
{
    let all = field(high, 25, 6) as u8;
    if keeps_global { all } else { all % 32 }
}
