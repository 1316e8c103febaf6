//! A capability with what its word decodes to.

ghost use Rattle.std.specs.Prelude.{◌%◌, ◌+◌, ◌<◌, ◌^◌, ◌≡◌, if◌then◌else◌};
ghost use Rattle.def_words.specs.Authority.{cap_address, cap_bounds, cap_high, permission_bits, word_of};
ghost use Rattle.def_words.specs.Capability.{cap_of, integer, is_range_inside, word_sealed};
ghost use Rattle.def_words.specs.Permissions.{cap_perms, unpacked};
ghost use Rattle.def_words.specs.Seals.{cap_seal, seal_type};

use crate::words::{address_of, cap_of, high_of, with_seal_field, word_of};
use ct_bits::field;
use ct_bounds::{Bounds, decode};
use ct_perm::{Flags, Perms};
use def_profile::seals::DATA_TYPES;
use def_words::{Cap, Shadow};
use std::marker::Model;

/// A capability as a register holds it.
///
/// `bounds`, `perms` and `seal` are those that the capability's word decodes to; `seal` is the type,
/// 0 where it is unsealed. Contracts see a `Live` as its `Cap`.
#[derive(Clone, Copy)]
pub struct Live {
    pub cap: Cap,
    pub perms: Perms,
    pub seal: u32,
    pub bounds: Bounds,
}

impl Model for Live {
    ghost use Rattle.std.specs.Prelude.{◌≡◌};
    ghost use Rattle.std.proofs.Common.{ap, sym, ◌∙◌};
    ghost use Rattle.def_words.specs.declared.Cap.{Cap};
    ghost use Rattle.def_words.specs.Authority.{cap_bounds};
    ghost use Rattle.def_words.specs.Permissions.{cap_perms};
    ghost use Rattle.def_words.specs.Seals.{cap_seal};

    ghost Value = { Cap };

    ghost view = { λ l. l.cap };

    ghost invariant = { λ l. (l.bounds ≡ cap_bounds l.cap)
        × (l.perms ≡ record { 0 = cap_perms l.cap })
        × (l.seal ≡ cap_seal l.cap) };

    ghost inverse = { λ c. record {
      cap = c;
      bounds = cap_bounds c;
      perms = record { 0 = cap_perms c };
      seal = cap_seal c;
    } };

    ghost inverse_ok = { λ a h.
        ap (λ b. record {
          cap = a.cap;
          bounds = b;
          perms = record { 0 = cap_perms a.cap };
          seal = cap_seal a.cap;
        }) (sym h.0)
        ∙ ap (λ p. record { cap = a.cap; bounds = a.bounds; perms = p; seal = cap_seal a.cap })
        (sym h.1)
        ∙ ap (λ s. record { cap = a.cap; bounds = a.bounds; perms = a.perms; seal = s })
        (sym h.2) };
}

/// The capability decoded.
#[inline(always)]
pub fn expand(c: Cap) -> Live
    ensures { result ≡ c }
{
    decoded(c)
}

/// The same where it is used, so that what is known of the word needn't be decoded in a run.
#[tactic(auto, unfolding(def_words::specs::Authority::cap_bounds, def_words::specs::Permissions::cap_perms, def_words::specs::Seals::cap_seal), using(ct_perm::proofs::Tests::has_ex))]
#[inline(always)]
fn decoded(c: Cap) -> Live
    ensures { result ≡ c }
{
    let high = high_of(c.word);
    let perms = Perms::unpack(field(high, 25, 6) as u8);
    Live {
        cap: c,
        bounds: decode(high, address_of(c.word)),
        perms,
        seal: type_of(perms.contains(Perms::EX), field(high, 22, 3)),
    }
}

/// The capability alone.
pub fn shrink(l: Live) -> Cap
    ensures { result ≡ l }
{
    l.cap
}

impl Live {
    /// The address.
    pub fn address(self) -> u32
        ensures { result ≡ cap_address self }
    {
        address_of(self.cap.word)
    }

    /// An untagged word, from nowhere.
    pub fn plain(word: u64) -> Live
        ensures { result ≡ integer word }
    {
        made(false, word, Shadow { root: 0, source: 0 })
    }

    /// An integer: untagged, with high word 0. Its bounds are empty, at the block of 512 that it lies
    /// in, and it has no permission.
    #[tactic(auto, unfolding(def_words::specs::Authority::cap_bounds, def_words::specs::Permissions::cap_perms, def_words::specs::Seals::cap_seal))]
    pub fn integer(value: u32) -> Live
        ensures { result ≡ integer value }
    {
        let block = (value / 512 * 512) as u64;
        Live {
            cap: Cap {
                tag: false,
                word: value as u64,
                shadow: Shadow { root: 0, source: 0 },
            },
            bounds: Bounds {
                exponent: 0,
                base: block,
                top: block,
            },
            perms: Perms(0),
            seal: 0,
        }
    }

    /// Whether so many bytes from an address on lie in the bounds, also where there are none.
    pub fn covers(self, from: u32, width: u32) -> bool
        ensures { result ≡ is_range_inside self from (from + width) }
    {
        (self.bounds.base <= from as u64) & (from as u64 + width as u64 <= self.bounds.top)
    }
}

/// The type that a seal field stands for, 0 where it is unsealed.
#[inline(always)]
pub(crate) fn type_of(executes: bool, field: u32) -> u32
    requires { field < 8 }
    ensures { result ≡ seal_type executes field }
{
    if field == 0 {
        0
    } else if executes {
        field
    } else {
        DATA_TYPES + field
    }
}

/// A capability of this tag and word decoded; an untagged one comes from nowhere.
#[inline(always)]
pub(crate) fn made(tag: bool, word: u64, shadow: Shadow) -> Live
    ensures { result ≡ cap_of tag word shadow }
{
    decoded(cap_of(tag, word, shadow))
}

/// The same word with another tag.
pub(crate) fn retagged(l: Live, tag: bool) -> Live
    ensures { result ≡ cap_of tag l.word l.shadow }
{
    Live {
        cap: cap_of(tag, l.cap.word, l.cap.shadow),
        bounds: l.bounds,
        perms: l.perms,
        seal: l.seal,
    }
}

/// A capability of another high word with the same bounds. These are not decoded anew, and its
/// permissions are at hand.
#[tactic(auto, using(ct_perm::proofs::Tests::has_ex))]
#[inline(always)]
pub(crate) fn respelled(l: Live, tag: bool, high: u32, perms: Perms, from: Shadow) -> Live
    requires bounds { high % 2 ^ 22 ≡ cap_high l % 2 ^ 22 }
    requires rights { perms.0 ≡ unpacked (permission_bits high) }
    ensures { result ≡ cap_of tag (word_of high (cap_address l)) from }
{
    let word = word_of(high, address_of(l.cap.word));
    Live {
        cap: cap_of(tag, word, from),
        bounds: l.bounds,
        perms,
        seal: type_of(perms.contains(Perms::EX), field(high, 22, 3)),
    }
}

/// A capability with this seal field: its bounds and permissions stay.
pub(crate) fn with_seal(l: Live, tag: bool, field: u32, from: Shadow) -> Live
    requires { field < 8 }
    ensures { result ≡ cap_of tag (word_sealed l field) from }
{
    let high = with_seal_field(high_of(l.cap.word), field);
    let perms = l.perms;
    respelled(l, tag, high, perms, from)
}
