//! Permission sets: the twelve permissions, and the six forms that a word can spell.
//!
//! The contracts are *Permission sets* of def_words, which speaks of sets and of the first form whose
//! condition holds; the code asks by `contains` and `intersection` of bitflags' `Flags`, and spells by six
//! packed bits. That `contains` of one permission is its bit is said for each of the twelve in proofs/Tests.antt.
//! docs/use/capabilities.md tells the rules.
#![tactic(auto)]

mod forms;
mod spelling;

ghost use Rattle.std.specs.Prelude.{⊤, ◌<◌, ◌≡◌, ◌^◌, ◌↔◌, [], ◌∷◌, codes, IsTrue, bit_and};
ghost use Rattle.def_profile.specs.declared.rights.TheConstants as bits;
ghost use Rattle.def_words.specs.Permissions.{Within, is_within, normal_set, packed, unpacked};

pub use bitflags::Flags;
use bitflags::{Flag, bitflag_items};
use def_profile::rights;

/// A set of permissions: bit p is set where permission p is in it. Bits above the twelve count for
/// nothing but inclusion.
#[derive(Clone, Copy, Debug, PartialEq, Eq)]
pub struct Perms(pub u16);

bitflag_items! {
    impl Perms: u16 {
        const GL = rights::GL as u16;
        const LG = rights::LG as u16;
        const SD = rights::SD as u16;
        const LM = rights::LM as u16;
        const SL = rights::SL as u16;
        const LD = rights::LD as u16;
        const MC = rights::MC as u16;
        const SR = rights::SR as u16;
        const EX = rights::EX as u16;
        const US = rights::US as u16;
        const SE = rights::SE as u16;
        const U0 = rights::U0 as u16;
    }
}

impl Flags for Perms {
    type Bits = u16;

    ghost exact = { ⊤ };

    ghost table = { (codes "GL", bits.GL) ∷ (codes "LG", bits.LG) ∷ (codes "SD", bits.SD)
        ∷ (codes "LM", bits.LM) ∷ (codes "SL", bits.SL) ∷ (codes "LD", bits.LD)
        ∷ (codes "MC", bits.MC) ∷ (codes "SR", bits.SR) ∷ (codes "EX", bits.EX)
        ∷ (codes "US", bits.US) ∷ (codes "SE", bits.SE) ∷ (codes "U0", bits.U0) ∷ [] };

    ghost set_of = { λ p. p.0 };

    fn flags<'a>() -> &'a [Flag<Perms>] {
        Perms::FLAGS
    }

    fn bits(&self) -> u16 {
        self.0
    }

    fn from_bits_retain(bits: u16) -> Perms {
        Perms(bits)
    }
}

impl Perms {
    /// The permissions of the set that a mask has too.
    #[tactic(auto, using(crate::proofs::Masks::mask_low, law_words::proofs::Narrowing::common_small))]
    pub fn masked(self, mask: u32) -> Perms
        ensures value { result.0 ≡ bit_and self.0 mask }
        ensures small { self.0 < 2 ^ 12 → result.0 < 2 ^ 12 }
    {
        self.intersection(Perms::from_bits_retain((mask % (1 << 16)) as u16))
    }

    /// What the first form whose condition holds can spell of the set.
    pub fn normal(self) -> Perms
        ensures value { result.0 ≡ normal_set self.0 }
        ensures small { result.0 < 2 ^ 12 }
    {
        self.intersection(Perms::from_bits_retain(forms::form_of(self).held()))
    }

    /// Whether each permission of the set is in the other.
    pub fn within(self, other: Perms) -> bool
        ensures value { result ≡ is_within self.0 other.0 }
        ensures inclusion { IsTrue result ↔ Within self.0 other.0 }
    {
        other.contains(self)
    }

    /// The six bits that spell the set, or its normal where it isn't normal.
    pub fn pack(self) -> u8
        ensures value { result ≡ packed self.0 }
        ensures six { result < 64 }
    {
        spelling::packed(self)
    }

    /// The set that six bits spell.
    pub fn unpack(bits: u8) -> Perms
        requires { bits < 64 }
        ensures value { result.0 ≡ unpacked bits }
        ensures small { result.0 < 2 ^ 12 }
    {
        spelling::told(bits)
    }
}
