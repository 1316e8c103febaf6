//! A capability sealed, opened or untagged where it stands.

ghost use Rattle.std.specs.Prelude.{◌≡◌, ◌<◌, ◌/◌, ◌%◌, ◌^◌, if◌then◌else◌};
ghost use Rattle.def_words.specs.Authority.{word_of};
ghost use Rattle.def_words.specs.Capability.{cap_of, nowhere, untagged, with_seal_field, word_sealed};
ghost use Rattle.def_words.specs.Jumped.{opened};

use crate::live::{Live, type_of};
use ct_perm::{Flags, Perms};
use def_words::Shadow;

/// A word with this seal field.
#[inline(always)]
fn sealed_word(word: u64, field: u32) -> u64
    requires { field < 8 }
    ensures { result ≡ word_of (with_seal_field (word / 2 ^ 32) field) (word % 2 ^ 32) }
{
    (word >> 57 << 57) + ((field as u64) << 54) + word % (1 << 54)
}

/// A shadow with another source; what is untagged comes from nowhere.
#[inline(always)]
fn shadow_from(tag: bool, from: Shadow, source: u32) -> Shadow
    ensures { result ≡ (if tag then record { root = from.root; source = source } else nowhere) }
{
    if tag {
        Shadow {
            root: from.root,
            source,
        }
    } else {
        Shadow { root: 0, source: 0 }
    }
}

/// A capability gets this seal field and this source, where it stands; an untagged one comes from nowhere after it: its
/// shadow is 0. Condition: the field is below 8.
#[inline(always)]
pub fn seal_in_place(l: &mut Live, field: u32, source: u32)
    requires { field < 8 }
    ensures { l.new ≡ cap_of l.old.tag (word_sealed l.old field) (record {
      root = l.old.shadow.root;
      source = source;
    }) }
{
    l.cap.word = sealed_word(l.cap.word, field);
    l.cap.shadow = shadow_from(l.cap.tag, l.cap.shadow, source);
    l.seal = type_of(l.perms.contains(Perms::EX), field);
}

/// A capability becomes what `open` makes of it, where it stands.
#[inline(always)]
pub fn open_in_place(l: &mut Live)
    ensures { l.new ≡ opened l.old }
{
    seal_in_place(l, 0, 0);
}

/// A capability loses its tag, where it stands, and comes from nowhere.
#[tactic(auto, unfolding(def_words::specs::Authority::cap_bounds, def_words::specs::Permissions::cap_perms, def_words::specs::Seals::cap_seal))]
pub fn untag(l: &mut Live)
    ensures { l.new ≡ untagged l.old }
{
    l.cap.tag = false;
    l.cap.shadow = Shadow { root: 0, source: 0 };
}
