//! Permissions, and the tag.

ghost use Rattle.std.specs.Prelude.{◌≡◌, bit_and};
ghost use Rattle.def_words.specs.Capability.{cap_of, masked, untagged, word_with_set};
ghost use Rattle.def_words.specs.Permissions.{cap_perms};

use crate::live::{Live, respelled, retagged};
use crate::words::{high_of, with_permission_bits};

/// The capability with only the permissions that a mask has too, as far as a form spells them.
///
/// The tag stays exactly where the source is tagged and unsealed: a sealed source loses it whatever
/// the mask is. Mask bits above the twelve don't count.
#[tactic(auto, unfolding(def_words::specs::Capability::masked))]
#[inline(always)]
pub fn and_perms(l: Live, mask: u32) -> Live
    ensures { result ≡ masked l mask }
{
    let keeps = l.cap.tag & (l.seal == 0);
    narrowed(l, keeps, mask)
}

/// The same word untagged, from nowhere.
pub fn clear_tag(l: Live) -> Live
    ensures { result ≡ untagged l }
{
    retagged(l, false)
}

/// The capability with another tag and only the permissions that a mask has too, as far as a form
/// spells them. Where none goes the word stays.
#[inline(always)]
pub(crate) fn narrowed(l: Live, tag: bool, mask: u32) -> Live
    ensures { result ≡ cap_of tag (word_with_set l (bit_and (cap_perms l) mask)) l.shadow }
{
    let set = l.perms.masked(mask);
    if set.0 == l.perms.0 {
        retagged(l, tag)
    } else {
        let normal = set.normal();
        let high = with_permission_bits(high_of(l.cap.word), normal.pack());
        let from = l.cap.shadow;
        respelled(l, tag, high, normal, from)
    }
}
