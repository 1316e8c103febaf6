//! Bounds: to a length, rounded or exact.

ghost use Rattle.std.specs.Prelude.{◌%◌, ◌&&◌, ◌+◌, ◌/◌, ◌<◌, ◌^◌, ◌≡◌, nat_le};
ghost use Rattle.def_words.specs.Authority.{cap_address, cap_high, word_of};
ghost use Rattle.def_words.specs.Capability.{cap_of, end_at, with_bounds, with_exact_bounds, with_fields};
ghost use Rattle.def_words.specs.LeastBounds.{rounded_of};

use crate::live::Live;
use crate::words;
use crate::words::{address_of, cap_of, high_of, word_of};
use ct_bounds::{Rounded, decode, least};

/// The capability with bounds from its address to a length, rounded outwards where no word spells
/// them.
///
/// The tag stays exactly where the source is tagged and unsealed and the range lies in its bounds.
/// The fields are those of the least bounds, no further than the address space goes.
#[tactic(auto, unfolding(def_words::specs::Capability::with_bounds))]
pub fn set_bounds(l: Live, length: u32) -> Live
    ensures { result ≡ with_bounds l length }
{
    let rounded = rounded(l.cap.word, length);
    let keeps = l.cap.tag & (l.seal == 0) & l.covers(l.address(), length);
    bounded(l, keeps, rounded.fields)
}

/// The same, and the tag goes too where the bounds were rounded.
#[tactic(auto, unfolding(def_words::specs::Capability::with_exact_bounds))]
#[inline(always)]
pub fn set_bounds_exact(l: Live, length: u32) -> Live
    ensures { result ≡ with_exact_bounds l length }
{
    let rounded = rounded(l.cap.word, length);
    let keeps = l.cap.tag & (l.seal == 0) & l.covers(l.address(), length) & rounded.exact;
    bounded(l, keeps, rounded.fields)
}

/// The least bounds from a word's address to a length.
fn rounded(word: u64, length: u32) -> Rounded
    ensures value { result ≡ rounded_of (word % 2 ^ 32) (end_at (word % 2 ^ 32) length) }
    ensures few { result.fields < 2 ^ 22 }
{
    let from = address_of(word) as u64;
    let room = (1 << 32) - from;
    least(from, room.min(length as u64))
}

/// A capability with another tag and these fields E, B and T: its permissions and its seal stay.
#[inline(always)]
fn bounded(l: Live, tag: bool, fields: u32) -> Live
    requires { fields < 2 ^ 22 }
    ensures { result
        ≡ cap_of tag (word_of (with_fields (cap_high l) fields) (cap_address l)) l.shadow }
{
    let high = words::with_fields(high_of(l.cap.word), fields);
    let address = address_of(l.cap.word);
    Live {
        cap: cap_of(tag, word_of(high, address), l.cap.shadow),
        bounds: decode(high, address),
        perms: l.perms,
        seal: l.seal,
    }
}
