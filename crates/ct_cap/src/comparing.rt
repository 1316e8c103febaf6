//! Comparisons.

ghost use Rattle.std.specs.Prelude.{◌≡◌};
ghost use Rattle.def_words.specs.Capability.{is_same, is_subset};

use crate::live::Live;

/// Whether the tags are equal, and bounds and permissions lie in those of the other.
#[tactic(auto, unfolding(def_words::specs::Capability::is_subset))]
pub fn subset(l: Live, of: Live) -> bool
    ensures { result ≡ is_subset l of }
{
    (l.cap.tag == of.cap.tag)
        & (of.bounds.base <= l.bounds.base)
        & (l.bounds.top <= of.bounds.top)
        & l.perms.within(of.perms)
}

/// Whether tag and word are equal.
pub fn same(l: Live, other: Live) -> bool
    ensures { result ≡ is_same l other }
{
    (l.cap.tag == other.cap.tag) & (l.cap.word == other.cap.word)
}
