//! Lists of members at the front of bytes, by their counts.

ghost use Rattle.std.specs.Prelude.{ℕ, List, Option};
ghost use Rattle.ct_image_fields.specs.Given.{Gives};
ghost use Rattle.ct_image_fields.specs.Reading as spec;

use crate::fault::Cut;
use std::alloc::Global;

/// A member of a list.
pub(crate) trait Member: Drop {
    /// How one is read.
    ghost reads: { List ℕ → Option (Self × List ℕ) };

    /// One at the front of bytes, and the bytes after it.
    fn at(alloc: Global, bytes: &[u8]) -> Result<(Self, &[u8]), Cut>
        ensures { Gives (λ x. (x.0, x.1.now)) result (reads bytes.now) };
}

/// So many members.
pub(crate) fn many_at<T: Member>(
    alloc: Global,
    count: u32,
    bytes: &[u8],
) -> Result<(Vec<T>, &[u8]), Cut>
    ensures { Gives (λ x. (x.0.items, x.1.now)) result (spec.many_at T.reads count bytes.now) }
{
    let mut found = Vec::new(alloc);
    let mut rest = bytes;
    for _ in 0..count {
        let (one, after) = T::at(alloc, rest)?;
        found.push(one)?;
        rest = after;
    }
    Ok((found, rest))
}
