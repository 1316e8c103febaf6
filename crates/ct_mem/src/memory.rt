//! The trait that everything above stands on.

ghost use Rattle.std.specs.Prelude.{ℕ, ◌≡◌, ◌*◌, ◌/◌, ◌<◌, false, List, length, MatchOption};
ghost use Rattle.def_memory.specs.declared.Granule.{Granule};
ghost use Rattle.def_memory.specs.Granules.{granule_at};
ghost use Rattle.def_memory.specs.Accesses.{IsAccess, IsPlace, loaded, stored, loaded_cap, stored_cap};
ghost use Rattle.def_memory.specs.Ranges.{IsRange, IsZeroed, IsMarked, IsNextTagged, InsideRange, is_tagged};

use def_words::Cap;

/// RAM with a tag, a shadow and a mark for each granule of eight bytes.
///
/// Offsets and sizes count bytes from the start of RAM. No call refuses and none takes memory:
/// what a call asks of its arguments is a condition, and the caller knows it.
pub trait Memory {
    /// The granules, however they are kept.
    ghost granules: { Self → List Granule };

    /// The bytes of RAM, eight for each granule.
    fn size(&self) -> u32
        ensures { result ≡ 8 * length (granules self.now) };

    /// The `width` bytes at an offset as a number, the first byte lowest. The width is 1, 2 or 4.
    fn load(&self, at: u32, width: u32) -> u32
        requires { IsAccess (8 * length (granules self.now)) at width }
        ensures { result ≡ loaded (granules self.now) at width };

    /// Writes the `width` low bytes of a value at an offset, the lowest first, and clears the tag of the granule that
    /// it touches. The width is 1, 2 or 4.
    fn store(&mut self, at: u32, width: u32, value: u32)
        requires { IsAccess (8 * length (granules self.old)) at width }
        ensures { granules self.new ≡ stored (granules self.old) at width value };

    /// The capability of a whole granule, tagged or not.
    fn load_cap(&self, at: u32) -> Cap
        requires { IsPlace (8 * length (granules self.now)) at }
        ensures { result ≡ loaded_cap (granules self.now) at };

    /// Writes a whole granule: word, tag and shadow. The mark stays.
    fn store_cap(&mut self, at: u32, cap: Cap)
        requires { IsPlace (8 * length (granules self.old)) at }
        ensures { granules self.new ≡ stored_cap (granules self.old) at cap };

    /// Clears bytes, tags and shadows of the granules from one offset to another. Marks stay.
    fn zero(&mut self, from: u32, to: u32)
        requires { IsRange (8 * length (granules self.old)) from to }
        ensures { IsZeroed from to (granules self.old) (granules self.new) };

    /// Sets, or clears, the marks of the granules from one offset to another, and nothing else.
    fn mark(&mut self, from: u32, to: u32, on: bool)
        requires { IsRange (8 * length (granules self.old)) from to }
        ensures { IsMarked from to on (granules self.old) (granules self.new) };

    /// Whether the granule of this byte is marked.
    fn marked(&self, at: u32) -> bool
        requires { at < 8 * length (granules self.now) }
        ensures { result ≡ (granule_at (granules self.now) (at / 8)).mark };

    /// The offset of the least tagged granule at or after an offset, `None` exactly where there is
    /// none.
    fn next_tagged(&self, from: u32) -> Option<u32>
        ensures { MatchOption result
            ((k : ℕ) → InsideRange from (8 * length (granules self.now)) k
            → is_tagged (granules self.now) k ≡ false)
            (λ at. IsNextTagged (granules self.now) from at) }
    {
        self.next_tagged_below(from, self.size())
    }

    /// The same below another offset. What this takes goes by how far the two lie apart.
    fn next_tagged_below(&self, from: u32, to: u32) -> Option<u32>
        ensures { MatchOption result
            ((k : ℕ) → InsideRange from to k → is_tagged (granules self.now) k ≡ false)
            (λ at. IsNextTagged (granules self.now) from at × (at < to)) };
}
