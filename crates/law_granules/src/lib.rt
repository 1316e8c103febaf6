//! Laws of memory with tags, over its definitions alone: what a store leaves, that stores apart
//! commute, that what was stored is loaded, the order of bytes, what clearing and marking are as
//! functions, and that there is one next tagged granule. A caller of any memory may use them,
//! since each of its calls is one of these changes of a list of granules.
#![tactic(auto)]

ghost use Rattle.std.specs.Prelude.{◌≡◌, ◌+◌, ◌*◌, ◌/◌, ◌%◌, ◌^◌, ◌<◌, ◌⊎◌, ℕ, Bool, true, false, List, length};
ghost use Rattle.def_words.specs.declared.Cap.{Cap};
ghost use Rattle.def_memory.specs.declared.Granule.{Granule};
ghost use Rattle.def_memory.specs.Granules.{granule_at};
ghost use Rattle.def_memory.specs.Accesses.{IsAccess, Disjoint, byte_at, part_of, loaded, stored, loaded_cap, stored_cap};
ghost use Rattle.def_memory.specs.Ranges.{IsZeroed, IsMarked, IsNextTagged, NoneTagged, is_tagged, zeroed, mark_range};

/// A plain store clears the tag of the granule that it touches and leaves every other granule and
/// every mark; what it wrote is loaded, what stands elsewhere is loaded as before; stores that
/// share no byte commute.
pub fn plain_stores()
    ensures inside { (gs : List Granule) (at width : ℕ) → IsAccess (8 * length gs) at width
        → at / 8 < length gs }
    ensures untagged { (gs : List Granule) (at width value : ℕ) → at / 8 < length gs
        → is_tagged (stored gs at width value) (at / 8) ≡ false }
    ensures rest { (gs : List Granule) (at width value k : ℕ) → (k ≡ at / 8 → ⊥)
        → granule_at (stored gs at width value) k ≡ granule_at gs k }
    ensures marks { (gs : List Granule) (at width value k : ℕ)
        → (granule_at (stored gs at width value) k).mark ≡ (granule_at gs k).mark }
    ensures back { (gs : List Granule) (at width value : ℕ) → at / 8 < length gs
        → loaded (stored gs at width value) at width ≡ value % 2 ^ (8 * width) }
    ensures elsewhere { (gs : List Granule) (at width value other span : ℕ) → at / 8 < length gs
        → Disjoint at width other span
        → loaded (stored gs at width value) other span ≡ loaded gs other span }
    ensures commute { (gs : List Granule) (at width value other span more : ℕ)
        → at / 8 < length gs → Disjoint at width other span
        → stored (stored gs at width value) other span more
        ≡ stored (stored gs other span more) at width value }
{}

/// A capability that was stored is loaded, its bytes are those of its word, and every other granule and
/// every mark is left; it commutes with every store that shares no byte with it.
pub fn capability_stores()
    ensures back { (gs : List Granule) (at : ℕ) (c : Cap) → at / 8 < length gs
        → loaded_cap (stored_cap gs at c) at ≡ c }
    ensures rest { (gs : List Granule) (at : ℕ) (c : Cap) (k : ℕ) → (k ≡ at / 8 → ⊥)
        → granule_at (stored_cap gs at c) k ≡ granule_at gs k }
    ensures marks { (gs : List Granule) (at : ℕ) (c : Cap) (k : ℕ)
        → (granule_at (stored_cap gs at c) k).mark ≡ (granule_at gs k).mark }
    ensures bytes { (gs : List Granule) (at : ℕ) (c : Cap) (other span : ℕ) → at / 8 < length gs
        → other / 8 ≡ at / 8
        → loaded (stored_cap gs at c) other span ≡ part_of c.word (other % 8) span }
    ensures elsewhere { (gs : List Granule) (at : ℕ) (c : Cap) (other span : ℕ) → at % 8 ≡ 0
        → 0 < span
        → Disjoint at 8 other span → loaded (stored_cap gs at c) other span ≡ loaded gs other span }
    ensures commute { (gs : List Granule) (at : ℕ) (c : Cap) (other : ℕ) (d : Cap) → at % 8 ≡ 0
        → Disjoint at 8 other 8
        → stored_cap (stored_cap gs at c) other d ≡ stored_cap (stored_cap gs other d) at c }
    ensures commute_with_plain { (gs : List Granule) (at : ℕ) (c : Cap) (other span more : ℕ)
        → at % 8 ≡ 0 → 0 < span
        → Disjoint at 8 other span
        → stored (stored_cap gs at c) other span more
        ≡ stored_cap (stored gs other span more) at c }
{}

/// Bytes are little-endian: the first byte is the lowest of what is loaded.
pub fn byte_order()
    ensures two { (gs : List Granule) (at : ℕ) → at % 2 ≡ 0
        → loaded gs at 2 ≡ byte_at gs at + 256 * byte_at gs (at + 1) }
    ensures four { (gs : List Granule) (at : ℕ) → at % 4 ≡ 0
        → loaded gs at 4
        ≡ byte_at gs at + 256 * byte_at gs (at + 1) + 65536 * byte_at gs (at + 2)
        + 16777216 * byte_at gs (at + 3) }
{}

/// What clearing and marking a range must leave is one list; of the next tagged granule there is
/// one, or there is none.
pub fn ranges()
    ensures zeroed { (from to : ℕ) (old new : List Granule) → IsZeroed from to old new
        → new ≡ zeroed from to old }
    ensures zeroes { (from to : ℕ) (old : List Granule)
        → IsZeroed from to old (zeroed from to old) }
    ensures marks { (from to : ℕ) (on : Bool) (old : List Granule)
        → IsMarked from to on old (mark_range from to on old) }
    ensures marked { (from to : ℕ) (on : Bool) (old new : List Granule)
        → IsMarked from to on old new → new ≡ mark_range from to on old }
    ensures one { (gs : List Granule) (from a b : ℕ) → IsNextTagged gs from a
        → IsNextTagged gs from b → a ≡ b }
    ensures none { (gs : List Granule) (from a : ℕ) → IsNextTagged gs from a → NoneTagged gs from
        → ⊥ }
{}
