//! Laws of placement: the bases that *Placement* gives are the least lawful ones, its regions stand in order and can be
//! spelled by a word, what it takes tells whether they lie in RAM, and a length is rounded to the least exact one.
//! Functions with empty bodies whose contracts are the laws.
#![tactic(auto)]

mod lengths;

ghost use Rattle.std.specs.Prelude.{◌%◌, ◌+◌, ◌<◌, ◌≡◌, ◌≤◌, List, Some, length, slice_get, ℕ};
ghost use Rattle.def_layout.specs.declared.Region.{Region};
ghost use Rattle.def_layout.specs.Placement.{IsLeastBase, last_end, needed, placed, region_base, region_length};
ghost use Rattle.def_layout.specs.Lies.{AreSmall, IsSpelled};

pub use lengths::lengths_round_to_the_least;

/// Each base is the least at or after the end before it at which a region of this size may begin.
pub fn bases_are_least()
    ensures { (end size : ℕ) → IsLeastBase end size (region_base end size) }
{}

/// Each size has its region, of its rounded length; regions stand in order, from the first end to
/// the last.
pub fn regions_in_order()
    ensures each { (end : ℕ) (sizes : List ℕ) → length (placed end sizes) ≡ length sizes }
    ensures sized { (end : ℕ) (sizes : List ℕ) (i size : ℕ) (r : Region)
        → slice_get sizes i ≡ Some size → slice_get (placed end sizes) i ≡ Some r
        → r.length ≡ region_length size }
    ensures low { (end : ℕ) (sizes : List ℕ) (i : ℕ) (r : Region)
        → slice_get (placed end sizes) i ≡ Some r → end ≤ r.base }
    ensures high { (end : ℕ) (sizes : List ℕ) (i : ℕ) (r : Region)
        → slice_get (placed end sizes) i ≡ Some r → r.base + r.length ≤ last_end end sizes }
    ensures apart { (end : ℕ) (sizes : List ℕ) (i j : ℕ) (r q : Region)
        → slice_get (placed end sizes) i ≡ Some r → slice_get (placed end sizes) j ≡ Some q
        → i < j → r.base + r.length ≤ q.base }
{}

/// Where what is needed isn't above RAM's size, each region lies in RAM.
pub fn regions_in_ram()
    ensures { (base size : ℕ) (sizes : List ℕ) (i : ℕ) (r : Region)
        → needed base sizes ≤ size → slice_get (placed base sizes) i ≡ Some r
        → r.base + r.length ≤ base + size }
{}

/// Bounds and lengths are multiples of 16, and a word can spell each region exactly.
pub fn regions_exact()
    ensures regions { (end : ℕ) (sizes : List ℕ) (i : ℕ) (r : Region)
        → AreSmall sizes → slice_get (placed end sizes) i ≡ Some r → IsSpelled r }
    ensures ends { (end : ℕ) (sizes : List ℕ)
        → AreSmall sizes → end % 16 ≡ 0 → last_end end sizes % 16 ≡ 0 }
{}
