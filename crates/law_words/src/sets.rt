//! What the six forms keep of a permission set.

ghost use Rattle.std.specs.Prelude.{◌<◌, ◌^◌, ◌≡◌, true, ℕ};
ghost use Rattle.def_words.specs.Permissions.{IsLegal, Within, is_within, normal_set, packed, unpacked};

/// Each six bits spell a legal set, and it is spelled by them again; what a set's six bits spell is
/// its normal. So spelling and reading are inverse on legal sets.
pub fn spelling_holds()
    ensures legal { (bits : ℕ) → bits < 64 → IsLegal (unpacked bits) }
    ensures back { (bits : ℕ) → bits < 64 → packed (unpacked bits) ≡ bits }
    ensures six { (set : ℕ) → set < 2 ^ 12 → packed set < 64 }
    ensures normal { (set : ℕ) → set < 2 ^ 12 → unpacked (packed set) ≡ normal_set set }
    ensures inverse { (set : ℕ) → set < 2 ^ 12 → IsLegal set → unpacked (packed set) ≡ set }
{}

/// A set's normal is legal, so that taking it twice is taking it once, and lies within the set.
pub fn normal_holds()
    ensures legal { (set : ℕ) → set < 2 ^ 12 → IsLegal (normal_set set) }
    ensures within { (set : ℕ) → Within (normal_set set) set }
{}

/// The test of inclusion is inclusion.
pub fn within_holds()
    ensures tells { (a b : ℕ) → is_within a b ≡ true → Within a b }
    ensures told { (a b : ℕ) → Within a b → is_within a b ≡ true }
{}
