//! Which bytes may stand in a name of a script and in a word of a policy, and when ranges of an image meet.

ghost use Rattle.std.specs.Prelude.{◌+◌, ◌<◌, ◌≡◌, ◌↔◌, ℕ, true};
ghost use Rattle.def_image.specs.Lying.{overlaps};
ghost use Rattle.def_policy.specs.Rules as policy;
ghost use Rattle.def_script.specs.Script as script;

/// A name of a script is of any bytes but spaces and line feeds, and a word of a policy of such bytes below 128.
pub fn bytes_of_names()
    ensures scripts { (c : ℕ) → (script.is_field_byte c ≡ true) ↔ ((c ≡ 32 → ⊥) × (c ≡ 10 → ⊥)) }
    ensures policies { (c : ℕ)
        → (policy.is_word_byte c ≡ true) ↔ ((c < 128) × (c ≡ 32 → ⊥) × (c ≡ 10 → ⊥)) }
{}

/// Two ranges of an image meet where neither is empty and each begins before the other's end.
pub fn ranges_meet()
    ensures { (a m b n : ℕ)
        → (overlaps a m b n ≡ true) ↔ ((0 < m) × (0 < n) × (a < b + n) × (b < a + m)) }
{}
