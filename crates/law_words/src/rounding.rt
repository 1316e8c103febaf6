//! What least bounds keep.

ghost use Rattle.std.specs.Prelude.{◌*◌, ◌/◌, ◌%◌, ◌+◌, ◌^◌, ◌<◌, ◌≡◌, ◌≤◌, true, ℕ};
ghost use Rattle.def_profile.specs.declared.bounds.TheConstants.{LAST_EXPONENT, MOST_UNITS};
ghost use Rattle.def_words.specs.Authority.{base_field, base_of, exponent_of, middle, one_if_less, top_field, top_of};
ghost use Rattle.def_words.specs.LeastBounds.{GivesBack, IsLeastExponent, StaysInside, exponent_for, rounded_of, units};

/// Rounded bounds hold the range; the fields of least bounds give them back at their base, at their
/// top and at every address between, under any high bits; and they stay inside whatever bounds of a
/// word the range lay in, lawful or not.
pub fn rounding_holds()
    ensures outwards { (base top : ℕ)
        → ((rounded_of base top).base ≤ base) × (top ≤ (rounded_of base top).top) }
    ensures gives { (base top : ℕ) → base ≤ top → top ≤ 2 ^ 32 → base < 2 ^ 32
        → GivesBack base top }
    ensures stays { (base top : ℕ) → base ≤ top → top ≤ 2 ^ 32 → StaysInside base top }
{}

/// The exponent is the least that serves, and it is the only one; a larger exponent is never taken
/// where a smaller one serves.
pub fn least_exponent()
    ensures is { (base top : ℕ) → IsLeastExponent base top (exponent_for base top) }
    ensures only { (base top e : ℕ) → IsLeastExponent base top e → e ≡ exponent_for base top }
    ensures no_larger { (base top e : ℕ) → e ≤ LAST_EXPONENT → units base top e ≤ MOST_UNITS
        → exponent_for base top ≤ e }
{}

/// A range of at most 511 addresses is spelled exactly.
pub fn exact_where_short()
    ensures base_same { (base length : ℕ) → length ≤ MOST_UNITS
        → (rounded_of base (base + length)).base ≡ base }
    ensures top_same { (base length : ℕ) → length ≤ MOST_UNITS
        → (rounded_of base (base + length)).top ≡ base + length }
    ensures exact { (base length : ℕ) → length ≤ MOST_UNITS
        → (rounded_of base (base + length)).exact ≡ true }
{}

/// The decoded bounds are the address's block of 2^(e+9), moved down by a block where the address's
/// middle is below B, and the base's or top's unit in it; the top is a block higher where T is below B.
/// The base is that modulo 2^32, the top modulo 2^33.
pub fn bounds_are_blocks()
    ensures base { (high a : ℕ)
        → (base_of high a
        + one_if_less (middle a (exponent_of high)) (base_field high) * 2 ^
        (exponent_of high + 9))
        % 2 ^ 32
        ≡ (a / 2 ^ (exponent_of high + 9) * 2 ^ (exponent_of high + 9)
        + base_field high * 2 ^ exponent_of high) % 2 ^ 32 }
    ensures top { (high a : ℕ)
        → (top_of high a
        + one_if_less (middle a (exponent_of high)) (base_field high) * 2 ^
        (exponent_of high + 9))
        % 2 ^ 33
        ≡ ((a / 2 ^ (exponent_of high + 9) + one_if_less (top_field high) (base_field high))
        * 2 ^ (exponent_of high + 9)
        + top_field high * 2 ^ exponent_of high) % 2 ^ 33 }
    ensures base_small { (high a : ℕ) → base_of high a < 2 ^ 32 }
    ensures top_small { (high a : ℕ) → top_of high a < 2 ^ 33 }
{}
