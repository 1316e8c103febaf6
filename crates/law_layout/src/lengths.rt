//! What a rounded length is: a function with an empty body, whose contract is the law.

ghost use Rattle.std.specs.Prelude.{ℕ, ◌≤◌, ◌^◌};
ghost use Rattle.def_words.specs.LeastBounds.{round_length_of};
ghost use Rattle.def_layout.specs.Exactness.{IsExactEverywhere};

/// The rounded length is the least at or above a length that a word spells exactly at each multiple
/// of its own alignment inside the 2^32 addresses.
pub fn lengths_round_to_the_least()
    ensures above { (n : ℕ) → n ≤ round_length_of n }
    ensures exact { (n : ℕ) → IsExactEverywhere (round_length_of n) }
    ensures least { (n m : ℕ) → m ≤ 2 ^ 32 → n ≤ m → IsExactEverywhere m → round_length_of n ≤ m }
{}
