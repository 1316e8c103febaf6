//! The answers to the smallest image's bytes, altered: computed laws by the definition of a fault.
//! Functions with empty bodies whose contracts are the laws.
#![tactic(auto)]

ghost use Rattle.std.specs.Prelude.{ℕ, ◌≡◌, ◌<◌, ◌≤◌, ◌++◌, [], ◌∷◌, take};
ghost use Rattle.def_image.specs.Accepted.{FaultAt};
ghost use Rattle.law_answers.specs.Altered.{bytes_of_tiny, altered, numbered, bytes_of_later, numbered_later};

/// Bytes cut short, a byte appended, another first byte, and another version; numbers outside their limits; regions
/// that lie where they may not; slots and threads that name what isn't there; rights that aren't those of the kind. And
/// the same image in version 2, altered.
pub fn answers_to_tiny()
    ensures short { (n : ℕ) → n < 8 → FaultAt (take n bytes_of_tiny) 1 0 }
    ensures cut { (n : ℕ) → 8 ≤ n → n < 412 → FaultAt (take n bytes_of_tiny) 2 n }
    ensures appended { (b : ℕ) → FaultAt (bytes_of_tiny ++ b ∷ []) 2 413 }
    ensures begins { (b : ℕ) → (b ≡ 67 → ⊥) → FaultAt (altered 0 (b ∷ [])) 1 0 }
    ensures version { FaultAt (altered 4 (9 ∷ [])) 1 0 }
    ensures quantum { FaultAt (numbered 32 0) 3 32 }
    ensures offset { FaultAt (numbered 288 20) 3 288 }
    ensures entry { FaultAt (numbered 300 4) 3 300 }
    ensures heap { FaultAt (numbered 48 0x80000280) 4 48 }
    ensures globals { FaultAt (numbered 172 0x80000030) 4 172 }
    ensures service { FaultAt (numbered 196 2) 5 192 }
    ensures device { FaultAt (numbered 244 1) 5 240 }
    ensures compartment { FaultAt (numbered 396 1) 5 396 }
    ensures export { FaultAt (numbered 400 1) 5 396 }
    ensures right { FaultAt (altered 241 (40 ∷ [])) 6 240 }
    ensures later_rate { FaultAt (numbered_later 52 0) 3 52 }
    ensures later_globals { FaultAt (numbered_later 176 0x80000030) 4 176 }
{}
