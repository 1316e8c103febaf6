//! What the operations on capabilities keep of their first operand.

ghost use Rattle.std.specs.Prelude.{false, true, ◌+◌, ◌<◌, ◌^◌, ◌≡◌, ℕ, bit_and};
ghost use Rattle.def_words.specs.declared.Cap.{Cap};
ghost use Rattle.def_words.specs.declared.Posture.{Posture};
ghost use Rattle.def_words.specs.declared.Shadow.{Shadow};
ghost use Rattle.def_words.specs.Authority.{cap_bounds, permission_bits};
ghost use Rattle.def_words.specs.Capability.{IsSettled, integer, masked, raised, sealed_by, unsealed_by, untagged, with_address, with_bounds, with_exact_bounds};
ghost use Rattle.def_words.specs.Derive.{derive};
ghost use Rattle.def_words.specs.Jumped.{return_link, opened};
ghost use Rattle.def_words.specs.Loaded.{attenuated};
ghost use Rattle.def_words.specs.Narrows.{IsLink, IsMade, IsOpened, Narrows, Unsealed};
ghost use Rattle.def_words.specs.Permissions.{execute, has, memory_capability, normal_set, unpacked};
ghost use Rattle.def_words.specs.Facts.{MayDerive, IsLoaded, IsSealing, IsUnsealing};

/// A tagged result's authority, rights and shadow are within its first operand's, and it is in order
/// where that is.
pub fn operations_narrow()
    ensures address { (c : Cap) (a : ℕ) → a < 2 ^ 32 → (with_address c a).tag ≡ true
        → Narrows c (with_address c a) }
    ensures raise { (c : Cap) (n : ℕ) → (raised c n).tag ≡ true → Narrows c (raised c n) }
    ensures bounds { (c : Cap) (n : ℕ) → (with_bounds c n).tag ≡ true
        → Narrows c (with_bounds c n) × Unsealed c (with_bounds c n) }
    ensures exact { (c : Cap) (n : ℕ) → (with_exact_bounds c n).tag ≡ true
        → Narrows c (with_exact_bounds c n) × Unsealed c (with_exact_bounds c n) }
    ensures mask { (c : Cap) (n : ℕ) → (masked c n).tag ≡ true
        → Narrows c (masked c n) × Unsealed c (masked c n) }
    ensures seals { (c key : Cap) → (sealed_by c key).tag ≡ true → Narrows c (sealed_by c key) }
    ensures unseals { (c key : Cap) → (unsealed_by c key).tag ≡ true
        → Narrows c (unsealed_by c key) }
    ensures loads { (by c : Cap) → (attenuated by c).tag ≡ true → Narrows c (attenuated by c) }
{}

/// No operation makes a tagged result from an untagged first operand.
pub fn tags_stay_away()
    ensures address { (c : Cap) (a : ℕ) → c.tag ≡ false → (with_address c a).tag ≡ false }
    ensures bounds { (c : Cap) (n : ℕ) → c.tag ≡ false → (with_bounds c n).tag ≡ false }
    ensures exact { (c : Cap) (n : ℕ) → c.tag ≡ false → (with_exact_bounds c n).tag ≡ false }
    ensures mask { (c : Cap) (n : ℕ) → c.tag ≡ false → (masked c n).tag ≡ false }
    ensures seals { (c key : Cap) → c.tag ≡ false → (sealed_by c key).tag ≡ false }
    ensures unseals { (c key : Cap) → c.tag ≡ false → (unsealed_by c key).tag ≡ false }
    ensures loads { (by c : Cap) → c.tag ≡ false → (attenuated by c).tag ≡ false }
{}

/// An untagged result has root and source 0, whatever it came from.
pub fn results_settle()
    ensures address { (c : Cap) (a : ℕ) → IsSettled (with_address c a) }
    ensures raise { (c : Cap) (n : ℕ) → IsSettled (raised c n) }
    ensures bounds { (c : Cap) (n : ℕ) → IsSettled (with_bounds c n) }
    ensures exact { (c : Cap) (n : ℕ) → IsSettled (with_exact_bounds c n) }
    ensures mask { (c : Cap) (n : ℕ) → IsSettled (masked c n) }
    ensures seals { (c key : Cap) → IsSettled (sealed_by c key) }
    ensures unseals { (c key : Cap) → IsSettled (unsealed_by c key) }
    ensures loads { (by c : Cap) → IsSettled (attenuated by c) }
    ensures clears { (c : Cap) → IsSettled (untagged c) }
    ensures opens { (c : Cap) → IsSettled (opened c) }
    ensures links { (pcc : Cap) (before : Posture) → IsSettled (return_link pcc before) }
    ensures integers { (n : ℕ) → IsSettled (integer n) }
    ensures derives { (high base length set address kind : ℕ) (from : Shadow)
        → IsSettled (derive high base length set address kind from) }
{}

/// Setting an address never changes the decoded bounds of a tagged result.
pub fn address_keeps_bounds()
    ensures { (c : Cap) (a : ℕ) → a < 2 ^ 32 → (with_address c a).tag ≡ true
        → cap_bounds (with_address c a) ≡ cap_bounds c }
{}

/// A sealed result needs a key that seals and whose range holds the type; an unsealed one a key that
/// unseals and whose range holds the type that was.
pub fn seals_need_keys()
    ensures seals { (c key : Cap) → (sealed_by c key).tag ≡ true
        → IsSealing c key (sealed_by c key) }
    ensures unseals { (c key : Cap) → (unsealed_by c key).tag ≡ true
        → IsUnsealing c key (unsealed_by c key) }
{}

/// A loaded capability is sealed or unsealed as it was, a sealed one is the same but for GL; a tagged
/// one came through a capability with MC.
pub fn loads_attenuate()
    ensures kind { (by c : Cap) → IsLoaded c (attenuated by c) }
    ensures through { (by c : Cap) → (attenuated by c).tag ≡ true
        → has by memory_capability ≡ true }
{}

/// What a jump makes: the target opened, at its own address or another, and the link.
pub fn jumps_open_and_link()
    ensures opens { (c : Cap) → c.tag ≡ true → IsOpened c (opened c) }
    ensures opens_at { (c : Cap) (a : ℕ) → a < 2 ^ 32 → (with_address (opened c) a).tag ≡ true
        → IsOpened c (with_address (opened c) a) }
    ensures links { (pcc : Cap) (before : Posture) → has pcc execute ≡ true
        → (return_link pcc before).tag ≡ true → IsLink pcc before (return_link pcc before) }
{}

/// Derivation from a root makes exactly the capability that it is asked for, with the shadow given.
pub fn derivation_makes()
    ensures made { (high base length set address kind : ℕ) (from : Shadow)
        → MayDerive high base length set address kind
        → IsMade base (base + length) (normal_set (bit_and (unpacked (permission_bits high)) set))
        address kind (derive high base length set address kind from) }
    ensures shadows { (high base length set address kind : ℕ) (from : Shadow)
        → MayDerive high base length set address kind
        → (derive high base length set address kind from).shadow ≡ from }
{}
