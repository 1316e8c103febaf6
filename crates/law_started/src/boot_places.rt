//! Laws of what a sound image boots, place by place: what is tagged is the report's, and what the report
//! lists is there; all of it derives from the three root words; and what stands in granules that never
//! change is placed as everywhere else. Functions with empty bodies whose contracts are the laws.

ghost use Rattle.std.specs.Prelude.{◌+◌, ◌<◌, ◌≡◌, ◌↔◌, ◌⊎◌, ◌^◌, true, length, ℕ};
ghost use Rattle.def_boot.specs.Boot.{boot_state, image_of};
ghost use Rattle.def_boot.specs.Fixed.{FixedPlaced};
ghost use Rattle.def_boot.specs.Listed.{ComesFromRoot, IsListed, StandsAtBoot};
ghost use Rattle.def_boot.specs.Places.{HoldsTag, IsBareFrame, Place, cap_at};
ghost use Rattle.def_confined.specs.Confined.{Confined};
ghost use Rattle.def_confined.specs.Facts.{HasCapability};
ghost use Rattle.def_image.specs.Parts.{PartsRow};
ghost use Rattle.def_image.specs.Sound.{Sound};
ghost use Rattle.def_machine.specs.Image.{address_of};
ghost use Rattle.def_machine.specs.Objects.{Each};
ghost use Rattle.def_machine.specs.State.{State, granule, register, thread};
ghost use Rattle.def_words.specs.Authority.{cap_base, cap_top};

/// What is tagged at boot, in a granule, a program counter or a register, is the return sentry, or has
/// just the range and the rights of an entry of the report, whose number is its root (`listed`); no frame
/// saved a tag (`frames`). It derives from one of the three root words (`derived`), and none has their
/// authority, 0 to 2^32 (`narrow`). The other way round: each entry that has a capability of its own, a
/// compartment's code or globals, an import, a stack, and the trusted part with its sentry, has it at
/// boot, with just its range and rights (`stands`).
pub fn boots_listed()
    ensures listed { (p : PartsRow) → Sound p → (x : Place)
        → (cap_at (boot_state p) x).tag ≡ true → IsListed (image_of p) (cap_at (boot_state p) x) }
    ensures frames { (p : PartsRow) (t : ℕ) → Each IsBareFrame (thread (boot_state p) t).frames }
    ensures derived { (p : PartsRow) → Sound p → (x : Place)
        → (cap_at (boot_state p) x).tag ≡ true → ComesFromRoot (cap_at (boot_state p) x) }
    ensures narrow { (p : PartsRow) → Sound p → (x : Place)
        → (cap_at (boot_state p) x).tag ≡ true → cap_base (cap_at (boot_state p) x) ≡ 0
        → cap_top (cap_at (boot_state p) x) ≡ 2 ^ 32 → ⊥ }
    ensures stands { (p : PartsRow) → Sound p → (n : ℕ)
        → HasCapability (image_of p) n → StandsAtBoot p n }
{}

/// A granule is tagged at boot exactly where it is a slot, an export table's head or the first granule of
/// the trusted region; a register exactly where it is c1, c2 or c3 of a thread; and the program counter
/// of each thread is.
pub fn tags_stand()
    ensures granules { (p : PartsRow) → Sound p → (k : ℕ)
        → ((granule (boot_state p) k).cap.tag ≡ true) ↔ HoldsTag p (address_of (image_of p) k) }
    ensures registers { (p : PartsRow) → Sound p → (t n : ℕ)
        → ((register (thread (boot_state p) t) n).tag ≡ true)
        ↔ ((t < length p.threads) × ((n ≡ 1) ⊎ (n ≡ 2) ⊎ (n ≡ 3))) }
    ensures counters { (p : PartsRow) → Sound p → (t : ℕ)
        → ((thread (boot_state p) t).pcc.tag ≡ true) ↔ (t < length p.threads) }
{}

/// In every confined state of a sound image, what stands in granules that never change, in code of
/// compartments and libraries, in export tables and in the first granule of the trusted region, is
/// placed as everywhere else: the owner of its root reaches each domain of the granule, and none is
/// a stack's.
pub fn fixed_placed()
    ensures { (p : PartsRow) (s : State)
        → Sound p → Confined (image_of p) s → FixedPlaced p s }
{}
