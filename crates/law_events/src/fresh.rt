//! The law of new objects: in a confined state no capability that isn't empty, anywhere, has an address of an object
//! that is about to be allocated, and where it will be nothing is tagged; so what an allocation hands out is fresh.

ghost use Rattle.std.specs.Prelude.{◌≡◌, ◌+◌, ◌≤◌, ◌<◌, ℕ, Some, false};
ghost use Rattle.ct_entry.specs.declared.acts.Act.TheVariants.{Allocate};
ghost use Rattle.def_machine.specs.Image.{Image, address_of};
ghost use Rattle.def_machine.specs.State.{State, Object, granule, register, thread};
ghost use Rattle.def_machine.specs.Objects.{Each};
ghost use Rattle.def_confined.specs.Confined.{Confined};
ghost use Rattle.def_confined.specs.Keeps.{Keeps};
ghost use Rattle.def_confined.specs.Partitioned.{Partitioned};
ghost use Rattle.def_confined.specs.Changes.{NewObject};
ghost use Rattle.def_confined.specs.Facts.{RootsAway};
ghost use Rattle.def_hidden.specs.Hidden.{Blank};
ghost use Rattle.def_step.specs.Quotas.{allocate};
ghost use Rattle.def_step.specs.Routines.{Leaves};
ghost use Rattle.def_step.specs.Tokens.{token_key, token_new};
ghost use Rattle.def_safety.specs.Fresh.{Misses, SavedMiss, HandsOut, AsMade, AsKey, AsToken};

/// A new object is covered by nothing: no granule's capability, no register's, no program counter, nothing saved, and
/// its granules are untagged (`granules` to `untagged`). So an allocation that tells its deed hands out a fresh object,
/// at the least lawful place: as it is (`objects`), as a key (`keys`) or as a token (`tokens`).
pub fn fresh_objects()
    ensures granules { (i : Image) (s : State) (r : Object) (k : ℕ)
        → Partitioned i → RootsAway i → Confined i s → NewObject i s r
        → Misses r (granule s k).cap }
    ensures registers { (i : Image) (s : State) (r : Object) (t m : ℕ)
        → RootsAway i → Confined i s → NewObject i s r → Misses r (register (thread s t) m) }
    ensures pcc { (i : Image) (s : State) (r : Object) (t : ℕ)
        → RootsAway i → Confined i s → NewObject i s r → Misses r (thread s t).pcc }
    ensures frames { (i : Image) (s : State) (r : Object) (t : ℕ)
        → RootsAway i → Confined i s → NewObject i s r → Each (SavedMiss r) (thread s t).frames }
    ensures untagged { (i : Image) (s : State) (r : Object) (k : ℕ)
        → Partitioned i → Confined i s → NewObject i s r → r.base ≤ address_of i k
        → address_of i k < r.base + r.length → (granule s k).cap.tag ≡ false }
    ensures objects { (i : Image) (s after : State) (t entry number base long live : ℕ)
        → Partitioned i → RootsAway i → Keeps i s → Blank i s
        → allocate i s t ≡ Leaves after (Some (entry, Allocate number base long live))
        → HandsOut i s number base long (AsMade s t after) }
    ensures keys { (i : Image) (s after : State) (t entry number base long live : ℕ)
        → Partitioned i → RootsAway i → Keeps i s → Blank i s
        → token_key i s t ≡ Leaves after (Some (entry, Allocate number base long live))
        → HandsOut i s number base long (AsKey s t after) }
    ensures tokens { (i : Image) (s after : State) (t entry number base long live : ℕ)
        → Partitioned i → RootsAway i → Keeps i s → Blank i s
        → token_new i s t ≡ Leaves after (Some (entry, Allocate number base long live))
        → HandsOut i s number base long (AsToken s t after) }
{}
