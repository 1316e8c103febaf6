//! Laws of native routines as they are written: that the place of an allocation is the least lawful one, what events
//! count, what is settled after each of them, and what the heap, the sweep and the switch come to in small
//! cases, computed from the definitions.
#![tactic(auto)]

mod counts;
mod settled;

ghost use Rattle.std.specs.Prelude.{◌≡◌, ◌<◌, ℕ, List, [], ◌∷◌, Option, Some, None, true, false};
ghost use Rattle.def_profile.specs.declared.answers.TheConstants.{NO_STACK, TOO_DEEP};
ghost use Rattle.def_words.specs.Capability.{integer};
ghost use Rattle.def_machine.specs.Heap.{Fits, IsPlaceFor, place_of, swept};
ghost use Rattle.def_machine.specs.Image.{Image};
ghost use Rattle.def_machine.specs.State.{Object, granule};
ghost use Rattle.def_step.specs.Quotas.{allocation, Made, Refused};
ghost use Rattle.def_step.specs.Routines.{code};
ghost use Rattle.def_step.specs.Switch.{new_top, room_of};
ghost use Rattle.law_routines.specs.Samples.{board_heap, small_heap, sliced, before, holding, object, freed_object, painted_object};

pub use counts::events_are_counted;
pub use settled::events_settle;

/// The place that an allocation takes is the least lawful one, and where it takes none there is none.
pub fn places_found()
    ensures found { (i : Image) (objects : List Object) (length base : ℕ)
        → 0 < length → place_of i objects length ≡ Some base → IsPlaceFor i objects length base }
    ensures none { (i : Image) (objects : List Object) (length base : ℕ)
        → 0 < length → place_of i objects length ≡ None → Fits i objects length base → ⊥ }
{}

/// Allocations of a heap of 2,736 bytes and a quota of 64, one after the other; and of a heap of 64 bytes whose one
/// object was freed.
pub fn heap_computed()
    ensures first { allocation board_heap (holding [] 1) 1 24 ≡ Made (object 1 0x80000558 24) }
    ensures second { allocation board_heap (holding (object 1 0x80000558 24 ∷ []) 2) 1 24
        ≡ Made (object 2 0x80000578 24) }
    ensures over { allocation board_heap
        (holding (object 1 0x80000558 24 ∷ object 2 0x80000578 24 ∷ []) 3) 1 1
        ≡ Refused 2 }
    ensures third { allocation board_heap
        (holding (freed_object 1 0x80000558 24 ∷ object 2 0x80000578 24 ∷ []) 3) 1 1
        ≡ Made (object 3 0x80000598 8) }
    ensures nothing { allocation board_heap (holding [] 1) 1 0 ≡ Refused 4 }
    ensures whole { allocation small_heap (holding [] 1) 1 40 ≡ Made (object 1 0x80000008 40) }
    ensures quarantined { allocation small_heap (holding (freed_object 1 0x80000008 40 ∷ []) 2) 1
        40
        ≡ Refused 5 }
    ensures full { allocation small_heap (holding (object 1 0x80000008 40 ∷ []) 2) 1 40
        ≡ Refused 3 }
{}

/// A sweep of three granules, one in a slice: the chunk of the first two was freed, and the third holds a
/// capability of it.
pub fn sweep_computed()
    ensures begins { (swept sliced before).objects ≡ painted_object 1 8 8 ∷ [] }
    ensures first { (swept sliced before).front ≡ Some 8 }
    ensures second { (swept sliced (swept sliced before)).front ≡ Some 16 }
    ensures stale { (granule (swept sliced (swept sliced before)) 2).cap.tag ≡ true }
    ensures over { (swept sliced (swept sliced (swept sliced before))).front ≡ None }
    ensures gone { (swept sliced (swept sliced (swept sliced before))).objects ≡ [] }
    ensures untagged { (granule (swept sliced (swept sliced (swept sliced before))) 2).cap.tag
        ≡ false }
    ensures unmarked { (granule (swept sliced (swept sliced (swept sliced before))) 1).mark
        ≡ false }
{}

/// The room that a caller's stack gives, and the codes that a call answers.
pub fn switch_computed()
    ensures whole { room_of 256 ≡ 256 }
    ensures units { room_of 8191 ≡ 8176 }
    ensures twice { room_of 8200 ≡ 8192 }
    ensures most { room_of 32768 ≡ 32768 }
    ensures top { new_top 0x80000200 0x80000305 ≡ 0x80000300 }
    ensures too_deep { code TOO_DEEP ≡ integer 0xFFFFFFF4 }
    ensures no_stack { code NO_STACK ≡ integer 0xFFFFFFF5 }
{}
