//! Laws of what is hidden: the trusted region past its first granules, and the heap outside live objects, are zero
//! after any event where they were before. They speak of the written machine alone.

ghost use Rattle.std.specs.Prelude.{◌≡◌, ◌≤◌, ◌<◌, ℕ, false};
ghost use Rattle.def_safety.specs.Wired.{Wired};
ghost use Rattle.def_confined.specs.Keeps.{Keeps};
ghost use Rattle.def_confined.specs.Partitioned.{Partitioned};
ghost use Rattle.def_hidden.specs.Hidden.{Shut, Blank, is_live_at};
ghost use Rattle.def_machine.specs.Image.{Image, address_of};
ghost use Rattle.def_machine.specs.State.{State, granule};
ghost use Rattle.def_memory.specs.Granules.{plain};
ghost use Rattle.def_step.specs.declared.Event.{Event};
ghost use Rattle.def_step.specs.Events.{happens};
ghost use Rattle.def_machine.specs.Platform.{Platform};

/// Every event, lawful or not, leaves what is hidden zero (`event`); so a granule of the heap in no live object is zero
/// (`heap`).
pub fn events_blank()
    ensures event { (b : Platform) (s : State) (e : Event)
        → Partitioned b.image → Wired b → Shut b.image → Keeps b.image s
        → Blank b.image s → Blank b.image (happens b s e).0 }
    ensures heap { (i : Image) (s : State) (k : ℕ)
        → Blank i s → i.heap_base ≤ address_of i k → address_of i k < i.heap_end
        → is_live_at s.objects (address_of i k) ≡ false → (granule s k).cap ≡ plain 0 }
{}
