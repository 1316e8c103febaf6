//! The law of reuse: a chunk is handed out again only after a whole sweep that began after its free. It speaks of the
//! written machine alone.

ghost use Rattle.std.specs.Prelude.{◌≡◌, List, None};
ghost use Rattle.def_machine.specs.Heap.{sweep_began};
ghost use Rattle.def_machine.specs.Objects.{Any};
ghost use Rattle.def_machine.specs.State.{State, Object};
ghost use Rattle.def_step.specs.declared.Event.{Event};
ghost use Rattle.def_step.specs.declared.Event.TheVariants.{Sweep};
ghost use Rattle.def_step.specs.Events.{happens, run};
ghost use Rattle.def_machine.specs.Platform.{Platform};
ghost use Rattle.def_confined.specs.Changes.{NewObject};
ghost use Rattle.def_confined.specs.Facts.{Facts};
ghost use Rattle.def_confined.specs.Keeps.{Keeps};
ghost use Rattle.def_confined.specs.Partitioned.{Partitioned};
ghost use Rattle.def_hidden.specs.Hidden.{Blank, Shut};
ghost use Rattle.def_safety.specs.Chunks.{SweptBeforeReuse};
ghost use Rattle.def_safety.specs.Reuse.{IsSameObject, Waits, IsPainted, ObjectsMeet, SweepBegins, SweepsWhole};
ghost use Rattle.def_safety.specs.Wired.{Wired};

/// Sweep before reuse. Where a free is told after some events, and after more an allocation whose chunk meets the chunk
/// of the freed object, there was a whole sweep among these, which began after the free: its front passed all of RAM, a
/// slice at a time (`chunks`). There was one too where an object stood among the others that no sweep has painted, as
/// each does when it is freed, and after some events an object may be put where its chunk was (`objects`). An object
/// leaves only at the end of a sweep that has painted it (`leaves`), and is painted only where a sweep begins
/// (`paints`).
pub fn sweep_before_reuse()
    ensures chunks { (b : Platform) (s : State)
        → Partitioned b.image → Facts b.image → Wired b → Shut b.image → Keeps b.image s
        → Blank b.image s → SweptBeforeReuse b s }
    ensures objects { (b : Platform) (s : State) (es : List Event) (r q : Object)
        → Any (Waits r) s.objects → NewObject b.image (run b s es) q → ObjectsMeet q r
        → SweepsWhole b s es }
    ensures leaves { (b : Platform) (s : State) (e : Event) (r : Object)
        → Any (IsSameObject r) s.objects → (Any (IsSameObject r) (happens b s e).0.objects → ⊥)
        → (e ≡ Sweep) × ((happens b s e).0.front ≡ None)
        × Any (IsPainted r) (sweep_began s s.front).objects }
    ensures paints { (b : Platform) (s : State) (e : Event) (r : Object)
        → Any (IsPainted r) (happens b s e).0.objects → (Any (IsPainted r) s.objects → ⊥)
        → SweepBegins s e }
{}
