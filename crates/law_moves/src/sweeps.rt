//! The law of a sweep's end: where its slice comes to RAM's end, no capability of a painted object is left.

ghost use Rattle.std.specs.Prelude.{ℕ, ◌≡◌, ◌≤◌, Some};
ghost use Rattle.def_machine.specs.Image.{Image};
ghost use Rattle.def_machine.specs.State.{State};
ghost use Rattle.def_machine.specs.Heap.{ram_size, slice_end, sweep_began, with_slice};
ghost use Rattle.def_confined.specs.Keeps.{Keeps};
ghost use Rattle.def_confined.specs.Partitioned.{Partitioned};
ghost use Rattle.def_confined.specs.Facts.{RootsAway};
ghost use Rattle.def_confined.specs.Stale.{IsClean};

/// One Sweep event whose slice comes to RAM's end: before the painted chunks leave, no granule, no frame and no thread
/// that doesn't run holds a capability of one.
pub fn sweeps_end_clean()
    ensures { (i : Image) (s : State) (front : ℕ)
        → Partitioned i → RootsAway i → Keeps i s
        → (sweep_began s s.front).front ≡ Some front → ram_size s ≤ slice_end i s front
        → IsClean (with_slice i (sweep_began s s.front) front (slice_end i s front)) }
{}
