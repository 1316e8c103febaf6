//! Laws of native routines, as they are written: *Clean calls* of the switch and of returns, and that the routines of
//! switcher and heap keep a state confined, with all that stands beside.

ghost use Rattle.std.specs.Prelude.{◌≡◌, ℕ, List, ◌∷◌, Some, None};
ghost use Rattle.ct_entry.specs.declared.acts.Act.TheVariants.{Call};
ghost use Rattle.def_confined.specs.Keeps.{Keeps};
ghost use Rattle.def_confined.specs.Partitioned.{Partitioned};
ghost use Rattle.def_machine.specs.Frames.{ended_with, returned, unwound};
ghost use Rattle.def_machine.specs.Image.{Image};
ghost use Rattle.def_machine.specs.State.{State, Frame, thread};
ghost use Rattle.def_step.specs.Quotas.{allocate, free, remaining};
ghost use Rattle.def_step.specs.Routines.{Leaves, switch, sleep, yield, wait, wake};
ghost use Rattle.def_step.specs.Tokens.{token_key, token_new, token_open, token_free};
ghost use Rattle.def_confined.specs.Facts.{Facts};
ghost use Rattle.def_safety.specs.Clean.{AnswersNumber, CleanEntry, CleanReturn, HandsBack, minus_one};
ghost use Rattle.def_events.specs.Stands.{RoutineKeeps};

/// What each routine comes to stands: a trap is one that may be told; what it leaves is confined, with all
/// that stands beside; and what it did, a call, an allocation or a free, is licensed as a deed of its caller's.
pub fn routines_stand()
    ensures switch { (i : Image) (s : State) (t : ℕ)
        → Partitioned i → Facts i → Keeps i s → s.running ≡ Some t
        → RoutineKeeps i s t (switch i s t) }
    ensures back { (i : Image) (s : State) (t : ℕ)
        → Partitioned i → Keeps i s → s.running ≡ Some t
        → RoutineKeeps i s t (Leaves (returned i s t (thread s t).frames) None) }
    ensures rests { (i : Image) (s : State) (t : ℕ)
        → Partitioned i → Keeps i s → s.running ≡ Some t
        → RoutineKeeps i s t (yield s t) × RoutineKeeps i s t (sleep s t) }
    ensures waits { (i : Image) (s : State) (t : ℕ)
        → Partitioned i → Keeps i s → s.running ≡ Some t → RoutineKeeps i s t (wait i s t) }
    ensures wakes { (i : Image) (s : State) (t : ℕ)
        → Partitioned i → Keeps i s → s.running ≡ Some t → RoutineKeeps i s t (wake i s t) }
    ensures allocate { (i : Image) (s : State) (t : ℕ)
        → Partitioned i → Facts i → Keeps i s → s.running ≡ Some t
        → RoutineKeeps i s t (allocate i s t) }
    ensures free { (i : Image) (s : State) (t : ℕ)
        → Partitioned i → Facts i → Keeps i s → s.running ≡ Some t
        → RoutineKeeps i s t (free i s t) }
    ensures remaining { (i : Image) (s : State) (t : ℕ)
        → Partitioned i → Facts i → Keeps i s → s.running ≡ Some t
        → RoutineKeeps i s t (remaining i s t) }
    ensures seals { (i : Image) (s : State) (t : ℕ)
        → Partitioned i → Facts i → Keeps i s → s.running ≡ Some t
        → RoutineKeeps i s t (token_key i s t) × RoutineKeeps i s t (token_new i s t) }
    ensures opens { (i : Image) (s : State) (t : ℕ)
        → Partitioned i → Keeps i s → s.running ≡ Some t → RoutineKeeps i s t (token_open s t) }
    ensures token_free { (i : Image) (s : State) (t : ℕ)
        → Partitioned i → Facts i → Keeps i s → s.running ≡ Some t
        → RoutineKeeps i s t (token_free i s t) }
{}

/// A call enters its callee clean (`call`). A return of a frame, its end with a value, and an unwind, lead to its
/// caller clean: with what the export lets through (`back`), with the value and 0 (`value`), with -1 and 0 (`unwind`).
pub fn routines_clean()
    ensures call { (i : Image) (s after : State) (t entry export : ℕ)
        → Partitioned i → Facts i → Keeps i s → s.running ≡ Some t
        → switch i s t ≡ Leaves after (Some (entry, Call export))
        → CleanEntry i s t export after }
    ensures back { (i : Image) (s : State) (t : ℕ) (f g : Frame) (gs : List Frame)
        → (thread s t).frames ≡ f ∷ g ∷ gs
        → CleanReturn i s t f (g ∷ gs) (returned i s t (f ∷ g ∷ gs))
        × HandsBack i s t f (returned i s t (f ∷ g ∷ gs)) }
    ensures value { (i : Image) (s : State) (t value : ℕ) (f g : Frame) (gs : List Frame)
        → (thread s t).frames ≡ f ∷ g ∷ gs
        → CleanReturn i s t f (g ∷ gs) (ended_with i s t value (f ∷ g ∷ gs))
        × AnswersNumber (ended_with i s t value (f ∷ g ∷ gs)) t value }
    ensures unwind { (i : Image) (s : State) (t : ℕ) (f g : Frame) (gs : List Frame)
        → (thread s t).frames ≡ f ∷ g ∷ gs
        → CleanReturn i s t f (g ∷ gs) (unwound i s t (f ∷ g ∷ gs))
        × AnswersNumber (unwound i s t (f ∷ g ∷ gs)) t minus_one }
{}
