//! That calls, frames' ends, error handlers and slices of the revoker over what is seen are the machine's written ones.

ghost use Rattle.std.specs.Prelude.{ℕ, ◌≡◌, List, [], ◌∷◌, None, true, false};
ghost use Rattle.def_memory.specs.Granules.{plain};
ghost use Rattle.def_words.specs.declared.Trap.{Trap};
ghost use Rattle.def_machine.specs.Image.{Image, handler_entry, stack_base, frames_most};
ghost use Rattle.def_machine.specs.State.{State, Frame, Status, nobody, thread};
ghost use Rattle.def_machine.specs.Heap.{swept};
ghost use Rattle.def_machine.specs.Frames.{answer, left_by};
ghost use Rattle.def_step.specs.Switch.{Enters, switch_of, frame_top};
ghost use Rattle.def_step.specs.Handlers.{is_handled};
ghost use Rattle.ct_switch.specs.Exports.{callee_of};
ghost use Rattle.ct_engine.specs.Seen.{EngineRow};
ghost use Rattle.ct_engine.specs.Calls.{HeadStands, switch_at, after_call, returned, ended_with};
ghost use Rattle.ct_engine.specs.Handling.{is_handled_at, after_trap};
ghost use Rattle.ct_engine.specs.Sweeps.{swept_by};
ghost use Rattle.ct_engine.specs.Written.{Shows, written, callee_thread, handler_seen, HasAreas, state_with};

/// Where a state of the machine holds what is seen, a call comes to what the written switch comes to. Where it enters
/// an export, the head of whose table is as boot made it, it leaves what the written one leaves.
pub fn calls_written()
    ensures comes { (i : Image) (m : State) (s : EngineRow) (t : ℕ) → Shows i m s t
        → switch_at s i.entries t
        ≡ switch_of i.entries (stack_base i t) (frame_top (thread m t).frames) (frames_most i t)
        (thread m t) }
    ensures enters { (i : Image) (m : State) (s : EngineRow) (t export high : ℕ)
        → Shows i m s t → HeadStands i s t export
        → after_call s i.entries t (Enters export high)
        ≡ written i m s t high (callee_thread i m t export high) s.state.running }
{}

/// And so do a return and a frame's end with a value, as -1 is at an unwind: where a frame goes on, and where the last
/// one ended.
pub fn ends_written()
    ensures back { (i : Image) (m : State) (s : EngineRow) (t : ℕ) (f g : Frame) (fs : List Frame)
        → Shows i m s t → (thread m t).frames ≡ f ∷ g ∷ fs
        → returned s i.entries t
        ≡ written i m s t f.top
        (left_by i m (thread m t) f (g ∷ fs) (answer i (thread m t) f 10)
        (answer i (thread m t) f 11))
        s.state.running }
    ensures value { (i : Image) (m : State) (s : EngineRow) (t v : ℕ)
        (f g : Frame) (fs : List Frame) → Shows i m s t → (thread m t).frames ≡ f ∷ g ∷ fs
        → ended_with s t v
        ≡ written i m s t f.top (left_by i m (thread m t) f (g ∷ fs) (plain v) (plain 0))
        s.state.running }
    ensures last { (i : Image) (m : State) (s : EngineRow) (t v : ℕ) (f : Frame)
        → Shows i m s t → (thread m t).frames ≡ f ∷ []
        → (returned s i.entries t ≡ written i m s t f.top nobody None)
        × (ended_with s t v ≡ written i m s t f.top nobody None) }
{}

/// A trap enters the error handler of its frame's compartment where the written one does. There it leaves what the
/// written one leaves, where the head of the handler's table is as boot made it and the handler is that compartment's;
/// else nothing changes.
pub fn handlers_written()
    ensures comes { (i : Image) (m : State) (s : EngineRow) (t : ℕ) (f : Frame) (fs : List Frame)
        → Shows i m s t → (thread m t).frames ≡ f ∷ fs
        → is_handled_at s t (handler_entry i f.actor)
        ≡ is_handled i (stack_base i t) (thread m t) f }
    ensures enters { (i : Image) (m : State) (s : EngineRow) (t : ℕ) (why : Trap) (f : Frame)
        (fs : List Frame)
        → Shows i m s t → HeadStands i s t (handler_entry i f.actor)
        → callee_of i.entries (handler_entry i f.actor) ≡ f.actor
        → (thread m t).frames ≡ f ∷ fs
        → is_handled i (stack_base i t) (thread m t) f ≡ true
        → after_trap s i.entries t (handler_entry i f.actor) why
        ≡ handler_seen i m s t why f fs }
    ensures stays { (i : Image) (m : State) (s : EngineRow) (t : ℕ) (why : Trap) (f : Frame)
        (fs : List Frame)
        → Shows i m s t → (thread m t).frames ≡ f ∷ fs
        → is_handled i (stack_base i t) (thread m t) f ≡ false
        → after_trap s i.entries t (handler_entry i f.actor) why ≡ s }
{}

/// A Sweep event leaves of a state of the machine that holds what is seen, whatever the statuses of its threads, what
/// `sweep` at the image's rate leaves of that.
pub fn sweeps_written()
    ensures { (i : Image) (m : State) (s : EngineRow) (statuses : List Status) → HasAreas i s
        → swept i (state_with m s statuses) ≡ state_with m (swept_by s i.sweep) statuses }
{}
