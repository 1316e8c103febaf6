//! Laws of error handlers: entering one keeps a state confined, with what stands beside, and a handler begins with
//! its own code, the way back, its stack and its globals alone. They speak of the written machine alone.

ghost use Rattle.std.specs.Prelude.{◌≡◌, ◌∷◌, ◌↔◌, ℕ, List, Some, true};
ghost use Rattle.def_words.specs.declared.Trap.{Trap};
ghost use Rattle.def_machine.specs.Image.{Image, stack_base};
ghost use Rattle.def_machine.specs.State.{State, Frame, thread};
ghost use Rattle.def_confined.specs.Keeps.{Keeps};
ghost use Rattle.def_confined.specs.Partitioned.{Partitioned};
ghost use Rattle.def_step.specs.Handlers.{is_handled, handler_entered};
ghost use Rattle.def_confined.specs.Facts.{Facts};
ghost use Rattle.def_safety.specs.Handlers.{DueHandler, HandlerBegins};

/// A trap enters the error handler of a frame's compartment exactly where one is due (`due`); entering it keeps a state
/// confined, with what stands beside (`keeps`). It begins with its own code, the way back, the stack at the record and
/// its globals; with the trap in c10, c11 and c12, and zero else; the record of the trap lies in the frame's stack, no
/// other granule changed, and each kept its mark (`begins`).
pub fn handlers_begin()
    ensures due { (i : Image) (s : State) (t : ℕ) (f : Frame)
        → (is_handled i (stack_base i t) (thread s t) f ≡ true) ↔ DueHandler i s t f }
    ensures keeps { (i : Image) (s : State) (t : ℕ) (why : Trap) (f : Frame) (fs : List Frame)
        → Partitioned i → Facts i → Keeps i s → s.running ≡ Some t
        → (thread s t).frames ≡ f ∷ fs → is_handled i (stack_base i t) (thread s t) f ≡ true
        → Keeps i (handler_entered i s t why f fs) }
    ensures begins { (i : Image) (s : State) (t : ℕ) (why : Trap) (f : Frame) (fs : List Frame)
        → Partitioned i → Facts i → Keeps i s
        → (thread s t).frames ≡ f ∷ fs → is_handled i (stack_base i t) (thread s t) f ≡ true
        → HandlerBegins i s t why f fs (handler_entered i s t why f fs) }
{}
