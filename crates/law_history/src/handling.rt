//! Laws of error handlers: a frame's is entered once.

ghost use Rattle.def_events.specs.Entering.{EntersFresh};
ghost use Rattle.def_machine.specs.Platform.{Platform};
ghost use Rattle.def_machine.specs.State.{State};
ghost use Rattle.def_step.specs.declared.Event.{Event};

/// A trap that enters an error handler is of a frame that isn't handling, so that no frame's handler is entered twice.
pub fn handlers_enter_once()
    ensures { (b : Platform) (s : State) (e : Event) → EntersFresh b s e }
{}
