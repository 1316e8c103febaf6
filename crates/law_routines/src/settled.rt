//! Laws of settled values: in no state that a machine comes to does an untagged value have a root or a source.

ghost use Rattle.std.specs.Prelude.{List};
ghost use Rattle.def_machine.specs.State.{State};
ghost use Rattle.def_step.specs.declared.Event.{Event};
ghost use Rattle.def_machine.specs.Platform.{Platform};
ghost use Rattle.def_step.specs.Events.{happens, run};
ghost use Rattle.def_confined.specs.Facts.{MadeSettled};
ghost use Rattle.def_confined.specs.Settled.{Settled};

/// What is untagged in RAM, in registers, in program counters and in frames is settled after an event, and after the
/// events of a list, where it was before and where what boot makes for the image's entries is.
pub fn events_settle()
    ensures one { (b : Platform) (s : State) (e : Event)
        → MadeSettled b.image → Settled s → Settled (happens b s e).0 }
    ensures all { (b : Platform) (s : State) (es : List Event)
        → MadeSettled b.image → Settled s → Settled (run b s es) }
{}
