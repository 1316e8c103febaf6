//! What events count: each counts as one of its kind.

ghost use Rattle.std.specs.Prelude.{◌≡◌, List};
ghost use Rattle.def_machine.specs.State.{State};
ghost use Rattle.def_step.specs.declared.Event.{Event};
ghost use Rattle.def_machine.specs.Platform.{Platform};
ghost use Rattle.def_step.specs.Events.{happens, run};
ghost use Rattle.def_events.specs.Kinds.{all_more, kinds, one_more};

/// An event counts as one of its kind, whatever it does, and the counts of the other kinds stay. So do
/// the events of a list, one after another.
pub fn events_are_counted()
    ensures one { (b : Platform) (s : State) (e : Event)
        → kinds (happens b s e).0.counts ≡ one_more e (kinds s.counts) }
    ensures all { (b : Platform) (s : State) (es : List Event)
        → kinds (run b s es).counts ≡ all_more es (kinds s.counts) }
{}
