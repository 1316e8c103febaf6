//! The switch.

ghost use Rattle.std.specs.Prelude.{List, ◌≡◌, Some};
ghost use Rattle.def_native.specs.declared.TheConstants as numbers;
ghost use Rattle.def_sched.specs.declared.Status.{Status};
ghost use Rattle.def_step.specs.Routines as routine;
ghost use Rattle.ct_engine.specs.Calls.{MayCall};
ghost use Rattle.ct_services.specs.Serves.{IsServedOf, HoldsRoutine};

use crate::answering::refuse;
use ct_engine::{Called, Engine};
use ct_entry::{Act, Entries};
use ct_execute::{ActBy, Ran};
use ct_mem::Memory;
use def_profile::answers::{NO_STACK, TOO_DEEP};

/// The switch: the running thread goes on in the export whose capability stands in c6.
///
/// Where it has as many frames as it may have, it goes on where c1 leads with -12 in c10; where the callee's
/// stack has too little room, with -11. Where a check fails nothing changes.
pub(crate) fn switch<M: Memory + Drop>(engine: &mut Engine<M>, t: u32, e: &Entries) -> Ran
    requires runs { engine.old.state.running ≡ Some t }
    requires may { MayCall engine.old t e.now }
    ensures { (ss : List Status)
        → IsServedOf (HoldsRoutine engine.old ss t e.now numbers.SWITCH) engine.old ss engine.new ss
        result (λ i m. routine.switch i m t) }
{
    match engine.call(t, e) {
        Called::Entered { entry, export } => Ran::Went {
            done: Some(ActBy {
                act: Act::Call { export },
                entry,
            }),
        },
        Called::TooDeep => refuse(engine, t, TOO_DEEP),
        Called::NoStack => refuse(engine, t, NO_STACK),
        Called::Trapped { trap } => Ran::Trapped { trap },
    }
}
