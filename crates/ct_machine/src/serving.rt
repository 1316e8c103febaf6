//! Native routines of the running thread.

ghost use Rattle.std.specs.Prelude.{◌≤◌};
ghost use Rattle.def_step.specs.Instructions.{served};
ghost use Rattle.def_step.specs.Native.{native};
ghost use Rattle.ct_threads.specs.Steps.{IsRoutine};
ghost use Rattle.ct_machine.specs.Going.{MayGoOn, Runs, CameTo, IsDone};

use crate::parts::Parts;
use ct_execute::Ran;
use ct_mem::Memory;
use ct_services::serve;

impl<M: Memory + Drop> Parts<M> {
    /// The native routine of a number, which isn't the return's.
    #[inline(never)]
    pub(crate) fn serve(&mut self, t: u32, number: u32) -> Ran
        requires may { MayGoOn self.old }
        requires runs { Runs self.old t }
        requires routine { IsRoutine number }
        requires made { self.old.state.next ≤ self.old.state.counts.steps }
        ensures came { CameTo self.old self.new t result
            (served self.old.board self.old.state t
            (native self.old.board.image self.old.state t number)) }
        ensures done { IsDone result }
    {
        let ram = self.plan.ram();
        let e = self.plan.entries();
        serve(&mut self.engine, &mut self.sched, t, ram, e, number)
    }
}
