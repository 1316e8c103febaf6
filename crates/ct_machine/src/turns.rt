//! Turns of threads: one is preempted, one is picked, and a tick interrupts.

ghost use Rattle.std.specs.Prelude.{◌≡◌};
ghost use Rattle.def_confined.specs.Holding.{EndsFit};
ghost use Rattle.def_step.specs.Events.{interrupted, preempted, scheduled};

use crate::parts::Parts;
use ct_mem::Memory;

impl<M: Memory + Drop> Parts<M> {
    /// A thread that runs with interrupts on stops where a tick is pending.
    pub(crate) fn preempt(&mut self)
        ensures state { self.new.state ≡ preempted self.old.state }
        ensures board { self.new.board ≡ self.old.board }
        ensures counts { self.new.state.counts ≡ self.old.state.counts }
        ensures next { self.new.state.next ≡ self.old.state.next }
    {
        if !self.pending {
            return;
        }
        if let Some(t) = self.engine.running() {
            if !self.engine.posture(t).off {
                self.engine.stop(t);
                self.pending = false;
            }
        }
    }

    /// Where none runs, the scheduler picks.
    pub(crate) fn schedule(&mut self)
        requires { EndsFit self.old.state }
        ensures state { self.new.state ≡ scheduled self.old.board self.old.state }
        ensures board { self.new.board ≡ self.old.board }
        ensures counts { self.new.state.counts ≡ self.old.state.counts }
        ensures next { self.new.state.next ≡ self.old.state.next }
    {
        match self.engine.running() {
            Some(_) => {}
            None => match self.sched.pick() {
                Some(t) => self.engine.pick(t),
                None => {}
            },
        }
    }

    /// No thread runs on with interrupts on; where the running one holds them off, the tick is
    /// pending.
    pub(crate) fn interrupt(&mut self)
        ensures state { self.new.state ≡ interrupted self.old.state self.old.state.running }
        ensures board { self.new.board ≡ self.old.board }
    {
        if let Some(t) = self.engine.running() {
            if self.engine.posture(t).off {
                self.pending = true;
            } else {
                self.engine.stop(t);
            }
        }
    }
}
