//! Counts of events and deeds.

ghost use Rattle.std.specs.Prelude.{◌≡◌, ◌+◌, ◌<◌};
ghost use Rattle.def_profile.specs.declared.limits.TheConstants.{MOST_STEPS};
ghost use Rattle.def_step.specs.Events.{with_deed, with_act};
ghost use Rattle.ct_machine.specs.Parts.{deeds_of};

use ct_entry::{Act, Deed};
use std::marker::Model;

/// Events of each kind and deeds of each kind so far, but allocations.
#[derive(Drop)]
pub(crate) struct Tally {
    pub(crate) steps: u32,
    pub(crate) ticks: u32,
    pub(crate) sweeps: u32,
    pub(crate) inputs: u32,
    pub(crate) calls: u32,
    pub(crate) loads: u32,
    pub(crate) stores: u32,
    pub(crate) frees: u32,
    pub(crate) traps: u32,
}

impl Model for Tally {
    ghost use Rattle.def_machine.specs.State.{Counts};

    ghost Value = { Counts };

    ghost view = { λ t. record {
      steps = t.steps;
      ticks = t.ticks;
      sweeps = t.sweeps;
      inputs = t.inputs;
      calls = t.calls;
      loads = t.loads;
      stores = t.stores;
      frees = t.frees;
      traps = t.traps;
    } };
}

impl Tally {
    /// A slice of a sweep counts.
    pub(crate) fn count_sweep(&mut self)
        requires { self.old.sweeps < MOST_STEPS }
        ensures { self.new ≡ record self.old { sweeps = self.old.sweeps + 1 } }
    {
        self.sweeps += 1;
    }

    /// A deed counts, where there was one.
    pub(crate) fn count_deed(&mut self, deed: Option<Deed>)
        requires { deeds_of self.old < 4294967295 }
        ensures { self.new ≡ with_deed self.old deed }
    {
        match deed {
            Some(done) => self.count_act(done.act),
            None => {}
        }
    }

    /// What was done counts.
    fn count_act(&mut self, act: Act)
        requires { deeds_of self.old < 4294967295 }
        ensures { self.new ≡ with_act self.old act }
    {
        match act {
            Act::Call { .. } => self.calls += 1,
            Act::Load { .. } => self.loads += 1,
            Act::Store { .. } => self.stores += 1,
            Act::Allocate { .. } => {}
            Act::Free { .. } => self.frees += 1,
            Act::Trap { .. } => self.traps += 1,
        }
    }
}
