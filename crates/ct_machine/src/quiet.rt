//! Steps that tell nothing: one, and many with slices of a sweep that has no work, of a thread or of none.

ghost use Rattle.std.specs.Prelude.{◌≡◌, ◌+◌, ◌-◌, ◌≤◌, ◌&&◌, not, is_none, Some, None, true, false};
ghost use Rattle.def_profile.specs.declared.limits.TheConstants.{MOST_STEPS};
ghost use Rattle.def_events.specs.Guarded.{Guarded};
ghost use Rattle.def_machine.specs.State.{Counts};
ghost use Rattle.def_step.specs.Events.{end_of, run_on};
ghost use Rattle.ct_machine.specs.Going.{MayGoOn};
ghost use Rattle.ct_machine.specs.Parts.{deeds_of};
ghost use Rattle.ct_machine.specs.Quiet.{has_sweep, is_dormant, none_is_ready, undisturbed, with_counts, with_rounds, CarriedOn, GuardsNext, IsThreadWindow, StaysAside, WentRounds};

use crate::parts::Parts;
use ct_mem::Memory;
use ct_threads::Window;

impl<M: Memory + Drop> Parts<M> {
    /// The running thread, where no tick is pending.
    #[inline(always)]
    pub(crate) fn undisturbed(&self) -> Option<u32>
        ensures { result ≡ undisturbed self.now.state }
    {
        if self.pending {
            return None;
        }
        self.engine.running()
    }

    /// The running thread carries on by one instruction: `true` where that is carried out by itself, which tells
    /// nothing, whatever was counted; else `false`, and nothing changes. Which are left is for speed alone.
    #[inline(always)]
    pub(crate) fn goes_quietly(&mut self, t: u32, window: &mut Window) -> bool
        requires may { MayGoOn self.old }
        requires runs { self.old.state.running ≡ Some t }
        requires window { IsThreadWindow self.old t window.old }
        ensures is { result ≡ true → (c : Counts)
            → (with_counts self.new.state c, None)
            ≡ run_on self.old.board (with_counts self.old.state c) }
        ensures same { result ≡ false → self.new.state ≡ self.old.state }
        ensures aside { StaysAside self.old self.new }
        ensures still { end_of self.new.state ≡ None }
        ensures window { IsThreadWindow self.new t window.new }
    {
        self.engine.once(t, &mut self.decoded, window) == 1
    }

    /// Whether a sweep runs, or is to begin.
    #[inline(always)]
    pub(crate) fn has_sweep(&self) -> bool
        ensures { result ≡ has_sweep self.now.state }
    {
        self.engine.has_sweep()
    }

    /// Rounds of the running thread where no sweep has work, as long as a burst goes on, at most `most`: how many. A
    /// quiet step leaves the thread running, no tick pending and no sweep with work, so these are looked at once, and
    /// steps and slices count at the end.
    #[inline(always)]
    fn run_thread_quietly(&mut self, t: u32, most: u32) -> u32
        requires guarded { Guarded self.old }
        requires idle { has_sweep self.old.state ≡ false }
        requires pending { self.old.state.pending ≡ false }
        requires runs { self.old.state.running ≡ Some t }
        requires steps { self.old.state.counts.steps + most ≤ MOST_STEPS }
        requires sweeps { self.old.state.counts.sweeps + most ≤ MOST_STEPS }
        ensures most { result ≤ most }
        ensures went { WentRounds self.old self.new result }
    {
        let mut window = self.engine.window(t);
        let made = self.engine.burst(t, &mut self.decoded, &mut window, most);
        self.count_rounds(made);
        made
    }

    /// The running thread carries on by instructions that tell nothing, of which each but the first is one of a round
    /// where no sweep has work, at most `most`: how many. None where it holds interrupts off, or where no thread runs.
    /// Which are left is for speed alone.
    ///
    /// The step of the first counts before, and what comes before it.
    pub(crate) fn run_picked(&mut self, most: u32) -> u32
        requires may { MayGoOn self.old }
        requires next { GuardsNext self.old }
        requires idle { has_sweep self.old.state ≡ false }
        requires pending { self.old.state.pending ≡ false }
        requires some { 1 ≤ most }
        requires steps { self.old.state.counts.steps + (most - 1) ≤ MOST_STEPS }
        requires sweeps { self.old.state.counts.sweeps + (most - 1) ≤ MOST_STEPS }
        ensures most { result ≤ most }
        ensures carried { 1 ≤ result → CarriedOn self.old self.new result }
        ensures same { result ≡ 0 → self.new.state ≡ self.old.state }
        ensures board { self.new.board ≡ self.old.board }
    {
        if let Some(t) = self.engine.running() {
            if !self.engine.posture(t).off {
                let mut window = self.engine.window(t);
                let carried = self.engine.burst(t, &mut self.decoded, &mut window, most);
                if carried > 0 {
                    self.count_rounds(carried - 1);
                }
                return carried;
            }
        }
        0
    }

    /// Whether no sweep has work, no tick is pending and no thread runs.
    pub(crate) fn is_to_pick(&self) -> bool
        ensures { result ≡ (not (has_sweep self.now.state) && not self.now.state.pending
            && is_none self.now.state.running) }
    {
        !self.has_sweep() && !self.pending && self.engine.running().is_none()
    }

    /// Whether no thread is ready.
    fn none_is_ready(&self) -> bool
        ensures { result ≡ none_is_ready self.now }
    {
        self.sched.none_is_ready()
    }

    /// Whether the machine is dormant: no thread runs and none is ready, but one sleeps.
    fn is_dormant(&self) -> bool
        ensures { result ≡ is_dormant self.now }
    {
        self.engine.running().is_none() && self.ended().is_none() && self.none_is_ready()
    }

    /// So many rounds count.
    pub(crate) fn count_rounds(&mut self, count: u32)
        requires steps { self.old.state.counts.steps + count ≤ MOST_STEPS }
        requires sweeps { self.old.state.counts.sweeps + count ≤ MOST_STEPS }
        ensures state { self.new.state ≡ with_rounds self.old.state count }
        ensures board { self.new.board ≡ self.old.board }
        ensures deeds { deeds_of self.new.state.counts + count ≤ self.new.state.counts.steps }
        ensures made { self.new.state.next + count ≤ self.new.state.counts.steps + 1 }
    {
        self.counts.steps += count;
        self.counts.sweeps += count;
    }

    /// Where the machine is dormant all rounds that are asked for, at once: they only count, and leave it so. Else
    /// none.
    fn run_dormant(&mut self, most: u32) -> u32
        requires guarded { Guarded self.old }
        requires sweep { has_sweep self.old.state ≡ false }
        requires steps { self.old.state.counts.steps + most ≤ MOST_STEPS }
        requires sweeps { self.old.state.counts.sweeps + most ≤ MOST_STEPS }
        ensures most { result ≤ most }
        ensures went { WentRounds self.old self.new result }
    {
        if self.is_dormant() {
            self.count_rounds(most);
            return most;
        }
        0
    }

    /// Rounds where no sweep has work, at most `most`, of a thread as long as they go quietly, or of a dormant machine:
    /// how many.
    pub(crate) fn run_quietly(&mut self, most: u32) -> u32
        requires guarded { Guarded self.old }
        requires steps { self.old.state.counts.steps + most ≤ MOST_STEPS }
        requires sweeps { self.old.state.counts.sweeps + most ≤ MOST_STEPS }
        ensures most { result ≤ most }
        ensures went { WentRounds self.old self.new result }
    {
        if self.has_sweep() {
            return 0;
        }
        match self.undisturbed() {
            Some(t) => self.run_thread_quietly(t, most),
            None => self.run_dormant(most),
        }
    }
}
