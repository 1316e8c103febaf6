//! Rounds, each a slice of a sweep and a step, one after another up to one that tells something.

ghost use Rattle.std.specs.Prelude.{◌≡◌, ◌+◌, ◌≤◌, ◌<◌, ◌&&◌, ◌||◌, nat_lt, is_some, None, Some, true, false};
ghost use Rattle.def_profile.specs.declared.limits.TheConstants.{MOST_STEPS};
ghost use Rattle.def_events.specs.Guarded.{Guarded};
ghost use Rattle.def_step.specs.Events.{end_of};
ghost use Rattle.ct_machine.specs.Going.{silence};
ghost use Rattle.ct_machine.specs.Onward.{tells, RanOn};
ghost use Rattle.ct_machine.specs.Quiet.{has_sweep};

use crate::parts::Parts;
use ct_entry::Happened;
use ct_mem::Memory;

/// So many rounds, and what the last step told; no step before it told anything.
#[derive(Clone, Copy, Drop)]
pub struct Rounds {
    pub count: u32,
    pub told: Happened,
}

/// What an event tells that tells nothing.
pub(crate) fn silence() -> Happened
    ensures { result ≡ silence }
{
    Happened {
        deed: None,
        off: None,
    }
}

/// So many rounds that told nothing.
fn silent(count: u32) -> Rounds
    ensures count { result.count ≡ count }
    ensures told { result.told ≡ silence }
{
    Rounds {
        count,
        told: silence(),
    }
}

/// Whether a deed is told, or a span with interrupts off.
fn tells(told: &Happened) -> bool
    ensures { result ≡ tells told.now }
{
    told.deed.is_some() || told.off.is_some()
}

impl<M: Memory + Drop> Parts<M> {
    /// One round: what its step tells.
    fn round(&mut self) -> Happened
        requires guarded { Guarded self.old }
        requires steps { self.old.state.counts.steps < MOST_STEPS }
        requires sweeps { self.old.state.counts.sweeps < MOST_STEPS }
        ensures ran { RanOn self.old self.new 1 result × Guarded self.new }
    {
        self.sweep();
        self.step()
    }

    /// Whether the machine has come to its end, after so many rounds, of which there are some.
    fn is_over(&self, made: u32) -> bool
        ensures { result ≡ (nat_lt 0 made && is_some (end_of self.now.state)) }
    {
        made > 0 && self.ended().is_some()
    }

    /// Rounds of the running thread under a sweep, with no tick pending, up to one whose step isn't carried out
    /// quietly, one that ends the sweep, or the last that is asked for.
    fn swept_rounds(&mut self, t: u32, most: u32) -> Rounds
        requires guarded { Guarded self.old }
        requires pending { self.old.state.pending ≡ false }
        requires runs { self.old.state.running ≡ Some t }
        requires some { 1 ≤ most }
        requires steps { self.old.state.counts.steps + most ≤ MOST_STEPS }
        requires sweeps { self.old.state.counts.sweeps + most ≤ MOST_STEPS }
        ensures some { 1 ≤ result.count }
        ensures most { result.count ≤ most }
        ensures ran { RanOn self.old self.new result.count result.told × Guarded self.new }
    {
        let mut window = self.engine.window(t);
        for made in 0..most {
            self.sweep();
            if !self.goes_quietly(t, &mut window) {
                return Rounds {
                    count: made + 1,
                    told: self.step(),
                };
            }
            self.count_step();
            if !self.has_sweep() {
                return silent(made + 1);
            }
        }
        silent(most)
    }

    /// A round where no thread runs, no tick is pending and no sweep has work: a thread is picked, where one is ready.
    /// Where it goes on quietly, more rounds of it, for speed alone: at most `most` in all.
    fn picked_rounds(&mut self, most: u32) -> Rounds
        requires guarded { Guarded self.old }
        requires idle { has_sweep self.old.state ≡ false }
        requires pending { self.old.state.pending ≡ false }
        requires rests { self.old.state.running ≡ None }
        requires some { 1 ≤ most }
        requires steps { self.old.state.counts.steps + most ≤ MOST_STEPS }
        requires sweeps { self.old.state.counts.sweeps + most ≤ MOST_STEPS }
        ensures some { 1 ≤ result.count }
        ensures most { result.count ≤ most }
        ensures ran { RanOn self.old self.new result.count result.told × Guarded self.new }
    {
        self.count_rounds(1);
        self.schedule();
        let made = self.run_picked(most);
        if made > 0 {
            return silent(made);
        }
        let deed = self.go_on();
        let off = self.begun(None);
        Rounds {
            count: 1,
            told: Happened { deed, off },
        }
    }

    /// One round; and where it is one of `picked_rounds`, those that it adds: at most `most` in all. Which it adds is
    /// for speed alone.
    fn next_rounds(&mut self, most: u32) -> Rounds
        requires guarded { Guarded self.old }
        requires some { 1 ≤ most }
        requires steps { self.old.state.counts.steps + most ≤ MOST_STEPS }
        requires sweeps { self.old.state.counts.sweeps + most ≤ MOST_STEPS }
        ensures some { 1 ≤ result.count }
        ensures most { result.count ≤ most }
        ensures ran { RanOn self.old self.new result.count result.told × Guarded self.new }
    {
        if self.is_to_pick() {
            return self.picked_rounds(most);
        }
        Rounds {
            count: 1,
            told: self.round(),
        }
    }

    /// At least one round, and at most `most`: those of `swept_rounds`, where a sweep has work, a thread runs and no
    /// tick is pending. Else those of `run_quietly`; and unless these are `most`, or some that leave the machine at its
    /// end, those of `next_rounds` from there on.
    fn rounds_and_one(&mut self, most: u32) -> Rounds
        requires guarded { Guarded self.old }
        requires some { 1 ≤ most }
        requires steps { self.old.state.counts.steps + most ≤ MOST_STEPS }
        requires sweeps { self.old.state.counts.sweeps + most ≤ MOST_STEPS }
        ensures some { 1 ≤ result.count }
        ensures most { result.count ≤ most }
        ensures ran { RanOn self.old self.new result.count result.told × Guarded self.new }
    {
        if self.has_sweep() {
            if let Some(t) = self.undisturbed() {
                return self.swept_rounds(t, most);
            }
        }
        let count = self.run_quietly(most);
        if count == most {
            return silent(count);
        }
        if self.is_over(count) {
            return silent(count);
        }
        let more = self.next_rounds(most - count);
        Rounds {
            count: count + more.count,
            told: more.told,
        }
    }

    /// Rounds up to one that tells something, one that leaves the machine at its end, or the last that is asked for.
    pub(crate) fn run_on(&mut self, most: u32) -> Rounds
        requires guarded { Guarded self.old }
        requires some { 1 ≤ most }
        requires steps { self.old.state.counts.steps + most ≤ MOST_STEPS }
        requires sweeps { self.old.state.counts.sweeps + most ≤ MOST_STEPS }
        ensures some { 1 ≤ result.count }
        ensures most { result.count ≤ most }
        ensures ran { RanOn self.old self.new result.count result.told × Guarded self.new }
        ensures stops { result.count < most
            → (tells result.told || is_some (end_of self.new.state)) ≡ true }
    {
        let mut count = 0;
        while count < most {
            let more = self.rounds_and_one(most - count);
            count += more.count;
            if tells(&more.told) || self.ended().is_some() {
                return Rounds {
                    count,
                    told: more.told,
                };
            }
        }
        silent(count)
    }
}
