//! What a machine consists of.

ghost use Rattle.std.specs.Prelude.{◌≡◌, ◌<◌, ◌^◌, length};
ghost use Rattle.def_sched.specs.Statuses.{is_ended};
ghost use Rattle.std.specs.List.{list_all};
ghost use Rattle.def_step.specs.Events.{is_lawful, end_of, totals_of, holder, is_holder, begun_since};

use crate::plan::Plan;
use crate::tally::Tally;
use ct_bus::Bus;
use ct_decode::Decoded;
use ct_engine::Engine;
use ct_entry::{End, Owned, Totals};
use ct_mem::Memory;
use ct_sched::{Sched, Status};
use def_profile::limits::MOST_STEPS;
use def_step::Event;
use std::marker::Model;

/// What a machine consists of. Its type keeps places, priorities and counts.
///
/// Contracts see it as its board, which never changes, and its state. The words of code that are kept decoded are for
/// speed alone, and no contract sees them.
#[derive(Drop)]
pub(crate) struct Parts<M: Memory + Drop> {
    pub(crate) plan: Plan,
    pub(crate) engine: Engine<M>,
    pub(crate) bus: Bus,
    pub(crate) sched: Sched,
    pub(crate) pending: bool,
    pub(crate) time: u64,
    pub(crate) counts: Tally,
    pub(crate) decoded: Decoded,
}

impl<M: Memory + Drop> Model for Parts<M> {
    ghost use Rattle.def_machine.specs.Platform.{MachineRow};
    ghost use Rattle.ct_machine.specs.Parts.{state_by, IsKept, IsCounted};

    ghost Value = { MachineRow };

    ghost view = { λ m. record {
      board = record { image = m.plan; bases = m.bus.bases };
      state = state_by m.engine m.sched m.pending m.bus.states m.time m.counts;
    } };

    ghost invariant = { λ m. IsKept m.plan m.engine m.sched
        × IsCounted m.counts m.time m.engine.state.next };
}

impl<M: Memory + Drop> Parts<M> {
    /// Whether an event may come now: fewer than 4,000,000,000 of its kind have come, and an input
    /// names a device.
    pub(crate) fn lawful(&self, event: Event) -> bool
        ensures { result ≡ is_lawful self.now.state event }
    {
        match event {
            Event::Step => self.counts.steps < MOST_STEPS,
            Event::Tick => self.counts.ticks < MOST_STEPS,
            Event::Sweep => self.counts.sweeps < MOST_STEPS,
            Event::Input { device, .. } => self.counts.inputs < MOST_STEPS
                && (device as usize) < self.bus.count(),
        }
    }

    /// `Finished` exactly where every thread has ended, `Idle` exactly where one waits and none is
    /// ready or sleeping, else `None`.
    pub(crate) fn ended(&self) -> Option<End>
        ensures { result ≡ end_of self.now.state }
    {
        if self.sched.going() > 0 {
            return None;
        }
        if are_over(&self.sched, self.engine.count()) {
            return Some(End::Finished);
        }
        Some(End::Idle)
    }

    /// The counts of the run so far, which ended so.
    pub(crate) fn totals(&self, end: End) -> Totals
        ensures { result ≡ totals_of self.now.state end }
    {
        Totals {
            end,
            steps: self.counts.steps,
            ticks: self.counts.ticks,
            calls: self.counts.calls,
            devices: self.counts.loads + self.counts.stores,
            allocations: self.engine.made(),
            frees: self.counts.frees,
            traps: self.counts.traps,
        }
    }

    /// The running thread where it holds interrupts off, and the source by which it does.
    #[inline(always)]
    pub(crate) fn holder(&self) -> Option<(u32, u32)>
        ensures { result ≡ holder self.now.state }
    {
        match self.engine.running() {
            Some(t) => {
                let posture = self.engine.posture(t);
                if posture.off {
                    return Some((t, posture.source));
                }
                None
            }
            None => None,
        }
    }

    /// A span with interrupts off that begins, where `before` held them off before the event.
    pub(crate) fn begun(&self, before: Option<(u32, u32)>) -> Option<Owned>
        ensures { result ≡ begun_since before self.now.state (holder self.now.state) }
    {
        match self.holder() {
            Some(held) => {
                if is_holder(before, held.0, held.1) {
                    return None;
                }
                Some(Owned {
                    thread: held.0,
                    actor: self.engine.actor(held.0),
                    export: held.1,
                })
            }
            None => None,
        }
    }
}

/// Whether this thread held interrupts off by this source.
fn is_holder(before: Option<(u32, u32)>, thread: u32, source: u32) -> bool
    ensures { result ≡ is_holder before thread source }
{
    match before {
        Some(held) => held.0 == thread && held.1 == source,
        None => false,
    }
}

/// Whether a thread of this status has ended.
fn is_ended(status: Status) -> bool
    ensures { result ≡ is_ended status }
{
    matches!(status, Status::Ended)
}

/// Whether all of so many threads have ended.
fn are_over(sched: &Sched, count: usize) -> bool
    requires count { count ≡ length sched.now.statuses }
    requires few { count < 2 ^ 32 }
    ensures { result ≡ list_all is_ended sched.now.statuses }
{
    for t in 0..count as u32 {
        if !is_ended(sched.status(t)) {
            return false;
        }
    }
    true
}
