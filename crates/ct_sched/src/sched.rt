//! A scheduler, seen as priorities, statuses and the order of picks.

ghost use Rattle.std.specs.Prelude.{ℕ, ◌≡◌, ◌↔◌, ◌<◌, ◌^◌, IsTrue, All, false, is_none, length, map, replicate, count_by, slice_set, IfOk, IfSome};
ghost use Rattle.def_sched.specs.declared.Status.TheVariants.{Ready, Ended};
ghost use Rattle.def_sched.specs.Statuses.{is_ready, status_of, runs_again, asleep, after_tick, awaiting, woken, woken_count};
ghost use Rattle.def_sched.specs.Picks.{pick, first_order};
ghost use Rattle.ct_sched.specs.Sched.{SchedRow, with_statuses, after_pick};

use crate::choosing::{are_idle, first_order, foremost, move_last};
use crate::turning::{all_ready, asleep, tick_all, wake_some};
use def_refusals::NoMemory;
use def_sched::Status;
use std::alloc::Global;
use std::marker::Model;

/// Threads by number from 0: the priority of each, what it is doing, and the order in which they were
/// picked. Those that are ready or sleep are counted.
#[derive(Drop)]
pub struct Sched {
    priorities: Vec<u8>,
    statuses: Vec<Status>,
    order: Vec<u32>,
    going: u32,
}

impl Model for Sched {
    ghost use Rattle.ct_sched.specs.Sched.{SchedRow, IsKept};

    ghost Value = { SchedRow };

    ghost view = { λ s. record {
      priorities = s.priorities.items;
      statuses = s.statuses.items;
      order = s.order.items;
    } };

    ghost invariant = { λ s. IsKept (record {
      priorities = s.priorities.items;
      statuses = s.statuses.items;
      order = s.order.items;
    }) s.going };
}

impl Sched {
    /// One thread for each priority, of which a greater one runs first. All are ready and none has
    /// been picked. The one error is `NoMemory`.
    pub fn new(alloc: Global, priorities: &[u8]) -> Result<Sched, NoMemory>
        requires { length priorities.now < 2 ^ 32 }
        ensures { IfOk result
            (λ s. s
            ≡ record {
              priorities = priorities.now;
              statuses = replicate (length priorities.now) Ready;
              order = first_order (length priorities.now);
            }) }
    {
        Ok(Sched {
            priorities: Vec::from_slice(alloc, priorities)?,
            statuses: all_ready(alloc, priorities.len())?,
            order: first_order(alloc, priorities.len() as u32)?,
            going: priorities.len() as u32,
        })
    }

    /// Picks a thread, which stands last in the order from now on: of the ready ones of greatest
    /// priority the one picked least recently. `None` comes exactly where none is ready.
    pub fn pick(&mut self) -> Option<u32>
        ensures picked { result ≡ pick self.old.priorities self.old.statuses self.old.order }
        ensures none { (result ≡ None) ↔ All (λ s. is_ready s ≡ false) self.old.statuses }
        ensures thread { IfSome result (λ t. t < length self.old.statuses) }
        ensures row { self.new ≡ after_pick self.old result }
    {
        match foremost(&self.priorities, &self.statuses, &self.order) {
            Some(place) => {
                let t = self.order[place];
                move_last(&mut self.order, place);
                Some(t)
            }
            None => None,
        }
    }

    /// Whether none is ready: then `pick` answers `None`.
    pub fn none_is_ready(&self) -> bool
        ensures { result ≡ is_none (pick self.now.priorities self.now.statuses self.now.order) }
    {
        are_idle(&self.statuses) || self.picks_none()
    }

    /// Whether a look along the order finds none.
    fn picks_none(&self) -> bool
        ensures { result ≡ is_none (pick self.now.priorities self.now.statuses self.now.order) }
    {
        match foremost(&self.priorities, &self.statuses, &self.order) {
            Some(_) => false,
            None => true,
        }
    }

    /// One tick: each sleep is one tick shorter, and over after its last.
    pub fn tick(&mut self)
        ensures { self.new ≡ with_statuses self.old (map after_tick self.old.statuses) }
    {
        tick_all(&mut self.statuses);
    }

    /// A ready thread sleeps for so many ticks. With none it stays ready.
    #[tactic(auto, using(crate::proofs::Ready::ready_there))]
    pub fn sleep(&mut self, t: u32, ticks: u32)
        requires { status_of self.old.statuses t ≡ Ready }
        ensures { self.new ≡ with_statuses self.old (slice_set self.old.statuses t (asleep ticks)) }
    {
        self.statuses[t as usize] = asleep(ticks);
    }

    /// A ready thread waits for the word at an address, which holds `held`, where that is `wanted`.
    /// False comes exactly where they differ; then nothing changes.
    #[tactic(auto, using(crate::proofs::Ready::ready_there))]
    pub fn wait(&mut self, t: u32, address: u32, held: u32, wanted: u32) -> bool
        requires { status_of self.old.statuses t ≡ Ready }
        ensures waits { IsTrue result ↔ (held ≡ wanted) }
        ensures row { self.new
            ≡ with_statuses self.old
            (slice_set self.old.statuses t (awaiting address held wanted)) }
        ensures stays { (held ≡ wanted → ⊥) → self.new ≡ self.old }
    {
        if held != wanted {
            return false;
        }
        self.statuses[t as usize] = Status::Waiting(address);
        self.going -= 1;
        true
    }

    /// Wakes at most so many threads that wait for the word at an address, those with the lowest
    /// numbers first, and answers how many.
    pub fn wake(&mut self, address: u32, most: u32) -> u32
        ensures count { result ≡ woken_count address most self.old.statuses }
        ensures row { self.new ≡ with_statuses self.old (woken address most self.old.statuses) }
    {
        let count = wake_some(&mut self.statuses, address, most);
        self.going += count;
        count
    }

    /// A thread ends.
    pub fn end(&mut self, t: u32)
        requires { t < length self.old.statuses }
        ensures { self.new ≡ with_statuses self.old (slice_set self.old.statuses t Ended) }
    {
        let goes = matches!(
            self.statuses[t as usize],
            Status::Ready | Status::Sleeping(_)
        );
        self.statuses[t as usize] = Status::Ended;
        self.going -= goes as u32;
    }

    /// What a thread is doing.
    pub fn status(&self, t: u32) -> Status
        requires { t < length self.now.statuses }
        ensures { result ≡ status_of self.now.statuses t }
    {
        self.statuses[t as usize]
    }

    /// How many threads are ready or sleep. Where there are none, no thread ever runs again.
    pub fn going(&self) -> u32
        ensures { result ≡ count_by runs_again self.now.statuses }
    {
        self.going
    }
}
