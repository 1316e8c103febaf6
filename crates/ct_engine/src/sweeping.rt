//! The revoker.

ghost use Rattle.std.specs.Prelude.{ℕ, ◌≡◌, ◌≤◌, ◌||◌, Some, is_some};
ghost use Rattle.def_machine.specs.Objects.{has_quarantined};
ghost use Rattle.ct_engine.specs.Sweeps.{NoneLeft, size_of, began, passed_on, with_slice, slice_end, over, swept_by, EndsClean};

use crate::engine::Engine;
use crate::turns::settle;
use ct_mem::Memory;

impl<M: Memory + Drop> Engine<M> {
    /// Whether a sweep runs, or is to begin.
    #[inline(always)]
    pub fn has_sweep(&self) -> bool
        ensures { result ≡ is_some self.now.state.front || has_quarantined self.now.state.objects }
    {
        self.rows.front.running() || self.rows.heap.quarantined()
    }

    /// Where no sweep runs and an object is quarantined, a sweep begins: every quarantined object is painted.
    fn begin(&mut self)
        ensures { self.new ≡ began self.old self.old.state.front }
    {
        if self.rows.front.running() {
            return;
        }
        if self.rows.heap.paint(&mut self.mem) {
            self.rows.front.begin();
        }
    }

    /// The sweep ends: the painted objects leave, of which no capability is left.
    fn finish(&mut self)
        requires { NoneLeft self.old.state.objects self.old }
        ensures { self.new ≡ over self.old }
    {
        self.rows.front.end();
        self.rows.heap.flush(&mut self.mem);
    }

    /// Where a sweep runs, it passes `rate` granules, or those that are left, and ends where it has passed all of RAM.
    fn pass(&mut self, rate: u32)
        requires left { (front : ℕ) → self.old.state.front ≡ Some front
            → size_of self.old ≤ slice_end self.old rate front
            → NoneLeft self.old.state.objects
            (with_slice self.old front (slice_end self.old rate front)) }
        ensures { self.new ≡ passed_on self.old rate self.old.state.front }
    {
        if !self.rows.front.running() {
            return;
        }
        settle(&mut self.rows, &mut self.mem);
        let ram = self.rows.region.ram;
        self.rows.front.slice(&mut self.mem, ram, rate);
        if self.rows.front.finished(self.mem.size()) {
            self.finish();
        }
    }

    /// One slice of the revoker, also where no sweep runs and none is to begin: then nothing changes.
    #[inline(never)]
    fn sweep_on(&mut self, rate: u32)
        requires left { EndsClean self.old rate }
        ensures { self.new ≡ swept_by self.old rate }
    {
        self.begin();
        self.pass(rate);
    }

    /// One slice of the revoker: where no sweep runs and an object is quarantined, one begins; where one runs, it
    /// passes `rate` granules, or those that are left; where it has passed all of RAM, the objects that were painted
    /// as it began leave.
    ///
    /// Condition: where it ends, no capability of a painted object is left, which a sweep sees to.
    #[inline(always)]
    pub fn sweep(&mut self, rate: u32)
        requires left { EndsClean self.old rate }
        ensures { self.new ≡ swept_by self.old rate }
    {
        if self.has_sweep() {
            self.sweep_on(rate);
        }
    }
}
