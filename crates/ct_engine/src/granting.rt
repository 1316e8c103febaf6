//! Objects are allocated and freed.
#![tactic(auto, using(crate::proofs::Whole::the_runner))]

ghost use Rattle.std.specs.Prelude.{◌≡◌, ◌-◌, ◌≤◌, ◌<◌, Some, None, length, MatchResult};
ghost use Rattle.def_profile.specs.declared.limits.TheConstants.{MOST_STEPS};
ghost use Rattle.def_machine.specs.Objects.{charges, has_quarantined};
ghost use Rattle.ct_heap.specs.Lookups.{whole_of};
ghost use Rattle.ct_engine.specs.Grants.{AllocatesAsWritten, WasWhole, freed_by};
ghost use Rattle.ct_engine.specs.Seen.{limit_at};

use crate::engine::Engine;
use ct_heap::{HeapRefusal, NotWhole, Object};
use ct_mem::Memory;
use ct_threads::filter_row;

impl<M: Memory + Drop> Engine<M> {
    /// An object of so many bytes, charged to a quota, at the least lawful place. Memory is seen as before: the
    /// object reads as zero.
    ///
    /// It comes to what the written allocation does, of each image with this heap and this quota, in each state of the
    /// machine with these objects.
    /// `Size` comes exactly where the size is zero or above the heap's length; else `Quota` exactly where the
    /// quota's limit would be passed; else `NoGap` exactly where no place is lawful. A refusal changes nothing.
    pub fn allocate(&mut self, quota: u32, size: u32) -> Result<Object, HeapRefusal>
        requires quota { quota < length self.old.limits }
        requires few { self.old.state.next ≤ MOST_STEPS }
        ensures { AllocatesAsWritten self.old self.new quota size self.old.state.tokens result }
    {
        self.rows.heap.allocate(&mut self.mem, quota, size)
    }

    /// The live object of a quota with exactly these bounds, which are addresses, is freed: it is zeroed and
    /// quarantined, its chunk is marked, its row goes where it is a key or a token, and then the registers of the
    /// running thread pass the load filter. `NotWhole` comes exactly where there is none; then nothing changes.
    pub fn free(&mut self, t: u32, quota: u32, base: u32, top: u64) -> Result<Object, NotWhole>
        requires runs { self.old.state.running ≡ Some t }
        requires quota { quota < length self.old.limits }
        ensures is { self.new
            ≡ freed_by self.old t (whole_of quota base top self.old.state.objects) }
        ensures told { MatchResult result
            (λ o. WasWhole self.old self.new quota base top o)
            (λ why. whole_of quota base top self.old.state.objects ≡ None) }
    {
        let object = self.rows.heap.free(&mut self.mem, quota, base, top)?;
        self.rows.tokens.drop_row(object.number);
        filter_row(&mut self.rows.list[t as usize], &self.mem);
        Ok(object)
    }

    /// How many objects were allocated.
    pub fn made(&self) -> u32
        ensures { result ≡ self.now.state.next - 1 }
    {
        self.rows.heap.made()
    }

    /// What a quota may still take, in bytes.
    pub fn remaining(&self, quota: u32) -> u32
        requires quota { quota < length self.now.limits }
        ensures { result ≡ limit_at self.now quota - charges quota self.now.state.objects }
    {
        self.rows.heap.remaining(quota)
    }

    /// Whether an object is quarantined, painted or not.
    pub fn quarantined(&self) -> bool
        ensures { result ≡ has_quarantined self.now.state.objects }
    {
        self.rows.heap.quarantined()
    }
}
