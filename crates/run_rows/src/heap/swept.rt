//! A heap, the memory that it lies in, and the front of the sweep.

ghost use Rattle.std.specs.Prelude.{◌≡◌, ◌≤◌, ◌<◌, ◌%◌, ◌+◌, ◌^◌};

use ct_cap::{Cap, Shadow, derive, expand, shrink};
use ct_heap::{Found, Heap, HeapRefusal, NotWhole, Object};
use ct_loadstore::filter;
use ct_planes::{Memory, Planes};
use ct_revoke::Front;
use def_profile::rights::{HEAP_RIGHTS, MEMORY_ROOT};
use def_refusals::NoMemory;
use std::alloc::Global;
use std::marker::Model;

/// RAM's first address.
pub const RAM: u32 = 0x8000_0000;

/// A heap over plain memory. Below it RAM has slots of eight bytes for capabilities.
///
/// Its invariant (`IsSwept`) is what the heap and the front ask of their callers: heads and heap agree, what was
/// freed is marked until it leaves, and no capability behind the front has its base in a painted chunk. So a flush
/// is allowed at every sweep's end, whatever the slots hold.
#[derive(Drop)]
pub struct Swept {
    heap: Heap,
    mem: Planes,
    front: Front,
    low: u32,
    quotas: u32,
    made: u32,
}

impl Model for Swept {
    ghost use Rattle.run_rows.specs.Swept.{SweptRow, IsSwept};

    ghost Value = { SweptRow };

    ghost view = { λ s. record {
      heap = s.heap;
      granules = s.mem;
      front = s.front;
      low = s.low;
      quotas = s.quotas;
      made = s.made;
    } };

    ghost invariant = { λ s. IsSwept (record {
      heap = s.heap;
      granules = s.mem;
      front = s.front;
      low = s.low;
      quotas = s.quotas;
      made = s.made;
    }) };
}

/// What a slice came to: no sweep runs, it has an offset to go on from, or RAM's end was reached.
#[derive(Clone, Copy, Drop)]
pub enum Slice {
    Idle,
    To(u32),
    Ended,
}

/// The capability of an object.
fn capability(object: Object) -> Cap {
    let from = Shadow {
        root: 1,
        source: object.number,
    };
    shrink(derive(
        MEMORY_ROOT,
        object.base,
        object.length,
        HEAP_RIGHTS,
        object.base,
        0,
        from,
    ))
}

impl Swept {
    /// RAM of so many bytes, from an offset on a heap of so many bytes with three quotas of one limit.
    pub fn new(
        alloc: Global,
        size: u32,
        low: u32,
        length: u32,
        limit: u32,
    ) -> Result<Swept, NoMemory>
        requires whole { size % 16 ≡ 0 }
        requires even { low % 16 ≡ 0 }
        requires length { length % 16 ≡ 0 }
        requires inside { low + length ≤ size }
        requires small { size < 2 ^ 20 }
    {
        let mut mem = Planes::new(alloc, size)?;
        let mut heap = Heap::new(alloc, RAM, RAM + low, length, &[limit, limit, limit])?;
        heap.lay(&mut mem);
        Ok(Swept {
            heap,
            mem,
            front: Front::idle(),
            low,
            quotas: 3,
            made: 0,
        })
    }

    /// Allocates; no place where there is no such quota, or where too many objects were asked for.
    pub fn allocate(&mut self, quota: u32, size: u32) -> Result<Object, HeapRefusal> {
        if quota >= self.quotas || self.made > 3_000_000_000 {
            return Err(HeapRefusal::NoGap);
        }
        self.made += 1;
        self.heap.allocate(&mut self.mem, quota, size)
    }

    /// Frees an object of a quota by its bounds.
    pub fn free(&mut self, quota: u32, base: u32, top: u64) -> Result<Object, NotWhole> {
        if quota >= self.quotas {
            return Err(NotWhole);
        }
        self.heap.free(&mut self.mem, quota, base, top)
    }

    /// What a quota may still take; nothing where there is no such quota.
    pub fn remaining(&self, quota: u32) -> u32 {
        if quota >= self.quotas {
            return 0;
        }
        self.heap.remaining(quota)
    }

    /// The live object with these bounds.
    pub fn find(&self, base: u32, top: u64) -> Option<Found> {
        self.heap.find(&self.mem, base, top)
    }

    /// Whether an object is quarantined.
    pub fn quarantined(&self) -> bool {
        self.heap.quarantined()
    }

    /// Stores a capability in a slot, through the load filter; nothing where there is no such slot.
    fn put(&mut self, slot: u32, cap: Cap) {
        if slot >= self.low / 8 {
            return;
        }
        let passed = filter(&self.mem, RAM, expand(cap));
        self.mem.store_cap(8 * slot, shrink(passed));
    }

    /// Puts the capability of an object into a slot.
    pub fn keep(&mut self, slot: u32, object: Object) {
        self.put(slot, capability(object));
    }

    /// Loads the capability of a slot through the load filter and stores it in another.
    pub fn move_to(&mut self, from: u32, to: u32) {
        if from < self.mem.size() / 8 {
            let loaded = self.mem.load_cap(8 * from);
            self.put(to, loaded);
        }
    }

    /// Whether a slot holds a tagged capability.
    pub fn is_tagged(&self, slot: u32) -> bool {
        if slot < self.mem.size() / 8 {
            return self.mem.load_cap(8 * slot).tag;
        }
        false
    }

    /// The bits of a granule; 0 where there is no such granule.
    pub fn word(&self, granule: u32) -> u64 {
        if granule < self.mem.size() / 8 {
            return self.mem.load_cap(8 * granule).word;
        }
        0
    }

    /// Whether a granule is marked.
    pub fn marked(&self, granule: u32) -> bool {
        if granule < self.mem.size() / 8 {
            return self.mem.marked(8 * granule);
        }
        false
    }

    /// Paints what is quarantined and begins a sweep, where none runs and something was painted.
    pub fn begin(&mut self) -> bool {
        let runs = self.front.running();
        if runs {
            return false;
        }
        let some = self.heap.paint(&mut self.mem);
        if !some {
            return false;
        }
        self.front.begin();
        true
    }

    /// Passes so many granules, where a sweep runs. At the end of RAM it stays until the flush.
    pub fn slice(&mut self, count: u32) -> Slice {
        let runs = self.front.running();
        if !runs {
            return Slice::Idle;
        }
        self.front.slice(&mut self.mem, RAM, count);
        let ended = self.front.finished(self.mem.size());
        let at = self.front.at();
        if ended { Slice::Ended } else { Slice::To(at) }
    }

    /// Where a sweep has come to the end of RAM it ends, and the painted objects leave; else false.
    pub fn flush(&mut self) -> bool {
        let over = self.front.finished(self.mem.size());
        if !over {
            return false;
        }
        self.front.end();
        self.heap.flush(&mut self.mem);
        true
    }
}
