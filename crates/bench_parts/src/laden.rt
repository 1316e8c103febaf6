//! A heap that is laid over memory.

ghost use Rattle.std.specs.Prelude.{◌≡◌, ◌≤◌, ◌%◌, ◌^◌};

use ct_heap::{Heap, HeapRefusal, NotWhole, Object};
use ct_planes::Planes;
use def_refusals::NoMemory;
use std::alloc::Global;
use std::marker::Model;

/// RAM's first address, which is the heap's.
const RAM: u32 = 0x8000_0000;

/// A heap and its memory, in which nothing is tagged, how many quotas it has, and how many objects it has made at
/// most.
#[derive(Drop)]
pub struct Laden {
    heap: Heap,
    mem: Planes,
    quotas: u32,
    made: u32,
}

impl Model for Laden {
    ghost use Rattle.bench_parts.specs.Laden.{LadenRow, IsLaden};

    ghost Value = { LadenRow };

    ghost view = { λ l. record {
      heap = l.heap;
      granules = l.mem;
      quotas = l.quotas;
      made = l.made;
    } };

    ghost invariant = { λ l. IsLaden (record {
      heap = l.heap;
      granules = l.mem;
      quotas = l.quotas;
      made = l.made;
    }) };
}

impl Laden {
    /// RAM of so many bytes, all of it a heap with three quotas of this limit.
    pub fn new(alloc: Global, size: u32, limit: u32) -> Result<Laden, NoMemory>
        requires whole { size % 16 ≡ 0 }
        requires most { size ≤ 2 ^ 26 }
    {
        let mut mem = Planes::new(alloc, size)?;
        let mut heap = Heap::new(alloc, RAM, RAM, size, &[limit, limit, limit])?;
        heap.lay(&mut mem);
        Ok(Laden {
            heap,
            mem,
            quotas: 3,
            made: 0,
        })
    }

    /// Allocates; nothing where there is no such quota, or where too many objects were made.
    pub fn allocate(&mut self, quota: u32, size: u32) -> Result<Object, HeapRefusal> {
        if quota >= self.quotas || self.made > 3_000_000_000 {
            return Err(HeapRefusal::NoGap);
        }
        self.made += 1;
        self.heap.allocate(&mut self.mem, quota, size)
    }

    /// Frees an object of a quota by its bounds; nothing where there is no such quota.
    pub fn free(&mut self, quota: u32, base: u32, top: u64) -> Result<Object, NotWhole> {
        if quota >= self.quotas {
            return Err(NotWhole);
        }
        self.heap.free(&mut self.mem, quota, base, top)
    }

    /// Paints what is quarantined; whether there was something.
    pub fn paint(&mut self) -> bool {
        self.heap.paint(&mut self.mem)
    }

    /// Whether an object is quarantined.
    pub fn quarantined(&self) -> bool {
        self.heap.quarantined()
    }

    /// Lets the painted objects leave; since nothing in memory is ever tagged, no sweep need come before.
    pub fn flush(&mut self) {
        self.heap.flush(&mut self.mem);
    }
}
