//! The list of granules, kept as it is defined.

ghost use Rattle.std.specs.Prelude.{◌≡◌, ◌+◌, ◌*◌, ◌/◌, ◌%◌, ◌≤◌, ◌<◌, ◌^◌, ◌⊎◌, List, length, replicate, slice_set, IfOk, ℕ};
ghost use Rattle.def_memory.specs.declared.Granule.{Granule};
ghost use Rattle.def_memory.specs.Granules.{plain, nothing, granule_at, blank};

use crate::memory::Memory;
use crate::part::{part, replace};
use def_memory::Granule;
use def_refusals::NoMemory;
use def_words::{Cap, Shadow};
use std::alloc::Global;
use std::marker::Model;

/// RAM as a list of granules.
#[derive(Drop)]
pub struct Plain {
    rows: Vec<Granule>,
}

impl Model for Plain {
    ghost use Rattle.std.specs.Prelude.{List, length, ◌<◌, ◌^◌};
    ghost use Rattle.def_memory.specs.declared.Granule.{Granule};

    ghost Value = { List Granule };

    ghost view = { λ m. m.rows.items };

    ghost invariant = { λ m. length m.rows.items < 2 ^ 29 };
}

/// A plain word: untagged, and so without a shadow.
fn untagged(word: u64) -> Cap
    ensures { result ≡ plain word }
{
    let shadow = Shadow { root: 0, source: 0 };
    Cap {
        tag: false,
        word,
        shadow,
    }
}

/// The granule with another capability; the mark stays.
fn holding(old: Granule, cap: Cap) -> Granule
    ensures { result ≡ record { cap = cap; mark = old.mark } }
{
    Granule {
        cap,
        mark: old.mark,
    }
}

impl Plain {
    /// RAM of this many bytes, all zero, untagged and unmarked. The size is a multiple of 16.
    ///
    /// `NoMemory` where the allocator has no room for the granules.
    pub fn new(alloc: Global, size: u32) -> Result<Plain, NoMemory>
        requires { size % 16 ≡ 0 }
        ensures { IfOk result (λ memory. memory ≡ replicate (size / 8) nothing) }
    {
        let nothing = Granule {
            cap: untagged(0),
            mark: false,
        };
        let rows = vec![in alloc; nothing; (size / 8) as usize]?;
        Ok(Plain { rows })
    }
}

impl Memory for Plain {
    ghost granules = { λ m. m };

    fn size(&self) -> u32 {
        8 * self.rows.len() as u32
    }

    fn load(&self, at: u32, width: u32) -> u32 {
        part(self.rows[(at / 8) as usize].cap.word, at % 8, width)
    }

    fn store(&mut self, at: u32, width: u32, value: u32) {
        let i = (at / 8) as usize;
        let old = self.rows[i];
        let word = replace(old.cap.word, at % 8, width, value);
        self.rows[i] = holding(old, untagged(word));
    }

    fn load_cap(&self, at: u32) -> Cap {
        let granule = self.rows[(at / 8) as usize];
        granule.cap
    }

    fn store_cap(&mut self, at: u32, cap: Cap) {
        let i = (at / 8) as usize;
        self.rows[i] = holding(self.rows[i], cap);
    }

    fn zero(&mut self, from: u32, to: u32) {
        for i in (from / 8) as usize..(to / 8) as usize {
            self.rows[i] = holding(self.rows[i], untagged(0));
        }
    }

    fn mark(&mut self, from: u32, to: u32, on: bool) {
        for i in (from / 8) as usize..(to / 8) as usize {
            let cap = self.rows[i].cap;
            self.rows[i] = Granule { cap, mark: on };
        }
    }

    fn marked(&self, at: u32) -> bool {
        self.rows[(at / 8) as usize].mark
    }

    fn next_tagged_below(&self, from: u32, to: u32) -> Option<u32> {
        let first = (from as usize + 7) / 8;
        let end = ((to as usize + 7) / 8).min(self.rows.len());
        for i in first..end {
            if self.rows[i].cap.tag {
                return Some(8 * i as u32);
            }
        }
        None
    }
}
