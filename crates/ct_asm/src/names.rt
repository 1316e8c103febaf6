//! The names of a compartment's slots, or of a library's, in slot order.

ghost use Rattle.std.specs.Prelude.{◌≡◌, ◌++◌, ◌∷◌, ◌<◌, ◌^◌, [], length, IfOk, OnErr, is_none, if◌then◌else◌};
ghost use Rattle.def_object.specs.Object as object;

use def_refusals::NoMemory;
use indexmap::IndexSet;
use std::alloc::Global;
use std::marker::Model;

/// Names in slot order, each once. A description has few slots of an owner, so the set keeps the kit's hash.
#[derive(Drop)]
pub struct Names {
    set: IndexSet<Vec<u8>>,
}

impl Model for Names {
    ghost use Rattle.std.specs.Prelude.{List, map, ℕ};

    ghost Value = { List (List ℕ) };

    ghost view = { λ n. map (λ k. k.items) n.set.keys };
}

impl Names {
    /// No names.
    pub fn new(alloc: Global) -> Names
        ensures { result ≡ [] }
    {
        Names {
            set: IndexSet::new(alloc),
        }
    }

    /// How many names there are.
    pub fn len(&self) -> usize
        ensures value { result ≡ length self.now }
        ensures small { result < 2 ^ 63 }
    {
        self.set.len()
    }

    /// The slot of a name.
    pub fn slot(&self, name: &[u8]) -> Option<usize>
        ensures { result ≡ object.slot_of self.now name.now }
    {
        self.set.get_index_of(name)
    }

    /// Gives a name the next slot, unless it has one. An `Err` is want of memory and changes nothing.
    pub fn add(&mut self, alloc: Global, name: &str) -> Result<bool, NoMemory>
        ensures fresh { IfOk result (λ fresh. fresh ≡ is_none (object.slot_of self.old name.now)) }
        ensures added { IfOk result
            (λ fresh. self.new ≡ (if fresh then self.old ++ name.now ∷ [] else self.old)) }
        ensures err { OnErr result (self.new ≡ self.old) }
    {
        if self.slot(name.as_bytes()).is_some() {
            return Ok(false);
        }
        let key = Vec::from_slice(alloc, name.as_bytes())?;
        self.set.insert(key)?;
        Ok(true)
    }
}
