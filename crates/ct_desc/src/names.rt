//! Names in the order in which they come, each once.

ghost use Rattle.std.specs.Prelude.{◌≡◌, [], IfOk, OnOk};
ghost use Rattle.def_texts.specs.Names.{among, with_name};

use ct_keyed::HashKey;
use indexmap::IndexSet;
use std::alloc::{AllocError, Global};
use std::marker::Model;

/// Names, each once, in a set that hashes by the key that it is made with.
#[derive(Drop)]
pub(crate) struct Names {
    set: IndexSet<String, HashKey>,
}

impl Model for Names {
    ghost use Rattle.std.specs.Prelude.{List, map, string_bytes, ℕ};

    ghost Value = { List (List ℕ) };

    ghost view = { λ n. map string_bytes n.set.keys };
}

impl Names {
    /// No names; the set hashes by this key.
    pub fn new(alloc: Global, key: HashKey) -> Names
        ensures { result ≡ [] }
    {
        Names {
            set: IndexSet::with_hasher(alloc, key),
        }
    }

    /// A name is there.
    #[tactic(auto, using(crate::proofs::Sets::any_name))]
    pub fn has(&self, name: &str) -> bool
        ensures { result ≡ among name.now self.now }
    {
        self.set.contains(name)
    }

    /// Adds a name, and says whether it was there. An error is want of memory.
    #[tactic(auto, using(crate::proofs::Sets::any_name, crate::proofs::Sets::names_added))]
    pub fn add(&mut self, alloc: Global, name: &str) -> Result<bool, AllocError>
        ensures twice { IfOk result (λ b. b ≡ among name.now self.old) }
        ensures added { OnOk result (self.new ≡ with_name self.old name.now) }
    {
        let key = String::from_str(alloc, name)?;
        let (_, fresh) = self.set.insert_full(key)?;
        Ok(!fresh)
    }
}
