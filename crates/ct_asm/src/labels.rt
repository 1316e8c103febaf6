//! A table of labels, each by the first place of its name.

ghost use Rattle.std.specs.Prelude.{◌≡◌, [], OnOk, IfOk, is_none};
ghost use Rattle.ct_asm.specs.Labels.{label_named, with_label};

use ct_keyed::HashKey;
use def_object::Label;
use indexmap::IndexMap;
use std::alloc::{AllocError, Global};
use std::marker::Model;

/// Labels by name, in a table that hashes by the key that it is made with.
#[derive(Drop)]
pub struct Labels {
    table: IndexMap<Vec<u8>, Label, HashKey>,
}

impl Model for Labels {
    ghost use Rattle.std.specs.Prelude.{List, map};
    ghost use Rattle.def_source.specs.Source.{Name};
    ghost use Rattle.def_object.specs.declared.Label.{Label};

    ghost Value = { List (Name × Label) };

    ghost view = { λ l. map (λ e. (e.0.items, e.1)) l.table.entries };
}

impl Labels {
    /// No labels; the table hashes by this key.
    pub fn new(alloc: Global, key: HashKey) -> Labels
        ensures { result ≡ [] }
    {
        Labels {
            table: IndexMap::with_hasher(alloc, key),
        }
    }

    /// The label of a name.
    pub fn get(&self, name: &[u8]) -> Option<Label>
        ensures { result ≡ label_named name.now self.now }
    {
        self.table.get(name).copied()
    }

    /// Adds a label, unless its name is there, and says whether it was added.
    pub fn add(&mut self, alloc: Global, name: &[u8], label: Label) -> Result<bool, AllocError>
        ensures added { OnOk result (self.new ≡ with_label self.old name.now label) }
        ensures new { IfOk result (λ new. new ≡ is_none (label_named name.now self.old)) }
    {
        let key = Vec::from_slice(alloc, name)?;
        match self.table.insert(key, label)? {
            None => Ok(true),
            Some(first) => {
                let key = Vec::from_slice(alloc, name)?;
                self.table.insert(key, first)?;
                Ok(false)
            }
        }
    }
}
