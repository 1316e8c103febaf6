//! The names of each space, for F5: a name twice in its space. Each space is a set, so that this takes
//! time in proportion to the names.

ghost use Rattle.std.specs.Prelude.{◌≡◌, [], ◌∷◌, codes, IfOk, OnOk};
ghost use Rattle.def_texts.specs.Names.{among};
ghost use Rattle.def_desc.specs.Names as spec;

use crate::names::Names;
use ct_keyed::HashKey;
use def_desc::PartWord;
use std::alloc::{AllocError, Global};
use std::marker::Model;

/// The names of each space so far. Slots and exports are those of one compartment or library. Each set of names
/// hashes by the text's key.
#[derive(Drop)]
pub(crate) struct Spaces {
    key: HashKey,
    devices: Names,
    shared: Names,
    sealed: Names,
    owners: Names,
    slots: Names,
    exports: Names,
}

impl Model for Spaces {
    ghost use Rattle.def_desc.specs.Names.{Spaces as Rows};

    ghost Value = { Rows };

    ghost view = { λ m. record {
      devices = m.devices;
      shared = m.shared;
      sealed = m.sealed;
      owners = m.owners;
      slots = m.slots;
      exports = m.exports;
    } };
}

/// The slots of a compartment before its imports: `switch`.
fn first_slots(alloc: Global, key: HashKey) -> Result<Names, AllocError>
    ensures { IfOk result (λ n. n ≡ codes "switch" ∷ []) }
{
    let mut slots = Names::new(alloc, key);
    slots.add(alloc, "switch")?;
    Ok(slots)
}

impl Spaces {
    /// No names of a text that has this key.
    pub fn new(alloc: Global, key: HashKey) -> Spaces
        ensures { result ≡ spec.no_names }
    {
        Spaces {
            key,
            devices: Names::new(alloc, key),
            shared: Names::new(alloc, key),
            sealed: Names::new(alloc, key),
            owners: Names::new(alloc, key),
            slots: Names::new(alloc, key),
            exports: Names::new(alloc, key),
        }
    }

    fn add_compartment(&mut self, alloc: Global, name: &str) -> Result<bool, AllocError>
        ensures twice { IfOk result (λ b. b ≡ among name.now self.old.owners) }
        ensures added { OnOk result
            (self.new ≡ spec.with_part_name PartWord.Compartment name.now self.old) }
    {
        let twice = self.owners.add(alloc, name)?;
        self.slots = first_slots(alloc, self.key)?;
        self.exports = Names::new(alloc, self.key);
        Ok(twice)
    }

    fn add_library(&mut self, alloc: Global, name: &str) -> Result<bool, AllocError>
        ensures twice { IfOk result (λ b. b ≡ among name.now self.old.owners) }
        ensures added { OnOk result
            (self.new ≡ spec.with_part_name PartWord.Library name.now self.old) }
    {
        let twice = self.owners.add(alloc, name)?;
        self.slots = Names::new(alloc, self.key);
        self.exports = Names::new(alloc, self.key);
        Ok(twice)
    }

    /// Adds the name of a part to its space, and says whether it was there.
    pub fn add(&mut self, alloc: Global, part: PartWord, name: &str) -> Result<bool, AllocError>
        ensures twice { IfOk result
            (λ b. b ≡ among name.now (spec.name_space part self.old)) }
        ensures added { OnOk result
            (self.new ≡ spec.with_part_name part name.now self.old) }
    {
        match part {
            PartWord::Firmware | PartWord::Ram => Ok(false),
            PartWord::Device => self.devices.add(alloc, name),
            PartWord::Shared => self.shared.add(alloc, name),
            PartWord::Sealed => self.sealed.add(alloc, name),
            PartWord::Compartment => self.add_compartment(alloc, name),
            PartWord::Import | PartWord::Quota | PartWord::Key | PartWord::Limport => {
                self.slots.add(alloc, name)
            }
            PartWord::Export | PartWord::Lexport => self.exports.add(alloc, name),
            PartWord::Library => self.add_library(alloc, name),
            PartWord::Thread => self.owners.add(alloc, name),
        }
    }
}
