//! F7: a reference to nothing. What may be named is collected once, each kind of name in a set.

ghost use Rattle.std.specs.Prelude.{◌≡◌, [], codes, map, string_bytes, IfOk, OnOk};
ghost use Rattle.std.specs.List.{flat_map};
ghost use Rattle.ct_json.specs.Values.{data_of, items_left};
ghost use Rattle.def_texts.specs.Names.{with_names};
ghost use Rattle.def_desc.specs.Members as member;
ghost use Rattle.def_desc.specs.References as spec;
ghost use Rattle.def_desc.specs.Walk.{spots_of as spots_in};
ghost use Rattle.def_desc.specs.WellFormed.{first_failing};
ghost use Rattle.ct_desc_value.specs.Seen.{spot_view};

use crate::names::Names;
use ct_desc_rows::target_at;
use ct_desc_value::members::{list_at, text_or};
use ct_desc_value::{Spot, spots_of};
use ct_json::{Items, Json};
use ct_keyed::HashKey;
use def_desc::{Form, PartWord, Place};
use std::alloc::{AllocError, Global};

/// Adds the names of the elements of a list.
fn add_names(names: &mut Names, alloc: Global, values: Items) -> Result<(), AllocError>
    ensures { OnOk result (names.new ≡ with_names names.old
        (map (member.text_or (codes "name")) (items_left values.entry))) }
{
    for value in values {
        names.add(alloc, text_or(&value, "name"))?;
    }
    Ok(())
}

/// `owner.export`.
fn export_name(alloc: Global, owner: &str, name: &str) -> Result<String, AllocError>
    ensures { IfOk result (λ s. string_bytes s ≡ spec.export_name owner.now name.now) }
{
    let mut text = String::from_str(alloc, owner)?;
    text.push_str(".")?;
    text.push_str(name)?;
    Ok(text)
}

fn add_exports(
    names: &mut Names,
    alloc: Global,
    owner: &str,
    exports: Items,
) -> Result<(), AllocError>
    ensures { OnOk result (names.new ≡ with_names names.old
        (map (spec.export_name owner.now)
        (map (member.text_or (codes "name")) (items_left exports.entry)))) }
{
    for export in exports {
        let name = export_name(alloc, owner, text_or(&export, "name"))?;
        names.add(alloc, name.as_str())?;
    }
    Ok(())
}

/// Adds the exports of all owners of a list, each as `owner.export`.
#[tactic(auto, using(crate::proofs::Once::with_names_append))]
fn add_owners(names: &mut Names, alloc: Global, owners: Items) -> Result<(), AllocError>
    ensures { OnOk result (names.new ≡ with_names names.old
        (flat_map spec.exports_in (items_left owners.entry))) }
{
    for owner in owners {
        let exports = list_at(&owner, "exports");
        add_exports(names, alloc, text_or(&owner, "name"), exports)?;
    }
    Ok(())
}

/// Names by what they name.
#[derive(Drop)]
struct Sets {
    devices: Names,
    shared: Names,
    sealed: Names,
    calls: Names,
    libraries: Names,
}

impl Sets {
    /// No names of a text that has this key.
    fn new(alloc: Global, key: HashKey) -> Sets
        ensures devices { result.devices ≡ [] }
        ensures shared { result.shared ≡ [] }
        ensures sealed { result.sealed ≡ [] }
        ensures calls { result.calls ≡ [] }
        ensures libraries { result.libraries ≡ [] }
    {
        Sets {
            devices: Names::new(alloc, key),
            shared: Names::new(alloc, key),
            sealed: Names::new(alloc, key),
            calls: Names::new(alloc, key),
            libraries: Names::new(alloc, key),
        }
    }

    /// Adds what may be named in a description.
    fn fill(&mut self, alloc: Global, value: &Json) -> Result<(), AllocError>
        ensures devices { OnOk result (self.new.devices
            ≡ with_names self.old.devices (spec.names_at (codes "devices") (data_of value.now))) }
        ensures shared { OnOk result (self.new.shared
            ≡ with_names self.old.shared (spec.names_at (codes "shared") (data_of value.now))) }
        ensures sealed { OnOk result (self.new.sealed
            ≡ with_names self.old.sealed (spec.names_at (codes "sealed") (data_of value.now))) }
        ensures calls { OnOk result (self.new.calls
            ≡ with_names self.old.calls
            (spec.exports_at (codes "compartments") (data_of value.now))) }
        ensures libraries { OnOk result (self.new.libraries
            ≡ with_names self.old.libraries
            (spec.exports_at (codes "libraries") (data_of value.now))) }
    {
        add_names(&mut self.devices, alloc, list_at(value, "devices"))?;
        add_names(&mut self.shared, alloc, list_at(value, "shared"))?;
        add_names(&mut self.sealed, alloc, list_at(value, "sealed"))?;
        add_owners(&mut self.calls, alloc, list_at(value, "compartments"))?;
        add_owners(&mut self.libraries, alloc, list_at(value, "libraries"))
    }
}

/// What the imports and threads of a description may name.
#[derive(Drop)]
pub(crate) struct Named<'t, 'a> {
    pub value: Json<'t, 'a>,
    sets: Sets,
    ghost of_devices: { sets.devices
        ≡ with_names [] (spec.names_at (codes "devices") (data_of value)) },
    ghost of_shared: { sets.shared
        ≡ with_names [] (spec.names_at (codes "shared") (data_of value)) },
    ghost of_sealed: { sets.sealed
        ≡ with_names [] (spec.names_at (codes "sealed") (data_of value)) },
    ghost of_calls: { sets.calls
        ≡ with_names [] (spec.exports_at (codes "compartments") (data_of value)) },
    ghost of_libraries: { sets.libraries
        ≡ with_names [] (spec.exports_at (codes "libraries") (data_of value)) },
}

impl<'t, 'a> Named<'t, 'a> {
    /// What may be named in a description whose text has this key.
    pub fn of(
        alloc: Global,
        key: HashKey,
        value: &Json<'t, 'a>,
    ) -> Result<Named<'t, 'a>, AllocError>
        ensures { IfOk result (λ n. n.value ≡ value.now) }
    {
        let mut sets = Sets::new(alloc, key);
        match sets.fill(alloc, value) {
            Ok(()) => Ok(Named {
                value: *value,
                sets,
            }),
            Err(error) => {
                drop(sets);
                Err(error)
            }
        }
    }

    /// Whether a text names something of the description, by what it is to name.
    #[tactic(auto, using(crate::proofs::Once::among_once))]
    fn resolves(&self, form: Form, name: &str) -> bool
        ensures { result ≡ spec.resolves (data_of self.now.value) form name.now }
    {
        match form {
            Form::Device => self.sets.devices.has(name),
            Form::Shared => self.sets.shared.has(name),
            Form::Sealed => self.sets.sealed.has(name),
            Form::Call => self.sets.calls.has(name),
            Form::Service => true,
            Form::Library => self.sets.libraries.has(name),
        }
    }

    fn import_resolves(&self, import: &Json) -> bool
        ensures { result
            ≡ spec.refers (data_of self.now.value) PartWord.Import (data_of import.now) }
    {
        match target_at(import) {
            Some(target) => self.resolves(target.form, target.name),
            None => true,
        }
    }

    /// F7 doesn't hold at a place: what it names is there.
    fn refers(&self, spot: &Spot) -> bool
        ensures { result ≡ spec.refers_at (data_of self.now.value) (spot_view spot.now) }
    {
        match spot.place.part {
            PartWord::Import => self.import_resolves(&spot.value),
            PartWord::Limport => self.resolves(Form::Library, text_or(&spot.value, "library")),
            PartWord::Thread => self.resolves(Form::Call, text_or(&spot.value, "entry")),
            _ => true,
        }
    }

    /// The first place that names nothing.
    pub fn first_unresolved(&self) -> Result<Option<Place>, AllocError>
        ensures { IfOk result (λ p. p ≡ first_failing (spec.refers_at (data_of self.now.value))
            (spots_in (data_of self.now.value))) }
    {
        let mut spots = spots_of(&self.value);
        while let Some(spot) = spots.next()? {
            if !self.refers(&spot) {
                return Ok(Some(spot.place));
            }
        }
        Ok(None)
    }
}
