//! What names stand for in an image.

ghost use Rattle.std.specs.Prelude.{ℕ, ◌≡◌, ◌≢◌, ◌<◌, ◌^◌, ◌++◌, IfOk, IfSome, List, OnOk, bytes_eq, length, map, option_map, position, string_bytes};
ghost use Rattle.ct_entry.specs.declared.rows.Owner.TheVariants.{Trusted};
ghost use Rattle.def_image.specs.Members.{compartment};
ghost use Rattle.def_image.specs.Sound.{AreFew, Sound};
ghost use Rattle.def_policy.specs.Names as spec;
ghost use Rattle.def_policy.specs.Rules.{spaced_words};
ghost use Rattle.ct_policy.specs.Words.{texts};

use ct_entries::export_number;
use ct_entry::{Device, Owner};
use ct_image_parts::{Code, Compartment, Export, Parts, Shared};
use def_refusals::NoMemory;
use std::alloc::{AllocError, Global};

/// What has a name.
trait Named {
    /// The bytes of its name.
    ghost name_of: { Self → List ℕ };

    fn name(&self) -> &[u8]
        ensures { result.now ≡ name_of self.now };
}

impl Named for Compartment {
    ghost name_of = { λ x. x.code.name };

    fn name(&self) -> &[u8] {
        self.code.name.as_bytes()
    }
}

impl Named for Code {
    ghost name_of = { λ x. x.name };

    fn name(&self) -> &[u8] {
        self.name.as_bytes()
    }
}

impl Named for Device {
    ghost name_of = { λ x. x.name };

    fn name(&self) -> &[u8] {
        self.name.as_bytes()
    }
}

impl Named for Shared {
    ghost name_of = { λ x. x.name };

    fn name(&self) -> &[u8] {
        self.name.as_bytes()
    }
}

impl Named for Export {
    ghost name_of = { λ x. x.name };

    fn name(&self) -> &[u8] {
        self.name.as_bytes()
    }
}

/// The index of the first of these that has this name.
fn index_of<T: Named>(all: &[T], name: &[u8]) -> Option<u32>
    requires { length all.now < 2 ^ 32 }
    ensures { result ≡ position (λ x. bytes_eq name.now (T.name_of x)) all.now }
{
    for index in 0..all.len() {
        let one = &all[index];
        if name == one.name() {
            return Some(index as u32);
        }
    }
    None
}

/// The first compartment of this name, by its index.
///
/// Condition: no list of the parts is longer than an image's.
pub fn compartment_named(parts: &Parts, name: &[u8]) -> Option<u32>
    requires { AreFew parts.now }
    ensures { result ≡ spec.compartment_named parts.now name.now }
{
    index_of(parts.compartments.as_slice(), name)
}

/// The first library of this name, by its index.
fn library_named(parts: &Parts, name: &[u8]) -> Option<u32>
    requires { AreFew parts.now }
    ensures { result ≡ spec.library_named parts.now name.now }
{
    index_of(parts.libraries.as_slice(), name)
}

/// The first device of this name, by its index.
pub(crate) fn device_named(parts: &Parts, name: &[u8]) -> Option<u32>
    requires { AreFew parts.now }
    ensures { result ≡ spec.device_named parts.now name.now }
{
    index_of(parts.devices.rows.as_slice(), name)
}

/// The first shared object of this name, by its index.
pub(crate) fn shared_named(parts: &Parts, name: &[u8]) -> Option<u32>
    requires { AreFew parts.now }
    ensures { result ≡ spec.shared_named parts.now name.now }
{
    index_of(parts.shared.as_slice(), name)
}

/// The first compartment of this name, or else the first library.
///
/// Condition: no list of the parts is longer than an image's.
pub fn owner_named(parts: &Parts, name: &[u8]) -> Option<Owner>
    requires { AreFew parts.now }
    ensures named { result ≡ spec.owner_named parts.now name.now }
    ensures untrusted { IfSome result (λ o. o ≢ Trusted) }
{
    match compartment_named(parts, name) {
        Some(index) => Some(Owner::Compartment(index)),
        None => match library_named(parts, name) {
            Some(index) => Some(Owner::Library(index)),
            None => None,
        },
    }
}

/// The name of a compartment or library; nothing for one that the image doesn't have, and for every
/// other owner.
pub(crate) fn name_of(parts: &Parts, owner: Owner) -> &str
    ensures { result.now ≡ spec.name_of parts.now owner }
{
    match owner {
        Owner::Compartment(index) => match parts.compartments.get(index as usize) {
            Some(compartment) => compartment.code.name.as_str(),
            None => "",
        },
        Owner::Library(index) => match parts.libraries.get(index as usize) {
            Some(library) => library.name.as_str(),
            None => "",
        },
        _ => "",
    }
}

/// Adds the names of owners, each after a space, and the end of the line. An `Err` is want of memory.
pub fn add_names(text: &mut String, parts: &Parts, owners: &[Owner]) -> Result<(), NoMemory>
    ensures { OnOk result
        (string_bytes text.new ≡ string_bytes text.old
        ++ spaced_words (map (spec.name_of parts.now) owners.now)) }
{
    for owner in owners {
        text.push(' ')?;
        text.push_str(name_of(parts, *owner))?;
    }
    text.push('\n')?;
    Ok(())
}

/// The owners of these names; none where one of them stands for nothing.
pub(crate) fn owners_named(
    alloc: Global,
    parts: &Parts,
    names: &[&[u8]],
) -> Result<Option<Vec<Owner>>, AllocError>
    requires { AreFew parts.now }
    ensures { IfOk result
        (λ found. option_map (λ v. v.items) found ≡ spec.owners_named parts.now (texts names.now)) }
{
    let mut owners = Vec::new(alloc);
    for name in names {
        match owner_named(parts, *name) {
            Some(owner) => owners.push(owner)?,
            None => return Ok(None),
        }
    }
    Ok(Some(owners))
}

/// The exports of a compartment; none where there is no such compartment.
fn exports_of(parts: &Parts, index: u32) -> &[Export]
    ensures { result.now ≡ (compartment parts.now index).code.exports }
{
    match parts.compartments.get(index as usize) {
        Some(compartment) => compartment.code.exports.as_slice(),
        None => &[],
    }
}

/// The first export of this name in a compartment, by the number of its entry.
#[tactic(auto, using(crate::proofs::Members::few_exports, crate::proofs::Members::found_is, crate::proofs::Members::none_is))]
fn export_in(parts: &Parts, name: &[u8], compartment: u32) -> Option<u32>
    requires { Sound parts.now }
    ensures { result ≡ spec.export_in parts.now name.now compartment }
{
    match index_of(exports_of(parts, compartment), name) {
        Some(export) => Some(export_number(parts, compartment, export)),
        None => None,
    }
}

/// A compartment's export, by the number of its entry.
pub(crate) fn export_named(parts: &Parts, owner: &[u8], name: &[u8]) -> Option<u32>
    requires { Sound parts.now }
    ensures { result ≡ spec.export_named parts.now owner.now name.now }
{
    match compartment_named(parts, owner) {
        Some(compartment) => export_in(parts, name, compartment),
        None => None,
    }
}
