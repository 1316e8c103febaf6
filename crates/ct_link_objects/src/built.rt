//! The objects of all owners, or the first fault.

ghost use Rattle.std.specs.Prelude.{◌≡◌, ◌≤◌, ◌<◌, ◌+◌, ◌^◌, ℕ, List, length, map, drop, MatchResult, IfOk, IfErr};
ghost use Rattle.std.specs.List.{AllByRecursion};
ghost use Rattle.def_link.specs.Owners as spec;
ghost use Rattle.ct_link_objects.specs.Objects.{IsLinkable, built_of, file_of, unit_of, IsBuilt, AreBuilt, IsCounted, RefusesLink};

use crate::code::code_object;
use crate::files::files_in;
use crate::names::names_of;
use crate::owners::{OwnerRow, owner_count, owner_row};
use crate::sources::Sources;
use ct_asm::Object;
use ct_desc_rows::{Code, Desc};
use ct_entry::Owner;
use def_link::LinkFault;
use std::alloc::Global;

/// Whether an object has initial bytes that its owner may not have: a library has no globals.
fn has_stray_bytes(owner: Owner, object: &Object) -> bool
    ensures { result ≡ spec.has_stray_bytes owner (built_of object.now) }
{
    matches!(owner, Owner::Library(_)) && 0 < object.init.len()
}

/// The object of an owner: a fault of its code first, then an export that begins nowhere, then a
/// library's initial bytes.
#[tactic(auto, using(crate::proofs::Units::unit_refused, crate::proofs::Units::unit_lost, crate::proofs::Units::unit_stray, crate::proofs::Units::unit_placed))]
fn unit_object(alloc: Global, row: OwnerRow<'_>, source: &[u8]) -> Result<Object, LinkFault>
    requires counted { IsCounted (unit_of row) }
    requires short { length source.now < 2 ^ 32 }
    ensures ok { IfOk result (λ o. IsBuilt (spec.unit_built (unit_of row.entry) source.now) o) }
    ensures err { IfErr result
        (λ e. RefusesLink (spec.unit_built (unit_of row.entry) source.now) e) }
{
    let owner = row.owner();
    let Ok(slots) = names_of(alloc, row) else {
        return Err(LinkFault::NoMemory);
    };
    let made = code_object(alloc, owner, &slots, row.code(), source);
    drop(slots);
    let object = made?;
    if let Some(item) = row.first_lost(&object) {
        drop(object);
        return Err(LinkFault::Export { owner, item });
    }
    if has_stray_bytes(owner, &object) {
        drop(object);
        return Err(LinkFault::Initial { owner });
    }
    Ok(object)
}

/// The text that stands next.
#[tactic(auto, using(crate::proofs::Steps::head_at))]
fn text_at(texts: &[Vec<u8>], next: usize) -> &[u8]
    requires { next < length texts.now }
    ensures { result.now ≡ spec.head_or_none (drop next (map (λ t. t.items) texts.now)) }
{
    texts[next].as_slice()
}

/// The text of a code that is a file, which stands next; none of a code of words.
fn source_for<'a>(code: &Code, sources: &'a Sources, next: usize) -> &'a [u8]
    requires there { next + file_of code.now.file ≤ length sources.now }
    requires short { AllByRecursion (λ (t : List ℕ). length t < 2 ^ 32) sources.now }
    ensures value { result.now ≡ spec.source_for code.now.file (drop next sources.now) }
    ensures short { length result.now < 2 ^ 32 }
{
    match code.file {
        None => &[],
        Some(_) => text_at(sources.texts.as_slice(), next),
    }
}

/// The object of each compartment, then of each library: its text, initial bytes and labels.
///
/// The first fault in owner order, compartments first; of one owner first a fault of its text, then
/// L3 an import that isn't declared, then a fault of the assembly, then L1 an export that begins
/// nowhere, then L4 a library's initial bytes. NoMemory where a growth was refused.
///
/// Condition: the description is lawful, and there is one text, of fewer than 2 to the 32 bytes,
/// for each of its codes that is a file.
#[tactic(auto, using(crate::proofs::Progress::all_done))]
pub fn objects(alloc: Global, desc: &Desc, sources: &Sources) -> Result<Vec<Object>, LinkFault>
    requires { IsLinkable desc.now sources.now }
    ensures { MatchResult result
        (λ all. AreBuilt (spec.all_built (spec.units_of desc.now) sources.now) all.items)
        (λ e. RefusesLink (spec.all_built (spec.units_of desc.now) sources.now) e) }
{
    let mut all = Vec::new(alloc);
    let mut next = 0;
    for owner in 0..owner_count(desc) {
        let row = owner_row(desc, owner);
        let source = source_for(row.code(), sources, next);
        let object = unit_object(alloc, row, source)?;
        let Ok(()) = all.push(object) else {
            return Err(LinkFault::NoMemory);
        };
        next += files_in(row.code());
    }
    Ok(all)
}
