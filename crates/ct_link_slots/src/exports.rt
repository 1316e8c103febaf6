//! Exports, named as `owner.export`.

ghost use Rattle.std.specs.Prelude.{◌≡◌, ◌<◌, ◌^◌, length, map, option_map};
ghost use Rattle.std.specs.List.{AllByRecursion};
ghost use Rattle.def_desc.specs.References.{export_name};
ghost use Rattle.def_link.specs.Slots as spec;
ghost use Rattle.ct_link_slots.specs.Exporters.{IsExporter, IsLibraryExporter, exporter, library_exporter, after_point as spec_after_point, after_owner as spec_after_owner};

use crate::named::{Named, index_named};
use ct_desc_rows::{Compartment, Library};
use std::marker::Model;

/// An export, by its owner's index and its own.
#[derive(Drop)]
pub struct Exported {
    pub owner: u32,
    pub export: u32,
}

impl Model for Exported {
    ghost use Rattle.def_link.specs.Slots.{Exported as ExportedRow};

    ghost Value = { ExportedRow };

    ghost view = { λ x. record { owner = x.owner; export = x.export } };
}

/// What follows a point.
fn after_point(text: &[u8]) -> Option<&[u8]>
    ensures { option_map (λ s. s.now) result ≡ spec_after_point text.now }
{
    match text {
        [46, name @ ..] => Some(name),
        _ => None,
    }
}

/// What follows `owner.` in a text that begins so.
fn after_owner<'a>(text: &'a [u8], owner: &[u8]) -> Option<&'a [u8]>
    ensures { option_map (λ s. s.now) result ≡ spec_after_owner text.now owner.now }
{
    match text.strip_prefix(owner) {
        Some(rest) => after_point(rest),
        None => None,
    }
}

/// The index of the first export that a text names, or their number.
#[tactic(auto, using(crate::proofs::Names::other_owner, crate::proofs::Names::own_export))]
fn export_in<T: Named>(text: &[u8], owner: &[u8], exports: &[T]) -> u32
    requires { length exports.now < 2 ^ 32 }
    ensures { result ≡ spec.index_of text.now
        (map (export_name owner.now) (map T.name_of exports.now)) }
{
    match after_owner(text, owner) {
        Some(name) => index_named(name, exports),
        None => exports.len() as u32,
    }
}

/// The export of a compartment that a text names; a lawful one names one.
#[tactic(auto, using(law_lists::proofs::Places::at_each, crate::proofs::Names::call_met, crate::proofs::Names::call_passed))]
pub fn called(compartments: &[Compartment], text: &[u8]) -> Exported
    requires few { length compartments.now < 2 ^ 32 }
    requires each { AllByRecursion IsExporter compartments.now }
    ensures { result ≡ spec.export_from text.now 0 (map exporter compartments.now) }
{
    let mut owner = 0;
    for compartment in compartments {
        let exports = compartment.exports.as_slice();
        let export = export_in(text, compartment.name.as_bytes(), exports);
        if (export as usize) < exports.len() {
            return Exported { owner, export };
        }
        owner += 1;
    }
    Exported { owner, export: 0 }
}

/// The export of a library that a text names; a lawful one names one.
#[tactic(auto, using(law_lists::proofs::Places::at_each, crate::proofs::Names::lent_met, crate::proofs::Names::lent_passed))]
pub(crate) fn lent(libraries: &[Library], text: &[u8]) -> Exported
    requires few { length libraries.now < 2 ^ 32 }
    requires each { AllByRecursion IsLibraryExporter libraries.now }
    ensures { result ≡ spec.export_from text.now 0 (map library_exporter libraries.now) }
{
    let mut owner = 0;
    for library in libraries {
        let exports = library.exports.as_slice();
        let export = export_in(text, library.name.as_bytes(), exports);
        if (export as usize) < exports.len() {
            return Exported { owner, export };
        }
        owner += 1;
    }
    Exported { owner, export: 0 }
}
