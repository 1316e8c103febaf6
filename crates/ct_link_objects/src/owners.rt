//! The compartments and libraries of a description, one after another.

ghost use Rattle.std.specs.Prelude.{◌≡◌, ◌+◌, ◌<◌, ◌^◌, Some, length};
ghost use Rattle.std.specs.List.{slice_get};
ghost use Rattle.def_link.specs.Owners as spec;
ghost use Rattle.ct_link_objects.specs.Objects.{built_of, index_of, unit_of};

use crate::exports::first_lost;
use ct_asm::Object;
use ct_desc_rows::{Code, Compartment, Desc, Library};
use ct_entry::Owner;

/// The row of a compartment or of a library, by its index within its kind.
#[derive(Clone, Copy, Drop)]
pub(crate) enum OwnerRow<'a> {
    Compartment(usize, &'a Compartment),
    Library(usize, &'a Library),
}

impl<'a> OwnerRow<'a> {
    /// Whose row it is.
    pub(crate) fn owner(self) -> Owner
        requires { index_of (unit_of self).owner < 2 ^ 32 }
        ensures { result ≡ (unit_of self.entry).owner }
    {
        match self {
            OwnerRow::Compartment(index, _) => Owner::Compartment(index as u32),
            OwnerRow::Library(index, _) => Owner::Library(index as u32),
        }
    }

    /// Its code.
    pub(crate) fn code(self) -> &'a Code
        ensures { result.now ≡ (unit_of self.entry).code }
    {
        match self {
            OwnerRow::Compartment(_, row) => &row.code,
            OwnerRow::Library(_, row) => &row.code,
        }
    }

    /// The first of its exports that begins nowhere in its object.
    pub(crate) fn first_lost(self, object: &Object) -> Option<u32>
        requires { length (unit_of self).exports < 2 ^ 32 }
        ensures { result ≡ spec.first_lost (built_of object.now) 0 (unit_of self.entry).exports }
    {
        match self {
            OwnerRow::Compartment(_, row) => first_lost(object, row.exports.as_slice()),
            OwnerRow::Library(_, row) => first_lost(object, row.exports.as_slice()),
        }
    }
}

/// How many compartments and libraries a description has.
#[tactic(auto, using(crate::proofs::Rows::owners_counted))]
pub(crate) fn owner_count(desc: &Desc) -> usize
    ensures { result ≡ length (spec.units_of desc.now) }
{
    desc.compartments.len() + desc.libraries.len()
}

/// The row of an owner, compartments first.
#[tactic(auto, using(crate::proofs::Rows::own_at, crate::proofs::Rows::lent_at))]
pub(crate) fn owner_row(desc: &Desc, owner: usize) -> OwnerRow<'_>
    requires { owner < length (spec.units_of desc.now) }
    ensures { slice_get (spec.units_of desc.now) owner ≡ Some (unit_of result) }
{
    let own = desc.compartments.len();
    if owner < own {
        return OwnerRow::Compartment(owner, &desc.compartments[owner]);
    }
    let index = owner - own;
    OwnerRow::Library(index, &desc.libraries[index])
}
