//! Rows of entries.

ghost use Rattle.std.specs.Prelude.{◌≡◌, ◌++◌, IfOk};
ghost use Rattle.ct_entry.specs.Listed.{row};
ghost use Rattle.def_boot.specs.Entries as spec;
ghost use Rattle.def_image.specs.Sound.{Sound};

use crate::owners::{add_compartments, add_libraries, add_threads};
use ct_entry::{Entry, Kind, Owner};
use ct_image_parts::Parts;
use std::alloc::{AllocError, Global};

/// A row without a limit.
pub(crate) fn row(owner: Owner, kind: Kind, base: u32, length: u32, rights: u32, of: u32) -> Entry
    ensures { result ≡ row owner kind base length rights of }
{
    Entry {
        owner,
        kind,
        base,
        length,
        rights,
        of,
        limit: 0,
    }
}

/// The rows of an image's parts, in the order of their numbers.
#[tactic(auto, using(crate::proofs::Standing::stands), unfolding(def_boot::specs::Entries::entry_rows))]
pub(crate) fn rows_of(alloc: Global, parts: &Parts) -> Result<Vec<Entry>, AllocError>
    requires { Sound parts.now }
    ensures { IfOk result (λ v. v.items ≡ spec.entry_rows parts.now) }
{
    let mut rows = Vec::new(alloc);
    add_compartments(&mut rows, parts, parts.compartments.as_slice())?;
    add_libraries(&mut rows, parts, parts.libraries.as_slice())?;
    add_threads(&mut rows, parts.threads.as_slice())?;
    Ok(rows)
}
