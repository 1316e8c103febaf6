//! The error handlers of compartments.

ghost use Rattle.std.specs.Prelude.{◌≡◌, IfOk, length, map, position};
ghost use Rattle.def_boot.specs.Boot.{numbered_from};
ghost use Rattle.def_image.specs.Members.{handler_number, is_handler};
ghost use Rattle.def_image.specs.Sound.{Sound};
ghost use Rattle.ct_entries.specs.Fits.{handler_in};

use crate::naming::number_at;
use ct_image_parts::{Compartment, Export, Parts};
use std::alloc::{AllocError, Global};

/// The name of the export that is a compartment's error handler.
const HANDLER: &str = "handler";

/// Where among a compartment's exports its error handler stands.
fn handler_place(exports: &[Export]) -> Option<usize>
    ensures { result ≡ position is_handler exports.now }
{
    exports
        .iter()
        .position(|export| export.name.as_bytes() == HANDLER.as_bytes())
}

/// The number in the row of a compartment's error handler; 0 where it has none.
fn handler_in(compartment: &Compartment) -> u32
    ensures { result ≡ handler_in compartment.now }
{
    let exports = compartment.code.exports.as_slice();
    match handler_place(exports) {
        Some(place) => number_at(exports, place),
        None => 0,
    }
}

/// The numbers in the rows of the error handlers of compartments, in their order.
fn handlers_in(alloc: Global, compartments: &[Compartment]) -> Result<Vec<u32>, AllocError>
    ensures { IfOk result (λ v. v.items ≡ map handler_in compartments.now) }
{
    let mut all = Vec::with_capacity(alloc, compartments.len())?;
    for compartment in compartments {
        all.push(handler_in(compartment))?;
    }
    Ok(all)
}

/// The numbers of the entries of compartments' error handlers, in the order of an image's parts.
#[tactic(auto, using(crate::proofs::Numbered::handlers_numbered))]
pub(crate) fn handlers_of(alloc: Global, parts: &Parts) -> Result<Vec<u32>, AllocError>
    requires { Sound parts.now }
    ensures { IfOk result (λ v. v.items
        ≡ numbered_from (handler_number parts.now) 0 (length parts.now.compartments)) }
{
    handlers_in(alloc, parts.compartments.as_slice())
}
