//! The limits and forms of an image's fields: the first place at which one fails (definitions in
//! def_image's Limits; docs/use/image.md).
//!
//! A part's head, with the counts of its lists, is judged before its lists are gone through, and the
//! walk stops at the first fault: so it is linear in the bytes, though each name is looked for among
//! those before it.
#![tactic(auto)]

mod checks;
mod header;
mod names;
mod objects;
mod owners;
mod rows;
mod slots;

ghost use Rattle.std.specs.Prelude.{◌≡◌, ◌<◌, ◌^◌, length};
ghost use Rattle.def_image.specs.Checks as checks;
ghost use Rattle.def_image.specs.Limits.{limit_checks};
ghost use Rattle.def_image.specs.Shapes.{IsShaped};
ghost use Rattle.def_image.specs.Spelling.{spelled};
ghost use Rattle.def_image.specs.Sizes.{compartments_at};
ghost use Rattle.ct_image_limits.specs.Whole.{bytes_of, first_of_owners, first_of_parts};

use crate::checks::earlier_of;
use crate::header::header_limit;
use crate::objects::{devices_limit, sealed_end, sealed_objects_limit, shared_objects_limit};
use crate::owners::{
    compartments_end, compartments_limit, libraries_end, libraries_limit, threads_limit,
};
use ct_image_fields::RawImage;
use def_image::format::{DEVICE, HEADER, SHARED};
use def_image::versions::rate_size;
/// The first place at which compartments, libraries or threads fail.
fn owners_fault(raw: &RawImage, at: u32) -> Option<u32>
    requires at { at ≡ compartments_at raw.now }
    requires small { bytes_of raw.now < 2 ^ 32 }
    ensures { result ≡ first_of_owners raw.now }
{
    let compartments = raw.compartments.as_slice();
    let libraries = raw.libraries.as_slice();
    let threads = raw.threads.as_slice();
    let (libraries_at, entry) = compartments_end(at, compartments);
    let threads_at = libraries_end(libraries_at, libraries);
    earlier_of(
        compartments_limit(at, compartments),
        earlier_of(
            libraries_limit(libraries_at, entry, compartments, libraries),
            threads_limit(threads_at, compartments, libraries, threads),
        ),
    )
}

/// The first place after the header at which the fields fail.
fn parts_fault(raw: &RawImage) -> Option<u32>
    requires { bytes_of raw.now < 2 ^ 32 }
    ensures { result ≡ first_of_parts raw.now }
{
    let devices = raw.devices.as_slice();
    let shared = raw.shared.as_slice();
    let sealed = raw.sealed.as_slice();
    let devices_at = HEADER + rate_size(raw.version as u64);
    let shared_at = devices_at + DEVICE * devices.len() as u32;
    let sealed_at = shared_at + SHARED * shared.len() as u32;
    earlier_of(
        devices_limit(devices_at, devices),
        earlier_of(
            shared_objects_limit(shared_at, shared),
            earlier_of(
                sealed_objects_limit(sealed_at, sealed),
                owners_fault(raw, sealed_end(sealed_at, sealed)),
            ),
        ),
    )
}

/// The first place at which a limit or form of the fields fails, if one does.
///
/// Condition: the fields are those of fewer than 2 to the 32 bytes.
#[tactic(auto, using(crate::proofs::Heads::limits_first))]
pub fn limit_fault(raw: &RawImage) -> Option<u32>
    requires shaped { IsShaped raw.now }
    requires small { length (spelled raw.now) < 2 ^ 32 }
    ensures { result ≡ checks.first (limit_checks raw.now) }
{
    match header_limit(raw) {
        Some(place) => Some(place),
        None => parts_fault(raw),
    }
}
