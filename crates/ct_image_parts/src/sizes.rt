//! How many bytes the parts of an image have, and where its lists begin in its bytes
//! (docs/use/image.md; definitions in def_image's Sizes).

ghost use Rattle.std.specs.Prelude.{◌≡◌, ◌<◌, ◌+◌, ◌^◌};
ghost use Rattle.def_image.specs.Spelling as spelling;
ghost use Rattle.def_image.specs.Sizes.{sum_of};
ghost use Rattle.ct_image_parts.specs.Places as spec;
ghost use Rattle.ct_image_parts.specs.Places.{AreAt};

use crate::{Code, Compartment, Parts, Sealed};
use def_image::format::{
    COMPARTMENT_HEAD, DEVICE, ENTRY, HEADER, LIBRARY_HEAD, SEALED_HEAD, SHARED,
};
use def_image::versions::rate_size;

/// Where each list begins, as an offset in the bytes.
#[derive(Clone, Copy, Drop)]
pub struct Places {
    pub devices: u32,
    pub shared: u32,
    pub sealed: u32,
    pub compartments: u32,
    pub libraries: u32,
    pub threads: u32,
}

/// How many zeros lead from this length to a multiple of 4.
fn padding_after(length: u32) -> u32
    ensures value { result ≡ spelling.padding_after length }
    ensures few { result < 4 }
{
    (4 - length % 4) % 4
}

/// How many bytes a sealed object has.
pub fn sealed_bytes(sealed: &Sealed) -> u32
    requires { spec.sealed_bytes sealed.now < 2 ^ 32 }
    ensures { result ≡ spec.sealed_bytes sealed.now }
{
    let held = sealed.bytes.len() as u32;
    SEALED_HEAD + held + padding_after(held)
}

/// How many bytes slots, exports and text have.
fn tables_bytes(code: &Code) -> u32
    requires { spec.tables_bytes code.now < 2 ^ 32 }
    ensures { result ≡ spec.tables_bytes code.now }
{
    let slots = code.slots.len() as u32;
    let exports = code.exports.len() as u32;
    ENTRY * slots + ENTRY * exports + code.text.len() as u32
}

/// How many bytes a compartment has.
pub fn compartment_bytes(compartment: &Compartment) -> u32
    requires { spec.compartment_bytes compartment.now < 2 ^ 32 }
    ensures { result ≡ spec.compartment_bytes compartment.now }
{
    let initial = compartment.initial.len() as u32;
    COMPARTMENT_HEAD + tables_bytes(&compartment.code) + initial + padding_after(initial)
}

/// How many bytes a library has.
pub fn library_bytes(library: &Code) -> u32
    requires { spec.library_bytes library.now < 2 ^ 32 }
    ensures { result ≡ spec.library_bytes library.now }
{
    LIBRARY_HEAD + tables_bytes(library)
}

/// Where sealed objects end that begin here.
fn sealed_end(at: u32, sealed: &[Sealed]) -> u32
    requires { at + sum_of spec.sealed_bytes sealed.now < 2 ^ 32 }
    ensures { result ≡ at + sum_of spec.sealed_bytes sealed.now }
{
    let mut place = at;
    for object in sealed {
        place += sealed_bytes(object);
    }
    place
}

/// Where compartments end that begin here.
fn compartments_end(at: u32, compartments: &[Compartment]) -> u32
    requires { at + sum_of spec.compartment_bytes compartments.now < 2 ^ 32 }
    ensures { result ≡ at + sum_of spec.compartment_bytes compartments.now }
{
    let mut place = at;
    for compartment in compartments {
        place += compartment_bytes(compartment);
    }
    place
}

/// Where libraries end that begin here.
fn libraries_end(at: u32, libraries: &[Code]) -> u32
    requires { at + sum_of spec.library_bytes libraries.now < 2 ^ 32 }
    ensures { result ≡ at + sum_of spec.library_bytes libraries.now }
{
    let mut place = at;
    for library in libraries {
        place += library_bytes(library);
    }
    place
}

/// Where each list begins.
pub fn places_of(parts: &Parts) -> Places
    requires { spec.end_place parts.now < 2 ^ 32 }
    ensures { AreAt parts.now result }
{
    let devices = HEADER + rate_size(parts.version as u64);
    let shared = devices + DEVICE * parts.devices.rows.len() as u32;
    let sealed = shared + SHARED * parts.shared.len() as u32;
    let compartments = sealed_end(sealed, parts.sealed.as_slice());
    let libraries = compartments_end(compartments, parts.compartments.as_slice());
    let threads = libraries_end(libraries, parts.libraries.as_slice());
    Places {
        devices,
        shared,
        sealed,
        compartments,
        libraries,
        threads,
    }
}
