//! The numbers of an image's entries.

ghost use Rattle.std.specs.Prelude.{◌≡◌, ◌<◌, ◌≤◌, ◌+◌, ◌^◌, All, length, option_map, slice_get};
ghost use Rattle.def_profile.specs.declared.limits.TheConstants.{MOST_COMPARTMENTS, MOST_COMPARTMENT_ENTRIES, MOST_LIBRARIES, MOST_LIBRARY_ENTRIES, MOST_OWN_ENTRIES, MOST_SHARED_ENTRIES};
ghost use Rattle.def_image.specs.Members as member;
ghost use Rattle.def_image.specs.Members.{code_number, compartment_entries, globals_number, library_entries, library_number, stack_number};
ghost use Rattle.def_image.specs.Sizes.{sum_of};
ghost use Rattle.def_image.specs.Sound.{Sound};

use ct_image_parts::{Code, Compartment, Export, Parts};
use def_profile::layout::SLOT_SIZE;

/// How many entries these compartments have: each its code, its globals, its slots and its exports.
fn own_entries(compartments: &[Compartment]) -> u32
    requires few { length compartments.now ≤ MOST_COMPARTMENTS }
    requires each { All (λ c. compartment_entries c ≤ MOST_COMPARTMENT_ENTRIES) compartments.now }
    ensures is { result ≡ sum_of compartment_entries compartments.now }
    ensures small { result ≤ MOST_OWN_ENTRIES }
{
    let mut total = 0;
    for compartment in compartments.iter() {
        let code = &compartment.code;
        total += 2 + code.slots.len() as u32 + code.exports.len() as u32;
    }
    total
}

/// How many entries these libraries have: each its code, its slots and its exports.
fn shared_entries(libraries: &[Code]) -> u32
    requires few { length libraries.now ≤ MOST_LIBRARIES }
    requires each { All (λ c. library_entries c ≤ MOST_LIBRARY_ENTRIES) libraries.now }
    ensures is { result ≡ sum_of library_entries libraries.now }
    ensures small { result ≤ MOST_SHARED_ENTRIES }
{
    let mut total = 0;
    for code in libraries.iter() {
        total += 1 + code.slots.len() as u32 + code.exports.len() as u32;
    }
    total
}

/// The number of a compartment's code.
pub(crate) fn code_number(parts: &Parts, of: usize) -> u32
    requires sound { Sound parts.now }
    requires there { of < length parts.now.compartments }
    ensures is { result ≡ code_number parts.now of }
    ensures globals { result + 1 ≡ globals_number parts.now of }
    ensures small { result ≤ 1 + MOST_OWN_ENTRIES }
{
    1 + own_entries(&parts.compartments[..of])
}

/// The number of a library's code.
pub(crate) fn library_number(parts: &Parts, of: usize) -> u32
    requires sound { Sound parts.now }
    requires there { of < length parts.now.libraries }
    ensures is { result ≡ library_number parts.now of }
    ensures small { result ≤ 1 + MOST_OWN_ENTRIES + MOST_SHARED_ENTRIES }
{
    1 + own_entries(parts.compartments.as_slice()) + shared_entries(&parts.libraries[..of])
}

/// The number of a thread's stack.
pub(crate) fn stack_number(parts: &Parts, of: usize) -> u32
    requires sound { Sound parts.now }
    requires there { of < length parts.now.threads }
    ensures { result ≡ stack_number parts.now of }
{
    let owned = own_entries(parts.compartments.as_slice());
    1 + owned + shared_entries(parts.libraries.as_slice()) + of as u32
}

/// The number of an export of a compartment, whose code has a number.
pub(crate) fn export_number(number: u32, code: &Code, export: u32) -> u32
    requires { number + 2 + length code.now.slots + export < 2 ^ 32 }
    ensures { result ≡ number + 2 + length code.now.slots + export }
{
    number + 2 + code.slots.len() as u32 + export
}

/// The address at which an owner's text begins.
pub(crate) fn text_base(code: &Code) -> u32
    requires { member.text_base code.now < 2 ^ 32 }
    ensures { result ≡ member.text_base code.now }
{
    code.base + SLOT_SIZE * code.slots.len() as u32
}

/// The export at an index.
pub(crate) fn export_at(code: &Code, index: u32) -> Option<&Export>
    ensures { option_map (λ x. x.now) result ≡ slice_get code.now.exports index }
{
    code.exports.get(index as usize)
}

/// The compartment at an index.
pub(crate) fn compartment_at(parts: &Parts, index: u32) -> Option<&Compartment>
    ensures { option_map (λ c. c.now) result ≡ slice_get parts.now.compartments index }
{
    parts.compartments.get(index as usize)
}

/// The library at an index.
pub(crate) fn library_at(parts: &Parts, index: u32) -> Option<&Code>
    ensures { option_map (λ c. c.now) result ≡ slice_get parts.now.libraries index }
{
    parts.libraries.get(index as usize)
}
