//! What is asked of compartments, libraries and threads.

ghost use Rattle.std.specs.Prelude.{◌≡◌, ◌≤◌, ◌<◌, ◌+◌, ◌*◌, ◌^◌, ◌++◌, length, map, []};
ghost use Rattle.def_texts.specs.Names.{among};
ghost use Rattle.def_image.specs.Checks as checks;
ghost use Rattle.def_image.specs.Limits as spec;
ghost use Rattle.def_image.specs.Sizes as sizes;
ghost use Rattle.def_image.specs.Sizes.{sum_of};
ghost use Rattle.def_image.specs.declared.format.TheConstants.{THREAD as THREAD_SIZE, COMPARTMENT_HEAD as OWN_HEAD, LIBRARY_HEAD as SHARED_HEAD};
ghost use Rattle.def_image.specs.First.{first_some};
ghost use Rattle.ct_image_limits.specs.Owners as parts;

use crate::checks::{are_zeros, check, earlier_of, first, name_checks, outside};
use crate::names::is_among;
use crate::rows::{COMPARTMENT_BOUNDS, LIBRARY_BOUNDS};
use crate::slots::{exports_limit, own_slots_limit, slots_limit};
use ct_image_fields::{RawCode, RawCompartment, RawThread, name_of};
use def_image::Check;
use def_image::format::{COMPARTMENT_HEAD, ENTRY, LIBRARY_HEAD, THREAD};
use def_profile::layout::{REGION_UNIT, SLOT_SIZE};
use def_profile::limits::{
    LEAST_STACK, MOST_BYTES, MOST_EXPORTS, MOST_FRAMES, MOST_IMPORTS, MOST_PRIORITY, MOST_SLOTS,
    MOST_STACK_REGION,
};

/// How many bytes slots, exports and text have.
fn tables_size(code: &RawCode) -> u32
    requires { sizes.tables_size code.now < 2 ^ 32 }
    ensures { result ≡ sizes.tables_size code.now }
{
    let entries = code.slots.len() as u32 + code.exports.len() as u32;
    ENTRY * entries + code.text.len() as u32
}

/// How many bytes a compartment has.
fn compartment_size(compartment: &RawCompartment) -> u32
    requires { sizes.compartment_size compartment.now < 2 ^ 32 }
    ensures { result ≡ sizes.compartment_size compartment.now }
{
    let data = compartment.initial.len() as u32 + compartment.padding.len() as u32;
    COMPARTMENT_HEAD + tables_size(&compartment.code) + data
}

/// How many bytes a library has.
fn library_size(library: &RawCode) -> u32
    requires { sizes.library_size library.now < 2 ^ 32 }
    ensures { result ≡ sizes.library_size library.now }
{
    LIBRARY_HEAD + tables_size(library)
}

/// How many entries a compartment has: code, globals, slots and exports.
fn compartment_entries(compartment: &RawCompartment) -> u32
    requires { sizes.compartment_size compartment.now < 2 ^ 32 }
    ensures value { result ≡ spec.raw_compartment_entries compartment.now }
    ensures few { result ≤ sizes.compartment_size compartment.now }
{
    2 + compartment.code.slots.len() as u32 + compartment.code.exports.len() as u32
}

/// How many entries a library has: code, slots and exports.
fn library_entries(library: &RawCode) -> u32
    requires { sizes.library_size library.now < 2 ^ 32 }
    ensures value { result ≡ spec.raw_library_entries library.now }
    ensures few { result ≤ sizes.library_size library.now }
{
    1 + library.slots.len() as u32 + library.exports.len() as u32
}

/// What is asked of slots and text: that they fit the region, and that the text is words.
fn code_checks(at: u32, code: &RawCode) -> [Check; 2]
    requires { at + sizes.library_size code.now < 2 ^ 32 }
    ensures { result ≡ spec.code_limits at code.now }
{
    let slots = code.slots.len() as u64;
    let text = code.text.len() as u64;
    let held = SLOT_SIZE as u64 * slots + text;
    [
        check(at + 36, (code.length as u64) < held),
        check(at + 40, (MOST_BYTES as u64) < text || text % 4 != 0),
    ]
}

/// What is asked of a compartment's head.
#[tactic(auto, unfolding(def_image::specs::Limits::name_checks))]
fn compartment_head(at: u32, repeated: bool, compartment: &RawCompartment) -> Option<u32>
    requires { at + sizes.compartment_size compartment.now < 2 ^ 32 }
    ensures { result ≡ checks.first (parts.compartment_head at repeated compartment.now) }
{
    let [name, padding] = name_checks(at, repeated, false, &compartment.code.name);
    let [held, text] = code_checks(at, &compartment.code);
    let globals = compartment.globals_length;
    let initial = compartment.initial.len();
    let slots = compartment.code.slots.len();
    let exports = compartment.code.exports.len();
    first(&[
        name,
        padding,
        held,
        text,
        check(at + 52, outside(REGION_UNIT, MOST_BYTES, globals)),
        check(
            at + 56,
            (MOST_BYTES as usize) < initial || (globals as usize) < initial,
        ),
        check(at + 60, !(1 <= slots && slots <= MOST_SLOTS as usize)),
        check(at + 64, (MOST_EXPORTS as usize) < exports),
    ])
}

/// The first place at which slots, exports or padding of a compartment fail. `entry` is the number
/// of its first entry.
fn compartment_tables(at: u32, entry: u32, compartment: &RawCompartment) -> Option<u32>
    requires room { at + sizes.compartment_size compartment.now < 2 ^ 32 }
    requires number { entry ≤ at }
    ensures { result ≡ parts.first_of_tables at entry compartment.now }
{
    let code = &compartment.code;
    let slots = code.slots.len() as u32;
    let exports = code.exports.len() as u32;
    let text = code.text.len() as u32;
    let table = at + COMPARTMENT_HEAD;
    let gates = table + ENTRY * slots;
    let padding = gates + ENTRY * exports + text + compartment.initial.len() as u32;
    let dirty = check(padding, !are_zeros(compartment.padding.as_slice()));
    earlier_of(
        own_slots_limit(table, code.slots.as_slice()),
        earlier_of(
            exports_limit(
                COMPARTMENT_BOUNDS,
                text,
                entry + 2 + slots,
                gates,
                code.exports.as_slice(),
            ),
            first(&[dirty]),
        ),
    )
}

/// The first place at which a compartment fails. `entry` is the number of its first entry.
#[tactic(auto, using(crate::proofs::Heads::compartment_first))]
fn compartment_limit(
    at: u32,
    entry: u32,
    earlier: &[RawCompartment],
    compartment: &RawCompartment,
) -> Option<u32>
    requires room { at + sizes.compartment_size compartment.now < 2 ^ 32 }
    requires number { entry ≤ at }
    ensures { result
        ≡ checks.first
        (spec.compartment_limits_by entry at (map spec.compartment_name earlier.now)
        compartment.now) }
{
    let repeated = is_among(name_of(&compartment.code.name), earlier);
    match compartment_head(at, repeated, compartment) {
        Some(place) => Some(place),
        None => compartment_tables(at, entry, compartment),
    }
}

/// What is asked of a library's head.
fn library_head(at: u32, repeated: bool, library: &RawCode) -> Option<u32>
    requires { at + sizes.library_size library.now < 2 ^ 32 }
    ensures { result ≡ checks.first (parts.library_head at repeated library.now) }
{
    let [name, padding] = name_checks(at, repeated, false, &library.name);
    let [held, text] = code_checks(at, library);
    let slots = library.slots.len();
    let exports = library.exports.len();
    first(&[
        name,
        padding,
        held,
        text,
        check(at + 44, (MOST_IMPORTS as usize) < slots),
        check(at + 48, (MOST_EXPORTS as usize) < exports),
    ])
}

/// The first place at which slots or exports of a library fail. `entry` is the number of its first
/// entry.
fn library_tables(at: u32, entry: u32, library: &RawCode) -> Option<u32>
    requires room { at + sizes.library_size library.now < 2 ^ 32 }
    requires number { entry ≤ at }
    ensures { result ≡ parts.first_of_library at entry library.now }
{
    let slots = library.slots.len() as u32;
    let text = library.text.len() as u32;
    let table = at + LIBRARY_HEAD;
    let gates = table + ENTRY * slots;
    earlier_of(
        slots_limit(table, library.slots.as_slice()),
        exports_limit(
            LIBRARY_BOUNDS,
            text,
            entry + 1 + slots,
            gates,
            library.exports.as_slice(),
        ),
    )
}

/// The first place at which a library fails, whose name is none of the compartments' either.
#[tactic(auto, using(crate::proofs::Heads::library_first, crate::proofs::Heads::among_two))]
fn library_limit(
    at: u32,
    entry: u32,
    compartments: &[RawCompartment],
    earlier: &[RawCode],
    library: &RawCode,
) -> Option<u32>
    requires room { at + sizes.library_size library.now < 2 ^ 32 }
    requires number { entry ≤ at }
    ensures { result ≡ checks.first (spec.library_limits_by entry at
        (map spec.compartment_name compartments.now ++ map spec.library_name earlier.now)
        library.now) }
{
    let name = name_of(&library.name);
    let repeated = is_among(name, compartments) || is_among(name, earlier);
    match library_head(at, repeated, library) {
        Some(place) => Some(place),
        None => library_tables(at, entry, library),
    }
}

/// The first place at which a thread fails, whose name is no owner's either.
#[tactic(auto, unfolding(def_image::specs::Limits::thread_limits_by, def_image::specs::Limits::name_checks), using(crate::proofs::Heads::among_three))]
fn thread_limit(
    at: u32,
    compartments: &[RawCompartment],
    libraries: &[RawCode],
    earlier: &[RawThread],
    thread: &RawThread,
) -> Option<u32>
    requires { at + THREAD_SIZE < 2 ^ 32 }
    ensures { result ≡ checks.first (spec.thread_limits_by at
        (map spec.compartment_name compartments.now ++ map spec.library_name libraries.now
        ++ map spec.thread_name earlier.now) thread.now) }
{
    let name = name_of(&thread.name);
    let repeated = is_among(name, compartments)
        || is_among(name, libraries)
        || is_among(name, earlier);
    let [form, padding] = name_checks(at, repeated, false, &thread.name);
    let length = thread.stack_length;
    first(&[
        form,
        padding,
        check(at + 36, outside(LEAST_STACK, MOST_STACK_REGION, length)),
        check(at + 48, MOST_PRIORITY < thread.priority),
        check(at + 52, outside(1, MOST_FRAMES, thread.frames)),
    ])
}

/// The first place at which a compartment fails.
pub(crate) fn compartments_limit(at: u32, compartments: &[RawCompartment]) -> Option<u32>
    requires room { at + sum_of sizes.compartment_size compartments.now < 2 ^ 32 }
    requires later { 1 ≤ at }
    ensures { result
        ≡ checks.first
        (checks.walked spec.compartment_limits sizes.compartment_size at [] compartments.now) }
{
    let mut place = at;
    let mut entry = 1;
    for index in 0..compartments.len() {
        let compartment = &compartments[index];
        if let Some(found) = compartment_limit(place, entry, &compartments[..index], compartment) {
            return Some(found);
        }
        place += compartment_size(compartment);
        entry += compartment_entries(compartment);
    }
    None
}

/// Where the parts after compartments begin, and the number of the entry after theirs.
pub(crate) fn compartments_end(at: u32, compartments: &[RawCompartment]) -> (u32, u32)
    requires room { at + sum_of sizes.compartment_size compartments.now < 2 ^ 32 }
    requires later { 1 ≤ at }
    ensures place { result.0 ≡ at + sum_of sizes.compartment_size compartments.now }
    ensures entry { result.1 ≡ 1 + sum_of spec.raw_compartment_entries compartments.now }
    ensures few { result.1 ≤ result.0 }
{
    let mut place = at;
    let mut entry = 1;
    for compartment in compartments {
        place += compartment_size(compartment);
        entry += compartment_entries(compartment);
    }
    (place, entry)
}

/// The first place at which a library fails. `first` is the number of the first one's first entry.
pub(crate) fn libraries_limit(
    at: u32,
    first: u32,
    compartments: &[RawCompartment],
    libraries: &[RawCode],
) -> Option<u32>
    requires room { at + sum_of sizes.library_size libraries.now < 2 ^ 32 }
    requires number { first ≤ at }
    ensures { result
        ≡ checks.first
        (checks.walked (parts.library_asked first compartments.now) sizes.library_size at []
        libraries.now) }
{
    let mut place = at;
    let mut entry = first;
    for index in 0..libraries.len() {
        let library = &libraries[index];
        if let Some(found) = library_limit(
            place,
            entry,
            compartments,
            &libraries[..index],
            library,
        ) {
            return Some(found);
        }
        place += library_size(library);
        entry += library_entries(library);
    }
    None
}

/// Where the parts after libraries begin.
pub(crate) fn libraries_end(at: u32, libraries: &[RawCode]) -> u32
    requires { at + sum_of sizes.library_size libraries.now < 2 ^ 32 }
    ensures { result ≡ at + sum_of sizes.library_size libraries.now }
{
    let mut place = at;
    for library in libraries {
        place += library_size(library);
    }
    place
}

/// The first place at which a thread fails.
pub(crate) fn threads_limit(
    at: u32,
    compartments: &[RawCompartment],
    libraries: &[RawCode],
    threads: &[RawThread],
) -> Option<u32>
    requires { at + THREAD_SIZE * length threads.now < 2 ^ 32 }
    ensures { result
        ≡ checks.first
        (checks.walked (parts.thread_asked compartments.now libraries.now) (λ t. THREAD_SIZE) at
        [] threads.now) }
{
    let mut place = at;
    for index in 0..threads.len() {
        let thread = &threads[index];
        if let Some(found) = thread_limit(
            place,
            compartments,
            libraries,
            &threads[..index],
            thread,
        ) {
            return Some(found);
        }
        place += THREAD;
    }
    None
}
