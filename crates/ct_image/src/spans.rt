//! The regions of an image, by the places of their bases.

ghost use Rattle.std.specs.Prelude.{◌≡◌, ◌≤◌, ◌<◌, ◌+◌, ◌*◌, ◌^◌, ◌++◌, length, All, IfOk, OnOk};
ghost use Rattle.def_profile.specs.declared.limits.TheConstants.{MOST_EXPORTS, MOST_FRAMES, MOST_THREADS_2};
ghost use Rattle.def_image.specs.Parts.{CompartmentRow, ThreadRow};
ghost use Rattle.def_image.specs.Sizes.{sum_of};
ghost use Rattle.def_image.specs.Regions as regions;
ghost use Rattle.def_image.specs.declared.format.TheConstants.{SHARED as SHARED_SIZE, THREAD as THREAD_SIZE};
ghost use Rattle.ct_image_parts.specs.Places as places;
ghost use Rattle.ct_image.specs.Spans as spec;
ghost use Rattle.ct_image.specs.Spans.{AreSmall, rows_of, unheld, row_of};
ghost use Rattle.ct_image_parts.specs.Places.{AreAt};

use ct_image_parts::{
    Code, Compartment, Parts, Places, Sealed, Shared, Thread, compartment_bytes, library_bytes,
    sealed_bytes,
};
use ct_layout::region_length;
use def_image::format::{NAME, NUMBER, SHARED, THREAD};
use def_profile::layout::{AREA_HEAD, FRAME_SIZE, TABLE_HEAD, TABLE_ROW, TRUSTED_HEAD};
use std::alloc::{AllocError, Global};

/// A region: where its base stands in the image, its base, and its length in bytes.
#[derive(Clone, Copy, Drop)]
pub(crate) struct Span {
    pub place: u32,
    pub base: u32,
    pub length: u64,
}

/// How many bytes the trusted region needs.
fn trusted_size(threads: &[Thread]) -> u32
    requires few { length threads.now ≤ MOST_THREADS_2 }
    requires frames { All (λ (t : ThreadRow). t.frames ≤ MOST_FRAMES) threads.now }
    ensures value { result ≡ regions.trusted_size threads.now }
    ensures small { result ≤ 403472 }
{
    let mut size = TRUSTED_HEAD;
    for thread in threads {
        size += AREA_HEAD + FRAME_SIZE * thread.frames;
    }
    size
}

/// The trusted region.
pub(crate) fn trusted_span(parts: &Parts) -> Span
    requires { AreSmall parts.now }
    ensures { row_of result ≡ unheld (regions.trusted_region parts.now) }
{
    Span {
        place: 44,
        base: parts.trusted,
        length: region_length(trusted_size(parts.threads.as_slice())),
    }
}

/// The length of the region of a compartment's export table.
fn table_length(compartment: &Compartment) -> u64
    requires { length compartment.now.code.exports ≤ MOST_EXPORTS }
    ensures { result ≡ regions.table_length compartment.now }
{
    region_length(TABLE_HEAD + TABLE_ROW * compartment.code.exports.len() as u32)
}

/// Adds the regions of shared objects, the first of which stands at this place.
fn add_shared(spans: &mut Vec<Span>, at: u32, shared: &[Shared]) -> Result<(), AllocError>
    requires { at + SHARED_SIZE * length shared.now < 2 ^ 32 }
    ensures { OnOk result
        (rows_of spans.new.items ≡ rows_of spans.old.items ++ spec.shared_rows at shared.now) }
{
    let mut place = at;
    for object in shared {
        spans.push(Span {
            place: place + NAME,
            base: object.base,
            length: object.length as u64,
        })?;
        place += SHARED;
    }
    Ok(())
}

/// Adds the regions of sealed objects.
fn add_sealed(spans: &mut Vec<Span>, at: u32, sealed: &[Sealed]) -> Result<(), AllocError>
    requires { at + sum_of places.sealed_bytes sealed.now < 2 ^ 32 }
    ensures { OnOk result
        (rows_of spans.new.items ≡ rows_of spans.old.items ++ spec.sealed_rows at sealed.now) }
{
    let mut place = at;
    for object in sealed {
        spans.push(Span {
            place: place + NAME,
            base: object.base,
            length: object.length as u64,
        })?;
        place += sealed_bytes(object);
    }
    Ok(())
}

/// The three regions of a compartment at this place.
fn add_compartment(
    spans: &mut Vec<Span>,
    at: u32,
    compartment: &Compartment,
) -> Result<(), AllocError>
    requires exports { length compartment.now.code.exports ≤ MOST_EXPORTS }
    requires room { at + places.compartment_bytes compartment.now < 2 ^ 32 }
    ensures { OnOk result
        (rows_of spans.new.items ≡ rows_of spans.old.items ++ spec.three_rows at compartment.now) }
{
    spans.push(Span {
        place: at + NAME,
        base: compartment.code.base,
        length: compartment.code.length as u64,
    })?;
    spans.push(Span {
        place: at + NAME + 3 * NUMBER,
        base: compartment.table,
        length: table_length(compartment),
    })?;
    spans.push(Span {
        place: at + NAME + 4 * NUMBER,
        base: compartment.globals,
        length: compartment.globals_length as u64,
    })?;
    Ok(())
}

/// Adds the regions of compartments.
fn add_compartments(
    spans: &mut Vec<Span>,
    at: u32,
    compartments: &[Compartment],
) -> Result<(), AllocError>
    requires exports { All (λ (c : CompartmentRow). length c.code.exports ≤ MOST_EXPORTS)
        compartments.now }
    requires room { at + sum_of places.compartment_bytes compartments.now < 2 ^ 32 }
    ensures { OnOk result
        (rows_of spans.new.items ≡ rows_of spans.old.items
        ++ spec.compartment_rows at compartments.now) }
{
    let mut place = at;
    for compartment in compartments {
        add_compartment(spans, place, compartment)?;
        place += compartment_bytes(compartment);
    }
    Ok(())
}

/// Adds the regions of libraries.
fn add_libraries(spans: &mut Vec<Span>, at: u32, libraries: &[Code]) -> Result<(), AllocError>
    requires { at + sum_of places.library_bytes libraries.now < 2 ^ 32 }
    ensures { OnOk result
        (rows_of spans.new.items ≡ rows_of spans.old.items ++ spec.library_rows at libraries.now) }
{
    let mut place = at;
    for library in libraries {
        spans.push(Span {
            place: place + NAME,
            base: library.base,
            length: library.length as u64,
        })?;
        place += library_bytes(library);
    }
    Ok(())
}

/// Adds the regions of stacks.
fn add_stacks(spans: &mut Vec<Span>, at: u32, threads: &[Thread]) -> Result<(), AllocError>
    requires { at + THREAD_SIZE * length threads.now < 2 ^ 32 }
    ensures { OnOk result
        (rows_of spans.new.items ≡ rows_of spans.old.items ++ spec.stack_rows at threads.now) }
{
    let mut place = at;
    for thread in threads {
        spans.push(Span {
            place: place + NAME,
            base: thread.stack,
            length: thread.stack_length as u64,
        })?;
        place += THREAD;
    }
    Ok(())
}

/// The regions after the trusted one, in the order of their places.
pub(crate) fn later_spans(alloc: Global, parts: &Parts, at: Places) -> Result<Vec<Span>, AllocError>
    requires small { AreSmall parts.now }
    requires room { places.end_place parts.now < 2 ^ 32 }
    requires at { AreAt parts.now at }
    ensures { IfOk result (λ v. rows_of v.items ≡ spec.later_rows parts.now) }
{
    let mut spans = Vec::new(alloc);
    add_shared(&mut spans, at.shared, parts.shared.as_slice())?;
    add_sealed(&mut spans, at.sealed, parts.sealed.as_slice())?;
    add_compartments(&mut spans, at.compartments, parts.compartments.as_slice())?;
    add_libraries(&mut spans, at.libraries, parts.libraries.as_slice())?;
    add_stacks(&mut spans, at.threads, parts.threads.as_slice())?;
    Ok(spans)
}
