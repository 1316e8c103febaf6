//! Where regions, devices and RAM itself may lie.

ghost use Rattle.std.specs.Prelude.{◌≡◌, ◌≤◌, ◌<◌, ◌+◌, ◌*◌, ◌^◌, length, [], IfOk};
ghost use Rattle.std.specs.List.{list_any};
ghost use Rattle.def_profile.specs.declared.limits.TheConstants.{RAM_END};
ghost use Rattle.def_image.specs.Checks as checks;
ghost use Rattle.def_image.specs.Lying as spec;
ghost use Rattle.def_image.specs.Regions.{trusted_region};
ghost use Rattle.def_image.specs.declared.format.TheConstants.{DEVICE as DEVICE_BYTES};
ghost use Rattle.ct_image.specs.Lain as lain;
ghost use Rattle.ct_image_parts.specs.Places as places;
ghost use Rattle.ct_image.specs.Spans.{AreSmall, row_of, rows_of, unheld};
ghost use Rattle.ct_image_parts.specs.Places.{AreAt};

use crate::spans::{Span, later_spans, trusted_span};
use ct_bounds::least;
use ct_entry::Device;
use ct_image_parts::{Parts, Places};
use def_image::format::DEVICE;
use def_profile::layout::{DEVICE_SIZE, REGION_UNIT};
use def_profile::native::{NATIVE_BASE, NATIVE_END};
use std::alloc::{AllocError, Global};

fn is_even(number: u32) -> bool
    ensures { result ≡ spec.is_even number }
{
    number % REGION_UNIT == 0
}

/// Whether an address lies in both ranges, each given by its base and length.
fn meets(a: u32, m: u64, b: u32, n: u64) -> bool
    ensures { result ≡ spec.overlaps a m b n }
{
    0 < m && 0 < n && (a as u128) < b as u128 + n as u128 && (b as u128) < a as u128 + m as u128
}

/// Whether a range meets that of the native routines.
fn meets_native(base: u32, length: u32) -> bool
    ensures { result ≡ spec.overlaps_native base length }
{
    meets(
        base,
        length as u64,
        NATIVE_BASE,
        (NATIVE_END - NATIVE_BASE) as u64,
    )
}

/// Whether RAM of this base and size holds a range.
fn is_inside(ram: u32, size: u32, base: u32, length: u64) -> bool
    ensures { result ≡ lain.is_inside ram size base length }
{
    ram <= base && base as u128 + length as u128 <= ram as u128 + size as u128
}

/// Whether a range meets one of the regions.
fn meets_any(span: Span, earlier: &[Span]) -> bool
    ensures { result ≡ list_any (spec.meets_region (row_of span)) (rows_of earlier.now) }
{
    for other in earlier {
        if meets(span.base, span.length, other.base, other.length) {
            return true;
        }
    }
    false
}

/// Whether a region lies in RAM, at multiples of 16, with bounds that a word can spell, and apart
/// from those before it.
fn is_laid(parts: &Parts, earlier: &[Span], span: Span) -> bool
    requires { parts.now.ram + parts.now.size ≤ RAM_END }
    ensures { result ≡ spec.is_laid parts.now (rows_of earlier.now) (row_of span) }
{
    if !is_inside(parts.ram, parts.size, span.base, span.length) {
        return false;
    }
    is_even(span.base)
        && span.length % REGION_UNIT as u64 == 0
        && least(span.base as u64, span.length).exact
        && !meets_any(span, earlier)
}

/// Whether the heap begins at a multiple of 16 in RAM, or at its end, and after the trusted region.
fn is_heap_laid(parts: &Parts, trusted: Span) -> bool
    requires { row_of trusted ≡ unheld (trusted_region parts.now) }
    ensures { result ≡ spec.is_heap_laid parts.now }
{
    let heap = parts.heap;
    is_even(heap)
        && heap as u64 <= parts.ram as u64 + parts.size as u64
        && trusted.base as u128 + trusted.length as u128 <= heap as u128
}

/// Whether a device meets one of the others.
fn meets_device(base: u32, earlier: &[Device]) -> bool
    ensures { result ≡ list_any (spec.overlaps_device base) earlier.now }
{
    for other in earlier {
        if meets(base, DEVICE_SIZE as u64, other.base, DEVICE_SIZE as u64) {
            return true;
        }
    }
    false
}

/// Whether a device lies at a multiple of 16, away from RAM, the native routines and the devices
/// before it.
fn is_device_laid(parts: &Parts, earlier: &[Device], device: &Device) -> bool
    ensures { result ≡ spec.is_device_laid parts.now earlier.now device.now }
{
    let base = device.base;
    is_even(base)
        && !meets(base, DEVICE_SIZE as u64, parts.ram, parts.size as u64)
        && !meets_native(base, DEVICE_SIZE)
        && !meets_device(base, earlier)
}

/// The first place at which a device fails.
fn devices_fault(parts: &Parts, at: u32, devices: &[Device]) -> Option<u32>
    requires { at + DEVICE_BYTES * length devices.now < 2 ^ 32 }
    ensures { result
        ≡ checks.first
        (checks.walked (spec.device_asked parts.now) (λ d. DEVICE_BYTES) at [] devices.now) }
{
    let mut place = at;
    for index in 0..devices.len() {
        if !is_device_laid(parts, &devices[..index], &devices[index]) {
            return Some(place + 36);
        }
        place += DEVICE;
    }
    None
}

/// Whether a region after the trusted one isn't laid, reaches past the heap's base or meets the
/// trusted one.
fn is_span_astray(parts: &Parts, trusted: Span, earlier: &[Span], span: Span) -> bool
    requires { parts.now.ram + parts.now.size ≤ RAM_END }
    ensures { result ≡ lain.is_span_astray parts.now trusted earlier.now span }
{
    let end = span.base as u128 + span.length as u128;
    !is_laid(parts, earlier, span) || end > parts.heap as u128 || meets_any(span, &[trusted])
}

/// The first of the regions after the trusted one that is astray.
fn spans_fault(parts: &Parts, trusted: Span, spans: &[Span]) -> Option<u32>
    requires { parts.now.ram + parts.now.size ≤ RAM_END }
    ensures { result
        ≡ checks.first (checks.walked (lain.span_asked parts.now trusted) (λ s. 0) 0 [] spans.now) }
{
    for index in 0..spans.len() {
        let span = spans[index];
        if is_span_astray(parts, trusted, &spans[..index], span) {
            return Some(span.place);
        }
    }
    None
}

/// The devices of an image.
fn devices_of(parts: &Parts) -> &[Device]
    ensures { result.now ≡ parts.now.devices }
{
    parts.devices.rows.as_slice()
}

/// The first place at which RAM, a region, the heap or a device lies where it may not.
pub fn region_fault(alloc: Global, parts: &Parts, at: Places) -> Result<Option<u32>, AllocError>
    requires small { AreSmall parts.now }
    requires room { places.end_place parts.now < 2 ^ 32 }
    requires at { AreAt parts.now at }
    ensures { IfOk result (λ o. o ≡ checks.first (spec.region_checks parts.now)) }
{
    let trusted = trusted_span(parts);
    if meets_native(parts.ram, parts.size) {
        return Ok(Some(36));
    }
    if !is_laid(parts, &[], trusted) {
        return Ok(Some(44));
    }
    if !is_heap_laid(parts, trusted) {
        return Ok(Some(48));
    }
    if let Some(place) = devices_fault(parts, at.devices, devices_of(parts)) {
        return Ok(Some(place));
    }
    let spans = later_spans(alloc, parts, at)?;
    Ok(spans_fault(parts, trusted, spans.as_slice()))
}
