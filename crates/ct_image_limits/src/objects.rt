//! What is asked of devices, of shared and of sealed objects.

ghost use Rattle.std.specs.Prelude.{◌≡◌, ◌<◌, ◌+◌, ◌*◌, ◌^◌, length, []};
ghost use Rattle.def_image.specs.Checks as checks;
ghost use Rattle.def_image.specs.Limits as spec;
ghost use Rattle.def_image.specs.Sizes as sizes;
ghost use Rattle.def_image.specs.Sizes.{sum_of};
ghost use Rattle.def_image.specs.declared.format.TheConstants.{DEVICE as DEVICE_SIZE, SHARED as SHARED_SIZE};

use crate::checks::{are_zeros, check, first, name_checks, outside};
use crate::names::is_among;
use ct_image_fields::{RawDevice, RawSealed, RawShared, name_of};
use def_image::format::{DEVICE, SEALED_HEAD, SHARED};
use def_profile::limits::MOST_BYTES;
use def_profile::seals::{FIRST_KEY_TYPE, LAST_KEY_TYPE};

/// The first place at which a device fails.
#[tactic(auto, unfolding(def_image::specs::Limits::device_limits, def_image::specs::Limits::name_checks))]
fn device_limit(at: u32, earlier: &[RawDevice], device: &RawDevice) -> Option<u32>
    requires { at + DEVICE_SIZE < 2 ^ 32 }
    ensures { result ≡ checks.first (spec.device_limits at earlier.now device.now) }
{
    let repeated = is_among(name_of(&device.name), earlier);
    let [name, padding] = name_checks(at, repeated, false, &device.name);
    first(&[name, padding, check(at + 32, outside(1, 3, device.kind))])
}

/// The first place at which a shared object fails.
#[tactic(auto, unfolding(def_image::specs::Limits::shared_limits, def_image::specs::Limits::name_checks))]
fn shared_limit(at: u32, earlier: &[RawShared], shared: &RawShared) -> Option<u32>
    requires { at + SHARED_SIZE < 2 ^ 32 }
    ensures { result ≡ checks.first (spec.shared_limits at earlier.now shared.now) }
{
    let repeated = is_among(name_of(&shared.name), earlier);
    let [name, padding] = name_checks(at, repeated, false, &shared.name);
    let length = check(at + 36, outside(1, MOST_BYTES, shared.length));
    first(&[name, padding, length])
}

/// How many bytes a sealed object has.
fn sealed_size(sealed: &RawSealed) -> u32
    requires { sizes.sealed_size sealed.now < 2 ^ 32 }
    ensures { result ≡ sizes.sealed_size sealed.now }
{
    SEALED_HEAD + sealed.bytes.len() as u32 + sealed.padding.len() as u32
}

/// Whether so many bytes don't fit an object of this length.
fn overfills(length: u32, count: u32) -> bool
    ensures { result ≡ spec.overfilled length count }
{
    outside(1, MOST_BYTES, count) || length < count
}

/// The first place at which a sealed object fails.
#[tactic(auto, unfolding(def_image::specs::Limits::sealed_limits, def_image::specs::Limits::name_checks))]
fn sealed_limit(at: u32, earlier: &[RawSealed], sealed: &RawSealed) -> Option<u32>
    requires { at + sizes.sealed_size sealed.now < 2 ^ 32 }
    ensures { result ≡ checks.first (spec.sealed_limits at earlier.now sealed.now) }
{
    let repeated = is_among(name_of(&sealed.name), earlier);
    let [name, padding] = name_checks(at, repeated, false, &sealed.name);
    let count = sealed.bytes.len() as u32;
    first(&[
        name,
        padding,
        check(at + 36, outside(1, MOST_BYTES, sealed.length)),
        check(at + 40, outside(FIRST_KEY_TYPE, LAST_KEY_TYPE, sealed.seal)),
        check(at + 44, overfills(sealed.length, count)),
        check(at + 48 + count, !are_zeros(sealed.padding.as_slice())),
    ])
}

/// The first place at which a device fails.
pub(crate) fn devices_limit(at: u32, devices: &[RawDevice]) -> Option<u32>
    requires { at + DEVICE_SIZE * length devices.now < 2 ^ 32 }
    ensures { result
        ≡ checks.first (checks.walked spec.device_limits (λ d. DEVICE_SIZE) at [] devices.now) }
{
    let mut place = at;
    for index in 0..devices.len() {
        if let Some(found) = device_limit(place, &devices[..index], &devices[index]) {
            return Some(found);
        }
        place += DEVICE;
    }
    None
}

/// The first place at which a shared object fails.
pub(crate) fn shared_objects_limit(at: u32, shared: &[RawShared]) -> Option<u32>
    requires { at + SHARED_SIZE * length shared.now < 2 ^ 32 }
    ensures { result
        ≡ checks.first (checks.walked spec.shared_limits (λ s. SHARED_SIZE) at [] shared.now) }
{
    let mut place = at;
    for index in 0..shared.len() {
        if let Some(found) = shared_limit(place, &shared[..index], &shared[index]) {
            return Some(found);
        }
        place += SHARED;
    }
    None
}

/// The first place at which a sealed object fails.
pub(crate) fn sealed_objects_limit(at: u32, sealed: &[RawSealed]) -> Option<u32>
    requires { at + sum_of sizes.sealed_size sealed.now < 2 ^ 32 }
    ensures { result
        ≡ checks.first (checks.walked spec.sealed_limits sizes.sealed_size at [] sealed.now) }
{
    let mut place = at;
    for index in 0..sealed.len() {
        let object = &sealed[index];
        if let Some(found) = sealed_limit(place, &sealed[..index], object) {
            return Some(found);
        }
        place += sealed_size(object);
    }
    None
}

/// Where the parts after sealed objects begin.
pub(crate) fn sealed_end(at: u32, sealed: &[RawSealed]) -> u32
    requires { at + sum_of sizes.sealed_size sealed.now < 2 ^ 32 }
    ensures { result ≡ at + sum_of sizes.sealed_size sealed.now }
{
    let mut place = at;
    for object in sealed {
        place += sealed_size(object);
    }
    place
}
