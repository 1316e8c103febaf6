//! F10: devices and RAM keep clear of one another and of the native entries.

ghost use Rattle.std.specs.Prelude.{◌≡◌, [], IfOk};
ghost use Rattle.std.specs.List.{list_any};
ghost use Rattle.def_desc.specs.Addresses as spec;
ghost use Rattle.def_desc.specs.Walk.{place};

use ct_desc_rows::Desc;
use ct_entry::Device;
use def_desc::{PartWord, Place, Ram};
use def_profile::layout::DEVICE_SIZE;
use def_profile::native::{NATIVE_BASE, NATIVE_END};
use std::alloc::AllocError;

/// Whether two ranges, each by its base and its length, have an address in common.
fn meets(base: u32, length: u32, other: u32, size: u32) -> bool
    ensures { result ≡ spec.meets base length other size }
{
    (base as u64) < other as u64 + size as u64 && (other as u64) < base as u64 + length as u64
}

fn meets_native(base: u32, length: u32) -> bool
    ensures { result ≡ spec.meets_native base length }
{
    meets(base, length, NATIVE_BASE, NATIVE_END - NATIVE_BASE)
}

fn meets_devices(base: u32, devices: &[Device]) -> bool
    ensures { result ≡ list_any (spec.meets_device base) devices.now }
{
    for device in devices {
        if meets(base, DEVICE_SIZE, device.base, DEVICE_SIZE) {
            return true;
        }
    }
    false
}

/// Whether a device begins at no multiple of its size, or meets RAM, an earlier device or the native
/// entries.
fn is_astray(ram: Ram, earlier: &[Device], device: &Device) -> bool
    ensures { result ≡ spec.is_astray ram earlier.now device.now }
{
    device.base % DEVICE_SIZE != 0
        || meets(device.base, DEVICE_SIZE, ram.base, ram.size)
        || meets_devices(device.base, earlier)
        || meets_native(device.base, DEVICE_SIZE)
}

/// A place counts in 32 bits; a longer list wants more memory than there is.
fn device_place(index: usize) -> Result<Place, AllocError>
    ensures { IfOk result (λ p. p ≡ place PartWord.Device index 0) }
{
    if index < 1 << 32 {
        Ok(Place {
            part: PartWord::Device,
            index: index as u32,
            item: 0,
        })
    } else {
        Err(AllocError)
    }
}

fn first_astray(ram: Ram, devices: &[Device]) -> Result<Option<Place>, AllocError>
    ensures { IfOk result (λ p. p ≡ spec.first_astray ram [] devices.now) }
{
    for (index, device) in devices.iter().enumerate() {
        if is_astray(ram, &devices[..index], device) {
            return Ok(Some(device_place(index)?));
        }
    }
    Ok(None)
}

/// The first place of F10.
pub(crate) fn address_fault(desc: &Desc) -> Result<Option<Place>, AllocError>
    ensures { IfOk result (λ p. p ≡ spec.address_fault desc.now) }
{
    if meets_native(desc.ram.base, desc.ram.size) {
        return Ok(Some(Place {
            part: PartWord::Ram,
            index: 0,
            item: 0,
        }));
    }
    first_astray(desc.ram, desc.devices.as_slice())
}
