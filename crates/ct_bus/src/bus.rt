//! All devices, each at its base.

ghost use Rattle.std.specs.Prelude.{◌≡◌, ◌<◌, ◌≤◌, ◌*◌, ◌⊎◌, ◌^◌, length, map, IfOk, IfSome, true, is_some};
ghost use Rattle.def_step.specs.Devices.{IsWidth, is_of, registers_base, found, bank_value, bank_read, bank_written, bank_input};
ghost use Rattle.def_machine.specs.State.{fresh_device};

use crate::unit::Unit;
use ct_entry::Devices;
use def_refusals::NoMemory;
use std::alloc::Global;
use std::marker::Model;

/// The devices of a machine.
#[derive(Drop)]
pub struct Bus {
    bases: Vec<u32>,
    units: Vec<Unit>,
}

impl Model for Bus {
    ghost use Rattle.std.specs.Prelude.{◌≡◌, length};
    ghost use Rattle.def_step.specs.Devices.{DeviceStates};

    ghost Value = { DeviceStates };

    ghost view = { λ b. record { bases = b.bases.items; states = b.units.items } };

    ghost invariant = { λ b. length b.bases.items ≡ length b.units.items };
}

/// Whether a device at this base has the address among its 16.
fn has(base: u32, address: u32) -> bool
    ensures { result ≡ is_of base address }
{
    base as u64 <= address as u64 && (address as u64) < base as u64 + 16
}

/// The first device of these that has the address.
fn find(bases: &[u32], address: u32) -> Option<usize>
    ensures found { result ≡ found bases.now address }
    ensures inside { IfSome result
        (λ n. (n < length bases.now) × (is_of (registers_base bases.now n) address ≡ true)) }
{
    for (index, base) in bases.iter().enumerate() {
        if has(*base, address) {
            return Some(index);
        }
    }
    None
}

impl Bus {
    /// Devices at rest, in their order: empty queues, outputs and inputs 0.
    ///
    /// `NoMemory` where the allocator has no room for them.
    pub fn new(alloc: Global, devices: &Devices) -> Result<Bus, NoMemory>
        ensures { IfOk result
            (λ b. b
            ≡ record {
              bases = map (λ d. d.base) devices.now;
              states = map (λ d. fresh_device d.kind) devices.now;
            }) }
    {
        let mut bases = Vec::new(alloc);
        let mut units = Vec::new(alloc);
        for device in devices.rows.iter() {
            bases.push(device.base)?;
            units.push(Unit::new(alloc, device.kind)?)?;
        }
        Ok(Bus { bases, units })
    }

    /// How many devices there are.
    pub fn count(&self) -> usize
        ensures { result ≡ length self.now.states }
    {
        self.units.len()
    }

    /// Whether a device has the address.
    pub fn holds(&self, address: u32) -> bool
        ensures { result ≡ is_some (found self.now.bases address) }
    {
        find(&self.bases, address).is_some()
    }

    /// A load of 1, 2, 4 or 8 bytes at a time in ticks. A serial port's oldest byte goes with its
    /// register 0. Where no device has the address it is 0 and nothing changes.
    pub fn read(&mut self, address: u32, width: u32, time: u64) -> u64
        requires { IsWidth width }
        ensures value { result ≡ bank_value self.old address width time }
        ensures small { (width ≤ 4) → result < 2 ^ (8 * width) }
        ensures left { self.new ≡ bank_read self.old address width }
    {
        match find(&self.bases, address) {
            Some(index) => {
                let offset = address - self.bases[index];
                self.units[index].read(offset, width, time)
            }
            None => 0,
        }
    }

    /// A store of the low 1, 2, 4 or 8 bytes of a value. Where no device has the address nothing
    /// changes.
    pub fn write(&mut self, address: u32, width: u32, value: u64)
        requires { IsWidth width }
        ensures { self.new ≡ bank_written self.old address width value }
    {
        match find(&self.bases, address) {
            Some(index) => {
                let offset = address - self.bases[index];
                self.units[index].write(offset, width, value);
            }
            None => {}
        }
    }

    /// A byte comes at a device, by its index.
    pub fn input(&mut self, device: u32, byte: u8)
        requires { device < length self.old.states }
        ensures { self.new ≡ bank_input self.old device byte }
    {
        self.units[device as usize].receive(byte);
    }
}
