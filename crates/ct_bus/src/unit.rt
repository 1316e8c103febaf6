//! One device.

ghost use Rattle.std.specs.Prelude.{◌≡◌, ◌<◌, ◌≤◌, ◌*◌, ◌⊎◌, ◌^◌, ◌/◌, ◌%◌, IfOk, length};
ghost use Rattle.def_machine.specs.State.{Serial, Clock, Pins, fresh_device};
ghost use Rattle.def_step.specs.Devices.{IsWidth, register_value, after_read, after_write, after_input, part_read, part_written, value_read, left_by_read, left_by_write};

use circular_buffer::HeapCircularBuffer;
use ct_entry::DeviceKind;
use def_refusals::NoMemory;
use std::alloc::Global;
use std::marker::Model;

/// How many bytes a serial port's queue holds.
const QUEUE: usize = 64;

/// What a device keeps.
#[derive(Drop)]
pub(crate) enum Kept {
    /// A serial port's queue, the oldest byte first.
    Serial(HeapCircularBuffer<u8>),
    /// A timer, which reads the time.
    Clock,
    /// A gpio's output, and the byte that came last.
    Pins { output: u32, input: u32 },
}

/// A device.
#[derive(Drop)]
pub(crate) struct Unit {
    kept: Kept,
}

impl Model for Unit {
    ghost use Rattle.def_machine.specs.State.{DeviceState};
    ghost use Rattle.ct_bus.specs.Units.{state_of, IsSound};

    ghost Value = { DeviceState };

    ghost view = { λ u. state_of u.kept };

    ghost invariant = { λ u. IsSound u.kept };
}

impl Unit {
    /// A device at rest: an empty queue, all outputs and inputs 0.
    pub(crate) fn new(alloc: Global, kind: DeviceKind) -> Result<Unit, NoMemory>
        ensures { IfOk result (λ u. u ≡ fresh_device kind) }
    {
        let kept = match kind {
            DeviceKind::Uart => Kept::Serial(HeapCircularBuffer::with_capacity(alloc, QUEUE)?),
            DeviceKind::Timer => Kept::Clock,
            DeviceKind::Gpio => Kept::Pins {
                output: 0,
                input: 0,
            },
        };
        Ok(Unit { kept })
    }

    /// What register 0, 1, 2 or 3 has.
    fn register(&self, number: u32, time: u64) -> u32
        ensures { result ≡ register_value self.now number time }
    {
        match &self.kept {
            Kept::Serial(queue) => serial_value(queue, number),
            Kept::Clock => timer_value(number, time),
            Kept::Pins { output, input } => pins_value(*output, *input, number),
        }
    }

    /// A register was read: a serial port's oldest byte goes with register 0.
    fn take(&mut self, number: u32)
        ensures { self.new ≡ after_read self.old number }
    {
        if number != 0 {
            return;
        }
        match &mut self.kept {
            Kept::Serial(queue) => {
                queue.pop_front();
            }
            Kept::Clock => {}
            Kept::Pins { .. } => {}
        }
    }

    /// A register is written: a gpio's output keeps the value.
    fn put(&mut self, number: u32, value: u32)
        ensures { self.new ≡ after_write self.old number value }
    {
        if number != 0 {
            return;
        }
        match &mut self.kept {
            Kept::Serial(_) => {}
            Kept::Clock => {}
            Kept::Pins { output, .. } => {
                *output = value;
            }
        }
    }

    /// A byte comes: to a serial port's queue, whose oldest it pushes out where that is full, or to
    /// the pins of a gpio.
    pub(crate) fn receive(&mut self, byte: u8)
        ensures { self.new ≡ after_input self.old byte }
    {
        match &mut self.kept {
            Kept::Serial(queue) => {
                queue.push_back(byte);
            }
            Kept::Clock => {}
            Kept::Pins { input, .. } => {
                *input = byte as u32;
            }
        }
    }

    /// A load of 1, 2 or 4 bytes: the register of the offset, shifted and cut.
    fn read_part(&mut self, offset: u32, width: u32, time: u64) -> u32
        requires { width ≤ 4 }
        ensures value { result ≡ part_read self.old offset width time }
        ensures small { result < 2 ^ (8 * width) }
        ensures left { self.new ≡ after_read self.old (offset / 4) }
    {
        let value = cut(self.register(offset / 4, time), offset % 4, width);
        self.take(offset / 4);
        value
    }

    /// A store of 1, 2 or 4 bytes: it counts at a multiple of 4, with zeros above the bytes stored.
    fn write_part(&mut self, offset: u32, width: u32, value: u64)
        requires { width ≤ 4 }
        ensures { self.new ≡ part_written self.old offset width value }
    {
        if offset % 4 == 0 {
            self.put(offset / 4, (value % (1u64 << (8 * width))) as u32);
        }
    }

    /// A load at an offset; one of 8 bytes is the load at the offset, then that at the offset + 4.
    pub(crate) fn read(&mut self, offset: u32, width: u32, time: u64) -> u64
        requires width { IsWidth width }
        requires offset { offset < 16 }
        ensures value { result ≡ value_read self.old offset width time }
        ensures small { (width ≤ 4) → result < 2 ^ (8 * width) }
        ensures left { self.new ≡ left_by_read self.old offset width }
    {
        if width == 8 {
            let low = self.read_part(offset, 4, time);
            let high = self.read_part(offset + 4, 4, time);
            return low as u64 + high as u64 * (1 << 32);
        }
        self.read_part(offset, width, time) as u64
    }

    /// A store at an offset; one of 8 bytes is the store of the low half, then that of the high half
    /// at the offset + 4.
    pub(crate) fn write(&mut self, offset: u32, width: u32, value: u64)
        requires width { IsWidth width }
        requires offset { offset < 16 }
        ensures { self.new ≡ left_by_write self.old offset width value }
    {
        if width == 8 {
            self.write_part(offset, 4, value);
            self.write_part(offset + 4, 4, value / (1 << 32));
            return;
        }
        self.write_part(offset, width, value);
    }
}

/// A serial port's registers: the oldest byte, 0 where there is none, and how many bytes there are.
fn serial_value(queue: &HeapCircularBuffer<u8>, number: u32) -> u32
    requires { length queue.now.items ≤ 64 }
    ensures { result ≡ register_value (Serial queue.now.items) number 0 }
{
    match number {
        0 => match queue.front() {
            Some(byte) => *byte as u32,
            None => 0,
        },
        1 => queue.len() as u32,
        _ => 0,
    }
}

/// A timer's registers: the low and the high half of the time.
fn timer_value(number: u32, time: u64) -> u32
    ensures { result ≡ register_value Clock number time }
{
    match number {
        0 => (time % (1 << 32)) as u32,
        1 => (time / (1 << 32) % (1 << 32)) as u32,
        _ => 0,
    }
}

/// A gpio's registers: the output, and the byte that came last.
fn pins_value(output: u32, input: u32, number: u32) -> u32
    ensures { result ≡ register_value (Pins output input) number 0 }
{
    match number {
        0 => output,
        1 => input,
        _ => 0,
    }
}

/// A register's bytes from byte `from` on.
fn cut(value: u32, from: u32, width: u32) -> u32
    requires from { from < 4 }
    requires width { width ≤ 4 }
    ensures cut { result ≡ value / 2 ^ (8 * from) % 2 ^ (8 * width) }
    ensures small { result < 2 ^ (8 * width) }
{
    ((value as u64 >> (8 * from)) % (1u64 << (8 * width))) as u32
}
