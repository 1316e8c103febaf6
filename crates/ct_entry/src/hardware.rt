//! Devices, as the description names them, and all that a device's kind says but what its registers do.

ghost use Rattle.std.specs.Prelude.{◌≡◌};
ghost use Rattle.ct_entry.specs.DeviceKinds as spec;

use std::marker::Model;

/// What registers a device has (docs/use/machine.md).
#[derive(Clone, Copy, PartialEq, Eq, Drop)]
pub enum DeviceKind {
    Uart,
    Timer,
    Gpio,
}

/// The kinds of devices: the name in a description and a report (docs/use/description.md), and the
/// kind. A kind's number in an image is its place in this list, from 1 (docs/use/image.md).
pub const DEVICE_KINDS: [(&'static str, DeviceKind); 3] = [
    ("uart", DeviceKind::Uart),
    ("timer", DeviceKind::Timer),
    ("gpio", DeviceKind::Gpio),
];

impl DeviceKind {
    /// The number of the kind in an image: its place among `DEVICE_KINDS`, from 1.
    pub fn number(self) -> u32
        ensures { result ≡ spec.device_number self }
    {
        match self {
            DeviceKind::Uart => 1,
            DeviceKind::Timer => 2,
            DeviceKind::Gpio => 3,
        }
    }

    /// The kind of a number in an image; the last one of a number that is no kind's.
    pub fn numbered(number: u32) -> DeviceKind
        ensures { result ≡ spec.device_kind_of number }
    {
        match number {
            1 => DeviceKind::Uart,
            2 => DeviceKind::Timer,
            _ => DeviceKind::Gpio,
        }
    }

    /// The name of the kind in a description and a report.
    pub fn name(self) -> &'static str
        ensures { result.now ≡ spec.kind_text self }
    {
        match self {
            DeviceKind::Uart => DEVICE_KINDS[0].0,
            DeviceKind::Timer => DEVICE_KINDS[1].0,
            DeviceKind::Gpio => DEVICE_KINDS[2].0,
        }
    }

    /// Whether bytes of a script come to a device of this kind (docs/use/run.md).
    pub fn takes_bytes(self) -> bool
        ensures { result ≡ spec.takes_bytes self }
    {
        match self {
            DeviceKind::Uart | DeviceKind::Gpio => true,
            DeviceKind::Timer => false,
        }
    }
}

/// A device: its name, its kind, and the address of its 16 bytes of registers.
#[derive(Drop)]
pub struct Device {
    pub name: String,
    pub kind: DeviceKind,
    pub base: u32,
}

impl Model for Device {
    ghost use Rattle.std.specs.Prelude.{string_bytes};
    ghost use Rattle.ct_entry.specs.Listed.{DeviceRow};

    ghost Value = { DeviceRow };

    ghost view = { λ d. record { name = string_bytes d.name; kind = d.kind; base = d.base } };
}

/// The devices of a firmware, in the order of their indexes.
#[derive(Drop)]
pub struct Devices {
    pub rows: Vec<Device>,
}

impl Model for Devices {
    ghost use Rattle.std.specs.Prelude.{List};
    ghost use Rattle.ct_entry.specs.Listed.{DeviceRow};

    ghost Value = { List DeviceRow };

    ghost view = { λ d. d.rows.items };
}
