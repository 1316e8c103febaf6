//! A serial port, a timer and a gpio beside one another. Expected values follow from how the registers
//! are laid out in docs/use/machine.md.

use crate::seen::is;
use ct_bus::Bus;
use ct_entry::{Device, DeviceKind, Devices};
use std::alloc::{AllocError, Global};
use std::process::Abort;
use std::test::Fail;

/// A device without a name.
fn nameless(alloc: Global, kind: DeviceKind, base: u32) -> Device {
    Device {
        name: String::new(alloc),
        kind,
        base,
    }
}

const DEVICES: [(DeviceKind, u32); 3] = [
    (DeviceKind::Uart, 0x1000_0000),
    (DeviceKind::Timer, 0x1000_0010),
    (DeviceKind::Gpio, 0x2000_0000),
];

fn devices(alloc: Global) -> Result<Devices, AllocError> {
    let mut rows = Vec::new(alloc);
    for (kind, base) in &DEVICES {
        rows.push(nameless(alloc, *kind, *base))?;
    }
    Ok(Devices { rows })
}

/// Which addresses are a device's, and the whole of a time that no run comes to.
fn see(rt: &impl Abort, bus: &mut Bus) {
    is(rt, bus.count() == 3, "count");
    is(rt, bus.holds(0x2000_000F), "held");
    is(rt, !bus.holds(0x1000_0020), "not held");
    is(
        rt,
        bus.read(0x1000_0010, 8, 0x2_0000_0003) == 0x2_0000_0003,
        "time",
    );
}

#[test]
fn three_devices(rt: HostRuntime) -> Result<(), Fail> {
    let rows = devices(rt.alloc())?;
    let made = Bus::new(rt.alloc(), &rows);
    drop(rows);
    let mut bus = made?;
    see(&rt, &mut bus);
    Ok(())
}
