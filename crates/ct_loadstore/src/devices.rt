//! Loads and stores at devices.

ghost use Rattle.std.specs.Prelude.{◌≡◌, ◌<◌, ◌^◌, ◌*◌, ◌≤◌, Some, None, false, true};
ghost use Rattle.def_step.specs.Accesses.{device_value, stored_value, on_device};
ghost use Rattle.ct_loadstore.specs.Shapes.{IsShape, space};

use crate::moving::Moved;
use crate::shapes::widen;
use ct_bus::Bus;
use ct_cap::{Live, attenuate};
use ct_entry::Act;
use def_step::Access;

/// What a register gets of a number that a device gave, through x.
fn given(a: Access, x: Live, value: u64) -> Live
    requires shape { IsShape a }
    requires small { (a.width ≤ 4) → value < 2 ^ (8 * a.width) }
    ensures { result ≡ device_value a x value }
{
    if a.whole {
        return attenuate(x, Live::plain(value));
    }
    Live::integer(widen(a, value as u32))
}

/// What a store writes of y, cut to its width.
fn written(a: Access, y: Live) -> u64
    requires { IsShape a }
    ensures { result ≡ stored_value a y }
{
    if a.whole {
        return y.cap.word;
    }
    y.address() as u64 % (1u64 << (8 * a.width))
}

/// A load at an address, through x.
pub(crate) fn load(a: Access, x: Live, y: Live, at: u32, bus: &mut Bus, time: u64) -> Moved
    requires shape { IsShape a }
    requires loads { a.loads ≡ true }
    ensures value { result.value ≡ (on_device a x y at (space bus.old time)).value }
    ensures act { result.device ≡ (on_device a x y at (space bus.old time)).act }
    ensures left { bus.new ≡ (on_device a x y at (space bus.old time)).bank }
{
    let held = bus.holds(at);
    let value = bus.read(at, a.width, time);
    let act = Act::Load {
        address: at,
        width: a.width,
        value,
    };
    Moved {
        value: Some(given(a, x, value)),
        device: if held { Some(act) } else { None },
    }
}

/// A store of y at an address, through x.
pub(crate) fn store(a: Access, x: Live, y: Live, at: u32, bus: &mut Bus, time: u64) -> Moved
    requires shape { IsShape a }
    requires stores { a.loads ≡ false }
    ensures value { result.value ≡ (on_device a x y at (space bus.old time)).value }
    ensures act { result.device ≡ (on_device a x y at (space bus.old time)).act }
    ensures left { bus.new ≡ (on_device a x y at (space bus.old time)).bank }
{
    let held = bus.holds(at);
    let value = written(a, y);
    bus.write(at, a.width, value);
    let act = Act::Store {
        address: at,
        width: a.width,
        value,
    };
    Moved {
        value: None,
        device: if held { Some(act) } else { None },
    }
}
