//! The image of start.rt launched over plain memory. Expected values were worked out by hand from
//! docs/use/image.md and docs/use/machine.md.

ghost use Rattle.std.specs.Prelude.{◌≡◌, IfOk, None, length};
ghost use Rattle.ct_boot.specs.Placed.{AreFirst};

use crate::seen::{count_is, is};
use crate::start::shelf_image;
use ct_boot::launch;
use ct_engine::{Engine, Object};
use ct_image::Image;
use ct_mem::Plain;
use def_refusals::NoMemory;
use std::alloc::Global;
use std::process::Abort;

/// What each entry's quota may take: the first's something.
const LIMITS: [u32; 17] = [0, 24, 0, 0, 0, 0, 0, 0, 0, 0, 0, 0, 0, 0, 0, 0, 0];

/// An image launched into memory of its size, where quota 1 alone may take something: 24 bytes.
fn launched(alloc: Global, image: &Image) -> Result<Engine<Plain>, NoMemory>
    ensures none { IfOk result (λ e. e.state.running ≡ None) }
    ensures first { IfOk result (λ e. AreFirst e) }
    ensures quotas { IfOk result (λ e. length e.limits ≡ 17) }
    ensures next { IfOk result (λ e. e.state.next ≡ 1) }
{
    let parts = image.parts();
    let mem = Plain::new(alloc, parts.size)?;
    launch(alloc, image, mem, &LIMITS)
}

/// The second thread runs with its own stack. The heap begins where the image has it: of 24 bytes an object of 16 bytes
/// takes all, past the eight of its head.
fn see_launched(rt: &impl Abort, engine: &mut Engine<Plain>)
    requires none { engine.old.state.running ≡ None }
    requires first { AreFirst engine.old }
    requires quotas { length engine.old.limits ≡ 17 }
    requires next { engine.old.state.next ≡ 1 }
{
    count_is(rt, engine.count(), 2);
    engine.pick(1);
    is(rt, 0, engine.register(1, 2).address() == 0x8000_02b0);
    is(rt, 1, engine.remaining(1) == 24);
    is(rt, 2, engine.remaining(2) == 0);
    let object = Object {
        number: 1,
        base: 0x8000_0508,
        length: 16,
        live: 24,
    };
    is(rt, 3, engine.allocate(1, 16) == Ok(object));
}

#[test]
fn two_threads_start_and_one_object_fits(rt: HostRuntime) -> Result<(), NoMemory> {
    let image = shelf_image(&rt)?;
    let launched = launched(rt.alloc(), &image);
    drop(image);
    let mut engine = launched?;
    see_launched(&rt, &mut engine);
    drop(engine);
    Ok(())
}
