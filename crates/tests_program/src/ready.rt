//! The machine of the smallest image: it is ready to run, and six steps end it.

use crate::samples::TINY_IMAGE;
use ct_entry::End;
use ct_image::{Image, accept};
use ct_planes::Planes;
use ct_run::Machine;
use ct_top::ready;
use def_step::Event;
use std::process::Abort;

/// So many steps, each of which may come.
fn steps(rt: &impl Abort, machine: &mut Machine<Planes>, number: u32) {
    for step in 0..number {
        assert!(rt;
            machine.ended().is_none(),
            "step {step}: the machine has ended"
        );
        assert!(rt; machine.lawful(Event::Step), "step {step}: it may come");
        machine.advance(Event::Step);
    }
}

/// The machine of an image.
fn machine_of(rt: &(impl Abort + AllocGlobal), image: &Image) -> Machine<Planes> {
    ready(rt.alloc(), image).expect(rt, "memory")
}

#[test]
fn six_steps(rt: HostRuntime) {
    let image = accept(rt.alloc(), TINY_IMAGE.as_slice()).expect(&rt, "an image");
    let mut machine = machine_of(&rt, &image);
    steps(&rt, &mut machine, 6);
    assert!(&rt;
        machine.ended() == Some(End::Finished),
        "all threads have ended"
    );
}
