//! How a thread starts.

ghost use Rattle.std.specs.Prelude.{◌≡◌, ◌<◌, Some, length, slice_get, true, if◌then◌else◌};
ghost use Rattle.def_boot.specs.Boot as spec;
ghost use Rattle.def_boot.specs.Boot.{boot_state};
ghost use Rattle.def_image.specs.Sound.{Sound};
ghost use Rattle.def_machine.specs.State.{interrupts_on, thread};
ghost use Rattle.ct_boot.specs.Starts.{start_of};

use crate::making::{own_code, own_globals, own_stack};
use crate::numbers::{
    code_number, compartment_at, export_at, export_number, stack_number, text_base,
};
use ct_areas::First;
use ct_cap::{Live, Posture, set_address};
use ct_entry::Mode;
use ct_image::Image;
use ct_image_parts::{Compartment, Export, Parts, Thread};
use ct_switch::return_sentry;

/// The posture of a thread that enters an export, by that export's entry.
fn posture_of(export: &Export, number: u32) -> Posture
    ensures { result
        ≡ (if spec.gate_is_disabled (Some export.now) then record { off = true; source = number }
        else interrupts_on) }
{
    match export.row.posture {
        Mode::Disabled => Posture {
            off: true,
            source: number,
        },
        _ => Posture {
            off: false,
            source: 0,
        },
    }
}

/// How a thread starts that enters this export of this compartment. Registers but c1, c2 and c3 are zero.
fn first_in(
    parts: &Parts,
    index: usize,
    thread: &Thread,
    own: &Compartment,
    export: &Export,
) -> First
    requires sound { Sound parts.now }
    requires one { slice_get parts.now.threads index ≡ Some thread.now }
    requires there { slice_get parts.now.compartments thread.now.compartment ≡ Some own.now }
    requires enters { slice_get own.now.code.exports thread.now.export ≡ Some export.now }
    ensures { result ≡ start_of (spec.first_thread parts.now index thread.now) }
{
    let code = &own.code;
    let number = code_number(parts, thread.compartment as usize);
    let entry = export_number(number, code, thread.export);
    let none = Live::integer(0);
    let mut regs = [none; 16];
    regs[1] = return_sentry();
    regs[2] = own_stack(stack_number(parts, index), thread);
    regs[3] = own_globals(number + 1, own);
    First {
        pcc: set_address(own_code(number, code), text_base(code) + export.row.offset),
        regs,
        posture: posture_of(export, entry),
        actor: thread.compartment,
        export: entry,
    }
}

/// How the thread at an index starts.
pub(crate) fn first_at(parts: &Parts, index: usize, thread: &Thread) -> First
    requires sound { Sound parts.now }
    requires one { slice_get parts.now.threads index ≡ Some thread.now }
    ensures { result ≡ start_of (spec.first_thread parts.now index thread.now) }
{
    let own = compartment_at(parts, thread.compartment).unwrap();
    let export = export_at(&own.code, thread.export).unwrap();
    first_in(parts, index, thread, own, export)
}

/// How the thread of this index starts.
///
/// Condition: the image has a thread of this index.
pub fn thread_start(image: &Image, index: u32) -> First
    requires { index < length image.now.threads }
    ensures { result ≡ start_of (thread (boot_state image.now) index) }
{
    let parts = image.parts();
    let index = index as usize;
    first_at(parts, index, &parts.threads[index])
}
