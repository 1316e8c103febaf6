//! The threads of an image before their first step, and where their areas and stacks lie.

ghost use Rattle.std.specs.Prelude.{◌≡◌, ◌≤◌, IfOk};
ghost use Rattle.def_profile.specs.declared.limits.TheConstants.{MOST_FRAMES};
ghost use Rattle.def_image.specs.Sound.{Sound};
ghost use Rattle.ct_boot.specs.Launching as spec;

use crate::starting::first_at;
use ct_areas::{Area, First, Fresh};
use ct_image_parts::{Parts, Thread};
use def_profile::layout::{AREA_HEAD, FRAME_SIZE, TRUSTED_HEAD};
use def_refusals::NoMemory;
use std::alloc::Global;

/// The threads, and where the last one's area ends.
#[derive(Drop)]
pub(crate) struct Threads {
    pub(crate) fresh: Vec<Fresh>,
    pub(crate) end: u32,
}

/// The address at which the threads' areas begin.
pub(crate) fn areas_begin(parts: &Parts) -> u32
    requires { Sound parts.now }
    ensures { result ≡ spec.areas_begin parts.now }
{
    parts.trusted + TRUSTED_HEAD
}

/// The area and the stack of a thread of an image, by the address at which the area begins.
fn area_from(parts: &Parts, at: u32, thread: &Thread) -> Area
    requires { thread.now.frames ≤ MOST_FRAMES }
    ensures { result ≡ spec.area_from parts.now at thread.now }
{
    Area {
        ram: parts.ram,
        stack: thread.stack,
        stack_length: thread.stack_length,
        trusted: at,
        trusted_length: AREA_HEAD + FRAME_SIZE * thread.frames,
    }
}

/// All threads, in the order of their numbers; their areas stand one after another. The one error is
/// `NoMemory`.
pub(crate) fn threads_of(alloc: Global, parts: &Parts) -> Result<Threads, NoMemory>
    requires { Sound parts.now }
    ensures fresh { IfOk result (λ r. r.fresh.items ≡ spec.fresh_of parts.now) }
    ensures end { IfOk result (λ r. r.end ≡ spec.areas_end parts.now) }
{
    let mut fresh = Vec::with_capacity(alloc, parts.threads.len())?;
    let mut at = areas_begin(parts);
    for index in 0..parts.threads.len() {
        let thread = &parts.threads[index];
        let area = area_from(parts, at, thread);
        let first = first_at(parts, index, thread);
        // With `pcc` named, rattle's borrow checker is told of `Live`, which `First` holds; `first` alone it refuses.
        let pcc = first.pcc;
        fresh.push(Fresh {
            first: First { pcc, ..first },
            area,
        })?;
        at += area.trusted_length;
    }
    Ok(Threads { fresh, end: at })
}
