//! An image's launch.

ghost use Rattle.std.specs.Prelude.{◌≡◌, ◌*◌, IfOk, length};
ghost use Rattle.def_boot.specs.Boot.{boot_state, image_of};
ghost use Rattle.def_image.specs.Sound.{Sound};
ghost use Rattle.def_boot.specs.Booting.{empty_granules};
ghost use Rattle.ct_heap.specs.Effects.{AreFew, Empty, empty};
ghost use Rattle.ct_boot.specs.Launching.{heap_range, launched};
ghost use Rattle.ct_boot.specs.Placed.{ArePlaced, AreFirst};

use crate::booting::boot;
use crate::fresh::{areas_begin, threads_of};
use ct_engine::{Engine, Heap, Region};
use ct_image::Image;
use ct_image_parts::Parts;
use ct_mem::Memory;
use def_refusals::NoMemory;
use std::alloc::Global;

/// The heap of an image, empty, with one quota for each limit: RAM from its begin on.
fn heap_of(alloc: Global, parts: &Parts, limits: &[u32]) -> Result<Heap, NoMemory>
    requires sound { Sound parts.now }
    requires few { AreFew limits.now }
    ensures is { IfOk result (λ h. h ≡ empty (heap_range parts.now) limits.now) }
    ensures empty { IfOk result (λ h. Empty h) }
{
    let length = parts.ram + parts.size - parts.heap;
    Heap::new(alloc, parts.ram, parts.heap, length, limits)
}

/// The engine of booted memory.
fn engine_of<M: Memory + Drop>(
    alloc: Global,
    parts: &Parts,
    mem: M,
    limits: &[u32],
) -> Result<Engine<M>, NoMemory>
    requires sound { Sound parts.now }
    requires few { AreFew limits.now }
    requires booted { M.granules mem ≡ (boot_state parts.now).granules }
    ensures { IfOk result (λ e. e ≡ launched parts.now limits.now) }
{
    let threads = threads_of(alloc, parts)?;
    let region = Region {
        ram: parts.ram,
        trusted: areas_begin(parts),
        end: threads.end,
    };
    let heap = heap_of(alloc, parts, limits)?;
    Engine::start(alloc, mem, region, threads.fresh.as_slice(), heap)
}

/// The engine of an image: its memory is booted, each of its threads stands before its first step,
/// with an area of its own in the trusted region, and its heap is empty, with one quota for each
/// limit, which is in bytes (docs/use/machine.md).
///
/// Condition: memory reads as zero, is unmarked, and has the size of the image's RAM. `NoMemory`
/// where the allocator has no room for the threads and the heap.
pub fn launch<M: Memory + Drop>(
    alloc: Global,
    image: &Image,
    mem: M,
    limits: &[u32],
) -> Result<Engine<M>, NoMemory>
    requires empty { M.granules mem ≡ empty_granules image.now }
    requires few { AreFew limits.now }
    ensures launched { IfOk result (λ e. e ≡ launched image.now limits.now) }
    ensures placed { IfOk result
        (λ e.
        ArePlaced (image_of image.now) (8 * length e.state.granules) e.areas) }
    ensures first { IfOk result (λ e. AreFirst e) }
{
    let mut memory = mem;
    boot(image, &mut memory);
    engine_of(alloc, image.parts(), memory, limits)
}
