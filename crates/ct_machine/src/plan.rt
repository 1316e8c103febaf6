//! What never changes in a run.

ghost use Rattle.std.specs.Prelude.{◌≡◌, IfOk, slice_index_or};
ghost use Rattle.def_boot.specs.Boot.{image_of};
ghost use Rattle.ct_switch.specs.Exports.{AreSorted};
ghost use Rattle.def_machine.specs.Image.{handler_entry};
ghost use Rattle.ct_machine.specs.Starting.{IsOfSound};

use crate::Known;
use ct_entries::{entries, handlers};
use ct_entry::Entries;
use ct_image::Image;
use def_refusals::NoMemory;
use std::alloc::Global;
use std::marker::Model;

/// The number at an index; 0 past the end.
fn number_of(numbers: &[u32], index: u32) -> u32
    ensures { result ≡ slice_index_or numbers.now index 0 }
{
    match numbers.get(index as usize) {
        Some(number) => *number,
        None => 0,
    }
}

/// The entries of an image, the numbers of its compartments' error handlers, where its RAM and its heap begin, and how
/// many granules a slice of a sweep passes. The image itself isn't kept.
///
/// Contracts see it as the machine's image.
#[derive(Drop)]
pub(crate) struct Plan {
    entries: Entries,
    handlers: Vec<u32>,
    ram: u32,
    heap: u32,
    sweep: u32,
    image: Known<Image>,
}

impl Model for Plan {
    ghost use Rattle.def_machine.specs.Image as machine;
    ghost use Rattle.def_boot.specs.Boot.{image_of};
    ghost use Rattle.ct_machine.specs.Starting.{IsPlan};

    ghost Value = { machine.Image };

    ghost view = { λ p. image_of p.image.value };

    ghost invariant = { λ p. IsPlan p.image.value p.entries p.handlers.items p.ram p.heap
        p.sweep };
}

impl Plan {
    /// The plan of an image.
    pub(crate) fn of(alloc: Global, image: &Image) -> Result<Plan, NoMemory>
        ensures { IfOk result (λ p. p ≡ image_of image.now) }
    {
        let entries = entries(alloc, image)?;
        let handlers = handlers(alloc, image)?;
        let parts = image.parts();
        Ok(Plan {
            entries,
            handlers,
            ram: parts.ram,
            heap: parts.heap,
            sweep: parts.sweep,
            image: Known::of(image),
        })
    }

    /// The image's entries, whose gates stand by their numbers.
    pub(crate) fn entries(&self) -> &Entries
        ensures is { result.now ≡ self.now.entries }
        ensures sorted { AreSorted result.now.gates }
        ensures sound { IsOfSound self.now }
    {
        &self.entries
    }

    /// The number of the export that is a compartment's error handler; 0 where it has none.
    pub(crate) fn handler(&self, compartment: u32) -> u32
        ensures { result ≡ handler_entry self.now compartment }
    {
        number_of(self.handlers.as_slice(), compartment)
    }

    /// Where RAM begins.
    pub(crate) fn ram(&self) -> u32
        ensures { result ≡ self.now.ram }
    {
        self.ram
    }

    /// Where the heap begins.
    pub(crate) fn heap(&self) -> u32
        ensures { result ≡ self.now.heap_base }
    {
        self.heap
    }

    /// How many granules a slice of a sweep passes.
    pub(crate) fn sweep(&self) -> u32
        ensures { result ≡ self.now.sweep }
    {
        self.sweep
    }
}
