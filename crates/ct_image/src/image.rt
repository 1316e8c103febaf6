//! Accepted images.

ghost use Rattle.std.specs.Prelude.{◌≡◌, IfOk, option_map};
ghost use Rattle.def_image.specs.Accepted.{IsFaultless};
ghost use Rattle.def_image.specs.Parts.{upgraded};
ghost use Rattle.ct_image.specs.Handed.{text_in, initial_in};

use ct_entry::{Comp, Owner};
use ct_image_parts::{Parts, copied};
use def_profile::limits::LAST_VERSION;
use def_refusals::NoMemory;
use std::alloc::Global;
use std::marker::Model;

/// An image on which nothing fails.
#[derive(Drop)]
pub struct Image {
    parts: Parts,
}

impl Model for Image {
    ghost use Rattle.def_image.specs.Parts.{PartsRow};
    ghost use Rattle.def_image.specs.Accepted.{IsFaultless};

    ghost Value = { PartsRow };

    ghost view = { λ i. i.parts };

    ghost invariant = { λ i. IsFaultless i.parts };
}

impl Image {
    /// The image of these parts.
    ///
    /// Condition: nothing is wrong with them.
    pub fn of(parts: Parts) -> Image
        requires { IsFaultless parts }
        ensures { result ≡ parts }
    {
        Image { parts }
    }

    /// The image's parts.
    pub fn parts(&self) -> &Parts
        ensures parts { result.now ≡ self.now }
        ensures faultless { IsFaultless self.now }
    {
        &self.parts
    }

    /// A copy of the image. NoMemory where memory was wanted.
    pub fn copy(&self, alloc: Global) -> Result<Image, NoMemory>
        ensures { IfOk result (λ i. i ≡ self.now) }
    {
        let parts = copied(alloc, &self.parts)?;
        Ok(Image { parts })
    }

    /// The image in the last version of the format, with its sweep rate.
    pub fn upgraded(self) -> Image
        ensures { result ≡ upgraded self }
    {
        let mut parts = self.parts;
        parts.version = LAST_VERSION;
        Image { parts }
    }

    /// The text of a compartment or library. None exactly where the image has no such owner, so also
    /// for the trusted part and for threads.
    pub fn text(&self, owner: Owner) -> Option<&[u8]>
        ensures { option_map (λ t. t.now) result ≡ text_in self.now owner }
    {
        match owner {
            Owner::Compartment(index) => match self.parts.compartments.get(index as usize) {
                Some(compartment) => Some(compartment.code.text.as_slice()),
                None => None,
            },
            Owner::Library(index) => match self.parts.libraries.get(index as usize) {
                Some(library) => Some(library.text.as_slice()),
                None => None,
            },
            _ => None,
        }
    }

    /// The bytes that a compartment's globals begin with. None exactly where the image has no such
    /// compartment.
    pub fn init(&self, compartment: Comp) -> Option<&[u8]>
        ensures { option_map (λ t. t.now) result ≡ initial_in self.now compartment.0 }
    {
        match self.parts.compartments.get(compartment.0 as usize) {
            Some(compartment) => Some(compartment.initial.as_slice()),
            None => None,
        }
    }
}
