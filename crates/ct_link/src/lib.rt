//! A description and the texts of its files are linked to one image, exactly as def_link has it
//! (docs/use/description.md, "Linking").
//!
//! The objects of all owners come first, in ct_link_objects; then the sizes of all regions, their places
//! by ct_layout, and the parts, whose slots come of ct_link_slots. What is linked
//! is faultless by the law of law_link, so that it is an image at once.
#![tactic(auto)]

mod gates;
mod laid;
mod objects;
mod owners;
mod regions;
mod sizes;

ghost use Rattle.std.specs.Prelude.{◌≡◌, Ok, IfOk, IfErr};
ghost use Rattle.def_link.specs.Linked.{linked};
ghost use Rattle.ct_link_objects.specs.Objects.{IsLinkable, RefusesLink};

use ct_desc_rows::Desc;
use ct_image::Image;
use ct_link_objects::objects;
pub use ct_link_objects::{Sources, are_sourced};
pub use def_link::LinkFault;
use std::alloc::Global;

/// The image that a description and its sources are linked to.
///
/// Ok exactly of an image whose parts are what they stand for. Else the first fault: of the owners
/// one after another, compartments first, and of one owner first a fault of its text (`Asm`), then
/// an import that isn't declared (`Import`), then a fault of the assembly (`Asm`), then an export
/// that begins nowhere (`Export`), then a library's initial bytes (`Initial`); after all owners
/// `NoRoom`, where the regions need more bytes than RAM has. `NoMemory` where a growth was refused.
///
/// Condition: the description is lawful, and there is one text, of fewer than 2 to the 32 bytes,
/// for each of its codes that is a file, compartments first.
#[tactic(auto, using(crate::proofs::Ready::owners_fit, crate::proofs::Ready::ready, crate::proofs::Ready::linked_ok, crate::proofs::Ready::linked_err, crate::proofs::Ready::owner_fault))]
pub fn link(alloc: Global, desc: &Desc, sources: &Sources) -> Result<Image, LinkFault>
    requires { IsLinkable desc.now sources.now }
    ensures linked { IfOk result (λ i. linked desc.now sources.now ≡ Ok i) }
    ensures refused { IfErr result (λ e. RefusesLink (linked desc.now sources.now) e) }
{
    let objects = objects(alloc, desc, sources)?;
    let (own, lent) = objects.as_slice().split_at(desc.compartments.len());
    laid::image_of(alloc, desc, own, lent)
}
