//! Acceptance of bytes.

ghost use Rattle.std.specs.Prelude.{◌≡◌, ◌<◌, ◌^◌, length, IfOk, IfErr};
ghost use Rattle.def_image.specs.Accepted as spec;
ghost use Rattle.def_image.specs.Accepted.{IsFaultless, IsImage};
ghost use Rattle.ct_image.specs.Answers.{RefusesBytes, Stand, Breaks};

use crate::fault::ImageFault;
use crate::image::Image;
use crate::{index_fault, region_fault, right_fault};
use ct_image_fields::{Cut, MAGIC, read};
use ct_image_limits::limit_fault;
use ct_image_parts::{Parts, parts_of, places_of};
use def_profile::limits::LAST_VERSION;
use std::alloc::Global;

/// Whether bytes begin with the magic and a version that is known.
fn is_begun(bytes: &[u8]) -> bool
    ensures { result ≡ spec.is_begun bytes.now }
{
    if bytes.len() < 8 {
        return false;
    }
    let version = u32::from_le_bytes([bytes[4], bytes[5], bytes[6], bytes[7]]);
    &bytes[..4] == MAGIC.as_slice() && 1 <= version && version <= LAST_VERSION
}

/// The image of parts whose limits and forms hold. Else what is wrong with them first, of where
/// regions lie, of what is named, and of rights.
#[tactic(auto, using(crate::proofs::Small::small_is, crate::proofs::Small::room_is, crate::proofs::Small::owners_packed, crate::proofs::Small::libraries_packed, crate::proofs::Answered::faultless))]
fn judged(alloc: Global, parts: Parts) -> Result<Image, ImageFault>
    requires { Stand parts }
    ensures accepted { IfOk result (λ i. i ≡ parts) }
    ensures faultless { IfOk result (λ i. IsFaultless i) }
    ensures refused { IfErr result (λ e. Breaks parts e) }
{
    let at = places_of(&parts);
    if let Some(place) = region_fault(alloc, &parts, at)? {
        return Err(ImageFault::At { number: 4, place });
    }
    if let Some(place) = index_fault(&parts, at) {
        return Err(ImageFault::At { number: 5, place });
    }
    if let Some(place) = right_fault(&parts, at) {
        return Err(ImageFault::At { number: 6, place });
    }
    Ok(Image::of(parts))
}

/// The image that the bytes spell. Else the least number of what is wrong and its first place, as
/// docs/use/image.md has them, or NoMemory where memory was wanted.
///
/// Condition: places are 32 bits wide, so there are fewer than 2 to the 32 bytes.
#[tactic(auto, using(crate::proofs::Answered::unbegun, crate::proofs::Answered::uncut, crate::proofs::Answered::unlimited, crate::proofs::Answered::standing, crate::proofs::Answered::spelled_by, crate::proofs::Answered::refused))]
pub fn accept(alloc: Global, bytes: &[u8]) -> Result<Image, ImageFault>
    requires { length bytes.now < 2 ^ 32 }
    ensures accepted { IfOk result (λ i. IsImage bytes.now i) }
    ensures refused { IfErr result (λ e. RefusesBytes bytes.now e) }
{
    if !is_begun(bytes) {
        return Err(ImageFault::At {
            number: 1,
            place: 0,
        });
    }
    let raw = match read(alloc, bytes) {
        Ok(raw) => raw,
        Err(Cut::Unspelled) => {
            let place = bytes.len() as u32;
            return Err(ImageFault::At { number: 2, place });
        }
        Err(Cut::NoMemory) => return Err(ImageFault::NoMemory),
    };
    if let Some(place) = limit_fault(&raw) {
        return Err(ImageFault::At { number: 3, place });
    }
    let parts = parts_of(alloc, &raw)?;
    judged(alloc, parts)
}
