//! The fields that bytes are.

ghost use Rattle.std.specs.Prelude.{◌≡◌, ◌≤◌, length, List, ℕ, IfOk, IsErrOf};
ghost use Rattle.def_image.specs.Accepted.{Spells};
ghost use Rattle.def_image.specs.Raw.{RawImage as Fields};
ghost use Rattle.ct_image_fields.specs.Given.{Gives};
ghost use Rattle.ct_image_fields.specs.Reading as spec;
ghost use Rattle.ct_image_fields.specs.declared.fault.Cut.TheVariants.{Unspelled};

use crate::fault::Cut;
use crate::fields::{
    RawCode, RawCompartment, RawDevice, RawImage, RawSealed, RawShared, RawThread,
};
use crate::heads::{Bases, Counts};
use crate::heads_at::{bases_at, counts_at, sweep_at};
use crate::lists::many_at;
use crate::numbers::{name_at, number_at, run_at};
use std::alloc::Global;

/// What begins an image: C T F W.
pub const MAGIC: [u8; 4] = [67, 84, 70, 87];

/// What stands before the lists, beside their counts.
#[derive(Clone, Copy, Drop)]
pub(crate) struct Head {
    pub version: u32,
    pub bases: Bases,
    pub sweep: u32,
    pub name: [u8; 32],
}

/// The lists, by their counts.
#[tactic(auto, unfolding(crate::specs::Reading::lists_at))]
fn lists_at(
    alloc: Global,
    head: Head,
    counts: Counts,
    bytes: &[u8],
) -> Result<(RawImage, &[u8]), Cut>
    ensures { Gives (λ x. (x.0, x.1.now)) result
        (spec.lists_at head.version head.bases head.sweep head.name counts bytes.now) }
{
    let (devices, rest) = many_at::<RawDevice>(alloc, counts.devices, bytes)?;
    let (shared, rest) = many_at::<RawShared>(alloc, counts.shared, rest)?;
    let (sealed, rest) = many_at::<RawSealed>(alloc, counts.sealed, rest)?;
    let (compartments, rest) = many_at::<RawCompartment>(alloc, counts.compartments, rest)?;
    let (libraries, rest) = many_at::<RawCode>(alloc, counts.libraries, rest)?;
    let (threads, rest) = many_at::<RawThread>(alloc, counts.threads, rest)?;
    let name = head.name;
    let image = RawImage {
        version: head.version,
        quantum: head.bases.quantum,
        ram: head.bases.ram,
        size: head.bases.size,
        trusted: head.bases.trusted,
        heap: head.bases.heap,
        sweep: head.sweep,
        name,
        devices,
        shared,
        sealed,
        compartments,
        libraries,
        threads,
    };
    Ok((image, rest))
}

/// An image's fields at the front of bytes.
#[tactic(auto, unfolding(crate::specs::Reading::image_at))]
fn image_at(alloc: Global, bytes: &[u8]) -> Result<(RawImage, &[u8]), Cut>
    ensures { Gives (λ x. (x.0, x.1.now)) result (spec.image_at bytes.now) }
{
    let (begin, rest) = run_at(4, bytes)?;
    let (version, rest) = number_at(rest)?;
    let (counts, rest) = counts_at(rest)?;
    let (bases, rest) = bases_at(rest)?;
    let (sweep, rest) = sweep_at(version, rest)?;
    let (name, rest) = name_at(rest)?;
    if begin != MAGIC.as_slice() {
        return Err(Cut::Unspelled);
    }
    let head = Head {
        version,
        bases,
        sweep,
        name,
    };
    lists_at(alloc, head, counts, rest)
}

/// An image's fields that are all of the bytes.
#[tactic(auto, unfolding(crate::specs::Reading::all_of))]
fn all_of(alloc: Global, bytes: &[u8]) -> Result<RawImage, Cut>
    ensures { Gives (λ x. x) result (spec.all_of bytes.now) }
{
    let (image, rest) = image_at(alloc, bytes)?;
    if !rest.is_empty() {
        return Err(Cut::Unspelled);
    }
    Ok(image)
}

/// The fields that spell the bytes. Unspelled exactly where no fields do: where reading them by
/// their counts passes the end, or bytes are left; NoMemory where memory was wanted.
pub fn read(alloc: Global, bytes: &[u8]) -> Result<RawImage, Cut>
    ensures fields { IfOk result (λ r. Spells r bytes.now) }
    ensures unspelled { IsErrOf result Unspelled → (r : Fields) → Spells r bytes.now → ⊥ }
    ensures only { (r : Fields) → Spells r bytes.now → IfOk result (λ q. q ≡ r) }
{
    all_of(alloc, bytes)
}
