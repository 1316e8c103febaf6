//! The parts of shared objects, sealed objects and threads.

ghost use Rattle.std.specs.Prelude.{◌≡◌, ◌+◌, ◌<◌, ◌^◌, drop, length, IfOk};
ghost use Rattle.def_link.specs.Linked as spec;
ghost use Rattle.def_link.specs.Slots.{compartment_export_named as spec_called};
ghost use Rattle.ct_link_slots.specs.Exporters.{AreCounted};

use crate::regions::region_at;
use ct_desc_rows::{Desc, Sealed, Shared, Thread};
use ct_image_parts::{Sealed as SealedPart, Shared as SharedPart, Thread as ThreadPart};
use ct_link_slots::called;
use def_layout::Region;
use std::alloc::{AllocError, Global};

fn shared_part(alloc: Global, shared: &Shared, region: Region) -> Result<SharedPart, AllocError>
    ensures { IfOk result (λ p. p ≡ record {
      name = shared.now.name;
      base = region.base;
      length = region.length;
    }) }
{
    Ok(SharedPart {
        name: String::from_str(alloc, shared.name.as_str())?,
        base: region.base,
        length: region.length,
    })
}

/// The parts of shared objects, whose regions stand from `first` on.
#[tactic(auto, using(crate::proofs::Stretches::numbered_more, crate::proofs::Parts::shared_all))]
pub(crate) fn shared_parts(
    alloc: Global,
    all: &[Shared],
    regions: &[Region],
    first: usize,
) -> Result<Vec<SharedPart>, AllocError>
    requires { first + length all.now < 2 ^ 32 }
    ensures { IfOk result
        (λ v. v.items ≡ spec.shared_parts (drop first regions.now) all.now) }
{
    let mut parts = Vec::new(alloc);
    let mut at = first;
    for shared in all {
        parts.push(shared_part(alloc, shared, region_at(regions, at, 0))?)?;
        at += 1;
    }
    Ok(parts)
}

fn sealed_part(alloc: Global, sealed: &Sealed, region: Region) -> Result<SealedPart, AllocError>
    ensures { IfOk result (λ p. p ≡ record {
      name = sealed.now.name;
      base = region.base;
      length = region.length;
      seal = sealed.now.seal;
      bytes = sealed.now.bytes;
    }) }
{
    Ok(SealedPart {
        name: String::from_str(alloc, sealed.name.as_str())?,
        base: region.base,
        length: region.length,
        seal: sealed.seal,
        bytes: Vec::from_slice(alloc, sealed.bytes.as_slice())?,
    })
}

/// The parts of sealed objects, whose regions stand from `first` on.
#[tactic(auto, using(crate::proofs::Stretches::numbered_more, crate::proofs::Parts::sealed_all))]
pub(crate) fn sealed_parts(
    alloc: Global,
    all: &[Sealed],
    regions: &[Region],
    first: usize,
) -> Result<Vec<SealedPart>, AllocError>
    requires { first + length all.now < 2 ^ 32 }
    ensures { IfOk result
        (λ v. v.items ≡ spec.sealed_parts (drop first regions.now) all.now) }
{
    let mut parts = Vec::new(alloc);
    let mut at = first;
    for sealed in all {
        parts.push(sealed_part(alloc, sealed, region_at(regions, at, 0))?)?;
        at += 1;
    }
    Ok(parts)
}

fn thread_part(
    alloc: Global,
    desc: &Desc,
    thread: &Thread,
    regions: &[Region],
    at: usize,
) -> Result<ThreadPart, AllocError>
    requires counted { AreCounted desc.now }
    requires few { at < 2 ^ 32 }
    ensures { IfOk result (λ p. p ≡ spec.thread_part (drop at regions.now)
        (spec_called desc.now thread.now.entry) thread.now) }
{
    let entered = called(desc.compartments.as_slice(), thread.entry.as_bytes());
    let region = region_at(regions, at, 0);
    Ok(ThreadPart {
        name: String::from_str(alloc, thread.name.as_str())?,
        stack: region.base,
        stack_length: region.length,
        compartment: entered.owner,
        export: entered.export,
        priority: thread.priority,
        frames: thread.frames,
    })
}

/// The parts of threads, whose stacks stand from `first` on.
#[tactic(auto, using(crate::proofs::Stretches::numbered_more, crate::proofs::Parts::thread_all))]
pub(crate) fn thread_parts(
    alloc: Global,
    desc: &Desc,
    threads: &[Thread],
    regions: &[Region],
    first: usize,
) -> Result<Vec<ThreadPart>, AllocError>
    requires counted { AreCounted desc.now }
    requires few { first + length threads.now < 2 ^ 32 }
    ensures { IfOk result
        (λ v. v.items ≡ spec.thread_parts desc.now (drop first regions.now) threads.now) }
{
    let mut parts = Vec::new(alloc);
    let mut at = first;
    for thread in threads {
        parts.push(thread_part(alloc, desc, thread, regions, at)?)?;
        at += 1;
    }
    Ok(parts)
}
