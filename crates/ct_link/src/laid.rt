//! From the objects of all owners to the image.

ghost use Rattle.std.specs.Prelude.{◌≡◌, Ok, IfOk, IfErr};
ghost use Rattle.ct_link_objects.specs.Objects.{RefusesLink};
ghost use Rattle.ct_link.specs.Rows.{AreOwn, AreLent};
ghost use Rattle.ct_link.specs.Starting.{AreSmallRows, AreStarts, AreFewStarts, parts_at as spec_parts_at};
ghost use Rattle.ct_link_slots.specs.Exporters.{AreCounted};
ghost use Rattle.ct_link.specs.Laid.{AreObjects, AreReady, IsPlaced, laid_of, parts_with};

use crate::objects::{sealed_parts, shared_parts, thread_parts};
use crate::owners::{compartment_parts, entries_of, library_parts};
use crate::regions::region_at;
use crate::sizes::sizes_of;
use ct_asm::Object;
use ct_desc_rows::Desc;
use ct_entry::{Device, Devices};
use ct_image::Image;
use ct_image_parts::Parts;
use ct_layout::{LayoutFault, Places, Sizes, place};
use def_layout::Region;
use def_link::LinkFault;
use std::alloc::{AllocError, Global};

/// Copies of devices.
fn devices_of(alloc: Global, all: &[Device]) -> Result<Vec<Device>, AllocError>
    ensures { IfOk result (λ v. v.items ≡ all.now) }
{
    let mut devices = Vec::new(alloc);
    for device in all {
        devices.push(Device {
            name: String::from_str(alloc, device.name.as_str())?,
            kind: device.kind,
            base: device.base,
        })?;
    }
    Ok(devices)
}

/// Where the regions of each list begin among all, and the number of the first library's first
/// entry. The regions of compartments stand first, three each.
#[derive(Drop)]
pub(crate) struct Starts {
    libraries: usize,
    shared: usize,
    sealed: usize,
    threads: usize,
    trusted: usize,
    entry: u32,
}

/// Where the regions of a description's lists begin, and its libraries' entries.
fn starts_of(desc: &Desc) -> Starts
    requires { AreSmallRows desc.now }
    ensures { AreStarts desc.now result }
{
    let libraries = 3 * desc.compartments.len();
    let shared = libraries + desc.libraries.len();
    let sealed = shared + desc.shared.len();
    let threads = sealed + desc.sealed.len();
    let trusted = threads + desc.threads.len();
    let entry = 1 + entries_of(desc.compartments.as_slice());
    Starts {
        libraries,
        shared,
        sealed,
        threads,
        trusted,
        entry,
    }
}

/// The parts over all regions, by where these begin. The heap begins at `heap`.
fn parts_at(
    alloc: Global,
    desc: &Desc,
    own: &[Object],
    lent: &[Object],
    regions: &[Region],
    heap: u32,
    starts: &Starts,
) -> Result<Parts, AllocError>
    requires counted { AreCounted desc.now }
    requires own { AreOwn desc.now.compartments own.now }
    requires lent { AreLent desc.now.libraries lent.now }
    requires few { AreFewStarts desc.now starts.now }
    ensures { IfOk result
        (λ p. p ≡ spec_parts_at desc.now own.now lent.now regions.now heap starts.now) }
{
    let trusted = region_at(regions, starts.trusted, 0);
    let shared = shared_parts(alloc, desc.shared.as_slice(), regions, starts.shared)?;
    let sealed = sealed_parts(alloc, desc.sealed.as_slice(), regions, starts.sealed)?;
    let compartments = compartment_parts(alloc, desc, own, regions)?;
    let libraries = library_parts(alloc, desc, lent, starts.entry, regions, starts.libraries)?;
    let threads = thread_parts(
        alloc,
        desc,
        desc.threads.as_slice(),
        regions,
        starts.threads,
    )?;
    Ok(Parts {
        version: desc.version,
        sweep: desc.sweep,
        quantum: desc.quantum,
        ram: desc.ram.base,
        size: desc.ram.size,
        trusted: trusted.base,
        heap,
        name: String::from_str(alloc, desc.firmware.as_str())?,
        devices: Devices {
            rows: devices_of(alloc, desc.devices.as_slice())?,
        },
        shared,
        sealed,
        compartments,
        libraries,
        threads,
    })
}

/// The parts over all regions: those of compartments stand first, then of libraries, shared and
/// sealed objects, stacks, and the trusted region. The heap begins at `heap`.
#[tactic(auto, using(crate::proofs::Bounds::are_own, crate::proofs::Bounds::are_lent, crate::proofs::Bounds::are_counted, crate::proofs::Whole::are_small_rows, crate::proofs::Whole::are_few_starts, crate::proofs::Whole::parts_made))]
fn parts_of(
    alloc: Global,
    desc: &Desc,
    own: &[Object],
    lent: &[Object],
    regions: &[Region],
    heap: u32,
) -> Result<Parts, AllocError>
    requires { AreObjects desc.now own.now lent.now }
    ensures { IfOk result
        (λ p. p ≡ parts_with desc.now own.now lent.now regions.now heap) }
{
    let starts = starts_of(desc);
    parts_at(alloc, desc, own, lent, regions, heap, &starts)
}

/// Where the regions of all owners lie, or that RAM hasn't room for them.
#[tactic(auto, using(crate::proofs::Bounds::are_placeable, crate::proofs::Bounds::are_placed, crate::proofs::Bounds::room_wanted))]
fn places_of(
    alloc: Global,
    desc: &Desc,
    own: &[Object],
    lent: &[Object],
) -> Result<Places, LinkFault>
    requires { AreObjects desc.now own.now lent.now }
    ensures ok { IfOk result (λ places. IsPlaced desc.now own.now lent.now places) }
    ensures err { IfErr result (λ e. RefusesLink (laid_of desc.now own.now lent.now) e) }
{
    let Ok(regions) = sizes_of(alloc, desc, own, lent) else {
        return Err(LinkFault::NoMemory);
    };
    let sizes = Sizes {
        base: desc.ram.base,
        size: desc.ram.size,
        regions,
    };
    match place(alloc, &sizes) {
        Ok(places) => Ok(places),
        Err(LayoutFault::NoRoom { needed, has }) => Err(LinkFault::NoRoom { needed, has }),
        Err(LayoutFault::NoMemory) => Err(LinkFault::NoMemory),
    }
}

/// The image of a lawful description, by the objects of its compartments and of its libraries.
#[tactic(auto, using(crate::proofs::Ready::is_faultless, crate::proofs::Ready::laid_so))]
pub(crate) fn image_of(
    alloc: Global,
    desc: &Desc,
    own: &[Object],
    lent: &[Object],
) -> Result<Image, LinkFault>
    requires { AreReady desc.now own.now lent.now }
    ensures ok { IfOk result (λ i. laid_of desc.now own.now lent.now ≡ Ok i) }
    ensures err { IfErr result (λ e. RefusesLink (laid_of desc.now own.now lent.now) e) }
{
    let places = places_of(alloc, desc, own, lent)?;
    let regions = places.regions.as_slice();
    let Ok(parts) = parts_of(alloc, desc, own, lent, regions, places.heap.base) else {
        return Err(LinkFault::NoMemory);
    };
    Ok(Image::of(parts))
}
