//! A machine before its first event.

ghost use Rattle.std.specs.Prelude.{ℕ, ◌≡◌, ◌≤◌, ◌*◌, IfOk, Some, length, slice_get};
ghost use Rattle.def_profile.specs.declared.limits.TheConstants.{MOST_PRIORITY};
ghost use Rattle.def_events.specs.Guarded.{Guarded};
ghost use Rattle.def_boot.specs.Boot.{booted_machine, image_of};
ghost use Rattle.def_boot.specs.Gates.{entries_of};
ghost use Rattle.def_image.specs.Parts.{ThreadRow};
ghost use Rattle.def_image.specs.Sound.{Sound};
ghost use Rattle.def_boot.specs.Booting.{empty_granules};
ghost use Rattle.ct_boot.specs.Launching.{launched};
ghost use Rattle.ct_boot.specs.Placed.{ArePlaced};
ghost use Rattle.ct_machine.specs.Starting.{bank_of, limits_of, priorities_of, rows_of};

use crate::parts::Parts;
use crate::plan::Plan;
use crate::tally::Tally;
use ct_boot::launch;
use ct_bus::Bus;
use ct_decode::Decoded;
use ct_engine::Engine;
use ct_entry::Entries;
use ct_image::Image;
use ct_image_parts::{Parts as ImageParts, Thread};
use ct_mem::Memory;
use ct_sched::Sched;
use def_refusals::NoMemory;
use std::alloc::Global;

/// A thread's priority, as the scheduler keeps it.
fn priority_of(thread: &Thread) -> u8
    requires { thread.now.priority ≤ MOST_PRIORITY }
    ensures { result ≡ thread.now.priority }
{
    thread.priority as u8
}

/// The priority of each thread.
fn priorities(alloc: Global, threads: &[Thread]) -> Result<Vec<u8>, NoMemory>
    requires { (i : ℕ) (t : ThreadRow) → slice_get threads.now i ≡ Some t
        → t.priority ≤ MOST_PRIORITY }
    ensures { IfOk result (λ v. v.items ≡ priorities_of threads.now) }
{
    let mut all = Vec::with_capacity(alloc, threads.len())?;
    for thread in threads.iter() {
        all.push(priority_of(thread))?;
    }
    Ok(all)
}

/// The scheduler of an image's threads, all ready, of which none has been picked.
fn turns(alloc: Global, parts: &ImageParts) -> Result<Sched, NoMemory>
    requires { Sound parts.now }
    ensures { IfOk result (λ s. s ≡ rows_of parts.now) }
{
    let priorities = priorities(alloc, parts.threads.as_slice())?;
    Sched::new(alloc, priorities.as_slice())
}

/// What each quota may take, by the numbers of the entries; what is no quota takes nothing.
fn limits(alloc: Global, entries: &Entries) -> Result<Vec<u32>, NoMemory>
    ensures { IfOk result (λ v. v.items ≡ limits_of entries.now) }
{
    let mut all = vec![in alloc; 0u32]?;
    for row in &entries.rows {
        all.push(row.limit)?;
    }
    Ok(all)
}

/// The engine of an image: its threads and its heap, over memory that is booted.
fn booted<M: Memory + Drop>(
    alloc: Global,
    image: &Image,
    plan: &Plan,
    mem: M,
) -> Result<Engine<M>, NoMemory>
    requires sound { Sound image.now }
    requires empty { M.granules mem ≡ empty_granules image.now }
    requires plan { plan.now ≡ image_of image.now }
    ensures launched { IfOk result
        (λ t. t ≡ launched image.now (limits_of (entries_of image.now))) }
    ensures placed { IfOk result
        (λ t.
        ArePlaced (image_of image.now) (8 * length t.state.granules) t.areas) }
{
    match limits(alloc, plan.entries()) {
        Ok(limits) => {
            let engine = launch(alloc, image, mem, limits.as_slice());
            drop(limits);
            engine
        }
        Err(none) => {
            drop(mem);
            Err(none)
        }
    }
}

/// The devices of an image at rest, the turns of its threads, and no word that is kept decoded.
fn rest(alloc: Global, parts: &ImageParts) -> Result<(Bus, Sched, Decoded), NoMemory>
    requires { Sound parts.now }
    ensures bus { IfOk result (λ r. r.0 ≡ bank_of parts.now) }
    ensures sched { IfOk result (λ r. r.1 ≡ rows_of parts.now) }
{
    let bus = Bus::new(alloc, &parts.devices)?;
    let Ok(sched) = turns(alloc, parts) else {
        drop(bus);
        return Err(NoMemory);
    };
    let Ok(decoded) = Decoded::new(alloc) else {
        drop(bus);
        drop(sched);
        return Err(NoMemory);
    };
    Ok((bus, sched, decoded))
}

/// The parts of a machine before its first event.
fn put_together<M: Memory + Drop>(
    parts: &ImageParts,
    plan: Plan,
    engine: Engine<M>,
    bus: Bus,
    sched: Sched,
    decoded: Decoded,
) -> Parts<M>
    requires sound { Sound parts.now }
    requires plan { plan ≡ image_of parts.now }
    requires engine { engine ≡ launched parts.now (limits_of (entries_of parts.now)) }
    requires placed { ArePlaced (image_of parts.now) (8 * length engine.state.granules)
        engine.areas }
    requires bus { bus ≡ bank_of parts.now }
    requires sched { sched ≡ rows_of parts.now }
    ensures { result ≡ booted_machine parts.now }
{
    let _ = parts;
    Parts {
        plan,
        engine,
        bus,
        sched,
        pending: false,
        time: 0,
        counts: Tally {
            steps: 0,
            ticks: 0,
            sweeps: 0,
            inputs: 0,
            calls: 0,
            loads: 0,
            stores: 0,
            frees: 0,
            traps: 0,
        },
        decoded,
    }
}

impl<M: Memory + Drop> Parts<M> {
    /// The parts of the machine of an image, booted.
    pub(crate) fn start(alloc: Global, image: &Image, mem: M) -> Result<Parts<M>, NoMemory>
        requires empty { M.granules mem ≡ empty_granules image.now }
        ensures booted { IfOk result (λ m. m ≡ booted_machine image.now) }
        ensures guarded { IfOk result (λ m. Guarded m) }
    {
        let Ok(plan) = Plan::of(alloc, image) else {
            drop(mem);
            return Err(NoMemory);
        };
        let parts = image.parts();
        let Ok(engine) = booted(alloc, image, &plan, mem) else {
            drop(plan);
            return Err(NoMemory);
        };
        let Ok((bus, sched, decoded)) = rest(alloc, parts) else {
            drop(plan);
            drop(engine);
            return Err(NoMemory);
        };
        Ok(put_together(parts, plan, engine, bus, sched, decoded))
    }
}
