//! What a switch comes to.

ghost use Rattle.std.specs.Prelude.{◌≡◌, ◌*◌, ◌%◌, ◌≤◌, ◌<◌, None, length, slice_index_or};
ghost use Rattle.def_memory.specs.Granules.{plain};
ghost use Rattle.ct_areas.specs.Threads.{frames_most};
ghost use Rattle.ct_switch.specs.Ready.{MayCall};
ghost use Rattle.ct_switch.specs.Calls.{failed_in, switch_in, decided, MayEnter, TopFits, roomed};

use crate::{Export, called, export_of, first_trap, top_below};
use ct_areas::{Area, Thread};
use ct_cap::{Live, Trap};
use ct_entry::Entries;
use ct_mem::Memory;
use def_profile::layout::{AREA_HEAD, FRAME_SIZE};

/// A check fails; the thread has as many frames as it may have; the callee's stack has too little room; or the export
/// is entered, with a stack up to a new top.
pub(crate) enum Decision {
    Trapped { trap: Trap },
    TooDeep,
    NoStack,
    Enters { export: Export, high: u32 },
}

/// How many frames an area has room for.
fn frames_most(area: &Area) -> u32
    ensures { result ≡ frames_most area.now }
{
    area.trusted_length.saturating_sub(AREA_HEAD) / FRAME_SIZE
}

/// Whether an export's stack fits below an address of the caller's stack.
fn room(base: u32, address: u32, export: Export) -> Decision
    requires { base ≤ address }
    ensures is { result ≡ roomed base address export }
    ensures fits { base % 16 ≡ 0 → TopFits base address }
{
    let high = top_below(base, address);
    if high - base < export.stack {
        return Decision::NoStack;
    }
    Decision::Enters { export, high }
}

/// A register; c0 to c15 are 0 to 15.
#[inline(always)]
pub(crate) fn register(regs: &[Live; 16], n: usize) -> &Live
    requires { n < 16 }
    ensures { result.now ≡ slice_index_or regs.now n (plain 0) }
{
    &regs[n]
}

/// The number of the entry from which a capability comes.
pub(crate) fn entry_of(c: &Live) -> u32
    ensures { result ≡ c.now.shadow.root }
{
    c.cap.shadow.root
}

/// What the switch comes to after its checks.
fn past_checks<M: Memory>(t: &Thread, mem: &M, e: &Entries) -> Decision
    requires may { MayCall (M.granules mem.now) t.now e.now }
    requires passed { failed_in t.now ≡ None }
    ensures is { decided result ≡ switch_in (M.granules mem.now) e.now t.now }
    ensures enters { MayEnter e.now (8 * length (M.granules mem.now)) t.now result }
{
    let most = frames_most(&t.area);
    let depth = t.depth;
    if depth == most {
        return Decision::TooDeep;
    }
    let import = register(&t.regs, 6);
    let number = called(e, entry_of(import));
    let export = export_of(e, number);
    let stack = register(&t.regs, 2);
    room(t.area.stack, stack.address(), export)
}

/// What the switch comes to of a thread that runs.
pub(crate) fn decide<M: Memory>(t: &Thread, mem: &M, e: &Entries) -> Decision
    requires { MayCall (M.granules mem.now) t.now e.now }
    ensures is { decided result ≡ switch_in (M.granules mem.now) e.now t.now }
    ensures enters { MayEnter e.now (8 * length (M.granules mem.now)) t.now result }
{
    let link = register(&t.regs, 1);
    let import = register(&t.regs, 6);
    let stack = register(&t.regs, 2);
    match first_trap(t.area.stack, t.top, link, import, stack) {
        Some(trap) => Decision::Trapped { trap },
        None => past_checks(t, mem, e),
    }
}
