//! One instruction after another.

ghost use Rattle.std.specs.Prelude.{◌≡◌, ◌≤◌, ◌<◌, ◌+◌, ◌-◌, ◌*◌, ◌%◌, List, true, false};
ghost use Rattle.def_machine.specs.State.{Frame};
ghost use Rattle.def_step.specs.Instructions.{fetched};
ghost use Rattle.def_words.specs.Authority.{cap_address};
ghost use Rattle.ct_loadstore.specs.Shapes.{space_of};
ghost use Rattle.ct_threads.specs.Steps.{no_bank};
ghost use Rattle.ct_threads.specs.Windows.{Suits};
ghost use Rattle.ct_burst.specs.Carrying.{stays_inside, went, HasWindow, IsHeld, IsOn, IsPast, Stays};
ghost use Rattle.ct_burst.specs.declared.going.Quietly.TheVariants.{Led, Went};
ghost use Rattle.ct_burst.specs.Going.{running_thread, GoesFor, GoesOnce};

use crate::dispatching::{Alone, InBurst, carry};
use crate::going::Quietly;
use ct_areas::Thread;
use ct_decode::Decoded;
use ct_mem::Memory;
use ct_threads::{Window, window_of};

/// The word at a row's program counter.
#[inline(always)]
fn word_at<M: Memory>(row: &Thread, mem: &M, ram: u32, window: Window) -> u32
    requires even { ram % 16 ≡ 0 }
    requires held { IsHeld row.now window }
    requires window { HasWindow ram row.now (M.granules mem.now) window }
    ensures { result
        ≡ fetched (space_of ram (M.granules mem.now) no_bank 0) (cap_address row.now.pcc) }
{
    mem.load(row.pcc.address() - ram, 4)
}

/// The instruction at a row's program counter, which the window holds, is carried out, or left.
#[inline(always)]
fn step<M: Memory, Who>(
    row: &mut Thread,
    mem: &mut M,
    ram: u32,
    decoded: &mut Decoded,
    window: Window,
) -> Quietly
    requires even { ram % 16 ≡ 0 }
    requires held { IsHeld row.old window }
    requires window { HasWindow ram row.old (M.granules mem.old) window }
    ensures goes { went result ≡ true → (fs : List Frame)
        → GoesOnce ram (running_thread row.old fs) (M.granules mem.old) (running_thread row.new fs)
        (M.granules mem.new) }
    ensures same { went result ≡ false → row.new ≡ row.old }
    ensures memory { went result ≡ false → M.granules mem.new ≡ M.granules mem.old }
    ensures stays { Stays row.old row.new (M.granules mem.old) (M.granules mem.new) }
    ensures past { result ≡ Went → IsPast row.old row.new window }
    ensures led { result ≡ Led → IsHeld row.new window }
{
    let word = word_at(row, mem, ram, window);
    let at = row.pcc.address();
    carry::<M, Who>(row, mem, ram, decoded.reading(at, word), window)
}

/// Of instructions at one address after another how many are still to come, and what became of the last that was met.
#[derive(Clone, Copy, Drop)]
struct Line {
    to_come: u32,
    last: Quietly,
}

/// Instructions at one address after another, all of which the window holds, up to one that is left, one that leads
/// elsewhere, or the last that is asked for.
#[inline(always)]
fn run_line<M: Memory>(
    row: &mut Thread,
    mem: &mut M,
    ram: u32,
    decoded: &mut Decoded,
    window: Window,
    most: u32,
) -> Line
    requires even { ram % 16 ≡ 0 }
    requires some { 1 ≤ most }
    requires held { IsHeld row.old window }
    requires line { cap_address row.old.pcc + 4 * most ≤ window.last + 4 }
    requires window { HasWindow ram row.old (M.granules mem.old) window }
    ensures most { result.to_come ≤ most }
    ensures some { went result.last ≡ true → result.to_come < most }
    ensures goes { (fs : List Frame)
        → GoesFor ram (most - result.to_come) (running_thread row.old fs) (M.granules mem.old)
        (running_thread row.new fs) (M.granules mem.new) }
    ensures stays { Stays row.old row.new (M.granules mem.old) (M.granules mem.new) }
    ensures on { stays_inside result.last ≡ true → IsOn row.new window }
    ensures led { result.last ≡ Led → IsHeld row.new window }
{
    let mut to_come = most;
    while to_come != 0 {
        match step::<M, InBurst>(row, mem, ram, decoded, window) {
            Quietly::Went => {}
            Quietly::Loud => {
                return Line {
                    to_come,
                    last: Quietly::Loud,
                };
            }
            Quietly::Led => {
                return Line {
                    to_come: to_come - 1,
                    last: Quietly::Led,
                };
            }
            Quietly::Turned => {
                return Line {
                    to_come: to_come - 1,
                    last: Quietly::Turned,
                };
            }
        }
        to_come -= 1;
    }
    Line {
        to_come: 0,
        last: Quietly::Went,
    }
}

/// How many instructions were carried out, and whether the last of them may have led out of the window.
#[derive(Clone, Copy, Drop)]
struct Course {
    count: u32,
    turned: bool,
}

/// Instructions of a row whose address a window holds, up to one that is left, one that may lead out of the window, or
/// the last that is asked for.
fn run<M: Memory>(
    row: &mut Thread,
    mem: &mut M,
    ram: u32,
    decoded: &mut Decoded,
    window: Window,
    most: u32,
) -> Course
    requires even { ram % 16 ≡ 0 }
    requires held { IsHeld row.old window }
    requires window { HasWindow ram row.old (M.granules mem.old) window }
    ensures most { result.count ≤ most }
    ensures some { result.turned ≡ true → 1 ≤ result.count }
    ensures goes { (fs : List Frame)
        → GoesFor ram result.count (running_thread row.old fs) (M.granules mem.old)
        (running_thread row.new fs) (M.granules mem.new) }
    ensures stays { Stays row.old row.new (M.granules mem.old) (M.granules mem.new) }
    ensures window { result.turned ≡ false → HasWindow ram row.new (M.granules mem.new) window }
{
    let mut made = 0;
    while made < most {
        let words = ((window.last - row.pcc.address()) / 4 + 1).min(most - made);
        let line = run_line(row, mem, ram, decoded, window, words);
        made += words - line.to_come;
        match line.last {
            Quietly::Led => {}
            Quietly::Turned => {
                return Course {
                    count: made,
                    turned: true,
                };
            }
            Quietly::Loud | Quietly::Went => {
                return Course {
                    count: made,
                    turned: false,
                };
            }
        }
    }
    Course {
        count: most,
        turned: false,
    }
}

/// Where `true`, a row that a window suits is tagged, at a multiple of 4 that the window holds. Where `false`, its
/// instruction is left.
#[inline(always)]
fn is_held(row: &Thread, window: Window) -> bool
    requires { Suits window row.now.pcc }
    ensures { result ≡ true → IsHeld row.now window }
{
    let at = row.pcc.address();
    row.pcc.cap.tag && at % 4 == 0 && window.holds(at)
}

/// Instructions of a row's thread, which runs, up to one that is left or the last that is asked for: how many were
/// carried out. After it the window is one still, memory keeps its size, and beside registers and program counter
/// capability the row is as it was. RAM begins at `ram`, and `decoded` is for speed alone.
///
/// Conditions: RAM begins at a multiple of 16, and the window is one of the row's program counter capability.
#[inline(never)]
pub fn burst<M: Memory>(
    row: &mut Thread,
    mem: &mut M,
    ram: u32,
    decoded: &mut Decoded,
    window: &mut Window,
    most: u32,
) -> u32
    requires even { ram % 16 ≡ 0 }
    requires window { HasWindow ram row.old (M.granules mem.old) window.old }
    ensures most { result ≤ most }
    ensures goes { (fs : List Frame)
        → GoesFor ram result (running_thread row.old fs) (M.granules mem.old)
        (running_thread row.new fs) (M.granules mem.new) }
    ensures stays { Stays row.old row.new (M.granules mem.old) (M.granules mem.new) }
    ensures window { HasWindow ram row.new (M.granules mem.new) window.new }
{
    let mut made = 0;
    while made < most {
        if !is_held(row, *window) {
            return made;
        }
        let some = run(row, mem, ram, decoded, *window, most - made);
        made += some.count;
        if !some.turned {
            return made;
        }
        *window = window_of(&row.pcc, mem, ram);
    }
    made
}

/// One instruction of a row's thread, which runs: 1 where it was carried out, else 0. It is for who has something to do
/// after each.
///
/// Conditions and what stays: as of `burst`.
#[inline(always)]
pub fn once<M: Memory>(
    row: &mut Thread,
    mem: &mut M,
    ram: u32,
    decoded: &mut Decoded,
    window: &mut Window,
) -> u32
    requires even { ram % 16 ≡ 0 }
    requires window { HasWindow ram row.old (M.granules mem.old) window.old }
    ensures most { result ≤ 1 }
    ensures goes { (fs : List Frame)
        → GoesFor ram result (running_thread row.old fs) (M.granules mem.old)
        (running_thread row.new fs) (M.granules mem.new) }
    ensures stays { Stays row.old row.new (M.granules mem.old) (M.granules mem.new) }
    ensures window { HasWindow ram row.new (M.granules mem.new) window.new }
{
    if !is_held(row, *window) {
        return 0;
    }
    match step::<M, Alone>(row, mem, ram, decoded, *window) {
        Quietly::Loud => 0,
        Quietly::Went => 1,
        Quietly::Led => 1,
        Quietly::Turned => {
            *window = window_of(&row.pcc, mem, ram);
            1
        }
    }
}
