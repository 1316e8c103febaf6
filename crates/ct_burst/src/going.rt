//! How a row goes on.

ghost use Rattle.std.specs.Prelude.{◌≡◌, ◌<◌, ◌%◌, true, if◌then◌else◌};
ghost use Rattle.def_words.specs.Authority.{cap_address};
ghost use Rattle.def_words.specs.Capability.{integer, raised, with_address};
ghost use Rattle.ct_threads.specs.Rows.{row_gone};
ghost use Rattle.ct_threads.specs.Windows.{window_holds, Suits};
ghost use Rattle.ct_burst.specs.declared.going.Quietly.TheVariants.{Led, Turned, Went};
ghost use Rattle.ct_burst.specs.Carrying.{address_in, put_in, IsHeld, IsOn, IsPast};

use ct_areas::Thread;
use ct_cap::Live;
use ct_threads::{Window, branch_row, read_ref};

/// What became of an instruction.
///
/// `Loud`: it was left, and nothing changed. `Went`, `Led` and `Turned`: it was carried out. After `Went` the row is at
/// the next address, after `Led` at one that the window holds; after both it is tagged, at a multiple of 4, and the
/// window suits it as before. After `Turned` nothing more is known.
#[derive(Clone, Copy, PartialEq, Eq, Drop)]
pub(crate) enum Quietly {
    Loud,
    Went,
    Led,
    Turned,
}

/// The address in a register.
#[inline(always)]
pub(crate) fn address_in(row: &Thread, number: u32) -> u32
    requires { number < 16 }
    ensures { result ≡ address_in row.now number }
{
    read_ref(&row.regs, number).address()
}

/// A capability goes past the instruction at its address, which the window holds.
#[inline(always)]
fn go_past(l: &mut Live, window: Window)
    requires suits { Suits window l.old }
    requires tagged { l.old.tag ≡ true }
    requires held { window_holds window (cap_address l.old) ≡ true }
    ensures { l.new ≡ raised l.old 4 }
{
    let _window = window;
    l.cap.word += 4;
}

/// A row goes on after its instruction, and a register gets a value, which register 0 drops.
#[inline(always)]
pub(crate) fn put(row: &mut Thread, to: u32, value: &Live, window: Window) -> Quietly
    requires to { to < 16 }
    requires held { IsHeld row.old window }
    ensures went { result ≡ Went }
    ensures gone { row.new ≡ put_in row.old to value.now }
    ensures past { IsPast row.old row.new window }
{
    go_past(&mut row.pcc, window);
    if to != 0 {
        row.regs[to as usize] = *value;
    }
    Quietly::Went
}

/// A capability goes to an address, which the window holds.
#[inline(always)]
fn go_inside(l: &mut Live, target: u32, window: Window)
    requires suits { Suits window l.old }
    requires tagged { l.old.tag ≡ true }
    requires held { window_holds window target ≡ true }
    ensures { l.new ≡ with_address l.old target }
{
    let _window = window;
    l.cap.word = (l.cap.word >> 32 << 32) + target as u64;
}

/// A row goes on at an address, a multiple of 4: `Led` where the window holds it, else `Turned`.
#[inline(always)]
pub(crate) fn go_to(row: &mut Thread, target: u32, window: Window) -> Quietly
    requires on { IsOn row.old window }
    requires whole { target % 4 ≡ 0 }
    ensures came { result ≡ (if window_holds window target then Led else Turned) }
    ensures gone { row.new
        ≡ row_gone row.old (with_address row.old.pcc target) row.old.posture 0 (integer 0) }
    ensures held { window_holds window target ≡ true → IsHeld row.new window }
{
    if window.holds(target) {
        go_inside(&mut row.pcc, target, window);
        return Quietly::Led;
    }
    branch_row(row, target);
    Quietly::Turned
}
