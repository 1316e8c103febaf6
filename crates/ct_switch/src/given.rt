//! What a callee is given.

ghost use Rattle.std.specs.Prelude.{◌≡◌, ◌+◌, ◌*◌, ◌/◌, ◌%◌, ◌≤◌, ◌<◌, ℕ, true, List, length, slice_index_or, cond, nat_lt};
ghost use Rattle.ct_entry.specs.Listed.{Listed};
ghost use Rattle.def_memory.specs.declared.Granule.{Granule};
ghost use Rattle.def_memory.specs.Granules.{plain};
ghost use Rattle.def_boot.specs.Made.{return_sentry};
ghost use Rattle.def_machine.specs.Image.{Image};
ghost use Rattle.def_machine.specs.Frames.{callee_start};
ghost use Rattle.ct_areas.specs.declared.thread.Thread as row;
ghost use Rattle.ct_areas.specs.Threads.{thread_of};
ghost use Rattle.ct_switch.specs.Exports.{callee_of};
ghost use Rattle.ct_switch.specs.Calls.{callee_registers, given_in, handed, head_at, posture_in, stack_cap, HoldsHeads};

use crate::Export;
use crate::stacks::put_stack;
use ct_cap::{Bounds, Cap, Live, Perms, Posture, Shadow, expand, untag};
use ct_mem::Memory;
use def_profile::native::{NATIVE_LENGTH, RETURN_ENTRY};
use def_profile::rights::SERVICE_RIGHTS;
use def_profile::seals::RETURN_ENABLE;

/// The head of an export table: the capabilities of its compartment's code and of its globals.
#[derive(Clone, Copy, Drop)]
pub(crate) struct Head {
    pub(crate) code: Cap,
    pub(crate) globals: Cap,
}

/// The word of the return sentry.
const SENTRY_WORD: u64 = 0x5140_2018_0001_0010;

/// The return sentry: the return's native entry, of type 5, with the trusted part's number.
#[inline(always)]
pub fn return_sentry() -> Live
    ensures { result ≡ return_sentry }
{
    Live {
        cap: Cap {
            tag: true,
            word: SENTRY_WORD,
            shadow: Shadow { root: 0, source: 0 },
        },
        bounds: Bounds {
            exponent: 0,
            base: RETURN_ENTRY as u64,
            top: (RETURN_ENTRY + NATIVE_LENGTH) as u64,
        },
        perms: Perms(SERVICE_RIGHTS as u16),
        seal: RETURN_ENABLE,
    }
}

/// The head of an export table, at an offset.
pub(crate) fn head_in<M: Memory>(mem: &M, at: u32) -> Head
    requires even { at % 8 ≡ 0 }
    requires inside { at + 16 ≤ 8 * length (M.granules mem.now) }
    ensures { result ≡ head_at (M.granules mem.now) (at / 8) }
{
    let _size = mem.size();
    Head {
        code: mem.load_cap(at),
        globals: mem.load_cap(at + 8),
    }
}

/// A register as it is passed: untagged where only plain values are.
#[inline(always)]
pub(crate) fn pass(passes: bool, register: &mut Live)
    ensures { register.new ≡ handed passes register.old }
{
    if !passes {
        untag(register);
    }
}

/// Argument register 10 + n of the callee: the caller's where it is declared, else zero.
#[inline(always)]
fn argument(x: &Export, register: &mut Live, n: u32)
    ensures { register.new
        ≡ cond (nat_lt n x.now.args) (handed x.now.passes register.old) (plain 0) }
{
    if n < x.args {
        pass(x.passes, register);
    } else {
        *register = Live::integer(0);
    }
}

/// The registers of the caller become those of the callee: with them the return sentry, its stack from the base to the
/// new top, and its globals.
pub(crate) fn dress_registers(x: &Export, regs: &mut [Live; 16], base: u32, high: u32, globals: Cap)
    requires { base ≤ high }
    ensures { regs.new ≡ callee_registers x.now regs.old return_sentry
        (stack_cap base high (slice_index_or regs.old 2 (plain 0)).shadow) globals }
{
    put_stack(&mut regs[2], base, high);
    argument(x, &mut regs[10], 0);
    argument(x, &mut regs[11], 1);
    argument(x, &mut regs[12], 2);
    argument(x, &mut regs[13], 3);
    argument(x, &mut regs[14], 4);
    argument(x, &mut regs[15], 5);
    let none = Live::integer(0);
    regs[0] = none;
    regs[1] = return_sentry();
    regs[3] = expand(globals);
    regs[4] = none;
    regs[5] = none;
    regs[6] = none;
    regs[7] = none;
    regs[8] = none;
    regs[9] = none;
}

/// The posture of the callee.
pub(crate) fn posture(x: &Export) -> Posture
    ensures { result ≡ posture_in x.now }
{
    if x.disabled {
        return Posture {
            off: true,
            source: x.number,
        };
    }
    Posture {
        off: false,
        source: 0,
    }
}

/// Where the heads of export tables are as boot made them, a callee is given what *Threads and frames* gives it.
pub fn heads_give()
    ensures { (i : Image) (gs : List Granule) (e : Listed) (t : row.Thread) (n export high : ℕ)
        → HoldsHeads i gs e t n export
        → given_in gs e t export high
        ≡ callee_start i (thread_of gs true t) n (callee_of e export) export high }
{}
