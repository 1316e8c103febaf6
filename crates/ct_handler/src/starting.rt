//! What a handler begins with, and what it ends with.

ghost use Rattle.std.specs.Prelude.{◌≡◌, ◌==◌, None, Some, if◌then◌else◌};
ghost use Rattle.def_step.specs.Handlers.{handler_registers};
ghost use Rattle.def_words.specs.Authority.{cap_address};
ghost use Rattle.def_words.specs.Capability.{with_address};

use ct_cap::{Live, Trap, set_address};

/// The program counter capability and the registers that a handler begins with.
#[derive(Drop)]
pub struct Start {
    pub pcc: Live,
    pub regs: [Live; 16],
}

/// What the handler at an address begins with: the compartment's code there; in c1 the way back, in c2 the
/// stack at the record, in c3 the compartment's globals, in c10 to c12 the trap's cause, code and register.
/// All else is zero.
pub fn fresh(
    code: Live,
    globals: Live,
    back: Live,
    c2: Live,
    at: u32,
    entry: u32,
    trap: Trap,
) -> Start
    ensures pcc { result.pcc ≡ with_address code entry }
    ensures regs { result.regs ≡ handler_registers back (with_address c2 at) globals trap }
{
    let zero = Live::integer(0);
    Start {
        pcc: set_address(code, entry),
        regs: [
            zero,
            back,
            set_address(c2, at),
            globals,
            zero,
            zero,
            zero,
            zero,
            zero,
            zero,
            Live::integer(trap.cause),
            Live::integer(trap.code),
            Live::integer(trap.register),
            zero,
            zero,
            zero,
        ],
    }
}

/// What a frame ends with whose error handler was entered: the address of c11. `None` comes exactly where the
/// address of c10 isn't 1; then the frame unwinds.
pub fn answer(c10: Live, c11: Live) -> Option<u32>
    ensures { result ≡ (if cap_address c10 == 1 then Some (cap_address c11) else None) }
{
    if c10.address() != 1 {
        return None;
    }
    Some(c11.address())
}
