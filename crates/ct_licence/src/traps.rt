//! Which causes, codes and registers a trap may tell.

ghost use Rattle.std.specs.Prelude.{ℕ, ◌≡◌, ◌<◌, ◌⊎◌, ◌↔◌, IsTrue};
ghost use Rattle.def_confined.specs.Licensed.{IsCodeOfPcc, IsCodeOfRegister, IsPlainCause, IsTrap};
ghost use Rattle.def_profile.specs.declared.traps.TheConstants as traps;

use def_profile::traps::{
    BOUNDS_CODE, BREAKPOINT, CAPABILITY_FAULT, ENVIRONMENT_CALL, EXECUTE_CODE, ILLEGAL_INSTRUCTION,
    LOAD_CODE, MISALIGNED_FETCH, MISALIGNED_LOAD, MISALIGNED_STORE, PCC_REGISTER, SEAL_CODE,
    STORE_CAPABILITY_CODE, STORE_CODE, SYSTEM_REGISTER_CODE, TAG_CODE,
};

/// Whether some check answers this cause with this code and register.
pub(crate) fn is_trap(cause: u32, code: u32, register: u32) -> bool
    ensures { IsTrue result ↔ IsTrap cause code register }
{
    if cause == CAPABILITY_FAULT {
        return is_capability_fault(code, register);
    }
    is_plain(cause) && code == 0 && register == 0
}

fn is_capability_fault(code: u32, register: u32) -> bool
    ensures { IsTrue result
        ↔ (((register ≡ traps.PCC_REGISTER) × IsCodeOfPcc code)
        ⊎ ((register < traps.PCC_REGISTER) × IsCodeOfRegister code)) }
{
    if register == PCC_REGISTER {
        is_code_of_pcc(code)
    } else {
        register < PCC_REGISTER && is_code_of_register(code)
    }
}

fn is_plain(cause: u32) -> bool
    ensures { IsTrue result ↔ IsPlainCause cause }
{
    cause == MISALIGNED_FETCH
        || cause == ILLEGAL_INSTRUCTION
        || cause == BREAKPOINT
        || cause == MISALIGNED_LOAD
        || cause == MISALIGNED_STORE
        || cause == ENVIRONMENT_CALL
}

fn is_code_of_pcc(code: u32) -> bool
    ensures { IsTrue result ↔ IsCodeOfPcc code }
{
    code == BOUNDS_CODE
        || code == TAG_CODE
        || code == SEAL_CODE
        || code == EXECUTE_CODE
        || code == SYSTEM_REGISTER_CODE
}

fn is_code_of_register(code: u32) -> bool
    ensures { IsTrue result ↔ IsCodeOfRegister code }
{
    code == BOUNDS_CODE
        || code == TAG_CODE
        || code == SEAL_CODE
        || code == EXECUTE_CODE
        || code == LOAD_CODE
        || code == STORE_CODE
        || code == STORE_CAPABILITY_CODE
}
