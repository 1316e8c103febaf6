//! The capabilities that boot makes.

ghost use Rattle.std.specs.Prelude.{◌≡◌, ◌+◌, ◌^◌, ◌<◌, ℕ};
ghost use Rattle.ct_entry.specs.declared.rows.Owner.{Owner};
ghost use Rattle.def_boot.specs.Entries as spec;
ghost use Rattle.def_boot.specs.Made.{from_entry, entry_cap_as};
ghost use Rattle.def_words.specs.Derive.{derive, executable_root, memory_root, sealing_root};

use ct_cap::{Live, Shadow, derive};
use ct_image_parts::{Code, Compartment, Thread};
use def_profile::rights::{
    CODE_RIGHTS, EXECUTABLE_ROOT, GLOBALS_RIGHTS, MEMORY_ROOT, SEALING_ROOT, STACK_RIGHTS,
};

/// The shadow of what an entry gives.
fn from_entry(number: u32) -> Shadow
    ensures { result ≡ from_entry number }
{
    Shadow {
        root: number,
        source: 0,
    }
}

/// Memory that an entry gives, with these rights, at an address, of this type where it isn't 0.
#[tactic(auto, unfolding(def_words::specs::Derive::memory_root))]
pub(crate) fn memory_made(
    number: u32,
    base: u32,
    length: u32,
    rights: u32,
    address: u32,
    seal: u32,
) -> Live
    ensures { result ≡ derive memory_root base length rights address seal (from_entry number) }
{
    derive(
        MEMORY_ROOT,
        base,
        length,
        rights,
        address,
        seal,
        from_entry(number),
    )
}

/// Code that an entry gives, with these rights, at an address, of this type where it isn't 0.
#[tactic(auto, unfolding(def_words::specs::Derive::executable_root))]
pub(crate) fn code_made(
    number: u32,
    base: u32,
    length: u32,
    rights: u32,
    address: u32,
    seal: u32,
) -> Live
    ensures { result ≡ derive executable_root base length rights address seal (from_entry number) }
{
    derive(
        EXECUTABLE_ROOT,
        base,
        length,
        rights,
        address,
        seal,
        from_entry(number),
    )
}

/// The one type that a key opens, at that type.
#[tactic(auto, unfolding(def_words::specs::Derive::sealing_root))]
pub(crate) fn key_made(number: u32, seal: u32, rights: u32) -> Live
    ensures { result ≡ derive sealing_root seal 1 rights seal 0 (from_entry number) }
{
    derive(SEALING_ROOT, seal, 1, rights, seal, 0, from_entry(number))
}

/// The code of a compartment, at its base.
pub(crate) fn own_code(number: u32, code: &Code) -> Live
    ensures { (o : Owner)
        → result ≡ entry_cap_as executable_root number (spec.code_row o code.now) code.now.base 0 }
{
    code_made(number, code.base, code.length, CODE_RIGHTS, code.base, 0)
}

/// The globals of a compartment, at their base.
pub(crate) fn own_globals(number: u32, of: &Compartment) -> Live
    ensures { (b : ℕ)
        → result ≡ entry_cap_as memory_root number (spec.globals_row b of.now) of.now.globals 0 }
{
    memory_made(
        number,
        of.globals,
        of.globals_length,
        GLOBALS_RIGHTS,
        of.globals,
        0,
    )
}

/// The stack of a thread, at its top.
pub(crate) fn own_stack(number: u32, thread: &Thread) -> Live
    requires { thread.now.stack + thread.now.stack_length < 2 ^ 32 }
    ensures { (t : ℕ) → result
        ≡ entry_cap_as memory_root number (spec.stack_row t thread.now)
        (thread.now.stack + thread.now.stack_length) 0 }
{
    memory_made(
        number,
        thread.stack,
        thread.stack_length,
        STACK_RIGHTS,
        thread.stack + thread.stack_length,
        0,
    )
}
