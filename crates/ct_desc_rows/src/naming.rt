//! Names that are made of numbers.

ghost use Rattle.std.specs.Prelude.{◌≡◌, IfOk, string_bytes};
ghost use Rattle.def_desc.specs.Names as name;

use std::alloc::{AllocError, Global};

/// The name of a key's slot. An error is want of memory.
pub fn key_name(alloc: Global, n: u64) -> Result<String, AllocError>
    ensures { IfOk result (λ s. string_bytes s ≡ name.key_name n) }
{
    format!(in alloc; "key{n}")
}
