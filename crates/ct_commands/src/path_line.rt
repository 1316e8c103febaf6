//! The line of a path.

ghost use Rattle.std.specs.Prelude.{◌≡◌, ◌≢◌, IfOk, string_bytes};
ghost use Rattle.ct_entry.specs.declared.rows.Owner.TheVariants.{Trusted};
ghost use Rattle.def_boot.specs.Gates.{entries_of};
ghost use Rattle.def_program.specs.Paths.{IsWhyLine, none_line, path_line};

use ct_entry::{Comp, Owner};
use ct_graph::Graph;
use ct_image::Parts;
use ct_policy::add_names;
use def_refusals::NoMemory;
use std::alloc::{AllocError, Global};

/// The line that says how an owner reaches a compartment.
pub(crate) fn between(
    alloc: Global,
    parts: &Parts,
    graph: &Graph,
    from: Owner,
    to: Comp,
) -> Result<String, NoMemory>
    requires graph { graph.now ≡ entries_of parts.now }
    requires untrusted { from ≢ Trusted }
    ensures { IfOk result (λ s. IsWhyLine parts.now from to.0 (string_bytes s)) }
{
    match graph.path(alloc, from, to)? {
        Some(path) => path_text(alloc, parts, path.owners.as_slice()),
        None => Ok(none_text(alloc)?),
    }
}

/// The line of an owner that doesn't reach the compartment.
fn none_text(alloc: Global) -> Result<String, AllocError>
    ensures { IfOk result (λ s. string_bytes s ≡ none_line) }
{
    String::from_str(alloc, "none\n")
}

/// The line of a path: the names of its members.
fn path_text(alloc: Global, parts: &Parts, owners: &[Owner]) -> Result<String, NoMemory>
    ensures { IfOk result (λ s. string_bytes s ≡ path_line parts.now owners.now) }
{
    let mut text = String::from_str(alloc, "path")?;
    add_names(&mut text, parts, owners)?;
    Ok(text)
}
