//! The firmware that is generated from a number, for demonstration (docs/use/run.md): its description
//! and its sources, as def_gen has them.
#![tactic(auto)]

mod description;
mod numbers;
mod sources;

ghost use Rattle.std.specs.Prelude.{◌≡◌, IfOk, map, string_bytes};
ghost use Rattle.def_desc.specs.Reading.{description_of};
ghost use Rattle.def_desc.specs.WellFormed.{WellFormed};
ghost use Rattle.def_gen.specs.Description as spec;
ghost use Rattle.def_gen.specs.Sources as spec_sources;

use def_refusals::NoMemory;
use std::alloc::Global;

/// A firmware: the text of its description, and the text of each compartment's source, in their order.
#[derive(Drop)]
pub struct Generated {
    pub description: String,
    pub sources: Vec<String>,
}

/// The firmware of a number: 2 to 64 compartments, by the number's rest, and two threads. `NoMemory`:
/// want of memory.
///
/// The clauses:
///
/// - `description`: its description is the text that the number stands for;
/// - `well_formed`: this text is a well-formed description;
/// - `sources`: each source is the text that the number stands for.
pub fn generate(alloc: Global, number: u32) -> Result<Generated, NoMemory>
    ensures description { IfOk result
        (λ g. string_bytes g.description ≡ spec.description number) }
    ensures well_formed { IfOk result
        (λ g. WellFormed (string_bytes g.description) (description_of (spec.firmware number))) }
    ensures sources { IfOk result
        (λ g. map string_bytes g.sources.items ≡ spec_sources.sources number) }
{
    let description = description::text(alloc, number)?;
    let sources = sources::texts(alloc, number)?;
    Ok(Generated {
        description,
        sources,
    })
}
