//! What `why` writes: how an owner reaches a compartment, by the names of both (docs/use/report.md;
//! definitions in def_program's Paths; what names stand for, in def_policy's Names). ct_policy looks
//! names up, and puts those of a path into the line.

ghost use Rattle.std.specs.Prelude.{◌≡◌, IfOk, option_map, string_bytes};
ghost use Rattle.def_boot.specs.Gates.{entries_of};
ghost use Rattle.def_program.specs.Paths.{compartment_named, owner_named};
ghost use Rattle.ct_commands.specs.Found.{IsFound};

use ct_entry::Comp;
use ct_graph::Graph;
use ct_image::Image;
use ct_policy::{compartment_named, owner_named};
use def_refusals::NoMemory;
use std::alloc::Global;

/// The line of the path from an owner to a compartment, both given by name, its line feed included.
/// The path has the fewest members, and among these the least numbers from the left, where every
/// library counts after every compartment; the line is `none` where the owner doesn't reach the
/// compartment.
///
/// None exactly where one of both names stands for nothing. An owner's name stands for the first
/// compartment that has it, or else for the first library. `NoMemory`: want of memory.
///
/// Condition: `graph` is the graph of the image's entries.
pub fn line(
    alloc: Global,
    image: &Image,
    graph: &Graph,
    owner: &str,
    compartment: &str,
) -> Result<Option<String>, NoMemory>
    requires { graph.now ≡ entries_of image.now }
    ensures { IfOk result
        (λ found.
        IsFound image.now (owner_named image.now owner.now)
        (compartment_named image.now compartment.now) (option_map string_bytes found)) }
{
    let parts = image.parts();
    let from = match owner_named(parts, owner.as_bytes()) {
        Some(from) => from,
        None => return Ok(None),
    };
    let to = match compartment_named(parts, compartment.as_bytes()) {
        Some(to) => to,
        None => return Ok(None),
    };
    let text = crate::path_line::between(alloc, parts, graph, from, Comp(to))?;
    Ok(Some(text))
}
