//! The audit report of an image: one line of JSON over its parts, its entries and the edges of its
//! sharing graph (docs/use/report.md; definitions in def_report).
#![tactic(auto)]

mod edges;
mod labels;
mod lines;
mod report;
mod rights;

ghost use Rattle.std.specs.Prelude.{◌≡◌, IfOk, string_bytes};
ghost use Rattle.def_boot.specs.Gates.{entries_of};
ghost use Rattle.def_report.specs.Report.{report_line};

use ct_entry::Entries;
use ct_graph::Graph;
use ct_image::Image;
use def_refusals::NoMemory;
use std::alloc::Global;

/// The report line of an image, its line feed included (docs/use/report.md). `NoMemory`: want of
/// memory.
///
/// Condition: `entries` holds the entries of the image, and `graph` is their graph.
pub fn text(
    alloc: Global,
    image: &Image,
    entries: &Entries,
    graph: &Graph,
) -> Result<String, NoMemory>
    requires entries { entries.now ≡ entries_of image.now }
    requires graph { graph.now ≡ entries.now }
    ensures { IfOk result (λ s. string_bytes s ≡ report_line image.now) }
{
    let line = report::line_of(alloc, image.parts(), entries, graph)?;
    Ok(line)
}
