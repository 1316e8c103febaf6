//! The edges of the sharing graph as JSON values.

ghost use Rattle.std.specs.Prelude.{ℕ, ◌≡◌, ◌+◌, ◌<◌, ◌≤◌, ◌^◌, ◌++◌, map, IfOk, OnOk};
ghost use Rattle.serde_json.specs.View.{view};
ghost use Rattle.def_report.specs.Edges.{are_joined, edge_of, edges, edges_from};
ghost use Rattle.def_report.specs.Report.{edge_data};

use ct_entry::Comp;
use ct_graph::Graph;
use serde_json::{Value, json};
use std::alloc::{AllocError, Global};

/// Whether an edge joins two compartments, as the report's test has it.
fn joined(graph: &Graph, a: u32, b: u32) -> bool
    ensures { result ≡ are_joined graph.now a b }
{
    graph.joins(Comp(a), Comp(b))
}

fn edge_value(alloc: Global, a: u32, b: u32) -> Result<Value, AllocError>
    ensures { IfOk result (λ v. view v ≡ edge_data (a, b)) }
{
    json!(in alloc; [a, b])
}

/// The edge of two compartments, where there is one.
fn add_edge(
    alloc: Global,
    values: &mut Vec<Value>,
    graph: &Graph,
    a: u32,
    b: u32,
) -> Result<(), AllocError>
    ensures { OnOk result
        (map view values.new.items
        ≡ map view values.old.items ++ map edge_data (edge_of graph.now a b)) }
{
    if joined(graph, a, b) {
        values.push(edge_value(alloc, a, b)?)?;
    }
    Ok(())
}

/// The edges from a compartment to those of greater index, of the first `count`.
fn add_edges(
    alloc: Global,
    values: &mut Vec<Value>,
    graph: &Graph,
    a: u32,
    count: u32,
) -> Result<(), AllocError>
    requires { a < count }
    ensures { OnOk result
        (map view values.new.items
        ≡ map view values.old.items ++ map edge_data (edges_from graph.now count a)) }
{
    for b in a + 1..count {
        add_edge(alloc, values, graph, a, b)?;
    }
    Ok(())
}

/// The edges among the first `count` compartments, each once, in ascending order.
#[tactic(auto, unfolding(def_report::specs::Edges::edges))]
pub(crate) fn edge_values(
    alloc: Global,
    graph: &Graph,
    count: u32,
) -> Result<Vec<Value>, AllocError>
    ensures { IfOk result (λ v. map view v.items ≡ map edge_data (edges graph.now count)) }
{
    let mut values = Vec::new(alloc);
    for a in 0..count {
        add_edges(alloc, &mut values, graph, a, count)?;
    }
    Ok(values)
}
