//! The owners of a graph, each once and in order, and who has a step to whom.

ghost use Rattle.std.specs.Prelude.{ℕ, ◌≡◌, ◌<◌, ◌≤◌, List, Bool, false, map, length, IfOk, OnOk, MatchOption};
ghost use Rattle.std.specs.List.{list_any};
ghost use Rattle.ct_entry.specs.declared.rows.Owner.{Owner};
ghost use Rattle.ct_entry.specs.Listed.{Listed};
ghost use Rattle.def_reach.specs.Reach.{same_owner};
ghost use Rattle.def_reach.specs.Route.{precedes};
ghost use Rattle.ct_graph.specs.Cells.{cell};
ghost use Rattle.ct_graph.specs.Links.{own, steps};
ghost use Rattle.ct_graph.specs.Nodes.{is_node, row_of, rows_of, with_node, nodes_of, IsPlaceFor, IsNode};

use crate::links::{Link, goes, objects_held, own_links, same};
use ct_entry::Owner;
use std::alloc::{AllocError, Global};

/// The compartments and libraries that own a link.
pub(crate) fn nodes(alloc: Global, links: &[Link]) -> Result<Vec<Owner>, AllocError>
    ensures { IfOk result (λ v. v.items ≡ nodes_of links.now) }
{
    let mut all = Vec::new(alloc);
    let mut left = links.len();
    while left > 0 {
        left -= 1;
        let owner = links[left].owner;
        if has_slots(owner) {
            add(&mut all, owner)?;
        }
    }
    Ok(all)
}

/// Whether an owner is a compartment or a library.
pub(crate) fn has_slots(owner: Owner) -> bool
    ensures { result ≡ is_node owner }
{
    match owner {
        Owner::Compartment(_) | Owner::Library(_) => true,
        _ => false,
    }
}

/// Whether an owner comes before another: compartments by number, then libraries by number.
fn comes_before(a: Owner, b: Owner) -> bool
    ensures { result ≡ precedes a b }
{
    match (a, b) {
        (Owner::Compartment(x), Owner::Compartment(y)) => x < y,
        (Owner::Compartment(_), Owner::Library(_)) => true,
        (Owner::Library(x), Owner::Library(y)) => x < y,
        _ => false,
    }
}

/// Adds an owner at its place, unless it is there.
fn add(nodes: &mut Vec<Owner>, owner: Owner) -> Result<(), AllocError>
    ensures { OnOk result (nodes.new.items ≡ with_node owner nodes.old.items) }
{
    let place = place_for(nodes.as_slice(), owner);
    if place < nodes.len() && same(nodes[place], owner) {
        return Ok(());
    }
    nodes.insert(place, owner)?;
    Ok(())
}

/// How many of the nodes come before an owner.
fn place_for(nodes: &[Owner], owner: Owner) -> usize
    ensures { IsPlaceFor owner nodes.now result }
{
    let mut place = 0;
    while place < nodes.len() && comes_before(nodes[place], owner) {
        place += 1;
    }
    place
}

/// Where an owner stands among the nodes.
pub(crate) fn place_of(nodes: &[Owner], owner: Owner) -> Option<usize>
    ensures { MatchOption result (list_any (λ (n : Owner). same_owner n owner) nodes.now ≡ false)
        (λ i. IsNode nodes.now owner i) }
{
    for place in 0..nodes.len() {
        if same(nodes[place], owner) {
            return Some(place);
        }
    }
    None
}

/// The links of each node.
pub(crate) fn all_links(
    alloc: Global,
    links: &[Link],
    nodes: &[Owner],
) -> Result<Vec<Vec<Link>>, AllocError>
    ensures { IfOk result (λ v. map (λ l. l.items) v.items ≡ map (own links.now) nodes.now) }
{
    let mut all = Vec::new(alloc);
    for node in nodes {
        all.push(own_links(alloc, links, *node)?)?;
    }
    Ok(all)
}

/// To which nodes one node, which has the links `from`, has a step. The objects that it shares are
/// noted once, below a count.
pub(crate) fn row(
    alloc: Global,
    owner: Owner,
    from: &[Link],
    nodes: &[Owner],
    links: &[Vec<Link>],
    count: usize,
) -> Result<Vec<bool>, AllocError>
    requires size { length links.now ≡ length nodes.now }
    ensures { IfOk result
        (λ v. v.items ≡ row_of owner from.now nodes.now (map (λ l. l.items) links.now)) }
{
    let held = objects_held(alloc, from, count)?;
    let mut all = Vec::new(alloc);
    for place in 0..nodes.len() {
        let to = links[place].as_slice();
        all.push(goes(owner, from, held.as_slice(), nodes[place], to))?;
    }
    Ok(all)
}

/// For each node, to which nodes it has a step. The objects that a node shares are noted below a
/// count.
pub(crate) fn rows(
    alloc: Global,
    nodes: &[Owner],
    links: &[Vec<Link>],
    count: usize,
) -> Result<Vec<Vec<bool>>, AllocError>
    requires size { length links.now ≡ length nodes.now }
    ensures { IfOk result
        (λ v. map (λ r. r.items) v.items
        ≡ rows_of nodes.now (map (λ l. l.items) links.now) nodes.now
        (map (λ l. l.items) links.now)) }
{
    let mut all = Vec::new(alloc);
    for place in 0..nodes.len() {
        let from = links[place].as_slice();
        all.push(row(alloc, nodes[place], from, nodes, links, count)?)?;
    }
    Ok(all)
}

/// What stands in a row of steps at a place; no step past the end.
pub(crate) fn cell_at(steps: &[Vec<bool>], from: usize, to: usize) -> bool
    ensures { result ≡ cell (map (λ r. r.items) steps.now) from to }
{
    match steps.get(from) {
        Some(row) => to < row.len() && row[to],
        None => false,
    }
}
