//! The graph of a firmware's entries: whom each owner reaches, and by which path.

ghost use Rattle.std.specs.Prelude.{ℕ, ◌≡◌, ◌<◌, ◌≤◌, ◌^◌, List, Bool, false, true, map, length, IfOk, MatchOption, IsTrue, ◌↔◌, slice_index_or, [], Some, ◌≢◌, ◌∷◌};
ghost use Rattle.std.specs.List.{list_any};
ghost use Rattle.ct_entry.specs.Listed.{Listed};
ghost use Rattle.ct_entry.specs.declared.rows.Owner.{Owner};
ghost use Rattle.ct_entry.specs.declared.rows.Owner.TheVariants.{Trusted, Compartment};
ghost use Rattle.def_reach.specs.Reach.{Reached, same_owner};
ghost use Rattle.def_reach.specs.Route.{IsPath, Neighbours};
ghost use Rattle.ct_graph.specs.Cells.{IsDistance, far};
ghost use Rattle.ct_graph.specs.Nodes.{AllDistances, HasRows, HasStep, IsGraph, IsNear, IsRoute, NoStep, NotNear, node};
ghost use Rattle.ct_graph.specs.declared.sharing.Ends.{Ends};
ghost use Rattle.std.specs.Bool.{MatchBool};

use crate::distances::distances;
use crate::links::{links, same};
use crate::nodes::{all_links, cell_at, has_slots, nodes, place_of, rows};
use crate::walk::walk;
use ct_entry::{Comp, Entries, Entry, Gate, Owner};
use def_refusals::NoMemory;
use std::alloc::{AllocError, Global};
use std::marker::Model;

/// The sharing graph of a firmware's entries, with everything that `reaches` looks up. Contracts
/// see it as the entries that it is of.
#[derive(Drop)]
pub struct Graph {
    rows: Vec<Entry>,
    gates: Vec<Gate>,
    nodes: Vec<Owner>,
    steps: Vec<Vec<bool>>,
    far: Vec<Vec<u32>>,
}

impl Model for Graph {
    ghost use Rattle.std.specs.Prelude.{map};
    ghost use Rattle.ct_entry.specs.Listed.{Listed};

    ghost Value = { Listed };

    ghost use Rattle.ct_graph.specs.Nodes.{IsGraph};

    ghost view = { λ g. record { rows = g.rows.items; gates = g.gates.items } };

    ghost invariant = { λ g. IsGraph (record { rows = g.rows.items; gates = g.gates.items })
        g.nodes.items (map (λ r. r.items) g.steps.items) (map (λ d. d.items) g.far.items) };
}

/// A list of owners from one to a compartment: each member but the last is a library that the next
/// one imports, or a compartment that an edge joins to the next.
#[derive(Drop)]
pub struct Path {
    pub owners: Vec<Owner>,
}

impl Model for Path {
    ghost use Rattle.std.specs.Prelude.{List};
    ghost use Rattle.ct_entry.specs.declared.rows.Owner.{Owner};

    ghost Value = { List Owner };

    ghost view = { λ p. p.owners.items };
}

impl Graph {
    /// The graph of these entries, of which there are fewer than 2^32. `NoMemory`: want of memory.
    pub fn of(alloc: Global, e: &Entries) -> Result<Graph, NoMemory>
        requires { length e.now.rows < 2 ^ 32 }
        ensures { IfOk result (λ g. g ≡ e.now) }
    {
        let all = links(alloc, e)?;
        let nodes = nodes(alloc, all.as_slice())?;
        let own = all_links(alloc, all.as_slice(), nodes.as_slice())?;
        let steps = rows(alloc, nodes.as_slice(), own.as_slice(), all.len() + 1)?;
        let far = all_distances(alloc, steps.as_slice())?;
        let rows = Vec::from_slice(alloc, e.rows.as_slice())?;
        let gates = Vec::from_slice(alloc, e.gates.as_slice())?;
        Ok(Graph {
            rows,
            gates,
            nodes,
            steps,
            far,
        })
    }

    /// Whether an owner reaches a compartment. It looks up what `of` found.
    ///
    /// The trusted part reaches every compartment that has an entry, a thread none.
    pub fn reaches(&self, o: Owner, c: Comp) -> bool
        ensures { IsTrue result ↔ Reached self.now o c.0 }
    {
        if has_slots(o) {
            return near(
                self.nodes.as_slice(),
                self.far.as_slice(),
                o,
                Owner::Compartment(c.0),
            );
        }
        match o {
            Owner::Trusted => stands(self.nodes.as_slice(), Owner::Compartment(c.0)),
            _ => false,
        }
    }

    /// Whether an edge of the sharing graph joins two compartments (docs/use/report.md): they are
    /// different, and one passes capabilities to the other or both share an object with letter C.
    ///
    /// No edge leads to a compartment without an entry.
    pub fn joins(&self, a: Comp, b: Comp) -> bool
        ensures { IsTrue result ↔ Neighbours self.now (Compartment a.0) (Compartment b.0) }
    {
        let from = Owner::Compartment(a.0);
        let to = Owner::Compartment(b.0);
        has_step(self.nodes.as_slice(), self.steps.as_slice(), from, to)
    }

    /// The path from an owner to a compartment that has the fewest members, and among these the
    /// least numbers from the left, where every library counts after every compartment. `None`
    /// exactly where the owner doesn't reach the compartment. The owner isn't the trusted part.
    /// `NoMemory`: want of memory.
    pub fn path(&self, alloc: Global, o: Owner, c: Comp) -> Result<Option<Path>, NoMemory>
        requires { o ≢ Trusted }
        ensures { IfOk result
            (λ found.
            MatchOption found (Reached self.now o c.0 → ⊥)
            (λ p. Reached self.now o c.0 × IsPath self.now o c.0 p)) }
    {
        if !has_slots(o) {
            return Ok(None);
        }
        let target = Owner::Compartment(c.0);
        match route(
            alloc,
            self.nodes.as_slice(),
            self.steps.as_slice(),
            self.far.as_slice(),
            o,
            target,
        )? {
            Some(owners) => Ok(Some(Path { owners })),
            None => Ok(None),
        }
    }
}

/// The owners on the way from one to another, where the first has a distance to the second.
fn route(
    alloc: Global,
    nodes: &[Owner],
    steps: &[Vec<bool>],
    far: &[Vec<u32>],
    o: Owner,
    target: Owner,
) -> Result<Option<Vec<Owner>>, AllocError>
    requires few { length nodes.now < 2 ^ 32 }
    requires square { length steps.now ≡ length nodes.now }
    requires distances { AllDistances (map (λ r. r.items) steps.now) (map (λ d. d.items) far.now) }
    ensures { IfOk result (λ found. MatchOption found
        (NotNear nodes.now (map (λ d. d.items) far.now) o target)
        (λ v.
        IsRoute nodes.now (map (λ r. r.items) steps.now) (map (λ d. d.items) far.now) o target
        v.items)) }
{
    match find(nodes, far, o, target) {
        None => Ok(None),
        Some(ends) => {
            let places = walk(alloc, steps, far[ends.to].as_slice(), ends.from, ends.to)?;
            let owners = named(alloc, nodes, o, places.as_slice())?;
            Ok(Some(owners))
        }
    }
}

/// The places of an owner and of one that it reaches.
#[derive(Clone, Copy, Drop)]
struct Ends {
    from: usize,
    to: usize,
}

/// Whether an owner stands among the nodes.
fn stands(nodes: &[Owner], owner: Owner) -> bool
    ensures { result ≡ list_any (λ (n : Owner). same_owner n owner) nodes.now }
{
    nodes.iter().any(|n| same(*n, owner))
}

/// The places of two owners, where the first has a distance to the second.
fn find(nodes: &[Owner], far: &[Vec<u32>], o: Owner, target: Owner) -> Option<Ends>
    requires size { HasRows (length nodes.now) (map (λ d. d.items) far.now) }
    ensures { MatchOption result
        (NotNear nodes.now (map (λ d. d.items) far.now) o target)
        (λ p. IsNear nodes.now (map (λ d. d.items) far.now) o target p.from p.to) }
{
    let from = match place_of(nodes, o) {
        Some(from) => from,
        None => return None,
    };
    let to = match place_of(nodes, target) {
        Some(to) => to,
        None => return None,
    };
    if (far[to][from] as usize) < nodes.len() {
        Some(Ends { from, to })
    } else {
        None
    }
}

/// Whether the first of two owners has a distance to the second.
fn near(nodes: &[Owner], far: &[Vec<u32>], o: Owner, target: Owner) -> bool
    requires size { HasRows (length nodes.now) (map (λ d. d.items) far.now) }
    ensures { MatchBool result
        ((p : Ends) × IsNear nodes.now (map (λ d. d.items) far.now) o target p.from p.to)
        (NotNear nodes.now (map (λ d. d.items) far.now) o target) }
{
    match find(nodes, far, o, target) {
        Some(_) => true,
        None => false,
    }
}

/// Whether the first of two owners has a step to the second.
fn has_step(nodes: &[Owner], steps: &[Vec<bool>], a: Owner, b: Owner) -> bool
    ensures { MatchBool result
        (HasStep nodes.now (map (λ r. r.items) steps.now) a b)
        (NoStep nodes.now (map (λ r. r.items) steps.now) a b) }
{
    match place_of(nodes, a) {
        Some(from) => match place_of(nodes, b) {
            Some(to) => cell_at(steps, from, to),
            None => false,
        },
        None => false,
    }
}

/// An owner, and the owners at these places after it.
fn named(
    alloc: Global,
    nodes: &[Owner],
    o: Owner,
    places: &[usize],
) -> Result<Vec<Owner>, AllocError>
    ensures { IfOk result (λ v. v.items ≡ o ∷ map (node nodes.now) places.now) }
{
    let mut owners = Vec::new(alloc);
    owners.push(o)?;
    for place in places {
        let owner = match nodes.get(*place) {
            Some(owner) => *owner,
            None => Owner::Trusted,
        };
        owners.push(owner)?;
    }
    Ok(owners)
}

/// For each place, the distances of all places to it.
fn all_distances(alloc: Global, rows: &[Vec<bool>]) -> Result<Vec<Vec<u32>>, AllocError>
    requires few { length rows.now < 2 ^ 32 }
    ensures { IfOk result
        (λ v. AllDistances (map (λ r. r.items) rows.now) (map (λ d. d.items) v.items)) }
{
    let mut all = Vec::new(alloc);
    for end in 0..rows.len() {
        all.push(distances(alloc, rows, end)?)?;
    }
    Ok(all)
}
