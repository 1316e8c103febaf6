//! Graphs of small firmware: three compartments of which two share an object, a chain, a ring with
//! two ways of one length, libraries that import libraries, owners without entries, and every graph
//! of four compartments against a body that tries list after list.

ghost use Rattle.std.specs.Prelude.{◌≡◌, IfOk};

use crate::seen::{fewer, is, put};
use ct_entry::Owner::{Compartment, Library, Thread, Trusted};
use ct_entry::{Comp, Entries, Entry, Gate, Kind, Mode, Owner};
use ct_graph::Graph;
use def_refusals::NoMemory;
use std::alloc::{AllocError, Global};
use std::process::Abort;

/// Rights of a shared object with the letters RWC: GL LG SD LM LD MC.
const WITH_C: u32 = 111;
/// Rights of a shared object with the letters RW: GL SD LD.
const WITHOUT_C: u32 = 37;

/// A row of a firmware: whose it is, what it gives, what it names, and its rights.
type Row = (Owner, Kind, u32, u32);

/// From whom, to which compartment, and the path as numbers, a library's after 100; empty where there
/// is none.
type Asked = (Owner, u32, &'static [u32]);

fn slot(row: &Row) -> Entry {
    let (owner, kind, of, rights) = *row;
    Entry {
        owner,
        kind,
        base: 0,
        length: 16,
        rights,
        of,
        limit: 0,
    }
}

/// The gate of an export of this number.
fn gate(entry: u32, capabilities: bool) -> Gate {
    Gate {
        entry,
        code: 0,
        stack: 0,
        args: 0,
        posture: Mode::Enabled,
        capabilities,
    }
}

/// Puts these rows, in which the listed exports pass capabilities and no other does.
fn put_rows(entries: &mut Entries, rows: &[Row], passing: &[u32]) -> Result<(), AllocError> {
    let mut entry = 0u32;
    for row in rows {
        entry = entry.wrapping_add(1);
        put(&mut entries.rows, slot(row))?;
        if matches!(row.1, Kind::Export) {
            put(&mut entries.gates, gate(entry, passing.contains(&entry)))?;
        }
    }
    Ok(())
}

/// Entries to which rows are to be put.
pub fn empty(alloc: Global) -> Entries {
    Entries {
        rows: Vec::new(alloc),
        gates: Vec::new(alloc),
    }
}

/// The graph of entries, of which there are few.
pub fn graph_of(rt: &(impl Abort + AllocGlobal), entries: &Entries) -> Result<Graph, NoMemory>
    ensures { IfOk result (λ g. g ≡ entries.now) }
{
    fewer(rt, entries.rows.len(), 1000);
    Graph::of(rt.alloc(), entries)
}

/// The graph of these rows.
fn graph_of_rows(
    rt: &(impl Abort + AllocGlobal),
    rows: &[Row],
    passing: &[u32],
) -> Result<Graph, NoMemory> {
    let mut entries = empty(rt.alloc());
    put_rows(&mut entries, rows, passing)?;
    let graph = graph_of(rt, &entries);
    drop(entries);
    graph
}

fn number_of(owner: Owner) -> u32 {
    match owner {
        Compartment(n) => n,
        Library(n) => n.wrapping_add(100),
        _ => 1000,
    }
}

fn are(owners: &[Owner], numbers: &[u32]) -> bool {
    let mut same = owners.len() == numbers.len();
    for (owner, number) in owners.iter().zip(numbers) {
        same = same && number_of(*owner) == *number;
    }
    same
}

/// Whether the graph has this path, a list of numbers, and no other.
fn has_path(
    alloc: Global,
    graph: &Graph,
    from: Owner,
    to: u32,
    path: &[u32],
) -> Result<bool, NoMemory> {
    if matches!(from, Trusted) {
        return Ok(path.is_empty());
    }
    match graph.path(alloc, from, Comp(to))? {
        Some(found) => {
            let same = are(found.owners.as_slice(), path);
            drop(found);
            Ok(same)
        }
        None => Ok(path.is_empty()),
    }
}

/// One who is asked for has this path, and is reached where there is one.
fn see_path(
    rt: &(impl Abort + AllocGlobal),
    row: usize,
    graph: &Graph,
    from: Owner,
    to: u32,
    path: &[u32],
) -> Result<(), NoMemory> {
    is(rt, row, has_path(rt.alloc(), graph, from, to, path)?);
    is(rt, row, graph.reaches(from, Comp(to)) != path.is_empty());
    Ok(())
}

fn see_paths(
    rt: &(impl Abort + AllocGlobal),
    graph: &Graph,
    asked: &[Asked],
) -> Result<(), NoMemory> {
    for (place, row) in asked.iter().enumerate() {
        let (from, to, path) = *row;
        see_path(rt, place, graph, from, to, path)?;
    }
    Ok(())
}

/// A firmware whose rows give a graph with these paths.
fn see_rows(
    rt: &(impl Abort + AllocGlobal),
    rows: &[Row],
    passing: &[u32],
    asked: &[Asked],
) -> Result<(), NoMemory> {
    let graph = graph_of_rows(rt, rows, passing)?;
    let seen = see_paths(rt, &graph, asked);
    drop(graph);
    seen
}

/// Three compartments of which the first two hold object 0, and the third calls the second's export,
/// row 5.
const ALIKE: [Row; 7] = [
    (Compartment(0), Kind::Code, 0, 0),
    (Compartment(0), Kind::Shared, 0, WITH_C),
    (Compartment(1), Kind::Code, 0, 0),
    (Compartment(1), Kind::Shared, 0, WITH_C),
    (Compartment(1), Kind::Export, 0, 0),
    (Compartment(2), Kind::Code, 0, 0),
    (Compartment(2), Kind::Call, 5, 0),
];

/// The second holds the object by less.
const UNLIKE: [Row; 7] = [
    (Compartment(0), Kind::Code, 0, 0),
    (Compartment(0), Kind::Shared, 0, WITH_C),
    (Compartment(1), Kind::Code, 0, 0),
    (Compartment(1), Kind::Shared, 0, WITHOUT_C),
    (Compartment(1), Kind::Export, 0, 0),
    (Compartment(2), Kind::Code, 0, 0),
    (Compartment(2), Kind::Call, 5, 0),
];

/// Where the export passes data.
const OF_DATA: [Asked; 3] = [
    (Compartment(2), 0, &[]),
    (Compartment(2), 1, &[]),
    (Compartment(2), 2, &[2]),
];

/// Where it passes capabilities.
const OF_CAPABILITIES: [Asked; 2] = [(Compartment(2), 1, &[2, 1]), (Compartment(1), 2, &[1, 2])];

/// The first has this path to the second.
fn see_three(
    rt: &(impl Abort + AllocGlobal),
    rows: &[Row],
    path: &'static [u32],
) -> Result<(), NoMemory> {
    see_rows(rt, rows, &[], &[(Compartment(0), 1, path)])?;
    see_rows(rt, rows, &[], &OF_DATA)?;
    see_rows(rt, rows, &[5], &OF_CAPABILITIES)
}

#[test]
fn two_that_share_and_one_that_passes_data(rt: HostRuntime) -> Result<(), NoMemory> {
    see_three(&rt, &ALIKE, &[0, 1])?;
    see_three(&rt, &UNLIKE, &[])
}

/// The export of compartment 0 is row 3, that of 1 row 7.
const FOUR: [Row; 12] = [
    (Compartment(0), Kind::Code, 0, 0),
    (Compartment(0), Kind::Shared, 0, WITH_C),
    (Compartment(0), Kind::Export, 0, 0),
    (Compartment(1), Kind::Code, 0, 0),
    (Compartment(1), Kind::Shared, 0, WITH_C),
    (Compartment(1), Kind::Shared, 1, WITHOUT_C),
    (Compartment(1), Kind::Export, 0, 0),
    (Compartment(2), Kind::Code, 0, 0),
    (Compartment(2), Kind::Shared, 1, WITH_C),
    (Compartment(2), Kind::Call, 7, 0),
    (Compartment(0), Kind::Call, 3, 0),
    (Compartment(3), Kind::Call, 3, 0),
];

/// Two compartments, and whether an edge joins them.
const EDGES: [(u32, u32, bool); 8] = [
    (0, 1, true),
    (0, 3, true),
    // the export of 1 passes data, and 1 shares object 1 without C
    (1, 2, false),
    // joined by a list of two edges alone
    (1, 3, false),
    (0, 2, false),
    // its own export, its own object
    (0, 0, false),
    (9, 0, false),
    (9, 9, false),
];

/// Each edge is asked for from both ends.
fn see_edges(rt: &impl Abort, graph: &Graph) {
    for (place, row) in EDGES.iter().enumerate() {
        let (a, b, joined) = *row;
        is(rt, place, graph.joins(Comp(a), Comp(b)) == joined);
        is(rt, place, graph.joins(Comp(b), Comp(a)) == joined);
    }
}

#[test]
fn edges_join_two_that_pass_capabilities(rt: HostRuntime) -> Result<(), NoMemory> {
    let graph = graph_of_rows(&rt, &FOUR, &[3])?;
    see_edges(&rt, &graph);
    drop(graph);
    Ok(())
}

/// The exports of the libraries are rows 15 and 17.
const CHAIN: [Row; 22] = [
    (Compartment(0), Kind::Code, 0, 0),
    (Compartment(1), Kind::Code, 0, 0),
    (Compartment(2), Kind::Code, 0, 0),
    (Compartment(3), Kind::Code, 0, 0),
    (Compartment(4), Kind::Code, 0, 0),
    (Compartment(0), Kind::Shared, 0, WITH_C),
    (Compartment(1), Kind::Shared, 0, WITH_C),
    (Compartment(1), Kind::Shared, 1, WITH_C),
    (Compartment(2), Kind::Shared, 1, WITH_C),
    (Compartment(2), Kind::Shared, 2, WITH_C),
    (Compartment(3), Kind::Shared, 2, WITH_C),
    (Compartment(3), Kind::Shared, 3, WITH_C),
    (Compartment(0), Kind::Shared, 3, WITH_C),
    (Library(0), Kind::Code, 0, 0),
    (Library(0), Kind::Export, 0, 0),
    (Library(1), Kind::Code, 0, 0),
    (Library(1), Kind::Export, 0, 0),
    (Library(1), Kind::Library, 15, 0),
    (Compartment(2), Kind::Library, 17, 0),
    (Compartment(4), Kind::Library, 17, 0),
    (Compartment(3), Kind::Library, 15, 0),
    (Thread(0), Kind::Stack, 0, 0),
];

const CHAIN_PATHS: [Asked; 14] = [
    (Compartment(0), 1, &[0, 1]),
    (Compartment(0), 2, &[0, 1, 2]),
    (Compartment(2), 0, &[2, 1, 0]),
    (Compartment(0), 4, &[]),
    (Library(1), 4, &[101, 4]),
    (Library(1), 0, &[101, 2, 1, 0]),
    (Library(0), 4, &[100, 101, 4]),
    // through compartment 3, which counts before every library
    (Library(0), 2, &[100, 3, 2]),
    (Library(0), 0, &[100, 3, 0]),
    (Thread(0), 0, &[]),
    (Compartment(9), 0, &[]),
    (Compartment(0), 9, &[]),
    (Compartment(9), 9, &[]),
    (Library(7), 0, &[]),
];

#[test]
fn chain_ring_and_libraries(rt: HostRuntime) -> Result<(), NoMemory> {
    let graph = graph_of_rows(&rt, &CHAIN, &[])?;
    is(&rt, 4, graph.reaches(Trusted, Comp(4)));
    is(&rt, 9, !graph.reaches(Trusted, Comp(9)));
    let seen = see_paths(&rt, &graph, &CHAIN_PATHS);
    drop(graph);
    seen
}

const NO_EDGE: [Row; 4] = [
    (Compartment(0), Kind::Code, 0, 0),
    (Compartment(1), Kind::Code, 0, 0),
    (Compartment(2), Kind::Code, 0, 0),
    (Compartment(3), Kind::Code, 0, 0),
];

/// The pairs of four compartments.
const PAIRS: [(u32, u32); 6] = [(0, 1), (0, 2), (0, 3), (1, 2), (1, 3), (2, 3)];

/// Whether a mask has the pair with this object.
fn has(mask: u32, object: u32) -> bool {
    (mask >> (object % 32)) % 2 == 1
}

/// Four compartments, where each pair of the mask holds an object of its own.
fn put_mask(entries: &mut Entries, mask: u32) -> Result<(), AllocError> {
    put_rows(entries, &NO_EDGE, &[])?;
    for (place, pair) in PAIRS.iter().enumerate() {
        let (a, b) = *pair;
        let object = place as u32 % 32;
        if has(mask, object) {
            let rows = [
                (Compartment(a), Kind::Shared, object, WITH_C),
                (Compartment(b), Kind::Shared, object, WITH_C),
            ];
            put_rows(entries, &rows, &[])?;
        }
    }
    Ok(())
}

fn joined(mask: u32, a: u32, b: u32) -> bool {
    let mut joined = false;
    for (place, ends) in PAIRS.iter().enumerate() {
        let object = place as u32 % 32;
        joined = joined || has(mask, object) && (*ends == (a, b) || *ends == (b, a));
    }
    joined
}

/// Whether the list that begins with one and goes on with these leads to the other.
fn leads(mask: u32, from: u32, list: &[u32], to: u32) -> bool {
    let mut here = from;
    let mut leads = true;
    for next in list {
        leads = leads && joined(mask, here, *next);
        here = *next;
    }
    leads && here == to
}

/// The list of this number, the leftmost digit of base 4 first.
fn listed(number: u32) -> [u32; 3] {
    [number / 16 % 4, number / 4 % 4, number % 4]
}

/// How many members lists have after the first, and between which numbers of such lists there is none.
const LISTS: [(usize, usize); 4] = [(0, 64), (1, 16), (2, 4), (3, 1)];

/// The first list that leads from one to the other, tried by length and then from the left: its number,
/// and how many members it has after the first.
fn tried(mask: u32, from: u32, to: u32) -> Option<(u32, usize)> {
    for (length, step) in LISTS {
        for number in (0..64).step_by(step) {
            if leads(mask, from, &listed(number)[..length.min(3)], to) {
                return Some((number, length));
            }
        }
    }
    None
}

/// The graph has the list that is found by trying.
fn see_pair(
    rt: &(impl Abort + AllocGlobal),
    mask: u32,
    graph: &Graph,
    from: u32,
    to: u32,
) -> Result<(), NoMemory> {
    let (number, members) = match tried(mask, from, to) {
        Some((number, after)) => (number, after.min(3) + 1),
        None => (0, 0),
    };
    let [first, second, third] = listed(number);
    let list = [from, first, second, third];
    see_path(
        rt,
        mask as usize,
        graph,
        Compartment(from),
        to,
        &list[..members],
    )
}

fn see_pairs(rt: &(impl Abort + AllocGlobal), mask: u32, graph: &Graph) -> Result<(), NoMemory> {
    for from in 0..4 {
        for to in 0..4 {
            see_pair(rt, mask, graph, from, to)?;
        }
    }
    Ok(())
}

fn graph_of_mask(rt: &(impl Abort + AllocGlobal), mask: u32) -> Result<Graph, NoMemory> {
    let mut entries = empty(rt.alloc());
    put_mask(&mut entries, mask)?;
    let graph = graph_of(rt, &entries);
    drop(entries);
    graph
}

#[test]
fn every_graph_of_four(rt: HostRuntime) -> Result<(), NoMemory> {
    for mask in 0..64u32 {
        let graph = graph_of_mask(&rt, mask)?;
        let seen = see_pairs(&rt, mask, &graph);
        drop(graph);
        seen?;
    }
    Ok(())
}
