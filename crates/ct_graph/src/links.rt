//! What the graph reads of each row, and whether one owner has a step to another.

ghost use Rattle.std.specs.Prelude.{ℕ, ◌≡◌, ◌+◌, ◌==◌, ◌/◌, ◌%◌, ◌^◌, ◌<◌, List, Bool, true, map, IfOk, length, nat_lt, slice_set, if◌then◌else◌};
ghost use Rattle.std.specs.List.{list_any, filter};
ghost use Rattle.def_words.specs.Permissions.{bit};
ghost use Rattle.ct_entry.specs.Kinds.{is_compartment, is_library, is_shared};
ghost use Rattle.def_reach.specs.Roots.{root_of};
ghost use Rattle.def_reach.specs.Reach.{same_owner};
ghost use Rattle.ct_graph.specs.Links.{AreHeld, ArePassing, link_of, links_of, own, calls, brings, shares, meets, steps, holds};
ghost use Rattle.std.specs.Prelude.{◌&&◌};

use ct_entry::{Entries, Entry, Gate, Kind, Owner};
use std::alloc::{AllocError, Global};

/// A row, with what it names looked up.
#[derive(Clone, Copy, Drop)]
pub(crate) struct Link {
    pub owner: Owner,
    pub kind: Kind,
    pub of: u32,
    pub target: Owner,
    pub passes: bool,
    pub carries: bool,
}

/// Whether two owners are the same.
pub fn same(a: Owner, b: Owner) -> bool
    ensures { result ≡ same_owner a b }
{
    match (a, b) {
        (Owner::Trusted, Owner::Trusted) => true,
        (Owner::Compartment(x), Owner::Compartment(y)) => x == y,
        (Owner::Library(x), Owner::Library(y)) => x == y,
        (Owner::Thread(x), Owner::Thread(y)) => x == y,
        _ => false,
    }
}

/// The links of all rows.
pub(crate) fn links(alloc: Global, entries: &Entries) -> Result<Vec<Link>, AllocError>
    ensures { IfOk result (λ v. v.items ≡ links_of entries.now) }
{
    let passes = passing(alloc, entries.gates.as_slice(), entries.rows.len() + 1)?;
    let mut all = Vec::new(alloc);
    for row in &entries.rows {
        all.push(look_up(entries, passes.as_slice(), *row))?;
    }
    Ok(all)
}

/// For each entry's number below a count, whether the gate of that export passes capabilities. The
/// first gate of a number is the one that counts, so the last is noted first.
fn passing(alloc: Global, gates: &[Gate], count: usize) -> Result<Vec<bool>, AllocError>
    ensures { IfOk result (λ v. ArePassing gates.now count v.items) }
{
    let mut all = vec![in alloc; false; count]?;
    let mut left = gates.len();
    while left > 0 {
        left -= 1;
        note(&mut all, gates[left]);
    }
    Ok(all)
}

/// Notes a gate at its number, if that is below the count.
fn note(all: &mut Vec<bool>, gate: Gate)
    ensures { all.new.items
        ≡ (if nat_lt gate.entry (length all.old.items)
        then slice_set all.old.items gate.entry gate.capabilities
        else all.old.items) }
{
    let number = gate.entry as usize;
    if number >= all.len() {
        return;
    }
    all[number] = gate.capabilities;
}

/// A row's link.
#[tactic(auto, unfolding(def_words::specs::Permissions::bit))]
fn look_up(entries: &Entries, passes: &[bool], row: Entry) -> Link
    requires { ArePassing entries.now.gates (length entries.now.rows + 1) passes.now }
    ensures { result ≡ link_of entries.now row }
{
    let (target, passes) = named(entries, passes, row.of);
    Link {
        owner: row.owner,
        kind: row.kind,
        of: row.of,
        target,
        passes,
        carries: row.rights / 64 % 2 == 1,
    }
}

/// The owner of the entry of this number, and whether a call of it passes capabilities.
#[tactic(auto, unfolding(def_reach::specs::Roots::root_of))]
fn named(entries: &Entries, passes: &[bool], number: u32) -> (Owner, bool)
    requires { ArePassing entries.now.gates (length entries.now.rows + 1) passes.now }
    ensures { ((root_of entries.now number).owner ≡ result.0)
        × ((root_of entries.now number).passes ≡ result.1) }
{
    if number == 0 {
        return (Owner::Trusted, false);
    }
    match entries.rows.get(number as usize - 1) {
        Some(row) => (row.owner, passes[number as usize]),
        None => (Owner::Trusted, false),
    }
}

/// The links of one owner.
pub(crate) fn own_links(
    alloc: Global,
    links: &[Link],
    owner: Owner,
) -> Result<Vec<Link>, AllocError>
    ensures { IfOk result (λ v. v.items ≡ own links.now owner) }
{
    let mut all = Vec::new(alloc);
    for link in links {
        if same(link.owner, owner) {
            all.push(*link)?;
        }
    }
    Ok(all)
}

/// For each object's number below a count, whether one of these links shares it so that capabilities
/// pass.
pub(crate) fn objects_held(
    alloc: Global,
    links: &[Link],
    count: usize,
) -> Result<Vec<bool>, AllocError>
    ensures size { IfOk result (λ v. length v.items ≡ count) }
    ensures held { IfOk result (λ v. AreHeld links.now v.items) }
{
    let mut all = vec![in alloc; false; count]?;
    for link in links {
        note_object(&mut all, *link);
    }
    Ok(all)
}

/// Notes the object that a link shares so that capabilities pass, if its number is below the count.
fn note_object(all: &mut Vec<bool>, link: Link)
    ensures { all.new.items
        ≡ (if (is_shared link.kind && link.carries) && nat_lt link.of (length all.old.items)
        then slice_set all.old.items link.of true
        else all.old.items) }
{
    let object = link.of as usize;
    if !shares_capabilities(link) || object >= all.len() {
        return;
    }
    all[object] = true;
}

/// Whether a path may step from one owner to another, by their links and the first one's objects.
pub(crate) fn goes(a: Owner, from: &[Link], held: &[bool], b: Owner, to: &[Link]) -> bool
    requires { AreHeld from.now held.now }
    ensures { result ≡ steps a from.now b to.now }
{
    match a {
        Owner::Library(_) => imports_one(to, a),
        Owner::Compartment(_) => is_part(b) && !same(a, b) && neighbours(a, from, held, b, to),
        _ => false,
    }
}

fn is_part(owner: Owner) -> bool
    ensures { result ≡ is_compartment owner }
{
    match owner {
        Owner::Compartment(_) => true,
        _ => false,
    }
}

/// Whether one calls the other so that capabilities pass, or both share an object so.
fn neighbours(a: Owner, from: &[Link], held: &[bool], b: Owner, to: &[Link]) -> bool
    requires { AreHeld from.now held.now }
    ensures { result ≡ meets a from.now b to.now }
{
    calls_one(from, b) || calls_one(to, a) || share_one(from, held, to)
}

fn imports_one(links: &[Link], library: Owner) -> bool
    ensures { result ≡ list_any (brings library) links.now }
{
    links.iter().any(|l| imports_from(*l, library))
}

fn imports_from(link: Link, library: Owner) -> bool
    ensures { result ≡ brings library link }
{
    match link.kind {
        Kind::Library => same(link.target, library),
        _ => false,
    }
}

fn calls_one(links: &[Link], target: Owner) -> bool
    ensures { result ≡ list_any (calls target) links.now }
{
    links.iter().any(|l| calls_to(*l, target))
}

fn calls_to(link: Link, target: Owner) -> bool
    ensures { result ≡ calls target link }
{
    match link.kind {
        Kind::Call => same(link.target, target) && link.passes,
        _ => false,
    }
}

/// Whether two share an object so: each that the second one shares is looked up among the first one's.
fn share_one(from: &[Link], held: &[bool], to: &[Link]) -> bool
    requires { AreHeld from.now held.now }
    ensures { result ≡ list_any (shares to.now) from.now }
{
    shares_any(to, from, held)
}

fn shares_any(links: &[Link], others: &[Link], held: &[bool]) -> bool
    requires { AreHeld others.now held.now }
    ensures { result ≡ list_any (shares others.now) links.now }
{
    links.iter().any(|l| shares_with(*l, others, held))
}

fn shares_with(link: Link, links: &[Link], held: &[bool]) -> bool
    requires { AreHeld links.now held.now }
    ensures { result ≡ shares links.now link }
{
    shares_capabilities(link) && holds_object(links, held, link.of)
}

fn shares_capabilities(link: Link) -> bool
    ensures { result ≡ (is_shared link.kind && link.carries) }
{
    match link.kind {
        Kind::Shared => link.carries,
        _ => false,
    }
}

/// Whether links share this object so, by what is noted of them, or link by link past its end.
fn holds_object(links: &[Link], held: &[bool], object: u32) -> bool
    requires { AreHeld links.now held.now }
    ensures { result ≡ list_any (holds object) links.now }
{
    if (object as usize) < held.len() {
        held[object as usize]
    } else {
        links
            .iter()
            .any(|m| shares_capabilities(*m) && m.of == object)
    }
}
