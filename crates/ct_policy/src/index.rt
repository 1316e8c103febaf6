//! The entries by what rules ask for.

ghost use Rattle.std.specs.Prelude.{◌≡◌, ◌<◌, ◌^◌, IfOk, if◌then◌else◌, length};
ghost use Rattle.def_reach.specs.Roots.{turns_interrupts_off};
ghost use Rattle.ct_policy.specs.Gates.{AreGates};
ghost use Rattle.ct_policy.specs.Keys as spec;
ghost use Rattle.ct_policy.specs.Keys.{IsIndex};

use crate::breaking::{gates_of, is_disabled};
use crate::links::{Links, links_of};
use ct_entry::{Entries, Entry, Gate, Kind, Owner};
use def_policy::{Resource, Subject};
use std::alloc::{AllocError, Global};
use std::marker::Model;

/// How many sorts of keys there are, and one more.
const SORTS: usize = 8;

/// The gates of all entries; the entries linked by their keys, and by the sorts of their keys; and the
/// sum of all limits.
#[derive(Drop)]
pub(crate) struct Index {
    pub gates: Vec<Gate>,
    pub subjects: Links,
    pub sorts: Links,
    pub total: u64,
}

impl Model for Index {
    ghost use Rattle.ct_policy.specs.Keys.{IndexRow};

    ghost Value = { IndexRow };

    ghost view = { λ x. record {
      gates = x.gates.items;
      subjects = x.subjects;
      sorts = x.sorts;
      total = x.total;
    } };
}

/// A key of this sort.
fn key(sort: u32, number: u32) -> u64
    ensures { result ≡ spec.key sort number }
{
    number as u64 * SORTS as u64 + sort as u64
}

fn owner_number(owner: Owner) -> u32
    ensures { result ≡ spec.owner_number owner }
{
    match owner {
        Owner::Trusted => 0,
        Owner::Compartment(index) => index,
        Owner::Library(index) => index,
        Owner::Thread(index) => index,
    }
}

fn sort_of(resource: Resource) -> u32
    ensures { result ≡ spec.sort_of resource }
{
    match resource {
        Resource::Device => 0,
        Resource::Shared => 1,
        Resource::Service => 2,
        Resource::Call => 3,
    }
}

/// 1 of an export that runs with interrupts disabled.
fn posture_number(gate: Gate) -> u32
    ensures { result ≡ (if turns_interrupts_off gate.posture then 1 else 0) }
{
    if is_disabled(gate.posture) { 1 } else { 0 }
}

/// The key of an entry.
fn key_of(entry: Entry, gate: Gate) -> u64
    ensures { result ≡ spec.key_of entry gate }
{
    match entry.kind {
        Kind::Device => key(0, entry.of),
        Kind::Shared => key(1, entry.of),
        Kind::Service => key(2, entry.of),
        Kind::Call => key(3, entry.of),
        Kind::Quota => key(4, owner_number(entry.owner)),
        Kind::Export => key(5, posture_number(gate)),
        _ => key(6, 0),
    }
}

/// The key of the entries that come into question for a rule. No sum of all quotas and no export is
/// asked for by it.
pub(crate) fn asked(subject: Subject) -> u64
    ensures { result ≡ spec.asked subject }
{
    match subject {
        Subject::Only(resource, number) => key(sort_of(resource), number),
        Subject::Disabled => key(5, 1),
        Subject::Quota(owner, _) => key(4, owner_number(owner)),
        _ => key(6, 0),
    }
}

/// The keys of all entries.
#[tactic(auto, using(crate::proofs::Indexed::next_key, crate::proofs::Indexed::all_keys))]
fn keys_of(alloc: Global, entries: &Entries, gates: &[Gate]) -> Result<Vec<u64>, AllocError>
    requires { AreGates entries.now.gates (length entries.now.rows) gates.now }
    ensures { IfOk result
        (λ v. v.items ≡ spec.keys_from entries.now.gates 1 entries.now.rows) }
{
    let mut keys = Vec::new(alloc);
    for index in 0..entries.rows.len() {
        keys.push(key_of(entries.rows[index], gates[index]))?;
    }
    Ok(keys)
}

/// The sum of all limits.
#[tactic(auto, using(crate::proofs::Indexed::next_limit, crate::proofs::Indexed::last_limit))]
fn total_of(rows: &[Entry]) -> u64
    requires { length rows.now < 2 ^ 32 }
    ensures { result ≡ spec.all_limits rows.now }
{
    let mut total: u64 = 0;
    for index in 0..rows.len() {
        total += rows[index].limit as u64;
    }
    total
}

/// What rules ask for, of all entries.
#[tactic(auto, using(crate::proofs::Indexed::few_keys, crate::proofs::Indexed::indexed))]
pub(crate) fn index_of(alloc: Global, entries: &Entries) -> Result<Index, AllocError>
    requires { length entries.now.rows < 2 ^ 32 }
    ensures { IfOk result (λ x. IsIndex entries.now x) }
{
    let gates = gates_of(alloc, entries)?;
    let keys = keys_of(alloc, entries, gates.as_slice())?;
    let subjects = links_of(alloc, keys.as_slice(), (keys.len() + 1) * SORTS)?;
    let sorts = links_of(alloc, keys.as_slice(), SORTS)?;
    let total = total_of(entries.rows.as_slice());
    Ok(Index {
        gates,
        subjects,
        sorts,
        total,
    })
}
