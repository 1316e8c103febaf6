//! Which entries break a rule.

ghost use Rattle.std.specs.Prelude.{◌≡◌, ◌<◌, ◌^◌, IfOk, length};
ghost use Rattle.def_reach.specs.Roots as roots;
ghost use Rattle.def_policy.specs.Breaking as spec;
ghost use Rattle.ct_policy.specs.Gates.{AreGates};

use crate::kinds::{imports, is_export, is_listed, is_quota};
use crate::rulings::Ruling;
use ct_entry::{Entries, Entry, Gate, Mode, NO_GATE};
use ct_graph::same;
use def_policy::Subject;
use std::alloc::{AllocError, Global};

/// Whether an export runs with interrupts disabled.
pub(crate) fn is_disabled(posture: Mode) -> bool
    ensures { result ≡ roots.turns_interrupts_off posture }
{
    match posture {
        Mode::Disabled => true,
        _ => false,
    }
}

/// The bytes that a rule on quotas counts of an entry.
pub(crate) fn counted(subject: Subject, entry: Entry) -> u64
    ensures is { result ≡ spec.counted subject entry }
    ensures small { result < 2 ^ 32 }
{
    match subject {
        Subject::Total(_) => {
            if is_quota(entry.kind) {
                entry.limit as u64
            } else {
                0
            }
        }
        Subject::Quota(owner, _) => {
            if is_quota(entry.kind) && same(entry.owner, owner) {
                entry.limit as u64
            } else {
                0
            }
        }
        _ => 0,
    }
}

/// Whether an entry is one that a rule forbids to owners that it doesn't list.
fn is_held(subject: Subject, entry: Entry, gate: Gate) -> bool
    ensures { result ≡ spec.is_held subject entry gate }
{
    match subject {
        Subject::Only(resource, number) => imports(resource, entry.kind) && entry.of == number,
        Subject::Disabled => is_export(entry.kind) && is_disabled(gate.posture),
        _ => false,
    }
}

/// Whether the entry of this number breaks a rule; `sum` is what a rule on quotas counts of the entries
/// up to this one.
pub(crate) fn breaks(ruling: &Ruling, number: u32, sum: u64, entry: Entry, gate: Gate) -> bool
    ensures { result ≡ spec.breaks ruling.now number sum entry gate }
{
    match ruling.subject {
        Subject::Data(export) => {
            number == export && (is_export(entry.kind) && gate.capabilities)
        }
        Subject::Total(most) => is_quota(entry.kind) && most < sum,
        Subject::Quota(owner, most) => {
            (is_quota(entry.kind) && same(entry.owner, owner)) && most < sum
        }
        Subject::Apart(_, _) => false,
        subject => {
            is_held(subject, entry, gate) && !is_listed(ruling.owners.as_slice(), entry.owner)
        }
    }
}

/// The gate of each entry, in the order of their numbers from 1; that of no export where an entry has
/// none.
pub(crate) fn gates_of(alloc: Global, entries: &Entries) -> Result<Vec<Gate>, AllocError>
    ensures { IfOk result
        (λ v. AreGates entries.now.gates (length entries.now.rows) v.items) }
{
    let count = entries.rows.len();
    let mut gates = vec![in alloc; NO_GATE; count]?;
    let mut left = entries.gates.len();
    while left > 0 {
        left -= 1;
        let gate = entries.gates[left];
        let number = gate.entry as usize;
        if number >= 1 && number <= count {
            gates[number - 1] = gate;
        }
    }
    Ok(gates)
}
