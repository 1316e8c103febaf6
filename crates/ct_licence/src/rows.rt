//! The row that an entry's number names, and whom its owner reaches.

ghost use Rattle.std.specs.Prelude.{ℕ, ◌≡◌, ◌≢◌, ◌↔◌, ◌==◌, Bool, true, Option, IsTrue, MatchOption};
ghost use Rattle.ct_entry.specs.Listed.{Listed};
ghost use Rattle.def_reach.specs.Roots.{gate_for, turns_interrupts_off, Listing, root_of};
ghost use Rattle.def_reach.specs.Sharing.{Reaches};
ghost use Rattle.def_reach.specs.Reach.{has_entry};
ghost use Rattle.ct_licence.specs.Rows.{IsRow, row_at};

use ct_entry::{Comp, Entries, Entry, Gate, Kind, Mode, Owner};
use ct_graph::Graph;

/// The row that a number names, where it is of this kind.
pub(crate) fn named(e: &Entries, number: u32, kind: Kind) -> Option<Entry>
    ensures { MatchOption result
        ((root_of e.now number).origin ≢ Listing kind)
        (λ r. IsRow e.now number kind r) }
{
    match row(e, number) {
        Some(row) => { if row.kind == kind { Some(row) } else { None } }
        None => None,
    }
}

/// The row that a number names: rows are numbered from 1.
fn row(e: &Entries, number: u32) -> Option<Entry>
    ensures { result ≡ row_at e.now number }
{
    if number == 0 {
        return None;
    }
    match e.rows.get(number as usize - 1) {
        Some(row) => Some(*row),
        None => None,
    }
}

/// Whether the owner of a row, a compartment or a library, reaches an actor.
pub(crate) fn reaches(g: &Graph, owner: Owner, actor: u32) -> bool
    requires { has_entry g.now.rows owner ≡ true }
    ensures { IsTrue result ↔ Reaches g.now owner actor }
{
    match owner {
        Owner::Trusted => false,
        _ => g.reaches(owner, Comp(actor)),
    }
}

/// Whether the gate of an export has posture disabled; not where the number has no gate.
pub(crate) fn disabled(e: &Entries, number: u32) -> bool
    ensures { result ≡ turns_interrupts_off (gate_for e.now.gates number).posture }
{
    is_off(e.gates.as_slice(), number)
}

/// The same of gates.
#[tactic(auto, unfolding(def_reach::specs::Roots::gate_for))]
fn is_off(gates: &[Gate], number: u32) -> bool
    ensures { result ≡ turns_interrupts_off (gate_for gates.now number).posture }
{
    for gate in gates {
        if gate.entry == number {
            return matches!(gate.posture, Mode::Disabled);
        }
    }
    false
}
