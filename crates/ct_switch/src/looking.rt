//! Searches among the entries.

ghost use Rattle.std.specs.Prelude.{◌≡◌, ◌<◌, ◌≤◌, ◌+◌, ◌-◌, ◌/◌, ℕ, true, false, length, slice_get, slice_index_or};
ghost use Rattle.ct_entry.specs.declared.rows.Gate.{Gate};
ghost use Rattle.def_reach.specs.Roots.{gate_for};
ghost use Rattle.ct_switch.specs.Exports.{AreSorted, AreTogether, IsFirstUpTo, no_row, row_named, is_export_of, table_in};

use ct_entry::{Entry, Gate, Kind, NO_GATE, Owner};
use def_profile::layout::TABLE_HEAD;

/// How many rows are looked at one after another.
const NEAR_ROWS: usize = 8;

/// How many gates have a lesser number.
fn place_of(gates: &[Gate], number: u32) -> usize
    requires { AreSorted gates.now }
    ensures before { (k : ℕ) (d : Gate) → k < result
        → (slice_index_or gates.now k d).entry < number }
    ensures after { (k : ℕ) (d : Gate) → result ≤ k → k < length gates.now
        → number ≤ (slice_index_or gates.now k d).entry }
{
    gates.partition_point(|gate| gate.entry < number)
}

/// The gate of the export with this entry number; one of zeros where there is none.
pub(crate) fn gate_of(gates: &[Gate], number: u32) -> Gate
    requires { AreSorted gates.now }
    ensures { result ≡ gate_for gates.now number }
{
    let place = place_of(gates, number);
    if place < gates.len() && gates[place].entry == number {
        return gates[place];
    }
    NO_GATE
}

/// The row at an index.
fn row_of(rows: &[Entry], index: usize) -> Option<Entry>
    ensures { result ≡ slice_get rows.now index }
{
    rows.get(index).copied()
}

/// The row that an entry's number names; none has number 0.
pub(crate) fn named(rows: &[Entry], number: u32) -> Option<Entry>
    ensures { result ≡ row_named rows.now number }
{
    if number == 0 {
        return None;
    }
    row_of(rows, number as usize - 1)
}

/// Whether a row is an export of this compartment.
pub fn is_export_of(home: u32, row: Entry) -> bool
    ensures { result ≡ is_export_of home row }
{
    match row.kind {
        Kind::Export => match row.owner {
            Owner::Compartment(other) => other == home,
            _ => false,
        },
        _ => false,
    }
}

/// The index of an export of a compartment, at or before an index, by halves. The row right before it, where there is
/// one, is no export of it. Where those of the compartment stand together it is the first of them.
#[inline(never)]
fn first_far(rows: &[Entry], home: u32, index: usize) -> usize
    requires inside { index < length rows.now }
    requires is { is_export_of home (slice_index_or rows.now index no_row) ≡ true }
    ensures { IsFirstUpTo index rows.now home result }
{
    let mut low = 0;
    let mut high = index;
    while low < high {
        let middle = low + (high - low) / 2;
        if is_export_of(home, rows[middle]) {
            high = middle;
        } else {
            low = middle + 1;
        }
    }
    high
}

/// The same: a few rows back one after another, and from there by halves.
fn first_of(rows: &[Entry], home: u32, index: usize) -> usize
    requires inside { index < length rows.now }
    requires is { is_export_of home (slice_index_or rows.now index no_row) ≡ true }
    ensures { IsFirstUpTo index rows.now home result }
{
    let near = index.saturating_sub(NEAR_ROWS);
    let mut first = index;
    while first > near {
        if !is_export_of(home, rows[first - 1]) {
            return first;
        }
        first -= 1;
    }
    first_far(rows, home, first)
}

/// Where the export table begins of the compartment that the export at an index is of.
pub fn table_at(rows: &[Entry], home: u32, index: usize) -> u32
    requires inside { index < length rows.now }
    requires is { is_export_of home (slice_index_or rows.now index no_row) ≡ true }
    requires together { AreTogether rows.now home }
    ensures { result ≡ table_in rows.now home }
{
    rows[first_of(rows, home, index)]
        .base
        .saturating_sub(TABLE_HEAD)
}
