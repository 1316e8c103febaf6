//! The lines that deny a policy.

ghost use Rattle.std.specs.Prelude.{ℕ, ◌≡◌, ◌≢◌, codes, ◌+◌, ◌<◌, ◌≤◌, ◌^◌, ◌++◌, [], ◌∷◌, IfOk, OnOk, length, string_bytes, decimal};
ghost use Rattle.ct_entry.specs.declared.rows.Owner.TheVariants.{Trusted};
ghost use Rattle.def_boot.specs.Gates.{entries_of};
ghost use Rattle.def_policy.specs.Breaking.{breaking};
ghost use Rattle.def_policy.specs.Denials.{Denies, Reaching, entry_line, entry_lines, denied_path_line};
ghost use Rattle.ct_policy.specs.Gates.{AreGates};
ghost use Rattle.ct_policy.specs.Keys.{IsIndex, Serves};
ghost use Rattle.ct_policy.specs.Kept.{Adds, IsUntrusted};

use crate::breaking::{breaks, counted};
use crate::index::{Index, asked};
use crate::links::Links;
use crate::names::add_names;
use crate::rulings::Ruling;
use ct_entry::{Comp, Entries, Gate, Owner};
use ct_graph::Graph;
use ct_image_parts::Parts;
use def_policy::Subject;
use def_refusals::NoMemory;
use itoa::Buffer;
use std::alloc::{AllocError, Global};

/// The sort of the keys of quotas.
const QUOTA_SORT: u64 = 4;

/// Begins the line that denies a rule.
fn add_denied(text: &mut String, line: u32) -> Result<(), AllocError>
    ensures { OnOk result
        (string_bytes text.new ≡ string_bytes text.old ++ (codes "denied " ++ decimal line)) }
{
    let mut buffer = Buffer::new();
    text.push_str("denied ")?;
    text.push_str(buffer.format(line))
}

/// The line of an entry that breaks a rule.
fn add_entry(text: &mut String, line: u32, entry: u32) -> Result<(), AllocError>
    ensures { OnOk result
        (string_bytes text.new ≡ string_bytes text.old ++ entry_line line entry) }
{
    let mut buffer = Buffer::new();
    add_denied(text, line)?;
    text.push(' ')?;
    text.push_str(buffer.format(entry))?;
    text.push('\n')
}

/// The lines of the entries that break a rule, where only those can that are linked under this key.
#[tactic(auto, using(crate::proofs::Judged::sets_out, crate::proofs::Judged::next_breaks, crate::proofs::Judged::next_holds, crate::proofs::Judged::arrives, crate::proofs::Judged::is_after, crate::proofs::Judged::has_next))]
fn add_linked(
    text: &mut String,
    line: u32,
    ruling: &Ruling,
    entries: &Entries,
    gates: &[Gate],
    links: &Links,
    key: u64,
) -> Result<(), AllocError>
    requires few { length entries.now.rows < 2 ^ 32 }
    requires gates { AreGates entries.now.gates (length entries.now.rows) gates.now }
    requires links { Serves entries.now ruling.now links.now key }
    ensures { OnOk result
        (string_bytes text.new ≡ string_bytes text.old
        ++ entry_lines line (breaking entries.now ruling.now)) }
{
    let mut sum: u64 = 0;
    let mut place = links.first(key);
    while place < entries.rows.len() {
        let entry = entries.rows[place];
        sum += counted(ruling.subject, entry);
        let number = place as u32 + 1;
        if breaks(ruling, number, sum, entry, gates[place]) {
            add_entry(text, line, number)?;
        }
        place = links.after(place);
    }
    Ok(())
}

/// The line of the entry of this number, where it breaks a rule on what calls of it pass.
#[tactic(auto, using(crate::proofs::Judged::one_breaks, crate::proofs::Judged::one_holds, crate::proofs::Judged::no_such))]
fn add_one(
    text: &mut String,
    line: u32,
    ruling: &Ruling,
    entries: &Entries,
    gates: &[Gate],
    number: u32,
) -> Result<(), AllocError>
    requires gates { AreGates entries.now.gates (length entries.now.rows) gates.now }
    requires data { ruling.now.subject ≡ Subject.Data number }
    ensures { OnOk result
        (string_bytes text.new ≡ string_bytes text.old
        ++ entry_lines line (breaking entries.now ruling.now)) }
{
    if number == 0 || number as usize > entries.rows.len() {
        return Ok(());
    }
    let place = number as usize - 1;
    if breaks(ruling, number, 0, entries.rows[place], gates[place]) {
        add_entry(text, line, number)?;
    }
    Ok(())
}

/// The lines of all entries that break a rule.
#[tactic(auto, using(crate::proofs::Judged::serves_sum, crate::proofs::Judged::serves_key, crate::proofs::Judged::within_limits))]
fn add_entries(
    text: &mut String,
    line: u32,
    ruling: &Ruling,
    entries: &Entries,
    index: &Index,
) -> Result<(), AllocError>
    requires few { length entries.now.rows < 2 ^ 32 }
    requires index { IsIndex entries.now index.now }
    ensures { OnOk result
        (string_bytes text.new ≡ string_bytes text.old
        ++ entry_lines line (breaking entries.now ruling.now)) }
{
    let gates = index.gates.as_slice();
    match ruling.subject {
        Subject::Data(export) => add_one(text, line, ruling, entries, gates, export),
        Subject::Total(most) => {
            if index.total <= most {
                return Ok(());
            }
            add_linked(text, line, ruling, entries, gates, &index.sorts, QUOTA_SORT)
        }
        subject => {
            let key = asked(subject);
            add_linked(text, line, ruling, entries, gates, &index.subjects, key)
        }
    }
}

/// The line of a path.
fn add_path(text: &mut String, line: u32, parts: &Parts, owners: &[Owner]) -> Result<(), NoMemory>
    ensures { OnOk result
        (string_bytes text.new ≡ string_bytes text.old
        ++ denied_path_line parts.now line owners.now) }
{
    add_denied(text, line)?;
    text.push_str(" path")?;
    add_names(text, parts, owners)
}

/// The line of an owner that reaches a compartment from which it is to be apart.
fn add_reach(
    alloc: Global,
    text: &mut String,
    line: u32,
    parts: &Parts,
    graph: &Graph,
    from: Owner,
    to: u32,
) -> Result<(), NoMemory>
    requires graph { graph.now ≡ entries_of parts.now }
    requires untrusted { from ≢ Trusted }
    ensures { OnOk result
        (Adds (Reaching parts.now line from to) (string_bytes text.old) (string_bytes text.new)) }
{
    match graph.path(alloc, from, Comp(to))? {
        Some(path) => add_path(text, line, parts, path.owners.as_slice()),
        None => Ok(()),
    }
}

/// What denies a rule.
pub(crate) fn add_ruling(
    alloc: Global,
    text: &mut String,
    line: u32,
    ruling: &Ruling,
    parts: &Parts,
    entries: &Entries,
    index: &Index,
    graph: &Graph,
) -> Result<(), NoMemory>
    requires entries { entries.now ≡ entries_of parts.now }
    requires few { length entries.now.rows < 2 ^ 32 }
    requires index { IsIndex entries.now index.now }
    requires graph { graph.now ≡ entries_of parts.now }
    requires untrusted { IsUntrusted ruling.now.subject }
    ensures { OnOk result
        (Adds (Denies parts.now line ruling.now ruling.now.subject)
        (string_bytes text.old) (string_bytes text.new)) }
{
    match ruling.subject {
        Subject::Apart(from, to) => add_reach(alloc, text, line, parts, graph, from, to),
        _ => Ok(add_entries(text, line, ruling, entries, index)?),
    }
}
