//! What is wrong with statements that each have their form.

ghost use Rattle.std.specs.Prelude.{◌≡◌, ◌<◌, ◌≤◌, ◌^◌, ◌+◌, true};
ghost use Rattle.def_source.specs.Source as source;
ghost use Rattle.def_object.specs.Object as object;
ghost use Rattle.ct_source.specs.Views.{target_view, statements_view};
ghost use Rattle.ct_source.specs.Compact.{compact_part};
ghost use Rattle.ct_asm.specs.Labels.{label_named, IsFirst, AreFirst};

use crate::labels::Labels;
use crate::places::{START, advanced, offset, size_at};
use ct_source::compact::{CompactPart, CompactStatement};
use def_object::{Fault, Label, Place};
use def_profile::limits::MOST_BYTES;
use def_source::parts::Target;
use def_source::reaches::{BRANCH_REACH, JUMP_REACH};

/// Whether a label lies within a reach: even, backwards by at most so many bytes and forwards by
/// two less.
fn is_near(reach: u128, at: u128, to: u128) -> bool
    requires { 2 ≤ reach }
    ensures { result ≡ object.is_near reach at to }
{
    let near = if to < at {
        at - to <= reach
    } else {
        to - at <= reach - 2
    };
    near && at % 2 == to % 2
}

/// A branch to a label: A6 where the text has none of that name, A4 where it is out of reach.
fn reach_fault(reach: u128, at: u128, label: Option<Label>) -> Option<u32>
    requires { 2 ≤ reach }
    ensures { result ≡ object.reach_fault reach at label }
{
    match label {
        None => Some(6),
        Some(l) => {
            if l.section.is_data() {
                return Some(6);
            }
            if is_near(reach, at, l.offset) {
                None
            } else {
                Some(4)
            }
        }
    }
}

/// A branch to a target; an offset has its range already.
fn target_fault(labels: &Labels, reach: u128, at: u128, target: Target<&[u8]>) -> Option<u32>
    requires { 2 ≤ reach }
    ensures { result
        ≡ object.target_fault (λ n. label_named n labels.now) reach at (target_view target.entry) }
{
    match target {
        Target::Label(name) => reach_fault(reach, at, labels.get(name)),
        Target::Offset(_) => None,
    }
}

/// A6 where the text has no such label.
fn text_fault(label: Option<Label>) -> Option<u32>
    ensures { result ≡ object.text_fault label }
{
    match label {
        None => Some(6),
        Some(l) => if l.section.is_text() { None } else { Some(6) },
    }
}

/// A6 where the initial bytes have no such label.
fn data_fault(label: Option<Label>) -> Option<u32>
    ensures { result ≡ object.data_fault label }
{
    match label {
        None => Some(6),
        Some(l) => if l.section.is_data() { None } else { Some(6) },
    }
}

/// A5 where a label isn't the first of its name.
fn second_fault(k: u64, label: Option<Label>) -> Option<u32>
    ensures { result ≡ object.second_fault k label }
{
    match label {
        None => None,
        Some(l) => if l.index == k { None } else { Some(5) },
    }
}

/// What a statement refers to, or what it defines again; no name that stands once is looked up.
fn reference_fault(
    labels: &Labels,
    distinct: bool,
    k: u64,
    at: u128,
    part: CompactPart<'_>,
) -> Option<u32>
    requires { distinct ≡ true → IsFirst (λ n. label_named n labels.now) k (compact_part part) }
    ensures { result
        ≡ object.reference_fault (λ n. label_named n labels.now) k at (compact_part part.entry) }
{
    match part {
        CompactPart::Label { name } => {
            if distinct {
                None
            } else {
                second_fault(k, labels.get(name))
            }
        }
        CompactPart::Branch { target, .. }
        | CompactPart::IfZero { target, .. }
        | CompactPart::IfNotZero { target, .. } => {
            target_fault(labels, BRANCH_REACH, at, target.target())
        }
        CompactPart::Jal { target, .. }
        | CompactPart::Jump { target }
        | CompactPart::JumpAndLink { target, .. } => {
            target_fault(labels, JUMP_REACH, at, target.target())
        }
        CompactPart::TextAddress { label, .. } => text_fault(labels.get(label)),
        CompactPart::GlobalAddress { label, .. } => data_fault(labels.get(label)),
        _ => None,
    }
}

/// A8 where a statement passes the limit of a section.
fn size_fault(at: u128, part: CompactPart<'_>) -> Option<u32>
    requires fit { source.numbers_fit (compact_part part) ≡ true }
    requires at { at < 2 ^ 101 }
    ensures { result ≡ object.size_fault at (compact_part part.entry) }
{
    if at + size_at(part, at) > MOST_BYTES as u128 {
        Some(8)
    } else {
        None
    }
}

/// The least number of what a statement breaks.
fn statement_fault(
    labels: &Labels,
    distinct: bool,
    place: Place,
    k: u64,
    part: CompactPart<'_>,
) -> Option<u32>
    requires first { distinct ≡ true
        → IsFirst (λ n. label_named n labels.now) k (compact_part part) }
    requires fit { source.numbers_fit (compact_part part) ≡ true }
    requires text { place.text < 2 ^ 100 }
    requires initial { place.initial < 2 ^ 100 }
    ensures { result
        ≡ object.statement_fault (λ n. label_named n labels.now) place k (compact_part part.entry) }
{
    match reference_fault(labels, distinct, k, offset(place), part) {
        Some(number) => Some(number),
        None => size_fault(offset(place), part),
    }
}

/// The fault of the lesser line, and on one line of the lesser number.
fn lesser(a: Option<Fault>, b: Option<Fault>) -> Option<Fault>
    ensures { result ≡ object.lesser a b }
{
    match (a, b) {
        (None, b) => b,
        (a, None) => a,
        (Some(x), Some(y)) => if is_least(x, y) { Some(x) } else { Some(y) },
    }
}

/// Whether the first fault is of the lesser line, or on one line has the lesser number.
fn is_least(a: Fault, b: Fault) -> bool
    ensures { result ≡ object.is_least a b }
{
    a.line < b.line || a.line == b.line && a.number <= b.number
}

fn on_line(line: u32, number: Option<u32>) -> Option<Fault>
    ensures { result ≡ object.on_line line number }
{
    match number {
        Some(number) => Some(Fault { number, line }),
        None => None,
    }
}

/// The least fault of all statements; `distinct` says that no label stands twice.
#[tactic(auto, using(crate::proofs::Walks::next_fits))]
pub(crate) fn least_fault(
    labels: &Labels,
    distinct: bool,
    statements: &[CompactStatement<'_>],
) -> Option<Fault>
    requires lawful { source.IsLawful (statements_view statements.now) }
    requires first { distinct ≡ true
        → AreFirst (λ n. label_named n labels.now) 0 (statements_view statements.now) }
    ensures { result
        ≡ object.fault_from (λ n. label_named n labels.now) object.start 0
        (statements_view statements.now) }
{
    let mut place = START;
    let mut least = None;
    for (k, s) in statements.iter().enumerate() {
        let fault = on_line(
            s.line,
            statement_fault(labels, distinct, place, k as u64, s.part),
        );
        least = lesser(least, fault);
        place = advanced(place, s.part);
    }
    least
}
