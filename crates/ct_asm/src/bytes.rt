//! The bytes of an object's two sections.

ghost use Rattle.std.specs.Prelude.{◌≡◌, ◌++◌, ◌<◌, ◌^◌, true, None, OnOk, IfOk};
ghost use Rattle.def_source.specs.Source as source;
ghost use Rattle.def_object.specs.Object as object;
ghost use Rattle.ct_source.specs.Views.{statements_view};
ghost use Rattle.ct_source.specs.Compact.{compact_part};
ghost use Rattle.ct_asm.specs.Labels.{label_named};
ghost use Rattle.ct_asm.specs.Emitting.{IsFound};

use crate::emit::push_statement;
use crate::labels::Labels;
use crate::names::Names;
use crate::places::{START, advanced, offset};
use ct_source::compact::{CompactPart, CompactStatement};
use def_object::Place;
use def_source::parts::Section;
use std::alloc::{AllocError, Global};

/// Adds the bytes of a statement at an offset.
fn push_part(
    out: &mut Vec<u8>,
    labels: &Labels,
    slots: &Names,
    at: u128,
    part: CompactPart<'_>,
) -> Result<(), AllocError>
    requires fit { source.numbers_fit (compact_part part) ≡ true }
    requires exist { source.registers_exist (compact_part part) ≡ true }
    requires found { IsFound (λ n. label_named n labels.now) at (compact_part part) }
    requires small { at < 2 ^ 100 }
    ensures { OnOk result
        (out.new.items ≡ out.old.items
        ++ object.bytes_at (λ n. label_named n labels.now) slots.now at (compact_part part.entry)) }
{
    push_statement(out, labels, slots, at, part.part())
}

/// Adds the bytes of a statement, if it stands in the wanted section.
fn push_in(
    out: &mut Vec<u8>,
    wanted: Section,
    labels: &Labels,
    slots: &Names,
    place: Place,
    part: CompactPart<'_>,
) -> Result<(), AllocError>
    requires fit { source.numbers_fit (compact_part part) ≡ true }
    requires exist { source.registers_exist (compact_part part) ≡ true }
    requires found { IsFound (λ n. label_named n labels.now) (object.offset place)
        (compact_part part) }
    requires text { place.text < 2 ^ 100 }
    requires initial { place.initial < 2 ^ 100 }
    ensures { OnOk result
        (out.new.items ≡ out.old.items
        ++ object.section_bytes wanted (λ n. label_named n labels.now) slots.now place
        (compact_part part.entry)) }
{
    if place.section == wanted {
        return push_part(out, labels, slots, offset(place), part);
    }
    Ok(())
}

/// The bytes of one section.
#[tactic(auto, using(crate::proofs::Walks::next_fits))]
pub(crate) fn section_bytes(
    alloc: Global,
    wanted: Section,
    labels: &Labels,
    slots: &Names,
    statements: &[CompactStatement<'_>],
) -> Result<Vec<u8>, AllocError>
    requires lawful { source.IsLawful (statements_view statements.now) }
    requires faultless { object.fault_from (λ n. label_named n labels.now) object.start 0
        (statements_view statements.now)
        ≡ None }
    ensures { IfOk result
        (λ v. v.items
        ≡ object.bytes_from wanted (λ n. label_named n labels.now) slots.now object.start
        (statements_view statements.now)) }
{
    let mut out = Vec::new(alloc);
    let mut place = START;
    for s in statements {
        push_in(&mut out, wanted, labels, slots, place, s.part)?;
        place = advanced(place, s.part);
    }
    Ok(out)
}
