//! The labels of a source, and the slots that it names.

ghost use Rattle.std.specs.Prelude.{◌≡◌, ◌<◌, ◌&&◌, true, OnOk, IfOk};
ghost use Rattle.def_source.specs.Source as source;
ghost use Rattle.def_object.specs.Object as object;
ghost use Rattle.ct_source.specs.Views.{statements_view};
ghost use Rattle.ct_source.specs.Compact.{compact_part};
ghost use Rattle.ct_asm.specs.Labels.{label_named, noted, is_new, AreFirst};

use crate::keying::key_of_labels;
use crate::labels::Labels;
use crate::names::Names;
use crate::places::{START, advanced, offset};
use ct_source::compact::{CompactPart, CompactStatement};
use def_object::{Label, Place};
use std::alloc::{AllocError, Global};

/// The labels of a source, and whether none of its names stands twice.
#[derive(Drop)]
pub(crate) struct Found {
    pub labels: Labels,
    pub distinct: bool,
}

/// Adds the label that a statement is, unless its name is there. Whether no name has stood twice,
/// as `distinct` says of the statements before. One look-up as long as none has.
fn note(
    alloc: Global,
    labels: &mut Labels,
    distinct: bool,
    place: Place,
    k: u64,
    part: CompactPart<'_>,
) -> Result<bool, AllocError>
    ensures noted { OnOk result (labels.new ≡ noted labels.old place k (compact_part part.entry)) }
    ensures distinct { IfOk result
        (λ d. d ≡ (is_new labels.old (compact_part part.entry) && distinct)) }
{
    let CompactPart::Label { name } = part else {
        return Ok(distinct);
    };
    if !distinct && labels.get(name).is_some() {
        return Ok(false);
    }
    let label = Label {
        section: place.section,
        offset: offset(place),
        index: k,
    };
    Ok(labels.add(alloc, name, label)? && distinct)
}

/// The labels of a source, each by the first of its name.
#[tactic(auto, using(crate::proofs::Walks::next_fits))]
pub(crate) fn labels_of(
    alloc: Global,
    statements: &[CompactStatement<'_>],
) -> Result<Found, AllocError>
    requires { source.IsLawful (statements_view statements.now) }
    ensures labels { IfOk result
        (λ t. (name : source.Name)
        → label_named name t.labels
        ≡ object.label_from name object.start 0 (statements_view statements.now)) }
    ensures distinct { IfOk result
        (λ t. t.distinct ≡ true
        → AreFirst (λ n. label_named n t.labels) 0 (statements_view statements.now)) }
{
    let mut labels = Labels::new(alloc, key_of_labels(statements));
    let mut distinct = true;
    let mut place = START;
    for (k, s) in statements.iter().enumerate() {
        distinct = note(alloc, &mut labels, distinct, place, k as u64, s.part)?;
        place = advanced(place, s.part);
    }
    Ok(Found { labels, distinct })
}

/// Whether a statement names an import that has no slot.
pub(crate) fn is_undeclared(slots: &Names, part: CompactPart<'_>) -> bool
    ensures { result ≡ object.is_undeclared slots.now (compact_part part.entry) }
{
    if let CompactPart::Import { name, .. } = part {
        return slots.slot(name).is_none();
    }
    false
}
