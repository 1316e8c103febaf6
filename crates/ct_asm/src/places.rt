//! Lengths of statements, and the places that they lead to.

ghost use Rattle.std.specs.Prelude.{◌≡◌, ◌+◌, ◌<◌, ◌≤◌, ◌^◌, true, if◌then◌else◌};
ghost use Rattle.def_source.specs.Source as source;
ghost use Rattle.def_object.specs.Object as object;
ghost use Rattle.ct_source.specs.Compact.{compact_part};

use ct_source::compact::CompactPart;
use def_object::Place;
use def_source::parts::{Number, Section};

/// The 32-bit word of a number that is written.
pub(crate) fn number_word(number: Number) -> u32
    ensures { result ≡ object.number_word number }
{
    let low = (number.magnitude % (1 << 32)) as u32;
    if number.negative {
        low.wrapping_neg()
    } else {
        low
    }
}

/// Whether a word stands for -2048 to 2047.
pub(crate) fn is_short(word: u32) -> bool
    ensures { result ≡ object.is_short word }
{
    word.wrapping_add(1 << 11) < 1 << 12
}

/// From a place to the next multiple.
pub(crate) fn padding(multiple: u128, at: u128) -> u128
    requires { 0 < multiple }
    ensures value { result ≡ object.padding multiple at }
    ensures below { result < multiple }
{
    (multiple - at % multiple) % multiple
}

/// Where the first statement stands.
pub(crate) const START: Place = Place {
    section: Section::Text,
    text: 0,
    initial: 0,
};

/// How many bytes of its section stand before a place.
pub(crate) fn offset(place: Place) -> u128
    ensures { result ≡ object.offset place }
{
    if place.section.is_text() {
        place.text
    } else {
        place.initial
    }
}

/// The bytes of a load of a number: one or two words.
fn number_size(number: Number) -> u128
    ensures value { result ≡ (if object.is_short (object.number_word number) then 4 else 8) }
    ensures small { result ≤ 8 }
{
    if is_short(number_word(number)) { 4 } else { 8 }
}

/// How many bytes a statement has at a place of its section.
pub(crate) fn size_at(part: CompactPart<'_>, at: u128) -> u128
    requires { source.numbers_fit (compact_part part) ≡ true }
    ensures value { result ≡ object.size_at (compact_part part.entry) at }
    ensures small { result ≤ 2 ^ 20 }
{
    match part {
        CompactPart::Label { .. } | CompactPart::Text | CompactPart::Data => 0,
        CompactPart::Byte { .. } => 1,
        CompactPart::Zero { number } => number.magnitude as u128,
        CompactPart::Align { number } => padding(number.magnitude as u128, at),
        CompactPart::LoadImmediate { number, .. } => number_size(number.number()),
        CompactPart::Import { .. }
        | CompactPart::TextAddress { .. }
        | CompactPart::GlobalAddress { .. } => 8,
        _ => 4,
    }
}

/// A place, so many bytes of its section on.
fn grown(place: Place, size: u128) -> Place
    requires text { place.text < 2 ^ 100 }
    requires initial { place.initial < 2 ^ 100 }
    requires small { size ≤ 2 ^ 20 }
    ensures value { result ≡ object.grown place size }
    ensures text { result.text ≤ place.text + 2 ^ 20 }
    ensures initial { result.initial ≤ place.initial + 2 ^ 20 }
{
    if place.section.is_text() {
        return Place {
            section: place.section,
            text: place.text + size,
            initial: place.initial,
        };
    }
    Place {
        section: place.section,
        text: place.text,
        initial: place.initial + size,
    }
}

/// The place after a statement.
pub(crate) fn advanced(place: Place, part: CompactPart<'_>) -> Place
    requires fit { source.numbers_fit (compact_part part) ≡ true }
    requires text { place.text < 2 ^ 100 }
    requires initial { place.initial < 2 ^ 100 }
    ensures value { result ≡ object.place_after place (compact_part part.entry) }
    ensures text { result.text ≤ place.text + 2 ^ 20 }
    ensures initial { result.initial ≤ place.initial + 2 ^ 20 }
{
    let (text, initial) = (place.text, place.initial);
    match part {
        CompactPart::Text => Place {
            section: Section::Text,
            text,
            initial,
        },
        CompactPart::Data => Place {
            section: Section::Data,
            text,
            initial,
        },
        _ => grown(place, size_at(part, offset(place))),
    }
}
