//! F2: a member is missing, or not of its kind.

ghost use Rattle.std.specs.Prelude.{◌≡◌, count_by, is_some, map};
ghost use Rattle.serde_json.specs.Find.{as_array};
ghost use Rattle.std.specs.List.{list_all, list_any};
ghost use Rattle.ct_json.specs.Values.{data_of, items_left};
ghost use Rattle.def_desc.specs.Kinds as spec;
ghost use Rattle.def_desc.specs.Members as members;
ghost use Rattle.def_desc.specs.Tables as table;
ghost use Rattle.ct_desc_value.specs.Seen.{spot_view};

use crate::digits::{are_pairs, is_word};
use crate::members::{has, has_text, list_at, text_of};
use crate::tables::{Member, kind_of, library_posture_of, members_of, passes_of, posture_of};
use crate::walk::Spot;
use ct_json::{Items, Json};
use def_desc::tables::{FORMS, RIGHTED};
use def_desc::{Choice, PartWord, Shape};

fn is_choice(choice: Choice, text: &str) -> bool
    ensures { result ≡ spec.is_choice choice text.now }
{
    match choice {
        Choice::Kind => kind_of(text).is_some(),
        Choice::Posture => posture_of(text).is_some(),
        Choice::LibraryPosture => library_posture_of(text).is_some(),
        Choice::Passes => passes_of(text).is_some(),
    }
}

fn are_words(values: Items) -> bool
    ensures { result
        ≡ list_all (λ w. spec.is_word (members.text_value w)) (items_left values.entry) }
{
    for value in values {
        if !is_word(text_of(&value).as_bytes()) {
            return false;
        }
    }
    true
}

fn is_list(value: &Json) -> bool
    ensures { result ≡ is_some (as_array (data_of value.now)) }
{
    value.items().is_some()
}

fn has_list(value: &Json, key: &str) -> bool
    ensures { result ≡ spec.has_list key.now (data_of value.now) }
{
    match value.get(key) {
        Some(list) => is_list(&list),
        None => false,
    }
}

fn has_words(value: &Json) -> bool
    ensures { result ≡ spec.has_words (data_of value.now) }
{
    has_list(value, "words") && are_words(list_at(value, "words"))
}

fn is_code(value: &Json) -> bool
    ensures { result ≡ spec.is_code_object (data_of value.now) }
{
    if has(value, "words") {
        !has(value, "file") && has_words(value)
    } else {
        has_text(value, "file")
    }
}

fn is_kind(shape: Shape, value: &Json) -> bool
    ensures { result ≡ spec.is_kind shape (data_of value.now) }
{
    match shape {
        Shape::Text => value.as_str().is_some(),
        Shape::Among { choice } => is_choice(choice, text_of(value)),
        Shape::Number { .. } => value.as_u64().is_some(),
        Shape::Multiple { .. } => value.as_u64().is_some(),
        Shape::List { .. } => is_list(value),
        Shape::Object => value.is_object(),
        Shape::Bytes { .. } => value.as_str().is_some() && are_pairs(text_of(value).as_bytes()),
        Shape::Offset => value.as_str().is_some() || value.as_u64().is_some(),
        Shape::Code => is_code(value),
    }
}

fn has_member(value: &Json, name: &str, shape: Shape, needed: bool) -> bool
    ensures { result ≡ spec.has_member (data_of value.now) (table.row name.now shape needed) }
{
    match value.get(name) {
        Some(there) => is_kind(shape, &there),
        None => !needed,
    }
}

fn has_each(value: &Json, members: &[Member]) -> bool
    ensures { result
        ≡ list_all (spec.has_member (data_of value.now))
        (map (λ r. table.row r.0.now r.1 r.2) members.now) }
{
    for (name, shape, needed) in members {
        if !has_member(value, *name, *shape, *needed) {
            return false;
        }
    }
    true
}

fn has_any(value: &Json, names: &[&'static str]) -> bool
    ensures { result
        ≡ list_any (λ name. members.has_key name (data_of value.now)) (map (λ n. n.now) names.now) }
{
    for name in names {
        if has(value, *name) {
            return true;
        }
    }
    false
}

fn count_of(value: &Json, names: &[&'static str]) -> usize
    ensures { result
        ≡ count_by (λ name. members.has_key name (data_of value.now)) (map (λ n. n.now) names.now) }
{
    let mut count = 0;
    for name in names {
        if has(value, *name) {
            count += 1;
        }
    }
    count
}

/// An import has a member beside which rights stand.
#[tactic(auto, unfolding(def_desc::specs::Tables::righted_names))]
pub(crate) fn takes_rights(value: &Json) -> bool
    ensures { result ≡ spec.takes_rights (data_of value.now) }
{
    has_any(value, &RIGHTED)
}

#[tactic(auto, unfolding(def_desc::specs::Tables::form_names))]
fn has_one_form(value: &Json) -> bool
    ensures { result ≡ spec.has_one_form (data_of value.now) }
{
    count_of(value, &FORMS) == 1
}

fn has_its_place(spot: &Spot) -> bool
    ensures { result ≡ spec.has_its_place (spot_view spot.now) }
{
    spot.owner.labels || !has_text(&spot.value, "at")
}

fn has_its_rights(value: &Json) -> bool
    ensures { result ≡ spec.has_its_rights (data_of value.now) }
{
    !takes_rights(value) || has_text(value, "rights")
}

fn has_more(part: PartWord, spot: &Spot) -> bool
    ensures { result ≡ spec.has_more part (spot_view spot.now) }
{
    match part {
        PartWord::Import => has_one_form(&spot.value) && has_its_rights(&spot.value),
        PartWord::Key => spot.value.as_u64().is_some(),
        PartWord::Export => has_its_place(spot),
        PartWord::Lexport => has_its_place(spot),
        _ => true,
    }
}

/// F2 doesn't hold at a place: each member that must be there is, and each is of its kind.
pub fn has_kinds(spot: &Spot) -> bool
    ensures { result ≡ spec.has_kinds (spot_view spot.now) }
{
    has_each(&spot.value, members_of(spot.place.part)) && has_more(spot.place.part, spot)
}
