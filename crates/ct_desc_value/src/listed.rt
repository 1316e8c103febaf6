//! F3: a member that isn't listed.

ghost use Rattle.std.specs.Prelude.{◌≡◌, ◌&&◌, ◌||◌, ℕ, List, bytes_eq, codes, map};
ghost use Rattle.std.specs.List.{list_all, list_any};
ghost use Rattle.ct_json.specs.Values.{data_of, keys_left};
ghost use Rattle.def_texts.specs.Names.{among};
ghost use Rattle.def_desc.specs.Kinds as spec;
ghost use Rattle.def_desc.specs.Members.{keys_of, member_at};
ghost use Rattle.def_desc.specs.Tables as table;
ghost use Rattle.def_desc.specs.Tables.{code_names};
ghost use Rattle.ct_desc_value.specs.Seen.{is_listed_beside, spot_view};

use crate::kinds::takes_rights;
use crate::tables::{Member, members_of};
use crate::walk::Spot;
use ct_json::{Json, Keys};
use def_desc::PartWord;
use def_desc::tables::CODE;

fn is_among(name: &str, members: &[Member]) -> bool
    ensures { result
        ≡ list_any (λ m. bytes_eq name.now m.name)
        (map (λ r. table.row r.0.now r.1 r.2) members.now) }
{
    for member in members {
        if name == member.0 {
            return true;
        }
    }
    false
}

fn is_member(part: PartWord, name: &str) -> bool
    ensures { result ≡ spec.is_member part name.now }
{
    is_among(name, members_of(part))
}

/// `rights` may stand in a value of a part.
fn takes_rights_at(part: PartWord, value: &Json) -> bool
    ensures { (name : List ℕ) → spec.stands_beside part (data_of value.now) name
        ≡ (result && bytes_eq name (codes "rights")) }
{
    match part {
        PartWord::Import => takes_rights(value),
        _ => false,
    }
}

fn is_listed(part: PartWord, rights: bool, name: &str) -> bool
    ensures { result ≡ is_listed_beside part rights name.now }
{
    is_member(part, name) || (rights && name == "rights")
}

fn are_listed(keys: Keys, part: PartWord, rights: bool) -> bool
    ensures { result ≡ list_all (is_listed_beside part rights) (keys_left keys.entry) }
{
    for key in keys {
        if !is_listed(part, rights, key) {
            return false;
        }
    }
    true
}

/// An object may say `rights` as often as its text has room for, so it is asked once whether they may
/// stand.
#[tactic(auto, using(crate::proofs::Lists::keys_there, crate::proofs::Lists::no_keys, crate::proofs::Lists::listed_beside))]
fn members_are_listed(part: PartWord, value: &Json) -> bool
    ensures { result
        ≡ list_all (spec.is_listed_member part (data_of value.now)) (keys_of (data_of value.now)) }
{
    let rights = takes_rights_at(part, value);
    match value.keys() {
        Some(keys) => are_listed(keys, part, rights),
        None => true,
    }
}

#[tactic(auto, unfolding(def_desc::specs::Tables::code_names))]
fn is_of_code(name: &str) -> bool
    ensures { result ≡ among name.now code_names }
{
    name == CODE[0] || name == CODE[1]
}

fn are_of_code(keys: Keys) -> bool
    ensures { result ≡ spec.all_among code_names (keys_left keys.entry) }
{
    for key in keys {
        if !is_of_code(key) {
            return false;
        }
    }
    true
}

#[tactic(auto, using(crate::proofs::Lists::keys_there, crate::proofs::Lists::no_keys))]
fn object_has_only_code(value: &Json) -> bool
    ensures { result ≡ spec.all_among code_names (keys_of (data_of value.now)) }
{
    match value.keys() {
        Some(keys) => are_of_code(keys),
        None => true,
    }
}

fn code_has_only(value: &Json) -> bool
    ensures { result
        ≡ spec.all_among code_names (keys_of (member_at (codes "code") (data_of value.now))) }
{
    match value.get("code") {
        Some(code) => object_has_only_code(&code),
        None => true,
    }
}

fn code_is_listed(part: PartWord, value: &Json) -> bool
    ensures { result ≡ spec.code_is_listed part (data_of value.now) }
{
    match part {
        PartWord::Compartment => code_has_only(value),
        PartWord::Library => code_has_only(value),
        _ => true,
    }
}

/// F3 doesn't hold at a place: it has no member that isn't listed.
pub fn has_only(spot: &Spot) -> bool
    ensures { result ≡ spec.has_only (spot_view spot.now) }
{
    members_are_listed(spot.place.part, &spot.value) && code_is_listed(spot.place.part, &spot.value)
}
