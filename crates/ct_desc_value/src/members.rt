//! Members of a JSON object, by their kinds.

ghost use Rattle.std.specs.Prelude.{◌≡◌, option_map};
ghost use Rattle.serde_json.specs.Find.{as_array};
ghost use Rattle.ct_json.specs.Values.{data_of, items_left};
ghost use Rattle.def_desc.specs.Members as spec;
ghost use Rattle.def_desc.specs.Limits.{number_or_zero as spec_number_in};
ghost use Rattle.def_desc.specs.Reading as reading;

use ct_json::{Items, Json};

/// The text at a key.
pub fn text_at<'a>(value: &Json<'_, 'a>, key: &str) -> Option<&'a str>
    ensures { option_map (λ s. s.now) result ≡ spec.text_at key.now (data_of value.now) }
{
    match value.get(key) {
        Some(member) => member.as_str(),
        None => None,
    }
}

/// The number at a key.
pub fn number_at(value: &Json, key: &str) -> Option<u64>
    ensures { result ≡ spec.number_member key.now (data_of value.now) }
{
    match value.get(key) {
        Some(member) => member.as_u64(),
        None => None,
    }
}

/// The list that a value is, or the empty list.
#[tactic(auto, using(crate::proofs::Lists::list_there, crate::proofs::Lists::no_list))]
pub fn list_in<'t, 'a>(value: &Json<'t, 'a>) -> Items<'t, 'a>
    ensures { items_left result ≡ spec.list_in (as_array (data_of value.now)) }
{
    if let Some(items) = value.items() {
        return items;
    }
    Items::none()
}

/// The list at a key, or the empty list.
pub fn list_at<'t, 'a>(value: &Json<'t, 'a>, key: &str) -> Items<'t, 'a>
    ensures { items_left result ≡ spec.list_at key.now (data_of value.now) }
{
    if let Some(member) = value.get(key) {
        return list_in(&member);
    }
    Items::none()
}

/// A member is there, of whatever kind.
pub fn has(value: &Json, key: &str) -> bool
    ensures { result ≡ spec.has_key key.now (data_of value.now) }
{
    value.get(key).is_some()
}

/// A text stands at a key.
pub fn has_text(value: &Json, key: &str) -> bool
    ensures { result ≡ spec.has_text key.now (data_of value.now) }
{
    text_at(value, key).is_some()
}

/// The number at a key, or a default.
pub fn number_or(value: &Json, key: &str, default: u64) -> u64
    ensures { result ≡ spec.number_or default key.now (data_of value.now) }
{
    match number_at(value, key) {
        Some(n) => n,
        None => default,
    }
}

/// The number at a key in 32 bits, or a default; 0 where 32 bits don't hold it.
pub fn word_or(value: &Json, key: &str, default: u32) -> u32
    ensures { result ≡ reading.word_or default key.now (data_of value.now) }
{
    let n = number_or(value, key, default as u64);
    if n < 1 << 32 { n as u32 } else { 0 }
}

/// The number at a key in 32 bits, or 0.
pub fn word_at(value: &Json, key: &str) -> u32
    ensures { result ≡ reading.word_member key.now (data_of value.now) }
{
    word_or(value, key, 0)
}

/// The text at a key, or the empty text.
pub fn text_or<'a>(value: &Json<'_, 'a>, key: &str) -> &'a str
    ensures { result.now ≡ spec.text_or key.now (data_of value.now) }
{
    match text_at(value, key) {
        Some(text) => text,
        None => "",
    }
}

/// The text that a value is, or the empty text.
pub fn text_of<'a>(value: &Json<'_, 'a>) -> &'a str
    ensures { result.now ≡ spec.text_value (data_of value.now) }
{
    match value.as_str() {
        Some(text) => text,
        None => "",
    }
}

/// The number that a value is, or 0.
pub fn number_in(value: &Json) -> u64
    ensures { result ≡ spec_number_in (data_of value.now) }
{
    match value.as_u64() {
        Some(n) => n,
        None => 0,
    }
}
