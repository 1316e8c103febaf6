//! F6: numbers, and lengths of lists, texts and bytes.

ghost use Rattle.std.specs.Prelude.{◌≡◌, Bool, codes, count_by, map, not};
ghost use Rattle.def_desc.specs.Members as members;
ghost use Rattle.std.specs.List.{list_all};
ghost use Rattle.std.specs.Int.{is_in_range};
ghost use Rattle.ct_json.specs.Values.{data_of};
ghost use Rattle.def_desc.specs.Limits as spec;
ghost use Rattle.def_desc.specs.Tables as table;
ghost use Rattle.ct_desc_value.specs.Seen.{spot_view};

use crate::members::{list_at, list_in, number_in, number_or, text_at, text_of};
use crate::tables::{Member, members_of};
use crate::walk::Spot;
use ct_json::Json;
use def_desc::{PartWord, Shape};
use def_image::versions::{is_sweep_rate, most_ram, most_threads};
use def_profile::layout::REGION_UNIT;
use def_profile::limits::{LAST_VERSION, MOST_BYTES, MOST_FILE_NAME, RAM_END, SWEEP_RATE};
use def_profile::seals::{FIRST_KEY_TYPE, LAST_KEY_TYPE};

fn is_in_range(low: u32, high: u32, n: u64) -> bool
    ensures { result ≡ is_in_range low high n }
{
    low as u64 <= n && n <= high as u64
}

/// How many characters a text has: its bytes that don't go on with a character.
fn characters(text: &[u8]) -> usize
    ensures { result ≡ count_by (λ b. not (is_in_range 128 191 b)) text.now }
{
    let mut count = 0;
    for b in text {
        if !(128 <= *b && *b <= 191) {
            count += 1;
        }
    }
    count
}

fn keeps_file(value: &Json) -> bool
    ensures { result ≡ spec.keeps_file (members.text_at (codes "file") (data_of value.now)) }
{
    match text_at(value, "file") {
        Some(name) => is_in_range(1, MOST_FILE_NAME, characters(name.as_bytes()) as u64),
        None => true,
    }
}

fn keeps_code(value: &Json) -> bool
    ensures { result ≡ spec.keeps_code (data_of value.now) }
{
    list_at(value, "words").are_at_most(MOST_BYTES as u64 / 4) && keeps_file(value)
}

fn keeps(shape: Shape, value: &Json) -> bool
    ensures { result ≡ spec.keeps shape (data_of value.now) }
{
    match shape {
        Shape::Number { low, high } => is_in_range(low, high, number_in(value)),
        Shape::Multiple { low, high } => {
            let n = number_in(value);
            is_in_range(low, high, n) && n % REGION_UNIT as u64 == 0
        }
        Shape::List { most } => list_in(value).are_at_most(most as u64),
        Shape::Bytes { least, most } => is_in_range(least, most, text_of(value).len() as u64 / 2),
        Shape::Code => keeps_code(value),
        Shape::Text => true,
        Shape::Among { .. } => true,
        Shape::Object => true,
        Shape::Offset => true,
    }
}

fn keeps_member(value: &Json, name: &str, shape: Shape) -> bool
    ensures { (needed : Bool)
        → result ≡ spec.keeps_member (data_of value.now) (table.row name.now shape needed) }
{
    match value.get(name) {
        Some(there) => keeps(shape, &there),
        None => true,
    }
}

fn keeps_each(value: &Json, members: &[Member]) -> bool
    ensures { result
        ≡ list_all (spec.keeps_member (data_of value.now))
        (map (λ r. table.row r.0.now r.1 r.2) members.now) }
{
    for (name, shape, _) in members {
        if !keeps_member(value, *name, *shape) {
            return false;
        }
    }
    true
}

fn keeps_version(version: u64, value: &Json) -> bool
    ensures { result ≡ spec.keeps_version version (data_of value.now) }
{
    version <= LAST_VERSION as u64
        && is_sweep_rate(version, number_or(value, "sweep", SWEEP_RATE as u64))
        && list_at(value, "threads").are_at_most(most_threads(version) as u64)
}

fn keeps_ram(version: u64, value: &Json) -> bool
    ensures { result ≡ spec.keeps_ram version (data_of value.now) }
{
    let base = number_or(value, "base", 0) as u128;
    let size = number_or(value, "size", 0) as u128;
    size <= most_ram(version) as u128 && base + size <= RAM_END as u128
}

fn version_in(value: &Json) -> u64
    ensures { result ≡ spec.version_of (data_of value.now) }
{
    number_or(value, "version", 1)
}

fn keeps_more(part: PartWord, spot: &Spot) -> bool
    ensures { result ≡ spec.keeps_more part (spot_view spot.now) }
{
    match part {
        PartWord::Firmware => keeps_version(version_in(&spot.value), &spot.value),
        PartWord::Ram => keeps_ram(version_in(&spot.owner.value), &spot.value),
        PartWord::Key => is_in_range(FIRST_KEY_TYPE, LAST_KEY_TYPE, number_in(&spot.value)),
        _ => true,
    }
}

/// F6 doesn't hold at a place: its numbers and lengths keep their limits.
pub fn keeps_limits(spot: &Spot) -> bool
    ensures { result ≡ spec.keeps_limits (spot_view spot.now) }
{
    keeps_each(&spot.value, members_of(spot.place.part)) && keeps_more(spot.place.part, spot)
}
