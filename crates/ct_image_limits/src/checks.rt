//! Checks at their places, and the first that fails.

ghost use Rattle.std.specs.Prelude.{◌≡◌, ◌<◌, ◌+◌, ◌^◌, length};
ghost use Rattle.def_image.specs.Checks as spec;
ghost use Rattle.def_image.specs.Limits as limits;
ghost use Rattle.def_image.specs.Profile as profile;
ghost use Rattle.def_image.specs.First.{first_some};

use ct_image_fields::name_of;
use ct_texts::is_name;
use def_image::Check;

/// A check at a place.
pub(crate) fn check(place: u32, fails: bool) -> Check
    ensures { result ≡ spec.check place fails }
{
    Check { place, fails }
}

/// The place of the first check that fails.
#[tactic(auto, unfolding(def_image::specs::Checks::first))]
pub(crate) fn first(checks: &[Check]) -> Option<u32>
    ensures { result ≡ spec.first checks.now }
{
    for check in checks {
        if check.fails {
            return Some(check.place);
        }
    }
    None
}

/// The first of two places, where there is one.
pub(crate) fn earlier_of(first: Option<u32>, second: Option<u32>) -> Option<u32>
    ensures { result ≡ first_some first second }
{
    match first {
        Some(place) => Some(place),
        None => second,
    }
}

/// Whether a number is outside a range, whose ends belong to it.
pub(crate) fn outside(low: u32, high: u32, number: u32) -> bool
    ensures { result ≡ profile.outside low high number }
{
    !(low <= number && number <= high)
}

/// Whether all bytes are zero.
pub(crate) fn are_zeros(bytes: &[u8]) -> bool
    ensures { result ≡ limits.are_zeros bytes.now }
{
    bytes.iter().all(|byte| *byte == 0)
}

/// What is asked of a name's field: the name's form, that it isn't repeated or unwanted, and the
/// zeros that pad it.
pub(crate) fn name_checks(at: u32, repeated: bool, unwanted: bool, field: &[u8]) -> [Check; 2]
    requires { at + length field.now < 2 ^ 32 }
    ensures { result ≡ limits.checks_of_name at repeated unwanted field.now }
{
    let name = name_of(field);
    [
        check(at, !is_name(name) || repeated || unwanted),
        check(at + name.len() as u32, !are_zeros(&field[name.len()..])),
    ]
}
