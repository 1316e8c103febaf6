//! F8 and F9: rights and services that aren't listed.

ghost use Rattle.std.specs.Prelude.{◌≡◌, map, IfOk};
ghost use Rattle.def_texts.specs.Names.{among};
ghost use Rattle.def_desc.specs.References as spec;
ghost use Rattle.def_desc.specs.WellFormed.{first_failing as first_of};
ghost use Rattle.def_desc.specs.Walk.{spots_of as spots_in};
ghost use Rattle.ct_json.specs.Values.{data_of};
ghost use Rattle.ct_desc_value.specs.Seen.{spot_view};

use ct_desc_rows::target_at;
use ct_desc_value::members::text_or;
use ct_desc_value::tables::service_of;
use ct_desc_value::{Spot, spots_of};
use ct_json::Json;
use def_desc::tables::{DEVICE_RIGHTS, SHARED_RIGHTS};
use def_desc::{Form, PartWord, Place};
use def_native::LAST_NATIVE;
use std::alloc::AllocError;

/// A rule that is judged at each place by what stands there.
#[derive(Clone, Copy, PartialEq, Eq, Drop)]
pub(crate) enum Rule {
    /// F8: rights are listed for their kind.
    Rights,
    /// F9: services are listed.
    Services,
}

fn is_one_of(text: &str, texts: &[&'static str]) -> bool
    ensures { result ≡ among text.now (map (λ t. t.now) texts.now) }
{
    for choice in texts {
        if text == *choice {
            return true;
        }
    }
    false
}

#[tactic(auto, unfolding(def_desc::specs::Tables::device_rights, def_desc::specs::Tables::shared_rights))]
fn rights_fit(form: Form, rights: &str) -> bool
    ensures { result ≡ spec.rights_fit form rights.now }
{
    match form {
        Form::Device => is_one_of(rights, &DEVICE_RIGHTS),
        Form::Shared => is_one_of(rights, &SHARED_RIGHTS),
        _ => true,
    }
}

fn rights_fit_at(spot: &Spot) -> bool
    ensures { result ≡ spec.rights_fit_at (spot_view spot.now) }
{
    match spot.place.part {
        PartWord::Import => match target_at(&spot.value) {
            Some(target) => rights_fit(target.form, text_or(&spot.value, "rights")),
            None => true,
        },
        _ => true,
    }
}

fn is_taken(name: &str) -> bool
    ensures { result ≡ spec.is_served Form.Service name.now }
{
    match service_of(name.as_bytes()) {
        Some(number) => number <= LAST_NATIVE,
        None => false,
    }
}

fn is_served(form: Form, name: &str) -> bool
    ensures { result ≡ spec.is_served form name.now }
{
    match form {
        Form::Service => is_taken(name),
        _ => true,
    }
}

fn is_served_at(spot: &Spot) -> bool
    ensures { result ≡ spec.is_served_at (spot_view spot.now) }
{
    match spot.place.part {
        PartWord::Import => match target_at(&spot.value) {
            Some(target) => is_served(target.form, target.name),
            None => true,
        },
        _ => true,
    }
}

impl Rule {
    ghost use Rattle.ct_desc.specs.Judged.{test_of};

    /// The rule holds at a place.
    fn holds(self, spot: &Spot) -> bool
        ensures { result ≡ test_of self (spot_view spot.now) }
    {
        match self {
            Rule::Rights => rights_fit_at(spot),
            Rule::Services => is_served_at(spot),
        }
    }

    /// The first place of a value at which the rule doesn't hold.
    pub fn first_failing(self, value: &Json) -> Result<Option<Place>, AllocError>
        ensures { IfOk result
            (λ p. p ≡ first_of (test_of self) (spots_in (data_of value.now))) }
    {
        let mut spots = spots_of(value);
        while let Some(spot) = spots.next()? {
            if !self.holds(&spot) {
                return Ok(Some(spot.place));
            }
        }
        Ok(None)
    }
}
