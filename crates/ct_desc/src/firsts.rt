//! F2 to F6 in one walk over the places: the first place of each rule so far.

ghost use Rattle.std.specs.Prelude.{◌≡◌, [], ◌∷◌, List, IfOk, OnOk};
ghost use Rattle.def_desc.specs.Names.{spot_name};
ghost use Rattle.def_desc.specs.Walk.{Spot as SpotRow, spots_of as spots_in};
ghost use Rattle.ct_json.specs.Values.{data_of};
ghost use Rattle.ct_desc_value.specs.Seen.{spot_view, spots_left};
ghost use Rattle.ct_desc.specs.Judged.{after_kinds, after_members, after_names, after_twice, after_limits, place_faults};

use crate::fault;
use crate::naming::{is_well_named, name_at};
use crate::spaces::Spaces;
use ct_desc_value::{Spot, Spots, has_kinds, has_only, keeps_limits, spots_of};
use ct_json::Json;
use ct_keyed::HashKey;
use def_desc::{Fault, Place};
use std::alloc::{AllocError, Global};

/// The first place at which each rule fails, of the places so far, and the names of each space. Where
/// a rule fails at a place, those after it are judged neither there nor later: their faults have
/// greater numbers.
#[derive(Drop)]
struct Firsts {
    kinds: Option<Place>,
    members: Option<Place>,
    names: Option<Place>,
    twice: Option<Place>,
    limits: Option<Place>,
    spaces: Spaces,
}

impl Firsts {
    /// Nothing is judged yet of a text that has this key.
    #[tactic(auto, unfolding(crate::specs::Judged::place_faults, crate::specs::Judged::after_kinds, crate::specs::Judged::after_members, crate::specs::Judged::after_names, crate::specs::Judged::after_twice, crate::specs::Judged::after_limits))]
    fn new(alloc: Global, key: HashKey) -> Firsts
        ensures { (ss : List SpotRow) → after_kinds result ss ≡ place_faults ss }
    {
        Firsts {
            kinds: None,
            members: None,
            names: None,
            twice: None,
            limits: None,
            spaces: Spaces::new(alloc, key),
        }
    }

    /// F6.
    #[tactic(auto, using(crate::proofs::Places::has_failed, crate::proofs::Places::passes, crate::proofs::Places::fails), unfolding(crate::specs::Judged::after_limits))]
    fn judge_limits(&mut self, spot: &Spot)
        ensures kept { self.new ≡ record self.old { limits = self.new.limits } }
        ensures judged { (ss : List SpotRow)
            → after_limits self.new ss ≡ after_limits self.old (spot_view spot.now ∷ ss) }
    {
        if self.limits.is_some() || keeps_limits(spot) {
            return;
        }
        self.limits = Some(spot.place);
    }

    /// F5, and then F6.
    #[tactic(auto, using(crate::proofs::Places::has_failed, crate::proofs::Places::new_name, crate::proofs::Places::known_name), unfolding(crate::specs::Judged::after_twice, crate::specs::Judged::after_limits))]
    fn judge_twice(&mut self, alloc: Global, spot: &Spot, name: &str) -> Result<(), AllocError>
        requires { name.now ≡ spot_name (spot_view spot.now) }
        ensures kinds { self.new.kinds ≡ self.old.kinds }
        ensures members { self.new.members ≡ self.old.members }
        ensures names { self.new.names ≡ self.old.names }
        ensures judged { OnOk result ((ss : List SpotRow)
            → after_twice self.new ss ≡ after_twice self.old (spot_view spot.now ∷ ss)) }
    {
        if self.twice.is_some() {
            return Ok(());
        }
        if self.spaces.add(alloc, spot.place.part, name)? {
            self.twice = Some(spot.place);
            return Ok(());
        }
        self.judge_limits(spot);
        Ok(())
    }

    /// F4, and then F5 and F6.
    #[tactic(auto, using(crate::proofs::Places::has_failed, crate::proofs::Places::passes, crate::proofs::Places::fails), unfolding(crate::specs::Judged::after_names))]
    fn judge_names(&mut self, alloc: Global, spot: &Spot) -> Result<(), AllocError>
        ensures kinds { self.new.kinds ≡ self.old.kinds }
        ensures members { self.new.members ≡ self.old.members }
        ensures judged { OnOk result ((ss : List SpotRow)
            → after_names self.new ss ≡ after_names self.old (spot_view spot.now ∷ ss)) }
    {
        if self.names.is_some() {
            return Ok(());
        }
        let name = name_at(alloc, spot.place.part, &spot.value)?;
        if !is_well_named(spot.place.part, name.as_str()) {
            self.names = Some(spot.place);
            return Ok(());
        }
        self.judge_twice(alloc, spot, name.as_str())
    }

    /// F3, and then F4 to F6.
    #[tactic(auto, using(crate::proofs::Places::has_failed, crate::proofs::Places::passes, crate::proofs::Places::fails), unfolding(crate::specs::Judged::after_members))]
    fn judge_members(&mut self, alloc: Global, spot: &Spot) -> Result<(), AllocError>
        ensures kinds { self.new.kinds ≡ self.old.kinds }
        ensures judged { OnOk result ((ss : List SpotRow)
            → after_members self.new ss ≡ after_members self.old (spot_view spot.now ∷ ss)) }
    {
        if self.members.is_some() {
            return Ok(());
        }
        if !has_only(spot) {
            self.members = Some(spot.place);
            return Ok(());
        }
        self.judge_names(alloc, spot)
    }

    /// F2, and then F3 to F6.
    #[tactic(auto, using(crate::proofs::Places::has_failed, crate::proofs::Places::passes, crate::proofs::Places::fails), unfolding(crate::specs::Judged::after_kinds))]
    fn judge(&mut self, alloc: Global, spot: &Spot) -> Result<(), AllocError>
        ensures { OnOk result ((ss : List SpotRow)
            → after_kinds self.new ss ≡ after_kinds self.old (spot_view spot.now ∷ ss)) }
    {
        if self.kinds.is_some() {
            return Ok(());
        }
        if !has_kinds(spot) {
            self.kinds = Some(spot.place);
            return Ok(());
        }
        self.judge_members(alloc, spot)
    }

    /// F2 to F6 at each of these places, in order.
    fn judge_all(&mut self, alloc: Global, mut spots: Spots) -> Result<(), AllocError>
        ensures { OnOk result
            (after_kinds self.new [] ≡ after_kinds self.old (spots_left spots.entry)) }
    {
        while let Some(spot) = spots.next()? {
            self.judge(alloc, &spot)?;
        }
        Ok(())
    }

    /// The least fault, where no more places follow.
    #[tactic(auto, using(crate::proofs::Places::no_more), unfolding(crate::specs::Judged::after_kinds, crate::specs::Judged::after_members, crate::specs::Judged::after_names, crate::specs::Judged::after_twice, crate::specs::Judged::after_limits))]
    fn least(&self) -> Option<Fault>
        ensures { result ≡ after_kinds self.now [] }
    {
        if let Some(place) = self.kinds {
            return fault(2, place);
        }
        if let Some(place) = self.members {
            return fault(3, place);
        }
        if let Some(place) = self.names {
            return fault(4, place);
        }
        if let Some(place) = self.twice {
            return fault(5, place);
        }
        match self.limits {
            Some(place) => fault(6, place),
            None => None,
        }
    }
}

/// F2 to F6, which need what stands at the places alone.
pub(crate) fn place_fault(
    alloc: Global,
    key: HashKey,
    value: &Json,
) -> Result<Option<Fault>, AllocError>
    ensures { IfOk result (λ f. f ≡ place_faults (spots_in (data_of value.now))) }
{
    let mut firsts = Firsts::new(alloc, key);
    let judged = firsts.judge_all(alloc, spots_of(value));
    let least = firsts.least();
    drop(firsts);
    match judged {
        Ok(()) => Ok(least),
        Err(error) => Err(error),
    }
}
