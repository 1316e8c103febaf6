//! The faults of a value, the least number first.

ghost use Rattle.std.specs.Prelude.{◌≡◌, IfOk, MatchResult};
ghost use Rattle.ct_json.specs.Values.{data_of};
ghost use Rattle.def_desc.specs.Walk.{spots_of};
ghost use Rattle.ct_desc.specs.Answers.{Good, Faulty};
ghost use Rattle.ct_desc.specs.Judged.{name_faults, row_faults, value_faults};

use crate::addresses::address_fault;
use crate::firsts::place_fault;
use crate::references::Named;
use crate::rules::Rule;
use crate::{DescFault, fault};
use ct_desc_rows::{Desc, rows_of};
use ct_json::Json;
use ct_keyed::HashKey;
use def_desc::Fault;
use std::alloc::{AllocError, Global};

/// F7 to F9, which need what may be named too.
#[tactic(auto, unfolding(crate::specs::Judged::name_faults))]
fn name_fault(named: &Named) -> Result<Option<Fault>, AllocError>
    ensures { IfOk result (λ f. f
        ≡ name_faults (data_of named.now.value) (spots_of (data_of named.now.value))) }
{
    if let Some(place) = named.first_unresolved()? {
        return Ok(fault(7, place));
    }
    if let Some(place) = Rule::Rights.first_failing(&named.value)? {
        return Ok(fault(8, place));
    }
    match Rule::Services.first_failing(&named.value)? {
        Some(place) => Ok(fault(9, place)),
        None => Ok(None),
    }
}

/// F10, which needs the rows.
fn row_fault(desc: &Desc) -> Result<Option<Fault>, AllocError>
    ensures { IfOk result (λ f. f ≡ row_faults desc.now) }
{
    match address_fault(desc)? {
        Some(place) => Ok(fault(10, place)),
        None => Ok(None),
    }
}

fn refused(fault: Fault) -> DescFault
    ensures { result
        ≡ DescFault.At fault.number fault.place.part fault.place.index fault.place.item }
{
    DescFault::At {
        number: fault.number,
        part: fault.place.part,
        index: fault.place.index,
        item: fault.place.item,
    }
}

/// The fault of a value before its rows are read.
fn value_fault(alloc: Global, key: HashKey, value: &Json) -> Result<Option<Fault>, AllocError>
    ensures { IfOk result (λ f. f ≡ value_faults (data_of value.now)) }
{
    if let Some(fault) = place_fault(alloc, key, value)? {
        return Ok(Some(fault));
    }
    let named = Named::of(alloc, key, value)?;
    let fault = name_fault(&named);
    drop(named);
    fault
}

/// The rows of a value that is a well-formed description, whose text has this key.
#[tactic(auto, using(crate::proofs::Steps::fault_in_steps))]
pub(crate) fn read_value(alloc: Global, key: HashKey, value: &Json) -> Result<Desc, DescFault>
    ensures { MatchResult result
        (λ d. Good (data_of value.now) d) (λ e. Faulty (data_of value.now) e) }
{
    if let Some(fault) = value_fault(alloc, key, value)? {
        return Err(refused(fault));
    }
    let desc = rows_of(alloc, value)?;
    match row_fault(&desc)? {
        Some(fault) => Err(refused(fault)),
        None => Ok(desc),
    }
}
