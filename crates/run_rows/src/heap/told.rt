//! What is answered, as lines.

use crate::common::{add, truth};
use crate::heap::swept::Swept;
use ct_heap::{Found, HeapRefusal, NotWhole, Object};
use std::alloc::{AllocError, Global};

/// An object: its number, its address, its length, and what its quota's live objects take.
fn add_object(alloc: Global, object: Object, out: &mut String) -> Result<(), AllocError> {
    let Object {
        number,
        base,
        length,
        live,
    } = object;
    add(format!(in alloc; "{number} {base} {length} {live}"), out)
}

/// An allocation's answer: the object, or why there is none.
pub fn add_allocated(
    alloc: Global,
    answer: Result<Object, HeapRefusal>,
    out: &mut String,
) -> Result<(), AllocError> {
    match answer {
        Ok(object) => add_object(alloc, object, out)?,
        Err(HeapRefusal::Size) => out.push_str("Size")?,
        Err(HeapRefusal::Quota) => out.push_str("Quota")?,
        Err(HeapRefusal::NoGap) => out.push_str("NoGap")?,
    }
    out.push_str("\n")
}

/// A free's answer.
pub fn add_freed(
    alloc: Global,
    answer: Result<Object, NotWhole>,
    out: &mut String,
) -> Result<(), AllocError> {
    match answer {
        Ok(object) => add_object(alloc, object, out)?,
        Err(NotWhole) => out.push_str("NotWhole")?,
    }
    out.push_str("\n")
}

/// What was found: the object and its quota.
pub fn add_found(alloc: Global, answer: Option<Found>, out: &mut String) -> Result<(), AllocError> {
    match answer {
        Some(found) => {
            add_object(alloc, found.object, out)?;
            let quota = found.quota;
            add(format!(in alloc; " of {quota}"), out)?;
        }
        None => out.push_str("none")?,
    }
    out.push_str("\n")
}

/// What is left to each quota, and whether an object is quarantined.
pub fn add_left(alloc: Global, swept: &Swept, out: &mut String) -> Result<(), AllocError> {
    let waits = truth(swept.quarantined());
    let (a, b, c) = (swept.remaining(0), swept.remaining(1), swept.remaining(2));
    add(
        format!(in alloc; "left {a} {b} {c}, quarantined {waits}\n"),
        out,
    )
}

/// Begins a sweep, and adds whether one began.
pub fn add_begun(alloc: Global, swept: &mut Swept, out: &mut String) -> Result<(), AllocError> {
    let begun = truth(swept.begin());
    add(format!(in alloc; "begin: {begun}\n"), out)
}
