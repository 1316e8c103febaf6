//! The sources of a firmware.

ghost use Rattle.std.specs.Prelude.{◌≡◌, ◌≤◌, ◌<◌, ◌++◌, IfOk, decimal, map, string_bytes};
ghost use Rattle.std.specs.List.{flat_map};
ghost use Rattle.def_gen.specs.Sources as spec;

use crate::numbers::{count_of, following, object_size};
use std::alloc::{AllocError, Global};

/// What stands before the size of the memory that a compartment takes.
const BEFORE_SIZE: &'static str = "go: cincaddrimm csp, csp, -16
 csc cra, 8(csp)
 cimport ca0, q
 li a1, ";

/// What stands after it.
const AFTER_SIZE: &'static str = "
 cimport ct2, allocate
 cjalr cra, ct2
 csc ca0, 0(csp)
";

/// The call of the next compartment.
const PASSING_ON: &'static str = " cimport ct1, next
 cimport ct2, switch
 cjalr cra, ct2
";

/// What stands before the compartment's index.
const BEFORE_INDEX: &'static str = " clc ca1, 0(csp)
 cimport ca0, q
 cimport ct2, free
 cjalr cra, ct2
 cimport ct0, uart
 li a0, ";

/// What stands after it.
const AFTER_INDEX: &'static str = "
 csb a0, 0(ct0)
 clc cra, 8(csp)
 cincaddrimm csp, csp, 16
 cret
";

/// The call of the next compartment, which the last one doesn't have.
fn passing_unless(last: bool) -> &'static str
    ensures { result.now ≡ flat_map spec.line (spec.passing_unless last) }
{
    if last { "" } else { PASSING_ON }
}

fn digits_of(alloc: Global, n: u32) -> Result<String, AllocError>
    ensures { IfOk result (λ s. string_bytes s ≡ decimal n) }
{
    format!(in alloc; "{n}")
}

/// A number between two texts.
fn number_between(alloc: Global, before: &str, n: u32, after: &str) -> Result<String, AllocError>
    ensures { IfOk result (λ s. string_bytes s ≡ before.now ++ decimal n ++ after.now) }
{
    let digits = digits_of(alloc, n)?;
    let mut text = String::from_str(alloc, before)?;
    text.push_str(digits.as_str())?;
    text.push_str(after)?;
    Ok(text)
}

/// What stands before the call of the next compartment.
fn opening(alloc: Global, size: u32) -> Result<String, AllocError>
    ensures { IfOk result (λ s. string_bytes s ≡ flat_map spec.line (spec.opening size)) }
{
    let text = number_between(alloc, BEFORE_SIZE, size, AFTER_SIZE)?;
    Ok(text)
}

/// What stands after it.
fn closing(alloc: Global, i: u32) -> Result<String, AllocError>
    ensures { IfOk result (λ s. string_bytes s ≡ flat_map spec.line (spec.closing i)) }
{
    let text = number_between(alloc, BEFORE_INDEX, i, AFTER_INDEX)?;
    Ok(text)
}

/// The source of compartment `i`, which is the last one or not.
fn source_with(alloc: Global, last: bool, size: u32, i: u32) -> Result<String, AllocError>
    ensures { IfOk result (λ s. string_bytes s ≡ spec.source_with last size i) }
{
    let rest = closing(alloc, i)?;
    let mut text = opening(alloc, size)?;
    text.push_str(passing_unless(last))?;
    text.push_str(rest.as_str())?;
    Ok(text)
}

/// The source of compartment `i` of so many, by its number.
fn source_by(alloc: Global, count: u32, y: u32, i: u32) -> Result<String, AllocError>
    requires within { i < count }
    requires few { count ≤ 64 }
    ensures { IfOk result (λ s. string_bytes s ≡ spec.source_by count y i) }
{
    source_with(alloc, i + 1 == count, object_size(y), i)
}

/// All sources.
#[tactic(auto, unfolding(def_gen::specs::Sources::sources))]
pub(crate) fn texts(alloc: Global, number: u32) -> Result<Vec<String>, AllocError>
    ensures { IfOk result (λ v. map string_bytes v.items ≡ spec.sources number) }
{
    let count = count_of(number);
    let mut texts = Vec::new(alloc);
    let mut x = number;
    for i in 0..count {
        x = following(x);
        texts.push(source_by(alloc, count, x, i)?)?;
    }
    Ok(texts)
}
