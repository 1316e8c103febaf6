//! The lines of a policy, one after another.

ghost use Rattle.std.specs.Prelude.{ℕ, ◌≡◌, ◌+◌, ◌<◌, ◌^◌, ◌++◌, ◌∷◌, [], length, MatchResult};
ghost use Rattle.def_image.specs.Sound.{Sound};
ghost use Rattle.def_policy.specs.Texts.{IsPolicyCause, ReadsAsPolicy};
ghost use Rattle.ct_policy.specs.Going.{Going, IsRefusal, Takes};
ghost use Rattle.ct_policy.specs.Kept.{AreKept};

use crate::forms::rule_of;
use crate::rulings::{Ruling, ruling_of};
use crate::words::first_line;
use ct_image_parts::Parts;
use def_policy::PolicyFault;
use std::alloc::Global;

/// A fault of the line after these.
fn fault(rulings: &Vec<Ruling>, number: u32) -> PolicyFault
    requires { length rulings.now.items + 1 < 2 ^ 32 }
    ensures { result ≡ PolicyFault.At number (length rulings.now.items + 1) }
{
    PolicyFault::At {
        number,
        line: rulings.len() as u32 + 1,
    }
}

/// Keeps what the line that begins what is left means, and gives what follows it.
fn take_line<'a>(
    alloc: Global,
    parts: &Parts,
    rulings: &mut Vec<Ruling>,
    left: &'a [u8],
) -> Result<&'a [u8], PolicyFault>
    requires sound { Sound parts.now }
    requires some { 0 < length left.now }
    requires short { length rulings.old.items + length left.now < 2 ^ 32 }
    ensures { MatchResult result
        (λ rest. Takes parts.now rulings.old.items rulings.new.items left.now rest.now)
        (λ fault. IsRefusal parts.now (length rulings.old.items) left.now fault) }
{
    let line = match first_line(alloc, left) {
        Ok(Some(line)) => line,
        Ok(None) => return Err(fault(rulings, 1)),
        Err(_) => return Err(PolicyFault::NoMemory),
    };
    let rule = match rule_of(line.words.as_slice()) {
        Some(rule) => rule,
        None => return Err(fault(rulings, 1)),
    };
    let ruling = match ruling_of(alloc, parts, rule) {
        Ok(Some(ruling)) => ruling,
        Ok(None) => return Err(fault(rulings, 2)),
        Err(_) => return Err(PolicyFault::NoMemory),
    };
    match rulings.push(ruling) {
        Ok(()) => Ok(line.rest),
        Err(_) => Err(PolicyFault::NoMemory),
    }
}

/// All lines of a text.
#[tactic(auto, using(crate::proofs::Accounts::starts))]
pub(crate) fn read_lines(
    alloc: Global,
    bytes: &[u8],
    parts: &Parts,
) -> Result<Vec<Ruling>, PolicyFault>
    requires sound { Sound parts.now }
    requires short { length bytes.now < 2 ^ 32 }
    ensures { MatchResult result
        (λ v. ReadsAsPolicy parts.now bytes.now v.items × AreKept v.items)
        (λ fault. IsPolicyCause parts.now bytes.now fault) }
{
    let mut rulings = Vec::new(alloc);
    let mut left = bytes;
    while !left.is_empty() {
        match take_line(alloc, parts, &mut rulings, left) {
            Ok(rest) => left = rest,
            Err(fault) => return Err(fault),
        }
    }
    Ok(rulings)
}
