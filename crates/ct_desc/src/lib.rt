//! A description is read exactly: `read` answers the rows that the bytes stand for exactly where they
//! are a well-formed description, and otherwise the least fault that holds anywhere, at its first
//! place (docs/use/description.md; definitions in def_desc).
//!
//! JSON is read by ct_json. The places of the value are walked once for F2 to F6, all of which are
//! judged at a place before the next, and once for each of F7 to F9: members, limits and tables are
//! judged in ct_desc_value, rows are read in ct_desc_rows, and names, references and addresses are
//! judged here. Sets of names hash by a key of the text: a writer who
//! changes a name changes the key too.
#![tactic(auto)]

mod addresses;
mod firsts;
mod judge;
mod names;
mod naming;
mod references;
mod rules;
mod spaces;

ghost use Rattle.std.specs.Prelude.{◌≡◌, Some, MatchResult};
ghost use Rattle.def_desc.specs.WellFormed as spec;
ghost use Rattle.def_desc.specs.WellFormed.{WellFormed};
ghost use Rattle.ct_desc.specs.Answers.{Refused, unread_fault};

use ct_desc_rows::Desc;
use ct_json::{Document, Unread};
use ct_keyed::HashKey;
use def_desc::{Fault, PartWord, Place};
use json::Scratch;
use std::alloc::{AllocError, Global};
use thiserror::Error;

/// Why a description is not read.
#[derive(Clone, Copy, Debug, PartialEq, Eq, Drop, Error)]
pub enum DescFault {
    /// The least fault that holds anywhere, by the number after its F, and its first place.
    #[error("F{number} at index {index}, item {item}")]
    At {
        number: u32,
        part: PartWord,
        index: u32,
        item: u32,
    },
    /// Memory was wanted.
    #[error("out of memory")]
    NoMemory,
}

impl From<AllocError> for DescFault {
    ghost use Rattle.std.specs.Prelude.{◌≡◌};
    ghost use Rattle.ct_desc.specs.declared.DescFault.TheVariants.{NoMemory};

    ghost from_gives = { λ _ e. e ≡ NoMemory };

    fn from(_: AllocError) -> DescFault {
        DescFault::NoMemory
    }
}

fn fault(number: u32, place: Place) -> Option<Fault>
    ensures { result ≡ Some (spec.fault number place) }
{
    Some(Fault { number, place })
}

fn text_fault(e: Unread) -> DescFault
    ensures { result ≡ unread_fault e }
{
    match e {
        Unread::Invalid => DescFault::At {
            number: 1,
            part: PartWord::Firmware,
            index: 0,
            item: 0,
        },
        Unread::NoMemory => DescFault::NoMemory,
    }
}

/// Reads a description of a text.
fn read_text(alloc: Global, text: &str) -> Result<Desc, DescFault>
    ensures { MatchResult result (λ d. WellFormed text.now d) (λ e. Refused text.now e) }
{
    let mut scratch = Scratch::new(alloc);
    match Document::read(alloc, text, &mut scratch) {
        Ok(document) => judge::read_value(alloc, HashKey::of(text.as_bytes()), &document.root()),
        Err(e) => Err(text_fault(e)),
    }
}

/// Reads a description (docs/use/description.md; its faults: docs/use/errors.md). Ok comes exactly of a
/// well-formed description, with the rows that it stands for; `At` is exactly the least fault that
/// holds anywhere, at its first place. `NoMemory` is want of memory, and may come of any bytes.
pub fn read(alloc: Global, bytes: &[u8]) -> Result<Desc, DescFault>
    ensures { MatchResult result (λ d. WellFormed bytes.now d) (λ e. Refused bytes.now e) }
{
    match simdutf8::compat::from_utf8(bytes) {
        Ok(text) => read_text(alloc, text),
        Err(_) => Err(text_fault(Unread::Invalid)),
    }
}
