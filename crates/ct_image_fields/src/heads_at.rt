//! Heads at the front of bytes.

ghost use Rattle.ct_image_fields.specs.Given.{Gives};
ghost use Rattle.ct_image_fields.specs.Reading as spec;

use crate::fault::Cut;
use crate::heads::{Bases, CodeHead, Counts, GlobalsHead};
use crate::numbers::{name_at, number_at};
use def_profile::limits::SWEEP_RATE;

/// How many members each list of the image has.
#[tactic(auto, unfolding(crate::specs::Reading::counts_at))]
pub(crate) fn counts_at(bytes: &[u8]) -> Result<(Counts, &[u8]), Cut>
    ensures { Gives (λ x. (x.0, x.1.now)) result (spec.counts_at bytes.now) }
{
    let (devices, rest) = number_at(bytes)?;
    let (shared, rest) = number_at(rest)?;
    let (sealed, rest) = number_at(rest)?;
    let (compartments, rest) = number_at(rest)?;
    let (libraries, rest) = number_at(rest)?;
    let (threads, rest) = number_at(rest)?;
    let counts = Counts {
        devices,
        shared,
        sealed,
        compartments,
        libraries,
        threads,
    };
    Ok((counts, rest))
}

/// The numbers of the whole image.
#[tactic(auto, unfolding(crate::specs::Reading::bases_at))]
pub(crate) fn bases_at(bytes: &[u8]) -> Result<(Bases, &[u8]), Cut>
    ensures { Gives (λ x. (x.0, x.1.now)) result (spec.bases_at bytes.now) }
{
    let (quantum, rest) = number_at(bytes)?;
    let (ram, rest) = number_at(rest)?;
    let (size, rest) = number_at(rest)?;
    let (trusted, rest) = number_at(rest)?;
    let (heap, rest) = number_at(rest)?;
    let bases = Bases {
        quantum,
        ram,
        size,
        trusted,
        heap,
    };
    Ok((bases, rest))
}

/// The sweep rate, which is a field from version 2 on.
#[tactic(auto, unfolding(crate::specs::Reading::sweep_at))]
pub(crate) fn sweep_at(version: u32, bytes: &[u8]) -> Result<(u32, &[u8]), Cut>
    ensures { Gives (λ x. (x.0, x.1.now)) result (spec.sweep_at version bytes.now) }
{
    if version == 1 {
        Ok((SWEEP_RATE, bytes))
    } else {
        number_at(bytes)
    }
}

/// The head of a compartment or library.
#[tactic(auto, unfolding(crate::specs::Reading::code_head_at))]
pub(crate) fn code_head_at(bytes: &[u8]) -> Result<(CodeHead, &[u8]), Cut>
    ensures { Gives (λ x. (x.0, x.1.now)) result (spec.code_head_at bytes.now) }
{
    let (name, rest) = name_at(bytes)?;
    let (base, rest) = number_at(rest)?;
    let (length, rest) = number_at(rest)?;
    let (text, rest) = number_at(rest)?;
    let head = CodeHead {
        name,
        base,
        length,
        text,
    };
    Ok((head, rest))
}

/// What stands after it in a compartment.
#[tactic(auto, unfolding(crate::specs::Reading::globals_head_at))]
pub(crate) fn globals_head_at(bytes: &[u8]) -> Result<(GlobalsHead, &[u8]), Cut>
    ensures { Gives (λ x. (x.0, x.1.now)) result (spec.globals_head_at bytes.now) }
{
    let (table, rest) = number_at(bytes)?;
    let (globals, rest) = number_at(rest)?;
    let (length, rest) = number_at(rest)?;
    let (initial, rest) = number_at(rest)?;
    let head = GlobalsHead {
        table,
        globals,
        length,
        initial,
    };
    Ok((head, rest))
}
