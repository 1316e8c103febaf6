//! Members of an image's lists at the front of bytes.

ghost use Rattle.std.specs.Prelude.{◌≡◌, ◌<◌};
ghost use Rattle.ct_image_fields.specs.Given.{Gives};
ghost use Rattle.ct_image_fields.specs.Reading as spec;
ghost use Rattle.def_image.specs.Spelling as spelling;

use crate::fault::Cut;
use crate::fields::{RawCode, RawCompartment, RawDevice, RawSealed, RawShared, RawThread};
use crate::heads::CodeHead;
use crate::heads_at::{code_head_at, globals_head_at};
use crate::lists::{Member, many_at};
use crate::numbers::{bytes_at, name_at, number_at, row_at};
use def_image::RawEntry;
use std::alloc::Global;

impl Member for RawEntry {
    ghost reads = { spec.entry_at };

    #[tactic(auto, unfolding(crate::specs::Reading::entry_at))]
    fn at(_alloc: Global, bytes: &[u8]) -> Result<(RawEntry, &[u8]), Cut> {
        let (row, rest) = row_at(bytes)?;
        let (name, rest) = name_at(rest)?;
        Ok((RawEntry { row, name }, rest))
    }
}

impl Member for RawDevice {
    ghost reads = { spec.device_at };

    #[tactic(auto, unfolding(crate::specs::Reading::device_at))]
    fn at(_alloc: Global, bytes: &[u8]) -> Result<(RawDevice, &[u8]), Cut> {
        let (name, rest) = name_at(bytes)?;
        let (kind, rest) = number_at(rest)?;
        let (base, rest) = number_at(rest)?;
        Ok((RawDevice { name, kind, base }, rest))
    }
}

impl Member for RawShared {
    ghost reads = { spec.shared_at };

    #[tactic(auto, unfolding(crate::specs::Reading::shared_at))]
    fn at(_alloc: Global, bytes: &[u8]) -> Result<(RawShared, &[u8]), Cut> {
        let (name, rest) = name_at(bytes)?;
        let (base, rest) = number_at(rest)?;
        let (length, rest) = number_at(rest)?;
        Ok((RawShared { name, base, length }, rest))
    }
}

/// How many zeros lead from this length to a multiple of 4.
fn padding_after(length: u32) -> u32
    ensures value { result ≡ spelling.padding_after length }
    ensures few { result < 4 }
{
    (4 - length % 4) % 4
}

impl Member for RawSealed {
    ghost reads = { spec.sealed_at };

    #[tactic(auto, unfolding(crate::specs::Reading::sealed_at))]
    fn at(alloc: Global, bytes: &[u8]) -> Result<(RawSealed, &[u8]), Cut> {
        let (name, rest) = name_at(bytes)?;
        let (base, rest) = number_at(rest)?;
        let (length, rest) = number_at(rest)?;
        let (seal, rest) = number_at(rest)?;
        let (count, rest) = number_at(rest)?;
        let (held, rest) = bytes_at(alloc, count, rest)?;
        let (padding, rest) = bytes_at(alloc, padding_after(count), rest)?;
        let sealed = RawSealed {
            name,
            base,
            length,
            seal,
            bytes: held,
            padding,
        };
        Ok((sealed, rest))
    }
}

/// Slots, exports and text of a compartment or library, after their counts.
#[tactic(auto, unfolding(crate::specs::Reading::code_at))]
fn code_at(
    alloc: Global,
    head: CodeHead,
    slots: u32,
    exports: u32,
    bytes: &[u8],
) -> Result<(RawCode, &[u8]), Cut>
    ensures { Gives (λ x. (x.0, x.1.now)) result (spec.code_at head slots exports bytes.now) }
{
    let (slots, rest) = many_at::<RawEntry>(alloc, slots, bytes)?;
    let (exports, rest) = many_at::<RawEntry>(alloc, exports, rest)?;
    let (text, rest) = bytes_at(alloc, head.text, rest)?;
    let name = head.name;
    let code = RawCode {
        name,
        base: head.base,
        length: head.length,
        slots,
        exports,
        text,
    };
    Ok((code, rest))
}

impl Member for RawCompartment {
    ghost reads = { spec.compartment_at };

    #[tactic(auto, unfolding(crate::specs::Reading::compartment_at))]
    fn at(alloc: Global, bytes: &[u8]) -> Result<(RawCompartment, &[u8]), Cut> {
        let (head, rest) = code_head_at(bytes)?;
        let (own, rest) = globals_head_at(rest)?;
        let (slots, rest) = number_at(rest)?;
        let (exports, rest) = number_at(rest)?;
        let (code, rest) = code_at(alloc, head, slots, exports, rest)?;
        let (initial, rest) = bytes_at(alloc, own.initial, rest)?;
        let (padding, rest) = bytes_at(alloc, padding_after(own.initial), rest)?;
        let compartment = RawCompartment {
            code,
            table: own.table,
            globals: own.globals,
            globals_length: own.length,
            initial,
            padding,
        };
        Ok((compartment, rest))
    }
}

impl Member for RawCode {
    ghost reads = { spec.library_at };

    #[tactic(auto, unfolding(crate::specs::Reading::library_at))]
    fn at(alloc: Global, bytes: &[u8]) -> Result<(RawCode, &[u8]), Cut> {
        let (head, rest) = code_head_at(bytes)?;
        let (slots, rest) = number_at(rest)?;
        let (exports, rest) = number_at(rest)?;
        code_at(alloc, head, slots, exports, rest)
    }
}

impl Member for RawThread {
    ghost reads = { spec.thread_at };

    #[tactic(auto, unfolding(crate::specs::Reading::thread_at))]
    fn at(_alloc: Global, bytes: &[u8]) -> Result<(RawThread, &[u8]), Cut> {
        let (name, rest) = name_at(bytes)?;
        let (stack, rest) = number_at(rest)?;
        let (stack_length, rest) = number_at(rest)?;
        let (compartment, rest) = number_at(rest)?;
        let (export, rest) = number_at(rest)?;
        let (priority, rest) = number_at(rest)?;
        let (frames, rest) = number_at(rest)?;
        let thread = RawThread {
            name,
            stack,
            stack_length,
            compartment,
            export,
            priority,
            frames,
        };
        Ok((thread, rest))
    }
}
