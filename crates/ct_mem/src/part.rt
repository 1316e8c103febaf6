//! Some bytes of a word.

ghost use Rattle.std.specs.Prelude.{◌≡◌, ◌+◌, ◌≤◌, ◌*◌, ◌^◌, ◌<◌};
ghost use Rattle.def_memory.specs.Accesses.{part_of, with_part};

/// `width` bytes of a word from byte `from` on, as a number; byte 0 is the lowest.
#[tactic(auto, using(crate::proofs::Parts::part_small, crate::proofs::Parts::unit_fits, crate::proofs::Parts::span_fits))]
pub(crate) fn part(word: u64, from: u32, width: u32) -> u32
    requires width { width ≤ 4 }
    requires inside { from + width ≤ 8 }
    requires some { from < 8 }
    ensures { result ≡ part_of word from width }
{
    ((word >> (8 * from)) % (1u64 << (8 * width))) as u32
}

/// The word with the low `width` bytes of a value in place of its own, from byte `from` on.
#[tactic(auto, using(crate::proofs::Parts::part_small, crate::proofs::Parts::unit_fits, crate::proofs::Parts::span_fits, crate::proofs::Parts::part_within, crate::proofs::Parts::replaced_fits, crate::proofs::Parts::replaced_is))]
pub(crate) fn replace(word: u64, from: u32, width: u32, value: u32) -> u64
    requires width { width ≤ 4 }
    requires inside { from + width ≤ 8 }
    requires some { from < 8 }
    ensures { result ≡ with_part word from width value }
{
    let unit = 1u64 << (8 * from);
    let span = 1u64 << (8 * width);
    let old = (word / unit) % span;
    let new = value as u64 % span;
    word - old * unit + new * unit
}
