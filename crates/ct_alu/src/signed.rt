//! Shifts and comparisons (RISC-V Unprivileged ISA, "Integer Computational Instructions").

ghost use Rattle.std.specs.Prelude.{◌≡◌, int_lt};
ghost use Rattle.def_instr.specs.Results.{signed, shifted_left, shifted_right, shifted_right_signed};

/// Whether x is less than y, as signed numbers.
pub(crate) fn is_less_signed(x: u32, y: u32) -> bool
    ensures { result ≡ int_lt (signed x) (signed y) }
{
    x.cast_signed() < y.cast_signed()
}

/// Shifts left by the low five bits of the amount.
pub(crate) fn shift_left(x: u32, by: u32) -> u32
    ensures { result ≡ shifted_left x by }
{
    x.wrapping_shl(by)
}

/// Shifts right by the low five bits of the amount, filling with zeros.
pub(crate) fn shift_right(x: u32, by: u32) -> u32
    ensures { result ≡ shifted_right x by }
{
    x.wrapping_shr(by)
}

/// Shifts right by the low five bits of the amount, filling with the sign.
pub(crate) fn shift_right_signed(x: u32, by: u32) -> u32
    ensures { result ≡ shifted_right_signed x by }
{
    x.cast_signed().wrapping_shr(by).cast_unsigned()
}
