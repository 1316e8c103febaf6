//! Multiplication and division (RISC-V Unprivileged ISA, "M Extension").

ghost use Rattle.std.specs.Prelude.{◌≡◌, ◌*◌, ◌/◌, ◌-◌, ◌%◌, ◌^◌, ◌==◌, if◌then◌else◌, pos, ◌*ℤ◌, int_div, int_rem, ◌+◌};
ghost use Rattle.def_instr.specs.Results.{signed, high_word, low_word};

/// The high word of the product of two signed numbers.
pub(crate) fn high_signed(x: u32, y: u32) -> u32
    ensures { result ≡ high_word (signed x *ℤ signed y) }
{
    high(x.cast_signed() as i64 * y.cast_signed() as i64)
}

/// The high word of the product of a signed and an unsigned number.
pub(crate) fn high_signed_unsigned(x: u32, y: u32) -> u32
    ensures { result ≡ high_word (signed x *ℤ pos y) }
{
    high(x.cast_signed() as i64 * y as i64)
}

/// The high word of the product of two unsigned numbers.
pub(crate) fn high_unsigned(x: u32, y: u32) -> u32
    ensures { result ≡ high_word (pos (x * y)) }
{
    ((x as u64 * y as u64) >> 32) as u32
}

/// The word above the low 32 bits.
fn high(product: i64) -> u32
    ensures { result ≡ high_word product }
{
    (product.cast_unsigned() >> 32) as u32
}

/// The quotient of signed numbers, rounded toward zero; all ones where the divisor is 0.
pub(crate) fn quotient(x: u32, y: u32) -> u32
    ensures { result ≡ (if y == 0 then 2 ^ 32 - 1 else low_word (int_div (signed x) (signed y))) }
{
    if y == 0 {
        return u32::MAX;
    }
    x.cast_signed()
        .wrapping_div(y.cast_signed())
        .cast_unsigned()
}

/// The quotient of unsigned numbers; all ones where the divisor is 0.
pub(crate) fn quotient_unsigned(x: u32, y: u32) -> u32
    ensures { result ≡ (if y == 0 then 2 ^ 32 - 1 else x / y) }
{
    x.checked_div(y).unwrap_or(u32::MAX)
}

/// The remainder of signed numbers, with the dividend's sign; the dividend where the divisor is 0.
pub(crate) fn remainder(x: u32, y: u32) -> u32
    ensures { result ≡ (if y == 0 then x else low_word (int_rem (signed x) (signed y))) }
{
    if y == 0 {
        return x;
    }
    x.cast_signed()
        .wrapping_rem(y.cast_signed())
        .cast_unsigned()
}

/// The remainder of unsigned numbers; the dividend where the divisor is 0.
pub(crate) fn remainder_unsigned(x: u32, y: u32) -> u32
    ensures { result ≡ (if y == 0 then x else x % y) }
{
    x.checked_rem(y).unwrap_or(x)
}
