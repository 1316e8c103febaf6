//! The numbers of a firmware.

ghost use Rattle.std.specs.Prelude.{◌≡◌, ◌≤◌};
ghost use Rattle.def_gen.specs.Numbers as spec;

use def_gen::{
    COUNTS, FEWEST, GLOBALS_UNIT, INCREMENT, LEAST_DATA, MOST_GLOBALS_UNITS, MOST_OBJECT_UNITS,
    MULTIPLIER, OBJECT_SHIFT, OBJECT_UNIT,
};

/// How many compartments there are.
pub(crate) fn count_of(number: u32) -> u32
    ensures value { result ≡ spec.count_of number }
    ensures few { result ≤ 64 }
{
    FEWEST + number % COUNTS
}

/// The number after another in the row of numbers.
pub(crate) fn following(x: u32) -> u32
    ensures { result ≡ spec.following x }
{
    let sum = u64::from(x) * u64::from(MULTIPLIER) + u64::from(INCREMENT);
    (sum % 0x1_0000_0000) as u32
}

/// Bytes of a compartment's globals, by its number.
pub(crate) fn globals_of(y: u32) -> u32
    ensures { result ≡ spec.globals_of y }
{
    GLOBALS_UNIT * (1 + y % MOST_GLOBALS_UNITS)
}

/// Whether calls of a compartment pass data alone, by its number.
pub(crate) fn passes_data(y: u32) -> bool
    ensures { result ≡ spec.passes_data y }
{
    y >= LEAST_DATA
}

/// Bytes that a compartment allocates, by its number.
pub(crate) fn object_size(y: u32) -> u32
    ensures { result ≡ spec.object_size y }
{
    OBJECT_UNIT * (1 + y / OBJECT_SHIFT % MOST_OBJECT_UNITS)
}
