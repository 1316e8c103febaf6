//! What the tests of this crate assert by, and how they put values together.

ghost use Rattle.std.specs.Prelude.{◌≡◌, ◌<◌};

use std::alloc::AllocError;
use std::process::Abort;

/// What is seen at this row of a test's table is as it is expected.
pub fn is(rt: &impl Abort, row: usize, seen: bool) {
    assert!(rt; seen, "row {row}");
}

/// There are fewer than so many.
pub fn fewer(rt: &impl Abort, count: usize, bound: usize)
    ensures { count < bound }
{
    assert!(rt; count < bound);
}

/// There are so many.
pub fn count_is(rt: &impl Abort, count: usize, expected: usize)
    ensures { count ≡ expected }
{
    assert!(rt; count == expected);
}

/// Puts a value at the end of a list.
pub fn put<T: Drop>(list: &mut Vec<T>, value: T) -> Result<(), AllocError> {
    list.push(value)?;
    Ok(())
}

/// Puts what was made at the end of a list.
pub fn put_made<T: Drop>(list: &mut Vec<T>, made: Result<T, AllocError>) -> Result<(), AllocError> {
    put(list, made?)
}
