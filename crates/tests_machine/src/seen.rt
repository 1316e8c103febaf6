//! What the tests of this crate assert by. Each function owns nothing, so its ends cost little.

ghost use Rattle.std.specs.Prelude.{IsTrue};

use std::process::Abort;

/// What is seen at this row of a test is as it is expected.
pub fn is(rt: &impl Abort, row: usize, seen: bool)
    ensures { IsTrue seen }
{
    assert!(rt; seen, "row {row}");
}
