//! What tests assert.

use std::process::Abort;

/// What a test finds, by a name.
pub fn is(rt: &impl Abort, found: bool, told: &str) {
    assert!(rt; found, "{told}");
}

/// What a test finds, by the name of a row and its number.
pub fn at(rt: &impl Abort, found: bool, row: &str, number: u64) {
    assert!(rt; found, "{row} {number}");
}
