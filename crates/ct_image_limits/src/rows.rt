//! What is asked of rows of 16 bytes.

ghost use Rattle.std.specs.Prelude.{◌≡◌, ◌≤◌, ◌<◌, ◌+◌, ◌^◌};
ghost use Rattle.def_image.specs.Limits as spec;
ghost use Rattle.ct_image_limits.specs.Owners.{bounds_of};

use crate::checks::{are_zeros, check, outside};
use def_image::Check;
use def_native::LAST_NATIVE;
use def_profile::limits::{MOST_ARGUMENTS, MOST_QUOTA, MOST_STACK};
use def_profile::seals::{FIRST_KEY_TYPE, LAST_KEY_TYPE};

/// What an export may ask for, at most, and its least posture: the stack in bytes, arguments, and
/// the bytes of posture and passing.
#[derive(Clone, Copy, Drop)]
pub(crate) struct Bounds {
    pub stack: u32,
    pub args: u8,
    pub posture: u8,
    pub passes: u8,
}

/// An export of a compartment.
pub(crate) const COMPARTMENT_BOUNDS: Bounds = Bounds {
    stack: MOST_STACK,
    args: MOST_ARGUMENTS as u8,
    posture: 2,
    passes: 2,
};

/// An export of a library.
pub(crate) const LIBRARY_BOUNDS: Bounds = Bounds {
    stack: 0,
    args: 0,
    posture: 1,
    passes: 1,
};

/// The number at an offset of a row.
pub(crate) fn number_at(row: &[u8; 16], at: usize) -> u32
    requires { at + 4 ≤ 16 }
    ensures { result ≡ spec.number_field row.now at }
{
    u32::from_le_bytes([row[at], row[at + 1], row[at + 2], row[at + 3]])
}

/// Whether the first number of an import row is outside its limit, by the byte of its kind.
fn misnumbered(kind: u8, number: u32) -> bool
    ensures { result ≡ spec.misnumbered kind number }
{
    match kind {
        1 => LAST_NATIVE < number,
        7 => MOST_QUOTA < number,
        8 => outside(FIRST_KEY_TYPE, LAST_KEY_TYPE, number),
        _ => false,
    }
}

/// Whether an import row has a second number: a call or a library.
fn has_second(kind: u8) -> bool
    ensures { result ≡ spec.has_second kind }
{
    kind == 5 || kind == 6
}

/// What is asked of an import row.
#[tactic(auto, unfolding(def_image::specs::Limits::row_limits))]
pub(crate) fn row_checks(at: u32, row: &[u8; 16]) -> [Check; 6]
    requires { at + 16 < 2 ^ 32 }
    ensures { result ≡ spec.row_limits at row.now }
{
    let kind = row[0];
    [
        check(at, !(1 <= kind && kind <= 8)),
        check(at + 1, 63 < row[1]),
        check(at + 2, !are_zeros(&row[2..4])),
        check(at + 4, misnumbered(kind, number_at(row, 4))),
        check(at + 8, !has_second(kind) && number_at(row, 8) != 0),
        check(at + 12, number_at(row, 12) != 0),
    ]
}

/// What is asked of the row of an export whose entry has this number, in a text of so many bytes.
#[tactic(auto, unfolding(def_image::specs::Limits::gate_limits))]
pub(crate) fn gate_checks(
    bounds: Bounds,
    text: u32,
    entry: u32,
    at: u32,
    row: &[u8; 16],
) -> [Check; 7]
    requires { at + 16 < 2 ^ 32 }
    ensures { result ≡ spec.gate_limits (bounds_of bounds) text entry at row.now }
{
    let offset = number_at(row, 0);
    let posture = row[9];
    let passes = row[10];
    [
        check(at, offset % 4 != 0 || text <= offset),
        check(at + 4, bounds.stack < number_at(row, 4)),
        check(at + 8, bounds.args < row[8]),
        check(at + 9, !(bounds.posture <= posture && posture <= 3)),
        check(at + 10, !(1 <= passes && passes <= bounds.passes)),
        check(at + 11, row[11] != 0),
        check(at + 12, number_at(row, 12) != entry),
    ]
}
