//! Numbers as they are written.

ghost use Rattle.std.specs.Prelude.{◌≡◌, ◌≤◌, ◌+◌, ◌*◌, ◌-◌, ◌^◌, nat_le, nat_lt, if◌then◌else◌, Some, None};
ghost use Rattle.std.specs.Char.{is_ascii_digit};
ghost use Rattle.def_source.specs.Source as source;

use crate::characters::{are_digits, are_hexadecimal, digit};
use def_source::parts::Number;

/// A number with one more digit, if it fits 128 bits.
fn with_digit(base: u8, value: u128, c: u8) -> Option<u128>
    ensures { result
        ≡ (if nat_lt (value * base + source.digit c) (2 ^ 128)
        then Some (value * base + source.digit c)
        else None) }
{
    match value.checked_mul(base as u128) {
        Some(more) => more.checked_add(digit(c) as u128),
        None => None,
    }
}

/// The value of digits, if it fits 128 bits.
fn value(base: u8, digits: &[u8]) -> Option<u128>
    requires { 1 ≤ base }
    ensures { result
        ≡ (if nat_le (source.value_from base 0 digits.now) (2 ^ 128 - 1)
        then Some (source.value_from base 0 digits.now)
        else None) }
{
    let mut value: u128 = 0;
    for c in digits {
        match with_digit(base, value, *c) {
            Some(more) => value = more,
            None => return None,
        }
    }
    Some(value)
}

/// Decimal digits, at least one, whose value is at most so large.
fn decimal(digits: &[u8], most: u128) -> Option<u128>
    ensures { result ≡ source.digits_of is_ascii_digit 10 most digits.now }
{
    if digits.is_empty() || !are_digits(digits) {
        return None;
    }
    match value(10, digits) {
        Some(n) if n <= most => Some(n),
        _ => None,
    }
}

/// Hexadecimal digits, at least one, that fit 128 bits.
fn hexadecimal(digits: &[u8]) -> Option<u128>
    ensures { result ≡ source.digits_of source.is_hexadecimal 16 (2 ^ 128 - 1) digits.now }
{
    if digits.is_empty() || !are_hexadecimal(digits) {
        return None;
    }
    value(16, digits)
}

fn positive(magnitude: u128) -> Number
    ensures { result ≡ source.positive magnitude }
{
    Number {
        negative: false,
        magnitude,
    }
}

fn negative(magnitude: u128) -> Number
    ensures { result ≡ source.negative magnitude }
{
    Number {
        negative: true,
        magnitude,
    }
}

/// The number that a piece is: decimal, hexadecimal after `0x`, or decimal after a minus.
pub(crate) fn number(piece: &[u8]) -> Option<Number>
    ensures { result ≡ source.number_of piece.now }
{
    match piece {
        [] => None,
        [b'-', digits @ ..] => decimal(digits, 1 << 127).map(negative),
        [b'0', b'x', digits @ ..] => hexadecimal(digits).map(positive),
        _ => decimal(piece, u128::MAX).map(positive),
    }
}
