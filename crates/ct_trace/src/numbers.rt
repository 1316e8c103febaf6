//! Numbers as a line shows them.

ghost use Rattle.std.specs.Prelude.{◌≡◌, ◌+◌, ◌*◌, ◌^◌, ◌≤◌, ◌<◌, ◌++◌, ◌∷◌, [], length, decimal};
ghost use Rattle.def_trace.specs.Trace as spec;

use arrayvec::ArrayString;
use itoa::Buffer;

/// A line, or two. None is longer than 192 bytes.
pub type Line = ArrayString<192>;

/// A number in decimal digits; one digit, as most of a line's numbers have, without a buffer.
pub(crate) fn add_number(line: &mut Line, number: u32)
    requires { length line.old.bytes + 10 ≤ 192 }
    ensures bytes { line.new.bytes ≡ line.old.bytes ++ decimal number }
    ensures size { length line.new.bytes ≤ length line.old.bytes + 10 }
{
    if number < 10 {
        line.push((b'0' + number as u8) as char);
        return;
    }
    let mut buffer = Buffer::new();
    line.push_str(buffer.format(number));
}

/// A number after a word.
pub(crate) fn add_after(line: &mut Line, word: &str, number: u32)
    requires { length line.old.bytes + length word.now + 10 ≤ 192 }
    ensures bytes { line.new.bytes ≡ line.old.bytes ++ spec.word_then_number word.now number }
    ensures size { length line.new.bytes ≤ length line.old.bytes + length word.now + 10 }
{
    line.push_str(word);
    add_number(line, number);
}

/// A digit of base 16.
fn digit_of(digit: u64) -> char
    requires { digit < 16 }
    ensures is { result ≡ spec.hexadecimal_digit digit }
    ensures ascii { result < 128 }
{
    if digit < 10 {
        (b'0' + digit as u8) as char
    } else {
        (b'a' + (digit as u8 - 10)) as char
    }
}

/// A space and so many digits of base 16, the greatest first.
#[tactic(auto, using(crate::proofs::Digits::next_digit, crate::proofs::Digits::no_digit, crate::proofs::Digits::all_digits))]
pub(crate) fn add_hexadecimal(line: &mut Line, digits: u32, value: u64)
    requires room { length line.old.bytes + 17 ≤ 192 }
    requires digits { digits ≤ 16 }
    ensures bytes { line.new.bytes ≡ line.old.bytes ++ spec.after_space digits value }
    ensures size { length line.new.bytes ≤ length line.old.bytes + digits + 1 }
{
    line.push(' ');
    for place in 0..digits {
        let digit = (value >> (4 * (digits - 1 - place))) % 16;
        line.push(digit_of(digit));
    }
}

/// How many digits a value of so many bytes has.
pub(crate) fn value_digits(width: u32) -> u32
    ensures is { result ≡ spec.value_digits width }
    ensures few { result ≤ 16 }
{
    2 * width.min(8)
}
