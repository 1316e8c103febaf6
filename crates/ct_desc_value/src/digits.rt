//! Lower-case hexadecimal digits: words of code, and bytes.

ghost use Rattle.std.specs.Prelude.{◌≡◌, ◌<◌, IfOk};
ghost use Rattle.std.specs.List.{list_all};
ghost use Rattle.def_desc.specs.Kinds as spec;
ghost use Rattle.def_desc.specs.Reading as reading;

use std::alloc::{AllocError, Global};

fn is_hexadecimal(b: u8) -> bool
    ensures { result ≡ spec.is_lower_hexadecimal b }
{
    (b'0' <= b && b <= b'9') || (b'a' <= b && b <= b'f')
}

fn are_hexadecimal(text: &[u8]) -> bool
    ensures { result ≡ list_all spec.is_lower_hexadecimal text.now }
{
    for b in text {
        if !is_hexadecimal(*b) {
            return false;
        }
    }
    true
}

/// A word is eight digits.
pub(crate) fn is_word(text: &[u8]) -> bool
    ensures { result ≡ spec.is_word text.now }
{
    text.len() == 8 && are_hexadecimal(text)
}

/// Bytes are pairs of digits.
pub(crate) fn are_pairs(text: &[u8]) -> bool
    ensures { result ≡ spec.are_pairs text.now }
{
    text.len() % 2 == 0 && are_hexadecimal(text)
}

fn digit_of(b: u8) -> u32
    ensures value { result ≡ reading.digit_of b }
    ensures small { result < 16 }
{
    if b'a' <= b && b <= b'f' {
        b as u32 - 87
    } else if b'0' <= b && b <= b'9' {
        b as u32 - 48
    } else {
        0
    }
}

/// The word that eight digits spell, or 0 for any other text.
pub fn word_of(text: &[u8]) -> u32
    ensures { result ≡ reading.hexadecimal_word text.now }
{
    match text {
        [a, b, c, d, e, f, g, h] => {
            let high = digit_of(*a) * (1 << 28)
                + digit_of(*b) * (1 << 24)
                + digit_of(*c) * (1 << 20)
                + digit_of(*d) * (1 << 16);
            let low = digit_of(*e) * (1 << 12)
                + digit_of(*f) * (1 << 8)
                + digit_of(*g) * (1 << 4)
                + digit_of(*h);
            high + low
        }
        _ => 0,
    }
}

fn byte_of(a: u8, b: u8) -> u8
    ensures { result ≡ reading.byte_of_digits a b }
{
    (digit_of(a) * 16 + digit_of(b)) as u8
}

/// The bytes that pairs of digits spell; a last digit without another is left out.
pub fn bytes_of(alloc: Global, text: &[u8]) -> Result<Vec<u8>, AllocError>
    ensures { IfOk result (λ v. v.items ≡ reading.bytes_of text.now) }
{
    let mut all = Vec::new(alloc);
    let mut rest = text;
    while let [a, b, more @ ..] = rest {
        all.push(byte_of(*a, *b))?;
        rest = more;
    }
    Ok(all)
}
