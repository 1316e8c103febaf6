//! Which bytes make names, numbers and blanks.

ghost use Rattle.std.specs.Prelude.{◌≡◌};
ghost use Rattle.std.specs.Char.{is_ascii_digit};
ghost use Rattle.std.specs.List.{list_all};
ghost use Rattle.def_source.specs.Source as source;

/// A space or a tab.
pub(crate) fn is_blank(c: u8) -> bool
    ensures { result ≡ source.is_blank c }
{
    c == b' ' || c == b'\t'
}

/// A comma, a colon or a bracket.
fn is_mark(c: u8) -> bool
    ensures { result ≡ source.is_mark c }
{
    c == b',' || c == b':' || c == b'(' || c == b')'
}

/// Any byte that is neither a blank nor a mark.
pub(crate) fn is_inner(c: u8) -> bool
    ensures { result ≡ source.is_inner c }
{
    !is_blank(c) && !is_mark(c)
}

/// A letter, or the underscore.
pub(crate) fn is_letter(c: u8) -> bool
    ensures { result ≡ source.is_letter c }
{
    b'A' <= c && c <= b'Z' || b'a' <= c && c <= b'z' || c == b'_'
}

fn is_name_byte(c: u8) -> bool
    ensures { result ≡ source.is_symbol_byte c }
{
    is_letter(c) || c.is_ascii_digit()
}

/// A hexadecimal digit of either case.
pub(crate) fn is_hexadecimal(c: u8) -> bool
    ensures { result ≡ source.is_hexadecimal c }
{
    c.is_ascii_digit() || b'A' <= c && c <= b'F' || b'a' <= c && c <= b'f'
}

/// What a digit of base 10 or 16 is worth.
pub(crate) fn digit(c: u8) -> u8
    ensures { result ≡ source.digit c }
{
    if c <= b'9' {
        c.saturating_sub(b'0')
    } else if c <= b'F' {
        c.saturating_sub(b'A' - 10)
    } else {
        c.saturating_sub(b'a' - 10)
    }
}

/// Whether a piece is a name: a letter, then letters and digits, at most 64 in all.
pub(crate) fn is_name(piece: &[u8]) -> bool
    ensures { result ≡ source.is_symbol piece.now }
{
    match piece {
        [] => false,
        [first, rest @ ..] => is_letter(*first) && are_name_bytes(rest) && piece.len() <= 64,
    }
}

fn are_name_bytes(text: &[u8]) -> bool
    ensures { result ≡ list_all source.is_symbol_byte text.now }
{
    text.iter().all(|c| is_name_byte(*c))
}

pub(crate) fn are_digits(text: &[u8]) -> bool
    ensures { result ≡ list_all is_ascii_digit text.now }
{
    text.iter().all(|c| c.is_ascii_digit())
}

pub(crate) fn are_hexadecimal(text: &[u8]) -> bool
    ensures { result ≡ list_all source.is_hexadecimal text.now }
{
    text.iter().all(|c| is_hexadecimal(*c))
}

pub(crate) fn are_ascii(text: &[u8]) -> bool
    ensures { result ≡ list_all source.is_ascii text.now }
{
    text.iter().all(|c| *c < 128)
}
