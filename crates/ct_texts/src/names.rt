//! The form of names, of firmware, owners, objects, slots and exports (def_texts; docs/use/description.md
//! tells the rule).

ghost use Rattle.std.specs.Prelude.{◌≡◌};
ghost use Rattle.std.specs.List.{list_all};
ghost use Rattle.def_texts.specs.Names as spec;

use def_profile::limits::MOST_NAME;

fn is_lower(byte: u8) -> bool
    ensures { result ≡ spec.is_lower byte }
{
    b'a' <= byte && byte <= b'z'
}

fn is_name_byte(byte: u8) -> bool
    ensures { result ≡ spec.is_name_byte byte }
{
    is_lower(byte) || byte.is_ascii_digit() || byte == b'_'
}

fn are_name_bytes(bytes: &[u8]) -> bool
    ensures { result ≡ list_all spec.is_name_byte bytes.now }
{
    bytes.iter().all(|byte| is_name_byte(*byte))
}

/// Whether a text has the form of a name: a lower-case letter, then lower-case letters, digits and
/// low lines, 32 characters at most.
pub fn is_name(text: &[u8]) -> bool
    ensures { result ≡ spec.is_name text.now }
{
    match text {
        [] => false,
        [first, rest @ ..] => {
            is_lower(*first) && are_name_bytes(rest) && rest.len() < MOST_NAME as usize
        }
    }
}
