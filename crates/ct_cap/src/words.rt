//! Words put together from their fields.

ghost use Rattle.std.specs.Prelude.{◌%◌, ◌*◌, ◌+◌, ◌/◌, ◌<◌, ◌^◌, ◌≡◌};
ghost use Rattle.def_words.specs.Authority.{word_of};
ghost use Rattle.def_words.specs.Capability.{cap_of, with_fields, with_permission_bits, with_seal_field};

use def_words::{Cap, Shadow};

/// A capability of this tag and word; an untagged one comes from nowhere.
pub(crate) fn cap_of(tag: bool, word: u64, shadow: Shadow) -> Cap
    ensures { result ≡ cap_of tag word shadow }
{
    if tag {
        Cap { tag, word, shadow }
    } else {
        Cap {
            tag,
            word,
            shadow: Shadow { root: 0, source: 0 },
        }
    }
}

/// The word of a high word and an address.
pub(crate) fn word_of(high: u32, address: u32) -> u64
    ensures { result ≡ word_of high address }
{
    ((high as u64) << 32) + address as u64
}

/// The high word of a word.
pub(crate) fn high_of(word: u64) -> u32
    ensures { result ≡ word / 2 ^ 32 }
{
    (word >> 32) as u32
}

/// The address of a word.
pub(crate) fn address_of(word: u64) -> u32
    ensures { result ≡ word % 2 ^ 32 }
{
    (word % (1 << 32)) as u32
}

/// A high word with these six permission bits.
pub(crate) fn with_permission_bits(high: u32, bits: u8) -> u32
    requires { bits < 64 }
    ensures { result ≡ with_permission_bits high bits }
{
    (high >> 31 << 31) + ((bits as u32) << 25) + high % (1 << 25)
}

/// A high word with this seal field.
pub(crate) fn with_seal_field(high: u32, field: u32) -> u32
    requires { field < 8 }
    ensures { result ≡ with_seal_field high field }
{
    (high >> 25 << 25) + (field << 22) + high % (1 << 22)
}

/// A high word with these 22 bits of E, B and T.
pub(crate) fn with_fields(high: u32, fields: u32) -> u32
    requires { fields < 2 ^ 22 }
    ensures { result ≡ with_fields high fields }
{
    (high >> 22 << 22) + fields
}
