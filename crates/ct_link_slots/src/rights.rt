//! The rights of slots, in the six bits of a row.

ghost use Rattle.std.specs.Prelude.{◌≡◌, ◌<◌, ◌^◌, nat_eq};
ghost use Rattle.std.specs.List.{list_any};
ghost use Rattle.def_words.specs.Permissions.{packed as spec_packed};
ghost use Rattle.def_desc.specs.Reading.{rights_of_text};
ghost use Rattle.def_link.specs.Slots as spec;

use ct_perm::Perms;
use def_desc::Rights;
use def_profile::rights::{GL, LD, LG, LM, MC, SD};

/// The bits of a set of rights.
pub(crate) fn packed(rights: u32) -> u8
    requires { rights < 2 ^ 12 }
    ensures { result ≡ spec_packed rights }
{
    Perms(rights as u16).pack()
}

/// Whether a letter stands in a text.
fn has_letter(text: &[u8], letter: u8) -> bool
    ensures { result ≡ list_any (nat_eq letter) text.now }
{
    for byte in text {
        if letter == *byte {
            return true;
        }
    }
    false
}

/// What letters allow.
fn letters(text: &str) -> Rights
    ensures { result ≡ rights_of_text text.now }
{
    let bytes = text.as_bytes();
    Rights {
        read: has_letter(bytes, b'R'),
        write: has_letter(bytes, b'W'),
        capabilities: has_letter(bytes, b'C'),
    }
}

/// The rights that letters grant: R is LD, W is SD, and C is MC, with LM and LG where R is there.
fn granted(rights: &Rights) -> u32
    ensures value { result ≡ spec.granted rights.now }
    ensures small { result < 2 ^ 12 }
{
    let read = if rights.read { LD } else { 0 };
    let write = if rights.write { SD } else { 0 };
    let kept = if rights.read { LM + LG } else { 0 };
    let capabilities = if rights.capabilities { MC + kept } else { 0 };
    GL + read + write + capabilities
}

/// The bits of the rights that letters grant.
pub(crate) fn claimed(text: &str) -> u8
    ensures { result ≡ spec_packed (spec.granted (rights_of_text text.now)) }
{
    packed(granted(&letters(text)))
}
