//! The names of a set of permissions.

ghost use Rattle.std.specs.Prelude.{◌≡◌, ◌++◌, map, string_bytes, if◌then◌else◌, IfOk, OnOk};
ghost use Rattle.def_report.specs.Rights as spec;

use std::alloc::{AllocError, Global};

/// The permissions in bit order.
const NAMES: [&str; 12] = [
    "GL", "LG", "SD", "LM", "SL", "LD", "MC", "SR", "EX", "US", "SE", "U0",
];

/// A text goes on with a mark and a word.
pub(crate) fn add_after(text: &mut String, mark: &str, word: &str) -> Result<(), AllocError>
    ensures { OnOk result
        (string_bytes text.new ≡ string_bytes text.old ++ (mark.now ++ word.now)) }
{
    text.push_str(mark)?;
    text.push_str(word)
}

fn add_word(text: &mut String, word: &str) -> Result<(), AllocError>
    ensures { OnOk result
        (string_bytes text.new ≡ spec.with_word (string_bytes text.old) word.now) }
{
    if text.is_empty() {
        return text.push_str(word);
    }
    add_after(text, " ", word)
}

fn add_if(text: &mut String, has: bool, word: &str) -> Result<(), AllocError>
    ensures { OnOk result
        (string_bytes text.new
        ≡ (if has then spec.with_word (string_bytes text.old) word.now
        else string_bytes text.old)) }
{
    if has { add_word(text, word) } else { Ok(()) }
}

fn add_names(text: &mut String, rights: u32, names: &[&str]) -> Result<(), AllocError>
    ensures { OnOk result
        (string_bytes text.new
        ≡ spec.with_right_names (string_bytes text.old) rights (map (λ n. n.now) names.now)) }
{
    let mut left = rights;
    for name in names {
        add_if(text, left % 2 == 1, *name)?;
        left /= 2;
    }
    Ok(())
}

/// The names of the permissions of a set, joined by spaces.
pub(crate) fn rights_text(alloc: Global, rights: u32) -> Result<String, AllocError>
    ensures { IfOk result (λ s. string_bytes s ≡ spec.rights_text rights) }
{
    let mut text = String::new(alloc);
    add_names(&mut text, rights, &NAMES)?;
    Ok(text)
}
