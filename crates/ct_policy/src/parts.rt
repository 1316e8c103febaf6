//! The sides of a word's point.

ghost use Rattle.std.specs.Prelude.{◌≡◌, ◌≤◌, length, option_map};
ghost use Rattle.std.specs.List.{prefix_len};
ghost use Rattle.def_policy.specs.Rules.{is_no_point};
ghost use Rattle.ct_policy.specs.Forms as spec;
ghost use Rattle.ct_policy.specs.Forms.{sides_row};

/// What stands before a point, and what after it.
#[derive(Clone, Copy)]
pub(crate) struct Sides<'a> {
    pub compartment: &'a [u8],
    pub export: &'a [u8],
}

fn has_point(text: &[u8]) -> bool
    ensures { result ≡ spec.has_point text.now }
{
    text.iter().any(|c| *c == b'.')
}

/// How many bytes stand before the first point.
fn side_length(text: &[u8]) -> usize
    ensures is { result ≡ prefix_len is_no_point text.now }
    ensures within { result ≤ length text.now }
{
    text.iter().take_while(|byte| **byte != b'.').count()
}

/// The sides of a word's one point, where something stands on both.
pub(crate) fn sides_of(text: &[u8]) -> Option<Sides<'_>>
    ensures { option_map sides_row result ≡ spec.sides_in text.now }
{
    let place = side_length(text);
    if place == text.len() {
        return None;
    }
    both_sides(&text[..place], &text[place + 1..])
}

/// Two sides of a point, where something stands on both and the second has no point.
fn both_sides<'a>(compartment: &'a [u8], export: &'a [u8]) -> Option<Sides<'a>>
    ensures { option_map sides_row result ≡ spec.sides compartment.now export.now }
{
    if compartment.is_empty() || export.is_empty() || has_point(export) {
        return None;
    }
    Some(Sides {
        compartment,
        export,
    })
}
