//! What holds a list: the description, or a compartment or library.

ghost use Rattle.std.specs.Prelude.{◌≡◌};
ghost use Rattle.def_desc.specs.Kinds as spec;
ghost use Rattle.ct_json.specs.Values.{data_of};

use crate::members::has;
use ct_json::Json;

/// What holds a list.
#[derive(Clone, Copy, Drop)]
pub struct Owner<'t, 'a> {
    pub value: Json<'t, 'a>,
    /// Exports may begin at labels. It is asked once of each owner, and not at each export, since an
    /// owner may have as many members as its text has room for.
    pub labels: bool,
    ghost of_labels: { labels ≡ spec.has_labels (data_of value) },
}

fn has_labels(owner: &Json) -> bool
    ensures { result ≡ spec.has_labels (data_of owner.now) }
{
    match owner.get("code") {
        Some(code) => !has(&code, "words"),
        None => true,
    }
}

impl<'t, 'a> Owner<'t, 'a> {
    /// A value as an owner.
    pub(crate) fn of(value: Json<'t, 'a>) -> Owner<'t, 'a>
        ensures { result.value ≡ value.entry }
    {
        Owner {
            value,
            labels: has_labels(&value),
        }
    }
}
