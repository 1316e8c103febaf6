//! The name of a place, and F4: a name that isn't of the form.

ghost use Rattle.std.specs.Prelude.{◌≡◌, true, if◌then◌else◌, IfOk};
ghost use Rattle.std.specs.Cow.{cow_str_bytes};
ghost use Rattle.ct_json.specs.Values.{data_of};
ghost use Rattle.def_texts.specs.Names as name;
ghost use Rattle.def_desc.specs.Names as spec;

use ct_desc_rows::key_name;
use ct_desc_value::members::{number_in, text_or};
use ct_json::Json;
use ct_texts::is_name;
use def_desc::PartWord;
use std::alloc::{AllocError, Global};
use std::borrow::CowStr;

/// The name of what stands at a place: RAM has none, and a key's is made from its number.
pub(crate) fn name_at<'a>(
    alloc: Global,
    part: PartWord,
    value: &Json<'_, 'a>,
) -> Result<CowStr<'a, Global>, AllocError>
    ensures { IfOk result (λ n. cow_str_bytes n ≡ spec.part_name part (data_of value.now)) }
{
    match part {
        PartWord::Ram => Ok(CowStr::Borrowed("")),
        PartWord::Key => Ok(CowStr::Owned(key_name(alloc, number_in(value))?)),
        PartWord::Firmware => Ok(CowStr::Borrowed(text_or(value, "firmware"))),
        PartWord::Import | PartWord::Limport => Ok(CowStr::Borrowed(text_or(value, "as"))),
        PartWord::Device
        | PartWord::Shared
        | PartWord::Sealed
        | PartWord::Compartment
        | PartWord::Quota
        | PartWord::Export
        | PartWord::Library
        | PartWord::Lexport
        | PartWord::Thread => Ok(CowStr::Borrowed(text_or(value, "name"))),
    }
}

/// F4 doesn't hold of a part with that name. RAM has no name, and a key's own is always of the form.
pub(crate) fn is_well_named(part: PartWord, text: &str) -> bool
    ensures { result ≡ (if spec.has_own_name part then name.is_name text.now else true) }
{
    match part {
        PartWord::Ram | PartWord::Key => true,
        _ => is_name(text.as_bytes()),
    }
}
