//! Where exports begin.

ghost use Rattle.std.specs.Prelude.{◌≡◌, ◌<◌, ◌^◌, length, map};
ghost use Rattle.def_link.specs.Owners as owner;
ghost use Rattle.def_desc.specs.Rows.{AtRow};
ghost use Rattle.ct_link_objects.specs.Objects.{built_of};

use ct_asm::Object;
use ct_desc_rows::{At, Export, LibraryExport};

/// The offset that an export's place says: that of a label of the text, or the number itself.
fn offset_of(object: &Object, at: &At) -> Option<u64>
    ensures { result ≡ owner.label_or (built_of object.now) at.now.label at.now.offset }
{
    match &at.label {
        None => Some(at.offset),
        Some(label) => match object.find(label.as_str()) {
            Some(offset) => Some(offset as u64),
            None => None,
        },
    }
}

/// The offset in the text at which an export begins: a multiple of 4 below the text's length. None
/// exactly where its place is no such offset.
pub fn begin_of(object: &Object, at: &At) -> Option<u64>
    ensures { result ≡ owner.begin_of (built_of object.now) at.now }
{
    match offset_of(object, at) {
        Some(offset) => {
            if offset % 4 == 0 && offset < object.text.len() as u64 {
                Some(offset)
            } else {
                None
            }
        }
        None => None,
    }
}

/// An export that begins at a place, of a compartment or of a library.
pub(crate) trait Placed {
    /// Where it begins.
    ghost at_of: { Self → AtRow };

    fn at(&self) -> &At
        ensures { result.now ≡ at_of self.now };
}

impl Placed for Export {
    ghost at_of = { λ x. x.at };

    fn at(&self) -> &At {
        &self.at
    }
}

impl Placed for LibraryExport {
    ghost at_of = { λ x. x.at };

    fn at(&self) -> &At {
        &self.at
    }
}

/// The first export that begins nowhere.
pub(crate) fn first_lost<T: Placed>(object: &Object, exports: &[T]) -> Option<u32>
    requires { length exports.now < 2 ^ 32 }
    ensures { result ≡ owner.first_lost (built_of object.now) 0 (map T.at_of exports.now) }
{
    let mut item = 0;
    for export in exports {
        if begin_of(object, export.at()).is_none() {
            return Some(item);
        }
        item += 1;
    }
    None
}
