//! What has a name, and where a name stands in a list of it.

ghost use Rattle.std.specs.Prelude.{ℕ, ◌≡◌, ◌<◌, ◌^◌, List, length, map};
ghost use Rattle.def_link.specs.Slots.{index_of};

use ct_desc_rows::{Export, LibraryExport, Sealed, Shared};
use ct_entry::Device;

/// What has a name.
pub(crate) trait Named {
    /// The bytes of its name.
    ghost name_of: { Self → List ℕ };

    fn name(&self) -> &str
        ensures { result.now ≡ name_of self.now };
}

impl Named for Device {
    ghost name_of = { λ x. x.name };

    fn name(&self) -> &str {
        self.name.as_str()
    }
}

impl Named for Shared {
    ghost name_of = { λ x. x.name };

    fn name(&self) -> &str {
        self.name.as_str()
    }
}

impl Named for Sealed {
    ghost name_of = { λ x. x.name };

    fn name(&self) -> &str {
        self.name.as_str()
    }
}

impl Named for Export {
    ghost name_of = { λ x. x.name };

    fn name(&self) -> &str {
        self.name.as_str()
    }
}

impl Named for LibraryExport {
    ghost name_of = { λ x. x.name };

    fn name(&self) -> &str {
        self.name.as_str()
    }
}

/// The index of the first of that name, or their number.
#[tactic(auto, using(crate::proofs::Names::index_met, crate::proofs::Names::index_passed))]
pub(crate) fn index_named<T: Named>(name: &[u8], all: &[T]) -> u32
    requires { length all.now < 2 ^ 32 }
    ensures { result ≡ index_of name.now (map T.name_of all.now) }
{
    let mut index = 0;
    for one in all {
        if name == one.name().as_bytes() {
            return index;
        }
        index += 1;
    }
    index
}
