//! The names of an image's parts.

ghost use Rattle.std.specs.Prelude.{◌≡◌, List, ℕ, map};
ghost use Rattle.def_image.specs.Limits as spec;
ghost use Rattle.def_texts.specs.Names.{among};

use ct_image_fields::{
    RawCode, RawCompartment, RawDevice, RawSealed, RawShared, RawThread, name_of,
};
use def_image::RawEntry;

/// A part with a name.
pub(crate) trait Named {
    /// The name.
    ghost named: { Self → List ℕ };

    fn name(&self) -> &[u8]
        ensures { result.now ≡ named self.now };
}

impl Named for RawEntry {
    ghost named = { spec.entry_name };

    fn name(&self) -> &[u8] {
        name_of(&self.name)
    }
}

impl Named for RawDevice {
    ghost named = { spec.raw_device_name };

    fn name(&self) -> &[u8] {
        name_of(&self.name)
    }
}

impl Named for RawShared {
    ghost named = { spec.shared_name };

    fn name(&self) -> &[u8] {
        name_of(&self.name)
    }
}

impl Named for RawSealed {
    ghost named = { spec.sealed_name };

    fn name(&self) -> &[u8] {
        name_of(&self.name)
    }
}

impl Named for RawCode {
    ghost named = { spec.library_name };

    fn name(&self) -> &[u8] {
        name_of(&self.name)
    }
}

impl Named for RawCompartment {
    ghost named = { spec.compartment_name };

    fn name(&self) -> &[u8] {
        name_of(&self.code.name)
    }
}

impl Named for RawThread {
    ghost named = { spec.thread_name };

    fn name(&self) -> &[u8] {
        name_of(&self.name)
    }
}

/// Whether a name is one of theirs.
pub(crate) fn is_among<T: Named>(name: &[u8], parts: &[T]) -> bool
    ensures { result ≡ among name.now (map T.named parts.now) }
{
    for part in parts {
        if name == part.name() {
            return true;
        }
    }
    false
}
