//! The tables of def_desc, looked up.

ghost use Rattle.std.specs.Prelude.{◌≡◌, map};
ghost use Rattle.def_desc.specs.Members.{says};
ghost use Rattle.def_desc.specs.Tables as spec;

use ct_entry::{DEVICE_KINDS, DeviceKind, Mode};
use def_desc::tables::{
    COMPARTMENT, DEVICE, EXPORT, FIRMWARE, IMPORT, LEXPORT, LIBRARY, LIBRARY_POSTURES, LIMPORT,
    OF_COMPARTMENT, OF_LIBRARY, PASSES, POSTURES, QUOTA, RAM, SEALED, SERVICES, SHARED, THREAD,
};
use def_desc::{PartWord, Passes, Shape};

/// What the first row of that name says.
fn find<T: Copy>(table: &[(&'static str, T)], name: &[u8]) -> Option<T>
    ensures { result ≡ says (λ r. r.0.now) (λ r. r.1) name.now table.now }
{
    for (word, value) in table {
        if name == word.as_bytes() {
            return Some(*value);
        }
    }
    None
}

/// The kind of a device.
#[tactic(auto, unfolding(def_desc::specs::Tables::device_kind_named))]
pub fn kind_of(text: &str) -> Option<DeviceKind>
    ensures { result ≡ spec.device_kind_named text.now }
{
    find(&DEVICE_KINDS, text.as_bytes())
}

/// The posture of a compartment's export.
#[tactic(auto, unfolding(def_desc::specs::Tables::posture_of))]
pub fn posture_of(text: &str) -> Option<Mode>
    ensures { result ≡ spec.posture_of text.now }
{
    find(&POSTURES, text.as_bytes())
}

/// The posture of a library's export.
#[tactic(auto, unfolding(def_desc::specs::Tables::library_posture_of))]
pub fn library_posture_of(text: &str) -> Option<Mode>
    ensures { result ≡ spec.library_posture_of text.now }
{
    find(&LIBRARY_POSTURES, text.as_bytes())
}

/// What an export passes.
#[tactic(auto, unfolding(def_desc::specs::Tables::passes_of))]
pub fn passes_of(text: &str) -> Option<Passes>
    ensures { result ≡ spec.passes_of text.now }
{
    find(&PASSES, text.as_bytes())
}

/// The number of a service's native routine.
#[tactic(auto, unfolding(def_desc::specs::Tables::service_of))]
pub fn service_of(text: &[u8]) -> Option<u32>
    ensures { result ≡ spec.service_of text.now }
{
    find(&SERVICES, text)
}

/// A member's name, what stands there, and whether it must be there.
pub type Member = (&'static str, Shape, bool);

/// The members of a part.
#[tactic(auto, unfolding(def_desc::specs::Tables::members_of))]
pub fn members_of(part: PartWord) -> &'static [Member]
    ensures { map (λ r. spec.row r.0.now r.1 r.2) result.now ≡ spec.members_of part }
{
    match part {
        PartWord::Firmware => &FIRMWARE,
        PartWord::Ram => &RAM,
        PartWord::Device => &DEVICE,
        PartWord::Shared => &SHARED,
        PartWord::Sealed => &SEALED,
        PartWord::Compartment => &COMPARTMENT,
        PartWord::Import => &IMPORT,
        PartWord::Quota => &QUOTA,
        PartWord::Key => &[],
        PartWord::Export => &EXPORT,
        PartWord::Library => &LIBRARY,
        PartWord::Limport => &LIMPORT,
        PartWord::Lexport => &LEXPORT,
        PartWord::Thread => &THREAD,
    }
}

/// The lists of a compartment or library: what their elements are, and their keys.
#[tactic(auto, unfolding(def_desc::specs::Tables::inner_lists))]
pub fn inner_lists(part: PartWord) -> &'static [(PartWord, &'static str)]
    ensures { map (λ r. spec.inner r.0 r.1.now) result.now ≡ spec.inner_lists part }
{
    match part {
        PartWord::Compartment => &OF_COMPARTMENT,
        PartWord::Library => &OF_LIBRARY,
        _ => &[],
    }
}
