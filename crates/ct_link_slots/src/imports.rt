//! The slots of imports, quotas and keys.

ghost use Rattle.std.specs.Prelude.{◌≡◌, ◌<◌, ◌^◌, codes, option_map, string_bytes, unwrap_or, [], IfOk};
ghost use Rattle.def_desc.specs.Names as name;
ghost use Rattle.def_link.specs.Slots as spec;
ghost use Rattle.def_words.specs.Permissions.{packed as spec_packed};
ghost use Rattle.def_desc.specs.Reading.{rights_of_text};
ghost use Rattle.ct_link_slots.specs.Exporters.{AreCounted};
ghost use Rattle.ct_desc_rows.specs.Named.{named};

use crate::rights::{claimed, packed};
use crate::rows::{form_row, library_row, switch_row};
use ct_desc_rows::{Desc, Import, LibraryImport, Quota, Target};
use ct_image_parts::Slot;
use def_desc::Form;
use def_image::{ImportRow, SlotKind};
use def_profile::rights::{KEY_RIGHTS, QUOTA_RIGHTS};
use std::alloc::{AllocError, Global};

/// A slot of a name.
fn slot(alloc: Global, name: &str, row: ImportRow) -> Result<Slot, AllocError>
    ensures { IfOk result (λ s. s ≡ spec.slot name.now row) }
{
    let name = String::from_str(alloc, name)?;
    Ok(Slot { row, name })
}

/// The slot of the switch, which every compartment has first.
pub(crate) fn switch_slot(alloc: Global) -> Result<Slot, AllocError>
    ensures { IfOk result (λ s. s ≡ spec.slot (codes "switch") spec.switch_row) }
{
    slot(alloc, "switch", switch_row())
}

/// The bits of the rights that an import claims; none where it claims none.
fn rights_in(rights: &Option<String>) -> u8
    ensures { result ≡ spec_packed (spec.granted
        (rights_of_text (unwrap_or (option_map string_bytes rights.now) []))) }
{
    match rights {
        Some(text) => claimed(text.as_str()),
        None => claimed(""),
    }
}

/// The row of what an import names.
fn target_row(desc: &Desc, rights: u8, target: Option<Target<'_>>) -> ImportRow
    requires { AreCounted desc.now }
    ensures { result ≡ spec.target_row desc.now rights (option_map named target.entry) }
{
    match target {
        Some(target) => form_row(desc, rights, target.form, target.name),
        None => switch_row(),
    }
}

/// The slot of an import.
pub(crate) fn import_slot(alloc: Global, desc: &Desc, import: &Import) -> Result<Slot, AllocError>
    requires { AreCounted desc.now }
    ensures { IfOk result (λ s. s ≡ spec.import_slot desc.now import.now) }
{
    let row = target_row(desc, rights_in(&import.rights), import.target());
    slot(alloc, import.alias.as_str(), row)
}

/// The slot of a quota.
pub(crate) fn quota_slot(alloc: Global, quota: &Quota) -> Result<Slot, AllocError>
    ensures { IfOk result (λ s. s ≡ spec.quota_slot quota.now) }
{
    let row = ImportRow {
        kind: SlotKind::Quota,
        rights: packed(QUOTA_RIGHTS),
        first: quota.limit,
        second: 0,
    };
    slot(alloc, quota.name.as_str(), row)
}

/// The slot of a key, which is named by its type.
pub(crate) fn key_slot(alloc: Global, key: u64) -> Result<Slot, AllocError>
    requires { key < 2 ^ 32 }
    ensures { IfOk result (λ s. s ≡ spec.key_slot key) }
{
    let row = ImportRow {
        kind: SlotKind::Key,
        rights: packed(KEY_RIGHTS),
        first: key as u32,
        second: 0,
    };
    let name = format!(in alloc; "key{key}")?;
    Ok(Slot { row, name })
}

/// The slot of an import of a library.
pub(crate) fn library_slot(
    alloc: Global,
    desc: &Desc,
    import: &LibraryImport,
) -> Result<Slot, AllocError>
    requires { AreCounted desc.now }
    ensures { IfOk result (λ s. s ≡ spec.slot import.now.alias
        (spec.form_row desc.now 0 Form.Library import.now.library)) }
{
    slot(
        alloc,
        import.alias.as_str(),
        library_row(desc, import.library.as_str()),
    )
}
