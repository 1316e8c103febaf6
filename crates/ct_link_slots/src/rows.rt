//! The row of an import table that a text of its kind stands for.

ghost use Rattle.std.specs.Prelude.{◌≡◌};
ghost use Rattle.def_link.specs.Slots as spec;
ghost use Rattle.ct_link_slots.specs.Exporters.{AreCounted};

use crate::exports::{called, lent};
use crate::named::index_named;
use crate::rights::packed;
use ct_desc_rows::Desc;
use ct_desc_value::tables::service_of;
use def_desc::Form;
use def_image::{ImportRow, SlotKind};
use def_native::SWITCH;
use def_profile::rights::{CODE_RIGHTS, EXPORT_RIGHTS, SEALED_RIGHTS, SERVICE_RIGHTS};

/// The row of slot 0 of a compartment, the switch.
pub(crate) fn switch_row() -> ImportRow
    ensures { result ≡ spec.switch_row }
{
    ImportRow {
        kind: SlotKind::Service,
        rights: packed(SERVICE_RIGHTS),
        first: SWITCH,
        second: 0,
    }
}

/// The row of a slot that names something in one list.
fn listed_row(kind: SlotKind, rights: u8, first: u32) -> ImportRow
    ensures { result ≡ spec.slot_row kind rights first 0 }
{
    ImportRow {
        kind,
        rights,
        first,
        second: 0,
    }
}

/// The row of a call.
fn call_row(desc: &Desc, name: &str) -> ImportRow
    requires { AreCounted desc.now }
    ensures { result ≡ spec.form_row desc.now 0 Form.Call name.now }
{
    let found = called(desc.compartments.as_slice(), name.as_bytes());
    ImportRow {
        kind: SlotKind::Call,
        rights: packed(EXPORT_RIGHTS),
        first: found.owner,
        second: found.export,
    }
}

/// The row of an import of a library.
pub(crate) fn library_row(desc: &Desc, name: &str) -> ImportRow
    requires { AreCounted desc.now }
    ensures { result ≡ spec.form_row desc.now 0 Form.Library name.now }
{
    let found = lent(desc.libraries.as_slice(), name.as_bytes());
    ImportRow {
        kind: SlotKind::Library,
        rights: packed(CODE_RIGHTS),
        first: found.owner,
        second: found.export,
    }
}

/// The row of a slot that names something of a form; devices and shared objects have the rights
/// that are claimed.
pub(crate) fn form_row(desc: &Desc, rights: u8, form: Form, name: &str) -> ImportRow
    requires { AreCounted desc.now }
    ensures { result ≡ spec.form_row desc.now rights form name.now }
{
    match form {
        Form::Device => {
            listed_row(
                SlotKind::Device,
                rights,
                index_named(name.as_bytes(), desc.devices.as_slice()),
            )
        }
        Form::Shared => {
            listed_row(
                SlotKind::Shared,
                rights,
                index_named(name.as_bytes(), desc.shared.as_slice()),
            )
        }
        Form::Sealed => listed_row(
            SlotKind::Sealed,
            packed(SEALED_RIGHTS),
            index_named(name.as_bytes(), desc.sealed.as_slice()),
        ),
        Form::Call => call_row(desc, name),
        Form::Service => listed_row(
            SlotKind::Service,
            packed(SERVICE_RIGHTS),
            service_of(name.as_bytes()).unwrap_or(0),
        ),
        Form::Library => library_row(desc, name),
    }
}
