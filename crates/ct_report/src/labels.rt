//! What the report says of each entry beside its row.

ghost use Rattle.std.specs.Prelude.{◌≡◌, ◌++◌, map, IfOk, OnOk};
ghost use Rattle.std.specs.List.{flat_map};
ghost use Rattle.def_image.specs.Parts.{ThreadRow};
ghost use Rattle.def_report.specs.Labels as spec;
ghost use Rattle.def_image.specs.Members.{sealed, shared};
ghost use Rattle.def_image.specs.declared.SlotKind.TheVariants as slot;
ghost use Rattle.ct_report.specs.Shown.{label_of, of_name, shown};

use ct_entry::Mode;
use ct_image_parts::{Code, Compartment, Export, Parts, Slot, Thread};
use ct_tables::{ExportRow, ImportRow, SlotKind};
use def_desc::tables::SERVICES;
use def_native::SWITCH;
use std::alloc::{AllocError, Global};

/// What the report says of an entry beside its row: its owner's name, of a slot or an export its
/// own, of a slot what it is of, of a sealed object its type, and an export's row.
#[derive(Clone, Copy)]
pub(crate) struct Label<'a> {
    pub owner: &'a str,
    pub name: &'a str,
    pub of: Of<'a>,
    pub seal: u32,
    pub export: ExportRow,
}

/// What a slot is of: what has a name of its own, or an export by its owner's name and its own.
#[derive(Clone, Copy)]
pub(crate) enum Of<'a> {
    Named(&'a str),
    Export(&'a str, &'a str),
}

/// The label of an entry that has no more than an owner.
fn owned<'a>(owner: &'a str) -> Label<'a>
    ensures { label_of result ≡ spec.owner_label owner.now }
{
    Label {
        owner,
        name: "",
        of: Of::Named(""),
        seal: 0,
        export: ExportRow {
            offset: 0,
            stack: 0,
            args: 0,
            posture: Mode::Inherit,
            capabilities: false,
            entry: 0,
        },
    }
}

/// The name of the first row with this number, or nothing.
fn name_in(table: &[(&'static str, u32)], number: u32) -> &'static str
    ensures { result.now ≡ spec.name_by_number (λ r. r.0.now) (λ r. r.1) number table.now }
{
    for (name, known) in table {
        if *known == number {
            return *name;
        }
    }
    ""
}

/// The name of a service.
#[tactic(auto, unfolding(def_report::specs::Labels::service_name))]
fn service_name(number: u32) -> &'static str
    ensures { result.now ≡ spec.service_name number }
{
    if number == SWITCH {
        return "switch";
    }
    name_in(&SERVICES, number)
}

fn device_name<'a>(parts: &'a Parts, index: u32) -> &'a str
    ensures { result.now ≡ spec.device_name parts.now index }
{
    match parts.devices.rows.get(index as usize) {
        Some(device) => device.name.as_str(),
        None => "",
    }
}

fn gate_name<'a>(exports: &'a [Export], index: u32) -> &'a str
    ensures { result.now ≡ spec.gate_name exports.now index }
{
    match exports.get(index as usize) {
        Some(export) => export.name.as_str(),
        None => "",
    }
}

fn called<'a>(parts: &'a Parts, import: ImportRow) -> Of<'a>
    ensures { of_name result ≡ spec.of_name parts.now import slot.Call }
{
    match parts.compartments.get(import.first as usize) {
        Some(compartment) => export_of(&compartment.code, import.second),
        None => Of::Export("", ""),
    }
}

fn lent<'a>(parts: &'a Parts, import: ImportRow) -> Of<'a>
    ensures { of_name result ≡ spec.of_name parts.now import slot.Library }
{
    match parts.libraries.get(import.first as usize) {
        Some(library) => export_of(library, import.second),
        None => Of::Export("", ""),
    }
}

fn export_of<'a>(code: &'a Code, index: u32) -> Of<'a>
    ensures { of_name result ≡ spec.exported_name code.now index }
{
    Of::Export(
        code.name.as_str(),
        gate_name(code.exports.as_slice(), index),
    )
}

fn shared_name<'a>(parts: &'a Parts, index: u32) -> &'a str
    ensures { result.now ≡ (shared parts.now index).name }
{
    match parts.shared.get(index as usize) {
        Some(object) => object.name.as_str(),
        None => "",
    }
}

fn sealed_name<'a>(parts: &'a Parts, index: u32) -> &'a str
    ensures { result.now ≡ (sealed parts.now index).name }
{
    match parts.sealed.get(index as usize) {
        Some(object) => object.name.as_str(),
        None => "",
    }
}

fn seal_type(parts: &Parts, index: u32) -> u32
    ensures { result ≡ (sealed parts.now index).seal }
{
    match parts.sealed.get(index as usize) {
        Some(object) => object.seal,
        None => 0,
    }
}

/// What a slot is of, by its kind.
fn of_slot<'a>(parts: &'a Parts, import: ImportRow) -> Of<'a>
    ensures { of_name result ≡ spec.of_name parts.now import import.kind }
{
    match import.kind {
        SlotKind::Service => Of::Named(service_name(import.first)),
        SlotKind::Device => Of::Named(device_name(parts, import.first)),
        SlotKind::Shared => Of::Named(shared_name(parts, import.first)),
        SlotKind::Sealed => Of::Named(sealed_name(parts, import.first)),
        SlotKind::Call => called(parts, import),
        SlotKind::Library => lent(parts, import),
        SlotKind::Quota | SlotKind::Key => Of::Named(""),
    }
}

/// The type of what a slot is of, if that is sealed.
fn seal_of(parts: &Parts, import: ImportRow) -> u32
    ensures { result ≡ spec.seal_of parts.now import import.kind }
{
    match import.kind {
        SlotKind::Sealed => seal_type(parts, import.first),
        _ => 0,
    }
}

fn slot_label<'a>(parts: &'a Parts, owner: &'a str, slot: &'a Slot) -> Label<'a>
    ensures { label_of result ≡ spec.slot_label parts.now owner.now slot.now }
{
    let mut label = owned(owner);
    label.name = slot.name.as_str();
    label.of = of_slot(parts, slot.row);
    label.seal = seal_of(parts, slot.row);
    label
}

fn export_label<'a>(owner: &'a str, export: &'a Export) -> Label<'a>
    ensures { label_of result ≡ spec.export_label owner.now export.now }
{
    let mut label = owned(owner);
    label.name = export.name.as_str();
    label.export = export.row;
    label
}

fn add_slots<'a>(
    labels: &mut Vec<Label<'a>>,
    parts: &'a Parts,
    owner: &'a str,
    slots: &'a [Slot],
) -> Result<(), AllocError>
    ensures { OnOk result
        (shown labels.new.items ≡ shown labels.old.items
        ++ map (spec.slot_label parts.now owner.now) slots.now) }
{
    for slot in slots {
        labels.push(slot_label(parts, owner, slot))?;
    }
    Ok(())
}

fn add_exports<'a>(
    labels: &mut Vec<Label<'a>>,
    owner: &'a str,
    exports: &'a [Export],
) -> Result<(), AllocError>
    ensures { OnOk result
        (shown labels.new.items ≡ shown labels.old.items
        ++ map (spec.export_label owner.now) exports.now) }
{
    for export in exports {
        labels.push(export_label(owner, export))?;
    }
    Ok(())
}

fn add_compartment<'a>(
    labels: &mut Vec<Label<'a>>,
    parts: &'a Parts,
    compartment: &'a Compartment,
) -> Result<(), AllocError>
    ensures { OnOk result
        (shown labels.new.items ≡ shown labels.old.items
        ++ spec.compartment_labels parts.now compartment.now) }
{
    let code = &compartment.code;
    let owner = code.name.as_str();
    labels.push(owned(owner))?;
    labels.push(owned(owner))?;
    add_slots(labels, parts, owner, code.slots.as_slice())?;
    add_exports(labels, owner, code.exports.as_slice())
}

fn add_compartments<'a>(
    labels: &mut Vec<Label<'a>>,
    parts: &'a Parts,
    compartments: &'a [Compartment],
) -> Result<(), AllocError>
    ensures { OnOk result
        (shown labels.new.items ≡ shown labels.old.items
        ++ flat_map (spec.compartment_labels parts.now) compartments.now) }
{
    for compartment in compartments {
        add_compartment(labels, parts, compartment)?;
    }
    Ok(())
}

fn add_library<'a>(
    labels: &mut Vec<Label<'a>>,
    parts: &'a Parts,
    code: &'a Code,
) -> Result<(), AllocError>
    ensures { OnOk result
        (shown labels.new.items ≡ shown labels.old.items
        ++ spec.library_labels parts.now code.now) }
{
    let owner = code.name.as_str();
    labels.push(owned(owner))?;
    add_slots(labels, parts, owner, code.slots.as_slice())?;
    add_exports(labels, owner, code.exports.as_slice())
}

fn add_libraries<'a>(
    labels: &mut Vec<Label<'a>>,
    parts: &'a Parts,
    libraries: &'a [Code],
) -> Result<(), AllocError>
    ensures { OnOk result
        (shown labels.new.items ≡ shown labels.old.items
        ++ flat_map (spec.library_labels parts.now) libraries.now) }
{
    for library in libraries {
        add_library(labels, parts, library)?;
    }
    Ok(())
}

fn add_threads<'a>(labels: &mut Vec<Label<'a>>, threads: &'a [Thread]) -> Result<(), AllocError>
    ensures { OnOk result
        (shown labels.new.items ≡ shown labels.old.items
        ++ map (λ (t : ThreadRow). spec.owner_label t.name) threads.now) }
{
    for thread in threads {
        labels.push(owned(thread.name.as_str()))?;
    }
    Ok(())
}

/// The labels of an image's parts, in the order of their entries' numbers.
#[tactic(auto, unfolding(def_report::specs::Labels::labels_of))]
pub(crate) fn labels_of<'a>(alloc: Global, parts: &'a Parts) -> Result<Vec<Label<'a>>, AllocError>
    ensures { IfOk result (λ v. shown v.items ≡ spec.labels_of parts.now) }
{
    let mut labels = Vec::new(alloc);
    add_compartments(&mut labels, parts, parts.compartments.as_slice())?;
    add_libraries(&mut labels, parts, parts.libraries.as_slice())?;
    add_threads(&mut labels, parts.threads.as_slice())?;
    Ok(labels)
}
