//! Entries as JSON values.

ghost use Rattle.std.specs.Prelude.{◌≡◌, ◌+◌, [], ◌∷◌, map, IfOk, OnOk, codes, string_bytes};
ghost use Rattle.serde_json.specs.Data.{put, string};
ghost use Rattle.serde_json.specs.View.{members_view, view};
ghost use Rattle.ct_entry.specs.declared.rows.Kind.TheVariants as kind;
ghost use Rattle.def_desc.specs.References.{export_name};
ghost use Rattle.def_report.specs.Lines as spec;
ghost use Rattle.def_report.specs.Rights.{rights_text};
ghost use Rattle.ct_report.specs.Members.{export_members, named_members, slot_members, with_call, with_place, with_plain};
ghost use Rattle.ct_report.specs.Shown.{line_of, of_name, shown};

use crate::labels::{Label, Of};
use crate::rights::{add_after, rights_text};
use ct_entry::{Entry, Kind, Mode, Owner};
use serde_json::{Map, Value};
use std::alloc::{AllocError, Global};

/// An entry with its number and its label.
#[derive(Clone, Copy)]
struct Line<'a> {
    number: usize,
    entry: Entry,
    label: Label<'a>,
}

/// The members with a text.
pub(crate) fn add_text(
    members: &mut Map<String, Value>,
    alloc: Global,
    key: &str,
    text: &str,
) -> Result<(), AllocError>
    ensures { OnOk result (members_view members.new.entries
        ≡ put key.now (string text.now) (members_view members.old.entries)) }
{
    let value = Value::String(String::from_str(alloc, text)?);
    serde_json::put(members, alloc, key, value)
}

/// The members with a number.
pub(crate) fn add_number(
    members: &mut Map<String, Value>,
    alloc: Global,
    key: &str,
    number: u64,
) -> Result<(), AllocError>
    ensures { OnOk result (members_view members.new.entries
        ≡ put key.now (spec.num number) (members_view members.old.entries)) }
{
    serde_json::put(members, alloc, key, Value::from(number))
}

/// The members with the names of permissions.
fn add_rights(
    members: &mut Map<String, Value>,
    alloc: Global,
    rights: u32,
) -> Result<(), AllocError>
    ensures { OnOk result (members_view members.new.entries
        ≡ put (codes "rights") (string (rights_text rights)) (members_view members.old.entries)) }
{
    let value = Value::String(rights_text(alloc, rights)?);
    serde_json::put(members, alloc, "rights", value)
}

/// The members with an entry's place: its base, its length and its number.
fn add_place(members: &mut Map<String, Value>, alloc: Global, line: &Line) -> Result<(), AllocError>
    ensures { OnOk result (members_view members.new.entries
        ≡ with_place (line_of line.now) (members_view members.old.entries)) }
{
    add_number(members, alloc, "base", u64::from(line.entry.base))?;
    add_number(members, alloc, "length", u64::from(line.entry.length))?;
    add_number(members, alloc, "number", line.number as u64)
}

/// The members with what every entry has.
fn add_plain(
    members: &mut Map<String, Value>,
    alloc: Global,
    kind: &str,
    line: &Line,
) -> Result<(), AllocError>
    ensures { OnOk result (members_view members.new.entries
        ≡ with_plain kind.now (line_of line.now) (members_view members.old.entries)) }
{
    add_text(members, alloc, "kind", kind)?;
    add_text(members, alloc, "owner", line.label.owner)?;
    add_rights(members, alloc, line.entry.rights)?;
    add_place(members, alloc, line)
}

/// The members of an entry that has a name.
fn named_members(alloc: Global, kind: &str, line: &Line) -> Result<Map<String, Value>, AllocError>
    ensures { IfOk result
        (λ m. members_view m.entries ≡ named_members kind.now (line_of line.now)) }
{
    let mut members = Map::new(alloc);
    add_plain(&mut members, alloc, kind, line)?;
    add_text(&mut members, alloc, "name", line.label.name)?;
    Ok(members)
}

#[tactic(auto, unfolding(def_report::specs::Lines::data_of))]
fn plain_value(alloc: Global, kind: &str, line: &Line) -> Result<Value, AllocError>
    ensures { IfOk result (λ v. view v ≡ spec.data_of (kind.now, []) (line_of line.now)) }
{
    let mut members = Map::new(alloc);
    add_plain(&mut members, alloc, kind, line)?;
    Ok(Value::Object(members))
}

#[tactic(auto, unfolding(def_report::specs::Lines::data_of))]
fn key_value(alloc: Global, line: &Line) -> Result<Value, AllocError>
    ensures { IfOk result
        (λ v. view v ≡ spec.data_of (codes "key", codes "name" ∷ []) (line_of line.now)) }
{
    let members = named_members(alloc, "key", line)?;
    Ok(Value::Object(members))
}

#[tactic(auto, unfolding(def_report::specs::Lines::data_of))]
fn quota_value(alloc: Global, line: &Line) -> Result<Value, AllocError>
    ensures { IfOk result (λ v. view v
        ≡ spec.data_of (codes "quota", codes "limit" ∷ codes "name" ∷ []) (line_of line.now)) }
{
    let mut members = named_members(alloc, "quota", line)?;
    add_number(&mut members, alloc, "limit", u64::from(line.entry.limit))?;
    Ok(Value::Object(members))
}

/// `owner.export`.
fn export_name(alloc: Global, owner: &str, name: &str) -> Result<String, AllocError>
    ensures { IfOk result (λ s. string_bytes s ≡ export_name owner.now name.now) }
{
    let mut text = String::from_str(alloc, owner)?;
    add_after(&mut text, ".", name)?;
    Ok(text)
}

/// The name of what a slot is of.
fn of_text(alloc: Global, of: &Of) -> Result<String, AllocError>
    ensures { IfOk result (λ s. string_bytes s ≡ of_name of.now) }
{
    match *of {
        Of::Named(name) => String::from_str(alloc, name),
        Of::Export(owner, name) => export_name(alloc, owner, name),
    }
}

/// The members of a slot.
fn slot_members(alloc: Global, kind: &str, line: &Line) -> Result<Map<String, Value>, AllocError>
    ensures { IfOk result (λ m. members_view m.entries ≡ slot_members kind.now (line_of line.now)) }
{
    let mut members = named_members(alloc, kind, line)?;
    let of = Value::String(of_text(alloc, &line.label.of)?);
    serde_json::put(&mut members, alloc, "of", of)?;
    Ok(members)
}

#[tactic(auto, unfolding(def_report::specs::Lines::data_of))]
fn slot_value(alloc: Global, kind: &str, line: &Line) -> Result<Value, AllocError>
    ensures { IfOk result (λ v. view v
        ≡ spec.data_of (kind.now, codes "name" ∷ codes "of" ∷ []) (line_of line.now)) }
{
    let members = slot_members(alloc, kind, line)?;
    Ok(Value::Object(members))
}

#[tactic(auto, unfolding(def_report::specs::Lines::data_of))]
fn sealed_value(alloc: Global, line: &Line) -> Result<Value, AllocError>
    ensures { IfOk result (λ v. view v ≡ spec.data_of
        (codes "sealed", codes "name" ∷ codes "of" ∷ codes "type" ∷ []) (line_of line.now)) }
{
    let mut members = slot_members(alloc, "sealed", line)?;
    add_number(&mut members, alloc, "type", u64::from(line.label.seal))?;
    Ok(Value::Object(members))
}

fn posture_text(posture: Mode) -> &'static str
    ensures { result.now ≡ spec.posture_text posture }
{
    match posture {
        Mode::Inherit => "inherit",
        Mode::Disabled => "disabled",
        Mode::Enabled => "enabled",
    }
}

fn passes_text(capabilities: bool) -> &'static str
    ensures { result.now ≡ spec.passes_text capabilities }
{
    if capabilities { "capabilities" } else { "data" }
}

/// The members that each export has, of a compartment or of a library.
fn export_members(alloc: Global, line: &Line) -> Result<Map<String, Value>, AllocError>
    ensures { IfOk result (λ m. members_view m.entries ≡ export_members (line_of line.now)) }
{
    let mut members = named_members(alloc, "export", line)?;
    let posture = posture_text(line.label.export.posture);
    add_text(&mut members, alloc, "posture", posture)?;
    Ok(members)
}

/// An export of a library.
#[tactic(auto, unfolding(def_report::specs::Lines::data_of))]
fn library_export_value(alloc: Global, line: &Line) -> Result<Value, AllocError>
    ensures { IfOk result (λ v. view v
        ≡ spec.data_of (codes "export", codes "name" ∷ codes "posture" ∷ []) (line_of line.now)) }
{
    let members = export_members(alloc, line)?;
    Ok(Value::Object(members))
}

/// The members with what a call of an export takes, passes and needs.
fn add_call(members: &mut Map<String, Value>, alloc: Global, line: &Line) -> Result<(), AllocError>
    ensures { OnOk result (members_view members.new.entries
        ≡ with_call (line_of line.now) (members_view members.old.entries)) }
{
    let export = &line.label.export;
    add_number(members, alloc, "args", u64::from(export.args))?;
    add_text(members, alloc, "passes", passes_text(export.capabilities))?;
    add_number(members, alloc, "stack", u64::from(export.stack))
}

/// An export of a compartment.
#[tactic(auto, unfolding(def_report::specs::Lines::data_of))]
fn export_value(alloc: Global, line: &Line) -> Result<Value, AllocError>
    ensures { IfOk result (λ v. view v ≡ spec.data_of (
      codes "export",
      codes "args" ∷ codes "name"
          ∷ codes "passes" ∷ codes "posture" ∷ codes "stack" ∷ [],
    ) (line_of line.now)) }
{
    let mut members = export_members(alloc, line)?;
    add_call(&mut members, alloc, line)?;
    Ok(Value::Object(members))
}

/// An export, by its owner.
fn owned_export(alloc: Global, line: &Line) -> Result<Value, AllocError>
    ensures { IfOk result (λ v. view v
        ≡ spec.data_of (spec.entry_form line.now.entry.owner kind.Export) (line_of line.now)) }
{
    match line.entry.owner {
        Owner::Library(_) => library_export_value(alloc, line),
        _ => export_value(alloc, line),
    }
}

/// An entry, by its kind.
fn line_value(alloc: Global, line: &Line) -> Result<Value, AllocError>
    ensures { IfOk result (λ v. view v ≡ spec.line_data (line_of line.now)) }
{
    match line.entry.kind {
        Kind::Code => plain_value(alloc, "code", line),
        Kind::Globals => plain_value(alloc, "globals", line),
        Kind::Stack => plain_value(alloc, "stack", line),
        Kind::Device => slot_value(alloc, "device", line),
        Kind::Shared => slot_value(alloc, "shared", line),
        Kind::Sealed => sealed_value(alloc, line),
        Kind::Call => slot_value(alloc, "call", line),
        Kind::Library => slot_value(alloc, "library", line),
        Kind::Service => slot_value(alloc, "service", line),
        Kind::Quota => quota_value(alloc, line),
        Kind::Key => key_value(alloc, line),
        Kind::Export => owned_export(alloc, line),
    }
}

/// The entries with their labels, numbered from 1.
pub(crate) fn entry_values(
    alloc: Global,
    rows: &[Entry],
    labels: &[Label],
) -> Result<Vec<Value>, AllocError>
    ensures { IfOk result (λ v. map view v.items
        ≡ spec.numbered_entries 1 rows.now (shown labels.now)) }
{
    let mut values = Vec::new(alloc);
    for (index, row) in rows.iter().enumerate() {
        match labels.get(index) {
            Some(label) => {
                let number = index + 1;
                let line = Line {
                    number,
                    entry: *row,
                    label: *label,
                };
                values.push(line_value(alloc, &line)?)?;
            }
            None => return Ok(values),
        }
    }
    Ok(values)
}
