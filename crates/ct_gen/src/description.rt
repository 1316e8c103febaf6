//! The description of a firmware, as a JSON value and as a text.

ghost use Rattle.std.specs.Prelude.{◌≡◌, ◌≤◌, ◌<◌, [], ◌∷◌, IfOk, OnOk, Some, map, string_bytes};
ghost use Rattle.serde_json.specs.Data.{string};
ghost use Rattle.serde_json.specs.Read.{read};
ghost use Rattle.serde_json.specs.View.{members_view, view};
ghost use Rattle.def_gen.specs.Description as spec;
ghost use Rattle.ct_gen.specs.Members.{with_access, with_board, with_code, with_entry, with_export, with_running, with_threads};

use crate::numbers::{count_of, following, globals_of, passes_data};
use def_gen::{
    ARGUMENTS, EXPORT_STACK, PORT_BASE, PRIORITY, QUANTUM, QUOTA, RAM_BASE, RAM_SIZE, THREAD_STACK,
};
use serde_json::{Map, Value, json};
use std::alloc::{AllocError, Global};

/// The name of compartment `i`.
fn compartment_name(alloc: Global, i: u32) -> Result<String, AllocError>
    ensures { IfOk result (λ s. string_bytes s ≡ spec.name_of_compartment i) }
{
    format!(in alloc; "n{i}")
}

/// The name of its source.
fn file_name(alloc: Global, i: u32) -> Result<String, AllocError>
    ensures { IfOk result (λ s. string_bytes s ≡ spec.file_name i) }
{
    format!(in alloc; "n{i}.s")
}

/// The name of its export.
fn entry_name(alloc: Global, i: u32) -> Result<String, AllocError>
    ensures { IfOk result (λ s. string_bytes s ≡ spec.name_of_entry i) }
{
    format!(in alloc; "n{i}.go")
}

fn text_value(alloc: Global, text: &str) -> Result<Value, AllocError>
    ensures { IfOk result (λ v. view v ≡ string text.now) }
{
    Ok(Value::String(String::from_str(alloc, text)?))
}

/// The list of one value.
fn list_of(alloc: Global, value: Value) -> Result<Value, AllocError>
    ensures { IfOk result (λ v. view v ≡ spec.array_data (view value ∷ [])) }
{
    let mut values = Vec::new(alloc);
    values.push(value)?;
    Ok(Value::Array(values))
}

fn code_value(alloc: Global, i: u32) -> Result<Value, AllocError>
    ensures { IfOk result (λ v. view v ≡ spec.code_object i) }
{
    let file = file_name(alloc, i)?;
    json!(in alloc; {"file": &file})
}

/// The members with what every export has.
fn add_export(members: &mut Map<String, Value>, alloc: Global) -> Result<(), AllocError>
    ensures { OnOk result (members_view members.new.entries
        ≡ with_export (members_view members.old.entries)) }
{
    serde_json::put(members, alloc, "args", Value::from(ARGUMENTS))?;
    serde_json::put(members, alloc, "at", text_value(alloc, "go")?)?;
    serde_json::put(members, alloc, "name", text_value(alloc, "go")?)?;
    serde_json::put(members, alloc, "stack", Value::from(EXPORT_STACK))
}

/// An export whose calls pass data alone.
fn data_export_value(alloc: Global) -> Result<Value, AllocError>
    ensures { IfOk result (λ v. view v ≡ spec.data_export) }
{
    let mut members = Map::new(alloc);
    add_export(&mut members, alloc)?;
    serde_json::put(&mut members, alloc, "passes", text_value(alloc, "data")?)?;
    Ok(Value::Object(members))
}

/// An export whose calls pass capabilities, too.
fn capability_export_value(alloc: Global) -> Result<Value, AllocError>
    ensures { IfOk result (λ v. view v ≡ spec.capability_export) }
{
    let mut members = Map::new(alloc);
    add_export(&mut members, alloc)?;
    Ok(Value::Object(members))
}

/// The export, by whether calls of it pass data alone.
fn export_value(alloc: Global, passes: bool) -> Result<Value, AllocError>
    ensures { IfOk result (λ v. view v ≡ spec.export passes) }
{
    if passes {
        data_export_value(alloc)
    } else {
        capability_export_value(alloc)
    }
}

/// The list of the one export.
fn exports_value(alloc: Global, passes: bool) -> Result<Value, AllocError>
    ensures { IfOk result (λ v. view v ≡ spec.array_data (spec.export passes ∷ [])) }
{
    let export = export_value(alloc, passes)?;
    list_of(alloc, export)
}

fn port_import_value(alloc: Global) -> Result<Value, AllocError>
    ensures { IfOk result (λ v. view v ≡ spec.port_import) }
{
    json!(in alloc; {"as": "uart", "device": "uart0", "rights": "W"})
}

fn service_import_value(alloc: Global, name: &str) -> Result<Value, AllocError>
    ensures { IfOk result (λ v. view v ≡ spec.service_import name.now) }
{
    json!(in alloc; {"as": name, "service": name})
}

/// The import of the export of the compartment after `i`.
fn next_import_value(alloc: Global, i: u32) -> Result<Value, AllocError>
    requires { i < 64 }
    ensures { IfOk result (λ v. view v ≡ spec.next_import i) }
{
    let entry = entry_name(alloc, i + 1)?;
    json!(in alloc; {"as": "next", "call": &entry})
}

/// All imports, into an empty list.
fn add_imports(values: &mut Vec<Value>, alloc: Global, last: bool, i: u32) -> Result<(), AllocError>
    requires few { i < 64 }
    requires empty { values.old.items ≡ [] }
    ensures { OnOk result (map view values.new.items ≡ spec.import_objects last i) }
{
    values.push(port_import_value(alloc)?)?;
    values.push(service_import_value(alloc, "allocate")?)?;
    values.push(service_import_value(alloc, "free")?)?;
    if !last {
        values.push(next_import_value(alloc, i)?)?;
    }
    Ok(())
}

fn import_values(alloc: Global, last: bool, i: u32) -> Result<Vec<Value>, AllocError>
    requires { i < 64 }
    ensures { IfOk result (λ v. map view v.items ≡ spec.import_objects last i) }
{
    let mut values = Vec::new(alloc);
    add_imports(&mut values, alloc, last, i)?;
    Ok(values)
}

fn quota_value(alloc: Global) -> Result<Value, AllocError>
    ensures { IfOk result (λ v. view v ≡ spec.quota) }
{
    json!(in alloc; {"limit": QUOTA, "name": "q"})
}

/// The list of the one quota.
fn quotas_value(alloc: Global) -> Result<Value, AllocError>
    ensures { IfOk result (λ v. view v ≡ spec.array_data (spec.quota ∷ [])) }
{
    let quota = quota_value(alloc)?;
    list_of(alloc, quota)
}

/// The members with what compartment `i` is: its code, its globals and its name.
fn add_code(
    members: &mut Map<String, Value>,
    alloc: Global,
    globals: u32,
    i: u32,
) -> Result<(), AllocError>
    ensures { OnOk result (members_view members.new.entries
        ≡ with_code globals i (members_view members.old.entries)) }
{
    serde_json::put(members, alloc, "code", code_value(alloc, i)?)?;
    serde_json::put(members, alloc, "globals", Value::from(globals))?;
    serde_json::put(
        members,
        alloc,
        "name",
        Value::String(compartment_name(alloc, i)?),
    )
}

/// The members with what it offers and what it may use: its exports, its imports and its quotas.
fn add_access(
    members: &mut Map<String, Value>,
    alloc: Global,
    last: bool,
    passes: bool,
    i: u32,
) -> Result<(), AllocError>
    requires { i < 64 }
    ensures { OnOk result (members_view members.new.entries
        ≡ with_access last passes i (members_view members.old.entries)) }
{
    serde_json::put(members, alloc, "exports", exports_value(alloc, passes)?)?;
    serde_json::put(
        members,
        alloc,
        "imports",
        Value::Array(import_values(alloc, last, i)?),
    )?;
    serde_json::put(members, alloc, "quotas", quotas_value(alloc)?)
}

/// Compartment `i`, which is the last one or not, and whose calls pass data alone or not.
fn compartment_with(
    alloc: Global,
    last: bool,
    passes: bool,
    globals: u32,
    i: u32,
) -> Result<Value, AllocError>
    requires { i < 64 }
    ensures { IfOk result (λ v. view v ≡ spec.compartment_with last passes globals i) }
{
    let mut members = Map::new(alloc);
    add_code(&mut members, alloc, globals, i)?;
    add_access(&mut members, alloc, last, passes, i)?;
    Ok(Value::Object(members))
}

/// Compartment `i` of so many, by its number.
fn compartment_by(alloc: Global, count: u32, y: u32, i: u32) -> Result<Value, AllocError>
    requires within { i < count }
    requires few { count ≤ 64 }
    ensures { IfOk result (λ v. view v ≡ spec.compartment_by count y i) }
{
    compartment_with(alloc, i + 1 == count, passes_data(y), globals_of(y), i)
}

/// All compartments.
#[tactic(auto, unfolding(def_gen::specs::Description::compartments))]
fn compartment_values(alloc: Global, number: u32) -> Result<Vec<Value>, AllocError>
    ensures { IfOk result (λ v. map view v.items ≡ spec.compartments number) }
{
    let count = count_of(number);
    let mut values = Vec::new(alloc);
    let mut x = number;
    for i in 0..count {
        x = following(x);
        values.push(compartment_by(alloc, count, x, i)?)?;
    }
    Ok(values)
}

fn port_value(alloc: Global) -> Result<Value, AllocError>
    ensures { IfOk result (λ v. view v ≡ spec.port) }
{
    json!(in alloc; {"base": PORT_BASE, "kind": "uart", "name": "uart0"})
}

fn ram_value(alloc: Global) -> Result<Value, AllocError>
    ensures { IfOk result (λ v. view v ≡ spec.ram) }
{
    json!(in alloc; {"base": RAM_BASE, "size": RAM_SIZE})
}

/// The members with a thread's entry and its frames, by how many compartments there are.
fn add_entry(members: &mut Map<String, Value>, alloc: Global, count: u32) -> Result<(), AllocError>
    requires { count ≤ 64 }
    ensures { OnOk result (members_view members.new.entries
        ≡ with_entry count (members_view members.old.entries)) }
{
    serde_json::put(
        members,
        alloc,
        "entry",
        Value::String(entry_name(alloc, 0)?),
    )?;
    serde_json::put(members, alloc, "frames", Value::from(count + 1))
}

/// The members with its name, its priority and its stack.
fn add_running(
    members: &mut Map<String, Value>,
    alloc: Global,
    name: &str,
) -> Result<(), AllocError>
    ensures { OnOk result (members_view members.new.entries
        ≡ with_running name.now (members_view members.old.entries)) }
{
    serde_json::put(members, alloc, "name", text_value(alloc, name)?)?;
    serde_json::put(members, alloc, "priority", Value::from(PRIORITY))?;
    serde_json::put(members, alloc, "stack", Value::from(THREAD_STACK))
}

/// A thread of a firmware with so many compartments.
fn thread_value(alloc: Global, count: u32, name: &str) -> Result<Value, AllocError>
    requires { count ≤ 64 }
    ensures { IfOk result (λ v. view v ≡ spec.thread_json count name.now) }
{
    let mut members = Map::new(alloc);
    add_entry(&mut members, alloc, count)?;
    add_running(&mut members, alloc, name)?;
    Ok(Value::Object(members))
}

fn thread_values(alloc: Global, count: u32) -> Result<Vec<Value>, AllocError>
    requires { count ≤ 64 }
    ensures { IfOk result (λ v. map view v.items ≡ spec.threads count) }
{
    let mut values = Vec::new(alloc);
    values.push(thread_value(alloc, count, "a")?)?;
    values.push(thread_value(alloc, count, "b")?)?;
    Ok(values)
}

/// The members with the devices and the RAM.
fn add_board(members: &mut Map<String, Value>, alloc: Global) -> Result<(), AllocError>
    ensures { OnOk result (members_view members.new.entries
        ≡ with_board (members_view members.old.entries)) }
{
    serde_json::put(
        members,
        alloc,
        "devices",
        list_of(alloc, port_value(alloc)?)?,
    )?;
    serde_json::put(members, alloc, "ram", ram_value(alloc)?)
}

/// The members with the firmware's name, its quantum and its threads.
fn add_threads(
    members: &mut Map<String, Value>,
    alloc: Global,
    count: u32,
) -> Result<(), AllocError>
    requires { count ≤ 64 }
    ensures { OnOk result (members_view members.new.entries
        ≡ with_threads count (members_view members.old.entries)) }
{
    serde_json::put(members, alloc, "firmware", text_value(alloc, "demo")?)?;
    serde_json::put(members, alloc, "quantum", Value::from(QUANTUM))?;
    serde_json::put(
        members,
        alloc,
        "threads",
        Value::Array(thread_values(alloc, count)?),
    )
}

/// The whole of so many compartments.
fn firmware_of(alloc: Global, count: u32, owners: Value) -> Result<Value, AllocError>
    requires { count ≤ 64 }
    ensures { IfOk result (λ v. view v ≡ spec.firmware_over count (view owners)) }
{
    let mut members = Map::new(alloc);
    serde_json::put(&mut members, alloc, "compartments", owners)?;
    add_board(&mut members, alloc)?;
    add_threads(&mut members, alloc, count)?;
    Ok(Value::Object(members))
}

#[tactic(auto, unfolding(def_gen::specs::Description::firmware))]
fn firmware_value(alloc: Global, number: u32) -> Result<Value, AllocError>
    ensures { IfOk result (λ v. view v ≡ spec.firmware number) }
{
    let owners = Value::Array(compartment_values(alloc, number)?);
    firmware_of(alloc, count_of(number), owners)
}

/// The text of the description, which reads back as its value.
pub(crate) fn text(alloc: Global, number: u32) -> Result<String, AllocError>
    ensures text { IfOk result (λ s. string_bytes s ≡ spec.description number) }
    ensures reads { IfOk result (λ s. read (string_bytes s) ≡ Some (spec.firmware number)) }
{
    let value = firmware_value(alloc, number)?;
    let text = value.to_string(alloc)?;
    Ok(text)
}
