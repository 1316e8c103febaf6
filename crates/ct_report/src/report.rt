//! The report as one JSON value, and its line.

ghost use Rattle.std.specs.Prelude.{ℕ, ◌≡◌, ◌-◌, ◌+◌, ◌≤◌, ◌++◌, [], ◌∷◌, length, map, IfOk, OnOk, string_bytes};
ghost use Rattle.serde_json.specs.Data.{put};
ghost use Rattle.serde_json.specs.View.{members_view, view};
ghost use Rattle.serde_json.specs.Written.{compact_text};
ghost use Rattle.def_image.specs.Sound.{Sound, ThreadFits};
ghost use Rattle.std.specs.List.{AllByRecursion};
ghost use Rattle.def_report.specs.Report as spec;
ghost use Rattle.ct_report.specs.Members.{with_access, with_firmware, with_owners, with_threads};

use crate::edges::edge_values;
use crate::labels::labels_of;
use crate::lines::{add_number, add_text, entry_values};
use ct_entries::export_number;
use ct_entry::{Device, Entries};
use ct_graph::Graph;
use ct_image_parts::{Code, Compartment, Parts, Thread};
use serde_json::{Map, Value, json};
use std::alloc::{AllocError, Global};

fn device_value(alloc: Global, device: &Device) -> Result<Value, AllocError>
    ensures { IfOk result (λ v. view v ≡ spec.device_data device.now) }
{
    json!(in alloc; {
        "base": device.base,
        "kind": device.kind.name(),
        "name": &device.name
    })
}

fn device_values(alloc: Global, devices: &[Device]) -> Result<Vec<Value>, AllocError>
    ensures { IfOk result (λ v. map view v.items ≡ map spec.device_data devices.now) }
{
    let mut values = Vec::new(alloc);
    for device in devices {
        values.push(device_value(alloc, device)?)?;
    }
    Ok(values)
}

fn compartment_value(alloc: Global, compartment: &Compartment) -> Result<Value, AllocError>
    ensures { IfOk result (λ v. view v ≡ spec.compartment_data compartment.now) }
{
    let name = compartment.code.name.as_str();
    Ok(Value::String(String::from_str(alloc, name)?))
}

fn compartment_values(alloc: Global, compartments: &[Compartment]) -> Result<Vec<Value>, AllocError>
    ensures { IfOk result (λ v. map view v.items ≡ map spec.compartment_data compartments.now) }
{
    let mut values = Vec::new(alloc);
    for compartment in compartments {
        values.push(compartment_value(alloc, compartment)?)?;
    }
    Ok(values)
}

fn library_value(alloc: Global, code: &Code) -> Result<Value, AllocError>
    ensures { IfOk result (λ v. view v ≡ spec.library_data code.now) }
{
    Ok(Value::String(String::from_str(alloc, code.name.as_str())?))
}

fn library_values(alloc: Global, libraries: &[Code]) -> Result<Vec<Value>, AllocError>
    ensures { IfOk result (λ v. map view v.items ≡ map spec.library_data libraries.now) }
{
    let mut values = Vec::new(alloc);
    for library in libraries {
        values.push(library_value(alloc, library)?)?;
    }
    Ok(values)
}

fn thread_value(alloc: Global, parts: &Parts, thread: &Thread) -> Result<Value, AllocError>
    requires sound { Sound parts.now }
    requires fits { ThreadFits parts.now thread.now }
    ensures { IfOk result (λ v. view v ≡ spec.thread_data parts.now thread.now) }
{
    let entry = export_number(parts, thread.compartment, thread.export);
    json!(in alloc; {
        "entry": entry,
        "name": &thread.name,
        "priority": thread.priority
    })
}

fn thread_values(alloc: Global, parts: &Parts, threads: &[Thread]) -> Result<Vec<Value>, AllocError>
    requires sound { Sound parts.now }
    requires fit { AllByRecursion (ThreadFits parts.now) threads.now }
    ensures { IfOk result (λ v. map view v.items ≡ map (spec.thread_data parts.now) threads.now) }
{
    let mut values = Vec::new(alloc);
    for thread in threads {
        values.push(thread_value(alloc, parts, thread)?)?;
    }
    Ok(values)
}

fn heap_value(alloc: Global, parts: &Parts) -> Result<Value, AllocError>
    ensures { IfOk result (λ v. view v ≡ spec.heap_data parts.now) }
{
    let end = u64::from(parts.ram) + u64::from(parts.size);
    let length = end.saturating_sub(u64::from(parts.heap));
    json!(in alloc; {"base": parts.heap, "length": length})
}

/// The members with a list of values.
fn add_list(
    members: &mut Map<String, Value>,
    alloc: Global,
    key: &str,
    values: Vec<Value>,
) -> Result<(), AllocError>
    ensures { OnOk result (members_view members.new.entries
        ≡ put key.now (spec.list (map view values.items)) (members_view members.old.entries)) }
{
    serde_json::put(members, alloc, key, Value::Array(values))
}

/// The members with the names of the compartments and of the libraries.
fn add_owners(
    members: &mut Map<String, Value>,
    alloc: Global,
    parts: &Parts,
) -> Result<(), AllocError>
    ensures { OnOk result (members_view members.new.entries
        ≡ with_owners parts.now (members_view members.old.entries)) }
{
    let compartments = compartment_values(alloc, parts.compartments.as_slice())?;
    add_list(members, alloc, "compartments", compartments)?;
    let libraries = library_values(alloc, parts.libraries.as_slice())?;
    add_list(members, alloc, "libraries", libraries)
}

/// The members with the firmware's name, its devices, its heap and its quantum.
fn add_firmware(
    members: &mut Map<String, Value>,
    alloc: Global,
    parts: &Parts,
) -> Result<(), AllocError>
    ensures { OnOk result (members_view members.new.entries
        ≡ with_firmware parts.now (members_view members.old.entries)) }
{
    add_text(members, alloc, "firmware", parts.name.as_str())?;
    let devices = device_values(alloc, parts.devices.rows.as_slice())?;
    add_list(members, alloc, "devices", devices)?;
    let heap = heap_value(alloc, parts)?;
    serde_json::put(members, alloc, "heap", heap)?;
    add_number(members, alloc, "quantum", u64::from(parts.quantum))
}

/// The members with the entries and the edges.
fn add_access(
    members: &mut Map<String, Value>,
    alloc: Global,
    parts: &Parts,
    entries: &Entries,
    graph: &Graph,
) -> Result<(), AllocError>
    requires sound { Sound parts.now }
    requires graph { graph.now ≡ entries.now }
    ensures { OnOk result (members_view members.new.entries
        ≡ with_access parts.now entries.now (members_view members.old.entries)) }
{
    let edges = edge_values(alloc, graph, parts.compartments.len() as u32)?;
    add_list(members, alloc, "edges", edges)?;
    let labels = labels_of(alloc, parts)?;
    let rows = entry_values(alloc, entries.rows.as_slice(), labels.as_slice())?;
    add_list(members, alloc, "entries", rows)
}

/// The members with the threads.
#[tactic(auto, using(crate::proofs::Entering::threads_fit))]
fn add_threads(
    members: &mut Map<String, Value>,
    alloc: Global,
    parts: &Parts,
) -> Result<(), AllocError>
    requires { Sound parts.now }
    ensures { OnOk result (members_view members.new.entries
        ≡ with_threads parts.now (members_view members.old.entries)) }
{
    let threads = thread_values(alloc, parts, parts.threads.as_slice())?;
    add_list(members, alloc, "threads", threads)
}

#[tactic(auto, unfolding(def_report::specs::Report::data_over))]
fn report_value(
    alloc: Global,
    parts: &Parts,
    entries: &Entries,
    graph: &Graph,
) -> Result<Value, AllocError>
    requires sound { Sound parts.now }
    requires graph { graph.now ≡ entries.now }
    ensures { IfOk result (λ v. view v ≡ spec.data_over parts.now entries.now) }
{
    let mut members = Map::new(alloc);
    add_owners(&mut members, alloc, parts)?;
    add_firmware(&mut members, alloc, parts)?;
    add_access(&mut members, alloc, parts, entries, graph)?;
    add_threads(&mut members, alloc, parts)?;
    Ok(Value::Object(members))
}

/// The report line, its line feed included.
pub(crate) fn line_of(
    alloc: Global,
    parts: &Parts,
    entries: &Entries,
    graph: &Graph,
) -> Result<String, AllocError>
    requires sound { Sound parts.now }
    requires graph { graph.now ≡ entries.now }
    ensures { IfOk result
        (λ s. string_bytes s ≡ compact_text (spec.data_over parts.now entries.now) ++ 10 ∷ []) }
{
    let value = report_value(alloc, parts, entries, graph)?;
    let mut text = value.to_string(alloc)?;
    text.push('\n')?;
    Ok(text)
}
