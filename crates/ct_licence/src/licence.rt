//! Deeds and spans with interrupts off against the report.

ghost use Rattle.std.specs.Prelude.{ℕ, ◌≡◌, ◌+◌, ◌≤◌, ◌↔◌, Bool, true, IsTrue};
ghost use Rattle.ct_entry.specs.declared.acts.Act.TheVariants.{Call};
ghost use Rattle.def_words.specs.Permissions.{bit, load_data, store_data};
ghost use Rattle.def_confined.specs.Licensed.{IsDeviceAccess, IsLicensed, IsQuotaUse, Licensed, OffLicensed};

use crate::rows::{disabled, named, reaches};
use crate::traps::is_trap;
use ct_entry::{Act, Deed, Entries, Entry, Kind, Owned};
use ct_graph::Graph;
use def_profile::rights::{LD, SD};

/// Whether the report licenses a deed, by the graph of its entries (docs/use/report.md):
///
/// - a call, where the entry is a call import that names the export, and its owner reaches the actor;
/// - a load or store of a device, where the entry is a device import whose owner reaches the actor,
///   the `width` bytes from the address lie in its range, and it has `LD` for a load, `SD` for a
///   store;
/// - an allocation or a free, where the entry is a quota whose owner reaches the actor, and the live
///   charges are at most its limit;
/// - a trap, where the entry is 0, and some check answers its cause, code and register.
pub fn licensed(e: &Entries, g: &Graph, d: &Deed) -> bool
    requires { g.now ≡ e.now }
    ensures { IsTrue result ↔ Licensed e.now d.now }
{
    match d.act {
        Act::Call { export } => call_licensed(e, g, d, export),
        Act::Load { address, width, .. } => load_licensed(e, g, d, address, width),
        Act::Store { address, width, .. } => store_licensed(e, g, d, address, width),
        Act::Allocate { live, .. } => quota_licensed(e, g, d, live),
        Act::Free { live, .. } => quota_licensed(e, g, d, live),
        Act::Trap {
            cause,
            code,
            register,
        } => d.entry == 0 && is_trap(cause, code, register),
    }
}

/// Whether the report licenses a span with interrupts off: its export is one with posture disabled,
/// whose owner reaches the actor.
pub fn off_licensed(e: &Entries, g: &Graph, o: &Owned) -> bool
    requires { g.now ≡ e.now }
    ensures { IsTrue result ↔ OffLicensed e.now o.now }
{
    match named(e, o.export, Kind::Export) {
        Some(row) => { disabled(e, o.export) && reaches(g, row.owner, o.actor) }
        None => false,
    }
}

fn call_licensed(e: &Entries, g: &Graph, d: &Deed, export: u32) -> bool
    requires { g.now ≡ e.now }
    ensures { IsTrue result ↔ IsLicensed e.now d.now (Call export) }
{
    match named(e, d.entry, Kind::Call) {
        Some(row) => row.of == export && reaches(g, row.owner, d.actor),
        None => false,
    }
}

fn load_licensed(e: &Entries, g: &Graph, d: &Deed, address: u32, width: u32) -> bool
    requires { g.now ≡ e.now }
    ensures { IsTrue result ↔ IsDeviceAccess e.now d.now address width load_data }
{
    match named(e, d.entry, Kind::Device) {
        Some(row) => reaches(g, row.owner, d.actor) && covers(row, address, width) && may_load(row),
        None => false,
    }
}

fn store_licensed(e: &Entries, g: &Graph, d: &Deed, address: u32, width: u32) -> bool
    requires { g.now ≡ e.now }
    ensures { IsTrue result ↔ IsDeviceAccess e.now d.now address width store_data }
{
    match named(e, d.entry, Kind::Device) {
        Some(row) => {
            reaches(g, row.owner, d.actor) && covers(row, address, width) && may_store(row)
        }
        None => false,
    }
}

fn quota_licensed(e: &Entries, g: &Graph, d: &Deed, live: u32) -> bool
    requires { g.now ≡ e.now }
    ensures { IsTrue result ↔ IsQuotaUse e.now d.now live }
{
    match named(e, d.entry, Kind::Quota) {
        Some(row) => reaches(g, row.owner, d.actor) && live <= row.limit,
        None => false,
    }
}

/// Whether the `width` bytes from an address lie in a row's range.
fn covers(row: Entry, address: u32, width: u32) -> bool
    ensures { IsTrue result ↔ ((row.base ≤ address) × (address + width ≤ row.base + row.length)) }
{
    let end = u64::from(address) + u64::from(width);
    let top = u64::from(row.base) + u64::from(row.length);
    row.base <= address && end <= top
}

#[tactic(auto, unfolding(def_words::specs::Permissions::bit))]
fn may_load(row: Entry) -> bool
    ensures { result ≡ bit row.rights load_data }
{
    row.rights / LD % 2 == 1
}

#[tactic(auto, unfolding(def_words::specs::Permissions::bit))]
fn may_store(row: Entry) -> bool
    ensures { result ≡ bit row.rights store_data }
{
    row.rights / SD % 2 == 1
}
