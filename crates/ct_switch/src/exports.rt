//! The export that a call enters.

ghost use Rattle.std.specs.Prelude.{◌≡◌};
ghost use Rattle.def_reach.specs.Roots.{compartment_of, turns_interrupts_off, root_of};
ghost use Rattle.ct_switch.specs.Exports.{AreSorted, export_of};

use crate::looking::{gate_of, named};
use ct_entry::{Entries, Mode, Owner};

/// An export by its entry's number: whose it is, the address of its code, the stack that it asks for in bytes, how
/// many arguments it takes, whether a call passes capabilities, and whether it runs with interrupts disabled.
#[derive(Clone, Copy, PartialEq, Eq, Drop)]
pub struct Export {
    pub number: u32,
    pub callee: u32,
    pub code: u32,
    pub stack: u32,
    pub args: u32,
    pub passes: bool,
    pub disabled: bool,
}

/// The index of an owner, among those of its sort.
fn home_of(owner: Owner) -> u32
    ensures { result ≡ compartment_of owner }
{
    match owner {
        Owner::Trusted => 0,
        Owner::Compartment(index) => index,
        Owner::Library(index) => index,
        Owner::Thread(index) => index,
    }
}

/// Whether an export runs with interrupts disabled.
fn is_disabled(posture: Mode) -> bool
    ensures { result ≡ turns_interrupts_off posture }
{
    match posture {
        Mode::Disabled => true,
        _ => false,
    }
}

/// What the entries say of the export with this number.
pub fn export_of(e: &Entries, number: u32) -> Export
    requires { AreSorted e.now.gates }
    ensures { result ≡ export_of e.now number }
{
    let gate = gate_of(&e.gates, number);
    match named(&e.rows, number) {
        Some(row) => Export {
            number,
            callee: home_of(row.owner),
            code: gate.code,
            stack: gate.stack,
            args: gate.args,
            passes: gate.capabilities,
            disabled: is_disabled(gate.posture),
        },
        None => Export {
            number,
            callee: 0,
            code: gate.code,
            stack: gate.stack,
            args: gate.args,
            passes: false,
            disabled: false,
        },
    }
}

/// The number of the export that an entry names; 0 where it names none.
pub fn called(e: &Entries, entry: u32) -> u32
    ensures { result ≡ (root_of e.now entry).of }
{
    match named(&e.rows, entry) {
        Some(row) => row.of,
        None => 0,
    }
}
