//! A firmware of three compartments and a library: `app` and `friend` share an object with letter C,
//! `driver` stands alone. Each answer is worked out by hand from what a deed needs.

ghost use Rattle.std.specs.Prelude.{◌≡◌};

use crate::graph::{empty, graph_of};
use crate::seen::{is, put};
use ct_entry::Owner::{Compartment, Library, Thread};
use ct_entry::{Act, Deed, Entries, Entry, Gate, Kind, Mode, Owned, Owner};
use ct_graph::Graph;
use ct_licence::{licensed, off_licensed};
use def_refusals::NoMemory;
use std::alloc::AllocError;
use std::process::Abort;

const APP: u32 = 0;

const DRIVER: u32 = 1;

const FRIEND: u32 = 2;

const UART: u32 = 4;

const PINS: u32 = 5;

const PUT_IMPORT: u32 = 6;

const QUOTA: u32 = 7;

const PUT: u32 = 12;

const STOP: u32 = 13;

const CRITICAL: u32 = 17;

const PLAIN: u32 = 18;

/// Rights GL LD, GL SD, GL LG SD LM LD MC.
const READ: u32 = 33;

const WRITE: u32 = 5;

const WITH_C: u32 = 111;

/// A row of the firmware: whose it is, what it gives, its base, its rights, what it names, and its
/// limit.
type Row = (Owner, Kind, u32, u32, u32, u32);

const ROWS: [Row; 19] = [
    (Compartment(APP), Kind::Code, 4096, 0, 0, 0),
    (Compartment(APP), Kind::Globals, 8192, 0, 0, 0),
    (Compartment(APP), Kind::Library, 16_384, 0, CRITICAL, 0),
    (Compartment(APP), Kind::Device, 65_536, READ, 0, 0),
    (Compartment(APP), Kind::Device, 4_294_967_280, WRITE, 1, 0),
    (Compartment(APP), Kind::Call, 20_480, READ, PUT, 0),
    (Compartment(APP), Kind::Quota, 24_576, READ, 0, 64),
    (Compartment(APP), Kind::Shared, 28_672, WITH_C, 0, 0),
    (Compartment(APP), Kind::Export, 32_768, READ, 0, 0),
    (Compartment(DRIVER), Kind::Code, 36_864, 0, 0, 0),
    (Compartment(DRIVER), Kind::Shared, 28_672, READ, 0, 0),
    (Compartment(DRIVER), Kind::Export, 20_480, READ, 0, 0),
    (Compartment(DRIVER), Kind::Export, 20_496, READ, 0, 0),
    (Compartment(FRIEND), Kind::Code, 40_960, 0, 0, 0),
    (Compartment(FRIEND), Kind::Shared, 28_672, WITH_C, 0, 0),
    (Library(0), Kind::Code, 16_384, 0, 0, 0),
    (Library(0), Kind::Export, 16_384, 0, 0, 0),
    (Library(0), Kind::Export, 16_384, 0, 0, 0),
    (Thread(0), Kind::Stack, 45_056, 0, 0, 0),
];

/// The exports' numbers and postures.
const GATES: [(u32, Mode); 5] = [
    (9, Mode::Enabled),
    (PUT, Mode::Enabled),
    (STOP, Mode::Disabled),
    (CRITICAL, Mode::Disabled),
    (PLAIN, Mode::Inherit),
];

fn entry(row: &Row) -> Entry {
    let (owner, kind, base, rights, of, limit) = *row;
    Entry {
        owner,
        kind,
        base,
        length: 16,
        rights,
        of,
        limit,
    }
}

fn gate(row: &(u32, Mode)) -> Gate {
    let (entry, posture) = *row;
    Gate {
        entry,
        code: 0,
        stack: 0,
        args: 0,
        posture,
        capabilities: false,
    }
}

fn put_firmware(entries: &mut Entries) -> Result<(), AllocError> {
    for row in &ROWS {
        put(&mut entries.rows, entry(row))?;
    }
    for row in &GATES {
        put(&mut entries.gates, gate(row))?;
    }
    Ok(())
}

/// What a deed does, by the numbers that count.
#[derive(Clone, Copy, Drop)]
enum What {
    /// The export.
    Call(u32),
    /// The address, and the width.
    Load(u32, u32),
    Store(u32, u32),
    /// The quota's live charges after it.
    Allocate(u32),
    Free(u32),
    /// The cause, the code, and the register.
    Trap(u32, u32, u32),
}

use What::{Allocate, Call, Free, Load, Store, Trap};

fn act(what: What) -> Act {
    match what {
        Call(export) => Act::Call { export },
        Load(address, width) => Act::Load {
            address,
            width,
            value: 7,
        },
        Store(address, width) => Act::Store {
            address,
            width,
            value: 7,
        },
        Allocate(live) => Act::Allocate {
            number: 1,
            base: 49_152,
            length: 24,
            live,
        },
        Free(live) => Act::Free {
            number: 1,
            base: 49_152,
            length: 24,
            live,
        },
        Trap(cause, code, register) => Act::Trap {
            cause,
            code,
            register,
        },
    }
}

/// Who does what by which entry, and whether that is licensed.
type Asked = (u32, u32, What, bool);

fn see_deeds(rt: &impl Abort, entries: &Entries, graph: &Graph)
    requires { graph.now ≡ entries.now }
{
    for (place, row) in DEEDS.iter().enumerate() {
        let (actor, entry, what, answer) = *row;
        let deed = Deed {
            thread: 0,
            actor,
            entry,
            act: act(what),
        };
        is(rt, place, licensed(entries, graph, &deed) == answer);
    }
}

/// Who runs with interrupts off in which export, and whether that is licensed.
const SPANS: [(u32, u32, bool); 9] = [
    (DRIVER, STOP, true),
    (APP, STOP, false),
    // the library's export, for whom its importer reaches
    (APP, CRITICAL, true),
    (FRIEND, CRITICAL, true),
    (DRIVER, CRITICAL, false),
    // postures enabled and inherit; no export
    (DRIVER, PUT, false),
    (APP, PLAIN, false),
    (APP, UART, false),
    (APP, 0, false),
];

fn see_spans(rt: &impl Abort, entries: &Entries, graph: &Graph)
    requires { graph.now ≡ entries.now }
{
    for (place, row) in SPANS.iter().enumerate() {
        let (actor, export, answer) = *row;
        let span = Owned {
            thread: 0,
            actor,
            export,
        };
        is(rt, place, off_licensed(entries, graph, &span) == answer);
    }
}

const DEEDS: [Asked; 39] = [
    // calls
    (APP, PUT_IMPORT, Call(PUT), true),
    // the owner's reach: a friend may use it, the callee may not
    (FRIEND, PUT_IMPORT, Call(PUT), true),
    (DRIVER, PUT_IMPORT, Call(PUT), false),
    // another export; entries that are no call import
    (APP, PUT_IMPORT, Call(STOP), false),
    (APP, PUT, Call(PUT), false),
    (APP, UART, Call(0), false),
    (APP, 0, Call(0), false),
    (APP, 20, Call(PUT), false),
    (9, PUT_IMPORT, Call(PUT), false),
    // devices
    (APP, UART, Load(65_536, 8), true),
    (APP, UART, Load(65_548, 4), true),
    (FRIEND, UART, Load(65_536, 1), true),
    (DRIVER, UART, Load(65_536, 1), false),
    // one byte past the range, one before it
    (APP, UART, Load(65_549, 4), false),
    (APP, UART, Load(65_535, 1), false),
    // the right of the act
    (APP, UART, Store(65_536, 4), false),
    (APP, PINS, Load(4_294_967_280, 4), false),
    (APP, PINS, Store(4_294_967_280, 4), true),
    // a range that ends where addresses end
    (APP, PINS, Store(4_294_967_292, 4), true),
    (APP, PINS, Store(4_294_967_295, 4), false),
    // a quota is no device
    (APP, QUOTA, Load(24_576, 4), false),
    // quotas
    (APP, QUOTA, Allocate(64), true),
    (APP, QUOTA, Allocate(65), false),
    (FRIEND, QUOTA, Free(0), true),
    (APP, QUOTA, Free(65), false),
    (DRIVER, QUOTA, Allocate(8), false),
    (APP, UART, Allocate(0), false),
    // traps
    (APP, 0, Trap(28, 2, 5), true),
    (DRIVER, 0, Trap(28, 21, 15), true),
    (APP, 0, Trap(28, 24, 16), true),
    (APP, 0, Trap(28, 1, 16), true),
    (APP, 0, Trap(11, 0, 0), true),
    // a trap names no entry
    (APP, UART, Trap(28, 2, 5), false),
    // a store's code of the program counter; a system register's of a register; no such register
    (APP, 0, Trap(28, 19, 16), false),
    (APP, 0, Trap(28, 24, 5), false),
    (APP, 0, Trap(28, 2, 17), false),
    // no cause 1; another cause has no code and no register
    (APP, 0, Trap(1, 0, 0), false),
    (APP, 0, Trap(2, 2, 0), false),
    (APP, 0, Trap(2, 0, 5), false),
];

fn see_firmware(rt: &(impl Abort + AllocGlobal), entries: &Entries) -> Result<(), NoMemory> {
    let graph = graph_of(rt, entries)?;
    see_deeds(rt, entries, &graph);
    see_spans(rt, entries, &graph);
    drop(graph);
    Ok(())
}

#[test]
fn deeds_and_spans(rt: HostRuntime) -> Result<(), NoMemory> {
    let mut entries = empty(rt.alloc());
    put_firmware(&mut entries)?;
    let seen = see_firmware(&rt, &entries);
    drop(entries);
    seen
}
