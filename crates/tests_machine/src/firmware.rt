//! A firmware of three compartments, each with an import of the next one's export (the last one's names an entry that
//! isn't there), and a thread of the first. Numbers are put together by hand from the layout of docs/use/machine.md.

ghost use Rattle.std.specs.Prelude.{◌≡◌, ◌+◌, ◌≤◌, ◌<◌, ◌%◌};
ghost use Rattle.def_profile.specs.declared.limits.TheConstants.{RAM_END};
ghost use Rattle.ct_areas.specs.Threads.{HasArea};

use ct_areas::{Area, First, Fresh, Thread};
use ct_cap::{Live, Posture, Shadow, derive, shrink};
use ct_entry::{Entries, Entry, Gate, Kind, Mode, Owner};
use ct_mem::{Memory, Plain};
use def_profile::rights::{
    CODE_RIGHTS, EXECUTABLE_ROOT, EXPORT_RIGHTS, GLOBALS_RIGHTS, MEMORY_ROOT, STACK_RIGHTS,
};
use def_profile::seals::{EXPORT_TYPE, RETURN_ENABLE};
use def_refusals::NoMemory;
use std::alloc::{AllocError, Global};

/// RAM's first address.
pub const RAM: u32 = 0x8000_0000;

/// Where the first compartment's code begins; each has 64 bytes.
pub const CODE: u32 = 0x8000_0000;

/// Where the first compartment's export table begins; each has 32 bytes, its head and the row of its one export.
const TABLE: u32 = 0x8000_0200;

/// Where the first compartment's globals begin; each has 16 bytes.
pub const GLOBALS: u32 = 0x8000_0400;

/// Where the trusted region begins.
pub const TRUSTED: u32 = 0x8000_1000;

/// Entry k + 1: compartment n has entries 4 n + 1 to 4 n + 4, which are its code, its globals, a call of the next
/// one's export, and its export.
fn row(k: u32) -> Entry
    requires { k < 12 }
{
    let n = k / 4;
    let (kind, base, length, of) = match k % 4 {
        0 => (Kind::Code, CODE + 64 * n, 64, 0),
        1 => (Kind::Globals, GLOBALS + 16 * n, 16, 0),
        2 => (Kind::Call, TABLE + 32 * n + 48, 16, 4 * n + 8),
        _ => (Kind::Export, TABLE + 32 * n + 16, 16, 0),
    };
    Entry {
        owner: Owner::Compartment(n),
        kind,
        base,
        length,
        rights: 0,
        of,
        limit: 0,
    }
}

/// The export of compartment n passes plain values, takes two arguments and asks for so many bytes of stack.
fn gate(n: u32, stack: u32) -> Gate
    requires { n < 3 }
{
    Gate {
        entry: 4 * n + 4,
        code: CODE + 64 * n + 8,
        stack,
        args: 2,
        posture: Mode::Enabled,
        capabilities: false,
    }
}

fn rows(alloc: Global) -> Result<Vec<Entry>, AllocError> {
    let mut rows = Vec::new(alloc);
    for k in 0..12u32 {
        rows.push(row(k))?;
    }
    Ok(rows)
}

fn gates(alloc: Global, stack: u32) -> Result<Vec<Gate>, AllocError> {
    let mut gates = Vec::new(alloc);
    for n in 0..3u32 {
        gates.push(gate(n, stack))?;
    }
    Ok(gates)
}

/// The three compartments, whose exports ask for so many bytes of stack.
pub fn entries(alloc: Global, stack: u32) -> Result<Entries, AllocError> {
    let gates = gates(alloc, stack)?;
    Ok(Entries {
        rows: rows(alloc)?,
        gates,
    })
}

fn from(root: u32) -> Shadow {
    Shadow { root, source: 0 }
}

/// Code of compartment n, at an address of it.
fn code(n: u32, address: u32, kind: u32) -> Live
    requires { n < 3 }
{
    derive(
        EXECUTABLE_ROOT,
        CODE + 64 * n,
        64,
        CODE_RIGHTS,
        address,
        kind,
        from(4 * n + 1),
    )
}

/// The globals of compartment n.
fn globals(n: u32) -> Live
    requires { n < 3 }
{
    let base = GLOBALS + 16 * n;
    derive(
        MEMORY_ROOT,
        base,
        16,
        GLOBALS_RIGHTS,
        base,
        0,
        from(4 * n + 2),
    )
}

/// The heads of the export tables are stored, where memory reaches so far.
pub fn heads(mem: &mut Plain) {
    for n in 0..3u32 {
        if mem.size() >= 0x1000 {
            let at = TABLE - RAM + 32 * n;
            mem.store_cap(at, shrink(code(n, CODE + 64 * n, 0)));
            mem.store_cap(at + 8, shrink(globals(n)));
        }
    }
}

/// What compartment n holds for its call: a return sentry in c1, its stack at an address in c2, the import in c6.
pub fn dress(regs: &mut [Live; 16], n: u32, stack: u32, length: u32, at: u32)
    requires { n < 3 }
{
    regs[1] = code(0, CODE + 4, RETURN_ENABLE);
    regs[2] = derive(MEMORY_ROOT, stack, length, STACK_RIGHTS, at, 0, from(13));
    let import = TABLE + 32 * n + 48;
    regs[6] = derive(
        MEMORY_ROOT,
        import,
        16,
        EXPORT_RIGHTS,
        import,
        EXPORT_TYPE,
        from(4 * n + 3),
    );
}

/// A thread of the first compartment with these registers and this area, in memory of so many bytes that else reads as
/// zero.
pub fn thread(
    alloc: Global,
    size: u32,
    regs: [Live; 16],
    area: Area,
) -> Result<(Plain, Thread), NoMemory>
    requires whole { size % 16 ≡ 0 }
    requires area { HasArea size area }
    requires end { area.stack + area.stack_length ≤ RAM_END }
{
    let posture = Posture {
        off: false,
        source: 0,
    };
    let mut mem = Plain::new(alloc, size)?;
    let fresh = Fresh {
        first: First {
            pcc: code(0, CODE + 8, 0),
            regs,
            posture,
            actor: 0,
            export: 4,
        },
        area,
    };
    let t = Thread::new(&mut mem, &fresh);
    Ok((mem, t))
}
