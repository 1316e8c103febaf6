//! Loads and stores that tell nothing, through capabilities of the 32 bytes at 0x80000000, over both memories. Words
//! are put together by hand from the fields of docs/use/capabilities.md.

ghost use Rattle.std.specs.Prelude.{◌≡◌, ◌⊎◌, length, false};

use crate::seen;
use ct_cap::{Cap, Live, Shadow, expand};
use ct_loadstore::{filter, load_number, load_register, store_quietly};
use ct_mem::{Memory, Plain};
use ct_planes::Planes;
use def_step::Access;
use std::process::Abort;
use std::test::Fail;

const RAM: u32 = 0x8000_0000;

/// GL LG SD LM LD MC over the 32 bytes of RAM.
const FULL: u32 = 0x7600_0020;

/// The same, sealed as an export is.
const SEALED: u32 = 0x7640_0020;

/// GL LG SD LM SL LD MC over the same.
const STACK: u32 = 0x7E00_0020;

/// GL LG LM LD MC over the same.
const READS: u32 = 0x6E00_0020;

/// GL LD MC over the same.
const READS_DATA: u32 = 0x6800_0020;

/// GL SD MC over the same.
const WRITES: u32 = 0x6000_0020;

/// GL LD SD over the same.
const PLAIN: u32 = 0x6600_0020;

/// GL LG SD LM LD MC over the first 15 bytes.
const SHORT: u32 = 0x7600_000F;

/// GL LG SD LM LD MC from the tenth byte on.
const LATE: u32 = 0x7600_1220;

/// GL LG SD LM SL LD MC over all addresses.
const ALL: u32 = 0x7E3C_0100;

/// GL LD SD over the 16 bytes of a serial port.
const PORT: u32 = 0x6600_0010;

/// The address of the port, and those at and behind the second granule of RAM.
const UART: u32 = 0x1000_0000;

const NEXT: u32 = 0x8000_0008;

const MIDDLE: u32 = 0x8000_000C;

const LAST: u32 = 0x8000_0018;

/// What is taken off or added to an address.
const LESS_4: u32 = 0xFFFF_FFFC;

const LESS_8: u32 = 0xFFFF_FFF8;

/// The capability of an access: whether it is tagged, its high word, its address.
type Through = (bool, u32, u32);

fn untagged(word: u64) -> Cap {
    Cap {
        tag: false,
        word,
        shadow: Shadow { root: 0, source: 0 },
    }
}

/// A capability of a heap object.
fn object(word: u64) -> Cap {
    Cap {
        tag: true,
        word,
        shadow: Shadow { root: 7, source: 9 },
    }
}

/// The capability, of entry 2 where it is tagged.
fn through(x: Through) -> Live {
    let (tag, high, address) = x;
    let root = if tag { 2 } else { 0 };
    expand(Cap {
        tag,
        word: (high as u64) * 0x1_0000_0000 + address as u64,
        shadow: Shadow { root, source: 0 },
    })
}

/// The number that a quiet load gives.
fn load<M: Memory>(mem: &M, x: &Live, width: u32, signed: bool, immediate: u32) -> Option<u32>
    requires { (width ≡ 1) ⊎ (width ≡ 2) ⊎ ((width ≡ 4) × (signed ≡ false)) }
{
    let access = Access {
        loads: true,
        width,
        signed,
        whole: false,
        by: 3,
        immediate,
    };
    load_number(&access, x, mem, RAM)
}

/// The number that a quiet load of a width gives, with its sign or without.
fn number<M: Memory>(mem: &M, x: Through, width: u32, signed: bool, immediate: u32) -> Option<u32> {
    let x = through(x);
    match width {
        1 => load(mem, &x, 1, signed, immediate),
        2 => load(mem, &x, 2, signed, immediate),
        _ => load(mem, &x, 4, false, immediate),
    }
}

/// The capability that a quiet load gives.
fn capability<M: Memory>(mem: &M, x: Through, immediate: u32) -> Option<Cap> {
    let access = Access {
        loads: true,
        width: 8,
        signed: false,
        whole: true,
        by: 3,
        immediate,
    };
    let mut registers = [Live::integer(0); 16];
    registers[3] = through(x);
    if load_register(&mut registers, 4, &access, mem, RAM) {
        let value = registers[4];
        return Some(value.cap);
    }
    None
}

/// A quiet store of a number.
fn store<M: Memory>(mem: &mut M, x: &Live, y: &Live, width: u32, immediate: u32) -> bool
    requires { (width ≡ 1) ⊎ (width ≡ 2) ⊎ (width ≡ 4) }
    ensures { length (M.granules mem.new) ≡ length (M.granules mem.old) }
{
    let access = Access {
        loads: false,
        width,
        signed: false,
        whole: false,
        by: 3,
        immediate,
    };
    store_quietly(&access, x, y, mem, RAM)
}

/// A quiet store of a number of a width.
fn put<M: Memory>(mem: &mut M, x: Through, y: &Live, width: u32, immediate: u32) -> bool
    ensures { length (M.granules mem.new) ≡ length (M.granules mem.old) }
{
    let x = through(x);
    match width {
        1 => store(mem, &x, y, 1, immediate),
        2 => store(mem, &x, y, 2, immediate),
        _ => store(mem, &x, y, 4, immediate),
    }
}

/// A quiet store of a capability.
fn put_whole<M: Memory>(mem: &mut M, x: Through, y: Cap, immediate: u32) -> bool
    ensures { length (M.granules mem.new) ≡ length (M.granules mem.old) }
{
    let access = Access {
        loads: false,
        width: 8,
        signed: false,
        whole: true,
        by: 3,
        immediate,
    };
    store_quietly(&access, &through(x), &expand(y), mem, RAM)
}

/// What memory holds.
fn all<M: Memory>(mem: &M) -> [Cap; 4]
    requires { length (M.granules mem.now) ≡ 4 }
{
    [
        mem.load_cap(0),
        mem.load_cap(8),
        mem.load_cap(16),
        mem.load_cap(24),
    ]
}

/// Of each width, with the sign and without, up to both ends of RAM, before an address and behind it.
const NUMBERS: [(Through, u32, bool, u32, Option<u32>); 17] = [
    ((true, FULL, NEXT), 1, true, 0, Some(0xFFFF_FFF1)),
    ((true, FULL, NEXT), 1, false, 0, Some(0xF1)),
    ((true, FULL, NEXT), 1, true, 7, Some(0x7F)),
    ((true, FULL, NEXT), 1, false, 7, Some(0x7F)),
    ((true, FULL, NEXT), 2, true, 0, Some(0xFFFF_82F1)),
    ((true, FULL, NEXT), 2, false, 0, Some(0x82F1)),
    ((true, FULL, NEXT), 2, true, 6, Some(0x7F86)),
    ((true, FULL, NEXT), 2, false, 4, Some(0x8588)),
    ((true, FULL, NEXT), 4, false, 0, Some(0x8483_82F1)),
    ((true, FULL, NEXT), 4, false, 4, Some(0x7F86_8588)),
    ((true, FULL, NEXT), 4, false, LESS_8, Some(0x8000_0000)),
    ((true, FULL, NEXT), 4, false, LESS_4, Some(0x7600_0020)),
    ((true, FULL, NEXT), 4, false, 20, Some(0)),
    ((true, FULL, NEXT), 1, false, 23, Some(0)),
    ((true, READS_DATA, NEXT), 4, false, 0, Some(0x8483_82F1)),
    ((true, PLAIN, NEXT), 4, false, 0, Some(0x8483_82F1)),
    ((true, ALL, NEXT), 4, false, 0, Some(0x8483_82F1)),
];

/// Untagged, sealed, without LD; a byte past the bounds and before them, and the bytes beside these; misaligned; at a
/// device, below RAM and past its end.
const NO_NUMBERS: [(Through, u32, bool, u32, Option<u32>); 25] = [
    ((false, FULL, NEXT), 4, false, 0, None),
    ((true, SEALED, NEXT), 4, false, 0, None),
    ((true, WRITES, NEXT), 4, false, 0, None),
    ((true, SHORT, NEXT), 4, false, 4, None),
    ((true, SHORT, NEXT), 2, false, 6, None),
    ((true, SHORT, NEXT), 1, true, 7, None),
    ((true, SHORT, NEXT), 1, false, 6, Some(0x86)),
    ((true, SHORT, NEXT), 2, false, 4, Some(0x8588)),
    ((true, LATE, MIDDLE), 4, false, LESS_4, None),
    ((true, LATE, MIDDLE), 1, false, LESS_4, None),
    ((true, LATE, MIDDLE), 1, false, 0xFFFF_FFFD, Some(0x82)),
    ((true, FULL, NEXT), 1, false, 24, None),
    ((true, FULL, NEXT), 4, false, 24, None),
    ((true, FULL, NEXT), 4, false, 0xFFFF_FFF4, None),
    ((true, FULL, NEXT), 2, false, 1, None),
    ((true, FULL, NEXT), 4, false, 1, None),
    ((true, FULL, NEXT), 4, false, 2, None),
    ((true, FULL, NEXT), 4, false, 3, None),
    ((true, PORT, UART), 4, false, 0, None),
    ((true, ALL, UART), 4, false, 0, None),
    ((true, ALL, RAM), 4, false, LESS_4, None),
    ((true, ALL, RAM), 4, false, 28, Some(0)),
    ((true, ALL, RAM), 4, false, 32, None),
    ((true, ALL, 0xFFFF_FFFC), 4, false, 0, None),
    ((true, ALL, 0), 4, false, 0, None),
];

fn see_numbers<M: Memory>(
    rt: &impl Abort,
    mem: &M,
    rows: &[(Through, u32, bool, u32, Option<u32>)],
) {
    for (place, row) in rows.iter().enumerate() {
        let (x, width, signed, immediate, wanted) = *row;
        let found = number(mem, x, width, signed, immediate) == wanted;
        seen::at(rt, found, "row", place as u64);
    }
}

/// The words that are loaded by `NUMBERS`, behind a capability.
fn numbers<M: Memory>(rt: &impl Abort, mem: &mut M)
    requires { length (M.granules mem.old) ≡ 4 }
    ensures { length (M.granules mem.new) ≡ 4 }
{
    mem.store_cap(0, object(0x7600_0020_8000_0000));
    mem.store(8, 4, 0x8483_82F1);
    mem.store(12, 4, 0x7F86_8588);
    see_numbers(rt, mem, &NUMBERS);
    see_numbers(rt, mem, &NO_NUMBERS);
}

/// Whether what a load gives is tagged, and its word.
type Given = (bool, u64);

/// What is loaded through a capability loses what that one lacks, tagged or not.
const CAPABILITIES: [(Through, u32, Option<Given>); 6] = [
    ((true, FULL, RAM), 0, Some((true, 0x7E00_0020_8000_0004))),
    ((true, FULL, RAM), 8, Some((false, 0x7F86_8588_8483_82F1))),
    ((true, FULL, RAM), 24, Some((false, 0))),
    (
        (true, READS_DATA, NEXT),
        LESS_8,
        Some((true, 0x2800_0020_8000_0004)),
    ),
    (
        (true, READS_DATA, NEXT),
        0,
        Some((false, 0x3F86_8588_8483_82F1)),
    ),
    ((true, PLAIN, RAM), 0, Some((false, 0x2800_0020_8000_0004))),
];

/// Its base is marked; and what lies behind it.
const MARKED: [(Through, u32, Option<Given>); 1] = [(
    (true, FULL, RAM),
    0,
    Some((false, 0x7E00_0020_8000_0004)),
)];

const MARKED_BEHIND: [(Through, u32, Option<Given>); 1] = [(
    (true, FULL, RAM),
    0,
    Some((true, 0x7E00_0020_8000_0004)),
)];

/// Untagged, sealed, without LD; past the bounds and before them, and beside these; misaligned; at a device, below RAM
/// and past its end.
const NO_CAPABILITIES: [(Through, u32, Option<Given>); 17] = [
    ((false, FULL, RAM), 0, None),
    ((true, SEALED, RAM), 0, None),
    ((true, WRITES, RAM), 0, None),
    ((true, SHORT, RAM), 8, None),
    ((true, SHORT, RAM), 0, Some((true, 0x7E00_0020_8000_0004))),
    ((true, LATE, LAST), 0xFFFF_FFF0, None),
    ((true, LATE, LAST), LESS_8, Some((false, 0))),
    ((true, FULL, RAM), 32, None),
    ((true, FULL, RAM), LESS_8, None),
    ((true, FULL, RAM), 1, None),
    ((true, FULL, RAM), 4, None),
    ((true, PORT, UART), 0, None),
    ((true, ALL, UART), 0, None),
    ((true, ALL, RAM), LESS_8, None),
    ((true, ALL, RAM), 24, Some((false, 0))),
    ((true, ALL, RAM), 32, None),
    ((true, ALL, 0xFFFF_FFF8), 0, None),
];

/// A capability of the object, or a word.
fn of(given: Given) -> Cap {
    let (tag, word) = given;
    if tag { object(word) } else { untagged(word) }
}

/// Whether a load gave what it must.
fn is_given(found: Option<Cap>, wanted: Option<Given>) -> bool {
    match (found, wanted) {
        (Some(cap), Some(given)) => cap == of(given),
        (None, None) => true,
        _ => false,
    }
}

fn see_capabilities<M: Memory>(rt: &impl Abort, mem: &M, rows: &[(Through, u32, Option<Given>)]) {
    for (place, row) in rows.iter().enumerate() {
        let (x, immediate, wanted) = *row;
        let found = is_given(capability(mem, x, immediate), wanted);
        seen::at(rt, found, "row", place as u64);
    }
}

/// The same words, behind a capability whose granule is marked and unmarked.
fn capabilities<M: Memory>(rt: &impl Abort, mem: &mut M)
    requires { length (M.granules mem.old) ≡ 4 }
    ensures { length (M.granules mem.new) ≡ 4 }
{
    mem.store_cap(0, object(0x7E00_0020_8000_0004));
    mem.store_cap(8, untagged(0x7F86_8588_8483_82F1));
    see_capabilities(rt, mem, &CAPABILITIES);
    mem.mark(0, 8, true);
    see_capabilities(rt, mem, &MARKED);
    mem.mark(0, 8, false);
    mem.mark(8, 16, true);
    see_capabilities(rt, mem, &MARKED_BEHIND);
    see_capabilities(rt, mem, &NO_CAPABILITIES);
}

/// Stores of numbers one after another, what the changed granule holds then, and which it is. A number is stored by
/// its width, of a capability its address, and the granule's tag goes.
const STORED: [(Through, bool, u32, u32, u32, u64); 6] = [
    ((true, FULL, RAM), false, 1, 1, 0, 0x7600_0020_8000_1104),
    ((true, FULL, RAM), false, 2, 2, 0, 0x7600_0020_CC11_1104),
    ((true, FULL, RAM), false, 4, 4, 0, 0xAABB_CC11_CC11_1104),
    ((true, PLAIN, LAST), true, 4, LESS_8, 16, 0x1234_5678),
    ((true, WRITES, RAM), true, 4, 28, 24, 0x1234_5678_0000_0000),
    ((true, ALL, RAM), true, 1, 31, 24, 0x7834_5678_0000_0000),
];

/// What is stored: an integer, or a capability.
fn value(is_capability: bool) -> Live {
    if is_capability {
        return through((true, ALL, 0x1234_5678));
    }
    Live::integer(0xAABB_CC11)
}

/// What the granule of an offset holds.
fn holds<M: Memory>(rt: &impl Abort, mem: &M, at: u32, wanted: Cap)
    requires { length (M.granules mem.now) ≡ 4 }
{
    let granule = (at / 8 % 4) as usize;
    seen::at(rt, all(mem)[granule] == wanted, "at", at as u64);
}

/// A number is stored.
fn stores<M: Memory>(rt: &impl Abort, mem: &mut M, row: &(Through, bool, u32, u32, u32, u64))
    requires { length (M.granules mem.old) ≡ 4 }
    ensures { length (M.granules mem.new) ≡ 4 }
{
    let (x, is_capability, width, immediate, at, word) = *row;
    let y = value(is_capability);
    let done = put(mem, x, &y, width, immediate);
    seen::at(rt, done, "stored at", at as u64);
    holds(rt, mem, at, untagged(word));
    holds(rt, mem, 8, object(0x7600_0020_8000_0008));
}

fn stored_numbers<M: Memory>(rt: &impl Abort, mem: &mut M)
    requires { length (M.granules mem.old) ≡ 4 }
    ensures { length (M.granules mem.new) ≡ 4 }
{
    mem.store_cap(0, object(0x7600_0020_8000_0004));
    mem.store_cap(8, object(0x7600_0020_8000_0008));
    for row in &STORED {
        stores(rt, mem, row);
    }
}

/// Stores of capabilities, and whether what is stored is tagged: an untagged one without MC; without SL one without GL
/// untagged.
const STORED_WHOLE: [(Through, bool, u64, u32, bool); 5] = [
    ((true, FULL, RAM), true, 0x7600_0020_8000_0010, 8, true),
    ((true, WRITES, RAM), true, 0x7600_0020_8000_0010, 0, true),
    ((true, PLAIN, RAM), false, 0x7600_0020_8000_0010, 0, false),
    ((true, FULL, RAM), true, 0x3600_0020_8000_0010, 16, false),
    ((true, STACK, RAM), true, 0x3600_0020_8000_0010, 24, true),
];

/// A capability is stored.
fn stores_whole<M: Memory>(rt: &impl Abort, mem: &mut M, row: &(Through, bool, u64, u32, bool))
    requires { length (M.granules mem.old) ≡ 4 }
    ensures { length (M.granules mem.new) ≡ 4 }
{
    let (x, tag, word, at, stays) = *row;
    let done = put_whole(mem, x, of((tag, word)), at);
    seen::at(rt, done, "stored at", at as u64);
    holds(rt, mem, at, of((stays, word)));
}

fn stored_capabilities<M: Memory>(rt: &impl Abort, mem: &mut M)
    requires { length (M.granules mem.old) ≡ 4 }
    ensures { length (M.granules mem.new) ≡ 4 }
{
    for row in &STORED_WHOLE {
        stores_whole(rt, mem, row);
    }
}

/// Untagged, sealed, without SD; past the bounds and before them; misaligned; at a device, below RAM and past its end.
const NO_STORES: [(Through, u32, u32); 17] = [
    ((false, FULL, RAM), 4, 0),
    ((true, SEALED, RAM), 4, 0),
    ((true, READS, RAM), 4, 0),
    ((true, SHORT, RAM), 4, 12),
    ((true, SHORT, RAM), 2, 14),
    ((true, SHORT, RAM), 1, 15),
    ((true, LATE, MIDDLE), 4, LESS_4),
    ((true, LATE, MIDDLE), 1, LESS_4),
    ((true, FULL, RAM), 1, 32),
    ((true, FULL, RAM), 2, 1),
    ((true, FULL, RAM), 4, 1),
    ((true, FULL, RAM), 4, 2),
    ((true, PORT, UART), 4, 0),
    ((true, ALL, UART), 4, 0),
    ((true, ALL, RAM), 4, LESS_4),
    ((true, ALL, RAM), 4, 32),
    ((true, ALL, 0xFFFF_FFFC), 4, 0),
];

/// The same of a capability, of 8 bytes, and without MC.
const NO_WHOLE_STORES: [(Through, u32, u32); 13] = [
    ((false, FULL, RAM), 8, 0),
    ((true, SEALED, RAM), 8, 0),
    ((true, READS, RAM), 8, 0),
    ((true, PLAIN, RAM), 8, 0),
    ((true, SHORT, RAM), 8, 8),
    ((true, LATE, LAST), 8, 0xFFFF_FFF0),
    ((true, FULL, RAM), 8, 32),
    ((true, FULL, RAM), 8, 4),
    ((true, FULL, RAM), 8, 1),
    ((true, PORT, UART), 8, 0),
    ((true, ALL, UART), 8, 0),
    ((true, ALL, RAM), 8, LESS_8),
    ((true, ALL, RAM), 8, 32),
];

/// A number isn't stored, nor is a capability of 8 bytes, and nothing changes.
fn keeps_out<M: Memory>(rt: &impl Abort, mem: &mut M, row: &(Through, u32, u32))
    requires { length (M.granules mem.old) ≡ 4 }
    ensures { length (M.granules mem.new) ≡ 4 }
{
    let (x, width, immediate) = *row;
    let before = all(mem);
    let stored = if width == 8 {
        put_whole(mem, x, object(0x7600_0020_8000_0018), immediate)
    } else {
        put(mem, x, &Live::integer(0xAABB_CC11), width, immediate)
    };
    seen::at(rt, !stored, "not stored", immediate as u64);
    seen::at(rt, all(mem) == before, "unchanged", immediate as u64);
}

fn no_stores<M: Memory>(rt: &impl Abort, mem: &mut M, rows: &[(Through, u32, u32)])
    requires { length (M.granules mem.old) ≡ 4 }
    ensures { length (M.granules mem.new) ≡ 4 }
{
    for row in rows {
        keeps_out(rt, mem, row);
    }
}

/// All loads and stores over one memory.
fn over<M: Memory>(rt: &impl Abort, mem: &mut M)
    requires { length (M.granules mem.old) ≡ 4 }
{
    numbers(rt, mem);
    capabilities(rt, mem);
    stored_numbers(rt, mem);
    no_stores(rt, mem, &NO_STORES);
    stored_capabilities(rt, mem);
    no_stores(rt, mem, &NO_WHOLE_STORES);
}

#[test]
fn quiet_accesses_over_both(rt: HostRuntime) -> Result<(), Fail> {
    let mut plain = Plain::new(rt.alloc(), 32)?;
    over(&rt, &mut plain);
    drop(plain);
    let mut planes = Planes::new(rt.alloc(), 32)?;
    over(&rt, &mut planes);
    drop(planes);
    Ok(())
}

/// A capability whose base lies in a marked granule loses its tag.
#[test]
fn the_filter_looks_at_the_base(rt: HostRuntime) -> Result<(), Fail> {
    let mut mem = Plain::new(rt.alloc(), 32)?;
    let value = through((true, FULL, LAST));
    mem.mark(0, 8, true);
    assert!(rt; !filter(&mem, RAM, value).cap.tag);
    mem.mark(0, 8, false);
    assert!(rt; filter(&mem, RAM, value).cap.tag);
    Ok(())
}
