//! Three compartments deep, too deep and no stack. Numbers are put together by hand from the layout of
//! docs/use/machine.md: RAM from 0x80000000, a stack of 1,024 bytes, an area of two or three frames.

ghost use Rattle.std.specs.Prelude.{◌≡◌, ◌+◌, ◌≤◌};
ghost use Rattle.def_profile.specs.declared.limits.TheConstants.{RAM_END};
ghost use Rattle.ct_areas.specs.Threads.{HasArea};

use crate::asked::{is_ready, may_call};
use crate::firmware::{CODE, GLOBALS, RAM, TRUSTED, dress, entries, heads, thread};
use crate::seen::is;
use ct_cap::{Cap, Live, Shadow, Trap, shrink};
use ct_entry::Entries;
use ct_mem::{Memory, Plain};
use ct_switch::{Area, Called, Thread, call, end_with, resume, return_to_caller, save};
use def_profile::answers::UNWOUND;
use def_profile::traps::TAG_CODE;
use def_refusals::NoMemory;
use std::alloc::{AllocError, Global};
use std::process::Abort;

const STACK: u32 = 0x8000_0800;

/// Registers for a call by compartment 0, whose stack's address is given: an argument in c10 beside what it calls with.
fn registers(at: u32) -> [Live; 16] {
    let mut regs = [Live::integer(0); 16];
    dress(&mut regs, 0, STACK, 1024, at);
    regs[10] = Live::integer(7);
    regs
}

fn area(frames: u32) -> Area
    ensures area { HasArea 8192 result }
    ensures end { result.stack + result.stack_length ≤ RAM_END }
{
    Area {
        ram: RAM,
        stack: STACK,
        stack_length: 1024,
        trusted: TRUSTED,
        trusted_length: if frames == 2 { 288 } else { 352 },
    }
}

/// A thread of compartment 0 with room for so many frames, in memory that has the heads of the export tables.
fn begun(alloc: Global, frames: u32) -> Result<(Plain, Thread), NoMemory> {
    let (mut mem, t) = thread(alloc, 8192, registers(STACK + 512), area(frames))?;
    heads(&mut mem);
    Ok((mem, t))
}

/// The call of the export in c6, where it may be made.
fn called(t: &mut Thread, mem: &mut Plain, e: &Entries) -> Option<Called> {
    if !may_call(t, mem, e) {
        return None;
    }
    Some(call(t, mem, e))
}

/// The unwind, where it may be made.
fn unwound(t: &mut Thread, mem: &mut Plain) -> Option<bool> {
    if !is_ready(t, mem) {
        return None;
    }
    Some(end_with(t, mem, UNWOUND))
}

/// The return, where it may be made.
fn given_back(t: &mut Thread, mem: &mut Plain, e: &Entries) -> Option<bool> {
    if !may_call(t, mem, e) {
        return None;
    }
    Some(return_to_caller(t, mem, e))
}

/// A capability goes to an offset of RAM.
fn put(mem: &mut Plain, at: u32, c: Live) {
    if at % 8 == 0 && at < 8192 && mem.size() == 8192 {
        mem.store_cap(at, shrink(c));
    }
}

/// What an offset of RAM holds.
fn held(mem: &Plain, at: u32) -> Cap {
    if at % 8 == 0 && at < 8192 && mem.size() == 8192 {
        return mem.load_cap(at);
    }
    shrink(Live::integer(1))
}

/// Whether all from one offset of RAM to another is zero and untagged.
fn is_clear(mem: &Plain, low: u32, high: u32) -> bool {
    for at in low..high {
        if at % 8 == 0 && held(mem, at) != shrink(Live::integer(0)) {
            return false;
        }
    }
    true
}

/// Puts all that RAM holds.
fn put_all(rows: &mut Vec<Cap>, mem: &Plain) -> Result<(), AllocError> {
    for k in 0..1024u32 {
        rows.push(held(mem, 8 * k))?;
    }
    Ok(())
}

/// Whether RAM holds these, and no more.
fn holds_all(mem: &Plain, rows: &[Cap]) -> bool {
    let mut same = rows.len() == 1024;
    for k in 0..1024u32 {
        same = same && rows.get(k as usize) == Some(&held(mem, 8 * k));
    }
    same
}

/// The second compartment's frame stands over the first's, and its own stack holds data and a capability above the
/// address at which it calls the third.
fn second(t: &mut Thread, mem: &mut Plain) {
    dress(&mut t.regs, 1, STACK, 1024, STACK + 256);
    t.regs[8] = Live::integer(8);
    t.regs[9] = t.regs[3];
    put(mem, 0x800 + 264, t.regs[3]);
}

/// Something of a thread and of RAM.
#[derive(Clone, Copy)]
enum Look {
    /// How many frames the thread has, its compartment, and where the stack of its call ends.
    Depth,
    Actor,
    Top,
    /// The program counter: its address, where its authority begins and ends, and its tag.
    At,
    From,
    To,
    Runs,
    /// A register: its address, where its authority begins and ends, and its tag.
    Address(usize),
    Base(usize),
    End(usize),
    Tag(usize),
    /// What an offset of RAM holds: its word and its tag.
    Word(u32),
    Tagged(u32),
    /// Whether all from one offset of RAM to another is zero and untagged.
    Clear(u32, u32),
}

fn register(t: &Thread, n: usize) -> Live {
    match t.regs.get(n) {
        Some(value) => *value,
        None => Live::integer(0),
    }
}

/// What there is to see, as a number.
fn seen(t: &Thread, mem: &Plain, what: Look) -> u64 {
    match what {
        Look::Depth => t.depth as u64,
        Look::Actor => t.actor as u64,
        Look::Top => t.top as u64,
        Look::At => t.pcc.address() as u64,
        Look::From => t.pcc.bounds.base,
        Look::To => t.pcc.bounds.top,
        Look::Runs => t.pcc.cap.tag as u64,
        Look::Address(n) => register(t, n).address() as u64,
        Look::Base(n) => register(t, n).bounds.base,
        Look::End(n) => register(t, n).bounds.top,
        Look::Tag(n) => register(t, n).cap.tag as u64,
        Look::Word(at) => held(mem, at).word,
        Look::Tagged(at) => held(mem, at).tag as u64,
        Look::Clear(low, high) => is_clear(mem, low, high) as u64,
    }
}

/// Thread and RAM are as the rows say.
fn see(rt: &impl Abort, t: &Thread, mem: &Plain, rows: &[(Look, u64)]) {
    for (place, row) in rows.iter().enumerate() {
        let (what, wanted) = *row;
        is(rt, place, seen(t, mem, what) == wanted);
    }
}

/// The call in c6 enters an export by an entry.
fn enters(rt: &impl Abort, t: &mut Thread, mem: &mut Plain, e: &Entries, entry: u32, export: u32) {
    let answer = called(t, mem, e);
    is(
        rt,
        export as usize,
        answer == Some(Called::Entered { entry, export }),
    );
}

/// The unwind leaves a frame to go on in, or none.
fn unwinds(rt: &impl Abort, t: &mut Thread, mem: &mut Plain, goes_on: bool) {
    is(rt, 0, unwound(t, mem) == Some(goes_on));
}

/// The call in c6 is answered so, and all of memory is as before.
fn refuses(
    rt: &(impl Abort + AllocGlobal),
    t: &mut Thread,
    mem: &mut Plain,
    e: &Entries,
    wanted: Called,
) -> Result<(), AllocError> {
    let mut before = Vec::new(rt.alloc());
    put_all(&mut before, mem)?;
    is(rt, 0, called(t, mem, e) == Some(wanted));
    is(rt, 1, holds_all(mem, before.as_slice()));
    drop(before);
    Ok(())
}

/// In the second compartment code, globals and stack are its own, and what was above its declared arguments is zero.
const IN_SECOND: [(Look, u64); 12] = [
    (Look::Depth, 2),
    (Look::Actor, 1),
    (Look::Top, STACK as u64 + 512),
    (Look::At, CODE as u64 + 72),
    (Look::From, CODE as u64 + 64),
    (Look::To, CODE as u64 + 128),
    (Look::Base(3), GLOBALS as u64 + 16),
    (Look::Base(2), STACK as u64),
    (Look::End(2), STACK as u64 + 512),
    (Look::Address(10), 7),
    (Look::Address(12), 0),
    (Look::Clear(0x800, 0x800 + 512), 1),
];

const IN_THIRD: [(Look, u64); 3] = [
    (Look::Depth, 3),
    (Look::Actor, 2),
    (Look::Top, STACK as u64 + 256),
];

/// After a trap in the third the second sees -1 and 0, and its stack below its c2 is zero; what was above stays.
const BACK_IN_SECOND: [(Look, u64); 11] = [
    (Look::Depth, 2),
    (Look::Actor, 1),
    (Look::Top, STACK as u64 + 512),
    (Look::Address(10), 0xFFFF_FFFF),
    (Look::Tag(10), 0),
    (Look::Address(11), 0),
    (Look::Tag(11), 0),
    (Look::Address(8), 8),
    (Look::Base(9), GLOBALS as u64 + 16),
    (Look::Clear(0x800, 0x800 + 256), 1),
    (Look::Tagged(0x800 + 264), 1),
];

/// When it traps too, the first sees the same.
const BACK_IN_FIRST: [(Look, u64); 9] = [
    (Look::Depth, 1),
    (Look::Actor, 0),
    (Look::Top, STACK as u64 + 1024),
    (Look::Address(10), 0xFFFF_FFFF),
    (Look::Tag(10), 0),
    (Look::Address(11), 0),
    (Look::Tag(11), 0),
    (Look::At, CODE as u64 + 4),
    (Look::Clear(0x800, 0x800 + 512), 1),
];

/// And when it traps, the thread ends.
const ENDED: [(Look, u64); 3] = [
    (Look::Depth, 0),
    (Look::Runs, 0),
    (Look::Clear(0x1000, 0x1000 + 352), 1),
];

fn go_deep(rt: &impl Abort, t: &mut Thread, mem: &mut Plain, e: &Entries) {
    put(mem, 0x800 + 40, t.regs[1]);
    t.regs[12] = Live::integer(9);
    enters(rt, t, mem, e, 3, 8);
    see(rt, t, mem, &IN_SECOND);
    second(t, mem);
    enters(rt, t, mem, e, 7, 12);
    see(rt, t, mem, &IN_THIRD);
    put(mem, 0x800 + 8, t.regs[3]);
    put(mem, 0x800 + 248, Live::integer(5));
    unwinds(rt, t, mem, true);
    see(rt, t, mem, &BACK_IN_SECOND);
    unwinds(rt, t, mem, true);
    see(rt, t, mem, &BACK_IN_FIRST);
    unwinds(rt, t, mem, false);
    see(rt, t, mem, &ENDED);
}

#[test]
fn three_compartments_deep(rt: HostRuntime) -> Result<(), NoMemory> {
    let e = entries(rt.alloc(), 128)?;
    let (mut mem, mut t) = begun(rt.alloc(), 3)?;
    go_deep(&rt, &mut t, &mut mem, &e);
    drop(mem);
    drop(e);
    Ok(())
}

/// The stack's capability alone comes to stand at an address.
fn stand_at(t: &mut Thread, at: u32) {
    let mut dressed = t.regs;
    dress(&mut dressed, 0, STACK, 1024, at);
    t.regs[2] = dressed[2];
}

const FIRST: [(Look, u64); 3] = [
    (Look::Depth, 1),
    (Look::Actor, 0),
    (Look::Top, STACK as u64 + 1024),
];

const SECOND: [(Look, u64); 3] = [
    (Look::Depth, 2),
    (Look::Actor, 1),
    (Look::Top, STACK as u64 + 512),
];

/// Of the two firmwares the exports of the second ask for more stack.
fn go_too_deep(
    rt: &(impl Abort + AllocGlobal),
    t: &mut Thread,
    mem: &mut Plain,
    e: &Entries,
    large: &Entries,
) -> Result<(), AllocError> {
    // an export with stack 512, room 256, and a free frame
    stand_at(t, STACK + 256);
    refuses(rt, t, mem, large, Called::NoStack)?;
    see(rt, t, mem, &FIRST);
    // depth 2 of 2 frames
    stand_at(t, STACK + 512);
    enters(rt, t, mem, e, 3, 8);
    second(t, mem);
    put(mem, 0x800 + 8, t.regs[3]);
    refuses(rt, t, mem, e, Called::TooDeep)?;
    see(rt, t, mem, &SECOND);
    // too deep comes before no stack, and a failed check before both
    refuses(rt, t, mem, large, Called::TooDeep)?;
    t.regs[2] = Live::integer(0);
    let trap = Trap::capability(TAG_CODE, 2);
    refuses(rt, t, mem, large, Called::Trapped { trap })
}

#[test]
fn too_deep_and_no_stack(rt: HostRuntime) -> Result<(), NoMemory> {
    let e = entries(rt.alloc(), 128)?;
    let large = entries(rt.alloc(), 512)?;
    let (mut mem, mut t) = begun(rt.alloc(), 2)?;
    let gone = go_too_deep(&rt, &mut t, &mut mem, &e, &large);
    drop(mem);
    drop(large);
    drop(e);
    gone?;
    Ok(())
}

fn give_plain(rt: &impl Abort, t: &mut Thread, mem: &mut Plain, e: &Entries) {
    enters(rt, t, mem, e, 3, 8);
    let mut plain = shrink(t.regs[3]);
    t.regs[10] = t.regs[3];
    is(rt, 0, given_back(t, mem, e) == Some(true));
    plain.tag = false;
    plain.shadow = Shadow { root: 0, source: 0 };
    is(rt, 1, shrink(t.regs[10]) == plain);
    is(rt, 2, given_back(t, mem, e) == Some(false));
}

/// The callee hands back its globals through an export that passes plain values.
#[test]
fn plain_results(rt: HostRuntime) -> Result<(), NoMemory> {
    let e = entries(rt.alloc(), 128)?;
    let (mut mem, mut t) = begun(rt.alloc(), 3)?;
    give_plain(&rt, &mut t, &mut mem, &e);
    drop(mem);
    drop(e);
    Ok(())
}

/// The thread stops and is picked again, where that may be; between, memory is marked from one offset to another.
fn stopped_and_picked(t: &mut Thread, mem: &mut Plain, low: u32, high: u32) -> bool {
    if !is_ready(t, mem) {
        return false;
    }
    save(t, mem);
    if !is_ready(t, mem) || low % 8 != 0 || high % 8 != 0 || high < low || mem.size() < high {
        return false;
    }
    mem.mark(low, high, true);
    if !is_ready(t, mem) {
        return false;
    }
    resume(t, mem);
    true
}

/// Frame 0 holds its export alone.
const FRAME_0: [(Look, u64); 3] = [
    (Look::Word(0x10A0 + 40), 4),
    (Look::Clear(0x10A0, 0x10A0 + 40), 1),
    (Look::Clear(0x10A0 + 48, 0x10E0), 1),
];

/// Frame 1, behind the caller's c1 and c2: its c3, c8, c9; export and compartment; top; its handler was entered.
const FRAME_1: [(Look, u64); 6] = [
    (Look::Word(0x10F0), 33),
    (Look::Word(0x10F8), 88),
    (Look::Word(0x1100), 99),
    (Look::Word(0x1108), 8),
    (Look::Word(0x1110), 0x8000_0C00),
    (Look::Word(0x1118), 1),
];

/// Frame 2: compartment 1 called.
const FRAME_2: [(Look, u64); 3] = [
    (Look::Word(0x1148), 0x1_0000_000C),
    (Look::Word(0x1150), 0x8000_0A00),
    (Look::Word(0x1158), 0),
];

const AREA_HEAD: [(Look, u64); 1] = [(Look::Clear(0x1000, 0x1080), 1)];

/// A stop and a pick: what has its base in a marked granule comes back untagged.
fn stops(rt: &impl Abort, t: &mut Thread, mem: &mut Plain) {
    let before = shrink(t.regs[3]);
    let code = t.pcc.cap;
    is(rt, 0, before.tag && code.tag);
    is(rt, 1, stopped_and_picked(t, mem, 0x420, 0x428));
    let after = shrink(t.regs[3]);
    is(rt, 2, t.pcc.cap == code);
    is(rt, 3, after.word == before.word && !after.tag);
    see(rt, t, mem, &AREA_HEAD);
}

/// The caller's registers, back from frame 1.
const CALLER: [(Look, u64); 3] = [
    (Look::Address(3), 33),
    (Look::Address(8), 88),
    (Look::Address(9), 99),
];

fn go_by_layout(rt: &impl Abort, t: &mut Thread, mem: &mut Plain, e: &Entries) {
    see(rt, t, mem, &FRAME_0);
    t.handling = true;
    t.regs[3] = Live::integer(33);
    t.regs[8] = Live::integer(88);
    t.regs[9] = Live::integer(99);
    let (link, stack) = (shrink(t.regs[1]), shrink(t.regs[2]));
    enters(rt, t, mem, e, 3, 8);
    is(rt, 0, held(mem, 0x10E0) == link);
    is(rt, 1, held(mem, 0x10E8) == stack);
    see(rt, t, mem, &FRAME_1);
    is(rt, 2, !t.handling);
    second(t, mem);
    enters(rt, t, mem, e, 7, 12);
    see(rt, t, mem, &FRAME_2);
    stops(rt, t, mem);
    unwinds(rt, t, mem, true);
    see(rt, t, mem, &SECOND);
    unwinds(rt, t, mem, true);
    is(rt, 3, t.handling);
    is(rt, 4, shrink(t.regs[2]) == stack);
    see(rt, t, mem, &CALLER);
}

#[test]
fn frames_by_their_layout(rt: HostRuntime) -> Result<(), NoMemory> {
    let e = entries(rt.alloc(), 128)?;
    let (mut mem, mut t) = begun(rt.alloc(), 3)?;
    go_by_layout(&rt, &mut t, &mut mem, &e);
    drop(mem);
    drop(e);
    Ok(())
}
