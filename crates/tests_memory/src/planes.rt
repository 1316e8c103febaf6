//! One generic caller over `Plain` and `Planes`, random calls over both, and the lent slices. The
//! expected values are worked out by hand from the layout of a granule, little-endian.

ghost use Rattle.std.specs.Prelude.{◌≡◌, ◌<◌, length};

use crate::seen::{at, is};
use ct_mem::Plain;
use ct_planes::{Memory, Planes};
use def_words::{Cap, Shadow};
use std::process::Abort;
use std::test::Fail;

/// A tagged capability with a shadow of its own.
fn tagged(word: u64) -> Cap {
    Cap {
        tag: true,
        word,
        shadow: Shadow { root: 7, source: 9 },
    }
}

/// A word without a tag.
fn plain(word: u64) -> Cap {
    Cap {
        tag: false,
        word,
        shadow: Shadow { root: 0, source: 0 },
    }
}

/// A load of a width, at an offset that is a multiple of it.
fn loaded<M: Memory>(memory: &M, at: u32, width: u32) -> u32
    requires { length (M.granules memory.now) ≡ 4 }
{
    let at = at % 32;
    match width {
        1 => memory.load(at, 1),
        2 => memory.load(at / 2 * 2, 2),
        _ => memory.load(at / 4 * 4, 4),
    }
}

/// Loads, each by its offset and its width, and what they give.
fn see<M: Memory>(rt: &impl Abort, memory: &M, rows: &[(u32, u32, u32)])
    requires { length (M.granules memory.now) ≡ 4 }
{
    for (place, width, wanted) in rows {
        let found = loaded(memory, *place, *width) == *wanted;
        at(rt, found, "bytes at", *place as u64);
    }
}

/// What a granule holds, of four.
fn holds<M: Memory>(rt: &impl Abort, memory: &M, granule: u32, wanted: Cap)
    requires size { length (M.granules memory.now) ≡ 4 }
    requires place { granule < 4 }
{
    let found = memory.load_cap(8 * granule) == wanted;
    at(rt, found, "granule", granule as u64);
}

/// A store of a width, at an offset that is a multiple of it.
fn put<M: Memory>(memory: &mut M, at: u32, width: u32, value: u32)
    requires { length (M.granules memory.old) ≡ 4 }
    ensures { length (M.granules memory.new) ≡ 4 }
{
    let at = at % 32;
    match width {
        1 => memory.store(at, 1, value),
        2 => memory.store(at / 2 * 2, 2, value),
        _ => memory.store(at / 4 * 4, 4, value),
    }
}

/// What is loaded after stores of both halves of a granule, and after one into its middle.
const HALVES: [(u32, u32, u32); 3] = [(9, 1, 0x22), (10, 2, 0x4433), (12, 4, 0x8877_6655)];

const MIDDLE: [(u32, u32, u32); 2] = [(8, 4, 0xBEEF_2211), (12, 4, 0x8877_6655)];

/// Writes of every width into one granule: what reads back is bytes in little-endian order, the
/// tag goes, and what lies beside stays.
fn mixed_widths<M: Memory>(rt: &impl Abort, memory: &mut M)
    requires { length (M.granules memory.old) ≡ 4 }
    ensures { length (M.granules memory.new) ≡ 4 }
{
    memory.store_cap(0, tagged(1));
    memory.store_cap(8, tagged(2));
    put(memory, 8, 4, 0x4433_2211);
    put(memory, 12, 4, 0x8877_6655);
    holds(rt, memory, 1, plain(0x8877_6655_4433_2211));
    see(rt, memory, &HALVES);
    put(memory, 10, 2, 0xFFFF_BEEF);
    see(rt, memory, &MIDDLE);
    put(memory, 15, 1, 0x1FE);
    is(rt, memory.load_cap(8).word == 0xFE77_6655_BEEF_2211, "word");
    holds(rt, memory, 0, tagged(1));
}

/// From one offset to another, and the next tagged granule there.
type Next = (u32, u32, Option<u32>);

/// The first and the last of four granules are tagged; none is.
const NEXT: [Next; 7] = [
    (0, 4_294_967_295, Some(0)),
    (1, 32, Some(24)),
    (1, 25, Some(24)),
    (1, 24, None),
    (24, 32, Some(24)),
    (25, 32, None),
    (4_294_967_295, 4_294_967_295, None),
];

const NONE: [Next; 1] = [(0, 32, None)];

fn see_next<M: Memory>(rt: &impl Abort, memory: &M, rows: &[Next]) {
    for (place, (from, to, wanted)) in rows.iter().enumerate() {
        let found = memory.next_tagged_below(*from, *to) == *wanted;
        at(rt, found, "row", place as u64);
    }
}

/// Bytes, and whether they are marked: granules 2 and 3, the last one, and that one alone.
const MARKS: [(u32, bool); 3] = [(15, false), (16, true), (31, true)];

const LAST_MARK: [(u32, bool); 1] = [(24, true)];

const ONE_MARK: [(u32, bool); 2] = [(16, false), (24, true)];

fn see_marks<M: Memory>(rt: &impl Abort, memory: &M, rows: &[(u32, bool)])
    requires { length (M.granules memory.now) ≡ 4 }
{
    for (place, wanted) in rows {
        let found = memory.marked(*place % 32) == *wanted;
        at(rt, found, "mark at", *place as u64);
    }
}

/// The next tagged granule at both ends.
fn ranges<M: Memory>(rt: &impl Abort, memory: &mut M)
    requires { length (M.granules memory.old) ≡ 4 }
    ensures { length (M.granules memory.new) ≡ 4 }
{
    memory.zero(0, 32);
    is(rt, memory.size() == 32, "size");
    see_next(rt, memory, &NONE);
    memory.store_cap(0, tagged(3));
    memory.store_cap(24, tagged(4));
    see_next(rt, memory, &NEXT);
}

/// Clearing leaves marks, and marking leaves capabilities.
fn marks<M: Memory>(rt: &impl Abort, memory: &mut M)
    requires { length (M.granules memory.old) ≡ 4 }
{
    memory.mark(16, 32, true);
    see_marks(rt, memory, &MARKS);
    holds(rt, memory, 3, tagged(4));
    memory.zero(24, 32);
    holds(rt, memory, 3, plain(0));
    see_marks(rt, memory, &LAST_MARK);
    memory.mark(16, 24, false);
    see_marks(rt, memory, &ONE_MARK);
    holds(rt, memory, 0, tagged(3));
}

/// Both over one memory.
fn worked<M: Memory>(rt: &impl Abort, memory: &mut M)
    requires { length (M.granules memory.old) ≡ 4 }
{
    mixed_widths(rt, memory);
    ranges(rt, memory);
    marks(rt, memory);
}

#[test]
fn widths_and_ranges_over_both(rt: HostRuntime) -> Result<(), Fail> {
    let mut plain = Plain::new(rt.alloc(), 32)?;
    worked(&rt, &mut plain);
    drop(plain);
    let mut planes = Planes::new(rt.alloc(), 32)?;
    worked(&rt, &mut planes);
    drop(planes);
    Ok(())
}

/// The next of a row of numbers that look random (xorshift).
fn shuffled(number: u64) -> u64 {
    let a = number ^ (number << 13);
    let b = a ^ (a >> 7);
    b ^ (b << 17)
}

/// One call that a number chooses, on memory of 16,384 bytes, and what it answered.
fn chosen<M: Memory>(memory: &mut M, number: u64) -> (u64, Option<Cap>)
    requires { length (M.granules memory.old) ≡ 2048 }
    ensures { length (M.granules memory.new) ≡ 2048 }
{
    let at = (number / 256 % 2048 * 8) as u32;
    let to = at + (number / 1048576 % 256) as u32 * (16384 - at) / 256 / 8 * 8;
    let value = (number / 16777216 % 4294967296) as u32;
    match number % 8 {
        0 => {
            memory.store(at + value % 8, 1, value);
            (0, None)
        }
        1 => {
            memory.store(at + value % 2 * 4, 4, value);
            (memory.load(at + value % 4 * 2, 2) as u64, None)
        }
        2 => {
            let tag = value % 2 == 0;
            let shadow = Shadow {
                root: value,
                source: at,
            };
            memory.store_cap(
                at,
                Cap {
                    tag,
                    word: number,
                    shadow,
                },
            );
            (0, None)
        }
        3 => (memory.load(at + value % 2 * 4, 4) as u64, None),
        4 => (0, Some(memory.load_cap(at))),
        5 => {
            memory.mark(at, to, value % 2 == 0);
            (memory.marked(value % 16384) as u64, None)
        }
        6 => {
            memory.zero(at, to);
            (memory.marked(at) as u64, None)
        }
        _ => {
            let next = memory.next_tagged_below(at + value % 8, to + value % 8);
            (next.unwrap_or(1) as u64, None)
        }
    }
}

/// The same calls on two memories answer the same.
fn same_answers<A: Memory, B: Memory>(rt: &impl Abort, first: &mut A, second: &mut B)
    requires first { length (A.granules first.old) ≡ 2048 }
    requires second { length (B.granules second.old) ≡ 2048 }
{
    let mut number = 88172645463325252u64;
    for call in 0..20000u32 {
        number = shuffled(number ^ call as u64);
        assert!(rt;
            chosen(first, number) == chosen(second, number),
            "call {call}"
        );
    }
}

/// Planes answer as plain memory does.
fn beside_plain(rt: &(impl Abort + AllocGlobal), planes: &mut Planes) -> Result<(), Fail>
    requires { length planes.old ≡ 2048 }
{
    let mut plain = Plain::new(rt.alloc(), 16384)?;
    same_answers(rt, planes, &mut plain);
    drop(plain);
    Ok(())
}

#[test]
fn random_calls_over_both(rt: HostRuntime) -> Result<(), Fail> {
    let mut planes = Planes::new(rt.alloc(), 16384)?;
    let answer = beside_plain(&rt, &mut planes);
    drop(planes);
    answer
}

/// The second granule is tagged and the last one is; the second alone.
const BOTH: [Next; 3] = [(0, 4096, Some(8)), (16, 4096, Some(4088)), (16, 4088, None)];

const SECOND: [Next; 1] = [(16, 4096, None)];

/// Eight words, all but two of them 0.
fn see_words(rt: &impl Abort, words: &[u64], first: u64, last: u64) {
    assert!(rt; words == [first, 0, 0, 0, 0, 0, 0, last].as_slice());
}

/// Bytes of which the ninth is 5.
fn see_bytes(rt: &impl Abort, bytes: &[u8]) {
    assert!(rt; bytes.len() == 4096 && bytes[8] == 5);
}

/// What planes of 512 granules lend after stores and marks.
fn lent(rt: &impl Abort, planes: &mut Planes)
    requires { length planes.old ≡ 512 }
{
    planes.store_cap(8, tagged(5));
    planes.store_cap(4088, tagged(6));
    see_next(rt, planes, &BOTH);
    see_words(rt, planes.tag_words(), 2, 0x8000_0000_0000_0000);
    planes.store(4092, 1, 0);
    see_next(rt, planes, &SECOND);
    see_words(rt, planes.tag_words(), 2, 0);
    see_bytes(rt, planes.bytes());
    planes.mark(4032, 4096, true);
    see_words(rt, planes.mark_words(), 0, 0xFF00_0000_0000_0000);
}

#[test]
fn lent_slices_of_planes(rt: HostRuntime) -> Result<(), Fail> {
    let mut planes = Planes::new(rt.alloc(), 4096)?;
    lent(&rt, &mut planes);
    drop(planes);
    Ok(())
}
