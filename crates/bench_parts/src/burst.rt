//! `burst COUNT WORD..`: a thread whose code is these words carries out so many instructions that tell nothing, one
//! after another, and prints how many it did. Its c3 has 16 KiB of data, and its other registers are zero.

ghost use Rattle.std.specs.Prelude.{◌≡◌, ◌<◌, ◌%◌, length};

use crate::failure::{Failure, written};
use crate::given::number;
use ct_areas::{Area, Thread};
use ct_burst::burst;
use ct_cap::{Live, derive};
use ct_decode::Decoded;
use ct_mem::Memory;
use ct_planes::Planes;
use ct_threads::window_of;
use def_profile::rights::{CODE_RIGHTS, EXECUTABLE_ROOT, GLOBALS_RIGHTS, MEMORY_ROOT};
use def_refusals::NoMemory;
use def_words::{Posture, Shadow};
use std::alloc::Global;

/// Where RAM begins.
const RAM: u32 = 0x8000_0000;

/// Its bytes.
const SIZE: u32 = 65536;

/// A capability of 16 KiB from an address, by the root with this high word and these rights.
fn block(high: u32, base: u32, set: u32) -> Live {
    derive(
        high,
        base,
        16384,
        set,
        base,
        0,
        Shadow { root: 1, source: 1 },
    )
}

/// A thread at the beginning of RAM, whose c3 holds data.
fn thread() -> Thread {
    let mut regs = [Live::integer(0); 16];
    regs[3] = block(MEMORY_ROOT, RAM + 16384, GLOBALS_RIGHTS);
    Thread {
        pcc: block(EXECUTABLE_ROOT, RAM, CODE_RIGHTS),
        regs,
        posture: Posture {
            off: false,
            source: 0,
        },
        depth: 1,
        top: RAM,
        actor: 0,
        handling: false,
        area: Area {
            ram: RAM,
            stack: RAM,
            stack_length: 0,
            trusted: RAM,
            trusted_length: 0,
        },
    }
}

/// Where a word of code lies in memory.
fn place(k: u32) -> u32
    ensures aligned { result % 4 ≡ 0 }
    ensures inside { result < 16384 }
{
    k % 4096 * 4
}

/// The words come into memory.
fn fill<M: Memory>(memory: &mut M, words: &[String])
    requires { length (M.granules memory.old) ≡ 8192 }
    ensures { length (M.granules memory.new) ≡ 8192 }
{
    for k in 0..4096u32 {
        let code = number(words, k as usize);
        memory.store(place(k), 4, code);
    }
}

/// How many instructions are carried out.
fn run(alloc: Global, words: &[String], count: u32) -> Result<u32, NoMemory> {
    let mut memory = Planes::new(alloc, SIZE)?;
    fill(&mut memory, words);
    let mut decoded = Decoded::new(alloc)?;
    let mut row = thread();
    let mut window = window_of(&row.pcc, &memory, RAM);
    Ok(burst(&mut row, &mut memory, RAM, &mut decoded, &mut window, count))
}

/// Measures as many instructions as the first word says, of the code that the others are.
pub fn measure(rt: &HostRuntime, words: &[String]) -> Result<(), Failure> {
    let count = number(words, 0);
    let code = words.get(1..).unwrap_or(&[]);
    match run(rt.alloc(), code, count) {
        Ok(made) => written(println!(rt; "{made} instructions")),
        Err(_) => Err(Failure::Unmeasured),
    }
}
