//! The record of a trap in a small memory.

ghost use Rattle.std.specs.Prelude.{◌≡◌, length};

use crate::seen::at;
use ct_cap::Live;
use ct_handler::write_record;
use ct_mem::{Memory, Plain};
use def_words::Trap;
use std::process::Abort;

/// The words of the row *record*: sixteen registers, program counter, cause, code and register.
const RECORD: [u32; 20] = [
    0,
    0x0001_0010,
    0x8000_0530,
    0x8000_0120,
    4,
    5,
    6,
    7,
    8,
    9,
    10,
    11,
    12,
    13,
    14,
    15,
    0x8000_0040,
    28,
    2,
    11,
];

/// Registers with these addresses.
fn registers() -> [Live; 16] {
    let mut all = [Live::integer(0); 16];
    for k in 0..16 {
        all[k] = Live::integer(RECORD[k]);
    }
    all
}

/// The record is written at offset 16, and stands there word by word.
fn record_stands<M: Memory>(rt: &impl Abort, memory: &mut M)
    requires { length (M.granules memory.old) ≡ 12 }
{
    let trap = Trap {
        cause: RECORD[17],
        code: RECORD[18],
        register: RECORD[19],
    };
    write_record(memory, 16, &registers(), RECORD[16], trap);
    assert!(rt; memory.size() == 96);
    for k in 0..20u32 {
        let found = memory.load(16 + 4 * k, 4) == RECORD[k as usize];
        at(rt, found, "word", k as u64);
    }
}

#[test]
fn record_of_a_trap(rt: HostRuntime) {
    let mut memory = Plain::new(rt.alloc(), 96).expect(&rt, "memory");
    record_stands(&rt, &mut memory);
}
