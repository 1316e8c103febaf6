//! Words that are kept, at addresses of one slot and of two.

use ct_decode::Decoded;
use ct_isa::{Instr, shape};
use std::process::Abort;

/// `lw` of register 5 through register 6, at 2,048 bytes before.
const LOAD: u32 = 0x8003_2283;
/// `csc` of register 1 through register 2, at 8 bytes after.
const STORE: u32 = 0x0011_3423;
/// `add` of registers 2 and 3 into register 1.
const SUM: u32 = 0x0031_00B3;

/// What a word at an address says, by its shape.
fn says(rt: &impl Abort, decoded: &mut Decoded, at: u32, word: u32, instruction: Instr) {
    assert!(rt; shape(decoded.reading(at, word).instruction) == shape(instruction));
}

#[test]
fn words_are_kept(rt: HostRuntime) {
    let load = Instr::Lw {
        rd: 5,
        rs1: 6,
        immediate: 0xFFFF_F800,
    };
    let sum = Instr::Add {
        rd: 1,
        rs1: 2,
        rs2: 3,
    };
    let mut decoded = Decoded::new(rt.alloc()).expect(&rt, "room");
    says(&rt, &mut decoded, 0x8000_0000, 0, Instr::Ebreak);
    says(&rt, &mut decoded, 0x8000_0000, LOAD, load);
    says(&rt, &mut decoded, 0x8000_0004, SUM, sum);
    // the same word once more, and then another word at another address of the slot
    says(&rt, &mut decoded, 0x8000_0000, LOAD, load);
    says(&rt, &mut decoded, 0x8000_1000, SUM, sum);
    // and the first one again, which is kept beside the slot
    says(&rt, &mut decoded, 0x8000_0000, LOAD, load);
    // no instruction takes the place of one
    says(&rt, &mut decoded, 0x8000_0004, 0xFFFF_FFFF, Instr::Ebreak);
}

#[test]
fn instructions_are_what_the_words_say(rt: HostRuntime) {
    let load = Instr::Lw {
        rd: 5,
        rs1: 6,
        immediate: 0xFFFF_F800,
    };
    let store = Instr::Csc {
        rs1: 2,
        rs2: 1,
        immediate: 8,
    };
    let sum = Instr::Add {
        rd: 1,
        rs1: 2,
        rs2: 3,
    };
    let mut decoded = Decoded::new(rt.alloc()).expect(&rt, "room");
    says(&rt, &mut decoded, 0, LOAD, load);
    says(&rt, &mut decoded, 0, STORE, store);
    says(&rt, &mut decoded, 0, SUM, sum);
    says(&rt, &mut decoded, 0, 0xFFFF_FFFF, Instr::Ebreak);
}
