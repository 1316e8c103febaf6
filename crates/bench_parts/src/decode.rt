//! `decode COUNT` decodes so many words, and prints how many of them are instructions. Each word has an opcode of
//! the table and other bits that are spread over all their values.

use crate::failure::{Failure, written};
use crate::given::number;
use ct_isa::decode;

/// The opcodes of the table.
const OPCODES: [u32; 13] = [
    0x03, 0x0F, 0x13, 0x17, 0x23, 0x33, 0x37, 0x5B, 0x63, 0x67, 0x6F, 0x73, 0x7B,
];

/// A word with an opcode of the table.
fn word(k: u32) -> u32 {
    let spread = k.wrapping_mul(0x9E37_79B1);
    spread - spread % 128 + OPCODES[(k % 13) as usize] % 128
}

/// How many of so many words are instructions.
fn instructions(count: u32) -> u32 {
    let mut found = 0u32;
    for k in 0..count {
        if decode(word(k)).is_some() {
            found = found.saturating_add(1);
        }
    }
    found
}

/// Measures the decoding of as many words as the word says.
pub fn measure(rt: &HostRuntime, words: &[String]) -> Result<(), Failure> {
    let count = number(words, 0);
    let found = instructions(count);
    written(println!(rt; "{count} words, {found} instructions"))
}
