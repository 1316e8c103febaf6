//! Words whose instructions are known from outside: those of the base and M instructions come from
//! another assembler, those of the capability instructions from the written table by hand
//! (docs/build/testing.md).

use ct_isa::{Instr, decode, encode, instruction, one_instruction, shape};
use std::process::Abort;

/// Each word is read as its instruction, and the instruction is written as the word.
fn agree(rt: &impl Abort, rows: &[(u32, Instr)]) {
    for (word, instruction) in rows {
        let read = decode(*word).expect(rt, "an instruction");
        assert!(rt; shape(read) == shape(*instruction));
        assert!(rt; encode(read) == *word);
    }
}

/// None of the words is an instruction.
fn no_instruction(rt: &impl Abort, words: &[u32]) {
    for word in words {
        assert!(rt; decode(*word).is_none());
    }
}

#[test]
fn flow_words_of_another_assembler(rt: HostRuntime) {
    agree(
        &rt,
        &[
            (
                0x1234_5537,
                Instr::Lui {
                    rd: 10,
                    immediate: 0x0001_2345,
                },
            ),
            (
                0xFFFF_F297,
                Instr::AuiPcc {
                    rd: 5,
                    immediate: 0x000F_FFFF,
                },
            ),
            (
                0x4DFA_B0EF,
                Instr::Jal {
                    rd: 1,
                    offset: 0x000A_BCDE,
                },
            ),
            (
                0xCDFA_B7EF,
                Instr::Jal {
                    rd: 15,
                    offset: 0xFFFA_BCDE,
                },
            ),
            (
                0xFFC3_80E7,
                Instr::CJalr {
                    rd: 1,
                    rs1: 7,
                    immediate: 0xFFFF_FFFC,
                },
            ),
            (
                0x2A41_85E3,
                Instr::Beq {
                    rs1: 3,
                    rs2: 4,
                    offset: 2730,
                },
            ),
            (
                0xD462_9A63,
                Instr::Bne {
                    rs1: 5,
                    rs2: 6,
                    offset: 0xFFFF_F554,
                },
            ),
            (
                0x7E83_CF63,
                Instr::Blt {
                    rs1: 7,
                    rs2: 8,
                    offset: 2046,
                },
            ),
            (
                0x80A4_D063,
                Instr::Bge {
                    rs1: 9,
                    rs2: 10,
                    offset: 0xFFFF_F000,
                },
            ),
            (
                0x7EC5_EFE3,
                Instr::Bltu {
                    rs1: 11,
                    rs2: 12,
                    offset: 4094,
                },
            ),
            (
                0x00E6_F163,
                Instr::Bgeu {
                    rs1: 13,
                    rs2: 14,
                    offset: 2,
                },
            ),
        ],
    );
}

#[test]
fn memory_words_of_another_assembler(rt: HostRuntime) {
    agree(
        &rt,
        &[
            (
                0xFFF1_0083,
                Instr::Lb {
                    rd: 1,
                    rs1: 2,
                    immediate: 0xFFFF_FFFF,
                },
            ),
            (
                0x7FF2_1183,
                Instr::Lh {
                    rd: 3,
                    rs1: 4,
                    immediate: 2047,
                },
            ),
            (
                0x8003_2283,
                Instr::Lw {
                    rd: 5,
                    rs1: 6,
                    immediate: 0xFFFF_F800,
                },
            ),
            (
                0x0004_4383,
                Instr::Lbu {
                    rd: 7,
                    rs1: 8,
                    immediate: 0,
                },
            ),
            (
                0x0055_5483,
                Instr::Lhu {
                    rd: 9,
                    rs1: 10,
                    immediate: 5,
                },
            ),
            (
                0xFE11_0FA3,
                Instr::Sb {
                    rs1: 2,
                    rs2: 1,
                    immediate: 0xFFFF_FFFF,
                },
            ),
            (
                0x7E32_1FA3,
                Instr::Sh {
                    rs1: 4,
                    rs2: 3,
                    immediate: 2047,
                },
            ),
            (
                0x8053_2023,
                Instr::Sw {
                    rs1: 6,
                    rs2: 5,
                    immediate: 0xFFFF_F800,
                },
            ),
        ],
    );
}

#[test]
fn immediate_words_of_another_assembler(rt: HostRuntime) {
    agree(
        &rt,
        &[
            (
                0xFFD1_0093,
                Instr::Addi {
                    rd: 1,
                    rs1: 2,
                    immediate: 0xFFFF_FFFD,
                },
            ),
            (
                0x0072_2193,
                Instr::Slti {
                    rd: 3,
                    rs1: 4,
                    immediate: 7,
                },
            ),
            (
                0xFFF3_3293,
                Instr::Sltiu {
                    rd: 5,
                    rs1: 6,
                    immediate: 0xFFFF_FFFF,
                },
            ),
            (
                0x5554_4393,
                Instr::Xori {
                    rd: 7,
                    rs1: 8,
                    immediate: 1365,
                },
            ),
            (
                0xAAA5_6493,
                Instr::Ori {
                    rd: 9,
                    rs1: 10,
                    immediate: 0xFFFF_FAAA,
                },
            ),
            (
                0x00F6_7593,
                Instr::Andi {
                    rd: 11,
                    rs1: 12,
                    immediate: 15,
                },
            ),
            (
                0x01F7_1693,
                Instr::Slli {
                    rd: 13,
                    rs1: 14,
                    amount: 31,
                },
            ),
            (
                0x0010_D793,
                Instr::Srli {
                    rd: 15,
                    rs1: 1,
                    amount: 1,
                },
            ),
            (
                0x4111_D113,
                Instr::Srai {
                    rd: 2,
                    rs1: 3,
                    amount: 17,
                },
            ),
        ],
    );
}

#[test]
fn register_words_of_another_assembler(rt: HostRuntime) {
    agree(
        &rt,
        &[
            (
                0x0031_00B3,
                Instr::Add {
                    rd: 1,
                    rs1: 2,
                    rs2: 3,
                },
            ),
            (
                0x4062_8233,
                Instr::Sub {
                    rd: 4,
                    rs1: 5,
                    rs2: 6,
                },
            ),
            (
                0x0094_13B3,
                Instr::Sll {
                    rd: 7,
                    rs1: 8,
                    rs2: 9,
                },
            ),
            (
                0x00C5_A533,
                Instr::Slt {
                    rd: 10,
                    rs1: 11,
                    rs2: 12,
                },
            ),
            (
                0x00F7_36B3,
                Instr::Sltu {
                    rd: 13,
                    rs1: 14,
                    rs2: 15,
                },
            ),
            (
                0x0051_C0B3,
                Instr::Xor {
                    rd: 1,
                    rs1: 3,
                    rs2: 5,
                },
            ),
            (
                0x0062_5133,
                Instr::Srl {
                    rd: 2,
                    rs1: 4,
                    rs2: 6,
                },
            ),
            (
                0x40B4_D3B3,
                Instr::Sra {
                    rd: 7,
                    rs1: 9,
                    rs2: 11,
                },
            ),
            (
                0x00C5_6433,
                Instr::Or {
                    rd: 8,
                    rs1: 10,
                    rs2: 12,
                },
            ),
            (
                0x00E7_F6B3,
                Instr::And {
                    rd: 13,
                    rs1: 15,
                    rs2: 14,
                },
            ),
        ],
    );
}

#[test]
fn multiply_words_of_another_assembler(rt: HostRuntime) {
    agree(
        &rt,
        &[
            (
                0x0231_00B3,
                Instr::Mul {
                    rd: 1,
                    rs1: 2,
                    rs2: 3,
                },
            ),
            (
                0x0262_9233,
                Instr::Mulh {
                    rd: 4,
                    rs1: 5,
                    rs2: 6,
                },
            ),
            (
                0x0294_23B3,
                Instr::Mulhsu {
                    rd: 7,
                    rs1: 8,
                    rs2: 9,
                },
            ),
            (
                0x02C5_B533,
                Instr::Mulhu {
                    rd: 10,
                    rs1: 11,
                    rs2: 12,
                },
            ),
            (
                0x02F7_46B3,
                Instr::Div {
                    rd: 13,
                    rs1: 14,
                    rs2: 15,
                },
            ),
            (
                0x0251_D0B3,
                Instr::Divu {
                    rd: 1,
                    rs1: 3,
                    rs2: 5,
                },
            ),
            (
                0x0262_6133,
                Instr::Rem {
                    rd: 2,
                    rs1: 4,
                    rs2: 6,
                },
            ),
            (
                0x02B4_F3B3,
                Instr::Remu {
                    rd: 7,
                    rs1: 9,
                    rs2: 11,
                },
            ),
        ],
    );
}

#[test]
fn system_words_of_another_assembler(rt: HostRuntime) {
    agree(
        &rt,
        &[
            (0x0FF0_000F, Instr::Fence { immediate: 0x0FF }),
            (0x0000_0073, Instr::Ecall),
            (0x0010_0073, Instr::Ebreak),
            (
                0x3411_10F3,
                Instr::Csr {
                    function: 1,
                    rd: 1,
                    source: 2,
                    number: 833,
                },
            ),
            (
                0x3422_21F3,
                Instr::Csr {
                    function: 2,
                    rd: 3,
                    source: 4,
                    number: 834,
                },
            ),
            (
                0xFFF3_32F3,
                Instr::Csr {
                    function: 3,
                    rd: 5,
                    source: 6,
                    number: 4095,
                },
            ),
            (
                0x300F_D3F3,
                Instr::Csr {
                    function: 5,
                    rd: 7,
                    source: 31,
                    number: 768,
                },
            ),
            (
                0x0018_6473,
                Instr::Csr {
                    function: 6,
                    rd: 8,
                    source: 16,
                    number: 1,
                },
            ),
            (
                0x7C00_74F3,
                Instr::Csr {
                    function: 7,
                    rd: 9,
                    source: 0,
                    number: 1984,
                },
            ),
        ],
    );
}

#[test]
fn capability_words(rt: HostRuntime) {
    agree(
        &rt,
        &[
            (
                0x1095_845B,
                Instr::CSetBounds {
                    rd: 8,
                    rs1: 11,
                    rs2: 9,
                },
            ),
            (
                0x1241_06DB,
                Instr::CSetBoundsExact {
                    rd: 13,
                    rs1: 2,
                    rs2: 4,
                },
            ),
            (
                0x16F4_815B,
                Instr::CSeal {
                    rd: 2,
                    rs1: 9,
                    rs2: 15,
                },
            ),
            (
                0x18A0_03DB,
                Instr::CUnseal {
                    rd: 7,
                    rs1: 0,
                    rs2: 10,
                },
            ),
            (
                0x1A53_865B,
                Instr::CAndPerm {
                    rd: 12,
                    rs1: 7,
                    rs2: 5,
                },
            ),
            (
                0x2007_00DB,
                Instr::CSetAddr {
                    rd: 1,
                    rs1: 14,
                    rs2: 0,
                },
            ),
            (
                0x22B2_835B,
                Instr::CIncAddr {
                    rd: 6,
                    rs1: 5,
                    rs2: 11,
                },
            ),
            (
                0x2866_05DB,
                Instr::CSub {
                    rd: 11,
                    rs1: 12,
                    rs2: 6,
                },
            ),
            (
                0x2C11_805B,
                Instr::CSetHigh {
                    rd: 0,
                    rs1: 3,
                    rs2: 1,
                },
            ),
            (
                0x40C5_02DB,
                Instr::CTestSubset {
                    rd: 5,
                    rs1: 10,
                    rs2: 12,
                },
            ),
            (
                0x4270_855B,
                Instr::CSetEqualExact {
                    rd: 10,
                    rs1: 1,
                    rs2: 7,
                },
            ),
            (0xFE04_07DB, Instr::CGetPerm { rd: 15, rs1: 8 }),
            (0xFE17_825B, Instr::CGetType { rd: 4, rs1: 15 }),
            (0xFE23_04DB, Instr::CGetBase { rd: 9, rs1: 6 }),
            (0xFE36_875B, Instr::CGetLen { rd: 14, rs1: 13 }),
            (0xFE42_01DB, Instr::CGetTag { rd: 3, rs1: 4 }),
            (0xFE85_845B, Instr::Crrl { rd: 8, rs1: 11 }),
            (0xFE91_06DB, Instr::Cram { rd: 13, rs1: 2 }),
            (0xFEA4_815B, Instr::CMove { rd: 2, rs1: 9 }),
            (0xFEB0_03DB, Instr::CClearTag { rd: 7, rs1: 0 }),
            (0xFEF3_865B, Instr::CGetAddr { rd: 12, rs1: 7 }),
            (0xFF77_00DB, Instr::CGetHigh { rd: 1, rs1: 14 }),
            (0xFF82_835B, Instr::CGetTop { rd: 6, rs1: 5 }),
            (
                0x03F2_01DB,
                Instr::CSpecialRw {
                    rd: 3,
                    rs1: 4,
                    number: 31,
                },
            ),
            (
                0xFF01_115B,
                Instr::CIncAddrImm {
                    rd: 2,
                    rs1: 2,
                    immediate: 0xFFFF_FFF0,
                },
            ),
            (
                0xFFF6_A5DB,
                Instr::CSetBoundsImm {
                    rd: 11,
                    rs1: 13,
                    immediate: 4095,
                },
            ),
            (
                0x8000_02FB,
                Instr::AuiCgp {
                    rd: 5,
                    immediate: 0x80000,
                },
            ),
            (
                0xFF82_B283,
                Instr::Clc {
                    rd: 5,
                    rs1: 5,
                    immediate: 0xFFFF_FFF8,
                },
            ),
            (
                0x0011_3423,
                Instr::Csc {
                    rs1: 2,
                    rs2: 1,
                    immediate: 8,
                },
            ),
        ],
    );
}

#[test]
fn words_of_the_samples(rt: HostRuntime) {
    agree(
        &rt,
        &[
            (
                0x0000_0297,
                Instr::AuiPcc {
                    rd: 5,
                    immediate: 0,
                },
            ),
            (
                0xFF82_B283,
                Instr::Clc {
                    rd: 5,
                    rs1: 5,
                    immediate: 0xFFFF_FFF8,
                },
            ),
            (
                0x0410_0513,
                Instr::Addi {
                    rd: 10,
                    rs1: 0,
                    immediate: 65,
                },
            ),
            (
                0x00A2_A023,
                Instr::Sw {
                    rs1: 5,
                    rs2: 10,
                    immediate: 0,
                },
            ),
            (
                0x0000_8067,
                Instr::CJalr {
                    rd: 0,
                    rs1: 1,
                    immediate: 0,
                },
            ),
            (
                0x0000_1537,
                Instr::Lui {
                    rd: 10,
                    immediate: 1,
                },
            ),
            (
                0x0005_0513,
                Instr::Addi {
                    rd: 10,
                    rs1: 10,
                    immediate: 0,
                },
            ),
            (
                0xFFF0_0513,
                Instr::Addi {
                    rd: 10,
                    rs1: 0,
                    immediate: 0xFFFF_FFFF,
                },
            ),
            (
                0x0205_55B3,
                Instr::Divu {
                    rd: 11,
                    rs1: 10,
                    rs2: 0,
                },
            ),
            (0x0000_006F, Instr::Jal { rd: 0, offset: 0 }),
        ],
    );
}

#[test]
fn words_of_no_instruction(rt: HostRuntime) {
    no_instruction(
        &rt,
        &[
            // addi to register 16
            0x0000_0813,
            // addi from register 16
            0x0008_0013,
            // add of register 16
            0x0100_0033,
            // add with funct7 2
            0x0400_0033,
            // slli with funct7 0x20
            0x4000_1013,
            // srai with funct7 0x30
            0x6000_5013,
            // fence with rd 1
            0x0000_008F,
            // fence with rs1 1
            0x0000_800F,
            // fence.i
            0x0000_100F,
            // ecall with 2
            0x0020_0073,
            // ecall with rd 1
            0x0000_00F3,
            // csr with function 4
            0x0000_4073,
            // csr function 1 of register 16
            0x0008_1073,
            // branch with funct3 2
            0x0000_2063,
            // load with funct3 6
            0x0000_6003,
            // store with funct3 4
            0x0000_4023,
            // capability funct3 3
            0x0000_305B,
            // capability funct7 2
            0x0400_005B,
            // one source 5
            0xFE50_005B,
            // cjalr with funct3 1
            0x0000_1067,
            // zero
            0x0000_0000,
            // all ones
            0xFFFF_FFFF,
            // compressed
            0x0000_0001,
        ],
    );
}

#[test]
fn laws_are_called() {
    one_instruction();
}
