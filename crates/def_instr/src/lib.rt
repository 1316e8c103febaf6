//! The instructions of the machine and their shapes, as plain data. The written definitions over
//! them stand in specs/: the shape of each instruction and what kind of instruction it is (Shapes),
//! which numbers its fields may hold and which word it has (Table), the instruction of a word as a
//! function (Reading), and what the integer instructions give (Results). Nothing here computes.
//!
//! The base and M instructions are those of the RISC-V Unprivileged ISA (RV32E with M), the others
//! follow the CHERIoT Architecture Specification in this project's encoding (docs/use/machine.md).
#![tactic(auto)]

pub mod shapes;

/// One instruction, with its operands.
///
/// Registers (`rd`, `rs1`, `rs2`) are numbers below 16. `immediate` and `offset` are the 32-bit
/// word that the field stands for: sign-extended where the field is signed, offsets in bytes and
/// modulo 2^32. The immediate of `lui`, `auipcc` and `auicgp` is the 20-bit field itself. What each
/// field may hold is `InRange` of specs/Table.
#[derive(Clone, Copy, Drop)]
pub enum Instr {
    /// `lui rd, immediate`: `rd` gets the 20 bits of `immediate` as its upper bits.
    Lui {
        rd: u32,
        immediate: u32,
    },
    /// `auipcc rd, immediate`: the program counter capability, its address raised by 2048 times the 20-bit number.
    AuiPcc {
        rd: u32,
        immediate: u32,
    },
    /// `auicgp rd, immediate`: the globals capability, its address raised by 2048 times the 20-bit number.
    AuiCgp {
        rd: u32,
        immediate: u32,
    },
    /// `jal rd, offset`: jump by an even offset in bytes, and link in `rd`.
    Jal {
        rd: u32,
        offset: u32,
    },
    /// `cjalr rd, immediate(rs1)`: jump to the capability in `rs1`, and link in `rd`.
    CJalr {
        rd: u32,
        rs1: u32,
        immediate: u32,
    },
    /// `beq rs1, rs2, offset`: branch where both are equal.
    Beq {
        rs1: u32,
        rs2: u32,
        offset: u32,
    },
    /// `bne`: branch where they differ.
    Bne {
        rs1: u32,
        rs2: u32,
        offset: u32,
    },
    /// `blt`: branch where `rs1` is less, as signed numbers.
    Blt {
        rs1: u32,
        rs2: u32,
        offset: u32,
    },
    /// `bge`: branch where `rs1` is not less, as signed numbers.
    Bge {
        rs1: u32,
        rs2: u32,
        offset: u32,
    },
    /// `bltu`: branch where `rs1` is less, as unsigned numbers.
    Bltu {
        rs1: u32,
        rs2: u32,
        offset: u32,
    },
    /// `bgeu`: branch where `rs1` is not less, as unsigned numbers.
    Bgeu {
        rs1: u32,
        rs2: u32,
        offset: u32,
    },
    /// `lb rd, immediate(rs1)`: load one byte, sign-extended.
    Lb {
        rd: u32,
        rs1: u32,
        immediate: u32,
    },
    /// `lh`: load two bytes, sign-extended.
    Lh {
        rd: u32,
        rs1: u32,
        immediate: u32,
    },
    /// `lw`: load four bytes.
    Lw {
        rd: u32,
        rs1: u32,
        immediate: u32,
    },
    /// `clc`: load a capability.
    Clc {
        rd: u32,
        rs1: u32,
        immediate: u32,
    },
    /// `lbu`: load one byte, zero-extended.
    Lbu {
        rd: u32,
        rs1: u32,
        immediate: u32,
    },
    /// `lhu`: load two bytes, zero-extended.
    Lhu {
        rd: u32,
        rs1: u32,
        immediate: u32,
    },
    /// `sb rs2, immediate(rs1)`: store the low byte of `rs2`.
    Sb {
        rs1: u32,
        rs2: u32,
        immediate: u32,
    },
    /// `sh`: store the low two bytes.
    Sh {
        rs1: u32,
        rs2: u32,
        immediate: u32,
    },
    /// `sw`: store four bytes.
    Sw {
        rs1: u32,
        rs2: u32,
        immediate: u32,
    },
    /// `csc`: store a capability.
    Csc {
        rs1: u32,
        rs2: u32,
        immediate: u32,
    },
    /// `addi rd, rs1, immediate`: the sum modulo 2^32.
    Addi {
        rd: u32,
        rs1: u32,
        immediate: u32,
    },
    /// `slti`: 1 where `rs1` is less than the immediate, as signed numbers, else 0.
    Slti {
        rd: u32,
        rs1: u32,
        immediate: u32,
    },
    /// `sltiu`: 1 where `rs1` is less than the immediate, as unsigned numbers, else 0.
    Sltiu {
        rd: u32,
        rs1: u32,
        immediate: u32,
    },
    /// `xori`: bitwise exclusive or.
    Xori {
        rd: u32,
        rs1: u32,
        immediate: u32,
    },
    /// `ori`: bitwise or.
    Ori {
        rd: u32,
        rs1: u32,
        immediate: u32,
    },
    /// `andi`: bitwise and.
    Andi {
        rd: u32,
        rs1: u32,
        immediate: u32,
    },
    /// `slli rd, rs1, amount`: shift left, filling with zeros.
    Slli {
        rd: u32,
        rs1: u32,
        amount: u32,
    },
    /// `srli`: shift right, filling with zeros.
    Srli {
        rd: u32,
        rs1: u32,
        amount: u32,
    },
    /// `srai`: shift right, filling with the sign.
    Srai {
        rd: u32,
        rs1: u32,
        amount: u32,
    },
    /// `add rd, rs1, rs2`: the sum modulo 2^32.
    Add {
        rd: u32,
        rs1: u32,
        rs2: u32,
    },
    /// `sub`: the difference modulo 2^32.
    Sub {
        rd: u32,
        rs1: u32,
        rs2: u32,
    },
    /// `sll`: shift left by the low five bits of `rs2`.
    Sll {
        rd: u32,
        rs1: u32,
        rs2: u32,
    },
    /// `slt`: 1 where `rs1` is less than `rs2`, as signed numbers, else 0.
    Slt {
        rd: u32,
        rs1: u32,
        rs2: u32,
    },
    /// `sltu`: 1 where `rs1` is less than `rs2`, as unsigned numbers, else 0.
    Sltu {
        rd: u32,
        rs1: u32,
        rs2: u32,
    },
    /// `xor`: bitwise exclusive or.
    Xor {
        rd: u32,
        rs1: u32,
        rs2: u32,
    },
    /// `srl`: shift right by the low five bits of `rs2`, filling with zeros.
    Srl {
        rd: u32,
        rs1: u32,
        rs2: u32,
    },
    /// `sra`: the same, filling with the sign.
    Sra {
        rd: u32,
        rs1: u32,
        rs2: u32,
    },
    /// `or`: bitwise or.
    Or {
        rd: u32,
        rs1: u32,
        rs2: u32,
    },
    /// `and`: bitwise and.
    And {
        rd: u32,
        rs1: u32,
        rs2: u32,
    },
    /// `mul`: the low 32 bits of the product.
    Mul {
        rd: u32,
        rs1: u32,
        rs2: u32,
    },
    /// `mulh`: the high 32 bits of the product of two signed numbers.
    Mulh {
        rd: u32,
        rs1: u32,
        rs2: u32,
    },
    /// `mulhsu`: the high 32 bits, `rs1` signed and `rs2` unsigned.
    Mulhsu {
        rd: u32,
        rs1: u32,
        rs2: u32,
    },
    /// `mulhu`: the high 32 bits of the product of two unsigned numbers.
    Mulhu {
        rd: u32,
        rs1: u32,
        rs2: u32,
    },
    /// `div`: the quotient of signed numbers, rounded toward zero.
    Div {
        rd: u32,
        rs1: u32,
        rs2: u32,
    },
    /// `divu`: the quotient of unsigned numbers.
    Divu {
        rd: u32,
        rs1: u32,
        rs2: u32,
    },
    /// `rem`: the remainder of signed numbers, with the dividend's sign.
    Rem {
        rd: u32,
        rs1: u32,
        rs2: u32,
    },
    /// `remu`: the remainder of unsigned numbers.
    Remu {
        rd: u32,
        rs1: u32,
        rs2: u32,
    },
    /// `fence`: nothing to do here; any 12-bit immediate.
    Fence {
        immediate: u32,
    },
    /// `ecall`: trap to the environment.
    Ecall,
    /// `ebreak`: trap to a debugger.
    Ebreak,
    /// An access of a control and status register, by `function` 1 to 3 with a source register, or 5 to 7 with a five-bit number.
    Csr {
        function: u32,
        rd: u32,
        source: u32,
        number: u32,
    },
    /// `cincaddrimm rd, rs1, immediate`: the capability with its address raised by a signed number.
    CIncAddrImm {
        rd: u32,
        rs1: u32,
        immediate: u32,
    },
    /// `csetboundsimm rd, rs1, immediate`: bounds of an unsigned length, 0 to 4095.
    CSetBoundsImm {
        rd: u32,
        rs1: u32,
        immediate: u32,
    },
    /// `cspecialrw rd, number, rs1`: a special capability register by its five-bit number.
    CSpecialRw {
        rd: u32,
        rs1: u32,
        number: u32,
    },
    /// `csetbounds rd, rs1, rs2`: bounds that begin at the address and have at least the length `rs2`.
    CSetBounds {
        rd: u32,
        rs1: u32,
        rs2: u32,
    },
    /// `csetboundsexact`: the same, untagged where they had to be rounded.
    CSetBoundsExact {
        rd: u32,
        rs1: u32,
        rs2: u32,
    },
    /// `cseal`: seal with the key `rs2`.
    CSeal {
        rd: u32,
        rs1: u32,
        rs2: u32,
    },
    /// `cunseal`: unseal with the key `rs2`.
    CUnseal {
        rd: u32,
        rs1: u32,
        rs2: u32,
    },
    /// `candperm`: keep the permissions of the mask `rs2`.
    CAndPerm {
        rd: u32,
        rs1: u32,
        rs2: u32,
    },
    /// `csetaddr`: set the address to `rs2`.
    CSetAddr {
        rd: u32,
        rs1: u32,
        rs2: u32,
    },
    /// `cincaddr`: raise the address by `rs2`.
    CIncAddr {
        rd: u32,
        rs1: u32,
        rs2: u32,
    },
    /// `csub`: the difference of the addresses modulo 2^32.
    CSub {
        rd: u32,
        rs1: u32,
        rs2: u32,
    },
    /// `csethigh`: set the high word to `rs2`, untagged.
    CSetHigh {
        rd: u32,
        rs1: u32,
        rs2: u32,
    },
    /// `ctestsubset`: 1 where `rs2` lies in `rs1`, else 0.
    CTestSubset {
        rd: u32,
        rs1: u32,
        rs2: u32,
    },
    /// `csetequalexact`: 1 where tag and word are the same, else 0.
    CSetEqualExact {
        rd: u32,
        rs1: u32,
        rs2: u32,
    },
    /// `cgetperm rd, rs1`: the twelve permission bits.
    CGetPerm {
        rd: u32,
        rs1: u32,
    },
    /// `cgettype`: the type of the seal, 0 where unsealed.
    CGetType {
        rd: u32,
        rs1: u32,
    },
    /// `cgetbase`: the base.
    CGetBase {
        rd: u32,
        rs1: u32,
    },
    /// `cgetlen`: the length, at most 2^32 - 1.
    CGetLen {
        rd: u32,
        rs1: u32,
    },
    /// `cgettag`: the tag, 0 or 1.
    CGetTag {
        rd: u32,
        rs1: u32,
    },
    /// `crrl`: the representable length at least `rs1`.
    Crrl {
        rd: u32,
        rs1: u32,
    },
    /// `cram`: the alignment mask for a length.
    Cram {
        rd: u32,
        rs1: u32,
    },
    /// `cmove`: the capability itself.
    CMove {
        rd: u32,
        rs1: u32,
    },
    /// `ccleartag`: the capability, untagged.
    CClearTag {
        rd: u32,
        rs1: u32,
    },
    /// `cgetaddr`: the address.
    CGetAddr {
        rd: u32,
        rs1: u32,
    },
    /// `cgethigh`: the high word.
    CGetHigh {
        rd: u32,
        rs1: u32,
    },
    /// `cgettop`: the top, at most 2^32 - 1.
    CGetTop {
        rd: u32,
        rs1: u32,
    },
}

/// A word in the six fields into which format R cuts it, of 7, 5, 3, 5, 5 and 7 bits from the lowest
/// on (RISC-V Unprivileged ISA, "Base Instruction Formats").
#[derive(Clone, Copy, Drop)]
pub struct Fields {
    pub opcode: u32,
    pub rd: u32,
    pub funct3: u32,
    pub rs1: u32,
    pub rs2: u32,
    pub funct7: u32,
}
