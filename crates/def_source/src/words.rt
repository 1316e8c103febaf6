//! What a statement's first word says, and the tables of words.

use crate::parts::BareOperation;
use def_instr::shapes::{
    BranchOperation, CapabilityOperation, ImmediateOperation, IntegerOperation, LoadOperation,
    RegisterOperation, ShiftOperation, SignedOperation, SourceOperation, StoreOperation,
    UpperOperation,
};

/// What a statement's first word says: an operation by its operand form, a jump, or a pseudo
/// instruction.
#[derive(Clone, Copy, Drop)]
pub enum Head {
    Registers(RegisterOperation),
    Immediate(ImmediateOperation),
    Upper(UpperOperation),
    Load(LoadOperation),
    Store(StoreOperation),
    Branch(BranchOperation),
    Source(SourceOperation),
    Bare(BareOperation),
    /// `jal`.
    Jal,
    /// `cjalr`.
    RegisterJump,
    /// `nop`.
    Nop,
    /// `mv`.
    Move,
    /// `j`.
    Jump,
    /// `cjal`.
    JumpAndLink,
    /// `cret`.
    Return,
    /// `cjr`.
    JumpRegister,
    /// `beqz`.
    IfZero,
    /// `bnez`.
    IfNotZero,
    /// `li`.
    LoadImmediate,
    /// `cimport`.
    Import,
    /// `cla`.
    TextAddress,
    /// `clg`.
    GlobalAddress,
}

/// A directive.
#[derive(Clone, Copy, Drop)]
pub enum Directive {
    Text,
    Data,
    Word,
    Byte,
    Zero,
    Align,
}

/// Each word that may begin a statement of text, and what it says. Loads and stores are listed with
/// and without a leading `c`.
pub const HEADS: [(&'static str, Head); 96] = [
    (
        "add",
        Head::Registers(RegisterOperation::Integer(IntegerOperation::Add)),
    ),
    (
        "sub",
        Head::Registers(RegisterOperation::Integer(IntegerOperation::Sub)),
    ),
    (
        "sll",
        Head::Registers(RegisterOperation::Integer(IntegerOperation::Sll)),
    ),
    (
        "slt",
        Head::Registers(RegisterOperation::Integer(IntegerOperation::Slt)),
    ),
    (
        "sltu",
        Head::Registers(RegisterOperation::Integer(IntegerOperation::Sltu)),
    ),
    (
        "xor",
        Head::Registers(RegisterOperation::Integer(IntegerOperation::Xor)),
    ),
    (
        "srl",
        Head::Registers(RegisterOperation::Integer(IntegerOperation::Srl)),
    ),
    (
        "sra",
        Head::Registers(RegisterOperation::Integer(IntegerOperation::Sra)),
    ),
    (
        "or",
        Head::Registers(RegisterOperation::Integer(IntegerOperation::Or)),
    ),
    (
        "and",
        Head::Registers(RegisterOperation::Integer(IntegerOperation::And)),
    ),
    (
        "mul",
        Head::Registers(RegisterOperation::Integer(IntegerOperation::Mul)),
    ),
    (
        "mulh",
        Head::Registers(RegisterOperation::Integer(IntegerOperation::Mulh)),
    ),
    (
        "mulhsu",
        Head::Registers(RegisterOperation::Integer(IntegerOperation::Mulhsu)),
    ),
    (
        "mulhu",
        Head::Registers(RegisterOperation::Integer(IntegerOperation::Mulhu)),
    ),
    (
        "div",
        Head::Registers(RegisterOperation::Integer(IntegerOperation::Div)),
    ),
    (
        "divu",
        Head::Registers(RegisterOperation::Integer(IntegerOperation::Divu)),
    ),
    (
        "rem",
        Head::Registers(RegisterOperation::Integer(IntegerOperation::Rem)),
    ),
    (
        "remu",
        Head::Registers(RegisterOperation::Integer(IntegerOperation::Remu)),
    ),
    (
        "csetbounds",
        Head::Registers(RegisterOperation::Capability(CapabilityOperation::CSetBounds)),
    ),
    (
        "csetboundsexact",
        Head::Registers(RegisterOperation::Capability(CapabilityOperation::CSetBoundsExact)),
    ),
    (
        "cseal",
        Head::Registers(RegisterOperation::Capability(CapabilityOperation::CSeal)),
    ),
    (
        "cunseal",
        Head::Registers(RegisterOperation::Capability(CapabilityOperation::CUnseal)),
    ),
    (
        "candperm",
        Head::Registers(RegisterOperation::Capability(CapabilityOperation::CAndPerm)),
    ),
    (
        "csetaddr",
        Head::Registers(RegisterOperation::Capability(CapabilityOperation::CSetAddr)),
    ),
    (
        "cincaddr",
        Head::Registers(RegisterOperation::Capability(CapabilityOperation::CIncAddr)),
    ),
    (
        "csub",
        Head::Registers(RegisterOperation::Capability(CapabilityOperation::CSub)),
    ),
    (
        "csethigh",
        Head::Registers(RegisterOperation::Capability(CapabilityOperation::CSetHigh)),
    ),
    (
        "ctestsubset",
        Head::Registers(RegisterOperation::Capability(CapabilityOperation::CTestSubset)),
    ),
    (
        "csetequalexact",
        Head::Registers(RegisterOperation::Capability(CapabilityOperation::CSetEqualExact)),
    ),
    (
        "addi",
        Head::Immediate(ImmediateOperation::Signed(SignedOperation::Addi)),
    ),
    (
        "slti",
        Head::Immediate(ImmediateOperation::Signed(SignedOperation::Slti)),
    ),
    (
        "sltiu",
        Head::Immediate(ImmediateOperation::Signed(SignedOperation::Sltiu)),
    ),
    (
        "xori",
        Head::Immediate(ImmediateOperation::Signed(SignedOperation::Xori)),
    ),
    (
        "ori",
        Head::Immediate(ImmediateOperation::Signed(SignedOperation::Ori)),
    ),
    (
        "andi",
        Head::Immediate(ImmediateOperation::Signed(SignedOperation::Andi)),
    ),
    (
        "slli",
        Head::Immediate(ImmediateOperation::Shift(ShiftOperation::Slli)),
    ),
    (
        "srli",
        Head::Immediate(ImmediateOperation::Shift(ShiftOperation::Srli)),
    ),
    (
        "srai",
        Head::Immediate(ImmediateOperation::Shift(ShiftOperation::Srai)),
    ),
    (
        "cincaddrimm",
        Head::Immediate(ImmediateOperation::CIncAddrImm),
    ),
    (
        "csetboundsimm",
        Head::Immediate(ImmediateOperation::CSetBoundsImm),
    ),
    ("lui", Head::Upper(UpperOperation::Lui)),
    ("auipcc", Head::Upper(UpperOperation::AuiPcc)),
    ("auicgp", Head::Upper(UpperOperation::AuiCgp)),
    ("lb", Head::Load(LoadOperation::Lb)),
    ("lh", Head::Load(LoadOperation::Lh)),
    ("lw", Head::Load(LoadOperation::Lw)),
    ("clc", Head::Load(LoadOperation::Clc)),
    ("lbu", Head::Load(LoadOperation::Lbu)),
    ("lhu", Head::Load(LoadOperation::Lhu)),
    ("cjalr", Head::RegisterJump),
    ("clb", Head::Load(LoadOperation::Lb)),
    ("clh", Head::Load(LoadOperation::Lh)),
    ("clw", Head::Load(LoadOperation::Lw)),
    ("clbu", Head::Load(LoadOperation::Lbu)),
    ("clhu", Head::Load(LoadOperation::Lhu)),
    ("sb", Head::Store(StoreOperation::Sb)),
    ("sh", Head::Store(StoreOperation::Sh)),
    ("sw", Head::Store(StoreOperation::Sw)),
    ("csc", Head::Store(StoreOperation::Csc)),
    ("csb", Head::Store(StoreOperation::Sb)),
    ("csh", Head::Store(StoreOperation::Sh)),
    ("csw", Head::Store(StoreOperation::Sw)),
    ("beq", Head::Branch(BranchOperation::Beq)),
    ("bne", Head::Branch(BranchOperation::Bne)),
    ("blt", Head::Branch(BranchOperation::Blt)),
    ("bge", Head::Branch(BranchOperation::Bge)),
    ("bltu", Head::Branch(BranchOperation::Bltu)),
    ("bgeu", Head::Branch(BranchOperation::Bgeu)),
    ("cgetperm", Head::Source(SourceOperation::CGetPerm)),
    ("cgettype", Head::Source(SourceOperation::CGetType)),
    ("cgetbase", Head::Source(SourceOperation::CGetBase)),
    ("cgetlen", Head::Source(SourceOperation::CGetLen)),
    ("cgettag", Head::Source(SourceOperation::CGetTag)),
    ("crrl", Head::Source(SourceOperation::Crrl)),
    ("cram", Head::Source(SourceOperation::Cram)),
    ("cmove", Head::Source(SourceOperation::CMove)),
    ("ccleartag", Head::Source(SourceOperation::CClearTag)),
    ("cgetaddr", Head::Source(SourceOperation::CGetAddr)),
    ("cgethigh", Head::Source(SourceOperation::CGetHigh)),
    ("cgettop", Head::Source(SourceOperation::CGetTop)),
    ("fence", Head::Bare(BareOperation::Fence)),
    ("ecall", Head::Bare(BareOperation::Ecall)),
    ("ebreak", Head::Bare(BareOperation::Ebreak)),
    ("jal", Head::Jal),
    ("nop", Head::Nop),
    ("mv", Head::Move),
    ("j", Head::Jump),
    ("cjal", Head::JumpAndLink),
    ("cret", Head::Return),
    ("cjr", Head::JumpRegister),
    ("beqz", Head::IfZero),
    ("bnez", Head::IfNotZero),
    ("li", Head::LoadImmediate),
    ("cimport", Head::Import),
    ("cla", Head::TextAddress),
    ("clg", Head::GlobalAddress),
];

/// Each directive without its point.
pub const DIRECTIVES: [(&'static str, Directive); 6] = [
    ("text", Directive::Text),
    ("data", Directive::Data),
    ("word", Directive::Word),
    ("byte", Directive::Byte),
    ("zero", Directive::Zero),
    ("align", Directive::Align),
];

/// Each name of a register, also of those that this machine hasn't.
pub const REGISTERS: [(&'static str, u32); 96] = [
    ("zero", 0),
    ("cnull", 0),
    ("ra", 1),
    ("cra", 1),
    ("sp", 2),
    ("csp", 2),
    ("gp", 3),
    ("cgp", 3),
    ("tp", 4),
    ("ctp", 4),
    ("t0", 5),
    ("ct0", 5),
    ("t1", 6),
    ("ct1", 6),
    ("t2", 7),
    ("ct2", 7),
    ("s0", 8),
    ("cs0", 8),
    ("s1", 9),
    ("cs1", 9),
    ("a0", 10),
    ("ca0", 10),
    ("a1", 11),
    ("ca1", 11),
    ("a2", 12),
    ("ca2", 12),
    ("a3", 13),
    ("ca3", 13),
    ("a4", 14),
    ("ca4", 14),
    ("a5", 15),
    ("ca5", 15),
    ("c0", 0),
    ("x0", 0),
    ("c1", 1),
    ("x1", 1),
    ("c2", 2),
    ("x2", 2),
    ("c3", 3),
    ("x3", 3),
    ("c4", 4),
    ("x4", 4),
    ("c5", 5),
    ("x5", 5),
    ("c6", 6),
    ("x6", 6),
    ("c7", 7),
    ("x7", 7),
    ("c8", 8),
    ("x8", 8),
    ("c9", 9),
    ("x9", 9),
    ("c10", 10),
    ("x10", 10),
    ("c11", 11),
    ("x11", 11),
    ("c12", 12),
    ("x12", 12),
    ("c13", 13),
    ("x13", 13),
    ("c14", 14),
    ("x14", 14),
    ("c15", 15),
    ("x15", 15),
    ("c16", 16),
    ("x16", 16),
    ("c17", 17),
    ("x17", 17),
    ("c18", 18),
    ("x18", 18),
    ("c19", 19),
    ("x19", 19),
    ("c20", 20),
    ("x20", 20),
    ("c21", 21),
    ("x21", 21),
    ("c22", 22),
    ("x22", 22),
    ("c23", 23),
    ("x23", 23),
    ("c24", 24),
    ("x24", 24),
    ("c25", 25),
    ("x25", 25),
    ("c26", 26),
    ("x26", 26),
    ("c27", 27),
    ("x27", 27),
    ("c28", 28),
    ("x28", 28),
    ("c29", 29),
    ("x29", 29),
    ("c30", 30),
    ("x30", 30),
    ("c31", 31),
    ("x31", 31),
];
