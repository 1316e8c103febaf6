//! The shapes of instructions: what an instruction does, apart from the fields that it has. Each
//! instruction has one shape, and each shape is one instruction's.

/// An integer operation of two registers.
#[derive(Clone, Copy, PartialEq, Eq, Drop)]
pub enum IntegerOperation {
    Add,
    Sub,
    Sll,
    Slt,
    Sltu,
    Xor,
    Srl,
    Sra,
    Or,
    And,
    Mul,
    Mulh,
    Mulhsu,
    Mulhu,
    Div,
    Divu,
    Rem,
    Remu,
}

/// An operation on capabilities in two registers.
#[derive(Clone, Copy, PartialEq, Eq, Drop)]
pub enum CapabilityOperation {
    CSetBounds,
    CSetBoundsExact,
    CSeal,
    CUnseal,
    CAndPerm,
    CSetAddr,
    CIncAddr,
    CSub,
    CSetHigh,
    CTestSubset,
    CSetEqualExact,
}

/// Two sources and a result.
#[derive(Clone, Copy, PartialEq, Eq, Drop)]
pub enum RegisterOperation {
    Integer(IntegerOperation),
    Capability(CapabilityOperation),
}

/// An integer operation of a register and a signed number of twelve bits.
#[derive(Clone, Copy, PartialEq, Eq, Drop)]
pub enum SignedOperation {
    Addi,
    Slti,
    Sltiu,
    Xori,
    Ori,
    Andi,
}

/// A shift of a register by 0 to 31.
#[derive(Clone, Copy, PartialEq, Eq, Drop)]
pub enum ShiftOperation {
    Slli,
    Srli,
    Srai,
}

/// A source, a number and a result.
#[derive(Clone, Copy, PartialEq, Eq, Drop)]
pub enum ImmediateOperation {
    Signed(SignedOperation),
    Shift(ShiftOperation),
    CIncAddrImm,
    CSetBoundsImm,
}

/// A number of twenty bits and a result.
#[derive(Clone, Copy, PartialEq, Eq, Drop)]
pub enum UpperOperation {
    Lui,
    AuiPcc,
    AuiCgp,
}

/// A load.
#[derive(Clone, Copy, PartialEq, Eq, Drop)]
pub enum LoadOperation {
    Lb,
    Lh,
    Lw,
    Clc,
    Lbu,
    Lhu,
}

/// A store.
#[derive(Clone, Copy, PartialEq, Eq, Drop)]
pub enum StoreOperation {
    Sb,
    Sh,
    Sw,
    Csc,
}

/// A branch.
#[derive(Clone, Copy, PartialEq, Eq, Drop)]
pub enum BranchOperation {
    Beq,
    Bne,
    Blt,
    Bge,
    Bltu,
    Bgeu,
}

/// An operation on a capability in one register.
#[derive(Clone, Copy, PartialEq, Eq, Drop)]
pub enum SourceOperation {
    CGetPerm,
    CGetType,
    CGetBase,
    CGetLen,
    CGetTag,
    Crrl,
    Cram,
    CMove,
    CClearTag,
    CGetAddr,
    CGetHigh,
    CGetTop,
}

/// An instruction by its operands, with the operation where several have the same. The fields mean
/// what they mean in `Instr`.
#[derive(Clone, Copy, PartialEq, Eq, Drop)]
pub enum Shape {
    /// `rd, rs1, rs2`
    Registers {
        operation: RegisterOperation,
        rd: u32,
        rs1: u32,
        rs2: u32,
    },
    /// `rd, rs1, immediate`
    Immediate {
        operation: ImmediateOperation,
        rd: u32,
        rs1: u32,
        immediate: u32,
    },
    /// `rd, immediate`
    Upper {
        operation: UpperOperation,
        rd: u32,
        immediate: u32,
    },
    /// `rd, immediate(rs1)`
    Load {
        operation: LoadOperation,
        rd: u32,
        rs1: u32,
        immediate: u32,
    },
    /// `rs2, immediate(rs1)`
    Store {
        operation: StoreOperation,
        rs1: u32,
        rs2: u32,
        immediate: u32,
    },
    /// `rs1, rs2, offset`
    Branch {
        operation: BranchOperation,
        rs1: u32,
        rs2: u32,
        offset: u32,
    },
    /// `jal rd, offset`
    Jump {
        rd: u32,
        offset: u32,
    },
    /// `cjalr rd, immediate(rs1)`
    RegisterJump {
        rd: u32,
        rs1: u32,
        immediate: u32,
    },
    /// `rd, rs1`
    OneSource {
        operation: SourceOperation,
        rd: u32,
        rs1: u32,
    },
    /// `fence`
    Fence {
        immediate: u32,
    },
    /// `ecall`
    Call,
    /// `ebreak`
    Break,
    /// An access of a control and status register.
    Status {
        function: u32,
        rd: u32,
        source: u32,
        number: u32,
    },
    /// `cspecialrw`
    Special {
        rd: u32,
        rs1: u32,
        number: u32,
    },
}
