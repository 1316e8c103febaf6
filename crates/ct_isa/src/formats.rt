//! The formats of a word: each field at its place (RISC-V Unprivileged ISA, "Base Instruction
//! Formats").

ghost use Rattle.std.specs.Prelude.{◌≡◌, ◌<◌, ◌^◌};
ghost use Rattle.def_instr.specs.Table.{format_r, format_i, format_s, format_b, format_u, format_j};

/// Format R: six fields.
pub(crate) fn register_word(
    opcode: u32,
    funct3: u32,
    funct7: u32,
    rd: u32,
    rs1: u32,
    rs2: u32,
) -> u32
    requires opcode { opcode < 2 ^ 7 }
    requires funct3 { funct3 < 2 ^ 3 }
    requires funct7 { funct7 < 2 ^ 7 }
    requires rd { rd < 2 ^ 5 }
    requires rs1 { rs1 < 2 ^ 5 }
    requires rs2 { rs2 < 2 ^ 5 }
    ensures { result ≡ format_r opcode funct3 funct7 rd rs1 rs2 }
{
    opcode + (rd << 7) + (funct3 << 12) + (rs1 << 15) + (rs2 << 20) + (funct7 << 25)
}

/// Format I: twelve bits of immediate at the top.
pub(crate) fn immediate_word(opcode: u32, funct3: u32, rd: u32, rs1: u32, immediate: u32) -> u32
    requires opcode { opcode < 2 ^ 7 }
    requires funct3 { funct3 < 2 ^ 3 }
    requires rd { rd < 2 ^ 5 }
    requires rs1 { rs1 < 2 ^ 5 }
    ensures { result ≡ format_i opcode funct3 rd rs1 immediate }
{
    opcode + (rd << 7) + (funct3 << 12) + (rs1 << 15) + ((immediate % (1 << 12)) << 20)
}

/// Format S, of stores: the immediate's low five bits stand in rd's place.
pub(crate) fn store_word(funct3: u32, rs1: u32, rs2: u32, immediate: u32) -> u32
    requires funct3 { funct3 < 2 ^ 3 }
    requires rs1 { rs1 < 2 ^ 5 }
    requires rs2 { rs2 < 2 ^ 5 }
    ensures { result ≡ format_s 0x23 funct3 rs1 rs2 immediate }
{
    let low = immediate % (1 << 5);
    let high = (immediate >> 5) % (1 << 7);
    0x23 + (low << 7) + (funct3 << 12) + (rs1 << 15) + (rs2 << 20) + (high << 25)
}

/// Format B, of branches: the offset's bit 11, bits 4 to 1, bits 10 to 5, and bit 12.
pub(crate) fn branch_word(funct3: u32, rs1: u32, rs2: u32, offset: u32) -> u32
    requires funct3 { funct3 < 2 ^ 3 }
    requires rs1 { rs1 < 2 ^ 5 }
    requires rs2 { rs2 < 2 ^ 5 }
    ensures { result ≡ format_b 0x63 funct3 rs1 rs2 offset }
{
    let low = ((offset >> 11) % 2 << 7) + ((offset >> 1) % (1 << 4) << 8);
    let high = ((offset >> 5) % (1 << 6) << 25) + ((offset >> 12) % 2 << 31);
    0x63 + low + (funct3 << 12) + (rs1 << 15) + (rs2 << 20) + high
}

/// Format U: twenty bits above rd.
pub(crate) fn upper_word(opcode: u32, rd: u32, immediate: u32) -> u32
    requires opcode { opcode < 2 ^ 7 }
    requires rd { rd < 2 ^ 5 }
    requires immediate { immediate < 2 ^ 20 }
    ensures { result ≡ format_u opcode rd immediate }
{
    opcode + (rd << 7) + (immediate << 12)
}

/// Format J, of jumps: the offset's bits 19 to 12, bit 11, bits 10 to 1, and bit 20.
pub(crate) fn jump_word(rd: u32, offset: u32) -> u32
    requires { rd < 2 ^ 5 }
    ensures { result ≡ format_j 0x6F rd offset }
{
    let low = ((offset >> 12) % (1 << 8) << 12) + ((offset >> 11) % 2 << 20);
    let high = ((offset >> 1) % (1 << 10) << 21) + ((offset >> 20) % 2 << 31);
    0x6F + (rd << 7) + low + high
}
