//! Each instruction at worked values.

ghost use Rattle.std.specs.Prelude.{IsTrue, ◌||◌};
ghost use Rattle.def_instr.specs.Shapes.{is_capability, is_system};

use ct_cap::{Live, Trap, clear_tag, derive, expand, shrink};
use ct_capstep::capstep;
use def_instr::Instr;
use def_instr::shapes::{CapabilityOperation, SourceOperation};
use def_words::{Cap, Shadow};

const NOWHERE: Shadow = Shadow { root: 0, source: 0 };

const TWO: Shadow = Shadow { root: 2, source: 0 };

const THREE: Shadow = Shadow { root: 3, source: 0 };

/// Globals of 16 bytes at 0x80000280, of root 3.
fn globals() -> Live {
    derive(0x7E3C0100, 0x80000280, 16, 0x07F, 0x80000280, 0, THREE)
}

/// Code of 64 bytes at 0x80000200, of root 2, at its third instruction.
fn code() -> Live {
    derive(0x5E3C0100, 0x80000200, 64, 0x16B, 0x80000208, 0, TWO)
}

/// What a row's register holds.
#[derive(Clone, Copy)]
enum Held {
    Globals,
    /// The same without its tag.
    Bare,
    Code,
    /// All of memory, and the empty range at 0 of all rights.
    All,
    Nothing,
    Number(u32),
}

fn value(held: Held) -> Live {
    match held {
        Held::Globals => globals(),
        Held::Bare => clear_tag(globals()),
        Held::Code => code(),
        Held::All => expand(Cap {
            tag: true,
            word: 0x7E3C010000000000,
            shadow: NOWHERE,
        }),
        Held::Nothing => derive(0x7E3C0100, 0, 0, 0xFFF, 0, 0, NOWHERE),
        Held::Number(number) => Live::integer(number),
    }
}

/// The result, or an untagged word of all ones for a trap.
fn result(i: Instr, x: Live, y: Live) -> Cap
    requires { IsTrue (is_capability i || is_system i) }
{
    match capstep(i, x, y, code()) {
        Ok(l) => shrink(l),
        Err(_) => Cap {
            tag: false,
            word: 0xFFFFFFFFFFFFFFFF,
            shadow: NOWHERE,
        },
    }
}

/// The instruction of two sources.
fn of_two(operation: CapabilityOperation) -> Instr
    ensures { IsTrue (is_capability result || is_system result) }
{
    let (rd, rs1, rs2) = (5, 10, 11);
    match operation {
        CapabilityOperation::CSetBounds => Instr::CSetBounds { rd, rs1, rs2 },
        CapabilityOperation::CSetBoundsExact => Instr::CSetBoundsExact { rd, rs1, rs2 },
        CapabilityOperation::CSeal => Instr::CSeal { rd, rs1, rs2 },
        CapabilityOperation::CUnseal => Instr::CUnseal { rd, rs1, rs2 },
        CapabilityOperation::CAndPerm => Instr::CAndPerm { rd, rs1, rs2 },
        CapabilityOperation::CSetAddr => Instr::CSetAddr { rd, rs1, rs2 },
        CapabilityOperation::CIncAddr => Instr::CIncAddr { rd, rs1, rs2 },
        CapabilityOperation::CSub => Instr::CSub { rd, rs1, rs2 },
        CapabilityOperation::CSetHigh => Instr::CSetHigh { rd, rs1, rs2 },
        CapabilityOperation::CTestSubset => Instr::CTestSubset { rd, rs1, rs2 },
        CapabilityOperation::CSetEqualExact => Instr::CSetEqualExact { rd, rs1, rs2 },
    }
}

/// The instruction of one source.
fn of_one(operation: SourceOperation) -> Instr
    ensures { IsTrue (is_capability result || is_system result) }
{
    let (rd, rs1) = (5, 10);
    match operation {
        SourceOperation::CGetPerm => Instr::CGetPerm { rd, rs1 },
        SourceOperation::CGetType => Instr::CGetType { rd, rs1 },
        SourceOperation::CGetBase => Instr::CGetBase { rd, rs1 },
        SourceOperation::CGetLen => Instr::CGetLen { rd, rs1 },
        SourceOperation::CGetTag => Instr::CGetTag { rd, rs1 },
        SourceOperation::Crrl => Instr::Crrl { rd, rs1 },
        SourceOperation::Cram => Instr::Cram { rd, rs1 },
        SourceOperation::CMove => Instr::CMove { rd, rs1 },
        SourceOperation::CClearTag => Instr::CClearTag { rd, rs1 },
        SourceOperation::CGetAddr => Instr::CGetAddr { rd, rs1 },
        SourceOperation::CGetHigh => Instr::CGetHigh { rd, rs1 },
        SourceOperation::CGetTop => Instr::CGetTop { rd, rs1 },
    }
}

/// What an operation of two sources gives.
fn two(operation: CapabilityOperation, x: Live, y: Live) -> Cap {
    result(of_two(operation), x, y)
}

/// What an operation of one source gives; the other register holds the globals.
fn one(operation: SourceOperation, x: Live) -> Cap {
    result(of_one(operation), x, globals())
}

#[test]
fn addresses_of_registers(rt: HostRuntime) {
    let g = globals();
    let moved = two(CapabilityOperation::CIncAddr, g, Live::integer(4));
    assert!(rt; moved.tag && moved.shadow == THREE && moved.word % 0x100000000 == 0x80000284);
    assert!(rt; two(CapabilityOperation::CSetAddr, g, Live::integer(0x80000284)) == moved);
    let back = Instr::CIncAddrImm {
        rd: 5,
        rs1: 3,
        immediate: 0xFFFFFFFC,
    };
    assert!(rt; result(back, expand(moved), g) == shrink(g));
}

/// pcc at 0x80000208: one 2048 on is past what 64 bytes of code can spell.
#[test]
fn addresses_of_the_counter_and_the_globals(rt: HostRuntime) {
    let g = globals();
    let far = result(
        Instr::AuiPcc {
            rd: 5,
            immediate: 1,
        },
        g,
        g,
    );
    assert!(rt; !far.tag && far.word % 0x100000000 == 0x80000A08);
    let here = result(
        Instr::AuiPcc {
            rd: 5,
            immediate: 0,
        },
        g,
        g,
    );
    assert!(rt; here == shrink(code()));
    let less = Instr::AuiPcc {
        rd: 5,
        immediate: 0xFFFFF,
    };
    assert!(rt; result(less, g, g).word % 0x100000000 == 0x7FFFFA08);
    let same = result(
        Instr::AuiCgp {
            rd: 5,
            immediate: 0,
        },
        g,
        Live::integer(4),
    );
    assert!(rt; same == shrink(g));
}

#[test]
fn bounds_and_high_words(rt: HostRuntime) {
    let g = globals();
    // 32 bytes of 16, as hostile code asks for.
    let wide = Instr::CSetBoundsImm {
        rd: 5,
        rs1: 3,
        immediate: 32,
    };
    assert!(rt; !result(wide, g, g).tag);
    let part = two(CapabilityOperation::CSetBounds, g, Live::integer(4));
    assert!(rt; part.tag && part == two(CapabilityOperation::CSetBoundsExact, g, Live::integer(4)));
    assert!(rt; one(SourceOperation::CGetLen, expand(part)).word == 4);
    // A high word set by hand is no capability.
    let forged = two(CapabilityOperation::CSetHigh, g, Live::integer(0x7E3C0100));
    assert!(rt; !forged.tag && forged.word == 0x7E3C010080000280 && forged.shadow == NOWHERE);
    assert!(rt; one(SourceOperation::CMove, g) == shrink(g));
    let bare = one(SourceOperation::CClearTag, g);
    assert!(rt; !bare.tag && bare.word == shrink(g).word && bare.shadow == NOWHERE);
}

#[test]
fn seals_and_permissions(rt: HostRuntime) {
    // A value of GL LD, sealed as 13 and opened again.
    let value = derive(0x7E3C0100, 64, 32, 0x021, 64, 0, THREE);
    let key = derive(0x4E3C0100, 13, 1, 0x601, 13, 0, NOWHERE);
    let sealed = two(CapabilityOperation::CSeal, value, key);
    assert!(rt; sealed.tag);
    assert!(rt; one(SourceOperation::CGetType, expand(sealed)).word == 13);
    assert!(rt; two(CapabilityOperation::CUnseal, expand(sealed), key) == shrink(value));
    // Without LD nothing but GL is left of GL LG LM LD MC EX.
    let bare = two(CapabilityOperation::CAndPerm, code(), Live::integer(0xFDF));
    assert!(rt; one(SourceOperation::CGetPerm, expand(bare)).word == 1);
}

/// Numbers of two registers.
const OF_TWO: [(CapabilityOperation, Held, Held, u64); 7] = [
    (
        CapabilityOperation::CTestSubset,
        Held::All,
        Held::Globals,
        1,
    ),
    (
        CapabilityOperation::CTestSubset,
        Held::Globals,
        Held::All,
        0,
    ),
    (CapabilityOperation::CTestSubset, Held::All, Held::Bare, 0),
    (
        CapabilityOperation::CSetEqualExact,
        Held::Globals,
        Held::Globals,
        1,
    ),
    (
        CapabilityOperation::CSetEqualExact,
        Held::Globals,
        Held::Code,
        0,
    ),
    (CapabilityOperation::CSub, Held::Globals, Held::Code, 0x78),
    (
        CapabilityOperation::CSub,
        Held::Code,
        Held::Globals,
        0xFFFFFF88,
    ),
];

/// Numbers of one. 1022 bytes from an odd place need an exponent of 2; of themselves they need 1.
const OF_ONE: [(SourceOperation, Held, u64); 12] = [
    (SourceOperation::CGetPerm, Held::Globals, 0x07F),
    (SourceOperation::CGetBase, Held::Globals, 0x80000280),
    (SourceOperation::CGetTop, Held::Globals, 0x80000290),
    (SourceOperation::CGetTop, Held::All, 0xFFFFFFFF),
    (SourceOperation::CGetLen, Held::All, 0xFFFFFFFF),
    (SourceOperation::CGetLen, Held::Nothing, 0),
    (SourceOperation::CGetTag, Held::Globals, 1),
    (SourceOperation::CGetAddr, Held::Code, 0x80000208),
    (SourceOperation::CGetHigh, Held::All, 0x7E3C0100),
    (SourceOperation::Crrl, Held::Number(1021), 1022),
    (SourceOperation::Cram, Held::Number(1021), 0xFFFFFFFE),
    (SourceOperation::Crrl, Held::Number(0xFFFFFFFF), 0),
];

#[test]
fn numbers_from_capabilities(rt: HostRuntime) {
    for (place, row) in OF_TWO.iter().enumerate() {
        let (operation, x, y, number) = *row;
        assert!(rt;
            two(operation, value(x), value(y)).word == number,
            "row {place}"
        );
    }
    for (place, row) in OF_ONE.iter().enumerate() {
        let (operation, x, number) = *row;
        assert!(rt; one(operation, value(x)).word == number, "row {place}");
    }
}

/// Whether a system register's instruction traps as it must.
fn is_refused(i: Instr) -> bool
    requires { IsTrue (is_capability i || is_system i) }
{
    let refused = Trap {
        cause: 28,
        code: 24,
        register: 16,
    };
    match capstep(i, globals(), globals(), code()) {
        Ok(_) => false,
        Err(trap) => trap == refused,
    }
}

#[test]
fn system_registers_trap(rt: HostRuntime) {
    let csr = Instr::Csr {
        function: 1,
        rd: 0,
        source: 0,
        number: 0xC00,
    };
    assert!(rt; is_refused(csr));
    let special = Instr::CSpecialRw {
        rd: 5,
        rs1: 0,
        number: 28,
    };
    assert!(rt; is_refused(special));
}
