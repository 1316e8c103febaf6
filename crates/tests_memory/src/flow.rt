//! Jumps from a code capability of 48 bytes at 0x80000000, whose high word is 0x56000030. Words are
//! put together by hand from the fields of docs/use/capabilities.md.

ghost use Rattle.std.specs.Prelude.{IsTrue};
ghost use Rattle.def_instr.specs.Shapes.{is_jump};

use crate::seen::{at, is};
use ct_cap::{Cap, Live, Posture, Shadow, Trap, expand};
use ct_flow::{Flow, flow};
use def_instr::Instr;
use std::process::Abort;

/// A tagged capability of an entry.
fn code(root: u32, word: u64) -> Cap {
    Cap {
        tag: true,
        word,
        shadow: Shadow { root, source: 0 },
    }
}

fn of_entry(root: u32, word: u64) -> Live {
    expand(code(root, word))
}

/// An integer.
fn number(word: u64) -> Live {
    expand(Cap {
        tag: false,
        word,
        shadow: Shadow { root: 0, source: 0 },
    })
}

/// What a jump from 0x80000010 gives, with interrupts on.
fn jump(instruction: Instr, x: Live, y: Live) -> Result<Flow, Trap>
    requires { IsTrue (is_jump instruction) }
{
    let on = Posture {
        off: false,
        source: 0,
    };
    flow(instruction, x, y, of_entry(1, 0x5600_0030_8000_0010), on, 0)
}

/// Where a jump goes on, or its trap.
fn target(went: &Result<Flow, Trap>) -> Result<Cap, Trap> {
    match went {
        Ok(went) => Ok(went.pcc.cap),
        Err(trap) => Err(*trap),
    }
}

/// In which posture a jump goes on, or its trap.
fn posture(went: &Result<Flow, Trap>) -> Result<Posture, Trap> {
    match went {
        Ok(went) => Ok(went.posture),
        Err(trap) => Err(*trap),
    }
}

/// What a jump links.
fn link(went: &Result<Flow, Trap>) -> Option<Cap> {
    match went {
        Ok(
            Flow {
                link: Some(link),
                ..
            },
        ) => Some(link.cap),
        _ => None,
    }
}

/// A trap of a register's capability.
fn refused(code: u32, register: u32) -> Trap {
    Trap {
        cause: 28,
        code,
        register,
    }
}

/// The trap of a misaligned target.
const MISALIGNED: Trap = Trap {
    cause: 0,
    code: 0,
    register: 0,
};

/// A jump goes on where it must, or traps so; the message names it by a number.
fn lands(rt: &impl Abort, number: usize, found: Result<Cap, Trap>, due: Result<Cap, Trap>) {
    at(rt, found == due, "jump", number as u64);
}

/// A jump goes on in the posture that it must.
fn runs(rt: &impl Abort, number: usize, found: Result<Posture, Trap>, due: Posture) {
    at(rt, found == Ok(due), "type", number as u64);
}

#[test]
fn jal_links_as_a_return_sentry(rt: HostRuntime) {
    let went = jump(Instr::Jal { rd: 1, offset: 8 }, number(0), number(0));
    lands(&rt, 0, target(&went), Ok(code(1, 0x5600_0030_8000_0018)));
    is(
        &rt,
        link(&went) == Some(code(1, 0x5740_0030_8000_0014)),
        "link",
    );
}

/// Where a branch of registers 5 and 6 goes on: `blt` by 8, `bltu` by 8 or `beq` by 6.
fn branch(which: u32, x: u64, y: u64) -> Result<Cap, Trap> {
    let (rs1, rs2, offset) = (5, 6, 8);
    let (x, y) = (number(x), number(y));
    let went = match which {
        0 => jump(Instr::Blt { rs1, rs2, offset }, x, y),
        1 => jump(Instr::Bltu { rs1, rs2, offset }, x, y),
        _ => jump(
            Instr::Beq {
                rs1,
                rs2,
                offset: 6,
            },
            x,
            y,
        ),
    };
    target(&went)
}

#[test]
fn branches_compare_and_align(rt: HostRuntime) {
    lands(
        &rt,
        0,
        branch(0, 0xFFFF_FFFF, 1),
        Ok(code(1, 0x5600_0030_8000_0018)),
    );
    lands(
        &rt,
        1,
        branch(1, 0xFFFF_FFFF, 1),
        Ok(code(1, 0x5600_0030_8000_0014)),
    );
    lands(&rt, 2, branch(2, 1, 1), Err(MISALIGNED));
}

/// A return through the sentry of the native return, and through a forward sentry, which it refuses.
#[test]
fn returns_take_return_sentries(rt: HostRuntime) {
    let back = Instr::CJalr {
        rd: 0,
        rs1: 1,
        immediate: 0,
    };
    let went = jump(back, of_entry(0, 0x5140_2018_0001_0010), number(0));
    lands(&rt, 0, target(&went), Ok(code(0, 0x5000_2018_0001_0010)));
    runs(&rt, 0, posture(&went), ON);
    let forward = jump(back, of_entry(3, 0x5040_0008_0001_0000), number(0));
    lands(&rt, 1, target(&forward), Err(refused(3, 1)));
}

/// Interrupts on, and off by export 6.
const ON: Posture = Posture {
    off: false,
    source: 0,
};

const OFF: Posture = Posture {
    off: true,
    source: 6,
};

/// The code capability at 0x80000020, unsealed and of types 1 to 5.
const TARGETS: [u64; 6] = [
    0x5600_0030_8000_0020,
    0x5640_0030_8000_0020,
    0x5680_0030_8000_0020,
    0x56C0_0030_8000_0020,
    0x5700_0030_8000_0020,
    0x5740_0030_8000_0020,
];

/// A register jump from 0x80000010 through a capability of entry 2 with source 7; that entry names
/// export 9.
fn through(rd: u32, rs1: u32, immediate: u32, word: u64, posture: Posture) -> Result<Flow, Trap> {
    let x = expand(Cap {
        tag: true,
        word,
        shadow: Shadow { root: 2, source: 7 },
    });
    flow(
        Instr::CJalr { rd, rs1, immediate },
        x,
        number(0),
        of_entry(1, 0x5600_0030_8000_0010),
        posture,
        9,
    )
}

/// Where such a jump with interrupts on goes on, or its trap.
fn end(rd: u32, rs1: u32, immediate: u32, word: u64) -> Result<Cap, Trap> {
    target(&through(rd, rs1, immediate, word, ON))
}

/// Of a register for the link and one for the target, which types the jump takes, from unsealed to 5:
/// the return, calls, and any other.
const TAKEN: [(u32, u32, [bool; 6]); 6] = [
    (0, 1, [true, false, false, false, true, true]),
    (1, 5, [true, true, true, true, false, false]),
    (1, 1, [true, true, true, true, false, false]),
    (0, 5, [true, true, false, false, false, false]),
    (7, 5, [true, true, false, false, false, false]),
    (7, 1, [true, true, false, false, false, false]),
];

/// A row of `TAKEN`: the jump goes on at the unsealed target, or is refused by its type.
fn takes(rt: &impl Abort, rd: u32, rs1: u32, taken: &[bool; 6]) {
    for kind in 0..6 {
        let due = if taken[kind] {
            Ok(code(2, 0x5600_0030_8000_0020))
        } else {
            Err(refused(3, rs1))
        };
        lands(rt, kind, end(rd, rs1, 0, TARGETS[kind]), due);
    }
}

#[test]
fn jumps_take_their_sentries(rt: HostRuntime) {
    for (rd, rs1, taken) in &TAKEN {
        takes(&rt, *rd, *rs1, taken);
    }
}

/// The posture through each type: as before, off by the export that the root names, on, off by the
/// capability's own source.
const POSTURES: [(u32, usize, Posture, bool, u32); 9] = [
    (1, 0, ON, false, 0),
    (1, 0, OFF, true, 6),
    (1, 1, ON, false, 0),
    (1, 1, OFF, true, 6),
    (1, 2, ON, true, 9),
    (1, 2, OFF, true, 9),
    (1, 3, OFF, false, 0),
    (0, 4, ON, true, 7),
    (0, 5, OFF, false, 0),
];

/// A row of `POSTURES`.
fn decides(rt: &impl Abort, row: &(u32, usize, Posture, bool, u32)) {
    let (rd, kind, before, off, source) = *row;
    at(rt, kind < 6, "type", kind as u64);
    let went = through(rd, 1, 0, TARGETS[kind % 6], before);
    runs(rt, kind, posture(&went), Posture { off, source });
}

#[test]
fn targets_decide_the_posture(rt: HostRuntime) {
    for row in &POSTURES {
        decides(&rt, row);
    }
}

/// Where interrupts were off the link turns them off again, by the same export.
#[test]
fn links_keep_interrupts_off(rt: HostRuntime) {
    let due = Cap {
        tag: true,
        word: 0x5700_0030_8000_0014,
        shadow: Shadow { root: 1, source: 6 },
    };
    is(
        &rt,
        link(&through(7, 5, 0, TARGETS[0], OFF)) == Some(due),
        "link",
    );
}

#[test]
fn immediates_of_unsealed_targets_alone(rt: HostRuntime) {
    for kind in 1..4 {
        lands(&rt, kind, end(1, 5, 4, TARGETS[kind]), Err(refused(3, 5)));
    }
    let due = code(2, 0x5600_0030_8000_0024);
    lands(&rt, 4, end(1, 5, 5, TARGETS[0]), Ok(due));
    lands(&rt, 5, end(1, 5, 6, TARGETS[0]), Err(MISALIGNED));
}

/// A sealed export, of type 9, is no target; an unsealed capability of data isn't executable; an
/// integer has no tag.
#[test]
fn data_is_no_target(rt: HostRuntime) {
    for (word, fault) in [(0x6440_8050_8000_0040, 3), (0x6400_8050_8000_0040, 17)] {
        lands(&rt, 0, end(1, 5, 0, word), Err(refused(fault, 5)));
    }
    let call = Instr::CJalr {
        rd: 1,
        rs1: 5,
        immediate: 0,
    };
    let went = jump(call, number(0x8000_0020), number(0));
    lands(&rt, 1, target(&went), Err(refused(2, 5)));
}
