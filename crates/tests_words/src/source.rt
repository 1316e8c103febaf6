//! Lawful lines, from the written language (docs/use/assembler.md).

use ct_source::statements;
use def_instr::shapes::StoreOperation;
use def_source::AsmFault;
use def_source::parts::{Number, Part};
use std::alloc::Global;
use std::process::Abort;

/// Each text stands for so many labels and statements.
fn counts(rt: &impl Abort, alloc: Global, rows: &[(&str, usize)]) {
    for (text, count) in rows {
        let bytes = text.as_bytes();
        assert!(rt; bytes.len() < 1000);
        match statements(alloc, bytes) {
            Ok(program) => assert!(rt; program.statements.len() == *count, "{text}"),
            Err(_) => assert!(rt; false, "{text}"),
        }
    }
}

#[test]
fn lawful_texts(rt: HostRuntime) {
    let rows = [
        ("", 0),
        ("\n\n", 0),
        ("# only a comment", 0),
        ("a:", 1),
        ("a : nop", 2),
        (
            "main: cimport ct0, uart\n li a0, 65\n csw a0, 0(ct0)\n cret\n",
            5,
        ),
        (".data\n.word 0\n.word 0x7E3C0100", 3),
        (
            "li a0, 0000000000000000000000000000000000000000000000000001",
            1,
        ),
        ("nop:nop", 2),
        ("\tadd\ta0,a1 ,a2#x", 1),
        (
            ".data\n.byte -128\n.byte 255\n.zero 0\n.align 4096\n.text\ncjalr ra, t2\ncjalr ra, -4(t2)",
            8,
        ),
        ("lw: lw a0, 0(a1)\nclw a0, 0(a1)\nli a0, -0", 4),
        ("beq c0, x15, -4096\nj 1048574\njal ra, main\n", 3),
    ];
    counts(&rt, rt.alloc(), &rows);
}

#[test]
fn a_statement_and_its_line(rt: HostRuntime) -> Result<(), AsmFault> {
    let program = statements(rt.alloc(), b"\n\n start: csb a0, -3(ct0)")?;
    assert!(rt; program.statements.len() == 2);
    let first = &program.statements[0];
    assert!(rt; first.line == 3);
    assert!(rt; matches!(first.part.part(), Part::Label { name: b"start" }));
    let second = &program.statements[1];
    assert!(rt; second.line == 3);
    let number = Number {
        negative: true,
        magnitude: 3,
    };
    match second.part.part() {
        Part::Store {
            operation,
            rs2,
            number: n,
            rs1,
        } => {
            assert!(rt; operation == StoreOperation::Sb && rs2 == 10 && n == number && rs1 == 5);
        }
        _ => assert!(rt; false),
    }
    Ok(())
}
