//! Objects whose words are known from outside (docs/build/testing.md, docs/use/assembler.md).

use ct_asm::{Names, Object, assemble, undeclared};
use ct_source::statements;
use def_source::AsmFault;
use std::alloc::Global;
use std::process::Abort;

/// The slots of a test, in order.
fn slots(rt: &impl Abort, alloc: Global, names: &[&str]) -> Names {
    let mut all = Names::new(alloc);
    for name in names {
        assert!(rt; all.add(alloc, name).is_ok());
    }
    all
}

/// The object of a source.
fn object(rt: &impl Abort, alloc: Global, names: &Names, source: &str) -> Result<Object, AsmFault> {
    let bytes = source.as_bytes();
    assert!(rt; bytes.len() < 10_000_000);
    let program = statements(alloc, bytes)?;
    assert!(rt; undeclared(&program, names).is_none());
    assemble(alloc, &program, names)
}

/// The source gives these words of text.
fn gives(rt: &impl Abort, alloc: Global, names: &Names, source: &str, words: &[u32]) {
    match object(rt, alloc, names, source) {
        Ok(object) => {
            assert!(rt; object.text.len() == 4 * words.len(), "{source}");
            let text = object.text.as_slice();
            for (i, word) in words.iter().enumerate() {
                let bytes = word.to_le_bytes();
                assert!(rt;
                    text.get(4 * i..4 * i + 4) == Some(bytes.as_slice()),
                    "{source} {i}"
                );
            }
        }
        Err(_) => assert!(rt; false, "{source}"),
    }
}

#[test]
fn loads_of_numbers(rt: HostRuntime) {
    let names = Names::new(rt.alloc());
    gives(
        &rt,
        rt.alloc(),
        &names,
        "li a0, 4096",
        &[0x0000_1537, 0x0005_0513],
    );
    gives(&rt, rt.alloc(), &names, "li a0, 4294967295", &[0xFFF0_0513]);
    gives(
        &rt,
        rt.alloc(),
        &names,
        "li a0, 2048",
        &[0x0000_1537, 0x8005_0513],
    );
    gives(
        &rt,
        rt.alloc(),
        &names,
        "li a0, -2147483648",
        &[0x8000_0537, 0x0005_0513],
    );
}

#[test]
fn words_of_tiny(rt: HostRuntime) {
    let names = slots(&rt, rt.alloc(), &["switch", "uart"]);
    let source = " cimport ct0, uart\n li a0, 65\n csw a0, 0(ct0)\n cret\n";
    gives(
        &rt,
        rt.alloc(),
        &names,
        source,
        &[
            0x0000_0297,
            0xFF82_B283,
            0x0410_0513,
            0x00A2_A023,
            0x0000_8067,
        ],
    );
}

#[test]
fn words_of_the_board_application(rt: HostRuntime) {
    let names = slots(
        &rt,
        rt.alloc(),
        &["switch", "digit", "put", "allocate", "q"],
    );
    let source = "main: cmove cs0, cra\n cimport ca0, q\n li a1, 24\n cimport ct2, allocate\n \
         cjalr cra, ct2\n li a0, 7\n cimport ct2, digit\n cjalr cra, ct2\n cimport ct1, put\n \
         cimport ct2, switch\n cjalr cra, ct2\n cmove cra, cs0\n cret\n";
    gives(
        &rt,
        rt.alloc(),
        &names,
        source,
        &[
            0xFEA0_845B,
            0x0000_0517,
            0xFF45_3503,
            0x0180_0593,
            0x0000_0397,
            0xFE03_B383,
            0x0003_80E7,
            0x0070_0513,
            0x0000_0397,
            0xFC03_B383,
            0x0003_80E7,
            0x0000_0317,
            0xFBC3_3303,
            0x0000_0397,
            0xFA43_B383,
            0x0003_80E7,
            0xFEA4_00DB,
            0x0000_8067,
        ],
    );
}

#[test]
fn words_of_a_demo_compartment(rt: HostRuntime) {
    let names = slots(
        &rt,
        rt.alloc(),
        &["switch", "uart", "allocate", "free", "next", "q"],
    );
    let source = "go: cincaddrimm csp, csp, -16\n csc cra, 8(csp)\n cimport ca0, q\n li a1, 136\n \
         cimport ct2, allocate\n cjalr cra, ct2\n csc ca0, 0(csp)\n cimport ct1, next\n \
         cimport ct2, switch\n cjalr cra, ct2\n clc ca1, 0(csp)\n cimport ca0, q\n \
         cimport ct2, free\n cjalr cra, ct2\n cimport ct0, uart\n li a0, 3\n csb a0, 0(ct0)\n \
         clc cra, 8(csp)\n cincaddrimm csp, csp, 16\n cret\n";
    gives(
        &rt,
        rt.alloc(),
        &names,
        source,
        &[
            0xFF01_115B,
            0x0011_3423,
            0x0000_0517,
            0xFF05_3503,
            0x0880_0593,
            0x0000_0397,
            0xFCC3_B383,
            0x0003_80E7,
            0x00A1_3023,
            0x0000_0317,
            0xFCC3_3303,
            0x0000_0397,
            0xFA43_B383,
            0x0003_80E7,
            0x0001_3583,
            0x0000_0517,
            0xFBC5_3503,
            0x0000_0397,
            0xFA43_B383,
            0x0003_80E7,
            0x0000_0297,
            0xF882_B283,
            0x0030_0513,
            0x00A2_8023,
            0x0081_3083,
            0x0101_115B,
            0x0000_8067,
        ],
    );
}

#[test]
fn forged_word_and_labels(rt: HostRuntime) -> Result<(), AsmFault> {
    let names = slots(&rt, rt.alloc(), &["switch"]);
    let source =
        "main: clc ct0, 0(cgp)\n clw a0, 0(ct0)\nend:\n.data\n.word 0\nword: .word 0x7E3C0100\n";
    let object = object(&rt, rt.alloc(), &names, source)?;
    assert!(rt; object.text.as_slice() == [0x83, 0xB2, 0x01, 0, 0x03, 0xA5, 0x02, 0].as_slice());
    assert!(rt; object.init.as_slice() == [0, 0, 0, 0, 0, 1, 0x3C, 0x7E].as_slice());
    assert!(rt; object.find("main") == Some(0));
    assert!(rt; object.find("end") == Some(8));
    assert!(rt; object.find("word").is_none());
    assert!(rt; object.find("nothing").is_none());
    Ok(())
}

#[test]
fn initial_bytes(rt: HostRuntime) -> Result<(), AsmFault> {
    let names = Names::new(rt.alloc());
    let source =
        ".data\n.byte -1\n.align 4\n.byte 255\n.zero 2\n.align 2\n.text\nnop\n.data\n.byte 7";
    let object = object(&rt, rt.alloc(), &names, source)?;
    assert!(rt; object.init.as_slice() == [255, 0, 0, 0, 255, 0, 0, 0, 7].as_slice());
    assert!(rt; object.text.len() == 4);
    Ok(())
}

#[test]
fn undeclared_imports(rt: HostRuntime) -> Result<(), AsmFault> {
    let names = slots(&rt, rt.alloc(), &["switch", "uart"]);
    let program = statements(
        rt.alloc(),
        b"main: cimport ct0, uart\ncimport ct0, nosuch\ncimport ct0, none",
    )?;
    assert!(rt; undeclared(&program, &names) == Some(2));
    assert!(rt; names.len() == 2);
    assert!(rt; names.slot(b"uart") == Some(1));
    Ok(())
}
