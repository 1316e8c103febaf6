//! Each command once, and each refusal, with its status and what is written. The outputs are those of the samples, and
//! lines that were worked out by hand from docs/use.

use crate::calls::{Fault, answers, both, call};
use crate::samples::{BOARD_LINES, BOARD_REPORT, TINY_IMAGE, TINY_LINES, TINY_REPORT};
use std::alloc::{AllocError, Global};
use std::process::Abort;

/// Calls with their status and their line.
const LINES: [(&str, u8, &str); 20] = [
    ("why board.json app driver", 0, "none\n"),
    ("why board.json hex app", 0, "path hex app\n"),
    ("why board.json t app", 11, "refused 11 name\n"),
    ("check board.json board.policy", 0, "allow\n"),
    ("check board.json device.policy", 12, "denied 1 12\n"),
    ("check board.json total.policy", 12, "denied 1 7\n"),
    (
        "check board.json apart.policy",
        12,
        "denied 1 path hex app\n",
    ),
    (
        "check board.json frob.policy",
        13,
        "refused 13 policy P1 1\n",
    ),
    (
        "demo 0",
        0,
        "end finished steps 112 ticks 2 calls 2 devices 4 allocations 4 frees 4 traps 0\n",
    ),
    ("audit", 1, "refused 1 usage\n"),
    ("run tiny.json 0", 1, "refused 1 usage\n"),
    ("audit nosuch.json", 2, "refused 2 read nosuch.json\n"),
    ("audit brace", 4, "refused 4 description F1 firmware 0 0\n"),
    ("audit frob.json", 5, "refused 5 assembly A2 app 2\n"),
    ("audit small.json", 6, "refused 6 link L2 656 640\n"),
    ("runimage cut.image 100", 7, "refused 7 image I2 411\n"),
    ("runimage tiny.json 100", 7, "refused 7 image I1 0\n"),
    ("upgrade cut.image", 7, "refused 7 image I2 411\n"),
    (
        "run tiny.json 100 back.script",
        8,
        "refused 8 script S2 2\n",
    ),
    ("run tiny.json 100 brace", 8, "refused 8 script S1 1\n"),
];

#[test]
fn lines(rt: HostRuntime) {
    for (words, code, line) in LINES {
        answers(&rt, words, code, line.as_bytes());
    }
}

#[test]
fn reports_and_images(rt: HostRuntime) {
    answers(&rt, "audit tiny.json", 0, TINY_REPORT.as_bytes());
    answers(&rt, "audit board.json", 0, BOARD_REPORT.as_bytes());
    answers(&rt, "image tiny.json", 0, TINY_IMAGE.as_slice());
}

/// The smallest image in the last version of the format: the version, and the sweep rate after the heap's base.
fn upgraded(alloc: Global) -> Result<Vec<u8>, AllocError> {
    let mut bytes = Vec::from_slice(alloc, &TINY_IMAGE[..4])?;
    bytes.extend_from_slice(&[2, 0, 0, 0])?;
    bytes.extend_from_slice(&TINY_IMAGE[8..52])?;
    bytes.extend_from_slice(&[64, 0, 0, 0])?;
    bytes.extend_from_slice(&TINY_IMAGE[52..])?;
    Ok(bytes)
}

#[test]
fn an_upgrade(rt: HostRuntime) {
    let bytes = upgraded(rt.alloc()).expect(&rt, "memory");
    answers(&rt, "upgrade tiny.image", 0, bytes.as_slice());
}

#[test]
fn runs_of_the_smallest(rt: HostRuntime) {
    let text = both(rt.alloc(), TINY_REPORT, TINY_LINES).expect(&rt, "memory");
    answers(&rt, "run tiny.json 100", 0, text.as_bytes());
    answers(&rt, "runimage tiny.image 100", 0, text.as_bytes());
    answers(
        &rt,
        "runimage tiny.image 100 one.script",
        0,
        text.as_bytes(),
    );
}

/// A run of the board.
fn board_run(alloc: Global) -> Result<String, AllocError> {
    let mut text = String::from_str(alloc, BOARD_REPORT)?;
    for line in BOARD_LINES {
        text.push_str(line)?;
    }
    Ok(text)
}

#[test]
fn a_run_of_the_board(rt: HostRuntime) {
    let text = board_run(rt.alloc()).expect(&rt, "memory");
    answers(&rt, "run board.json 200", 0, text.as_bytes());
}

/// The lines after the first.
fn after_report(bytes: &[u8]) -> &[u8] {
    for (index, byte) in bytes.iter().enumerate() {
        if *byte == b'\n' && index < bytes.len() {
            return &bytes[index + 1..];
        }
    }
    &[]
}

/// What a script gives to a device is loaded from it.
fn script_read(rt: &(impl Abort + AllocGlobal)) {
    let came = call(rt.alloc(), "run reads.json 100 one.script", Fault::Nothing).expect(
        rt, "memory",
    );
    let loads = after_report(came.sink.inner.bytes()).starts_with(
        b"3 load t0 c0 e4 10000000 4 00000041\n",
    );
    assert!(rt;
        loads && came.status.code() == 0,
        "a load of what the script gives"
    );
    assert!(rt; came.reads == 3, "three files are read");
}

#[test]
fn a_script(rt: HostRuntime) {
    script_read(&rt);
}
