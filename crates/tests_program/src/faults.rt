//! Reads and writes that fail, each in its turn, and rooms that end. A run of the board makes four reads and eight writes,
//! each of one line; what comes after a failure is neither read nor written.

use crate::calls::{Came, Fault, call, wrote};
use crate::samples::{BOARD_LINES, BOARD_REPORT, TINY_REPORT};
use std::alloc::{AllocError, Global};
use std::process::Abort;

const RUN: &str = "run board.json 200";

/// A call of which this fails.
fn came(rt: &(impl Abort + AllocGlobal), words: &str, fault: Fault) -> Came {
    call(rt.alloc(), words, fault).expect(rt, "memory")
}

/// The line that refuses a file.
fn refusal(alloc: Global, name: &str) -> Result<String, AllocError> {
    format!(in alloc; "refused 2 read {name}\n")
}

/// The read with this number, counted from 1, fails, and is the last.
fn read_fails(rt: &(impl Abort + AllocGlobal), words: &str, number: u64, name: &str) {
    let came = came(rt, words, Fault::Read(number));
    let line = refusal(rt.alloc(), name).expect(rt, "memory");
    wrote(rt, &came, 2, line.as_str(), number);
    assert!(rt; came.reads == number, "{number}: reads");
}

/// Calls, the number of the read that fails, and its file: the description or the image comes first, then the sources,
/// one for each owner, and the script or the policy last.
const READS: [(&str, u64, &str); 16] = [
    (RUN, 1, "board.json"),
    (RUN, 2, "app.s"),
    (RUN, 3, "driver.s"),
    (RUN, 4, "hex.s"),
    ("run board.json 200 one.script", 5, "one.script"),
    ("runimage tiny.image 100 one.script", 1, "tiny.image"),
    ("runimage tiny.image 100 one.script", 2, "one.script"),
    ("audit twice.json", 1, "twice.json"),
    ("audit twice.json", 2, "reads.s"),
    ("audit twice.json", 3, "reads.s"),
    ("check board.json board.policy", 1, "board.json"),
    ("check board.json board.policy", 4, "hex.s"),
    ("check board.json board.policy", 5, "board.policy"),
    ("image board.json", 4, "hex.s"),
    ("upgrade tiny.image", 1, "tiny.image"),
    ("why board.json hex app", 3, "driver.s"),
];

#[test]
fn each_read_fails(rt: HostRuntime) {
    for (words, number, name) in READS {
        read_fails(&rt, words, number, name);
    }
}

/// The report and the first lines of the board's run, so many together.
fn front(alloc: Global, lines: u64) -> Result<String, AllocError> {
    let mut text = String::new(alloc);
    if lines > 0 {
        text.push_str(BOARD_REPORT)?;
    }
    for (index, line) in BOARD_LINES.iter().enumerate() {
        if (index as u64).saturating_add(1) < lines {
            text.push_str(line)?;
        }
    }
    Ok(text)
}

/// The write with this number, counted from 1, fails, and is the last.
fn write_fails(rt: &(impl Abort + AllocGlobal), number: u64) {
    let came = came(rt, RUN, Fault::Write(number));
    let text = front(rt.alloc(), number.saturating_sub(1)).expect(rt, "memory");
    wrote(rt, &came, 9, text.as_str(), number);
    assert!(rt; came.sink.pieces == number, "{number}: writes");
}

#[test]
fn each_write_fails(rt: HostRuntime) {
    for number in 1..9u64 {
        write_fails(&rt, number);
    }
}

#[test]
fn a_write_or_read_too_many(rt: HostRuntime) {
    let text = front(rt.alloc(), 8).expect(&rt, "memory");
    wrote(&rt, &came(&rt, RUN, Fault::Write(9)), 0, text.as_str(), 9);
    wrote(&rt, &came(&rt, RUN, Fault::Read(5)), 0, text.as_str(), 5);
}

#[test]
fn one_line_is_one_write(rt: HostRuntime) {
    let came = came(&rt, RUN, Fault::Nothing);
    assert!(&rt;
        came.sink.pieces == 8 && came.sink.lines == 8,
        "eight lines in eight writes"
    );
}

/// The output ends where its room does.
fn room_ends(rt: &(impl Abort + AllocGlobal), room: u64) {
    let came = came(rt, RUN, Fault::Room(room));
    let text = front(rt.alloc(), 8).expect(rt, "memory");
    let written = came.sink.inner.bytes();
    assert!(rt; came.status.code() == 9, "{room}: status");
    let front = text.as_bytes().starts_with(written) && written.len() as u64 == room;
    assert!(rt; front, "{room}: output");
    assert!(rt; came.sink.later == 0, "{room}: later writes");
}

/// Rooms that end at a line's end, within a line, before the first byte and before the last.
const ROOMS: [u64; 6] = [0, 1, 2332, 2333, 2334, 2595];

#[test]
fn each_room_ends(rt: HostRuntime) {
    for room in ROOMS {
        room_ends(&rt, room);
    }
}

#[test]
fn second_write_fails(rt: HostRuntime) {
    let came = came(&rt, "run tiny.json 100", Fault::Write(2));
    wrote(&rt, &came, 9, TINY_REPORT, 2);
}

/// Calls that tell no event write once, and their status: where that write fails nothing is written.
const ONCE: [(&str, u8); 8] = [
    ("audit tiny.json", 0),
    ("image tiny.json", 0),
    ("upgrade tiny.image", 0),
    ("why board.json hex app", 0),
    ("check board.json board.policy", 0),
    ("check board.json two.policy", 12),
    ("check board.json apart.policy", 12),
    ("demo 0", 0),
];

/// The only write of a call fails, or the next one would.
fn writes_once(rt: &(impl Abort + AllocGlobal), words: &str, code: u8) {
    let failed = came(rt, words, Fault::Write(1));
    wrote(rt, &failed, 9, "", 1);
    let done = came(rt, words, Fault::Write(2));
    let status = done.status.code();
    assert!(rt;
        status == code && done.sink.pieces == 1,
        "{words}: status {status}"
    );
    assert!(rt; failed.reads == done.reads, "{words}: reads");
}

#[test]
fn the_only_write_fails(rt: HostRuntime) {
    for (words, code) in ONCE {
        writes_once(&rt, words, code);
    }
}

/// Refusals whose line can't be written, or not whole: what is due, and how much of it is written.
const REFUSALS: [(&str, Fault, &str); 7] = [
    ("audit", Fault::Write(1), ""),
    ("audit", Fault::Room(15), "refused 1 usage"),
    ("audit nosuch.json", Fault::Write(2), "refused 2 read "),
    (
        "audit nosuch.json",
        Fault::Write(3),
        "refused 2 read nosuch.json",
    ),
    (
        "audit nosuch.json",
        Fault::Room(26),
        "refused 2 read nosuch.json",
    ),
    ("runimage cut.image 100", Fault::Write(1), ""),
    ("why board.json t app", Fault::Room(8), "refused "),
];

#[test]
fn refusals_that_fail(rt: HostRuntime) {
    for (words, fault, text) in REFUSALS {
        wrote(&rt, &came(&rt, words, fault), 9, text, 0);
    }
}
