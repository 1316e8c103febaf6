//! An event that two lines tell, the call of an export with interrupts off: it is one write, of both lines.

use crate::calls::{Fault, both, call, wrote};
use std::process::Abort;

/// A compartment that calls another one's export with interrupts disabled.
pub const OFF: &str = "\
    {\"firmware\":\"off\",\"ram\":{\"base\":2147483648,\"size\":4096},\"compartments\":[{\"name\":\
    \"a\",\"code\":{\"file\":\"off.s\"},\"imports\":[{\"as\":\"f\",\"call\":\"b.f\"}],\"exports\":[\
    {\"name\":\"main\",\"at\":\"main\"}]},{\"name\":\"b\",\"code\":{\"words\":[\"00008067\"]},\"exp\
    orts\":[{\"name\":\"f\",\"at\":0,\"posture\":\"disabled\"}]}],\"threads\":[{\"name\":\"t\",\"en\
    try\":\"a.main\",\"priority\":1,\"stack\":256,\"frames\":2}]}";

pub const OFF_SOURCE: &str =
    "main: cmove cs1, cra\ncimport ct1, f\ncimport ct2, switch\ncjalr cra, ct2\ncmove cra, cs1\ncret\n";

/// Its report, as tests/model makes it of the description by the documents alone.
const OFF_REPORT: &str = "\
    {\"compartments\":[\"a\",\"b\"],\"devices\":[],\"edges\":[[0,1]],\"entries\":[{\"base\":2147483\
    648,\"kind\":\"code\",\"length\":48,\"number\":1,\"owner\":\"a\",\"rights\":\"GL LG LM LD MC EX\
    \"},{\"base\":2147483728,\"kind\":\"globals\",\"length\":16,\"number\":2,\"owner\":\"a\",\"righ\
    ts\":\"GL LG SD LM LD MC\"},{\"base\":65536,\"kind\":\"service\",\"length\":8,\"name\":\"switch\
    \",\"number\":3,\"of\":\"switch\",\"owner\":\"a\",\"rights\":\"GL LD MC EX\"},{\"base\":2147483\
    776,\"kind\":\"call\",\"length\":16,\"name\":\"f\",\"number\":4,\"of\":\"b.f\",\"owner\":\"a\",\
    \"rights\":\"GL LD\"},{\"args\":6,\"base\":2147483712,\"kind\":\"export\",\"length\":16,\"name\
    \":\"main\",\"number\":5,\"owner\":\"a\",\"passes\":\"capabilities\",\"posture\":\"enabled\",\"\
    rights\":\"GL LD\",\"stack\":0},{\"base\":2147483744,\"kind\":\"code\",\"length\":16,\"number\"\
    :6,\"owner\":\"b\",\"rights\":\"GL LG LM LD MC EX\"},{\"base\":2147483792,\"kind\":\"globals\",\
    \"length\":16,\"number\":7,\"owner\":\"b\",\"rights\":\"GL LG SD LM LD MC\"},{\"base\":65536,\"\
    kind\":\"service\",\"length\":8,\"name\":\"switch\",\"number\":8,\"of\":\"switch\",\"owner\":\"\
    b\",\"rights\":\"GL LD MC EX\"},{\"args\":6,\"base\":2147483776,\"kind\":\"export\",\"length\":\
    16,\"name\":\"f\",\"number\":9,\"owner\":\"b\",\"passes\":\"capabilities\",\"posture\":\"disabl\
    ed\",\"rights\":\"GL LD\",\"stack\":0},{\"base\":2147483808,\"kind\":\"stack\",\"length\":256,\
    \"number\":10,\"owner\":\"t\",\"rights\":\"LG SD LM SL LD MC\"}],\"firmware\":\"off\",\"heap\":\
    {\"base\":2147484368,\"length\":3376},\"libraries\":[],\"quantum\":100,\"threads\":[{\"entry\":\
    5,\"name\":\"t\",\"priority\":1}]}\n";

/// What fails of a run, its status, what it writes after the report, how many pieces come, and how many of these are one
/// line.
type Row = (Fault, u8, &'static str, u64, u64);

const EVENT: &'static str = "7 call t0 c0 e4 e9\n7 off t0 c1 e9\n";

const WHOLE: &'static str = "7 call t0 c0 e4 e9\n7 off t0 c1 e9\n\
    end finished steps 12 ticks 0 calls 1 devices 0 allocations 0 frees 0 traps 0\n";

/// Its report has 1,376 bytes, the event's first line 19, and its second one 15.
const ROWS: [Row; 8] = [
    (Fault::Nothing, 0, WHOLE, 3, 2),
    (Fault::Write(4), 0, WHOLE, 3, 2),
    (Fault::Write(3), 9, EVENT, 3, 2),
    (Fault::Write(2), 9, "", 2, 1),
    (Fault::Room(1376), 9, "", 2, 1),
    (Fault::Room(1377), 9, "7", 2, 1),
    (Fault::Room(1395), 9, "7 call t0 c0 e4 e9\n", 2, 1),
    (Fault::Room(1410), 9, EVENT, 3, 2),
];

fn comes(rt: &(impl Abort + AllocGlobal), row: Row) {
    let (fault, code, after, pieces, lines) = row;
    let came = call(rt.alloc(), "run off.json 100", fault).expect(rt, "memory");
    let text = both(rt.alloc(), OFF_REPORT, after).expect(rt, "memory");
    wrote(rt, &came, code, text.as_str(), pieces);
    assert!(rt;
        came.sink.pieces == pieces && came.sink.lines == lines && came.reads == 2,
        "{pieces} pieces, {lines} lines"
    );
}

#[test]
fn two_lines_are_one_write(rt: HostRuntime) {
    for row in ROWS {
        comes(&rt, row);
    }
}
