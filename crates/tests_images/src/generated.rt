//! Firmware of a few numbers, with texts that were made by a script from the written form.

use crate::seen::{count_is, is};
use ct_gen::{Generated, generate};
use def_refusals::NoMemory;
use std::process::Abort;

/// A number over a text, by which texts are told apart.
fn mark_of(text: &[u8], before: u32) -> u32 {
    let mut mark = before;
    for byte in text {
        mark = mark.wrapping_mul(31).wrapping_add(u32::from(*byte));
    }
    mark
}

fn see_0(rt: &impl Abort, made: &Generated) {
    is(rt, 0, made.description.as_str() == DESCRIPTION);
    count_is(rt, made.sources.len(), 2);
    is(rt, 1, made.sources[0].as_str() == FIRST);
    is(rt, 2, made.sources[1].as_str() == SECOND);
}

#[test]
fn firmware_of_0(rt: HostRuntime) -> Result<(), NoMemory> {
    let made = generate(rt.alloc(), 0)?;
    see_0(&rt, &made);
    drop(made);
    Ok(())
}

/// A firmware's number, how many compartments it has, the length and the mark of its description, and
/// the mark of its sources.
type Other = (u32, usize, usize, u32, u32);

/// The numbers with the most compartments, with the greatest number, and with a first compartment that
/// passes data alone and a second that doesn't.
const OTHERS: [Other; 3] = [
    (62, 64, 19_977, 4_059_171_108, 2_797_775_433),
    (4_294_967_295, 5, 1_792, 2_001_937_286, 1_118_150_750),
    (693, 2, 879, 2_254_583_188, 2_272_467_025),
];

fn mark_of_all(sources: &[String]) -> u32 {
    let mut all = 0;
    for source in sources {
        all = mark_of(source.as_bytes(), all);
    }
    all
}

fn see_other(rt: &impl Abort, made: &Generated, row: &Other) {
    let (number, count, length, mark, sources) = *row;
    is(rt, number as usize, made.description.len() == length);
    is(
        rt,
        number as usize,
        mark_of(made.description.as_bytes(), 0) == mark,
    );
    is(rt, number as usize, made.sources.len() == count);
    is(
        rt,
        number as usize,
        mark_of_all(made.sources.as_slice()) == sources,
    );
}

#[test]
fn firmware_of_others(rt: HostRuntime) -> Result<(), NoMemory> {
    for row in &OTHERS {
        let made = generate(rt.alloc(), row.0)?;
        see_other(&rt, &made, row);
        drop(made);
    }
    Ok(())
}

const DESCRIPTION: &'static str =
    "{\"compartments\":[{\"code\":{\"file\":\"n0.s\"},\"exports\":[{\"args\":1,\"at\":\"go\",\
    \"name\":\"go\",\"stack\":64}],\"globals\":512,\"imports\":[{\"as\":\"uart\",\
    \"device\":\"uart0\",\"rights\":\"W\"},{\"as\":\"allocate\",\"service\":\"allocate\"},{\
    \"as\":\"free\",\"service\":\"free\"},{\"as\":\"next\",\"call\":\"n1.go\"}],\
    \"name\":\"n0\",\"quotas\":[{\"limit\":4096,\"name\":\"q\"}]},{\"code\":{\
    \"file\":\"n1.s\"},\"exports\":[{\"args\":1,\"at\":\"go\",\"name\":\"go\",\
    \"stack\":64}],\"globals\":816,\"imports\":[{\"as\":\"uart\",\"device\":\"uart0\",\
    \"rights\":\"W\"},{\"as\":\"allocate\",\"service\":\"allocate\"},{\"as\":\"free\",\
    \"service\":\"free\"}],\"name\":\"n1\",\"quotas\":[{\"limit\":4096,\"name\":\"q\"}]}],\
    \"devices\":[{\"base\":268435456,\"kind\":\"uart\",\"name\":\"uart0\"}],\
    \"firmware\":\"demo\",\"quantum\":50,\"ram\":{\"base\":2147483648,\"size\":1048576},\
    \"threads\":[{\"entry\":\"n0.go\",\"frames\":3,\"name\":\"a\",\"priority\":1,\
    \"stack\":8192},{\"entry\":\"n0.go\",\"frames\":3,\"name\":\"b\",\"priority\":1,\
    \"stack\":8192}]}";

const FIRST: &'static str = "go: cincaddrimm csp, csp, -16
 csc cra, 8(csp)
 cimport ca0, q
 li a1, 160
 cimport ct2, allocate
 cjalr cra, ct2
 csc ca0, 0(csp)
 cimport ct1, next
 cimport ct2, switch
 cjalr cra, ct2
 clc ca1, 0(csp)
 cimport ca0, q
 cimport ct2, free
 cjalr cra, ct2
 cimport ct0, uart
 li a0, 0
 csb a0, 0(ct0)
 clc cra, 8(csp)
 cincaddrimm csp, csp, 16
 cret
";

const SECOND: &'static str = "go: cincaddrimm csp, csp, -16
 csc cra, 8(csp)
 cimport ca0, q
 li a1, 80
 cimport ct2, allocate
 cjalr cra, ct2
 csc ca0, 0(csp)
 clc ca1, 0(csp)
 cimport ca0, q
 cimport ct2, free
 cjalr cra, ct2
 cimport ct0, uart
 li a0, 1
 csb a0, 0(ct0)
 clc cra, 8(csp)
 cincaddrimm csp, csp, 16
 cret
";
