//! Lines as runs of the samples write them.

use crate::seen::at;
use ct_entry::{Act, Deed, Happened, Owned};
use ct_trace::line;
use std::process::Abort;

/// A deed of thread 1, compartment 0, by entry 7 or none.
fn deed(entry: u32, act: Act) -> Happened {
    Happened {
        deed: Some(Deed {
            thread: 1,
            actor: 0,
            entry,
            act,
        }),
        off: None,
    }
}

/// The lines of a step.
fn writes(rt: &impl Abort, happened: &Happened, step: u32, text: &str) {
    let lines = line(happened, step);
    at(rt, lines.as_str() == text, "step", step as u64);
}

/// A load by a second thread, a trap with a span with interrupts off behind it, and a step that tells nothing.
#[test]
fn lines_of_steps(rt: HostRuntime) {
    let load = Act::Load {
        address: 0x1000_0000,
        width: 4,
        value: 65,
    };
    let trap = Act::Trap {
        cause: 28,
        code: 3,
        register: 14,
    };
    let both = Happened {
        off: Some(Owned {
            thread: 0,
            actor: 0,
            export: 7,
        }),
        ..deed(0, trap)
    };
    let quiet = Happened {
        deed: None,
        off: None,
    };
    writes(
        &rt,
        &deed(4, load),
        3,
        "3 load t1 c0 e4 10000000 4 00000041\n",
    );
    writes(&rt, &both, 7, "7 trap t1 c0 28 3 14\n7 off t0 c0 e7\n");
    writes(&rt, &quiet, 8, "");
}
