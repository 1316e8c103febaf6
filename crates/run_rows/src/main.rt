//! A table of rows: what is stored of this program's output was found apart from it. The file `heap` says how.
#![tactic(auto)]

mod common;
mod heap;

use std::process::ExitCode;

fn main(rt: HostRuntime) -> ExitCode {
    match heap::run(&rt) {
        Ok(()) => ExitCode::from(0),
        Err(failure) => ExitCode::from(failure.status()),
    }
}
