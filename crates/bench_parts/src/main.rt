//! Runs one layer many times: the first word names a measure, those after it are what it is given; each measure's
//! file says which. After the word `then` the next measure's words follow.
#![tactic(auto)]

mod burst;
mod decode;
mod failure;
mod given;
mod heap;
mod laden;
mod planes;
mod sweep;

use failure::Failure;
use std::env;
use std::process::ExitCode;

/// The measure that the first word names.
fn measure(rt: &HostRuntime, words: &[String]) -> Result<(), Failure> {
    let Some((name, words)) = words.split_first() else {
        return Err(Failure::Unmeasured);
    };
    match name.as_str() {
        "burst" => burst::measure(rt, words),
        "decode" => decode::measure(rt, words),
        "heap" => heap::measure(rt, words),
        "planes" => planes::measure(rt, words),
        "sweep" => sweep::measure(rt, words),
        _ => Err(Failure::Unmeasured),
    }
}

/// One measure after another, up to the first that fails.
fn measures(rt: &HostRuntime) -> Result<(), Failure> {
    let Ok(given) = env::args(rt) else {
        return Err(Failure::Unmeasured);
    };
    let mut words = Vec::new(rt.alloc());
    for word in given.skip(1) {
        if word.as_str() == "then" {
            measure(rt, words.as_slice())?;
            words = Vec::new(rt.alloc());
        } else if words.push(word).is_err() {
            return Err(Failure::Unmeasured);
        }
    }
    measure(rt, words.as_slice())
}

fn main(rt: HostRuntime) -> ExitCode {
    match measures(&rt) {
        Ok(()) => ExitCode::from(0),
        Err(failure) => ExitCode::from(failure.status()),
    }
}
