//! What the program does around the top call: the words of its command line after its name, the files of
//! the system and a sink go to `capfw`, and the process ends with the number of its status
//! (docs/use/errors.md). Nothing is written to standard error.
#![tactic(auto)]

ghost use Rattle.std.specs.Prelude.{◌≡◌, drop, map, string_bytes};
ghost use Rattle.std.specs.Process.{exit_status};
ghost use Rattle.def_program.specs.Codes.{code_of};
ghost use Rattle.ct_program.specs.Ran.{HasEnded, Ran, RanAndEnded};

use ct_port::{DiskFolder, Sink};
use ct_top::{Status, capfw};
use std::env;
use std::io::{self, ErrorKind};
use std::process::ExitCode;
use std::rt::{Env, Files};

/// All words of the command line; the first is the program's name.
fn all_words<R: Env + AllocGlobal>(rt: &R) -> io::Result<Vec<String>> {
    let mut words = Vec::new(rt.alloc());
    for word in env::args(rt)? {
        words.push(word)?;
    }
    Ok(words)
}

/// The words after the program's name.
pub fn words_of(all: &[String]) -> &[String]
    ensures { result.now ≡ drop 1 all.now }
{
    if all.is_empty() {
        return all;
    }
    &all[1..]
}

/// Runs the program on these words, over the files of the system, of which nothing is told, and a sink.
/// What `capfw` says of the call holds.
pub fn run<R: Files + AllocGlobal, S: Sink>(rt: &R, words: &[String], sink: &mut S) -> Status
    ensures { Ran (map string_bytes words.now) (S.shows sink.old) (S.shows sink.new) result }
{
    let mut folder = DiskFolder::new(rt, rt.alloc());
    capfw(rt.alloc(), words, &mut folder, sink)
}

/// What a process ends with: the number of the status.
pub fn ending(status: Status) -> ExitCode
    ensures { exit_status result ≡ code_of status }
{
    ExitCode::from(status.code())
}

/// The program on all words of a command line: it runs on those after its name, and ends with the number
/// of the status.
pub fn run_all<R: Files + AllocGlobal, S: Sink>(rt: &R, all: &[String], sink: &mut S) -> ExitCode
    ensures { RanAndEnded (drop 1 (map string_bytes all.now)) (S.shows sink.old)
        (S.shows sink.new) (exit_status result) }
{
    ending(run(rt, words_of(all), sink))
}

/// The whole program, over a runtime's command line and files and a sink. Words that aren't UTF-8 are a
/// usage fault; where memory is wanted for them, nothing is written, and the process ends with 10.
pub fn program<R: Env + Files + AllocGlobal, S: Sink>(rt: &R, sink: &mut S) -> ExitCode
    ensures { HasEnded (S.shows sink.old) (S.shows sink.new) (exit_status result) }
{
    match all_words(rt) {
        Ok(all) => run_all(rt, all.as_slice(), sink),
        Err(error) if error.kind() == ErrorKind::OutOfMemory => ending(Status::NoMemory),
        Err(_) => run_all(rt, &[], sink),
    }
}
