//! Texts that end a call, written in pieces where they hold a name. Nothing here takes memory.

ghost use Rattle.std.specs.Prelude.{◌≡◌, ◌++◌};
ghost use Rattle.def_port.specs.Writes.{WriteAnswers};
ghost use Rattle.ct_commands.specs.Closing.{Closes};

use ct_port::{Sink, WriteFailed};
use def_program::Status;

/// Writes two pieces.
#[tactic(auto, using(ct_port::proofs::Pieces::both, ct_port::proofs::Pieces::first_fails, ct_port::proofs::Pieces::second_fails))]
fn write_both<S: Sink>(first: &[u8], second: &[u8], sink: &mut S) -> Result<(), WriteFailed>
    ensures { WriteAnswers (S.shows sink.old) (S.shows sink.new) (first.now ++ second.now) result }
{
    match sink.write(first) {
        Ok(()) => sink.write(second),
        Err(failed) => Err(failed),
    }
}

/// Writes a text, a name and what stands after it.
#[tactic(auto, using(ct_port::proofs::Pieces::both, ct_port::proofs::Pieces::first_fails, ct_port::proofs::Pieces::second_fails))]
fn write_named<S: Sink>(
    text: &[u8],
    name: &str,
    rest: &[u8],
    sink: &mut S,
) -> Result<(), WriteFailed>
    ensures { WriteAnswers (S.shows sink.old) (S.shows sink.new)
        (text.now ++ (name.now ++ rest.now)) result }
{
    match sink.write(text) {
        Ok(()) => write_both(name.as_bytes(), rest, sink),
        Err(failed) => Err(failed),
    }
}

/// Writes a text, a name and what stands after it, and ends with a status; with `WriteFault` where a
/// write failed.
pub(crate) fn close_named<S: Sink>(
    text: &[u8],
    name: &str,
    rest: &[u8],
    status: Status,
    sink: &mut S,
) -> Status
    ensures { Closes (S.shows sink.old) (S.shows sink.new)
        (text.now ++ (name.now ++ rest.now)) status result }
{
    match write_named(text, name, rest, sink) {
        Ok(()) => status,
        Err(_) => Status::WriteFault,
    }
}

/// Writes a text, and ends with a status; with `WriteFault` where the write failed.
pub fn close<S: Sink>(text: &[u8], status: Status, sink: &mut S) -> Status
    ensures { Closes (S.shows sink.old) (S.shows sink.new)
        text.now status result }
{
    match sink.write(text) {
        Ok(()) => status,
        Err(_) => Status::WriteFault,
    }
}
