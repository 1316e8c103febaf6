//! The lines of an event, and the summary, each by one write.

ghost use Rattle.def_port.specs.Writes.{WriteAnswers};
ghost use Rattle.def_trace.specs.Trace.{trace_line};
ghost use Rattle.def_program.specs.Runs.{last_line};
ghost use Rattle.ct_run.specs.Rounds.{line_if};

use ct_entry::{End, Happened};
use ct_machine::Machine;
use ct_mem::Memory;
use ct_port::{Sink, WriteFailed};
use ct_trace::{Line, line, summary};

/// Writes a line that isn't empty.
#[tactic(auto, using(ct_port::proofs::Pieces::wrote_nothing))]
fn write_line<S: Sink>(line: &Line, sink: &mut S) -> Result<(), WriteFailed>
    ensures { WriteAnswers (S.shows sink.old) (S.shows sink.new) line.now.bytes result }
{
    if line.is_empty() {
        return Ok(());
    }
    sink.write(line.as_str().as_bytes())
}

/// Writes the lines of something that happened.
#[inline(never)]
fn write_all<S: Sink>(happened: &Happened, number: u32, sink: &mut S) -> Result<(), WriteFailed>
    ensures { WriteAnswers (S.shows sink.old) (S.shows sink.new)
        (trace_line number happened.now) result }
{
    write_line(&line(happened, number), sink)
}

/// Writes the lines of what happened with the step of this number, where the run has lines. No line is made where
/// nothing happened.
#[inline(always)]
#[tactic(auto, unfolding(def_trace::specs::Trace::trace_line), using(ct_port::proofs::Pieces::wrote_nothing))]
pub(crate) fn write_happened<S: Sink>(
    happened: &Happened,
    number: u32,
    with_lines: bool,
    sink: &mut S,
) -> Result<(), WriteFailed>
    ensures { WriteAnswers (S.shows sink.old) (S.shows sink.new)
        (line_if with_lines number happened.now) result }
{
    if !with_lines {
        return Ok(());
    }
    match happened.deed {
        Some(_) => write_all(happened, number, sink),
        None => match happened.off {
            Some(_) => write_all(happened, number, sink),
            None => Ok(()),
        },
    }
}

/// Writes the summary.
pub(crate) fn write_last<M: Memory + Drop, S: Sink>(
    machine: &Machine<M>,
    sink: &mut S,
) -> Result<(), WriteFailed>
    ensures { WriteAnswers (S.shows sink.old) (S.shows sink.new)
        (last_line machine.now.state) result }
{
    let totals = machine.totals(machine.ended().unwrap_or(End::Limit));
    let line = summary(&totals);
    sink.write(line.as_str().as_bytes())
}
