//! The run of a machine: the report line, the lines of what happens, and the summary, each by one
//! write (docs/use/run.md; definitions in def_program's Runs). No call here takes memory.
#![tactic(auto)]

mod events;
mod lines;
mod rounds;

ghost use Rattle.std.specs.Prelude.{◌++◌};
ghost use Rattle.def_port.specs.Writes.{WriteAnswers};
ghost use Rattle.def_program.specs.Runs.{run_lines, summary_after};
ghost use Rattle.def_program.specs.Scripts.{IsPlayable};
ghost use Rattle.ct_run.specs.Rounds.{MayRun};

pub use ct_machine::Machine;
use ct_mem::Memory;
use ct_port::{Sink, WriteFailed};
use ct_script::Script;

/// Writes a report, and then runs a machine for at most `limit` steps and writes what it does: the
/// lines of each event, and the summary, which ends the run. Before each step come the script's bytes of
/// that step, then, from the second step on, a tick where a whole number of quanta is over, then a slice
/// of a sweep. Before each of these rounds the run stops where the machine has come to its end.
///
/// `WriteFailed`: the sink failed; a beginning of the text was written.
///
/// Conditions: no event has come to the machine, the script's devices are the machine's, the quantum is a
/// step at least, and the limit at most 4,000,000,000 steps.
#[tactic(auto, using(crate::proofs::Text::run_lines_from, ct_port::proofs::Pieces::both, ct_port::proofs::Pieces::first_fails, ct_port::proofs::Pieces::second_fails))]
pub fn write_run<M: Memory + Drop, S: Sink>(
    report: &[u8],
    machine: &mut Machine<M>,
    script: &Script,
    quantum: u32,
    limit: u32,
    sink: &mut S,
) -> Result<(), WriteFailed>
    requires may { MayRun machine.old quantum limit }
    requires script { IsPlayable script.now machine.old.state }
    ensures { WriteAnswers (S.shows sink.old) (S.shows sink.new)
        (report.now ++ run_lines machine.old script.now quantum limit) result }
{
    match sink.write(report) {
        Ok(()) => rounds::write_rounds(machine, Some(script), quantum, limit, true, sink),
        Err(failed) => Err(failed),
    }
}

/// Runs a machine as `write_run` does without a script, and writes the summary alone, by one write.
///
/// `WriteFailed`: the sink failed; a beginning of the line was written.
///
/// Conditions: as of `write_run`, but for the script.
#[tactic(auto, using(crate::proofs::Text::summary_is))]
pub fn write_summary<M: Memory + Drop, S: Sink>(
    machine: &mut Machine<M>,
    quantum: u32,
    limit: u32,
    sink: &mut S,
) -> Result<(), WriteFailed>
    requires { MayRun machine.old quantum limit }
    ensures { WriteAnswers (S.shows sink.old) (S.shows sink.new)
        (summary_after machine.old quantum limit) result }
{
    rounds::write_rounds(machine, None, quantum, limit, false, sink)
}
