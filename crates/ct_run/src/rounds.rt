//! The rounds of a run, one after another.

ghost use Rattle.std.specs.Prelude.{◌≡◌, ◌+◌, ◌==◌, ◌<◌, ◌≤◌, if◌then◌else◌};
ghost use Rattle.def_profile.specs.declared.limits.TheConstants.{MOST_STEPS};
ghost use Rattle.def_port.specs.Writes.{WriteAnswers};
ghost use Rattle.def_script.specs.Script.{given_at};
ghost use Rattle.def_program.specs.Scripts.{IsPlayable};
ghost use Rattle.ct_run.specs.Rounds.{script_dues, text_from, AreBare, MayRun};

use crate::events::write_before;
use crate::lines::{write_happened, write_last};
use ct_machine::Machine;
use ct_mem::Memory;
use ct_port::{Sink, WriteFailed};
use ct_script::Script;
use def_script::Given;

/// How many steps are left to the next tick, past one that is due now.
fn up_to_tick(left: u32, quantum: u32) -> u32
    ensures { result ≡ (if left == 0 then quantum else left) }
{
    if left == 0 { quantum } else { left }
}

/// The bytes that come before a step: without a script none.
#[inline(always)]
fn given_before(script: Option<&Script>, step: u32) -> &[Given]
    ensures { result.now ≡ given_at (script_dues script.entry) step }
{
    match script {
        Some(script) => script.at(step),
        None => &[],
    }
}

/// How many rounds may come, before the next tick and up to the limit, of which the first alone may have bytes before
/// it.
fn bare_rounds(script: Option<&Script>, left: u32, limit: u32, done: u32) -> u32
    requires some { 1 ≤ left }
    requires more { done < limit }
    requires limit { limit ≤ MOST_STEPS }
    ensures { AreBare (script_dues script.entry) left limit done result }
{
    let most = left.min(limit - done);
    match script {
        Some(script) => 1 + script.bare_steps(done + 2, most - 1),
        None => most,
    }
}

/// All rounds up to an end of the machine or the limit, with their lines where the run has lines, and the summary.
pub(crate) fn write_rounds<M: Memory + Drop, S: Sink>(
    machine: &mut Machine<M>,
    script: Option<&Script>,
    quantum: u32,
    limit: u32,
    with_lines: bool,
    sink: &mut S,
) -> Result<(), WriteFailed>
    requires may { MayRun machine.old quantum limit }
    requires script { IsPlayable (script_dues script) machine.old.state }
    ensures { WriteAnswers (S.shows sink.old) (S.shows sink.new)
        (text_from with_lines machine.old (script_dues script.entry) quantum 1 limit) result }
{
    let mut left = quantum;
    let mut done = 0;
    while done < limit {
        match machine.ended() {
            Some(_) => return write_last(machine, sink),
            None => {}
        }
        let givens = given_before(script, done + 1);
        write_before(machine, givens, left == 0, done + 1, with_lines, sink)?;
        left = up_to_tick(left, quantum);
        let ran = machine.run_on(bare_rounds(script, left, limit, done));
        left -= ran.count;
        done += ran.count;
        write_happened(&ran.told, done, with_lines, sink)?;
    }
    write_last(machine, sink)
}
