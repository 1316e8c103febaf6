//! One event, or what comes before a step, with the lines of what they do.

ghost use Rattle.std.specs.Prelude.{[], ◌∷◌, IsTrue};
ghost use Rattle.def_step.specs.Events.{is_lawful, AreLawful};
ghost use Rattle.ct_run.specs.Rounds.{before_of, Comes};

use crate::lines::write_happened;
use ct_machine::{Event, Machine};
use ct_mem::Memory;
use ct_port::{Sink, WriteFailed};
use def_script::Given;

/// An event, and its lines where the run has lines.
#[tactic(auto, using(crate::proofs::Coming::one_comes))]
fn write_event<M: Memory + Drop, S: Sink>(
    machine: &mut Machine<M>,
    event: Event,
    number: u32,
    with_lines: bool,
    sink: &mut S,
) -> Result<(), WriteFailed>
    requires { IsTrue (is_lawful machine.old.state event) }
    ensures { Comes with_lines machine.old machine.new number (event ∷ [])
        (S.shows sink.old) (S.shows sink.new) result }
{
    let happened = machine.advance(event);
    write_happened(&happened, number, with_lines, sink)
}

/// What comes before a step: bytes that come to devices, one after another, and a tick where it is due.
pub(crate) fn write_before<M: Memory + Drop, S: Sink>(
    machine: &mut Machine<M>,
    givens: &[Given],
    due: bool,
    number: u32,
    with_lines: bool,
    sink: &mut S,
) -> Result<(), WriteFailed>
    requires { AreLawful machine.old.board machine.old.state (before_of givens.now due) }
    ensures { Comes with_lines machine.old machine.new number (before_of givens.now due)
        (S.shows sink.old) (S.shows sink.new) result }
{
    for given in givens {
        let event = Event::Input {
            device: given.device,
            byte: given.byte,
        };
        write_event(machine, event, number, with_lines, sink)?;
    }
    if due {
        return write_event(machine, Event::Tick, number, with_lines, sink);
    }
    Ok(())
}
