//! How a routine answers.

ghost use Rattle.std.specs.Prelude.{◌≡◌, ◌<◌, Some};
ghost use Rattle.def_step.specs.Routines as routine;
ghost use Rattle.ct_services.specs.Answering.{answered_in};
ghost use Rattle.ct_services.specs.Serves.{ServesAlone};

use ct_cap::{Live, open};
use ct_engine::Engine;
use ct_execute::Ran;
use ct_flow::posture_through;
use ct_mem::Memory;

/// The running thread goes on where its c1 leads, by the posture of that return sentry, with a value in
/// c10 and 0 in c11.
#[tactic(auto, using(crate::proofs::Answers::answers))]
pub fn answer<M: Memory + Drop>(engine: &mut Engine<M>, t: u32, value: Live)
    requires { engine.old.state.running ≡ Some t }
    ensures { engine.new ≡ answered_in engine.old t value }
{
    let link = engine.register(t, 1);
    let posture = posture_through(engine.posture(t), link.seal, 0, link.cap.shadow.source);
    engine.jump_to(t, open(link), posture, 10, value);
    let pcc = engine.pcc(t);
    engine.jump_to(t, pcc, posture, 11, Live::integer(0));
}

/// A negative answer as a word.
pub(crate) fn code(n: u32) -> Live
    requires { 0 < n }
    ensures { result ≡ routine.code n }
{
    Live::integer(0u32.wrapping_sub(n))
}

/// The running thread goes on with an answer, and nothing else happened.
pub(crate) fn tell<M: Memory + Drop>(engine: &mut Engine<M>, t: u32, value: Live) -> Ran
    requires { engine.old.state.running ≡ Some t }
    ensures { ServesAlone engine.old engine.new result (λ i m. routine.tells m t value) }
{
    answer(engine, t, value);
    Ran::Went { done: None }
}

/// The running thread goes on with a negative answer, and nothing else happened.
pub(crate) fn refuse<M: Memory + Drop>(engine: &mut Engine<M>, t: u32, n: u32) -> Ran
    requires runs { engine.old.state.running ≡ Some t }
    requires some { 0 < n }
    ensures { ServesAlone engine.old engine.new result
        (λ i m. routine.tells m t (routine.code n)) }
{
    tell(engine, t, code(n))
}
