//! Yield, sleep, wait and wake.

ghost use Rattle.std.specs.Prelude.{◌≡◌, ◌*◌, ◌-◌, ◌%◌, Some, None, length};
ghost use Rattle.def_words.specs.Authority.{cap_address};
ghost use Rattle.def_memory.specs.Accesses.{loaded};
ghost use Rattle.def_sched.specs.declared.Status.TheVariants.{Ready};
ghost use Rattle.def_sched.specs.Statuses.{status_of, asleep};
ghost use Rattle.def_machine.specs.State as state;
ghost use Rattle.def_machine.specs.State.{register};
ghost use Rattle.def_step.specs.Routines as routine;
ghost use Rattle.def_step.specs.Routines.{checked, stops, waits};
ghost use Rattle.def_step.specs.Switch.{return_checks};
ghost use Rattle.ct_engine.specs.Seen.{thread};
ghost use Rattle.ct_engine.specs.Bursts.{IsOpen};
ghost use Rattle.ct_execute.specs.declared.ran.Ran.TheVariants.{Went};
ghost use Rattle.ct_sched.specs.Sched.{with_statuses};
ghost use Rattle.ct_services.specs.Answering.{IsWord, rested};
ghost use Rattle.ct_services.specs.Serves.{IsServed};

use crate::answering::{answer, refuse};
use crate::words::word_trap;
use ct_cap::Live;
use ct_engine::Engine;
use ct_execute::Ran;
use ct_mem::Memory;
use ct_sched::Sched;
use ct_switch::return_trap;
use def_profile::answers::DIFFERS;

/// The running thread stops, with the answer 0.
fn stop<M: Memory + Drop>(engine: &mut Engine<M>, t: u32) -> Ran
    requires { engine.old.state.running ≡ Some t }
    ensures engine { engine.new ≡ rested engine.old t }
    ensures ran { result ≡ Went None }
{
    answer(engine, t, Live::integer(0));
    engine.stop(t);
    Ran::Went { done: None }
}

/// Yield, for no ticks, and sleep: the running thread stops, to be ready after so many ticks. The trap is the
/// check of c1 that fails; then nothing changes.
pub(crate) fn rest<M: Memory + Drop>(
    engine: &mut Engine<M>,
    sched: &mut Sched,
    t: u32,
    ticks: u32,
) -> Ran
    requires runs { engine.old.state.running ≡ Some t }
    requires ready { status_of sched.old.statuses t ≡ Ready }
    ensures serves { IsServed engine.old sched.old.statuses engine.new sched.new.statuses result
        (λ i m. checked (return_checks (register (state.thread m t) 1))
        (stops m t (asleep ticks))) }
    ensures sched { sched.new ≡ with_statuses sched.old sched.new.statuses }
{
    if let Some(trap) = return_trap(engine.register(t, 1)) {
        return Ran::Trapped { trap };
    }
    sched.sleep(t, ticks);
    stop(engine, t)
}

/// What the word holds that c10 names.
#[tactic(auto, using(crate::proofs::Held::word_low, crate::proofs::Held::word_accessed, crate::proofs::Held::word_seen))]
fn word_held<M: Memory + Drop>(engine: &Engine<M>, t: u32, ram: u32) -> u32
    requires runs { engine.now.state.running ≡ Some t }
    requires opens { IsOpen engine.now t }
    requires ram { ram ≡ engine.now.region.ram }
    requires even { ram % 16 ≡ 0 }
    requires word { IsWord ram (8 * length engine.now.state.granules)
        (register (thread engine.now t) 10) }
    ensures { result
        ≡ loaded engine.now.state.granules
        (cap_address (register (thread engine.now t) 10) - ram) 4 }
{
    let address = engine.register(t, 10).address();
    engine.load(address - ram, 4)
}

/// The running thread waits for a word that holds `held` where that is `wanted`, else goes on with -21.
fn wait_for<M: Memory + Drop>(
    engine: &mut Engine<M>,
    sched: &mut Sched,
    t: u32,
    address: u32,
    held: u32,
    wanted: u32,
) -> Ran
    requires runs { engine.old.state.running ≡ Some t }
    requires ready { status_of sched.old.statuses t ≡ Ready }
    ensures serves { IsServed engine.old sched.old.statuses engine.new sched.new.statuses result
        (λ i m. waits m t address held wanted) }
    ensures sched { sched.new ≡ with_statuses sched.old sched.new.statuses }
{
    if sched.wait(t, address, held, wanted) {
        return stop(engine, t);
    }
    refuse(engine, t, DIFFERS)
}

/// Wait: the running thread waits for the word that c10 names where that holds c11's address, else it goes
/// on with -21. The trap is the first check that fails, of c1, then of c10 as a word of RAM; then nothing
/// changes.
///
/// Condition: nothing is hidden that the thread may load.
pub(crate) fn wait<M: Memory + Drop>(
    engine: &mut Engine<M>,
    sched: &mut Sched,
    t: u32,
    ram: u32,
) -> Ran
    requires runs { engine.old.state.running ≡ Some t }
    requires ready { status_of sched.old.statuses t ≡ Ready }
    requires opens { IsOpen engine.old t }
    requires ram { ram ≡ engine.old.region.ram }
    requires even { ram % 16 ≡ 0 }
    ensures serves { IsServed engine.old sched.old.statuses engine.new sched.new.statuses result
        (λ i m. routine.wait i m t) }
    ensures sched { sched.new ≡ with_statuses sched.old sched.new.statuses }
{
    if let Some(trap) = return_trap(engine.register(t, 1)) {
        return Ran::Trapped { trap };
    }
    let word = engine.register(t, 10);
    if let Some(trap) = word_trap(ram, engine.size(), word) {
        return Ran::Trapped { trap };
    }
    let held = word_held(engine, t, ram);
    let wanted = engine.register(t, 11).address();
    wait_for(engine, sched, t, word.address(), held, wanted)
}

/// Wake: of the threads that wait for the word that c10 names, as many as c11's address says are ready, those
/// with the lowest numbers, and the running thread goes on with how many they are. The trap is the first
/// check that fails, of c1, then of c10 as a word of RAM; then nothing changes.
pub(crate) fn wake<M: Memory + Drop>(
    engine: &mut Engine<M>,
    sched: &mut Sched,
    t: u32,
    ram: u32,
) -> Ran
    requires runs { engine.old.state.running ≡ Some t }
    requires ram { ram ≡ engine.old.region.ram }
    ensures serves { IsServed engine.old sched.old.statuses engine.new sched.new.statuses result
        (λ i m. routine.wake i m t) }
    ensures sched { sched.new ≡ with_statuses sched.old sched.new.statuses }
{
    if let Some(trap) = return_trap(engine.register(t, 1)) {
        return Ran::Trapped { trap };
    }
    let word = engine.register(t, 10);
    if let Some(trap) = word_trap(ram, engine.size(), word) {
        return Ran::Trapped { trap };
    }
    let most = engine.register(t, 11).address();
    let count = sched.wake(word.address(), most);
    answer(engine, t, Live::integer(count));
    Ran::Went { done: None }
}
