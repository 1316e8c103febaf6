//! Which routine a number is.

ghost use Rattle.std.specs.Prelude.{◌≡◌};
ghost use Rattle.def_step.specs.Native.{native};
ghost use Rattle.ct_sched.specs.Sched.{with_statuses};
ghost use Rattle.ct_services.specs.Conditions.{MayServe};
ghost use Rattle.ct_threads.specs.Steps.{IsRoutine};
ghost use Rattle.ct_services.specs.Serves.{IsServedOf, HoldsRoutine, routine_or_trap};

use crate::calling::switch;
use crate::granting::{allocate, free, remaining};
use crate::resting::{rest, wait, wake};
use crate::sealing::{token_free, token_key, token_new, token_open};
use ct_engine::Engine;
use ct_entry::Entries;
use ct_execute::Ran;
use ct_mem::Memory;
use ct_sched::Sched;
use def_native::{
    ALLOCATE, FREE, REMAINING, SLEEP, SWITCH, TOKEN_KEY, TOKEN_NEW, TOKEN_OPEN, WAIT, WAKE, YIELD,
};

/// The native routine of a number, which isn't the return's: what it does of the running thread, of the scheduler and
/// of the heap is what the written routine (of each image whose RAM, heap and quotas lie where the engine's do, and, of
/// the switch, whose callee the engine holds) does of each state of the machine that holds what is seen of them. What
/// fails is the answer, a trap is not: that is the first check that fails, and then nothing changes.
///
/// Condition: thread `t` runs and is ready, a quota that its c10 names is one of the heap's, nothing is hidden that it
/// may load, one more object may be made, each row of a key or a token is of a live object, no two are of one, RAM
/// begins at `ram`, a multiple of 16, and where the number is the switch's it may call an export of these entries that
/// its c6 names.
pub fn serve<M: Memory + Drop>(
    engine: &mut Engine<M>,
    sched: &mut Sched,
    t: u32,
    ram: u32,
    e: &Entries,
    number: u32,
) -> Ran
    requires may { MayServe engine.old sched.old.statuses t ram e.now number }
    requires routine { IsRoutine number }
    ensures serves { IsServedOf (HoldsRoutine engine.old sched.old.statuses t e.now number)
        engine.old sched.old.statuses engine.new sched.new.statuses result
        (λ i m. routine_or_trap (native i m t number)) }
    ensures sched { sched.new ≡ with_statuses sched.old sched.new.statuses }
{
    match number {
        SWITCH => switch(engine, t, e),
        YIELD => rest(engine, sched, t, 0),
        SLEEP => {
            // For as many ticks as c10's address says.
            let ticks = engine.register(t, 10).address();
            rest(engine, sched, t, ticks)
        }
        WAIT => wait(engine, sched, t, ram),
        WAKE => wake(engine, sched, t, ram),
        ALLOCATE => allocate(engine, t),
        FREE => free(engine, t),
        REMAINING => remaining(engine, t),
        TOKEN_KEY => token_key(engine, t),
        TOKEN_NEW => token_new(engine, t),
        TOKEN_OPEN => token_open(engine, t),
        // Only token_free is left.
        _ => token_free(engine, t),
    }
}
