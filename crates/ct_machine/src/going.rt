//! The running thread carries on.

ghost use Rattle.std.specs.Prelude.{◌≡◌, ◌≤◌, ◌<◌, Some, None, length, true, false, nat_lt};
ghost use Rattle.def_step.specs.Events.{run_on, noted};
ghost use Rattle.def_step.specs.Instructions.{executed};
ghost use Rattle.ct_engine.specs.Seen.{thread};
ghost use Rattle.ct_engine.specs.Calls.{TopLies};
ghost use Rattle.ct_engine.specs.Handling.{MayHandle};
ghost use Rattle.ct_execute.specs.Deciding.{deed_by, finished, IfUnfinished, RanInRange};
ghost use Rattle.ct_switch.specs.Exports.{AreSorted};
ghost use Rattle.ct_machine.specs.Going.{MayGoOn, Runs, MayEnd, CameTo, IsDone};
ghost use Rattle.ct_machine.specs.Going.{return_at, trap_at, goes_trapped, left_after, goes_after, status_after};
ghost use Rattle.ct_machine.specs.Parts.{deeds_of};

use crate::parts::Parts;
use ct_engine::Engine;
use ct_entry::{Act, Deed, Entries};
use ct_execute::{Ran, execute};
use ct_mem::Memory;
use ct_sched::Sched;
use def_words::Trap;

/// The running thread returned: its innermost frame ends, by its error handler where that was entered. `false` exactly
/// where it has none left.
fn take_return<M: Memory + Drop>(engine: &mut Engine<M>, t: u32, entries: &Entries) -> bool
    requires runs { engine.old.state.running ≡ Some t }
    requires top { TopLies engine.old t }
    requires sorted { AreSorted entries.now.gates }
    ensures result { result ≡ nat_lt 1 (length (thread engine.old t).frames) }
    ensures is { engine.new ≡ return_at engine.old entries.now t }
{
    if engine.is_handling(t) {
        return engine.end_handler(t);
    }
    engine.return_to_caller(t, entries)
}

/// The running thread trapped: it enters its compartment's error handler, this export, or its innermost frame is
/// unwound. `false` exactly where it has none left.
fn take_trap<M: Memory + Drop>(
    engine: &mut Engine<M>,
    t: u32,
    entries: &Entries,
    handler: u32,
    trap: Trap,
) -> bool
    requires runs { engine.old.state.running ≡ Some t }
    requires may { MayHandle engine.old t entries.now handler }
    ensures result { result ≡ goes_trapped engine.old t handler }
    ensures is { engine.new ≡ trap_at engine.old entries.now t handler trap }
{
    if engine.handle(t, entries, handler, trap) {
        return true;
    }
    engine.unwind(t)
}

/// Where the running thread returned or trapped, its innermost frame ends, or its compartment's error handler, this
/// export, is entered. `false` exactly where it has no frame left.
fn leave<M: Memory + Drop>(
    engine: &mut Engine<M>,
    t: u32,
    entries: &Entries,
    handler: u32,
    ran: Ran,
) -> bool
    requires { IfUnfinished ran
        ((engine.old.state.running ≡ Some t) × MayHandle engine.old t entries.now handler) }
    ensures result { result ≡ goes_after ran engine.old t handler }
    ensures is { engine.new
        ≡ left_after ran engine.old entries.now t handler }
{
    match ran {
        Ran::Went { .. } | Ran::Native { .. } => true,
        Ran::Returned => take_return(engine, t, entries),
        Ran::Trapped { trap } => take_trap(engine, t, entries, handler, trap),
    }
}

/// A thread that goes on no more has ended.
fn end_unless(sched: &mut Sched, t: u32, goes: bool)
    requires { goes ≡ false → t < length sched.old.statuses }
    ensures { sched.new ≡ status_after goes sched.old t }
{
    if !goes {
        sched.end(t);
    }
}

/// The deed of what one instruction of a thread came to, where it is one.
fn deed_of(thread: u32, actor: u32, ran: Ran) -> Option<Deed>
    ensures { result ≡ deed_by thread actor ran }
{
    match ran {
        Ran::Went { done: Some(done) } => Some(Deed {
            thread,
            actor,
            entry: done.entry,
            act: done.act,
        }),
        Ran::Went { done: None } => None,
        Ran::Returned | Ran::Native { .. } => None,
        Ran::Trapped { trap } => Some(Deed {
            thread,
            actor,
            entry: 0,
            act: Act::Trap {
                cause: trap.cause,
                code: trap.code,
                register: trap.register,
            },
        }),
    }
}

impl<M: Memory + Drop> Parts<M> {
    /// One instruction of the running thread.
    fn execute(&mut self, t: u32) -> Ran
        requires may { MayGoOn self.old }
        requires runs { self.old.state.running ≡ Some t }
        ensures came { CameTo self.old self.new t result
            (executed self.old.board self.old.state t) }
        ensures ranged { RanInRange result }
    {
        execute(
            &mut self.engine,
            t,
            self.plan.entries(),
            &mut self.bus,
            self.plan.heap(),
            self.time,
        )
    }

    /// One instruction of the running thread, and the native routine that it came to.
    fn run(&mut self, t: u32) -> Ran
        requires may { MayGoOn self.old }
        requires runs { Runs self.old t }
        requires made { self.old.state.next ≤ self.old.state.counts.steps }
        ensures came { CameTo self.old self.new t result
            (executed self.old.board self.old.state t) }
        ensures done { IsDone result }
    {
        match self.execute(t) {
            Ran::Native { number } => self.serve(t, number),
            ran => ran,
        }
    }

    /// What is left of a step after its instruction and its native routine: where it returned its innermost
    /// frame ends, where it trapped that frame's compartment handles it, and what it did counts.
    #[inline(never)]
    fn finish(&mut self, t: u32, actor: u32, ran: Ran) -> Option<Deed>
        requires done { IsDone ran }
        requires ends { IfUnfinished ran (MayEnd self.old t actor) }
        requires deeds { deeds_of self.old.state.counts < self.old.state.counts.steps }
        ensures is { (self.new.state, result)
            ≡ noted (finished self.old.board t actor self.old.state ran) }
        ensures board { self.new.board ≡ self.old.board }
    {
        let handler = self.plan.handler(actor);
        let goes = leave(&mut self.engine, t, self.plan.entries(), handler, ran);
        end_unless(&mut self.sched, t, goes);
        let deed = deed_of(t, actor, ran);
        self.counts.count_deed(deed);
        deed
    }

    /// The running thread carries on by one instruction that tells nothing: `true` where that is carried out; else
    /// `false`, and nothing changes.
    fn goes_quietly_once(&mut self) -> bool
        requires may { MayGoOn self.old }
        ensures is { result ≡ true
            → (self.new.state, None) ≡ run_on self.old.board self.old.state }
        ensures same { result ≡ false → self.new.state ≡ self.old.state }
        ensures board { self.new.board ≡ self.old.board }
    {
        match self.engine.running() {
            Some(t) => {
                let mut window = self.engine.window(t);
                self.goes_quietly(t, &mut window)
            }
            None => false,
        }
    }

    /// The running thread carries on. Where it was picked just now an instruction that tells nothing is tried first,
    /// for speed alone, since most go on so.
    pub(crate) fn carry_on(&mut self, picked: bool) -> Option<Deed>
        requires may { MayGoOn self.old }
        requires deeds { deeds_of self.old.state.counts < self.old.state.counts.steps }
        requires made { self.old.state.next ≤ self.old.state.counts.steps }
        ensures is { (self.new.state, result) ≡ run_on self.old.board self.old.state }
        ensures board { self.new.board ≡ self.old.board }
    {
        if picked && self.goes_quietly_once() {
            return None;
        }
        self.go_on()
    }

    /// The running thread carries on, by one instruction or native routine.
    pub(crate) fn go_on(&mut self) -> Option<Deed>
        requires may { MayGoOn self.old }
        requires deeds { deeds_of self.old.state.counts < self.old.state.counts.steps }
        requires made { self.old.state.next ≤ self.old.state.counts.steps }
        ensures is { (self.new.state, result) ≡ run_on self.old.board self.old.state }
        ensures board { self.new.board ≡ self.old.board }
    {
        match self.engine.running() {
            Some(t) => {
                let actor = self.engine.actor(t);
                let ran = self.run(t);
                match ran {
                    Ran::Went { done: None } => None,
                    _ => self.finish(t, actor, ran),
                }
            }
            None => None,
        }
    }
}
