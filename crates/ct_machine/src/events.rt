//! What an event does to a machine.

ghost use Rattle.std.specs.Prelude.{◌≡◌, ◌≤◌, ◌<◌, IsTrue};
ghost use Rattle.def_profile.specs.declared.limits.TheConstants.{MOST_STEPS};
ghost use Rattle.def_events.specs.Guarded.{Guarded};
ghost use Rattle.def_step.specs.Events.{happens, is_lawful, one_more_step};
ghost use Rattle.def_step.specs.declared.Event.TheVariants as event;
ghost use Rattle.ct_machine.specs.Going.{clock_on, sleepers_on, silence};
ghost use Rattle.ct_machine.specs.Parts.{deeds_of};

use crate::parts::Parts;
use crate::rounds::silence;
use ct_entry::Happened;
use ct_mem::Memory;
use def_step::Event;

impl<M: Memory + Drop> Parts<M> {
    /// A step counts.
    pub(crate) fn count_step(&mut self)
        requires { self.old.state.counts.steps < MOST_STEPS }
        ensures state { self.new.state ≡ one_more_step self.old.state }
        ensures board { self.new.board ≡ self.old.board }
        ensures deeds { deeds_of self.new.state.counts < self.new.state.counts.steps }
        ensures made { self.new.state.next ≤ self.new.state.counts.steps }
    {
        self.counts.steps += 1;
    }

    /// One instruction, or one native routine.
    pub(crate) fn step(&mut self) -> Happened
        requires guarded { Guarded self.old }
        requires lawful { IsTrue (is_lawful self.old.state event.Step) }
        ensures is { (self.new.state, result) ≡ happens self.old.board self.old.state event.Step }
        ensures board { self.new.board ≡ self.old.board }
    {
        let before = self.holder();
        self.count_step();
        self.preempt();
        let rests = self.engine.running().is_none();
        self.schedule();
        let deed = self.carry_on(rests);
        let off = self.begun(before);
        Happened { deed, off }
    }

    /// A tick counts, and time goes on.
    fn count_tick(&mut self)
        requires { self.old.state.counts.ticks < MOST_STEPS }
        ensures state { self.new.state ≡ clock_on self.old.state }
        ensures board { self.new.board ≡ self.old.board }
    {
        self.time += 1;
        self.counts.ticks += 1;
    }

    /// Each sleep is one tick shorter.
    fn shorten_sleeps(&mut self)
        ensures state { self.new.state ≡ sleepers_on self.old.state }
        ensures board { self.new.board ≡ self.old.board }
    {
        self.sched.tick();
    }

    /// One tick of the timer.
    fn tick(&mut self) -> Happened
        requires { IsTrue (is_lawful self.old.state event.Tick) }
        ensures is { (self.new.state, result) ≡ happens self.old.board self.old.state event.Tick }
        ensures board { self.new.board ≡ self.old.board }
    {
        let before = self.holder();
        self.count_tick();
        self.shorten_sleeps();
        self.interrupt();
        let off = self.begun(before);
        Happened { deed: None, off }
    }

    /// One slice of the revoker over memory, threads and objects, as an event, which tells nothing.
    pub(crate) fn sweep(&mut self)
        requires guarded { Guarded self.old }
        requires sweeps { self.old.state.counts.sweeps < MOST_STEPS }
        ensures is { (self.new.state, silence)
            ≡ happens self.old.board self.old.state event.Sweep }
        ensures board { self.new.board ≡ self.old.board }
        ensures guarded { Guarded self.new }
    {
        self.counts.count_sweep();
        self.engine.sweep(self.plan.sweep());
    }

    /// One byte comes at a device.
    fn input(&mut self, device: u32, byte: u8) -> Happened
        requires { IsTrue (is_lawful self.old.state (event.Input device byte)) }
        ensures is { (self.new.state, result)
            ≡ happens self.old.board self.old.state (event.Input device byte) }
        ensures board { self.new.board ≡ self.old.board }
    {
        let before = self.holder();
        self.bus.input(device, byte);
        self.counts.inputs += 1;
        let off = self.begun(before);
        Happened { deed: None, off }
    }

    /// One event. It is lawful now. No event is refused, and none takes memory.
    pub(crate) fn advance(&mut self, event: Event) -> Happened
        requires guarded { Guarded self.old }
        requires lawful { IsTrue (is_lawful self.old.state event) }
        ensures state { self.new.state ≡ (happens self.old.board self.old.state event).0 }
        ensures told { result ≡ (happens self.old.board self.old.state event).1 }
        ensures board { self.new.board ≡ self.old.board }
    {
        match event {
            Event::Step => self.step(),
            Event::Tick => self.tick(),
            Event::Sweep => {
                self.sweep();
                silence()
            }
            Event::Input { device, byte } => self.input(device, byte),
        }
    }
}
