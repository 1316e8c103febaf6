//! The engine.
#![tactic(auto, using(crate::proofs::Whole::the_runner, crate::proofs::Whole::runner_stands))]

ghost use Rattle.std.specs.Prelude.{◌≡◌, ◌*◌, ◌/◌, ◌%◌, ◌<◌, Some, None, true, false, length, nat_lt};
ghost use Rattle.def_instr.specs.Shapes.{is_access};
ghost use Rattle.def_profile.specs.declared.answers.TheConstants.{UNWOUND};
ghost use Rattle.def_memory.specs.Accesses.{IsAccess, loaded};
ghost use Rattle.def_machine.specs.State.{register};
ghost use Rattle.def_step.specs.Instructions.{actor_of};
ghost use Rattle.def_step.specs.Handlers.{handler_value};
ghost use Rattle.def_safety.specs.HiddenSteps.{IsSeen, SeesAccess};
ghost use Rattle.ct_threads.specs.Steps.{NextInRange, IsMoved};
ghost use Rattle.ct_engine.specs.Seen.{hides, thread, with_granules, with_running, resumed, after_jump};
ghost use Rattle.ct_engine.specs.Steps.{space_in, next_in, HeapLies};
ghost use Rattle.ct_switch.specs.Exports.{AreSorted};
ghost use Rattle.ct_switch.specs.Calls.{call_outcome};
ghost use Rattle.ct_engine.specs.Calls.{TopLies, MayCall, switch_at, after_call, returned, ended_with};
ghost use Rattle.ct_engine.specs.Handling.{MayHandle, is_handled_at, is_marked, after_trap};

use crate::rows::Rows;
use crate::turns::take_up;
use ct_bus::Bus;
use ct_cap::{Live, Posture, Trap};
use ct_entry::Entries;
use ct_loadstore::Moved;
use ct_mem::Memory;
use ct_switch::Called;
use ct_threads::{access, handle_row, jump_row, next, read, value_of};
use def_instr::Instr;
use def_profile::answers::UNWOUND;
use def_step::Next;
use std::marker::Model;

/// Threads over a memory that has a quota heap: their frames and saved registers stand in that memory's trusted region.
///
/// Contracts see memory where the region and the heap outside live objects read as zero, each thread as the machine's
/// state has it, and the heap's objects as rows; a thread without frames has ended. Offsets count bytes from RAM's
/// begin. No method but `start` takes memory. Where a thread stops, its registers stay in its row until a slice of the
/// revoker has work.
#[derive(Drop)]
pub struct Engine<M: Memory + Drop> {
    pub(crate) mem: M,
    pub(crate) rows: Rows,
}

impl<M: Memory + Drop> Model for Engine<M> {
    ghost use Rattle.ct_engine.specs.Seen.{EngineRow, engine_view};
    ghost use Rattle.ct_engine.specs.Kept.{IsEngine};

    ghost Value = { EngineRow };

    ghost view = { λ m. engine_view (M.granules m.mem) m.rows };

    ghost invariant = { λ m. IsEngine (M.granules m.mem) m.rows };
}

impl<M: Memory + Drop> Engine<M> {
    /// The bytes of RAM.
    pub fn size(&self) -> u32
        ensures { result ≡ 8 * length self.now.state.granules }
    {
        self.mem.size()
    }

    /// How many threads there are, those that have ended too.
    pub fn count(&self) -> usize
        ensures { result ≡ length self.now.state.threads }
    {
        self.rows.list.len()
    }

    /// The thread that runs.
    pub fn running(&self) -> Option<u32>
        ensures { result ≡ self.now.state.running }
    {
        self.rows.running
    }

    /// The bytes at an offset of what isn't hidden. The width is 1, 2 or 4.
    pub fn load(&self, at: u32, width: u32) -> u32
        requires access { IsAccess (8 * length self.now.state.granules) at width }
        requires seen { hides self.now (at / 8) ≡ false }
        ensures { result ≡ loaded self.now.state.granules at width }
    {
        self.mem.load(at, width)
    }

    /// A register of the running thread.
    #[inline(always)]
    pub fn register(&self, t: u32, number: u32) -> Live
        requires runs { self.now.state.running ≡ Some t }
        requires number { number < 16 }
        ensures { result ≡ register (thread self.now t) number }
    {
        read(&self.rows.list[t as usize].regs, number)
    }

    /// The program counter capability of the running thread.
    #[inline(always)]
    pub fn pcc(&self, t: u32) -> Live
        requires { self.now.state.running ≡ Some t }
        ensures { result ≡ (thread self.now t).pcc }
    {
        self.rows.list[t as usize].pcc
    }

    /// The posture of the running thread.
    pub fn posture(&self, t: u32) -> Posture
        requires { self.now.state.running ≡ Some t }
        ensures { result ≡ (thread self.now t).posture }
    {
        self.rows.list[t as usize].posture
    }

    /// The compartment of the running thread's innermost frame, of which it has one.
    pub fn actor(&self, t: u32) -> u32
        requires { self.now.state.running ≡ Some t }
        ensures is { result ≡ actor_of (thread self.now t).frames }
        ensures some { 0 < length (thread self.now t).frames }
    {
        self.rows.list[t as usize].actor
    }

    /// The running thread goes on elsewhere, with this posture, and a register gets a value, which register 0 drops.
    pub fn jump_to(&mut self, t: u32, pcc: Live, posture: Posture, to: u32, value: Live)
        requires runs { self.old.state.running ≡ Some t }
        requires to { to < 16 }
        ensures { self.new ≡ after_jump self.old t pcc posture to value }
    {
        jump_row(&mut self.rows.list[t as usize], pcc, posture, to, value);
    }

    /// The running thread stops. Nothing else changes.
    pub fn stop(&mut self, t: u32)
        requires { self.old.state.running ≡ Some t }
        ensures { self.new ≡ with_running self.old None }
    {
        self.rows.running = None;
        self.rows.loose = true;
    }

    /// A thread that hasn't ended goes on where it stopped, where none runs: its program counter capability and its
    /// registers pass the load filter.
    pub fn pick(&mut self, t: u32)
        requires none { self.old.state.running ≡ None }
        requires alive { 0 < length (thread self.old t).frames }
        ensures { self.new ≡ resumed self.old t }
    {
        let stood = self.rows.standing[t as usize];
        take_up(&mut self.rows.list[t as usize], &mut self.mem, stood);
        self.rows.standing[t as usize] = true;
        self.rows.running = Some(t);
    }

    /// The running thread calls the export whose capability stands in c6, as the switcher does.
    ///
    /// Where a check fails, the thread is too deep or the callee's stack has too little room nothing changes; else the
    /// thread goes on in the callee, whose stack is zeroed. No memory is taken. docs/use/machine.md.
    pub fn call(&mut self, t: u32, e: &Entries) -> Called
        requires runs { self.old.state.running ≡ Some t }
        requires may { MayCall self.old t e.now }
        ensures result { result
            ≡ call_outcome (register (thread self.old t) 6) (switch_at self.old e.now t) }
        ensures is { self.new ≡ after_call self.old e.now t (switch_at self.old e.now t) }
    {
        ct_switch::call(&mut self.rows.list[t as usize], &mut self.mem, e)
    }

    /// The running thread returns to its caller, with c10 and c11, untagged where the frame's export passes plain
    /// values; the stack is zeroed up to the frame's top. `false` exactly where the frame was its last: then it has
    /// ended, and none runs. No memory is taken. docs/use/machine.md.
    pub fn return_to_caller(&mut self, t: u32, e: &Entries) -> bool
        requires runs { self.old.state.running ≡ Some t }
        requires top { TopLies self.old t }
        requires sorted { AreSorted e.now.gates }
        ensures result { result ≡ nat_lt 1 (length (thread self.old t).frames) }
        ensures is { self.new ≡ returned self.old e.now t }
    {
        let back = ct_switch::return_to_caller(&mut self.rows.list[t as usize], &mut self.mem, e);
        self.rows.go_on_or_end(t, back)
    }

    /// The innermost frame of the running thread ends with a value. `false` exactly where it was the thread's last.
    fn end_with(&mut self, t: u32, value: u32) -> bool
        requires runs { self.old.state.running ≡ Some t }
        requires top { TopLies self.old t }
        ensures result { result ≡ nat_lt 1 (length (thread self.old t).frames) }
        ensures is { self.new ≡ ended_with self.old t value }
    {
        let more = ct_switch::end_with(&mut self.rows.list[t as usize], &mut self.mem, value);
        self.rows.go_on_or_end(t, more)
    }

    /// The innermost frame of the running thread is unwound after a trap: the return with c10 = -1 and c11 = 0. `false`
    /// exactly where the frame was the thread's last. docs/use/machine.md.
    pub fn unwind(&mut self, t: u32) -> bool
        requires runs { self.old.state.running ≡ Some t }
        requires top { TopLies self.old t }
        ensures result { result ≡ nat_lt 1 (length (thread self.old t).frames) }
        ensures is { self.new ≡ ended_with self.old t UNWOUND }
    {
        self.end_with(t, UNWOUND)
    }

    /// The running thread trapped: its compartment's error handler, the export with this number, is entered where
    /// *Handler* enters it; 0 is none. `false` exactly where it isn't entered; then nothing changes.
    ///
    /// Then the record of the trap stands on the thread's stack, and the thread goes on in the handler with interrupts
    /// on; its innermost frame is marked. No memory is taken. docs/use/machine.md.
    pub fn handle(&mut self, t: u32, e: &Entries, handler: u32, trap: Trap) -> bool
        requires runs { self.old.state.running ≡ Some t }
        requires may { MayHandle self.old t e.now handler }
        ensures result { result ≡ is_handled_at self.old t handler }
        ensures is { self.new ≡ after_trap self.old e.now t handler trap }
    {
        handle_row(
            &mut self.rows.list[t as usize],
            &mut self.mem,
            e,
            handler,
            trap,
        )
    }

    /// Whether the error handler of the running thread's innermost frame was entered.
    pub fn is_handling(&self, t: u32) -> bool
        requires { self.now.state.running ≡ Some t }
        ensures { result ≡ is_marked (thread self.now t).frames }
    {
        self.rows.list[t as usize].handling
    }

    /// The innermost frame of the running thread, whose error handler was entered, ends: where the address of c10 is 1
    /// it is the return with c10 = that of c11 and c11 = 0, else the unwind. `false` exactly where the frame was the
    /// thread's last. docs/use/machine.md.
    pub fn end_handler(&mut self, t: u32) -> bool
        requires runs { self.old.state.running ≡ Some t }
        requires top { TopLies self.old t }
        ensures result { result ≡ nat_lt 1 (length (thread self.old t).frames) }
        ensures is { self.new ≡ ended_with self.old t (handler_value (thread self.old t)) }
    {
        let value = value_of(self.register(t, 10), self.register(t, 11));
        self.end_with(t, value)
    }

    /// What stands at an address, where nothing is hidden: an instruction, the return, another native routine by its
    /// number, or nothing that is carried out.
    pub fn next(&self, at: u32) -> Next
        requires even { self.now.region.ram % 16 ≡ 0 }
        requires seen { IsSeen (hides self.now) self.now.region.ram at }
        ensures is { result ≡ next_in self.now at }
        ensures ranged { NextInRange result }
    {
        next(&self.mem, self.rows.region.ram, at)
    }

    /// A load or a store through x, at x's address and the immediate, where nothing is hidden once its checks pass; y
    /// is what a store stores. The heap lies from `heap` to RAM's end, and `time` is in ticks.
    ///
    /// A trap where a check fails, the first, and then nothing has changed.
    pub fn loadstore(
        &mut self,
        instruction: Instr,
        x: Live,
        y: Live,
        heap: u32,
        bus: &mut Bus,
        time: u64,
    ) -> Result<Moved, Trap>
        requires access { is_access instruction ≡ true }
        requires heap { HeapLies self.old heap }
        requires seen { SeesAccess (hides self.old) self.old.region.ram instruction x y }
        ensures is { IsMoved instruction x y (space_in self.old bus.old time)
            self.new.state.granules bus.new result }
        ensures kept { self.new ≡ with_granules self.old self.new.state.granules }
        ensures size { length self.new.state.granules ≡ length self.old.state.granules }
        ensures bases { bus.new.bases ≡ bus.old.bases }
    {
        access(
            instruction,
            x,
            y,
            &mut self.mem,
            self.rows.region.ram,
            heap,
            bus,
            time,
        )
    }
}
