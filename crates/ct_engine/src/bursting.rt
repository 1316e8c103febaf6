//! Instructions of the running thread that tell nothing, one after another.
#![tactic(auto, using(crate::proofs::Whole::the_runner))]

ghost use Rattle.std.specs.Prelude.{◌≡◌, ◌*◌, ◌%◌, ◌≤◌, Some, length};
ghost use Rattle.ct_threads.specs.Windows.{HoldsEach};
ghost use Rattle.ct_engine.specs.Bursts.{GoesFor, StaysOpen};
ghost use Rattle.ct_engine.specs.Seen.{thread};
ghost use Rattle.ct_engine.specs.Steps.{HasWindow};

use crate::engine::Engine;
use ct_burst::{burst, once};
use ct_decode::Decoded;
use ct_mem::Memory;
use ct_threads::{Window, window_of};

impl<M: Memory + Drop> Engine<M> {
    /// The addresses at which a fetch by the running thread need only ask for the tag and for a multiple of 4.
    pub fn window(&self, t: u32) -> Window
        requires { self.now.state.running ≡ Some t }
        ensures is { HasWindow self.now t result }
        ensures whole { HoldsEach result (thread self.now t).pcc self.now.region.ram
            (8 * length self.now.state.granules) }
    {
        let pcc = &self.rows.list[t as usize].pcc;
        window_of(pcc, &self.mem, self.rows.region.ram)
    }

    /// The running thread goes on by instructions that tell nothing, up to one that is left or the last that is asked
    /// for: how many. After it the window is one still. Which are left is for speed alone, and so is `decoded`.
    ///
    /// Conditions: the thread runs, RAM begins at a multiple of 16, the window is one of the thread's program counter
    /// capability, and while the thread goes on so, nothing is hidden that it may reach.
    #[inline(always)]
    pub fn burst(&mut self, t: u32, decoded: &mut Decoded, window: &mut Window, most: u32) -> u32
        requires runs { self.old.state.running ≡ Some t }
        requires even { self.old.region.ram % 16 ≡ 0 }
        requires window { HasWindow self.old t window.old }
        requires opened { StaysOpen t most self.old }
        ensures most { result ≤ most }
        ensures goes { GoesFor t result self.old self.new }
        ensures window { HasWindow self.new t window.new }
    {
        let ram = self.rows.region.ram;
        burst(
            &mut self.rows.list[t as usize],
            &mut self.mem,
            ram,
            decoded,
            window,
            most,
        )
    }

    /// One instruction of the running thread: 1 where it was carried out, which tells nothing, else 0. After it the
    /// window is one still. Which instructions are left to the caller is for speed alone, and so is `decoded`.
    ///
    /// Conditions: as of `burst`, of one instruction.
    #[inline(always)]
    pub fn once(&mut self, t: u32, decoded: &mut Decoded, window: &mut Window) -> u32
        requires runs { self.old.state.running ≡ Some t }
        requires even { self.old.region.ram % 16 ≡ 0 }
        requires window { HasWindow self.old t window.old }
        requires opened { StaysOpen t 1 self.old }
        ensures most { result ≤ 1 }
        ensures goes { GoesFor t result self.old self.new }
        ensures window { HasWindow self.new t window.new }
    {
        let ram = self.rows.region.ram;
        let row = &mut self.rows.list[t as usize];
        once(row, &mut self.mem, ram, decoded, window)
    }
}
