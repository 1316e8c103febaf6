//! The machine: parts whose state is confined.

ghost use Rattle.std.specs.Prelude.{ℕ, ◌≡◌, ◌+◌, ◌≤◌, ◌<◌, ◌||◌, List, IsTrue, IfOk, is_some, true};
ghost use Rattle.def_profile.specs.declared.limits.TheConstants.{MOST_STEPS};
ghost use Rattle.def_events.specs.Guarded.{Guarded};
ghost use Rattle.def_boot.specs.Boot.{booted_machine};
ghost use Rattle.def_confined.specs.Telling.{AllLicensed, IsLicensedEvent};
ghost use Rattle.def_machine.specs.Image.{root};
ghost use Rattle.def_machine.specs.Objects.{charges};
ghost use Rattle.def_step.specs.declared.Event as events;
ghost use Rattle.def_events.specs.Upheld.{Upholds};
ghost use Rattle.def_integrity.specs.Homes.{HomesKept, HomesStay};
ghost use Rattle.def_integrity.specs.Integrity.{Integrity};
ghost use Rattle.def_safety.specs.Attenuates.{LocalsInStacks};
ghost use Rattle.def_safety.specs.Each.{EachEvent};
ghost use Rattle.def_step.specs.Events.{happenings_of, happens, run, is_lawful, end_of, totals_of};
ghost use Rattle.def_boot.specs.Booting.{empty_granules};
ghost use Rattle.def_safety.specs.Chunks.{SweptBeforeReuse, UnusedAfterFree};
ghost use Rattle.def_truly.specs.Exactly.{TellsExactly};
ghost use Rattle.ct_machine.specs.Onward.{tells, RanOn};

use crate::parts::Parts;
use crate::rounds::Rounds;
use ct_entry::{End, Happened, Totals};
use ct_image::Image;
use ct_mem::Memory;
use def_refusals::NoMemory;
use def_step::Event;
use std::alloc::Global;
use std::marker::Model;

/// An image that runs, over some memory.
///
/// Contracts see it as its board, which never changes, and its state. Its type keeps it guarded, whatever the
/// code bytes are: the state is *Confined*, what is hidden is zero, a thread that runs has a frame, and what is
/// local stands in stacks (docs/claims/confinement.md).
#[derive(Drop)]
pub struct Machine<M: Memory + Drop> {
    parts: Parts<M>,
}

impl<M: Memory + Drop> Model for Machine<M> {
    ghost use Rattle.def_events.specs.Guarded.{Guarded};
    ghost use Rattle.def_machine.specs.Platform.{MachineRow};

    ghost Value = { MachineRow };

    ghost view = { λ m. m.parts };

    ghost invariant = { λ m. Guarded m.parts };
}

impl<M: Memory + Drop> Machine<M> {
    /// The machine of an image, booted: its memory, devices and threads are as *Boot state* says, and
    /// no event has come.
    ///
    /// Condition: the memory reads as zero, is unmarked, and has the size of the image's RAM.
    /// `NoMemory` where the allocator has no room for the entries, the devices, the threads, their turns and
    /// the words of code that are kept decoded.
    pub fn start(alloc: Global, image: &Image, mem: M) -> Result<Machine<M>, NoMemory>
        requires empty { M.granules mem ≡ empty_granules image.now }
        ensures booted { IfOk result (λ m. m ≡ booted_machine image.now) }
        ensures guarded { IfOk result (λ m. Guarded m) }
    {
        match Parts::start(alloc, image, mem) {
            Ok(parts) => Ok(Machine { parts }),
            Err(none) => Err(none),
        }
    }

    /// Whether an event may come now: fewer than 4,000,000,000 of its kind have come, and an input
    /// names a device.
    pub fn lawful(&self, event: Event) -> bool
        ensures { result ≡ is_lawful self.now.state event }
    {
        self.parts.lawful(event)
    }

    /// `Finished` exactly where every thread has ended, `Idle` exactly where one waits and none is
    /// ready or sleeping, else `None`.
    pub fn ended(&self) -> Option<End>
        ensures { result ≡ end_of self.now.state }
    {
        self.parts.ended()
    }

    /// The counts of the run so far, which ended so.
    pub fn totals(&self, end: End) -> Totals
        ensures { result ≡ totals_of self.now.state end }
    {
        self.parts.totals(end)
    }

    /// One event. It is lawful now. No event is refused, and none takes memory.
    ///
    /// The state and what happened are the written step's. The state stays confined, and the deed and
    /// the span with interrupts off that the event tells are licensed by the report's entries.
    pub fn advance(&mut self, event: Event) -> Happened
        requires { IsTrue (is_lawful self.old.state event) }
        ensures state { self.new.state ≡ (happens self.old.board self.old.state event).0 }
        ensures told { result ≡ (happens self.old.board self.old.state event).1 }
        ensures board { self.new.board ≡ self.old.board }
        ensures guarded { Guarded self.new }
        ensures licensed { IsLicensedEvent self.old.board.image.entries result }
    {
        self.parts.advance(event)
    }

    /// Rounds, each a slice of a sweep and a step: at least one, even of a machine at its end, at most `most`, which
    /// are lawful now, and none after one whose step tells something or that leaves the machine at its end.
    ///
    /// What they leave is what `advance` leaves of these events; all but the last step told nothing, and what the last
    /// told is answered. This call is for speed: what one step leaves for the next isn't asked again, and a machine of
    /// which no thread can run before the next tick makes its rounds at once.
    pub fn run_on(&mut self, most: u32) -> Rounds
        requires some { 1 ≤ most }
        requires steps { self.old.state.counts.steps + most ≤ MOST_STEPS }
        requires sweeps { self.old.state.counts.sweeps + most ≤ MOST_STEPS }
        ensures some { 1 ≤ result.count }
        ensures most { result.count ≤ most }
        ensures ran { RanOn self.old self.new result.count result.told }
        ensures stops { result.count < most
            → (tells result.told || is_some (end_of self.new.state)) ≡ true }
        ensures guarded { Guarded self.new }
        ensures licensed { IsLicensedEvent self.old.board.image.entries result.told }
    {
        self.parts.run_on(most)
    }

    /// Whatever events come next, one after another, whatever the code bytes are. A law, told of the machine as it is
    /// now: nothing is done. docs/claims/claims.md.
    ///
    /// Of each event:
    ///
    /// - `safe`: calls are clean, and a frame's error handler is entered where a trap is told that enters it, and only
    ///   once. Each access goes through a capability whose root's owner reaches the actor, and none through one of a
    ///   freed object; a new object reads as zero, and no other capability that isn't empty covers it. A trap that is
    ///   told is that of the first check that fails; charges follow the allocations and frees that are told; what the
    ///   thread that carries on holds reaches RAM, devices and native entries alone; and keys and tokens are kept.
    ///   Whatever stands anywhere comes of what stood, by the thread that carries on; loads attenuate, and what is
    ///   local is stored through SL alone.
    /// - `exact`: a deed that is told was done, by the thread that carries on, by the compartment of its innermost
    ///   frame, and through the entry that is told. An access that reaches a device is told; and where devices change,
    ///   but by an input, frames grow, objects or charges change or interrupts go off, that is told. A step of which a
    ///   check fails does nothing but trap, a thread's only frame ends it, and the thread carries on whose turn it is.
    /// - `integrity`: what it changes of RAM, of threads, of devices and of the heap's rows, it changes for a reason
    ///   that is listed; and so (`homes`) globals, stacks, live objects and devices change by those alone who may.
    ///
    /// Of all of them: code stays as it is, and globals, stacks, threads, live objects and devices while none acts
    /// who may change them (`stay`); a capability without GL stands in stacks alone (`locals`); each deed and each span
    /// with interrupts off is licensed by the image's entries (`licensed`); after a free that is told no access goes
    /// through a capability of its object (`unused`); a chunk is handed out again only after a whole sweep that began
    /// after its free (`swept`); and no quota is charged with more than its limit (`quotas`).
    pub fn whatever_comes(&self)
        ensures safe { (es : List events.Event)
            → EachEvent (Upholds self.now.board) self.now.board self.now.state es }
        ensures exact { (es : List events.Event)
            → EachEvent (TellsExactly self.now.board) self.now.board self.now.state es }
        ensures integrity { (es : List events.Event)
            → EachEvent (Integrity self.now.board) self.now.board self.now.state es }
        ensures homes { (es : List events.Event)
            → EachEvent (HomesKept self.now.board) self.now.board self.now.state es }
        ensures stay { (es : List events.Event) → HomesStay self.now.board self.now.state es }
        ensures locals { (es : List events.Event) → LocalsInStacks self.now.board.image
            (run self.now.board self.now.state es) }
        ensures licensed { (es : List events.Event) → AllLicensed self.now.board.image.entries
            (happenings_of self.now.board self.now.state es) }
        ensures unused { UnusedAfterFree self.now.board self.now.state }
        ensures swept { SweptBeforeReuse self.now.board self.now.state }
        ensures quotas { (es : List events.Event) (q : ℕ)
            → charges q (run self.now.board self.now.state es).objects
            ≤ (root self.now.board.image q).limit }
    {
        let _parts = &self.parts;
    }
}
