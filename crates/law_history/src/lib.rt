//! Laws of what events do one after another, whatever list of them comes: calls are clean, what is accessed is
//! licensed, a trap names the first check that fails, no freed object is used, what is handed out is fresh and comes
//! after a whole sweep, charges follow what is told and no quota is exceeded, what threads hold stays inside the
//! platform, a frame's error handler is entered at most once, loads attenuate, and keys and tokens are kept. They
//! speak of the written machine alone.
#![tactic(auto)]

mod attenuation;
mod causes;
mod derived;
mod handling;
mod keys;
mod reuse;
mod shadows;
mod token_rows;

ghost use Rattle.std.specs.Prelude.{◌≤◌, ℕ, List};
ghost use Rattle.def_safety.specs.Inside.{Inside};
ghost use Rattle.def_safety.specs.Wired.{Wired};
ghost use Rattle.def_confined.specs.Keeps.{Keeps};
ghost use Rattle.def_confined.specs.Partitioned.{Partitioned};
ghost use Rattle.def_confined.specs.Facts.{Facts};
ghost use Rattle.def_hidden.specs.Hidden.{Blank, Shut};
ghost use Rattle.def_machine.specs.Image.{root};
ghost use Rattle.def_machine.specs.Objects.{charges};
ghost use Rattle.def_machine.specs.State.{State};
ghost use Rattle.def_step.specs.declared.Event.{Event};
ghost use Rattle.def_step.specs.Events.{run};
ghost use Rattle.def_machine.specs.Platform.{Platform};
ghost use Rattle.def_safety.specs.Accesses.{UsesReach};
ghost use Rattle.def_safety.specs.Charges.{ChargesFollow};
ghost use Rattle.def_safety.specs.Chunks.{UnusedAfterFree};
ghost use Rattle.def_safety.specs.Calls.{CleanEvent};
ghost use Rattle.def_safety.specs.Each.{EachEvent, ready};
ghost use Rattle.def_safety.specs.Temporal.{AllocatesFresh, UsesLive};
ghost use Rattle.def_safety.specs.Traps.{TrapsFirst};
ghost use Rattle.def_safety.specs.Within.{ThreadsWithin};
ghost use Rattle.def_events.specs.Upheld.{Upholds};
ghost use Rattle.def_machine.specs.Rows.{RowsFit};
ghost use Rattle.def_safety.specs.Tokened.{Tokened};

pub use attenuation::events_attenuate;
pub use causes::{heap_routines_answer, scheduler_routines_answer, tokens_answer};
pub use derived::events_derive;
pub use handling::handlers_enter_once;
pub use keys::{events_tokened, tokens_opened};
pub use reuse::sweep_before_reuse;
pub use shadows::shadows_unread;
pub use token_rows::rows_last;

/// Each event upholds what a record says of it: calls are clean, accesses are licensed, no freed object is used, what
/// is handed out is fresh, a trap names the first check that fails, charges follow what is told, what threads hold
/// stays inside the board, a frame's error handler is entered where a trap is told that enters it, and only once,
/// keys and tokens are kept, capabilities come from capabilities of the running thread, and loads attenuate.
pub fn events_safe()
    ensures { (b : Platform) (s : State) (es : List Event)
        → Partitioned b.image → Facts b.image → Wired b → Inside b → Shut b.image
        → Keeps b.image s → Blank b.image s → RowsFit s.objects s.tokens → Tokened b.image s
        → EachEvent (Upholds b) b s es }
{}

/// Clean calls. A call, by whatever export, begins its callee with pcc, c1, c2 and c3 as the switcher gives them,
/// with what the export lets through of the arguments that it declares, and zero in every other register; the
/// callee's stack is zero and untagged, and its frame keeps the caller's c1, c2, c3, c8 and c9. Where a frame ends
/// that isn't its thread's only one, its caller goes on with the frames below, with pcc, posture and those registers
/// as kept, zero in all others but the results, and the stack zero and untagged up to the frame's top. The results
/// are what the export lets through; -1 and 0 of an unwind; an integer and 0 of an error handler. A trap that enters
/// an error handler begins it with its own code, the way back, the stack at the record of the trap, its compartment's
/// globals, and cause, code and register; the record lies in the frame's stack and says the registers, pcc and the
/// trap.
pub fn calls_clean()
    ensures { (b : Platform) (s : State) (es : List Event)
        → Partitioned b.image → Facts b.image → Wired b → Keeps b.image s
        → EachEvent (CleanEvent b) b s es }
{}

/// Licensed accesses. Each tagged register and program counter of the running thread is authority of a root whose
/// owner reaches the actor, or of the thread's own stack, within the root's range and rights, and the code that runs
/// is of a compartment or a library that reaches the actor, or a native routine. Where the checks of a fetch, of a
/// load or store, or of the word of a wait or wake pass, the capability that it goes through is unsealed and has the
/// right that is used, and the bytes that it meets lie in its own bounds, so in the range of that root, or of a heap
/// capability in a live object; through a stack's capability they end no further than the run of frames goes to which
/// the actor's belongs. And the capability's rights and the root's hold what is used: execute, load or store, and the
/// right to move capabilities where one is moved (`reach`). Machine stays inside: what a thread may load, store or run
/// through, by a register or its program counter, reaches RAM, devices and the entries of native routines alone
/// (`within`).
pub fn accesses_licensed()
    ensures reach { (b : Platform) (s : State) (es : List Event)
        → Partitioned b.image → Facts b.image → Wired b → Keeps b.image s
        → EachEvent (λ z e. UsesReach b z) b s es }
    ensures within { (b : Platform) (s : State) (es : List Event)
        → Partitioned b.image → Facts b.image → Wired b → Inside b → Keeps b.image s
        → EachEvent (λ z e. ThreadsWithin b (ready b z)) b s es }
{}

/// Traps. A trap that a step tells is that of the first check that fails, of the list that is written for what stands
/// at the program counter: each check before it holds, and it doesn't.
pub fn traps_first()
    ensures { (b : Platform) (s : State) (es : List Event) → EachEvent (TrapsFirst b) b s es }
{}

/// No use after free. No load or store whose checks pass, and no wait or wake, goes through a capability of an object
/// that isn't live (`rows`). And where a free is told after some events, then after any more none goes through a
/// capability of the freed object (`deeds`).
pub fn freed_unused()
    ensures rows { (b : Platform) (s : State) (es : List Event)
        → Partitioned b.image → Facts b.image → Wired b → Keeps b.image s
        → EachEvent (λ z e. UsesLive b z) b s es }
    ensures deeds { (b : Platform) (s : State)
        → Partitioned b.image → Facts b.image → Wired b → Keeps b.image s → UnusedAfterFree b s }
{}

/// Fresh objects. A new object reads as zero and untagged, and no other capability that isn't empty covers
/// it.
pub fn allocations_fresh()
    ensures { (b : Platform) (s : State) (es : List Event)
        → Partitioned b.image → Facts b.image → Wired b → Shut b.image → Keeps b.image s
        → Blank b.image s → EachEvent (AllocatesFresh b) b s es }
{}

/// Quotas hold. After any list of events the live charges on each quota are at most its limit (`limits`). A free that
/// is told takes the object's length and head from the live charges on its quota, an allocation adds them; those on
/// other quotas stay, and what is told is what the charges come to (`charges`).
pub fn quotas_hold()
    ensures limits { (b : Platform) (s : State) (es : List Event) (q : ℕ)
        → Partitioned b.image → Facts b.image → Wired b → Keeps b.image s
        → charges q (run b s es).objects ≤ (root b.image q).limit }
    ensures charges { (b : Platform) (s : State) (es : List Event)
        → Partitioned b.image → Facts b.image → Wired b → Keeps b.image s
        → EachEvent (ChargesFollow b) b s es }
{}
