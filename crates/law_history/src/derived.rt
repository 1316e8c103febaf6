//! Laws of where capabilities come from: whatever an event leaves in a register, a granule, a program counter or a
//! frame stood somewhere before, was made by the running thread of a step from what it has at hand, was given by the
//! switcher for what the step tells, or is of an object that it hands out or opens; but for these, what the running
//! thread holds afterwards it held itself; and what opens is token_open alone, given a token with its key. They speak
//! of the written machine alone.

ghost use Rattle.std.specs.Prelude.{◌≡◌, true};
ghost use Rattle.def_profile.specs.declared.seals.TheConstants.{TOKEN_TYPE};
ghost use Rattle.def_words.specs.declared.Cap.{Cap};
ghost use Rattle.def_words.specs.Narrows.{IsOpened};
ghost use Rattle.def_words.specs.Seals.{cap_seal};
ghost use Rattle.def_safety.specs.Wired.{Wired};
ghost use Rattle.def_machine.specs.Platform.{Platform};
ghost use Rattle.def_machine.specs.State.{State};
ghost use Rattle.def_confined.specs.Keeps.{Keeps};
ghost use Rattle.def_confined.specs.Partitioned.{Partitioned};
ghost use Rattle.def_confined.specs.Facts.{Facts};
ghost use Rattle.def_step.specs.declared.Event.{Event};
ghost use Rattle.def_step.specs.Events.{happens};
ghost use Rattle.def_safety.specs.Everywhere.{Everywhere};
ghost use Rattle.def_safety.specs.Comes.{Comes, Stands, Stood};
ghost use Rattle.def_events.specs.Holdings.{RunningHolds};
ghost use Rattle.def_events.specs.Opened.{ComesOpened};
ghost use Rattle.def_safety.specs.Tokened.{Tokened};

/// Capabilities come from capabilities. Whatever stands anywhere after an event, lawful or not, if it is tagged: it
/// stood somewhere before; or the event is a step, and its running thread made it, by an operation on its program
/// counter, on one of its registers or on the granule that its load reads, by a jump or a routine through one of its
/// registers, by a return through what its innermost frame saved, or as the link of its program counter; or the
/// switcher gave it, the callee's own or the thread's stack below its c2 at a call that the step tells, or the
/// handler's own where it tells a trap that enters one; or it is the capability of an object that the event handed
/// out, or a token that it opened (`comes`).
///
/// And what is sealed as a token is opened by nothing but a step that carries out token_open, whose caller may
/// return, holds a key in c10, and in c11 the token of it that is opened. So whatever stands anywhere after an event
/// is one that comes otherwise, by an operation, which opens no token, or it is that token without its seal
/// (`opened`); and no jump or return makes anything of what is sealed as a token (`jumps`).
///
/// And of the thread that carries on: whatever it holds after its step, in its program counter, a register or a
/// frame, if it is tagged, it held before, itself; or it made it, from what it had at hand; or the switcher gave it,
/// for the call or the trap that the step tells; or a routine of the heap did (`running`).
pub fn events_derive()
    ensures comes { (b : Platform) (s : State) (e : Event)
        → Partitioned b.image → Facts b.image → Keeps b.image s
        → Everywhere (Comes b (Stood s) s e) (happens b s e).0 }
    ensures opened { (b : Platform) (s : State) (e : Event)
        → Partitioned b.image → Facts b.image → Keeps b.image s → Tokened b.image s
        → Everywhere (ComesOpened b (Stood s) s e) (happens b s e).0 }
    ensures jumps { (b : Platform) (s : State) (e : Event) (c : Cap)
        → Partitioned b.image → Facts b.image → Wired b → Keeps b.image s → Tokened b.image s
        → Stands s c → c.tag ≡ true → cap_seal c ≡ TOKEN_TYPE
        → Everywhere (λ d. d.tag ≡ true → IsOpened c d → ⊥) (happens b s e).0 }
    ensures running { (b : Platform) (s : State)
        → Partitioned b.image → Facts b.image → Keeps b.image s → RunningHolds b s }
{}
