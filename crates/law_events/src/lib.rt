//! Laws of events and of runs: whatever an event, or a list of them, does, native routines and error handlers among it,
//! keeps a state confined, with what stands beside, and each deed and each span with interrupts off that it tells is
//! licensed. They speak of the written machine alone.
#![tactic(auto)]

mod blank;
mod fresh;
mod handlers;
mod natives;
mod shut;

ghost use Rattle.std.specs.Prelude.{◌≡◌, List, Some};
ghost use Rattle.ct_entry.specs.declared.acts.Deed.{Deed};
ghost use Rattle.ct_entry.specs.declared.acts.Owned.{Owned};
ghost use Rattle.def_machine.specs.State.{State};
ghost use Rattle.def_step.specs.declared.Event.{Event};
ghost use Rattle.def_machine.specs.Platform.{Platform};
ghost use Rattle.def_step.specs.Events.{happens, run, happenings_of};
ghost use Rattle.def_safety.specs.Wired.{Wired};
ghost use Rattle.def_confined.specs.Facts.{Facts};
ghost use Rattle.def_confined.specs.Keeps.{Keeps};
ghost use Rattle.def_confined.specs.Partitioned.{Partitioned};
ghost use Rattle.def_confined.specs.Licensed.{Licensed, OffLicensed};
ghost use Rattle.def_confined.specs.Telling.{AllLicensed};

pub use blank::events_blank;
pub use fresh::fresh_objects;
pub use handlers::handlers_begin;
pub use natives::{routines_clean, routines_stand};
pub use shut::accesses_seen;

/// Every event (`one`), and any list of events (`all`), lawful or not, keeps a state confined, and what stands beside.
pub fn events_confined()
    ensures one { (b : Platform) (s : State) (e : Event)
        → Partitioned b.image → Facts b.image → Wired b → Keeps b.image s
        → Keeps b.image (happens b s e).0 }
    ensures all { (b : Platform) (s : State) (es : List Event)
        → Partitioned b.image → Facts b.image → Wired b → Keeps b.image s
        → Keeps b.image (run b s es) }
{}

/// The deed of an event (`deeds`), and the span with interrupts off that begins with it (`spans`), are licensed; so is
/// each that a list of events tells (`all`).
pub fn events_licensed()
    ensures deeds { (b : Platform) (s : State) (e : Event) (d : Deed)
        → Partitioned b.image → Facts b.image → Wired b → Keeps b.image s
        → (happens b s e).1.deed ≡ Some d → Licensed b.image.entries d }
    ensures spans { (b : Platform) (s : State) (e : Event) (o : Owned)
        → Partitioned b.image → Facts b.image → Wired b → Keeps b.image s
        → (happens b s e).1.off ≡ Some o → OffLicensed b.image.entries o }
    ensures all { (b : Platform) (s : State) (es : List Event)
        → Partitioned b.image → Facts b.image → Wired b → Keeps b.image s
        → AllLicensed b.image.entries (happenings_of b s es) }
{}
