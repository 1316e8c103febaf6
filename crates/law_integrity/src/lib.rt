//! Laws of *Integrity*: whatever an event changes of granules, of threads, of devices and of the heap's rows, it
//! changes for a reason that is listed; and so those alone change code, globals, stacks, live objects and devices who
//! may. They speak of the written machine alone.
#![tactic(auto)]

ghost use Rattle.std.specs.Prelude.{List};
ghost use Rattle.def_boot.specs.Boot.{boot_state, platform_of};
ghost use Rattle.def_confined.specs.Facts.{Facts};
ghost use Rattle.def_confined.specs.Keeps.{Keeps};
ghost use Rattle.def_confined.specs.Partitioned.{Partitioned};
ghost use Rattle.def_image.specs.Parts.{PartsRow};
ghost use Rattle.def_image.specs.Sound.{Sound};
ghost use Rattle.def_integrity.specs.Homes.{HomesKept, HomesStay};
ghost use Rattle.def_integrity.specs.Integrity.{Integrity};
ghost use Rattle.def_integrity.specs.Threads.{OwnFrames};
ghost use Rattle.def_machine.specs.Platform.{Platform};
ghost use Rattle.def_machine.specs.State.{State};
ghost use Rattle.def_safety.specs.Each.{EachEvent};
ghost use Rattle.def_safety.specs.Wired.{Wired};
ghost use Rattle.def_step.specs.declared.Event.{Event};

/// Integrity, of every list of events, lawful or not. Whatever an event changes it changes for a reason that is
/// listed (`each`). So of each event (`homes`): a compartment's globals change by stores of actors that it reaches; a
/// stack by steps of its own thread, no further up than the run of its frames goes; a shared or sealed object by
/// actors that the owner of an import of it reaches; a live object by actors that its quota's owner reaches; a device
/// by actors that its import's owner reaches, or by an input of its own. And through the list (`stays`): code stays,
/// and so does what belongs to those who don't act. Of the frames of the thread that carries on a step pushes one,
/// marks the innermost, ends it, or leaves them: what the others saved stays, in any state and whatever the code does
/// (`frames`).
pub fn integrity_kept()
    ensures each { (b : Platform) (s : State) (es : List Event)
        → Partitioned b.image → Facts b.image → Wired b → Keeps b.image s
        → EachEvent (Integrity b) b s es }
    ensures homes { (b : Platform) (s : State) (es : List Event)
        → Partitioned b.image → Facts b.image → Wired b → Keeps b.image s
        → EachEvent (HomesKept b) b s es }
    ensures stays { (b : Platform) (s : State) (es : List Event)
        → Partitioned b.image → Facts b.image → Wired b → Keeps b.image s
        → HomesStay b s es }
    ensures frames { (b : Platform) (s : State) (e : Event) → OwnFrames b s e }
{}

/// The same of the machine of every sound image, whatever list of events comes from its boot: it needs no other
/// premise.
pub fn images_kept()
    ensures each { (p : PartsRow) (es : List Event) → Sound p
        → EachEvent (Integrity (platform_of p)) (platform_of p) (boot_state p) es }
    ensures homes { (p : PartsRow) (es : List Event) → Sound p
        → EachEvent (HomesKept (platform_of p)) (platform_of p) (boot_state p) es }
    ensures stays { (p : PartsRow) (es : List Event) → Sound p
        → HomesStay (platform_of p) (boot_state p) es }
{}
