//! Laws of loads and stores of capabilities: what a load leaves in its register is attenuated by the capability that
//! it goes through, and what is local is stored through one with SL alone. They speak of the written machine alone.

ghost use Rattle.std.specs.Prelude.{List};
ghost use Rattle.def_boot.specs.Boot.{boot_state, image_of, platform_of};
ghost use Rattle.def_confined.specs.Facts.{Facts};
ghost use Rattle.def_confined.specs.Keeps.{Keeps};
ghost use Rattle.def_confined.specs.Partitioned.{Partitioned};
ghost use Rattle.def_image.specs.Parts.{PartsRow};
ghost use Rattle.def_image.specs.Sound.{Sound};
ghost use Rattle.def_machine.specs.Platform.{Platform};
ghost use Rattle.def_machine.specs.State.{State};
ghost use Rattle.def_safety.specs.Attenuates.{LoadsAttenuate, LocalsInStacks, StoresLocal};
ghost use Rattle.def_safety.specs.Wired.{Wired};
ghost use Rattle.def_step.specs.declared.Event.{Event};
ghost use Rattle.def_step.specs.Events.{happens, run};

/// Loads attenuate, whatever code runs. What a load whose checks pass leaves tagged in its register is the capability
/// of the granule: through a capability without LM it has neither SD nor LM, if it is unsealed; through one without
/// LG it has no GL, and no LG if it is unsealed; if it is sealed, it is as it was but for GL (`loads`). And what a
/// store leaves tagged in the granule is the value: it has GL, or is stored through a capability with SL (`stores`).
/// So a granule that holds a capability without GL is of a thread's stack, and stays so: through one event (`event`),
/// through any list of them, lawful or not (`events`), and in the machine of every sound image from its boot on
/// (`images`).
pub fn events_attenuate()
    ensures loads { (b : Platform) (s : State) → LoadsAttenuate b s }
    ensures stores { (b : Platform) (s : State) → StoresLocal b s }
    ensures event { (b : Platform) (s : State) (e : Event)
        → Partitioned b.image → Keeps b.image s → LocalsInStacks b.image s
        → LocalsInStacks b.image (happens b s e).0 }
    ensures events { (b : Platform) (s : State) (es : List Event)
        → Partitioned b.image → Facts b.image → Wired b → Keeps b.image s
        → LocalsInStacks b.image s → LocalsInStacks b.image (run b s es) }
    ensures images { (p : PartsRow) (es : List Event) → Sound p
        → LocalsInStacks (image_of p) (run (platform_of p) (boot_state p) es) }
{}
