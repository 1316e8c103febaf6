//! What a sound image boots: a state of which all holds that every event keeps.

ghost use Rattle.def_boot.specs.Boot.{boot_state, image_of};
ghost use Rattle.def_confined.specs.Confined.{Confined};
ghost use Rattle.def_confined.specs.Keeps.{Keeps};
ghost use Rattle.def_confined.specs.Settled.{Settled};
ghost use Rattle.def_hidden.specs.Hidden.{Blank};
ghost use Rattle.def_image.specs.Parts.{PartsRow};
ghost use Rattle.def_image.specs.Sound.{Sound};
ghost use Rattle.def_safety.specs.Attenuates.{LocalsInStacks};
ghost use Rattle.def_safety.specs.Tokened.{Tokened};

/// The state that a sound image boots is confined (`confined`), with what stands beside (`keeps`), for any number of
/// compartments, libraries and threads. The threads' areas and the heap are zero (`blank`); nothing is sealed as a
/// token, so that of keys and tokens all holds that every event keeps (`tokened`); and a granule that holds a
/// capability without GL is of a thread's stack, since every entry but a stack has GL (`local`). Of whatever boots from
/// an image's parts, all that is untagged has no root and no source (`settled`).
pub fn booted_states_are_confined()
    ensures confined { (p : PartsRow) → Sound p → Confined (image_of p) (boot_state p) }
    ensures keeps { (p : PartsRow) → Sound p → Keeps (image_of p) (boot_state p) }
    ensures blank { (p : PartsRow) → Sound p → Blank (image_of p) (boot_state p) }
    ensures tokened { (p : PartsRow) → Sound p → Tokened (image_of p) (boot_state p) }
    ensures local { (p : PartsRow) → Sound p → LocalsInStacks (image_of p) (boot_state p) }
    ensures settled { (p : PartsRow) → Settled (boot_state p) }
{}
