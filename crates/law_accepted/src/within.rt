//! The law of where a machine's authority lies, from the boot of an image: whatever a thread holds in its
//! registers, and may load, store or run through, reaches RAM, devices and native entries alone. A
//! function with an empty body whose contract is the law.

ghost use Rattle.std.specs.Prelude.{List};
ghost use Rattle.def_boot.specs.Boot.{platform_of};
ghost use Rattle.def_image.specs.Parts.{PartsRow};
ghost use Rattle.def_image.specs.Sound.{Sound};
ghost use Rattle.def_program.specs.Within.{state_after};
ghost use Rattle.def_safety.specs.Within.{ThreadsWithin};
ghost use Rattle.def_step.specs.declared.Event.{Event};

/// After any list of events from the boot of a sound image, every address of the bounds of a tagged
/// register or program counter that may load, store or run is one of RAM, of a device or of a native
/// routine's entry.
pub fn machines_stay_within()
    ensures { (p : PartsRow) (es : List Event)
        → Sound p → ThreadsWithin (platform_of p) (state_after p es) }
{}
