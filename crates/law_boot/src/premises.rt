//! What the laws of the moves and of runs ask of an image and of its board, every sound image gives.

ghost use Rattle.def_boot.specs.Boot.{image_of, platform_of};
ghost use Rattle.def_confined.specs.Facts.{Facts};
ghost use Rattle.def_confined.specs.Partitioned.{Partitioned};
ghost use Rattle.def_image.specs.Parts.{PartsRow};
ghost use Rattle.def_image.specs.Sound.{Sound};
ghost use Rattle.def_safety.specs.Inside.{Inside};
ghost use Rattle.def_safety.specs.Wired.{Wired};

/// The premises of the laws hold of every sound image. Its machine's image is partitioned (`partitioned`). Each entry
/// that has a capability of its own has a tagged one; what is sealed as an export or a quota is a call's import or a
/// quota; imports name exports, whose gates are words of their owner's code; stacks begin at whole units, have bounds
/// that a word can spell, and end in RAM; no entry of another kind reaches native routines, nor any the heap, which no
/// root's range meets; and what boot makes is settled (`facts`). Its board is wired as the machine's step asks
/// (`wired`); and each address of a root through which something may be loaded, stored or run is one of RAM, of a
/// device, or of a native routine's entry (`inside`).
pub fn premises_hold()
    ensures partitioned { (p : PartsRow) → Sound p → Partitioned (image_of p) }
    ensures facts { (p : PartsRow) → Sound p → Facts (image_of p) }
    ensures wired { (p : PartsRow) → Sound p → Wired (platform_of p) }
    ensures inside { (p : PartsRow) → Sound p → Inside (platform_of p) }
{}
