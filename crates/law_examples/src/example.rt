//! A firmware that meets what the laws ask: two compartments, a library, a device and a shared object, with
//! a call, a quota, a key, a thread's stack and a heap. Its image is partitioned, and the state in which
//! it starts is confined; so the laws of the moves are about something.

ghost use Rattle.def_confined.specs.Confined.{Confined};
ghost use Rattle.def_confined.specs.Partitioned.{Partitioned};
ghost use Rattle.def_confined.specs.Facts.{RootsAway};
ghost use Rattle.def_confined.specs.Uses.{GatesOfExports};
ghost use Rattle.law_examples.specs.Small.{small};
ghost use Rattle.law_examples.specs.Starting.{starting};

/// The image is partitioned, its gates are of exports, its roots are away from its heap, and the state in which it
/// starts is confined.
pub fn small_firmware()
    ensures partitioned { Partitioned small }
    ensures gates { GatesOfExports small }
    ensures confined { Confined small starting }
    ensures roots_away { RootsAway small }
{}
